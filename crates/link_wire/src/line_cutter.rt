//! The lines before the frames, cut from a stream.

ghost use Rattle.std.specs.Prelude.{◌≡◌, [], IfErr, IfOk, IsTrue, MatchOption, OnErr, OnOk};
ghost use Rattle.link_wire.specs.declared.line_cutter.CutFault.TheVariants.{NoMemory, TooLong};

use imap_types::Octets;
use std::alloc::{AllocError, Global};
use std::marker::Model;
use std::mem;
use text_fields::split;
use thiserror::Error;

/// Why no line is given.
#[derive(Clone, Copy, Debug, PartialEq, Eq, Error)]
pub enum CutFault {
    /// The line is longer than the limit.
    #[error("line too long")]
    TooLong,
    /// Memory ran out.
    #[error("no memory")]
    NoMemory,
}

impl From<AllocError> for CutFault {
    ghost from_gives = { λ _ fault. fault ≡ NoMemory };

    fn from(_: AllocError) -> CutFault {
        CutFault::NoMemory
    }
}

/// Cuts lines from a stream, in whatever pieces it arrives.
#[derive(Drop)]
pub struct LineCutter {
    limit: usize,
    line: Vec<u8>,
}

impl Model for LineCutter {
    ghost use Rattle.link_wire.specs.LineCuts.{CutterState, IsOpenLine};

    ghost Value = { CutterState };

    ghost view = { λ c. record { limit = c.limit; line = c.line.items } };

    ghost invariant = { λ c. IsOpenLine (record { limit = c.limit; line = c.line.items }) };
}

impl LineCutter {
    ghost use Rattle.link_wire.specs.Digests.{has_no_lf};
    ghost use Rattle.link_wire.specs.LineCuts.{EndsLine, ContinuesLine, IsTooLong};

    /// The most octets of a line that begins a link, without its end.
    pub const LINE_OCTETS: usize = 128;

    /// A cutter at the beginning of a stream.
    pub fn new(alloc: Global, limit: usize) -> LineCutter
        ensures { result ≡ record { limit = limit; line = [] } }
    {
        LineCutter {
            limit,
            line: Vec::new(alloc),
        }
    }

    /// Takes the next octets of the stream. If they end the line, gives the line without its end,
    /// and the octets after it, which weren't looked at; else `None`. After an `Err` the cutter is
    /// as it was.
    pub fn take<'a>(
        &mut self,
        alloc: Global,
        piece: &'a [u8],
    ) -> Result<Option<(Octets, &'a [u8])>, CutFault>
        ensures ok { IfOk result (λ taken. MatchOption taken
            (ContinuesLine self.old piece.now self.new)
            (λ t. EndsLine self.old piece.now self.new t.0 t.1.now)) }
        ensures same { OnErr result (self.new ≡ self.old) }
        ensures err { IfErr result (λ fault. fault ≡ TooLong → IsTooLong self.old piece.now) }
    {
        match split(b'\n', piece) {
            None => {
                self.push(piece)?;
                Ok(None)
            }
            Some((front, rest)) => {
                self.push(front)?;
                let line = mem::replace(&mut self.line, Vec::new(alloc));
                Ok(Some((Octets::new(line), rest)))
            }
        }
    }

    /// Takes more octets of the line, none of which ends it.
    fn push(&mut self, octets: &[u8]) -> Result<(), CutFault>
        requires { IsTrue (has_no_lf octets.now) }
        ensures ok { OnOk result (ContinuesLine self.old octets.now self.new) }
        ensures same { OnErr result (self.new ≡ self.old) }
        ensures err { IfErr result (λ fault. fault ≡ TooLong → IsTooLong self.old octets.now) }
    {
        if octets.len() > self.limit - self.line.len() {
            return Err(CutFault::TooLong);
        }
        self.line.extend_from_slice(octets)?;
        Ok(())
    }
}

//! The framer of a connection.

ghost use Rattle.std.specs.Prelude.{◌≡◌, OnOk, IfOk, IfErr, IsOk, Ok};

use crate::fault::{FrameFault, FrameFaultKind};
use crate::item::Item;
use crate::item_cut::cut_piece;
use crate::limits::Limits;
use crate::progress::FrameProgress;
use std::alloc::Global;
use std::marker::Model;

/// Reads the octets of a connection as commands, in whatever pieces they arrive (RFC 9051, section
/// 2.2.2). Only CRLF ends a line; a CR or LF by itself is an ordinary octet.
#[derive(Drop)]
pub struct Framer {
    limits: Limits,
    progress: FrameProgress,
    fault: Option<FrameFaultKind>,
}

impl Model for Framer {
    ghost use Rattle.imap_lex.specs.Framing.{FramerState, state_of};

    ghost Value = { FramerState };

    ghost view = { λ f. record { limits = f.limits; state = state_of f.fault f.progress } };
}

impl Framer {
    ghost use Rattle.imap_lex.specs.Framing.{FaultsNow, cut_from, start};

    /// A framer at the beginning of a stream.
    pub fn new(alloc: Global, limits: Limits) -> Framer
        ensures { result ≡ record { limits = limits; state = Ok start } }
    {
        Framer {
            limits,
            progress: FrameProgress::new(alloc),
            fault: None,
        }
    }

    /// Reads the next octets of the stream, and returns the items that they complete. Its time and
    /// memory are proportional to the piece and to what has been read of a command, never to what a
    /// mark announces.
    ///
    /// The first octet that makes a fault decides which one it is: a NUL (`NulByte`), the first
    /// octet outside literals past the limit (`LineTooLong`), or the LF after a mark `{n+}` that
    /// passes the limit of literals (`LiteralTooLong`). If memory runs out the fault is `NoMemory`.
    /// Each fault carries the items before it (`NoMemory` the first of them, possibly not all), and
    /// every later call returns `Failed`.
    pub fn feed(&mut self, alloc: Global, piece: &[u8]) -> Result<Vec<Item>, FrameFault>
        ensures limits { self.new.limits ≡ self.old.limits }
        ensures ok { IfOk result (λ items. cut_from self.old.limits self.old.state piece.now
            ≡ (items.items, self.new.state)) }
        ensures state_ok { OnOk result (IsOk self.new.state) }
        ensures err { IfErr result (λ fault. FaultsNow fault.why fault.items.items self.old.state
            self.new.state (cut_from self.old.limits self.old.state piece.now)) }
    {
        let mut items = Vec::new(alloc);
        if self.fault.is_some() {
            return Err(FrameFault {
                items,
                why: FrameFaultKind::Failed,
            });
        }
        match cut_piece(alloc, self.limits, &mut self.progress, &mut items, piece) {
            Ok(()) => Ok(items),
            Err(why) => {
                self.fault = Some(why);
                Err(FrameFault { items, why })
            }
        }
    }
}

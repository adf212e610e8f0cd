//! What was read of the next command.

ghost use Rattle.std.specs.Prelude.{◌≡◌, ◌⊎◌, ◌+◌, ◌-◌, ◌^◌, ◌<◌, ◌≤◌, ◌++◌, true, false, length};
ghost use Rattle.std.specs.Prelude.{IfOk, IfErr, OnOk, Ok, Err};
ghost use Rattle.imap_lex.specs.declared.fault.FrameFaultKind.TheVariants.{NoMemory, NulByte};

use crate::fault::FrameFaultKind;
use crate::item::{Frame, Item};
use crate::limits::Limits;
use crate::literal_mark::{LineEffect, read_line_effect};
use std::alloc::Global;
use std::marker::Model;
use std::mem;

/// What was read of the next command.
#[derive(Drop)]
pub(crate) struct FrameProgress {
    /// Its lines that ended with a mark, with the octets of their literals.
    front: Vec<u8>,
    /// The octets after these, of a line that hasn't ended.
    line: Vec<u8>,
    /// The number of octets outside literals.
    outside: usize,
    /// The number of octets that the marks announced.
    announced: usize,
    /// How many of the announced octets haven't been read.
    awaited: usize,
}

impl Model for FrameProgress {
    ghost use Rattle.imap_lex.specs.Framing.{FrameProgress};

    ghost Value = { FrameProgress };

    ghost view = { λ p. record {
      front = p.front.items;
      line = p.line.items;
      outside = p.outside;
      announced = p.announced;
      awaited = p.awaited;
    } };
}

impl FrameProgress {
    ghost use Rattle.imap_lex.specs.MarkReading.{line_effect_of};
    ghost use Rattle.imap_lex.specs.Framing.{start, has_nul, after_literal, after_octet};
    ghost use Rattle.imap_lex.specs.Framing.{after_line_octet, after_line_end, with_octets};

    /// Nothing was read.
    pub(crate) fn new(alloc: Global) -> FrameProgress
        ensures { result ≡ start }
    {
        FrameProgress {
            front: Vec::new(alloc),
            line: Vec::new(alloc),
            outside: 0,
            announced: 0,
            awaited: 0,
        }
    }

    /// How many octets of a literal haven't been read.
    pub(crate) fn awaited_octets(&self) -> usize
        ensures { result ≡ self.now.awaited }
    {
        self.awaited
    }

    /// Takes the next octets of a literal, all at once. After an `Err` the progress can't be used.
    pub(crate) fn take_literal(&mut self, octets: &[u8]) -> Result<(), FrameFaultKind>
        requires { length octets.now ≤ self.old.awaited }
        ensures ok { OnOk result
            ((has_nul octets.now ≡ false) × (self.new ≡ after_literal self.old octets.now)) }
        ensures err { IfErr result
            (λ why. (why ≡ NoMemory) ⊎ ((why ≡ NulByte) × (has_nul octets.now ≡ true))) }
    {
        if octets.contains(&0) {
            return Err(FrameFaultKind::NulByte);
        }
        self.front.extend_from_slice(octets)?;
        self.awaited -= octets.len();
        Ok(())
    }

    /// How many further octets may be outside literals.
    pub(crate) fn room(&self, limits: Limits) -> usize
        ensures { result ≡ limits.line - self.now.outside }
    {
        limits.line.saturating_sub(self.outside)
    }

    /// Takes octets inside a line, all at once. After an `Err` the progress can't be used.
    pub(crate) fn take_inside(&mut self, octets: &[u8]) -> Result<(), FrameFaultKind>
        requires { self.old.outside + length octets.now < 2 ^ 64 }
        ensures ok { OnOk result (self.new ≡ with_octets self.old octets.now) }
        ensures err { IfErr result (λ why. why ≡ NoMemory) }
    {
        self.line.extend_from_slice(octets)?;
        self.outside += octets.len();
        Ok(())
    }

    /// Takes the next octet of a line, and returns the item that it completes, if any. After an
    /// `Err` the progress can't be used.
    pub(crate) fn take(
        &mut self,
        alloc: Global,
        limits: Limits,
        octet: u8,
    ) -> Result<Option<Item>, FrameFaultKind>
        requires { self.old.awaited ≡ 0 }
        ensures ok { IfOk result (λ item. after_octet limits self.old octet ≡ Ok (item, self.new)) }
        ensures err { IfErr result
            (λ why. (why ≡ NoMemory) ⊎ (after_octet limits self.old octet ≡ Err why)) }
    {
        if octet == 0 {
            return Err(FrameFaultKind::NulByte);
        }
        self.take_line_octet(alloc, limits, octet)
    }

    /// Takes an octet of a line other than NUL.
    fn take_line_octet(
        &mut self,
        alloc: Global,
        limits: Limits,
        octet: u8,
    ) -> Result<Option<Item>, FrameFaultKind>
        ensures ok { IfOk result
            (λ item. after_line_octet limits self.old octet ≡ Ok (item, self.new)) }
        ensures err { IfErr result
            (λ why. (why ≡ NoMemory) ⊎ (after_line_octet limits self.old octet ≡ Err why)) }
    {
        if self.outside >= limits.line {
            return Err(FrameFaultKind::LineTooLong);
        }
        let ends = octet == b'\n' && self.line.last() == Some(&b'\r');
        self.line.push(octet)?;
        self.outside += 1;
        if ends {
            return self.end_line(alloc, limits);
        }
        Ok(None)
    }

    /// Ends the line that was read, whose last octets are CRLF.
    fn end_line(&mut self, alloc: Global, limits: Limits) -> Result<Option<Item>, FrameFaultKind>
        ensures ok { IfOk result (λ item. after_line_end self.old
            (line_effect_of self.old.line (limits.literals - self.old.announced))
            ≡ Ok (item, self.new)) }
        ensures err { IfErr result (λ why. (why ≡ NoMemory)
            ⊎ (after_line_end self.old
            (line_effect_of self.old.line (limits.literals - self.old.announced)) ≡ Err why)) }
    {
        match read_line_effect(&self.line, limits.literals.saturating_sub(self.announced)) {
            LineEffect::Whole => Ok(Some(Item::Frame(self.finish(alloc)?))),
            LineEffect::Literal { octets, plus } => {
                self.front.extend_from_slice(&self.line)?;
                self.line.clear();
                self.announced += octets;
                self.awaited = octets;
                Ok(if plus { None } else { Some(Item::Ready) })
            }
            LineEffect::TooLong { plus } => {
                if plus {
                    return Err(FrameFaultKind::LiteralTooLong);
                }
                Ok(Some(Item::Refused(self.finish(alloc)?)))
            }
        }
    }

    /// Returns the octets that were read, and starts with the next command.
    fn finish(&mut self, alloc: Global) -> Result<Frame, FrameFaultKind>
        ensures ok { IfOk result
            (λ frame. (frame ≡ self.old.front ++ self.old.line) × (self.new ≡ start)) }
        ensures err { IfErr result (λ why. why ≡ NoMemory) }
    {
        let FrameProgress { front, line, .. } = mem::replace(self, FrameProgress::new(alloc));
        if front.is_empty() {
            return Ok(Frame::new(line));
        }
        let mut octets = front;
        octets.extend_from_slice(&line)?;
        Ok(Frame::new(octets))
    }
}

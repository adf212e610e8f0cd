//! What was read of the next frame.

ghost use Rattle.std.specs.Prelude.{◌≡◌, ◌⊎◌, ◌+◌, ◌-◌, ◌<◌, ◌≤◌, IfOk, IfErr, Ok, Err, None, Some};
ghost use Rattle.std.specs.Prelude.{length};
ghost use Rattle.link_wire.specs.declared.fault.FrameFault.TheVariants.{NoMemory};

use crate::digest::frame_digest;
use crate::fault::FrameFault;
use crate::header::{Header, read_header};
use crate::limits::Limits;
use crate::payload::Payload;
use keyed_digest::are_equal;
use std::alloc::Global;
use std::marker::Model;
use std::mem;

/// What was read of the next frame.
#[derive(Drop)]
pub(crate) struct FrameProgress {
    /// The number of headers that were read.
    number: u64,
    /// The octets that were read of the header.
    line: Vec<u8>,
    /// What the header says, once it has ended.
    header: Option<Header>,
    /// The octets that were read of the payload.
    payload: Vec<u8>,
}

impl Model for FrameProgress {
    ghost use Rattle.link_wire.specs.Framing.{FrameProgress};

    ghost Value = { FrameProgress };

    ghost view = { λ p. record {
      number = p.number;
      line = p.line.items;
      header = p.header;
      payload = p.payload.items;
    } };
}

impl FrameProgress {
    ghost use Rattle.link_wire.specs.Digests.{frame_digest};
    ghost use Rattle.link_wire.specs.Framing.{after_header, after_header_octet, after_octets};
    ghost use Rattle.link_wire.specs.Framing.{awaited_octets, end_of_payload, header_at, start};

    /// Nothing was read after this many frames.
    pub(crate) fn new(alloc: Global, number: u64) -> FrameProgress
        ensures { result ≡ start number }
    {
        FrameProgress {
            number,
            line: Vec::new(alloc),
            header: None,
            payload: Vec::new(alloc),
        }
    }

    /// The number of octets of a payload that haven't been read.
    pub(crate) fn awaited_octets(&self) -> usize
        ensures { result ≡ awaited_octets self.now }
    {
        match self.header {
            None => 0,
            Some(header) => header.announced.saturating_sub(self.payload.len()),
        }
    }

    /// Takes the next octets of a payload, and gives the payload that they complete. After an `Err`
    /// it can't be used.
    pub(crate) fn take_payload(
        &mut self,
        alloc: Global,
        key: &[u8],
        octets: &[u8],
    ) -> Result<Option<Payload>, FrameFault>
        ensures ok { IfOk result (λ given.
            after_octets (frame_digest key.now) self.old octets.now ≡ Ok (given, self.new)) }
        ensures err { IfErr result (λ why. (why ≡ NoMemory)
            ⊎ (after_octets (frame_digest key.now) self.old octets.now ≡ Err why)) }
    {
        self.payload.extend_from_slice(octets)?;
        match self.header {
            None => Ok(None),
            Some(header) => self.end_payload(alloc, key, header),
        }
    }

    /// Gives the payload if it is whole and its digest is the header's.
    fn end_payload(
        &mut self,
        alloc: Global,
        key: &[u8],
        header: Header,
    ) -> Result<Option<Payload>, FrameFault>
        ensures ok { IfOk result (λ given.
            end_of_payload (frame_digest key.now) self.old header ≡ Ok (given, self.new)) }
        ensures err { IfErr result (λ why.
            end_of_payload (frame_digest key.now) self.old header ≡ Err why) }
    {
        if self.payload.len() != header.announced {
            return Ok(None);
        }
        let digest = frame_digest(key, self.number, &self.payload);
        if !are_equal(&digest, &header.tag) {
            return Err(FrameFault::BadDigest);
        }
        let next = FrameProgress::new(alloc, self.number);
        let FrameProgress { payload, .. } = mem::replace(self, next);
        Ok(Some(Payload::new(payload)))
    }

    /// Takes the next octet of a header. After an `Err` it can't be used.
    pub(crate) fn take_header(&mut self, limits: Limits, octet: u8) -> Result<(), FrameFault>
        ensures ok { IfOk result (λ done.
            after_header_octet limits self.old octet ≡ Ok (None, self.new)) }
        ensures err { IfErr result (λ why. (why ≡ NoMemory)
            ⊎ (after_header_octet limits self.old octet ≡ Err why)) }
    {
        if octet == b'\n' {
            return self.end_header(limits);
        }
        if self.line.len() >= limits.header {
            return Err(FrameFault::BadHeader);
        }
        self.line.push(octet)?;
        Ok(())
    }

    /// Ends the header.
    fn end_header(&mut self, limits: Limits) -> Result<(), FrameFault>
        ensures ok { IfOk result (λ done.
            after_header limits self.old (header_at limits self.old.line) ≡ Ok (None, self.new)) }
        ensures err { IfErr result (λ why. (why ≡ NoMemory)
            ⊎ (after_header limits self.old (header_at limits self.old.line) ≡ Err why)) }
    {
        let Some(header) = read_header(limits, &self.line) else {
            return Err(FrameFault::BadHeader);
        };
        if self.number >= limits.frames {
            return Err(FrameFault::TooManyFrames);
        }
        self.line.push(b'\n')?;
        self.number += 1;
        self.header = Some(header);
        Ok(())
    }
}

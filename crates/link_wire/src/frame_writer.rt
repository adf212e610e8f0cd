//! The writer of a stream of frames.

ghost use Rattle.std.specs.Prelude.{◌≡◌, ◌<◌, ◌≤◌, ◌++◌, ◌+◌, length, IfErr, OnErr, OnOk};
ghost use Rattle.crdt_ops.specs.Text.{AppendsTo, Extends};
ghost use Rattle.link_wire.specs.declared.frame_writer.WriteFault.TheVariants.{NoMemory};
ghost use Rattle.link_wire.specs.declared.frame_writer.WriteFault.TheVariants.{OutsideLimits};
ghost use Rattle.link_wire.specs.Frames.{header_line, header_text};

use crate::digest::{TAG_OCTETS, frame_digest};
use crate::limits::Limits;
use crate::line_writer::push_octets;
use std::alloc::AllocError;
use std::marker::Model;
use text_fields::push_number;
use thiserror::Error;

/// Why a frame isn't written.
#[derive(Clone, Copy, Debug, PartialEq, Eq, Error)]
pub enum WriteFault {
    /// The payload is empty or longer than the limit, or the stream has as many frames as the
    /// limit.
    #[error("outside the limits")]
    OutsideLimits,
    /// Memory ran out.
    #[error("no memory")]
    NoMemory,
}

impl From<AllocError> for WriteFault {
    ghost from_gives = { λ _ fault. fault ≡ NoMemory };

    fn from(_: AllocError) -> WriteFault {
        WriteFault::NoMemory
    }
}

/// Writes the frames of a stream, and counts them.
#[derive(Drop)]
pub struct FrameWriter {
    limits: Limits,
    key: [u8; 32],
    count: u64,
}

impl Model for FrameWriter {
    ghost use Rattle.link_wire.specs.FrameWriting.{WriterState};

    ghost Value = { WriterState };

    ghost view = { λ w. record { limits = w.limits; key = w.key; count = w.count } };
}

impl FrameWriter {
    ghost use Rattle.link_wire.specs.Digests.{frame_digest};
    ghost use Rattle.link_wire.specs.Frames.{IsFrame};
    ghost use Rattle.link_wire.specs.FrameWriting.{IsFrameWritten};

    /// A writer at the beginning of a stream.
    pub fn new(limits: Limits, key: [u8; 32]) -> FrameWriter
        ensures { result ≡ record { limits = limits; key = key; count = 0 } }
    {
        FrameWriter {
            limits,
            key,
            count: 0,
        }
    }

    /// Appends the next frame, which has this payload. After an `Err` the writer and `out` are as
    /// they were.
    pub fn write(&mut self, payload: &[u8], out: &mut Vec<u8>) -> Result<(), WriteFault>
        ensures ok { OnOk result
            (IsFrameWritten self.old payload.now out.old.items self.new out.new.items) }
        ensures same { OnErr result ((self.new ≡ self.old) × (out.new.items ≡ out.old.items)) }
        ensures err { IfErr result (λ fault. fault ≡ OutsideLimits → ¬ IsFrame self.old.limits
            (frame_digest self.old.key) (self.old.count + 1) payload.now) }
    {
        if payload.is_empty()
            || payload.len() > self.limits.payload
            || self.count >= self.limits.frames
        {
            return Err(WriteFault::OutsideLimits);
        }
        let number = self.count + 1;
        let tag = frame_digest(&self.key, number, payload);
        let start = out.len();
        if let Err(fault) = push_frame(self.limits, &tag, payload, out) {
            out.truncate(start);
            return Err(fault);
        }
        self.count = number;
        Ok(())
    }
}

/// The header, if it is within the limits, and the payload.
fn push_frame(
    limits: Limits,
    tag: &[u8; TAG_OCTETS],
    payload: &[u8],
    out: &mut Vec<u8>,
) -> Result<(), WriteFault>
    ensures ok { OnOk result (AppendsTo out.old.items out.new.items
        (header_text (length payload.now) tag.now ++ payload.now)) }
    ensures within { OnOk result
        (length (header_line (length payload.now) tag.now) ≤ limits.header) }
    ensures extended { Extends out.old.items out.new.items }
    ensures err { IfErr result (λ fault. fault ≡ OutsideLimits
        → limits.header < length (header_line (length payload.now) tag.now)) }
{
    let start = out.len();
    push_header(payload.len() as u64, tag, out)?;
    if out.len() - start - 1 > limits.header {
        return Err(WriteFault::OutsideLimits);
    }
    push_octets(payload, out)?;
    Ok(())
}

/// The header of a payload of `announced` octets.
fn push_header(announced: u64, tag: &[u8; TAG_OCTETS], out: &mut Vec<u8>) -> Result<(), AllocError>
    ensures ok { OnOk result (AppendsTo out.old.items out.new.items
        (header_text announced tag.now)) }
    ensures extended { Extends out.old.items out.new.items }
{
    push_number(announced, out)?;
    push_octets(b" ", out)?;
    push_octets(tag, out)?;
    push_octets(b"\n", out)
}

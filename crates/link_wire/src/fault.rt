//! Why a stream of frames can't be read any further.

ghost use Rattle.std.specs.Prelude.{◌≡◌};

use crate::payload::Payload;
use std::alloc::{AllocError, AllocFailed};
use thiserror::Error;

/// Why the framer failed. It answers `Failed` from then on.
#[derive(Clone, Copy, Debug, PartialEq, Eq, Error)]
pub enum FrameFault {
    /// A line is no header of a frame within the limits.
    #[error("bad header")]
    BadHeader,
    /// The stream has more frames than the limit.
    #[error("too many frames")]
    TooManyFrames,
    /// A header's tag isn't the digest of its frame.
    #[error("bad digest")]
    BadDigest,
    /// Memory ran out.
    #[error("no memory")]
    NoMemory,
    /// The framer failed earlier.
    #[error("failed earlier")]
    Failed,
}

/// A fault, with the payloads that came before it in the same piece of input.
#[derive(Drop, Debug)]
pub struct FrameError {
    /// The payloads before the fault. With `NoMemory` the first ones that the piece completes, not
    /// necessarily all: memory may run out at any of its octets.
    pub payloads: Vec<Payload>,
    /// Which fault.
    pub why: FrameFault,
}

impl From<AllocError> for FrameFault {
    ghost use Rattle.link_wire.specs.declared.fault.FrameFault.TheVariants.{NoMemory};

    ghost from_gives = { λ _ why. why ≡ NoMemory };

    fn from(_: AllocError) -> FrameFault {
        FrameFault::NoMemory
    }
}

impl<T: Drop> From<AllocFailed<T>> for FrameFault {
    ghost use Rattle.link_wire.specs.declared.fault.FrameFault.TheVariants.{NoMemory};

    ghost from_gives = { λ _ why. why ≡ NoMemory };

    fn from(_: AllocFailed<T>) -> FrameFault {
        FrameFault::NoMemory
    }
}

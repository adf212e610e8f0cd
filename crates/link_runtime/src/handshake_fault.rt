//! Why a link isn't begun.

ghost use Rattle.std.specs.Prelude.{◌≡◌};

use link_wire::{ByeReason, CutFault};
use std::alloc::{AllocError, AllocFailed};

/// Why a link isn't begun.
#[derive(Clone, Copy, Debug, PartialEq, Eq)]
pub enum HandshakeFault {
    /// This end refuses the peer, and tells it this reason.
    Refused(ByeReason),
    /// The peer refused this end for this reason.
    RefusedBy(ByeReason),
    /// The connection ended or failed, or took too long.
    Broken,
}

impl From<AllocError> for HandshakeFault {
    ghost use Rattle.link_wire.specs.declared.wire_message.ByeReason.TheVariants.{Memory};
    ghost use Rattle.link_runtime.specs.declared.handshake_fault.HandshakeFault.TheVariants.{Refused};

    ghost from_gives = { λ _ fault. fault ≡ Refused Memory };

    fn from(_: AllocError) -> HandshakeFault {
        HandshakeFault::Refused(ByeReason::Memory)
    }
}

impl<T: Drop> From<AllocFailed<T>> for HandshakeFault {
    ghost use Rattle.link_wire.specs.declared.wire_message.ByeReason.TheVariants.{Memory};
    ghost use Rattle.link_runtime.specs.declared.handshake_fault.HandshakeFault.TheVariants.{Refused};

    ghost from_gives = { λ _ fault. fault ≡ Refused Memory };

    fn from(_: AllocFailed<T>) -> HandshakeFault {
        HandshakeFault::Refused(ByeReason::Memory)
    }
}

impl From<CutFault> for HandshakeFault {
    ghost use Rattle.link_runtime.specs.HandshakeFaults.{fault_of_cut};

    ghost from_gives = { λ cut fault. fault ≡ fault_of_cut cut };

    fn from(fault: CutFault) -> HandshakeFault {
        match fault {
            CutFault::TooLong => HandshakeFault::Refused(ByeReason::Hello),
            CutFault::NoMemory => HandshakeFault::Refused(ByeReason::Memory),
        }
    }
}

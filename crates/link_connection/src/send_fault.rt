//! Why operations aren't sent.

ghost use Rattle.std.specs.Prelude.{◌≡◌};
ghost use Rattle.link_connection.specs.Sent.{fault_of_write};

use link_wire::WriteFault;
use std::alloc::AllocError;
use thiserror::Error;

/// Why operations aren't sent.
#[derive(Clone, Copy, Debug, PartialEq, Eq, Error)]
pub enum SendFault {
    /// The lines of the operations are longer than a payload may be, or the stream has as many
    /// frames as its limit.
    #[error("outside the limits")]
    OutsideLimits,
    /// Memory ran out.
    #[error("no memory")]
    NoMemory,
    /// The sink failed.
    #[error("write failed")]
    WriteFailed,
}

impl From<AllocError> for SendFault {
    ghost use Rattle.link_connection.specs.declared.send_fault.SendFault.TheVariants.{NoMemory};

    ghost from_gives = { λ _ fault. fault ≡ NoMemory };

    fn from(_: AllocError) -> SendFault {
        SendFault::NoMemory
    }
}

impl From<WriteFault> for SendFault {
    ghost from_gives = { λ why fault. fault ≡ fault_of_write why };

    fn from(why: WriteFault) -> SendFault {
        match why {
            WriteFault::OutsideLimits => SendFault::OutsideLimits,
            WriteFault::NoMemory => SendFault::NoMemory,
        }
    }
}

//! `LogDumpFault`: why a log has no dump.

use std::alloc::AllocError;
use thiserror::Error;

/// Why a log has no dump.
#[derive(Clone, Copy, Debug, PartialEq, Eq, Error)]
pub enum LogDumpFault {
    /// A line can't be read: it has the checksum of its text, but is the text of no entry, or of
    /// one that no log has there; or what was synced was damaged.
    #[error("unreadable: octet {octets}")]
    Unreadable {
        /// The number of octets before that line; if what was synced was damaged, the number of
        /// octets of the committed lines before the damage.
        octets: usize,
    },
    /// Memory ran out.
    #[error("no memory")]
    NoMemory,
}

impl From<AllocError> for LogDumpFault {
    ghost use Rattle.std.specs.Prelude.{◌≡◌};
    ghost use Rattle.log_dump.specs.declared.fault.LogDumpFault.TheVariants.{NoMemory};

    ghost from_gives = { λ _ e. e ≡ NoMemory };

    fn from(_fault: AllocError) -> LogDumpFault {
        LogDumpFault::NoMemory
    }
}

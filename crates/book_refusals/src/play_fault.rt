//! Why a line of the script can't be played.

use std::alloc::AllocError;
use thiserror::Error;

/// Why a line can't be played.
#[derive(Clone, Copy, Debug, PartialEq, Eq, Error)]
pub enum PlayFault {
    /// The line isn't a line of a script, or can't be played in the current state.
    #[error("bad script")]
    BadScript,
    /// Memory ran out twice.
    #[error("no memory")]
    NoMemory,
}

impl From<AllocError> for PlayFault {
    fn from(_fault: AllocError) -> PlayFault {
        PlayFault::NoMemory
    }
}

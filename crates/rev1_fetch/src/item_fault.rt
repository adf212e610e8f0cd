//! Why an item of FETCH isn't read.

use std::alloc::{AllocError, AllocFailed};

/// Why an item isn't read.
#[derive(Clone, Copy, Debug, PartialEq, Eq)]
pub enum ItemFault {
    /// It is no item.
    Unknown,
    /// A part has the number 0, or one that begins with 0.
    PartZero,
    NoMemory,
}

impl From<AllocError> for ItemFault {
    ghost use Rattle.std.specs.Prelude.{◌≡◌};
    ghost use Rattle.rev1_fetch.specs.declared.item_fault.ItemFault.TheVariants.{NoMemory};

    ghost from_gives = { λ _ e. e ≡ NoMemory };

    fn from(_e: AllocError) -> ItemFault {
        ItemFault::NoMemory
    }
}

impl<T: Drop> From<AllocFailed<T>> for ItemFault {
    ghost use Rattle.std.specs.Prelude.{◌≡◌};
    ghost use Rattle.rev1_fetch.specs.declared.item_fault.ItemFault.TheVariants.{NoMemory};

    ghost from_gives = { λ _ e. e ≡ NoMemory };

    fn from(_e: AllocFailed<T>) -> ItemFault {
        ItemFault::NoMemory
    }
}

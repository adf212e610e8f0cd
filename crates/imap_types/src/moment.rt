//! Moments in seconds.

ghost use Rattle.std.specs.Prelude.{◌≡◌, ◌≤◌, ◌↔◌, IfSome, IsSome};

use std::marker::Model;

/// The last second of the year 9999, the greatest moment.
pub const LAST_MOMENT: u64 = 253_402_300_799;

/// A moment, in seconds since 1970-01-01 00:00:00 UTC, up to the end of the year 9999.
#[derive(Clone, Copy, Debug, PartialEq, Eq, PartialOrd, Ord)]
pub struct Moment {
    seconds: u64,
}

impl Model for Moment {
    ghost use Rattle.std.specs.Prelude.{ℕ, ◌≤◌};

    ghost Value = { ℕ };

    ghost view = { λ m. m.seconds };

    ghost invariant = { λ m. m.seconds ≤ 253_402_300_799 };

    ghost inverse = { λ n. record { seconds = n } };
}

impl Moment {
    /// 1970-01-01 00:00:00 UTC.
    pub fn epoch() -> Moment
        ensures { result ≡ 0 }
    {
        Moment { seconds: 0 }
    }

    /// The moment `seconds` seconds after the epoch; `None` after the end of the year 9999.
    pub fn new(seconds: u64) -> Option<Moment>
        ensures some { IsSome result ↔ (seconds ≤ LAST_MOMENT) }
        ensures value { IfSome result (λ moment. moment ≡ seconds) }
    {
        if seconds <= LAST_MOMENT {
            Some(Moment { seconds })
        } else {
            None
        }
    }

    /// The seconds since the epoch.
    pub fn seconds(self) -> u64
        ensures value { result ≡ self }
        ensures bound { result ≤ LAST_MOMENT }
    {
        self.seconds
    }
}

//! Which interleavings exist in some cases, and in which cases none exists.

ghost use Rattle.server_laws.specs.ExampleInterleavings.{HaveTwoInterleavings, JoinedAreLinked};
ghost use Rattle.server_laws.specs.ExampleInterleavings.{UnissuedAreNotLinked, CrossedAreNotLinked};

/// Four cases of the premise of `interleavings_are_runs`.
///
/// `two`: one entry at each of two replicas gives two interleavings. `joined`: a replica that joins
/// extends the others' interleaving. `unissued`: with a delivered operation that nobody issued the
/// premise fails. `crossed`: it fails for every order if each history begins with a delivery, as if
/// two replicas each received first what the other issued only later. Each of these histories leads
/// to its replica, so the premise has to speak of order.
pub fn interleavings_by_example()
    ensures two { HaveTwoInterleavings }
    ensures joined { JoinedAreLinked }
    ensures unissued { UnissuedAreNotLinked }
    ensures crossed { CrossedAreNotLinked }
{}

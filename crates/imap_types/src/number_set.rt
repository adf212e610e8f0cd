//! Sets of message numbers or UIDs, as runs.

ghost use Rattle.std.specs.Prelude.{◌≡◌, ◌<◌, ◌≤◌, ◌-◌, ◌++◌, [], ◌∷◌, length, slice_set, IfNone};
ghost use Rattle.std.specs.Prelude.{IfSome, OnErr, OnOk};
ghost use Rattle.imap_types.specs.Numbers.{AreRunsFrom, are_runs_from, greatest, numbers_in};
ghost use Rattle.imap_types.specs.Numbers.{numbers_of};

use std::alloc::{AllocError, Global};
use std::marker::Model;

/// The consecutive numbers from `first` to `last`, both included.
#[derive(Clone, Copy, Debug, PartialEq, Eq)]
pub struct Run {
    pub first: u32,
    pub last: u32,
}

/// A set of numbers from 1, such as message numbers or UIDs (RFC 9051, section 2.3.1). It is stored
/// as runs with gaps between them; contracts see the rising list of its numbers.
pub struct NumberSet {
    runs: Vec<Run>,
}

// By hand, so that crates above drop it whole.
impl Drop for NumberSet {
    fn drop(self) {
        let Self { runs: _ } = self;
    }
}

impl Model for NumberSet {
    ghost use Rattle.std.specs.Prelude.{ℕ, List};

    ghost Value = { List ℕ };

    ghost use Rattle.imap_types.specs.Numbers.{AreRunsFrom, numbers_in};

    ghost view = { λ s. numbers_in s.runs.items };

    ghost invariant = { λ s. AreRunsFrom 1 s.runs.items };
}

impl NumberSet {
    ghost use Rattle.std.specs.Prelude.{◌≡◌, ◌↔◌, ◌<◌, ◌≤◌, ◌++◌, [], ◌∷◌, if◌then◌else◌, IfOk};
    ghost use Rattle.std.specs.Prelude.{OnErr, OnOk, IsTrue};
    ghost use Rattle.imap_types.specs.Numbers.{AreRisingFrom, are_runs_from, greatest, numbers_in};
    ghost use Rattle.imap_types.specs.Numbers.{numbers_of, runs_of};

    /// The empty set.
    pub fn new(alloc: Global) -> NumberSet
        ensures { result ≡ [] }
    {
        NumberSet {
            runs: Vec::new(alloc),
        }
    }

    /// The set of the numbers of these runs, in the vector's memory; `None` if the runs don't
    /// ascend from 1 with a gap between each two.
    pub fn from_runs(runs: Vec<Run>) -> Option<NumberSet>
        ensures { result
            ≡ (if are_runs_from 1 runs.items then Some (numbers_in runs.items) else None) }
    {
        if are_runs(&runs) {
            Some(NumberSet { runs })
        } else {
            None
        }
    }

    /// Whether the set is empty.
    pub fn is_empty(&self) -> bool
        ensures { IsTrue result ↔ (self.now ≡ []) }
    {
        self.runs.is_empty()
    }

    /// The numbers as the fewest runs, ascending.
    pub fn runs(&self) -> &[Run]
        ensures runs { result.now ≡ runs_of self.now }
        ensures numbers { numbers_in result.now ≡ self.now }
        ensures rising { AreRisingFrom 1 self.now }
    {
        &self.runs
    }

    /// The greatest number; 0 if the set is empty.
    pub fn greatest(&self) -> u32
        ensures { result ≡ greatest self.now }
    {
        match self.runs.last() {
            None => 0,
            Some(run) => run.last,
        }
    }

    /// Adds a number above all others. `Err` if memory runs out; the set stays as it was.
    pub fn push(&mut self, number: u32) -> Result<(), AllocError>
        requires { greatest self.old < number }
        ensures ok { OnOk result (self.new ≡ self.old ++ number ∷ []) }
        ensures err { OnErr result (self.new ≡ self.old) }
    {
        self.push_run(Run {
            first: number,
            last: number,
        })
    }

    /// Adds a run of numbers above all others. `Err` if memory runs out; the set stays as it was.
    pub fn push_run(&mut self, run: Run) -> Result<(), AllocError>
        requires order { run.first ≤ run.last }
        requires above { greatest self.old < run.first }
        ensures ok { OnOk result (self.new ≡ self.old ++ numbers_of run) }
        ensures err { OnErr result (self.new ≡ self.old) }
    {
        add_run(&mut self.runs, run)
    }

    /// A copy of the set. `Err` if memory runs out.
    pub fn copy(&self, alloc: Global) -> Result<NumberSet, AllocError>
        ensures { IfOk result (λ copied. copied ≡ self.now) }
    {
        Ok(NumberSet {
            runs: self.runs.to_vec(alloc)?,
        })
    }

    /// Whether both sets have the same numbers.
    pub fn same(&self, other: &NumberSet) -> bool
        ensures { IsTrue result ↔ (self.now ≡ other.now) }
    {
        self.runs() == other.runs()
    }
}

/// Adds a run of numbers above all others; it extends the last run if that ends just below. `Err`
/// if memory runs out; the runs stay as they were.
fn add_run(runs: &mut Vec<Run>, run: Run) -> Result<(), AllocError>
    requires runs { AreRunsFrom 1 runs.old.items }
    requires order { run.first ≤ run.last }
    requires above { greatest (numbers_in runs.old.items) < run.first }
    ensures ok { OnOk result
        (numbers_in runs.new.items ≡ numbers_in runs.old.items ++ numbers_of run) }
    ensures runs { AreRunsFrom 1 runs.new.items }
    ensures err { OnErr result (runs.new.items ≡ runs.old.items) }
{
    match joined_run(runs, run) {
        None => runs.push(run)?,
        Some(joined) => {
            let last = runs.len() - 1;
            runs[last] = joined;
        }
    }
    Ok(())
}

/// The last of the runs and the next one as one run, if there is no gap between them.
fn joined_run(runs: &[Run], next: Run) -> Option<Run>
    requires runs { AreRunsFrom 1 runs.now }
    requires order { next.first ≤ next.last }
    requires above { greatest (numbers_in runs.now) < next.first }
    ensures none { IfNone result (AreRunsFrom 1 (runs.now ++ next ∷ [])) }
    ensures some { IfSome result (λ joined. (0 < length runs.now)
        × AreRunsFrom 1 (slice_set runs.now (length runs.now - 1) joined)
        × (numbers_in (slice_set runs.now (length runs.now - 1) joined)
        ≡ numbers_in runs.now ++ numbers_of next)) }
{
    let last = runs.last()?;
    if last.last != next.first - 1 {
        return None;
    }
    Some(Run {
        first: last.first,
        last: next.last,
    })
}

/// Whether the runs ascend from 1 with gaps between them.
fn are_runs(runs: &[Run]) -> bool
    ensures { result ≡ are_runs_from 1 runs.now }
{
    let mut low = 1u64;
    for run in runs {
        if u64::from(run.first) < low || run.last < run.first {
            return false;
        }
        low = u64::from(run.last) + 2;
    }
    true
}

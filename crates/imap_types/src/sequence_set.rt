//! Sequence sets (RFC 9051, section 9, sequence-set).

use std::alloc::{AllocError, Global};
use std::marker::Model;

/// A message number or a UID as a sequence set names it (RFC 9051, section 9, seq-number).
#[derive(Clone, Copy, Debug, PartialEq, Eq)]
pub enum SequenceBound {
    /// A number from 1 to 4,294,967,295.
    Number(u32),
    /// The greatest number in use, written `*`.
    Greatest,
}

/// The numbers between two bounds, both included, in either order (RFC 9051, section 9, seq-range).
/// A single number is a range from it to itself.
#[derive(Clone, Copy, Debug, PartialEq, Eq)]
pub struct SequenceRange {
    pub first: SequenceBound,
    pub last: SequenceBound,
}

/// One or more ranges of message numbers or UIDs, in the order in which they were written (RFC
/// 9051, section 9, sequence-set).
pub struct SequenceSet {
    ranges: Vec<SequenceRange>,
}

// By hand, so that crates above drop it whole.
impl Drop for SequenceSet {
    fn drop(self) {
        let Self { ranges: _ } = self;
    }
}

impl Model for SequenceSet {
    ghost use Rattle.std.specs.Prelude.{List};
    ghost use Rattle.imap_types.specs.declared.sequence_set.SequenceRange.{SequenceRange};

    ghost Value = { List SequenceRange };

    ghost view = { λ s. s.ranges.items };
}

impl SequenceSet {
    ghost use Rattle.std.specs.Prelude.{◌≡◌, IfOk};

    /// These ranges, in the vector's memory.
    pub fn new(ranges: Vec<SequenceRange>) -> SequenceSet
        ensures { result ≡ ranges.items }
    {
        SequenceSet { ranges }
    }

    /// The ranges, in the order in which they were written.
    pub fn ranges(&self) -> &[SequenceRange]
        ensures { result.now ≡ self.now }
    {
        &self.ranges
    }

    /// A copy of the set. `Err` if memory runs out.
    pub fn copy(&self, alloc: Global) -> Result<SequenceSet, AllocError>
        ensures { IfOk result (λ copied. copied ≡ self.now) }
    {
        Ok(SequenceSet {
            ranges: self.ranges().to_vec(alloc)?,
        })
    }
}

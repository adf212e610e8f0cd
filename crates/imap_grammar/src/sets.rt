//! Sequence sets (RFC 9051, section 9, sequence-set).

ghost use Rattle.std.specs.Prelude.{◌≡◌};
ghost use Rattle.imap_grammar.specs.Reading.{IsReading, bound_at, range_at, ranged_at, set_at};
ghost use Rattle.imap_grammar.specs.Reading.{spaced};

use crate::element_list::{ListElement, element_list};
use crate::fault::ParseFault;
use crate::numbers::nz;
use crate::scan::space;
use imap_types::{SequenceBound, SequenceRange, SequenceSet};
use std::alloc::Global;

/// Reads a sequence set (RFC 9051, section 9, sequence-set). Spare capacity is released, since a
/// journal stores the command for good.
pub fn set(alloc: Global, octets: &[u8]) -> Result<(SequenceSet, &[u8]), ParseFault>
    ensures { IsReading (λ x. (x.0, x.1.now)) result (set_at octets.now) }
{
    let (mut ranges, rest) = element_list::<Ranges>(alloc, b',', octets)?;
    ranges.shrink_to_fit();
    Ok((SequenceSet::new(ranges), rest))
}

/// Reads a space and a sequence set.
pub fn spaced_set(alloc: Global, octets: &[u8]) -> Result<(SequenceSet, &[u8]), ParseFault>
    ensures { IsReading (λ x. (x.0, x.1.now)) result (spaced set_at octets.now) }
{
    set(alloc, space(octets)?)
}

/// Reads one range of a set.
struct Ranges;

impl ListElement for Ranges {
    type Value = SequenceRange;

    ghost use Rattle.imap_grammar.specs.Reading.{range_at};

    ghost read_at = { range_at };

    fn read(_alloc: Global, octets: &[u8]) -> Result<(SequenceRange, &[u8]), ParseFault> {
        range(octets)
    }
}

/// Reads one number, `*`, or two of these with a `:` between (RFC 9051, section 9, seq-range).
fn range(octets: &[u8]) -> Result<(SequenceRange, &[u8]), ParseFault>
    ensures { IsReading (λ x. (x.0, x.1.now)) result (range_at octets.now) }
{
    let (first, rest) = bound(octets)?;
    range_from(first, rest)
}

/// Reads the rest of the range that begins with this bound.
fn range_from(first: SequenceBound, octets: &[u8]) -> Result<(SequenceRange, &[u8]), ParseFault>
    ensures { IsReading (λ x. (x.0, x.1.now)) result (ranged_at first octets.now) }
{
    match octets {
        [] => Ok((SequenceRange { first, last: first }, octets)),
        [next, rest @ ..] => {
            if *next != b':' {
                return Ok((SequenceRange { first, last: first }, octets));
            }
            let (last, rest) = bound(rest)?;
            Ok((SequenceRange { first, last }, rest))
        }
    }
}

/// Reads a number or `*`. `$` (RFC 5182) is a form that this server doesn't support.
fn bound(octets: &[u8]) -> Result<(SequenceBound, &[u8]), ParseFault>
    ensures { IsReading (λ x. (x.0, x.1.now)) result (bound_at octets.now) }
{
    match octets {
        [] => Err(ParseFault::BadSyntax),
        [first, rest @ ..] => match *first {
            b'*' => Ok((SequenceBound::Greatest, rest)),
            b'$' => Err(ParseFault::NotInProfile),
            _ => {
                let (number, rest) = nz(octets)?;
                Ok((SequenceBound::Number(number), rest))
            }
        },
    }
}

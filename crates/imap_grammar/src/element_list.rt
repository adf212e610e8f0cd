//! Lists of values with separators between them.

ghost use Rattle.std.specs.Prelude.{◌≡◌, ◌∷◌, [], length, option_map};
ghost use Rattle.imap_grammar.specs.Reading.{IsReading, listed_at, next_at};

use crate::fault::ParseFault;
use std::alloc::Global;

/// A reader of the values of a list.
pub trait ListElement {
    /// The type of the values.
    type Value: Drop;

    ghost use Rattle.std.specs.Prelude.{ℕ, List, Option};
    ghost use Rattle.imap_grammar.specs.Reading.{IsReading};

    ghost read_at: { List ℕ → Option (Self.Value × List ℕ) };

    /// Reads the value that the octets begin with, and returns the rest.
    fn read(alloc: Global, octets: &[u8]) -> Result<(Self::Value, &[u8]), ParseFault>
        ensures { IsReading (λ x. (x.0, x.1.now)) result (read_at octets.now) };
}

/// Reads one or more values with separators between them, and returns the rest.
pub fn element_list<E: ListElement>(
    alloc: Global,
    separator: u8,
    octets: &[u8],
) -> Result<(Vec<E::Value>, &[u8]), ParseFault>
    ensures { IsReading (λ x. (x.0.items, x.1.now)) result
        (listed_at separator E.read_at octets.now) }
{
    let mut values = Vec::new(alloc);
    let (first, mut rest) = E::read(alloc, octets)?;
    values.push(first)?;
    // Each turn takes a separator, so there are at most as many turns as octets.
    for _ in 0..octets.len() {
        let Some((value, after)) = next::<E>(alloc, separator, rest)? else {
            return Ok((values, rest));
        };
        values.push(value)?;
        rest = after;
    }
    Ok((values, rest))
}

/// Reads a separator and a value, if the octets begin with a separator.
fn next<E: ListElement>(
    alloc: Global,
    separator: u8,
    octets: &[u8],
) -> Result<Option<(E::Value, &[u8])>, ParseFault>
    ensures { IsReading (λ x. option_map (λ y. (y.0, y.1.now)) x) result
        (next_at separator E.read_at octets.now) }
{
    match octets {
        [] => Ok(None),
        [first, rest @ ..] => {
            if *first != separator {
                return Ok(None);
            }
            let (value, rest) = E::read(alloc, rest)?;
            Ok(Some((value, rest)))
        }
    }
}

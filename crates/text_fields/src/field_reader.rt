//! Readers of fields.

ghost use Rattle.std.specs.Prelude.{◌≡◌, ◌<◌, ◌≤◌, ◌&&◌, ◌^◌, true, IfSome, SomeIff};
ghost use Rattle.std.specs.Option.{option_map};
ghost use Rattle.std.specs.Char.{is_ascii_digit};
ghost use Rattle.std.specs.List.{list_all};
ghost use Rattle.std.specs.Str.Parse.{digits_value};
ghost use Rattle.text_fields.specs.FieldReading.{cut_at, has_no_leading_zero, id_at, number_at};
ghost use Rattle.text_fields.specs.FieldReading.{pair_at, replica_at};

use std::str;
use tags_clocks::{OpId, ReplicaId};

/// The text before the first separator, and the text after it; `None` if there is no separator.
pub fn split(separator: u8, text: &[u8]) -> Option<(&[u8], &[u8])>
    ensures { option_map (λ parts. (parts.0.now, parts.1.now)) result ≡ cut_at separator text.now }
{
    for (at, octet) in text.iter().enumerate() {
        if *octet == separator {
            return Some((&text[..at], &text[at + 1..]));
        }
    }
    None
}

fn is_number(text: &[u8]) -> bool
    ensures { result ≡ (has_no_leading_zero text.now && list_all is_ascii_digit text.now) }
{
    has_no_leading_zero(text) && has_digits(text)
}

fn has_digits(text: &[u8]) -> bool
    ensures { result ≡ list_all is_ascii_digit text.now }
{
    text.iter().all(|octet| octet.is_ascii_digit())
}

fn has_no_leading_zero(text: &[u8]) -> bool
    ensures { result ≡ has_no_leading_zero text.now }
{
    match text {
        [] => false,
        [_] => true,
        [first, ..] => *first != b'0',
    }
}

/// The number spelled by decimal digits without a leading zero, if it is at most `limit`; else
/// `None`.
#[tactic(auto, unfolding(crate::specs::FieldReading::number_at))]
pub fn number(text: &[u8], limit: u64) -> Option<u64>
    ensures read { result ≡ number_at limit text.now }
    ensures within { IfSome result (λ number. number ≤ limit) }
{
    if !is_number(text) {
        return None;
    }
    match parse_digits(text) {
        None => None,
        Some(number) => {
            if number > limit {
                return None;
            }
            Some(number)
        }
    }
}

/// The number spelled by digits, if it fits into 64 bits.
fn parse_digits(digits: &[u8]) -> Option<u64>
    requires { (has_no_leading_zero digits.now && list_all is_ascii_digit digits.now) ≡ true }
    ensures { SomeIff result (digits_value 10 digits.now < 2 ^ 64) (digits_value 10 digits.now) }
{
    let Ok(text) = str::from_utf8(digits) else {
        return None;
    };
    text.parse::<u64>().ok()
}

/// The replica whose number, from 1 to 65,535, the text spells; `None` if it spells none.
#[tactic(auto, unfolding(crate::specs::FieldReading::replica_at))]
pub fn replica(text: &[u8]) -> Option<ReplicaId>
    ensures { result ≡ replica_at text.now }
{
    let number = number(text, 65_535)?;
    ReplicaId::new(number as u32)
}

/// The replica before the first `delimiter`, then a number from 1 to 4,294,967,295; `None` if
/// the text isn't such a pair.
#[tactic(auto, unfolding(crate::specs::FieldReading::pair_at))]
pub fn pair(delimiter: u8, text: &[u8]) -> Option<(ReplicaId, u32)>
    ensures read { option_map (λ pair. (pair.0, pair.1)) result ≡ pair_at delimiter text.now }
    ensures positive { IfSome result (λ pair. 0 < pair.1) }
{
    let (first, second) = split(delimiter, text)?;
    let replica = replica(first)?;
    let number = number(second, 4_294_967_295)?;
    if number == 0 {
        return None;
    }
    Some((replica, number as u32))
}

/// The id of an operation, written as the replica, a colon and the number; `None` if the text isn't
/// one.
#[tactic(auto, unfolding(crate::specs::FieldReading::id_at))]
pub fn id(text: &[u8]) -> Option<OpId>
    ensures { result ≡ id_at text.now }
{
    let (replica, number) = pair(b':', text)?;
    OpId::new(replica, number)
}

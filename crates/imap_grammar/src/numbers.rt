//! Numbers in decimal digits (RFC 9051, section 9).

ghost use Rattle.std.specs.Prelude.{◌≡◌, ◌<◌, ◌-◌, ◌^◌, length, min};
ghost use Rattle.imap_grammar.specs.Reading.{IsReading, number_at, nz_at};
ghost use Rattle.imap_syntax.specs.Strings.{begins_with, number_of};

use crate::fault::ParseFault;
use crate::scan::run;
use imap_syntax::OctetClass;

/// Reads a number up to `limit` (RFC 9051, section 9, number64).
pub fn number(octets: &[u8], limit: u64) -> Result<(u64, &[u8]), ParseFault>
    requires { limit < 2 ^ 64 - 1 }
    ensures { IsReading (λ x. (x.0, x.1.now)) result (number_at limit octets.now) }
{
    let (digits, rest) = run(OctetClass::Digit, octets)?;
    let value = saturating_number(digits);
    if value > limit {
        return Err(ParseFault::BadSyntax);
    }
    Ok((value, rest))
}

/// Reads a number from 1 to 4,294,967,295 without leading zeros (RFC 9051, section 9, nz-number).
pub fn nz(octets: &[u8]) -> Result<(u32, &[u8]), ParseFault>
    ensures { IsReading (λ x. (x.0, x.1.now)) result (nz_at octets.now) }
{
    let (digits, rest) = run(OctetClass::Digit, octets)?;
    let value = saturating_number(digits);
    if begins_with_zero(digits) || value > 4_294_967_295 {
        return Err(ParseFault::BadSyntax);
    }
    Ok((value as u32, rest))
}

/// Whether the first digit is a zero.
fn begins_with_zero(digits: &[u8]) -> bool
    ensures { result ≡ begins_with 48 digits.now }
{
    match digits {
        [] => false,
        [first, ..] => *first == b'0',
    }
}

/// The number spelled by the digits, or the greatest `u64` if it is greater.
pub fn saturating_number(digits: &[u8]) -> u64
    ensures { result ≡ min (number_of 0 digits.now) (2 ^ 64 - 1) }
{
    let mut number: u64 = 0;
    for digit in digits {
        number = number
            .saturating_mul(10)
            .saturating_add(u64::from(digit.saturating_sub(b'0')));
    }
    number
}

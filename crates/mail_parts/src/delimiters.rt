//! Delimiter lines (RFC 2046, section 5.1.1).

ghost use Rattle.std.specs.Prelude.{◌≡◌, ◌++◌, codes};
ghost use Rattle.mail_parts.specs.Delimiters.{begins_with, has_boundary, has_longer_boundary};
ghost use Rattle.mail_parts.specs.Delimiters.{is_closing};
ghost use Rattle.mail_parts.specs.Delimiters.{is_delimiter, is_longer_boundary, is_own_delimiter};

use imap_types::Octets;

/// Whether a line begins with `--` and this boundary.
pub fn has_boundary(boundary: &[u8], line: &[u8]) -> bool
    ensures { result ≡ has_boundary boundary.now line.now }
{
    match line {
        [b'-', b'-', rest @ ..] => rest.starts_with(boundary),
        _ => false,
    }
}

/// Whether a line is a delimiter line of one of these boundaries.
pub fn is_delimiter(boundaries: &[Octets], line: &[u8]) -> bool
    ensures { result ≡ is_delimiter boundaries.now line.now }
{
    for boundary in boundaries {
        if has_boundary(boundary.as_bytes(), line) {
            return true;
        }
    }
    false
}

/// Whether a line is the delimiter line of this boundary, the innermost of those in force.
pub fn is_own_delimiter(boundaries: &[Octets], own: &[u8], line: &[u8]) -> bool
    ensures { result ≡ is_own_delimiter boundaries.now own.now line.now }
{
    has_boundary(own, line) && !has_longer(boundaries, own, line)
}

/// Whether a line has one of these boundaries that is longer than this one.
fn has_longer(boundaries: &[Octets], own: &[u8], line: &[u8]) -> bool
    ensures { result ≡ has_longer_boundary boundaries.now own.now line.now }
{
    for boundary in boundaries {
        if is_longer(boundary.as_bytes(), own, line) {
            return true;
        }
    }
    false
}

/// Whether a line has a boundary that is longer than another.
fn is_longer(boundary: &[u8], own: &[u8], line: &[u8]) -> bool
    ensures { result ≡ is_longer_boundary own.now line.now boundary.now }
{
    boundary.len() > own.len() && has_boundary(boundary, line)
}

/// Whether a delimiter line closes its multipart.
pub fn is_closing(boundary: &[u8], line: &[u8]) -> bool
    ensures { result ≡ is_closing boundary.now line.now }
{
    match line {
        [b'-', b'-', rest @ ..] => has_closing_end(boundary, rest),
        _ => false,
    }
}

/// Whether octets begin with a boundary and `--`.
fn has_closing_end(boundary: &[u8], octets: &[u8]) -> bool
    ensures { result ≡ begins_with (boundary.now ++ codes "--") octets.now }
{
    octets.starts_with(boundary) && octets.split_at(boundary.len()).1.starts_with(b"--")
}

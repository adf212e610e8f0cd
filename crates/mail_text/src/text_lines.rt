//! The lines of a text (RFC 5322, section 2.1).

ghost use Rattle.std.specs.Prelude.{◌≡◌, ◌≢◌, ◌∷◌, ◌+◌, ◌++◌, ◌<◌, [], length, drop};
ghost use Rattle.std.specs.Prelude.{slice_index, IfSome};
ghost use Rattle.memchr.specs.Find.{is_byte, FindsNeedle, NoneBefore, OccursAt};
ghost use Rattle.mail_text.specs.TextLines.{crlf, is_empty_line, lines_of};

use bstr::ByteSlice;

/// The first line of a text that isn't empty, and what follows it.
pub fn first_line(text: &[u8]) -> (&[u8], &[u8])
    requires { text.now ≢ [] }
    ensures lines { lines_of text.now ≡ result.0.now ∷ lines_of result.1.now }
    ensures parts { result.0.now ++ result.1.now ≡ text.now }
    ensures shorter { length result.1.now < length text.now }
{
    match place_of_crlf(text) {
        Some(place) => text.split_at(place + 2),
        None => text.split_at(text.len()),
    }
}

/// The place of the first CRLF.
fn place_of_crlf(text: &[u8]) -> Option<usize>
    ensures { FindsNeedle text.now crlf 0 result }
{
    if let Some(place) = crlf_at_first_feed(text) {
        return Some(place);
    }
    text.find(b"\r\n")
}

/// The place of the first CRLF, if the first LF ends it, as in most texts. A search for one octet
/// costs less than one for two.
fn crlf_at_first_feed(text: &[u8]) -> Option<usize>
    ensures { IfSome result
        (λ place. NoneBefore (OccursAt text.now crlf) 0 (length text.now + 1) place
        × OccursAt text.now crlf place) }
{
    match text.find_byte(b'\n') {
        None => None,
        Some(feed) => {
            if feed == 0 {
                return None;
            }
            if !is_return_at(text, feed - 1) {
                return None;
            }
            Some(feed - 1)
        }
    }
}

/// Whether the octet at this place is CR.
fn is_return_at(text: &[u8], place: usize) -> bool
    requires { place < length text.now }
    ensures { result ≡ is_byte 13 (slice_index text.now place) }
{
    text[place] == b'\r'
}

/// Whether a line is only CRLF.
pub fn is_empty_line(line: &[u8]) -> bool
    ensures { result ≡ is_empty_line line.now }
{
    line == b"\r\n".as_slice()
}

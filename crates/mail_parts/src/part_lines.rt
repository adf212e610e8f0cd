//! The lines of a header and of a body, up to a delimiter line.

ghost use Rattle.std.specs.Prelude.{◌≡◌, ◌≢◌, ◌∷◌, ◌<◌, ◌≤◌, [], false, length, take, drop};
ghost use Rattle.mail_text.specs.TextLines.{lines_of, is_empty_line};
ghost use Rattle.mail_parts.specs.Reading.{IsBodySize, IsHeaderSize};

use crate::delimiters::is_delimiter;
use bstr::ByteSlice;
use imap_types::Octets;

/// The size of the first line of a text that isn't empty.
pub fn line_size(text: &[u8]) -> usize
    requires { text.now ≢ [] }
    ensures lines { lines_of text.now ≡ take result text.now ∷ lines_of (drop result text.now) }
    ensures some { 0 < result }
    ensures within { result ≤ length text.now }
{
    match text.find(b"\r\n") {
        Some(place) => place + 2,
        None => text.len(),
    }
}

/// The size of the lines before the next delimiter line, or of all.
pub fn body_size(text: &[u8], boundaries: &[Octets]) -> usize
    ensures { IsBodySize boundaries.now text.now result }
{
    let mut size = 0;
    for _ in 0..text.len() {
        let (_, rest) = text.split_at(size);
        if rest.is_empty() {
            return size;
        }
        let line = line_size(rest);
        if is_delimiter(boundaries, rest.split_at(line).0) {
            return size;
        }
        size += line;
    }
    size
}

/// A header at the beginning of a text.
#[derive(Clone, Copy)]
pub struct Header {
    /// The number of its octets.
    pub size: usize,
    /// Whether it has its empty line.
    pub is_whole: bool,
}

/// The header of a part: its lines up to and including the first empty one, if no delimiter line
/// comes before it.
pub fn header_of(text: &[u8], boundaries: &[Octets]) -> Header
    ensures { IsHeaderSize boundaries.now text.now result.size result.is_whole }
{
    let mut size = 0;
    for _ in 0..text.len() {
        let (_, rest) = text.split_at(size);
        if rest.is_empty() {
            return cut_header(size);
        }
        let line = line_size(rest);
        let (octets, _) = rest.split_at(line);
        if is_delimiter(boundaries, octets) {
            return cut_header(size);
        }
        size += line;
        if is_empty_line(octets) {
            return Header {
                size,
                is_whole: true,
            };
        }
    }
    cut_header(size)
}

/// A header without its empty line.
fn cut_header(size: usize) -> Header
    ensures size { result.size ≡ size }
    ensures whole { result.is_whole ≡ false }
{
    Header {
        size,
        is_whole: false,
    }
}

/// Whether a line is only CRLF.
fn is_empty_line(line: &[u8]) -> bool
    ensures { result ≡ is_empty_line line.now }
{
    line == b"\r\n".as_slice()
}

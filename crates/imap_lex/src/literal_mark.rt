//! The mark of a literal at the end of a line (RFC 9051, section 4.3).

ghost use Rattle.std.specs.Prelude.{◌≡◌, ◌+◌, ◌-◌, ◌*◌, ◌<◌, ◌^◌, SomeIff};
ghost use Rattle.std.specs.Char.{is_ascii_digit};
ghost use Rattle.std.specs.List.{prefix_len};
ghost use Rattle.imap_lex.specs.Marks.{value_of};
ghost use Rattle.imap_lex.specs.MarkReading.{closing_at, fit_to_limit, brace_mark, line_mark};
ghost use Rattle.imap_lex.specs.MarkReading.{line_effect_of};

/// The effect of the end of a line.
#[derive(Clone, Copy)]
pub(crate) enum LineEffect {
    /// The line has no mark: the command is complete.
    Whole,
    /// A literal of `octets` octets follows; with `plus` the client sends it at once.
    Literal { octets: usize, plus: bool },
    /// The mark of a literal that passes the limit.
    TooLong { plus: bool },
}

/// A mark `{n}` or, with `plus`, `{n+}`.
#[derive(Clone, Copy)]
struct Mark {
    /// The number of octets, if it fits into a `usize`.
    octets: Option<usize>,
    plus: bool,
}

/// The effect of the end of this line, if literals may have `room` further octets.
pub(crate) fn read_line_effect(line: &[u8], room: usize) -> LineEffect
    ensures { result ≡ line_effect_of line.now room }
{
    let Some(mark) = read_mark(line) else {
        return LineEffect::Whole;
    };
    let plus = mark.plus;
    match mark.octets {
        Some(octets) => {
            if octets <= room {
                LineEffect::Literal { octets, plus }
            } else {
                LineEffect::TooLong { plus }
            }
        }
        None => LineEffect::TooLong { plus },
    }
}

/// The mark at the line's end: the first brace that begins one decides, since a mark has no brace
/// inside.
fn read_mark(line: &[u8]) -> Option<Mark>
    ensures { result ≡ fit_to_limit (line_mark line.now) }
{
    let mut rest = line;
    while let [octet, tail @ ..] = rest {
        rest = tail;
        if *octet == b'{' {
            if let Some(mark) = read_brace_mark(rest) {
                return Some(mark);
            }
        }
    }
    None
}

/// The mark whose opening brace is just before this text.
fn read_brace_mark(text: &[u8]) -> Option<Mark>
    ensures { result ≡ fit_to_limit (brace_mark text.now) }
{
    let count = count_digits(text);
    if count == 0 {
        return None;
    }
    let (digits, closing) = text.split_at(count);
    let plus = closing_plus(closing)?;
    Some(Mark {
        octets: number(digits),
        plus,
    })
}

/// Whether the mark that these octets close has a `+`; `None` if they don't close a mark.
fn closing_plus(closing: &[u8]) -> Option<bool>
    ensures { result ≡ closing_at closing.now }
{
    if closing == b"}\r\n".as_slice() {
        Some(false)
    } else if closing == b"+}\r\n".as_slice() {
        Some(true)
    } else {
        None
    }
}

/// The number of digits at the beginning of a text.
fn count_digits(text: &[u8]) -> usize
    ensures { result ≡ prefix_len is_ascii_digit text.now }
{
    text.iter()
        .take_while(|octet| octet.is_ascii_digit())
        .count()
}

/// The number spelled by digits, if it fits into a `usize`. It may have leading zeros.
fn number(digits: &[u8]) -> Option<usize>
    ensures { SomeIff result (value_of 0 digits.now < 2 ^ 64) (value_of 0 digits.now) }
{
    let mut number = 0;
    for digit in digits {
        number = with_digit(number, *digit)?;
    }
    Some(number)
}

/// The number with a further digit after it.
fn with_digit(number: usize, digit: u8) -> Option<usize>
    ensures { SomeIff result (number * 10 + (digit - 48) < 2 ^ 64) (number * 10 + (digit - 48)) }
{
    number
        .checked_mul(10)?
        .checked_add(usize::from(digit.saturating_sub(b'0')))
}

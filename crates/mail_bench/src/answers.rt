//! The meaning of an answer's line.

ghost use Rattle.std.specs.Prelude.{codes, ◌≡◌, ◌+◌, ◌-◌, ◌*◌, ◌<◌, ◌^◌, SomeIff};
ghost use Rattle.std.specs.Char.{is_ascii_digit};
ghost use Rattle.std.specs.List.{list_all};
ghost use Rattle.std.specs.Option.{option_map};
ghost use Rattle.mail_bench.specs.Answers.{answer_of, tail_of, exists_in, front_of, number_from};
ghost use Rattle.mail_bench.specs.Answers.{number_of, plain_answer, status_in, status_of};

use itoa::Buffer;

/// How a command ended (RFC 9051, section 7.1).
#[derive(Clone, Copy)]
pub enum Status {
    /// OK.
    Done,
    /// NO.
    No,
    /// BAD.
    Bad,
}

/// The meaning of an answer.
#[derive(Clone, Copy)]
pub enum Answer {
    /// The command whose tag is awaited ended.
    Ended(Status),
    /// The server waits for a literal, or the session idles.
    Continue,
    /// The mailbox has this number of messages.
    Exists(u32),
    /// The server closes the connection.
    Bye,
    /// Another untagged answer.
    Other,
    /// None of these: an answer with another tag, or no answer.
    Unreadable,
}

/// The meaning of a line while the end of the command with this number is awaited.
pub fn answer_of(line: &[u8], number: u64) -> Answer
    ensures { result ≡ answer_of number line.now }
{
    if let Some(status) = status_in(line, number) {
        return Answer::Ended(status);
    }
    if let Some(messages) = exists_in(line) {
        return Answer::Exists(messages);
    }
    plain_answer(line)
}

fn plain_answer(line: &[u8]) -> Answer
    ensures { result ≡ plain_answer line.now }
{
    match line {
        [b'*', b' ', b'B', b'Y', b'E', ..] => Answer::Bye,
        [b'*', b' ', ..] => Answer::Other,
        [b'+', ..] => Answer::Continue,
        _ => Answer::Unreadable,
    }
}

/// How the command with this number ended, if the line has its tag.
fn status_in(line: &[u8], number: u64) -> Option<Status>
    ensures { result ≡ status_in number line.now }
{
    let [b'b', rest @ ..] = line else {
        return None;
    };
    let mut buffer = Buffer::new();
    let rest = tail_of(buffer.format(number).as_bytes(), rest)?;
    let rest = tail_of(b" ", rest)?;
    status_of(rest)
}

fn status_of(text: &[u8]) -> Option<Status>
    ensures { result ≡ status_of text.now }
{
    if tail_of(b"OK ", text).is_some() {
        return Some(Status::Done);
    }
    if tail_of(b"NO ", text).is_some() {
        return Some(Status::No);
    }
    if tail_of(b"BAD ", text).is_some() {
        return Some(Status::Bad);
    }
    None
}

/// The number of messages in the mailbox, if the line reports it (RFC 9051, section 7.4.1).
fn exists_in(line: &[u8]) -> Option<u32>
    ensures { result ≡ exists_in line.now }
{
    let [b'*', b' ', rest @ ..] = line else {
        return None;
    };
    let digits = front_of_exists(rest)?;
    number_of(digits)
}

/// The part of an answer before ` EXISTS` and its line end, if it ends with these. Most answers
/// have another octet in place of the S.
#[tactic(auto, using(crate::proofs::AnswerLemmas::no_exists, crate::proofs::AnswerLemmas::too_short))]
fn front_of_exists(text: &[u8]) -> Option<&[u8]>
    ensures { option_map (λ rest. rest.now) result ≡ front_of (codes " EXISTS\r\n") text.now }
{
    match text {
        [.., b'S', _, _] => front_part(b" EXISTS\r\n", text),
        _ => None,
    }
}

/// The part after this prefix, if the text begins with it.
fn tail_of<'a>(front: &[u8], text: &'a [u8]) -> Option<&'a [u8]>
    ensures { option_map (λ rest. rest.now) result ≡ tail_of front.now text.now }
{
    text.strip_prefix(front)
}

/// The part before this suffix, if the text ends with it.
fn front_part<'a>(end: &[u8], text: &'a [u8]) -> Option<&'a [u8]>
    ensures { option_map (λ rest. rest.now) result ≡ front_of end.now text.now }
{
    text.strip_suffix(end)
}

/// The number of at most 32 bits that digits spell; `None` if they spell none.
fn number_of(digits: &[u8]) -> Option<u32>
    ensures { result ≡ number_of digits.now }
{
    if digits.is_empty() || !are_digits(digits) {
        return None;
    }
    number_of_digits(digits)
}

fn are_digits(octets: &[u8]) -> bool
    ensures { result ≡ list_all is_ascii_digit octets.now }
{
    octets.iter().all(|octet| octet.is_ascii_digit())
}

/// The number that these digits spell, if it has at most 32 bits.
#[tactic(auto, using(crate::proofs::AnswerLemmas::number_grows, crate::proofs::AnswerLemmas::number_next))]
fn number_of_digits(digits: &[u8]) -> Option<u32>
    ensures { SomeIff result (number_from 0 digits.now < 2 ^ 32) (number_from 0 digits.now) }
{
    let mut number = 0u32;
    for digit in digits {
        match with_digit(number, *digit) {
            Some(more) => number = more,
            None => return None,
        }
    }
    Some(number)
}

/// The number with one further digit, if it has at most 32 bits.
fn with_digit(number: u32, digit: u8) -> Option<u32>
    ensures { SomeIff result (number * 10 + (digit - 48) < 2 ^ 32) (number * 10 + (digit - 48)) }
{
    let tens = number.checked_mul(10)?;
    tens.checked_add(u32::from(digit.saturating_sub(b'0')))
}

//! The tokens of a command's arguments: strings, literals, words, and single octets between them.

ghost use Rattle.std.specs.Prelude.{◌≡◌, ◌≤◌, ◌-◌, ◌^◌, [], ◌∷◌, length, min, not, ◌&&◌, ◌||◌};
ghost use Rattle.std.specs.Prelude.{◌==◌, false, if◌then◌else◌};
ghost use Rattle.std.specs.Option.{option_map};
ghost use Rattle.imap_syntax.specs.Strings.{is_in, is_quotable, number_of};
ghost use Rattle.imap_syntax.specs.declared.octet_class.OctetClass.TheVariants.{Digit, Pattern};
ghost use Rattle.imap_grammar.specs.Reading.{after, after_plus, literal_at, octets_at, quoted_at};
ghost use Rattle.imap_grammar.specs.Reading.{run_at, span, text_at};
ghost use Rattle.rev1_front.specs.SearchReading.{is_word, token_len};

use imap_types::is_astring_octet;

/// The length of the token that the octets begin with: a quoted string, a literal, a word, or one
/// octet. It is 0 only if there are no octets.
pub fn token_len(octets: &[u8]) -> usize
    ensures value { result ≡ token_len octets.now }
    ensures within { result ≤ length octets.now }
{
    match after_text(octets) {
        None => octets.len().min(1),
        Some(rest) => octets.len().saturating_sub(rest.len()),
    }
}

/// Whether a token is this word, in any letter case.
pub fn is_word(token: &[u8], word: &[u8]) -> bool
    ensures { result ≡ is_word word.now token.now }
{
    token.eq_ignore_ascii_case(word)
}

/// The octets after a string or a word; `None` if they begin with none.
fn after_text(octets: &[u8]) -> Option<&[u8]>
    ensures { option_map (λ rest. rest.now) result
        ≡ option_map (λ x. x.1) (text_at Pattern octets.now) }
{
    match octets {
        [] => None,
        [first, rest @ ..] => match *first {
            b'"' => after_quoted(rest),
            b'{' => after_literal(rest),
            _ => after_word(octets),
        },
    }
}

/// The octets after the closing quote; `None` if there is none, or octets that can't be between
/// quotes.
fn after_quoted(octets: &[u8]) -> Option<&[u8]>
    ensures { option_map (λ rest. rest.now) result
        ≡ option_map (λ x. x.1) (quoted_at false octets.now) }
{
    let mut escaped = false;
    for place in 0..octets.len() {
        if is_closing(escaped, octets[place]) {
            return Some(&octets[place + 1..]);
        }
        if !is_allowed(escaped, octets[place]) {
            return None;
        }
        escaped = is_escape(escaped, octets[place]);
    }
    None
}

/// Whether an octet ends a quoted string.
fn is_closing(escaped: bool, octet: u8) -> bool
    ensures { result ≡ (not escaped && (octet == 34)) }
{
    !escaped && octet == b'"'
}

/// Whether an octet is a `\` that isn't escaped itself.
fn is_escape(escaped: bool, octet: u8) -> bool
    ensures { result ≡ (not escaped && (octet == 92)) }
{
    !escaped && octet == b'\\'
}

/// Whether an octet may be between quotes: after a `\` only `"` and `\`.
fn is_allowed(escaped: bool, octet: u8) -> bool
    ensures { result ≡ (if escaped then (octet == 34) || (octet == 92) else is_quotable octet) }
{
    if escaped {
        octet == b'"' || octet == b'\\'
    } else {
        octet != 0 && octet != b'\r' && octet != b'\n'
    }
}

/// The octets after a literal, from after its `{`; `None` if there is none.
#[tactic(auto, unfolding(imap_grammar::specs::Reading::literal_at))]
fn after_literal(octets: &[u8]) -> Option<&[u8]>
    ensures { option_map (λ rest. rest.now) result
        ≡ option_map (λ x. x.1) (literal_at octets.now) }
{
    let (digits, rest) = digit_span(octets);
    if digits.is_empty() {
        return None;
    }
    match after_length(after_plus(rest)) {
        None => None,
        Some(rest) => after_octets(number(digits), rest),
    }
}

/// The octets after a literal's `}` and CRLF, with which they begin, if they do.
fn after_length(octets: &[u8]) -> Option<&[u8]>
    ensures { option_map (λ rest. rest.now) result ≡ after (125 ∷ 13 ∷ 10 ∷ []) octets.now }
{
    octets.strip_prefix(b"}\r\n".as_slice())
}

/// The octets after a `+`, if they begin with one.
fn after_plus(octets: &[u8]) -> &[u8]
    ensures { result.now ≡ after_plus octets.now }
{
    match octets {
        [] => octets,
        [first, rest @ ..] => { if *first == b'+' { rest } else { octets } }
    }
}

/// The octets after this many; `None` if there are fewer.
fn after_octets(count: u64, octets: &[u8]) -> Option<&[u8]>
    ensures { option_map (λ rest. rest.now) result
        ≡ option_map (λ x. x.1) (octets_at count octets.now) }
{
    if octets.len() as u64 >= count {
        Some(&octets[count as usize..])
    } else {
        None
    }
}

/// Splits the octets after the digits that they begin with.
fn digit_span(octets: &[u8]) -> (&[u8], &[u8])
    ensures { (result.0.now, result.1.now) ≡ span (is_in Digit) octets.now }
{
    let mut len = 0;
    for octet in octets {
        if !octet.is_ascii_digit() {
            break;
        }
        len += 1;
    }
    octets.split_at(len)
}

/// The number of these digits, or the greatest one.
pub fn number(digits: &[u8]) -> u64
    ensures { result ≡ min (number_of 0 digits.now) (2 ^ 64 - 1) }
{
    let mut number: u64 = 0;
    for digit in digits {
        number = number
            .saturating_mul(10)
            .saturating_add(u64::from(digit.saturating_sub(b'0')));
    }
    number
}

/// The octets after a word; `None` if they begin with none.
fn after_word(octets: &[u8]) -> Option<&[u8]>
    ensures { option_map (λ rest. rest.now) result
        ≡ option_map (λ x. x.1) (run_at Pattern octets.now) }
{
    let (word, rest) = word_span(octets);
    if word.is_empty() {
        return None;
    }
    Some(rest)
}

/// Splits the octets after the octets of words that they begin with.
fn word_span(octets: &[u8]) -> (&[u8], &[u8])
    ensures { (result.0.now, result.1.now) ≡ span (is_in Pattern) octets.now }
{
    let mut len = 0;
    for octet in octets {
        if !is_word_octet(*octet) {
            break;
        }
        len += 1;
    }
    octets.split_at(len)
}

/// Whether an octet may be in a word, a set of numbers or a pattern among them.
fn is_word_octet(octet: u8) -> bool
    ensures { result ≡ is_in Pattern octet }
{
    is_astring_octet(octet) || octet == b'%' || octet == b'*'
}

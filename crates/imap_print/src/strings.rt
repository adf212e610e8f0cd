//! Printing of strings, numbers and sets of numbers (RFC 9051, section 9). Each function appends a
//! text to `out`. An `Err`, if memory runs out, may leave part of it.

ghost use Rattle.std.specs.Prelude.{◌≡◌, ◌++◌, [], ◌∷◌, codes, decimal, flat_map, map, OnOk};
ghost use Rattle.std.specs.List.{list_all, list_any};
ghost use Rattle.imap_types.specs.Keywords.{is_astring_octet};
ghost use Rattle.imap_print.specs.Appending.{AppendsText};
ghost use Rattle.imap_answers.specs.Strings.{escaped_octet, field_text, has_line_octet, is_plain};
ghost use Rattle.imap_answers.specs.Strings.{labelled_number, literal_text, name_text};
ghost use Rattle.imap_answers.specs.Strings.{quoted_string, run_text, separated_by, set_text};

use imap_types::{Name, NumberSet, Run, is_astring_octet};
use itoa::Buffer;
use std::alloc::AllocError;

/// Appends a text.
pub fn push_text(text: &[u8], out: &mut Vec<u8>) -> Result<(), AllocError>
    ensures { OnOk result (AppendsText out.old.items out.new.items text.now) }
{
    out.extend_from_slice(text)
}

/// Appends a number in decimal digits without leading zeros.
pub fn push_number(number: u64, out: &mut Vec<u8>) -> Result<(), AllocError>
    ensures { OnOk result (AppendsText out.old.items out.new.items (decimal number)) }
{
    let mut buffer = Buffer::new();
    push_text(buffer.format(number).as_bytes(), out)
}

/// Appends a label and a number.
pub fn push_label(label: &[u8], number: u64, out: &mut Vec<u8>) -> Result<(), AllocError>
    ensures { OnOk result (AppendsText out.old.items out.new.items (label.now ++ decimal number)) }
{
    push_text(label, out)?;
    push_number(number, out)
}

/// Appends a label and its number, if there is a number.
pub fn push_labelled(label: &[u8], number: Option<u64>, out: &mut Vec<u8>) -> Result<(), AllocError>
    ensures { OnOk result (AppendsText out.old.items out.new.items
        (labelled_number label.now number)) }
{
    match number {
        None => Ok(()),
        Some(number) => push_label(label, number, out),
    }
}

/// Appends a mailbox name (RFC 9051, section 9, mailbox).
pub fn push_name(name: &Name, out: &mut Vec<u8>) -> Result<(), AllocError>
    ensures { OnOk result (AppendsText out.old.items out.new.items (name_text name.now)) }
{
    if name.is_inbox() {
        push_text(b"INBOX", out)
    } else if is_plain(name.as_bytes()) {
        push_text(name.as_bytes(), out)
    } else {
        push_quoted(name.as_bytes(), out)
    }
}

/// Appends the name of a header field (RFC 9051, section 9, header-fld-name).
pub fn push_field(name: &[u8], out: &mut Vec<u8>) -> Result<(), AllocError>
    ensures { OnOk result (AppendsText out.old.items out.new.items (field_text name.now)) }
{
    if is_plain(name) {
        push_text(name, out)
    } else if has_line_octet(name) {
        push_literal(name, out)
    } else {
        push_quoted(name, out)
    }
}

/// Appends a literal with its length (RFC 9051, section 9, literal).
pub fn push_literal(string: &[u8], out: &mut Vec<u8>) -> Result<(), AllocError>
    ensures { OnOk result (AppendsText out.old.items out.new.items (literal_text string.now)) }
{
    push_text(b"{", out)?;
    push_number(string.len() as u64, out)?;
    push_text(b"}\r\n", out)?;
    push_text(string, out)
}

/// Appends a string in quotes (RFC 9051, section 9, quoted).
fn push_quoted(string: &[u8], out: &mut Vec<u8>) -> Result<(), AllocError>
    ensures { OnOk result (AppendsText out.old.items out.new.items (quoted_string string.now)) }
{
    push_text(b"\"", out)?;
    push_escaped(string, out)?;
    push_text(b"\"", out)
}

/// Appends a string with its escapes.
fn push_escaped(string: &[u8], out: &mut Vec<u8>) -> Result<(), AllocError>
    ensures { OnOk result
        (AppendsText out.old.items out.new.items (flat_map escaped_octet string.now)) }
{
    for octet in string {
        push_escaped_octet(*octet, out)?;
    }
    Ok(())
}

/// Appends an octet, after a `\` if it needs one.
fn push_escaped_octet(octet: u8, out: &mut Vec<u8>) -> Result<(), AllocError>
    ensures { OnOk result (AppendsText out.old.items out.new.items (escaped_octet octet)) }
{
    if octet == b'"' || octet == b'\\' {
        push_text(&[b'\\', octet], out)
    } else {
        push_text(&[octet], out)
    }
}

/// A writer of the texts of values.
pub trait TextWriter {
    /// The type of the values.
    type Value;

    ghost use Rattle.std.specs.Prelude.{ℕ, List, OnOk};
    ghost use Rattle.imap_print.specs.Appending.{AppendsText};

    ghost text_of: { Self.Value → List ℕ };

    /// Appends the text of a value.
    fn push(value: &Self::Value, out: &mut Vec<u8>) -> Result<(), AllocError>
        ensures { OnOk result (AppendsText out.old.items out.new.items (text_of value.now)) };
}

/// Appends the texts of values, joined by an octet.
pub fn push_separated<W: TextWriter>(
    between: u8,
    values: &[W::Value],
    out: &mut Vec<u8>,
) -> Result<(), AllocError>
    ensures { OnOk result
        (AppendsText out.old.items out.new.items
        (separated_by between (map W.text_of values.now))) }
{
    if let [first, rest @ ..] = values {
        W::push(first, out)?;
        push_after::<W>(between, rest, out)?;
    }
    Ok(())
}

/// Appends the texts of values, with an octet before each.
fn push_after<W: TextWriter>(
    between: u8,
    values: &[W::Value],
    out: &mut Vec<u8>,
) -> Result<(), AllocError>
    ensures { OnOk result (AppendsText out.old.items out.new.items
        (flat_map (λ next. between ∷ next) (map W.text_of values.now))) }
{
    for value in values {
        push_text(&[between], out)?;
        W::push(value, out)?;
    }
    Ok(())
}

/// Writes one run of numbers.
struct Runs;

impl TextWriter for Runs {
    type Value = Run;

    ghost use Rattle.imap_answers.specs.Strings.{run_text};

    ghost text_of = { run_text };

    fn push(value: &Run, out: &mut Vec<u8>) -> Result<(), AllocError> {
        push_run(*value, out)
    }
}

/// Appends a set as runs separated by commas (RFC 9051, section 9, sequence-set).
pub fn push_set(set: &NumberSet, out: &mut Vec<u8>) -> Result<(), AllocError>
    ensures { OnOk result (AppendsText out.old.items out.new.items (set_text set.now)) }
{
    push_separated::<Runs>(b',', set.runs(), out)
}

/// Appends a run: one number, or the first and last of several.
fn push_run(run: Run, out: &mut Vec<u8>) -> Result<(), AllocError>
    ensures { OnOk result (AppendsText out.old.items out.new.items (run_text run)) }
{
    if run.first == run.last {
        return push_number(u64::from(run.first), out);
    }
    push_number(u64::from(run.first), out)?;
    push_text(b":", out)?;
    push_number(u64::from(run.last), out)
}

/// Whether a string can be printed without quotes.
pub fn is_plain(string: &[u8]) -> bool
    ensures { result ≡ is_plain string.now }
{
    !string.is_empty() && has_astring_octets(string) && !string.eq_ignore_ascii_case(b"nil")
}

/// Whether all octets of a string may be in an astring.
fn has_astring_octets(string: &[u8]) -> bool
    ensures { result ≡ list_all is_astring_octet string.now }
{
    string.iter().all(|octet| is_astring_octet(*octet))
}

/// Whether a string has a CR or LF.
fn has_line_octet(string: &[u8]) -> bool
    ensures { result ≡ has_line_octet string.now }
{
    string
        .iter()
        .any(|octet| *octet == b'\r' || *octet == b'\n')
}

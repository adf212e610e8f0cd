//! Printing of the parts of answers. Each function appends a text to `out`. An `Err`, if memory
//! runs out, may leave part of it.

ghost use Rattle.std.specs.Prelude.{◌≡◌, ◌++◌, codes, decimal, map, OnOk};
ghost use Rattle.imap_types.specs.Flags.{flag_texts};
ghost use Rattle.imap_print.specs.Appending.{AppendsText};
ghost use Rattle.imap_answers.specs.AnswerText.{all_text, appenduid_text, body_text, code_prefix};
ghost use Rattle.imap_answers.specs.AnswerText.{code_text, copyuid_text, notice_text, origin_text};
ghost use Rattle.imap_answers.specs.AnswerText.{permanent_text, results_text, section_text};
ghost use Rattle.imap_answers.specs.AnswerText.{sets_text};
ghost use Rattle.imap_answers.specs.Strings.{field_text, separated_by, set_text};

use crate::list_printers::{push_flag_texts, push_flags_and_any, widen};
use crate::strings::{
    TextWriter, push_field, push_label, push_labelled, push_literal, push_number, push_separated,
    push_set, push_text,
};
use imap_answers::{Code, Notice, SearchResults, SectionData};
use imap_types::{DateTime, FieldNames, Flags, NumberSet, Octets, Section};
use std::alloc::AllocError;

/// Appends flags separated by spaces, between two texts: the first ends with the opening
/// parenthesis, the second begins with the closing one (RFC 9051, section 9, flag-list).
pub fn push_flags(
    front: &[u8],
    flags: &Flags,
    end: &[u8],
    out: &mut Vec<u8>,
) -> Result<(), AllocError>
    ensures { OnOk result (AppendsText out.old.items out.new.items
        (front.now ++ separated_by 32 (flag_texts flags.now) ++ end.now)) }
{
    push_text(front, out)?;
    let _ = push_flag_texts(flags, out)?;
    push_text(end, out)
}

/// Appends the code PERMANENTFLAGS.
fn push_permanent_code(flags: &Option<Flags>, out: &mut Vec<u8>) -> Result<(), AllocError>
    ensures { OnOk result (AppendsText out.old.items out.new.items
        (codes "[PERMANENTFLAGS " ++ permanent_text flags.now ++ codes "]")) }
{
    push_text(b"[PERMANENTFLAGS ", out)?;
    push_permanent_flags(flags, out)?;
    push_text(b"]", out)?;
    Ok(())
}

/// Appends the flags that can be changed permanently, in parentheses (RFC 9051, section 7.1).
fn push_permanent_flags(flags: &Option<Flags>, out: &mut Vec<u8>) -> Result<(), AllocError>
    ensures { OnOk result (AppendsText out.old.items out.new.items (permanent_text flags.now)) }
{
    match flags {
        None => push_text(b"()", out),
        Some(flags) => {
            push_text(b"(", out)?;
            let _ = push_flags_and_any(flags, out)?;
            push_text(b")", out)
        }
    }
}

/// Appends the code of an untagged OK (RFC 9051, section 7.1).
pub fn push_notice(notice: &Notice, out: &mut Vec<u8>) -> Result<(), AllocError>
    ensures { OnOk result (AppendsText out.old.items out.new.items (notice_text notice.now)) }
{
    match notice {
        Notice::Closed => push_text(b"[CLOSED]", out),
        Notice::UidValidity { value } => push_code(b"[UIDVALIDITY ", u64::from(*value), out),
        Notice::UidNext { uid } => push_code(b"[UIDNEXT ", u64::from(*uid), out),
        Notice::PermanentFlags { flags } => push_permanent_code(flags, out),
        Notice::HighestModSeq { modseq } => push_code(b"[HIGHESTMODSEQ ", *modseq, out),
        Notice::CopyUid {
            uidvalidity,
            source,
            copies,
        } => push_copyuid(*uidvalidity, source, copies, out),
    }
}

/// Appends a code that is a label and a number.
fn push_code(label: &[u8], number: u64, out: &mut Vec<u8>) -> Result<(), AllocError>
    ensures { OnOk result
        (AppendsText out.old.items out.new.items (label.now ++ decimal number ++ codes "]")) }
{
    push_label(label, number, out)?;
    push_text(b"]", out)
}

/// Appends the code COPYUID.
fn push_copyuid(
    uidvalidity: u32,
    source: &NumberSet,
    copies: &NumberSet,
    out: &mut Vec<u8>,
) -> Result<(), AllocError>
    ensures { OnOk result
        (AppendsText out.old.items out.new.items (copyuid_text uidvalidity source.now copies.now)) }
{
    push_label(b"[COPYUID ", u64::from(uidvalidity), out)?;
    push_text(b" ", out)?;
    push_sets(source, copies, out)?;
    push_text(b"]", out)?;
    Ok(())
}

/// Appends the UIDs of the copied messages, and those of their copies.
fn push_sets(source: &NumberSet, copies: &NumberSet, out: &mut Vec<u8>) -> Result<(), AllocError>
    ensures { OnOk result (AppendsText out.old.items out.new.items
        (sets_text source.now copies.now)) }
{
    push_set(source, out)?;
    push_text(b" ", out)?;
    push_set(copies, out)
}

/// Appends the code of a tagged OK and a space, if there is a code (RFC 9051, section 7.1).
pub fn push_code_prefix(code: &Option<Code>, out: &mut Vec<u8>) -> Result<(), AllocError>
    ensures { OnOk result (AppendsText out.old.items out.new.items (code_prefix code.now)) }
{
    match code {
        None => Ok(()),
        Some(code) => {
            push_tagged_code(code, out)?;
            push_text(b" ", out)
        }
    }
}

/// Appends the code of a tagged OK.
fn push_tagged_code(code: &Code, out: &mut Vec<u8>) -> Result<(), AllocError>
    ensures { OnOk result (AppendsText out.old.items out.new.items (code_text code.now)) }
{
    match code {
        Code::ReadWrite => push_text(b"[READ-WRITE]", out),
        Code::ReadOnly => push_text(b"[READ-ONLY]", out),
        Code::AppendUid { uidvalidity, uid } => push_appenduid(*uidvalidity, *uid, out),
        Code::CopyUid {
            uidvalidity,
            source,
            copies,
        } => push_copyuid(*uidvalidity, source, copies, out),
        Code::Modified { refused } => push_modified(refused, out),
        Code::ExpungeIssued => push_text(b"[EXPUNGEISSUED]", out),
    }
}

/// Appends the code MODIFIED.
fn push_modified(refused: &NumberSet, out: &mut Vec<u8>) -> Result<(), AllocError>
    ensures { OnOk result (AppendsText out.old.items out.new.items
        (codes "[MODIFIED " ++ set_text refused.now ++ codes "]")) }
{
    push_text(b"[MODIFIED ", out)?;
    push_set(refused, out)?;
    push_text(b"]", out)
}

/// Appends the code APPENDUID.
fn push_appenduid(uidvalidity: u32, uid: u32, out: &mut Vec<u8>) -> Result<(), AllocError>
    ensures { OnOk result (AppendsText out.old.items out.new.items
        (appenduid_text uidvalidity uid)) }
{
    push_label(b"[APPENDUID ", u64::from(uidvalidity), out)?;
    push_text(b" ", out)?;
    push_number(u64::from(uid), out)?;
    push_text(b"]", out)?;
    Ok(())
}

/// Appends the results of a search (RFC 9051, section 7.3.4).
pub fn push_results(results: &SearchResults, out: &mut Vec<u8>) -> Result<(), AllocError>
    ensures { OnOk result (AppendsText out.old.items out.new.items (results_text results.now)) }
{
    push_labelled(b" MIN ", widen(results.min), out)?;
    push_labelled(b" MAX ", widen(results.max), out)?;
    push_all(&results.all, out)?;
    push_labelled(b" COUNT ", widen(results.count), out)?;
    push_labelled(b" MODSEQ ", results.modseq, out)?;
    Ok(())
}

/// Appends all hits, if any.
fn push_all(hits: &NumberSet, out: &mut Vec<u8>) -> Result<(), AllocError>
    ensures { OnOk result (AppendsText out.old.items out.new.items (all_text hits.now)) }
{
    if hits.is_empty() {
        return Ok(());
    }
    push_text(b" ALL ", out)?;
    push_set(hits, out)
}

/// Appends a mod-sequence of FETCH (RFC 7162, section 3.1.4.1).
pub fn push_modseq(modseq: u64, out: &mut Vec<u8>) -> Result<(), AllocError>
    ensures { OnOk result
        (AppendsText out.old.items out.new.items
        (codes "MODSEQ (" ++ decimal modseq ++ codes ")")) }
{
    push_label(b"MODSEQ (", modseq, out)?;
    push_text(b")", out)
}

/// Appends an internal date of FETCH (RFC 9051, section 7.5.2).
pub fn push_date(date: &DateTime, out: &mut Vec<u8>) -> Result<(), AllocError>
    ensures { OnOk result
        (AppendsText out.old.items out.new.items (codes "INTERNALDATE " ++ date.now)) }
{
    push_text(b"INTERNALDATE ", out)?;
    push_text(date.as_bytes(), out)?;
    Ok(())
}

/// Appends a section of a message with its octets (RFC 9051, section 7.5.2).
pub fn push_body(part: &SectionData, out: &mut Vec<u8>) -> Result<(), AllocError>
    ensures { OnOk result (AppendsText out.old.items out.new.items (body_text part.now)) }
{
    push_text(b"BODY[", out)?;
    push_section(&part.section, out)?;
    push_text(b"]", out)?;
    push_origin(part.origin, out)?;
    push_text(b" ", out)?;
    push_literal(part.octets.as_bytes(), out)?;
    Ok(())
}

/// Appends the name of a section (RFC 9051, section 9, section-spec).
fn push_section(section: &Section, out: &mut Vec<u8>) -> Result<(), AllocError>
    ensures { OnOk result (AppendsText out.old.items out.new.items (section_text section.now)) }
{
    match section {
        Section::Whole => Ok(()),
        Section::Header => push_text(b"HEADER", out),
        Section::Text => push_text(b"TEXT", out),
        Section::Fields { names } => push_named(b"HEADER.FIELDS (", names, out),
        Section::FieldsNot { names } => push_named(b"HEADER.FIELDS.NOT (", names, out),
    }
}

/// Writes the name of one header field.
struct Fields;

impl TextWriter for Fields {
    type Value = Octets;

    ghost use Rattle.imap_answers.specs.Strings.{field_text};

    ghost text_of = { field_text };

    fn push(value: &Octets, out: &mut Vec<u8>) -> Result<(), AllocError> {
        push_field(value.as_bytes(), out)
    }
}

/// Appends a label, names of header fields and a closing parenthesis.
fn push_named(label: &[u8], names: &FieldNames, out: &mut Vec<u8>) -> Result<(), AllocError>
    ensures { OnOk result (AppendsText out.old.items out.new.items
        (label.now ++ separated_by 32 (map field_text names.now) ++ codes ")")) }
{
    push_text(label, out)?;
    push_separated::<Fields>(b' ', names.names(), out)?;
    push_text(b")", out)
}

/// Appends the offset of a partial range, if any.
fn push_origin(origin: Option<u32>, out: &mut Vec<u8>) -> Result<(), AllocError>
    ensures { OnOk result (AppendsText out.old.items out.new.items (origin_text origin)) }
{
    match origin {
        None => Ok(()),
        Some(origin) => {
            push_text(b"<", out)?;
            push_number(u64::from(origin), out)?;
            push_text(b">", out)
        }
    }
}

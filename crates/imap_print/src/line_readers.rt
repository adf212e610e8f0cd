//! Reading of answers, part by part (RFC 9051, section 7). Each reader returns the value that it
//! read and the octets after it.

ghost use Rattle.std.specs.Prelude.{codes};
ghost use Rattle.imap_print.specs.Reading.{IsReading, after, map_value};
ghost use Rattle.imap_print.specs.ReadingAnswers.{all_or, answer_at, appended_at, code_at};
ghost use Rattle.imap_print.specs.ReadingAnswers.{code_before_at, number_code_at, completed_at};
ghost use Rattle.imap_print.specs.ReadingAnswers.{copyuid_at, done_at, fetch_at, fixed_at};
ghost use Rattle.imap_print.specs.ReadingAnswers.{last_set_at, line_at, list_at, modified_at};
ghost use Rattle.imap_print.specs.ReadingAnswers.{notice_at, permanent_notice_at, results_at};
ghost use Rattle.imap_print.specs.ReadingAnswers.{search_at, search_from, sets_at, star_at};
ghost use Rattle.imap_print.specs.ReadingAnswers.{status_at, status_list_at, tagged_at};
ghost use Rattle.imap_print.specs.ReadingAnswers.{tagged_done_at, untagged_ok_at, untagged_at};
ghost use Rattle.imap_print.specs.ReadingAnswers.{flags_at, word_answer_at};
ghost use Rattle.imap_answers.specs.declared.answer.Answer.TheVariants.{Flags};
ghost use Rattle.imap_answers.specs.declared.codes.Code.TheVariants as code;
ghost use Rattle.imap_answers.specs.declared.codes.Notice.TheVariants as notice;

use crate::fault::ReadFault;
use crate::fixed_texts::{
    attributes_word, bye_word, command_word, continuation_word, enabled_word, login_word,
    refusal_word,
};
use crate::item_readers::{fetch_items, flags, item, narrow, permanent_flags, status_items};
use crate::scanner::{
    ScanClass, capped_at_32_bits, expect, number, set, skip, span, string, value_before_text,
};
use imap_answers::{Answer, Code, CompletedWord, Notice, SearchResults, StatusItems};
use imap_types::{Name, NumberSet, Octets};
use std::alloc::Global;

/// Reads an answer with its line end.
#[tactic(auto, unfolding(crate::specs::ReadingAnswers::line_at))]
pub fn line(alloc: Global, bytes: &[u8]) -> Result<(Answer, &[u8]), ReadFault>
    ensures { IsReading (λ x. (x.0, x.1.now)) result (line_at bytes.now) }
{
    let (parsed, rest) = answer(alloc, bytes)?;
    value_before_text(parsed, rest, b"\r\n")
}

/// Reads an answer without its line end.
#[tactic(auto, unfolding(crate::specs::ReadingAnswers::answer_at))]
fn answer(alloc: Global, bytes: &[u8]) -> Result<(Answer, &[u8]), ReadFault>
    ensures { IsReading (λ x. (x.0, x.1.now)) result (answer_at bytes.now) }
{
    let (tag, rest) = span(ScanClass::Tag, bytes);
    if tag.is_empty() {
        star(alloc, bytes)
    } else {
        tagged_line(alloc, tag, rest)
    }
}

/// Reads an answer without a tag.
#[tactic(auto, unfolding(crate::specs::ReadingAnswers::star_at))]
fn star(alloc: Global, bytes: &[u8]) -> Result<(Answer, &[u8]), ReadFault>
    ensures { IsReading (λ x. (x.0, x.1.now)) result (star_at bytes.now) }
{
    if let Some((login, rest)) = login_word(bytes) {
        return Ok((Answer::Greeting { login }, rest));
    }
    if let Some((with, rest)) = continuation_word(bytes) {
        return Ok((Answer::Continue { with }, rest));
    }
    if let Some((extensions, rest)) = enabled_word(bytes) {
        return Ok((Answer::Enabled { extensions }, rest));
    }
    if let Some((reason, rest)) = bye_word(bytes) {
        return Ok((Answer::Bye { reason }, rest));
    }
    let rest = expect(bytes, b"* ")?;
    untagged(alloc, rest)
}

/// Reads an untagged answer after its `* `.
#[tactic(auto, unfolding(crate::specs::ReadingAnswers::untagged_at))]
fn untagged(alloc: Global, bytes: &[u8]) -> Result<(Answer, &[u8]), ReadFault>
    ensures { IsReading (λ x. (x.0, x.1.now)) result (untagged_at bytes.now) }
{
    let (parsed, rest) = number(bytes);
    if let Some(rest) = skip(rest, b" EXISTS") {
        return Ok((
            Answer::Exists {
                count: capped_at_32_bits(parsed),
            },
            rest,
        ));
    }
    if let Some(rest) = skip(rest, b" EXPUNGE") {
        return Ok((
            Answer::Expunge {
                number: capped_at_32_bits(parsed),
            },
            rest,
        ));
    }
    match skip(rest, b" FETCH (") {
        Some(rest) => fetch(alloc, capped_at_32_bits(parsed), rest),
        None => answer_of_word(alloc, bytes),
    }
}

/// Reads an untagged answer that begins with a word.
#[tactic(auto, unfolding(crate::specs::ReadingAnswers::word_answer_at))]
fn answer_of_word(alloc: Global, bytes: &[u8]) -> Result<(Answer, &[u8]), ReadFault>
    ensures { IsReading (λ x. (x.0, x.1.now)) result (word_answer_at bytes.now) }
{
    if let Some(rest) = skip(bytes, b"OK ") {
        return untagged_ok(alloc, rest);
    }
    if let Some(rest) = skip(bytes, b"FLAGS ") {
        return mailbox_flags(alloc, rest);
    }
    if let Some(rest) = skip(bytes, b"LIST ") {
        return list(alloc, rest);
    }
    if let Some(rest) = skip(bytes, b"STATUS ") {
        return status(alloc, rest);
    }
    match skip(bytes, b"ESEARCH (TAG \"") {
        Some(rest) => search(alloc, rest),
        None => fixed_answer(bytes),
    }
}

/// Reads an untagged answer that is one fixed text.
#[tactic(auto, unfolding(crate::specs::ReadingAnswers::fixed_at))]
fn fixed_answer(bytes: &[u8]) -> Result<(Answer, &[u8]), ReadFault>
    ensures { IsReading (λ x. (x.0, x.1.now)) result (fixed_at bytes.now) }
{
    if let Some(rest) = skip(bytes, b"CAPABILITY IMAP4rev2 IDLE CONDSTORE") {
        return Ok((Answer::Capability, rest));
    }
    if let Some(rest) = skip(bytes, b"NAMESPACE ((\"\" \"/\")) NIL NIL") {
        return Ok((Answer::Namespace, rest));
    }
    match skip(bytes, b"BAD no tag") {
        Some(rest) => Ok((Answer::NoTag, rest)),
        None => value_before_text(
            Answer::LiteralTooLong,
            bytes,
            b"NO [LIMIT] literal too long",
        ),
    }
}

/// Reads the flags of a mailbox.
fn mailbox_flags(alloc: Global, bytes: &[u8]) -> Result<(Answer, &[u8]), ReadFault>
    ensures { IsReading (λ x. (x.0, x.1.now)) result
        (map_value (λ flags. Flags flags) (flags_at bytes.now)) }
{
    let (flags, rest) = flags(alloc, bytes)?;
    Ok((Answer::Flags { flags }, rest))
}

/// Reads the code of an untagged OK, after the OK.
#[tactic(auto, unfolding(crate::specs::ReadingAnswers::untagged_ok_at))]
fn untagged_ok(alloc: Global, bytes: &[u8]) -> Result<(Answer, &[u8]), ReadFault>
    ensures { IsReading (λ x. (x.0, x.1.now)) result (untagged_ok_at bytes.now) }
{
    let (notice, rest) = notice(alloc, bytes)?;
    value_before_text(Answer::UntaggedOk { notice }, rest, b" ok")
}

/// Reads a name in LIST.
#[tactic(auto, unfolding(crate::specs::ReadingAnswers::list_at))]
fn list(alloc: Global, bytes: &[u8]) -> Result<(Answer, &[u8]), ReadFault>
    ensures { IsReading (λ x. (x.0, x.1.now)) result (list_at bytes.now) }
{
    match attributes_word(bytes) {
        None => Err(ReadFault::NotPrinted),
        Some((attributes, rest)) => {
            let rest = expect(rest, b" \"/\" ")?;
            let (name, rest) = string(alloc, rest)?;
            let list = Answer::List {
                name: Name::new(name.into_vec()),
                state: attributes.state,
                subscribed: attributes.subscribed,
            };
            Ok((list, rest))
        }
    }
}

/// Reads a mailbox in STATUS.
#[tactic(auto, unfolding(crate::specs::ReadingAnswers::status_at))]
fn status(alloc: Global, bytes: &[u8]) -> Result<(Answer, &[u8]), ReadFault>
    ensures { IsReading (λ x. (x.0, x.1.now)) result (status_at bytes.now) }
{
    let (name, rest) = string(alloc, bytes)?;
    match status_list(rest) {
        Err(fault) => {
            drop(name);
            Err(fault)
        }
        Ok((items, rest)) => {
            let name = Name::new(name.into_vec());
            Ok((Answer::Status { name, items }, rest))
        }
    }
}

/// Reads the items of STATUS in parentheses.
#[tactic(auto, unfolding(crate::specs::ReadingAnswers::status_list_at))]
fn status_list(bytes: &[u8]) -> Result<(StatusItems, &[u8]), ReadFault>
    ensures { IsReading (λ x. (x.0, x.1.now)) result (status_list_at bytes.now) }
{
    let rest = expect(bytes, b" (")?;
    let (items, rest) = status_items(rest);
    value_before_text(items, rest, b")")
}

/// Reads the results of a search, from its tag on.
#[tactic(auto, unfolding(crate::specs::ReadingAnswers::search_at))]
fn search(alloc: Global, bytes: &[u8]) -> Result<(Answer, &[u8]), ReadFault>
    ensures { IsReading (λ x. (x.0, x.1.now)) result (search_at bytes.now) }
{
    let (tag, rest) = span(ScanClass::Tag, bytes);
    if tag.is_empty() {
        return Err(ReadFault::NotPrinted);
    }
    match skip(rest, b"\") UID") {
        Some(rest) => search_from(alloc, tag, true, rest),
        None => {
            let rest = expect(rest, b"\")")?;
            search_from(alloc, tag, false, rest)
        }
    }
}

/// Reads the results of the search with this tag.
fn search_from<'a>(
    alloc: Global,
    tag: &[u8],
    by_uid: bool,
    bytes: &'a [u8],
) -> Result<(Answer, &'a [u8]), ReadFault>
    ensures { IsReading (λ x. (x.0, x.1.now)) result (search_from tag.now by_uid bytes.now) }
{
    let (results, rest) = results(alloc, bytes)?;
    let search = Answer::Search {
        tag: Octets::from_slice(alloc, tag)?,
        by_uid,
        results,
    };
    Ok((search, rest))
}

/// Reads the results of a search, after its tag.
#[tactic(auto, unfolding(crate::specs::ReadingAnswers::results_at))]
fn results(alloc: Global, bytes: &[u8]) -> Result<(SearchResults, &[u8]), ReadFault>
    ensures { IsReading (λ x. (x.0, x.1.now)) result (results_at bytes.now) }
{
    let (min, _, rest) = item(false, b"MIN ", bytes);
    let (max, _, rest) = item(false, b"MAX ", rest);
    let (all, rest) = all_hits(alloc, rest)?;
    let (count, _, rest) = item(false, b"COUNT ", rest);
    let (modseq, _, rest) = item(false, b"MODSEQ ", rest);
    let results = SearchResults {
        min: narrow(min),
        max: narrow(max),
        all,
        count: narrow(count),
        modseq,
    };
    Ok((results, rest))
}

/// Reads all hits of a search, if they come next.
fn all_hits(alloc: Global, bytes: &[u8]) -> Result<(NumberSet, &[u8]), ReadFault>
    ensures { IsReading (λ x. (x.0, x.1.now)) result
        (all_or (after (codes " ALL ") bytes.now) bytes.now) }
{
    match skip(bytes, b" ALL ") {
        None => Ok((NumberSet::new(alloc), bytes)),
        Some(rest) => set(alloc, rest),
    }
}

/// Reads the items of the message with this number, and the closing parenthesis.
#[tactic(auto, unfolding(crate::specs::ReadingAnswers::fetch_at))]
fn fetch(alloc: Global, number: u32, bytes: &[u8]) -> Result<(Answer, &[u8]), ReadFault>
    ensures { IsReading (λ x. (x.0, x.1.now)) result (fetch_at number bytes.now) }
{
    let (items, rest) = fetch_items(alloc, bytes)?;
    value_before_text(Answer::Fetch { number, items }, rest, b")")
}

/// Reads a tagged line after its tag.
#[tactic(auto, unfolding(crate::specs::ReadingAnswers::tagged_at))]
fn tagged_line<'a>(
    alloc: Global,
    tag: &[u8],
    bytes: &'a [u8],
) -> Result<(Answer, &'a [u8]), ReadFault>
    ensures { IsReading (λ x. (x.0, x.1.now)) result (tagged_at tag.now bytes.now) }
{
    let rest = expect(bytes, b" ")?;
    if let Some(rest) = skip(rest, b"OK ") {
        return completed_line(alloc, tag, rest);
    }
    match refusal_word(rest) {
        None => Err(ReadFault::NotPrinted),
        Some((reason, rest)) => {
            let tag = Octets::from_slice(alloc, tag)?;
            Ok((Answer::Refused { tag, reason }, rest))
        }
    }
}

/// Reads the tagged line of a completed command, after the OK.
#[tactic(auto, unfolding(crate::specs::ReadingAnswers::completed_at))]
fn completed_line<'a>(
    alloc: Global,
    tag: &[u8],
    bytes: &'a [u8],
) -> Result<(Answer, &'a [u8]), ReadFault>
    ensures { IsReading (λ x. (x.0, x.1.now)) result (completed_at tag.now bytes.now) }
{
    let (code, rest) = code_prefix(alloc, bytes)?;
    match tagged_done(alloc, tag, rest) {
        Err(fault) => {
            drop(code);
            Err(fault)
        }
        Ok(((tag, command), rest)) => Ok((Answer::Completed { tag, code, command }, rest)),
    }
}

/// Reads the command's name and `completed`, and returns the tag with it.
fn tagged_done<'a>(
    alloc: Global,
    tag: &[u8],
    bytes: &'a [u8],
) -> Result<((Octets, CompletedWord), &'a [u8]), ReadFault>
    ensures { IsReading (λ x. (x.0, x.1.now)) result (tagged_done_at tag.now bytes.now) }
{
    let (command, rest) = completed_word(bytes)?;
    Ok(((Octets::from_slice(alloc, tag)?, command), rest))
}

/// Reads the name of a completed command, and `completed`.
#[tactic(auto, unfolding(crate::specs::ReadingAnswers::done_at))]
fn completed_word(bytes: &[u8]) -> Result<(CompletedWord, &[u8]), ReadFault>
    ensures { IsReading (λ x. (x.0, x.1.now)) result (done_at bytes.now) }
{
    match command_word(bytes) {
        None => Err(ReadFault::NotPrinted),
        Some((command, rest)) => value_before_text(command, rest, b" completed"),
    }
}

/// Reads a number and the bracket that ends its code.
#[tactic(auto, unfolding(crate::specs::ReadingAnswers::number_code_at))]
fn number_in_code(bytes: &[u8]) -> Result<(u64, &[u8]), ReadFault>
    ensures { IsReading (λ x. (x.0, x.1.now)) result (number_code_at bytes.now) }
{
    let (parsed, rest) = number(bytes);
    let rest = expect(rest, b"]")?;
    Ok((parsed, rest))
}

/// Reads a UIDVALIDITY, two sets, and the bracket that ends their code.
#[tactic(auto, unfolding(crate::specs::ReadingAnswers::copyuid_at))]
fn copyuid_code(
    alloc: Global,
    bytes: &[u8],
) -> Result<((u32, NumberSet, NumberSet), &[u8]), ReadFault>
    ensures { IsReading (λ x. (x.0, x.1.now)) result (copyuid_at bytes.now) }
{
    let (uidvalidity, rest) = number(bytes);
    let rest = expect(rest, b" ")?;
    let ((source, copies), rest) = sets(alloc, rest)?;
    Ok(((capped_at_32_bits(uidvalidity), source, copies), rest))
}

/// Reads two sets and the bracket that ends their code.
#[tactic(auto, unfolding(crate::specs::ReadingAnswers::sets_at))]
fn sets(alloc: Global, bytes: &[u8]) -> Result<((NumberSet, NumberSet), &[u8]), ReadFault>
    ensures { IsReading (λ x. (x.0, x.1.now)) result (sets_at bytes.now) }
{
    let (source, rest) = set(alloc, bytes)?;
    match last_set(alloc, rest) {
        Err(fault) => {
            drop(source);
            Err(fault)
        }
        Ok((copies, rest)) => Ok(((source, copies), rest)),
    }
}

/// Reads a space, a set and the bracket that ends its code.
#[tactic(auto, unfolding(crate::specs::ReadingAnswers::last_set_at))]
fn last_set(alloc: Global, bytes: &[u8]) -> Result<(NumberSet, &[u8]), ReadFault>
    ensures { IsReading (λ x. (x.0, x.1.now)) result (last_set_at bytes.now) }
{
    let rest = expect(bytes, b" ")?;
    let (copies, rest) = set(alloc, rest)?;
    value_before_text(copies, rest, b"]")
}

/// Reads the code of an untagged OK.
#[tactic(auto, unfolding(crate::specs::ReadingAnswers::notice_at))]
fn notice(alloc: Global, bytes: &[u8]) -> Result<(Notice, &[u8]), ReadFault>
    ensures { IsReading (λ x. (x.0, x.1.now)) result (notice_at bytes.now) }
{
    if let Some(rest) = skip(bytes, b"[CLOSED]") {
        return Ok((Notice::Closed, rest));
    }
    if let Some(rest) = skip(bytes, b"[UIDVALIDITY ") {
        let (parsed, rest) = number_in_code(rest)?;
        return Ok((
            Notice::UidValidity {
                value: capped_at_32_bits(parsed),
            },
            rest,
        ));
    }
    if let Some(rest) = skip(bytes, b"[UIDNEXT ") {
        let (parsed, rest) = number_in_code(rest)?;
        return Ok((
            Notice::UidNext {
                uid: capped_at_32_bits(parsed),
            },
            rest,
        ));
    }
    if let Some(rest) = skip(bytes, b"[HIGHESTMODSEQ ") {
        let (modseq, rest) = number_in_code(rest)?;
        return Ok((Notice::HighestModSeq { modseq }, rest));
    }
    if let Some(rest) = skip(bytes, b"[PERMANENTFLAGS ") {
        return permanent_notice(alloc, rest);
    }
    match skip(bytes, b"[COPYUID ") {
        None => Err(ReadFault::NotPrinted),
        Some(rest) => copied_notice(alloc, rest),
    }
}

/// Reads the flags of PERMANENTFLAGS, and the bracket that ends their code.
#[tactic(auto, unfolding(crate::specs::ReadingAnswers::permanent_notice_at))]
fn permanent_notice(alloc: Global, bytes: &[u8]) -> Result<(Notice, &[u8]), ReadFault>
    ensures { IsReading (λ x. (x.0, x.1.now)) result (permanent_notice_at bytes.now) }
{
    let (flags, rest) = permanent_flags(alloc, bytes)?;
    value_before_text(Notice::PermanentFlags { flags }, rest, b"]")
}

/// Reads the UIDs of COPYUID in an untagged OK.
fn copied_notice(alloc: Global, bytes: &[u8]) -> Result<(Notice, &[u8]), ReadFault>
    ensures { IsReading (λ x. (x.0, x.1.now)) result
        (map_value (λ c. notice.CopyUid c.0 c.1 c.2) (copyuid_at bytes.now)) }
{
    let ((uidvalidity, source, copies), rest) = copyuid_code(alloc, bytes)?;
    let notice = Notice::CopyUid {
        uidvalidity,
        source,
        copies,
    };
    Ok((notice, rest))
}

/// Reads a UIDVALIDITY, a UID, and the bracket that ends their code.
#[tactic(auto, unfolding(crate::specs::ReadingAnswers::appended_at))]
fn appenduid_code(bytes: &[u8]) -> Result<((u32, u32), &[u8]), ReadFault>
    ensures { IsReading (λ x. (x.0, x.1.now)) result (appended_at bytes.now) }
{
    let (uidvalidity, rest) = number(bytes);
    let rest = expect(rest, b" ")?;
    let (uid, rest) = number_in_code(rest)?;
    Ok((
        (capped_at_32_bits(uidvalidity), capped_at_32_bits(uid)),
        rest,
    ))
}

/// Reads the code of a tagged OK.
#[tactic(auto, unfolding(crate::specs::ReadingAnswers::code_at))]
fn code(alloc: Global, bytes: &[u8]) -> Result<(Code, &[u8]), ReadFault>
    ensures { IsReading (λ x. (x.0, x.1.now)) result (code_at bytes.now) }
{
    if let Some(rest) = skip(bytes, b"[READ-WRITE]") {
        return Ok((Code::ReadWrite, rest));
    }
    if let Some(rest) = skip(bytes, b"[READ-ONLY]") {
        return Ok((Code::ReadOnly, rest));
    }
    if let Some(rest) = skip(bytes, b"[EXPUNGEISSUED]") {
        return Ok((Code::ExpungeIssued, rest));
    }
    if let Some(rest) = skip(bytes, b"[APPENDUID ") {
        let ((uidvalidity, uid), rest) = appenduid_code(rest)?;
        return Ok((Code::AppendUid { uidvalidity, uid }, rest));
    }
    if let Some(rest) = skip(bytes, b"[COPYUID ") {
        return copied_code(alloc, rest);
    }
    match skip(bytes, b"[MODIFIED ") {
        None => Err(ReadFault::NotPrinted),
        Some(rest) => modified_set(alloc, rest),
    }
}

/// Reads the UIDs of COPYUID in a tagged OK.
fn copied_code(alloc: Global, bytes: &[u8]) -> Result<(Code, &[u8]), ReadFault>
    ensures { IsReading (λ x. (x.0, x.1.now)) result
        (map_value (λ c. code.CopyUid c.0 c.1 c.2) (copyuid_at bytes.now)) }
{
    let ((uidvalidity, source, copies), rest) = copyuid_code(alloc, bytes)?;
    let code = Code::CopyUid {
        uidvalidity,
        source,
        copies,
    };
    Ok((code, rest))
}

/// Reads the set of MODIFIED, and the bracket that ends its code.
#[tactic(auto, unfolding(crate::specs::ReadingAnswers::modified_at))]
fn modified_set(alloc: Global, bytes: &[u8]) -> Result<(Code, &[u8]), ReadFault>
    ensures { IsReading (λ x. (x.0, x.1.now)) result (modified_at bytes.now) }
{
    let (refused, rest) = set(alloc, bytes)?;
    value_before_text(Code::Modified { refused }, rest, b"]")
}

/// Reads the code of a tagged OK and a space, if a bracket comes next.
fn code_prefix(alloc: Global, bytes: &[u8]) -> Result<(Option<Code>, &[u8]), ReadFault>
    ensures { IsReading (λ x. (x.0, x.1.now)) result (code_before_at bytes.now) }
{
    match skip(bytes, b"[") {
        None => Ok((None, bytes)),
        Some(_) => {
            let (code, rest) = code(alloc, bytes)?;
            value_before_text(Some(code), rest, b" ")
        }
    }
}

//! Printing of whole answers.

ghost use Rattle.std.specs.Prelude.{◌≡◌, ◌++◌, codes, decimal, IfSome, OnErr, OnOk};
ghost use Rattle.imap_print.specs.Appending.{AppendsText, IsPrefix};
ghost use Rattle.imap_print.specs.Lines.{EndsFlags, done_line, flags_end, numbered_line};
ghost use Rattle.imap_print.specs.Lines.{only_flags};
ghost use Rattle.imap_answers.specs.Words.{refusal_text};
ghost use Rattle.imap_answers.specs.AnswerText.{line_of_answer, completed_text, fetch_text};
ghost use Rattle.imap_answers.specs.AnswerText.{list_text};
ghost use Rattle.imap_answers.specs.AnswerText.{notice_text, text_of_answer, search_text};
ghost use Rattle.imap_answers.specs.AnswerText.{status_text};
ghost use Rattle.imap_answers.specs.AnswerText.{uid_label};

use crate::list_printers::{push_fetch_items, push_status_items};
use crate::part_printers::{push_code_prefix, push_flags, push_notice, push_results};
use crate::strings::{push_label, push_name, push_text};
use imap_answers::{
    Answer, Code, CompletedWord, FetchItems, MailboxState, Notice, Refusal, SearchResults,
    StatusItems,
};
use imap_types::{Flags, Name, Octets};
use itoa::Buffer;
use std::alloc::AllocError;

/// The capacity, in octets, with which a line begins. Most answers fit, so that memory is requested
/// once.
const USUAL_LINE: usize = 128;

/// Appends an answer's text with its line end to `out`. `Err` if memory runs out; `out` is then
/// unchanged.
pub fn print(answer: &Answer, out: &mut Vec<u8>) -> Result<(), AllocError>
    ensures ok { OnOk result (out.new.items ≡ out.old.items ++ text_of_answer answer.now) }
    ensures err { OnErr result (out.new.items ≡ out.old.items) }
{
    let before = out.len();
    match push_line(answer, out) {
        Ok(()) => Ok(()),
        Err(error) => {
            out.truncate(before);
            Err(error)
        }
    }
}

/// Appends an answer's text; an `Err` may leave part of it. The most frequent lines are appended in
/// few pieces.
fn push_line(answer: &Answer, out: &mut Vec<u8>) -> Result<(), AllocError>
    ensures ok { OnOk result (AppendsText out.old.items out.new.items (text_of_answer answer.now)) }
    ensures err { OnErr result (IsPrefix out.old.items out.new.items) }
{
    match answer {
        Answer::Fetch { number, items } => match usual_end(items) {
            Some(end) => {
                push_numbered_line(*number, end, out)?;
                Ok(())
            }
            None => push_apart(answer, out),
        },
        Answer::Completed { tag, code, command } => match code {
            None => {
                push_done_line(tag.as_bytes(), command.text(), out)?;
                Ok(())
            }
            Some(_) => push_apart(answer, out),
        },
        _ => push_apart(answer, out),
    }
}

/// The text after the number, if FETCH sends only flags, and these are a set that most messages
/// have.
fn usual_end(items: &FetchItems) -> Option<&'static [u8]>
    ensures { IfSome result (λ end. EndsFlags items.now end.now) }
{
    let flags = only_flags(items)?;
    let end = flags_end(flags)?;
    Some(end)
}

/// The flags, if FETCH sends nothing else.
fn only_flags(items: &FetchItems) -> Option<&Flags>
    ensures { IfSome result (λ flags. items.now ≡ only_flags flags.now) }
{
    let FetchItems {
        uid,
        flags,
        date,
        size,
        modseq,
        sections,
    } = items;
    match (uid, flags, date, size, modseq, sections.parts()) {
        (None, Some(flags), None, None, None, []) => Some(flags),
        _ => None,
    }
}

/// The text after the number in a line of flags, for the sets that most messages have.
fn flags_end(flags: &Flags) -> Option<&'static [u8]>
    ensures { IfSome result (λ end. end.now ≡ flags_end flags.now) }
{
    let Flags {
        answered,
        flagged,
        deleted,
        seen,
        draft,
        keywords,
    } = flags;
    match (
        *answered,
        *flagged,
        *deleted,
        *seen,
        *draft,
        keywords.as_slice(),
    ) {
        (false, false, false, false, false, []) => Some(b" FETCH (FLAGS ())\r\n"),
        (false, false, false, true, false, []) => Some(b" FETCH (FLAGS (\\Seen))\r\n"),
        (false, true, false, false, false, []) => Some(b" FETCH (FLAGS (\\Flagged))\r\n"),
        (false, true, false, true, false, []) => Some(b" FETCH (FLAGS (\\Flagged \\Seen))\r\n"),
        (true, false, false, true, false, []) => Some(b" FETCH (FLAGS (\\Answered \\Seen))\r\n"),
        (false, false, true, false, false, []) => Some(b" FETCH (FLAGS (\\Deleted))\r\n"),
        (false, false, true, true, false, []) => Some(b" FETCH (FLAGS (\\Deleted \\Seen))\r\n"),
        _ => None,
    }
}

/// Appends a line from the number of its message and the text after that number.
#[tactic(auto, using(crate::proofs::LineLemmas::starts_same, crate::proofs::LineLemmas::starts_after))]
fn push_numbered_line(number: u32, end: &[u8], out: &mut Vec<u8>) -> Result<(), AllocError>
    ensures ok { OnOk result (AppendsText out.old.items out.new.items
        (numbered_line number end.now)) }
    ensures err { OnErr result (IsPrefix out.old.items out.new.items) }
{
    let mut buffer = Buffer::new();
    let digits = buffer.format(u64::from(number)).as_bytes();
    out.extend_from_slice(b"* ")?;
    out.extend_from_slice(digits)?;
    out.extend_from_slice(end)?;
    Ok(())
}

/// Appends the line of a command that is completed without a code.
#[tactic(auto, using(crate::proofs::LineLemmas::starts_same, crate::proofs::LineLemmas::starts_after))]
fn push_done_line(tag: &[u8], word: &[u8], out: &mut Vec<u8>) -> Result<(), AllocError>
    ensures ok { OnOk result (AppendsText out.old.items out.new.items
        (done_line tag.now word.now)) }
    ensures err { OnErr result (IsPrefix out.old.items out.new.items) }
{
    out.extend_from_slice(tag)?;
    out.extend_from_slice(b" OK ")?;
    out.extend_from_slice(word)?;
    out.extend_from_slice(b" completed\r\n")?;
    Ok(())
}

/// Appends any other line. It is first written to memory of its own, so that an `Err` leaves `out`
/// unchanged.
#[tactic(auto, using(crate::proofs::LineLemmas::starts_same))]
fn push_apart(answer: &Answer, out: &mut Vec<u8>) -> Result<(), AllocError>
    ensures ok { OnOk result (AppendsText out.old.items out.new.items (text_of_answer answer.now)) }
    ensures err { OnErr result (IsPrefix out.old.items out.new.items) }
{
    let mut line = Vec::with_capacity(*out.allocator(), USUAL_LINE)?;
    push_any_line(answer, &mut line)?;
    out.extend_from_slice(&line)?;
    Ok(())
}

/// Appends an answer's text; an `Err` may leave part of it.
fn push_any_line(answer: &Answer, out: &mut Vec<u8>) -> Result<(), AllocError>
    ensures { OnOk result (AppendsText out.old.items out.new.items (text_of_answer answer.now)) }
{
    push_answer(answer, out)?;
    push_text(b"\r\n", out)
}

/// Appends an answer without its line end; an `Err` may leave part of it.
#[tactic(auto, unfolding(imap_answers::specs::AnswerText::line_of_answer))]
fn push_answer(answer: &Answer, out: &mut Vec<u8>) -> Result<(), AllocError>
    ensures { OnOk result (AppendsText out.old.items out.new.items (line_of_answer answer.now)) }
{
    match answer {
        Answer::Greeting { login } => push_text(login.text(), out),
        Answer::Continue { with } => push_text(with.text(), out),
        Answer::Capability => push_text(b"* CAPABILITY IMAP4rev2 IDLE CONDSTORE", out),
        Answer::Enabled { extensions } => push_text(extensions.text(), out),
        Answer::Namespace => push_text(b"* NAMESPACE ((\"\" \"/\")) NIL NIL", out),
        Answer::Flags { flags } => push_flags(b"* FLAGS (", flags, b")", out),
        Answer::Exists { count } => push_numbered(*count, b" EXISTS", out),
        Answer::Expunge { number } => push_numbered(*number, b" EXPUNGE", out),
        Answer::List {
            name,
            state,
            subscribed,
        } => push_list(name, *state, *subscribed, out),
        Answer::UntaggedOk { notice } => push_notice_line(notice, out),
        Answer::Status { name, items } => push_status(name, items, out),
        Answer::Search {
            tag,
            by_uid,
            results,
        } => push_search(tag, *by_uid, results, out),
        Answer::Fetch { number, items } => push_fetch(*number, items, out),
        Answer::Bye { reason } => push_text(reason.text(), out),
        Answer::NoTag => push_text(b"* BAD no tag", out),
        Answer::LiteralTooLong => push_text(b"* NO [LIMIT] literal too long", out),
        Answer::Completed { tag, code, command } => push_completed(tag, code, *command, out),
        Answer::Refused { tag, reason } => push_refused(tag, *reason, out),
    }
}

/// Appends an untagged OK.
fn push_notice_line(notice: &Notice, out: &mut Vec<u8>) -> Result<(), AllocError>
    ensures { OnOk result (AppendsText out.old.items out.new.items
        (codes "* OK " ++ notice_text notice.now ++ codes " ok")) }
{
    push_text(b"* OK ", out)?;
    push_notice(notice, out)?;
    push_text(b" ok", out)
}

/// Appends the tagged line of a refused command.
fn push_refused(tag: &Octets, reason: Refusal, out: &mut Vec<u8>) -> Result<(), AllocError>
    ensures { OnOk result
        (AppendsText out.old.items out.new.items (tag.now ++ codes " " ++ refusal_text reason)) }
{
    push_text(tag.as_bytes(), out)?;
    push_text(b" ", out)?;
    push_text(reason.text(), out)
}

/// Appends `* `, a number and a word.
fn push_numbered(number: u32, word: &[u8], out: &mut Vec<u8>) -> Result<(), AllocError>
    ensures { OnOk result
        (AppendsText out.old.items out.new.items (codes "* " ++ decimal number ++ word.now)) }
{
    push_label(b"* ", u64::from(number), out)?;
    push_text(word, out)
}

/// Appends a name in LIST.
fn push_list(
    name: &Name,
    state: MailboxState,
    subscribed: bool,
    out: &mut Vec<u8>,
) -> Result<(), AllocError>
    ensures { OnOk result
        (AppendsText out.old.items out.new.items (list_text name.now state subscribed)) }
{
    push_text(b"* LIST ", out)?;
    push_text(state.attributes(subscribed), out)?;
    push_text(b" \"/\" ", out)?;
    push_name(name, out)?;
    Ok(())
}

/// Appends a mailbox in STATUS.
fn push_status(name: &Name, items: &StatusItems, out: &mut Vec<u8>) -> Result<(), AllocError>
    ensures { OnOk result (AppendsText out.old.items out.new.items
        (status_text name.now items.now)) }
{
    push_text(b"* STATUS ", out)?;
    push_name(name, out)?;
    push_text(b" (", out)?;
    let _ = push_status_items(items, out)?;
    push_text(b")", out)?;
    Ok(())
}

/// Appends the results of a search.
fn push_search(
    tag: &Octets,
    by_uid: bool,
    results: &SearchResults,
    out: &mut Vec<u8>,
) -> Result<(), AllocError>
    ensures { OnOk result
        (AppendsText out.old.items out.new.items (search_text tag.now by_uid results.now)) }
{
    push_text(b"* ESEARCH (TAG \"", out)?;
    push_text(tag.as_bytes(), out)?;
    push_text(uid_label(by_uid), out)?;
    push_results(results, out)?;
    Ok(())
}

/// The text after the tag in ESEARCH, by whether the hits are UIDs.
fn uid_label(by_uid: bool) -> &'static [u8]
    ensures { result.now ≡ uid_label by_uid }
{
    if by_uid { b"\") UID" } else { b"\")" }
}

/// Appends the items of a message in FETCH.
fn push_fetch(number: u32, items: &FetchItems, out: &mut Vec<u8>) -> Result<(), AllocError>
    ensures { OnOk result (AppendsText out.old.items out.new.items (fetch_text number items.now)) }
{
    push_numbered(number, b" FETCH (", out)?;
    let _ = push_fetch_items(items, out)?;
    push_text(b")", out)?;
    Ok(())
}

/// Appends the tagged line of a completed command.
fn push_completed(
    tag: &Octets,
    code: &Option<Code>,
    command: CompletedWord,
    out: &mut Vec<u8>,
) -> Result<(), AllocError>
    ensures { OnOk result
        (AppendsText out.old.items out.new.items (completed_text tag.now code.now command)) }
{
    push_text(tag.as_bytes(), out)?;
    push_text(b" OK ", out)?;
    push_code_prefix(code, out)?;
    push_text(command.text(), out)?;
    push_text(b" completed", out)?;
    Ok(())
}

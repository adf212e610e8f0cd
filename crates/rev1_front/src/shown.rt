//! The answers to a command as a client is shown them.

ghost use Rattle.std.specs.Prelude.{◌≡◌, ◌++◌, ℕ, List, [], OnErr, OnOk, IfOk, codes, flat_map};
ghost use Rattle.std.specs.Prelude.{if◌then◌else◌};
ghost use Rattle.imap_types.specs.Numbers.{numbers_in, numbers_of};
ghost use Rattle.imap_answers.specs.AnswerText.{status_texts, text_of_answer};
ghost use Rattle.imap_answers.specs.declared.answer.Answer.{Answer};
ghost use Rattle.imap_answers.specs.declared.answer.Answer.TheVariants.{List as ListAnswer};
ghost use Rattle.imap_answers.specs.declared.answer.Answer.TheVariants.{Status as StatusAnswer};
ghost use Rattle.imap_print.specs.Appending.{has_none};
ghost use Rattle.rev1_front.specs.Names.{IsOuter};
ghost use Rattle.rev1_front.specs.Showing.{AreShown, EachIsShown, IsAuthenticate, IsCapability};
ghost use Rattle.rev1_front.specs.Showing.{IsCheck, IsFrontOf, IsOpening, IsPlain, IsRecentStatus};
ghost use Rattle.rev1_front.specs.Showing.{IsSearch, IsShown, highest_text, hits_line, recent_line};
ghost use Rattle.rev1_front.specs.Showing.{recent_status_line, spaced_number, status_front};

use crate::fixed_texts::{capability_line, print_parts};
use crate::form::Form;
use crate::lsub::show_lsub;
use crate::outer_names::outer_name;
use crate::session::Mode;
use imap_answers::{Answer, MailboxState, SearchResults, StatusItems};
use imap_print::print;
use imap_types::{Name, Run};
use itoa::Buffer;
use std::alloc::{AllocError, Global};

/// Appends the answers to a command in a form. `Err` if memory runs out; then the lines of some of
/// the first answers were appended, each answer's all or none.
pub fn show(
    alloc: Global,
    mode: Mode,
    form: &Form,
    answers: &[Answer],
    text: &mut Vec<u8>,
) -> Result<(), AllocError>
    ensures ok { OnOk result ((given : List ℕ)
        × AreShown mode form.now answers.now answers.now given
        × (text.new.items ≡ text.old.items ++ given)) }
    ensures err { OnErr result ((front : List Answer) × (given : List ℕ)
        × IsFrontOf front answers.now
        × AreShown mode form.now answers.now front given
        × (text.new.items ≡ text.old.items ++ given)) }
{
    match form {
        Form::Lsub { pattern } => show_lsub(alloc, mode, pattern, answers, text),
        _ => show_each(alloc, mode, form, answers, text),
    }
}

/// Appends answers, each for itself.
fn show_each(
    alloc: Global,
    mode: Mode,
    form: &Form,
    answers: &[Answer],
    text: &mut Vec<u8>,
) -> Result<(), AllocError>
    ensures ok { OnOk result ((given : List ℕ)
        × EachIsShown mode form.now answers.now given
        × (text.new.items ≡ text.old.items ++ given)) }
    ensures err { OnErr result ((front : List Answer) × (given : List ℕ)
        × IsFrontOf front answers.now
        × EachIsShown mode form.now front given
        × (text.new.items ≡ text.old.items ++ given)) }
{
    for answer in answers {
        show_answer(alloc, mode, form, answer, text)?;
    }
    Ok(())
}

/// Appends the lines of an answer. `Err` if memory runs out; the text is then unchanged.
fn show_answer(
    alloc: Global,
    mode: Mode,
    form: &Form,
    answer: &Answer,
    text: &mut Vec<u8>,
) -> Result<(), AllocError>
    ensures ok { OnOk result ((given : List ℕ)
        × IsShown mode form.now answer.now given
        × (text.new.items ≡ text.old.items ++ given)) }
    ensures err { OnErr result (text.new.items ≡ text.old.items) }
{
    match form {
        Form::Plain => print_named(alloc, mode, answer, text),
        Form::Capability => show_capability(alloc, mode, answer, text),
        Form::Opening => show_opening(alloc, mode, answer, text),
        Form::Search => show_search(alloc, mode, answer, text),
        Form::Status { only_recent } => show_status(alloc, mode, *only_recent, answer, text),
        Form::Lsub { pattern: _ } => print_named(alloc, mode, answer, text),
        Form::Check => show_check(alloc, mode, answer, text),
        Form::Authenticate => show_authenticate(alloc, mode, answer, text),
    }
}

/// Appends an answer to CAPABILITY.
fn show_capability(
    alloc: Global,
    mode: Mode,
    answer: &Answer,
    text: &mut Vec<u8>,
) -> Result<(), AllocError>
    ensures ok { OnOk result ((given : List ℕ)
        × IsCapability mode answer.now given
        × (text.new.items ≡ text.old.items ++ given)) }
    ensures err { OnErr result (text.new.items ≡ text.old.items) }
{
    match answer {
        Answer::Capability => text.extend_from_slice(capability_line()),
        _ => print_named(alloc, mode, answer, text),
    }
}

/// Appends an answer to SELECT or EXAMINE.
fn show_opening(
    alloc: Global,
    mode: Mode,
    answer: &Answer,
    text: &mut Vec<u8>,
) -> Result<(), AllocError>
    ensures ok { OnOk result ((given : List ℕ)
        × IsOpening mode answer.now given
        × (text.new.items ≡ text.old.items ++ given)) }
    ensures err { OnErr result (text.new.items ≡ text.old.items) }
{
    match answer {
        Answer::List { .. } => Ok(()),
        Answer::Exists { .. } => print_exists(answer, text),
        _ => print_named(alloc, mode, answer, text),
    }
}

/// Appends an answer to SEARCH.
fn show_search(
    alloc: Global,
    mode: Mode,
    answer: &Answer,
    text: &mut Vec<u8>,
) -> Result<(), AllocError>
    ensures ok { OnOk result ((given : List ℕ)
        × IsSearch mode answer.now given
        × (text.new.items ≡ text.old.items ++ given)) }
    ensures err { OnErr result (text.new.items ≡ text.old.items) }
{
    match answer {
        Answer::Search { results, .. } => print_hits(alloc, results, text),
        _ => print_named(alloc, mode, answer, text),
    }
}

/// Appends an answer to STATUS with RECENT.
fn show_status(
    alloc: Global,
    mode: Mode,
    only_recent: bool,
    answer: &Answer,
    text: &mut Vec<u8>,
) -> Result<(), AllocError>
    ensures ok { OnOk result ((given : List ℕ)
        × IsRecentStatus mode only_recent answer.now given
        × (text.new.items ≡ text.old.items ++ given)) }
    ensures err { OnErr result (text.new.items ≡ text.old.items) }
{
    match answer {
        Answer::Status { name, items } => {
            print_status(alloc, mode, name, items, only_recent, text)
        }
        _ => print_named(alloc, mode, answer, text),
    }
}

/// Appends an answer to CHECK.
fn show_check(
    alloc: Global,
    mode: Mode,
    answer: &Answer,
    text: &mut Vec<u8>,
) -> Result<(), AllocError>
    ensures ok { OnOk result ((given : List ℕ)
        × IsCheck mode answer.now given
        × (text.new.items ≡ text.old.items ++ given)) }
    ensures err { OnErr result (text.new.items ≡ text.old.items) }
{
    match answer {
        Answer::Completed { tag, .. } => {
            print_parts(tag.as_bytes(), b" OK CHECK completed", b"\r\n", text)
        }
        _ => print_named(alloc, mode, answer, text),
    }
}

/// Appends an answer to AUTHENTICATE.
fn show_authenticate(
    alloc: Global,
    mode: Mode,
    answer: &Answer,
    text: &mut Vec<u8>,
) -> Result<(), AllocError>
    ensures ok { OnOk result ((given : List ℕ)
        × IsAuthenticate mode answer.now given
        × (text.new.items ≡ text.old.items ++ given)) }
    ensures err { OnErr result (text.new.items ≡ text.old.items) }
{
    match answer {
        Answer::Completed { tag, .. } => {
            print_parts(tag.as_bytes(), b" OK AUTHENTICATE completed", b"\r\n", text)
        }
        _ => print_named(alloc, mode, answer, text),
    }
}

/// Appends an answer, with the name in it as a session in this mode is shown it.
fn print_named(
    alloc: Global,
    mode: Mode,
    answer: &Answer,
    text: &mut Vec<u8>,
) -> Result<(), AllocError>
    ensures ok { OnOk result ((given : List ℕ)
        × IsPlain mode answer.now given
        × (text.new.items ≡ text.old.items ++ given)) }
    ensures err { OnErr result (text.new.items ≡ text.old.items) }
{
    match answer {
        Answer::List {
            name,
            state,
            subscribed,
        } => print_listed(alloc, mode, name, *state, *subscribed, text),
        Answer::Status { name, items } => print_counted(alloc, mode, name, items, text),
        _ => print(answer, text),
    }
}

/// Appends LIST of a name.
fn print_listed(
    alloc: Global,
    mode: Mode,
    name: &Name,
    state: MailboxState,
    subscribed: bool,
    text: &mut Vec<u8>,
) -> Result<(), AllocError>
    ensures ok { OnOk result ((outer : List ℕ) × IsOuter mode name.now outer
        × (text.new.items ≡ text.old.items ++ text_of_answer (ListAnswer outer state subscribed))) }
    ensures err { OnErr result (text.new.items ≡ text.old.items) }
{
    let listed = Answer::List {
        name: outer_name(alloc, mode, name)?,
        state,
        subscribed,
    };
    print(&listed, text)
}

/// Appends STATUS of a name.
fn print_counted(
    alloc: Global,
    mode: Mode,
    name: &Name,
    items: &StatusItems,
    text: &mut Vec<u8>,
) -> Result<(), AllocError>
    ensures ok { OnOk result ((outer : List ℕ) × IsOuter mode name.now outer
        × (text.new.items ≡ text.old.items ++ text_of_answer (StatusAnswer outer items.now))) }
    ensures err { OnErr result (text.new.items ≡ text.old.items) }
{
    let counted = Answer::Status {
        name: outer_name(alloc, mode, name)?,
        items: *items,
    };
    print(&counted, text)
}

/// Appends EXISTS and RECENT.
fn print_exists(answer: &Answer, text: &mut Vec<u8>) -> Result<(), AllocError>
    ensures ok { OnOk result
        (text.new.items ≡ text.old.items ++ (text_of_answer answer.now ++ recent_line)) }
    ensures err { OnErr result (text.new.items ≡ text.old.items) }
{
    let mut line = Vec::new(*text.allocator());
    print(answer, &mut line)?;
    print_parts(&line, b"* 0 RECENT", b"\r\n", text)
}

/// Appends STATUS with RECENT as its last or only item.
fn print_status(
    alloc: Global,
    mode: Mode,
    name: &Name,
    items: &StatusItems,
    only_recent: bool,
    text: &mut Vec<u8>,
) -> Result<(), AllocError>
    ensures ok { OnOk result ((outer : List ℕ) × IsOuter mode name.now outer
        × (text.new.items ≡ text.old.items ++ recent_status_line only_recent outer items.now)) }
    ensures err { OnErr result (text.new.items ≡ text.old.items) }
{
    let others = other_items(only_recent, items);
    let line = status_front(alloc, mode, name, &others)?;
    print_parts(&line, recent_end(are_none(&others)), b"\r\n", text)
}

/// The items of STATUS beside RECENT.
fn other_items(only_recent: bool, items: &StatusItems) -> StatusItems
    ensures { status_texts result ≡ (if only_recent then [] else status_texts items.now) }
{
    if only_recent { no_items() } else { *items }
}

/// RECENT as the last item of STATUS, or as its only one.
fn recent_end(is_only: bool) -> &'static [u8]
    ensures { result.now ≡ (if is_only then codes "RECENT 0)" else codes " RECENT 0)") }
{
    if is_only { b"RECENT 0)" } else { b" RECENT 0)" }
}

/// STATUS of a name up to its items' closing parenthesis.
#[tactic(auto, unfolding(imap_answers::specs::AnswerText::line_of_answer))]
fn status_front(
    alloc: Global,
    mode: Mode,
    name: &Name,
    items: &StatusItems,
) -> Result<Vec<u8>, AllocError>
    ensures { IfOk result (λ front. (outer : List ℕ) × IsOuter mode name.now outer
        × (front.items ≡ status_front outer items.now)) }
{
    let counted = Answer::Status {
        name: outer_name(alloc, mode, name)?,
        items: *items,
    };
    let mut line = Vec::new(alloc);
    print(&counted, &mut line)?;
    line.truncate(line.len().saturating_sub(3));
    Ok(line)
}

/// No items of STATUS.
fn no_items() -> StatusItems
    ensures { status_texts result ≡ [] }
{
    StatusItems {
        messages: None,
        uidnext: None,
        uidvalidity: None,
        unseen: None,
        deleted: None,
        size: None,
        highest_modseq: None,
    }
}

/// Whether there are no items.
fn are_none(items: &StatusItems) -> bool
    ensures { result ≡ has_none (status_texts items.now) }
{
    items.messages.is_none()
        && items.uidnext.is_none()
        && items.uidvalidity.is_none()
        && items.unseen.is_none()
        && items.deleted.is_none()
        && items.size.is_none()
        && items.highest_modseq.is_none()
}

/// Appends the hits of a search (RFC 3501, section 7.2.5), last the greatest mod-sequence, if any
/// (RFC 7162, section 3.1.5).
fn print_hits(alloc: Global, results: &SearchResults, text: &mut Vec<u8>) -> Result<(), AllocError>
    ensures ok { OnOk result (text.new.items ≡ text.old.items ++ hits_line results.now) }
    ensures err { OnErr result (text.new.items ≡ text.old.items) }
{
    let mut numbers = Vec::new(alloc);
    push_runs(results.all.runs(), &mut numbers)?;
    push_highest(results.modseq, &mut numbers)?;
    print_parts(b"* SEARCH", &numbers, b"\r\n", text)
}

/// Appends the numbers of runs, each after a space.
fn push_runs(runs: &[Run], line: &mut Vec<u8>) -> Result<(), AllocError>
    ensures { OnOk result
        (line.new.items ≡ line.old.items ++ flat_map spaced_number (numbers_in runs.now)) }
{
    for run in runs {
        push_numbers(*run, line)?;
    }
    Ok(())
}

/// Appends the numbers of a run, each after a space.
fn push_numbers(run: Run, line: &mut Vec<u8>) -> Result<(), AllocError>
    ensures { OnOk result
        (line.new.items ≡ line.old.items ++ flat_map spaced_number (numbers_of run)) }
{
    for number in u64::from(run.first)..u64::from(run.first.max(run.last)) + 1 {
        push_number(number, line)?;
    }
    Ok(())
}

/// Appends a space and a number.
fn push_number(number: u64, line: &mut Vec<u8>) -> Result<(), AllocError>
    ensures { OnOk result (line.new.items ≡ line.old.items ++ spaced_number number) }
{
    let mut buffer = Buffer::new();
    line.extend_from_slice(b" ")?;
    line.extend_from_slice(buffer.format(number).as_bytes())
}

/// Appends the greatest mod-sequence among the hits, if any.
fn push_highest(modseq: Option<u64>, line: &mut Vec<u8>) -> Result<(), AllocError>
    ensures { OnOk result (line.new.items ≡ line.old.items ++ highest_text modseq) }
{
    match modseq {
        None => Ok(()),
        Some(modseq) => {
            line.extend_from_slice(b" (MODSEQ")?;
            push_number(modseq, line)?;
            line.extend_from_slice(b")")
        }
    }
}

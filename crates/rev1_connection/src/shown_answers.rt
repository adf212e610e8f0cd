//! One answer as a client is shown it.

ghost use Rattle.std.specs.Prelude.{◌≡◌, ◌++◌, ◌∷◌, [], ℕ, List, OnOk, OnErr, IfOk};
ghost use Rattle.std.specs.List.{flat_map};
ghost use Rattle.imap_answers.specs.declared.answer.Answer.{Answer};
ghost use Rattle.imap_connection.specs.Replies.{refused_answers};
ghost use Rattle.imap_connection.specs.Requests.{texts};
ghost use Rattle.rev1_front.specs.Showing.{IsFrontOf};
ghost use Rattle.rev1_connection.specs.TakingSteps.{closed_line};
ghost use Rattle.rev1_connection.specs.ShownReplies.{AreShownIn, IsPlanShown, is_news, news_text};
ghost use Rattle.rev1_connection.specs.ShownReplies.{refusal_text, rename_text, renamed_line};

use crate::manner::Manner;
use imap_answers::{Answer, Notice, Refusal};
use imap_print::print;
use imap_types::Octets;
use rev1_fetch::{FetchPlan, show_fetch};
use rev1_front::{Form, Mode, show};
use std::alloc::{AllocError, Global};
use std::slice;

/// Adds an answer as it is shown in a manner. `Err` if memory runs out.
pub fn show_answer(
    alloc: Global,
    mode: Mode,
    manner: &Manner,
    answer: &Answer,
    text: &mut Vec<u8>,
) -> Result<(), AllocError>
    ensures ok { OnOk result ((given : List ℕ)
        × AreShownIn mode manner.now (answer.now ∷ []) (answer.now ∷ []) given
        × (text.new.items ≡ text.old.items ++ given)) }
    ensures err { OnErr result ((front : List Answer) × (given : List ℕ)
        × IsFrontOf front (answer.now ∷ [])
        × AreShownIn mode manner.now (answer.now ∷ []) front given
        × (text.new.items ≡ text.old.items ++ given)) }
{
    match manner {
        Manner::Form(form) => show(alloc, mode, form, slice::from_ref(answer), text),
        Manner::Plan(plan) => show_planned(alloc, plan, answer, text),
        Manner::Renamed => show_renamed(alloc, answer, text),
    }
}

/// Adds an answer to a FETCH with a plan. `Err`, and no change, if memory runs out.
fn show_planned(
    alloc: Global,
    plan: &FetchPlan,
    answer: &Answer,
    text: &mut Vec<u8>,
) -> Result<(), AllocError>
    ensures ok { OnOk result ((given : List ℕ) × IsPlanShown plan.now answer.now given
        × (text.new.items ≡ text.old.items ++ given)) }
    ensures err { OnErr result (text.new.items ≡ text.old.items) }
{
    match answer {
        Answer::Fetch { number, items } => show_fetch(alloc, plan, *number, items, text),
        _ => print(answer, text),
    }
}

/// Adds an answer if it is news. `Err`, and no change, if memory runs out.
fn show_news(answer: &Answer, text: &mut Vec<u8>) -> Result<(), AllocError>
    ensures ok { OnOk result (text.new.items ≡ text.old.items ++ news_text answer.now) }
    ensures err { OnErr result (text.new.items ≡ text.old.items) }
{
    if is_news(answer) {
        print(answer, text)
    } else {
        Ok(())
    }
}

/// Whether an answer reports what others did.
fn is_news(answer: &Answer) -> bool
    ensures { result ≡ is_news answer.now }
{
    match answer {
        Answer::Fetch { items, .. } => items.sections.parts().is_empty(),
        Answer::Completed { .. } => false,
        _ => true,
    }
}

/// Adds an answer to the NOOP after a RENAME. `Err`, and no change, if memory runs out.
fn show_renamed(alloc: Global, answer: &Answer, text: &mut Vec<u8>) -> Result<(), AllocError>
    ensures ok { OnOk result (text.new.items ≡ text.old.items ++ rename_text answer.now) }
    ensures err { OnErr result (text.new.items ≡ text.old.items) }
{
    match answer {
        Answer::Completed { tag, .. } => push_renamed(alloc, tag, text),
        _ => print(answer, text),
    }
}

/// Adds the tagged line of RENAME. `Err`, and no change, if memory runs out.
fn push_renamed(alloc: Global, tag: &Octets, text: &mut Vec<u8>) -> Result<(), AllocError>
    ensures ok { OnOk result (text.new.items ≡ text.old.items ++ renamed_line tag.now) }
    ensures err { OnErr result (text.new.items ≡ text.old.items) }
{
    let line = renamed_line(alloc, tag)?;
    text.extend_from_slice(&line)
}

/// The tagged line of RENAME.
fn renamed_line(alloc: Global, tag: &Octets) -> Result<Vec<u8>, AllocError>
    ensures { IfOk result (λ line. line.items ≡ renamed_line tag.now) }
{
    let mut line = tag.as_bytes().to_vec(alloc)?;
    line.extend_from_slice(b" OK RENAME completed\r\n")?;
    Ok(line)
}

/// Adds the news among answers. `Err` if memory runs out; then those of some of the first were
/// added.
pub fn show_all_news(answers: &[Answer], text: &mut Vec<u8>) -> Result<(), AllocError>
    ensures ok { OnOk result
        (text.new.items ≡ text.old.items ++ flat_map news_text answers.now) }
    ensures err { OnErr result ((front : List Answer) × IsFrontOf front answers.now
        × (text.new.items ≡ text.old.items ++ flat_map news_text front)) }
{
    for answer in answers {
        show_news(answer, text)?;
    }
    Ok(())
}

/// Adds what a refused command is answered with. `Err`, and no change, if memory runs out.
pub fn show_refusal(
    alloc: Global,
    manner: &Manner,
    tag: &Octets,
    why: Refusal,
    closed: bool,
    text: &mut Vec<u8>,
) -> Result<(), AllocError>
    ensures ok { OnOk result
        (text.new.items ≡ text.old.items ++ refusal_text manner.now tag.now why closed) }
    ensures err { OnErr result (text.new.items ≡ text.old.items) }
{
    match manner {
        Manner::Renamed => push_renamed(alloc, tag, text),
        _ => push_refused(alloc, tag, why, closed, text),
    }
}

/// Adds the answers to a refused command. `Err`, and no change, if memory runs out.
fn push_refused(
    alloc: Global,
    tag: &Octets,
    why: Refusal,
    closed: bool,
    text: &mut Vec<u8>,
) -> Result<(), AllocError>
    ensures ok { OnOk result
        (text.new.items ≡ text.old.items ++ texts (refused_answers tag.now why closed)) }
    ensures err { OnErr result (text.new.items ≡ text.old.items) }
{
    let lines = refused_lines(alloc, tag, why, closed)?;
    text.extend_from_slice(&lines)
}

/// The answers to a refused command, printed.
fn refused_lines(
    alloc: Global,
    tag: &Octets,
    reason: Refusal,
    closed: bool,
) -> Result<Vec<u8>, AllocError>
    ensures { IfOk result (λ lines. lines.items ≡ texts (refused_answers tag.now reason closed)) }
{
    let mut lines = closed_line(alloc, closed)?;
    let refused = Answer::Refused {
        tag: tag.copy(alloc)?,
        reason,
    };
    print(&refused, &mut lines)?;
    Ok(lines)
}

/// The notice that a mailbox was left, if one was.
fn closed_line(alloc: Global, closed: bool) -> Result<Vec<u8>, AllocError>
    ensures { IfOk result (λ line. line.items ≡ closed_line closed) }
{
    let mut line = Vec::new(alloc);
    if !closed {
        return Ok(line);
    }
    let closed = Answer::UntaggedOk {
        notice: Notice::Closed,
    };
    print(&closed, &mut line)?;
    Ok(line)
}

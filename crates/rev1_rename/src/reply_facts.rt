//! What RENAME reads of replies.

ghost use Rattle.std.specs.Prelude.{◌≡◌, IfOk, option_map};
ghost use Rattle.imap_node.specs.Replies.{reply_answers};
ghost use Rattle.rev1_rename.specs.Exchanges.{has_messages, is_some_exist, listed_name};
ghost use Rattle.rev1_rename.specs.Exchanges.{names_of_answers};
ghost use Rattle.rev1_rename.specs.Steps.{all_messages};

use imap_answers::{Answer, MailboxState};
use imap_node::Reply;
use imap_types::{Name, SequenceBound, SequenceRange, SequenceSet};
use std::alloc::{AllocError, Global};

/// The mailboxes that the reply to a LIST names, in their order. `Err` if memory runs out.
pub(crate) fn names_in(alloc: Global, reply: &Reply) -> Result<Vec<Name>, AllocError>
    ensures { IfOk result (λ names. names.items ≡ names_of_answers (reply_answers reply.now)) }
{
    match reply {
        Reply::Done { answers, .. } => names_of_answers(alloc, answers.as_slice()),
        Reply::Refused { .. } => Ok(Vec::new(alloc)),
    }
}

/// The mailboxes that these answers name, in their order. `Err` if memory runs out.
fn names_of_answers(alloc: Global, answers: &[Answer]) -> Result<Vec<Name>, AllocError>
    ensures { IfOk result (λ names. names.items ≡ names_of_answers answers.now) }
{
    let mut names = Vec::new(alloc);
    for answer in answers {
        match listed_name(answer) {
            Some(name) => names.push(name.copy(alloc)?)?,
            None => {}
        }
    }
    Ok(names)
}

/// The name of the mailbox that an answer to LIST says to exist.
fn listed_name(answer: &Answer) -> Option<&Name>
    ensures { option_map (λ name. name.now) result ≡ listed_name answer.now }
{
    match answer {
        Answer::List {
            name,
            state: MailboxState::Selectable,
            ..
        } => Some(name),
        _ => None,
    }
}

/// Whether the reply to a SELECT says that the mailbox has messages.
pub(crate) fn has_messages(reply: &Reply) -> bool
    ensures { result ≡ has_messages reply.now }
{
    match reply {
        Reply::Done { answers, .. } => answers.as_slice().iter().any(is_some_exist),
        Reply::Refused { .. } => false,
    }
}

/// Whether an answer says that a mailbox has messages.
fn is_some_exist(answer: &Answer) -> bool
    ensures { result ≡ is_some_exist answer.now }
{
    match answer {
        Answer::Exists { count } => *count > 0,
        _ => false,
    }
}

/// All messages, by their UIDs. `Err` if memory runs out.
pub(crate) fn all_messages(alloc: Global) -> Result<SequenceSet, AllocError>
    ensures { IfOk result (λ set. set ≡ all_messages) }
{
    let ranges = vec![in alloc;
        SequenceRange {
            first: SequenceBound::Number(1),
            last: SequenceBound::Greatest,
        },
    ]?;
    Ok(SequenceSet::new(ranges))
}

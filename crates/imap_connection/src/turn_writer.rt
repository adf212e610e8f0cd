//! What a client sent, and the answers to it, as turns.

ghost use Rattle.std.specs.Prelude.{◌≡◌, ◌++◌, ◌∷◌, [], List, OnOk, OnErr};
ghost use Rattle.imap_connection.specs.Conversation.{IsPrefixOf, turns_of_item, turns_of_answers};
ghost use Rattle.imap_connection.specs.Conversation.{turn_of_answer};
ghost use Rattle.imap_connection.specs.Replies.{answers_of, polled_answers, refused_answers};
ghost use Rattle.imap_connection.specs.declared.turn.Turn.TheVariants.{Got as GotTurn};
ghost use Rattle.imap_connection.specs.declared.turn.Turn.{Turn};

use crate::turn::Turn;
use imap_answers::{Answer, Notice, Refusal};
use imap_lex::Item;
use imap_node::Reply;
use imap_print::print;
use imap_types::Octets;
use std::alloc::{AllocError, Global};

/// Adds the turns that show what the client sent as an item; `Err`, and no change, if memory runs
/// out.
pub fn show(alloc: Global, turns: &mut Vec<Turn>, item: &Item) -> Result<(), AllocError>
    ensures ok { OnOk result (turns.new.items ≡ turns.old.items ++ turns_of_item item.now) }
    ensures err { OnErr result (turns.new.items ≡ turns.old.items) }
{
    match item {
        Item::Ready => Ok(()),
        Item::Frame(frame) => show_octets(alloc, turns, frame.bytes()),
        Item::Refused(front) => show_octets(alloc, turns, front.bytes()),
    }
}

fn show_octets(alloc: Global, turns: &mut Vec<Turn>, octets: &[u8]) -> Result<(), AllocError>
    ensures ok { OnOk result (turns.new.items ≡ turns.old.items ++ GotTurn octets.now ∷ []) }
    ensures err { OnErr result (turns.new.items ≡ turns.old.items) }
{
    let octets = Octets::from_slice(alloc, octets)?;
    turns.push(Turn::Got(octets))?;
    Ok(())
}

/// Adds one answer to the turns; `Err`, and no change, if memory runs out.
pub fn send(alloc: Global, turns: &mut Vec<Turn>, answer: &Answer) -> Result<(), AllocError>
    ensures ok { OnOk result (turns.new.items ≡ turns.old.items ++ turn_of_answer answer.now ∷ []) }
    ensures err { OnErr result (turns.new.items ≡ turns.old.items) }
{
    let mut text = Vec::new(alloc);
    print(answer, &mut text)?;
    turns.push(Turn::Sent(Octets::new(text)))?;
    Ok(())
}

/// Adds answers to the turns. `Err` if memory runs out; then some of the first answers were added.
pub fn send_all(alloc: Global, turns: &mut Vec<Turn>, answers: &[Answer]) -> Result<(), AllocError>
    ensures ok { OnOk result (turns.new.items ≡ turns.old.items ++ turns_of_answers answers.now) }
    ensures err { OnErr result ((front : List Turn) × (turns.new.items ≡ turns.old.items ++ front)
        × IsPrefixOf front (turns_of_answers answers.now)) }
{
    for answer in answers {
        send(alloc, turns, answer)?;
    }
    Ok(())
}

/// Adds the answers of a reply to the command or the IDLE with this tag. `Err` if memory runs out;
/// then some of the first answers were added.
pub fn send_reply(
    alloc: Global,
    turns: &mut Vec<Turn>,
    tag: Octets,
    reply: Reply,
) -> Result<(), AllocError>
    ensures ok { OnOk result
        (turns.new.items ≡ turns.old.items ++ turns_of_answers (answers_of tag reply)) }
    ensures err { OnErr result ((front : List Turn) × (turns.new.items ≡ turns.old.items ++ front)
        × IsPrefixOf front (turns_of_answers (answers_of tag reply))) }
{
    match reply {
        Reply::Done { answers, .. } => send_all(alloc, turns, answers.as_slice()),
        Reply::Refused { why, closed } => send_refusal(alloc, turns, tag, why, closed),
    }
}

/// Adds the answers to a refused input. `Err` if memory runs out; then some of the first answers
/// were added.
fn send_refusal(
    alloc: Global,
    turns: &mut Vec<Turn>,
    tag: Octets,
    reason: Refusal,
    closed: bool,
) -> Result<(), AllocError>
    ensures ok { OnOk result (turns.new.items
        ≡ turns.old.items ++ turns_of_answers (refused_answers tag reason closed)) }
    ensures err { OnErr result ((front : List Turn) × (turns.new.items ≡ turns.old.items ++ front)
        × IsPrefixOf front (turns_of_answers (refused_answers tag reason closed))) }
{
    let refused = Answer::Refused { tag, reason };
    if !closed {
        return send_all(alloc, turns, &[refused]);
    }
    send_all(
        alloc,
        turns,
        &[
            Answer::UntaggedOk {
                notice: Notice::Closed,
            },
            refused,
        ],
    )
}

/// Adds the answers of a reply to a poll; none if it was refused. `Err` if memory runs out; then
/// some of the first answers were added.
pub fn send_polled(alloc: Global, turns: &mut Vec<Turn>, reply: Reply) -> Result<(), AllocError>
    ensures ok { OnOk result
        (turns.new.items ≡ turns.old.items ++ turns_of_answers (polled_answers reply)) }
    ensures err { OnErr result ((front : List Turn) × (turns.new.items ≡ turns.old.items ++ front)
        × IsPrefixOf front (turns_of_answers (polled_answers reply))) }
{
    match reply {
        Reply::Done { answers, .. } => send_all(alloc, turns, answers.as_slice()),
        Reply::Refused { .. } => Ok(()),
    }
}

//! Answers to a mail client as text, buffered until it is written.

ghost use Rattle.std.specs.Prelude.{◌≡◌, ◌++◌, ◌<◌, ◌+◌, [], false, List, OnOk, OnErr, IfErr};
ghost use Rattle.std.specs.Prelude.{MatchBool};
ghost use Rattle.imap_answers.specs.declared.answer.Answer.{Answer};
ghost use Rattle.imap_connection.specs.Conversation.{IsPrefixOf};
ghost use Rattle.imap_connection.specs.Replies.{answers_of, refused_answers};
ghost use Rattle.imap_connection.specs.Devices.{IsOutput, TakesAllOrPart};
ghost use Rattle.imap_connection.specs.EndReasons.{write_failures};
ghost use Rattle.imap_connection.specs.Requests.{BreaksOutput, texts};

use crate::end_reason::Ended;
use crate::io_traits::Sink;
use imap_answers::{Answer, Notice, Refusal};
use imap_node::Reply;
use imap_print::print;
use imap_types::Octets;
use std::alloc::{AllocError, Global};

/// The number of buffered octets from which on they are written.
const MAX_BUFFERED: usize = 65_536;

/// A reply to the command with this tag, whose answers aren't printed yet.
#[derive(Drop)]
pub struct UnprintedReply {
    /// The command's tag.
    pub tag: Octets,
    /// The reply to it.
    pub reply: Reply,
}

/// Adds answers to the text. `Err` if memory runs out; then some of the first answers were added.
pub fn print_all(text: &mut Vec<u8>, answers: &[Answer]) -> Result<(), AllocError>
    ensures ok { OnOk result (text.new.items ≡ text.old.items ++ texts answers.now) }
    ensures err { OnErr result ((front : List Answer)
        × (text.new.items ≡ text.old.items ++ texts front) × IsPrefixOf front answers.now) }
{
    for answer in answers {
        print(answer, text)?;
    }
    Ok(())
}

/// Adds the answers of a reply to the command or the IDLE with this tag. `Err` if memory runs out;
/// then some of the first answers were added.
pub fn print_reply(
    alloc: Global,
    text: &mut Vec<u8>,
    tag: &Octets,
    reply: &Reply,
) -> Result<(), AllocError>
    ensures ok { OnOk result
        (text.new.items ≡ text.old.items ++ texts (answers_of tag.now reply.now)) }
    ensures err { OnErr result ((front : List Answer)
        × (text.new.items ≡ text.old.items ++ texts front)
        × IsPrefixOf front (answers_of tag.now reply.now)) }
{
    match reply {
        Reply::Done { answers, .. } => print_all(text, answers.as_slice()),
        Reply::Refused { why, closed } => print_refusal(alloc, text, tag, *why, *closed),
    }
}

/// Adds the answers to a refused input. `Err` if memory runs out; then some of the first answers
/// were added.
fn print_refusal(
    alloc: Global,
    text: &mut Vec<u8>,
    tag: &Octets,
    reason: Refusal,
    closed: bool,
) -> Result<(), AllocError>
    ensures ok { OnOk result
        (text.new.items ≡ text.old.items ++ texts (refused_answers tag.now reason closed)) }
    ensures err { OnErr result ((front : List Answer)
        × (text.new.items ≡ text.old.items ++ texts front)
        × IsPrefixOf front (refused_answers tag.now reason closed)) }
{
    let Ok(tag) = tag.copy(alloc) else {
        return Err(AllocError);
    };
    let refused = Answer::Refused { tag, reason };
    if !closed {
        return print_all(text, &[refused]);
    }
    print_all(
        text,
        &[
            Answer::UntaggedOk {
                notice: Notice::Closed,
            },
            refused,
        ],
    )
}

/// Adds the answers of a reply, and writes the buffered text each time that it is full.
/// `WriteFailed` if the device failed. `NoMemory` if memory ran out for an answer; then those before
/// it were added.
pub fn write_reply<K: Sink>(
    alloc: Global,
    sink: &mut K,
    text: &mut Vec<u8>,
    unprinted: UnprintedReply,
) -> Result<(), Ended>
    requires { K.failures sink.old < 18446744073709551615 }
    ensures ok { OnOk result (IsOutput (K.taken sink.old) text.old.items
        (texts (answers_of unprinted.tag unprinted.reply)) (K.taken sink.new) text.new.items) }
    ensures err { IfErr result (λ ended. BreaksOutput ended (K.taken sink.old) text.old.items
        (answers_of unprinted.tag unprinted.reply) (K.taken sink.new) text.new.items) }
    ensures failures { K.failures sink.new ≡ K.failures sink.old + write_failures result }
{
    let UnprintedReply { tag, reply } = unprinted;
    let written = match &reply {
        Reply::Done { answers, .. } => write_all(sink, text, answers.as_slice()),
        Reply::Refused { why, closed } => write_refusal(alloc, sink, text, &tag, *why, *closed),
    };
    drop(reply);
    drop(tag);
    written
}

/// Adds answers, and writes the buffered text each time that it is full, as `write_reply` does.
fn write_all<K: Sink>(sink: &mut K, text: &mut Vec<u8>, answers: &[Answer]) -> Result<(), Ended>
    requires { K.failures sink.old < 18446744073709551615 }
    ensures ok { OnOk result (IsOutput (K.taken sink.old) text.old.items (texts answers.now)
        (K.taken sink.new) text.new.items) }
    ensures err { IfErr result (λ ended. BreaksOutput ended (K.taken sink.old) text.old.items
        answers.now (K.taken sink.new) text.new.items) }
    ensures failures { K.failures sink.new ≡ K.failures sink.old + write_failures result }
{
    for answer in answers {
        match print(answer, text) {
            Ok(()) => {}
            Err(_) => return Err(Ended::NoMemory),
        }
        if !write_if_full(sink, text) {
            return Err(Ended::WriteFailed);
        }
    }
    Ok(())
}

/// Adds the answers to a refused input, as `write_reply` does.
fn write_refusal<K: Sink>(
    alloc: Global,
    sink: &mut K,
    text: &mut Vec<u8>,
    tag: &Octets,
    reason: Refusal,
    closed: bool,
) -> Result<(), Ended>
    requires { K.failures sink.old < 18446744073709551615 }
    ensures ok { OnOk result (IsOutput (K.taken sink.old) text.old.items
        (texts (refused_answers tag.now reason closed)) (K.taken sink.new) text.new.items) }
    ensures err { IfErr result (λ ended. BreaksOutput ended (K.taken sink.old) text.old.items
        (refused_answers tag.now reason closed) (K.taken sink.new) text.new.items) }
    ensures failures { K.failures sink.new ≡ K.failures sink.old + write_failures result }
{
    match print_refusal(alloc, text, tag, reason, closed) {
        Ok(()) => {}
        Err(_) => return Err(Ended::NoMemory),
    }
    if !write_if_full(sink, text) {
        return Err(Ended::WriteFailed);
    }
    Ok(())
}

/// Writes the buffered text; `false` if the device failed.
pub fn write_pending<K: Sink>(sink: &mut K, text: &mut Vec<u8>) -> bool
    requires { K.failures sink.old < 18446744073709551615 }
    ensures output { MatchBool result
        (IsOutput (K.taken sink.old) text.old.items [] (K.taken sink.new) text.new.items)
        (TakesAllOrPart false (K.taken sink.old) text.old.items (K.taken sink.new)) }
    ensures none { MatchBool result (text.new.items ≡ []) (text.new.items ≡ text.old.items) }
    ensures failed { MatchBool result (K.failures sink.new ≡ K.failures sink.old)
        (K.failures sink.new ≡ K.failures sink.old + 1) }
{
    if text.is_empty() {
        return true;
    }
    if !sink.write(text) {
        return false;
    }
    text.clear();
    true
}

/// Writes the buffered text once it has `MAX_BUFFERED` octets; `false` if the device failed.
pub fn write_if_full<K: Sink>(sink: &mut K, text: &mut Vec<u8>) -> bool
    requires { K.failures sink.old < 18446744073709551615 }
    ensures output { MatchBool result
        (IsOutput (K.taken sink.old) text.old.items [] (K.taken sink.new) text.new.items)
        (TakesAllOrPart false (K.taken sink.old) text.old.items (K.taken sink.new)) }
    ensures failed { MatchBool result (K.failures sink.new ≡ K.failures sink.old)
        (K.failures sink.new ≡ K.failures sink.old + 1) }
{
    if text.len() < MAX_BUFFERED {
        return true;
    }
    write_pending(sink, text)
}

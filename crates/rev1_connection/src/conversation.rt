//! The conversation, from greeting to end.

ghost use Rattle.std.specs.Prelude.{◌≡◌, ◌<◌, ◌+◌, ℕ, [], List, Ok, OnOk, IfErr, IsOk};
ghost use Rattle.imap_lex.specs.Framing.{cut_from, start};
ghost use Rattle.imap_connection.specs.Devices.{GivesOctets, IsOutput};
ghost use Rattle.imap_connection.specs.EndReasons.{IsLastOutput, failed_reads, failed_writes};
ghost use Rattle.imap_connection.specs.EndReasons.{write_failures};
ghost use Rattle.imap_connection.specs.declared.end_reason.Ended.TheVariants.{WriteFailed};
ghost use Rattle.rev1_front.specs.declared.session.Mode.TheVariants.{Rev1};
ghost use Rattle.rev1_connection.specs.Conversations.{HoldsConversation, IsConversation};
ghost use Rattle.rev1_connection.specs.Handling.{AnswersItem, StopsAt, awake};
ghost use Rattle.rev1_connection.specs.ItemConversations.{Converses, EndsAtItem, EndsOverCut};
ghost use Rattle.rev1_connection.specs.ItemConversations.{EndsOverOctets};

use crate::item_steps::take_item;
use crate::rename_port::RenamePort;
use crate::reply_writer::write_reply;
use crate::session::FrontSession;
use imap_answers::Login;
use imap_connection::{
    Ended, Sink, Source, end_reason_of, write_if_full, write_last, write_pending,
};
use imap_lex::{FrameFault, Framer, Item, Limits};
use rev1_front::greeting;
use std::alloc::Global;
use std::sync::Wait;

/// The most octets read at once.
const READ_SIZE: usize = 65_536;

/// How a conversation begins.
#[derive(Clone, Copy)]
struct Opening {
    limits: Limits,
    /// Whether the user is known.
    login: Login,
}

/// The state of a conversation between reads.
#[derive(Drop)]
struct ConversationState {
    /// Cuts the octets that were read into items.
    framer: Framer,
    /// The session.
    session: FrontSession,
    /// What isn't written yet.
    text: Vec<u8>,
}

/// Holds a conversation with a mail client that speaks IMAP4rev1: opens a session, greets, answers
/// what the client sends, in order, until the conversation ends, and closes the session. What the
/// octets of one read are answered with is written after the last of them, and before it each time
/// that 64 KiB of it are buffered. Commands have at most as many octets as these limits say.
///
/// It ends as `converse_within` of `imap_connection` does. If memory runs out for an answer, the
/// conversation ends after the complete answers before it.
pub fn converse_rev1<R: Wait, S: Source, K: Sink, P: RenamePort>(
    rt: &R,
    alloc: Global,
    limits: Limits,
    source: &mut S,
    sink: &mut K,
    port: &mut P,
) -> Ended
    requires source { S.failures source.old < 18446744073709551615 }
    requires sink { K.failures sink.old < 18446744073709551615 }
    ensures conversation { IsConversation P.opens P.steps P.renames P.closes port.old port.new
        limits (S.left source.old) (S.left source.new) (S.is_ended source.new) (K.taken sink.old)
        (K.taken sink.new) result }
    ensures reads { ((result ≡ WriteFailed) → ⊥)
        → S.failures source.new ≡ S.failures source.old + failed_reads result }
    ensures writes { K.failures sink.new ≡ K.failures sink.old + failed_writes result }
{
    let login = match port.open(alloc) {
        Ok(login) => login,
        Err(fault) => return write_last(sink, &mut Vec::new(alloc), end_reason_of(fault)),
    };
    let opening = Opening { limits, login };
    let (ended, mut text) = hold_conversation(rt, alloc, opening, source, sink, port);
    port.close(alloc);
    write_last(sink, &mut text, ended)
}

/// Greets, and answers what the client sends, until the conversation ends. Returns how it ended,
/// and what is still buffered.
fn hold_conversation<R: Wait, S: Source, K: Sink, P: RenamePort>(
    rt: &R,
    alloc: Global,
    opening: Opening,
    source: &mut S,
    sink: &mut K,
    port: &mut P,
) -> (Ended, Vec<u8>)
    requires source { S.failures source.old < 18446744073709551615 }
    requires sink { K.failures sink.old < 18446744073709551615 }
    ensures conversation { (octets : List ℕ)
        × (output : List ℕ)
        × GivesOctets (S.left source.old) octets (S.left source.new)
        × HoldsConversation P.steps P.renames port.old opening.login opening.limits octets result.0
        (S.is_ended source.new) output port.new
        × IsLastOutput result.0 (K.taken sink.old) [] output (K.taken sink.new) result.1.items }
    ensures reads { S.failures source.new ≡ S.failures source.old + failed_reads result.0 }
    ensures writes { K.failures sink.new ≡ K.failures sink.old + failed_writes result.0 }
{
    let mut text = Vec::new(alloc);
    let Ok(()) = text.extend_from_slice(greeting(opening.login)) else {
        return (Ended::NoMemory, text);
    };
    let mut talk = ConversationState {
        framer: Framer::new(alloc, opening.limits),
        session: FrontSession::greeted(),
        text,
    };
    let ended = answer_all(rt, alloc, source, sink, port, &mut talk);
    (ended, talk.text)
}

/// Answers what the client sends, until the conversation ends.
fn answer_all<R: Wait, S: Source, K: Sink, P: RenamePort>(
    rt: &R,
    alloc: Global,
    source: &mut S,
    sink: &mut K,
    port: &mut P,
    talk: &mut ConversationState,
) -> Ended
    requires source { S.failures source.old < 18446744073709551615 }
    requires sink { K.failures sink.old < 18446744073709551615 }
    requires framer { talk.old.framer.state ≡ Ok start }
    requires session { talk.old.session ≡ awake Rev1 }
    ensures conversation { (octets : List ℕ)
        × (output : List ℕ)
        × GivesOctets (S.left source.old) octets (S.left source.new)
        × EndsOverOctets (AnswersItem P.steps P.renames) (StopsAt P.steps P.renames) port.old
        (awake Rev1) (cut_from talk.old.framer.limits (Ok start) octets) result
        (S.is_ended source.new) output port.new
        × IsLastOutput result (K.taken sink.old) talk.old.text.items output (K.taken sink.new)
        talk.new.text.items }
    ensures reads { S.failures source.new ≡ S.failures source.old + failed_reads result }
    ensures writes { K.failures sink.new ≡ K.failures sink.old + failed_writes result }
{
    let mut piece = [0u8; READ_SIZE];
    for _ in rt.forever() {
        if !write_pending(sink, &mut talk.text) {
            return Ended::WriteFailed;
        }
        let Some(count) = source.read(&mut piece) else {
            return Ended::ReadFailed;
        };
        if count == 0 {
            return Ended::PeerClosed;
        }
        match answer_piece(alloc, talk, &piece[..count], port, sink) {
            Ok(()) => {}
            Err(ended) => return ended,
        }
    }
    unreachable!()
}

/// Answers the items that the octets just read complete.
fn answer_piece<K: Sink, P: RenamePort>(
    alloc: Global,
    talk: &mut ConversationState,
    piece: &[u8],
    port: &mut P,
    sink: &mut K,
) -> Result<(), Ended>
    requires framer_ok { IsOk talk.old.framer.state }
    requires sink { K.failures sink.old < 18446744073709551615 }
    ensures limits { talk.new.framer.limits ≡ talk.old.framer.limits }
    ensures ok { OnOk result ((output : List ℕ)
        × Converses (AnswersItem P.steps P.renames) (StopsAt P.steps P.renames) port.old
        talk.old.session (cut_from talk.old.framer.limits talk.old.framer.state piece.now).0 output
        port.new talk.new.session
        × IsOutput (K.taken sink.old) talk.old.text.items output (K.taken sink.new)
        talk.new.text.items) }
    ensures state { OnOk result ((talk.new.framer.state
        ≡ (cut_from talk.old.framer.limits talk.old.framer.state piece.now).1)
        × IsOk talk.new.framer.state) }
    ensures err { IfErr result (λ ended. (output : List ℕ)
        × EndsOverCut (AnswersItem P.steps P.renames) (StopsAt P.steps P.renames) port.old
        talk.old.session (cut_from talk.old.framer.limits talk.old.framer.state piece.now) ended
        output port.new
        × IsLastOutput ended (K.taken sink.old) talk.old.text.items output (K.taken sink.new)
        talk.new.text.items) }
    ensures devices { IfErr result (λ ended. failed_reads ended ≡ 0) }
    ensures failures { K.failures sink.new ≡ K.failures sink.old + write_failures result }
{
    match talk.framer.feed(alloc, piece) {
        Ok(items) => answer_items(alloc, port, &mut talk.session, &items, sink, &mut talk.text),
        Err(fault) => {
            let FrameFault { items, why } = fault;
            if let Err(ended) = answer_items(
                alloc,
                port,
                &mut talk.session,
                &items,
                sink,
                &mut talk.text,
            ) {
                return Err(ended);
            }
            Err(Ended::Framing(why))
        }
    }
}

/// Answers items in their order, up to one at which the conversation ends.
fn answer_items<K: Sink, P: RenamePort>(
    alloc: Global,
    port: &mut P,
    session: &mut FrontSession,
    items: &[Item],
    sink: &mut K,
    text: &mut Vec<u8>,
) -> Result<(), Ended>
    requires { K.failures sink.old < 18446744073709551615 }
    ensures ok { OnOk result ((output : List ℕ)
        × Converses (AnswersItem P.steps P.renames) (StopsAt P.steps P.renames) port.old session.old
        items.now output port.new session.new
        × IsOutput (K.taken sink.old) text.old.items output (K.taken sink.new) text.new.items) }
    ensures err { IfErr result (λ ended. (output : List ℕ)
        × EndsAtItem (AnswersItem P.steps P.renames) (StopsAt P.steps P.renames) port.old
        session.old items.now ended output port.new
        × IsLastOutput ended (K.taken sink.old) text.old.items output (K.taken sink.new)
        text.new.items) }
    ensures devices { IfErr result (λ ended. failed_reads ended ≡ 0) }
    ensures failures { K.failures sink.new ≡ K.failures sink.old + write_failures result }
{
    for item in items {
        match answer_item(alloc, port, session, item, sink, text) {
            Ok(()) => {}
            Err(ended) => return Err(ended),
        }
        if !write_if_full(sink, text) {
            return Err(Ended::WriteFailed);
        }
    }
    Ok(())
}

/// Answers an item.
fn answer_item<K: Sink, P: RenamePort>(
    alloc: Global,
    port: &mut P,
    session: &mut FrontSession,
    item: &Item,
    sink: &mut K,
    text: &mut Vec<u8>,
) -> Result<(), Ended>
    requires { K.failures sink.old < 18446744073709551615 }
    ensures ok { OnOk result ((given : List ℕ)
        × AnswersItem P.steps P.renames port.old session.old item.now given port.new session.new
        × IsOutput (K.taken sink.old) text.old.items given (K.taken sink.new) text.new.items) }
    ensures err { IfErr result (λ ended. (given : List ℕ)
        × StopsAt P.steps P.renames port.old session.old item.now ended given port.new
        × IsLastOutput ended (K.taken sink.old) text.old.items given (K.taken sink.new)
        text.new.items) }
    ensures devices { IfErr result (λ ended. failed_reads ended ≡ 0) }
    ensures failures { K.failures sink.new ≡ K.failures sink.old + write_failures result }
{
    let unshown = match take_item(alloc, port, session, item, text) {
        Ok(unshown) => unshown,
        Err(ended) => return Err(ended),
    };
    match unshown {
        Some(unshown) => write_reply(alloc, sink, text, unshown),
        None => Ok(()),
    }
}

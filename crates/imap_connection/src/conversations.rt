//! The conversation with a mail client, from greeting to end.

ghost use Rattle.std.specs.Prelude.{◌≡◌, ◌<◌, ◌+◌, ◌++◌, ◌⊎◌, ℕ, [], List, Ok, None, OnOk, IfErr};
ghost use Rattle.std.specs.Prelude.{IsOk, MatchBool};
ghost use Rattle.imap_answers.specs.AnswerText.{text_of_answer};
ghost use Rattle.imap_answers.specs.declared.answer.Answer.TheVariants.{Greeting as Greets};
ghost use Rattle.imap_lex.specs.Framing.{cut_from, start};
ghost use Rattle.imap_connection.specs.Devices.{GivesOctets, IsOutput, TakesAllOrPart};
ghost use Rattle.imap_connection.specs.EndReasons.{IsLastOutput, bye_text_of, failed_reads};
ghost use Rattle.imap_connection.specs.EndReasons.{write_failures};
ghost use Rattle.imap_connection.specs.EndReasons.{failed_writes};
ghost use Rattle.imap_connection.specs.Conversations.{Converses, EndsOverOctets, EndsOverCut};
ghost use Rattle.imap_connection.specs.Conversations.{HoldsConversation, IsWritten};
ghost use Rattle.imap_connection.specs.Conversations.{EndsOverItems, IsConversation};
ghost use Rattle.imap_connection.specs.declared.end_reason.Ended.TheVariants.{ReadFailed};
ghost use Rattle.imap_connection.specs.declared.end_reason.Ended.TheVariants.{WriteFailed};

use crate::answer_writer::{write_if_full, write_pending, write_reply};
use crate::batch::Batch;
use crate::end_reason::{Ended, bye_text_of, end_reason_of};
use crate::io_traits::{Port, Sink, Source};
use crate::request_steps::take_item;
use imap_answers::Login;
use imap_lex::{FrameFault, Framer, Item, Limits};
use imap_types::Octets;
use std::alloc::Global;
use std::sync::Wait;

/// The most octets read at once.
const READ_SIZE: usize = 65_536;

/// The state of a conversation between reads.
#[derive(Drop)]
struct ConversationState {
    /// Cuts the octets that were read into items.
    framer: Framer,
    /// The tag of the session's IDLE, while it idles.
    idling: Option<Octets>,
    /// Answers that aren't written yet.
    text: Vec<u8>,
}

/// Holds a conversation with a mail client as `converse_within` does, with the standard limits on
/// commands.
pub fn converse<R: Wait, S: Source, K: Sink, P: Port>(
    rt: &R,
    alloc: Global,
    source: &mut S,
    sink: &mut K,
    port: &mut P,
) -> Ended
    requires source { S.failures source.old < 18446744073709551615 }
    requires sink { K.failures sink.old < 18446744073709551615 }
    ensures conversation { IsConversation P.opens P.steps P.closes port.old port.new Limits.STANDARD
        (S.left source.old) (S.left source.new) (S.is_ended source.new) (K.taken sink.old)
        (K.taken sink.new) result }
    ensures reads { ((result ≡ WriteFailed) → ⊥)
        → S.failures source.new ≡ S.failures source.old + failed_reads result }
    ensures writes { K.failures sink.new ≡ K.failures sink.old + failed_writes result }
{
    converse_within(rt, alloc, Limits::STANDARD, source, sink, port)
}

/// Holds a conversation with a mail client: opens a session, greets, answers what the client sends,
/// in order, until the conversation ends, and closes the session. The answers to the octets of one
/// read are written after the last of them, and before it each time that 64 KiB of them are
/// buffered. Commands have at most as many octets as these limits say.
///
/// It ends in `ReadFailed` or `WriteFailed` only if the device failed in this call, in `PeerClosed`
/// only if the source reported its end, in `Logout` only after a LOGOUT that was answered OK, and
/// in `Framing`, `TooManySessions` or `Torn` only if the framer or the port reported it. If memory
/// runs out for an answer, the conversation ends after the complete answers before it.
pub fn converse_within<R: Wait, S: Source, K: Sink, P: Port>(
    rt: &R,
    alloc: Global,
    limits: Limits,
    source: &mut S,
    sink: &mut K,
    port: &mut P,
) -> Ended
    requires source { S.failures source.old < 18446744073709551615 }
    requires sink { K.failures sink.old < 18446744073709551615 }
    ensures conversation { IsConversation P.opens P.steps P.closes port.old port.new limits
        (S.left source.old) (S.left source.new) (S.is_ended source.new) (K.taken sink.old)
        (K.taken sink.new) result }
    ensures reads { ((result ≡ WriteFailed) → ⊥)
        → S.failures source.new ≡ S.failures source.old + failed_reads result }
    ensures writes { K.failures sink.new ≡ K.failures sink.old + failed_writes result }
{
    let login = match port.open(alloc) {
        Ok(login) => login,
        Err(fault) => return write_last(sink, &mut Vec::new(alloc), end_reason_of(fault)),
    };
    let (ended, mut text) = hold_conversation(rt, alloc, limits, login, source, sink, port);
    port.close(alloc);
    write_last(sink, &mut text, ended)
}

/// Writes the buffered text, then the BYE for this end. Returns how the conversation ended:
/// `WriteFailed` if the device failed.
pub fn write_last<K: Sink>(sink: &mut K, text: &mut Vec<u8>, ended: Ended) -> Ended
    requires { failed_writes ended ≡ 0 → K.failures sink.old < 18446744073709551615 }
    ensures written { failed_writes ended ≡ 0
        → IsWritten ended (text.old.items ++ bye_text_of ended) result (K.taken sink.old)
        (K.taken sink.new) }
    ensures failed { (ended ≡ WriteFailed)
        → (result ≡ WriteFailed) × (K.taken sink.new ≡ K.taken sink.old) }
    ensures failures { K.failures sink.new + failed_writes ended
        ≡ K.failures sink.old + failed_writes result }
{
    if matches!(ended, Ended::WriteFailed) {
        return ended;
    }
    if !write_pending(sink, text) {
        return Ended::WriteFailed;
    }
    if !write_bye(sink, bye_text_of(ended)) {
        return Ended::WriteFailed;
    }
    ended
}

fn write_bye<K: Sink>(sink: &mut K, bye: &[u8]) -> bool
    requires { K.failures sink.old < 18446744073709551615 }
    ensures octets { TakesAllOrPart result (K.taken sink.old) bye.now (K.taken sink.new) }
    ensures failed { MatchBool result (K.failures sink.new ≡ K.failures sink.old)
        (K.failures sink.new ≡ K.failures sink.old + 1) }
{
    if bye.is_empty() {
        return true;
    }
    sink.write(bye)
}

/// Greets, and answers what the client sends, until the conversation ends. Returns how it ended,
/// and the answers still buffered.
fn hold_conversation<R: Wait, S: Source, K: Sink, P: Port>(
    rt: &R,
    alloc: Global,
    limits: Limits,
    login: Login,
    source: &mut S,
    sink: &mut K,
    port: &mut P,
) -> (Ended, Vec<u8>)
    requires source { S.failures source.old < 18446744073709551615 }
    requires sink { K.failures sink.old < 18446744073709551615 }
    ensures conversation { (octets : List ℕ)
        × (output : List ℕ)
        × GivesOctets (S.left source.old) octets (S.left source.new)
        × HoldsConversation P.steps port.old login limits octets result.0
        (S.is_ended source.new) output
        port.new
        × IsLastOutput result.0 (K.taken sink.old) [] output (K.taken sink.new) result.1.items }
    ensures reads { S.failures source.new ≡ S.failures source.old + failed_reads result.0 }
    ensures writes { K.failures sink.new ≡ K.failures sink.old + failed_writes result.0 }
{
    let mut text = Vec::new(alloc);
    let Ok(()) = text.extend_from_slice(greeting(login)) else {
        return (Ended::NoMemory, text);
    };
    let mut talk = ConversationState {
        framer: Framer::new(alloc, limits),
        idling: None,
        text,
    };
    let ended = answer_all(rt, alloc, source, sink, port, &mut talk);
    (ended, talk.text)
}

#[tactic(auto, unfolding(imap_answers::specs::AnswerText::line_of_answer))]
fn greeting(login: Login) -> &'static [u8]
    ensures { result.now ≡ text_of_answer (Greets login) }
{
    match login {
        Login::Required => b"* OK [CAPABILITY IMAP4rev2 IDLE CONDSTORE] ready\r\n",
        Login::PreAuthenticated => b"* PREAUTH [CAPABILITY IMAP4rev2 IDLE CONDSTORE] ready\r\n",
    }
}

/// Answers what the client sends, until the conversation ends.
fn answer_all<R: Wait, S: Source, K: Sink, P: Port>(
    rt: &R,
    alloc: Global,
    source: &mut S,
    sink: &mut K,
    port: &mut P,
    talk: &mut ConversationState,
) -> Ended
    requires source { S.failures source.old < 18446744073709551615 }
    requires sink { K.failures sink.old < 18446744073709551615 }
    requires framer { talk.old.framer.state ≡ Ok start }
    requires idling { talk.old.idling ≡ None }
    ensures conversation { (octets : List ℕ)
        × (output : List ℕ)
        × GivesOctets (S.left source.old) octets (S.left source.new)
        × EndsOverOctets P.steps port.old
        (cut_from talk.old.framer.limits (Ok start) octets) result
        (S.is_ended source.new) output port.new
        × IsLastOutput result (K.taken sink.old) talk.old.text.items output (K.taken sink.new)
        talk.new.text.items }
    ensures reads { S.failures source.new ≡ S.failures source.old + failed_reads result }
    ensures writes { K.failures sink.new ≡ K.failures sink.old + failed_writes result }
{
    let mut piece = [0u8; READ_SIZE];
    for _ in rt.forever() {
        if !write_pending(sink, &mut talk.text) {
            return Ended::WriteFailed;
        }
        let Some(count) = source.read(&mut piece) else {
            return Ended::ReadFailed;
        };
        if count == 0 {
            return Ended::PeerClosed;
        }
        match answer_piece(alloc, talk, &piece[..count], port, sink) {
            Ok(()) => {}
            Err(ended) => return ended,
        }
    }
    unreachable!()
}

/// Answers the items that the octets just read complete.
fn answer_piece<K: Sink, P: Port>(
    alloc: Global,
    talk: &mut ConversationState,
    piece: &[u8],
    port: &mut P,
    sink: &mut K,
) -> Result<(), Ended>
    requires framer_ok { IsOk talk.old.framer.state }
    requires sink { K.failures sink.old < 18446744073709551615 }
    ensures limits { talk.new.framer.limits ≡ talk.old.framer.limits }
    ensures ok { OnOk result ((output : List ℕ)
        × Converses P.steps port.old talk.old.idling
        (cut_from talk.old.framer.limits talk.old.framer.state piece.now).0 output port.new
        talk.new.idling
        × IsOutput (K.taken sink.old) talk.old.text.items output (K.taken sink.new)
        talk.new.text.items) }
    ensures state { OnOk result ((talk.new.framer.state
        ≡ (cut_from talk.old.framer.limits talk.old.framer.state piece.now).1)
        × IsOk talk.new.framer.state) }
    ensures err { IfErr result (λ ended. (output : List ℕ)
        × EndsOverCut P.steps port.old talk.old.idling
        (cut_from talk.old.framer.limits talk.old.framer.state piece.now) ended output port.new
        × IsLastOutput ended (K.taken sink.old) talk.old.text.items output (K.taken sink.new)
        talk.new.text.items) }
    ensures devices { IfErr result (λ ended. failed_reads ended ≡ 0) }
    ensures failures { K.failures sink.new ≡ K.failures sink.old + write_failures result }
{
    match talk.framer.feed(alloc, piece) {
        Ok(items) => take_all(alloc, port, &mut talk.idling, &items, sink, &mut talk.text),
        Err(fault) => {
            let FrameFault { items, why } = fault;
            if let Err(ended) = take_all(
                alloc,
                port,
                &mut talk.idling,
                &items,
                sink,
                &mut talk.text,
            ) {
                return Err(ended);
            }
            Err(Ended::Framing(why))
        }
    }
}

/// Answers items in their order, up to one at which the conversation ends.
fn take_all<K: Sink, P: Port>(
    alloc: Global,
    port: &mut P,
    idling: &mut Option<Octets>,
    items: &[Item],
    sink: &mut K,
    text: &mut Vec<u8>,
) -> Result<(), Ended>
    requires { K.failures sink.old < 18446744073709551615 }
    ensures ok { OnOk result
        ((output : List ℕ)
        × Converses P.steps port.old idling.old items.now output port.new idling.new
        × IsOutput (K.taken sink.old) text.old.items output (K.taken sink.new) text.new.items) }
    ensures err { IfErr result
        (λ ended. (output : List ℕ)
        × EndsOverItems P.steps port.old idling.old items.now ended output port.new
        × IsLastOutput ended (K.taken sink.old) text.old.items output (K.taken sink.new)
        text.new.items) }
    ensures devices { IfErr result (λ ended. failed_reads ended ≡ 0) }
    ensures failures { K.failures sink.new ≡ K.failures sink.old + write_failures result }
{
    let mut batch = Batch::new(alloc);
    for item in items {
        let unprinted = match take_item(alloc, port, idling, &mut batch, item, text) {
            Ok(unprinted) => unprinted,
            Err(ended) => return Err(ended),
        };
        match unprinted {
            Some(unprinted) => match write_reply(alloc, sink, text, unprinted) {
                Ok(()) => {}
                Err(ended) => return Err(ended),
            },
            None => {
                if !write_if_full(sink, text) {
                    return Err(Ended::WriteFailed);
                }
            }
        }
    }
    match batch.carry_out(alloc, port, text) {
        Ok(()) => Ok(()),
        Err(ended) => Err(ended),
    }
}

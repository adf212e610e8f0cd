//! The reader of a link.

ghost use Rattle.std.specs.Prelude.{◌≡◌, ◌⊎◌, ◌<◌, ◌+◌, ◌++◌, ℕ, List, IfErr, MatchResult, true};
ghost use Rattle.imap_connection.specs.Devices.{GivesOctets};
ghost use Rattle.link_wire.specs.declared.limits.Limits.{Limits};
ghost use Rattle.link_wire.specs.Digests.{frame_digest};
ghost use Rattle.link_wire.specs.declared.wire_message.WireMessage.{WireMessage};
ghost use Rattle.link_connection.specs.declared.receive_end.ReceiveEnd.TheVariants.{Closed, Stopped};
ghost use Rattle.link_connection.specs.Received.{ActsOnPayloads, AreActedOn, AreRead};
ghost use Rattle.link_connection.specs.Received.{EndsAtOneOf, EndsAtPayload, HasReceived};
ghost use Rattle.link_connection.specs.Received.{IsByOctets, IsReceiving, IsStoppedBy};
ghost use Rattle.link_connection.specs.Received.{end_of_fault, end_of_line_fault, failed_reads};

use crate::receive_end::ReceiveEnd;
use crate::receiver::Receiver;
use imap_connection::Source;
use link_wire::{
    FrameError, FrameFault, Framer, Limits, LineFault, Payload, WireMessage, read_payload,
};
use std::alloc::Global;
use std::sync::Wait;

/// The most octets that are read at once.
const READ_SIZE: usize = 65_536;

/// Reads the frames of a link from its source, from the octets after the hello lines on, of which
/// `begun` were read with these, and acts on their messages until the link ends.
///
/// It ends in `ReadFailed` only if the source failed in this call, and in `Closed` only if the
/// source reported its end.
pub fn receive<W: Wait, S: Source, R: Receiver>(
    rt: &W,
    alloc: Global,
    limits: Limits,
    key: [u8; 32],
    begun: &[u8],
    source: &mut S,
    receiver: &mut R,
) -> ReceiveEnd
    requires { S.failures source.old < 18446744073709551615 }
    ensures received { (given : List ℕ)
        × GivesOctets (S.left source.old) given (S.left source.new)
        × HasReceived R.acts limits (frame_digest key) receiver.old (begun.now ++ given) result
        receiver.new }
    ensures reads { S.failures source.new ≡ S.failures source.old + failed_reads result }
    ensures closed { result ≡ Closed → S.is_ended source.new ≡ true }
{
    let mut framer = Framer::new(alloc, limits, key);
    match receive_piece(alloc, &mut framer, receiver, begun) {
        Ok(()) => receive_rest(rt, alloc, &mut framer, source, receiver),
        Err(end) => end,
    }
}

/// Reads the source to its end, in pieces, and acts on the messages.
fn receive_rest<W: Wait, S: Source, R: Receiver>(
    rt: &W,
    alloc: Global,
    framer: &mut Framer,
    source: &mut S,
    receiver: &mut R,
) -> ReceiveEnd
    requires { S.failures source.old < 18446744073709551615 }
    ensures received { (limits : Limits) (key : List ℕ) (first : R) (stream : List ℕ)
        → IsReceiving R.acts limits key first stream framer.old receiver.old
        → (given : List ℕ)
        × GivesOctets (S.left source.old) given (S.left source.new)
        × HasReceived R.acts limits (frame_digest key) first (stream ++ given) result receiver.new }
    ensures reads { S.failures source.new ≡ S.failures source.old + failed_reads result }
    ensures closed { result ≡ Closed → S.is_ended source.new ≡ true }
{
    let mut piece = [0u8; READ_SIZE];
    for _ in rt.forever() {
        let Some(count) = source.read(&mut piece) else {
            return ReceiveEnd::ReadFailed;
        };
        if count == 0 {
            return ReceiveEnd::Closed;
        }
        match receive_piece(alloc, framer, receiver, &piece[..count]) {
            Ok(()) => {}
            Err(end) => return end,
        }
    }
    unreachable!()
}

/// Acts on the messages of the frames that the next octets of the stream complete.
fn receive_piece<R: Receiver>(
    alloc: Global,
    framer: &mut Framer,
    receiver: &mut R,
    octets: &[u8],
) -> Result<(), ReceiveEnd>
    ensures received { (limits : Limits) (key : List ℕ) (first : R) (stream : List ℕ)
        → IsReceiving R.acts limits key first stream framer.old receiver.old
        → MatchResult result
        (λ done. IsReceiving R.acts limits key first (stream ++ octets.now) framer.new receiver.new)
        (λ end. HasReceived R.acts limits (frame_digest key) first (stream ++ octets.now) end
        receiver.new) }
    ensures end { IfErr result (λ end. IsByOctets end) }
{
    match framer.feed(alloc, octets) {
        Ok(payloads) => act_on_payloads(alloc, receiver, payloads),
        Err(error) => Err(act_before_fault(alloc, receiver, error)),
    }
}

/// Acts on the messages of the frames before a fault, and gives the end of the link.
fn act_before_fault<R: Receiver>(alloc: Global, receiver: &mut R, error: FrameError) -> ReceiveEnd
    ensures { EndsAtOneOf R.acts result receiver.old error.payloads.items receiver.new
        ⊎ ((result ≡ end_of_fault error.why)
        × ActsOnPayloads R.acts receiver.old error.payloads.items receiver.new) }
{
    let FrameError { payloads, why } = error;
    match act_on_payloads(alloc, receiver, payloads) {
        Ok(()) => end_of_fault(why),
        Err(end) => end,
    }
}

/// The end of a link at a fault of its frames.
fn end_of_fault(why: FrameFault) -> ReceiveEnd
    ensures { result ≡ end_of_fault why }
{
    match why {
        FrameFault::BadHeader => ReceiveEnd::BadFrame(FrameFault::BadHeader),
        FrameFault::TooManyFrames => ReceiveEnd::BadFrame(FrameFault::TooManyFrames),
        FrameFault::BadDigest => ReceiveEnd::BadFrame(FrameFault::BadDigest),
        FrameFault::NoMemory => ReceiveEnd::NoMemory,
        FrameFault::Failed => ReceiveEnd::BadFrame(FrameFault::Failed),
    }
}

/// Acts on the messages of payloads, one payload after another.
#[tactic(auto, using(crate::proofs::MessageLemmas::acts_more))]
fn act_on_payloads<R: Receiver>(
    alloc: Global,
    receiver: &mut R,
    payloads: Vec<Payload>,
) -> Result<(), ReceiveEnd>
    ensures { MatchResult result
        (λ done. ActsOnPayloads R.acts receiver.old payloads.items receiver.new)
        (λ end. EndsAtOneOf R.acts end receiver.old payloads.items receiver.new) }
{
    for payload in payloads {
        act_on_payload(alloc, receiver, payload.as_bytes())?;
    }
    Ok(())
}

/// Acts on the messages of a payload, if all of its lines spell messages that may be acted on.
#[tactic(auto, using(crate::proofs::MessageLemmas::read_acted, crate::proofs::MessageLemmas::not_read))]
fn act_on_payload<R: Receiver>(
    alloc: Global,
    receiver: &mut R,
    payload: &[u8],
) -> Result<(), ReceiveEnd>
    ensures { MatchResult result
        (λ done. (messages : List WireMessage)
        × AreRead messages payload.now
        × AreActedOn R.acts receiver.old messages receiver.new)
        (λ end. EndsAtPayload R.acts end receiver.old payload.now receiver.new) }
{
    match read_payload(alloc, payload) {
        Ok(messages) => act_on_messages(receiver, messages),
        Err(fault) => Err(end_of_line_fault(fault)),
    }
}

/// The end of a link at a fault of a line.
fn end_of_line_fault(fault: LineFault) -> ReceiveEnd
    ensures { result ≡ end_of_line_fault fault }
{
    match fault {
        LineFault::NotInForm => ReceiveEnd::BadLine(LineFault::NotInForm),
        LineFault::Unsound(rule) => ReceiveEnd::BadLine(LineFault::Unsound(rule)),
        LineFault::NoMemory => ReceiveEnd::NoMemory,
    }
}

/// Acts on messages, one after another, up to the first that ends the link.
#[tactic(auto, using(crate::proofs::MessageLemmas::acted_more))]
fn act_on_messages<R: Receiver>(
    receiver: &mut R,
    messages: Vec<WireMessage>,
) -> Result<(), ReceiveEnd>
    ensures { MatchResult result
        (λ done. AreActedOn R.acts receiver.old messages.items receiver.new)
        (λ end. (end ≡ Stopped)
        × IsStoppedBy R.acts receiver.old messages.items receiver.new) }
{
    for message in messages {
        if !receiver.act(message) {
            return Err(ReceiveEnd::Stopped);
        }
    }
    Ok(())
}

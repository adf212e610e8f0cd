//! The beginning of a link: hello and proof of both ends, and the keys of its frames.

ghost use Rattle.std.specs.Prelude.{◌≡◌, ◌<◌, ◌∷◌, ◌++◌, ◌⊎◌, ℕ, List, IfErr, IfOk, MatchResult};
ghost use Rattle.std.specs.Prelude.{OnErr, OnOk};
ghost use Rattle.imap_connection.specs.Devices.{GivesOctets, TakesOctets};
ghost use Rattle.link_wire.specs.Hello.{IsHelloSpelled, IsProofSpelled, hello_text, proof_text};
ghost use Rattle.link_wire.specs.Hello.{with_end};
ghost use Rattle.link_wire.specs.Secrets.{proof_digest};
ghost use Rattle.link_runtime.specs.HandshakeFaults.{IsHelloRefused, IsOtherLine, IsProofRefused};
ghost use Rattle.link_runtime.specs.HandshakeFaults.{NamesBoth};
ghost use Rattle.link_runtime.specs.Handshakes.{HasAccepted, HasDialed, ProvesItself};
ghost use Rattle.link_runtime.specs.Handshakes.{SaysHelloAtMost, TakesPart, keys_of, other_side};
ghost use Rattle.link_runtime.specs.Handshakes.{own_hello};

use crate::handshake_fault::HandshakeFault;
use crate::line_input::next_line;
use imap_connection::{Sink, Source};
use imap_types::Octets;
use keyed_digest::are_equal;
use link_wire::{
    ByeReason, Hello, HelloFault, Side, WireMessage, frame_key, proof_digest, read_hello,
    read_message, read_proof, write_hello, write_message, write_proof,
};
use std::alloc::{AllocError, Global};
use tags_clocks::ReplicaId;

/// The keys of a link's frames.
#[derive(Clone, Copy, Debug, PartialEq, Eq)]
pub struct LinkKeys {
    /// The key of the frames that this end writes.
    pub written: [u8; 32],
    /// The key of the frames that this end reads.
    pub read: [u8; 32],
}

/// A peer that proved that it knows the secret.
#[derive(Drop)]
pub struct ProvedPeer {
    /// What it said of itself.
    pub hello: Hello,
    /// The keys of the frames that follow.
    pub keys: LinkKeys,
    /// The octets that were read after its lines.
    pub begun: Octets,
}

/// What this end says of itself on a connection.
#[derive(Clone, Copy, Debug, PartialEq, Eq)]
pub struct OwnEnd {
    /// Its name.
    pub name: ReplicaId,
    /// The octets that its process drew when it started.
    pub run: [u8; 16],
    /// The octets that it drew for this connection.
    pub nonce: [u8; 32],
}

/// Begins a link as the end that opened the connection: the acceptor must have the name `peer`.
pub fn dial_peer<S: Source, K: Sink>(
    alloc: Global,
    secret: &[u8],
    own: &OwnEnd,
    peer: ReplicaId,
    source: &mut S,
    sink: &mut K,
) -> Result<ProvedPeer, HandshakeFault>
    requires source { S.failures source.old < 18446744073709551615 }
    requires sink { K.failures sink.old < 18446744073709551615 }
    ensures { IfOk result (λ proved. (given written : List ℕ)
        × GivesOctets (S.left source.old) given (S.left source.new)
        × TakesOctets (K.taken sink.old) written (K.taken sink.new)
        × HasDialed secret.now own.now peer given written proved) }
{
    let mut rest = Vec::new(alloc);
    let dialer = hello_line(alloc, own, peer)?;
    send_line(alloc, &dialer, sink)?;
    let acceptor = next_line(alloc, &mut rest, source)?;
    let hello = hello_of(alloc, acceptor.as_bytes(), own.name)?;
    if hello.own != peer {
        return Err(HandshakeFault::Refused(ByeReason::Name));
    }
    let lines = HelloLines {
        dialer: &dialer,
        acceptor: acceptor.as_bytes(),
    };
    send_proof(alloc, secret, Side::Dialer, &lines, sink)?;
    take_proof(alloc, secret, Side::Dialer, &lines, hello, rest, source)
}

/// Begins a link as the end to which the connection was opened. The dialer proves first that it
/// knows the secret: until it has, this end says no more than its hello.
pub fn accept_peer<S: Source, K: Sink>(
    alloc: Global,
    secret: &[u8],
    own: &OwnEnd,
    source: &mut S,
    sink: &mut K,
) -> Result<ProvedPeer, HandshakeFault>
    requires source { S.failures source.old < 18446744073709551615 }
    requires sink { K.failures sink.old < 18446744073709551615 }
    ensures proved { IfOk result (λ proved. (given written : List ℕ)
        × GivesOctets (S.left source.old) given (S.left source.new)
        × TakesOctets (K.taken sink.old) written (K.taken sink.new)
        × HasAccepted secret.now own.now given written proved) }
    ensures silent { OnErr result
        (SaysHelloAtMost own.now (K.taken sink.old) (K.taken sink.new)
        ⊎ ((given : List ℕ)
        × GivesOctets (S.left source.old) given (S.left source.new)
        × ProvesItself secret.now own.now given)) }
{
    let mut rest = Vec::new(alloc);
    let dialer = next_line(alloc, &mut rest, source)?;
    let hello = hello_of(alloc, dialer.as_bytes(), own.name)?;
    let acceptor = hello_line(alloc, own, hello.own)?;
    send_line(alloc, &acceptor, sink)?;
    let lines = HelloLines {
        dialer: dialer.as_bytes(),
        acceptor: &acceptor,
    };
    let proved = take_proof(alloc, secret, Side::Acceptor, &lines, hello, rest, source)?;
    send_proof(alloc, secret, Side::Acceptor, &lines, sink)?;
    Ok(proved)
}

/// Takes the peer's proof, which is its last line before the frames.
fn take_proof<S: Source>(
    alloc: Global,
    secret: &[u8],
    side: Side,
    lines: &HelloLines<'_>,
    hello: Hello,
    rest: Vec<u8>,
    source: &mut S,
) -> Result<ProvedPeer, HandshakeFault>
    requires { S.failures source.old < 18446744073709551615 }
    ensures proved { IfOk result (λ proved. (given proof : List ℕ)
        × GivesOctets (S.left source.old) given (S.left source.new)
        × (rest.items ++ given ≡ proof ++ 10 ∷ proved.begun)
        × IsProofSpelled (proof_digest secret.now (other_side side) lines.now.dialer.now
        lines.now.acceptor.now) proof) }
    ensures hello { IfOk result (λ proved. proved.hello ≡ hello) }
    ensures keys { IfOk result (λ proved.
        proved.keys ≡ keys_of secret.now side lines.now.dialer.now lines.now.acceptor.now) }
{
    let mut rest = rest;
    let proof = next_line(alloc, &mut rest, source)?;
    check_proof(alloc, secret, other_side(side), lines, proof.as_bytes())?;
    Ok(ProvedPeer {
        hello,
        keys: keys_of(secret, side, lines),
        begun: Octets::new(rest),
    })
}

/// Both hello lines of a connection, without their ends.
#[derive(Clone, Copy)]
struct HelloLines<'a> {
    dialer: &'a [u8],
    acceptor: &'a [u8],
}

/// The hello line of this end, without its end.
fn hello_line(alloc: Global, own: &OwnEnd, peer: ReplicaId) -> Result<Vec<u8>, AllocError>
    ensures { IfOk result (λ line. line.items ≡ hello_text (own_hello own.now peer)) }
{
    let hello = Hello {
        own: own.name,
        other: peer,
        run: own.run,
        nonce: own.nonce,
    };
    let mut line = Vec::new(alloc);
    write_hello(&hello, &mut line)?;
    let _ = line.pop();
    Ok(line)
}

/// The hello that the peer's line spells, if it names this end, and another end than this one.
fn hello_of(alloc: Global, line: &[u8], own: ReplicaId) -> Result<Hello, HandshakeFault>
    ensures { MatchResult result
        (λ hello. IsHelloSpelled hello line.now × NamesBoth own hello)
        (λ fault. IsHelloRefused own line.now fault) }
{
    let hello = match read_hello(line) {
        Ok(hello) => hello,
        Err(HelloFault::OtherVersion) => {
            return Err(HandshakeFault::Refused(ByeReason::Version));
        }
        Err(HelloFault::NotInForm) => return Err(fault_of(alloc, line, ByeReason::Hello)),
    };
    if hello.other != own || hello.own == own {
        return Err(HandshakeFault::Refused(ByeReason::Name));
    }
    Ok(hello)
}

/// Why a line that isn't the expected one ends the beginning of a link: the peer says why it ends,
/// or the line is wrong.
fn fault_of(alloc: Global, line: &[u8], reason: ByeReason) -> HandshakeFault
    ensures { IsOtherLine reason line.now result }
{
    let Ok(message) = read_message(alloc, line) else {
        return HandshakeFault::Refused(reason);
    };
    let why = match &message {
        WireMessage::Bye(why) => Some(*why),
        _ => None,
    };
    drop(message);
    match why {
        Some(why) => HandshakeFault::RefusedBy(why),
        None => HandshakeFault::Refused(reason),
    }
}

/// Checks that the peer's line proves that it knows the secret.
fn check_proof(
    alloc: Global,
    secret: &[u8],
    side: Side,
    lines: &HelloLines<'_>,
    line: &[u8],
) -> Result<(), HandshakeFault>
    ensures ok { OnOk result (IsProofSpelled
        (proof_digest secret.now side lines.now.dialer.now lines.now.acceptor.now) line.now) }
    ensures err { IfErr result (λ fault. IsProofRefused
        (proof_digest secret.now side lines.now.dialer.now lines.now.acceptor.now) line.now fault) }
{
    let Some(digest) = read_proof(line) else {
        return Err(fault_of(alloc, line, ByeReason::Secret));
    };
    let expected = proof_digest(secret, side, lines.dialer, lines.acceptor);
    if are_equal(&digest, &expected) {
        Ok(())
    } else {
        Err(HandshakeFault::Refused(ByeReason::Secret))
    }
}

/// The keys of the frames after these lines, at this side.
fn keys_of(secret: &[u8], side: Side, lines: &HelloLines<'_>) -> LinkKeys
    ensures { result ≡ keys_of secret.now side lines.now.dialer.now lines.now.acceptor.now }
{
    LinkKeys {
        written: frame_key(secret, side, lines.dialer, lines.acceptor),
        read: frame_key(secret, other_side(side), lines.dialer, lines.acceptor),
    }
}

fn other_side(side: Side) -> Side
    ensures { result ≡ other_side side }
{
    match side {
        Side::Dialer => Side::Acceptor,
        Side::Acceptor => Side::Dialer,
    }
}

/// Sends a line, with its end.
fn send_line<K: Sink>(alloc: Global, line: &[u8], sink: &mut K) -> Result<(), HandshakeFault>
    requires { K.failures sink.old < 18446744073709551615 }
    ensures ok { OnOk result (TakesOctets (K.taken sink.old) (with_end line.now) (K.taken sink.new)) }
    ensures part { OnErr result
        (TakesPart (K.taken sink.old) (with_end line.now) (K.taken sink.new)) }
    ensures same { OnOk result (K.failures sink.new ≡ K.failures sink.old) }
{
    let mut text = Vec::new(alloc);
    text.extend_from_slice(line)?;
    text.push(b'\n')?;
    send(&text, sink)
}

/// Sends this side's proof.
fn send_proof<K: Sink>(
    alloc: Global,
    secret: &[u8],
    side: Side,
    lines: &HelloLines<'_>,
    sink: &mut K,
) -> Result<(), HandshakeFault>
    requires { K.failures sink.old < 18446744073709551615 }
    ensures ok { OnOk result (TakesOctets (K.taken sink.old) (with_end (proof_text
        (proof_digest secret.now side lines.now.dialer.now lines.now.acceptor.now)))
        (K.taken sink.new)) }
    ensures same { OnOk result (K.failures sink.new ≡ K.failures sink.old) }
{
    let digest = proof_digest(secret, side, lines.dialer, lines.acceptor);
    let mut text = Vec::new(alloc);
    write_proof(&digest, &mut text)?;
    send(&text, sink)
}

/// Tells the peer why no link is begun.
pub fn send_refusal<K: Sink>(alloc: Global, reason: ByeReason, sink: &mut K)
    requires { K.failures sink.old < 18446744073709551615 }
{
    let mut text = Vec::new(alloc);
    if write_message(alloc, &WireMessage::Bye(reason), &mut text).is_ok() {
        let _ = sink.write(&text);
    }
}

fn send<K: Sink>(text: &[u8], sink: &mut K) -> Result<(), HandshakeFault>
    requires { K.failures sink.old < 18446744073709551615 }
    ensures ok { OnOk result (TakesOctets (K.taken sink.old) text.now (K.taken sink.new)) }
    ensures part { OnErr result
        (TakesPart (K.taken sink.old) text.now (K.taken sink.new)) }
    ensures same { OnOk result (K.failures sink.new ≡ K.failures sink.old) }
{
    if sink.write(text) {
        Ok(())
    } else {
        Err(HandshakeFault::Broken)
    }
}

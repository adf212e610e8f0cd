//! Conversations in which each read and each write fails in turn.

use crate::fake_port::FakePort;
use imap_connection::{Ended, MemorySink, MemorySource, converse};
use imap_lex::FrameFaultKind;
use std::alloc::Global;
use std::sync::Wait;
use std::test::*;

/// The client's input: a line without a tag, an unknown command and known ones, a literal, two
/// IDLEs, and a command after a LOGOUT.
pub const INPUT: &[u8] =
    b"a NOOP\r\n\r\nb XYZ\r\nc LOGIN {1}\r\nu p\r\nd IDLE\r\nDONE\r\ne IDLE\r\nx\r\nf LOGOUT\r\ng NOOP\r\n";

/// The output that answers it.
pub const OUTPUT: &[u8] =
    b"* PREAUTH [CAPABILITY IMAP4rev2 IDLE CONDSTORE] ready\r\na OK NOOP completed\r\n* BAD no tag\r\nb BAD unknown command\r\n+ ready\r\nc OK NOOP completed\r\n+ idling\r\nd OK IDLE completed\r\n+ idling\r\ne BAD DONE expected\r\nf OK LOGOUT completed\r\n";

/// How a conversation ended, with its output and the counts of its devices and its port.
#[derive(Drop)]
struct Conversation {
    ended: Ended,
    output: Vec<u8>,
    reads_failed: u64,
    writes_failed: u64,
    closed: u32,
    commands: u32,
}

/// A conversation over this input, in pieces of at most `most` octets, in which `reads` reads
/// succeed and the sink takes `room` octets.
fn run_conversation<R: Wait>(
    rt: &R,
    alloc: Global,
    input: &[u8],
    most: usize,
    reads: u64,
    room: u64,
) -> Conversation {
    let mut source = MemorySource::new(input, most, reads);
    let mut sink = MemorySink::new(Vec::new(alloc), room);
    let mut port = FakePort::new();
    let ended = converse(rt, alloc, &mut source, &mut sink, &mut port);
    let reads_failed = source.failures();
    let writes_failed = sink.failures();
    Conversation {
        ended,
        output: sink.into_octets(),
        reads_failed,
        writes_failed,
        closed: port.closed,
        commands: port.commands,
    }
}

/// Whether a conversation is lawful: a prefix of the whole output was sent, it ended with a failed
/// read or write exactly when one failed, and the session was closed once.
fn is_lawful(conversation: &Conversation, whole: &[u8]) -> bool {
    whole.starts_with(&conversation.output)
        && (conversation.ended == Ended::ReadFailed) == (conversation.reads_failed > 0)
        && (conversation.ended == Ended::WriteFailed) == (conversation.writes_failed > 0)
        && conversation.closed == 1
}

/// The first number of successful reads with which a conversation isn't lawful.
fn first_unlawful_read<R: Wait>(rt: &R, alloc: Global, most: usize) -> Option<u64> {
    (0..200u64).find(|reads| !is_lawful(
        &run_conversation(rt, alloc, INPUT, most, *reads, u64::MAX),
        OUTPUT,
    ))
}

/// The first size of the sink, in octets, with which a conversation isn't lawful.
fn first_unlawful_room<R: Wait>(rt: &R, alloc: Global, most: usize) -> Option<u64> {
    (0..400u64).find(|room| !is_lawful(
        &run_conversation(rt, alloc, INPUT, most, u64::MAX, *room),
        OUTPUT,
    ))
}

/// Whether a conversation over this input has this end and this output.
fn ends_with<R: Wait>(rt: &R, alloc: Global, input: &[u8], ended: Ended, output: &[u8]) -> bool {
    let conversation = run_conversation(rt, alloc, input, 4_096, u64::MAX, u64::MAX);
    conversation.ended == ended
        && conversation.output.as_slice() == output
        && conversation.closed == 1
}

#[test]
fn each_read_fails_in_turn(rt: HostRuntime) {
    for most in [1usize, 3, 4_096] {
        assert_eq!(rt; first_unlawful_read(&rt, rt.alloc(), most), None);
    }
}

#[test]
fn each_write_fails_in_turn(rt: HostRuntime) {
    for most in [1usize, 17, 4_096] {
        assert_eq!(rt; first_unlawful_room(&rt, rt.alloc(), most), None);
    }
}

#[test]
fn a_reader_fails_after_a_command(rt: HostRuntime) {
    let conversation = run_conversation(&rt, rt.alloc(), b"a NOOP\r\n", 4_096, 1, u64::MAX);
    let output =
        b"* PREAUTH [CAPABILITY IMAP4rev2 IDLE CONDSTORE] ready\r\na OK NOOP completed\r\n";
    assert!(rt; conversation.ended == Ended::ReadFailed);
    assert!(rt; conversation.output.as_slice() == output.as_slice());
    assert_eq!(rt; (conversation.commands, conversation.closed), (1, 1));
}

#[test]
fn conversations_end(rt: HostRuntime) {
    let alloc = rt.alloc();
    assert!(rt; ends_with(&rt, alloc, INPUT, Ended::Logout, OUTPUT));
    let output =
        b"* PREAUTH [CAPABILITY IMAP4rev2 IDLE CONDSTORE] ready\r\na OK NOOP completed\r\n";
    assert!(rt; ends_with(&rt, alloc, b"a NOOP\r\nb NO", Ended::PeerClosed, output));
    let output =
        b"* PREAUTH [CAPABILITY IMAP4rev2 IDLE CONDSTORE] ready\r\na OK NOOP completed\r\n* BYE NUL in text\r\n";
    assert!(rt;
        ends_with(
            &rt,
            alloc,
            b"a NOOP\r\n\0",
            Ended::Framing(FrameFaultKind::NulByte),
            output
        )
    );
    let output =
        b"* PREAUTH [CAPABILITY IMAP4rev2 IDLE CONDSTORE] ready\r\n* BYE literal too long\r\n";
    assert!(rt;
        ends_with(
            &rt,
            alloc,
            b"a APPEND x {1048577+}\r\n",
            Ended::Framing(FrameFaultKind::LiteralTooLong),
            output
        )
    );
    let output =
        b"* PREAUTH [CAPABILITY IMAP4rev2 IDLE CONDSTORE] ready\r\na NO [LIMIT] literal too long\r\nb OK NOOP completed\r\n";
    assert!(rt;
        ends_with(
            &rt,
            alloc,
            b"a APPEND x {1048577}\r\nb NOOP\r\n",
            Ended::PeerClosed,
            output
        )
    );
}

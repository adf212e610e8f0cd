//! Payloads that are read and written again, and payloads that are refused.

use crdt_ops::{OpFault, Unsound, into_sound_op, read_op};
use link_wire::{LineFault, read_message, read_payload, write_message, write_op_line};
use std::alloc::Global;
use std::test::Fail;

/// One message of each kind and one `bye` for each reason.
const PAYLOAD: &[u8] =
    b"op 1:3 1=2,2=7 append a ($forwarded) \"25-Dec-2023 10:00:00 +0000\" =a~0D~0Ab\nhave 1=3,2=1 000102030405060708090a0b0c0d0e0ff0f1f2f3f4f5f6f7f8f9fafbfcfdfeff\nhave - \nwant -\nwant 1=3,65535=4294967295\nping\nbye hello\nbye version\nbye name\nbye secret\nbye frame\nbye torn\nbye line\nbye unsound U1\nbye unsound U2\nbye unsound U3\nbye unsound U4\nbye unsound U5\nbye unsound U6\nbye fork 2\nbye behind 65535\nbye memory\nbye busy\n";

/// The lines of the messages of a payload.
fn lines_again(alloc: Global, payload: &[u8]) -> Result<Vec<u8>, LineFault> {
    let messages = read_payload(alloc, payload)?;
    let mut lines = Vec::new(alloc);
    for message in &messages {
        write_message(alloc, message, &mut lines)?;
    }
    Ok(lines)
}

fn are_read_again(alloc: Global, payload: &[u8]) -> bool {
    match lines_again(alloc, payload) {
        Ok(lines) => lines.as_slice() == payload,
        Err(_) => false,
    }
}

#[test]
fn payloads_are_read_again(rt: HostRuntime) {
    assert!(rt; are_read_again(rt.alloc(), PAYLOAD));
    assert!(rt; are_read_again(rt.alloc(), b""));
}

/// Payloads with a line that spells no message, or whose last line has no end.
const NO_PAYLOADS: &[&[u8]] = &[
    b"ping",
    b"ping\nping",
    b"\n",
    b"pong\n",
    b"Ping\n",
    b"ping \n",
    b"ping\r\n",
    b"ping\n\nping\n",
    b"ping\nping\nwant x\nping\n",
    b"want\n",
    b"want \n",
    b"want 1=0\n",
    b"want 2=1,1=1\n",
    b"want 1=1,1=2\n",
    b"want 0=1\n",
    b"want 1=4294967296\n",
    b"have 1=1\n",
    b"have -\n",
    b"have 1=1 00\n",
    b"have - 00\n",
    b"have 1=1 000102030405060708090A0B0C0D0E0F\n",
    b"have 1=1 000102030405060708090a0b0c0d0e0g\n",
    b"have 1=1 000102030405060708090a0b0c0d0e0f \n",
    b"have 1=1 000102030405060708090a0b0c0d0e0f000102030405060708090a0b0c0d0e0f\n",
    b"have 1=1,2=1 000102030405060708090a0b0c0d0e0f\n",
    b"bye\n",
    b"bye nothing\n",
    b"bye unsound\n",
    b"bye unsound U0\n",
    b"bye unsound U7\n",
    b"bye fork\n",
    b"bye fork 0\n",
    b"bye behind 65536\n",
    b"bye hello \n",
    b"bye busy 1\n",
    b"op\n",
    b"op \n",
    b"op 1:3 1=2 creates a\n",
    b"op 1:3 1=2 create a \n",
];

/// The fault of a payload, if it has one.
fn fault_of(alloc: Global, payload: &[u8]) -> Option<LineFault> {
    match read_payload(alloc, payload) {
        Ok(_) => None,
        Err(fault) => Some(fault),
    }
}

/// The first of these payloads that is read, or refused otherwise, if any.
fn first_read(alloc: Global) -> Option<&'static [u8]> {
    for payload in NO_PAYLOADS {
        if fault_of(alloc, payload) != Some(LineFault::NotInForm) {
            return Some(*payload);
        }
    }
    None
}

#[test]
fn other_payloads_are_refused(rt: HostRuntime) {
    assert!(rt; first_read(rt.alloc()).is_none());
}

/// Payloads with an operation that breaks a rule, and that rule.
const UNSOUND: &[(&[u8], Unsound)] = &[
    (b"ping\nop 1:3 1=1 create a\nping\n", Unsound::OwnClockEntry),
    (b"op 1:1 - expunge a 2:1\n", Unsound::UncoveredId),
    (b"op 1:1 - create ~0D\nping", Unsound::UnlawfulName),
    (b"op 1:1 - delete INBOX -\n", Unsound::DeleteOfInbox),
    (b"op 1:1 - expunge a -\nop\n", Unsound::Count),
];

/// The first of these payloads that isn't refused by its rule, if any.
fn first_wrong_rule(alloc: Global) -> Option<&'static [u8]> {
    for (payload, rule) in UNSOUND {
        if fault_of(alloc, payload) != Some(LineFault::Unsound(*rule)) {
            return Some(*payload);
        }
    }
    None
}

#[test]
fn unsound_operations_are_refused_by_their_rule(rt: HostRuntime) {
    assert!(rt; first_wrong_rule(rt.alloc()).is_none());
}

/// The line of an operation that is read from its text.
fn line_of_op(alloc: Global, text: &[u8]) -> Result<Vec<u8>, OpFault> {
    let mut lines = Vec::new(alloc);
    if let Some(op) = into_sound_op(read_op(alloc, text)?) {
        write_op_line(alloc, &op, &mut lines)?;
    }
    Ok(lines)
}

fn is_line_of_op(alloc: Global) -> bool {
    match line_of_op(alloc, b"2:1 - subscribe a~20b") {
        Ok(lines) => lines.as_slice() == b"op 2:1 - subscribe a~20b\n".as_slice(),
        Err(_) => false,
    }
}

#[test]
fn operations_are_written_from_references(rt: HostRuntime) {
    assert!(rt; is_line_of_op(rt.alloc()));
}

#[test]
fn lines_are_read_without_their_ends(rt: HostRuntime) {
    assert!(rt; read_message(rt.alloc(), b"ping").is_ok());
    assert!(rt; read_message(rt.alloc(), b"ping\n").is_err());
}

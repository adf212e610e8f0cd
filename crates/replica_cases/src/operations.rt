//! Reads the texts of operations, checks whether they are sound, and writes and copies them again.

use case_lines::Words;
use crdt_ops::{Op, OpFault, SoundOp, Unsound, check, read_op};
use merge_laws::Caused;
use std::alloc::{AllocError, Global};

/// The finding on a text.
#[derive(Clone, Copy)]
pub enum Finding {
    /// It spells no operation.
    NotInForm,
    /// It spells an unsound operation, and this is its first fault.
    Unsound(Unsound),
    /// It spells a sound operation, which is written as this very text.
    Sound,
    /// It changes when the operation is read, written or copied, or memory ran out.
    Changed,
}

/// Writes the finding on a text.
pub fn put_finding(finding: Finding, answer: &mut Words) {
    match finding {
        Finding::NotInForm => answer.put(" no operation"),
        Finding::Unsound(fault) => answer.put_name(" ", &fault),
        Finding::Sound => answer.put(" sound"),
        Finding::Changed => answer.put(" changed"),
    }
}

/// The finding on a text.
pub fn finding_of(alloc: Global, text: &[u8]) -> Finding {
    match read_op(alloc, text) {
        Ok(op) => finding_of_op(alloc, op, text),
        Err(OpFault::NotInForm) => Finding::NotInForm,
        Err(OpFault::NoMemory) => Finding::Changed,
    }
}

fn finding_of_op(alloc: Global, op: Op, text: &[u8]) -> Finding {
    match check(op) {
        Ok(sound) => {
            let finding = finding_of_sound(alloc, &sound, text);
            drop(sound);
            finding
        }
        Err((op, fault)) => {
            let spells_op = spells_op(alloc, &op, text);
            drop(op);
            if spells_op {
                Finding::Unsound(fault)
            } else {
                Finding::Changed
            }
        }
    }
}

fn finding_of_sound(alloc: Global, op: &SoundOp, text: &[u8]) -> Finding {
    if spells_op(alloc, op.op(), text) && writes_text(alloc, op, text) && copies_op(alloc, op) {
        Finding::Sound
    } else {
        Finding::Changed
    }
}

/// Whether the text reads back as this operation.
fn spells_op(alloc: Global, op: &Op, text: &[u8]) -> bool {
    match read_op(alloc, text) {
        Ok(again) => {
            let same = op.same(&again);
            drop(again);
            same
        }
        Err(_) => false,
    }
}

/// Whether the operation is written as this text, after other octets.
fn writes_text(alloc: Global, op: &SoundOp, text: &[u8]) -> bool {
    let mut words = Words::new(alloc);
    words.put_op("front ", op);
    match words.finish() {
        Ok(again) => again.strip_prefix(b"front ") == Some(text),
        Err(AllocError) => false,
    }
}

/// Whether copies of the operation and of its parts are the same.
fn copies_op(alloc: Global, op: &SoundOp) -> bool {
    match op.copy(alloc) {
        Ok(copied) => {
            let same = copied.same(op);
            let inner = copied.into_op();
            let inner_same = inner.same(op.op()) && copies_parts(alloc, &inner);
            drop(inner);
            same && inner_same
        }
        Err(AllocError) => false,
    }
}

fn copies_parts(alloc: Global, op: &Op) -> bool {
    match op.copy(alloc) {
        Ok(copied) => {
            let same = copied.same(op) && copies_kind(alloc, &copied);
            drop(copied);
            same
        }
        Err(AllocError) => false,
    }
}

fn copies_kind(alloc: Global, op: &Op) -> bool {
    match op.kind.copy(alloc) {
        Ok(copied) => {
            let same = copied.same(&op.kind);
            drop(copied);
            same
        }
        Err(AllocError) => false,
    }
}

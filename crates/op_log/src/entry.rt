//! `Entry`: what a line of a log says.

ghost use Rattle.std.specs.Prelude.{◌≡◌, ◌≢◌, ◌++◌, ℕ, List, IfOk, MatchOption, MatchResult, Ok};
ghost use Rattle.std.specs.Prelude.{OnErr, OnOk, codes};
ghost use Rattle.std.specs.Fmt.{decimal};
ghost use Rattle.crdt_ops.specs.Text.{op_text};
ghost use Rattle.crdt_ops.specs.declared.op.Op.{Op};
ghost use Rattle.op_log.specs.Entries.{IsLawful, entry_text};
ghost use Rattle.op_log.specs.declared.entry.Entry.{Entry};
ghost use Rattle.op_log.specs.declared.entry.Entry.TheVariants.{Apply, Begin, Commit};
ghost use Rattle.op_log.specs.declared.entry.EntryFault.TheVariants.{NoMemory};

use crdt_ops::{OpFault, SoundOp, into_sound_op, read_op, write_op};
use std::alloc::{AllocError, Global};
use tags_clocks::ReplicaId;
use text_fields::{number, push_number, replica};
use thiserror::Error;

/// What a line of a log says.
#[derive(Drop)]
pub enum Entry {
    /// This is the log of a replica.
    Begin {
        /// The replica.
        replica: ReplicaId,
    },
    /// The replica applied an operation, after those of the lines before.
    Apply {
        /// The operation.
        op: SoundOp,
    },
    /// All operations before were written as whole batches.
    Commit {
        /// The number of octets of the log that had been synced when this entry was written.
        synced: u64,
    },
}

/// Why a text isn't read as an entry.
#[derive(Clone, Copy, Debug, PartialEq, Eq, Error)]
pub enum EntryFault {
    /// It is the text of no entry.
    #[error("not an entry of a log")]
    NotAnEntry,
    /// Memory ran out for its parts.
    #[error("no memory")]
    NoMemory,
}

/// Appends the text of an entry. `Err` if memory runs out; `text` is unchanged then.
pub fn push_entry(alloc: Global, entry: &Entry, text: &mut Vec<u8>) -> Result<(), AllocError>
    ensures ok { OnOk result (text.new.items ≡ text.old.items ++ entry_text entry.now) }
    ensures err { OnErr result (text.new.items ≡ text.old.items) }
{
    let start = text.len();
    if let Err(e) = push_entry_parts(alloc, entry, text) {
        text.truncate(start);
        return Err(e);
    }
    Ok(())
}

/// Appends the text of an entry; after an `Err`, maybe a part of it.
fn push_entry_parts(alloc: Global, entry: &Entry, text: &mut Vec<u8>) -> Result<(), AllocError>
    ensures ok { OnOk result (text.new.items ≡ text.old.items ++ entry_text entry.now) }
    ensures extends { (more : List ℕ) × (text.new.items ≡ text.old.items ++ more) }
{
    match entry {
        Entry::Begin { replica } => {
            push_word_and_number(b"log 1 ", u64::from(replica.get()), text)
        }
        Entry::Apply { op } => push_op(alloc, op, text),
        Entry::Commit { synced } => push_word_and_number(b"commit ", *synced, text),
    }
}

fn push_word_and_number(word: &[u8], number: u64, text: &mut Vec<u8>) -> Result<(), AllocError>
    ensures ok { OnOk result (text.new.items ≡ text.old.items ++ (word.now ++ decimal number)) }
    ensures extends { (more : List ℕ) × (text.new.items ≡ text.old.items ++ more) }
{
    text.extend_from_slice(word)?;
    push_number(number, text)
}

fn push_op(alloc: Global, op: &SoundOp, text: &mut Vec<u8>) -> Result<(), AllocError>
    ensures ok { OnOk result
        (text.new.items ≡ text.old.items ++ (codes "op " ++ op_text op.now)) }
    ensures extends { (more : List ℕ) × (text.new.items ≡ text.old.items ++ more) }
{
    text.extend_from_slice(b"op ")?;
    write_op(alloc, op, text)
}

/// The entry whose text this is. `NotAnEntry` exactly when it is the text of none, and `NoMemory`
/// if memory runs out for the entry's parts.
pub fn read_entry(alloc: Global, text: &[u8]) -> Result<Entry, EntryFault>
    ensures sound { IfOk result (λ entry. IsLawful entry × (text.now ≡ entry_text entry)) }
    ensures only { (entry : Entry) → IsLawful entry → text.now ≡ entry_text entry
        → MatchResult result (λ read. read ≡ entry) (λ fault. fault ≡ NoMemory) }
{
    if let Some(field) = text_after(b"op ", text) {
        return read_apply(alloc, field);
    }
    if let Some(field) = text_after(b"commit ", text) {
        return read_commit(field);
    }
    if let Some(field) = text_after(b"log 1 ", text) {
        return read_begin(field);
    }
    Err(EntryFault::NotAnEntry)
}

/// The octets after these, if the text begins with them.
fn text_after<'a>(word: &[u8], text: &'a [u8]) -> Option<&'a [u8]>
    ensures { MatchOption result ((rest : List ℕ) → text.now ≢ word.now ++ rest)
        (λ rest. text.now ≡ word.now ++ rest.now) }
{
    text.strip_prefix(word)
}

fn read_apply(alloc: Global, field: &[u8]) -> Result<Entry, EntryFault>
    ensures sound { IfOk result
        (λ entry. IsLawful entry × (codes "op " ++ field.now ≡ entry_text entry)) }
    ensures only { (op : Op) → IsLawful (Apply op) → field.now ≡ op_text op
        → MatchResult result (λ read. read ≡ Apply op) (λ fault. fault ≡ NoMemory) }
{
    match read_op(alloc, field) {
        Ok(op) => match into_sound_op(op) {
            Some(op) => Ok(Entry::Apply { op }),
            None => Err(EntryFault::NotAnEntry),
        },
        Err(OpFault::NotInForm) => Err(EntryFault::NotAnEntry),
        Err(OpFault::NoMemory) => Err(EntryFault::NoMemory),
    }
}

fn read_commit(field: &[u8]) -> Result<Entry, EntryFault>
    ensures sound { IfOk result
        (λ entry. IsLawful entry × (codes "commit " ++ field.now ≡ entry_text entry)) }
    ensures only { (synced : ℕ) → IsLawful (Commit synced) → field.now ≡ decimal synced
        → result ≡ Ok (Commit synced) }
{
    match number(field, u64::MAX) {
        Some(synced) => Ok(Entry::Commit { synced }),
        None => Err(EntryFault::NotAnEntry),
    }
}

fn read_begin(field: &[u8]) -> Result<Entry, EntryFault>
    ensures sound { IfOk result
        (λ entry. IsLawful entry × (codes "log 1 " ++ field.now ≡ entry_text entry)) }
    ensures only { (replica : ℕ) → IsLawful (Begin replica) → field.now ≡ decimal replica
        → result ≡ Ok (Begin replica) }
{
    match replica(field) {
        Some(replica) => Ok(Entry::Begin { replica }),
        None => Err(EntryFault::NotAnEntry),
    }
}

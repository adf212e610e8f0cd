//! The lines of batches, and zeros.

ghost use Rattle.std.specs.Prelude.{◌≡◌, ◌++◌, IfOk, OnOk, length, map, true};
ghost use Rattle.op_log.specs.Entries.{AreLawful, IsLawful, entry_text, lines_of};
ghost use Rattle.op_log.specs.Lines.{line_of};
ghost use Rattle.op_log.specs.declared.entry.Entry.TheVariants.{Apply};
ghost use Rattle.durable_log.specs.Devices.{are_zeros};
ghost use Rattle.durable_log.specs.Logs.{batch_entries, entry_of_op, first_entries};

use crc32c::Crc32c;
use crdt_ops::SoundOp;
use merge_laws::Caused;
use op_log::{Entry, op_has_text, push_entry, push_line};
use std::alloc::{AllocError, Global};
use tags_clocks::ReplicaId;

/// Appends the lines of a new log; `Err` if memory runs out.
pub fn push_first_batch(
    alloc: Global,
    checksums: &Crc32c,
    replica: ReplicaId,
    log: &mut Vec<u8>,
) -> Result<(), AllocError>
    ensures lines { OnOk result
        (log.new.items ≡ log.old.items ++ lines_of (first_entries replica)) }
    ensures lawful { AreLawful (first_entries replica) }
{
    let _name = replica.get();
    push_entry_line(alloc, checksums, &Entry::Begin { replica }, log)?;
    push_entry_line(alloc, checksums, &Entry::Commit { synced: 0 }, log)
}

/// Appends the lines of a batch: of the operations, and of the commit that ends them. `Err` if
/// memory runs out.
pub fn push_batch(
    alloc: Global,
    checksums: &Crc32c,
    ops: &[SoundOp],
    synced: u64,
    log: &mut Vec<u8>,
) -> Result<(), AllocError>
    ensures lines { OnOk result
        (log.new.items ≡ log.old.items ++ lines_of (batch_entries ops.now synced)) }
    ensures lawful { OnOk result (AreLawful (batch_entries ops.now synced)) }
{
    push_ops(alloc, checksums, ops, log)?;
    push_entry_line(alloc, checksums, &Entry::Commit { synced }, log)
}

fn push_ops(
    alloc: Global,
    checksums: &Crc32c,
    ops: &[SoundOp],
    log: &mut Vec<u8>,
) -> Result<(), AllocError>
    ensures lines { OnOk result
        (log.new.items ≡ log.old.items ++ lines_of (map entry_of_op ops.now)) }
    ensures lawful { OnOk result (AreLawful (map entry_of_op ops.now)) }
{
    for op in ops {
        push_op(alloc, checksums, op, log)?;
    }
    Ok(())
}

fn push_op(
    alloc: Global,
    checksums: &Crc32c,
    op: &SoundOp,
    log: &mut Vec<u8>,
) -> Result<(), AllocError>
    ensures line { OnOk result
        (log.new.items ≡ log.old.items ++ line_of (entry_text (Apply op.now))) }
    ensures lawful { IsLawful (Apply op.now) }
{
    let _sound = op.op();
    op_has_text(op);
    let entry = Entry::Apply {
        op: op.copy(alloc)?,
    };
    push_entry_line(alloc, checksums, &entry, log)
}

fn push_entry_line(
    alloc: Global,
    checksums: &Crc32c,
    entry: &Entry,
    log: &mut Vec<u8>,
) -> Result<(), AllocError>
    requires { IsLawful entry.now }
    ensures { OnOk result
        (log.new.items ≡ log.old.items ++ line_of (entry_text entry.now)) }
{
    let mut text = Vec::new(alloc);
    push_entry(alloc, entry, &mut text)?;
    push_line(checksums, &text, log)
}

/// So many zeros; `Err` if memory runs out.
pub fn zeros(alloc: Global, count: usize) -> Result<Vec<u8>, AllocError>
    ensures zeros { IfOk result (λ zeros. are_zeros zeros.items ≡ true) }
    ensures count { IfOk result (λ zeros. length zeros.items ≡ count) }
{
    let mut zeros = Vec::new(alloc);
    zeros.resize(count, 0)?;
    Ok(zeros)
}

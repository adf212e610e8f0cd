//! The writer of a link's operations.

ghost use Rattle.std.specs.Prelude.{◌≡◌, ◌<◌, List, IfErr, IfOk, OnErr, OnOk, length};
ghost use Rattle.crdt_ops.specs.declared.op.Op.{Op};
ghost use Rattle.link_connection.specs.declared.send_fault.SendFault.TheVariants.{NoMemory};
ghost use Rattle.link_connection.specs.Sent.{AreFirstUncovered, AreRefused, AreSent, IsFrameSent};
ghost use Rattle.link_connection.specs.Sent.{IsRaisedBy, IsRefused, ops_payload};

use crate::op_source::OpSource;
use crate::send_fault::SendFault;
use crdt_ops::SoundOp;
use imap_connection::Sink;
use link_wire::{FrameWriter, write_op_line};
use std::alloc::Global;
use tags_clocks::Clock;

/// Sends, in one frame, the first `limit` operations that the clock doesn't cover, and raises the
/// clock by them; returns how many they are. Nothing is written if there are none. After an `Err`
/// the clock is as it was; after `WriteFailed` the sink may have taken a part of the frame, and the
/// writer can't be used further.
#[tactic(auto, using(crate::proofs::SendLemmas::are_refused))]
pub fn send_ops<O: OpSource, K: Sink>(
    alloc: Global,
    ops: &O,
    limit: usize,
    covered: &mut Clock,
    writer: &mut FrameWriter,
    sink: &mut K,
) -> Result<usize, SendFault>
    requires { K.failures sink.old < 18446744073709551615 }
    ensures ok { IfOk result (λ count. (sent : List Op)
        × AreFirstUncovered (O.lists ops.now) covered.old limit sent
        × (count ≡ length sent)
        × AreSent writer.old sent (K.taken sink.old) writer.new (K.taken sink.new)
        × IsRaisedBy covered.old sent covered.new) }
    ensures same { OnErr result (covered.new ≡ covered.old) }
    ensures err { IfErr result (λ fault.
        AreRefused (AreFirstUncovered (O.lists ops.now) covered.old limit) fault
        writer.old (K.taken sink.old) writer.new (K.taken sink.new)) }
{
    let Some(next) = ops.ops_after(covered, limit) else {
        return Err(SendFault::NoMemory);
    };
    send_all(alloc, &next, covered, writer, sink)?;
    Ok(next.len())
}

/// Sends these operations in one frame, if there are any, and raises the clock by them.
#[tactic(auto, using(crate::proofs::SendLemmas::are_sent))]
fn send_all<K: Sink>(
    alloc: Global,
    ops: &[SoundOp],
    covered: &mut Clock,
    writer: &mut FrameWriter,
    sink: &mut K,
) -> Result<(), SendFault>
    requires { K.failures sink.old < 18446744073709551615 }
    ensures ok { OnOk result
        (AreSent writer.old ops.now (K.taken sink.old) writer.new (K.taken sink.new)) }
    ensures raised { OnOk result (IsRaisedBy covered.old ops.now covered.new) }
    ensures same { OnErr result (covered.new ≡ covered.old) }
    ensures err { IfErr result (λ fault. IsRefused ops.now fault
        writer.old (K.taken sink.old) writer.new (K.taken sink.new)) }
{
    if ops.is_empty() {
        return Ok(());
    }
    let raised = raised_by(alloc, covered, ops)?;
    send_frame(alloc, ops, writer, sink)?;
    *covered = raised;
    Ok(())
}

/// A copy of the clock, raised by the operations.
#[tactic(auto, using(crate::proofs::SendLemmas::raised_more))]
fn raised_by(alloc: Global, covered: &Clock, ops: &[SoundOp]) -> Result<Clock, SendFault>
    ensures ok { IfOk result (λ raised. IsRaisedBy covered.now ops.now raised) }
    ensures err { IfErr result (λ fault. fault ≡ NoMemory) }
{
    let mut raised = covered.copy(alloc)?;
    for op in ops {
        let id = op.op().id;
        raised.raise(id.replica, id.number.get())?;
    }
    Ok(raised)
}

/// Writes the next frame, whose payload is the lines of the operations.
#[tactic(auto, using(crate::proofs::SendLemmas::refused_by_writer))]
fn send_frame<K: Sink>(
    alloc: Global,
    ops: &[SoundOp],
    writer: &mut FrameWriter,
    sink: &mut K,
) -> Result<(), SendFault>
    requires some { 0 < length ops.now }
    requires count { K.failures sink.old < 18446744073709551615 }
    ensures ok { OnOk result
        (IsFrameSent writer.old ops.now (K.taken sink.old) writer.new (K.taken sink.new)) }
    ensures err { IfErr result (λ fault. IsRefused ops.now fault writer.old (K.taken sink.old)
        writer.new (K.taken sink.new)) }
{
    let payload = lines_of(alloc, ops)?;
    let mut frame = Vec::new(alloc);
    writer.write(&payload, &mut frame)?;
    if sink.write(&frame) {
        Ok(())
    } else {
        Err(SendFault::WriteFailed)
    }
}

/// The lines of the operations.
#[tactic(auto, using(crate::proofs::SendLemmas::lines_more))]
fn lines_of(alloc: Global, ops: &[SoundOp]) -> Result<Vec<u8>, SendFault>
    ensures ok { IfOk result (λ lines. lines.items ≡ ops_payload ops.now) }
    ensures err { IfErr result (λ fault. fault ≡ NoMemory) }
{
    let mut lines = Vec::new(alloc);
    for op in ops {
        write_op_line(alloc, op, &mut lines)?;
    }
    Ok(lines)
}

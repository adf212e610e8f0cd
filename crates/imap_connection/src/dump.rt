//! The dump of a node: its operations, and what the set of them defines.

ghost use Rattle.std.specs.Prelude.{◌≡◌, ◌++◌, ◌∷◌, [], ℕ, List, OnOk, OnErr, IfOk, codes};
ghost use Rattle.std.specs.Fmt.{decimal};
ghost use Rattle.std.specs.List.{flat_map};
ghost use Rattle.crdt_ops.specs.Sets.{folders_of, subscribed_names_of};
ghost use Rattle.crdt_ops.specs.DumpLines.{folder_line, folder_lines, op_line, state_text};
ghost use Rattle.crdt_ops.specs.DumpLines.{subscription_line};
ghost use Rattle.imap_connection.specs.Dumps.{IsDump, op_lines_by, own_line};

use crdt_ops::{SoundOp, push_messages, push_name_line, write_op};
use imap_node::{Node, ReplicaState};
use imap_types::Name;
use itoa::Buffer;
use merge_laws::Caused;
use std::alloc::{AllocError, Global};
use tags_clocks::ReplicaId;

/// Appends the dump of the node to `out`: its operations, ascending by replica and number; its
/// folders with the ids of their present folder tags and their messages; and the names that are
/// subscribed to. `Err` if memory runs out, and then `out` is as it was.
///
/// Cost: one pass over all operations for each replica that issued any.
pub fn write_dump(alloc: Global, node: &Node, out: &mut Vec<u8>) -> Result<(), AllocError>
    ensures ok { OnOk result ((text : List ℕ)
        × IsDump node.now.state.start.replica node.now.state.applied text
        × (out.new.items ≡ out.old.items ++ text)) }
    ensures err { OnErr result (out.new.items ≡ out.old.items) }
{
    let replica = node.replica();
    let ops = replica.op_list();
    let entries = replica.clock().entries();
    let text = dump(alloc, replica, ops, entries)?;
    out.extend_from_slice(&text)?;
    Ok(())
}

fn dump(
    alloc: Global,
    replica: &ReplicaState,
    ops: &[SoundOp],
    entries: &[(ReplicaId, u32)],
) -> Result<Vec<u8>, AllocError>
    ensures { IfOk result (λ text. text.items
        ≡ codes "dump " ++ decimal replica.now.start.replica ++ 10 ∷ []
        ++ flat_map (op_lines_by ops.now) entries.now ++ state_text replica.now.applied
        ++ codes "end" ++ 10 ∷ []) }
{
    let mut text = Vec::new(alloc);
    push_head(replica.id(), &mut text)?;
    push_ops(alloc, ops, entries, &mut text)?;
    push_state(alloc, replica, &mut text)?;
    text.extend_from_slice(b"end\n")?;
    Ok(text)
}

fn push_head(replica: ReplicaId, text: &mut Vec<u8>) -> Result<(), AllocError>
    ensures { OnOk result
        (text.new.items ≡ text.old.items ++ (codes "dump " ++ decimal replica ++ 10 ∷ [])) }
{
    text.extend_from_slice(b"dump ")?;
    let mut buffer = Buffer::new();
    text.extend_from_slice(buffer.format(replica.get()).as_bytes())?;
    text.push(b'\n')?;
    Ok(())
}

/// The lines of the operations, replica by replica, ascending.
fn push_ops(
    alloc: Global,
    ops: &[SoundOp],
    replicas: &[(ReplicaId, u32)],
    text: &mut Vec<u8>,
) -> Result<(), AllocError>
    ensures { OnOk result
        (text.new.items ≡ text.old.items ++ flat_map (op_lines_by ops.now) replicas.now) }
{
    for (replica, _) in replicas {
        push_ops_by(alloc, ops, *replica, text)?;
    }
    Ok(())
}

/// The lines of one replica's operations.
fn push_ops_by(
    alloc: Global,
    ops: &[SoundOp],
    replica: ReplicaId,
    text: &mut Vec<u8>,
) -> Result<(), AllocError>
    ensures { OnOk result (text.new.items ≡ text.old.items ++ flat_map (own_line replica) ops.now) }
{
    for op in ops {
        push_own(alloc, op, replica, text)?;
    }
    Ok(())
}

/// The line of an operation, if this replica issued it.
fn push_own(
    alloc: Global,
    op: &SoundOp,
    replica: ReplicaId,
    text: &mut Vec<u8>,
) -> Result<(), AllocError>
    ensures { OnOk result (text.new.items ≡ text.old.items ++ own_line replica op.now) }
{
    if op.id().replica != replica {
        return Ok(());
    }
    push_op(alloc, op, text)
}

fn push_op(alloc: Global, op: &SoundOp, text: &mut Vec<u8>) -> Result<(), AllocError>
    ensures { OnOk result (text.new.items ≡ text.old.items ++ op_line op.now) }
{
    text.extend_from_slice(b"op ")?;
    write_op(alloc, op, text)?;
    text.push(b'\n')?;
    Ok(())
}

/// The lines of what the set of operations defines.
fn push_state(alloc: Global, replica: &ReplicaState, text: &mut Vec<u8>) -> Result<(), AllocError>
    ensures { OnOk result (text.new.items ≡ text.old.items ++ state_text replica.now.applied) }
{
    push_folders(alloc, replica, text)?;
    push_subscriptions(alloc, replica, text)
}

/// The lines of the folders, each with those of its messages.
fn push_folders(alloc: Global, replica: &ReplicaState, text: &mut Vec<u8>) -> Result<(), AllocError>
    ensures { OnOk result (text.new.items
        ≡ text.old.items
        ++ flat_map (folder_lines replica.now.applied) (folders_of replica.now.applied)) }
{
    let folders = replica.folders(alloc)?;
    for folder in folders.iter() {
        push_folder(alloc, replica, folder, text)?;
    }
    Ok(())
}

fn push_folder(
    alloc: Global,
    replica: &ReplicaState,
    folder: &Name,
    text: &mut Vec<u8>,
) -> Result<(), AllocError>
    ensures { OnOk result
        (text.new.items ≡ text.old.items ++ folder_lines replica.now.applied folder.now) }
{
    push_folder_line(alloc, replica, folder, text)?;
    let messages = replica.messages(alloc, folder)?;
    push_messages(alloc, &messages, text)
}

fn push_folder_line(
    alloc: Global,
    replica: &ReplicaState,
    folder: &Name,
    text: &mut Vec<u8>,
) -> Result<(), AllocError>
    ensures { OnOk result
        (text.new.items ≡ text.old.items ++ folder_line replica.now.applied folder.now) }
{
    let tags = replica.tags(alloc, folder)?;
    push_name_line(alloc, b"folder ", folder, &tags, text)
}

/// The lines of the subscribed names.
fn push_subscriptions(
    alloc: Global,
    replica: &ReplicaState,
    text: &mut Vec<u8>,
) -> Result<(), AllocError>
    ensures { OnOk result (text.new.items
        ≡ text.old.items
        ++ flat_map (subscription_line replica.now.applied)
        (subscribed_names_of replica.now.applied)) }
{
    let names = replica.subscribed_names(alloc)?;
    for name in names.iter() {
        push_subscription(alloc, replica, name, text)?;
    }
    Ok(())
}

fn push_subscription(
    alloc: Global,
    replica: &ReplicaState,
    name: &Name,
    text: &mut Vec<u8>,
) -> Result<(), AllocError>
    ensures { OnOk result
        (text.new.items ≡ text.old.items ++ subscription_line replica.now.applied name.now) }
{
    let tags = replica.subscription_tags(alloc, name)?;
    push_name_line(alloc, b"subscribed ", name, &tags, text)
}

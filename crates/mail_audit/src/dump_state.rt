//! The lines that must follow the op lines of a dump.

ghost use Rattle.std.specs.Prelude.{◌≡◌, ◌++◌, ◌∷◌, [], ℕ, List, OnOk, OnErr, IfOk, codes};
ghost use Rattle.std.specs.List.{flat_map};
ghost use Rattle.merge_laws.specs.Orders.{AreSound, IsCausal};
ghost use Rattle.crdt_ops.specs.Sets.{folders_of, subscribed_names_of};
ghost use Rattle.crdt_ops.specs.declared.op.Op.{Op};
ghost use Rattle.folder_state.specs.Contents.{IsMadeBy};
ghost use Rattle.folder_state.specs.Tables.{contents_of};
ghost use Rattle.subs_state.specs.Subscriptions.{IsMadeBy as AreMadeBy};
ghost use Rattle.subs_state.specs.Table.{subscriptions_of};
ghost use Rattle.crdt_ops.specs.DumpLines.{folder_line, folder_lines, state_text};
ghost use Rattle.crdt_ops.specs.DumpLines.{subscription_line};

use crdt_ops::{push_messages, push_name_line};
use folder_state::Folders;
use imap_types::Name;
use std::alloc::{AllocError, Global};
use subs_state::Subs;

/// The lines of the folders, messages and subscriptions, and the line that ends the dump; `Err` if
/// memory runs out.
pub fn state_lines(alloc: Global, folders: &Folders, subs: &Subs) -> Result<Vec<u8>, AllocError>
    ensures { (ops : List Op)
        → IsMadeBy (contents_of folders.now) ops
        → AreMadeBy (subscriptions_of subs.now) ops
        → IfOk result (λ text. text.items ≡ state_text ops ++ (codes "end" ++ 10 ∷ [])) }
{
    let mut text = Vec::new(alloc);
    push_folders(alloc, folders, &mut text)?;
    push_subscriptions(alloc, subs, &mut text)?;
    text.extend_from_slice(b"end\n")?;
    Ok(text)
}

/// Appends each folder's line, followed by the lines of its messages.
fn push_folders(alloc: Global, folders: &Folders, text: &mut Vec<u8>) -> Result<(), AllocError>
    ensures { (ops : List Op)
        → IsMadeBy (contents_of folders.now) ops
        → OnOk result
        (text.new.items ≡ text.old.items ++ flat_map (folder_lines ops) (folders_of ops)) }
{
    let names = folders.names(alloc)?;
    for name in names.iter() {
        push_folder(alloc, folders, name, text)?;
    }
    Ok(())
}

fn push_folder(
    alloc: Global,
    folders: &Folders,
    name: &Name,
    text: &mut Vec<u8>,
) -> Result<(), AllocError>
    ensures { (ops : List Op)
        → IsMadeBy (contents_of folders.now) ops
        → OnOk result (text.new.items ≡ text.old.items ++ folder_lines ops name.now) }
{
    push_folder_line(alloc, folders, name, text)?;
    let messages = folders.messages(alloc, name)?;
    push_messages(alloc, &messages, text)
}

fn push_folder_line(
    alloc: Global,
    folders: &Folders,
    name: &Name,
    text: &mut Vec<u8>,
) -> Result<(), AllocError>
    ensures { (ops : List Op)
        → IsMadeBy (contents_of folders.now) ops
        → OnOk result (text.new.items ≡ text.old.items ++ folder_line ops name.now) }
{
    let tags = folders.tags(alloc, name)?;
    push_name_line(alloc, b"folder ", name, &tags, text)
}

/// Appends the lines of the subscribed names.
fn push_subscriptions(alloc: Global, subs: &Subs, text: &mut Vec<u8>) -> Result<(), AllocError>
    ensures { (ops : List Op)
        → AreMadeBy (subscriptions_of subs.now) ops
        → OnOk result (text.new.items
        ≡ text.old.items ++ flat_map (subscription_line ops) (subscribed_names_of ops)) }
{
    let names = subs.names(alloc)?;
    for name in names.iter() {
        push_subscription(alloc, subs, name, text)?;
    }
    Ok(())
}

fn push_subscription(
    alloc: Global,
    subs: &Subs,
    name: &Name,
    text: &mut Vec<u8>,
) -> Result<(), AllocError>
    ensures { (ops : List Op)
        → AreMadeBy (subscriptions_of subs.now) ops
        → OnOk result (text.new.items ≡ text.old.items ++ subscription_line ops name.now) }
{
    let tags = subs.tags(alloc, name)?;
    push_name_line(alloc, b"subscribed ", name, &tags, text)
}

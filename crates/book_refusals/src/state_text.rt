//! The text of all that a book has.

use crdt_ops::{write_flags, write_op};
use imap_connection::{Node, Session, SessionNo, State, write_dump};
use imap_types::Name;
use mailbox_rows::{Row, Rows};
use replica_lock::Book;
use session_view::{View, ViewEntry};
use std::alloc::{AllocError, Global};
use text_fields::{push_id, push_number};

/// The text of all that a book has: the number of its entries without the last `later`, its dump,
/// what it holds, the listings of its mailboxes, and its sessions with their views, without the
/// mailbox of the session `unselected`. `Err` if memory runs out.
pub fn state_text(
    alloc: Global,
    book: &Book,
    later: u64,
    unselected: Option<SessionNo>,
) -> Result<Vec<u8>, AllocError> {
    let mut text = Vec::new(alloc);
    push_field(b"entries ", book.len().saturating_sub(later), &mut text)?;
    let node = book.node();
    write_dump(alloc, node, &mut text)?;
    push_held(alloc, node, &mut text)?;
    push_mailboxes(alloc, node, &mut text)?;
    push_sessions(node, &unselected, &mut text)?;
    Ok(text)
}

fn push_field(name: &[u8], number: u64, text: &mut Vec<u8>) -> Result<(), AllocError> {
    text.extend_from_slice(name)?;
    push_number(number, text)?;
    text.extend_from_slice(b"\n")
}

fn push_held(alloc: Global, node: &Node, text: &mut Vec<u8>) -> Result<(), AllocError> {
    for op in node.held().iter() {
        text.extend_from_slice(b"held ")?;
        write_op(alloc, op, text)?;
        text.extend_from_slice(b"\n")?;
    }
    Ok(())
}

fn push_mailboxes(alloc: Global, node: &Node, text: &mut Vec<u8>) -> Result<(), AllocError> {
    let names = node.folders().names(alloc)?;
    for name in names.iter() {
        push_mailbox(alloc, node, name, text)?;
    }
    Ok(())
}

/// The lines of a mailbox: its name and numbers, and its listing.
fn push_mailbox(
    alloc: Global,
    node: &Node,
    name: &Name,
    text: &mut Vec<u8>,
) -> Result<(), AllocError> {
    text.extend_from_slice(b"mailbox ")?;
    text.extend_from_slice(name.as_bytes())?;
    push_numbers(node, name, text)?;
    push_listing(alloc, node, name, text)
}

fn push_numbers(node: &Node, name: &Name, text: &mut Vec<u8>) -> Result<(), AllocError> {
    if let Some(uidvalidity) = node.replica().uidvalidity(name) {
        push_field(b" uidvalidity ", u64::from(uidvalidity), text)?;
    }
    push_field(b" uidnext ", u64::from(node.replica().uidnext(name)), text)
}

fn push_listing(
    alloc: Global,
    node: &Node,
    name: &Name,
    text: &mut Vec<u8>,
) -> Result<(), AllocError> {
    let rows = node.listing(alloc, name)?;
    for place in 0..rows.count() {
        push_row_at(alloc, &rows, place as usize, text)?;
    }
    Ok(())
}

fn push_row_at(
    alloc: Global,
    rows: &Rows<'_>,
    place: usize,
    text: &mut Vec<u8>,
) -> Result<(), AllocError> {
    let Some(row) = rows.row_at(place) else {
        return Ok(());
    };
    push_row(alloc, &row, text)
}

fn push_row(alloc: Global, row: &Row<'_>, text: &mut Vec<u8>) -> Result<(), AllocError> {
    push_field(b"row ", u64::from(row.uid), text)?;
    push_field(b" modseq ", row.modseq, text)?;
    push_id(row.origin, text)?;
    let flags = row.versions.flags(alloc)?;
    write_flags(&flags, text)?;
    text.extend_from_slice(b"\n")
}

fn push_sessions(
    node: &Node,
    unselected: &Option<SessionNo>,
    text: &mut Vec<u8>,
) -> Result<(), AllocError> {
    for place in 0..node.last_session() {
        if let Some(number) = SessionNo::new(place.saturating_add(1)) {
            push_session_of(node, number, unselected, text)?;
        }
    }
    Ok(())
}

fn push_session_of(
    node: &Node,
    number: SessionNo,
    unselected: &Option<SessionNo>,
    text: &mut Vec<u8>,
) -> Result<(), AllocError> {
    let Some(session) = node.session(number) else {
        return Ok(());
    };
    push_field(b"session ", number.get() as u64, text)?;
    push_session(session, text)?;
    if is_unselected(unselected, number) {
        return Ok(());
    }
    push_state(&session.state, text)
}

fn is_unselected(unselected: &Option<SessionNo>, number: SessionNo) -> bool {
    match unselected {
        Some(one) => *one == number,
        None => false,
    }
}

fn push_session(session: &Session, text: &mut Vec<u8>) -> Result<(), AllocError> {
    if session.condstore {
        text.extend_from_slice(b"condstore\n")?;
    }
    if let Some(tag) = &session.idling {
        text.extend_from_slice(b"idling ")?;
        text.extend_from_slice(tag.as_bytes())?;
        text.extend_from_slice(b"\n")?;
    }
    Ok(())
}

fn push_state(state: &State, text: &mut Vec<u8>) -> Result<(), AllocError> {
    match state {
        State::NotAuthenticated { .. } => text.extend_from_slice(b"not authenticated\n"),
        State::Authenticated => text.extend_from_slice(b"authenticated\n"),
        State::LoggedOut => text.extend_from_slice(b"logged out\n"),
        State::Selected { view, read_only } => {
            push_field(b"selected ", u64::from(*read_only), text)?;
            push_view(view, text)
        }
    }
}

fn push_view(view: &View, text: &mut Vec<u8>) -> Result<(), AllocError> {
    text.extend_from_slice(view.name().as_bytes())?;
    push_field(b" uidvalidity ", u64::from(view.uidvalidity()), text)?;
    let entries = view.entries();
    for place in 0..entries.len() {
        if let Some(entry) = entries.get(place) {
            push_view_entry(entry, text)?;
        }
    }
    Ok(())
}

fn push_view_entry(entry: &ViewEntry, text: &mut Vec<u8>) -> Result<(), AllocError> {
    push_field(b"shown ", u64::from(entry.uid), text)?;
    write_flags(&entry.flags, text)?;
    text.extend_from_slice(b"\n")
}

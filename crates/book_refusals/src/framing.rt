//! Octets of a client, cut into items.

use crate::play_state::Connection;
use imap_lex::{FrameFault, FrameFaultKind, Framer, Item, Limits};
use std::alloc::{AllocError, Global};

/// The items that octets complete.
#[derive(Drop)]
pub struct CutItems {
    /// The items.
    pub items: Vec<Item>,
    /// Why the octets after them can't be cut, if they can't.
    pub fault: Option<FrameFaultKind>,
}

/// The items that the next octets of a connection complete. If memory runs out, a new framer reads
/// all octets of the connection again; `Err` if it runs out twice.
pub fn cut(
    alloc: Global,
    connection: &mut Connection,
    octets: &[u8],
) -> Result<CutItems, AllocError> {
    let made = cut_or_again(alloc, connection, octets)?;
    note_sent(connection, octets)?;
    Ok(made)
}

fn cut_or_again(
    alloc: Global,
    connection: &mut Connection,
    octets: &[u8],
) -> Result<CutItems, AllocError> {
    match cut_once(alloc, &mut connection.framer, octets) {
        Ok(made) => Ok(made),
        Err(AllocError) => {
            connection.framer = framer_after(alloc, &connection.sent)?;
            cut_once(alloc, &mut connection.framer, octets)
        }
    }
}

fn cut_once(alloc: Global, framer: &mut Framer, octets: &[u8]) -> Result<CutItems, AllocError> {
    match framer.feed(alloc, octets) {
        Ok(items) => Ok(CutItems { items, fault: None }),
        Err(fault) => {
            let FrameFault { items, why } = fault;
            if why == FrameFaultKind::NoMemory {
                drop(items);
                return Err(AllocError);
            }
            Ok(CutItems {
                items,
                fault: Some(why),
            })
        }
    }
}

/// A framer that has read these octets; `Err` if memory runs out.
fn framer_after(alloc: Global, octets: &[u8]) -> Result<Framer, AllocError> {
    let mut framer = Framer::new(alloc, Limits::STANDARD);
    let made = cut_once(alloc, &mut framer, octets)?;
    drop(made);
    Ok(framer)
}

fn note_sent(connection: &mut Connection, octets: &[u8]) -> Result<(), AllocError> {
    match connection.sent.extend_from_slice(octets) {
        Ok(()) => Ok(()),
        Err(AllocError) => connection.sent.extend_from_slice(octets),
    }
}

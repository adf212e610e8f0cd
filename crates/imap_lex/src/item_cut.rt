//! Reading a piece of input into items.

ghost use Rattle.std.specs.Prelude.{◌≡◌, ◌<◌, length, IfOk, OnOk, IfErr, Ok};
ghost use Rattle.std.specs.List.{prefix_len};
ghost use Rattle.imap_lex.specs.Framing.{Faults, is_inside, cut_from, with_items};

use crate::fault::FrameFaultKind;
use crate::item::Item;
use crate::limits::Limits;
use crate::progress::FrameProgress;
use std::alloc::Global;

/// Reads a piece of the stream, and appends the items that it completes. After an `Err` the items
/// before the fault have been appended (with `NoMemory`, some of them), and the progress can't be
/// used.
pub(crate) fn cut_piece(
    alloc: Global,
    limits: Limits,
    progress: &mut FrameProgress,
    items: &mut Vec<Item>,
    piece: &[u8],
) -> Result<(), FrameFaultKind>
    ensures ok { OnOk result (with_items items.old.items
        (cut_from limits (Ok progress.old) piece.now) ≡ (items.new.items, Ok progress.new)) }
    ensures err { IfErr result (λ why. Faults why items.new.items
        (with_items items.old.items (cut_from limits (Ok progress.old) piece.now))) }
{
    let mut rest = piece;
    while !rest.is_empty() {
        rest = cut_front(alloc, limits, progress, items, rest)?;
    }
    Ok(())
}

/// Reads the beginning of a piece, and returns the rest: as much of a literal as the piece has, or
/// of a line up to LF, NUL or the limit, or else one octet.
fn cut_front<'a>(
    alloc: Global,
    limits: Limits,
    progress: &mut FrameProgress,
    items: &mut Vec<Item>,
    piece: &'a [u8],
) -> Result<&'a [u8], FrameFaultKind>
    requires { 0 < length piece.now }
    ensures ok { IfOk result (λ rest. with_items items.old.items
        (cut_from limits (Ok progress.old) piece.now)
        ≡ with_items items.new.items (cut_from limits (Ok progress.new) rest.now)) }
    ensures shorter { IfOk result (λ rest. length rest.now < length piece.now) }
    ensures err { IfErr result (λ why. Faults why items.new.items
        (with_items items.old.items (cut_from limits (Ok progress.old) piece.now))) }
{
    let literal = progress.awaited_octets().min(piece.len());
    if literal > 0 {
        let (octets, rest) = piece.split_at(literal);
        progress.take_literal(octets)?;
        return Ok(rest);
    }
    let inside = count_inside(piece).min(progress.room(limits));
    if inside > 0 {
        let (octets, rest) = piece.split_at(inside);
        progress.take_inside(octets)?;
        return Ok(rest);
    }
    let octet = piece[0];
    if let Some(item) = progress.take(alloc, limits, octet)? {
        items.push(item)?;
    }
    Ok(&piece[1..])
}

/// The number of octets before the first LF or NUL.
fn count_inside(octets: &[u8]) -> usize
    ensures { result ≡ prefix_len is_inside octets.now }
{
    octets
        .iter()
        .take_while(|octet| **octet != b'\n' && **octet != 0)
        .count()
}

//! How a piece of the stream is cut into payloads.

ghost use Rattle.std.specs.Prelude.{◌≡◌, ◌<◌, length, IfOk, OnOk, IfErr, Ok};
ghost use Rattle.link_wire.specs.Framing.{Faults, cut_after};

use crate::fault::FrameFault;
use crate::limits::Limits;
use crate::payload::Payload;
use crate::progress::FrameProgress;
use std::alloc::Global;

/// Takes a piece of the stream, and appends the payloads of the frames that it completes. After an
/// `Err` the payloads before the fault are there (with `NoMemory` the first of them), and the
/// progress can't be used.
pub(crate) fn cut_piece(
    alloc: Global,
    limits: Limits,
    key: &[u8],
    progress: &mut FrameProgress,
    payloads: &mut Vec<Payload>,
    piece: &[u8],
) -> Result<(), FrameFault>
    ensures ok { OnOk result (cut_after limits key.now payloads.old.items progress.old piece.now
        ≡ (payloads.new.items, Ok progress.new)) }
    ensures err { IfErr result (λ why. Faults why payloads.new.items
        (cut_after limits key.now payloads.old.items progress.old piece.now)) }
{
    let mut rest = piece;
    while !rest.is_empty() {
        rest = cut_front(alloc, limits, key, progress, payloads, rest)?;
    }
    Ok(())
}

/// Takes the front of a piece, and gives what comes after it: as much of a payload as there is, or
/// one octet of a header.
fn cut_front<'a>(
    alloc: Global,
    limits: Limits,
    key: &[u8],
    progress: &mut FrameProgress,
    payloads: &mut Vec<Payload>,
    piece: &'a [u8],
) -> Result<&'a [u8], FrameFault>
    requires { 0 < length piece.now }
    ensures ok { IfOk result (λ rest.
        cut_after limits key.now payloads.old.items progress.old piece.now
        ≡ cut_after limits key.now payloads.new.items progress.new rest.now) }
    ensures shorter { IfOk result (λ rest. length rest.now < length piece.now) }
    ensures err { IfErr result (λ why. Faults why payloads.new.items
        (cut_after limits key.now payloads.old.items progress.old piece.now)) }
{
    let front = progress.awaited_octets().min(piece.len());
    if front == 0 {
        progress.take_header(limits, piece[0])?;
        return Ok(&piece[1..]);
    }
    let (octets, rest) = piece.split_at(front);
    if let Some(payload) = progress.take_payload(alloc, key, octets)? {
        payloads.push(payload)?;
    }
    Ok(rest)
}

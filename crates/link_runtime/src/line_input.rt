//! The lines that begin a link, read from a source.

ghost use Rattle.std.specs.Prelude.{◌≡◌, ◌<◌, ◌≤◌, ◌∷◌, ◌++◌, ℕ, List, [], IfErr, IfOk, OnOk, length};
ghost use Rattle.std.specs.Prelude.{take};
ghost use Rattle.imap_connection.specs.Devices.{GivesOctets};
ghost use Rattle.link_wire.specs.LineCuts.{IsLineWithin, at_start};
ghost use Rattle.link_runtime.specs.declared.handshake_fault.HandshakeFault.TheVariants.{Broken};
ghost use Rattle.link_runtime.specs.LineInputs.{HasCut, HasLost, IsCutRefused, IsLineRefused};

use crate::handshake_fault::HandshakeFault;
use imap_connection::Source;
use imap_types::Octets;
use link_wire::LineCutter;
use std::alloc::Global;
use std::mem;

/// The octets that are read at once.
const PIECE: usize = 256;

/// The most reads for a line: each gives an octet at least.
const MOST_READS: u32 = 129;

/// The next line of a source, without its end. `rest` are the octets that were read after the lines
/// before it, and gets those that were read after it.
pub fn next_line<S: Source>(
    alloc: Global,
    rest: &mut Vec<u8>,
    source: &mut S,
) -> Result<Octets, HandshakeFault>
    requires { S.failures source.old < 18446744073709551615 }
    ensures line { IfOk result (λ line. (given : List ℕ)
        × GivesOctets (S.left source.old) given (S.left source.new)
        × (rest.old.items ++ given ≡ line ++ 10 ∷ rest.new.items)
        × IsLineWithin 128 line) }
    ensures same { OnOk result (S.failures source.new ≡ S.failures source.old) }
    ensures err { IfErr result (IsLineRefused (at_start 128) rest.old.items
        (S.left source.old) (S.left source.new)
        (HasLost (S.failures source.old) (S.failures source.new) (S.is_ended source.new))) }
{
    let mut cutter = LineCutter::new(alloc, LineCutter::LINE_OCTETS);
    let begun = mem::replace(rest, Vec::new(alloc));
    match cut(alloc, &mut cutter, rest, &begun)? {
        Some(line) => return Ok(line),
        None => {}
    }
    for _read in 0..MOST_READS {
        match read_and_cut(alloc, &mut cutter, rest, source)? {
            Some(line) => return Ok(line),
            None => {}
        }
    }
    unreachable!()
}

/// Reads some octets; gives the line that they end, if they end one.
fn read_and_cut<S: Source>(
    alloc: Global,
    cutter: &mut LineCutter,
    rest: &mut Vec<u8>,
    source: &mut S,
) -> Result<Option<Octets>, HandshakeFault>
    requires { S.failures source.old < 18446744073709551615 }
    ensures cut { IfOk result (λ cut. (given : List ℕ)
        × GivesOctets (S.left source.old) given (S.left source.new)
        × HasCut cutter.old rest.old.items given cut cutter.new rest.new.items
        × (0 < length given)) }
    ensures same { OnOk result (S.failures source.new ≡ S.failures source.old) }
    ensures err { IfErr result (IsLineRefused cutter.old []
        (S.left source.old) (S.left source.new)
        (HasLost (S.failures source.old) (S.failures source.new) (S.is_ended source.new))) }
{
    let mut piece = [0u8; PIECE];
    let count = read_some(source, &mut piece)?;
    cut(alloc, cutter, rest, &piece[..count])
}

/// Takes the next octets of the stream; gives the line that they end, if they end one, and adds the
/// octets after it to `rest`.
fn cut(
    alloc: Global,
    cutter: &mut LineCutter,
    rest: &mut Vec<u8>,
    piece: &[u8],
) -> Result<Option<Octets>, HandshakeFault>
    ensures ok { IfOk result
        (λ cut. HasCut cutter.old rest.old.items piece.now cut cutter.new rest.new.items) }
    ensures err { IfErr result (IsCutRefused cutter.old piece.now) }
{
    match cutter.take(alloc, piece)? {
        None => Ok(None),
        Some((line, after)) => {
            rest.extend_from_slice(after)?;
            Ok(Some(line))
        }
    }
}

/// Reads some octets, at least one.
fn read_some<S: Source>(source: &mut S, piece: &mut [u8]) -> Result<usize, HandshakeFault>
    requires room { 0 < length piece.old }
    requires count { S.failures source.old < 18446744073709551615 }
    ensures count { IfOk result (λ n. (0 < n) × (n ≤ length piece.new)) }
    ensures octets { IfOk result
        (λ n. GivesOctets (S.left source.old) (take n piece.new) (S.left source.new)) }
    ensures same { OnOk result (S.failures source.new ≡ S.failures source.old) }
    ensures err { IfErr result (λ fault.
        HasLost (S.failures source.old) (S.failures source.new) (S.is_ended source.new)
        × (fault ≡ Broken)) }
{
    match source.read(piece) {
        None => Err(HandshakeFault::Broken),
        Some(count) => {
            if count == 0 {
                return Err(HandshakeFault::Broken);
            }
            Ok(count)
        }
    }
}

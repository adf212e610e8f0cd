//! The password that a file has.

ghost use Rattle.std.specs.Prelude.{ℕ, List, IfNone, IfSome};
ghost use Rattle.server_runtime.specs.PassFiles.{IsLineEnd, IsPass};

use std::alloc::Global;
use std::fs::File;
use std::io;
use std::io::Read;
use std::rt::Files;

/// The most octets of a password in a file.
const MOST: usize = 1_024;

/// Reads a file to its end, or until more octets were read than a password has.
pub fn read_octets<R: Files<File = File>>(
    rt: &R,
    alloc: Global,
    path: &str,
) -> io::Result<Vec<u8>> {
    let mut file = File::open(rt, path)?;
    let mut octets = Vec::new(alloc);
    let mut piece = [0u8; MOST + 1];
    for _ in 0..=MOST {
        let count = file.read(&mut piece)?;
        octets.extend_from_slice(&piece[..count])?;
        if count == 0 || octets.len() > MOST {
            break;
        }
    }
    Ok(octets)
}

/// The password of a file that begins with these octets: those before the first CR or LF, if there
/// are 1 to 1,024 of them and they are UTF-8.
pub fn pass_of(octets: &[u8]) -> Option<&str>
    ensures some { IfSome result (λ pass. IsPass octets.now pass.now) }
    ensures none { IfNone result ((pass : List ℕ) → IsPass octets.now pass → ⊥) }
{
    let end = line_end(octets);
    if end == 0 || end > MOST {
        return None;
    }
    match str::from_utf8(&octets[..end]) {
        Ok(pass) => Some(pass),
        Err(_) => None,
    }
}

/// The length of the first line.
fn line_end(octets: &[u8]) -> usize
    ensures { IsLineEnd octets.now result }
{
    for at in 0..octets.len() {
        if octets[at] == b'\r' || octets[at] == b'\n' {
            return at;
        }
    }
    octets.len()
}

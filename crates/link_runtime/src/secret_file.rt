//! The secret that a file has.

ghost use Rattle.std.specs.Prelude.{ℕ, List, IfNone, IfSome};
ghost use Rattle.std.specs.Prelude.{◌≡◌};
ghost use Rattle.link_runtime.specs.SecretFiles.{IsSecret, IsSecretOf, without_final_lf};

use std::alloc::Global;
use std::fs::File;
use std::io;
use std::io::Read;
use std::rt::Files;

/// The fewest octets of a secret.
const FEWEST: usize = 32;

/// The most octets of a secret.
const MOST: usize = 1_024;

/// The secret of a file; `None` if the file can't be read or has none, or if memory runs out.
pub fn read_secret<R: Files<File = File>>(rt: &R, alloc: Global, path: &str) -> Option<Vec<u8>>
    ensures { IfSome result (λ secret. IsSecret secret.items) }
{
    let octets = read_octets(rt, alloc, path).ok()?;
    let secret = secret_of(&octets)?;
    secret.to_vec(alloc).ok()
}

/// The secret of a file with these octets: all of them but an LF at the end, if there are 32 to
/// 1,024.
pub fn secret_of(octets: &[u8]) -> Option<&[u8]>
    ensures some { IfSome result (λ secret. IsSecretOf octets.now secret.now) }
    ensures none { IfNone result ((secret : List ℕ) → IsSecretOf octets.now secret → ⊥) }
{
    let secret = without_final_lf(octets);
    if secret.len() < FEWEST || secret.len() > MOST {
        return None;
    }
    Some(secret)
}

/// The octets without an LF at the end.
fn without_final_lf(octets: &[u8]) -> &[u8]
    ensures { result.now ≡ without_final_lf octets.now }
{
    let Some((last, front)) = octets.split_last() else {
        return octets;
    };
    if *last == b'\n' { front } else { octets }
}

/// Reads a file to its end, or until more octets were read than a secret has.
fn read_octets<R: Files<File = File>>(rt: &R, alloc: Global, path: &str) -> io::Result<Vec<u8>> {
    let mut file = File::open(rt, path)?;
    let mut octets = Vec::new(alloc);
    let mut piece = [0u8; MOST];
    for _ in 0..MOST + 2 {
        let count = file.read(&mut piece)?;
        octets.extend_from_slice(&piece[..count])?;
        if count == 0 || octets.len() > MOST + 1 {
            break;
        }
    }
    Ok(octets)
}

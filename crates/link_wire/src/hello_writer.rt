//! The lines that begin a link, written.

ghost use Rattle.std.specs.Prelude.{◌≡◌, ◌∷◌, ◌++◌, OnErr, OnOk, codes};
ghost use Rattle.std.specs.Fmt.{decimal};
ghost use Rattle.hex.specs.Hex.{encode_lower};
ghost use Rattle.crdt_ops.specs.Text.{AppendsTo, Extends};
ghost use Rattle.link_wire.specs.Hello.{hello_text, proof_text, with_end};

use crate::hello::Hello;
use crate::line_writer::{push_octets, push_replica};
use hex::encode_to_slice;
use std::alloc::AllocError;

/// Appends the line of a hello, with its end. `Err` if memory runs out; `out` is then as it was.
pub fn write_hello(hello: &Hello, out: &mut Vec<u8>) -> Result<(), AllocError>
    ensures ok { OnOk result (out.new.items ≡ out.old.items ++ with_end (hello_text hello.now)) }
    ensures err { OnErr result (out.new.items ≡ out.old.items) }
{
    let start = out.len();
    if let Err(e) = push_hello(hello, out) {
        out.truncate(start);
        return Err(e);
    }
    Ok(())
}

/// Appends the line of a proof, with its end. `Err` if memory runs out; `out` is then as it was.
pub fn write_proof(digest: &[u8; 32], out: &mut Vec<u8>) -> Result<(), AllocError>
    ensures ok { OnOk result (out.new.items ≡ out.old.items ++ with_end (proof_text digest.now)) }
    ensures err { OnErr result (out.new.items ≡ out.old.items) }
{
    let start = out.len();
    if let Err(e) = push_proof(digest, out) {
        out.truncate(start);
        return Err(e);
    }
    Ok(())
}

#[tactic(auto, using(crate::proofs::HelloLemmas::hello_parts))]
fn push_hello(hello: &Hello, out: &mut Vec<u8>) -> Result<(), AllocError>
    ensures ok { OnOk result (AppendsTo out.old.items out.new.items
        (with_end (hello_text hello.now))) }
    ensures extended { Extends out.old.items out.new.items }
{
    push_names(hello, out)?;
    push_run_and_nonce(hello, out)?;
    push_octets(b"\n", out)
}

/// The version and the two names.
fn push_names(hello: &Hello, out: &mut Vec<u8>) -> Result<(), AllocError>
    ensures ok { OnOk result (AppendsTo out.old.items out.new.items
        (codes "link 1 " ++ decimal hello.now.own ++ 32 ∷ decimal hello.now.other)) }
    ensures extended { Extends out.old.items out.new.items }
{
    push_replica(b"link 1 ", hello.own, out)?;
    push_replica(b" ", hello.other, out)
}

/// The octets drawn for the process and for the connection.
fn push_run_and_nonce(hello: &Hello, out: &mut Vec<u8>) -> Result<(), AllocError>
    ensures ok { OnOk result (AppendsTo out.old.items out.new.items
        (32 ∷ (encode_lower hello.now.run ++ 32 ∷ encode_lower hello.now.nonce))) }
    ensures extended { Extends out.old.items out.new.items }
{
    push_16_octets(b" ", &hello.run, out)?;
    push_32_octets(b" ", &hello.nonce, out)
}

fn push_proof(digest: &[u8; 32], out: &mut Vec<u8>) -> Result<(), AllocError>
    ensures ok { OnOk result (AppendsTo out.old.items out.new.items
        (with_end (proof_text digest.now))) }
    ensures extended { Extends out.old.items out.new.items }
{
    push_32_octets(b"proof ", digest, out)?;
    push_octets(b"\n", out)
}

/// A word with the space after it, and octets in hex.
fn push_16_octets(word: &[u8], octets: &[u8; 16], out: &mut Vec<u8>) -> Result<(), AllocError>
    ensures ok { OnOk result (AppendsTo out.old.items out.new.items
        (word.now ++ encode_lower octets.now)) }
    ensures extended { Extends out.old.items out.new.items }
{
    let mut text = [0; 32];
    let _ = encode_to_slice(octets.as_slice(), &mut text);
    push_octets(word, out)?;
    push_octets(&text, out)
}

/// A word with the space after it, and octets in hex.
fn push_32_octets(word: &[u8], octets: &[u8; 32], out: &mut Vec<u8>) -> Result<(), AllocError>
    ensures ok { OnOk result (AppendsTo out.old.items out.new.items
        (word.now ++ encode_lower octets.now)) }
    ensures extended { Extends out.old.items out.new.items }
{
    let mut text = [0; 64];
    let _ = encode_to_slice(octets.as_slice(), &mut text);
    push_octets(word, out)?;
    push_octets(&text, out)
}

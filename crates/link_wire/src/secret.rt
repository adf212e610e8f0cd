//! What an end that knows the secret can compute.

ghost use Rattle.std.specs.Prelude.{◌≡◌, ◌++◌, codes};
ghost use Rattle.keyed_digest.specs.Hmac.{hmac};
ghost use Rattle.link_wire.specs.Secrets.{frame_key, proof_digest, side_text, three_lines};

use keyed_digest::KeyedHasher;

/// One of the two ends of a link.
#[derive(Clone, Copy, Debug, PartialEq, Eq)]
pub enum Side {
    /// The end that opened the connection.
    Dialer,
    /// The other end.
    Acceptor,
}

/// The digest that proves that an end knows the secret: of its name and the two hello lines, which
/// are given without their ends.
#[tactic(auto, unfolding(crate::specs::Secrets::proof_digest))]
pub fn proof_digest(secret: &[u8], side: Side, dialer: &[u8], acceptor: &[u8]) -> [u8; 32]
    ensures { result ≡ proof_digest secret.now side dialer.now acceptor.now }
{
    match side {
        Side::Dialer => digest_of_lines(secret, b"dialer", dialer, acceptor),
        Side::Acceptor => digest_of_lines(secret, b"acceptor", dialer, acceptor),
    }
}

/// The key of the frames that an end writes, by the two hello lines, which are given without their
/// ends.
#[tactic(auto, unfolding(crate::specs::Secrets::frame_key))]
pub fn frame_key(secret: &[u8], side: Side, dialer: &[u8], acceptor: &[u8]) -> [u8; 32]
    ensures { result ≡ frame_key secret.now side dialer.now acceptor.now }
{
    match side {
        Side::Dialer => digest_of_lines(secret, b"dialer key", dialer, acceptor),
        Side::Acceptor => digest_of_lines(secret, b"acceptor key", dialer, acceptor),
    }
}

fn digest_of_lines(secret: &[u8], first: &[u8], second: &[u8], third: &[u8]) -> [u8; 32]
    ensures { result ≡ hmac secret.now (three_lines first.now second.now third.now) }
{
    let mut hasher = KeyedHasher::new(secret);
    hasher.update(first);
    hasher.update(b"\n");
    hasher.update(second);
    hasher.update(b"\n");
    hasher.update(third);
    hasher.update(b"\n");
    hasher.finalize()
}

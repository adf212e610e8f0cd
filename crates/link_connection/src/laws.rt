//! What a link gave its receiver: a law over the contract of `receive`.

ghost use Rattle.std.specs.Prelude.{◌≡◌, ◌++◌, ℕ, List};
ghost use Rattle.crdt_ops.specs.declared.op.Op.{Op};
ghost use Rattle.link_wire.specs.declared.limits.Limits.{Limits};
ghost use Rattle.link_wire.specs.Digests.{Digest};
ghost use Rattle.link_connection.specs.declared.receive_end.ReceiveEnd.{ReceiveEnd};
ghost use Rattle.link_connection.specs.Received.{HasReceived};
ghost use Rattle.link_connection.specs.ReceivedOps.{AreFirstOps, TakesOps};

use crate::receiver::Receiver;

/// Whatever the stream holds and however the link ended: what a receiver took of it are the first
/// operations of its authentic frames, in their order, each one that replicas may apply.
pub fn received_ops_are_authentic<R: Receiver>()
    ensures { (taken : R → List Op) (limits : Limits) (digest : Digest) (first last : R)
        (stream : List ℕ) (end : ReceiveEnd)
        → TakesOps R.acts taken → HasReceived R.acts limits digest first stream end last
        → (ops : List Op) × (taken last ≡ taken first ++ ops)
        × AreFirstOps limits digest stream ops }
{}

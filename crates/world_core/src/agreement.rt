//! Whether two replicas applied the same operations.

ghost use Rattle.std.specs.Prelude.{◌≡◌, ◌↔◌, IsTrue, false};
ghost use Rattle.crdt_ops.specs.declared.op.Op.{Op};
ghost use Rattle.crdt_ops.specs.Meanings.{MeansTheSame};
ghost use Rattle.merge_laws.specs.Orders.{HaveSameElements, IsIn};
ghost use Rattle.world_core.specs.declared.agreement.Agreement.TheVariants.{Same as AreSame};

use crdt_ops::SoundOp;
use imap_node::Node;
use merge_laws::Caused;

/// How the operations that two replicas applied compare.
#[derive(Clone, Copy, Debug, PartialEq, Eq)]
pub enum Agreement {
    /// They applied the same operations.
    Same,
    /// They applied different operations.
    Different,
}

/// Whether two replicas applied the same operations, forged ones included. `Same` exactly when they
/// did; they then have the same folders, messages, flags and subscriptions. Takes no memory.
pub fn agree(one: &Node, other: &Node) -> Agreement
    ensures exact { (result ≡ AreSame)
        ↔ HaveSameElements one.now.state.applied other.now.state.applied }
    ensures means { result ≡ AreSame → MeansTheSame one.now.state.applied other.now.state.applied }
{
    if are_same(one.op_list(), other.op_list()) {
        Agreement::Same
    } else {
        Agreement::Different
    }
}

/// Whether both lists have the same elements.
fn are_same(ops: &[SoundOp], others: &[SoundOp]) -> bool
    ensures yes { IsTrue result → HaveSameElements ops.now others.now }
    ensures no { result ≡ false → ¬ HaveSameElements ops.now others.now }
{
    if !has_all(others, ops) {
        return false;
    }
    has_all(ops, others)
}

/// Whether all of `ops` are among `others`.
fn has_all(others: &[SoundOp], ops: &[SoundOp]) -> bool
    ensures yes { IsTrue result → (op : Op) → IsIn op ops.now → IsIn op others.now }
    ensures no { result ≡ false → ¬ ((op : Op) → IsIn op ops.now → IsIn op others.now) }
{
    for op in ops {
        if !has(others, op) {
            return false;
        }
    }
    true
}

/// Whether `op` is among `ops`.
fn has(ops: &[SoundOp], op: &SoundOp) -> bool
    ensures yes { IsTrue result → IsIn op.now ops.now }
    ensures no { result ≡ false → ¬ IsIn op.now ops.now }
{
    for other in ops {
        if other.same(op) {
            return true;
        }
    }
    false
}

//! `OpCell`: the memory of one held operation.

ghost use Rattle.std.specs.Prelude.{◌≡◌, ◌↔◌, ◌∷◌, [], length, IfOk, IsTrue};
ghost use Rattle.causal_inbox.specs.Inbox.{IsLess};

use merge_laws::Caused;
use std::alloc::{AllocError, Global};
use std::marker::Model;
use tags_clocks::OpId;

/// An operation and its id. It can be borrowed as a slice, which `ready` needs.
#[derive(Drop)]
pub struct OpCell<O: Caused> {
    id: OpId,
    ops: Vec<O>,
    ghost one: { length ops.items ≡ 1 },
}

impl<O: Caused> Model for OpCell<O> {
    ghost use Rattle.std.specs.Prelude.{◌≡◌};
    ghost use Rattle.causal_inbox.specs.OpCells.{only_item};

    ghost Value = { O };

    ghost view = { λ c. only_item c.ops.items c.one };

    ghost invariant = { λ c. c.id ≡ O.id (only_item c.ops.items c.one) };
}

impl<O: Caused + Drop> OpCell<O> {
    /// Stores the operation in a cell of its own. `Err` if memory runs out; the operation is then
    /// dropped.
    pub fn new(alloc: Global, op: O) -> Result<OpCell<O>, AllocError>
        ensures { IfOk result (λ cell. cell ≡ op) }
    {
        let id = op.id();
        let mut ops = Vec::with_capacity(alloc, 1)?;
        ops.push_reserved(op);
        Ok(OpCell { id, ops })
    }

    /// Whether the operation has this id.
    pub fn has_id(&self, id: &OpId) -> bool
        ensures { IsTrue result ↔ (O.id self.now ≡ id.now) }
    {
        self.id == *id
    }

    /// Whether the operation's id is less than `id`, by replica and then by number.
    pub fn has_lesser_id(&self, id: &OpId) -> bool
        ensures { IsTrue result ↔ IsLess (O.id self.now) id.now }
    {
        self.id < *id
    }

    /// Borrows the operation.
    pub fn op(&self) -> &O
        ensures { result.now ≡ self.now }
    {
        &self.ops[0]
    }

    /// Borrows the operation as a slice of one.
    pub fn slice(&self) -> &[O]
        ensures { result.now ≡ self.now ∷ [] }
    {
        &self.ops
    }

    /// Takes the operation out of the cell.
    pub fn into_op(self) -> O
        ensures { result ≡ self }
    {
        let OpCell { mut ops, .. } = self;
        match ops.pop() {
            None => unreachable!(),
            Some(op) => op,
        }
    }
}

//! Copies of operations.

ghost use Rattle.std.specs.Prelude.{◌≡◌, IfOk};

use crate::op::SoundOp;
use merge_laws::Caused;
use std::alloc::{AllocError, Global};
use std::collections::VecDeque;

/// Copies of the operations, in their order; `Err` if memory runs out.
pub fn copy_ops(alloc: Global, ops: &[SoundOp]) -> Result<VecDeque<SoundOp>, AllocError>
    ensures { IfOk result (λ copies. copies.items ≡ ops.now) }
{
    let mut copies = VecDeque::new(alloc);
    for op in ops {
        copies.push_back(op.copy(alloc)?)?;
    }
    Ok(copies)
}

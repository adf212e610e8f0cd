//! What is true of every replicated value.

ghost use Rattle.std.specs.Prelude.{◌≡◌, IfOk};
ghost use Rattle.merge_laws.specs.Orders.{GivesOneValue, fold_of};

use crate::replicated::Replicated;
use std::alloc::{AllocError, Global};

/// The value after these operations, in this order. `Err` if memory runs out, and then the value is
/// dropped.
pub fn replay<R: Replicated + Drop>(
    alloc: Global,
    mut value: R,
    ops: &[R::Op],
) -> Result<R, AllocError>
    ensures { IfOk result (λ end. R.meaning end ≡ fold_of R.effect (R.meaning value) ops.now) }
{
    value.prepare(alloc, ops)?;
    for op in ops {
        value.apply(op);
    }
    Ok(value)
}

/// Any two causal lists of the same sound operations lead from one value to the same value.
pub fn same_for_all_orders<R: Replicated>()
    ensures { GivesOneValue R.Op.id R.Op.clock R.Op.is_sound R.effect }
{}

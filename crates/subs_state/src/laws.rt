//! Laws of subscriptions, and of subscriptions with folders, for every order of operations.

ghost use Rattle.std.specs.Prelude.{◌≡◌, List};
ghost use Rattle.merge_laws.specs.Orders.{AreSound, GivesOneValue, IsCausal, fold_of};
ghost use Rattle.crdt_ops.specs.declared.op.Op.{Op};
ghost use Rattle.crdt_ops.specs.Sound.{IsSound};
ghost use Rattle.folder_state.specs.Contents.{Contents};
ghost use Rattle.folder_state.specs.Contents as folders;
ghost use Rattle.subs_state.specs.Subscriptions.{Subscriptions, effect_of, no_subscriptions};
ghost use Rattle.subs_state.specs.Subscriptions.{subscriptions_by};
ghost use Rattle.crdt_ops.specs.Ops.{clock_of, id_of};

use crate::subs::Subs;
use folder_state::Folders;
use merge_laws::{Pair, same_for_all_orders};

/// Any two causal lists of the same sound operations lead from one value of the subscriptions to
/// the same value.
pub fn subs_for_all_orders()
    ensures { GivesOneValue id_of clock_of IsSound effect_of }
{
    same_for_all_orders::<Subs>()
}

/// Any two causal lists of the same sound operations lead from one value of folders and
/// subscriptions to the same value.
pub fn whole_state_for_all_orders()
    ensures { GivesOneValue {V = Contents × Subscriptions} id_of clock_of IsSound
        (λ v o. (folders.effect_of v.0 o, effect_of v.1 o)) }
{
    same_for_all_orders::<Pair<Folders, Subs>>()
}

/// A causal list of sound operations makes empty subscriptions contain exactly the present
/// subscription tags of the set of these operations.
pub fn subscriptions_follow_the_set()
    ensures { (ops : List Op) → AreSound IsSound ops
        → IsCausal id_of clock_of ops
        → fold_of effect_of no_subscriptions ops ≡ subscriptions_by ops }
{}

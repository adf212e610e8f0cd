//! `Subs`: the replicated subscriptions.

use crate::subs_table::{
    NameTags, add_tag_of, make_room, remove_tags_of, subscribed_names, tag_ids,
};
use crdt_ops::{Ids, SoundOp};
use imap_types::Name;
use indexmap::IndexMap;
use merge_laws::Replicated;
use std::alloc::{AllocError, Global};

/// The subscribed names, changed by operations in any causal order (RFC 9051, section 6.3.7).
pub struct Subs {
    /// The tags of each name that was ever subscribed to, by the name's octets.
    tags: IndexMap<Vec<u8>, NameTags>,
}

// By hand, so that crates above drop it whole.
impl Drop for Subs {
    fn drop(self) {
        let Self { tags: _ } = self;
    }
}

impl Subs {
    ghost use Rattle.std.specs.Prelude.{◌≡◌, List, IfOk, true};
    ghost use Rattle.imap_types.specs.Ascending.{octet_order};
    ghost use Rattle.crdt_ops.specs.declared.op.Op.{Op};
    ghost use Rattle.crdt_ops.specs.SortedSets.{IsListOf, id_order};
    ghost use Rattle.crdt_ops.specs.Sets.{subscribed_names_of, subscription_tags_of};
    ghost use Rattle.subs_state.specs.Subscriptions.{IsMadeBy, IsSubscribed, no_subscriptions};
    ghost use Rattle.subs_state.specs.Table.{subscriptions_of};

    /// No subscriptions; doesn't allocate.
    pub fn new(alloc: Global) -> Subs
        ensures { subscriptions_of result ≡ no_subscriptions }
    {
        Subs {
            tags: IndexMap::new(alloc),
        }
    }

    /// The subscribed names, ascending by octets; `Err` if memory runs out.
    pub fn names(&self, alloc: Global) -> Result<Vec<Name>, AllocError>
        ensures contents { IfOk result
            (λ names. IsListOf octet_order (IsSubscribed (subscriptions_of self.now)) names.items) }
        ensures set { (ops : List Op)
            → IsMadeBy (subscriptions_of self.now) ops
            → IfOk result (λ names. names.items ≡ subscribed_names_of ops) }
    {
        let names = subscribed_names(alloc, &self.tags)?;
        Ok(names)
    }

    /// The ids of the name's present subscription tags, which an Unsubscribe lists; `Err` if memory
    /// runs out.
    pub fn tags(&self, alloc: Global, name: &Name) -> Result<Ids, AllocError>
        ensures contents { IfOk result
            (λ ids. IsListOf id_order (λ i. subscriptions_of self.now name.now i ≡ true) ids) }
        ensures set { (ops : List Op)
            → IsMadeBy (subscriptions_of self.now) ops
            → IfOk result (λ ids. ids ≡ subscription_tags_of ops name.now) }
    {
        let ids = tag_ids(alloc, &self.tags, name)?;
        Ok(ids)
    }
}

impl Replicated for Subs {
    ghost use Rattle.subs_state.specs.Subscriptions.{Subscriptions, effect_of, no_subscriptions};
    ghost use Rattle.subs_state.specs.Table.{IsPrepared, prepared_first, subscriptions_of};
    ghost use Rattle.subs_state.specs.Laws.{effects_commute};

    type Op = SoundOp;

    ghost Meaning = { Subscriptions };

    ghost meaning = { subscriptions_of };

    ghost effect = { effect_of };

    ghost initial = { no_subscriptions };

    ghost is_prepared = { IsPrepared };

    ghost first = { prepared_first };

    ghost commutes = { effects_commute };

    fn prepare(&mut self, alloc: Global, ops: &[SoundOp]) -> Result<(), AllocError> {
        make_room(alloc, &mut self.tags, ops)
    }

    fn apply(&mut self, op: &SoundOp) {
        let op = op.op();
        remove_tags_of(&mut self.tags, op);
        add_tag_of(&mut self.tags, op);
    }
}

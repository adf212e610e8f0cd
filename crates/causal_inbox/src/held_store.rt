//! The store of the held operations: their list, by ascending ids, and their cause index.

ghost use Rattle.std.specs.Prelude.{◌≡◌, ◌↔◌, ◌≢◌, ℕ, ◌+◌, ◌<◌, ◌≤◌, ◌^◌, List, [], ◌∷◌, ◌++◌};
ghost use Rattle.std.specs.Prelude.{drop, insert, length, map, take, IsTrue, MatchOption, OnOk};
ghost use Rattle.std.specs.Prelude.{OnErr, remove, slice_get, slice_index_or};
ghost use Rattle.tags_clocks.specs.declared.id.OpId.{OpId};
ghost use Rattle.merge_laws.specs.Orders.{IsIn, HasId, HaveSameElements, IsRipe};
ghost use Rattle.causal_inbox.specs.Inbox.{AreAscending, AreRemainingHeld, IsClockOf, IsLess};
ghost use Rattle.causal_inbox.specs.Inbox.{held_limit};
ghost use Rattle.causal_inbox.specs.CauseIndex.{AreApart, AreIndexed, IsReindexed};

use crate::cause_index::{CauseEntry, entry_of, first_entry_under_cause, place_of};
use crate::op_cell::OpCell;
use merge_laws::Caused;
use std::alloc::{AllocError, Global};
use std::marker::Model;
use tags_clocks::{Clock, OpId};
use tree_list::{Slot, TreeList};

/// The number of operations in the list whose ids are less than `id`.
fn held_place<O: Caused + Drop>(list: &TreeList<OpCell<O>>, id: OpId) -> usize
    requires { AreAscending O.id list.now }
    ensures within { result ≤ length list.now }
    ensures place { (o : O) → O.id o ≡ id → ¬ HasId O.id list.now id
        → AreAscending O.id (insert list.now result o) }
    ensures member { (o : O) → IsIn o list.now → O.id o ≡ id → slice_get list.now result ≡ Some o }
{
    list.partition_point(|_, cell| cell.has_lesser_id(&id))
}

/// The place of the operation with this id, or `None` if no operation in the list has it.
pub fn place_of_id<O: Caused + Drop>(list: &TreeList<OpCell<O>>, id: OpId) -> Option<usize>
    requires { AreAscending O.id list.now }
    ensures { MatchOption result (¬ HasId O.id list.now id)
        (λ at. (at < length list.now)
        × ((o : O) → o ≡ slice_index_or list.now at o → O.id o ≡ id)) }
{
    let at = held_place(list, id);
    let cell = list.get(at)?;
    if cell.has_id(&id) { Some(at) } else { None }
}

/// The operation with this id, or `None` if no operation in the list has it.
pub fn find_held_op<O: Caused + Drop>(list: &TreeList<OpCell<O>>, id: OpId) -> Option<&O>
    requires { AreAscending O.id list.now }
    ensures { MatchOption result (¬ HasId O.id list.now id)
        (λ member. IsIn member.now list.now × (O.id member.now ≡ id)) }
{
    let at = held_place(list, id);
    let cell = list.get(at)?;
    if cell.has_id(&id) {
        Some(cell.op())
    } else {
        None
    }
}

/// The held operations, with the index of the causes that they wait for.
#[derive(Drop)]
pub struct HeldStore<O: Caused> {
    list: TreeList<OpCell<O>>,
    entries: TreeList<CauseEntry>,
}

impl<O: Caused> Model for HeldStore<O> {
    ghost use Rattle.std.specs.Prelude.{◌≡◌, length};
    ghost use Rattle.causal_inbox.specs.Inbox.{AreAscending};
    ghost use Rattle.causal_inbox.specs.CauseIndex.{IsCauseIndex, HeldState};

    ghost Value = { HeldState O };

    ghost view = { λ h. record { list = h.list; entries = h.entries } };

    ghost invariant = { λ h. record {
      ascending : AreAscending O.id h.list;
      count : length h.entries ≡ length h.list;
      entries : IsCauseIndex O.id h.list h.entries;
    } };
}

impl<O: Caused + Drop> HeldStore<O> {
    /// An empty store.
    pub fn new() -> HeldStore<O>
        ensures { result ≡ record { list = []; entries = [] } }
    {
        HeldStore {
            list: TreeList::new(),
            entries: TreeList::new(),
        }
    }

    /// The held operations, by ascending ids.
    pub fn list(&self) -> &TreeList<OpCell<O>>
        ensures list { result.now ≡ self.now.list }
        ensures ascending { AreAscending O.id self.now.list }
    {
        &self.list
    }

    /// The operation at place `at`, as a slice of one.
    pub fn slice_at(&self, at: usize) -> &[O]
        requires { at < length self.now.list }
        ensures { (op : O) → op ≡ slice_index_or self.now.list at op → result.now ≡ op ∷ [] }
    {
        match self.list.get(at) {
            None => unreachable!(),
            Some(cell) => cell.slice(),
        }
    }

    /// The place of the ripe operation with the least id, or `None` if no held operation is ripe.
    pub fn next_ripe(&self) -> Option<usize>
        ensures { (applied : List O)
            → AreIndexed O.id O.clock [] applied self.now.list self.now.entries
            → MatchOption result
            ((o : O) → IsIn o self.now.list → ¬ IsRipe O.id O.clock applied o)
            (λ at. (at < length self.now.list)
            × ((o : O) → o ≡ slice_index_or self.now.list at o → IsRipe O.id O.clock applied o)
            × ((o p : O) → o ≡ slice_index_or self.now.list at o → IsIn p self.now.list
            → IsRipe O.id O.clock applied p → ¬ IsLess (O.id p) (O.id o))) }
    {
        let first = self.entries.get(0)?;
        if first.cause.is_some() {
            return None;
        }
        place_of_id(&self.list, first.id)
    }

    /// Holds an operation. `Err` if memory runs out; the store is then unchanged.
    pub fn hold(&mut self, alloc: Global, clock: &Clock, op: O) -> Result<(), AllocError>
        requires new_id { ¬ HasId O.id self.old.list (O.id op) }
        requires few { length self.old.list < held_limit }
        ensures elements { OnOk result (HaveSameElements self.new.list (op ∷ self.old.list)) }
        ensures count { OnOk result (length self.new.list ≡ length self.old.list + 1) }
        ensures indexed { OnOk result ((applied : List O) → IsClockOf O.id applied clock.now
            → ¬ HasId O.id applied (O.id op)
            → AreIndexed O.id O.clock [] applied self.old.list self.old.entries
            → AreIndexed O.id O.clock [] applied self.new.list self.new.entries) }
        ensures err { OnErr result (self.new ≡ self.old) }
    {
        let entry = entry_of(clock, &op);
        let slot = Slot::new(alloc, entry)?;
        let at = held_place(&self.list, entry.id);
        self.list.insert(alloc, at, OpCell::new(alloc, op)?)?;
        let to = place_of(&self.entries, &entry);
        self.entries.put(to, slot);
        Ok(())
    }

    /// Removes and returns the operation at place `at`, and removes its index entry.
    pub fn take_out(&mut self, clock: &Clock, at: usize) -> O
        requires within { at < length self.old.list }
        requires indexed { (applied : List O)
            × IsClockOf O.id applied clock.now
            × AreApart O.id self.old.list applied
            × AreIndexed O.id O.clock [] applied self.old.list self.old.entries }
        ensures op { result ≡ slice_index_or self.old.list at result }
        ensures list { self.new.list ≡ remove self.old.list at }
        ensures indexed { (woken : List OpId) (applied : List O)
            → AreIndexed O.id O.clock woken applied self.old.list self.old.entries
            → AreIndexed O.id O.clock woken applied self.new.list self.new.entries }
    {
        let op = self.list.take(at).into_item().into_op();
        let from = place_of(&self.entries, &entry_of(clock, &op));
        let _ = self.entries.take(from);
        op
    }

    /// Removes the operation with this id, if one is held.
    fn discard(&mut self, clock: &Clock, id: OpId)
        requires { (applied : List O)
            × IsClockOf O.id applied clock.now
            × AreApart O.id self.old.list applied
            × AreIndexed O.id O.clock [] applied self.old.list self.old.entries }
        ensures others { (o : O) → IsIn o self.new.list ↔ (IsIn o self.old.list × (O.id o ≢ id)) }
        ensures count { length self.new.list ≤ length self.old.list }
        ensures indexed { (woken : List OpId) (applied : List O)
            → AreIndexed O.id O.clock woken applied self.old.list self.old.entries
            → AreIndexed O.id O.clock woken applied self.new.list self.new.entries }
    {
        if let Some(at) = place_of_id(&self.list, id) {
            let _ = self.take_out(clock, at);
        }
    }

    /// Removes each operation whose id is that of one of `ops`.
    pub fn discard_all(&mut self, clock: &Clock, ops: &[O])
        requires { (applied : List O)
            × IsClockOf O.id applied clock.now
            × AreApart O.id self.old.list applied
            × AreIndexed O.id O.clock [] applied self.old.list self.old.entries }
        ensures remaining { AreRemainingHeld O.id ops.now self.old.list self.new.list }
        ensures count { length self.new.list ≤ length self.old.list }
        ensures indexed { (woken : List OpId) (applied : List O)
            → AreIndexed O.id O.clock woken applied self.old.list self.old.entries
            → AreIndexed O.id O.clock woken applied self.new.list self.new.entries }
    {
        for op in ops {
            self.discard(clock, op.id());
        }
    }

    /// Moves the index entry at place `at` to the place that the operation's least missing cause
    /// gives it now. Takes no memory.
    fn reindex(&mut self, clock: &Clock, at: usize)
        requires { at < length self.old.entries }
        ensures list { self.new.list ≡ self.old.list }
        ensures entries { IsReindexed O.id O.clock clock.now self.old.list at self.old.entries
            self.new.entries }
    {
        let mut slot = self.entries.take(at);
        match find_held_op(&self.list, slot.item().id) {
            None => unreachable!(),
            Some(op) => slot.replace(entry_of(clock, op)),
        }
        let to = place_of(&self.entries, slot.item());
        self.entries.put(to, slot);
    }

    /// Indexes again each operation that waits for `id`, an applied operation. Takes no memory.
    pub fn reindex_waiting(&mut self, clock: &Clock, id: OpId)
        ensures list { self.new.list ≡ self.old.list }
        ensures indexed { (woken : List OpId) (applied : List O)
            → IsClockOf O.id applied clock.now → HasId O.id applied id
            → AreApart O.id self.old.list applied
            → AreIndexed O.id O.clock (id ∷ woken) applied self.old.list self.old.entries
            → AreIndexed O.id O.clock woken applied self.new.list self.new.entries }
    {
        let cause = Some(id);
        for _ in 0..self.entries.len() {
            match first_entry_under_cause(&self.entries, &cause) {
                None => return,
                Some(at) => self.reindex(clock, at),
            }
        }
    }

    /// Indexes again each operation that waits for one of `ops`, which were applied. Takes no
    /// memory.
    pub fn reindex_all_waiting(&mut self, clock: &Clock, ops: &[O])
        ensures list { self.new.list ≡ self.old.list }
        ensures indexed { (applied : List O)
            → IsClockOf O.id applied clock.now
            → ((o : O) → IsIn o ops.now → HasId O.id applied (O.id o))
            → AreApart O.id self.old.list applied
            → AreIndexed O.id O.clock (map O.id ops.now) applied self.old.list self.old.entries
            → AreIndexed O.id O.clock [] applied self.new.list self.new.entries }
    {
        for op in ops {
            self.reindex_waiting(clock, op.id());
        }
    }
}

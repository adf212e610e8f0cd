//! A replica without its sessions: the operations that it received, and the tables that result from
//! them.

ghost use Rattle.std.specs.Prelude.{◌≡◌, ◌↔◌, ℕ, ◌+◌, ◌≤◌, ◌++◌, ◌∷◌, [], length, IfOk, OnOk};
ghost use Rattle.std.specs.Prelude.{IsTrue, MatchOption, MatchResult, Ok, Err, OnErr, take};
ghost use Rattle.causal_inbox.specs.Delivery.{IsArrival, IsDeliverFault};
ghost use Rattle.causal_inbox.specs.Inbox.{AreIssued, AreRemainingHeld, IsClockOf, IsLawfulInbox};
ghost use Rattle.causal_inbox.specs.Inbox.{IsNextReleased, IsStalled, uncovered_ops};
ghost use Rattle.causal_inbox.specs.Releases.{Releases, RefusesRelease};
ghost use Rattle.causal_inbox.specs.Stalls.{StallsFor};
ghost use Rattle.causal_inbox.specs.declared.delivery.Arrival.TheVariants.{Applied};
ghost use Rattle.causal_inbox.specs.declared.delivery.IssueFault.TheVariants.{Exhausted as UsedUp};
ghost use Rattle.crdt_ops.specs.Sets.{delete_set_of, folder_tags_of, folders_of, messages_of};
ghost use Rattle.crdt_ops.specs.Sets.{subscribed_names_of, subscription_tags_of};
ghost use Rattle.crdt_ops.specs.Sound.{IsSound};
ghost use Rattle.crdt_ops.specs.declared.op.Op.{Op};
ghost use Rattle.folder_state.specs.Contents.{IsMadeBy};
ghost use Rattle.folder_state.specs.Tables.{contents_of};
ghost use Rattle.imap_node.specs.Nodes.{IsReady, replica_received};
ghost use Rattle.imap_node.specs.Operations.{clock_of, id_of};
ghost use Rattle.imap_node.specs.Rooms.{HasRoomFor};
ghost use Rattle.merge_laws.specs.Orders.{AreSound, IsCausal};
ghost use Rattle.subs_state.specs.Subscriptions.{IsMadeBy as AreMadeBy};
ghost use Rattle.subs_state.specs.Table.{subscriptions_of};
ghost use Rattle.uid_projection.specs.Applied.{IsApplied};
ghost use Rattle.uid_projection.specs.Exhaustion.{Exhausts};
ghost use Rattle.uid_projection.specs.TouchedMessages.{RowsStayExcept};
ghost use Rattle.uid_projection.specs.Following.{Follows};
ghost use Rattle.uid_projection.specs.Incarnations.{folder_exists, uidvalidity_of};
ghost use Rattle.uid_projection.specs.UidsAndModSeqs.{highest_modseq_of, uidnext_of};
ghost use Rattle.uid_projection.specs.Listing.{listing};

use causal_inbox::{Arrival, DeliverFault, HeldOps, Inbox, IssueFault, Stall};
use crdt_ops::{Ids, Message, SoundOp};
use folder_state::Folders;
use imap_types::Name;
use mailbox_rows::Rows;
use merge_laws::{FirstFollower, NotReady, Pair};
use std::alloc::{AllocError, Global};
use std::marker::Model;
use subs_state::Subs;
use tags_clocks::{Clock, ReplicaId};
use uid_projection::{Charts, Counters};

/// A replica without its sessions.
pub struct ReplicaState {
    inbox: Inbox<Pair<Folders, Subs>, FirstFollower<Charts>>,
}

// By hand, so that crates above drop it whole.
impl Drop for ReplicaState {
    fn drop(self) {
        let Self { inbox: _ } = self;
    }
}

impl Model for ReplicaState {
    ghost use Rattle.indexmap.specs.Layout.{hash_map_code, hash_set_code};
    ghost use Rattle.std.specs.Coded.{codes};
    ghost use Rattle.imap_node.specs.Nodes.{ReplicaWithRoom};

    ghost Value = { ReplicaWithRoom };

    ghost coded = { Prim.hlevel (codes, hash_map_code, hash_set_code) };

    ghost view = { λ r. record {
      start = r.inbox.received.start;
      applied = r.inbox.received.applied;
      held = r.inbox.received.held;
      room = r.inbox.room;
    } };
}

impl ReplicaState {
    /// A replica with the name and the first numbers in `start` that has received nothing; `Err` if
    /// memory runs out.
    pub fn new(alloc: Global, start: Counters) -> Result<ReplicaState, AllocError>
        requires { 1 ≤ start.uid }
        ensures start { IfOk result (λ replica. replica.start ≡ start) }
        ensures applied { IfOk result (λ replica. replica.applied ≡ []) }
        ensures held { IfOk result (λ replica. replica.held ≡ []) }
    {
        let value = Pair {
            first: Folders::new(alloc),
            second: Subs::new(alloc),
        };
        let follower = FirstFollower {
            follower: Charts::new(alloc, start)?,
        };
        Ok(ReplicaState {
            inbox: Inbox::new(alloc, value, follower)?,
        })
    }

    /// The replica's name.
    pub fn id(&self) -> ReplicaId
        ensures { result ≡ self.now.start.replica }
    {
        self.charts_now().start().replica
    }

    /// The numbers that the replica's counters began with. UIDs began with 1 or more.
    pub fn start(&self) -> Counters
        ensures start { result ≡ self.now.start }
        ensures from_one { 1 ≤ result.uid }
    {
        self.charts_now().start()
    }

    /// The operations applied, in their order, which is causal.
    pub fn op_list(&self) -> &[SoundOp]
        ensures applied { result.now ≡ self.now.applied }
        ensures lawful { IsLawfulInbox id_of clock_of (replica_received self.now) }
        ensures sound { AreSound IsSound self.now.applied }
    {
        self.inbox.op_list()
    }

    /// The operations held, by ascending ids.
    pub fn held(&self) -> HeldOps<'_, SoundOp>
        ensures held { result ≡ self.now.held }
        ensures lawful { IsLawfulInbox id_of clock_of (replica_received self.now) }
        ensures sound { AreSound IsSound self.now.held }
    {
        let _list = self.inbox.op_list();
        self.inbox.held()
    }

    /// The clock that counts the operations applied.
    pub fn clock(&self) -> &Clock
        ensures { IsClockOf id_of self.now.applied result.now }
    {
        self.inbox.clock()
    }

    /// Copies of the operations applied that the clock doesn't cover, in their order; `Err` if
    /// memory runs out.
    pub fn ops_since(&self, alloc: Global, clock: &Clock) -> Result<Vec<SoundOp>, AllocError>
        ensures { IfOk result (λ ops. ops.items ≡ uncovered_ops id_of clock.now self.now.applied) }
    {
        self.inbox.ops_since(alloc, clock)
    }

    /// Copies of the first `limit` operations applied that the clock doesn't cover, in their order;
    /// `Err` if memory runs out.
    pub fn first_ops_since(
        &self,
        alloc: Global,
        clock: &Clock,
        limit: usize,
    ) -> Result<Vec<SoundOp>, AllocError>
        ensures { IfOk result
            (λ ops. ops.items ≡ take limit (uncovered_ops id_of clock.now self.now.applied)) }
    {
        self.inbox.first_ops_since(alloc, clock, limit)
    }

    /// Makes room to issue these operations, which come next. An error leaves the received
    /// operations as they were: `Exhausted` exactly when one of these exhausts a counter.
    pub fn ready(&mut self, alloc: Global, ops: &[SoundOp]) -> Result<(), IssueFault>
        ensures start { self.new.start ≡ self.old.start }
        ensures applied { self.new.applied ≡ self.old.applied }
        ensures held { self.new.held ≡ self.old.held }
        ensures room { OnOk result (HasRoomFor self.new.applied self.new.room ops.now) }
        ensures exhausted { IsCausal id_of clock_of (self.old.applied ++ ops.now)
            → (result ≡ Err UsedUp) ↔ Exhausts self.old.start self.old.applied ops.now }
    {
        self.inbox.ready(alloc, ops)
    }

    /// Applies the replica's own next operations, for which there is room. Takes no memory.
    pub fn issue(&mut self, ops: Vec<SoundOp>)
        requires room { HasRoomFor self.old.applied self.old.room ops.items }
        requires issued { AreIssued id_of clock_of self.old.applied ops.items }
        ensures start { self.new.start ≡ self.old.start }
        ensures applied { self.new.applied ≡ self.old.applied ++ ops.items }
        ensures held { AreRemainingHeld id_of ops.items self.old.held self.new.held }
    {
        self.inbox.issue(ops);
    }

    /// Receives an operation, and releases no held one: applies it, or holds it if it is early. An
    /// error leaves the replica as it was.
    pub fn receive(&mut self, alloc: Global, op: SoundOp) -> Result<Arrival, DeliverFault>
        ensures answer { MatchResult result
            (λ arrival. IsArrival id_of clock_of Exhausts (replica_received self.old) op arrival
            (replica_received self.new))
            (λ e. IsDeliverFault id_of clock_of Exhausts (replica_received self.old) op e) }
        ensures one { (n : ℕ) → result ≡ Ok (Applied n) → n ≡ 1 }
        ensures err { OnErr result (replica_received self.new ≡ replica_received self.old) }
    {
        self.inbox.receive(alloc, op)
    }

    /// The ripe held operation of the least id, which is released next, as a slice of one; `None`
    /// if there is none.
    pub fn next_release(&self) -> Option<&[SoundOp]>
        ensures { MatchOption result (¬ IsStalled id_of clock_of (replica_received self.now))
            (λ ops. (op : Op)
            × (ops.now ≡ op ∷ [])
            × IsNextReleased id_of clock_of (replica_received self.now) op) }
    {
        self.inbox.next_release()
    }

    /// Applies the ripe held operation of the least id; `false` if there is none. `Err` if it is
    /// refused; the replica is then as it was.
    pub fn release_next(&mut self, alloc: Global) -> Result<bool, NotReady>
        ensures answer { MatchResult result
            (λ released. Releases id_of clock_of Exhausts (replica_received self.old) released
            (replica_received self.new))
            (λ e. RefusesRelease id_of clock_of Exhausts (replica_received self.old) e) }
        ensures count { IfOk result (λ released. IsTrue released
            → length self.new.held + 1 ≡ length self.old.held) }
        ensures err { OnErr result (replica_received self.new ≡ replica_received self.old) }
    {
        self.inbox.release_next(alloc)
    }

    /// Whether a held operation is ripe.
    pub fn is_stalled(&self) -> bool
        ensures { IsTrue result ↔ IsStalled id_of clock_of (replica_received self.now) }
    {
        self.inbox.is_stalled()
    }

    /// Why a ripe operation is held, if one is. The received operations stay as they were.
    pub fn stall(&mut self, alloc: Global) -> Option<Stall>
        ensures same { replica_received self.new ≡ replica_received self.old }
        ensures stalls { StallsFor id_of clock_of Exhausts (replica_received self.old) result }
    {
        self.inbox.stall(alloc)
    }

    // ---- what results from the operations

    /// Whether the mailbox exists. INBOX always does. Takes no memory.
    pub fn exists(&self, name: &Name) -> bool
        ensures { result ≡ folder_exists name.now self.now.applied }
    {
        self.folders_now().exists(name)
    }

    /// The mailboxes' names, ascending and distinct; `Err` if memory runs out.
    pub fn folders(&self, alloc: Global) -> Result<Vec<Name>, AllocError>
        ensures { IfOk result (λ names. names.items ≡ folders_of self.now.applied) }
    {
        self.folders_now().names(alloc)
    }

    /// The ids of the folder's present folder tags, ascending; `Err` if memory runs out.
    pub fn tags(&self, alloc: Global, name: &Name) -> Result<Ids, AllocError>
        ensures { IfOk result (λ ids. ids ≡ folder_tags_of self.now.applied name.now) }
    {
        self.folders_now().tags(alloc, name)
    }

    /// The ids of the folder's present tags, of the folder and of its messages, ascending; `Err` if
    /// memory runs out.
    pub fn delete_set(&self, alloc: Global, name: &Name) -> Result<Ids, AllocError>
        ensures { IfOk result (λ ids. ids ≡ delete_set_of self.now.applied name.now) }
    {
        self.folders_now().delete_set(alloc, name)
    }

    /// The folder's messages, ascending by their ids; `Err` if memory runs out.
    pub fn messages(&self, alloc: Global, name: &Name) -> Result<Vec<Message>, AllocError>
        ensures { IfOk result (λ messages. messages.items ≡ messages_of self.now.applied name.now) }
    {
        self.folders_now().messages(alloc, name)
    }

    /// The subscribed names, ascending and distinct; `Err` if memory runs out.
    pub fn subscribed_names(&self, alloc: Global) -> Result<Vec<Name>, AllocError>
        ensures { IfOk result (λ names. names.items ≡ subscribed_names_of self.now.applied) }
    {
        self.subs_now().names(alloc)
    }

    /// The ids of the name's present subscription tags, ascending; `Err` if memory runs out.
    pub fn subscription_tags(&self, alloc: Global, name: &Name) -> Result<Ids, AllocError>
        ensures { IfOk result (λ ids. ids ≡ subscription_tags_of self.now.applied name.now) }
    {
        self.subs_now().tags(alloc, name)
    }

    /// The UIDVALIDITY of the mailbox; `None` if it doesn't exist. Takes no memory.
    pub fn uidvalidity(&self, name: &Name) -> Option<u32>
        ensures { result ≡ uidvalidity_of self.now.start name.now self.now.applied }
    {
        self.charts_now().uidvalidity(name)
    }

    /// The UIDNEXT of the mailbox. Takes no memory.
    pub fn uidnext(&self, name: &Name) -> u32
        ensures { result ≡ uidnext_of self.now.start name.now self.now.applied }
    {
        self.charts_now().uidnext(name)
    }

    /// The mailbox's `uidvalidity` and `uidnext`. Takes no memory.
    pub fn numbers(&self, name: &Name) -> (Option<u32>, u32)
        ensures uidvalidity { result.0 ≡ uidvalidity_of self.now.start name.now self.now.applied }
        ensures uidnext { result.1 ≡ uidnext_of self.now.start name.now self.now.applied }
    {
        self.charts_now().numbers(name)
    }

    /// The UIDs of the mailbox's messages that these operations, applied next, change or expunge;
    /// `Err` if memory runs out.
    pub fn touched_uids(
        &self,
        alloc: Global,
        name: &Name,
        ops: &[SoundOp],
    ) -> Result<Vec<u32>, AllocError>
        ensures { IsApplied (self.now.applied ++ ops.now)
            → uidvalidity_of self.now.start name.now (self.now.applied ++ ops.now)
            ≡ uidvalidity_of self.now.start name.now self.now.applied
            → IfOk result (λ uids. RowsStayExcept uids.items
            (uidnext_of self.now.start name.now self.now.applied)
            (listing self.now.start name.now self.now.applied)
            (listing self.now.start name.now (self.now.applied ++ ops.now))) }
    {
        self.charts_now().touched_uids(alloc, name, ops)
    }

    /// The mailbox's listing; `Err` if memory runs out.
    pub fn rows(&self, alloc: Global, name: &Name) -> Result<Rows<'_>, AllocError>
        ensures { IfOk result (λ rows. rows ≡ listing self.now.start name.now self.now.applied) }
    {
        self.charts_now().rows(alloc, self.folders_now(), name)
    }

    /// The mailbox's `uidvalidity` and `rows`; `Err` if memory runs out.
    pub fn numbered_rows(
        &self,
        alloc: Global,
        name: &Name,
    ) -> Result<(Option<u32>, Rows<'_>), AllocError>
        ensures uidvalidity { IfOk result
            (λ numbered. numbered.0 ≡ uidvalidity_of self.now.start name.now self.now.applied) }
        ensures rows { IfOk result
            (λ numbered. numbered.1 ≡ listing self.now.start name.now self.now.applied) }
    {
        self.charts_now()
            .numbered_rows(alloc, self.folders_now(), name)
    }

    /// The mailbox's UIDVALIDITY after these operations; `None` if it doesn't exist then.
    pub fn uidvalidity_after(&self, name: &Name, ops: &[SoundOp]) -> Option<u32>
        requires { IsReady self.now ops.now }
        ensures { result ≡ uidvalidity_of self.now.start name.now (self.now.applied ++ ops.now) }
    {
        if ops.is_empty() {
            return self.uidvalidity(name);
        }
        self.charts_now()
            .uidvalidity_after(self.folders_now(), name, ops)
    }

    /// The mailbox's UIDNEXT after these operations.
    pub fn uidnext_after(&self, name: &Name, ops: &[SoundOp]) -> u32
        requires { IsReady self.now ops.now }
        ensures { result ≡ uidnext_of self.now.start name.now (self.now.applied ++ ops.now) }
    {
        self.charts_now()
            .uidnext_after(self.folders_now(), name, ops)
    }

    /// The mailbox's HIGHESTMODSEQ after these operations.
    pub fn highest_after(&self, name: &Name, ops: &[SoundOp]) -> u64
        requires { IsReady self.now ops.now }
        ensures { result ≡ highest_modseq_of name.now (self.now.applied ++ ops.now) }
    {
        if ops.is_empty() {
            return self.charts_now().highest(name);
        }
        self.charts_now()
            .highest_after(self.folders_now(), name, ops)
    }

    /// The mailbox's listing after these operations, which is `rows` if there are none; `Err` if
    /// memory runs out.
    pub fn rows_after<'a>(
        &'a self,
        alloc: Global,
        name: &Name,
        ops: &'a [SoundOp],
    ) -> Result<Rows<'a>, AllocError>
        requires { IsReady self.now ops.now }
        ensures { IfOk result
            (λ rows. rows ≡ listing self.now.start name.now (self.now.applied ++ ops.now)) }
    {
        if ops.is_empty() {
            return self.rows(alloc, name);
        }
        self.charts_now()
            .rows_after(alloc, self.folders_now(), name, ops)
    }

    /// The folders that result from the operations applied.
    pub(crate) fn folders_now(&self) -> &Folders
        ensures { IsMadeBy (contents_of result.now) self.now.applied }
    {
        let _list = self.inbox.op_list();
        &self.inbox.value().first
    }

    /// The subscriptions that result from the operations applied.
    pub(crate) fn subs_now(&self) -> &Subs
        ensures { AreMadeBy (subscriptions_of result.now) self.now.applied }
    {
        let _list = self.inbox.op_list();
        &self.inbox.value().second
    }

    /// The charts of the operations applied.
    fn charts_now(&self) -> &Charts
        ensures follows { Follows result.now self.now.applied }
        ensures start { result.now.start ≡ self.now.start }
        ensures room { result.now ≡ self.now.room.follower.follower }
    {
        &self.inbox.follower().follower
    }
}

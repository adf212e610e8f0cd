//! A replica with its sessions.

ghost use Rattle.std.specs.Prelude.{◌≡◌, ◌≢◌, ◌↔◌, ℕ, ◌<◌, ◌≤◌, ◌++◌, false, List, [], Err, IfOk};
ghost use Rattle.std.specs.Prelude.{IsNone, IsSome, IsTrue, MatchResult, None, Ok, OnErr, Some};
ghost use Rattle.std.specs.Prelude.{length, take, ◌∷◌, ◌+◌};
ghost use Rattle.std.specs.Option.{option_copied};
ghost use Rattle.causal_inbox.specs.Inbox.{AreIssued, IsClockOf, held_limit, uncovered_ops};
ghost use Rattle.causal_inbox.specs.Releases.{Releases, RefusesRelease};
ghost use Rattle.causal_inbox.specs.declared.delivery.Arrival.TheVariants.{Applied};
ghost use Rattle.crdt_ops.specs.Sets.{delete_set_of, folder_tags_of, folders_of, messages_of};
ghost use Rattle.crdt_ops.specs.Sets.{subscribed_names_of, subscription_tags_of};
ghost use Rattle.crdt_ops.specs.declared.op.Op.{Op};
ghost use Rattle.folder_state.specs.Contents.{IsMadeBy};
ghost use Rattle.folder_state.specs.Tables.{contents_of};
ghost use Rattle.imap_commands.specs.declared.session.Session.{Session};
ghost use Rattle.crdt_ops.specs.Tags.{name_of};
ghost use Rattle.imap_node.specs.SessionFeeds.{AreAllNoted, IsCurrent, pending_at};
ghost use Rattle.imap_node.specs.ChangeNotes.{IsSnapshotOf};
ghost use Rattle.imap_node.specs.Nodes.{received_ops};
ghost use Rattle.imap_node.specs.Operations.{clock_of, id_of};
ghost use Rattle.imap_node.specs.Plans.{CanStep, plan_of_prepared, step_of_refusal};
ghost use Rattle.imap_node.specs.Plans.{place_after_step, plan_by};
ghost use Rattle.imap_node.specs.Replays.{view_at};
ghost use Rattle.imap_node.specs.Responses.{AreHeldAfter};
ghost use Rattle.imap_node.specs.Sessions.{IsOpen, session_at, with_session};
ghost use Rattle.imap_node.specs.Rooms.{HasRoomFor};
ghost use Rattle.imap_node.specs.declared.input.Input.TheVariants as inputs;
ghost use Rattle.session_view.specs.ViewState.{ViewState};
ghost use Rattle.subs_state.specs.Subscriptions.{IsMadeBy as AreMadeBy};
ghost use Rattle.subs_state.specs.Table.{subscriptions_of};
ghost use Rattle.uid_projection.specs.Exhaustion.{Exhausts};
ghost use Rattle.uid_projection.specs.declared.first_numbers.Counters.{Counters};

use crate::change_notes::{ChangeNotes, MailboxSnapshot, change_notes_of_delivery, snapshot_of};
use crate::feeds::{Feeds, may_have_notes};
use crate::input::Input;
use crate::input_rules::{closes, ends_idling, leaves};
use crate::plan::{Plan, PreparedInput, PreparedReply, SessionStep, prepare_input};
use crate::ready_ops::ReadyOps;
use crate::replica::ReplicaState;
use crate::reply::Reply;
use crate::sessions::{Auth, OpenFault, SessionNo, Sessions};
use causal_inbox::{Arrival, DeliverFault, Delivered, Drained, HeldOps, Stall};
use crdt_ops::SoundOp;
use folder_state::Folders;
use imap_answers::Refusal;
use imap_commands::{Session, State};
use imap_syntax::{IdleLine, Tagged};
use imap_types::{Moment, Name};
use mailbox_rows::Rows;
use merge_laws::NotReady;
use std::alloc::{AllocError, Global};
use std::marker::Model;
use std::slice;
use subs_state::Subs;
use tags_clocks::{Clock, ReplicaId};
use uid_projection::Counters;

/// A replica with its sessions. It answers only from its own state.
pub struct Node {
    replica: ReplicaState,
    sessions: Sessions,
    /// What each session must still be sent.
    feeds: Feeds,
}

// By hand, so that crates above drop it whole.
impl Drop for Node {
    fn drop(self) {
        let Self {
            replica: _,
            sessions: _,
            feeds: _,
        } = self;
    }
}

impl Model for Node {
    ghost use Rattle.indexmap.specs.Layout.{hash_map_code, hash_set_code};
    ghost use Rattle.std.specs.Coded.{codes};
    ghost use Rattle.imap_node.specs.SessionFeeds.{AreAllNoted};
    ghost use Rattle.imap_node.specs.Nodes.{NodeWithRoom};

    ghost Value = { NodeWithRoom };

    ghost coded = { Prim.hlevel (codes, hash_map_code, hash_set_code) };

    ghost view = { λ n. record {
      state = record {
        start = n.replica.start;
        applied = n.replica.applied;
        held = n.replica.held;
        sessions = n.sessions;
      };
      room = n.replica.room;
    } };

    ghost invariant = { λ n. AreAllNoted n.replica.start n.replica.applied n.sessions n.feeds };
}

impl Node {
    ghost use Rattle.crdt_ops.specs.Sound.{IsSound};
    ghost use Rattle.imap_node.specs.Deliveries.{Delivers, DrainsHeld, HoldsRipeOp, IsOrderly};
    ghost use Rattle.imap_node.specs.Deliveries.{IsRefusedAt, StallsAt};
    ghost use Rattle.imap_node.specs.Nodes.{IsAwaitedInput, IsIdlingAt, with_session_closed};
    ghost use Rattle.imap_node.specs.Plans.{CommitsTo, IsPlanned, IsPlanOf};
    ghost use Rattle.imap_node.specs.Responses.{Responds};
    ghost use Rattle.imap_node.specs.Sessions.{IsOpen, OpensSession, session_at};
    ghost use Rattle.imap_node.specs.declared.sessions.OpenFault.TheVariants.{TooManySessions};
    ghost use Rattle.merge_laws.specs.Orders.{AreSound};
    ghost use Rattle.uid_projection.specs.Listing.{listing};

    /// A replica with the name and the first numbers in `start`, and UIDs from 1 on, that has
    /// received nothing and has no sessions; `Err` if memory runs out.
    pub fn new(alloc: Global, start: Counters) -> Result<Node, AllocError>
        requires { 1 ≤ start.uid }
        ensures { IfOk result (λ node. node.state
            ≡ record { start = start; applied = []; held = []; sessions = [] }) }
    {
        Ok(Node {
            replica: ReplicaState::new(alloc, start)?,
            sessions: Sessions::new(alloc),
            feeds: Feeds::new(alloc),
        })
    }

    // ---- sessions

    /// The session with this number; `None` if it isn't open.
    pub fn session(&self, session: SessionNo) -> Option<&Session>
        ensures { option_copied result ≡ session_at self.now.state.sessions session }
    {
        self.sessions.get(session)
    }

    /// Whether the session is open. It may have logged out.
    pub fn is_open(&self, session: SessionNo) -> bool
        ensures { IsTrue result ↔ IsOpen self.now.state.sessions session }
    {
        self.session(session).is_some()
    }

    /// Whether the session is open and idles: it then awaits a DONE, and nothing else (RFC 2177,
    /// section 3).
    pub fn is_idling(&self, session: SessionNo) -> bool
        ensures { IsTrue result ↔ IsIdlingAt self.now.state session }
    {
        match self.session(session) {
            Some(entry) => entry.idling.is_some(),
            None => false,
        }
    }

    /// Whether the session may have unsent changes of its mailbox. `false` only if its view agrees
    /// with the mailbox's listing in every message, or if it isn't open or has no mailbox selected.
    /// Cost: a look at its feed.
    pub fn may_have_unsent_changes(&self, session: SessionNo) -> bool
        ensures { result ≡ false → (view : ViewState)
            → view_at self.now.state.sessions session ≡ Some view
            → IsCurrent self.now.state.start self.now.state.applied view }
    {
        match self.session(session) {
            Some(entry) => may_have_notes(&entry.state, self.feeds.feed_of(session)),
            None => false,
        }
    }

    /// A number above which no session is open.
    pub fn last_session(&self) -> usize
        ensures bound { result ≤ 1024 }
        ensures none { (n : ℕ) → result < n → session_at self.now.state.sessions n ≡ None }
    {
        self.sessions.last()
    }

    /// Opens a session with the least number that isn't open. An error leaves the node as it was:
    /// `TooManySessions` exactly when all numbers from 1 to 1,024 are open, unless memory runs out;
    /// `NoMemory`.
    pub fn open(&mut self, auth: Auth) -> Result<SessionNo, OpenFault>
        ensures ok { IfOk result
            (λ session. OpensSession self.old.state.sessions auth session self.new.state.sessions) }
        ensures full { result ≡ Err TooManySessions → (n : ℕ) → 0 < n → n ≤ 1024
            → IsOpen self.old.state.sessions n }
        ensures room { ((n : ℕ) × (0 < n) × (n ≤ 1024)
            × IsNone (session_at self.old.state.sessions n)) → result ≢ Err TooManySessions }
        ensures rest { self.new
            ≡ record self.old {
              state = record self.old.state { sessions = self.new.state.sessions };
            } }
        ensures err { OnErr result (self.new ≡ self.old) }
    {
        let session = self.sessions.open(auth)?;
        self.feeds.open(session);
        Ok(session)
    }

    /// Closes the session.
    pub fn close(&mut self, session: SessionNo)
        requires { IsOpen self.old.state.sessions session }
        ensures { self.new.state ≡ with_session_closed self.old.state session }
    {
        self.sessions.set(session, None);
    }

    // ---- inputs

    /// Carries out the whole of a command of a session that is open and doesn't idle, or refuses
    /// it. `moment` is the time of its arrival.
    ///
    /// Cost: finding a mailbox by name is one look-up, however many there are; a subscription is
    /// searched for among all of them. A mailbox's messages are a window on the replica's tables,
    /// which costs nothing to make, and is made for each question. After operations of the
    /// command's own, a window costs as much as they change, and they are copied once. STORE,
    /// FETCH, COPY, MOVE and UID EXPUNGE look up each message that they name a few times. SELECT,
    /// EXAMINE, SEARCH, STATUS of sizes, EXPUNGE and CLOSE make a pass over all messages of their
    /// mailbox. With a mailbox selected, the sync after each command or poll looks at what has
    /// changed since the last one; if the session's feed missed some of that, it makes one pass
    /// over the view and the listing. DELETE names all tags of its folder. LIST costs what
    /// `list_names` of `imap_query` says. SEARCH and FETCH make one pass over a text for each key
    /// or section that asks for it; a whole text costs nothing, since the answer shares it with the
    /// message. APPEND, COPY and MOVE share texts and make no pass over them. LOGIN, ENABLE,
    /// NAMESPACE, CAPABILITY and LOGOUT cost what they name.
    pub fn command(
        &mut self,
        alloc: Global,
        session: SessionNo,
        moment: Moment,
        tagged: Tagged,
    ) -> Reply
        requires { IsAwaitedInput self.old.state session (inputs.Command moment tagged) }
        ensures { Responds self.old.state session (inputs.Command moment tagged) result
            self.new.state }
    {
        let plan = self.plan(alloc, session, Input::Command { moment, tagged });
        self.commit(plan)
    }

    /// Takes a line of a session that idles (RFC 2177, section 3).
    pub fn done(&mut self, alloc: Global, session: SessionNo, line: IdleLine) -> Reply
        requires { IsAwaitedInput self.old.state session (inputs.Line line) }
        ensures { Responds self.old.state session (inputs.Line line) result self.new.state }
    {
        let plan = self.plan(alloc, session, Input::Line { line });
        self.commit(plan)
    }

    /// Sends a session that idles what has changed (RFC 2177, section 3).
    pub fn poll(&mut self, alloc: Global, session: SessionNo) -> Reply
        requires { IsAwaitedInput self.old.state session inputs.Poll }
        ensures { Responds self.old.state session inputs.Poll result self.new.state }
    {
        let plan = self.plan(alloc, session, Input::Poll);
        self.commit(plan)
    }

    /// Works out what the node will do with an input that the session awaits, and makes the room
    /// for it. The node stays as it was. The plan's reply is `Done` only if all room was made;
    /// every refusal is in it too.
    pub fn plan(&mut self, alloc: Global, session: SessionNo, input: Input) -> Plan
        requires { IsAwaitedInput self.old.state session input }
        ensures same { self.new.state ≡ self.old.state }
        ensures planned { IsPlanned self.new result }
        ensures responds { IsPlanOf self.old.state session input result }
    {
        let plan = self.plan_for(alloc, session, &input);
        drop(input);
        plan
    }

    /// `plan`, for an input that is borrowed.
    pub fn plan_for(&mut self, alloc: Global, session: SessionNo, input: &Input) -> Plan
        requires { IsAwaitedInput self.old.state session input.now }
        ensures same { self.new.state ≡ self.old.state }
        ensures planned { IsPlanned self.new result }
        ensures responds { IsPlanOf self.old.state session input.now result }
    {
        let outcome = prepare_input(
            alloc,
            &mut self.replica,
            &mut self.sessions,
            &self.feeds,
            session,
            input,
        );
        make_room(&mut self.feeds, &self.sessions, session, &outcome);
        let Some(entry) = self.sessions.get(session) else {
            unreachable!()
        };
        plan_by(alloc, session, &entry.state, input, outcome)
    }

    /// Does what was planned, if the node is as the plan left it. Takes no memory.
    pub fn commit(&mut self, plan: Plan) -> Reply
        requires { IsPlanned self.old plan }
        ensures reply { result ≡ plan.reply }
        ensures state { CommitsTo self.old.state plan self.new.state }
    {
        let Plan {
            number,
            reply,
            ops,
            change_notes: change_notes,
            next,
        } = plan;
        issue(&mut self.replica, ops);
        self.feeds.note(&self.sessions, &change_notes);
        set_next(&mut self.sessions, &mut self.feeds, number, next);
        reply
    }

    // ---- other replicas

    /// Receives an operation. It is applied if all its causes were applied, and so are the held
    /// operations that waited for it, the least id first; it is held if it is early; or it was
    /// received before, and nothing changes. No session changes. An error leaves the node as it
    /// was: `Conflict` if another operation has its id, `HeldFull` if it is early and 65,536 are
    /// held, `Exhausted` if it exhausts a counter, `NoMemory`.
    ///
    /// Cost: a look-up of the operation's id; for each operation that is applied, what it changes,
    /// and a look-up for each held one that waited for it.
    pub fn deliver(&mut self, alloc: Global, op: SoundOp) -> Result<Delivered, DeliverFault>
        ensures answer { MatchResult result
            (λ d. Delivers self.old.state op d.arrival self.new.state)
            (λ e. IsRefusedAt self.old.state op e) }
        ensures stalled { IfOk result (λ d. IsTrue d.stalled ↔ HoldsRipeOp self.new.state) }
        ensures err { OnErr result (self.new.state ≡ self.old.state) }
    {
        match self.receive(alloc, op)? {
            Arrival::Applied(_) => {
                let drained = self.drain(alloc);
                Ok(Delivered {
                    arrival: Arrival::Applied(drained.applied + 1),
                    stalled: drained.stalled,
                })
            }
            arrival => Ok(Delivered {
                arrival,
                stalled: self.replica.is_stalled(),
            }),
        }
    }

    /// Receives an operation, and releases no held one: it is applied if it is ripe, and held if it
    /// is early. What it changes is noted. An error leaves the node as it was.
    fn receive(&mut self, alloc: Global, op: SoundOp) -> Result<Arrival, DeliverFault>
        ensures answer { MatchResult result
            (λ arrival. Delivers self.old.state op arrival self.new.state)
            (λ e. IsRefusedAt self.old.state op e) }
        ensures one { (n : ℕ) → result ≡ Ok (Applied n) → n ≡ 1 }
        ensures err { OnErr result (self.new.state ≡ self.old.state) }
    {
        let count = self.replica.op_list().len();
        let snapshot = snapshot_of(alloc, &self.replica, slice::from_ref(&op));
        let arrival = self.replica.receive(alloc, op);
        note_delivered(
            alloc,
            &self.replica,
            count,
            snapshot,
            &self.sessions,
            &mut self.feeds,
        );
        arrival
    }

    /// Applies held operations whose causes were all applied, the least id first, until there is
    /// none or one is refused. No session changes.
    pub fn drain(&mut self, alloc: Global) -> Drained
        ensures released { DrainsHeld self.old.state result.applied self.new.state }
        ensures stalled { IsTrue result.stalled ↔ HoldsRipeOp self.new.state }
        ensures at_most { result.applied ≤ held_limit }
    {
        let count = self.replica.held().len();
        for applied in 0..count {
            match self.release_next(alloc) {
                Ok(true) => {}
                Ok(false) => {
                    return Drained {
                        applied,
                        stalled: false,
                    };
                }
                Err(_) => {
                    return Drained {
                        applied,
                        stalled: true,
                    };
                }
            }
        }
        Drained {
            applied: count,
            stalled: false,
        }
    }

    /// Applies the ripe held operation of the least id; `false` if there is none. What it changes
    /// is noted. `Err` if it is refused; the node is then as it was.
    fn release_next(&mut self, alloc: Global) -> Result<bool, NotReady>
        ensures answer { MatchResult result
            (λ released. Releases id_of clock_of Exhausts (received_ops self.old.state) released
            (received_ops self.new.state))
            (λ e. RefusesRelease id_of clock_of Exhausts (received_ops self.old.state) e) }
        ensures sessions { self.new.state.sessions ≡ self.old.state.sessions }
        ensures count { IfOk result (λ released. IsTrue released
            → length self.new.state.held + 1 ≡ length self.old.state.held) }
        ensures err { OnErr result (self.new.state ≡ self.old.state) }
    {
        let Some(next) = self.replica.next_release() else {
            return Ok(false);
        };
        let count = self.replica.op_list().len();
        let snapshot = snapshot_of(alloc, &self.replica, next);
        let released = self.replica.release_next(alloc);
        note_delivered(
            alloc,
            &self.replica,
            count,
            snapshot,
            &self.sessions,
            &mut self.feeds,
        );
        released
    }

    /// Why a ripe operation is held, if one is: `Exhausted` if a drain couldn't continue because a
    /// counter is used up, `Drainable` if it could continue given memory. The node stays as it was.
    pub fn stall(&mut self, alloc: Global) -> Option<Stall>
        ensures same { self.new.state ≡ self.old.state }
        ensures stalls { StallsAt self.old.state result }
    {
        self.replica.stall(alloc)
    }

    /// The operations applied, in their order, which is causal. They are sound, and none has the id
    /// of one that is held.
    pub fn op_list(&self) -> &[SoundOp]
        ensures applied { result.now ≡ self.now.state.applied }
        ensures orderly { IsOrderly self.now.state }
        ensures sound { AreSound IsSound self.now.state.applied }
    {
        self.replica.op_list()
    }

    /// The operations held until their causes are applied, by ascending ids. They are sound.
    pub fn held(&self) -> HeldOps<'_, SoundOp>
        ensures held { result ≡ self.now.state.held }
        ensures orderly { IsOrderly self.now.state }
        ensures sound { AreSound IsSound self.now.state.held }
    {
        self.replica.held()
    }

    /// The clock that counts the operations applied.
    pub fn clock(&self) -> &Clock
        ensures { IsClockOf id_of self.now.state.applied result.now }
    {
        self.replica.clock()
    }

    /// Copies of the operations applied that the clock doesn't cover, in their order; `Err` if
    /// memory runs out.
    pub fn ops_since(&self, alloc: Global, clock: &Clock) -> Result<Vec<SoundOp>, AllocError>
        ensures { IfOk result
            (λ ops. ops.items ≡ uncovered_ops id_of clock.now self.now.state.applied) }
    {
        self.replica.ops_since(alloc, clock)
    }

    /// Copies of the first `limit` operations applied that the clock doesn't cover, in their order;
    /// `Err` if memory runs out.
    pub fn first_ops_since(
        &self,
        alloc: Global,
        clock: &Clock,
        limit: usize,
    ) -> Result<Vec<SoundOp>, AllocError>
        ensures { IfOk result
            (λ ops. ops.items ≡ take limit (uncovered_ops id_of clock.now self.now.state.applied)) }
    {
        self.replica.first_ops_since(alloc, clock, limit)
    }

    /// The mailbox's listing; `Err` if memory runs out.
    pub fn listing(&self, alloc: Global, name: &Name) -> Result<Rows<'_>, AllocError>
        ensures { IfOk result
            (λ rows. rows ≡ listing self.now.state.start name.now self.now.state.applied) }
    {
        self.replica.rows(alloc, name)
    }

    /// The folders and messages that result from the operations applied.
    pub fn folders(&self) -> &Folders
        ensures { IsMadeBy (contents_of result.now) self.now.state.applied }
    {
        self.replica.folders_now()
    }

    /// The subscriptions that result from the operations applied.
    pub fn subs(&self) -> &Subs
        ensures { AreMadeBy (subscriptions_of result.now) self.now.state.applied }
    {
        self.replica.subs_now()
    }

    /// All of the node but its sessions.
    pub fn replica(&self) -> &ReplicaState
        ensures start { result.now.start ≡ self.now.state.start }
        ensures applied { result.now.applied ≡ self.now.state.applied }
        ensures held { result.now.held ≡ self.now.state.held }
    {
        &self.replica
    }
}

/// Issues the operations, if there are any.
fn issue(replica: &mut ReplicaState, ops: ReadyOps)
    requires room { (ops ≡ [] → ⊥) → HasRoomFor replica.old.applied replica.old.room ops }
    requires issued { AreIssued id_of clock_of replica.old.applied ops }
    ensures start { replica.new.start ≡ replica.old.start }
    ensures applied { replica.new.applied ≡ replica.old.applied ++ ops }
    ensures held { AreHeldAfter ops replica.old.held replica.new.held }
{
    if ops.as_slice().is_empty() {
        drop(ops);
        return;
    }
    replica.issue(ops.into_vec());
}

/// Adds a feed for a session that has none, and room in all feeds for the change notes of its
/// input, if it can be carried out. What sessions must still be sent doesn't change.
fn make_room(
    feeds: &mut Feeds,
    sessions: &Sessions,
    session: SessionNo,
    outcome: &Result<PreparedInput, Refusal>,
)
    ensures { (n : ℕ) → pending_at feeds.new n ≡ pending_at feeds.old n }
{
    feeds.open(session);
    match outcome {
        Ok(prepared) => feeds.ready(sessions, &prepared.change_notes),
        Err(_) => {}
    }
}

/// Takes the planned step of an open session.
fn set_next(sessions: &mut Sessions, feeds: &mut Feeds, number: SessionNo, next: SessionStep)
    requires opened { IsOpen sessions.old number }
    requires can { (start : Counters)
        × (ops : List Op)
        × ((s : Session) → session_at sessions.old number ≡ Some s → CanStep start ops s next) }
    ensures sessions { sessions.new
        ≡ with_session sessions.old number
        (place_after_step (session_at sessions.old number) next) }
    ensures noted { (start : Counters) (ops : List Op)
        → ((s : Session) → session_at sessions.old number ≡ Some s → CanStep start ops s next)
        → AreAllNoted start ops sessions.old feeds.old
        → AreAllNoted start ops sessions.new feeds.new }
{
    match next {
        SessionStep::Stays => {}
        SessionStep::Leaves => sessions.leave(number),
        SessionStep::Wakes => sessions.wake(number),
        SessionStep::Advances { update } => feeds.advance(sessions, number, update),
    }
}

/// Notes the changes of the delivered operation that was applied after the first `count`, if one
/// was, given its mailbox before it. If memory runs out, each session's feed misses them.
fn note_delivered(
    alloc: Global,
    replica: &ReplicaState,
    count: usize,
    snapshot: Result<MailboxSnapshot, AllocError>,
    sessions: &Sessions,
    feeds: &mut Feeds,
)
    requires count { count ≤ length replica.now.applied }
    requires snapshot { IfOk snapshot (λ a. (op : Op)
        × IsSnapshotOf replica.now.start (take count replica.now.applied) (op ∷ [])
        (name_of op.kind) a
        × (count < length replica.now.applied
        → replica.now.applied ≡ take count replica.now.applied ++ op ∷ [])) }
    ensures { AreAllNoted replica.now.start (take count replica.now.applied) sessions.now feeds.old
        → AreAllNoted replica.now.start replica.now.applied sessions.now feeds.new }
{
    if replica.op_list().len() == count {
        return;
    }
    let Ok(snapshot) = snapshot else {
        feeds.miss_all();
        return;
    };
    match change_notes_of_delivery(alloc, replica, snapshot) {
        Ok(change_notes) => {
            feeds.ready(sessions, &change_notes);
            feeds.note(sessions, &change_notes);
        }
        Err(_) => feeds.miss_all(),
    }
}

/// The plan for an outcome of `prepare_input`.
fn plan_by(
    alloc: Global,
    number: SessionNo,
    state: &State,
    input: &Input,
    outcome: Result<PreparedInput, Refusal>,
) -> Plan
    ensures { result ≡ plan_by number state.now input.now outcome }
{
    match outcome {
        Ok(prepared) => plan_of_prepared(number, prepared),
        Err(why) => Plan {
            number,
            reply: Reply::Refused {
                why,
                closed: closes(state, input, why),
            },
            ops: ReadyOps::new(Vec::new(alloc)),
            change_notes: ChangeNotes::none(alloc),
            next: step_of_refusal(state, input, why),
        },
    }
}

/// The plan of an input that can be carried out.
fn plan_of_prepared(number: SessionNo, prepared: PreparedInput) -> Plan
    ensures { result ≡ plan_of_prepared number prepared }
{
    let PreparedInput {
        answered,
        ops,
        copies,
        change_notes: change_notes,
    } = prepared;
    let PreparedReply {
        answers,
        silent,
        update,
    } = answered;
    Plan {
        number,
        reply: Reply::Done {
            answers,
            silent,
            issued: copies,
        },
        ops,
        change_notes: change_notes,
        next: SessionStep::Advances { update },
    }
}

/// The next step of the session whose input is refused.
fn step_of_refusal(state: &State, input: &Input, why: Refusal) -> SessionStep
    ensures { result ≡ step_of_refusal state.now input.now why }
{
    if leaves(state, input) {
        return SessionStep::Leaves;
    }
    if ends_idling(input, why) {
        SessionStep::Wakes
    } else {
        SessionStep::Stays
    }
}

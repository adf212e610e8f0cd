//! Laws on all that a node replies and receives. Each is the contract of a function that does
//! nothing.

ghost use Rattle.std.specs.Prelude.{◌≡◌, ℕ, ◌≤◌, true, List, [], None, Some};
ghost use Rattle.causal_inbox.specs.ReceivedSets.{HasGrown};
ghost use Rattle.causal_inbox.specs.declared.delivery.Arrival.{Arrival};
ghost use Rattle.crdt_ops.specs.declared.op.Op.{Op};
ghost use Rattle.imap_answers.specs.declared.answer.Answer.{Answer};
ghost use Rattle.imap_node.specs.Deliveries.{Delivers, DrainsHeld};
ghost use Rattle.imap_node.specs.OlderViews.{AreOlderViews, updates_view};
ghost use Rattle.imap_node.specs.Issues.{Issues, issued_by};
ghost use Rattle.imap_node.specs.Mailboxes.{rows_for};
ghost use Rattle.imap_node.specs.Nodes.{NodeState, with_session_closed};
ghost use Rattle.imap_node.specs.Replays.{ViewsAscend, view_at, view_after_input};
ghost use Rattle.imap_node.specs.Responses.{Responds};
ghost use Rattle.imap_node.specs.Sessions.{IsOpen, OpensSession, OthersStay, Places};
ghost use Rattle.imap_node.specs.declared.input.Input.{Input};
ghost use Rattle.imap_node.specs.declared.reply.Reply.{Reply};
ghost use Rattle.imap_node.specs.declared.reply.Reply.TheVariants.{Done};
ghost use Rattle.imap_node.specs.declared.sessions.Auth.{Auth};
ghost use Rattle.session_view.specs.ViewState.{ViewState};
ghost use Rattle.session_view.specs.Views.{entries_of};
ghost use Rattle.session_view.specs.declared.reply_replay.SilentFlags.{SilentFlags};
ghost use Rattle.uid_projection.specs.Applied.{IsApplied};
ghost use Rattle.uid_projection.specs.Bounds.{IsLasting};
ghost use Rattle.uid_projection.specs.declared.first_numbers.Counters.{Counters};

/// The operations that a reply issued are sound, bear the node's name, have the next numbers, and
/// have ids that no applied operation has. The node's list grew at its end by exactly these
/// operations.
pub fn issued_are_sound_and_new()
    ensures { (old new : NodeState) (n : ℕ) (input : Input) (reply : Reply) → IsApplied old.applied
        → Responds old n input reply new
        → Issues old (issued_by reply) new }
{}

/// A reply's silent flags and answers, replayed on the session's view before it, give the view
/// after it: for a command, a line in IDLE and a poll, carried out or refused.
pub fn replies_replay()
    ensures { (old new : NodeState) (n : ℕ) (input : Input) (reply : Reply)
        → Responds old n input reply new
        → view_at new.sessions n
        ≡ view_after_input new.start new.applied (view_at old.sessions n) input reply }
{}

/// An input changes no other session. Nor does closing a session, which has no view afterwards.
pub fn other_sessions_stay()
    ensures inputs { (old new : NodeState) (n : ℕ) (input : Input) (reply : Reply)
        → Responds old n input reply new
        → OthersStay old.sessions n new.sessions }
    ensures closes { (old : NodeState) (n : ℕ) → IsOpen old.sessions n
        → OthersStay old.sessions n (with_session_closed old n).sessions }
    ensures ended { (old : NodeState) (n : ℕ) → IsOpen old.sessions n
        → view_at (with_session_closed old n).sessions n ≡ None }
{}

/// The UIDs of each session's view ascend, whatever happens: inputs, sessions that are opened and
/// closed, operations of other replicas.
pub fn views_ascend()
    ensures begins { ViewsAscend [] }
    ensures inputs { (old new : NodeState) (n : ℕ) (input : Input) (reply : Reply)
        → 1 ≤ old.start.uid → IsApplied old.applied
        → Responds old n input reply new → ViewsAscend old.sessions
        → ViewsAscend new.sessions }
    ensures opens { (old new : Places) (auth : Auth) (n : ℕ) → OpensSession old auth n new
        → ViewsAscend old
        → ViewsAscend new }
    ensures closes { (old : NodeState) (n : ℕ) → IsOpen old.sessions n → ViewsAscend old.sessions
        → ViewsAscend (with_session_closed old n).sessions }
    ensures deliveries { (old new : NodeState) (op : Op) (how : Arrival) → Delivers old op how new
        → ViewsAscend old.sessions
        → ViewsAscend new.sessions }
    ensures drains { (old new : NodeState) (count : ℕ) → DrainsHeld old count new
        → ViewsAscend old.sessions
        → ViewsAscend new.sessions }
{}

/// Each session's view dates from an earlier moment of its mailbox's incarnation, whatever happens:
/// messages that it lacks were added after that moment. `grows`: the list of applied operations has
/// grown, in any way.
pub fn views_are_older()
    ensures begins { (start : Counters) → AreOlderViews start [] [] }
    ensures inputs { (old new : NodeState) (n : ℕ) (input : Input) (reply : Reply)
        → 1 ≤ old.start.uid → IsApplied old.applied → ViewsAscend old.sessions
        → AreOlderViews old.start old.applied old.sessions
        → Responds old n input reply new → AreOlderViews new.start new.applied new.sessions }
    ensures opens { (start : Counters) (ops : List Op) (old new : Places) (auth : Auth) (n : ℕ)
        → OpensSession old auth n new
        → AreOlderViews start ops old
        → AreOlderViews start ops new }
    ensures closes { (start : Counters) (ops : List Op) (old : NodeState) (n : ℕ)
        → IsOpen old.sessions n
        → AreOlderViews start ops old.sessions
        → AreOlderViews start ops (with_session_closed old n).sessions }
    ensures grows { (old new : NodeState) → new.start ≡ old.start
        → new.sessions ≡ old.sessions
        → HasGrown old.applied new.applied → IsApplied new.applied
        → AreOlderViews old.start old.applied old.sessions
        → AreOlderViews new.start new.applied new.sessions }
    ensures deliveries { (old new : NodeState) (op : Op) (how : Arrival) → IsApplied new.applied
        → Delivers old op how new
        → AreOlderViews old.start old.applied old.sessions
        → AreOlderViews new.start new.applied new.sessions }
    ensures drains { (old new : NodeState) (count : ℕ) → IsApplied new.applied
        → DrainsHeld old count new
        → AreOlderViews old.start old.applied old.sessions
        → AreOlderViews new.start new.applied new.sessions }
{}

/// After a full sync, and after a SELECT or an EXAMINE, a session's view is exactly its mailbox's
/// listing, flags included, and empty if its mailbox's incarnation has ended.
pub fn full_syncs_show_listing()
    ensures { (old new : NodeState) (n : ℕ) (input : Input) (answers : List Answer)
        (silent : List SilentFlags) (issued : List Op) (view : ViewState) → 1 ≤ old.start.uid
        → IsApplied old.applied
        → ViewsAscend old.sessions
        → AreOlderViews old.start old.applied old.sessions
        → Responds old n input (Done answers silent issued) new → updates_view input ≡ true
        → view_at new.sessions n ≡ Some view
        → view.entries ≡ entries_of (rows_for new.start new.applied view) }
{}

/// No operation that a node has applied exhausted a counter: neither one that it issued, nor
/// one that a delivery or a drain released.
pub fn counters_last()
    ensures begins { (start : Counters) → IsLasting start [] }
    ensures inputs { (old new : NodeState) (n : ℕ) (input : Input) (reply : Reply)
        → IsLasting old.start old.applied
        → Responds old n input reply new
        → IsLasting new.start new.applied }
    ensures deliveries { (old new : NodeState) (op : Op) (how : Arrival) → IsApplied new.applied
        → IsLasting old.start old.applied → Delivers old op how new
        → IsLasting new.start new.applied }
    ensures drains { (old new : NodeState) (count : ℕ) → IsApplied new.applied
        → IsLasting old.start old.applied → DrainsHeld old count new
        → IsLasting new.start new.applied }
{}

//! What each session must still be sent of its mailbox.

ghost use Rattle.std.specs.Prelude.{◌≡◌, ℕ, false, List, [], Option, Some, None, slice_index_or};
ghost use Rattle.std.specs.Option.{option_map};
ghost use Rattle.crdt_ops.specs.declared.op.Op.{Op};
ghost use Rattle.idle_feed.specs.Feeds.{missed_pending};
ghost use Rattle.imap_commands.specs.declared.session.Session.{Session};
ghost use Rattle.imap_node.specs.SessionFeeds.{AreAllNoted, IsFeedAfterNotes, AreChangeNotes};
ghost use Rattle.imap_node.specs.SessionFeeds.{IsNotedFor, pending_at};
ghost use Rattle.imap_node.specs.SessionChanges.{CanChangeView, CanChangeState, ChangeLeaves};
ghost use Rattle.imap_node.specs.SessionChanges.{LeavesNoted, changed_session, changed_state};
ghost use Rattle.imap_node.specs.SessionChanges.{state_with};
ghost use Rattle.imap_node.specs.Replays.{view_of};
ghost use Rattle.imap_node.specs.Sessions.{IsOpen, session_at, with_changed};
ghost use Rattle.session_view.specs.ViewState.{ViewState};
ghost use Rattle.uid_projection.specs.declared.first_numbers.Counters.{Counters};

use crate::change_notes::ChangeNotes;
use crate::session_change::{SessionChange, StateChange};
use crate::sessions::{SessionNo, Sessions};
use idle_feed::{Feed, TakenNotes, ViewChange, commit, note_all};
use imap_commands::{Session, State};
use std::alloc::Global;
use std::marker::Model;

/// The feed of each session, by its number. A session without a feed is synced by comparing its
/// whole view with the listing.
pub struct Feeds {
    feeds: Vec<Feed>,
    /// Serves as the feed of each session that has none.
    lacking: Feed,
}

// By hand, so that crates above drop it whole.
impl Drop for Feeds {
    fn drop(self) {
        let Self {
            feeds: _,
            lacking: _,
        } = self;
    }
}

impl Model for Feeds {
    ghost use Rattle.std.specs.Prelude.{◌≡◌, List};
    ghost use Rattle.idle_feed.specs.Feeds.{FeedState, missed_pending};

    ghost Value = { List FeedState };

    ghost view = { λ f. f.feeds.items };

    ghost invariant = { λ f. f.lacking.pending ≡ missed_pending };
}

impl Feeds {
    /// No feeds.
    pub fn new(alloc: Global) -> Feeds
        ensures { result ≡ [] }
    {
        Feeds {
            feeds: Vec::new(alloc),
            lacking: missed_feed(alloc),
        }
    }

    /// The feed of the session. If it has none, a feed that missed everything.
    pub fn feed_of(&self, session: SessionNo) -> &Feed
        ensures { result.now.pending ≡ pending_at self.now session }
    {
        match self.feeds.get(session.get() - 1) {
            Some(feed) => feed,
            None => &self.lacking,
        }
    }

    /// Adds a feed for each session up to this one, as far as memory allows. What sessions must
    /// still be sent doesn't change.
    pub fn open(&mut self, session: SessionNo)
        ensures { (n : ℕ) → pending_at self.new n ≡ pending_at self.old n }
    {
        open_in(&mut self.feeds, session);
    }

    /// Reserves room in feeds for these change notes, as far as memory allows. What sessions must
    /// still be sent doesn't change.
    pub fn ready(&mut self, sessions: &Sessions, change_notes: &ChangeNotes)
        ensures { (n : ℕ) → pending_at self.new n ≡ pending_at self.old n }
    {
        if !change_notes.is_empty() {
            ready_in(&sessions.places, change_notes, &mut self.feeds);
        }
    }

    /// Adds change notes to the feeds of the sessions whose mailboxes they name. Takes no memory; a
    /// feed that lacks room for its notes misses them.
    pub fn note(&mut self, sessions: &Sessions, change_notes: &ChangeNotes)
        ensures { (start : Counters) (before after : List Op)
            → AreChangeNotes start before after change_notes.now
            → AreAllNoted start before sessions.now self.old
            → AreAllNoted start after sessions.now self.new }
    {
        if !change_notes.is_empty() {
            note_in(&sessions.places, change_notes, &mut self.feeds);
        }
    }

    /// Drops all feeds, so that each session's next sync compares its whole view.
    pub fn miss_all(&mut self)
        ensures { (start : Counters) (ops : List Op) (sessions : List (Option Session))
            → AreAllNoted start ops sessions self.new }
    {
        self.feeds.clear();
    }

    /// Applies a change to an open session, and leaves in its feed what must still be sent after
    /// it. Takes no memory.
    pub fn advance(&mut self, sessions: &mut Sessions, session: SessionNo, update: SessionChange)
        requires opened { IsOpen sessions.old session }
        requires can { (s : Session)
            → session_at sessions.old session ≡ Some s
            → CanChangeState s.state update.state_change }
        ensures sessions { sessions.new
            ≡ with_changed sessions.old session (λ s. changed_session s update) }
        ensures noted { (start : Counters) (ops : List Op)
            → ((s : Session) → session_at sessions.old session ≡ Some s
            → LeavesNoted start ops s.state update.state_change)
            → AreAllNoted start ops sessions.old self.old
            → AreAllNoted start ops sessions.new self.new }
    {
        advance_in(&mut sessions.places, &mut self.feeds, session, update);
    }
}

/// Whether a session in this state may have unsent changes: notes in its feed, or missed ones.
pub fn may_have_notes(state: &State, feed: &Feed) -> bool
    ensures missed { result ≡ false → (view : ViewState)
        → view_of state.now ≡ Some view
        → feed.now.pending.missed ≡ false }
    ensures none { result ≡ false → (view : ViewState)
        → view_of state.now ≡ Some view
        → feed.now.pending.notes ≡ [] }
{
    match state {
        State::Selected { .. } => match feed.notes() {
            Some(notes) => !notes.is_empty(),
            None => true,
        },
        _ => false,
    }
}

/// A feed that missed everything.
fn missed_feed(alloc: Global) -> Feed
    ensures { result.pending ≡ missed_pending }
{
    let mut feed = Feed::new(alloc);
    feed.restore(TakenNotes::Resync);
    feed
}

fn open_in(feeds: &mut Vec<Feed>, session: SessionNo)
    ensures { (n : ℕ) → pending_at feeds.new.items n ≡ pending_at feeds.old.items n }
{
    for _place in feeds.len()..session.get() {
        push_missed_feed(feeds);
    }
}

/// Appends a feed that missed everything, if there is memory.
fn push_missed_feed(feeds: &mut Vec<Feed>)
    ensures { (n : ℕ) → pending_at feeds.new.items n ≡ pending_at feeds.old.items n }
{
    let feed = missed_feed(*feeds.allocator());
    match feeds.push(feed) {
        Ok(()) => {}
        Err(_) => {}
    }
}

fn ready_in(places: &[Option<Session>], change_notes: &ChangeNotes, feeds: &mut Vec<Feed>)
    ensures { (n : ℕ) → pending_at feeds.new.items n ≡ pending_at feeds.old.items n }
{
    for place in 0..feeds.len() {
        if place < places.len() {
            ready_at(&places[place], change_notes, &mut feeds[place]);
        }
    }
}

/// Reserves room in a session's feed for the change notes of its mailbox.
fn ready_at(place: &Option<Session>, change_notes: &ChangeNotes, feed: &mut Feed)
    ensures { feed.new.pending ≡ feed.old.pending }
{
    if let Some(session) = place {
        if let State::Selected { view, .. } = &session.state {
            let notes = change_notes.notes_of(view.name());
            match feed.ready(notes.len()) {
                Ok(()) => {}
                Err(_) => {}
            }
        }
    }
}

fn note_in(places: &[Option<Session>], change_notes: &ChangeNotes, feeds: &mut Vec<Feed>)
    ensures { (start : Counters) (before after : List Op)
        → AreChangeNotes start before after change_notes.now
        → AreAllNoted start before places.now feeds.old.items
        → AreAllNoted start after places.now feeds.new.items }
{
    for place in 0..feeds.len() {
        note_at(places, place, change_notes, &mut feeds[place]);
    }
}

/// Adds the change notes of its mailbox to the feed of the session at this place, if there is one.
fn note_at(places: &[Option<Session>], place: usize, change_notes: &ChangeNotes, feed: &mut Feed)
    ensures { IsFeedAfterNotes change_notes.now (slice_index_or places.now place None)
        feed.old.pending feed.new.pending }
{
    if let Some(place) = places.get(place) {
        note_one(place, change_notes, feed);
    }
}

/// Adds the change notes of its mailbox to the feed of this session, if there is one.
fn note_one(place: &Option<Session>, change_notes: &ChangeNotes, feed: &mut Feed)
    ensures { IsFeedAfterNotes change_notes.now place.now feed.old.pending feed.new.pending }
{
    if let Some(session) = place {
        if let State::Selected { view, .. } = &session.state {
            note_all(feed, change_notes.notes_of(view.name()));
        }
    }
}

fn advance_in(
    places: &mut Vec<Option<Session>>,
    feeds: &mut Vec<Feed>,
    session: SessionNo,
    update: SessionChange,
)
    requires opened { IsOpen places.old.items session }
    requires can { (s : Session)
        → session_at places.old.items session ≡ Some s
        → CanChangeState s.state update.state_change }
    ensures sessions { places.new.items
        ≡ with_changed places.old.items session (λ s. changed_session s update) }
    ensures noted { (start : Counters) (ops : List Op)
        → ((s : Session) → session_at places.old.items session ≡ Some s
        → LeavesNoted start ops s.state update.state_change)
        → AreAllNoted start ops places.old.items feeds.old.items
        → AreAllNoted start ops places.new.items feeds.new.items }
{
    let place = session.get() - 1;
    if place >= places.len() {
        unreachable!()
    }
    if place < feeds.len() {
        advance_at(&mut places[place], &mut feeds[place], update);
    } else {
        let mut none = missed_feed(*feeds.allocator());
        advance_at(&mut places[place], &mut none, update);
    }
}

/// Applies a change to this session and its feed.
fn advance_at(place: &mut Option<Session>, feed: &mut Feed, update: SessionChange)
    requires { (s : Session) → place.old ≡ Some s → CanChangeState s.state update.state_change }
    ensures place { place.new ≡ option_map (λ s. changed_session s update) place.old }
    ensures noted { (start : Counters) (ops : List Op) (s : Session) → place.old ≡ Some s
        → LeavesNoted start ops s.state update.state_change
        → ((view : ViewState) → view_of s.state ≡ Some view
        → IsNotedFor start ops feed.old.pending view) → (view : ViewState)
        → view_of (changed_state s.state update.state_change) ≡ Some view
        → IsNotedFor start ops feed.new.pending view }
{
    match place {
        Some(session) => {
            let SessionChange {
                state_change,
                condstore,
                idling,
            } = update;
            advance_state(&mut session.state, feed, state_change);
            session.condstore = condstore;
            session.idling = idling;
        }
        None => drop(update),
    }
}

/// Applies a change to a state, and leaves in the feed what must still be sent after it.
fn advance_state(state: &mut State, feed: &mut Feed, state_change: StateChange)
    requires { CanChangeState state.old state_change }
    ensures state { state.new ≡ changed_state state.old state_change }
    ensures noted { (start : Counters) (ops : List Op)
        → LeavesNoted start ops state.old state_change
        → ((view : ViewState) → view_of state.old ≡ Some view
        → IsNotedFor start ops feed.old.pending view) → (view : ViewState)
        → view_of state.new ≡ Some view
        → IsNotedFor start ops feed.new.pending view }
{
    match state_change {
        StateChange::Moves {
            state: next,
            shows_all,
        } => {
            *state = next;
            feed.clear();
            if !shows_all {
                feed.restore(TakenNotes::Resync);
            }
        }
        StateChange::Stays { change } => change_in(state, feed, change),
    }
}

/// Applies a change to the view of the selected mailbox, if one is selected.
fn change_in(state: &mut State, feed: &mut Feed, change: Option<ViewChange>)
    requires { CanChangeView state.old change }
    ensures state { state.new ≡ state_with state.old change }
    ensures noted { (start : Counters) (ops : List Op)
        → ChangeLeaves start ops state.old change
        → ((view : ViewState) → view_of state.old ≡ Some view
        → IsNotedFor start ops feed.old.pending view) → (view : ViewState)
        → view_of state.new ≡ Some view
        → IsNotedFor start ops feed.new.pending view }
{
    let Some(change) = change else {
        return;
    };
    match state {
        State::Selected { view, .. } => commit(view, feed, change),
        _ => drop(change),
    }
}

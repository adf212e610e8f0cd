//! The sessions of a replica, by their numbers.

ghost use Rattle.std.specs.Prelude.{◌≡◌, ◌≢◌, ◌+◌, ◌-◌, ◌<◌, ◌≤◌, ◌↔◌, ◌++◌, ◌∷◌, [], ℕ, IsTrue};
ghost use Rattle.std.specs.Prelude.{IsNone, IsSome, None, Some, Err, IfOk, IfErr, OnOk, OnErr};
ghost use Rattle.std.specs.Prelude.{SomeIff, length, max, ◌==◌, if◌then◌else◌, slice_index_or};
ghost use Rattle.std.specs.Prelude.{slice_set};
ghost use Rattle.std.specs.Option.{option_copied, option_map};
ghost use Rattle.imap_node.specs.Sessions.{IsOpen, without_idle, new_session, session_at};
ghost use Rattle.imap_node.specs.Sessions.{unselected, with_changed};
ghost use Rattle.imap_node.specs.declared.sessions.OpenFault.TheVariants.{NoMemory};
ghost use Rattle.imap_node.specs.declared.sessions.OpenFault.TheVariants.{TooManySessions};

use imap_commands::{Credentials, Session, State};
use std::alloc::Global;
use std::marker::Model;
use thiserror::Error;

/// The most sessions that a replica has open at once.
pub const MAX_SESSIONS: usize = 1_024;

/// A session's number at its replica, from 1 to 1,024.
#[derive(Clone, Copy, Debug, PartialEq, Eq, PartialOrd, Ord)]
pub struct SessionNo {
    number: u16,
}

impl Model for SessionNo {
    ghost use Rattle.std.specs.Prelude.{ℕ, ◌<◌, ◌≤◌};

    ghost Value = { ℕ };

    ghost view = { λ s. s.number };

    ghost invariant = { λ s. (0 < s.number) × (s.number ≤ 1024) };

    ghost inverse = { λ n. record { number = n } };
}

impl SessionNo {
    /// The session number `number`; `None` outside 1 to 1,024.
    pub fn new(number: usize) -> Option<SessionNo>
        ensures { SomeIff result ((0 < number) × (number ≤ MAX_SESSIONS)) number }
    {
        if number == 0 || number > MAX_SESSIONS {
            None
        } else {
            Some(SessionNo {
                number: number as u16,
            })
        }
    }

    /// The number, from 1 to 1,024.
    pub fn get(self) -> usize
        ensures number { result ≡ self }
        ensures positive { 0 < result }
        ensures bound { result ≤ MAX_SESSIONS }
    {
        usize::from(self.number)
    }
}

/// How a session's user becomes known.
#[derive(Drop)]
pub enum Auth {
    /// The user is known before the session begins (RFC 9051, section 7.1.4, PREAUTH).
    Preauth,
    /// The user must log in.
    Password {
        /// The user and the password that LOGIN must give.
        credentials: Credentials,
    },
}

/// Why a session can't be opened. The replica stays as it was.
#[derive(Clone, Copy, Debug, PartialEq, Eq, Error)]
pub enum OpenFault {
    /// 1,024 sessions are open.
    #[error("too many sessions")]
    TooManySessions,
    /// Memory ran out for another session.
    #[error("no memory")]
    NoMemory,
}

/// The sessions of a replica by their numbers.
pub struct Sessions {
    pub(crate) places: Vec<Option<Session>>,
}

// By hand, so that crates above drop it whole.
impl Drop for Sessions {
    fn drop(self) {
        let Self { places: _ } = self;
    }
}

impl Model for Sessions {
    ghost use Rattle.std.specs.Prelude.{◌≤◌, length};
    ghost use Rattle.imap_node.specs.Sessions.{Places};

    ghost Value = { Places };

    ghost view = { λ s. s.places.items };

    ghost invariant = { λ s. length s.places.items ≤ 1024 };
}

impl Sessions {
    ghost use Rattle.imap_node.specs.Sessions.{OpensSession, with_session};

    /// No sessions.
    pub fn new(alloc: Global) -> Sessions
        ensures { result ≡ [] }
    {
        Sessions {
            places: Vec::new(alloc),
        }
    }

    /// The session with this number; `None` if it isn't open.
    pub fn get(&self, session: SessionNo) -> Option<&Session>
        ensures { option_copied result ≡ session_at self.now session }
    {
        session_in(&self.places, session)
    }

    /// A number above which no session is open.
    pub fn last(&self) -> usize
        ensures bound { result ≤ 1024 }
        ensures none { (n : ℕ) → result < n → session_at self.now n ≡ None }
    {
        self.places.len()
    }

    /// Opens the session with the least number that isn't open. An error leaves the sessions as
    /// they were.
    pub fn open(&mut self, auth: Auth) -> Result<SessionNo, OpenFault>
        ensures ok { IfOk result (λ session. OpensSession self.old auth session self.new) }
        ensures full { result ≡ Err TooManySessions → (n : ℕ) → 0 < n → n ≤ 1024
            → IsOpen self.old n }
        ensures room { ((n : ℕ) × (0 < n) × (n ≤ 1024) × IsNone (session_at self.old n))
            → result ≢ Err TooManySessions }
        ensures err { OnErr result (self.new ≡ self.old) }
    {
        let vacant = vacant_place(&self.places);
        if vacant >= MAX_SESSIONS {
            return Err(OpenFault::TooManySessions);
        }
        open_in(&mut self.places, vacant, new_session(auth))
    }

    /// Replaces an open session; `None` closes it.
    pub fn set(&mut self, session: SessionNo, place: Option<Session>)
        requires { IsOpen self.old session }
        ensures { self.new ≡ with_session self.old session place }
    {
        set_in(&mut self.places, session, place);
    }

    /// Leaves the mailbox that an open session has selected.
    pub fn leave(&mut self, session: SessionNo)
        requires { IsOpen self.old session }
        ensures { self.new ≡ with_changed self.old session unselected }
    {
        leave_in(&mut self.places, session);
    }

    /// Ends the IDLE of an open session.
    pub fn wake(&mut self, session: SessionNo)
        requires { IsOpen self.old session }
        ensures { self.new ≡ with_changed self.old session without_idle }
    {
        wake_in(&mut self.places, session);
    }
}

/// A new session.
fn new_session(auth: Auth) -> Session
    ensures { result ≡ new_session auth }
{
    let state = match auth {
        Auth::Preauth => State::Authenticated,
        Auth::Password { credentials } => State::NotAuthenticated { credentials },
    };
    Session {
        state,
        condstore: false,
        idling: None,
    }
}

fn leave_in(places: &mut Vec<Option<Session>>, session: SessionNo)
    requires { IsOpen places.old.items session }
    ensures { places.new.items ≡ with_changed places.old.items session unselected }
{
    let place = session.get() - 1;
    if place < places.len() {
        unselect(&mut places[place]);
    }
}

/// Leaves the session without a selected mailbox; nothing else in it changes.
fn unselect(place: &mut Option<Session>)
    ensures { place.new ≡ option_map unselected place.old }
{
    if let Some(session) = place {
        session.state = State::Authenticated;
    }
}

fn wake_in(places: &mut Vec<Option<Session>>, session: SessionNo)
    requires { IsOpen places.old.items session }
    ensures { places.new.items ≡ with_changed places.old.items session without_idle }
{
    let place = session.get() - 1;
    if place < places.len() {
        wake(&mut places[place]);
    }
}

/// Ends the session's IDLE; nothing else in it changes.
fn wake(place: &mut Option<Session>)
    ensures { place.new ≡ option_map without_idle place.old }
{
    if let Some(session) = place {
        session.idling = None;
    }
}

fn session_in(places: &[Option<Session>], session: SessionNo) -> Option<&Session>
    ensures { option_copied result ≡ session_at places.now session }
{
    match places.get(session.get() - 1) {
        Some(Some(session)) => Some(session),
        _ => None,
    }
}

/// The first vacant place, or the place after the last.
fn vacant_place(places: &[Option<Session>]) -> usize
    ensures within { result ≤ length places.now }
    ensures before { (k : ℕ) → k < result → IsSome (slice_index_or places.now k None) }
    ensures vacant { IsNone (slice_index_or places.now result None) }
{
    for (place, session) in places.iter().enumerate() {
        if session.is_none() {
            return place;
        }
    }
    places.len()
}

/// Opens a session at a vacant place, which may be the place after the last.
fn open_in(
    places: &mut Vec<Option<Session>>,
    vacant: usize,
    opened: Session,
) -> Result<SessionNo, OpenFault>
    requires within { vacant ≤ length places.old.items }
    requires bound { vacant < MAX_SESSIONS }
    ensures number { IfOk result (λ session. session ≡ vacant + 1) }
    ensures ok { OnOk result ((k : ℕ)
        → slice_index_or places.new.items k None
        ≡ (if k == vacant then Some opened else slice_index_or places.old.items k None)) }
    ensures bound { length places.new.items ≤ max (length places.old.items) (vacant + 1) }
    ensures err { IfErr result
        (λ fault. (fault ≡ NoMemory) × (places.new.items ≡ places.old.items)) }
{
    let Some(session) = SessionNo::new(vacant + 1) else {
        unreachable!()
    };
    if vacant < places.len() {
        places[vacant] = Some(opened);
        return Ok(session);
    }
    push_place(places, Some(opened))?;
    Ok(session)
}

/// Appends a place.
fn push_place(places: &mut Vec<Option<Session>>, place: Option<Session>) -> Result<(), OpenFault>
    ensures ok { OnOk result (places.new.items ≡ places.old.items ++ place ∷ []) }
    ensures err { IfErr result
        (λ fault. (fault ≡ NoMemory) × (places.new.items ≡ places.old.items)) }
{
    match places.push(place) {
        Ok(()) => Ok(()),
        Err(_) => Err(OpenFault::NoMemory),
    }
}

fn set_in(places: &mut Vec<Option<Session>>, session: SessionNo, next: Option<Session>)
    requires { IsOpen places.old.items session }
    ensures { places.new.items ≡ slice_set places.old.items (session - 1) next }
{
    let place = session.get() - 1;
    if place < places.len() {
        places[place] = next;
    }
}

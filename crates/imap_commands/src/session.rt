//! A session of a replica and its state (RFC 9051, section 3).

ghost use Rattle.std.specs.Prelude.{◌≡◌, IfOk};

use imap_types::Octets;
use session_view::View;
use std::alloc::{AllocError, Global};

/// The name and password of a user, as in LOGIN (RFC 9051, section 6.2.3).
#[derive(Drop)]
pub struct Credentials {
    /// The user's name.
    pub user: Octets,
    /// The password.
    pub password: Octets,
}

impl Credentials {
    /// A copy; `Err` if memory runs out.
    pub fn copy(&self, alloc: Global) -> Result<Credentials, AllocError>
        ensures { IfOk result (λ copied. copied ≡ self.now) }
    {
        Ok(Credentials {
            user: self.user.copy(alloc)?,
            password: self.password.copy(alloc)?,
        })
    }
}

/// The state of a session (RFC 9051, section 3).
#[derive(Drop)]
pub enum State {
    /// The session needs a LOGIN with these credentials.
    NotAuthenticated {
        /// The credentials that LOGIN must have.
        credentials: Credentials,
    },
    /// Every command is allowed except those that need a selected mailbox.
    Authenticated,
    /// A mailbox is selected.
    Selected {
        /// The session's view of the mailbox.
        view: View,
        /// Whether it was selected by EXAMINE, so that the session can't change it.
        read_only: bool,
    },
    /// A LOGOUT was answered with OK: only CAPABILITY, NOOP and LOGOUT are allowed until the
    /// connection ends.
    LoggedOut,
}

impl State {
    /// A copy; `Err` if memory runs out.
    pub fn copy(&self, alloc: Global) -> Result<State, AllocError>
        ensures { IfOk result (λ copied. copied ≡ self.now) }
    {
        Ok(match self {
            State::NotAuthenticated { credentials } => State::NotAuthenticated {
                credentials: credentials.copy(alloc)?,
            },
            State::Authenticated => State::Authenticated,
            State::LoggedOut => State::LoggedOut,
            State::Selected { view, read_only } => State::Selected {
                view: view.copy(alloc)?,
                read_only: *read_only,
            },
        })
    }
}

/// A session of a replica.
#[derive(Drop)]
pub struct Session {
    /// Its state.
    pub state: State,
    /// Whether mod-sequences are reported (RFC 7162, section 3.1).
    pub condstore: bool,
    /// The tag of the running IDLE, if any (RFC 2177, section 3).
    pub idling: Option<Octets>,
}

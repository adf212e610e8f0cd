//! The change of a session whose input is carried out.

use idle_feed::ViewChange;
use imap_commands::State;
use imap_types::Octets;

/// The change of a session's state.
#[derive(Drop)]
pub enum StateChange {
    /// The new state is `state`. If `shows_all`, its view shows all messages that its mailbox has.
    Moves { state: State, shows_all: bool },
    /// The state stays, except for this change of its view if a mailbox is selected.
    Stays { change: Option<ViewChange> },
}

/// The change of a session whose input is carried out.
#[derive(Drop)]
pub struct SessionChange {
    /// The change of its state.
    pub state_change: StateChange,
    /// Whether mod-sequences are on afterwards.
    pub condstore: bool,
    /// The tag of the IDLE that it is in afterwards, if it idles.
    pub idling: Option<Octets>,
}

//! What a book knows of its whole history.

ghost use Rattle.std.specs.Prelude.{◌≡◌, ◌<◌};
ghost use Rattle.replica_lock.specs.Histories.{is_opening, may_affect_sessions, summary_after};

use crate::outcome::Outcome;
use imap_node::Reply;

/// What a book knows of its whole history, forgotten entries included.
#[derive(Clone, Copy, Debug, PartialEq, Eq)]
pub struct HistorySummary {
    /// The place of the last entry after which another session may have to be sent something, or a
    /// later place; 0 if there is no such entry.
    pub last_visible: u64,
    /// The number of sessions that were opened.
    pub sessions: u64,
    /// The number of commands, refused ones and those passed over included.
    pub commands: u64,
}

impl HistorySummary {
    /// The summary of a history without entries.
    pub(crate) fn new() -> HistorySummary
        ensures last_visible { result.last_visible ≡ 0 }
        ensures sessions { result.sessions ≡ 0 }
        ensures commands { result.commands ≡ 0 }
    {
        HistorySummary {
            last_visible: 0,
            sessions: 0,
            commands: 0,
        }
    }

    /// The summary after one further entry, at place `count`, with this outcome. `command` says
    /// whether its event is a command.
    pub(crate) fn after_entry(self, count: u64, command: bool, outcome: &Outcome) -> HistorySummary
        requires sessions { self.sessions < count }
        requires commands { self.commands < count }
        ensures { result ≡ summary_after self count command outcome.now }
    {
        HistorySummary {
            last_visible: if may_affect_sessions(outcome) {
                count
            } else {
                self.last_visible
            },
            sessions: if is_opening(outcome) {
                self.sessions + 1
            } else {
                self.sessions
            },
            commands: if command {
                self.commands + 1
            } else {
                self.commands
            },
        }
    }
}

/// Whether another session may have to be sent something after an event with this outcome.
fn may_affect_sessions(outcome: &Outcome) -> bool
    ensures { result ≡ may_affect_sessions outcome.now }
{
    match outcome {
        Outcome::Replied {
            reply: Reply::Done { issued, .. },
        } => issued.as_slice().first().is_some(),
        Outcome::Delivered { .. } | Outcome::Drained { .. } => true,
        _ => false,
    }
}

/// Whether an event with this outcome opened a session.
fn is_opening(outcome: &Outcome) -> bool
    ensures { result ≡ is_opening outcome.now }
{
    match outcome {
        Outcome::Opened { answer: Ok(_) } => true,
        _ => false,
    }
}

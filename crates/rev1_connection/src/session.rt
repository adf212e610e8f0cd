//! What a conversation remembers of its session.

ghost use Rattle.std.specs.Prelude.{◌≡◌, ◌&&◌, IfOk};
ghost use Rattle.imap_node.specs.Replies.{is_done};
ghost use Rattle.imap_connection.specs.Requests.{is_logout};
ghost use Rattle.rev1_connection.specs.Handling.{awaited_after, awake, session_after};
ghost use Rattle.rev1_front.specs.declared.session.Mode.TheVariants.{Rev1};
ghost use Rattle.imap_syntax.specs.declared.command.Tagged.{Tagged as TaggedCommand};

use imap_commands::is_idle;
use imap_node::Reply;
use imap_syntax::{Command, Tagged};
use rev1_front::{Awaited, Mode, mode_after};
use std::alloc::{AllocError, Global};

/// A session in the eyes of its conversation.
#[derive(Drop)]
pub struct FrontSession {
    /// The version of IMAP that it speaks.
    pub mode: Mode,
    /// What its next frame is.
    pub awaited: Awaited,
}

impl FrontSession {
    /// A session that was just greeted.
    pub fn greeted() -> FrontSession
        ensures { result ≡ awake Rev1 }
    {
        FrontSession::awake(Mode::Rev1)
    }

    /// A session in this mode that awaits a command.
    pub fn awake(mode: Mode) -> FrontSession
        ensures { result ≡ awake mode }
    {
        FrontSession {
            mode,
            awaited: Awaited::Command,
        }
    }
}

/// What a session awaits after a command that was carried out. `Err` if memory runs out.
pub fn awaited_after(alloc: Global, tagged: &Tagged) -> Result<Awaited, AllocError>
    ensures { IfOk result (λ awaited. awaited ≡ awaited_after tagged.now) }
{
    if !is_idle(&tagged.command) {
        return Ok(Awaited::Command);
    }
    Ok(Awaited::Line {
        tag: tagged.tag.copy(alloc)?,
    })
}

/// The session in this mode after the reply to a command, after which this is awaited.
pub fn session_after(mode: Mode, awaited: Awaited, reply: &Reply) -> FrontSession
    ensures { (tagged : TaggedCommand) → awaited ≡ awaited_after tagged
        → result ≡ session_after mode tagged reply.now }
{
    match reply {
        Reply::Done { answers, .. } => FrontSession {
            mode: mode_after(mode, answers.as_slice()),
            awaited,
        },
        Reply::Refused { .. } => FrontSession::awake(mode),
    }
}

/// Whether a command is LOGOUT.
pub fn is_logout(command: &Command) -> bool
    ensures { result ≡ is_logout command.now }
{
    matches!(command, Command::Logout)
}

/// Whether the session has logged out, after the reply to a command that may be LOGOUT.
pub fn logs_out(is_logout: bool, reply: &Reply) -> bool
    ensures { result ≡ (is_logout && is_done reply.now) }
{
    match reply {
        Reply::Done { .. } => is_logout,
        Reply::Refused { .. } => false,
    }
}

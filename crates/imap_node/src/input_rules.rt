//! What an input means to its session, by the rules of its command.

ghost use Rattle.std.specs.Prelude.{◌≡◌};
ghost use Rattle.imap_node.specs.Responses.{answers_closed, ends_idling};
ghost use Rattle.imap_node.specs.Responses.{condstore_is_on, leaves_mailbox};

use crate::input::Input;
use imap_answers::Refusal;
use imap_commands::{Session, State, is_enabling, is_selected, is_selecting};
use imap_syntax::Command;

/// Whether mod-sequences are on, including for this command.
pub fn is_on(session: &Session, command: &Command) -> bool
    ensures { result ≡ condstore_is_on session.now command.now }
{
    session.condstore || is_enabling(command)
}

/// Whether a refused input leaves the selected mailbox.
pub fn leaves(state: &State, input: &Input) -> bool
    ensures { result ≡ leaves_mailbox state.now input.now }
{
    match input {
        Input::Command { tagged, .. } => is_selected(state) && is_selecting(&tagged.command),
        _ => false,
    }
}

/// Whether the answer to a refused input says that a mailbox was left: not if memory ran out.
pub fn closes(state: &State, input: &Input, why: Refusal) -> bool
    ensures { result ≡ answers_closed state.now input.now why }
{
    if why == Refusal::NoMemory {
        return false;
    }
    leaves(state, input)
}

/// Whether a refused input ends an IDLE: any line does, unless memory ran out.
pub fn ends_idling(input: &Input, why: Refusal) -> bool
    ensures { result ≡ ends_idling input.now why }
{
    match input {
        Input::Line { .. } => why != Refusal::NoMemory,
        _ => false,
    }
}

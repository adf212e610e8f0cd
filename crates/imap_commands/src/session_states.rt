//! The states of a session in which commands are valid (RFC 9051, section 3).

ghost use Rattle.std.specs.Prelude.{◌≡◌, Ok, [], IfOk};
ghost use Rattle.imap_commands.specs.MemoryFaults.{EqualsOrLacksMemory};
ghost use Rattle.imap_commands.specs.NamedMessages.{no_messages_named};
ghost use Rattle.imap_commands.specs.SessionStates.{if_logged_in, if_selected, is_logged_in};
ghost use Rattle.imap_commands.specs.SessionStates.{is_selected};

use crate::intent::Intent;
use crate::session::State;
use imap_answers::Refusal;
use std::alloc::Global;

/// Whether a mailbox is selected.
pub fn is_selected(state: &State) -> bool
    ensures { result ≡ is_selected state.now }
{
    matches!(state, State::Selected { .. })
}

/// Whether the session's user is known and has not logged out.
pub(crate) fn is_logged_in(state: &State) -> bool
    ensures { result ≡ is_logged_in state.now }
{
    matches!(state, State::Authenticated | State::Selected { .. })
}

/// Nothing is issued, if the session's user is known.
pub(crate) fn nothing_if_logged_in(alloc: Global, state: &State) -> Result<Intent, Refusal>
    ensures gives { EqualsOrLacksMemory (λ intent. intent.kinds.items) result
        (if_logged_in state.now (Ok [])) }
    ensures named { IfOk result (λ intent. intent.named ≡ no_messages_named) }
{
    if !is_logged_in(state) {
        return Err(Refusal::NotNow);
    }
    Ok(Intent::nothing(alloc))
}

/// Nothing is issued, if a mailbox is selected.
pub(crate) fn nothing_if_selected(alloc: Global, state: &State) -> Result<Intent, Refusal>
    ensures gives { EqualsOrLacksMemory (λ intent. intent.kinds.items) result
        (if_selected state.now (λ view read_only. Ok [])) }
    ensures named { IfOk result (λ intent. intent.named ≡ no_messages_named) }
{
    match state {
        State::Selected { .. } => Ok(Intent::nothing(alloc)),
        _ => Err(Refusal::NotNow),
    }
}

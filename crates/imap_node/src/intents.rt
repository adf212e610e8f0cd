//! What each input issues.

ghost use Rattle.std.specs.Prelude.{◌≡◌, IfOk};
ghost use Rattle.imap_commands.specs.MemoryFaults.{EqualsOrLacksMemory};
ghost use Rattle.imap_node.specs.Responses.{messages_named_by_input, input_intent};

use crate::input::Input;
use crate::replica::ReplicaState;
use crate::replica_after::ReplicaAfter;
use imap_answers::Refusal;
use imap_commands::{Intent, State, command_intent};
use imap_syntax::IdleLine;
use imap_types::DateTime;
use std::alloc::Global;

/// What an input issues, with the messages that it names, or the first reason to refuse it. `stamp`
/// is the date-time of its moment.
pub fn input_intent(
    alloc: Global,
    replica: &ReplicaState,
    stamp: &DateTime,
    state: &State,
    input: &Input,
) -> Result<Intent, Refusal>
    ensures gives { EqualsOrLacksMemory (λ intended. intended.kinds.items) result
        (input_intent replica.now.start replica.now.applied stamp.now state.now input.now) }
    ensures named { IfOk result (λ intended. intended.named
        ≡ messages_named_by_input replica.now.start replica.now.applied state.now input.now) }
{
    match input {
        Input::Command { tagged, .. } => {
            let replica = ReplicaAfter { replica, ops: &[] };
            command_intent(alloc, &replica, stamp, state, &tagged.command)
        }
        Input::Line {
            line: IdleLine::Done,
        } => Ok(Intent::nothing(alloc)),
        Input::Line {
            line: IdleLine::Other,
        } => Err(Refusal::DoneExpected),
        Input::Poll => Ok(Intent::nothing(alloc)),
    }
}

//! The messages of a payload.

ghost use Rattle.std.specs.Prelude.{◌≡◌, List, MatchResult};
ghost use Rattle.crdt_ops.specs.Form.{Each};
ghost use Rattle.link_wire.specs.declared.line_fault.LineFault.TheVariants.{NoMemory};
ghost use Rattle.link_wire.specs.declared.wire_message.WireMessage.{WireMessage};
ghost use Rattle.link_wire.specs.MessageForm.{AreSpelled, IsLawful, IsPayloadFault};

use crate::line_fault::LineFault;
use crate::line_reader::read_message;
use crate::wire_message::WireMessage;
use std::alloc::Global;
use text_fields::split;

/// The messages that the lines of a payload spell, if each does and may be acted on; else the fault
/// of the first line that doesn't, or `NotInForm` if the last line has no end. Memory may run out
/// for any of them.
pub fn read_payload(alloc: Global, payload: &[u8]) -> Result<Vec<WireMessage>, LineFault>
    ensures lines { MatchResult result
        (λ messages. AreSpelled messages.items payload.now × Each IsLawful messages.items)
        (λ fault. IsPayloadFault fault payload.now) }
    ensures only { (messages : List WireMessage) → AreSpelled messages payload.now
        → Each IsLawful messages
        → MatchResult result (λ read. read.items ≡ messages) (λ fault. fault ≡ NoMemory) }
{
    read_lines(alloc, payload)
}

fn read_lines(alloc: Global, payload: &[u8]) -> Result<Vec<WireMessage>, LineFault>
    ensures { MatchResult result
        (λ messages. AreSpelled messages.items payload.now × Each IsLawful messages.items)
        (λ fault. IsPayloadFault fault payload.now) }
{
    let mut messages = Vec::new(alloc);
    let mut rest = payload;
    while let Some((line, after)) = split(b'\n', rest) {
        messages.push(read_message(alloc, line)?)?;
        rest = after;
    }
    if !rest.is_empty() {
        return Err(LineFault::NotInForm);
    }
    Ok(messages)
}

//! The forms of the lines that a script can print.

ghost use Rattle.std.specs.Prelude.{◌≡◌, ◌++◌, ◌==◌, IfOk, IsTrue, MatchOption, not, true};
ghost use Rattle.std.specs.List.{list_all};
ghost use Rattle.crdt_ops.specs.Form.{IsSpelled};
ghost use Rattle.crdt_ops.specs.declared.op.Op.{Op};
ghost use Rattle.mail_audit.specs.DumpLines.{IsDumpLine};
ghost use Rattle.mail_audit.specs.Forms.{AreIdsText, AreAppendFields, AreMessageFields};
ghost use Rattle.mail_audit.specs.Forms.{AreTagFields, IsOtherLine, IsSpokenLine, IsStateLine};

use crate::lines::{read_spoken, replica_of_dump};
use crate::results::is_result;
use crdt_ops::{Op, OpFault, read_op};
use std::alloc::{AllocError, Global};
use text_fields::split;

/// The kinds of line that a dump can contain.
#[derive(Drop)]
pub enum DumpLine {
    /// An op line.
    Op(Op),
    /// Another line that a script may print.
    Other,
    /// A line that no script prints.
    Unreadable,
}

/// The kind of a line in a dump; `Err` if memory runs out.
pub fn dump_line(alloc: Global, line: &[u8]) -> Result<DumpLine, AllocError>
    ensures { IfOk result (IsDumpLine line.now) }
{
    if let Some(text) = line.strip_prefix(b"op ".as_slice()) {
        if let Some(op) = operation(alloc, text)? {
            return Ok(DumpLine::Op(op));
        }
    }
    if is_other(alloc, line)? {
        Ok(DumpLine::Other)
    } else {
        Ok(DumpLine::Unreadable)
    }
}

/// The operation that a text spells, if any; `Err` if memory runs out.
fn operation(alloc: Global, text: &[u8]) -> Result<Option<Op>, AllocError>
    ensures { IfOk result (λ read. MatchOption read ((op : Op) → IsSpelled op text.now → ⊥)
        (λ op. IsSpelled op text.now)) }
{
    match read_op(alloc, text) {
        Ok(op) => Ok(Some(op)),
        Err(OpFault::NotInForm) => Ok(None),
        Err(OpFault::NoMemory) => Err(AllocError),
    }
}

/// Whether a script may print this line, op lines aside; `Err` if memory runs out.
pub fn is_other(alloc: Global, line: &[u8]) -> Result<bool, AllocError>
    ensures { IfOk result (λ prints. IsTrue prints → IsOtherLine line.now) }
{
    if line == b"end".as_slice() || replica_of_dump(line).is_some() {
        return Ok(true);
    }
    if is_state_line(alloc, line)? {
        return Ok(true);
    }
    if is_spoken(alloc, line)? {
        return Ok(true);
    }
    is_result(alloc, line)
}

/// Whether the line belongs to a transcript.
fn is_spoken(alloc: Global, line: &[u8]) -> Result<bool, AllocError>
    ensures { IfOk result (λ spoken. IsTrue spoken → IsSpokenLine line.now) }
{
    match read_spoken(alloc, line)? {
        Some(spoken) => {
            drop(spoken);
            Ok(true)
        }
        None => Ok(false),
    }
}

/// Whether the line has the form of a folder's, a message's or a subscription's line.
fn is_state_line(alloc: Global, line: &[u8]) -> Result<bool, AllocError>
    ensures { IfOk result (λ has. IsTrue has → IsStateLine line.now) }
{
    let Some((word, fields)) = split(b' ', line) else {
        return Ok(false);
    };
    if word == b"folder".as_slice() {
        return are_delete_fields(alloc, fields);
    }
    if word == b"subscribed".as_slice() {
        return are_unsubscribe_fields(alloc, fields);
    }
    if word == b"message".as_slice() {
        return are_message_fields(alloc, fields);
    }
    Ok(false)
}

/// Whether the fields are a name and ids, as a Delete has them.
fn are_delete_fields(alloc: Global, fields: &[u8]) -> Result<bool, AllocError>
    ensures { IfOk result (λ are. IsTrue are → AreTagFields fields.now) }
{
    is_spelled(alloc, b"1:1 - delete ", fields)
}

/// Whether the fields are a name and ids, as an Unsubscribe has them.
fn are_unsubscribe_fields(alloc: Global, fields: &[u8]) -> Result<bool, AllocError>
    ensures { IfOk result (λ are. IsTrue are → AreTagFields fields.now) }
{
    is_spelled(alloc, b"1:1 - unsubscribe ", fields)
}

/// Whether the fields are those of a message's line: its origin, its versions, and its flags, date
/// and text.
fn are_message_fields(alloc: Global, fields: &[u8]) -> Result<bool, AllocError>
    ensures { IfOk result (λ are. IsTrue are → AreMessageFields fields.now) }
{
    let Some((origin, after)) = split(b' ', fields) else {
        return Ok(false);
    };
    let Some((versions, rest)) = split(b' ', after) else {
        return Ok(false);
    };
    if !are_ids(alloc, versions)? {
        return Ok(false);
    }
    are_append_fields(alloc, origin, rest)
}

/// Whether the text lists ids as a Delete does.
fn are_ids(alloc: Global, text: &[u8]) -> Result<bool, AllocError>
    ensures { IfOk result (λ are. IsTrue are → AreIdsText text.now) }
{
    is_spelled(alloc, b"1:1 - delete a ", text)
}

/// Whether these are an id, and the flags, date and text that an Append with this id has after its
/// folder.
fn are_append_fields(alloc: Global, id: &[u8], rest: &[u8]) -> Result<bool, AllocError>
    requires { list_all (λ octet. not (octet == 32)) id.now ≡ true }
    ensures { IfOk result (λ are. IsTrue are → AreAppendFields id.now rest.now) }
{
    let mut front = id.to_vec(alloc)?;
    front.extend_from_slice(b" - append INBOX ")?;
    is_spelled(alloc, &front, rest)
}

/// Whether two texts, one after the other, spell an operation.
fn is_spelled(alloc: Global, front: &[u8], fields: &[u8]) -> Result<bool, AllocError>
    ensures { IfOk result
        (λ spelled. IsTrue spelled → (op : Op) × IsSpelled op (front.now ++ fields.now)) }
{
    let mut text = front.to_vec(alloc)?;
    text.extend_from_slice(fields)?;
    match read_op(alloc, &text) {
        Ok(op) => {
            drop(op);
            Ok(true)
        }
        Err(OpFault::NotInForm) => Ok(false),
        Err(OpFault::NoMemory) => Err(AllocError),
    }
}

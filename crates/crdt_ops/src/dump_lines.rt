//! The lines of a dump: folders, subscriptions and messages.

ghost use Rattle.std.specs.Prelude.{◌≡◌, ◌++◌, ◌∷◌, [], OnOk};
ghost use Rattle.std.specs.List.{flat_map};
ghost use Rattle.crdt_ops.specs.Text.{text_field};
ghost use Rattle.crdt_ops.specs.DumpLines.{message_fields, dated_text_fields, message_line};
ghost use Rattle.crdt_ops.specs.DumpLines.{name_line};

use crate::ids::Ids;
use crate::message::Message;
use crate::write::{write_flags, write_id, write_ids};
use imap_types::{Escape, Name, Text, write_escaped};
use std::alloc::{AllocError, Global};

/// Appends the line of a name: `word` with its space, the name, and these ids. `Err` if memory runs
/// out, and then a part of the line may have been appended.
pub fn push_name_line(
    alloc: Global,
    word: &[u8],
    name: &Name,
    ids: &Ids,
    text: &mut Vec<u8>,
) -> Result<(), AllocError>
    ensures { OnOk result
        (text.new.items ≡ text.old.items ++ name_line word.now name.now ids.now) }
{
    text.extend_from_slice(word)?;
    write_escaped(Escape::Field, name.as_bytes(), text)?;
    text.push(b' ')?;
    write_ids(alloc, ids, text)?;
    text.push(b'\n')?;
    Ok(())
}

/// Appends the lines of messages. `Err` if memory runs out, and then a part of them may have been
/// appended.
pub fn push_messages(
    alloc: Global,
    messages: &[Message],
    text: &mut Vec<u8>,
) -> Result<(), AllocError>
    ensures { OnOk result (text.new.items ≡ text.old.items ++ flat_map message_line messages.now) }
{
    for message in messages {
        push_message(alloc, message, text)?;
    }
    Ok(())
}

fn push_message(alloc: Global, message: &Message, text: &mut Vec<u8>) -> Result<(), AllocError>
    ensures { OnOk result (text.new.items ≡ text.old.items ++ message_line message.now) }
{
    text.extend_from_slice(b"message ")?;
    write_id(alloc, message.origin, text)?;
    text.push(b' ')?;
    write_ids(alloc, &message.versions, text)?;
    text.push(b' ')?;
    push_body(message, text)
}

/// Appends the flags, date and text of a message, and the end of its line.
fn push_body(message: &Message, text: &mut Vec<u8>) -> Result<(), AllocError>
    ensures { OnOk result (text.new.items ≡ text.old.items ++ message_fields message.now) }
{
    write_flags(&message.flags, text)?;
    push_date_and_text(message, text)
}

/// Appends the date and text of a message, each after a space, and the end of its line.
fn push_date_and_text(message: &Message, text: &mut Vec<u8>) -> Result<(), AllocError>
    ensures { OnOk result (text.new.items ≡ text.old.items ++ dated_text_fields message.now) }
{
    text.push(b' ')?;
    text.extend_from_slice(message.date.as_bytes())?;
    push_text_field(&message.text, text)
}

/// Appends a message's text, after a space, and the end of its line.
fn push_text_field(content: &Text, text: &mut Vec<u8>) -> Result<(), AllocError>
    ensures { OnOk result
        (text.new.items ≡ text.old.items ++ 32 ∷ (text_field content.now ++ 10 ∷ [])) }
{
    text.extend_from_slice(b" =")?;
    write_escaped(Escape::Text, content.as_bytes(), text)?;
    text.push(b'\n')?;
    Ok(())
}

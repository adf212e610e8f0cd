//! The arguments of commands, by the command's word (RFC 9051, section 6).

ghost use Rattle.std.specs.Prelude.{◌≡◌};
ghost use Rattle.imap_grammar.specs.Reading.{IsReading, listed_at, named_at, parens_at, spaced};
ghost use Rattle.imap_grammar.specs.CommandReading.{arguments_at, condstore_at, copied_at, copy_at};
ghost use Rattle.imap_grammar.specs.CommandReading.{create_at, delete_at, enable_at, examine_at};
ghost use Rattle.imap_grammar.specs.CommandReading.{login_at, move_at, opened_at, select_at};
ghost use Rattle.imap_grammar.specs.CommandReading.{status_at, subscribe_at, uid_arguments_at};
ghost use Rattle.imap_grammar.specs.CommandReading.{uid_at, uid_expunge_at, unsubscribe_at};
ghost use Rattle.imap_syntax.specs.Words.{command_word, status_items, status_word, uid_words};

use crate::append::append;
use crate::element_list::{ListElement, element_list};
use crate::fault::ParseFault;
use crate::fetch::fetch;
use crate::grammar_word::leading_word;
use crate::listing::list;
use crate::modifier::modifier_word;
use crate::scan::{skip, space};
use crate::search_args::search;
use crate::sets::spaced_set;
use crate::status::StatusItems;
use crate::store::store;
use crate::text::{plain, spaced_mailbox, spaced_texts};
use imap_syntax::{Command, CommandWord, OctetClass, StatusItem, Transfer, WrittenValues};
use imap_types::{Name, Octets, SequenceSet};
use std::alloc::Global;

/// Reads what follows a command's word, as `specs/Commands` of `imap_syntax` defines it for
/// each command.
pub fn arguments(
    alloc: Global,
    word: CommandWord,
    octets: &[u8],
) -> Result<(Command, &[u8]), ParseFault>
    ensures { IsReading (λ x. (x.0, x.1.now)) result (arguments_at word octets.now) }
{
    match word {
        CommandWord::Capability => Ok((Command::Capability, octets)),
        CommandWord::Noop => Ok((Command::Noop, octets)),
        CommandWord::Logout => Ok((Command::Logout, octets)),
        CommandWord::Login => login(alloc, octets),
        CommandWord::Enable => enable(alloc, octets),
        CommandWord::Select => select(alloc, octets),
        CommandWord::Examine => examine(alloc, octets),
        CommandWord::Create => create(alloc, octets),
        CommandWord::Delete => delete(alloc, octets),
        CommandWord::Subscribe => subscribe(alloc, octets),
        CommandWord::Unsubscribe => unsubscribe(alloc, octets),
        CommandWord::ListNames => list(alloc, octets),
        CommandWord::Namespace => Ok((Command::Namespace, octets)),
        CommandWord::Status => status(alloc, octets),
        CommandWord::Idle => Ok((Command::Idle, octets)),
        CommandWord::Close => Ok((Command::Close, octets)),
        CommandWord::Unselect => Ok((Command::Unselect, octets)),
        CommandWord::Expunge => Ok((Command::Expunge, octets)),
        CommandWord::Copy => copy(alloc, false, octets),
        CommandWord::Move => move_messages(alloc, false, octets),
        CommandWord::Append => append(alloc, octets),
        CommandWord::Search => search(alloc, false, octets),
        CommandWord::Fetch => fetch(alloc, false, octets),
        CommandWord::Store => store(alloc, false, octets),
        CommandWord::Uid => uid(alloc, octets),
        _ => Err(ParseFault::NotInProfile),
    }
}

/// Reads the arguments of LOGIN: a user and a password (RFC 9051, section 6.2.3).
fn login(alloc: Global, octets: &[u8]) -> Result<(Command, &[u8]), ParseFault>
    ensures { IsReading (λ x. (x.0, x.1.now)) result (login_at octets.now) }
{
    let ((user, password), rest) = spaced_texts(alloc, octets)?;
    Ok((Command::Login { user, password }, rest))
}

/// Reads one atom of a list.
struct Atoms;

impl ListElement for Atoms {
    type Value = Octets;

    ghost use Rattle.imap_grammar.specs.Reading.{run_at};
    ghost use Rattle.imap_syntax.specs.declared.octet_class.OctetClass.TheVariants.{Atom};

    ghost read_at = { run_at Atom };

    fn read(alloc: Global, octets: &[u8]) -> Result<(Octets, &[u8]), ParseFault> {
        plain(alloc, OctetClass::Atom, octets)
    }
}

/// Reads the arguments of ENABLE: names of extensions (RFC 9051, section 6.3.1).
fn enable(alloc: Global, octets: &[u8]) -> Result<(Command, &[u8]), ParseFault>
    ensures { IsReading (λ x. (x.0, x.1.now)) result (enable_at octets.now) }
{
    let (names, rest) = element_list::<Atoms>(alloc, b' ', space(octets)?)?;
    Ok((
        Command::Enable {
            names: WrittenValues::new(names),
        },
        rest,
    ))
}

/// Reads the arguments of SELECT (RFC 9051, section 6.3.2).
fn select(alloc: Global, octets: &[u8]) -> Result<(Command, &[u8]), ParseFault>
    ensures { IsReading (λ x. (x.0, x.1.now)) result (select_at octets.now) }
{
    let ((name, condstore), rest) = mailbox_to_open(alloc, octets)?;
    Ok((Command::Select { name, condstore }, rest))
}

/// Reads the arguments of EXAMINE (RFC 9051, section 6.3.3).
fn examine(alloc: Global, octets: &[u8]) -> Result<(Command, &[u8]), ParseFault>
    ensures { IsReading (λ x. (x.0, x.1.now)) result (examine_at octets.now) }
{
    let ((name, condstore), rest) = mailbox_to_open(alloc, octets)?;
    Ok((Command::Examine { name, condstore }, rest))
}

/// Reads the mailbox to open, and whether CONDSTORE follows.
fn mailbox_to_open(alloc: Global, octets: &[u8]) -> Result<((Name, bool), &[u8]), ParseFault>
    ensures { IsReading (λ x. (x.0, x.1.now)) result (opened_at octets.now) }
{
    let (name, rest) = spaced_mailbox(alloc, octets)?;
    let (condstore, rest) = condstore(rest)?;
    Ok(((name, condstore), rest))
}

/// Reads ` (CONDSTORE)` or nothing (RFC 7162, section 3.1.8).
fn condstore(octets: &[u8]) -> Result<(bool, &[u8]), ParseFault>
    ensures { IsReading (λ x. (x.0, x.1.now)) result (condstore_at octets.now) }
{
    match octets {
        [] => Ok((false, octets)),
        [first, rest @ ..] => {
            if *first != b' ' {
                return Ok((false, octets));
            }
            let rest = skip(rest, b"(")?;
            let rest = modifier_word(b"CONDSTORE", rest)?;
            Ok((true, skip(rest, b")")?))
        }
    }
}

/// Reads the argument of CREATE (RFC 9051, section 6.3.4).
fn create(alloc: Global, octets: &[u8]) -> Result<(Command, &[u8]), ParseFault>
    ensures { IsReading (λ x. (x.0, x.1.now)) result (create_at octets.now) }
{
    let (name, rest) = spaced_mailbox(alloc, octets)?;
    Ok((Command::Create { name }, rest))
}

/// Reads the argument of DELETE (RFC 9051, section 6.3.5).
fn delete(alloc: Global, octets: &[u8]) -> Result<(Command, &[u8]), ParseFault>
    ensures { IsReading (λ x. (x.0, x.1.now)) result (delete_at octets.now) }
{
    let (name, rest) = spaced_mailbox(alloc, octets)?;
    Ok((Command::Delete { name }, rest))
}

/// Reads the argument of SUBSCRIBE (RFC 9051, section 6.3.7).
fn subscribe(alloc: Global, octets: &[u8]) -> Result<(Command, &[u8]), ParseFault>
    ensures { IsReading (λ x. (x.0, x.1.now)) result (subscribe_at octets.now) }
{
    let (name, rest) = spaced_mailbox(alloc, octets)?;
    Ok((Command::Subscribe { name }, rest))
}

/// Reads the argument of UNSUBSCRIBE (RFC 9051, section 6.3.8).
fn unsubscribe(alloc: Global, octets: &[u8]) -> Result<(Command, &[u8]), ParseFault>
    ensures { IsReading (λ x. (x.0, x.1.now)) result (unsubscribe_at octets.now) }
{
    let (name, rest) = spaced_mailbox(alloc, octets)?;
    Ok((Command::Unsubscribe { name }, rest))
}

/// Reads the arguments of STATUS: a mailbox and items (RFC 9051, section 6.3.11).
fn status(alloc: Global, octets: &[u8]) -> Result<(Command, &[u8]), ParseFault>
    ensures { IsReading (λ x. (x.0, x.1.now)) result (status_at octets.now) }
{
    let (name, rest) = spaced_mailbox(alloc, octets)?;
    match status_items(alloc, rest) {
        Err(fault) => {
            drop(name);
            Err(fault)
        }
        Ok((items, rest)) => {
            let items = WrittenValues::new(items);
            Ok((Command::Status { name, items }, rest))
        }
    }
}

/// Reads ` (item item ..)`.
fn status_items(alloc: Global, octets: &[u8]) -> Result<(Vec<StatusItem>, &[u8]), ParseFault>
    ensures { IsReading (λ x. (x.0.items, x.1.now)) result
        (spaced (parens_at (listed_at 32 (named_at status_word status_items))) octets.now) }
{
    let rest = skip(space(octets)?, b"(")?;
    let (items, rest) = element_list::<StatusItems>(alloc, b' ', rest)?;
    let rest = skip(rest, b")")?;
    Ok((items, rest))
}

/// Reads the arguments of COPY (RFC 9051, section 6.4.7).
fn copy(alloc: Global, by_uid: bool, octets: &[u8]) -> Result<(Command, &[u8]), ParseFault>
    ensures { IsReading (λ x. (x.0, x.1.now)) result (copy_at by_uid octets.now) }
{
    let ((messages, name), rest) = messages_and_mailbox(alloc, octets)?;
    let transfer = Transfer {
        by_uid,
        messages,
        name,
    };
    Ok((Command::Copy(transfer), rest))
}

/// Reads the arguments of MOVE (RFC 9051, section 6.4.8).
fn move_messages(alloc: Global, by_uid: bool, octets: &[u8]) -> Result<(Command, &[u8]), ParseFault>
    ensures { IsReading (λ x. (x.0, x.1.now)) result (move_at by_uid octets.now) }
{
    let ((messages, name), rest) = messages_and_mailbox(alloc, octets)?;
    let transfer = Transfer {
        by_uid,
        messages,
        name,
    };
    Ok((Command::Move(transfer), rest))
}

/// Reads the messages to copy or move, and the destination mailbox.
fn messages_and_mailbox(
    alloc: Global,
    octets: &[u8],
) -> Result<((SequenceSet, Name), &[u8]), ParseFault>
    ensures { IsReading (λ x. (x.0, x.1.now)) result (copied_at octets.now) }
{
    let (messages, rest) = spaced_set(alloc, octets)?;
    let (name, rest) = spaced_mailbox(alloc, rest)?;
    Ok(((messages, name), rest))
}

/// The commands that may follow UID.
const UID_WORDS: [CommandWord; 6] = [
    CommandWord::Copy,
    CommandWord::Move,
    CommandWord::Expunge,
    CommandWord::Fetch,
    CommandWord::Store,
    CommandWord::Search,
];

/// Reads a command's word after UID, and its arguments (RFC 9051, section 6.4.9).
fn uid(alloc: Global, octets: &[u8]) -> Result<(Command, &[u8]), ParseFault>
    ensures { IsReading (λ x. (x.0, x.1.now)) result (uid_at octets.now) }
{
    let (word, rest) = uid_word(space(octets)?)?;
    uid_arguments(alloc, word, rest)
}

/// Reads the command's word after UID.
fn uid_word(octets: &[u8]) -> Result<(CommandWord, &[u8]), ParseFault>
    ensures { IsReading (λ x. (x.0, x.1.now)) result (named_at command_word uid_words octets.now) }
{
    leading_word(&UID_WORDS, octets)
}

/// Reads the arguments of a command that takes UIDs.
fn uid_arguments(
    alloc: Global,
    word: CommandWord,
    octets: &[u8],
) -> Result<(Command, &[u8]), ParseFault>
    ensures { IsReading (λ x. (x.0, x.1.now)) result (uid_arguments_at word octets.now) }
{
    match word {
        CommandWord::Copy => copy(alloc, true, octets),
        CommandWord::Move => move_messages(alloc, true, octets),
        CommandWord::Expunge => uid_expunge(alloc, octets),
        CommandWord::Search => search(alloc, true, octets),
        CommandWord::Fetch => fetch(alloc, true, octets),
        CommandWord::Store => store(alloc, true, octets),
        _ => Err(ParseFault::BadSyntax),
    }
}

/// Reads the argument of UID EXPUNGE: a set of UIDs (RFC 9051, section 6.4.9).
fn uid_expunge(alloc: Global, octets: &[u8]) -> Result<(Command, &[u8]), ParseFault>
    ensures { IsReading (λ x. (x.0, x.1.now)) result (uid_expunge_at octets.now) }
{
    let (uids, rest) = spaced_set(alloc, octets)?;
    Ok((Command::UidExpunge { uids }, rest))
}

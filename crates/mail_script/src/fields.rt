//! Readers of the fields of a script line: numbers, names, ids and texts.

ghost use Rattle.mail_script.specs.Reading.{IsReading, tail_at, counted_at, cut_at};
ghost use Rattle.mail_script.specs.Reading.{first_numbers_at};
ghost use Rattle.mail_script.specs.Reading.{id_at, moment_at, replica_at, session_at};
ghost use Rattle.mail_script.specs.Reading.{session_and_text_at};

use crate::script::LineFault;
use crate::session_name::{SessionName, is_session_name};
use imap_types::{Escape, LAST_MOMENT, Moment, Octets, read_escaped};
use std::alloc::Global;
use tags_clocks::{OpId, ReplicaId};
use text_fields::split;

/// The parts of a text before and after its first separator, or `NotALine` if it has no separator.
pub fn split_field(separator: u8, text: &[u8]) -> Result<(&[u8], &[u8]), LineFault>
    ensures { IsReading (λ parts. (parts.0.now, parts.1.now)) result (cut_at separator text.now) }
{
    match split(separator, text) {
        Some(parts) => Ok(parts),
        None => Err(LineFault::NotALine),
    }
}

/// The replica that a field names; `NotALine` unless the field is a number from 1 to 65,535.
pub fn replica(text: &[u8]) -> Result<ReplicaId, LineFault>
    ensures { IsReading (λ replica. replica) result (replica_at text.now) }
{
    match text_fields::replica(text) {
        Some(replica) => Ok(replica),
        None => Err(LineFault::NotALine),
    }
}

/// The moment that a field gives in seconds; `NotALine` unless it is a number up to the last second
/// of the year 9999.
#[tactic(auto, unfolding(crate::specs::Reading::moment_at))]
pub fn moment(text: &[u8]) -> Result<Moment, LineFault>
    ensures { IsReading (λ moment. moment) result (moment_at text.now) }
{
    match text_fields::number(text, LAST_MOMENT) {
        None => Err(LineFault::NotALine),
        Some(seconds) => Moment::new(seconds).ok_or(LineFault::NotALine),
    }
}

/// The id that a field names; `NotALine` if it spells none.
pub fn id(text: &[u8]) -> Result<OpId, LineFault>
    ensures { IsReading (λ id. id) result (id_at text.now) }
{
    match text_fields::id(text) {
        Some(id) => Ok(id),
        None => Err(LineFault::NotALine),
    }
}

/// The session that a field names; `NotALine` unless the field is a session name, `NoMemory` if
/// memory runs out.
#[tactic(auto, unfolding(crate::specs::Reading::session_at))]
pub fn session(alloc: Global, text: &[u8]) -> Result<SessionName, LineFault>
    ensures { IsReading (λ session. session) result (session_at text.now) }
{
    if !is_session_name(text) {
        return Err(LineFault::NotALine);
    }
    let octets = text.to_vec(alloc)?;
    SessionName::new(octets).ok_or(LineFault::NotALine)
}

/// The session named before the first space, and the unescaped text after it; `NotALine` if either
/// can't be read, `NoMemory` if memory runs out.
#[tactic(auto, unfolding(crate::specs::Reading::session_and_text_at))]
pub fn session_and_text(alloc: Global, fields: &[u8]) -> Result<(SessionName, Octets), LineFault>
    ensures { IsReading (λ spoken. spoken) result (session_and_text_at fields.now) }
{
    let (name, text) = split_field(b' ', fields)?;
    let session = session(alloc, name)?;
    let text = read_escaped(alloc, Escape::Text, text)?;
    Ok((session, text))
}

/// The first numbers of a replica's counters, spelled `uid U k K`: U from 1 to 4,294,967,295 and K
/// from 1 to 65,536; `NotALine` otherwise.
#[tactic(auto, unfolding(crate::specs::Reading::first_numbers_at))]
pub fn first_numbers(text: &[u8]) -> Result<(u32, u32), LineFault>
    ensures { IsReading (λ numbers. (numbers.0, numbers.1)) result (first_numbers_at text.now) }
{
    let numbers = text_after_word(b"uid", text)?;
    let (first, rest) = split_field(b' ', numbers)?;
    let uid = number_up_to(first, 4_294_967_295)?;
    let last = text_after_word(b"k", rest)?;
    let k = number_up_to(last, 65_536)?;
    Ok((uid, k))
}

/// The text after a given word and a space; `NotALine` if the text doesn't begin with them.
#[tactic(auto, unfolding(crate::specs::Reading::tail_at))]
fn text_after_word<'a>(word: &[u8], text: &'a [u8]) -> Result<&'a [u8], LineFault>
    ensures { IsReading (λ rest. rest.now) result (tail_at word.now text.now) }
{
    let (first, rest) = split_field(b' ', text)?;
    if first != word {
        return Err(LineFault::NotALine);
    }
    Ok(rest)
}

/// The number that a field spells, from 1 to a limit; `NotALine` otherwise.
#[tactic(auto, unfolding(crate::specs::Reading::counted_at))]
fn number_up_to(text: &[u8], limit: u32) -> Result<u32, LineFault>
    ensures { IsReading (λ number. number) result (counted_at limit text.now) }
{
    match text_fields::number(text, u64::from(limit)) {
        None => Err(LineFault::NotALine),
        Some(0) => Err(LineFault::NotALine),
        Some(number) => Ok(number as u32),
    }
}

//! Reads the lines that say what happens in a world.

use case_lines::{Trouble, number, replica};
use imap_grammar::{Tagged, idle_line, parse};
use imap_node::{Auth, SessionNo};
use imap_types::{Escape, Moment, read_escaped};
use std::alloc::Global;
use tags_clocks::{OpId, ReplicaId};
use text_fields::id;
use uid_projection::Counters;
use world_core::Event;

/// The text before the first space, and the text after it; without a space the whole text and
/// nothing.
pub fn cut(text: &str) -> (&str, &str) {
    text.split_once(' ').unwrap_or((text, ""))
}

/// The event that a line spells: `open R`, `command R S TEXT`, `line R S TEXT`, `poll R S`,
/// `deliver R ID`, `drain R`, `close R S`, `join R S` or `restart R`.
pub fn event(alloc: Global, line: &str) -> Result<Event, Trouble> {
    let (word, rest) = cut(line);
    match word {
        "open" => Ok(Event::Open {
            at: replica(rest)?,
            auth: Auth::Preauth,
        }),
        "drain" => Ok(Event::Drain { at: replica(rest)? }),
        "restart" => Ok(Event::Restart { at: replica(rest)? }),
        "deliver" => delivery_event(rest),
        "join" => join_event(rest),
        _ => session_event(alloc, word, rest),
    }
}

fn join_event(text: &str) -> Result<Event, Trouble> {
    let (name, peer) = cut(text);
    Ok(Event::Join {
        name: replica(name)?,
        peer: replica(peer)?,
    })
}

fn delivery_event(text: &str) -> Result<Event, Trouble> {
    let (at, id) = cut(text);
    Ok(Event::Deliver {
        at: replica(at)?,
        id: id_in(id)?,
    })
}

/// The event of a session.
fn session_event(alloc: Global, word: &str, text: &str) -> Result<Event, Trouble> {
    let (at, rest) = cut(text);
    let (session, text) = cut(rest);
    let at = replica(at)?;
    let session = session_in(session)?;
    match word {
        "poll" => Ok(Event::Poll { at, session }),
        "close" => Ok(Event::Close { at, session }),
        "line" => line(alloc, at, session, text),
        "command" => command(alloc, at, session, text),
        _ => Err(Trouble::NotACase),
    }
}

fn line(alloc: Global, at: ReplicaId, session: SessionNo, text: &str) -> Result<Event, Trouble> {
    let frame = frame(alloc, text)?;
    let line = idle_line(&frame);
    Ok(Event::IdleLine { at, session, line })
}

fn command(alloc: Global, at: ReplicaId, session: SessionNo, text: &str) -> Result<Event, Trouble> {
    let frame = frame(alloc, text)?;
    let tagged = tagged_command(alloc, &frame)?;
    Ok(Event::Command {
        at,
        session,
        moment: Moment::epoch(),
        tagged,
    })
}

/// The octets that a text in the escape spells, and CRLF.
fn frame(alloc: Global, text: &str) -> Result<Vec<u8>, Trouble> {
    let Ok(octets) = read_escaped(alloc, Escape::Text, text.as_bytes()) else {
        return Err(Trouble::NotACase);
    };
    let mut frame = octets.into_vec();
    frame.extend_from_slice(b"\r\n")?;
    Ok(frame)
}

/// The command that a frame spells.
pub fn tagged_command(alloc: Global, frame: &[u8]) -> Result<Tagged, Trouble> {
    match parse(alloc, frame) {
        Ok(tagged) => Ok(tagged),
        Err(_) => Err(Trouble::NotACase),
    }
}

fn id_in(text: &str) -> Result<OpId, Trouble> {
    id(text.as_bytes()).ok_or(Trouble::NotACase)
}

fn session_in(text: &str) -> Result<SessionNo, Trouble> {
    SessionNo::new(number(text)? as usize).ok_or(Trouble::NotACase)
}

/// The replicas that a line declares: names separated by single spaces, each also as `R:U:K` with
/// its first numbers.
pub fn starts(alloc: Global, text: &str) -> Result<Vec<Counters>, Trouble> {
    let mut starts = Vec::new(alloc);
    for word in text.split(' ') {
        starts.push(start(word)?)?;
    }
    Ok(starts)
}

fn start(word: &str) -> Result<Counters, Trouble> {
    let Some((name, numbers)) = word.split_once(':') else {
        return Ok(Counters {
            replica: replica(word)?,
            uid: 1,
            k: 1,
        });
    };
    let Some((uid, k)) = numbers.split_once(':') else {
        return Err(Trouble::NotACase);
    };
    Ok(Counters {
        replica: replica(name)?,
        uid: number(uid)?,
        k: number(k)?,
    })
}

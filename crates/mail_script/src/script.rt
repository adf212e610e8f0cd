//! The lines of a replay script, and their reader.

ghost use Rattle.std.specs.Prelude.{◌≡◌, ℕ, List, IfOk, MatchResult};
ghost use Rattle.mail_script.specs.declared.script.ScriptLine.{ScriptLine};
ghost use Rattle.mail_script.specs.declared.script.LineFault.TheVariants.{NoMemory};
ghost use Rattle.mail_script.specs.Reading.{IsReading, agree_at, cut_at, deliver_at, fields_at};
ghost use Rattle.mail_script.specs.Reading.{forge_at, join_at, keyword_at, line_at, node_at};
ghost use Rattle.mail_script.specs.Reading.{open_at, word_or_words_at, words_at};
ghost use Rattle.mail_script.specs.Script.{Means};

use crate::fields::{first_numbers, id, moment, replica, session, session_and_text, split_field};
use crate::session_name::SessionName;
use imap_types::{EscapeFault, Moment, Octets};
use std::alloc::{AllocError, Global};
use tags_clocks::{OpId, ReplicaId};
use text_fields::split;

/// What a line of a script asks for.
#[derive(Drop)]
pub enum ScriptLine {
    /// Nothing: the line is empty or a comment.
    Blank,
    /// `node R uid U k K` declares a replica. U is INBOX's first UID, from 1. K is the k of the
    /// first incarnation that begins at R for another folder, from 1 to 65,536; 65,536 leaves no
    /// incarnation to begin. A bare `node R` means 1 and 1.
    Node {
        replica: ReplicaId,
        uid: u32,
        k: u32,
    },
    /// `now N` sets the moment, in seconds.
    Now {
        moment: Moment,
    },
    /// `open R NAME` opens an authenticated session at a replica.
    Open {
        replica: ReplicaId,
        session: SessionName,
    },
    /// `line NAME TEXT` feeds a session the unescaped text and a CRLF; `text` is the unescaped text
    /// without the CRLF.
    Line {
        session: SessionName,
        text: Octets,
    },
    /// `send NAME TEXT` feeds a session only the unescaped text.
    Send {
        session: SessionName,
        text: Octets,
    },
    /// `poll NAME` polls an idling session.
    Poll {
        session: SessionName,
    },
    /// `close NAME` closes a session.
    Close {
        session: SessionName,
    },
    /// `show R` prints a replica's dump.
    Show {
        replica: ReplicaId,
    },
    /// `deliver ID R` delivers an issued operation to a replica.
    Deliver {
        id: OpId,
        replica: ReplicaId,
    },
    /// `forge R OP` delivers an operation to a replica; the operation is the rest of the line, with
    /// no escape undone.
    Forge {
        replica: ReplicaId,
        operation: Octets,
    },
    /// `drain R` applies a replica's held operations whose causes are all applied.
    Drain {
        replica: ReplicaId,
    },
    /// `settle` exchanges all operations between all replicas, in the order in which they were
    /// declared.
    Settle,
    /// `agree R S` asks whether two replicas applied the same operations.
    Agree {
        first: ReplicaId,
        second: ReplicaId,
    },
    /// `join R S` declares a replica that begins with the operations that a declared one applied.
    Join {
        replica: ReplicaId,
        peer: ReplicaId,
    },
    /// `restart R` has a replica start again from the operations that it applied.
    Restart {
        replica: ReplicaId,
    },
}

/// Why a line can't be read.
#[derive(thiserror::Error, Clone, Copy, Debug, PartialEq, Eq)]
pub enum LineFault {
    /// The text is no line of a script.
    #[error("not a line of a script")]
    NotALine,
    /// Memory ran out.
    #[error("no memory")]
    NoMemory,
}

impl From<AllocError> for LineFault {
    ghost use Rattle.std.specs.Prelude.{◌≡◌};
    ghost use Rattle.mail_script.specs.declared.script.LineFault.TheVariants.{NoMemory};

    ghost from_gives = { λ _ e. e ≡ NoMemory };

    fn from(_fault: AllocError) -> LineFault {
        LineFault::NoMemory
    }
}

impl From<EscapeFault> for LineFault {
    ghost use Rattle.std.specs.Prelude.{◌≡◌};
    ghost use Rattle.mail_script.specs.Faults.{fault_of};

    ghost from_gives = { λ fault e. e ≡ fault_of fault };

    fn from(fault: EscapeFault) -> LineFault {
        match fault {
            EscapeFault::NotEscaped => LineFault::NotALine,
            EscapeFault::NoMemory => LineFault::NoMemory,
        }
    }
}

/// The word that begins a line.
#[derive(Clone, Copy)]
pub enum ScriptWord {
    Node,
    Now,
    Open,
    Line,
    Send,
    Poll,
    Close,
    Show,
    Deliver,
    Forge,
    Drain,
    Agree,
    Join,
    Restart,
}

/// Reads a line, which is passed without its LF; a CR before the LF belongs to the line. `NotALine`
/// exactly when it is no line of a script, and `NoMemory` if memory runs out.
pub fn read_line(alloc: Global, line: &[u8]) -> Result<ScriptLine, LineFault>
    ensures ok { IfOk result (λ value. Means line.now value) }
    ensures only { (meaning : ScriptLine) → Means line.now meaning
        → MatchResult result (λ value. value ≡ meaning) (λ fault. fault ≡ NoMemory) }
{
    parse_line(alloc, line)
}

/// A line says at most one thing.
pub fn one_meaning()
    ensures { (line : List ℕ) (meaning other : ScriptLine) → Means line meaning → Means line other
        → meaning ≡ other }
{}

fn parse_line(alloc: Global, line: &[u8]) -> Result<ScriptLine, LineFault>
    ensures { IsReading (λ value. value) result (line_at line.now) }
{
    match line {
        [] => Ok(ScriptLine::Blank),
        [first, ..] => {
            if *first == b'#' {
                return Ok(ScriptLine::Blank);
            }
            word_or_words(alloc, line)
        }
    }
}

#[tactic(auto, unfolding(crate::specs::Reading::word_or_words_at))]
fn word_or_words(alloc: Global, line: &[u8]) -> Result<ScriptLine, LineFault>
    ensures { IsReading (λ value. value) result (word_or_words_at line.now) }
{
    if line == b"settle".as_slice() {
        return Ok(ScriptLine::Settle);
    }
    words(alloc, line)
}

#[tactic(auto, unfolding(crate::specs::Reading::words_at))]
fn words(alloc: Global, line: &[u8]) -> Result<ScriptLine, LineFault>
    ensures { IsReading (λ value. value) result (words_at line.now) }
{
    let (word, fields) = split_field(b' ', line)?;
    let keyword = read_keyword(word)?;
    after_keyword(alloc, keyword, fields)
}

#[tactic(auto, unfolding(crate::specs::Reading::keyword_at))]
fn read_keyword(word: &[u8]) -> Result<ScriptWord, LineFault>
    ensures { IsReading (λ keyword. keyword) result (keyword_at word.now) }
{
    if word == b"node".as_slice() {
        Ok(ScriptWord::Node)
    } else if word == b"now".as_slice() {
        Ok(ScriptWord::Now)
    } else if word == b"open".as_slice() {
        Ok(ScriptWord::Open)
    } else if word == b"line".as_slice() {
        Ok(ScriptWord::Line)
    } else if word == b"send".as_slice() {
        Ok(ScriptWord::Send)
    } else if word == b"poll".as_slice() {
        Ok(ScriptWord::Poll)
    } else if word == b"close".as_slice() {
        Ok(ScriptWord::Close)
    } else if word == b"show".as_slice() {
        Ok(ScriptWord::Show)
    } else if word == b"deliver".as_slice() {
        Ok(ScriptWord::Deliver)
    } else if word == b"forge".as_slice() {
        Ok(ScriptWord::Forge)
    } else if word == b"drain".as_slice() {
        Ok(ScriptWord::Drain)
    } else if word == b"agree".as_slice() {
        Ok(ScriptWord::Agree)
    } else if word == b"join".as_slice() {
        Ok(ScriptWord::Join)
    } else if word == b"restart".as_slice() {
        Ok(ScriptWord::Restart)
    } else {
        Err(LineFault::NotALine)
    }
}

fn after_keyword(alloc: Global, keyword: ScriptWord, fields: &[u8]) -> Result<ScriptLine, LineFault>
    ensures { IsReading (λ value. value) result (fields_at keyword fields.now) }
{
    match keyword {
        ScriptWord::Node => node(fields),
        ScriptWord::Now => {
            let moment = moment(fields)?;
            Ok(ScriptLine::Now { moment })
        }
        ScriptWord::Open => open(alloc, fields),
        ScriptWord::Line => {
            let (session, text) = session_and_text(alloc, fields)?;
            Ok(ScriptLine::Line { session, text })
        }
        ScriptWord::Send => {
            let (session, text) = session_and_text(alloc, fields)?;
            Ok(ScriptLine::Send { session, text })
        }
        ScriptWord::Poll => {
            let session = session(alloc, fields)?;
            Ok(ScriptLine::Poll { session })
        }
        ScriptWord::Close => {
            let session = session(alloc, fields)?;
            Ok(ScriptLine::Close { session })
        }
        ScriptWord::Show => {
            let replica = replica(fields)?;
            Ok(ScriptLine::Show { replica })
        }
        ScriptWord::Deliver => deliver(fields),
        ScriptWord::Forge => forge(alloc, fields),
        ScriptWord::Drain => {
            let replica = replica(fields)?;
            Ok(ScriptLine::Drain { replica })
        }
        ScriptWord::Agree => agree(fields),
        ScriptWord::Join => join(fields),
        ScriptWord::Restart => {
            let replica = replica(fields)?;
            Ok(ScriptLine::Restart { replica })
        }
    }
}

#[tactic(auto, unfolding(crate::specs::Reading::node_at))]
fn node(fields: &[u8]) -> Result<ScriptLine, LineFault>
    ensures { IsReading (λ value. value) result (node_at (cut_at 32 fields.now) fields.now) }
{
    match split(b' ', fields) {
        None => {
            let replica = replica(fields)?;
            Ok(ScriptLine::Node {
                replica,
                uid: 1,
                k: 1,
            })
        }
        Some((name, numbers)) => {
            let replica = replica(name)?;
            let (uid, k) = first_numbers(numbers)?;
            Ok(ScriptLine::Node { replica, uid, k })
        }
    }
}

#[tactic(auto, unfolding(crate::specs::Reading::open_at))]
fn open(alloc: Global, fields: &[u8]) -> Result<ScriptLine, LineFault>
    ensures { IsReading (λ value. value) result (open_at fields.now) }
{
    let (number, name) = split_field(b' ', fields)?;
    let replica = replica(number)?;
    let session = session(alloc, name)?;
    Ok(ScriptLine::Open { replica, session })
}

#[tactic(auto, unfolding(crate::specs::Reading::deliver_at))]
fn deliver(fields: &[u8]) -> Result<ScriptLine, LineFault>
    ensures { IsReading (λ value. value) result (deliver_at fields.now) }
{
    let (name, number) = split_field(b' ', fields)?;
    let id = id(name)?;
    let replica = replica(number)?;
    Ok(ScriptLine::Deliver { id, replica })
}

#[tactic(auto, unfolding(crate::specs::Reading::agree_at))]
fn agree(fields: &[u8]) -> Result<ScriptLine, LineFault>
    ensures { IsReading (λ value. value) result (agree_at fields.now) }
{
    let (one, other) = split_field(b' ', fields)?;
    let first = replica(one)?;
    let second = replica(other)?;
    Ok(ScriptLine::Agree { first, second })
}

#[tactic(auto, unfolding(crate::specs::Reading::join_at))]
fn join(fields: &[u8]) -> Result<ScriptLine, LineFault>
    ensures { IsReading (λ value. value) result (join_at fields.now) }
{
    let (one, other) = split_field(b' ', fields)?;
    let joining = replica(one)?;
    let peer = replica(other)?;
    Ok(ScriptLine::Join {
        replica: joining,
        peer,
    })
}

#[tactic(auto, unfolding(crate::specs::Reading::forge_at))]
fn forge(alloc: Global, fields: &[u8]) -> Result<ScriptLine, LineFault>
    ensures { IsReading (λ value. value) result (forge_at fields.now) }
{
    let (number, operation) = split_field(b' ', fields)?;
    let replica = replica(number)?;
    let operation = Octets::from_slice(alloc, operation)?;
    Ok(ScriptLine::Forge { replica, operation })
}

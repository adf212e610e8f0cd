//! The service of each kind of script line.

ghost use Rattle.std.specs.Prelude.{◌≡◌, ◌≤◌, ◌⊎◌, ◌++◌, ◌∷◌, [], ℕ, List, None, Some, Err, IfOk};
ghost use Rattle.std.specs.Prelude.{IfErr, IsTrue, IsSome, IsNone, ◌↔◌, OnOk, OnErr, codes, take};
ghost use Rattle.imap_answers.specs.AnswerText.{text_of_answer as text_of};
ghost use Rattle.imap_answers.specs.declared.answer.Answer.{Answer};
ghost use Rattle.imap_answers.specs.declared.answer.Answer.TheVariants.{Bye, Greeting};
ghost use Rattle.imap_answers.specs.declared.fixed_words.ByeReason.TheVariants.{TooManySessions as FullReplica};
ghost use Rattle.imap_answers.specs.declared.fixed_words.Login.TheVariants.{PreAuthenticated};
ghost use Rattle.mail_script.specs.Script.{Means};
ghost use Rattle.mail_script.specs.Transcript.{transcript_line};
ghost use Rattle.mail_script.specs.declared.script.ScriptLine.{ScriptLine};
ghost use Rattle.mail_script.specs.declared.transcript.Speaker.TheVariants.{Server};
ghost use Rattle.imap_node.specs.Nodes.{IsActive, IsIdlingAt, with_session_closed};
ghost use Rattle.mail_replay.specs.Lines.{BeginsSession, ClosesSession, DeclaresReplica};
ghost use Rattle.mail_replay.specs.Lines.{FeedsInPart, FeedsSession};
ghost use Rattle.mail_replay.specs.Lines.{HasFirstUid, HasPolledTurns, HasTurns, IsBad, IsIdling};
ghost use Rattle.mail_replay.specs.Lines.{IsMisplaced, IsTalking, OpensAt, PollsAt, PollsInPart};
ghost use Rattle.mail_replay.specs.Lines.{PrintsInPart, ServesInPart, ServesLine, ShowsDump};
ghost use Rattle.mail_replay.specs.Lines.{TalksOn, crlf};
ghost use Rattle.mail_replay.specs.ScriptState.{ScriptContents, replica_place, script_contents_of};
ghost use Rattle.mail_replay.specs.ScriptState.{session_place};
ghost use Rattle.mail_replay.specs.Transcript.{transcript};
ghost use Rattle.mail_replay.specs.declared.script_service.ServeFault.TheVariants.{BadScript};
ghost use Rattle.mail_replay.specs.declared.script_service.ServeFault.TheVariants.{NoMemory};
ghost use Rattle.imap_connection.specs.Replies.{idling_at};
ghost use Rattle.imap_connection.specs.Talks.{IsPoll};
ghost use Rattle.imap_connection.specs.declared.turn.Turn.{Turn};

use crate::deliveries::{deliver, drain, forge};
use crate::exchanges::{compare, exchange};
use crate::script_join::join;
use crate::script_restart::restart;
use crate::script_state::{
    Connection, ScriptReplica, ScriptSession, ScriptState, replica_place, session_place,
};
use crate::transcript_lines::{write_answer, write_turns};
use imap_connection::{
    Auth, Node, OpenFault, SessionNo, State, TalkFault, TalkFaultKind, Turn, poll_turns, talk,
    write_dump,
};
use imap_lex::{FrameFaultKind, Framer, Limits};
use imap_print::{Answer, ByeReason, Login};
use imap_types::{Moment, Octets};
use mail_script::{LineFault, ScriptLine, SessionName, read_line};
use std::alloc::{AllocError, AllocFailed, Global};
use tags_clocks::ReplicaId;
use thiserror::Error;
use uid_projection::Counters;

/// Why a line can't be served.
#[derive(Clone, Copy, Debug, PartialEq, Eq, Error)]
pub enum ServeFault {
    /// The line isn't a line of a script, or can't be served in the current state.
    #[error("bad script")]
    BadScript,
    /// Memory ran out.
    #[error("no memory")]
    NoMemory,
}

impl From<AllocError> for ServeFault {
    ghost use Rattle.std.specs.Prelude.{◌≡◌};
    ghost use Rattle.mail_replay.specs.declared.script_service.ServeFault.TheVariants.{NoMemory};

    ghost from_gives = { λ _ fault. fault ≡ NoMemory };

    fn from(_fault: AllocError) -> ServeFault {
        ServeFault::NoMemory
    }
}

impl<T: Drop> From<AllocFailed<T>> for ServeFault {
    ghost use Rattle.std.specs.Prelude.{◌≡◌};
    ghost use Rattle.mail_replay.specs.declared.script_service.ServeFault.TheVariants.{NoMemory};

    ghost from_gives = { λ _ fault. fault ≡ NoMemory };

    fn from(_fault: AllocFailed<T>) -> ServeFault {
        ServeFault::NoMemory
    }
}

impl From<LineFault> for ServeFault {
    ghost use Rattle.std.specs.Prelude.{◌≡◌};
    ghost use Rattle.mail_replay.specs.Faults.{fault_of};

    ghost from_gives = { λ why fault. fault ≡ fault_of why };

    fn from(fault: LineFault) -> ServeFault {
        match fault {
            LineFault::NotALine => ServeFault::BadScript,
            LineFault::NoMemory => ServeFault::NoMemory,
        }
    }
}

/// Serves a line of the script, which is passed without its LF, and appends its output. After
/// `BadScript`, which means that the line can't be served in the current state, nothing is printed.
/// After `NoMemory` a part of the output may be printed: the first answer of a session that is
/// opened, or some of the first turns of a session that is fed or polled.
pub fn serve_line(
    alloc: Global,
    setup: &mut ScriptState,
    line: &[u8],
    printed: &mut Vec<u8>,
) -> Result<(), ServeFault>
    ensures ok { OnOk result ((meaning : ScriptLine) × (more : List ℕ) × Means line.now meaning
        × ServesLine (script_contents_of setup.old) meaning more (script_contents_of setup.new)
        × (printed.new.items ≡ printed.old.items ++ more)) }
    ensures bad { result ≡ Err BadScript
        → IsBad (script_contents_of setup.old) line.now × (printed.new.items ≡ printed.old.items) }
    ensures memory { result ≡ Err NoMemory
        → (more : List ℕ)
        × ServesInPart (script_contents_of setup.old) line.now more
        × (printed.new.items ≡ printed.old.items ++ more) }
{
    let meaning = read_line(alloc, line)?;
    serve(alloc, setup, meaning, printed)
}

fn serve(
    alloc: Global,
    setup: &mut ScriptState,
    meaning: ScriptLine,
    printed: &mut Vec<u8>,
) -> Result<(), ServeFault>
    requires { HasFirstUid meaning }
    ensures ok { OnOk result ((more : List ℕ)
        × ServesLine (script_contents_of setup.old) meaning more (script_contents_of setup.new)
        × (printed.new.items ≡ printed.old.items ++ more)) }
    ensures bad { result ≡ Err BadScript
        → IsMisplaced (script_contents_of setup.old) meaning
        × (printed.new.items ≡ printed.old.items) }
    ensures memory { result ≡ Err NoMemory
        → (more : List ℕ)
        × ((more ≡ []) ⊎ PrintsInPart (script_contents_of setup.old) meaning more)
        × (printed.new.items ≡ printed.old.items ++ more) }
{
    match meaning {
        ScriptLine::Blank => Ok(()),
        ScriptLine::Node { replica, uid, k } => declare(alloc, setup, Counters { replica, uid, k }),
        ScriptLine::Now { moment } => {
            setup.moment = moment;
            Ok(())
        }
        ScriptLine::Open { replica, session } => open(alloc, setup, replica, session, printed),
        ScriptLine::Line { session, text } => {
            let octets = with_line_end(text)?;
            feed(alloc, setup, &session, &octets, printed)
        }
        ScriptLine::Send { session, text } => {
            feed(alloc, setup, &session, text.as_bytes(), printed)
        }
        ScriptLine::Poll { session } => poll(alloc, setup, &session, printed),
        ScriptLine::Close { session } => close(setup, &session),
        ScriptLine::Show { replica } => show(alloc, setup, replica, printed),
        ScriptLine::Deliver { id, replica } => deliver(alloc, setup, id, replica, printed),
        ScriptLine::Forge { replica, operation } => {
            forge(alloc, setup, replica, operation.as_bytes(), printed)
        }
        ScriptLine::Drain { replica } => drain(alloc, setup, replica, printed),
        ScriptLine::Settle => exchange(alloc, setup, printed),
        ScriptLine::Agree { first, second } => compare(setup, first, second, printed),
        ScriptLine::Join { replica, peer } => join(alloc, setup, replica, peer, printed),
        ScriptLine::Restart { replica } => restart(alloc, setup, replica),
    }
}

/// The text with CRLF after it; `Err` if memory runs out.
fn with_line_end(text: Octets) -> Result<Vec<u8>, AllocError>
    ensures { IfOk result (λ octets. octets.items ≡ text ++ crlf) }
{
    let mut octets = text.into_vec();
    octets.extend_from_slice(b"\r\n")?;
    Ok(octets)
}

/// Declares a replica that has received nothing and has these counters.
fn declare(alloc: Global, setup: &mut ScriptState, start: Counters) -> Result<(), ServeFault>
    requires { 1 ≤ start.uid }
    ensures ok { OnOk result
        (DeclaresReplica (script_contents_of setup.old) start (script_contents_of setup.new)) }
    ensures bad { result ≡ Err BadScript
        ↔ IsSome (replica_place setup.old.replicas.items start.replica) }
    ensures err { OnErr result (script_contents_of setup.new ≡ script_contents_of setup.old) }
{
    if replica_place(&setup.replicas, start.replica).is_some() {
        return Err(ServeFault::BadScript);
    }
    let replica = ScriptReplica::new(alloc, start)?;
    setup.replicas.push(replica)?;
    Ok(())
}

/// Opens a session at a replica, and prints the greeting. A replica that has 1,024 open sessions
/// sends BYE instead, and the session has ended.
fn open(
    alloc: Global,
    setup: &mut ScriptState,
    replica: ReplicaId,
    name: SessionName,
    printed: &mut Vec<u8>,
) -> Result<(), ServeFault>
    ensures ok { OnOk result ((more : List ℕ)
        × OpensAt (script_contents_of setup.old) replica name more (script_contents_of setup.new)
        × (printed.new.items ≡ printed.old.items ++ more)) }
    ensures bad { result ≡ Err BadScript
        → (IsNone (replica_place setup.old.replicas.items replica)
        ⊎ IsSome (session_place setup.old.sessions.items name))
        × (printed.new.items ≡ printed.old.items) }
    ensures memory { result ≡ Err NoMemory
        → (more : List ℕ)
        × ((more ≡ [])
        ⊎ ((new : ScriptContents) × OpensAt (script_contents_of setup.old) replica name more new))
        × (printed.new.items ≡ printed.old.items ++ more) }
{
    let Some(place) = replica_place(&setup.replicas, replica) else {
        return Err(ServeFault::BadScript);
    };
    if session_place(&setup.sessions, &name).is_some() {
        return Err(ServeFault::BadScript);
    }
    let node = &mut setup.replicas[place].node;
    let connection = begin(alloc, node, &name, printed)?;
    setup.sessions.push(ScriptSession {
        name,
        replica,
        connection,
    })?;
    Ok(())
}

/// Opens a session at a replica, and prints its first answer; returns its connection, or `None` if
/// the session has ended.
fn begin(
    alloc: Global,
    node: &mut Node,
    name: &SessionName,
    printed: &mut Vec<u8>,
) -> Result<Option<Connection>, ServeFault>
    ensures ok { IfOk result (λ connection. (answer : Answer)
        × BeginsSession node.old.state answer node.new.state connection
        × (printed.new.items
        ≡ printed.old.items ++ transcript_line name.now Server (text_of answer))) }
    ensures err { IfErr result (λ fault. fault ≡ NoMemory) }
    ensures unchanged { OnErr result (printed.new.items ≡ printed.old.items) }
{
    match node.open(Auth::Preauth) {
        Ok(number) => {
            greet(alloc, name, printed)?;
            let framer = Framer::new(alloc, Limits::STANDARD);
            Ok(Some(Connection { number, framer }))
        }
        Err(OpenFault::TooManySessions) => {
            refuse_open(alloc, name, printed)?;
            Ok(None)
        }
        Err(OpenFault::NoMemory) => Err(ServeFault::NoMemory),
    }
}

fn greet(alloc: Global, name: &SessionName, printed: &mut Vec<u8>) -> Result<(), AllocError>
    ensures ok { OnOk result (printed.new.items
        ≡ printed.old.items
        ++ transcript_line name.now Server (text_of (Greeting PreAuthenticated))) }
    ensures err { OnErr result (printed.new.items ≡ printed.old.items) }
{
    let answer = Answer::Greeting {
        login: Login::PreAuthenticated,
    };
    write_answer(alloc, name, &answer, printed)
}

/// Prints the BYE of a replica that has too many open sessions.
fn refuse_open(alloc: Global, name: &SessionName, printed: &mut Vec<u8>) -> Result<(), AllocError>
    ensures ok { OnOk result (printed.new.items
        ≡ printed.old.items ++ transcript_line name.now Server (text_of (Bye FullReplica))) }
    ensures err { OnErr result (printed.new.items ≡ printed.old.items) }
{
    let answer = Answer::Bye {
        reason: ByeReason::TooManySessions,
    };
    write_answer(alloc, name, &answer, printed)
}

/// Feeds a session octets, and prints the resulting turns.
fn feed(
    alloc: Global,
    setup: &mut ScriptState,
    name: &SessionName,
    octets: &[u8],
    printed: &mut Vec<u8>,
) -> Result<(), ServeFault>
    ensures ok { OnOk result ((more : List ℕ)
        × FeedsSession (script_contents_of setup.old) name.now octets.now more
        (script_contents_of setup.new) × (printed.new.items ≡ printed.old.items ++ more)) }
    ensures bad { result ≡ Err BadScript
        → (IsTalking (script_contents_of setup.old) name.now → ⊥)
        × (printed.new.items ≡ printed.old.items) }
    ensures memory { result ≡ Err NoMemory
        → (more : List ℕ)
        × FeedsInPart (script_contents_of setup.old) name.now octets.now more
        × (printed.new.items ≡ printed.old.items ++ more) }
{
    let Some(place) = session_place(&setup.sessions, name) else {
        return Err(ServeFault::BadScript);
    };
    let session = &mut setup.sessions[place];
    let Some(at) = replica_place(&setup.replicas, session.replica) else {
        return Err(ServeFault::BadScript);
    };
    let Some(connection) = session.connection.take() else {
        return Err(ServeFault::BadScript);
    };
    let replica = &mut setup.replicas[at];
    let applied = replica.node.op_list().len();
    let piece = Piece {
        moment: setup.moment,
        octets,
    };
    session.connection = converse(alloc, &mut replica.node, connection, &piece, name, printed)?;
    replica
        .issued
        .add_ops_after(alloc, replica.node.op_list(), applied)?;
    Ok(())
}

/// Octets that arrive from a client.
#[derive(Drop)]
struct Piece<'a> {
    /// When they arrive.
    moment: Moment,
    /// The octets.
    octets: &'a [u8],
}

/// Feeds a connection octets, and prints the resulting turns; returns the connection, or `None` if
/// the session has ended.
fn converse(
    alloc: Global,
    node: &mut Node,
    connection: Connection,
    piece: &Piece<'_>,
    name: &SessionName,
    printed: &mut Vec<u8>,
) -> Result<Option<Connection>, ServeFault>
    ensures ok { IfOk result (λ left. (turns : List Turn)
        × TalksOn node.old.state connection piece.now.moment piece.now.octets.now turns
        node.new.state left
        × (printed.new.items ≡ printed.old.items ++ transcript name.now turns)) }
    ensures bad { result ≡ Err BadScript
        → (IsActive node.old.state connection.number → ⊥)
        × (printed.new.items ≡ printed.old.items) }
    ensures memory { result ≡ Err NoMemory
        → (turns : List Turn)
        × (count : ℕ)
        × HasTurns node.old.state connection piece.now.moment piece.now.octets.now turns
        × (printed.new.items ≡ printed.old.items ++ transcript name.now (take count turns)) }
{
    let Connection { number, mut framer } = connection;
    if !is_going(node, number) {
        return Err(ServeFault::BadScript);
    }
    match talk(alloc, node, &mut framer, number, piece.moment, piece.octets) {
        Ok(turns) => {
            write_turns(name, &turns, printed)?;
            if is_going(node, number) {
                Ok(Some(Connection { number, framer }))
            } else {
                Ok(None)
            }
        }
        Err(fault) => {
            write_turns(name, &fault.turns, printed)?;
            match fault.why {
                TalkFaultKind::Framing(FrameFaultKind::NoMemory) | TalkFaultKind::NoMemory => {
                    Err(ServeFault::NoMemory)
                }
                TalkFaultKind::Framing(_) | TalkFaultKind::LineRefused => Ok(None),
            }
        }
    }
}

/// Whether the session is open and hasn't logged out.
fn is_going(node: &Node, session: SessionNo) -> bool
    ensures { IsTrue result ↔ IsActive node.now.state session }
{
    match node.session(session) {
        Some(session) => !matches!(session.state, State::LoggedOut),
        None => false,
    }
}

/// Polls an idling session, and prints the answers that report changes.
fn poll(
    alloc: Global,
    setup: &mut ScriptState,
    name: &SessionName,
    printed: &mut Vec<u8>,
) -> Result<(), ServeFault>
    ensures ok { OnOk result ((more : List ℕ)
        × PollsAt (script_contents_of setup.old) name.now more (script_contents_of setup.new)
        × (printed.new.items ≡ printed.old.items ++ more)) }
    ensures bad { result ≡ Err BadScript
        → (IsIdling (script_contents_of setup.old) name.now → ⊥)
        × (printed.new.items ≡ printed.old.items) }
    ensures memory { result ≡ Err NoMemory
        → (more : List ℕ)
        × PollsInPart (script_contents_of setup.old) name.now more
        × (printed.new.items ≡ printed.old.items ++ more) }
{
    let Some(place) = session_place(&setup.sessions, name) else {
        return Err(ServeFault::BadScript);
    };
    let session = &setup.sessions[place];
    let Some(at) = replica_place(&setup.replicas, session.replica) else {
        return Err(ServeFault::BadScript);
    };
    let Some(connection) = &session.connection else {
        return Err(ServeFault::BadScript);
    };
    let node = &mut setup.replicas[at].node;
    poll_node(alloc, node, connection.number, name, printed)
}

/// Polls a session of a node, and prints the answers; `BadScript` if the session doesn't idle.
fn poll_node(
    alloc: Global,
    node: &mut Node,
    session: SessionNo,
    name: &SessionName,
    printed: &mut Vec<u8>,
) -> Result<(), ServeFault>
    ensures ok { OnOk result ((turns : List Turn) × IsSome (idling_at node.old.state session)
        × IsPoll node.old.state session turns node.new.state
        × (printed.new.items ≡ printed.old.items ++ transcript name.now turns)) }
    ensures bad { result ≡ Err BadScript
        → IsNone (idling_at node.old.state session) × (printed.new.items ≡ printed.old.items) }
    ensures memory { result ≡ Err NoMemory
        → (turns : List Turn)
        × (count : ℕ)
        × HasPolledTurns node.old.state session turns
        × (printed.new.items ≡ printed.old.items ++ transcript name.now (take count turns)) }
{
    if !is_idling(node, session) {
        return Err(ServeFault::BadScript);
    }
    match poll_turns(alloc, node, session) {
        Ok(answers) => {
            write_turns(name, &answers, printed)?;
            Ok(())
        }
        Err(broken) => {
            write_turns(name, &broken.turns, printed)?;
            Err(ServeFault::NoMemory)
        }
    }
}

/// Whether the session is open and idles.
fn is_idling(node: &Node, session: SessionNo) -> bool
    ensures idling { IsTrue result ↔ IsSome (idling_at node.now.state session) }
    ensures idles { IsTrue result → IsIdlingAt node.now.state session }
{
    match node.session(session) {
        Some(session) => session.idling.is_some(),
        None => false,
    }
}

/// Closes a session.
fn close(setup: &mut ScriptState, name: &SessionName) -> Result<(), ServeFault>
    ensures ok { OnOk result
        (ClosesSession (script_contents_of setup.old) name.now (script_contents_of setup.new)) }
    ensures bad { OnErr result (IsTalking (script_contents_of setup.old) name.now → ⊥) }
    ensures err { IfErr result (λ fault. fault ≡ BadScript) }
{
    let Some(place) = session_place(&setup.sessions, name) else {
        return Err(ServeFault::BadScript);
    };
    let session = &mut setup.sessions[place];
    let Some(at) = replica_place(&setup.replicas, session.replica) else {
        return Err(ServeFault::BadScript);
    };
    let Some(connection) = session.connection.take() else {
        return Err(ServeFault::BadScript);
    };
    let node = &mut setup.replicas[at].node;
    if !node.is_open(connection.number) {
        return Err(ServeFault::BadScript);
    }
    node.close(connection.number);
    Ok(())
}

/// Prints the dump of a replica.
fn show(
    alloc: Global,
    setup: &ScriptState,
    name: ReplicaId,
    printed: &mut Vec<u8>,
) -> Result<(), ServeFault>
    ensures ok { OnOk result ((more : List ℕ) × ShowsDump (script_contents_of setup.now) name more
        × (printed.new.items ≡ printed.old.items ++ more)) }
    ensures bad { result ≡ Err BadScript → IsNone (replica_place setup.now.replicas.items name) }
    ensures err { OnErr result (printed.new.items ≡ printed.old.items) }
{
    let Some(place) = replica_place(&setup.replicas, name) else {
        return Err(ServeFault::BadScript);
    };
    write_dump(alloc, &setup.replicas[place].node, printed)?;
    Ok(())
}

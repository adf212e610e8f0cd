//! The thread that sends an idling session what changed (RFC 2177, section 3).

ghost use Rattle.std.specs.Prelude.{◌≡◌, IfOk};
ghost use Rattle.std.specs.List.{flat_map};
ghost use Rattle.std.specs.Option.{option_map};
ghost use Rattle.imap_answers.specs.AnswerText.{text_of_answer as printed_answer};
ghost use Rattle.server_runtime.specs.Calls.{text_of_poll};

use crate::connection_threads::{ConnectionContext, ReplicaContext, bye_of, write_bye};
use crate::replica_store::SyncFault;
use crate::socket::SocketWriter;
use crate::synced_sink::sync_shown;
use imap_answers::Answer;
use imap_node::Reply;
use imap_print::print;
use replica_lock::{CallFault, Outcome, Pass, Shared};
use std::alloc::{AllocError, Global};
use std::io::Write;
use std::net::Shutdown;
use std::rt::Clock;
use std::sync::ledger::Ledger;
use std::sync::{Mutex, Wait};

/// Sends the session of a connection, while it idles, what other sessions and replicas changed,
/// until the connection ends. The thread wakes when the session's own feed has something to send,
/// and at the end of the connection; otherwise it sleeps. The answers of a poll are written whole;
/// if that fails, the connection is shut down.
pub fn feed<L: Ledger, R: Wait + Clock>(
    rt: &R,
    alloc: Global,
    connection: &ConnectionContext<'_, L>,
) {
    let shared_phase = connection.shared_phase;
    let mut looked = 0;
    for _ in rt.forever() {
        if !shared_phase.await_idling(rt) {
            return;
        }
        let Some(session) = connection.pass.lock(rt).session() else {
            return;
        };
        let Some(now) = connection
            .context
            .shared
            .wait_session_change(rt, session, looked)
        else {
            if end_if_failed(rt, connection) {
                return;
            }
            continue;
        };
        sync_applied(rt, alloc, connection.context);
        if !shared_phase.await_idling(rt) {
            return;
        }
        match poll_and_write(rt, alloc, connection) {
            PollOutcome::Done => looked = now,
            PollOutcome::Busy => {}
            PollOutcome::Failed => {
                let _ = connection.client.stream.shutdown(Shutdown::Both);
                return;
            }
        }
    }
}

/// Ends the connection of an idling session if the replica's store failed. False if the store
/// failed and the connection's thread is at work, which finds out itself.
fn end_if_failed<L: Ledger, R: Wait + Clock>(
    rt: &R,
    connection: &ConnectionContext<'_, L>,
) -> bool {
    let Some(store) = connection.context.store else {
        return true;
    };
    if !store.has_failed(rt) {
        return true;
    }
    let phase = connection.shared_phase.phase.lock(rt);
    let idles = phase.reads && phase.idles;
    if idles {
        write_bye(rt, connection.client, bye_of(SyncFault::StoreFailed));
        let _ = connection.client.stream.shutdown(Shutdown::Both);
    }
    drop(phase);
    idles
}

/// Syncs what the replica applied, before the poll that shows it: the poll's answers are written
/// while the connection's phase is locked, and seldom have to wait then.
fn sync_applied<L: Ledger, R: Wait>(rt: &R, alloc: Global, context: &ReplicaContext<'_, L>) {
    if let Some(store) = context.store {
        let _ = store.sync_to(rt, alloc, context, context.shared.op_count(rt));
    }
}

/// The result of sending an idling session what changed.
#[derive(Clone, Copy, Debug, PartialEq, Eq)]
enum PollOutcome {
    /// The answers were written, or there were none.
    Done,
    /// The connection's thread was at work, and nothing was sent.
    Busy,
    /// The answers can't be written.
    Failed,
}

/// Polls the session, if it still idles and its connection's thread still waits for the client, and
/// writes the answers once all that they show is synced.
fn poll_and_write<L: Ledger, R: Wait + Clock>(
    rt: &R,
    alloc: Global,
    connection: &ConnectionContext<'_, L>,
) -> PollOutcome {
    let phase = connection.shared_phase.phase.lock(rt);
    if !phase.reads || !phase.idles {
        return PollOutcome::Busy;
    }
    let written = match poll_text(rt, alloc, connection.context.shared, connection.pass) {
        Some(text) => write_synced(rt, alloc, connection, &text),
        None => false,
    };
    drop(phase);
    if written {
        PollOutcome::Done
    } else {
        PollOutcome::Failed
    }
}

/// Writes the text of a poll, if there is any, once all that it shows is synced. False if that or
/// the write fails.
fn write_synced<L: Ledger, R: Wait + Clock>(
    rt: &R,
    alloc: Global,
    connection: &ConnectionContext<'_, L>,
    text: &[u8],
) -> bool {
    if text.is_empty() {
        return true;
    }
    if let Err(fault) = sync_shown(rt, alloc, connection.context, connection.pass) {
        write_bye(rt, connection.client, bye_of(fault));
        return false;
    }
    SocketWriter::new(rt, connection.client)
        .write_all(text)
        .is_ok()
}

/// The text of a poll's answers, empty if the poll is refused. `None` if memory runs out or the
/// journal was cut.
fn poll_text<L: Ledger, R: Wait>(
    rt: &R,
    alloc: Global,
    shared: &Shared<L>,
    pass: &Mutex<Pass<L>>,
) -> Option<Vec<u8>> {
    let mut pass = pass.lock(rt);
    if pass.session().is_none() {
        return Some(Vec::new(alloc));
    }
    match shared.poll(rt, alloc, &mut pass) {
        Ok(()) => text_of_outcome(alloc, pass.last()).ok(),
        Err(CallFault::NoRoom | CallFault::NoStoreRoom { .. }) => Some(Vec::new(alloc)),
        Err(CallFault::Torn { .. }) => None,
    }
}

/// The text of the answers to a poll with this outcome.
fn text_of_outcome(alloc: Global, last: Option<&Outcome>) -> Result<Vec<u8>, AllocError>
    ensures { IfOk result (λ text. text.items ≡ text_of_poll (option_map (λ o. o.now) last.entry)) }
{
    match last {
        Some(
            Outcome::Replied {
                reply: Reply::Done { answers, .. },
            },
        ) => text_of_answers(alloc, answers.as_slice()),
        _ => Ok(Vec::new(alloc)),
    }
}

/// The text of the answers, one after another.
fn text_of_answers(alloc: Global, answers: &[Answer]) -> Result<Vec<u8>, AllocError>
    ensures { IfOk result (λ text. text.items ≡ flat_map printed_answer answers.now) }
{
    let mut text = Vec::new(alloc);
    for answer in answers {
        print(answer, &mut text)?;
    }
    Ok(text)
}

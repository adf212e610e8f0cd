//! One run, and its result.

use crate::client::Client;
use crate::idle::clients::IdleClients;
use crate::idle::random_commands::{append, random_command};
use crate::idle::scene::{
    Scene, client_after_select, command, done, give, give_text, poll, session,
};
use case_lines::{Chance, Trouble};
use crdt_ops::SoundOp;
use imap_node::{Answers, Node, SessionNo};
use std::alloc::Global;

/// The result of a run.
#[derive(Clone, Copy)]
pub struct RunResult {
    /// Whether the view made of the answers is that of a session that selects the mailbox now.
    pub is_right: bool,
    /// Whether this holds of the view of a client that ignores EXPUNGE.
    pub without_expunge: bool,
    /// Whether this holds of the view of a client that ignores EXISTS.
    pub without_exists: bool,
    /// Whether this holds of the view of a client that ignores FETCH.
    pub without_fetch: bool,
    /// Whether the selected mailbox no longer exists.
    pub has_ended: bool,
}

/// Plays the run with this number. `Err` if it can't be played, or memory runs out.
pub fn play_run(alloc: Global, number: u64) -> Result<RunResult, Trouble> {
    let mut chance = Chance::new(number);
    let name = if chance.is_one_in(2) { "INBOX" } else { "work" };
    let mut scene = Scene::new(alloc)?;
    let mut clients = IdleClients::new(alloc);
    let run_result = play(alloc, &mut chance, &mut scene, name, &mut clients);
    drop(clients);
    drop(scene);
    run_result
}

fn play(
    alloc: Global,
    chance: &mut Chance,
    scene: &mut Scene,
    name: &str,
    clients: &mut IdleClients,
) -> Result<RunResult, Trouble> {
    prepare(alloc, chance, scene, name)?;
    begin(alloc, scene, name, clients)?;
    let steps = chance.below(24);
    for _ in 0..steps.saturating_add(8) {
        step(alloc, chance, scene, name, clients)?;
    }
    end(alloc, scene, clients)?;
    result_of_run(alloc, scene, name, clients)
}

/// Creates the mailboxes and some messages, and delivers some of that to the other replica.
fn prepare(
    alloc: Global,
    chance: &mut Chance,
    scene: &mut Scene,
    name: &str,
) -> Result<(), Trouble> {
    let session = scene.sessions.near;
    give(alloc, &mut scene.near, session, "a CREATE work\r\n")?;
    give(alloc, &mut scene.near, session, "a CREATE other\r\n")?;
    append_some(alloc, chance, &mut scene.near, session, name)?;
    exchange(alloc, chance, &scene.near, &mut scene.far)
}

/// Appends up to five messages.
fn append_some(
    alloc: Global,
    chance: &mut Chance,
    node: &mut Node,
    session: SessionNo,
    name: &str,
) -> Result<(), Trouble> {
    for _ in 0..chance.below(6) {
        let text = append(alloc, chance, name)?;
        give_text(alloc, node, session, text)?;
    }
    Ok(())
}

/// The watching session selects the mailbox, fetches its UIDs and flags, and idles.
fn begin(
    alloc: Global,
    scene: &mut Scene,
    name: &str,
    clients: &mut IdleClients,
) -> Result<(), Trouble> {
    issue_select(alloc, scene, name, clients)?;
    issue_command(alloc, scene, clients, "b UID FETCH 1:* FLAGS\r\n")?;
    issue_command(alloc, scene, clients, "c IDLE\r\n")
}

fn issue_select(
    alloc: Global,
    scene: &mut Scene,
    name: &str,
    clients: &mut IdleClients,
) -> Result<(), Trouble> {
    let select = format!(in alloc; "a SELECT {name}\r\n")?;
    let done = issue_command(alloc, scene, clients, select.as_str());
    drop(select);
    done
}

/// Issues a command of the watching session, whose answers all clients take.
fn issue_command(
    alloc: Global,
    scene: &mut Scene,
    clients: &mut IdleClients,
    text: &str,
) -> Result<(), Trouble> {
    match command(alloc, &mut scene.near, scene.sessions.watcher, text)? {
        Some(answers) => {
            let received = clients.receive_all(alloc, answers.as_slice());
            drop(answers);
            Ok(received?)
        }
        None => Err(Trouble::NotACase),
    }
}

/// Executes one random step.
fn step(
    alloc: Global,
    chance: &mut Chance,
    scene: &mut Scene,
    name: &str,
    clients: &mut IdleClients,
) -> Result<(), Trouble> {
    match chance.below(8) {
        0 | 1 | 2 => random_command(alloc, chance, &mut scene.near, scene.sessions.near, name),
        3 | 4 => random_command(alloc, chance, &mut scene.far, scene.sessions.far, name),
        5 => exchange(alloc, chance, &scene.far, &mut scene.near),
        6 => exchange(alloc, chance, &scene.near, &mut scene.far),
        _ => poll_and_receive(alloc, scene, clients),
    }
}

fn poll_and_receive(
    alloc: Global,
    scene: &mut Scene,
    clients: &mut IdleClients,
) -> Result<(), Trouble> {
    let sent = poll(alloc, &mut scene.near, scene.sessions.watcher)?;
    receive(alloc, clients, sent)
}

fn end(alloc: Global, scene: &mut Scene, clients: &mut IdleClients) -> Result<(), Trouble> {
    let sent = done(alloc, &mut scene.near, scene.sessions.watcher)?;
    receive(alloc, clients, sent)
}

fn receive(alloc: Global, clients: &mut IdleClients, sent: Option<Answers>) -> Result<(), Trouble> {
    match sent {
        Some(answers) => {
            let received = clients.receive(alloc, answers.as_slice());
            drop(answers);
            Ok(received?)
        }
        None => Err(Trouble::NoMemory),
    }
}

/// Delivers some of the operations that `from` applied and `to` didn't, in either order.
fn exchange(alloc: Global, chance: &mut Chance, from: &Node, to: &mut Node) -> Result<(), Trouble> {
    let mut ops = from.ops_since(alloc, to.clock())?;
    if chance.is_one_in(3) {
        ops.reverse();
    }
    for op in ops {
        if chance.is_one_in(5) {
            drop(op);
        } else {
            deliver(alloc, to, op)?;
        }
    }
    Ok(())
}

fn deliver(alloc: Global, node: &mut Node, op: SoundOp) -> Result<(), Trouble> {
    match node.deliver(alloc, op) {
        Ok(_) => Ok(()),
        Err(_) => Err(Trouble::NotACase),
    }
}

/// Compares the clients' views with that of a new session.
fn result_of_run(
    alloc: Global,
    scene: &mut Scene,
    name: &str,
    clients: &IdleClients,
) -> Result<RunResult, Trouble> {
    let fresh = fresh(alloc, &mut scene.near, name)?;
    let run_result = compare_views(alloc, clients, &fresh);
    drop(fresh);
    Ok(run_result)
}

/// Compares the clients' views with that of a new session; with one without messages, if the
/// mailbox has another UIDVALIDITY now.
fn compare_views(alloc: Global, clients: &IdleClients, fresh: &Client) -> RunResult {
    if fresh.validity() == clients.whole.validity() {
        return compare_with(clients, fresh, false);
    }
    let empty = Client::new(alloc);
    let run_result = compare_with(clients, &empty, true);
    drop(empty);
    run_result
}

fn compare_with(clients: &IdleClients, expected: &Client, has_ended: bool) -> RunResult {
    RunResult {
        is_right: clients.whole.agrees_with_client(expected),
        without_expunge: clients.without_expunge.agrees_with_client(expected),
        without_exists: clients.without_exists.agrees_with_client(expected),
        without_fetch: clients.without_fetch.agrees_with_client(expected),
        has_ended,
    }
}

/// A new session's view of the mailbox, with the UIDs and flags of all its messages; nothing if it
/// doesn't exist.
fn fresh(alloc: Global, node: &mut Node, name: &str) -> Result<Client, Trouble> {
    let session = session(node)?;
    match client_after_select(alloc, node, session, name)? {
        Some(client) => with_all_fetched(alloc, node, session, client),
        None => Ok(Client::new(alloc)),
    }
}

/// What a client knows of the mailbox after it fetched the UIDs and flags of all its messages.
fn with_all_fetched(
    alloc: Global,
    node: &mut Node,
    session: SessionNo,
    client: Client,
) -> Result<Client, Trouble> {
    let mut client = client;
    match fetch_all(alloc, node, session, &mut client) {
        Ok(()) => Ok(client),
        Err(trouble) => {
            drop(client);
            Err(trouble)
        }
    }
}

fn fetch_all(
    alloc: Global,
    node: &mut Node,
    session: SessionNo,
    client: &mut Client,
) -> Result<(), Trouble> {
    match command(alloc, node, session, "b UID FETCH 1:* FLAGS\r\n")? {
        Some(answers) => {
            let taken = client.apply_answers(alloc, answers.as_slice());
            drop(answers);
            Ok(taken?)
        }
        None => Err(Trouble::NoMemory),
    }
}

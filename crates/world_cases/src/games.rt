//! Random worlds.

ghost use Rattle.std.specs.Prelude.{◌≡◌, IfOk};

use crate::event_lines::cut;
use crate::random_events::{Note, random_event};
use crate::session_clients::SessionClients;
use crate::tally::Tally;
use case_lines::{Chance, Trouble, Words, long_number};
use imap_connection::write_dump;
use imap_node::Node;
use std::alloc::{AllocError, Global};
use tags_clocks::ReplicaId;
use uid_projection::Counters;
use world_core::{Agreement, Event, Outcomes, World, agree, run, settle};

/// How many events happen in a random world.
const EVENTS: u32 = 300;

/// The most events of one run. The events of the next run are chosen after it.
const MOST_IN_RUN: u32 = 10;

/// A random world and its progress.
#[derive(Drop)]
struct Game {
    world: World,
    progress: Progress,
}

/// The progress of a world so far.
#[derive(Drop)]
struct Progress {
    session_clients: SessionClients,
    /// How many events were taken, and not passed over.
    taken: u32,
    /// What went wrong, if anything.
    wrong: Option<&'static str>,
}

/// Plays the worlds with the numbers from the first to the last, and puts what occurred in them.
pub fn play_random(
    alloc: Global,
    asked: &str,
    numbers: &str,
    page: &mut Words,
) -> Result<(), Trouble> {
    let (first, last) = cut(numbers);
    let first = long_number(first)?;
    let last = long_number(last)?;
    let mut tally = Tally::new();
    for world in first..=last {
        play(alloc, world, &mut tally)?;
    }
    page.put(asked);
    page.put("\n");
    tally.put_tally(page);
    Ok(())
}

/// Plays the world with this number to its end.
fn play(alloc: Global, number: u64, tally: &mut Tally) -> Result<(), Trouble> {
    let mut chance = Chance::new(number);
    let mut game = Game {
        world: world(alloc)?,
        progress: Progress {
            session_clients: SessionClients::new(alloc)?,
            taken: 0,
            wrong: None,
        },
    };
    let mut left = EVENTS;
    for _ in 0..EVENTS {
        let count = chance.below(MOST_IN_RUN).saturating_add(1).min(left);
        left = left.saturating_sub(count);
        game = run_some(alloc, &mut chance, game, count, tally)?;
    }
    end(alloc, number, game, tally)
}

/// Five replicas that received nothing.
fn world(alloc: Global) -> Result<World, Trouble> {
    let starts = [start(1)?, start(2)?, start(3)?, start(4)?, start(5)?];
    match World::new(alloc, &starts) {
        Ok(world) => Ok(world),
        Err(_) => Err(Trouble::NoMemory),
    }
}

fn start(number: u32) -> Result<Counters, Trouble>
    ensures { IfOk result (λ start. start.uid ≡ 1) }
{
    match ReplicaId::new(number) {
        Some(replica) => Ok(Counters {
            replica,
            uid: 1,
            k: 1,
        }),
        None => Err(Trouble::NotACase),
    }
}

/// Runs `count` random events in one run.
fn run_some(
    alloc: Global,
    chance: &mut Chance,
    game: Game,
    count: u32,
    tally: &mut Tally,
) -> Result<Game, Trouble> {
    let Game { world, progress } = game;
    let mut notes = Vec::new(alloc);
    let events = choose_events(alloc, chance, world.nodes(), count, &mut notes)?;
    let outcomes = run(alloc, world, events);
    game_after_run(alloc, &notes, outcomes, progress, tally)
}

/// Random events at these nodes; `notes` gets what clients must know about them.
fn choose_events(
    alloc: Global,
    chance: &mut Chance,
    nodes: &[Node],
    count: u32,
    notes: &mut Vec<Note>,
) -> Result<Vec<Event>, Trouble> {
    let mut events = Vec::new(alloc);
    for _ in 0..count {
        let noted = random_event(alloc, chance, nodes)?;
        notes.push(noted.note)?;
        events.push(noted.event)?;
    }
    Ok(events)
}

/// The game after a run, and whether its sessions' views are what their clients received.
fn game_after_run(
    alloc: Global,
    notes: &[Note],
    outcomes: Outcomes,
    progress: Progress,
    tally: &mut Tally,
) -> Result<Game, Trouble> {
    let Outcomes { world, list, whole } = outcomes;
    let Progress {
        session_clients,
        taken,
        wrong,
    } = progress;
    let mut session_clients = session_clients;
    let mut taken = taken;
    if !whole || list.len() != notes.len() {
        return Err(Trouble::NoMemory);
    }
    for (note, outcome) in notes.iter().zip(list.iter()) {
        session_clients.receive(alloc, *note, outcome, tally)?;
        taken = taken.saturating_add(u32::from(tally.note(outcome)));
    }
    let wrong = if session_clients.agrees_with_nodes(world.nodes()) {
        wrong
    } else {
        Some("a session's view differs from what it was sent")
    };
    Ok(Game {
        world,
        progress: Progress {
            session_clients,
            taken,
            wrong,
        },
    })
}

/// Settles the world, and notes whether it ends as it should.
fn end(alloc: Global, number: u64, game: Game, tally: &mut Tally) -> Result<(), Trouble> {
    let mut nodes = game.world.into_nodes();
    tally.has_idle_world = tally.has_idle_world || game.progress.taken <= EVENTS / 4;
    if let Some(how) = game.progress.wrong {
        tally.note_failure(number, how);
    }
    let issued = issued_by(&nodes);
    if settle(alloc, &mut nodes).is_err() {
        tally.note_failure(number, "it does not settle");
    }
    if !all_applied(&nodes, issued) {
        tally.note_failure(number, "an operation is missing, or held");
    }
    if !all_agree(&nodes) {
        tally.note_failure(number, "two replicas differ");
    }
    if !have_equal_dumps(alloc, &nodes)? {
        tally.note_failure(number, "two replicas hold other mail");
    }
    Ok(())
}

/// How many operations the nodes issued in total.
fn issued_by(nodes: &[Node]) -> u64 {
    let mut count = 0_u64;
    for node in nodes {
        let own = node.clock().get(node.replica().id());
        count = count.saturating_add(u64::from(own));
    }
    count
}

/// Whether each node applied `count` operations, and holds none.
fn all_applied(nodes: &[Node], count: u64) -> bool {
    for node in nodes {
        if node.op_list().len() as u64 != count || node.held().len() != 0 {
            return false;
        }
    }
    true
}

fn all_agree(nodes: &[Node]) -> bool {
    for (place, node) in nodes.iter().enumerate() {
        if !agrees_with(node, &nodes[place..]) {
            return false;
        }
    }
    true
}

fn agrees_with(node: &Node, others: &[Node]) -> bool {
    for other in others {
        if agree(node, other) != Agreement::Same || agree(other, node) != Agreement::Same {
            return false;
        }
    }
    true
}

/// Whether the dumps of all nodes are the same except for the replica's name in the first line.
fn have_equal_dumps(alloc: Global, nodes: &[Node]) -> Result<bool, AllocError> {
    let Some((first, others)) = nodes.split_first() else {
        return Ok(true);
    };
    let first = dump(alloc, first)?;
    for other in others {
        let other = dump(alloc, other)?;
        if after_first_line(&first) != after_first_line(&other) {
            return Ok(false);
        }
    }
    Ok(true)
}

fn dump(alloc: Global, node: &Node) -> Result<Vec<u8>, AllocError> {
    let mut text = Vec::new(alloc);
    write_dump(alloc, node, &mut text)?;
    Ok(text)
}

fn after_first_line(text: &[u8]) -> &[u8] {
    match text_fields::split(b'\n', text) {
        Some((_, rest)) => rest,
        None => text,
    }
}

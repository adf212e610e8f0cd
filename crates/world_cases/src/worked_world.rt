//! Worlds whose events are listed line by line.

use crate::event_lines::{cut, event, starts};
use crate::games::play_random;
use crate::outcome_text::put_outcome;
use crate::settlement::{agreement, are_from_one, settle_text};
use case_lines::{Trouble, Words, replica};
use imap_node::Node;
use std::alloc::{AllocError, Global};
use tags_clocks::ReplicaId;
use uid_projection::Counters;
use world_core::{Event, Outcomes, World, WorldFault, run};

/// The replicas after all runs so far.
#[derive(Drop)]
enum Replicas {
    /// Nothing was run.
    NotRun,
    /// A world in which further events can happen.
    World(World),
    /// The nodes after settling.
    Settled(Vec<Node>),
}

impl Replicas {
    fn nodes(&self) -> &[Node] {
        match self {
            Replicas::NotRun => &[],
            Replicas::World(world) => world.nodes(),
            Replicas::Settled(nodes) => nodes,
        }
    }
}

/// A worked world as far as it was read.
#[derive(Drop)]
struct WorkedWorld<'a> {
    starts: Vec<Counters>,
    /// The lines of the events of the next run.
    lines: Vec<&'a str>,
    events: Vec<Event>,
    replicas: Replicas,
}

impl<'a> WorkedWorld<'a> {
    fn new(alloc: Global) -> WorkedWorld<'a> {
        WorkedWorld {
            starts: Vec::new(alloc),
            lines: Vec::new(alloc),
            events: Vec::new(alloc),
            replicas: Replicas::NotRun,
        }
    }
}

/// Plays worked and random worlds, and returns their lines with the outcomes. `Err` if memory runs
/// out.
pub fn play(alloc: Global, text: &str) -> Result<Vec<u8>, AllocError> {
    let mut page = Words::new(alloc);
    let mut worked = WorkedWorld::new(alloc);
    for line in text.split_terminator('\n') {
        take_line(alloc, line, &mut worked, &mut page);
    }
    page.finish()
}

/// Takes a line: skips an old answer, puts a title or a comment unchanged, and executes anything
/// else.
fn take_line<'a>(alloc: Global, line: &'a str, worked: &mut WorkedWorld<'a>, page: &mut Words) {
    if line.starts_with("  ") {
        return;
    }
    if line.is_empty() || line.starts_with('#') || line.starts_with("== ") {
        page.put(line);
        page.put("\n");
        return;
    }
    if let Err(trouble) = take_asked(alloc, line, worked, page) {
        page.put(line);
        page.put_trouble("\n  ", trouble);
        page.put("\n");
    }
}

fn take_asked<'a>(
    alloc: Global,
    asked: &'a str,
    worked: &mut WorkedWorld<'a>,
    page: &mut Words,
) -> Result<(), Trouble> {
    let (word, rest) = cut(asked);
    match word {
        "replicas" => {
            *worked = WorkedWorld::new(alloc);
            worked.starts = starts(alloc, rest)?;
            put_line(asked, page);
            Ok(())
        }
        "run" => run_lines(alloc, worked, page),
        "add" => add(alloc, asked, rest, &mut worked.replicas, page),
        "settle" => {
            settle(alloc, asked, worked, page);
            Ok(())
        }
        "agree" => put_agreement(asked, rest, worked.replicas.nodes(), page),
        "random" => play_random(alloc, asked, rest, page),
        _ => {
            let event = event(alloc, asked)?;
            worked.lines.push(asked)?;
            worked.events.push(event)?;
            Ok(())
        }
    }
}

fn put_line(line: &str, page: &mut Words) {
    page.put(line);
    page.put("\n");
}

fn put_answer(asked: &str, answer: &str, page: &mut Words) {
    page.put(asked);
    page.put("\n  ");
    page.put(answer);
    page.put("\n");
}

/// Runs all events after the last run, and puts the outcome of each.
fn run_lines(alloc: Global, worked: &mut WorkedWorld, page: &mut Words) -> Result<(), Trouble> {
    match std::mem::replace(&mut worked.replicas, Replicas::NotRun) {
        Replicas::NotRun => begin(alloc, worked, page),
        Replicas::World(world) => {
            run_world(alloc, worked, world, page);
            Ok(())
        }
        Replicas::Settled(nodes) => {
            drop(nodes);
            Err(Trouble::NotACase)
        }
    }
}

/// Runs the events in a new world.
fn begin(alloc: Global, worked: &mut WorkedWorld, page: &mut Words) -> Result<(), Trouble> {
    if !are_from_one(&worked.starts) {
        return Err(Trouble::NotACase);
    }
    match World::new(alloc, &worked.starts) {
        Ok(world) => run_world(alloc, worked, world, page),
        Err(fault) => put_no_world("run", fault, page),
    }
    Ok(())
}

fn run_world(alloc: Global, worked: &mut WorkedWorld, world: World, page: &mut Words) {
    let events = std::mem::replace(&mut worked.events, Vec::new(alloc));
    let outcomes = run(alloc, world, events);
    put_outcomes(alloc, &worked.lines, &outcomes, page);
    worked.lines.clear();
    worked.replicas = Replicas::World(outcomes.world);
}

/// Has a replica join the world by a separate call, and puts its result.
fn add(
    alloc: Global,
    asked: &str,
    names: &str,
    replicas: &mut Replicas,
    page: &mut Words,
) -> Result<(), Trouble> {
    let (name, peer) = cut(names);
    let name = replica(name)?;
    let peer = replica(peer)?;
    let Replicas::World(world) = replicas else {
        return Err(Trouble::NotACase);
    };
    match world.join(alloc, name, peer) {
        Ok(()) => put_answer(asked, "Ok", page),
        Err(fault) => put_no_world(asked, fault, page),
    }
    Ok(())
}

/// Has the replicas exchange what they received. Nothing further happens in their world.
fn settle(alloc: Global, asked: &str, worked: &mut WorkedWorld, page: &mut Words) {
    let mut nodes = match std::mem::replace(&mut worked.replicas, Replicas::NotRun) {
        Replicas::NotRun => Vec::new(alloc),
        Replicas::World(world) => world.into_nodes(),
        Replicas::Settled(nodes) => nodes,
    };
    put_answer(asked, settle_text(alloc, &mut nodes), page);
    worked.replicas = Replicas::Settled(nodes);
}

/// Puts the reason why there is no such world, or no such replica in it.
fn put_no_world(asked: &str, fault: WorldFault, page: &mut Words) {
    match fault {
        WorldFault::TwoAlike { id } => put_two_alike(asked, id, page),
        WorldFault::NoMemory => put_answer(asked, "NoMemory", page),
        WorldFault::NoPeer => put_answer(asked, "NoPeer", page),
        WorldFault::Exhausted => put_answer(asked, "Exhausted", page),
    }
}

fn put_two_alike(asked: &str, id: ReplicaId, page: &mut Words) {
    page.put(asked);
    page.put_number("\n  TwoAlike ", u64::from(id.get()));
    page.put("\n");
}

fn put_outcomes(alloc: Global, lines: &[&str], outcomes: &Outcomes, page: &mut Words) {
    for (line, outcome) in lines.iter().zip(outcomes.list.iter()) {
        put_outcome(alloc, line, outcome, page);
    }
    page.put_number("run\n  ", outcomes.list.len() as u64);
    page.put(" outcomes, ");
    page.put(if outcomes.whole { "whole" } else { "not whole" });
    page.put("\n");
}

fn put_agreement(
    asked: &str,
    names: &str,
    nodes: &[Node],
    page: &mut Words,
) -> Result<(), Trouble> {
    let (one, other) = cut(names);
    let one = node_of(replica(one)?, nodes)?;
    let other = node_of(replica(other)?, nodes)?;
    put_answer(asked, agreement(one, other), page);
    Ok(())
}

fn node_of(name: ReplicaId, nodes: &[Node]) -> Result<&Node, Trouble> {
    for node in nodes {
        if node.replica().id() == name {
            return Ok(node);
        }
    }
    Err(Trouble::NotACase)
}

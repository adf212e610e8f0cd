//! The events of a world, each passed to the node that it names.

ghost use Rattle.std.specs.Prelude.{◌≡◌};
ghost use Rattle.world_core.specs.Replicas.{nodes_by_name, all_without_room};
ghost use Rattle.world_core.specs.Steps.{Steps};
ghost use Rattle.world_core.specs.declared.event.Event.TheVariants as events;

use crate::event::{Event, Outcome};
use crate::node_places::{find_issued, place_of};
use crate::session_events;
use crate::world_join::join_step;
use causal_inbox::DeliverFault;
use imap_node::{Auth, Node, SessionNo};
use imap_syntax::{IdleLine, Tagged};
use imap_types::Moment;
use merge_laws::Caused;
use std::alloc::Global;
use tags_clocks::{OpId, ReplicaId};

/// Takes one event, and returns its outcome.
pub fn step(alloc: Global, nodes: &mut Vec<Node>, event: Event) -> Outcome
    ensures { Steps (nodes_by_name (all_without_room nodes.old.items)) event result
        (nodes_by_name (all_without_room nodes.new.items)) }
{
    match event {
        Event::Open { at, auth } => open(nodes, at, auth),
        Event::Command {
            at,
            session,
            moment,
            tagged,
        } => command(alloc, nodes, at, session, moment, tagged),
        Event::IdleLine { at, session, line } => idle_line(alloc, nodes, at, session, line),
        Event::Poll { at, session } => poll(alloc, nodes, at, session),
        Event::Deliver { at, id } => deliver(alloc, nodes, at, id),
        Event::Drain { at } => drain(alloc, nodes, at),
        Event::Close { at, session } => close(nodes, at, session),
        Event::Join { name, peer } => join_step(alloc, nodes, name, peer),
        Event::Restart { at } => restart(alloc, nodes, at),
    }
}

fn open(nodes: &mut [Node], at: ReplicaId, auth: Auth) -> Outcome
    ensures { Steps (nodes_by_name (all_without_room nodes.old)) (events.Open at auth) result
        (nodes_by_name (all_without_room nodes.new)) }
{
    match place_of(nodes, at) {
        Some(place) => session_events::open(&mut nodes[place], auth),
        None => {
            drop(auth);
            Outcome::PassedOver
        }
    }
}

fn command(
    alloc: Global,
    nodes: &mut [Node],
    at: ReplicaId,
    session: SessionNo,
    moment: Moment,
    tagged: Tagged,
) -> Outcome
    ensures { Steps (nodes_by_name (all_without_room nodes.old))
        (events.Command at session moment tagged) result
        (nodes_by_name (all_without_room nodes.new)) }
{
    match place_of(nodes, at) {
        Some(place) => session_events::command(alloc, &mut nodes[place], session, moment, tagged),
        None => {
            drop(tagged);
            Outcome::PassedOver
        }
    }
}

fn idle_line(
    alloc: Global,
    nodes: &mut [Node],
    at: ReplicaId,
    session: SessionNo,
    line: IdleLine,
) -> Outcome
    ensures { Steps (nodes_by_name (all_without_room nodes.old)) (events.IdleLine at session line)
        result (nodes_by_name (all_without_room nodes.new)) }
{
    match place_of(nodes, at) {
        Some(place) => session_events::idle_line(alloc, &mut nodes[place], session, line),
        None => Outcome::PassedOver,
    }
}

fn poll(alloc: Global, nodes: &mut [Node], at: ReplicaId, session: SessionNo) -> Outcome
    ensures { Steps (nodes_by_name (all_without_room nodes.old)) (events.Poll at session) result
        (nodes_by_name (all_without_room nodes.new)) }
{
    match place_of(nodes, at) {
        Some(place) => session_events::poll(alloc, &mut nodes[place], session),
        None => Outcome::PassedOver,
    }
}

fn deliver(alloc: Global, nodes: &mut [Node], at: ReplicaId, id: OpId) -> Outcome
    ensures { Steps (nodes_by_name (all_without_room nodes.old)) (events.Deliver at id) result
        (nodes_by_name (all_without_room nodes.new)) }
{
    let Some(place) = place_of(nodes, at) else {
        return Outcome::PassedOver;
    };
    let Some(op) = find_issued(nodes, id) else {
        return Outcome::PassedOver;
    };
    match op.copy(alloc) {
        Ok(op) => session_events::deliver(alloc, &mut nodes[place], op),
        Err(_) => Outcome::NotTaken {
            fault: DeliverFault::NoMemory,
        },
    }
}

fn drain(alloc: Global, nodes: &mut [Node], at: ReplicaId) -> Outcome
    ensures { Steps (nodes_by_name (all_without_room nodes.old)) (events.Drain at) result
        (nodes_by_name (all_without_room nodes.new)) }
{
    match place_of(nodes, at) {
        Some(place) => session_events::drain(alloc, &mut nodes[place]),
        None => Outcome::PassedOver,
    }
}

fn close(nodes: &mut [Node], at: ReplicaId, session: SessionNo) -> Outcome
    ensures { Steps (nodes_by_name (all_without_room nodes.old)) (events.Close at session) result
        (nodes_by_name (all_without_room nodes.new)) }
{
    match place_of(nodes, at) {
        Some(place) => session_events::close(&mut nodes[place], session),
        None => Outcome::PassedOver,
    }
}

fn restart(alloc: Global, nodes: &mut [Node], at: ReplicaId) -> Outcome
    ensures { Steps (nodes_by_name (all_without_room nodes.old)) (events.Restart at) result
        (nodes_by_name (all_without_room nodes.new)) }
{
    match place_of(nodes, at) {
        Some(place) => session_events::restart(alloc, &mut nodes[place]),
        None => Outcome::PassedOver,
    }
}

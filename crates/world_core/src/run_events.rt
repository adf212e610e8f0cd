//! Runs: events of a world, one after another.

ghost use Rattle.std.specs.Prelude.{◌≡◌, ◌+◌, ◌≤◌, [], IsTrue, false, length, take, vec_capacity};
ghost use Rattle.std.specs.Prelude.{vec_len};
ghost use Rattle.world_core.specs.Headline.{Headline, NumbersLast};
ghost use Rattle.world_core.specs.WorldPromises.{Converges, IssuedAreDetermined, IssuedAreSound};
ghost use Rattle.world_core.specs.Replicas.{nodes_by_name, all_without_room};
ghost use Rattle.world_core.specs.SessionViews.{SessionViewsAscend};
ghost use Rattle.world_core.specs.Steps.{Runs};

use crate::event::{Event, Outcome};
use crate::world::World;
use crate::world_step::step;
use imap_node::Node;
use std::alloc::Global;

/// The outcomes of events, and the world after them.
#[derive(Drop)]
pub struct Outcomes {
    /// The world after the events that have an outcome in the list.
    pub world: World,
    /// The outcome of each event, in their order.
    pub list: Vec<Outcome>,
    /// Whether every event has an outcome. If memory runs out for the list, this is false and no
    /// event was taken; otherwise it is true.
    pub whole: bool,
}

/// Takes the events one after another, and returns the outcome of each. Whatever they are, the
/// world keeps its promise: the clause `headline` states it for all events that have an outcome.
pub fn run(alloc: Global, world: World, events: Vec<Event>) -> Outcomes
    ensures steps { Runs (nodes_by_name world) (take (length result.list.items) events.items)
        result.list.items (nodes_by_name result.world) }
    ensures whole { IsTrue result.whole → length result.list.items ≡ length events.items }
    ensures none { result.whole ≡ false → result.list.items ≡ [] }
    ensures determined { IssuedAreDetermined (nodes_by_name result.world) }
    ensures sound { IssuedAreSound (nodes_by_name result.world) }
    ensures converges { Converges (nodes_by_name result.world) }
    ensures ascending { SessionViewsAscend (nodes_by_name result.world) }
    ensures for_good { NumbersLast (nodes_by_name world) (nodes_by_name result.world) }
    ensures headline { Headline (nodes_by_name world) (take (length result.list.items) events.items)
        result.list.items (nodes_by_name result.world) }
{
    match Vec::with_capacity(alloc, events.len()) {
        Ok(list) => run_whole(alloc, world, events, list),
        Err(_) => {
            let _nodes = world.nodes();
            drop(events);
            Outcomes {
                world,
                list: Vec::new(alloc),
                whole: false,
            }
        }
    }
}

/// Takes all events; the list has room for their outcomes.
fn run_whole(alloc: Global, world: World, events: Vec<Event>, list: Vec<Outcome>) -> Outcomes
    requires empty { list.items ≡ [] }
    requires room { vec_len list + length events.items ≤ vec_capacity list }
    ensures steps { Runs (nodes_by_name world) events.items result.list.items
        (nodes_by_name result.world) }
    ensures whole { IsTrue result.whole }
    ensures for_good { NumbersLast (nodes_by_name world) (nodes_by_name result.world) }
    ensures headline { Headline (nodes_by_name world) events.items result.list.items
        (nodes_by_name result.world) }
{
    let nodes = world.into_nodes();
    let mut list = list;
    let nodes = run_nodes(alloc, nodes, events, &mut list);
    Outcomes {
        world: World::of(nodes),
        list,
        whole: true,
    }
}

/// Takes all events, and returns the nodes after them.
fn run_nodes(
    alloc: Global,
    nodes: Vec<Node>,
    events: Vec<Event>,
    list: &mut Vec<Outcome>,
) -> Vec<Node>
    requires empty { list.old.items ≡ [] }
    requires room { vec_len list.old + length events.items ≤ vec_capacity list.old }
    ensures { Runs (nodes_by_name (all_without_room nodes.items)) events.items list.new.items
        (nodes_by_name (all_without_room result.items)) }
{
    let mut nodes = nodes;
    run_all(alloc, &mut nodes, events, list);
    nodes
}

/// Takes all events, one after another.
fn run_all(alloc: Global, nodes: &mut Vec<Node>, events: Vec<Event>, list: &mut Vec<Outcome>)
    requires empty { list.old.items ≡ [] }
    requires room { vec_len list.old + length events.items ≤ vec_capacity list.old }
    ensures { Runs (nodes_by_name (all_without_room nodes.old.items)) events.items list.new.items
        (nodes_by_name (all_without_room nodes.new.items)) }
{
    for event in events {
        let outcome = step(alloc, nodes, event);
        list.push_reserved(outcome);
    }
}

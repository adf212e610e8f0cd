//! The connections of a process, as their lock keeps them.

ghost use Rattle.std.specs.Prelude.{◌≡◌, ◌≢◌, ◌<◌, ◌↔◌, ◌∷◌, ◌++◌, [], IfErr, IfOk, IsTrue, Some};
ghost use Rattle.std.specs.Prelude.{MatchOption, OnErr, OnOk, if◌then◌else◌, length, slice_get};
ghost use Rattle.std.specs.Arc.{arc_value};
ghost use Rattle.merge_laws.specs.Orders.{IsIn};
ghost use Rattle.link_wire.specs.declared.wire_message.ByeReason.TheVariants.{Memory};
ghost use Rattle.link_runtime.specs.declared.link_table.LinkEntry.{LinkEntry};
ghost use Rattle.link_runtime.specs.LinkTables.{IsUnlinked};
ghost use Rattle.link_runtime.specs.Slots.{IsAdmitted, IsNotAdmitted, IsRefusedFor, IsTakenOut};
ghost use Rattle.link_runtime.specs.Slots.{IsOpen, IsUnrefused, no_slots, refused_slots};
ghost use Rattle.link_runtime.specs.Slots.{stopped_slots};
ghost use Rattle.link_runtime.specs.Slots.{number_of, unproved_after, without_oldest};

use crate::connection::LinkConnection;
use crate::link_table::{Admission, LinkEntry, admission_of, entry_place};
use link_wire::ByeReason;
use std::alloc::Global;
use std::marker::Model;
use std::mem;
use std::sync::Arc;
use tags_clocks::ReplicaId;

/// The most connections whose peers haven't proved that they know the secret.
const MOST_UNPROVED: usize = 16;

/// A peer that isn't linked any more until this process starts again.
#[derive(Clone, Copy, Debug, PartialEq, Eq)]
pub struct RefusedPeer {
    /// Its name.
    pub name: ReplicaId,
    /// Why it isn't.
    pub reason: ByeReason,
}

/// The connections of a process: at most 64 links, one with each name, and at most 16 connections
/// whose peers haven't proved themselves.
#[derive(Drop)]
pub struct LinkSlots {
    is_stopped: bool,
    next_number: u64,
    /// The links; each has its connection at the same place of `connections`.
    entries: Vec<LinkEntry>,
    connections: Vec<Arc<LinkConnection>>,
    /// The accepted connections whose peers haven't proved themselves; the oldest first.
    unproved: Vec<Arc<LinkConnection>>,
    /// Those of them that no thread serves yet.
    accepted: Vec<Arc<LinkConnection>>,
    refused: Vec<RefusedPeer>,
}

impl Model for LinkSlots {
    ghost use Rattle.std.specs.Prelude.{◌≡◌, length, map};
    ghost use Rattle.std.specs.Arc.{arc_value};
    ghost use Rattle.link_runtime.specs.Slots.{AreWithinLimits, SlotsState, number_of};

    ghost Value = { SlotsState };

    ghost view = { λ s. record {
      stopped = s.is_stopped;
      links = s.entries.items;
      unproved = map (λ c. number_of (arc_value c)) s.unproved.items;
      refused = s.refused.items;
    } };

    ghost invariant = { λ s. AreWithinLimits (record {
      stopped = s.is_stopped;
      links = s.entries.items;
      unproved = map (λ c. number_of (arc_value c)) s.unproved.items;
      refused = s.refused.items;
    }) × (length s.connections.items ≡ length s.entries.items) };
}

impl LinkSlots {
    /// None yet.
    pub fn new(alloc: Global) -> LinkSlots
        ensures { result ≡ no_slots }
    {
        LinkSlots {
            is_stopped: false,
            next_number: 0,
            entries: Vec::new(alloc),
            connections: Vec::new(alloc),
            unproved: Vec::new(alloc),
            accepted: Vec::new(alloc),
            refused: Vec::new(alloc),
        }
    }

    /// Whether the links are to end.
    pub fn is_stopped(&self) -> bool
        ensures { result ≡ self.now.stopped }
    {
        self.is_stopped
    }

    /// Closes all connections that are links, or may become links, and lets none become one.
    pub fn stop(&mut self)
        ensures { self.new ≡ stopped_slots self.old }
    {
        self.is_stopped = true;
        close_all(&self.connections);
        close_all(&self.unproved);
    }

    /// A number for the next connection.
    pub fn take_number(&mut self) -> u64
        ensures { self.new ≡ self.old }
    {
        let number = self.next_number;
        self.next_number = number.wrapping_add(1);
        number
    }

    /// Adds an accepted connection, whose peer hasn't proved itself, to those that wait for a
    /// thread; `known` is the same connection. If there are as many as there may be, gives the
    /// oldest, which is one no longer. Not added if memory runs out.
    pub fn add_accepted(
        &mut self,
        connection: Arc<LinkConnection>,
        known: Arc<LinkConnection>,
    ) -> (bool, Option<Arc<LinkConnection>>)
        ensures { self.new ≡ record self.old {
          unproved = unproved_after self.old.unproved (number_of (arc_value known)) result.0;
        } }
    {
        let oldest = take_oldest(&mut self.unproved);
        if self.accepted.push(connection).is_err() {
            drop(known);
            return (false, oldest);
        }
        if self.unproved.push(known).is_err() {
            let unserved = self.accepted.pop();
            drop(unserved);
            return (false, oldest);
        }
        (true, oldest)
    }

    /// One of the connections that wait for a thread.
    pub fn take_accepted(&mut self) -> Option<Arc<LinkConnection>>
        ensures { self.new ≡ self.old }
    {
        self.accepted.pop()
    }

    /// The peer of the connection with this number proved itself, or the connection ended.
    pub fn remove_unproved(&mut self, number: u64) -> Option<Arc<LinkConnection>>
        ensures taken { IsTakenOut (λ n. n) number self.old.unproved self.new.unproved }
        ensures same { self.new ≡ record self.old { unproved = self.new.unproved } }
    {
        take_numbered(&mut self.unproved, number)
    }

    /// Makes a connection a link, if it may be one. Gives the connection whose place it takes. After
    /// an `Err` nothing changed.
    pub fn admit(
        &mut self,
        entry: &LinkEntry,
        connection: Arc<LinkConnection>,
    ) -> Result<Option<Arc<LinkConnection>>, ByeReason>
        ensures links { IfOk result (λ replaced. IsAdmitted self.old.links entry.now self.new.links) }
        ensures allowed { IfOk result (λ replaced. IsOpen self.old
            × IsUnrefused entry.now.peer self.old.refused) }
        ensures same { self.new ≡ record self.old { links = self.new.links } }
        ensures err { OnErr result (self.new ≡ self.old) }
        ensures reason { IfErr result (λ reason. IsNotAdmitted self.old entry.now reason) }
    {
        if self.is_stopped {
            drop(connection);
            return Err(ByeReason::Busy);
        }
        if let Some(reason) = refusal_of(&self.refused, entry.peer) {
            drop(connection);
            return Err(reason);
        }
        match admission_of(&self.entries, entry) {
            Admission::Busy => {
                drop(connection);
                Err(ByeReason::Busy)
            }
            Admission::Added => self.add(entry, connection),
            Admission::Replaces(at) => {
                self.entries[at] = *entry;
                Ok(Some(mem::replace(&mut self.connections[at], connection)))
            }
        }
    }

    /// Adds a link with a name of its own.
    fn add(
        &mut self,
        entry: &LinkEntry,
        connection: Arc<LinkConnection>,
    ) -> Result<Option<Arc<LinkConnection>>, ByeReason>
        requires unlinked { IsUnlinked entry.now.peer self.old.links }
        requires few { length self.old.links < 64 }
        ensures ok { OnOk result
            (self.new ≡ record self.old { links = self.old.links ++ entry.now ∷ [] }) }
        ensures err { OnErr result (self.new ≡ self.old) }
        ensures reason { IfErr result (λ reason. reason ≡ Memory) }
    {
        if self.connections.push(connection).is_err() {
            return Err(ByeReason::Memory);
        }
        if self.entries.push(*entry).is_err() {
            let unadded = self.connections.pop();
            drop(unadded);
            return Err(ByeReason::Memory);
        }
        Ok(None)
    }

    /// The link with this number ended. Gives its connection, if it is a link.
    pub fn remove(&mut self, number: u64) -> Option<Arc<LinkConnection>>
        ensures taken { IsTakenOut (λ e. e.number) number self.old.links self.new.links }
        ensures same { self.new ≡ record self.old { links = self.new.links } }
    {
        let at = number_place(&self.entries, number)?;
        self.entries.remove(at);
        Some(self.connections.remove(at))
    }

    /// Whether there is a link with this name.
    pub fn is_linked(&self, peer: ReplicaId) -> bool
        ensures { IsTrue result ↔ (¬ IsUnlinked peer self.now.links) }
    {
        entry_place(&self.entries, peer).is_some()
    }

    /// Why this peer isn't linked any more, if it isn't.
    pub fn refusal(&self, peer: ReplicaId) -> Option<ByeReason>
        ensures { MatchOption result (IsUnrefused peer self.now.refused)
            (λ reason. IsRefusedFor peer self.now.refused reason) }
    {
        refusal_of(&self.refused, peer)
    }

    /// Links this peer no more, for this reason. False if memory runs out, and then nothing changed.
    pub fn refuse(&mut self, peer: ReplicaId, reason: ByeReason) -> bool
        ensures { self.new ≡ (if result then refused_slots self.old peer reason else self.old) }
    {
        self.refused
            .push(RefusedPeer { name: peer, reason })
            .is_ok()
    }
}

fn refusal_of(refused: &[RefusedPeer], peer: ReplicaId) -> Option<ByeReason>
    ensures { MatchOption result (IsUnrefused peer refused.now)
        (λ reason. IsRefusedFor peer refused.now reason) }
{
    for at in 0..refused.len() {
        if refused[at].name == peer {
            return Some(refused[at].reason);
        }
    }
    None
}

/// The place of the link with this number, if there is one.
fn number_place(entries: &[LinkEntry], number: u64) -> Option<usize>
    ensures { MatchOption result
        ((entry : LinkEntry) → IsIn entry entries.now → entry.number ≢ number)
        (λ at. (entry : LinkEntry) × (slice_get entries.now at ≡ Some entry)
        × (entry.number ≡ number)) }
{
    for at in 0..entries.len() {
        if entries[at].number == number {
            return Some(at);
        }
    }
    None
}

fn close_all(connections: &[Arc<LinkConnection>]) {
    for connection in connections {
        connection.close();
    }
}

/// Takes out the oldest of these connections, if there are as many as there may be.
fn take_oldest(unproved: &mut Vec<Arc<LinkConnection>>) -> Option<Arc<LinkConnection>>
    ensures { unproved.new.items ≡ without_oldest unproved.old.items }
{
    if unproved.len() < MOST_UNPROVED {
        return None;
    }
    Some(unproved.remove(0))
}

/// Takes out the connection with this number, if it is there.
fn take_numbered(
    connections: &mut Vec<Arc<LinkConnection>>,
    number: u64,
) -> Option<Arc<LinkConnection>>
    ensures { IsTakenOut (λ c. number_of (arc_value c)) number connections.old.items
        connections.new.items }
{
    for at in 0..connections.len() {
        if connections[at].number == number {
            return Some(connections.remove(at));
        }
    }
    None
}

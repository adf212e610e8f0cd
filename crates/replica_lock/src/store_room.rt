//! The octets that the operations of an event need in the replica's log.

ghost use Rattle.std.specs.Prelude.{◌≡◌, ◌↔◌, min, IsTrue};
ghost use Rattle.op_log.specs.LineBounds.{lines_bound};
ghost use Rattle.replica_lock.specs.StoreRoom.{HasRoom, issued_by, octets_delivered};
ghost use Rattle.replica_lock.specs.StoreRoom.{octets_of_arrival, octets_received};

use crate::event::BookEvent;
use crate::outcome::Outcome;
use causal_inbox::Arrival;
use imap_node::Reply;
use op_log::{line_bound, lines_bound};

/// Whether a log has room for so many octets. If there is none, each number fits.
pub fn has_room(room: Option<u64>, octets: u64) -> bool
    ensures { IsTrue result ↔ HasRoom room octets }
{
    match room {
        None => true,
        Some(room) => octets <= room,
    }
}

/// The octets of the lines of the operations that a reply issued, at most; the largest `u64` if
/// that is more.
pub fn octets_of_reply(reply: &Reply) -> u64
    ensures { result ≡ min (lines_bound (issued_by reply.now)) 18446744073709551615 }
{
    match reply {
        Reply::Done { issued, .. } => lines_bound(issued.as_slice()),
        Reply::Refused { .. } => 0,
    }
}

/// The octets that a delivery may add to the lines of the operations that the replica received, at
/// most; the largest `u64` if that is more. Other events add none by themselves.
pub fn octets_of_delivery(event: &BookEvent) -> u64
    ensures { result ≡ min (octets_delivered event.now) 18446744073709551615 }
{
    match event {
        BookEvent::Deliver { op } => line_bound(op),
        _ => 0,
    }
}

/// The octets to set aside in the log for what an event with this outcome added to the operations
/// that the replica received; `delivered` if a delivered operation is one of them.
pub fn octets_received(outcome: &Outcome, delivered: u64) -> u64
    ensures { result ≡ min (octets_received outcome.now delivered) 18446744073709551615 }
{
    match outcome {
        Outcome::Delivered {
            answer: Ok(receipt),
        } => octets_of_arrival(&receipt.arrival, delivered),
        Outcome::Replied { reply } => octets_of_reply(reply),
        _ => 0,
    }
}

fn octets_of_arrival(arrival: &Arrival, delivered: u64) -> u64
    ensures { result ≡ octets_of_arrival arrival.now delivered }
{
    match arrival {
        Arrival::Repeat => 0,
        _ => delivered,
    }
}

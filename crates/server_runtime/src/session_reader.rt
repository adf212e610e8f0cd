//! A client's octets, and what its connection does until some arrive.

ghost use Rattle.std.specs.Prelude.{◌≡◌, None};

use crate::connection_threads::ConnectionContext;
use imap_connection::{Source, Wire};
use replica_lock::SpentMemory;
use std::alloc::Global;
use std::io::{ErrorKind, Read};
use std::net::TcpStream;
use std::sync::Wait;
use std::sync::ledger::Ledger;

/// The octets of a block for which the C library joins the small blocks that were freed, at most as
/// many as one piece has (1,024 suffice); otherwise a later command pays for those of all pieces.
const JOINING_BLOCK: usize = 2_048;

/// So many pieces are freed before a read even if the client's next octets are there, so that
/// little is left when the next long outcome comes. They take half a millisecond.
const LEAST_PIECES: u32 = 32;

/// The most pieces that are freed before one read.
const MOST_PIECES: u32 = 100_000;

/// A reader that notes in the connection's phase when it waits for the client. Before it waits, it
/// frees what the session's pass no longer needs: if that is much, a piece at a time until the
/// client's next octets arrive, so that the next command doesn't wait for all of it.
#[derive(Drop)]
pub struct SessionReader<'a, T, L: Ledger, R: Wait> {
    rt: &'a R,
    connection: &'a ConnectionContext<'a, L>,
    pending: PendingMemory,
    wire: Wire<T>,
}

impl<'a, T, L: Ledger, R: Wait> SessionReader<'a, T, L, R> {
    /// A reader of this device, for the session of this connection.
    pub fn new(
        rt: &'a R,
        alloc: Global,
        connection: &'a ConnectionContext<'a, L>,
        device: T,
    ) -> SessionReader<'a, T, L, R>
        ensures { result.wire.failed ≡ 0 }
    {
        SessionReader {
            rt,
            connection,
            pending: PendingMemory {
                alloc,
                older: None,
                newer: None,
            },
            wire: Wire::new(device),
        }
    }
}

impl<'a, T: Read, L: Ledger, R: Wait> Source for SessionReader<'a, T, L, R> {
    ghost left = { λ r. None };

    ghost failures = { λ r. r.wire.failed };

    ghost is_ended = { λ r. r.wire.ended };

    fn read(&mut self, piece: &mut [u8]) -> Option<usize> {
        let connection = self.connection;
        connection.shared_phase.set_reads(self.rt, true);
        let spent = connection.pass.lock(self.rt).take_spent();
        self.pending.free(&connection.client.stream, spent);
        let count = self.wire.read(piece);
        connection.shared_phase.set_reads(self.rt, false);
        count
    }
}

/// Memory that a session's pass no longer needs, until it is freed. A call that takes much may
/// leave two parts: what the book forgot at it, and its outcome, which the next call leaves.
#[derive(Drop)]
struct PendingMemory {
    alloc: Global,
    /// What is freed first.
    older: Option<SpentMemory>,
    newer: Option<SpentMemory>,
}

impl PendingMemory {
    /// Frees this too, or as much of all as can be freed before the client's next octets arrive.
    fn free(&mut self, stream: &TcpStream, spent: SpentMemory) {
        if spent.is_small() {
            drop(spent);
        } else {
            self.add(spent);
        }
        if self.older.is_some() && stream.set_nonblocking(true).is_ok() {
            self.free_until_octets(stream);
            let _ = stream.set_nonblocking(false);
        }
    }

    /// Adds what takes long to free. If there are two of these, the rest of the older one is freed.
    fn add(&mut self, spent: SpentMemory) {
        if self.older.is_none() {
            self.older = Some(spent);
        } else if let Some(newer) = self.newer.replace(spent) {
            self.older = Some(newer);
        }
    }

    /// Frees what is left, a piece at a time, until octets arrive, and a few pieces even then.
    fn free_until_octets(&mut self, stream: &TcpStream) {
        for count in 1..=MOST_PIECES {
            if !self.free_piece() {
                return;
            }
            if count >= LEAST_PIECES && has_octets(stream) {
                return;
            }
        }
    }

    /// Frees a piece, and has its memory joined. False if nothing is left.
    fn free_piece(&mut self) -> bool {
        let Some(spent) = &mut self.older else {
            return false;
        };
        if !spent.free_some() {
            self.older = self.newer.take();
        }
        drop(Vec::<u8>::with_capacity(self.alloc, JOINING_BLOCK));
        true
    }
}

/// Whether octets of the client arrived, or its end, or a fault.
fn has_octets(stream: &TcpStream) -> bool {
    match stream.peek(&mut [0u8]) {
        Ok(_) => true,
        Err(why) => why.kind() != ErrorKind::WouldBlock,
    }
}

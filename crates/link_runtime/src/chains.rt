//! The chains of the operations of each replica, by which two processes see that they have the same
//! ones.

ghost use Rattle.std.specs.Prelude.{◌≡◌, ◌<◌, ◌≤◌, MatchResult, length, take};
ghost use Rattle.sha2.specs.Sha256.{sha256};

use crc32c::Crc32c;
use crdt_ops::{SoundOp, write_op};
use imap_types::Octets;
use sha2::{Digest, Sha256};
use std::alloc::{AllocError, Global};
use std::cmp::Ordering;
use tags_clocks::{Clock, ReplicaId};

/// The octets of a chain.
pub const CHAIN_OCTETS: usize = 16;

/// The chains of one replica's operations: after its first operation, after its first two, ..
#[derive(Drop)]
pub struct ChainRow {
    replica: ReplicaId,
    chains: Vec<[u8; CHAIN_OCTETS]>,
}

impl ChainRow {
    /// That of a replica's first operation, whose text has this checksum.
    fn new(alloc: Global, replica: ReplicaId, checksum: u32) -> Result<ChainRow, AllocError> {
        let chain = next_chain(alloc, &[], checksum)?;
        let mut chains = Vec::new(alloc);
        chains.push(chain)?;
        Ok(ChainRow { replica, chains })
    }

    /// Its replica.
    fn replica(&self) -> ReplicaId {
        self.replica
    }

    /// The last chain; none before the first.
    fn last(&self) -> &[u8] {
        match self.chains.last() {
            Some(chain) => chain.as_slice(),
            None => &[],
        }
    }

    /// Adds the chain after the next operation, whose text has this checksum. After an `Err` it is as
    /// it was.
    fn add(&mut self, alloc: Global, checksum: u32) -> Result<(), AllocError> {
        let chain = next_chain(alloc, self.last(), checksum)?;
        self.chains.push(chain)?;
        Ok(())
    }

    /// How many operations of the replica were noted.
    fn count(&self) -> u32 {
        u32::try_from(self.chains.len()).unwrap_or(u32::MAX)
    }
}

/// The chains of the first operations that a replica applied, by the replicas that issued them.
#[derive(Drop)]
pub struct Chains {
    /// Ascending by replica.
    rows: Vec<ChainRow>,
    /// How many operations were noted.
    count: u64,
    checksums: Crc32c,
}

impl Chains {
    /// Those of no operations.
    pub fn new(alloc: Global) -> Chains {
        Chains {
            rows: Vec::new(alloc),
            count: 0,
            checksums: Crc32c::new(),
        }
    }

    /// How many operations were noted.
    pub fn count(&self) -> u64 {
        self.count
    }

    /// Notes the next operation. After an `Err` nothing was noted.
    pub fn note(&mut self, alloc: Global, op: &SoundOp) -> Result<(), AllocError> {
        let mut text = Vec::new(alloc);
        write_op(alloc, op, &mut text)?;
        let checksum = self.checksums.checksum(&text);
        note_in(&mut self.rows, alloc, op.op().id.replica, checksum)?;
        self.count = self.count.saturating_add(1);
        Ok(())
    }

    /// What this replica has: the clock of the operations noted, with the chain of each entry.
    pub fn have(&self, alloc: Global) -> Result<(Clock, Octets), AllocError> {
        let mut clock = Clock::new(alloc);
        let mut chains = Vec::new(alloc);
        for row in &self.rows {
            clock.raise(row.replica(), row.count())?;
            chains.extend_from_slice(row.last())?;
        }
        Ok((clock, Octets::new(chains)))
    }

    /// The first replica of whose operations a peer has others than were noted, by the chains of
    /// its clock's entries, if any. Entries that count more than were noted aren't compared.
    pub fn first_fork(&self, clock: &Clock, chains: &[u8]) -> Option<ReplicaId> {
        first_fork(&self.rows, clock.entries(), chains)
    }
}

/// The first replica of an entry of a clock whose chain is another than the one noted for it.
fn first_fork(rows: &[ChainRow], clock: &[(ReplicaId, u32)], chains: &[u8]) -> Option<ReplicaId> {
    for at in 0..clock.len() {
        let (replica, number) = clock[at];
        if differs(rows, replica, number, chain_of_entry(chains, at)) {
            return Some(replica);
        }
    }
    None
}

/// The chain that a peer gives with the entry at this place of its clock.
fn chain_of_entry(chains: &[u8], at: usize) -> &[u8] {
    let start = CHAIN_OCTETS.saturating_mul(at).min(chains.len());
    let rest = &chains[start..];
    &rest[..CHAIN_OCTETS.min(rest.len())]
}

/// Whether another chain was noted for this count of a replica's operations.
fn differs(rows: &[ChainRow], replica: ReplicaId, number: u32, chain: &[u8]) -> bool {
    match place(rows, replica) {
        Err(_) => false,
        Ok(at) => {
            let row = &rows[at];
            match row.chains.get((number as usize).saturating_sub(1)) {
                Some(known) => known.as_slice() != chain,
                None => false,
            }
        }
    }
}

/// The place of a replica's row, or the one at which it would be.
fn place(rows: &[ChainRow], replica: ReplicaId) -> Result<usize, usize>
    ensures { MatchResult result (λ at. at < length rows.now) (λ at. at ≤ length rows.now) }
{
    for at in 0..rows.len() {
        match rows[at].replica().cmp(&replica) {
            Ordering::Less => {}
            Ordering::Equal => return Ok(at),
            Ordering::Greater => return Err(at),
        }
    }
    Err(rows.len())
}

/// Adds the chain after the next operation of a replica, whose text has this checksum, to its row.
fn note_in(
    rows: &mut Vec<ChainRow>,
    alloc: Global,
    replica: ReplicaId,
    checksum: u32,
) -> Result<(), AllocError> {
    match place(rows, replica) {
        Ok(at) => rows[at].add(alloc, checksum),
        Err(at) => {
            let row = ChainRow::new(alloc, replica, checksum)?;
            rows.insert(at, row)?;
            Ok(())
        }
    }
}

/// The chain after an operation whose text has this checksum, by the one before it. To hash the
/// texts themselves would take most of the time in which operations are sent; a checksum shows
/// operations that differ by accident, and whoever knows the secret could send anything.
fn next_chain(
    alloc: Global,
    before: &[u8],
    checksum: u32,
) -> Result<[u8; CHAIN_OCTETS], AllocError> {
    let mut text = before.to_vec(alloc)?;
    text.extend_from_slice(&checksum.to_be_bytes())?;
    Ok(chain_of(&text))
}

/// The first octets of a text's SHA-256.
fn chain_of(text: &[u8]) -> [u8; CHAIN_OCTETS]
    ensures { result ≡ take 16 (sha256 text.now) }
{
    let digest = Sha256::digest(text);
    let mut chain = [0; CHAIN_OCTETS];
    chain.copy_from_slice(&digest[..CHAIN_OCTETS]);
    chain
}

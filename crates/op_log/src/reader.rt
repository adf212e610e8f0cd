//! `LogReader`: reads a log that is fed in pieces.

ghost use Rattle.std.specs.Prelude.{◌≡◌, ◌++◌, ℕ, List, [], IfErr, None, OnOk, false, min};
ghost use Rattle.crdt_ops.specs.Reading.{cut_at};
ghost use Rattle.op_log.specs.Readers.{AreContents, HasFed, HasRead};
ghost use Rattle.op_log.specs.Recovery.{IsLogFault};
ghost use Rattle.op_log.specs.declared.entry.Entry.{Entry};
ghost use Rattle.op_log.specs.declared.recovery.LogFault.TheVariants.{NoMemory};

use crate::line::has_line_end;
use crate::lines_read::LinesRead;
use crate::recovery::LogFault;
use crc32c::Crc32c;
use crdt_ops::SoundOp;
use std::alloc::Global;
use std::mem;
use tags_clocks::ReplicaId;

/// Reads a log that it is fed in pieces, and returns what [`recover`](crate::recover) finds in the
/// whole. It has the operations of the lines that were read, and the octets from the place up to
/// which the last commit says that the log had been synced; those before it are dropped.
#[derive(Drop)]
pub struct LogReader {
    lines: LinesRead,
    /// The octets that it was fed, from the first after `start` on.
    kept: Vec<u8>,
    /// The number of octets that were dropped.
    start: usize,
    /// Whether it met a whole line whose checksum isn't that of its text, so that it reads no more.
    ended: bool,
}

/// What was read of a log.
#[derive(Drop)]
pub struct LogContents {
    /// The operations of the committed entries, in their order.
    pub ops: Vec<SoundOp>,
    /// The number of octets of these entries' lines.
    pub octets: usize,
    /// Whether the first of them names a replica.
    pub begins: bool,
    /// The first replica that one of them names, other than that of the log.
    pub other: Option<ReplicaId>,
    /// The number of octets of which the last of them, a commit, says that they had been synced; 0
    /// if there are none.
    pub synced: u64,
    /// The log's octets after the first `start`.
    pub kept: Vec<u8>,
    /// The number of octets before `kept`: at most `octets`.
    pub start: usize,
}

impl LogReader {
    /// A reader of a log of a replica, which was fed nothing.
    pub fn new(alloc: Global, replica: ReplicaId) -> LogReader
        ensures { HasRead replica [] result }
    {
        LogReader {
            lines: LinesRead::new(alloc, replica),
            kept: Vec::new(alloc),
            start: 0,
            ended: false,
        }
    }

    /// Reads the next octets of the log. The faults are those of [`recover`](crate::recover), for
    /// every log that begins with what was fed; after one the reader can't be used.
    pub fn feed(&mut self, alloc: Global, checksums: &Crc32c, piece: &[u8]) -> Result<(), LogFault>
        ensures read { (replica : ℕ) (log : List ℕ) → HasRead replica log self.old
            → OnOk result (HasRead replica (log ++ piece.now) self.new) }
        ensures fault { (replica : ℕ) (log : List ℕ) → HasRead replica log self.old
            → IfErr result
            (λ fault. (more : List ℕ) → IsLogFault ((log ++ piece.now) ++ more) fault) }
    {
        let reads_on = can_read(self.ended, piece);
        let Ok(()) = self.kept.extend_from_slice(piece) else {
            return Err(LogFault::NoMemory);
        };
        if !reads_on {
            return Ok(());
        }
        match self.read_lines(alloc, checksums) {
            Ok(()) => self.drop_front(),
            Err(fault) => Err(fault),
        }
    }

    /// Reads the lines that are whole now.
    fn read_lines(&mut self, alloc: Global, checksums: &Crc32c) -> Result<(), LogFault>
        ensures read { (replica : ℕ) (log rest : List ℕ) → HasFed replica log rest self.old
            → OnOk result (HasRead replica log self.new) }
        ensures fault { (replica : ℕ) (log rest : List ℕ) → HasFed replica log rest self.old
            → IfErr result (λ fault. (more : List ℕ) → IsLogFault (log ++ more) fault) }
    {
        let kept = mem::replace(&mut self.kept, Vec::new(alloc));
        let read = self.lines.read_from(alloc, checksums, &kept, self.start);
        self.kept = kept;
        match read {
            Ok(ended) => {
                self.ended = ended;
                Ok(())
            }
            Err(fault) => Err(fault),
        }
    }

    /// Drops the octets up to which the last commit says that the log had been synced, if these are
    /// no fewer than the others: so each octet is moved a few times at most.
    fn drop_front(&mut self) -> Result<(), LogFault>
        ensures read { (replica : ℕ) (log : List ℕ) → HasRead replica log self.old
            → OnOk result (HasRead replica log self.new) }
        ensures fault { IfErr result (λ fault. fault ≡ NoMemory) }
    {
        let place = lesser(self.lines.synced, self.lines.committed.octets);
        let count = place.saturating_sub(self.start);
        if count == 0 || count > self.kept.len() || self.kept.len() - count > count {
            return Ok(());
        }
        let Ok(rest) = self.kept.split_off(count) else {
            return Err(LogFault::NoMemory);
        };
        self.kept = rest;
        self.start = place;
        Ok(())
    }

    /// What was read of the log, all of whose octets were fed.
    pub fn finish(self) -> LogContents
        ensures { (replica : ℕ) (log : List ℕ) → HasRead replica log self
            → (entries : List Entry) × AreContents replica log entries result }
    {
        let LogReader {
            lines,
            kept,
            start,
            ended: _,
        } = self;
        let LinesRead {
            replica: _,
            mut ops,
            all: _,
            committed,
            op_count,
            synced,
        } = lines;
        ops.truncate(op_count);
        LogContents {
            ops,
            octets: committed.octets,
            begins: committed.begins,
            other: committed.other,
            synced,
            kept,
            start,
        }
    }
}

/// Whether a reader reads lines that this piece completes, if there are any.
fn can_read(ended: bool, piece: &[u8]) -> bool
    ensures { result ≡ false → ended ≡ false → cut_at 10 piece.now ≡ None }
{
    if ended {
        return false;
    }
    has_line_end(piece)
}

fn lesser(synced: u64, octets: usize) -> usize
    ensures { result ≡ min synced octets }
{
    if synced < octets as u64 {
        synced as usize
    } else {
        octets
    }
}

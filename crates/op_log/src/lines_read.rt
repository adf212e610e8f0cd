//! `LinesRead`: what is known of the first lines of a log.

ghost use Rattle.std.specs.Prelude.{◌≡◌, ◌≤◌, ◌+◌, ◌++◌, ◌∷◌, ℕ, List, [], IfErr, IfOk};
ghost use Rattle.std.specs.Prelude.{◌-◌, ◌&&◌, None, OnOk, Some, drop, false, if◌then◌else◌, length, nat_le};
ghost use Rattle.std.specs.Option.{option_map, option_or};
ghost use Rattle.op_log.specs.Entries.{IsLawful, entry_text, is_commit, ops_of};
ghost use Rattle.op_log.specs.Formats.{line_fault};
ghost use Rattle.op_log.specs.Lines.{IsText, line_of};
ghost use Rattle.op_log.specs.Readers.{HasReadLines, IsRest, facts_after, number_after};
ghost use Rattle.op_log.specs.Recovery.{IsLogFault};
ghost use Rattle.op_log.specs.Replicas.{has_first_line, other_replica};
ghost use Rattle.op_log.specs.declared.entry.Entry.{Entry};
ghost use Rattle.op_log.specs.declared.recovery.LogFault.TheVariants.{NoMemory};

use crate::entry::{Entry, EntryFault, read_entry};
use crate::line::{first_text, has_line_end};
use crate::recovery::{LogFault, is_commit, line_fault};
use crc32c::Crc32c;
use crdt_ops::SoundOp;
use std::alloc::Global;
use tags_clocks::ReplicaId;

/// What is known of lines.
#[derive(Clone, Copy)]
pub struct LineFacts {
    /// The number of their octets.
    pub(crate) octets: usize,
    /// Whether the first names a replica.
    pub(crate) begins: bool,
    /// The first replica that one of them names, other than that of the log.
    pub(crate) other: Option<ReplicaId>,
}

/// What is known of the first lines of a log.
#[derive(Drop)]
pub struct LinesRead {
    /// The replica whose log it is.
    pub(crate) replica: ReplicaId,
    /// The operations of all these lines.
    pub(crate) ops: Vec<SoundOp>,
    /// All these lines.
    pub(crate) all: LineFacts,
    /// The lines up to the last commit.
    pub(crate) committed: LineFacts,
    /// The number of operations up to the last commit.
    pub(crate) op_count: usize,
    /// The number of octets of which the last commit says that they had been synced, or 0.
    pub(crate) synced: u64,
}

impl LinesRead {
    /// No lines of a log of a replica.
    pub fn new(alloc: Global, replica: ReplicaId) -> LinesRead
        ensures { HasReadLines replica [] [] result }
    {
        LinesRead {
            replica,
            ops: Vec::new(alloc),
            all: facts_of_none(),
            committed: facts_of_none(),
            op_count: 0,
            synced: 0,
        }
    }

    /// Reads the whole lines of the octets after these lines, up to the first whose checksum isn't
    /// that of its text. Whether there is such a line: none after it is read.
    pub fn read_lines(
        &mut self,
        alloc: Global,
        checksums: &Crc32c,
        octets: &[u8],
    ) -> Result<bool, LogFault>
        ensures read { (replica : ℕ) (log : List ℕ)
            → HasReadLines replica log octets.now self.old
            → IfOk result (λ ended. (rest : List ℕ)
            × HasReadLines replica log rest self.new × IsRest ended rest) }
        ensures grows { (replica : ℕ) (log : List ℕ)
            → HasReadLines replica log octets.now self.old
            → OnOk result (self.old.committed.octets ≤ self.new.committed.octets) }
        ensures fault { (replica : ℕ) (log : List ℕ)
            → HasReadLines replica log octets.now self.old
            → IfErr result (λ fault. (more : List ℕ) → IsLogFault (log ++ more) fault) }
    {
        let mut rest = octets;
        while let Some((text, after)) = first_text(checksums, rest) {
            if let Err(fault) = self.read_line(alloc, text, rest.len() - after.len()) {
                return Err(fault);
            }
            rest = after;
        }
        Ok(has_line_end(rest))
    }

    /// The same of the octets of the log that follow these lines, in its octets from `start` on.
    pub fn read_from(
        &mut self,
        alloc: Global,
        checksums: &Crc32c,
        kept: &[u8],
        start: usize,
    ) -> Result<bool, LogFault>
        ensures read { (replica : ℕ) (log rest : List ℕ)
            → HasReadLines replica log rest self.old → kept.now ≡ drop start log
            → start ≤ self.old.committed.octets
            → IfOk result (λ ended. (left : List ℕ)
            × HasReadLines replica log left self.new × IsRest ended left) }
        ensures grows { (replica : ℕ) (log rest : List ℕ)
            → HasReadLines replica log rest self.old → kept.now ≡ drop start log
            → start ≤ self.old.committed.octets
            → OnOk result (self.old.committed.octets ≤ self.new.committed.octets) }
        ensures fault { (replica : ℕ) (log rest : List ℕ)
            → HasReadLines replica log rest self.old → kept.now ≡ drop start log
            → start ≤ self.old.committed.octets
            → IfErr result (λ fault. (more : List ℕ) → IsLogFault (log ++ more) fault) }
    {
        match octets_from(kept, start, self.all.octets) {
            Some(octets) => self.read_lines(alloc, checksums, octets),
            None => Err(LogFault::NoMemory),
        }
    }

    /// Reads the next line, which has this text and so many octets.
    fn read_line(&mut self, alloc: Global, text: &[u8], octets: usize) -> Result<(), LogFault>
        ensures read { (replica : ℕ) (log rest after : List ℕ)
            → HasReadLines replica log rest self.old → rest ≡ line_of text.now ++ after
            → IsText text.now → octets ≡ length (line_of text.now)
            → OnOk result (HasReadLines replica log after self.new) }
        ensures grows { (replica : ℕ) (log rest after : List ℕ)
            → HasReadLines replica log rest self.old → rest ≡ line_of text.now ++ after
            → octets ≡ length (line_of text.now)
            → OnOk result (self.old.committed.octets ≤ self.new.committed.octets) }
        ensures fault { (replica : ℕ) (log rest after : List ℕ)
            → HasReadLines replica log rest self.old → rest ≡ line_of text.now ++ after
            → IsText text.now
            → IfErr result (λ fault. (more : List ℕ) → IsLogFault (log ++ more) fault) }
    {
        let entry = match read_entry(alloc, text) {
            Ok(entry) => entry,
            Err(EntryFault::NotAnEntry) => return Err(line_fault(self.all.octets, text)),
            Err(EntryFault::NoMemory) => return Err(LogFault::NoMemory),
        };
        self.add(entry, octets)
    }

    /// Notes the entry of the next line, which has so many octets; `NoMemory` is the only fault.
    fn add(&mut self, entry: Entry, octets: usize) -> Result<(), LogFault>
        ensures replica { self.new.replica ≡ self.old.replica }
        ensures ops { OnOk result
            (self.new.ops.items ≡ self.old.ops.items ++ ops_of (entry ∷ [])) }
        ensures all { OnOk result (self.new.all
            ≡ facts_after self.old.replica self.old.all entry (self.old.all.octets + octets)) }
        ensures committed { OnOk result (self.new.committed
            ≡ (if is_commit entry then self.new.all else self.old.committed)) }
        ensures op_count { OnOk result (self.new.op_count
            ≡ (if is_commit entry then length self.new.ops.items else self.old.op_count)) }
        ensures synced { OnOk result (self.new.synced ≡ number_after entry self.old.synced) }
        ensures fault { IfErr result (λ fault. fault ≡ NoMemory) }
    {
        let Some(octets) = self.all.octets.checked_add(octets) else {
            drop(entry);
            return Err(LogFault::NoMemory);
        };
        let all = facts_after(self.replica, &self.all, &entry, octets);
        self.all = all;
        match entry {
            Entry::Begin { replica: _ } => Ok(()),
            Entry::Apply { op } => {
                self.ops.push(op)?;
                Ok(())
            }
            Entry::Commit { synced } => {
                self.commit(synced);
                Ok(())
            }
        }
    }

    /// Notes that the lines so far end with a commit.
    fn commit(&mut self, synced: u64)
        ensures { self.new ≡ record self.old {
          committed = self.old.all;
          op_count = length self.old.ops.items;
          synced = synced;
        } }
    {
        self.committed = copy_of_facts(&self.all);
        self.op_count = self.ops.len();
        self.synced = synced;
    }
}

/// The octets of a log from a place on, of which these are those from `start` on; `None` if the
/// place is before `start` or after the end.
pub fn octets_from(kept: &[u8], start: usize, place: usize) -> Option<&[u8]>
    ensures { option_map (λ rest. rest.now) result
        ≡ (if nat_le start place && nat_le (place - start) (length kept.now)
        then Some (drop (place - start) kept.now) else None) }
{
    if place < start || kept.len() < place - start {
        return None;
    }
    Some(&kept[place - start..])
}

/// What is known of no lines.
fn facts_of_none() -> LineFacts
    ensures { result ≡ record { octets = 0; begins = false; other = None } }
{
    LineFacts {
        octets: 0,
        begins: false,
        other: None,
    }
}

fn copy_of_facts(facts: &LineFacts) -> LineFacts
    ensures { result ≡ facts.now }
{
    *facts
}

/// What is known of lines and of the next one, up to whose end there are so many octets.
fn facts_after(replica: ReplicaId, facts: &LineFacts, entry: &Entry, octets: usize) -> LineFacts
    ensures { result ≡ facts_after replica facts.now entry.now octets }
{
    let is_first = facts.octets == 0;
    LineFacts {
        octets,
        begins: facts.begins || (is_first && is_begin(entry)),
        other: facts.other.or(other_name(replica, entry)),
    }
}

fn is_begin(entry: &Entry) -> bool
    ensures { result ≡ has_first_line (entry.now ∷ []) }
{
    matches!(entry, Entry::Begin { .. })
}

/// The replica that a line names, if it is another than this one.
fn other_name(replica: ReplicaId, entry: &Entry) -> Option<ReplicaId>
    ensures { result ≡ other_replica replica (entry.now ∷ []) }
{
    match entry {
        Entry::Begin { replica: name } => { if *name == replica { None } else { Some(*name) } }
        _ => None,
    }
}

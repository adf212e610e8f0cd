//! What holds of every log on a device: laws, each the contract of a function that does nothing.

ghost use Rattle.std.specs.Prelude.{◌≡◌, ◌≤◌, ◌++◌, ℕ, List, drop, length, map, take};
ghost use Rattle.crdt_ops.specs.declared.op.Op.{Op};
ghost use Rattle.op_log.specs.Crashes.{BeginsWithWrittenLines, HasOnlyWrittenLines};
ghost use Rattle.op_log.specs.Crashes.{IsPrefixOf};
ghost use Rattle.op_log.specs.Entries.{AreLawful, committed_entries, entry_text, lines_of};
ghost use Rattle.op_log.specs.declared.entry.Entry.{Entry};
ghost use Rattle.durable_log.specs.Logs.{HasEntries, IsCrashedLog, IsLastCommitCertain};
ghost use Rattle.durable_log.specs.Logs.{batch_entries};
ghost use Rattle.durable_log.specs.declared.durable_log.DurableLog.{DurableLog};

use crate::device::LogDevice;

/// A crash of a log that works leaves what was synced, and any octets after it. If checksums show
/// which lines among these were written there, the log is one of which `RecoveredLog::read` returns
/// all that was synced, and then whole batches of what was written.
pub fn crashes_leave_what_was_synced<D: LogDevice>()
    ensures { (replica : ℕ) (log : DurableLog D) (synced unsynced : List Entry)
        (left after : List ℕ)
        → HasEntries D.state replica log synced (synced ++ unsynced)
        → left ≡ (D.state log.device).synced ++ after
        → BeginsWithWrittenLines (map entry_text unsynced) (drop (length (lines_of synced)) left)
        → HasOnlyWrittenLines (map entry_text unsynced) (drop (length (lines_of synced)) left)
        → IsCrashedLog replica synced unsynced left }
{}

/// The same while a batch is being written, and after its write failed: its operations are all
/// found, or none.
pub fn crashes_of_writes_leave_what_was_synced<D: LogDevice>()
    ensures { (replica : ℕ) (log : DurableLog D) (synced unsynced : List Entry) (ops : List Op)
        (left : List ℕ)
        → HasEntries D.state replica log synced (synced ++ unsynced)
        → AreLawful (batch_entries ops log.synced)
        → IsPrefixOf (lines_of synced) left
        → BeginsWithWrittenLines (map entry_text (unsynced ++ batch_entries ops log.synced))
        (drop (length (lines_of synced)) left)
        → HasOnlyWrittenLines (map entry_text (unsynced ++ batch_entries ops log.synced))
        (drop (length (lines_of synced)) left)
        → IsCrashedLog replica synced (unsynced ++ batch_entries ops log.synced) left }
{}

/// Of a log that a crash left, what the last commit found says had been synced is certain, if what
/// had been synced is: so `DurableLog::open` writes enough of it again.
pub fn last_commits_after_crashes_are_certain()
    ensures { (replica : ℕ) (synced unsynced : List Entry) (left : List ℕ) (count certain : ℕ)
        → IsCrashedLog replica synced unsynced left
        → length (lines_of synced) ≤ certain
        → IsLastCommitCertain (synced ++ committed_entries (take count unsynced)) certain }
{}

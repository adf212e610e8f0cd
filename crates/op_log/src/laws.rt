//! What holds of every log: laws over `specs/`, each the contract of a function that does nothing.

ghost use Rattle.std.specs.Prelude.{◌≡◌, ◌<◌, ◌≤◌, ◌++◌, ◌∷◌, ℕ, List, drop, false, length};
ghost use Rattle.std.specs.Prelude.{map, take, true};
ghost use Rattle.crdt_ops.specs.Form.{Each, IsInForm};
ghost use Rattle.crdt_ops.specs.declared.op.Op.{Op};
ghost use Rattle.crdt_ops.specs.Reading.{parts_at};
ghost use Rattle.op_log.specs.Crashes.{BeginsWithWrittenLines, HasOnlyWrittenLines};
ghost use Rattle.op_log.specs.Crashes.{IsCrashState};
ghost use Rattle.op_log.specs.Damage.{HasSyncedAtMost, has_commit_beyond};
ghost use Rattle.op_log.specs.Entries.{AreLawful, EndsWithCommit, entry_text, lines_of};
ghost use Rattle.op_log.specs.LineBounds.{line_bound};
ghost use Rattle.op_log.specs.Lines.{AreTexts, IsText, line_of, log_of, recovered_texts};
ghost use Rattle.op_log.specs.Recovery.{IsRecovered};
ghost use Rattle.op_log.specs.declared.entry.Entry.{Entry};
ghost use Rattle.op_log.specs.declared.entry.Entry.TheVariants.{Apply, Commit};

/// Whatever follows whole lines, they are recovered before what is recovered of it.
pub fn lines_before_are_recovered()
    ensures { (texts : List (List ℕ)) (rest : List ℕ) → AreTexts texts
        → recovered_texts (log_of texts ++ rest) ≡ texts ++ recovered_texts rest }
{}

/// If what was written is cut short at any octet, and octets without a line end follow, such as
/// zeros, then it has only written lines, and begins with them, whatever the checksums are.
pub fn cuts_leave_written_lines()
    ensures { (unsynced : List (List ℕ)) (count : ℕ) (before : List ℕ) → AreTexts unsynced
        → IsText before
        → BeginsWithWrittenLines unsynced (take count (log_of unsynced) ++ before)
        × HasOnlyWrittenLines unsynced (take count (log_of unsynced) ++ before) }
{}

/// If a whole line of a commit says that more had been synced, the damage is found, whatever is
/// before and after that line.
pub fn damage_before_commit_is_found()
    ensures { (octets synced : ℕ) (front back : List ℕ) → synced ≤ 18446744073709551615
        → octets < synced
        → has_commit_beyond octets
        (parts_at 10 (front ++ 10 ∷ (line_of (entry_text (Commit synced)) ++ back))) ≡ true }
{}

/// Of a log that a crash left, what follows the recovered entries isn't found to be damaged: each
/// whole line there with the checksum of its text is one that was written after the last sync, when
/// no commit could say that more had been synced.
pub fn crash_states_are_undamaged()
    ensures { (synced unsynced entries : List Entry) (log after : List ℕ) (octets : ℕ)
        → AreLawful synced → AreLawful unsynced → EndsWithCommit synced
        → IsCrashState (map entry_text synced) (map entry_text unsynced) log
        → log ≡ lines_of synced ++ after
        → HasOnlyWrittenLines (map entry_text unsynced) after
        → Each (HasSyncedAtMost (length (lines_of synced))) unsynced
        → IsRecovered log entries octets
        → has_commit_beyond octets (parts_at 10 (drop octets log)) ≡ false }
{}

/// The line of an operation has at most as many octets as `line_bound` says.
pub fn lines_are_within_bounds()
    ensures { (op : Op) → IsInForm op → length (line_of (entry_text (Apply op))) ≤ line_bound op }
{}

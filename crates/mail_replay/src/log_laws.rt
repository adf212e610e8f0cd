//! The law that joins dumps of logs with the audit.

ghost use Rattle.std.specs.Prelude.{ℕ, List, ◌++◌};
ghost use Rattle.log_dump.specs.LogDumps.{IsLogDump};
ghost use Rattle.mail_audit.specs.Audits.{IsRight};
ghost use Rattle.mail_audit.specs.Dumps.{IsRightDump};
ghost use Rattle.mail_script.specs.Lines.{lines_of};

/// The dump of a log is a right dump. If the audit's `Yes` is true of an input, it is also true of
/// the input followed by that dump.
pub fn log_dumps_are_right()
    ensures dumps { (log text : List ℕ) → IsLogDump log text → IsRightDump text }
    ensures lines { (log text : List ℕ) → IsLogDump log text → (front : List (List ℕ))
        → IsRight front
        → IsRight (front ++ lines_of text) }
{}

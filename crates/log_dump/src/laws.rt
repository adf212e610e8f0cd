//! What holds of every dump of a log: a law, the contract of a function that does nothing.

ghost use Rattle.std.specs.Prelude.{ℕ, List};
ghost use Rattle.crdt_ops.specs.Ops.{clock_of, id_of};
ghost use Rattle.merge_laws.specs.Orders.{IsCausal};
ghost use Rattle.op_log.specs.Entries.{ops_of};
ghost use Rattle.op_log.specs.declared.entry.Entry.{Entry};
ghost use Rattle.log_dump.specs.EntryOrder.{AreInTurn};

/// If each entry of a replica's log can follow those before it, their operations are causal: each
/// comes after its causes, and none twice.
pub fn log_dumps_are_causal()
    ensures { (replica : ℕ) (entries : List Entry) → AreInTurn replica entries
        → IsCausal id_of clock_of (ops_of entries) }
{}

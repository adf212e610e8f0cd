//! Laws: the bounds of a replica's numbers, and that listings can be printed.

ghost use Rattle.std.specs.Prelude.{ℕ, List};
ghost use Rattle.crdt_ops.specs.declared.op.Op.{Op};
ghost use Rattle.mailbox_rows.specs.ListedMessage.{ListedMessage};
ghost use Rattle.merge_laws.specs.Orders.{IsIn};
ghost use Rattle.uid_projection.specs.Bounds.{AreWritable, HasBounds, IsLasting, IsLawfulStart};
ghost use Rattle.uid_projection.specs.Bounds.{IsWritableRow};
ghost use Rattle.uid_projection.specs.Listing.{listing};
ghost use Rattle.uid_projection.specs.declared.first_numbers.Counters.{Counters};

/// UIDs, UIDNEXT and UIDVALIDITY are numbers of 32 bits, at least 1. Mod-sequences are at least 1,
/// and at most one more than the number of applied operations. This holds as long as no counter was
/// used up.
pub fn numbers_have_bounds()
    ensures { (start : Counters) (folder : List ℕ) (ops : List Op) → IsLawfulStart start
        → IsLasting start ops
        → HasBounds start folder ops }
{}

/// If the applied operations can be written as text, then each row of a listing can be written too.
pub fn rows_are_writable()
    ensures { (start : Counters) (folder : List ℕ) (ops : List Op) (row : ListedMessage)
        → AreWritable ops
        → IsIn row (listing start folder ops)
        → IsWritableRow row }
{}

//! Laws that STORE changes flags as sets (RFC 9051, section 6.4.6).

ghost use Rattle.std.specs.Prelude.{◌≡◌, ◌↔◌, ◌⊎◌, ℕ, List, IsTrue};
ghost use Rattle.imap_commands.specs.FlagChange.{changed_flags};
ghost use Rattle.imap_syntax.specs.declared.flags.SystemFlag.{SystemFlag};
ghost use Rattle.imap_syntax.specs.declared.store.StoreMode.{StoreMode};
ghost use Rattle.imap_syntax.specs.declared.store.StoreMode.TheVariants.{Add, Remove, Replace};
ghost use Rattle.imap_query.specs.Messages.{has_flag};
ghost use Rattle.imap_types.specs.Keywords.{AreKeywords};
ghost use Rattle.imap_types.specs.declared.flags.Flags.{Flags};
ghost use Rattle.merge_laws.specs.Orders.{IsIn};

/// +FLAGS is the union: afterwards a message has each flag that it had, each that is given, and no
/// other.
pub fn added_flags_are_the_union()
    ensures system { (flag : SystemFlag) (old given : Flags)
        → IsTrue (has_flag flag (changed_flags Add old given))
        ↔ (IsTrue (has_flag flag old) ⊎ IsTrue (has_flag flag given)) }
    ensures keywords { (word : List ℕ) (old given : Flags)
        → IsIn word (changed_flags Add old given).keywords
        ↔ (IsIn word old.keywords ⊎ IsIn word given.keywords) }
{}

/// -FLAGS is the difference: afterwards a message has each flag that it had and that isn't given,
/// and no other.
pub fn removed_flags_are_the_difference()
    ensures system { (flag : SystemFlag) (old given : Flags)
        → IsTrue (has_flag flag (changed_flags Remove old given))
        ↔ (IsTrue (has_flag flag old) × (IsTrue (has_flag flag given) → ⊥)) }
    ensures keywords { (word : List ℕ) (old given : Flags) → AreKeywords old.keywords
        → AreKeywords given.keywords
        → IsIn word (changed_flags Remove old given).keywords
        ↔ (IsIn word old.keywords × (IsIn word given.keywords → ⊥)) }
{}

/// FLAGS is replacement: afterwards a message has the flags that are given, and no other.
pub fn replaced_flags_are_those_given()
    ensures { (old given : Flags) → changed_flags Replace old given ≡ given }
{}

/// After each STORE the keywords ascend in lower case, each once, so that the set determines the
/// list.
pub fn changed_flags_are_spelled()
    ensures { (mode : StoreMode) (old given : Flags) → AreKeywords old.keywords
        → AreKeywords given.keywords
        → AreKeywords (changed_flags mode old given).keywords }
{}

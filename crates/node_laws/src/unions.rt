//! A law on the union of flags.

ghost use Rattle.std.specs.Prelude.{◌≡◌, ◌∷◌, [], List};
ghost use Rattle.imap_types.specs.Ascending.{AreAscending};
ghost use Rattle.imap_types.specs.declared.flags.Flags.{Flags};
ghost use Rattle.imap_types.specs.Unions.{union_of, with_flags};
ghost use Rattle.node_laws.specs.Unions.{IsUnion};

/// The flags of a message with several versions are the union of its versions' flags, and no other
/// flags are. The flags to which a STORE adds others are a union too (RFC 9051, sections 2.3.2 and
/// 6.4.6).
pub fn flags_are_unions()
    ensures union { (parts : List Flags) → IsUnion parts (union_of parts) }
    ensures only { (parts : List Flags) (union : Flags) → IsUnion parts union
        → union ≡ union_of parts }
    ensures added { (flags more : Flags)
        → AreAscending flags.keywords
        → IsUnion (flags ∷ more ∷ []) (with_flags flags more) }
{}

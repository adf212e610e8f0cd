//! What is true of all encodings.

ghost use Rattle.std.specs.Prelude.{◌≡◌, ℕ, List, IsUtf8};
ghost use Rattle.mailbox_utf7.specs.ModifiedUtf7.{encoding_of};

use crate::shifts::mailbox_engine;

/// Different names have different encodings.
pub fn encodings_are_distinct()
    ensures { (one other : List ℕ) → IsUtf8 one → IsUtf8 other
        → encoding_of one ≡ encoding_of other → one ≡ other }
{
    let _engine = mailbox_engine();
}

//! Laws of search keys: the steps of a SEARCH are those of exactly one key.

ghost use Rattle.std.specs.Prelude.{◌≡◌, List, ℕ};
ghost use Rattle.imap_syntax.specs.Keys.{search_keys};
ghost use Rattle.imap_syntax.specs.declared.search.SearchStep.{SearchStep};
ghost use Rattle.imap_query.specs.KeyHits.{IsKey, Key, steps_of};

/// Each SEARCH spells the steps of a key (RFC 9051, section 6.4.4).
pub fn spelled_steps_are_a_key()
    ensures { (steps : List SearchStep) (text : List ℕ) → search_keys steps text → IsKey steps }
{}

/// Two keys with the same steps are equal.
pub fn one_key()
    ensures { (a b : Key) → steps_of a ≡ steps_of b → a ≡ b }
{}

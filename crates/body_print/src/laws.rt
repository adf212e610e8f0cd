//! What is true of all values that are printed.

ghost use Rattle.std.specs.Prelude.{◌≡◌, ◌<◌, ◌^◌, ◌++◌, ℕ, Bool, List, length};
ghost use Rattle.body_print.specs.Bodies.{body_of};
ghost use Rattle.body_print.specs.Envelopes.{envelope_of};
ghost use Rattle.body_print.specs.ReadBack.{IsBounded, IsOnlyReading, IsReading};
ghost use Rattle.body_print.specs.Values.{Value, text_of};
ghost use Rattle.mail_parts.specs.declared.part.Part.{Part};

/// A text begins with one printed value: its strings, numbers, NILs and parentheses can be read in
/// one way.
pub fn one_reading()
    ensures { (text : List ℕ) (one other : Value) (rest more : List ℕ)
        → IsReading text one rest → IsReading text other more → (one ≡ other) × (rest ≡ more) }
{}

/// A printed envelope reads back as what was printed and as nothing else, whatever follows it. One
/// whose text is below 2 ^ 64 octets, as all that is in memory, is bounded.
pub fn envelope_reads_back()
    ensures bounded { (header : List ℕ) → length (text_of (envelope_of header)) < 2 ^ 64
        → IsBounded (envelope_of header) }
    ensures reads_back { (header more : List ℕ) → IsBounded (envelope_of header)
        → IsOnlyReading (text_of (envelope_of header) ++ more) (envelope_of header) more }
{}

/// A printed body reads back as what was printed and as nothing else, whatever follows it. One is
/// bounded if its text and the text that it describes are below 2 ^ 64 octets, as all that is in
/// memory.
pub fn body_reads_back()
    ensures bounded { (extended : Bool) (text : List ℕ) (parts : List Part)
        → length text < 2 ^ 64 → length (text_of (body_of extended text parts)) < 2 ^ 64
        → IsBounded (body_of extended text parts) }
    ensures reads_back { (extended : Bool) (text : List ℕ) (parts : List Part) (more : List ℕ)
        → IsBounded (body_of extended text parts)
        → IsOnlyReading (text_of (body_of extended text parts) ++ more)
        (body_of extended text parts) more }
{}

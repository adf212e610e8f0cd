//! A buffer that cuts a script, which arrives in pieces, into lines.

ghost use Rattle.std.specs.Prelude.{◌≡◌, ◌≢◌, ◌++◌, ℕ, List, [], ◌∷◌, Option, Some, None, IfOk};
ghost use Rattle.std.specs.Prelude.{MatchOption, OnErr, OnOk};
ghost use Rattle.mail_script.specs.Lines.{lines_of};
ghost use Rattle.mail_script.specs.Reading.{cut_at};

use imap_types::Octets;
use std::alloc::{AllocError, Global};
use std::marker::Model;
use text_fields::split;

/// The part of a script that has arrived and hasn't been taken as lines. Each line ends with LF;
/// the last line may lack it.
#[derive(Drop)]
pub struct ScriptLines {
    octets: Vec<u8>,
    /// The number of octets in the buffer that were taken as lines.
    taken: usize,
    /// No LF lies between `taken` and this place.
    searched: usize,
}

impl Model for ScriptLines {
    ghost use Rattle.std.specs.Prelude.{ℕ, List, drop};
    ghost use Rattle.mail_script.specs.Lines.{IsSearched};

    ghost Value = { List ℕ };

    ghost view = { λ s. drop s.taken s.octets.items };

    ghost invariant = { λ s. IsSearched s.taken s.searched s.octets.items };
}

impl ScriptLines {
    /// An empty buffer.
    pub fn new(alloc: Global) -> ScriptLines
        ensures { result ≡ [] }
    {
        ScriptLines {
            octets: Vec::new(alloc),
            taken: 0,
            searched: 0,
        }
    }

    /// Adds the next piece of the script; `Err` if memory runs out, and then nothing changes.
    pub fn push(&mut self, piece: &[u8]) -> Result<(), AllocError>
        ensures ok { OnOk result (self.new ≡ self.old ++ piece.now) }
        ensures err { OnErr result (self.new ≡ self.old) }
    {
        self.forget_taken();
        self.octets.extend_from_slice(piece)?;
        Ok(())
    }

    /// Takes the next line, without its LF; `None` if the rest has no LF, and `Err` if memory runs
    /// out for the line. In both cases nothing changes.
    pub fn next_line(&mut self, alloc: Global) -> Result<Option<Octets>, AllocError>
        ensures ok { IfOk result (λ next. MatchOption next
            ((cut_at 10 self.old ≡ None) × (self.new ≡ self.old))
            (λ line. cut_at 10 self.old ≡ Some (line, self.new))) }
        ensures err { OnErr result (self.new ≡ self.old) }
    {
        match split(b'\n', &self.octets[self.searched..]) {
            None => {
                self.searched = self.octets.len();
                Ok(None)
            }
            Some((end, _)) => {
                let count = self.searched - self.taken + end.len();
                let line = Octets::from_slice(alloc, &self.rest()[..count])?;
                self.taken += count + 1;
                self.searched = self.taken;
                Ok(Some(line))
            }
        }
    }

    /// The octets that weren't taken. When the script has ended and they aren't empty, they are its
    /// last line.
    pub fn into_rest(self) -> Octets
        ensures { result ≡ self }
    {
        let ScriptLines {
            mut octets,
            taken,
            searched: _,
        } = self;
        octets.drain(..taken);
        Octets::new(octets)
    }

    fn rest(&self) -> &[u8]
        ensures { result.now ≡ self.now }
    {
        &self.octets[self.taken..]
    }

    fn forget_taken(&mut self)
        ensures value { self.new ≡ self.old }
    {
        self.octets.drain(..self.taken);
        self.searched -= self.taken;
        self.taken = 0;
    }
}

/// Cutting a text at its first LF, and then the rest in the same way, gives the text's lines,
/// whatever is added at the end; the octets after the last LF, if any, are the last line.
pub fn cut_in_turn()
    ensures next { (text line rest more : List ℕ)
        → cut_at 10 text ≡ Some (line, rest)
        → lines_of (text ++ more) ≡ line ∷ lines_of (rest ++ more) }
    ensures last { (text : List ℕ) → cut_at 10 text ≡ None → text ≢ [] → lines_of text ≡ text ∷ [] }
{}

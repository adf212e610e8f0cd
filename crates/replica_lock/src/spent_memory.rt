//! What a pass no longer needs.

ghost use Rattle.std.specs.Prelude.{◌≡◌, None, false};

use crate::journal::ForgottenEntries;
use crate::outcome::Outcome;
use imap_node::Reply;

/// The most answers that are freed in a few microseconds.
const FEW_ANSWERS: usize = 16;

/// The most octets, by their own estimates, of entries that are freed in a few microseconds.
const FEW_OCTETS: u64 = 16_384;

/// What a pass no longer needs: the outcome of an earlier call, and the entries that the book
/// forgot at its calls. To free a long outcome takes milliseconds.
pub struct SpentMemory {
    pub(crate) outcome: Option<Outcome>,
    pub(crate) forgotten: Option<ForgottenEntries>,
}

// By hand, so that crates above drop it whole.
impl Drop for SpentMemory {
    fn drop(self) {
        let Self {
            outcome: _,
            forgotten: _,
        } = self;
    }
}

impl SpentMemory {
    /// Whether it is freed in a few microseconds.
    pub fn is_small(&self) -> bool {
        let octets = match &self.forgotten {
            Some(forgotten) => forgotten.octets(),
            None => 0,
        };
        octets <= FEW_OCTETS && answer_count(self.outcome.as_ref()) <= FEW_ANSWERS
    }

    /// Frees what takes a few microseconds. False if nothing is left.
    pub fn free_some(&mut self) -> bool
        ensures left { result ≡ false
            → (self.new.outcome ≡ None) × (self.new.forgotten ≡ None) }
    {
        if let Some(outcome) = &mut self.outcome {
            if outcome.drop_some(FEW_ANSWERS) {
                return true;
            }
        }
        self.outcome = None;
        if let Some(forgotten) = &mut self.forgotten {
            if forgotten.drop_some(FEW_ANSWERS, FEW_OCTETS) {
                return true;
            }
        }
        self.forgotten = None;
        false
    }
}

/// The number of answers of an outcome.
fn answer_count(outcome: Option<&Outcome>) -> usize {
    match outcome {
        Some(
            Outcome::Replied {
                reply: Reply::Done { answers, .. },
            },
        ) => answers.as_slice().len(),
        _ => 0,
    }
}

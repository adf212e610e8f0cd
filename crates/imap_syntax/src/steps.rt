//! The steps of a search.

ghost use Rattle.std.specs.Prelude.{◌≡◌};

use crate::search::SearchStep;
use std::marker::Model;

/// The steps of one key in postfix order: each follows the steps of its operands.
pub struct SearchSteps {
    steps: Vec<SearchStep>,
}

// By hand, so that crates above drop it whole.
impl Drop for SearchSteps {
    fn drop(self) {
        let Self { steps: _ } = self;
    }
}

impl Model for SearchSteps {
    ghost use Rattle.std.specs.Prelude.{List};
    ghost use Rattle.imap_syntax.specs.SearchKeys.{IsKey};
    ghost use Rattle.imap_syntax.specs.declared.search.SearchStep.{SearchStep};

    ghost Value = { List SearchStep };

    ghost view = { λ s. s.steps.items };

    ghost invariant = { λ s. IsKey s.steps.items };
}

impl SearchSteps {
    ghost use Rattle.imap_syntax.specs.SearchKeys.{IsKey};

    /// These steps, which are those of one key, in the vector's memory.
    pub fn new(steps: Vec<SearchStep>) -> SearchSteps
        requires { IsKey steps.items }
        ensures { result ≡ steps.items }
    {
        SearchSteps { steps }
    }

    /// The steps of the key, in order.
    pub fn as_slice(&self) -> &[SearchStep]
        ensures steps { result.now ≡ self.now }
        ensures key { IsKey self.now }
    {
        &self.steps
    }
}

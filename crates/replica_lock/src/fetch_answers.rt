//! FETCH answers in compact form.

ghost use Rattle.std.specs.Prelude.{◌≡◌, ◌↔◌, IfSome, IsTrue, map};
ghost use Rattle.replica_lock.specs.FetchAnswers.{answer_of, answers_of};

use crate::fetch_line::FetchLine;
use imap_answers::{Answer, Sections};
use std::alloc::Global;

/// FETCH answers, in order.
pub enum FetchAnswers {
    /// Answers without parts of a text.
    Lines {
        /// The lines.
        lines: Vec<FetchLine>,
    },
    /// One answer, with parts of the message's text.
    Parts {
        /// The answer's other items.
        line: FetchLine,
        /// The parts. A part that is the whole text shares the message's memory.
        sections: Sections,
    },
}

// By hand, so that its owner drops it whole.
impl Drop for FetchAnswers {
    fn drop(self) {
        match self {
            Self::Lines { lines: _ } => {}
            Self::Parts {
                line: _,
                sections: _,
            } => {}
        }
    }
}

impl FetchAnswers {
    /// Drops at most so many of the last answers. False if none is left, or only one.
    pub(crate) fn drop_some(&mut self, most: usize) -> bool {
        match self {
            FetchAnswers::Lines { lines } => {
                lines.truncate(lines.len().saturating_sub(most));
                !lines.is_empty()
            }
            FetchAnswers::Parts { .. } => false,
        }
    }

    /// These answers in compact form; `None` if they have none, or if memory runs out.
    pub(crate) fn from_answers(alloc: Global, answers: &[Answer]) -> Option<FetchAnswers>
        ensures { IfSome result (λ shown. answers_of shown ≡ answers.now) }
    {
        match lines_of(alloc, answers) {
            Some(lines) => Some(FetchAnswers::Lines { lines }),
            None => parts_of(alloc, answers),
        }
    }

    /// Whether these are the answers stored here.
    pub(crate) fn are_answers(&self, answers: &[Answer]) -> bool
        ensures { IsTrue result ↔ (answers_of self.now ≡ answers.now) }
    {
        match self {
            FetchAnswers::Lines { lines } => are_lines_of(lines, answers),
            FetchAnswers::Parts { line, sections } => {
                answers.len() == 1 && line.is_line_with(sections, &answers[0])
            }
        }
    }
}

/// Whether the first of these answers has a line. Most lists that have no lines are recognised by
/// it, before any memory is taken.
fn begin_with_line(answers: &[Answer]) -> bool {
    match answers.first() {
        Some(answer) => FetchLine::from_answer(answer).is_some(),
        None => true,
    }
}

/// The lines of these answers; `None` if one has no line, or if memory runs out.
fn lines_of(alloc: Global, answers: &[Answer]) -> Option<Vec<FetchLine>>
    ensures { IfSome result (λ lines. map answer_of lines.items ≡ answers.now) }
{
    if !begin_with_line(answers) {
        return None;
    }
    let mut lines = Vec::with_capacity(alloc, answers.len()).ok()?;
    for answer in answers {
        lines.push(FetchLine::from_answer(answer)?).ok()?;
    }
    Some(lines)
}

/// Whether the lines are those of these answers, one for each.
fn are_lines_of(lines: &[FetchLine], answers: &[Answer]) -> bool
    ensures { IsTrue result ↔ (map answer_of lines.now ≡ answers.now) }
{
    if lines.len() != answers.len() {
        return false;
    }
    for i in 0..lines.len() {
        if !lines[i].is_line_of(&answers[i]) {
            return false;
        }
    }
    true
}

/// The compact form of one FETCH answer with parts of a text; `None` if there are no or several
/// answers, if the answer has other items, or if memory runs out.
fn parts_of(alloc: Global, answers: &[Answer]) -> Option<FetchAnswers>
    ensures { IfSome result (λ shown. answers_of shown ≡ answers.now) }
{
    if answers.len() != 1 {
        return None;
    }
    let Answer::Fetch { number, items } = &answers[0] else {
        return None;
    };
    let line = FetchLine::without_parts(*number, items)?;
    let sections = items.sections.copy(alloc).ok()?;
    Some(FetchAnswers::Parts { line, sections })
}

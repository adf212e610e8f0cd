//! Tests whether answers change the messages of a session's view or their numbers.

ghost use Rattle.std.specs.Prelude.{◌≡◌};
ghost use Rattle.std.specs.List.{list_any};
ghost use Rattle.session_view.specs.NoteChanges.{is_shifting};

use imap_answers::Answer;

/// Whether one of these answers shifts messages' numbers or shows new messages.
pub fn are_shifting(answers: &[Answer]) -> bool
    ensures { result ≡ list_any is_shifting answers.now }
{
    for answer in answers {
        if is_shifting(answer) {
            return true;
        }
    }
    false
}

fn is_shifting(answer: &Answer) -> bool
    ensures { result ≡ is_shifting answer.now }
{
    match answer {
        Answer::Expunge { .. } => true,
        Answer::Exists { .. } => true,
        _ => false,
    }
}

//! What is true of all conversations with clients that speak IMAP4rev1.

ghost use Rattle.std.specs.Prelude.{◌≡◌, ◌⊎◌, ℕ, Bool, List, Some, true};
ghost use Rattle.imap_answers.specs.AnswerText.{text_of_answer};
ghost use Rattle.imap_answers.specs.declared.answer.Answer.TheVariants.{Refused};
ghost use Rattle.imap_answers.specs.declared.fixed_words.Refusal.TheVariants.{NoMemory};
ghost use Rattle.imap_lex.specs.declared.item.Item.TheVariants.{Frame};
ghost use Rattle.imap_syntax.specs.Commands.{IsSpelled};
ghost use Rattle.imap_syntax.specs.Faults.{IsTagged};
ghost use Rattle.imap_syntax.specs.declared.command.Tagged.{Tagged};
ghost use Rattle.rev1_front.specs.ClientFrames.{IsCommandFrame};
ghost use Rattle.rev1_front.specs.declared.search_days.SentDay.{SentDay};
ghost use Rattle.rev1_front.specs.declared.session.Awaited.TheVariants.{Command, Response};
ghost use Rattle.rev1_front.specs.declared.session.Mode.{Mode};
ghost use Rattle.rev1_front.specs.declared.session.Mode.TheVariants.{Rev2};
ghost use Rattle.rev1_front.specs.declared.taken.Taken.{Taken};
ghost use Rattle.rev1_connection.specs.FrontRequests.{request_of};
ghost use Rattle.rev1_connection.specs.Handling.{HandlesItem, IsCarriedOut, awake};
ghost use Rattle.rev1_connection.specs.TaggedLines.{IsCompletedBy, RepliesToCommands};
ghost use Rattle.rev1_connection.specs.declared.request.FrontRequest.TheVariants.{Days};
ghost use Rattle.rev1_connection.specs.declared.session.FrontSession.{FrontSession};

use crate::rename_port::RenamePort;
use rev1_front::{lines_keep_tags, profile_is_untouched, tags_are_kept};

/// After ENABLE IMAP4rev2 a frame that spells a command of the profile is this command, and what is
/// shown are the answers as they are, unless memory runs out before the port is called.
pub fn profile_is_carried_out<P: RenamePort>()
    ensures { (old new : P) (frame text : List ℕ) (tagged : Tagged) (after : FrontSession)
        (out : Bool)
        → IsSpelled tagged frame
        → HandlesItem P.steps P.renames old (awake Rev2) (Frame frame) true text new after out
        → IsCarriedOut P.steps old Rev2 tagged text new after out
        ⊎ ((tag : List ℕ) × (text ≡ text_of_answer (Refused tag NoMemory)) × (new ≡ old)) }
{
    profile_is_untouched();
}

/// A search by the days on which messages were sent asks for them once: with them its frame is
/// something else.
pub fn days_are_asked_once()
    ensures { (mode : Mode) (days : List SentDay) (frame : List ℕ) (it : Taken)
        (fetch : Tagged)
        → IsCommandFrame mode (Some days) frame it
        → request_of it ≡ Days fetch
        → ⊥ }
{}

/// A frame with a tag gets one tagged line, with its tag and after all others (RFC 3501, section
/// 2.2.2), if the port replies so to commands. After IDLE, and after AUTHENTICATE without its
/// response, there is none yet; then the response gets it.
pub fn commands_are_completed<P: RenamePort>()
    ensures frames { RepliesToCommands P.steps
        → (old new : P) (session : FrontSession) (frame tag rest text : List ℕ)
        (after : FrontSession) (out : Bool)
        → session.awaited ≡ Command
        → IsTagged frame tag rest
        → HandlesItem P.steps P.renames old session (Frame frame) true text new after out
        → IsCompletedBy tag text after }
    ensures responses { RepliesToCommands P.steps
        → (old new : P) (session : FrontSession) (frame tag text : List ℕ) (after : FrontSession)
        (out : Bool)
        → session.awaited ≡ Response tag
        → HandlesItem P.steps P.renames old session (Frame frame) true text new after out
        → IsCompletedBy tag text after }
{
    lines_keep_tags();
    tags_are_kept();
}

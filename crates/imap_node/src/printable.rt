//! Laws: a node's answers can be printed.

ghost use Rattle.std.specs.Prelude.{ℕ, List, [], ◌∷◌, length};
ghost use Rattle.crdt_ops.specs.declared.op.Op.{Op};
ghost use Rattle.imap_answers.specs.declared.answer.Answer.{Answer};
ghost use Rattle.imap_answers.specs.declared.answer.Answer.TheVariants.{Refused, UntaggedOk};
ghost use Rattle.imap_answers.specs.declared.codes.Notice.TheVariants.{Closed};
ghost use Rattle.imap_answers.specs.declared.fixed_words.Refusal.{Refusal};
ghost use Rattle.imap_answers.specs.Printable.{Each, IsPrintable, IsWide};
ghost use Rattle.imap_commands.specs.declared.session.Session.{Session};
ghost use Rattle.imap_syntax.specs.Commands.{IsSpelled};
ghost use Rattle.imap_syntax.specs.declared.command.Tagged.{Tagged};
ghost use Rattle.imap_syntax.specs.declared.idle.IdleLine.{IdleLine};
ghost use Rattle.imap_commands.specs.Printing.{AreShowable};
ghost use Rattle.imap_node.specs.Mailboxes.{rows_for};
ghost use Rattle.imap_node.specs.Printing.{IsAnswerableIn, HasPrintableAnswers, IsPresentable};
ghost use Rattle.imap_node.specs.Nodes.{NodeState};
ghost use Rattle.imap_node.specs.Responses.{CarriesOut, session_after_refusal};
ghost use Rattle.imap_node.specs.declared.input.Input.{Input};
ghost use Rattle.imap_node.specs.declared.input.Input.TheVariants as inputs;
ghost use Rattle.session_view.specs.declared.reply_replay.SilentFlags.{SilentFlags};
ghost use Rattle.session_view.specs.ViewState.{ViewState};
ghost use Rattle.uid_projection.specs.Listing.{listing};
ghost use Rattle.uid_projection.specs.declared.first_numbers.Counters.{Counters};

/// A node's listings can be shown, and so can the messages that a view's mailbox has now.
pub fn listings_are_showable()
    ensures listed { (start : Counters) (name : List ℕ) (ops : List Op) → IsPresentable start ops
        → AreShowable (listing start name ops) }
    ensures viewed { (start : Counters) (ops : List Op) (view : ViewState) → IsPresentable start ops
        → AreShowable (rows_for start ops view) }
{}

/// The answers that a session is sent can be printed, so that the reader of answers reads them
/// back: the answers to a command that a frame spells, to a line while it idles, and to a poll.
/// This requires that the operations that the node has applied by then can be shown, and that the
/// session can be answered. The session afterwards can be answered again, even by a refusal. If a
/// command is refused, its tagged line can be printed, and CLOSED before it.
pub fn answers_are_printable()
    ensures commands { (old new : NodeState) (n : ℕ) (session : Session) (answers : List Answer)
        (silent : List SilentFlags) (issued : List Op) → IsAnswerableIn session
        → IsPresentable old.start new.applied
        → (moment : ℕ) (tagged : Tagged) (octets : List ℕ) → IsSpelled tagged octets
        → IsWide (length octets)
        → CarriesOut old n session (inputs.Command moment tagged) answers silent issued new
        → HasPrintableAnswers old.sessions n answers new.sessions }
    ensures lines { (old new : NodeState) (n : ℕ) (session : Session) (answers : List Answer)
        (silent : List SilentFlags) (issued : List Op) → IsAnswerableIn session
        → IsPresentable old.start new.applied
        → (line : IdleLine)
        → CarriesOut old n session (inputs.Line line) answers silent issued new
        → HasPrintableAnswers old.sessions n answers new.sessions }
    ensures polls { (old new : NodeState) (n : ℕ) (session : Session) (answers : List Answer)
        (silent : List SilentFlags) (issued : List Op) → IsAnswerableIn session
        → IsPresentable old.start new.applied
        → CarriesOut old n session inputs.Poll answers silent issued new
        → HasPrintableAnswers old.sessions n answers new.sessions }
    ensures refusals { (tagged : Tagged) (octets : List ℕ) (why : Refusal) → IsSpelled tagged octets
        → IsWide (length octets)
        → Each IsPrintable (UntaggedOk Closed ∷ Refused tagged.tag why ∷ []) }
    ensures left { (session : Session) (input : Input) (why : Refusal) → IsAnswerableIn session
        → IsAnswerableIn (session_after_refusal session input why) }
{}

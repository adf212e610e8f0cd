//! Laws on the replies of a node: message numbers, APPENDUID and COPYUID.

ghost use Rattle.std.specs.Prelude.{◌≡◌, ◌≤◌, ℕ, true, List, Some};
ghost use Rattle.crdt_ops.specs.declared.op.Op.{Op};
ghost use Rattle.imap_answers.specs.declared.answer.Answer.{Answer};
ghost use Rattle.imap_answers.specs.declared.answer.Answer.TheVariants.{UntaggedOk};
ghost use Rattle.imap_answers.specs.declared.codes.Code.TheVariants.{AppendUid, CopyUid};
ghost use Rattle.imap_answers.specs.declared.codes.Notice.TheVariants.{CopyUid as Moved};
ghost use Rattle.merge_laws.specs.Orders.{IsIn};
ghost use Rattle.imap_node.specs.Nodes.{NodeState};
ghost use Rattle.imap_node.specs.Replays.{view_at};
ghost use Rattle.imap_node.specs.Responses.{Responds};
ghost use Rattle.imap_node.specs.declared.input.Input.{Input};
ghost use Rattle.imap_node.specs.declared.reply.Reply.{Reply};
ghost use Rattle.node_laws.specs.ByNumber.{ViewKeepsPlaces, answers_in, asks_by_number};
ghost use Rattle.imap_node.specs.declared.reply.Reply.TheVariants.{Done};
ghost use Rattle.imap_syntax.specs.declared.arguments.Append.{Append as Appended};
ghost use Rattle.imap_syntax.specs.declared.arguments.Transfer.{Transfer};
ghost use Rattle.imap_syntax.specs.declared.command.Command.TheVariants.{Append, Copy, Move};
ghost use Rattle.node_laws.specs.Copies.{IsCopyUid, HasCode, IsAppendUid, request};
ghost use Rattle.session_view.specs.ViewState.{ViewState};
ghost use Rattle.session_view.specs.Sync.{HasNoExpunge};
ghost use Rattle.session_view.specs.declared.reply_replay.SilentFlags.{SilentFlags};
ghost use Rattle.uid_projection.specs.Applied.{IsApplied};

/// FETCH, STORE and SEARCH by message numbers are answered without EXPUNGE, and after them each
/// message that the session was shown before still has its number (RFC 9051, section 7.5.1).
pub fn by_number_keeps_places()
    ensures expunges { (old new : NodeState) (n : ℕ) (input : Input) (reply : Reply)
        → Responds old n input reply new
        → asks_by_number input ≡ true
        → HasNoExpunge (answers_in reply) }
    ensures places { (old new : NodeState) (n : ℕ) (input : Input) (reply : Reply)
        → Responds old n input reply new
        → asks_by_number input ≡ true
        → ViewKeepsPlaces (view_at old.sessions n) (view_at new.sessions n) }
{}

/// APPENDUID and COPYUID report the right UIDs (RFC 9051, section 7.1): under the mailbox's
/// UIDVALIDITY the UID of an APPEND is that of the message that its one operation appended, and the
/// copies of a COPY or MOVE have the reported UIDs, in the order of their sources.
pub fn reported_uids_are_those_of_the_messages()
    ensures appends { (old new : NodeState) (n moment : ℕ) (tag : List ℕ) (append : Appended)
        (answers : List Answer) (silent : List SilentFlags) (issued : List Op) (v number : ℕ)
        → IsApplied old.applied
        → Responds old n (request moment tag (Append append)) (Done answers silent issued) new
        → HasCode (AppendUid v number) answers → IsAppendUid new append.name issued v number }
    ensures copies { (old new : NodeState) (n moment : ℕ) (tag : List ℕ) (transfer : Transfer)
        (answers : List Answer) (silent : List SilentFlags) (issued : List Op) (view : ViewState)
        (v : ℕ)
        (sources copies : List ℕ) → 1 ≤ old.start.uid → IsApplied old.applied
        → Responds old n (request moment tag (Copy transfer)) (Done answers silent issued) new
        → view_at old.sessions n ≡ Some view
        → HasCode (CopyUid v sources copies) answers
        → IsCopyUid old new view transfer.name issued v sources copies }
    ensures moves { (old new : NodeState) (n moment : ℕ) (tag : List ℕ) (transfer : Transfer)
        (answers : List Answer) (silent : List SilentFlags) (issued : List Op) (view : ViewState)
        (v : ℕ)
        (sources copies : List ℕ) → 1 ≤ old.start.uid → IsApplied old.applied
        → Responds old n (request moment tag (Move transfer)) (Done answers silent issued) new
        → view_at old.sessions n ≡ Some view
        → IsIn (UntaggedOk (Moved v sources copies)) answers
        → IsCopyUid old new view transfer.name issued v sources copies }
{}

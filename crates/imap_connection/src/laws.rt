//! Laws of conversations, whatever the pieces in which their octets arrive (`specs/Streams.antt`),
//! and the law that a replica has one dump (`specs/Dumps.antt`). Each is the contract of a function
//! that does nothing.

ghost use Rattle.std.specs.Prelude.{◌≡◌, ℕ, List, ◌++◌, ◌∷◌, [], Some, Result, Ok, Err};
ghost use Rattle.crdt_ops.specs.declared.op.Op.{Op};
ghost use Rattle.imap_answers.specs.Printable.{IsPrintable};
ghost use Rattle.imap_answers.specs.declared.answer.Answer.{Answer};
ghost use Rattle.imap_lex.specs.Frames.{AreFrames, FailsAt};
ghost use Rattle.imap_lex.specs.Framing.{FrameProgress, cut_from, start};
ghost use Rattle.imap_lex.specs.declared.fault.FrameFaultKind.{FrameFaultKind};
ghost use Rattle.imap_lex.specs.declared.item.Item.{Item};
ghost use Rattle.imap_lex.specs.declared.limits.Limits.{Limits};
ghost use Rattle.imap_node.specs.Nodes.{IsActive, NodeState, with_session_closed};
ghost use Rattle.imap_connection.specs.Conversation.{Converses, turns_of_answers};
ghost use Rattle.imap_connection.specs.Dumps.{IsDump};
ghost use Rattle.imap_connection.specs.FaultAnswers.{IsFaultAnswer, IsLiteralAnswer};
ghost use Rattle.imap_connection.specs.Streams.{Call, ConversesBetweenOthers, EndsAfter};
ghost use Rattle.imap_connection.specs.Streams.{IsCallAfter, IsRun, IsRunBetweenOthers, Piece, Run};
ghost use Rattle.imap_connection.specs.Streams.{PieceAt, cut_in, cut_with, items_in, items_of};
ghost use Rattle.imap_connection.specs.Streams.{octets_of_pieces, octets_in, octets_with};
ghost use Rattle.imap_connection.specs.Streams.{items_at_each, items_without_moments, pieces_with};
ghost use Rattle.imap_connection.specs.Talks.{EndsTalk, bye_of};
ghost use Rattle.imap_connection.specs.declared.turn.TalkFaultKind.TheVariants.{Framing};
ghost use Rattle.imap_connection.specs.declared.turn.TalkFaultKind.{TalkFaultKind};
ghost use Rattle.imap_connection.specs.declared.turn.Turn.{Turn};

/// It doesn't matter how the octets of a connection were cut into pieces: the turns of the calls of
/// `talk` on them, the last of which may have ended the session by a LOGOUT, are the conversation
/// over the items of all these octets. Each item arrives at the moment of the piece that completes
/// it.
pub fn pieces_are_one_stream()
    ensures runs { (run : Run Piece) → IsRun run
        → Converses run.old run.session (cut_in run).0 run.turns run.new
        × (run.after ≡ (cut_in run).1) }
    ensures last { (run : Run Piece) (call : Call) → IsRun run → IsCallAfter run call
        → Converses run.old run.session (cut_with run call).0 (run.turns ++ call.turns) call.new }
    ensures items { (limits : Limits) (state : Result FrameProgress FrameFaultKind)
        (pieces : List Piece)
        → items_without_moments (items_of limits state pieces)
        ≡ (cut_from limits state (octets_in pieces)).0 }
{}

/// A connection whose octets are these commands, lines, refused command beginnings and this rest,
/// in whatever pieces they arrived, has the conversation over exactly these, each at the moment of
/// the piece that completes it: each is answered in its order, and nothing else is. The last piece
/// may have ended the session by a LOGOUT.
pub fn commands_are_answered()
    ensures runs { (run : Run Piece) (items : List Item) (rest : List ℕ) → run.before ≡ Ok start
        → IsRun run
        → AreFrames run.limits (octets_in run.pieces) items rest
        → Converses run.old run.session (cut_in run).0 run.turns run.new
        × (items_without_moments (cut_in run).0 ≡ items) }
    ensures last { (run : Run Piece) (call : Call) (items : List Item) (rest : List ℕ)
        → run.before ≡ Ok start → IsRun run
        → IsCallAfter run call
        → AreFrames run.limits (octets_with run call) items rest
        → Converses run.old run.session (cut_with run call).0 (run.turns ++ call.turns) call.new
        × (items_without_moments (cut_with run call).0 ≡ items) }
{}

/// If a fault of the framer, or memory running out, ends a connection, it doesn't matter in which
/// pieces the octets arrived: the whole conversation ends as its last piece does, for the same
/// reason and with the same node, after the turns of the pieces before it. If the octets from the
/// first on fail at an octet for a reason that a BYE names, the turns are the conversation over
/// exactly the items before that octet, and that BYE as the last; the session, which was open until
/// then, is closed.
pub fn faults_end_the_stream()
    ensures ends { (run : Run Piece) (call : Call) (why : TalkFaultKind) → IsRun run
        → EndsAfter why run call
        → EndsTalk why run.old run.session run.before (cut_with run call) (run.turns ++ call.turns)
        call.new }
    ensures frames { (run : Run Piece) (call : Call) (items : List Item) (why : FrameFaultKind)
        (bye : Answer) → bye_of why ≡ Some bye
        → run.before ≡ Ok start → IsRun run → EndsAfter (Framing why) run call
        → FailsAt run.limits (octets_with run call) items why
        → (before : List Turn)
        × (last : NodeState)
        × Converses run.old run.session (cut_with run call).0 before last
        × (items_without_moments (cut_with run call).0 ≡ items)
        × IsActive last run.session
        × (run.turns ++ call.turns ≡ before ++ turns_of_answers (bye ∷ []))
        × (call.new ≡ with_session_closed last run.session) }
{}

/// Operations of other replicas may be delivered between the pieces of a session's input, and other
/// sessions may be opened, send commands and lines, be polled and be closed: the turns of the calls
/// of `talk` on the pieces are the conversation over the items that each piece completes, answered
/// from the node at which the piece arrived. All these items are those of all octets: if the octets
/// are these commands, lines, refused command beginnings and this rest, they are exactly these. If
/// a fault of the framer that a BYE names ends the connection, the octets do end in that fault, and
/// the turns are that conversation over the items before it, and the BYE as the last; the session,
/// which was open until then, is closed.
pub fn others_come_between()
    ensures runs { (run : Run PieceAt) → IsRunBetweenOthers run
        → ConversesBetweenOthers run.old run.session
        (items_at_each run.limits run.before run.pieces) run.turns run.new
        × (run.after ≡ (cut_from run.limits run.before (octets_of_pieces run.pieces)).1) }
    ensures last { (run : Run PieceAt) (call : Call) → IsRunBetweenOthers run → IsCallAfter run call
        → ConversesBetweenOthers run.old run.session
        (items_at_each run.limits run.before (pieces_with run call)) (run.turns ++ call.turns)
        call.new }
    ensures items { (limits : Limits) (state : Result FrameProgress FrameFaultKind)
        (pieces_at : List PieceAt)
        → items_in (items_at_each limits state pieces_at)
        ≡ (cut_from limits state (octets_of_pieces pieces_at)).0 }
    ensures frames { (limits : Limits) (pieces_at : List PieceAt) (items : List Item)
        (rest : List ℕ)
        → AreFrames limits (octets_of_pieces pieces_at) items rest
        → items_in (items_at_each limits (Ok start) pieces_at) ≡ items }
    ensures fault { (run : Run PieceAt) (call : Call) (why : FrameFaultKind) (bye : Answer)
        → bye_of why ≡ Some bye → IsRunBetweenOthers run
        → EndsAfter (Framing why) run call
        → ((cut_from run.limits run.before (octets_of_pieces (pieces_with run call))).1 ≡ Err why)
        × ((before : List Turn) × (last : NodeState)
        × ConversesBetweenOthers run.old run.session
        (items_at_each run.limits run.before (pieces_with run call)) before last
        × IsActive last run.session
        × (run.turns ++ call.turns ≡ before ++ turns_of_answers (bye ∷ []))
        × (call.new ≡ with_session_closed last run.session)) }
{}

/// A replica has one dump: what `write_dump` writes of it is the one text that `IsDump` admits.
pub fn one_dump()
    ensures { (replica : ℕ) (applied : List Op) (text other : List ℕ)
        → IsDump replica applied text
        → IsDump replica applied other
        → text ≡ other }
{}

/// A frame that spells no command, and a command beginning that is refused for its literal, get an
/// answer that can be printed, so that the reader of answers reads it back.
pub fn faults_can_be_printed()
    ensures faults { (frame : List ℕ) (answer : Answer)
        → IsFaultAnswer frame answer
        → IsPrintable answer }
    ensures literals { (front : List ℕ) (answer : Answer)
        → IsLiteralAnswer front answer
        → IsPrintable answer }
{}

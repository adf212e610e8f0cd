//! Laws about `specs/Frames.antt` and `specs/Framing.antt`: the meaning of the framer's reading.
//! Each is the contract of an empty function.

ghost use Rattle.std.specs.Prelude.{◌≡◌, ℕ, List, Ok, Err};
ghost use Rattle.imap_lex.specs.declared.fault.FrameFaultKind.{FrameFaultKind};
ghost use Rattle.imap_lex.specs.declared.item.Item.{Item};
ghost use Rattle.imap_lex.specs.declared.limits.Limits.{Limits};
ghost use Rattle.imap_lex.specs.Frames.{AreFrames, FailsAt};
ghost use Rattle.imap_lex.specs.Framing.{FrameProgress, cut_of_pieces, cut_from, concat_pieces};
ghost use Rattle.imap_lex.specs.Framing.{octets_so_far, start};

/// A stream's result doesn't depend on how it is cut into pieces: the items, and the fault or the
/// progress of the next command, are those of the whole stream.
pub fn cuts_change_nothing()
    ensures whole { (limits : Limits) (pieces : List (List ℕ))
        → cut_of_pieces limits (Ok start) pieces
        ≡ cut_from limits (Ok start) (concat_pieces pieces) }
    ensures cuts { (limits : Limits) (pieces others : List (List ℕ))
        → concat_pieces pieces ≡ concat_pieces others
        → cut_of_pieces limits (Ok start) pieces ≡ cut_of_pieces limits (Ok start) others }
{}

/// A stream of these commands and this rest gives exactly these items and no fault.
pub fn frames_are_read()
    ensures { (limits : Limits) (stream rest : List ℕ) (items : List Item)
        → AreFrames limits stream items rest
        → (progress : FrameProgress)
        × (cut_from limits (Ok start) stream ≡ (items, Ok progress))
        × (octets_so_far progress ≡ rest) }
{}

/// A stream without a fault consists of the commands that it gives and a rest: what was read of
/// the next command.
pub fn read_items_are_frames()
    ensures { (limits : Limits) (stream : List ℕ) (items : List Item) (progress : FrameProgress)
        → cut_from limits (Ok start) stream ≡ (items, Ok progress)
        → AreFrames limits stream items (octets_so_far progress) }
{}

/// A stream ends in a fault if and only if some octet causes one: the first such octet decides. The
/// items are those before it.
pub fn faults_come_first()
    ensures at { (limits : Limits) (stream : List ℕ) (items : List Item) (why : FrameFaultKind)
        → cut_from limits (Ok start) stream ≡ (items, Err why)
        → FailsAt limits stream items why }
    ensures converse { (limits : Limits) (stream : List ℕ) (items : List Item)
        (why : FrameFaultKind)
        → FailsAt limits stream items why
        → cut_from limits (Ok start) stream ≡ (items, Err why) }
{}

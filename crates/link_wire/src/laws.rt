//! What the reading of frames and messages means: laws over `specs/Frames.antt`,
//! `specs/Framing.antt` and `specs/Form.antt`, each the contract of a function that does nothing.
//! Those of frames hold for whatever computes a frame's digest from its number, its length and its
//! payload.

ghost use Rattle.std.specs.Prelude.{◌≡◌, ◌∷◌, ◌++◌, ◌<◌, ◌^◌, ℕ, List, [], Result, Ok, Err};
ghost use Rattle.std.specs.Prelude.{length};
ghost use Rattle.crdt_ops.specs.Form.{Each};
ghost use Rattle.link_wire.specs.declared.fault.FrameFault.{FrameFault};
ghost use Rattle.link_wire.specs.declared.hello.Hello.{Hello};
ghost use Rattle.link_wire.specs.declared.limits.Limits.{Limits};
ghost use Rattle.link_wire.specs.declared.wire_message.WireMessage.{WireMessage};
ghost use Rattle.link_wire.specs.Digests.{Digest, HasTags, frame_digest};
ghost use Rattle.link_wire.specs.MessageForm.{AreSpelled, IsSpelled};
ghost use Rattle.link_wire.specs.Frames.{AreEachFrames, AreFrames, FailsAt, frames_text};
ghost use Rattle.link_wire.specs.FrameWriting.{AreFramesWritten, WriterState, first_writer};
ghost use Rattle.link_wire.specs.Framing.{FrameProgress, concat_pieces, cut_of_pieces};
ghost use Rattle.link_wire.specs.Framing.{cut_of_stream, octets_so_far};
ghost use Rattle.link_wire.specs.Hello.{IsHelloSpelled, IsProofSpelled};
ghost use Rattle.link_wire.specs.LineCuts.{IsLineWithin, TakesLine, TakesLines, at_start};
ghost use Rattle.link_wire.specs.LineCuts.{lines_text};

/// It doesn't matter how a stream was cut into pieces: the payloads, and the fault or what has come
/// of the next frame, are those of the whole stream.
pub fn cuts_change_nothing()
    ensures whole { (limits : Limits) (digest : Digest) (pieces : List (List ℕ))
        → cut_of_pieces limits digest pieces ≡ cut_of_stream limits digest (concat_pieces pieces) }
    ensures cuts { (limits : Limits) (digest : Digest) (pieces others : List (List ℕ))
        → concat_pieces pieces ≡ concat_pieces others
        → cut_of_pieces limits digest pieces ≡ cut_of_pieces limits digest others }
{}

/// A stream that is the frames of these payloads and this rest gives these payloads and no others,
/// and no fault.
pub fn frames_are_read()
    ensures { (limits : Limits) (digest : Digest) (stream rest : List ℕ) (payloads : List (List ℕ))
        → limits.payload < 2 ^ 64 → AreFrames limits digest stream payloads rest
        → (progress : FrameProgress)
        × (cut_of_stream limits digest stream ≡ (payloads, Ok progress))
        × (octets_so_far progress ≡ rest) }
{}

/// What a stream gives without a fault are the payloads of its frames, and what has come of the
/// next one is the rest.
pub fn read_payloads_are_frames()
    ensures { (limits : Limits) (digest : Digest) (stream : List ℕ) (payloads : List (List ℕ))
        (progress : FrameProgress)
        → limits.payload < 2 ^ 64 → cut_of_stream limits digest stream ≡ (payloads, Ok progress)
        → AreFrames limits digest stream payloads (octets_so_far progress) }
{}

/// A stream ends in a fault exactly where an octet makes that fault: the first that makes any. The
/// payloads are those before it.
pub fn faults_come_first()
    ensures at { (limits : Limits) (digest : Digest) (stream : List ℕ) (payloads : List (List ℕ))
        (why : FrameFault)
        → limits.payload < 2 ^ 64 → cut_of_stream limits digest stream ≡ (payloads, Err why)
        → FailsAt limits digest stream payloads why }
    ensures converse { (limits : Limits) (digest : Digest) (stream : List ℕ)
        (payloads : List (List ℕ)) (why : FrameFault)
        → limits.payload < 2 ^ 64 → FailsAt limits digest stream payloads why
        → cut_of_stream limits digest stream ≡ (payloads, Err why) }
{}

/// Whatever the stream holds and whatever the outcome, what was given are payloads of whole frames
/// at its front, each after a header with the digest of its number, its length and all its octets.
pub fn read_payloads_are_authentic()
    ensures { (limits : Limits) (digest : Digest) (stream : List ℕ) (payloads : List (List ℕ))
        (state : Result FrameProgress FrameFault)
        → limits.payload < 2 ^ 64 → cut_of_stream limits digest stream ≡ (payloads, state)
        → AreEachFrames limits digest 0 payloads
        × ((after : List ℕ) × (stream ≡ frames_text digest 0 payloads ++ after)) }
{}

/// What a writer appended since its first frame is the frames of these payloads, and their number
/// is its count.
pub fn written_frames_are_frames()
    ensures { (limits : Limits) (key : List ℕ) (payloads : List (List ℕ)) (new : WriterState)
        (text : List ℕ)
        → AreFramesWritten (first_writer limits key) payloads [] new text
        → AreFrames limits (frame_digest key) text payloads []
        × (new ≡ record { limits = limits; key = key; count = length payloads }) }
{}

/// Each digest under a key can be in a header.
pub fn digests_are_tags()
    ensures { (key : List ℕ) → HasTags (frame_digest key) }
{}

/// A line spells at most one message.
pub fn one_message()
    ensures { (line : List ℕ) (message other : WireMessage)
        → IsSpelled message line → IsSpelled other line → message ≡ other }
{}

/// The lines of a payload spell at most one list of messages.
pub fn one_payload()
    ensures { (payload : List ℕ) (messages others : List WireMessage)
        → AreSpelled messages payload → AreSpelled others payload → messages ≡ others }
{}

/// A line spells at most one hello.
pub fn one_hello()
    ensures { (line : List ℕ) (hello other : Hello)
        → IsHelloSpelled hello line → IsHelloSpelled other line → hello ≡ other }
{}

/// A line spells at most one proof.
pub fn one_proof()
    ensures { (line digest other : List ℕ)
        → IsProofSpelled digest line → IsProofSpelled other line → digest ≡ other }
{}

/// The lines that a stream begins with are whole, within the limit, and nothing that comes after
/// them is lost.
pub fn lines_are_the_stream()
    ensures { (limit : ℕ) (pieces lines rest : List (List ℕ)) → TakesLines limit pieces lines rest
        → Each (IsLineWithin limit) lines
        × (concat_pieces pieces ≡ lines_text lines ++ concat_pieces rest) }
{}

/// A stream that begins with a line within the limit gives that line, however it was cut into
/// pieces.
pub fn lines_are_read()
    ensures { (limit : ℕ) (pieces : List (List ℕ)) (line rest : List ℕ)
        → IsLineWithin limit line → concat_pieces pieces ≡ line ++ 10 ∷ rest
        → (left : List (List ℕ)) × TakesLine (at_start limit) pieces line left
        × (concat_pieces left ≡ rest) }
{}

/// It doesn't matter how a link's stream was cut into pieces: neither for the lines that it begins
/// with nor for the frames after them.
pub fn cuts_change_nothing_after_lines()
    ensures { (limit : ℕ) (limits : Limits) (digest : Digest)
        (pieces parts lines others rest left : List (List ℕ))
        → concat_pieces pieces ≡ concat_pieces parts → length lines ≡ length others
        → TakesLines limit pieces lines rest → TakesLines limit parts others left
        → (lines ≡ others) × (cut_of_pieces limits digest rest ≡ cut_of_pieces limits digest left) }
{}

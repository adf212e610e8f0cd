//! The framer of a link.

ghost use Rattle.std.specs.Prelude.{◌≡◌, OnOk, IfOk, IfErr, IsOk, Ok};

use crate::fault::{FrameError, FrameFault};
use crate::frame_cut::cut_piece;
use crate::limits::Limits;
use crate::payload::Payload;
use crate::progress::FrameProgress;
use std::alloc::Global;
use std::marker::Model;

/// Reads the frames of a stream, however it arrives, and gives the payload of each whose digest is
/// right.
#[derive(Drop)]
pub struct Framer {
    limits: Limits,
    key: [u8; 32],
    progress: FrameProgress,
    fault: Option<FrameFault>,
}

impl Model for Framer {
    ghost use Rattle.link_wire.specs.Framing.{FramerState, state_of};

    ghost Value = { FramerState };

    ghost view = { λ f.
        record { limits = f.limits; key = f.key; state = state_of f.fault f.progress } };
}

impl Framer {
    ghost use Rattle.link_wire.specs.Framing.{FaultsNow, cut_by_framer, start};

    /// A framer at the beginning of a stream.
    pub fn new(alloc: Global, limits: Limits, key: [u8; 32]) -> Framer
        ensures { result ≡ record { limits = limits; key = key; state = Ok (start 0) } }
    {
        Framer {
            limits,
            key,
            progress: FrameProgress::new(alloc, 0),
            fault: None,
        }
    }

    /// Takes the next octets of the stream, and gives the payloads of the frames that they
    /// complete. Its time and memory are in proportion to the piece and to what came of a frame,
    /// never to what a header announces.
    ///
    /// The first octet that makes a fault decides: one that ends a line that is no header, or makes
    /// it longer than any (`BadHeader`), one that ends a header too many (`TooManyFrames`), the
    /// last of a payload whose digest isn't the header's (`BadDigest`). If memory runs out, it is
    /// `NoMemory`. Each comes with the payloads before it (`NoMemory` with the first ones that the
    /// piece completes), and every later call answers `Failed`.
    pub fn feed(&mut self, alloc: Global, piece: &[u8]) -> Result<Vec<Payload>, FrameError>
        ensures limits { self.new.limits ≡ self.old.limits }
        ensures key { self.new.key ≡ self.old.key }
        ensures ok { IfOk result (λ payloads.
            cut_by_framer self.old piece.now ≡ (payloads.items, self.new.state)) }
        ensures state_ok { OnOk result (IsOk self.new.state) }
        ensures err { IfErr result (λ e. FaultsNow e.why e.payloads.items
            self.old.state self.new.state (cut_by_framer self.old piece.now)) }
    {
        if self.fault.is_some() {
            return Err(FrameError {
                payloads: Vec::new(alloc),
                why: FrameFault::Failed,
            });
        }
        let mut payloads = Vec::new(alloc);
        match cut_piece(
            alloc,
            self.limits,
            &self.key,
            &mut self.progress,
            &mut payloads,
            piece,
        ) {
            Ok(()) => Ok(payloads),
            Err(why) => {
                self.fault = Some(why);
                Err(FrameError { payloads, why })
            }
        }
    }
}

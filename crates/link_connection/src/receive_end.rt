//! Why a link's reader ended.

use link_wire::{FrameFault, LineFault};

/// Why a link's reader ended.
#[derive(Clone, Copy, Debug, PartialEq, Eq)]
pub enum ReceiveEnd {
    /// The source ended.
    Closed,
    /// The source failed.
    ReadFailed,
    /// The stream can't be read as frames: for want of a digest, a header, or a number.
    BadFrame(FrameFault),
    /// A payload has a line that spells no message that may be acted on.
    BadLine(LineFault),
    /// A message ended the link.
    Stopped,
    /// Memory ran out.
    NoMemory,
}

//! Why links end, for peers and for the log.

ghost use Rattle.std.specs.Prelude.{◌≡◌};
ghost use Rattle.link_runtime.specs.Endings.{ending_of};

use crate::peer_news::LinkEnding;
use link_connection::ReceiveEnd;
use link_wire::{ByeReason, FrameFault, LineFault};

/// How a link ends whose reader ended so. A reader that was stopped by a message has noted before
/// how it ends.
pub fn ending_of(end: ReceiveEnd) -> LinkEnding
    ensures { result ≡ ending_of end }
{
    match end {
        ReceiveEnd::Closed | ReceiveEnd::ReadFailed | ReceiveEnd::Stopped => LinkEnding::Broken,
        ReceiveEnd::BadFrame(FrameFault::BadDigest) => LinkEnding::Bye(ByeReason::Torn),
        ReceiveEnd::BadFrame(FrameFault::NoMemory) => LinkEnding::Bye(ByeReason::Memory),
        ReceiveEnd::BadFrame(_) => LinkEnding::Bye(ByeReason::Frame),
        ReceiveEnd::BadLine(LineFault::NotInForm) => LinkEnding::Bye(ByeReason::Line),
        ReceiveEnd::BadLine(LineFault::Unsound(rule)) => {
            LinkEnding::Bye(ByeReason::Unsound(rule))
        }
        ReceiveEnd::BadLine(LineFault::NoMemory) => LinkEnding::Bye(ByeReason::Memory),
        ReceiveEnd::NoMemory => LinkEnding::Bye(ByeReason::Memory),
    }
}

/// The word of a reason for the log.
pub fn log_text(reason: &ByeReason) -> &'static str {
    match reason {
        ByeReason::Hello => "hello",
        ByeReason::Version => "version",
        ByeReason::Name => "name",
        ByeReason::Secret => "secret",
        ByeReason::Frame => "frame",
        ByeReason::Torn => "torn",
        ByeReason::Line => "line",
        ByeReason::Unsound(_) => "unsound",
        ByeReason::Fork(_) => "fork",
        ByeReason::Behind(_) => "behind",
        ByeReason::Memory => "memory",
        ByeReason::Busy => "busy",
    }
}

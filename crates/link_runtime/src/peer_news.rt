//! What the reader of a link learned that its writer has to know.

ghost use Rattle.std.specs.Prelude.{◌≡◌, None, OnErr, OnOk, Some, if◌then◌else◌, is_some};
ghost use Rattle.link_runtime.specs.PeerClocks.{HasJoined, HasRaised};

use link_wire::ByeReason;
use std::alloc::{AllocError, Global};
use tags_clocks::{Clock, OpId};

/// How a link ends at this side.
#[derive(Clone, Copy, Debug, PartialEq, Eq)]
pub enum LinkEnding {
    /// The peer is sent this reason.
    Bye(ByeReason),
    /// The peer ended it for this reason.
    ByeOfPeer(ByeReason),
    /// The connection ended, failed or was silent for too long.
    Broken,
}

/// What a writer takes of the news at once.
#[derive(Drop)]
pub struct PeerClocks {
    /// The peer has just what this clock covers, and lacks all else.
    pub wanted: Option<Clock>,
    /// The peer also has what this clock covers.
    pub covered: Option<Clock>,
    /// This end lacks some of what this clock covers: operations that were held or refused.
    pub missing: Option<Clock>,
}

/// The news of a link's reader.
#[derive(Drop)]
pub struct PeerNews {
    /// The peer has just what this clock covers, and lacks all else.
    pub wanted: Option<Clock>,
    /// The peer also has what this clock covers.
    pub covered: Option<Clock>,
    /// This end lacks some of what this clock covers.
    pub missing: Option<Clock>,
    /// How the link ended, if it did.
    pub ending: Option<LinkEnding>,
}

impl PeerNews {
    /// No news.
    pub fn new() -> PeerNews
        ensures { result
            ≡ record { wanted = None; covered = None; missing = None; ending = None } }
    {
        PeerNews {
            wanted: None,
            covered: None,
            missing: None,
            ending: None,
        }
    }

    /// The peer has what this clock covers.
    pub fn note_have(&mut self, alloc: Global, clock: &Clock) -> Result<(), AllocError>
        ensures ok { OnOk result (HasJoined self.old.covered clock.now self.new.covered) }
        ensures err { OnErr result (self.new.covered ≡ self.old.covered) }
        ensures same { self.new ≡ record self.old { covered = self.new.covered } }
    {
        join(alloc, &mut self.covered, clock)
    }

    /// The peer has what this clock covers, and lacks all else.
    pub fn note_want(&mut self, clock: Clock)
        ensures { self.new ≡ record self.old { wanted = Some clock; covered = None } }
    {
        self.wanted = Some(clock);
        self.covered = None;
    }

    /// The peer has this operation, since it sent it.
    pub fn note_op(&mut self, alloc: Global, id: OpId) -> Result<(), AllocError>
        ensures ok { OnOk result (HasRaised self.old.covered id self.new.covered) }
        ensures err { OnErr result (self.new.covered ≡ self.old.covered) }
        ensures same { self.new ≡ record self.old { covered = self.new.covered } }
    {
        raise(alloc, &mut self.covered, id)
    }

    /// This operation was held or refused.
    pub fn note_missing(&mut self, alloc: Global, id: OpId) -> Result<(), AllocError>
        ensures ok { OnOk result (HasRaised self.old.missing id self.new.missing) }
        ensures err { OnErr result (self.new.missing ≡ self.old.missing) }
        ensures same { self.new ≡ record self.old { missing = self.new.missing } }
    {
        raise(alloc, &mut self.missing, id)
    }

    /// The link ends so, unless it ended before.
    pub fn end(&mut self, ending: LinkEnding)
        ensures { self.new ≡ record self.old {
          ending = if is_some self.old.ending then self.old.ending else Some ending;
        } }
    {
        if self.ending.is_none() {
            self.ending = Some(ending);
        }
    }

    /// How the link ended, if it did.
    pub fn ending(&self) -> Option<LinkEnding>
        ensures { result ≡ self.now.ending }
    {
        self.ending
    }

    /// Takes what is known of the peer's clock.
    pub fn take(&mut self) -> PeerClocks
        ensures taken { result ≡ record {
          wanted = self.old.wanted;
          covered = self.old.covered;
          missing = self.old.missing;
        } }
        ensures left { self.new
            ≡ record self.old { wanted = None; covered = None; missing = None } }
    {
        PeerClocks {
            wanted: self.wanted.take(),
            covered: self.covered.take(),
            missing: self.missing.take(),
        }
    }
}

/// Joins a clock, or one that covers nothing, with another.
fn join(alloc: Global, clock: &mut Option<Clock>, more: &Clock) -> Result<(), AllocError>
    ensures ok { OnOk result (HasJoined clock.old more.now clock.new) }
    ensures err { OnErr result (clock.new ≡ clock.old) }
{
    match clock {
        Some(clock) => clock.join(alloc, more),
        None => {
            *clock = Some(more.copy(alloc)?);
            Ok(())
        }
    }
}

/// Raises a clock, or one that covers nothing, by an operation.
fn raise(alloc: Global, clock: &mut Option<Clock>, id: OpId) -> Result<(), AllocError>
    ensures ok { OnOk result (HasRaised clock.old id clock.new) }
    ensures err { OnErr result (clock.new ≡ clock.old) }
{
    match clock {
        Some(clock) => clock.raise(id.replica, id.number.get()),
        None => {
            let mut raised = Clock::new(alloc);
            raised.raise(id.replica, id.number.get())?;
            *clock = Some(raised);
            Ok(())
        }
    }
}

//! A connection, and what its reader leaves to its writer.

ghost use Rattle.std.specs.Prelude.{◌≡◌};

use crate::peer_news::{LinkEnding, PeerClocks, PeerNews};
use std::alloc::{AllocError, Global};
use std::net::{Shutdown, TcpStream};
use std::sync::{Mutex, Wait};
use tags_clocks::{Clock, OpId};

/// A connection, for the threads that serve it and for those that may end it.
#[derive(Drop)]
pub struct LinkConnection {
    /// Its number among those of this process.
    pub number: u64,
    /// Its socket.
    pub stream: TcpStream,
    news: Mutex<PeerNews>,
}

impl LinkConnection {
    /// A connection of which there are no news.
    pub fn new(number: u64, stream: TcpStream) -> LinkConnection
        ensures { result.number ≡ number }
    {
        LinkConnection {
            number,
            stream,
            news: Mutex::new(PeerNews::new()),
        }
    }

    /// Ends its reads and writes.
    pub fn close(&self) {
        let _ = self.stream.shutdown(Shutdown::Both);
    }

    /// Takes what is known of the peer's clock, and how the link ended, if it did.
    pub fn take_news<R: Wait>(&self, rt: &R) -> (PeerClocks, Option<LinkEnding>) {
        let mut news = self.news.lock(rt);
        let ending = news.ending();
        (news.take(), ending)
    }

    /// The peer has what this clock covers.
    pub fn note_have<R: Wait>(
        &self,
        rt: &R,
        alloc: Global,
        clock: &Clock,
    ) -> Result<(), AllocError> {
        self.news.lock(rt).note_have(alloc, clock)
    }

    /// The peer has what this clock covers, and lacks all else.
    pub fn note_want<R: Wait>(&self, rt: &R, clock: Clock) {
        self.news.lock(rt).note_want(clock);
    }

    /// The peer has this operation.
    pub fn note_op<R: Wait>(&self, rt: &R, alloc: Global, id: &OpId) -> Result<(), AllocError> {
        self.news.lock(rt).note_op(alloc, *id)
    }

    /// This operation was held or refused.
    pub fn note_missing<R: Wait>(
        &self,
        rt: &R,
        alloc: Global,
        id: &OpId,
    ) -> Result<(), AllocError> {
        self.news.lock(rt).note_missing(alloc, *id)
    }

    /// The link ends so, unless it ended before.
    pub fn end<R: Wait>(&self, rt: &R, ending: LinkEnding) {
        self.news.lock(rt).end(ending);
    }

    /// How the link ended, if it did.
    pub fn ending<R: Wait>(&self, rt: &R) -> Option<LinkEnding> {
        self.news.lock(rt).ending()
    }
}

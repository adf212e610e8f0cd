//! What a link's writer writes, and when.

ghost use Rattle.std.specs.Prelude.{◌<◌};

use crate::lacking::lacked_ops;
use crate::link_replica::LinkReplica;
use crate::link_socket::{end_writes, take_leave};
use crate::link_times::LinkTimes;
use crate::live_link::LiveLink;
use crate::op_batch::{MOST_OPS, OpBatch};
use crate::peer_news::{LinkEnding, PeerClocks};
use imap_connection::{Sink, Wire};
use link_connection::{SendFault, send_ops};
use link_wire::{ByeReason, FrameWriter, Limits, WireMessage, write_message};
use log::{Log, error, info};
use std::alloc::{AllocError, Global};
use std::rt::Clock as Time;
use std::sync::Wait;
use tags_clocks::{Clock, ReplicaId};

/// The time in milliseconds between two lines of the log that say how much the peer lacks.
const LOG_TIME: u64 = 60_000;

/// What a writer does next.
#[derive(Clone, Copy, Debug, PartialEq, Eq)]
enum Step {
    /// It wrote something, and looks again.
    Wrote,
    /// It waits until something happens, or for so many milliseconds.
    Waits(u64),
    /// The link ended.
    Ended,
    /// The connection takes no more octets.
    Failed,
}

/// The state of a link's writer.
#[derive(Drop)]
struct LinkWriter {
    alloc: Global,
    frames: FrameWriter,
    times: LinkTimes,
    /// What the peer has, or was sent; `None` before it said what it has.
    covered: Option<Clock>,
    /// Operations that were held or refused.
    missing: Clock,
    /// The operations that it sends next.
    batch: OpBatch,
    /// The most operations of its next frame.
    most_ops: usize,
    /// Whether it sends operations.
    sends_ops: bool,
    /// When it logs next how much the peer lacks; `None` before the first time.
    log_time: Option<u64>,
}

/// Writes what the peer of a link lacks, says what this end has and lacks, and that it is alive,
/// until the link ends. Then tells the peer why, if this end ended it, and ends the connection. If
/// the connection takes no more octets, what the peer still says is left to the reader.
pub fn write_link<R: Wait + Time + Log, P: LinkReplica>(
    rt: &R,
    alloc: Global,
    link: &LiveLink<'_, P>,
) {
    let mut sink = Wire::new(&link.connection.stream);
    let mut writer = LinkWriter {
        alloc,
        frames: FrameWriter::new(Limits::STANDARD, link.keys.written),
        times: LinkTimes::new(link.context.links.now(rt)),
        covered: None,
        missing: Clock::new(alloc),
        batch: OpBatch::new(alloc, Vec::new(alloc)),
        most_ops: MOST_OPS,
        sends_ops: true,
        log_time: None,
    };
    for _ in rt.forever() {
        let seen = link.context.links.signal.count(rt);
        if sink.failures() > 0 {
            end_writes(link.connection);
            return;
        }
        match writer.step(rt, link, &mut sink) {
            Step::Wrote | Step::Failed => {}
            Step::Waits(time) => link.context.links.signal.wait(rt, seen, time),
            Step::Ended => break,
        }
    }
    take_leave(rt, link.context.links, link.connection);
}

impl LinkWriter {
    /// Takes the reader's news, and writes the next frame that is due, at most one.
    fn step<R: Wait + Time + Log, P: LinkReplica, K: Sink>(
        &mut self,
        rt: &R,
        link: &LiveLink<'_, P>,
        sink: &mut K,
    ) -> Step
        requires { K.failures sink.old < 18446744073709551615 }
    {
        let (clocks, ending) = link.connection.take_news(rt);
        if let Some(ending) = ending {
            drop(clocks);
            self.write_bye(ending, sink);
            return Step::Ended;
        }
        if self.take_clocks(clocks).is_err() {
            link.connection.end(rt, LinkEnding::Bye(ByeReason::Memory));
            return Step::Wrote;
        }
        let now = link.context.links.now(rt);
        self.log_lacking(rt, link, now);
        let lacks = self.lacks(link.context.replica, now);
        let lines = self.due_lines(rt, link, now, lacks);
        if lines.is_empty() {
            self.send_batch(rt, link, now, lacks, sink)
        } else {
            self.write_lines(&lines, now, sink)
        }
    }

    /// Takes what is known of the peer's clock.
    fn take_clocks(&mut self, clocks: PeerClocks) -> Result<(), AllocError> {
        let PeerClocks {
            wanted,
            covered,
            missing,
        } = clocks;
        if let Some(wanted) = wanted {
            self.covered = Some(wanted);
            self.batch = OpBatch::new(self.alloc, Vec::new(self.alloc));
        }
        if let Some(missing) = missing {
            self.missing.join(self.alloc, &missing)?;
        }
        self.raise_covered(covered)
    }

    fn raise_covered(&mut self, more: Option<Clock>) -> Result<(), AllocError> {
        let Some(more) = more else {
            return Ok(());
        };
        match &mut self.covered {
            Some(covered) => covered.join(self.alloc, &more),
            None => {
                self.covered = Some(more);
                Ok(())
            }
        }
    }

    /// Logs how many operations the peer lacks that weren't sent yet: once it said what it has, and
    /// then each minute if there are some.
    fn log_lacking<R: Log, P: LinkReplica>(&mut self, rt: &R, link: &LiveLink<'_, P>, now: u64) {
        if self.log_time.is_some_and(|time| now < time) {
            return;
        }
        let Some(covered) = &self.covered else {
            return;
        };
        let Some(applied) = link.context.replica.clock() else {
            return;
        };
        let count = lacked_ops(&applied, covered);
        if count > 0 || self.log_time.is_none() {
            let own = link.context.links.setup.own.get();
            let peer = link.peer.get();
            info!(rt; "replica {own}, link {peer}: the peer lacks {count} operations");
        }
        self.log_time = Some(now.saturating_add(LOG_TIME));
    }

    /// Whether the replica still lacks one of the operations that were held or refused.
    fn lacks<P: LinkReplica>(&mut self, replica: &P, now: u64) -> bool {
        if self.missing.entries().is_empty() {
            return false;
        }
        let Some(applied) = replica.clock() else {
            return true;
        };
        if self.missing.is_covered_by(&applied) {
            self.missing = Clock::new(self.alloc);
            self.times.note_complete(now);
            return false;
        }
        true
    }

    /// The lines of what is due besides operations.
    fn due_lines<R: Wait, P: LinkReplica>(
        &mut self,
        rt: &R,
        link: &LiveLink<'_, P>,
        now: u64,
        lacks: bool,
    ) -> Vec<u8> {
        let mut lines = Vec::new(self.alloc);
        if self.times.is_have_due(now) {
            let have = link
                .context
                .links
                .have(rt, self.alloc, link.context.replica);
            self.add_line(have, &mut lines);
            self.times.note_have(now);
        }
        if lacks && self.times.is_want_due(now) {
            let want = want_of(link.context.replica);
            self.add_line(want, &mut lines);
            self.times.note_want(now);
        }
        if lines.is_empty() && self.times.is_ping_due(now) {
            self.add_line(Some(WireMessage::Ping), &mut lines);
            self.times.note_write(now);
        }
        lines
    }

    /// Adds the line of a message, if memory suffices.
    fn add_line(&self, message: Option<WireMessage>, lines: &mut Vec<u8>) {
        if let Some(message) = message {
            let _ = write_message(self.alloc, &message, lines);
        }
    }

    /// Writes lines, in one frame.
    fn write_lines<K: Sink>(&mut self, lines: &[u8], now: u64, sink: &mut K) -> Step
        requires { K.failures sink.old < 18446744073709551615 }
    {
        let mut frame = Vec::new(self.alloc);
        if self.frames.write(lines, &mut frame).is_err() {
            return Step::Ended;
        }
        if !sink.write(&frame) {
            return Step::Failed;
        }
        self.times.note_write(now);
        Step::Wrote
    }

    /// Tells the peer why this end ends the link, if it does.
    fn write_bye<K: Sink>(&mut self, ending: LinkEnding, sink: &mut K)
        requires { K.failures sink.old < 18446744073709551615 }
    {
        if let LinkEnding::Bye(reason) = ending {
            let mut lines = Vec::new(self.alloc);
            self.add_line(Some(WireMessage::Bye(reason)), &mut lines);
            let _ = self.write_lines(&lines, 0, sink);
        }
    }

    /// Sends the next operations that the peer lacks, in one frame, if there are any and they can
    /// be had now.
    fn send_batch<R: Log, P: LinkReplica, K: Sink>(
        &mut self,
        rt: &R,
        link: &LiveLink<'_, P>,
        now: u64,
        lacks: bool,
        sink: &mut K,
    ) -> Step
        requires { K.failures sink.old < 18446744073709551615 }
    {
        let waits = Step::Waits(self.times.next(lacks).saturating_sub(now));
        if !self.has_batch(link.context.replica) {
            return waits;
        }
        let Some(covered) = &mut self.covered else {
            return waits;
        };
        let limit = self.batch.frame_limit(covered).min(self.most_ops);
        match send_ops(
            self.alloc,
            &self.batch,
            limit,
            covered,
            &mut self.frames,
            sink,
        ) {
            Ok(_) => {
                self.times.note_write(now);
                self.most_ops = MOST_OPS;
                Step::Wrote
            }
            Err(SendFault::OutsideLimits) => {
                self.shrink(rt, link.peer, limit);
                Step::Wrote
            }
            Err(SendFault::NoMemory) => waits,
            Err(SendFault::WriteFailed) => Step::Failed,
        }
    }

    /// Whether there are operations to send: those of the batch that the peer lacks, or else a new
    /// batch of the replica.
    fn has_batch<P: LinkReplica>(&mut self, replica: &P) -> bool {
        let Some(covered) = &self.covered else {
            return false;
        };
        if !self.sends_ops {
            return false;
        }
        if !self.batch.is_covered_by(covered) {
            return true;
        }
        match replica.ops_since(covered, MOST_OPS) {
            Some(ops) => {
                let has_some = !ops.is_empty();
                self.batch = OpBatch::new(self.alloc, ops);
                has_some
            }
            None => false,
        }
    }

    /// So many operations are too long for one frame: the next one has half as many. If one is too
    /// long by itself, no more are sent.
    fn shrink<R: Log>(&mut self, rt: &R, peer: ReplicaId, limit: usize) {
        if limit > 1 {
            self.most_ops = limit / 2;
            return;
        }
        self.sends_ops = false;
        let Some(covered) = &self.covered else {
            return;
        };
        if let Some(op) = self.batch.first_uncovered(covered) {
            let id = op.op().id;
            error!(rt; "cannot send {}:{} to replica {}", id.replica.get(), id.number.get(), peer.get());
        }
    }
}

/// The clock that says what a replica lacks; `None` if memory runs out.
fn want_of<P: LinkReplica>(replica: &P) -> Option<WireMessage> {
    match replica.clock() {
        Some(clock) => Some(WireMessage::Want(clock)),
        None => None,
    }
}

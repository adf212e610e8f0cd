//! The store of a replica: its log, which the replica's threads write, and on which they wait.

use crate::connection_threads::ReplicaContext;
use crate::peer_sender::PeerSender;
use crdt_ops::SoundOp;
use crossbeam_channel::{Receiver, Sender, unbounded};
use durable_log::{DurableLog, StoreFault};
use durable_progress::{LogLoan, LogProgress};
use log::{Log, error, info};
use log_files::FileDevice;
use merge_laws::Caused;
use op_log::lines_bound;
use replica_links::PeerLinks;
use replica_lock::Shared;
use std::alloc::{AllocError, Global};
use std::rt::Clock;
use std::sync::ledger::Ledger;
use std::sync::{Mutex, Wait};
use std::time::{Duration, Instant};
use tags_clocks::ReplicaId;

/// The octets of zeros that are written at a time: 1 MiB.
const BLOCK: usize = 1 << 20;

/// The octets of zeros that are written ahead: 16 MiB.
const AHEAD: u64 = 16 << 20;

/// The octets of a log's zeros that operations don't get, since commits of batches take them.
const FOR_COMMITS: u64 = 128;

/// The most octets that a command's operations may need: 4 GiB.
const MOST_NEEDED: u64 = 4 << 30;

/// How long a disk counts as full after it was found to be, in seconds.
const FULL_FOR: u64 = 1;

/// Why what a replica applied isn't synced.
#[derive(Clone, Copy, Debug, PartialEq, Eq)]
pub enum SyncFault {
    /// The log failed, now or before.
    StoreFailed,
    /// Memory ran out for what has to be written.
    NoMemory,
}

/// Whether a log has room that was asked for.
#[derive(Clone, Copy, Debug, PartialEq, Eq)]
pub enum Growth {
    /// It has.
    HasRoom,
    /// There is no space for it.
    Full,
    /// Memory ran out for it.
    NoMemory,
    /// The log failed, now or before.
    Failed,
}

/// What the log of the program says of a store.
#[derive(Clone, Copy, Debug, PartialEq, Eq)]
enum StoreState {
    /// It works.
    Works,
    /// There is no space to write zeros ahead.
    Full,
    /// It failed.
    Failed,
}

/// The store of a replica.
#[derive(Drop)]
pub struct ReplicaStore {
    replica: ReplicaId,
    progress: LogProgress<FileDevice>,
    /// Until when the disk counts as full; `None` if it wasn't found to be.
    full_until: Mutex<Option<Instant>>,
    /// The most octets that a refused delivery lacked since others were last asked; 0 if none was
    /// refused.
    lacked: Mutex<u64>,
    /// Ends the thread that looks after the log.
    end: Sender<()>,
    ended: Receiver<()>,
}

impl ReplicaStore {
    /// The store of a replica with this log, which has all that the replica applied. `Err` if
    /// memory runs out.
    pub fn new(
        alloc: Global,
        replica: ReplicaId,
        log: DurableLog<FileDevice>,
    ) -> Result<ReplicaStore, AllocError> {
        let (end, ended) = match unbounded(alloc) {
            Ok(ends) => ends,
            Err(fault) => {
                drop(log);
                return Err(fault);
            }
        };
        Ok(ReplicaStore {
            replica,
            progress: LogProgress::new(log),
            full_until: Mutex::new(None),
            lacked: Mutex::new(0),
            end,
            ended,
        })
    }

    /// At once and then each second, syncs what no connection waits for, such as operations of other
    /// replicas, writes zeros ahead, and asks others for what was refused. Logs when the store is
    /// full or failed. Ends after `stop`.
    pub fn keep<L: Ledger, R: Wait + Clock + Log>(
        &self,
        rt: &R,
        alloc: Global,
        context: &ReplicaContext<'_, L>,
        peers: &[usize],
    ) {
        let mut said = StoreState::Works;
        for _ in rt.forever() {
            self.tidy(rt, alloc, context);
            self.ask_again(rt, alloc, context, peers);
            said = self.log_state(rt, said);
            match self.ended.recv_timeout(rt, Duration::from_secs(1)) {
                Ok(()) => break,
                Err(why) if why.is_timeout() => {}
                Err(_) => break,
            }
        }
    }

    /// Logs the state of the store if it isn't the one that was said before, and returns it.
    fn log_state<R: Wait + Clock + Log>(&self, rt: &R, said: StoreState) -> StoreState {
        let state = self.state(rt);
        let replica = self.replica.get();
        if state == said {
            return state;
        }
        match state {
            StoreState::Works => info!(rt; "the store of replica {replica} has room again"),
            StoreState::Full => error!(rt; "the store of replica {replica} is full"),
            StoreState::Failed => error!(rt; "the store of replica {replica} failed"),
        }
        state
    }

    fn state<R: Wait + Clock>(&self, rt: &R) -> StoreState {
        if self.has_failed(rt) {
            StoreState::Failed
        } else if self.is_full(rt) {
            StoreState::Full
        } else {
            StoreState::Works
        }
    }

    /// Ends the thread that looks after the log.
    pub fn stop<R: Wait>(&self, rt: &R) {
        let _ = self.end.send(rt, ());
    }

    /// The octets for which the log has room; 0 if another thread has the log.
    pub fn room<R: Wait>(&self, rt: &R) -> u64 {
        let Some(log) = self.progress.take(rt) else {
            return 0;
        };
        let room = room_of(&log);
        self.progress.give_back(rt, log);
        room
    }

    /// Whether the log failed. What the replica applies then is lost at its end.
    pub fn has_failed<R: Wait>(&self, rt: &R) -> bool {
        self.progress.has_failed(rt)
    }

    /// Waits until the first `count` operations of the replica's list are synced. If no other
    /// thread writes the log, it writes and syncs all that the replica applied itself. It waits for
    /// nobody if they are synced already.
    pub fn sync_to<L: Ledger, R: Wait>(
        &self,
        rt: &R,
        alloc: Global,
        context: &ReplicaContext<'_, L>,
        count: u64,
    ) -> Result<(), SyncFault> {
        for _ in rt.forever() {
            let log = match self.progress.wait_for(rt, count) {
                LogLoan::Synced => return Ok(()),
                LogLoan::Failed => return Err(SyncFault::StoreFailed),
                LogLoan::Log(log) => log,
            };
            self.write_and_send(rt, alloc, context, log)?;
        }
        Err(SyncFault::StoreFailed)
    }

    /// Writes and syncs what the replica applied since the log was written. Then sends the others
    /// what the replica itself issued of it, and gives the log back.
    fn write_and_send<L: Ledger, R: Wait>(
        &self,
        rt: &R,
        alloc: Global,
        context: &ReplicaContext<'_, L>,
        log: DurableLog<FileDevice>,
    ) -> Result<(), SyncFault> {
        let mut log = log;
        let written = write_applied(rt, alloc, context.shared, &mut log);
        let result = match written {
            Ok(ops) => {
                self.send_own(rt, alloc, context, ops);
                Ok(())
            }
            Err(fault) => Err(fault),
        };
        self.give_back(rt, context, log);
        if result.is_ok() {
            context.server.signal_links(rt);
        }
        result
    }

    /// Gives the log back. If it failed, sessions that idle learn it.
    fn give_back<L: Ledger, R: Wait>(
        &self,
        rt: &R,
        context: &ReplicaContext<'_, L>,
        log: DurableLog<FileDevice>,
    ) {
        let has_failed = log.has_failed();
        self.progress.give_back(rt, log);
        if has_failed {
            context.shared.end_waits(rt);
        }
    }

    /// Sends the other replicas those of the operations that this replica issued. If memory runs
    /// out for that, they ask for what they lack.
    fn send_own<L: Ledger, R: Wait>(
        &self,
        rt: &R,
        alloc: Global,
        context: &ReplicaContext<'_, L>,
        ops: Vec<SoundOp>,
    ) {
        if let Ok(own) = ops_issued_by(alloc, self.replica, ops) {
            PeerSender::new(rt, context.server, context.own).send_to_all(alloc, &own);
        }
    }

    /// Has room in the log for so many further octets, for which zeros are written if there is too
    /// little. It waits until nobody else has the log. `Full` without a look at the disk if that
    /// was found to be full within the last second.
    pub fn grow<L: Ledger, R: Wait + Clock>(
        &self,
        rt: &R,
        alloc: Global,
        context: &ReplicaContext<'_, L>,
        octets: u64,
    ) -> Growth {
        if context.shared.has_room_for(rt, octets) {
            return Growth::HasRoom;
        }
        if octets > MOST_NEEDED || self.is_full(rt) {
            return Growth::Full;
        }
        let LogLoan::Log(log) = self.progress.wait_for(rt, u64::MAX) else {
            return Growth::Failed;
        };
        let mut log = log;
        let growth = grow_to(rt, alloc, context.shared, &mut log, octets);
        self.note_growth(rt, growth);
        self.give_back(rt, context, log);
        growth
    }

    /// Notes that the disk is full, if a log couldn't grow for that.
    fn note_growth<R: Wait + Clock>(&self, rt: &R, growth: Growth) {
        if growth != Growth::Full {
            return;
        }
        let until = match Instant::now(rt) {
            Ok(now) => now.checked_add(Duration::from_secs(FULL_FOR)),
            Err(_) => None,
        };
        *self.full_until.lock(rt) = until;
    }

    /// Whether the disk was found to be full within the last second.
    fn is_full<R: Wait + Clock>(&self, rt: &R) -> bool {
        match *self.full_until.lock(rt) {
            Some(until) => Instant::now(rt).is_ok_and(|now| now < until),
            None => false,
        }
    }

    /// Has room in the log for the delivery of an operation. False if there is none; then the
    /// others are asked for what was refused once there is.
    pub fn has_room_for<L: Ledger, R: Wait + Clock>(
        &self,
        rt: &R,
        alloc: Global,
        context: &ReplicaContext<'_, L>,
        op: &SoundOp,
    ) -> bool {
        let Some(octets) = context.shared.lacked_room(rt, op) else {
            return true;
        };
        if self.grow(rt, alloc, context, octets) == Growth::HasRoom {
            return true;
        }
        let mut lacked = self.lacked.lock(rt);
        *lacked = octets.max(*lacked);
        false
    }

    /// Whether it isn't yet time to ask others for what is lacking: deliveries are refused for
    /// want of room, or the log failed.
    pub fn refuses<R: Wait>(&self, rt: &R) -> bool {
        *self.lacked.lock(rt) > 0 || self.has_failed(rt)
    }

    /// If deliveries were refused and there is room for them now, asks the others for all that the
    /// replica lacks.
    fn ask_again<L: Ledger, R: Wait + Clock>(
        &self,
        rt: &R,
        alloc: Global,
        context: &ReplicaContext<'_, L>,
        peers: &[usize],
    ) {
        let lacked = *self.lacked.lock(rt);
        if lacked == 0 || self.grow(rt, alloc, context, lacked) != Growth::HasRoom {
            return;
        }
        *self.lacked.lock(rt) = 0;
        let mut sender = PeerSender::new(rt, context.server, context.own);
        for peer in peers {
            match context.shared.clock(rt, alloc) {
                Ok(clock) => sender.ask(*peer, clock),
                Err(_) => return,
            }
        }
    }

    /// Syncs what nobody waits for, and prepares for what comes next: a commit says how much is
    /// synced, and zeros are written ahead, as far as there is space. If another thread has the
    /// log, it does nothing.
    pub fn tidy<L: Ledger, R: Wait + Clock>(
        &self,
        rt: &R,
        alloc: Global,
        context: &ReplicaContext<'_, L>,
    ) {
        let _ = self.sync_to(rt, alloc, context, context.shared.op_count(rt));
        let Some(log) = self.progress.take(rt) else {
            return;
        };
        let mut log = log;
        let before = log.room();
        if room_of(&log) > 0 {
            let _ = log.commit_if_behind(alloc);
            context.shared.set_room(rt, room_of(&log), 0);
        }
        if (log.room() as u64) < AHEAD / 2 && !self.is_full(rt) {
            let growth = write_ahead(rt, alloc, context.shared, &mut log);
            self.note_growth(rt, growth);
        }
        if log.room() != before {
            let _ = log.sync();
        }
        self.give_back(rt, context, log);
    }
}

/// The octets for which a log has room, besides those that commits take.
fn room_of(log: &DurableLog<FileDevice>) -> u64 {
    (log.room() as u64).saturating_sub(FOR_COMMITS)
}

/// Writes and syncs what the replica applied since the log was written, and returns it. The room
/// that was set aside for it beyond its lines is free again.
fn write_applied<L: Ledger, R: Wait>(
    rt: &R,
    alloc: Global,
    shared: &Shared<L>,
    log: &mut DurableLog<FileDevice>,
) -> Result<Vec<SoundOp>, SyncFault> {
    let Ok(ops) = shared.ops_after(rt, alloc, log.op_count()) else {
        return Err(SyncFault::NoMemory);
    };
    if let Err(fault) = append_and_sync(alloc, log, &ops) {
        drop(ops);
        return Err(fault);
    }
    shared.set_room(rt, room_of(log), lines_bound(&ops));
    Ok(ops)
}

fn append_and_sync(
    alloc: Global,
    log: &mut DurableLog<FileDevice>,
    ops: &[SoundOp],
) -> Result<(), SyncFault> {
    if !ops.is_empty() {
        log.append(alloc, ops).map_err(sync_fault_of)?;
    }
    log.sync().map_err(sync_fault_of)
}

fn sync_fault_of(fault: StoreFault) -> SyncFault {
    match fault {
        StoreFault::NoMemory => SyncFault::NoMemory,
        _ => SyncFault::StoreFailed,
    }
}

/// Writes zeros until the replica's log has room for so many octets, a block at a time; less than a
/// block if there is no space for one.
fn grow_to<L: Ledger, R: Wait>(
    rt: &R,
    alloc: Global,
    shared: &Shared<L>,
    log: &mut DurableLog<FileDevice>,
    octets: u64,
) -> Growth {
    for _ in 0..u64::MAX {
        if shared.has_room_for(rt, octets) {
            return Growth::HasRoom;
        }
        match grow_by(rt, alloc, shared, log, BLOCK) {
            Growth::HasRoom => {}
            Growth::Full => break,
            fault => return fault,
        }
    }
    let rest = octets.saturating_add(FOR_COMMITS);
    if rest >= BLOCK as u64 {
        return Growth::Full;
    }
    grow_by(rt, alloc, shared, log, rest as usize)
}

/// Writes zeros, a block at a time, until as many as are to be written ahead follow the log.
fn write_ahead<L: Ledger, R: Wait>(
    rt: &R,
    alloc: Global,
    shared: &Shared<L>,
    log: &mut DurableLog<FileDevice>,
) -> Growth {
    for _ in 0..u64::MAX {
        if log.room() as u64 >= AHEAD {
            return Growth::HasRoom;
        }
        match grow_by(rt, alloc, shared, log, BLOCK) {
            Growth::HasRoom => {}
            fault => return fault,
        }
    }
    Growth::Full
}

/// Writes so many zeros after those that follow the log, and adds them to the replica's room.
fn grow_by<L: Ledger, R: Wait>(
    rt: &R,
    alloc: Global,
    shared: &Shared<L>,
    log: &mut DurableLog<FileDevice>,
    octets: usize,
) -> Growth {
    match log.grow(alloc, octets) {
        Ok(()) => {
            shared.set_room(rt, room_of(log), 0);
            Growth::HasRoom
        }
        Err(StoreFault::NoSpace) => Growth::Full,
        Err(StoreFault::NoMemory) => Growth::NoMemory,
        Err(_) => Growth::Failed,
    }
}

/// Those of the operations that a replica issued, in their order. `Err` if memory runs out.
fn ops_issued_by(
    alloc: Global,
    replica: ReplicaId,
    ops: Vec<SoundOp>,
) -> Result<Vec<SoundOp>, AllocError> {
    let mut own = Vec::new(alloc);
    for op in ops {
        if op.id().replica == replica {
            own.push(op)?;
        }
    }
    Ok(own)
}

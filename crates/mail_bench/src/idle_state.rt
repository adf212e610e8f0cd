//! The state that idling connections share with one that appends, so that all of them receive each
//! message before the next one is sent.

use crate::fault::BenchFault;
use crate::report::Tally;
use crate::work::now;
use std::alloc::Global;
use std::rt::Clock;
use std::sync::{Condvar, Mutex, Wait};
use std::time::{Duration, Instant};

/// The longest wait for idling connections, in seconds.
const PATIENCE: u64 = 60;

/// The shared state.
#[derive(Drop)]
struct IdleState {
    /// The moments at which idling connections received the last message, of those that did so far;
    /// before the first message, one moment for each connection that idles.
    received: Vec<Instant>,
    /// Whether the message that is being sent is the last.
    is_last: bool,
    /// Why one of the idling connections ended.
    fault: Option<BenchFault>,
}

/// The shared state, and the signal that it changed.
#[derive(Drop)]
pub struct SharedIdleState {
    state: Mutex<IdleState>,
    changed: Condvar,
    idlers: usize,
}

impl SharedIdleState {
    /// The state for `idlers` idling connections.
    pub fn new(alloc: Global, idlers: usize) -> SharedIdleState {
        SharedIdleState {
            state: Mutex::new(IdleState {
                received: Vec::new(alloc),
                is_last: false,
                fault: None,
            }),
            changed: Condvar::new(),
            idlers,
        }
    }

    /// Notes that a connection received the message now, or idles now; `true` if the message was
    /// the last.
    pub fn note_now<R: Wait + Clock>(&self, rt: &R) -> Result<bool, BenchFault> {
        let moment = now(rt)?;
        let mut state = self.state.lock(rt);
        if state.received.push(moment).is_err() {
            return Err(BenchFault::NoMemory);
        }
        if state.received.len() >= self.idlers {
            self.changed.notify_all();
        }
        Ok(state.is_last)
    }

    /// Notes why a connection ended.
    pub fn fail<R: Wait>(&self, rt: &R, fault: BenchFault) {
        let mut state = self.state.lock(rt);
        state.fault = Some(fault);
        self.changed.notify_all();
    }

    /// Notes that the next message is about to be sent.
    pub fn begin<R: Wait>(&self, rt: &R, is_last: bool) {
        let mut state = self.state.lock(rt);
        state.received.clear();
        state.is_last = is_last;
    }

    /// Waits until all connections received the message, or idle. `Silent` if it takes longer than
    /// 60 seconds; the fault of a connection, if one ended.
    pub fn await_all<R: Wait + Clock>(&self, rt: &R) -> Result<(), BenchFault> {
        let idlers = self.idlers;
        let (state, _) = self.changed.wait_timeout_while(
            rt,
            self.state.lock(rt),
            Duration::from_secs(PATIENCE),
            |state: &mut IdleState| state.received.len() < idlers && state.fault.is_none(),
        );
        match state.fault {
            Some(fault) => Err(fault),
            None if state.received.len() < idlers => Err(BenchFault::Silent),
            None => Ok(()),
        }
    }

    /// Adds to a tally how long after this moment each connection received the message.
    pub fn add_times<R: Wait>(
        &self,
        rt: &R,
        sent: Instant,
        tally: &mut Tally,
    ) -> Result<(), BenchFault> {
        let state = self.state.lock(rt);
        for moment in state.received.iter() {
            tally.note(0, moment.duration_since(sent))?;
        }
        Ok(())
    }
}

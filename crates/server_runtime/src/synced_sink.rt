//! What a connection writes, once what it shows is synced.

ghost use Rattle.std.specs.Prelude.{◌≡◌, ◌+◌};

use crate::connection_threads::ReplicaContext;
use crate::replica_store::SyncFault;
use imap_connection::Sink;
use replica_lock::Pass;
use std::alloc::Global;
use std::sync::ledger::Ledger;
use std::sync::{Mutex, Wait};

/// A sink that writes only once all operations are synced that the replica had applied after the
/// last call of the session's pass. So no client is told what a crash could undo. Without a store
/// it waits for nothing.
#[derive(Drop)]
pub struct SyncedSink<'a, K: Sink, L: Ledger, R: Wait> {
    rt: &'a R,
    alloc: Global,
    context: &'a ReplicaContext<'a, L>,
    pass: &'a Mutex<Pass<L>>,
    inner: K,
    /// How many writes weren't begun.
    refused: u64,
    /// Why the last of them wasn't.
    fault: Option<SyncFault>,
}

impl<'a, K: Sink, L: Ledger, R: Wait> SyncedSink<'a, K, L, R> {
    /// A sink that writes to `inner`.
    pub fn new(
        rt: &'a R,
        alloc: Global,
        context: &'a ReplicaContext<'a, L>,
        pass: &'a Mutex<Pass<L>>,
        inner: K,
    ) -> SyncedSink<'a, K, L, R>
        ensures refused { result.refused ≡ 0 }
        ensures inner { result.inner ≡ inner }
    {
        SyncedSink {
            rt,
            alloc,
            context,
            pass,
            inner,
            refused: 0,
            fault: None,
        }
    }

    /// Why a write wasn't begun; `None` if each was.
    pub fn fault(&self) -> Option<SyncFault>
        ensures { result ≡ self.now.fault }
    {
        self.fault
    }
}

/// Waits until all is synced that a session's pass shows.
pub fn sync_shown<L: Ledger, R: Wait>(
    rt: &R,
    alloc: Global,
    context: &ReplicaContext<'_, L>,
    pass: &Mutex<Pass<L>>,
) -> Result<(), SyncFault> {
    let Some(store) = context.store else {
        return Ok(());
    };
    let listed = pass.lock(rt).listed();
    store.sync_to(rt, alloc, context, listed)
}

impl<'a, K: Sink, L: Ledger, R: Wait> Sink for SyncedSink<'a, K, L, R> {
    ghost taken = { λ s. K.taken s.inner };

    ghost failures = { λ s. K.failures s.inner + s.refused };

    fn write(&mut self, octets: &[u8]) -> bool {
        if let Err(fault) = sync_shown(self.rt, self.alloc, self.context, self.pass) {
            self.refused += 1;
            self.fault = Some(fault);
            return false;
        }
        self.inner.write(octets)
    }
}

//! The port of a node whose RENAME always ends in one way.

use imap_answers::Login;
use imap_connection::{NoOthers, NodePort, Port, PortFault, Reply};
use imap_syntax::{IdleLine, Tagged};
use imap_types::Name;
use rev1_connection::{RenameEnd, RenamePort};
use std::alloc::Global;

/// The port of a node whose RENAME always ends so.
#[derive(Drop)]
pub struct RenameStub {
    pub port: NodePort<NoOthers>,
    pub end: RenameEnd,
}

impl Port for RenameStub {
    ghost opens = { λ s r t. Unit {0} };

    ghost steps = { λ s a r t. Unit {0} };

    ghost closes = { λ s t. Unit {0} };

    fn open(&mut self, alloc: Global) -> Result<Login, PortFault> {
        self.port.open(alloc)
    }

    fn command(&mut self, alloc: Global, tagged: Tagged) -> Result<Reply, PortFault> {
        self.port.command(alloc, tagged)
    }

    fn done(&mut self, alloc: Global, line: IdleLine) -> Result<Reply, PortFault> {
        self.port.done(alloc, line)
    }

    fn close(&mut self, alloc: Global) {
        self.port.close(alloc)
    }
}

impl RenamePort for RenameStub {
    ghost renames = { λ s a b r t. Unit {0} };

    fn rename(&mut self, _alloc: Global, _from: &Name, _to: &Name) -> Result<RenameEnd, PortFault> {
        Ok(self.end)
    }
}

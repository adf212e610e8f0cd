//! A session's port that renames mailboxes.

ghost use Rattle.std.specs.Prelude.{ℕ, List, Result};

use imap_answers::Refusal;
use imap_connection::{Port, PortFault};
use imap_types::Name;
use std::alloc::Global;

/// How RENAME ended.
#[derive(Clone, Copy, Debug, PartialEq, Eq)]
pub enum RenameEnd {
    /// The mailboxes have their new names.
    Renamed,
    /// Nothing changed, for this reason.
    Refused(Refusal),
    /// There is no session for its steps.
    NoSecondSession,
}

/// A session's port that renames mailboxes.
pub trait RenamePort: Port {
    ghost use Rattle.imap_connection.specs.declared.fault.PortFault.{PortFault};
    ghost use Rattle.rev1_connection.specs.declared.rename_port.RenameEnd.{RenameEnd};

    /// Relates the port before and after a mailbox is renamed.
    ghost renames: { Self → List ℕ → List ℕ → Result RenameEnd PortFault → Self → Type 0 };

    /// Renames a mailbox and all below it (RFC 3501, section 6.3.5), at once for all sessions of
    /// the replica. The session itself stays as it is. `Refused(NotNow)` unless it is logged in.
    fn rename(&mut self, alloc: Global, from: &Name, to: &Name) -> Result<RenameEnd, PortFault>
        ensures { renames self.old from.now to.now result self.new };
}

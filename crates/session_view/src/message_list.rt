//! `MessageList`: a list to which messages are appended.

ghost use Rattle.std.specs.Prelude.{◌≡◌, ◌++◌, ◌∷◌, [], List, OnOk};
ghost use Rattle.session_view.specs.declared.view_entry.ViewEntry.{ViewEntry};

use crate::view_entry::{ViewEntries, ViewEntry};
use std::alloc::{AllocError, Global};

/// A list to which messages are appended.
pub trait MessageList {
    ghost entries: { Self → List ViewEntry };

    /// Appends a message. `Err` if memory runs out.
    fn put(&mut self, alloc: Global, entry: ViewEntry) -> Result<(), AllocError>
        ensures { OnOk result (entries self.new ≡ entries self.old ++ entry ∷ []) };
}

impl MessageList for Vec<ViewEntry> {
    ghost entries = { λ list. list.items };

    fn put(&mut self, _alloc: Global, entry: ViewEntry) -> Result<(), AllocError> {
        self.push(entry)?;
        Ok(())
    }
}

impl MessageList for ViewEntries {
    ghost entries = { λ list. list.items };

    fn put(&mut self, alloc: Global, entry: ViewEntry) -> Result<(), AllocError> {
        self.push(alloc, entry)
    }
}

//! The mailboxes that a command works on.

ghost use Rattle.std.specs.Prelude.{◌≡◌};
ghost use Rattle.std.specs.Option.{option_map};
ghost use Rattle.mailbox_rows.specs.RowViews.{listed_message};
ghost use Rattle.imap_commands.specs.Report.{message_at};

use crate::report::message_at;
use imap_types::Name;
use mailbox_rows::{Row, Rows};
use session_view::View;
use std::marker::Model;

/// The mailbox that a session has selected, before a command is carried out.
#[derive(Drop)]
pub struct OpenMailbox<'a> {
    /// Its name.
    pub name: &'a Name,
    /// Its listing.
    pub rows: Rows<'a>,
    /// The messages that the session was shown.
    pub view: &'a View,
    /// Whether the session selected it read-only.
    pub read_only: bool,
}

impl<'a> Model for OpenMailbox<'a> {
    ghost use Rattle.imap_commands.specs.Arguments.{OpenMailbox};

    ghost Value = { OpenMailbox };

    ghost view = { λ m. record {
      name = m.name.now;
      rows = m.rows;
      view = m.view.now.entries;
      read_only = m.read_only;
    } };
}

impl<'a> OpenMailbox<'a> {
    /// The listing's row for the view's message with this number, from 1; `None` if it is gone or
    /// the view has no such number. Cost: a binary search.
    pub fn message_at(&self, number: u32) -> Option<Row<'_>>
        ensures { option_map listed_message result ≡ message_at self.now.rows self.now.view number }
    {
        message_at(&self.rows, self.view.entries(), number)
    }
}

/// The destination of a COPY or MOVE.
#[derive(Drop)]
pub struct CopyTarget<'a> {
    /// The destination's UIDVALIDITY.
    pub uidvalidity: u32,
    /// Its UIDNEXT before the command.
    pub uidnext: u32,
    /// Its listing after the command.
    pub rows: Rows<'a>,
}

impl<'a> Model for CopyTarget<'a> {
    ghost use Rattle.imap_commands.specs.Arguments.{CopyTarget};

    ghost Value = { CopyTarget };

    ghost view = { λ l. record {
      uidvalidity = l.uidvalidity;
      uidnext = l.uidnext;
      rows = l.rows;
    } };
}

//! `Row`: one message of a listing.

ghost use Rattle.std.specs.Prelude.{◌≡◌, IfOk};
ghost use Rattle.mailbox_rows.specs.RowViews.{head_of, listed_head, listed_message};

use imap_types::{DateTime, Text, Versions};
use std::alloc::{AllocError, Global};
use tags_clocks::OpId;

/// A message of a mailbox's listing, borrowed from the tables that store it.
#[derive(Clone, Copy)]
pub struct Row<'a> {
    /// Its UID, from 1 to 4,294,967,294 (RFC 9051, section 2.3.1.1).
    pub uid: u32,
    /// Its mod-sequence, from 1 (RFC 7162, section 3.1).
    pub modseq: u64,
    /// The id of the Append that has its date and text.
    pub origin: OpId,
    /// Its versions, ascending by id, one at least. Its flags are the union of theirs.
    pub versions: Versions<'a>,
    /// When it was received (RFC 9051, section 2.3.3); None if its Append wasn't applied.
    pub date: Option<&'a DateTime>,
    /// Its octets; None if its Append wasn't applied.
    pub text: Option<&'a Text>,
}

/// A message of a mailbox's listing without its origin, date and text, for which they aren't looked
/// up.
#[derive(Clone, Copy)]
pub struct RowHead<'a> {
    /// Its UID, from 1 to 4,294,967,294 (RFC 9051, section 2.3.1.1).
    pub uid: u32,
    /// Its mod-sequence, from 1 (RFC 7162, section 3.1).
    pub modseq: u64,
    /// Its versions, ascending by id, one at least. Its flags are the union of theirs.
    pub versions: Versions<'a>,
}

impl<'a> Row<'a> {
    /// The row without its origin, date and text.
    #[inline(always)]
    pub fn head(&self) -> RowHead<'a>
        ensures { listed_head result ≡ head_of (listed_message self.now) }
    {
        RowHead {
            uid: self.uid,
            modseq: self.modseq,
            versions: self.versions,
        }
    }
}

impl Row<'_> {
    /// The date-time shown to clients: when it was received, or the first moment of 1970 if no date
    /// is known.
    pub fn shown_date(&self) -> DateTime
        ensures { result ≡ (listed_message self.now).date }
    {
        match self.date {
            Some(date) => date.copy(),
            None => DateTime::epoch(),
        }
    }

    /// The octets shown to clients: those of its text, or none if no text is known.
    pub fn shown_text(&self) -> &[u8]
        ensures { result.now ≡ (listed_message self.now).text }
    {
        match self.text {
            Some(text) => text.as_bytes(),
            None => b"",
        }
    }

    /// The octets as a text of its own, sharing the memory of the message's text if that is known;
    /// `Err` if memory runs out, or as `Text::copy`.
    pub fn copy_text(&self, alloc: Global) -> Result<Text, AllocError>
        ensures { IfOk result (λ copied. copied ≡ (listed_message self.now).text) }
    {
        match self.text {
            Some(text) => text.copy(),
            None => Text::new(Vec::new(alloc)),
        }
    }
}

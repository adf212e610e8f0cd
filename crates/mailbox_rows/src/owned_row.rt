//! `OwnedRow`: a row of a listing whose versions may be its own.

ghost use Rattle.std.specs.Prelude.{◌≡◌, IfOk};
ghost use Rattle.mailbox_rows.specs.RowViews.{owned_message, listed_message, owned_versions};

use crate::row::Row;
use imap_types::{DateTime, Text, Version, Versions, copy_versions};
use std::alloc::{AllocError, Global};
use tags_clocks::OpId;

/// A message of a mailbox's listing, with borrowed versions, or with its own if pending operations
/// change them.
#[derive(Drop)]
pub struct OwnedRow<'a> {
    /// Its UID, from 1 to 4,294,967,294 (RFC 9051, section 2.3.1.1).
    pub uid: u32,
    /// Its mod-sequence, from 1 (RFC 7162, section 3.1).
    pub modseq: u64,
    /// The id of the Append that has its date and text.
    pub origin: OpId,
    /// Its versions, ascending by id, one at least.
    pub versions: VersionsCow<'a>,
    /// When it was received (RFC 9051, section 2.3.3); None if its Append wasn't applied.
    pub date: Option<&'a DateTime>,
    /// Its octets; None if its Append wasn't applied.
    pub text: Option<&'a Text>,
}

/// The versions of a message of a listing, borrowed or owned.
#[derive(Drop)]
pub enum VersionsCow<'a> {
    /// Borrowed from the tables that store the message.
    Borrowed(Versions<'a>),
    /// The row's own, ascending by id: the versions that pending operations leave.
    Own(Vec<Version>),
}

impl<'a> OwnedRow<'a> {
    /// The row, borrowed.
    pub fn row(&self) -> Row<'_>
        ensures { listed_message result ≡ owned_message self.now }
    {
        Row {
            uid: self.uid,
            modseq: self.modseq,
            origin: self.origin,
            versions: self.versions.as_versions(),
            date: self.date,
            text: self.text,
        }
    }

    /// A copy of the row and of the versions it owns; `Err` if memory runs out.
    pub(crate) fn copy(&self, alloc: Global) -> Result<OwnedRow<'a>, AllocError>
        ensures { IfOk result (λ copied. owned_message copied ≡ owned_message self.now) }
    {
        let versions = self.versions.copy(alloc)?;
        Ok(OwnedRow {
            uid: self.uid,
            modseq: self.modseq,
            origin: self.origin,
            versions,
            date: self.date,
            text: self.text,
        })
    }
}

impl<'a> VersionsCow<'a> {
    /// The versions, borrowed.
    pub fn as_versions(&self) -> Versions<'_>
        ensures { result.list.now ≡ owned_versions self.now }
    {
        match self {
            VersionsCow::Borrowed(versions) => Versions::new(versions.as_slice()),
            VersionsCow::Own(versions) => Versions::new(versions),
        }
    }
    /// A copy: the same reference if borrowed, copies of the versions if owned; `Err` if memory
    /// runs out.
    pub(crate) fn copy(&self, alloc: Global) -> Result<VersionsCow<'a>, AllocError>
        ensures { IfOk result (λ copied. owned_versions copied ≡ owned_versions self.now) }
    {
        match self {
            VersionsCow::Borrowed(versions) => Ok(VersionsCow::Borrowed(*versions)),
            VersionsCow::Own(versions) => {
                let copies = copy_versions(alloc, versions)?;
                Ok(VersionsCow::Own(copies))
            }
        }
    }
}

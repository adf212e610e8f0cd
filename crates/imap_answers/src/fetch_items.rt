//! The data of a message in a FETCH answer (RFC 9051, section 7.5.2).

ghost use Rattle.std.specs.Prelude.{◌≡◌, ◌↔◌, IfOk, IsTrue};

use crate::codes::{are_same_flags, copy_flags};
use imap_types::{DateTime, Flags, Section, Text};
use std::alloc::{AllocError, Global};
use std::marker::Model;

/// The items of a message that a FETCH answer sends; `None` for those left out.
pub struct FetchItems {
    /// Its UID, from 1 on.
    pub uid: Option<u32>,
    /// All flags of the message.
    pub flags: Option<Flags>,
    /// Its internal date.
    pub date: Option<DateTime>,
    /// The length of its text in octets.
    pub size: Option<u64>,
    /// Its mod-sequence, from 1 on (RFC 7162, section 3.1.4.1).
    pub modseq: Option<u64>,
    /// Sections of its text, in the order of the command.
    pub sections: Sections,
}

// By hand, so that crates above drop it whole.
impl Drop for FetchItems {
    fn drop(self) {
        let Self {
            uid: _,
            flags: _,
            date: _,
            size: _,
            modseq: _,
            sections: _,
        } = self;
    }
}

impl FetchItems {
    /// Whether both have the same items, compared by value.
    pub fn same(&self, other: &FetchItems) -> bool
        ensures { IsTrue result ↔ (self.now ≡ other.now) }
    {
        self.uid == other.uid
            && are_same_flags(&self.flags, &other.flags)
            && are_same_dates(&self.date, &other.date)
            && self.size == other.size
            && self.modseq == other.modseq
            && self.sections.same(&other.sections)
    }

    /// Equal items; `Err` if memory runs out.
    pub fn copy(&self, alloc: Global) -> Result<FetchItems, AllocError>
        ensures { IfOk result (λ copied. copied ≡ self.now) }
    {
        Ok(FetchItems {
            uid: self.uid,
            flags: copy_flags(alloc, &self.flags)?,
            date: copy_date(&self.date),
            size: self.size,
            modseq: self.modseq,
            sections: self.sections.copy(alloc)?,
        })
    }
}

/// Whether both are the same date-time, or both none.
fn are_same_dates(date: &Option<DateTime>, other: &Option<DateTime>) -> bool
    ensures { IsTrue result ↔ (date.now ≡ other.now) }
{
    match (date, other) {
        (None, None) => true,
        (Some(date), Some(other)) => date.same(other),
        _ => false,
    }
}

/// An equal date-time, if any.
fn copy_date(date: &Option<DateTime>) -> Option<DateTime>
    ensures { result ≡ date.now }
{
    match date {
        None => None,
        Some(date) => Some(date.copy()),
    }
}

/// A section of a message's text, with its octets.
pub struct SectionData {
    /// The section.
    pub section: Section,
    /// The offset of the octets in the section, if the command named a partial range.
    pub origin: Option<u32>,
    /// The octets; they share the message's memory if they are its whole text.
    pub octets: Text,
}

// By hand, so that crates above drop it whole.
impl Drop for SectionData {
    fn drop(self) {
        let Self {
            section: _,
            origin: _,
            octets: _,
        } = self;
    }
}

impl SectionData {
    /// Whether both are the same section with the same octets.
    pub fn same(&self, other: &SectionData) -> bool
        ensures { IsTrue result ↔ (self.now ≡ other.now) }
    {
        self.section.same(&other.section)
            && self.origin == other.origin
            && self.octets.same(&other.octets)
    }

    /// An equal value; `Err` if memory runs out.
    pub fn copy(&self, alloc: Global) -> Result<SectionData, AllocError>
        ensures { IfOk result (λ copied. copied ≡ self.now) }
    {
        Ok(SectionData {
            section: self.section.copy(alloc)?,
            origin: self.origin,
            octets: self.octets.copy()?,
        })
    }
}

/// Sections of a message's text, in order. Contracts see them as a list.
pub struct Sections {
    parts: Vec<SectionData>,
}

// By hand, so that crates above drop it whole.
impl Drop for Sections {
    fn drop(self) {
        let Self { parts: _ } = self;
    }
}

impl Model for Sections {
    ghost use Rattle.std.specs.Prelude.{List};
    ghost use Rattle.imap_answers.specs.declared.fetch_items.SectionData.{SectionData};

    ghost Value = { List SectionData };

    ghost view = { λ s. s.parts.items };
}

impl Sections {
    /// The sections in `parts`, whose memory is taken over.
    pub fn new(parts: Vec<SectionData>) -> Sections
        ensures { result ≡ parts.items }
    {
        Sections { parts }
    }

    /// The sections, in order.
    pub fn parts(&self) -> &[SectionData]
        ensures { result.now ≡ self.now }
    {
        &self.parts
    }
    /// Whether both are the same sections in the same order.
    pub fn same(&self, other: &Sections) -> bool
        ensures { IsTrue result ↔ (self.now ≡ other.now) }
    {
        are_same_parts(self.parts(), other.parts())
    }

    /// Equal sections; `Err` if memory runs out.
    pub fn copy(&self, alloc: Global) -> Result<Sections, AllocError>
        ensures { IfOk result (λ copied. copied ≡ self.now) }
    {
        Ok(Sections {
            parts: copy_parts(alloc, self.parts())?,
        })
    }
}

/// Whether both lists are the same sections in the same order.
fn are_same_parts(parts: &[SectionData], others: &[SectionData]) -> bool
    ensures { IsTrue result ↔ (parts.now ≡ others.now) }
{
    if parts.len() != others.len() {
        return false;
    }
    for i in 0..parts.len() {
        if !parts[i].same(&others[i]) {
            return false;
        }
    }
    true
}

/// Equal sections; `Err` if memory runs out.
fn copy_parts(alloc: Global, parts: &[SectionData]) -> Result<Vec<SectionData>, AllocError>
    ensures { IfOk result (λ copied. copied.items ≡ parts.now) }
{
    let mut copies = Vec::with_capacity(alloc, parts.len())?;
    for part in parts {
        copies.push(part.copy(alloc)?)?;
    }
    Ok(copies)
}

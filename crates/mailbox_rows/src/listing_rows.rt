//! `Rows`: the messages of a listing, by ascending UID.

ghost use Rattle.std.specs.Prelude.{◌≡◌, ◌≤◌, ◌<◌, ◌++◌, ◌∷◌, [], true, ltb, length, map, drop};
ghost use Rattle.std.specs.Prelude.{get_or, is_some, option_map, IfOk, OnOk};
ghost use Rattle.std.specs.List.{slice_get};
ghost use Rattle.mailbox_rows.specs.ListedMessage.{ListedMessage};
ghost use Rattle.mailbox_rows.specs.RowViews.{AreRisingRows, rows_after_uid, changed_since};
ghost use Rattle.mailbox_rows.specs.RowViews.{head_of, listed_head, owned_message, last_uid};
ghost use Rattle.mailbox_rows.specs.RowViews.{listed_message, row_of};
ghost use Rattle.mailbox_rows.specs.Windows.{IsEdge, source_rows};

use crate::owned_row::OwnedRow;
use crate::row::{Row, RowHead};
use crate::window::Window;
use std::alloc::{AllocError, Global};
use std::marker::Model;

/// Where the messages of a listing are.
#[derive(Drop)]
enum Source<'a> {
    /// In a list of owned rows.
    Owned(Vec<OwnedRow<'a>>),
    /// In a mailbox, through a window.
    InWindow(Window<'a>),
}

/// A mailbox's messages, by ascending UIDs.
pub struct Rows<'a> {
    source: Source<'a>,
}

// By hand, so that crates above drop it whole.
impl<'a> Drop for Rows<'a> {
    fn drop(self) {
        let Self { source: _ } = self;
    }
}

impl<'a> Model for Rows<'a> {
    ghost use Rattle.std.specs.Prelude.{List};
    ghost use Rattle.mailbox_rows.specs.ListedMessage.{ListedMessage};

    ghost Value = { List ListedMessage };

    ghost use Rattle.mailbox_rows.specs.RowViews.{AreRisingRows};
    ghost use Rattle.mailbox_rows.specs.Windows.{source_rows};

    ghost view = { λ r. source_rows r.source };

    ghost invariant = { λ r. AreRisingRows 1 (source_rows r.source) };
}

impl<'a> Rows<'a> {
    /// A listing without messages.
    pub fn none(alloc: Global) -> Rows<'a>
        ensures { result ≡ [] }
    {
        Rows {
            source: Source::Owned(Vec::new(alloc)),
        }
    }

    /// A listing of these messages, whose UIDs ascend strictly from 1.
    pub fn from_ascending(rows: Vec<OwnedRow<'a>>) -> Rows<'a>
        requires { AreRisingRows 1 (map owned_message rows.items) }
        ensures { result ≡ map owned_message rows.entry.items }
    {
        Rows {
            source: Source::Owned(rows),
        }
    }

    /// The listing that a window shows. Takes no memory.
    pub fn of_window(window: Window<'a>) -> Rows<'a>
        ensures { result ≡ window.entry }
    {
        window.prove_ascending();
        Rows {
            source: Source::InWindow(window),
        }
    }

    /// The number of messages. Their UIDs ascend strictly.
    pub fn count(&self) -> u32
        ensures count { result ≡ length self.now }
        ensures rising { AreRisingRows 1 self.now }
    {
        let len = self.len();
        let _last = self.last_uid(len);
        match u32::try_from(len) {
            Ok(count) => count,
            Err(_) => unreachable!(),
        }
    }

    /// The message at `place`, from 0, by ascending UID; `None` if the listing is shorter.
    pub fn row_at(&self, place: usize) -> Option<Row<'_>>
        ensures { option_map listed_message result ≡ slice_get self.now place }
    {
        row_in(&self.source, place)
    }

    /// The message with this UID, if it exists, by a binary search.
    pub fn row_of(&self, uid: u32) -> Option<Row<'_>>
        ensures { option_map listed_message result ≡ row_of uid self.now }
    {
        match self.row_at(self.first_place_from(u64::from(uid))) {
            Some(row) => { if row.uid == uid { Some(row) } else { None } }
            None => None,
        }
    }

    /// The message with this UID, if it exists. Looks first at `place`, from 0, which is its place
    /// if the view from which `place` was counted shows the same messages as the listing; else by a
    /// binary search.
    pub fn row_near(&self, place: usize, uid: u32) -> Option<Row<'_>>
        ensures { option_map listed_message result ≡ row_of uid self.now }
    {
        let _len = self.len();
        match self.row_at(place) {
            Some(row) => {
                if row.uid == uid {
                    Some(row)
                } else {
                    self.row_of(uid)
                }
            }
            None => self.row_of(uid),
        }
    }

    /// The head of the row of the message with this UID, if it exists, found as by `row_near` but
    /// without a look at its date and text.
    #[inline(always)]
    pub fn head_near(&self, place: usize, uid: u32) -> Option<RowHead<'_>>
        ensures { option_map listed_head result ≡ option_map head_of (row_of uid self.now) }
    {
        let _len = self.len();
        match self.head_at(place) {
            Some(head) => {
                if head.uid == uid {
                    Some(head)
                } else {
                    self.search_head(uid)
                }
            }
            None => self.search_head(uid),
        }
    }

    /// Whether a message with this UID exists, found as by `row_near`; only UIDs are read at
    /// `place`.
    pub fn has_near(&self, place: usize, uid: u32) -> bool
        ensures { result ≡ is_some (row_of uid self.now) }
    {
        self.has_uid_at(place, uid) || self.row_of(uid).is_some()
    }

    /// The number of messages with this UID or a lower one, which is the place of the first with a
    /// higher one. A binary search.
    pub fn place_after_uid(&self, uid: u32) -> usize
        ensures bound { result ≤ length self.now }
        ensures beyond { drop result self.now ≡ rows_after_uid uid self.now }
    {
        self.first_place_from(u64::from(uid) + 1)
    }

    /// The messages whose mod-sequences are above this one (RFC 7162, section 3.1.4); `Err` if
    /// memory runs out. Cost: through a window, that of `Window::changed_since`; else one pass over
    /// the rows.
    pub fn changed_since(&self, alloc: Global, modseq: u64) -> Result<Rows<'a>, AllocError>
        ensures { IfOk result (λ rows. rows ≡ changed_since modseq self.now) }
    {
        let _len = self.len();
        let changed = changed_rows_in(alloc, &self.source, modseq)?;
        Ok(Rows::from_ascending(changed))
    }

    /// The head of the row at `place`.
    #[inline(always)]
    fn head_at(&self, place: usize) -> Option<RowHead<'_>>
        ensures { option_map listed_head result ≡ option_map head_of (slice_get self.now place) }
    {
        head_in(&self.source, place)
    }

    /// The head of the row of the message with this UID, if it exists, by a binary search.
    #[inline(never)]
    fn search_head(&self, uid: u32) -> Option<RowHead<'_>>
        ensures { option_map listed_head result ≡ option_map head_of (row_of uid self.now) }
    {
        match self.row_of(uid) {
            Some(row) => Some(row.head()),
            None => None,
        }
    }

    /// The number of messages. Their UIDs ascend strictly.
    fn len(&self) -> usize
        ensures len { result ≡ length self.now }
        ensures rising { AreRisingRows 1 self.now }
    {
        len_of(&self.source)
    }

    /// Whether the message at `place` has this UID.
    fn has_uid_at(&self, place: usize, uid: u32) -> bool
        ensures { result ≡ true → is_some (row_of uid self.now) ≡ true }
    {
        let _len = self.len();
        match self.uid_at(place) {
            Some(other) => other == uid,
            None => false,
        }
    }

    /// The UID at `place`.
    fn uid_at(&self, place: usize) -> Option<u32>
        ensures { result ≡ option_map (λ row. row.uid) (slice_get self.now place) }
    {
        uid_in(&self.source, place)
    }

    /// The message at `place` as an owned row; `Err` if memory runs out for copies of its versions.
    fn owned_row_at(&self, alloc: Global, place: usize) -> Result<Option<OwnedRow<'a>>, AllocError>
        ensures { IfOk result (λ row. option_map owned_message row ≡ slice_get self.now place) }
    {
        owned_row_in(alloc, &self.source, place)
    }

    /// The UID of the last of `len` messages; 0 if there are none.
    fn last_uid(&self, len: usize) -> u32
        requires { len ≡ length self.now }
        ensures { result ≡ last_uid 0 self.now }
    {
        if len == 0 {
            return 0;
        }
        match self.uid_at(len - 1) {
            Some(uid) => uid,
            None => 0,
        }
    }

    /// The place of the first row whose UID is no less than this number.
    fn first_place_from(&self, uid: u64) -> usize
        ensures within { result ≤ length self.now }
        ensures edge { (d : ListedMessage)
            → IsEdge (λ i. ltb (get_or self.now i d).uid uid) (length self.now) result }
        ensures rising { AreRisingRows 1 self.now }
    {
        let mut low = 0;
        let mut high = self.len();
        while low < high {
            let middle = low + (high - low) / 2;
            if self.is_below(middle, uid) {
                low = middle + 1;
            } else {
                high = middle;
            }
        }
        low
    }

    /// Whether the UID at `place` is below `uid`.
    fn is_below(&self, place: usize, uid: u64) -> bool
        requires { place < length self.now }
        ensures { (d : ListedMessage) → result ≡ ltb (get_or self.now place d).uid uid }
    {
        match self.uid_at(place) {
            Some(other) => u64::from(other) < uid,
            None => false,
        }
    }
}

/// The number of messages of a source.
fn len_of(source: &Source<'_>) -> usize
    ensures { result ≡ length (source_rows source.now) }
{
    match source {
        Source::Owned(rows) => rows.len(),
        Source::InWindow(window) => window.len(),
    }
}

/// The row of a source at `place`.
fn row_in<'r>(source: &'r Source<'_>, place: usize) -> Option<Row<'r>>
    ensures { option_map listed_message result ≡ slice_get (source_rows source.now) place }
{
    match source {
        Source::Owned(rows) => slice_row(rows, place),
        Source::InWindow(window) => window.row_at(place),
    }
}

/// The row of a slice at `place`.
fn slice_row<'r>(rows: &'r [OwnedRow<'_>], place: usize) -> Option<Row<'r>>
    ensures { option_map listed_message result ≡ slice_get (map owned_message rows.now) place }
{
    match rows.get(place) {
        Some(row) => Some(row.row()),
        None => None,
    }
}

/// The head of a source's row at `place`.
#[inline(always)]
fn head_in<'r>(source: &'r Source<'_>, place: usize) -> Option<RowHead<'r>>
    ensures { option_map listed_head result
        ≡ option_map head_of (slice_get (source_rows source.now) place) }
{
    match source {
        Source::Owned(rows) => slice_head(rows, place),
        Source::InWindow(window) => window.head_at(place),
    }
}

/// The head of a slice's row at `place`.
fn slice_head<'r>(rows: &'r [OwnedRow<'_>], place: usize) -> Option<RowHead<'r>>
    ensures { option_map listed_head result
        ≡ option_map head_of (slice_get (map owned_message rows.now) place) }
{
    match rows.get(place) {
        Some(row) => Some(row.row().head()),
        None => None,
    }
}

/// The UID of a source's message at `place`.
fn uid_in(source: &Source<'_>, place: usize) -> Option<u32>
    ensures { result ≡ option_map (λ row. row.uid) (slice_get (source_rows source.now) place) }
{
    match source {
        Source::Owned(rows) => slice_uid(rows, place),
        Source::InWindow(window) => window.uid_at(place),
    }
}

/// The UID of a slice's row at `place`.
fn slice_uid(rows: &[OwnedRow<'_>], place: usize) -> Option<u32>
    ensures { result ≡ option_map (λ row. row.uid) (slice_get (map owned_message rows.now) place) }
{
    match rows.get(place) {
        Some(row) => Some(row.uid),
        None => None,
    }
}

/// The owned row of a source at `place`; `Err` if memory runs out for copies of its versions.
fn owned_row_in<'a>(
    alloc: Global,
    source: &Source<'a>,
    place: usize,
) -> Result<Option<OwnedRow<'a>>, AllocError>
    ensures { IfOk result
        (λ row. option_map owned_message row ≡ slice_get (source_rows source.now) place) }
{
    match source {
        Source::Owned(rows) => slice_owned_row(alloc, rows, place),
        Source::InWindow(window) => window.owned_row_at(alloc, place),
    }
}

/// A copy of a slice's row at `place`; `Err` if memory runs out for copies of its versions.
fn slice_owned_row<'a>(
    alloc: Global,
    rows: &[OwnedRow<'a>],
    place: usize,
) -> Result<Option<OwnedRow<'a>>, AllocError>
    ensures { IfOk result
        (λ row. option_map owned_message row ≡ slice_get (map owned_message rows.now) place) }
{
    match rows.get(place) {
        Some(row) => {
            let copied = row.copy(alloc)?;
            Ok(Some(copied))
        }
        None => Ok(None),
    }
}

/// A source's rows whose mod-sequences are above `modseq`, owned; `Err` if memory runs out.
fn changed_rows_in<'a>(
    alloc: Global,
    source: &Source<'a>,
    modseq: u64,
) -> Result<Vec<OwnedRow<'a>>, AllocError>
    ensures { IfOk result
        (λ changed. map owned_message changed.items
        ≡ changed_since modseq (source_rows source.now)) }
{
    match source {
        Source::Owned(rows) => slice_changed_rows(alloc, rows, modseq),
        Source::InWindow(window) => window.changed_since(alloc, modseq),
    }
}

/// Copies of a slice's rows whose mod-sequences are above `modseq`; `Err` if memory runs out.
fn slice_changed_rows<'a>(
    alloc: Global,
    rows: &[OwnedRow<'a>],
    modseq: u64,
) -> Result<Vec<OwnedRow<'a>>, AllocError>
    ensures { IfOk result
        (λ changed. map owned_message changed.items
        ≡ changed_since modseq (map owned_message rows.now)) }
{
    let mut changed = Vec::new(alloc);
    for row in rows {
        push_changed(alloc, &mut changed, row, modseq)?;
    }
    Ok(changed)
}

/// Appends a copy of `row` if its mod-sequence is above `modseq`; `Err` if memory runs out.
fn push_changed<'a>(
    alloc: Global,
    changed: &mut Vec<OwnedRow<'a>>,
    row: &OwnedRow<'a>,
    modseq: u64,
) -> Result<(), AllocError>
    ensures { OnOk result (map owned_message changed.new.items
        ≡ map owned_message changed.old.items
        ++ changed_since modseq (owned_message row.now ∷ [])) }
{
    if row.modseq > modseq {
        changed.push(row.copy(alloc)?)?;
    }
    Ok(())
}

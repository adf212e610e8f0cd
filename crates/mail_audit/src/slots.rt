//! The knowledge of a session's messages.

ghost use Rattle.std.specs.Prelude.{◌≡◌, ◌↔◌, ◌<◌, ◌≤◌, IfOk, IsTrue, MatchOption, None as Unknown};
ghost use Rattle.std.specs.Prelude.{Some as Known, get_or, length, set};
ghost use Rattle.mail_audit.specs.Explanations.{IsNumberOf};
ghost use Rattle.mail_audit.specs.Gaps.{IsUidKnown, IsUidUnknown, SplitsAt};
ghost use Rattle.mail_audit.specs.EventPasses.{HasRoomAbove, MayBeUid};
ghost use Rattle.mail_audit.specs.SlotSteps.{EventFits, after_event, no_slots, place_at, with_more};
ghost use Rattle.mail_audit.specs.declared.event.SlotEvent.TheVariants.{Exists as CountReport};
ghost use Rattle.mail_audit.specs.declared.event.SlotEvent.TheVariants.{Expunge as Expunged};
ghost use Rattle.mail_audit.specs.declared.event.SlotEvent.TheVariants.{ReportsUid as UidReport};

use crate::event::SlotEvent;
use crate::expunged_places::expunged_before;
use crate::gaps::{count_of_lower_places, fits_between, has_room};
use std::alloc::{AllocError, Global};
use std::marker::Model;
use tree_list::TreeList;

/// The place of a message among all messages, from 0, and its reported UID.
#[derive(Clone, Copy, Debug, PartialEq, Eq)]
pub struct KnownUid {
    pub place: u32,
    pub uid: u32,
}

/// The knowledge of a session's messages: their total, the places of expunged ones, and those with
/// reported UIDs, both by ascending place.
#[derive(Drop)]
pub struct Slots {
    total: u32,
    expunged: TreeList<u32>,
    entries: TreeList<KnownUid>,
}

impl Model for Slots {
    ghost use Rattle.mail_audit.specs.KnownUids.{AreKnownUids, places_from, slots_from};
    ghost use Rattle.mail_audit.specs.Gaps.{IsUidKnown, IsUidUnknown, SplitsAt};
    ghost use Rattle.mail_audit.specs.EventPasses.{HasRoomAbove, MayBeUid};
    ghost use Rattle.mail_audit.specs.SlotSteps.{SlotKnowledge};

    ghost Value = { SlotKnowledge };

    ghost view = { λ s. record {
      live = places_from 0 s.expunged s.total;
      slots = slots_from 0 s.entries s.total;
    } };

    ghost invariant = { λ s. AreKnownUids s.expunged s.entries s.total };
}

impl Slots {
    /// No messages, and nothing known of any.
    pub fn new() -> Slots
        ensures { result ≡ no_slots }
    {
        Slots {
            total: 0,
            expunged: TreeList::new(),
            entries: TreeList::new(),
        }
    }

    /// Records an event and gives `true` if it fits what is known; otherwise gives `false`, and
    /// nothing changes. `Err` if memory runs out, and then nothing changes either.
    pub fn note(&mut self, alloc: Global, event: SlotEvent) -> Result<bool, AllocError>
        ensures fits { IfOk result (λ noted. IsTrue noted ↔ EventFits self.old event) }
        ensures next { IfOk result (λ noted. IsTrue noted → self.new ≡ after_event self.old event) }
    {
        match event {
            SlotEvent::Selects => {
                *self = Slots::new();
                Ok(true)
            }
            SlotEvent::Exists(count) => Ok(self.grow(count)),
            SlotEvent::Expunge(number) => self.take_out(alloc, number),
            SlotEvent::Names(number) => Ok(self.has(number)),
            SlotEvent::ReportsUid(number, uid) => self.record_uid(alloc, number, uid),
            SlotEvent::Passes => Ok(true),
        }
    }

    /// The number of existing messages.
    fn count(&self) -> u32
        ensures { result ≡ length self.now.live }
    {
        self.total - self.expunged.len() as u32
    }

    /// Whether a message has this number.
    fn has(&self, number: u32) -> bool
        ensures { IsTrue result ↔ IsNumberOf number self.now.live }
    {
        0 < number && number <= self.count()
    }

    /// Records that `count` messages exist, if that is no fewer than before and UIDs are left for
    /// the new ones; otherwise nothing changes.
    fn grow(&mut self, count: u32) -> bool
        ensures fits { IsTrue result ↔ EventFits self.old (CountReport count) }
        ensures next { IsTrue result → self.new ≡ after_event self.old (CountReport count) }
    {
        let live = self.count();
        if count < live {
            return false;
        }
        self.add(count - live)
    }

    /// Records that `more` further messages arrived, if UIDs are left for them; otherwise nothing
    /// changes.
    fn add(&mut self, more: u32) -> bool
        ensures fits { IsTrue result ↔ HasRoomAbove 0 (with_more self.old more).slots }
        ensures next { IsTrue result → self.new ≡ with_more self.old more }
    {
        let Some(total) = self.total.checked_add(more) else {
            return false;
        };
        if !has_room(&self.entries, total) {
            return false;
        }
        self.total = total;
        true
    }

    /// Records that the message with this number was expunged, if there is one; otherwise nothing
    /// changes. `Err` if memory runs out.
    fn take_out(&mut self, alloc: Global, number: u32) -> Result<bool, AllocError>
        ensures fits { IfOk result (λ noted. IsTrue noted ↔ EventFits self.old (Expunged number)) }
        ensures next { IfOk result
            (λ noted. IsTrue noted → self.new ≡ after_event self.old (Expunged number)) }
    {
        if !self.has(number) {
            return Ok(false);
        }
        let before = expunged_before(&self.expunged, number - 1);
        self.expunged
            .insert(alloc, before, number - 1 + before as u32)?;
        Ok(true)
    }

    /// The place of the message with this number, from 0.
    fn place_of(&self, number: u32) -> u32
        requires { IsNumberOf number self.now.live }
        ensures place { result ≡ place_at self.now number }
        ensures total { result < length self.now.slots }
    {
        let before = expunged_before(&self.expunged, number - 1);
        number - 1 + before as u32
    }

    /// Records the UID of the message with this number, if there is one and it may have this UID;
    /// otherwise nothing changes. `Err` if memory runs out.
    fn record_uid(&mut self, alloc: Global, number: u32, uid: u32) -> Result<bool, AllocError>
        ensures fits { IfOk result
            (λ noted. IsTrue noted ↔ EventFits self.old (UidReport number uid)) }
        ensures next { IfOk result
            (λ noted. IsTrue noted → self.new ≡ after_event self.old (UidReport number uid)) }
    {
        if !self.has(number) {
            return Ok(false);
        }
        let place = self.place_of(number);
        self.record_uid_at(alloc, place, uid)
    }

    /// Records the UID at a place, if the message there may have it; otherwise nothing changes.
    /// `Err` if memory runs out.
    fn record_uid_at(&mut self, alloc: Global, place: u32, uid: u32) -> Result<bool, AllocError>
        requires { place < length self.old.slots }
        ensures fits { IfOk result (λ noted. IsTrue noted
            ↔ (MayBeUid (get_or self.old.slots place Unknown) uid
            × HasRoomAbove 0 (set self.old.slots place (Known uid)))) }
        ensures next { IfOk result (λ noted. IsTrue noted
            → self.new ≡ record self.old { slots = set self.old.slots place (Known uid) }) }
    {
        let at = count_of_lower_places(&self.entries, place);
        if let Some(known) = uid_at(&self.entries, at, place) {
            return Ok(known == uid);
        }
        let entry = KnownUid { place, uid };
        if !fits_between(&self.entries, at, entry, self.total) {
            return Ok(false);
        }
        self.entries.insert(alloc, at, entry)?;
        Ok(true)
    }
}

/// The reported UID of a place, if any; `at` known ones have lower places.
fn uid_at(entries: &TreeList<KnownUid>, at: usize, place: u32) -> Option<u32>
    requires within { at ≤ length entries.now }
    requires parts { SplitsAt place entries.now at }
    ensures { MatchOption result (IsUidUnknown at place entries.now)
        (λ uid. IsUidKnown at place uid entries.now) }
{
    match entries.get(at) {
        None => None,
        Some(entry) => {
            if entry.place == place {
                Some(entry.uid)
            } else {
                None
            }
        }
    }
}

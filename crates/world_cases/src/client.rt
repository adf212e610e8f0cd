//! A plain client, which learns about a mailbox only from answers.

use imap_answers::{Answer, FetchItems, Notice};
use imap_types::Flags;
use session_view::{SilentFlags, ViewEntries};
use std::alloc::{AllocError, Global};

/// A message as the client knows it.
#[derive(Drop)]
struct KnownMessage {
    /// Its UID, if an answer reported it.
    uid: Option<u32>,
    /// Its flags, if an answer reported them or the client set them silently.
    flags: Option<Flags>,
}

/// What a client knows of the mailbox that it selected.
#[derive(Drop)]
pub struct Client {
    /// The messages, by message number.
    messages: Vec<KnownMessage>,
    /// The UIDVALIDITY, if an answer reported it.
    validity: Option<u32>,
    /// Whether an answer named a missing message, or counted fewer messages than the client has.
    has_contradiction: bool,
}

impl Client {
    /// A client that knows nothing.
    pub fn new(alloc: Global) -> Client {
        Client {
            messages: Vec::new(alloc),
            validity: None,
            has_contradiction: false,
        }
    }

    /// How many messages the client knows to exist.
    pub fn count(&self) -> usize {
        self.messages.len()
    }

    /// The UIDVALIDITY, if an answer reported it.
    pub fn validity(&self) -> Option<u32> {
        self.validity
    }

    /// Updates the client from answers, one after another. `Err` if memory runs out.
    pub fn apply_answers(&mut self, alloc: Global, answers: &[Answer]) -> Result<(), AllocError> {
        for answer in answers {
            self.apply_answer(alloc, answer)?;
        }
        Ok(())
    }

    /// Updates the client from an answer (RFC 9051, section 7). `Err` if memory runs out.
    pub fn apply_answer(&mut self, alloc: Global, answer: &Answer) -> Result<(), AllocError> {
        match answer {
            Answer::Expunge { number } => {
                self.take_out(*number);
                Ok(())
            }
            Answer::Exists { count } => self.add_unknown_messages(*count),
            Answer::Fetch { number, items } => self.take_items(alloc, *number, items),
            Answer::UntaggedOk { notice } => {
                self.read_notice(notice);
                Ok(())
            }
            _ => Ok(()),
        }
    }

    /// Records flags that the client set silently (RFC 9051, section 6.4.6), message by message.
    /// `Err` if memory runs out.
    pub fn record_silent_flags(
        &mut self,
        alloc: Global,
        silents: &[SilentFlags],
    ) -> Result<(), AllocError> {
        for silent in silents {
            self.set(alloc, silent)?;
        }
        Ok(())
    }

    fn set(&mut self, alloc: Global, silent: &SilentFlags) -> Result<(), AllocError> {
        match self.messages.get_mut(place_of(silent.number)) {
            Some(message) => message.flags = Some(silent.flags.copy(alloc)?),
            None => self.has_contradiction = true,
        }
        Ok(())
    }

    fn take_out(&mut self, number: u32) {
        let place = place_of(number);
        if place >= self.messages.len() {
            self.has_contradiction = true;
            return;
        }
        drop(self.messages.remove(place));
    }

    fn add_unknown_messages(&mut self, count: u32) -> Result<(), AllocError> {
        let count = count as usize;
        if self.messages.len() > count {
            self.has_contradiction = true;
            return Ok(());
        }
        for _ in self.messages.len()..count {
            self.messages.push(KnownMessage {
                uid: None,
                flags: None,
            })?;
        }
        Ok(())
    }

    fn take_items(
        &mut self,
        alloc: Global,
        number: u32,
        items: &FetchItems,
    ) -> Result<(), AllocError> {
        match self.messages.get_mut(place_of(number)) {
            Some(message) => message.take_items(alloc, items),
            None => {
                self.has_contradiction = true;
                Ok(())
            }
        }
    }

    fn read_notice(&mut self, notice: &Notice) {
        if let Notice::UidValidity { value } = notice {
            self.validity = Some(*value);
        }
    }

    /// Whether all that the client knows of messages agrees with another client, which knows
    /// everything.
    pub fn agrees_with_client(&self, other: &Client) -> bool {
        if self.has_contradiction || self.messages.len() != other.messages.len() {
            return false;
        }
        for (message, expected) in self.messages.iter().zip(&other.messages) {
            if !message.agrees_with(expected.uid, expected.flags.as_ref()) {
                return false;
            }
        }
        true
    }

    /// Whether all that the client knows of messages agrees with a session's view.
    pub fn agrees_with_view(&self, entries: &ViewEntries) -> bool {
        if self.has_contradiction || self.messages.len() != entries.len() {
            return false;
        }
        for (message, entry) in self.messages.iter().zip(entries.iter_from(0)) {
            if !message.agrees_with(Some(entry.uid), Some(&entry.flags)) {
                return false;
            }
        }
        true
    }
}

impl KnownMessage {
    fn take_items(&mut self, alloc: Global, items: &FetchItems) -> Result<(), AllocError> {
        if let Some(uid) = items.uid {
            self.uid = Some(uid);
        }
        if let Some(flags) = &items.flags {
            self.flags = Some(flags.copy(alloc)?);
        }
        Ok(())
    }

    /// Whether what is known of the message equals these values.
    fn agrees_with(&self, uid: Option<u32>, flags: Option<&Flags>) -> bool {
        let has_uid = self.uid.is_none() || self.uid == uid;
        has_uid && self.has_right_flags(flags)
    }

    fn has_right_flags(&self, flags: Option<&Flags>) -> bool {
        match (&self.flags, flags) {
            (None, _) => true,
            (Some(known), Some(expected)) => known.same(expected),
            (Some(_), None) => false,
        }
    }
}

/// The place of the message with this number, counted from 1; for 0, a place that no message has.
fn place_of(number: u32) -> usize {
    match number.checked_sub(1) {
        Some(place) => place as usize,
        None => usize::MAX,
    }
}

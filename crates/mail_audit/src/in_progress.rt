//! The commands of a session that are in progress.

ghost use Rattle.std.specs.Prelude.{◌≡◌, ◌+◌, ◌<◌, ◌^◌, false, ℕ, List, [], ◌∷◌, ◌++◌, OnErr, OnOk};
ghost use Rattle.std.specs.Prelude.{IfNone, if◌then◌else◌};
ghost use Rattle.std.specs.List.{list_any};
ghost use Rattle.std.specs.Option.{option_to_list};
ghost use Rattle.std.specs.Str.{bytes_eq};
ghost use Rattle.mail_audit.specs.NumberedCommands.{stored_for};
ghost use Rattle.mail_audit.specs.Transcripts.{without_ended};

use imap_types::Octets;
use indexmap::IndexMap;
use std::alloc::{AllocError, Global};
use std::collections::{BTreeMap, VecDeque};
use std::marker::Model;

/// A command in progress: its tag, whether EXPUNGE may be sent during it (RFC 9051, section 7.5.1),
/// and whether it is IDLE (RFC 2177).
#[derive(Drop)]
pub struct RunningCommand {
    pub tag: Octets,
    pub may_expunge: bool,
    pub idles: bool,
}

/// The commands in progress, in the order in which they began.
#[derive(Drop)]
pub struct InProgress {
    alloc: Global,
    /// The commands by number; numbers ascend in the order in which commands begin.
    commands: BTreeMap<u64, RunningCommand>,
    /// The number of the next command.
    next: u64,
    /// The numbers of the commands with each tag, in order.
    numbers: IndexMap<Vec<u8>, VecDeque<u64>>,
    /// The number of commands during which EXPUNGE may be sent.
    expunging: usize,
    /// The number of IDLE commands.
    idling: usize,
}

impl Model for InProgress {
    ghost use Rattle.std.specs.Prelude.{◌≡◌, ℕ, List};
    ghost use Rattle.std.specs.Map.{values_of};
    ghost use Rattle.mail_audit.specs.Counts.{count_of};
    ghost use Rattle.mail_audit.specs.NumberedCommands.{AreRising, stored_for, numbers_of};
    ghost use Rattle.mail_audit.specs.declared.in_progress.RunningCommand.{RunningCommand};

    ghost Value = { List RunningCommand };

    ghost view = { λ p. values_of p.commands.entries };

    ghost invariant = { λ p. (p.expunging
        ≡ count_of (λ c. c.may_expunge) (values_of p.commands.entries))
        × (p.idling ≡ count_of (λ c. c.idles) (values_of p.commands.entries))
        × AreRising 0 p.next p.commands.entries
        × ((tag : List ℕ) → numbers_of tag p.commands.entries ≡ stored_for tag p.numbers.entries) };
}

impl InProgress {
    /// No commands.
    pub fn new(alloc: Global) -> InProgress
        ensures { result ≡ [] }
    {
        InProgress {
            alloc,
            commands: BTreeMap::new(alloc),
            next: 0,
            numbers: IndexMap::new(alloc),
            expunging: 0,
            idling: 0,
        }
    }

    /// Whether EXPUNGE may be sent now.
    pub fn may_expunge(&self) -> bool
        ensures { result ≡ list_any (λ c. c.may_expunge) self.now }
    {
        0 < self.expunging
    }

    /// Whether the session idles.
    pub fn idles(&self) -> bool
        ensures { result ≡ list_any (λ c. c.idles) self.now }
    {
        0 < self.idling
    }

    /// Adds a command that begins; `Err` if memory runs out or `u64::MAX` commands began before.
    /// After an `Err` the audit ends.
    pub fn begin(&mut self, command: RunningCommand) -> Result<(), AllocError>
        ensures { OnOk result (self.new ≡ self.old ++ command ∷ []) }
    {
        let number = self.next;
        if number == u64::MAX {
            return Err(AllocError);
        }
        let tag = command.tag.as_bytes().to_vec(self.alloc)?;
        let may_expunge = command.may_expunge;
        let idles = command.idles;
        self.commands.insert(number, command)?;
        // A command that no tag leads to would never end.
        if let Err(refused) = add(&mut self.numbers, self.alloc, tag, number) {
            self.commands.remove(&number);
            return Err(refused);
        }
        self.next = number + 1;
        self.expunging += usize::from(may_expunge);
        self.idling += usize::from(idles);
        Ok(())
    }

    /// Removes the first command with this tag, if any.
    pub fn end(&mut self, tag: &[u8])
        ensures { self.new ≡ without_ended tag.now self.old }
    {
        let Some(number) = take_first(&mut self.numbers, tag) else {
            return;
        };
        if let Some(command) = self.commands.remove(&number) {
            self.expunging -= usize::from(command.may_expunge);
            self.idling -= usize::from(command.idles);
        }
    }
}

/// Adds a number to the end of a tag's list; `Err` if memory runs out, and then nothing changes.
fn add(
    numbers: &mut IndexMap<Vec<u8>, VecDeque<u64>>,
    alloc: Global,
    tag: Vec<u8>,
    number: u64,
) -> Result<(), AllocError>
    ensures ok { OnOk result ((other : List ℕ)
        → stored_for other numbers.new.entries
        ≡ stored_for other numbers.old.entries
        ++ (if bytes_eq other tag.items then number ∷ [] else [])) }
    ensures err { OnErr result ((other : List ℕ)
        → stored_for other numbers.new.entries ≡ stored_for other numbers.old.entries) }
{
    if let Some(stored) = numbers.get_mut(&tag) {
        stored.push_back(number)?;
        return Ok(());
    }
    let mut stored = VecDeque::new(alloc);
    stored.push_back(number)?;
    numbers.insert(tag, stored)?;
    Ok(())
}

/// Takes the first number out of a tag's list; `None` if it has none.
fn take_first(numbers: &mut IndexMap<Vec<u8>, VecDeque<u64>>, tag: &[u8]) -> Option<u64>
    ensures taken { stored_for tag.now numbers.old.entries
        ≡ option_to_list result ++ stored_for tag.now numbers.new.entries }
    ensures none { IfNone result (stored_for tag.now numbers.old.entries ≡ []) }
    ensures others { (other : List ℕ)
        → bytes_eq other tag.now ≡ false
        → stored_for other numbers.new.entries ≡ stored_for other numbers.old.entries }
{
    let stored = numbers.get_mut(tag)?;
    let number = stored.pop_front()?;
    if stored.is_empty() {
        numbers.swap_remove(tag);
    }
    Some(number)
}

//! One session's transcript.

ghost use Rattle.std.specs.Prelude.{◌≡◌, ◌≢◌, ◌↔◌, ℕ, List, [], ◌∷◌, ◌++◌, IfOk, IfSome, IsTrue};
ghost use Rattle.std.specs.Prelude.{OnOk, Some};
ghost use Rattle.imap_answers.specs.Printable.{IsPrintable};
ghost use Rattle.imap_answers.specs.AnswerText.{text_of_answer};
ghost use Rattle.imap_answers.specs.declared.answer.Answer.{Answer};
ghost use Rattle.imap_grammar.specs.declared.fault.ParseFault.TheVariants.{NoMemory as NoMemoryToParse};
ghost use Rattle.mail_audit.specs.KnownSessions.{TakesSent, DecidesSent, nothing_known};
ghost use Rattle.mail_audit.specs.SlotSteps.{EventFits, after_event};
ghost use Rattle.mail_audit.specs.Transcripts.{MayBeSent, event_by, event_of, idles, may_expunge};
ghost use Rattle.mail_audit.specs.Transcripts.{running_after, running_by};
ghost use Rattle.mail_script.specs.declared.transcript.Speaker.TheVariants.{Client as Asking};
ghost use Rattle.mail_script.specs.declared.transcript.Speaker.TheVariants.{Server as Answering};

use crate::event::SlotEvent;
use crate::in_progress::{InProgress, RunningCommand};
use crate::slots::Slots;
use imap_answers::Answer;
use imap_grammar::{Command, ParseFault, Tagged, parse};
use imap_print::read;
use mail_script::Speaker;
use std::alloc::{AllocError, Global};
use std::marker::Model;

/// The knowledge of a session from the octets sent in it.
#[derive(Drop)]
pub struct Transcript {
    running: InProgress,
    slots: Slots,
}

impl Model for Transcript {
    ghost use Rattle.mail_audit.specs.KnownSessions.{SessionKnowledge};

    ghost Value = { SessionKnowledge };

    ghost view = { λ t. record { running = t.running; known = t.slots } };
}

impl Transcript {
    /// A transcript in which nothing was sent.
    pub fn new(alloc: Global) -> Transcript
        ensures { result ≡ nothing_known }
    {
        Transcript {
            running: InProgress::new(alloc),
            slots: Slots::new(),
        }
    }

    /// Takes a frame or answer, CRLF included; `false` if it can't follow what was sent before.
    /// `Err` if memory runs out.
    pub fn accept(
        &mut self,
        alloc: Global,
        speaker: Speaker,
        octets: &[u8],
    ) -> Result<bool, AllocError>
        ensures { IfOk result (λ audited. DecidesSent self.old
            (record { speaker = speaker; octets = octets.now }) audited self.new) }
    {
        match speaker {
            Speaker::Client => {
                self.take_frame(alloc, octets)?;
                Ok(true)
            }
            Speaker::Server => self.answer(alloc, octets),
        }
    }

    /// Takes a client's frame.
    fn take_frame(&mut self, alloc: Global, frame: &[u8]) -> Result<(), AllocError>
        ensures { OnOk result
            (TakesSent self.old (record { speaker = Asking; octets = frame.now }) self.new) }
    {
        if self.running.idles() {
            return Ok(());
        }
        match parse(alloc, frame) {
            Ok(tagged) => self.begin(alloc, tagged),
            Err(fault) => pass_over(fault),
        }
    }

    /// Records that a command begins.
    fn begin(&mut self, alloc: Global, tagged: Tagged) -> Result<(), AllocError>
        ensures { OnOk result ((self.new.running ≡ self.old.running ++ running_by tagged ∷ [])
            × (self.new.known ≡ after_event self.old.known (event_by tagged.command))
            × EventFits self.old.known (event_by tagged.command)) }
    {
        let Tagged { tag, command } = tagged;
        let may_expunge = may_expunge(&command);
        let idles = is_idle(&command);
        let event = event_by(&command);
        drop(command);
        self.running.begin(RunningCommand {
            tag,
            may_expunge,
            idles,
        })?;
        let _noted = self.slots.note(alloc, event)?;
        Ok(())
    }

    /// Takes the octets that a server sent.
    fn answer(&mut self, alloc: Global, octets: &[u8]) -> Result<bool, AllocError>
        ensures { IfOk result (λ audited. DecidesSent self.old
            (record { speaker = Answering; octets = octets.now }) audited self.new) }
    {
        match whole_answer(alloc, octets)? {
            None => Ok(false),
            Some(answer) => {
                let taken = self.take(alloc, &answer);
                drop(answer);
                taken
            }
        }
    }

    /// Takes an answer.
    fn take(&mut self, alloc: Global, answer: &Answer) -> Result<bool, AllocError>
        ensures fits { IfOk result (λ taken. IsTrue taken
            ↔ (MayBeSent self.old.running answer.now
            × EventFits self.old.known (event_of answer.now))) }
        ensures taken { IfOk result (λ taken. IsTrue taken
            → (self.new.running ≡ running_after self.old.running answer.now)
            × (self.new.known ≡ after_event self.old.known (event_of answer.now))) }
    {
        if !may_be_sent(&self.running, answer) {
            return Ok(false);
        }
        if !self.slots.note(alloc, event_of(answer))? {
            return Ok(false);
        }
        self.end(answer);
        Ok(true)
    }

    /// Ends the command that a tagged answer completes.
    fn end(&mut self, answer: &Answer)
        ensures running { self.new.running ≡ running_after self.old.running answer.now }
        ensures known { self.new.known ≡ self.old.known }
    {
        match answer {
            Answer::Completed { tag, .. } => self.running.end(tag.as_bytes()),
            Answer::Refused { tag, .. } => self.running.end(tag.as_bytes()),
            _ => {}
        }
    }
}

/// Passes over a frame that spells no command; `Err` if memory ran out before this was known.
fn pass_over(fault: ParseFault) -> Result<(), AllocError>
    ensures { OnOk result (fault ≢ NoMemoryToParse) }
{
    match fault {
        ParseFault::NoMemory => Err(AllocError),
        _ => Ok(()),
    }
}

/// The answer whose text these octets are, if any; `Err` if memory runs out.
fn whole_answer(alloc: Global, octets: &[u8]) -> Result<Option<Answer>, AllocError>
    ensures parsed { IfOk result (λ parsed. IfSome parsed
        (λ answer. IsPrintable answer × (octets.now ≡ text_of_answer answer))) }
    ensures only { IfOk result (λ parsed. (answer : Answer) → IsPrintable answer
        → octets.now ≡ text_of_answer answer → parsed ≡ Some answer) }
{
    match read(alloc, octets)? {
        None => Ok(None),
        Some((answer, length)) => {
            if length == octets.len() {
                Ok(Some(answer))
            } else {
                drop(answer);
                Ok(None)
            }
        }
    }
}

/// Whether EXPUNGE may be sent while the command is in progress (RFC 9051, section 7.5.1).
fn may_expunge(command: &Command) -> bool
    ensures { result ≡ may_expunge command.now }
{
    match command {
        Command::Fetch(fetch) => fetch.by_uid,
        Command::Store(store) => store.by_uid,
        Command::Search(search) => search.by_uid,
        _ => true,
    }
}

/// Whether the session idles while the command is in progress (RFC 2177).
fn is_idle(command: &Command) -> bool
    ensures { result ≡ idles command.now }
{
    matches!(command, Command::Idle)
}

/// The event of a command's beginning.
fn event_by(command: &Command) -> SlotEvent
    ensures { result ≡ event_by command.now }
{
    match command {
        Command::Select { .. } => SlotEvent::Selects,
        Command::Examine { .. } => SlotEvent::Selects,
        _ => SlotEvent::Passes,
    }
}

/// Whether the answer may be sent while these commands are in progress.
fn may_be_sent(running: &InProgress, answer: &Answer) -> bool
    ensures { IsTrue result ↔ MayBeSent running.now answer.now }
{
    match answer {
        Answer::Expunge { .. } => running.may_expunge(),
        _ => true,
    }
}

/// The event of an answer.
fn event_of(answer: &Answer) -> SlotEvent
    ensures { result ≡ event_of answer.now }
{
    match answer {
        Answer::Exists { count } => SlotEvent::Exists(*count),
        Answer::Expunge { number } => SlotEvent::Expunge(*number),
        Answer::Fetch { number, items } => match items.uid {
            None => SlotEvent::Names(*number),
            Some(uid) => SlotEvent::ReportsUid(*number, uid),
        },
        _ => SlotEvent::Passes,
    }
}

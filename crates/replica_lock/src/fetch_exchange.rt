//! Commands whose reply is only FETCH answers in compact form.

ghost use Rattle.std.specs.Prelude.{◌≡◌, ◌↔◌, [], None, IfErr, IfOk, IfSome, IsTrue};
ghost use Rattle.imap_answers.specs.declared.answer.Answer.TheVariants.{Completed};
ghost use Rattle.replica_lock.specs.FetchAnswers.{fetch_exchange_answers, fetch_exchange_entry};
ghost use Rattle.replica_lock.specs.FetchAnswers.{fetch_exchange_reply};
ghost use Rattle.replica_lock.specs.declared.event.BookEvent.TheVariants.{Command};
ghost use Rattle.replica_lock.specs.declared.outcome.Outcome.TheVariants.{Replied};

use crate::fetch_answers::FetchAnswers;
use crate::outcome::Outcome;
use imap_answers::{Answer, CompletedWord};
use imap_node::{Reply, SessionNo};
use imap_syntax::Tagged;
use imap_types::{Moment, Octets};
use std::alloc::{AllocFailed, Global};

/// A command whose reply is only FETCH answers in compact form and its tagged OK. It set no flags
/// silently, and issued nothing.
pub struct FetchExchange {
    /// The session.
    pub session: SessionNo,
    /// The time of its arrival.
    pub moment: Moment,
    /// The command, with its tag.
    pub tagged: Tagged,
    /// The word that its tagged OK names.
    pub word: CompletedWord,
    /// The FETCH answers before it.
    pub shown: FetchAnswers,
}

// By hand, so that its owner drops it whole.
impl Drop for FetchExchange {
    fn drop(self) {
        let Self {
            session: _,
            moment: _,
            tagged: _,
            word: _,
            shown: _,
        } = self;
    }
}

impl FetchExchange {
    /// A command with this reply. `Err`, with the command, if the reply has anything else, or if
    /// memory runs out.
    pub(crate) fn from_reply(
        alloc: Global,
        session: SessionNo,
        moment: Moment,
        tagged: Tagged,
        reply: &Reply,
    ) -> Result<Box<FetchExchange>, Tagged>
        ensures completed { IfOk result (λ completed. fetch_exchange_entry completed.value
            ≡ record { event = Command session moment tagged; outcome = Replied reply.now }) }
        ensures back { IfErr result (λ back. back ≡ tagged) }
    {
        let Some(compact) = fetch_reply_of(alloc, &tagged.tag, reply) else {
            return Err(tagged);
        };
        let FetchReply { word, shown } = compact;
        let completed = FetchExchange {
            session,
            moment,
            tagged,
            word,
            shown,
        };
        match Box::new(alloc, completed) {
            Ok(completed) => Ok(completed),
            Err(failed) => Err(unbox_command(failed)),
        }
    }

    /// The command, by value.
    fn into_tagged(self) -> Tagged
        ensures { result ≡ self.tagged }
    {
        let Self {
            session: _,
            moment: _,
            tagged,
            word: _,
            shown: _,
        } = self;
        tagged
    }

    /// Whether this is the outcome of the command.
    pub(crate) fn has_outcome(&self, outcome: &Outcome) -> bool
        ensures { IsTrue result
            ↔ (Replied (fetch_exchange_reply self.now.tagged.tag self.now.word self.now.shown)
            ≡ outcome.now) }
    {
        match outcome {
            Outcome::Replied { reply } => self.has_reply(reply),
            _ => false,
        }
    }

    /// Whether this is the reply to the command.
    fn has_reply(&self, reply: &Reply) -> bool
        ensures { IsTrue result
            ↔ (fetch_exchange_reply self.now.tagged.tag self.now.word self.now.shown ≡ reply.now) }
    {
        match reply {
            Reply::Done {
                answers,
                silent,
                issued,
            } => {
                self.has_answers(answers.as_slice())
                    && silent.as_slice().is_empty()
                    && issued.as_slice().is_empty()
            }
            Reply::Refused { .. } => false,
        }
    }

    /// Whether these are the answers to the command.
    fn has_answers(&self, answers: &[Answer]) -> bool
        ensures { IsTrue result
            ↔ (fetch_exchange_answers self.now.tagged.tag self.now.word self.now.shown
            ≡ answers.now) }
    {
        match answers.split_last() {
            Some((end, others)) => {
                completes(end, &self.tagged.tag, self.word) && self.shown.are_answers(others)
            }
            None => false,
        }
    }
}

/// Takes the command out of a box for which memory ran out.
fn unbox_command(failed: AllocFailed<FetchExchange>) -> Tagged
    ensures { result ≡ failed.value.tagged }
{
    let AllocFailed { value } = failed;
    value.into_tagged()
}

/// The compact form of a command's reply.
struct FetchReply {
    word: CompletedWord,
    shown: FetchAnswers,
}

/// The compact form of a reply to the command with this tag; `None` if it has none, or if memory
/// runs out.
fn fetch_reply_of(alloc: Global, tag: &Octets, reply: &Reply) -> Option<FetchReply>
    ensures { IfSome result
        (λ compact. fetch_exchange_reply tag.now compact.word compact.shown ≡ reply.now) }
{
    match reply {
        Reply::Done {
            answers,
            silent,
            issued,
        } => {
            if !silent.as_slice().is_empty() || !issued.as_slice().is_empty() {
                return None;
            }
            reply_of_answers(alloc, tag, answers.as_slice())
        }
        Reply::Refused { .. } => None,
    }
}

/// The compact form of these answers to the command with this tag; `None` if they have none, or if
/// memory runs out.
fn reply_of_answers(alloc: Global, tag: &Octets, answers: &[Answer]) -> Option<FetchReply>
    ensures { IfSome result
        (λ compact. fetch_exchange_answers tag.now compact.word compact.shown ≡ answers.now) }
{
    let (end, others) = answers.split_last()?;
    let word = word_of(end, tag)?;
    let shown = FetchAnswers::from_answers(alloc, others)?;
    Some(FetchReply { word, shown })
}

/// The word that an answer names if it is the tagged OK, without a code, of the command with this
/// tag.
fn word_of(answer: &Answer, tag: &Octets) -> Option<CompletedWord>
    ensures { IfSome result (λ word. Completed tag.now None word ≡ answer.now) }
{
    let Answer::Completed { command, .. } = answer else {
        return None;
    };
    if completes(answer, tag, *command) {
        Some(*command)
    } else {
        None
    }
}

/// Whether an answer is the tagged OK, without a code, of the command with this tag and word.
pub fn completes(answer: &Answer, tag: &Octets, word: CompletedWord) -> bool
    ensures { IsTrue result ↔ (Completed tag.now None word ≡ answer.now) }
{
    match answer {
        Answer::Completed {
            tag: completed,
            code: None,
            command,
        } => completed.as_bytes() == tag.as_bytes() && *command == word,
        _ => false,
    }
}

//! Replies as a client is shown them, buffered until they are written.

ghost use Rattle.std.specs.Prelude.{◌≡◌, ◌++◌, ◌<◌, ◌+◌, ℕ, List, OnOk, OnErr, IfErr, true, false};
ghost use Rattle.imap_connection.specs.declared.end_reason.Ended.TheVariants.{Logout};
ghost use Rattle.imap_answers.specs.declared.answer.Answer.{Answer};
ghost use Rattle.imap_connection.specs.Devices.{IsOutput};
ghost use Rattle.imap_connection.specs.EndReasons.{IsLastOutput, failed_reads, failed_writes};
ghost use Rattle.imap_connection.specs.EndReasons.{write_failures};
ghost use Rattle.rev1_front.specs.Showing.{IsFrontOf};
ghost use Rattle.rev1_connection.specs.Handling.{IsBreak};
ghost use Rattle.rev1_connection.specs.ShownReplies.{AreShownIn, is_lsub, shows_whole};
ghost use Rattle.rev1_connection.specs.TakingSteps.{EndsAtReply, IsShownOf};

use crate::manner::Manner;
use crate::shown_answers::{show_answer, show_refusal};
use imap_answers::Answer;
use imap_connection::{Ended, Sink, write_if_full};
use imap_node::Reply;
use imap_types::Octets;
use rev1_front::{Form, Mode, show};
use std::alloc::{AllocError, Global};

/// A reply that isn't shown yet.
#[derive(Drop)]
pub struct UnshownReply {
    /// The tag of the command or the IDLE.
    pub tag: Octets,
    pub reply: Reply,
    /// The mode in which the command was given.
    pub mode: Mode,
    pub manner: Manner,
    /// Whether the session has logged out.
    pub leaves: bool,
}

/// Adds what is shown of a reply, and writes the buffered text each time that it is full.
/// `WriteFailed` if the device failed. `NoMemory` if memory ran out for an answer; then those
/// before it were added. `Logout` after a LOGOUT that was answered OK.
pub fn write_reply<K: Sink>(
    alloc: Global,
    sink: &mut K,
    text: &mut Vec<u8>,
    unshown: UnshownReply,
) -> Result<(), Ended>
    requires { K.failures sink.old < 18446744073709551615 }
    ensures ok { OnOk result ((given : List ℕ) × IsShownOf true unshown given
        × (unshown.leaves ≡ false)
        × IsOutput (K.taken sink.old) text.old.items given (K.taken sink.new) text.new.items) }
    ensures err { IfErr result (λ ended. (given : List ℕ) × EndsAtReply ended unshown given
        × IsLastOutput ended (K.taken sink.old) text.old.items given (K.taken sink.new)
        text.new.items) }
    ensures devices { IfErr result (λ ended. failed_reads ended ≡ 0) }
    ensures failures { K.failures sink.new ≡ K.failures sink.old + write_failures result }
{
    let written = write_unshown(alloc, sink, text, &unshown);
    let leaves = unshown.leaves;
    drop(unshown);
    match written {
        Ok(()) => end_of(leaves),
        Err(ended) => Err(ended),
    }
}

/// Adds what is shown of a reply, as `write_reply` does.
fn write_unshown<K: Sink>(
    alloc: Global,
    sink: &mut K,
    text: &mut Vec<u8>,
    unshown: &UnshownReply,
) -> Result<(), Ended>
    requires { K.failures sink.old < 18446744073709551615 }
    ensures ok { OnOk result ((given : List ℕ) × IsShownOf true unshown.now given
        × IsOutput (K.taken sink.old) text.old.items given (K.taken sink.new) text.new.items) }
    ensures err { IfErr result (λ ended. (given : List ℕ) × IsBreak ended
        × IsShownOf false unshown.now given
        × IsLastOutput ended (K.taken sink.old) text.old.items given (K.taken sink.new)
        text.new.items) }
    ensures devices { IfErr result (λ ended. failed_reads ended ≡ 0) }
    ensures failures { K.failures sink.new ≡ K.failures sink.old + write_failures result }
{
    match &unshown.reply {
        Reply::Done { answers, .. } => {
            let answers = answers.as_slice();
            write_answers(alloc, sink, text, unshown.mode, &unshown.manner, answers)
        }
        Reply::Refused { why, closed } => {
            match show_refusal(alloc, &unshown.manner, &unshown.tag, *why, *closed, text) {
                Ok(()) => Ok(()),
                Err(_) => Err(Ended::NoMemory),
            }
        }
    }
}

/// The end after a LOGOUT that was answered OK.
fn end_of(leaves: bool) -> Result<(), Ended>
    ensures ok { OnOk result (leaves ≡ false) }
    ensures err { IfErr result (λ ended. (ended ≡ Logout) × (leaves ≡ true)) }
    ensures devices { IfErr result (λ ended. (failed_reads ended ≡ 0) × (failed_writes ended ≡ 0)) }
{
    if leaves { Err(Ended::Logout) } else { Ok(()) }
}

/// Adds answers as they are shown in a manner, as `write_reply` does.
fn write_answers<K: Sink>(
    alloc: Global,
    sink: &mut K,
    text: &mut Vec<u8>,
    mode: Mode,
    manner: &Manner,
    answers: &[Answer],
) -> Result<(), Ended>
    requires { K.failures sink.old < 18446744073709551615 }
    ensures ok { OnOk result ((given : List ℕ)
        × AreShownIn mode manner.now answers.now answers.now given
        × IsOutput (K.taken sink.old) text.old.items given (K.taken sink.new) text.new.items) }
    ensures err { IfErr result (λ ended. (front : List Answer) × (given : List ℕ)
        × IsBreak ended
        × IsFrontOf front answers.now
        × AreShownIn mode manner.now answers.now front given
        × IsLastOutput ended (K.taken sink.old) text.old.items given (K.taken sink.new)
        text.new.items) }
    ensures devices { IfErr result (λ ended. failed_reads ended ≡ 0) }
    ensures failures { K.failures sink.new ≡ K.failures sink.old + write_failures result }
{
    if shows_whole(manner) {
        match show_whole(alloc, mode, manner, answers, text) {
            Ok(()) => Ok(()),
            Err(_) => Err(Ended::NoMemory),
        }
    } else {
        write_each(alloc, sink, text, mode, manner, answers)
    }
}

/// Adds answers that are shown together.
fn show_whole(
    alloc: Global,
    mode: Mode,
    manner: &Manner,
    answers: &[Answer],
    text: &mut Vec<u8>,
) -> Result<(), AllocError>
    requires { shows_whole manner.now ≡ true }
    ensures ok { OnOk result ((given : List ℕ)
        × AreShownIn mode manner.now answers.now answers.now given
        × (text.new.items ≡ text.old.items ++ given)) }
    ensures err { OnErr result ((front : List Answer) × (given : List ℕ)
        × IsFrontOf front answers.now
        × AreShownIn mode manner.now answers.now front given
        × (text.new.items ≡ text.old.items ++ given)) }
{
    match manner {
        Manner::Form(form) => show(alloc, mode, form, answers, text),
        _ => Ok(()),
    }
}

/// Adds answers that are shown one by one, and writes the buffered text each time that it is full.
fn write_each<K: Sink>(
    alloc: Global,
    sink: &mut K,
    text: &mut Vec<u8>,
    mode: Mode,
    manner: &Manner,
    answers: &[Answer],
) -> Result<(), Ended>
    requires each { shows_whole manner.now ≡ false }
    requires sink { K.failures sink.old < 18446744073709551615 }
    ensures ok { OnOk result ((given : List ℕ)
        × AreShownIn mode manner.now answers.now answers.now given
        × IsOutput (K.taken sink.old) text.old.items given (K.taken sink.new) text.new.items) }
    ensures err { IfErr result (λ ended. (front : List Answer) × (given : List ℕ)
        × IsBreak ended
        × IsFrontOf front answers.now
        × AreShownIn mode manner.now answers.now front given
        × IsLastOutput ended (K.taken sink.old) text.old.items given (K.taken sink.new)
        text.new.items) }
    ensures devices { IfErr result (λ ended. failed_reads ended ≡ 0) }
    ensures failures { K.failures sink.new ≡ K.failures sink.old + write_failures result }
{
    for answer in answers {
        match show_answer(alloc, mode, manner, answer, text) {
            Ok(()) => {}
            Err(_) => return Err(Ended::NoMemory),
        }
        if !write_if_full(sink, text) {
            return Err(Ended::WriteFailed);
        }
    }
    Ok(())
}

/// Whether answers are shown together in this manner.
fn shows_whole(manner: &Manner) -> bool
    ensures { result ≡ shows_whole manner.now }
{
    match manner {
        Manner::Form(form) => is_lsub(form),
        _ => false,
    }
}

fn is_lsub(form: &Form) -> bool
    ensures { result ≡ is_lsub form.now }
{
    matches!(form, Form::Lsub { .. })
}

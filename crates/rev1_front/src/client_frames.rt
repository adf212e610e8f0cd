//! What a frame is to a session.

ghost use Rattle.std.specs.Option.{option_copied};
ghost use Rattle.std.specs.Prelude.{◌≡◌, Some, IfOk, MatchOption, List, ℕ, codes};
ghost use Rattle.imap_syntax.specs.Commands.{IsSpelled};
ghost use Rattle.imap_syntax.specs.Languages.{word};
ghost use Rattle.imap_syntax.specs.Strings.{run};
ghost use Rattle.imap_syntax.specs.declared.command.Tagged.{Tagged};
ghost use Rattle.imap_syntax.specs.declared.octet_class.OctetClass.TheVariants.{Tag};
ghost use Rattle.rev1_front.specs.ClientFrames.{IsCarried, IsCheck, IsCommandFrame, IsFaultAnswer};
ghost use Rattle.rev1_front.specs.ClientFrames.{IsFaultOf, IsFrontForm, IsOfFront, IsStatus};
ghost use Rattle.rev1_front.specs.ClientFrames.{IsTaken, IsWorded, refusal_of_fault};
ghost use Rattle.rev1_front.specs.FrameForms.{reworded};
ghost use Rattle.rev1_front.specs.declared.form.Form.TheVariants.{Status as StatusForm};
ghost use Rattle.rev1_front.specs.declared.frame_parts.FrontWord.{FrontWord as WordOfFront};
ghost use Rattle.rev1_front.specs.declared.taken.Taken.{Taken};
ghost use Rattle.rev1_front.specs.declared.taken.Taken.TheVariants.{Answer as AnswerAtOnce};
ghost use Rattle.rev1_front.specs.declared.taken.Taken.TheVariants.{Identity};
ghost use Rattle.imap_answers.specs.declared.answer.Answer.{Answer as AnswerOf};
ghost use Rattle.imap_grammar.specs.declared.fault.ParseFault.TheVariants.{NoMemory};

use crate::authentication::{take_authenticate, take_response};
use crate::form::{Form, form_of};
use crate::frame_parts::{FrameParts, FrontWord, atom_span, find_word, parse_parts, split_tag};
use crate::inner_names::decode_names;
use crate::name_commands::{take_lsub, take_rename};
use crate::search_commands::{take_search, take_uid};
use crate::search_days::SentDay;
use crate::session::{Awaited, Mode};
use crate::status_frame::{OtherItems, without_recent};
use crate::taken::{Taken, name_refused};
use imap_answers::{Answer, Refusal};
use imap_grammar::{ParseFault, idle_line, parse, tag_of};
use imap_syntax::Tagged;
use imap_types::Octets;
use std::alloc::{AllocError, Global};

/// What a frame is to a session in this mode that awaits this. `Err` if memory runs out.
pub fn take(alloc: Global, mode: Mode, awaited: &Awaited, frame: &[u8]) -> Result<Taken, AllocError>
    ensures { IfOk result (λ it. IsTaken mode awaited.now frame.now it) }
{
    match awaited {
        Awaited::Command => take_command(alloc, mode, None, frame),
        Awaited::Line { tag } => Ok(Taken::Line {
            tag: tag.copy(alloc)?,
            line: idle_line(frame),
        }),
        Awaited::Response { tag } => take_response(alloc, tag, frame),
    }
}

/// What a frame is that asks for days on which messages were sent, once these are known. `Err` if
/// memory runs out.
pub fn take_with_days(
    alloc: Global,
    mode: Mode,
    days: &[SentDay],
    frame: &[u8],
) -> Result<Taken, AllocError>
    ensures { IfOk result (λ it. IsCommandFrame mode (Some days.now) frame.now it) }
{
    take_command(alloc, mode, Some(days), frame)
}

/// What a frame is to a session that awaits a command.
fn take_command(
    alloc: Global,
    mode: Mode,
    days: Option<&[SentDay]>,
    frame: &[u8],
) -> Result<Taken, AllocError>
    ensures { IfOk result (λ it. IsCommandFrame mode (option_copied days.entry) frame.now it) }
{
    match parse(alloc, frame) {
        Ok(tagged) => {
            let form = form_of(mode, &tagged.command, frame);
            take_tagged(alloc, mode, tagged, form)
        }
        Err(why) => take_unspelled(alloc, mode, days, frame, why),
    }
}

/// What a frame is that spells no command of the profile.
fn take_unspelled(
    alloc: Global,
    mode: Mode,
    days: Option<&[SentDay]>,
    frame: &[u8],
    why: ParseFault,
) -> Result<Taken, AllocError>
    requires { IsFaultOf frame.now why }
    ensures { IfOk result (λ it. IsCommandFrame mode (option_copied days.entry) frame.now it) }
{
    match why {
        ParseFault::NoMemory => take_fault(alloc, frame, why),
        _ => take_other(alloc, mode, days, frame, why),
    }
}

/// What a frame is that spells no command of the profile, though memory didn't run out: a form that
/// IMAP4rev1 has beside it, or no command.
fn take_other(
    alloc: Global,
    mode: Mode,
    days: Option<&[SentDay]>,
    frame: &[u8],
    why: ParseFault,
) -> Result<Taken, AllocError>
    requires fault { IsFaultOf frame.now why }
    requires memory { why ≡ NoMemory → ⊥ }
    ensures { IfOk result (λ it. IsCommandFrame mode (option_copied days.entry) frame.now it) }
{
    match take_front(alloc, mode, days, frame)? {
        None => take_fault(alloc, frame, why),
        Some(taken) => Ok(taken),
    }
}

/// The refusal of a frame with this fault.
fn take_fault(alloc: Global, frame: &[u8], why: ParseFault) -> Result<Taken, AllocError>
    ensures { IfOk result (λ it. (answer : AnswerOf) × IsFaultAnswer frame.now why answer
        × (it ≡ AnswerAtOnce answer)) }
{
    Ok(Taken::Answer(fault_answer(alloc, frame, why)?))
}

/// A command of the profile whose names are as a client in this mode writes them.
fn take_tagged(alloc: Global, mode: Mode, tagged: Tagged, form: Form) -> Result<Taken, AllocError>
    ensures { IfOk result (λ it. IsCarried mode tagged form it) }
{
    let Tagged { tag, mut command } = tagged;
    match mode {
        Mode::Rev2 => Ok(Taken::Command {
            tagged: Tagged { tag, command },
            form,
        }),
        Mode::Rev1 => {
            if !decode_names(alloc, &mut command)? {
                return Ok(name_refused(tag));
            }
            Ok(Taken::Command {
                tagged: Tagged { tag, command },
                form,
            })
        }
    }
}

/// A form that IMAP4rev1 has beside the profile; `None` if the frame is none of them.
fn take_front(
    alloc: Global,
    mode: Mode,
    days: Option<&[SentDay]>,
    frame: &[u8],
) -> Result<Option<Taken>, AllocError>
    ensures { IfOk result (λ it. MatchOption it
        ((other : Taken) → IsFrontForm mode (option_copied days.entry) frame.now other → ⊥)
        (λ front. IsFrontForm mode (option_copied days.entry) frame.now front)) }
{
    match front_parts(frame) {
        None => Ok(None),
        Some((word, tag, rest)) => {
            take_worded(alloc, mode, days, word, FrameParts { frame, tag, rest })
        }
    }
}

/// A frame's tag, its word, if it is one that the front reads, and the rest.
fn front_parts(frame: &[u8]) -> Option<(FrontWord, &[u8], &[u8])>
    ensures { MatchOption result
        ((word : WordOfFront) (tag rest : List ℕ) → IsWorded word frame.now tag rest → ⊥)
        (λ x. IsWorded x.0 frame.now x.1.now x.2.now) }
{
    match split_tag(frame) {
        None => None,
        Some((tag, rest)) => {
            let (letters, rest) = atom_span(rest);
            match find_word(letters) {
                None => None,
                Some(word) => Some((word, tag, rest)),
            }
        }
    }
}

/// A frame with one of the words that the front reads; `None` if it is no form of IMAP4rev1.
fn take_worded(
    alloc: Global,
    mode: Mode,
    days: Option<&[SentDay]>,
    word: FrontWord,
    parts: FrameParts<'_>,
) -> Result<Option<Taken>, AllocError>
    requires { run Tag parts.tag.now parts.tag.now }
    ensures { IfOk result (λ it. MatchOption it
        ((other : Taken) → IsOfFront mode (option_copied days.entry) parts.entry.frame.now word
        parts.entry.tag.now parts.entry.rest.now other → ⊥)
        (λ taken. IsOfFront mode (option_copied days.entry) parts.entry.frame.now word
        parts.entry.tag.now parts.entry.rest.now taken)) }
{
    match word {
        FrontWord::Check => take_check(alloc, parts.tag, parts.rest),
        FrontWord::Id => take_identity(alloc, parts.tag),
        FrontWord::Authenticate => take_authenticate(alloc, parts.tag, parts.rest),
        FrontWord::Lsub => take_lsub(alloc, mode, parts.tag, parts.rest),
        FrontWord::Rename => take_rename(alloc, mode, parts.tag, parts.rest),
        FrontWord::Status => take_status(alloc, mode, parts.tag, parts.rest),
        FrontWord::Search => take_search(alloc, mode, days, false, parts),
        FrontWord::Uid => take_uid(alloc, mode, days, parts),
    }
}

/// CHECK: NOOP.
fn take_check(alloc: Global, tag: &[u8], rest: &[u8]) -> Result<Option<Taken>, AllocError>
    ensures { IfOk result (λ it. MatchOption it
        ((other : Taken) → IsCheck tag.now rest.now other → ⊥)
        (λ check. IsCheck tag.now rest.now check)) }
{
    match parse_parts(alloc, tag, b"NOOP", rest)? {
        None => Ok(None),
        Some(tagged) => Ok(Some(Taken::Command {
            tagged,
            form: Form::Check,
        })),
    }
}

/// ID.
fn take_identity(alloc: Global, tag: &[u8]) -> Result<Option<Taken>, AllocError>
    ensures { IfOk result (λ it. MatchOption it
        ((other : Taken) → other ≡ Identity tag.now → ⊥)
        (λ taken. taken ≡ Identity tag.now)) }
{
    Ok(Some(Taken::Identity {
        tag: Octets::from_slice(alloc, tag)?,
    }))
}

/// STATUS with RECENT.
fn take_status(
    alloc: Global,
    mode: Mode,
    tag: &[u8],
    rest: &[u8],
) -> Result<Option<Taken>, AllocError>
    ensures { IfOk result (λ it. MatchOption it
        ((other : Taken) → IsStatus mode tag.now rest.now other → ⊥)
        (λ taken. IsStatus mode tag.now rest.now taken)) }
{
    match without_recent(alloc, rest)? {
        None => Ok(None),
        Some(others) => take_others(alloc, mode, tag, &others),
    }
}

/// STATUS with these other items.
fn take_others(
    alloc: Global,
    mode: Mode,
    tag: &[u8],
    others: &OtherItems,
) -> Result<Option<Taken>, AllocError>
    ensures { IfOk result (λ it. MatchOption it
        ((other : Tagged)
        → IsSpelled other (reworded tag.now (codes "STATUS") others.now.rest.items) → ⊥)
        (λ taken. (tagged : Tagged)
        × IsSpelled tagged (reworded tag.now (codes "STATUS") others.now.rest.items)
        × IsCarried mode tagged (StatusForm others.now.only_recent) taken)) }
{
    let form = Form::Status {
        only_recent: others.only_recent,
    };
    match parse_parts(alloc, tag, b"STATUS", &others.rest)? {
        None => Ok(None),
        Some(tagged) => Ok(Some(take_tagged(alloc, mode, tagged, form)?)),
    }
}

/// The answer to a frame with this fault; `Err` if memory runs out.
fn fault_answer(alloc: Global, octets: &[u8], why: ParseFault) -> Result<Answer, AllocError>
    ensures { IfOk result (λ answer. IsFaultAnswer octets.now why answer) }
{
    match tag_of(octets) {
        None => Ok(Answer::NoTag),
        Some(tag) => Ok(Answer::Refused {
            tag: Octets::from_slice(alloc, tag)?,
            reason: refusal_of_fault(why),
        }),
    }
}

/// The reason to refuse a frame with this fault.
fn refusal_of_fault(why: ParseFault) -> Refusal
    ensures { result ≡ refusal_of_fault why }
{
    match why {
        ParseFault::UnknownCommand => Refusal::UnknownCommand,
        ParseFault::NotInProfile => Refusal::NotInProfile,
        ParseFault::NoMemory => Refusal::NoMemory,
        ParseFault::NoTag | ParseFault::BadSyntax => Refusal::BadSyntax,
    }
}

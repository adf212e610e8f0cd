//! FETCH with items that the profile hasn't.

ghost use Rattle.std.specs.Prelude.{◌≡◌, IfOk};
ghost use Rattle.std.specs.Option.{option_map};
ghost use Rattle.rev1_connection.specs.FrontRequests.{IsFetchAfter, IsFetchBy, IsPlannedFetch};
ghost use Rattle.rev1_connection.specs.FrontRequests.{IsUntakenRequest, cut_fetch};
ghost use Rattle.imap_grammar.specs.declared.fault.ParseFault.TheVariants.{NoMemory};
ghost use Rattle.mail_text.specs.TextSearch.{is_prefix};
ghost use Rattle.rev1_front.specs.declared.taken.Taken.TheVariants.{Answer as AnswerAtOnce};
ghost use Rattle.rev1_connection.specs.declared.request.FrontRequest.TheVariants as requests;

use crate::manner::Manner;
use crate::request::FrontRequest;
use imap_answers::Answer;
use imap_grammar::{ParseFault, parse, tag_of};
use imap_types::Octets;
use rev1_fetch::{FetchPlan, FetchRequest, plan_fetch};
use rev1_front::{FrontRefusal, Taken};
use std::alloc::{AllocError, Global};

/// What a frame is that is no command of the profile and no form that the front knows: a FETCH with
/// further items; or this is answered. `Err` if memory runs out.
pub fn untaken_request(
    alloc: Global,
    frame: &[u8],
    answer: Answer,
) -> Result<FrontRequest, AllocError>
    ensures { IfOk result (IsUntakenRequest frame.now answer) }
{
    match tag_of(frame) {
        None => Ok(FrontRequest::Immediate(Taken::Answer(answer))),
        Some(tag) => fetch_after(alloc, tag, &frame[tag.len()..], answer),
    }
}

/// What a frame with this tag is, by what follows the tag.
fn fetch_after(
    alloc: Global,
    tag: &[u8],
    after: &[u8],
    answer: Answer,
) -> Result<FrontRequest, AllocError>
    ensures { IfOk result (IsFetchAfter tag.now (cut_fetch after.now) answer) }
{
    match cut_fetch(after) {
        None => Ok(FrontRequest::Immediate(Taken::Answer(answer))),
        Some((word, rest)) => match plan_fetch(alloc, rest)? {
            None => Ok(FrontRequest::Immediate(Taken::Answer(answer))),
            Some(asked) => fetch_by(alloc, tag, word, asked, answer),
        },
    }
}

/// What a FETCH with this tag is, by what it asks for.
fn fetch_by(
    alloc: Global,
    tag: &[u8],
    word: &[u8],
    asked: FetchRequest,
    answer: Answer,
) -> Result<FrontRequest, AllocError>
    ensures { IfOk result (IsFetchBy tag.now word.now (Some asked) answer) }
{
    match asked {
        FetchRequest::PartZero => Ok(FrontRequest::Immediate(Taken::Refused {
            tag: Octets::from_slice(alloc, tag)?,
            reason: FrontRefusal::BadSyntax,
        })),
        FetchRequest::Planned { rest, plan } => {
            let mut inner = tag.to_vec(alloc)?;
            inner.extend_from_slice(word)?;
            inner.extend_from_slice(&rest)?;
            planned_fetch(alloc, &inner, plan, answer)
        }
    }
}

/// What a FETCH with a plan is, if these octets are its command of the profile.
fn planned_fetch(
    alloc: Global,
    inner: &[u8],
    plan: FetchPlan,
    answer: Answer,
) -> Result<FrontRequest, AllocError>
    ensures { IfOk result (IsPlannedFetch inner.now plan answer) }
{
    match parse(alloc, inner) {
        Ok(tagged) => Ok(FrontRequest::Command {
            tagged,
            manner: Manner::Plan(plan),
        }),
        Err(why) => {
            drop(plan);
            refused_fetch(why, answer)
        }
    }
}

/// What a FETCH with a plan is whose command isn't read, for this reason. `Err` if memory ran out.
fn refused_fetch(why: ParseFault, answer: Answer) -> Result<FrontRequest, AllocError>
    ensures { IfOk result (λ request. (request ≡ requests.Immediate (AnswerAtOnce answer))
        × (why ≡ NoMemory → ⊥)) }
{
    match why {
        ParseFault::NoMemory => {
            drop(answer);
            Err(AllocError)
        }
        _ => Ok(FrontRequest::Immediate(Taken::Answer(answer))),
    }
}

/// The word FETCH or UID FETCH at the beginning of octets after a tag, and what follows it.
fn cut_fetch(octets: &[u8]) -> Option<(&'static [u8], &[u8])>
    ensures { option_map (λ x. (x.0.now, x.1.now)) result ≡ cut_fetch octets.now }
{
    if has_prefix(octets, b" FETCH") {
        return Some((b" FETCH", &octets[6.min(octets.len())..]));
    }
    if has_prefix(octets, b" UID FETCH") {
        return Some((b" UID FETCH", &octets[10.min(octets.len())..]));
    }
    None
}

/// Whether octets begin with this word, in any letter case.
fn has_prefix(octets: &[u8], word: &[u8]) -> bool
    ensures { result ≡ is_prefix word.now octets.now }
{
    octets[..word.len().min(octets.len())].eq_ignore_ascii_case(word)
}

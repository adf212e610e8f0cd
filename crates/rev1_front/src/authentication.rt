//! AUTHENTICATE PLAIN (RFC 3501, section 6.2.2; RFC 4616; RFC 4959).

ghost use Rattle.std.specs.Prelude.{◌≡◌, ◌++◌, ◌∷◌, List, ℕ, IfOk, MatchOption, codes};
ghost use Rattle.imap_query.specs.Patterns.{IsIn};
ghost use Rattle.imap_syntax.specs.Languages.{◌⌢◌, sp, word};
ghost use Rattle.rev1_front.specs.ClientFrames.{IsAuthenticate, IsOfResponse, IsPlainTaken};
ghost use Rattle.rev1_front.specs.ClientFrames.{answer_to_response};
ghost use Rattle.rev1_front.specs.declared.authentication.PlainResponse.{PlainResponse};
ghost use Rattle.rev1_front.specs.declared.taken.Taken.{Taken};
ghost use Rattle.rev1_front.specs.declared.taken.Taken.TheVariants.{Challenge};
ghost use Rattle.rev1_front.specs.Plain.{IsPlainResponse, IsResponse, IsResponseLine};

use crate::fixed_texts::FrontRefusal;
use crate::form::Form;
use crate::frame_parts::{after_prefix, after_start, before_suffix, is_same};
use crate::taken::Taken;
use base64::DecodeAllocError;
use base64::engine::general_purpose::STANDARD;
use imap_syntax::{Command, Tagged};
use imap_types::Octets;
use std::alloc::{AllocError, Global};

/// What a response to PLAIN says.
#[derive(Drop)]
pub enum PlainResponse {
    /// This user logs in with this password.
    Login { user: Octets, password: Octets },
    /// The user asks to act as another.
    OtherUser,
    /// No base64 of three fields, of which the user and the password aren't empty.
    Malformed,
}

/// AUTHENTICATE with these arguments, after the word: a space, PLAIN, maybe a space and a response,
/// CRLF. `None` if the mechanism isn't PLAIN. `Err` if memory runs out.
pub fn take_authenticate(
    alloc: Global,
    tag: &[u8],
    rest: &[u8],
) -> Result<Option<Taken>, AllocError>
    ensures { IfOk result (λ it. MatchOption it
        ((other : Taken) → IsAuthenticate tag.now rest.now other → ⊥)
        (λ taken. IsAuthenticate tag.now rest.now taken)) }
{
    match plain_arguments(rest) {
        None => Ok(None),
        Some(response) => take_plain(alloc, tag, response),
    }
}

/// AUTHENTICATE PLAIN with these octets after the mechanism: CRLF, or a space and a response.
fn take_plain(alloc: Global, tag: &[u8], response: &[u8]) -> Result<Option<Taken>, AllocError>
    ensures { IfOk result (λ it. MatchOption it
        ((other : Taken) → IsPlainTaken tag.now response.now other → ⊥)
        (λ taken. IsPlainTaken tag.now response.now taken)) }
{
    if is_same(response, b"\r\n") {
        return Ok(Some(challenge(alloc, tag)?));
    }
    match after_start(response, b" ") {
        None => Ok(None),
        Some(line) => Ok(Some(login(alloc, Octets::from_slice(alloc, tag)?, line)?)),
    }
}

/// The challenge of AUTHENTICATE.
fn challenge(alloc: Global, tag: &[u8]) -> Result<Taken, AllocError>
    ensures { IfOk result (λ it. it ≡ Challenge tag.now) }
{
    Ok(Taken::Challenge {
        tag: Octets::from_slice(alloc, tag)?,
    })
}

/// What follows PLAIN; `None` if there is no space and PLAIN, in any letter case.
fn plain_arguments(rest: &[u8]) -> Option<&[u8]>
    ensures { MatchOption result
        ((front back : List ℕ) → (sp ⌢ word (codes "PLAIN")) front → rest.now ≡ front ++ back → ⊥)
        (λ back. (front : List ℕ) × (sp ⌢ word (codes "PLAIN")) front
        × (rest.now ≡ front ++ back.now)) }
{
    match after_start(rest, b" ") {
        None => None,
        Some(rest) => after_prefix(rest, b"PLAIN"),
    }
}

/// The response to AUTHENTICATE PLAIN, a whole line. `Err` if memory runs out.
pub fn take_response(alloc: Global, tag: &Octets, line: &[u8]) -> Result<Taken, AllocError>
    ensures { IfOk result (λ it. IsOfResponse tag.now line.now it) }
{
    let tag = tag.copy(alloc)?;
    if is_same(line, b"*\r\n") {
        return Ok(Taken::Refused {
            tag,
            reason: FrontRefusal::GivenUp,
        });
    }
    login(alloc, tag, line)
}

/// The LOGIN that a line with a response asks for, or its refusal. `Err` if memory runs out.
fn login(alloc: Global, tag: Octets, line: &[u8]) -> Result<Taken, AllocError>
    ensures { IfOk result (λ it. (said : PlainResponse) × IsResponseLine line.now said
        × (it ≡ answer_to_response tag said)) }
{
    match line_response(alloc, line)? {
        PlainResponse::Login { user, password } => {
            let command = Command::Login { user, password };
            Ok(Taken::Command {
                tagged: Tagged { tag, command },
                form: Form::Authenticate,
            })
        }
        PlainResponse::OtherUser => Ok(Taken::Refused {
            tag,
            reason: FrontRefusal::OtherUser,
        }),
        PlainResponse::Malformed => Ok(Taken::Refused {
            tag,
            reason: FrontRefusal::BadSyntax,
        }),
    }
}

/// What a line says, up to its CRLF.
fn line_response(alloc: Global, line: &[u8]) -> Result<PlainResponse, AllocError>
    ensures { IfOk result (λ response. IsResponseLine line.now response) }
{
    match before_suffix(line, b"\r\n") {
        None => Ok(PlainResponse::Malformed),
        Some(base64) => plain_response(alloc, base64),
    }
}

/// What a response in base64 says.
pub fn plain_response(alloc: Global, base64: &[u8]) -> Result<PlainResponse, AllocError>
    ensures { IfOk result (λ response. IsResponse base64.now response) }
{
    match STANDARD.decode(alloc, base64) {
        Err(DecodeAllocError::OutOfMemory) => Err(AllocError),
        Err(DecodeAllocError::DecodeError(_)) => Ok(PlainResponse::Malformed),
        Ok(octets) => message_response(alloc, &octets),
    }
}

/// What a message of PLAIN says (RFC 4616, section 2).
fn message_response(alloc: Global, message: &[u8]) -> Result<PlainResponse, AllocError>
    ensures { IfOk result (λ response. IsPlainResponse message.now response) }
{
    let Some((identity, rest)) = cut_at_nul(message) else {
        return Ok(PlainResponse::Malformed);
    };
    let Some((user, password)) = cut_at_nul(rest) else {
        return Ok(PlainResponse::Malformed);
    };
    if user.is_empty() || password.is_empty() || password.contains(&0) {
        return Ok(PlainResponse::Malformed);
    }
    if !identity.is_empty() && identity != user {
        return Ok(PlainResponse::OtherUser);
    }
    Ok(PlainResponse::Login {
        user: Octets::from_slice(alloc, user)?,
        password: Octets::from_slice(alloc, password)?,
    })
}

/// The octets before the first NUL and those after it; `None` if there is none.
fn cut_at_nul(octets: &[u8]) -> Option<(&[u8], &[u8])>
    ensures { MatchOption result (¬ IsIn 0 octets.now)
        (λ x. (octets.now ≡ x.0.now ++ 0 ∷ x.1.now) × (¬ IsIn 0 x.0.now)) }
{
    for i in 0..octets.len() {
        if octets[i] == 0 {
            return Some((&octets[..i], &octets[i + 1..]));
        }
    }
    None
}

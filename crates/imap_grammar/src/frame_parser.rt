//! Whole frames: a tag, a command and the end of the line (RFC 9051, sections 2.2 and 9).

ghost use Rattle.std.specs.Prelude.{◌≡◌, ◌↔◌, ◌⊎◌, ℕ, List, IfOk, MatchOption, Ok, Err, option_map};
ghost use Rattle.imap_syntax.specs.Commands.{IsSpelled};
ghost use Rattle.imap_syntax.specs.Faults.{HasTag, IsTagged, NamesCommand};
ghost use Rattle.imap_grammar.specs.Reading.{IsReading};
ghost use Rattle.imap_grammar.specs.CommandReading.{AnswersTag, ended_at, tag_at};
ghost use Rattle.imap_syntax.specs.declared.command.Tagged.{Tagged};
ghost use Rattle.imap_grammar.specs.declared.fault.ParseFault.TheVariants.{BadSyntax, NoMemory};
ghost use Rattle.imap_grammar.specs.declared.fault.ParseFault.TheVariants.{NoTag, NotInProfile};
ghost use Rattle.imap_grammar.specs.declared.fault.ParseFault.TheVariants.{UnknownCommand};

use crate::arguments::arguments;
use crate::fault::ParseFault;
use crate::grammar_word::find_command;
use crate::scan::{skip, span};
use imap_syntax::{Command, CommandWord, OctetClass, Tagged};
use imap_types::Octets;
use std::alloc::Global;

/// Reads the command that a whole frame spells, CRLF included.
///
/// The faults: `NoTag` and `UnknownCommand` exactly when `specs/Faults` of `imap_syntax` says so;
/// `BadSyntax` and `NotInProfile` only if the frame spells no command; `NoMemory` in place of any
/// answer but the first two faults.
pub fn parse(alloc: Global, frame: &[u8]) -> Result<Tagged, ParseFault>
    // A command that is read is one that the frame spells.
    ensures spelled { IfOk result (λ tagged. IsSpelled tagged frame.now) }
    // A command that the frame spells is read, unless memory runs out.
    ensures only { (tagged : Tagged)
        → IsSpelled tagged frame.now
        → (result ≡ Ok tagged) ⊎ (result ≡ Err NoMemory) }
    ensures no_tag { (result ≡ Err NoTag) ↔ (HasTag frame.now → ⊥) }
    ensures unknown { (result ≡ Err UnknownCommand)
        ↔ (HasTag frame.now × (NamesCommand frame.now → ⊥)) }
{
    parse_frame(alloc, frame)
}

/// The tag of a frame; `None` if the frame doesn't begin with a tag and a space.
pub fn tag_of(frame: &[u8]) -> Option<&[u8]>
    ensures { MatchOption result (HasTag frame.now → ⊥)
        (λ tag. (rest : List ℕ) × IsTagged frame.now tag.now rest) }
{
    match split_tag(frame) {
        Some((tag, _)) => Some(tag),
        None => None,
    }
}

/// No frame spells two commands.
pub fn one_reading()
    ensures { (this that : Tagged) (frame : List ℕ) → IsSpelled this frame → IsSpelled that frame
        → this ≡ that }
{}

/// Reads the tag of a frame, its command's word, and the rest.
fn parse_frame(alloc: Global, frame: &[u8]) -> Result<Tagged, ParseFault>
    ensures { AnswersTag result (tag_at frame.now) }
{
    let Some((tag, rest)) = split_tag(frame) else {
        return Err(ParseFault::NoTag);
    };
    let (token, rest) = span(OctetClass::Atom, rest);
    let Some(word) = find_command(token) else {
        return Err(ParseFault::UnknownCommand);
    };
    let tag = Octets::from_slice(alloc, tag)?;
    let command = command_to_end(alloc, word, rest)?;
    Ok(Tagged { tag, command })
}

/// Splits a frame after its tag and space; `None` if it doesn't begin with a tag and a space.
fn split_tag(frame: &[u8]) -> Option<(&[u8], &[u8])>
    ensures { option_map (λ x. (x.0.now, x.1.now)) result ≡ tag_at frame.now }
{
    let (tag, rest) = span(OctetClass::Tag, frame);
    if tag.is_empty() {
        return None;
    }
    match rest {
        [] => None,
        [first, rest @ ..] => {
            if *first != b' ' {
                return None;
            }
            Some((tag, rest))
        }
    }
}

/// Reads the arguments of the command with this word, and the CRLF that ends it.
fn command_to_end(alloc: Global, word: CommandWord, octets: &[u8]) -> Result<Command, ParseFault>
    ensures { IsReading (λ x. x) result (ended_at word octets.now) }
{
    let (command, rest) = arguments(alloc, word, octets)?;
    if rest != b"\r\n".as_slice() {
        drop(command);
        return Err(trailing_fault(word, rest));
    }
    Ok(command)
}

/// The fault of octets in place of the line end. After the literal of APPEND, a space begins a form
/// that this server doesn't support (RFC 3502).
fn trailing_fault(word: CommandWord, octets: &[u8]) -> ParseFault
    ensures { (result ≡ BadSyntax) ⊎ (result ≡ NotInProfile) }
{
    if word == CommandWord::Append && octets.starts_with(b" ") {
        return ParseFault::NotInProfile;
    }
    ParseFault::BadSyntax
}

//! LSUB and RENAME, whose arguments are names (RFC 3501, sections 6.3.5 and 6.3.9).

ghost use Rattle.std.specs.Prelude.{◌≡◌, ◌++◌, Some, None, IfOk, MatchOption, List, ℕ, Option};
ghost use Rattle.std.specs.Prelude.{false, option_map};
ghost use Rattle.imap_syntax.specs.Strings.{run};
ghost use Rattle.imap_syntax.specs.declared.arguments.ListNames.{ListNames as ListAsked};
ghost use Rattle.imap_syntax.specs.declared.command.Command.TheVariants.{Login};
ghost use Rattle.imap_syntax.specs.declared.command.Command.TheVariants.{ListNames as AskedNames};
ghost use Rattle.imap_syntax.specs.declared.octet_class.OctetClass.TheVariants.{Tag};
ghost use Rattle.rev1_front.specs.ClientFrames.{IsJoined, IsLsub, IsMeant, IsRename, LsubOfPattern};
ghost use Rattle.rev1_front.specs.ClientFrames.{RenameOf, all_subscribed};
ghost use Rattle.rev1_front.specs.declared.taken.Taken.{Taken};

use crate::form::Form;
use crate::frame_parts::parse_parts;
use crate::inner_names::inner_octets;
use crate::session::Mode;
use crate::taken::{Taken, name_refused};
use imap_syntax::{Command, ListNames, Tagged};
use imap_types::{Name, Octets};
use std::alloc::{AllocError, Global};

/// LSUB: LIST of all subscribed names.
pub fn take_lsub(
    alloc: Global,
    mode: Mode,
    tag: &[u8],
    rest: &[u8],
) -> Result<Option<Taken>, AllocError>
    requires { run Tag tag.now tag.now }
    ensures { IfOk result (λ it. MatchOption it
        ((other : Taken) → IsLsub mode tag.now rest.now other → ⊥)
        (λ taken. IsLsub mode tag.now rest.now taken)) }
{
    match parse_parts(alloc, tag, b"LIST", rest)? {
        None => Ok(None),
        Some(tagged) => lsub_of(alloc, mode, tagged),
    }
}

/// LSUB of the names that this LIST asks for; `None` if it has options.
fn lsub_of(alloc: Global, mode: Mode, tagged: Tagged) -> Result<Option<Taken>, AllocError>
    ensures { IfOk result (λ it. MatchOption it
        ((asked : ListAsked) → tagged.command ≡ AskedNames asked
        → asked.subscribed_only ≡ false → asked.return_subscribed ≡ false → ⊥)
        (λ taken. (asked : ListAsked) × (joined : Option (List ℕ))
        × (tagged.command ≡ AskedNames asked)
        × (asked.subscribed_only ≡ false) × (asked.return_subscribed ≡ false)
        × IsJoined mode asked joined
        × LsubOfPattern tagged.tag joined taken)) }
{
    let Tagged { tag, command } = tagged;
    match &command {
        Command::ListNames(asked) => lsub_of_names(alloc, mode, tag, asked),
        _ => Ok(None),
    }
}

/// LSUB of the names that LIST with these arguments asks for; `None` if they have options.
fn lsub_of_names(
    alloc: Global,
    mode: Mode,
    tag: Octets,
    asked: &ListNames,
) -> Result<Option<Taken>, AllocError>
    ensures { IfOk result (λ it. MatchOption it
        (asked.now.subscribed_only ≡ false → asked.now.return_subscribed ≡ false → ⊥)
        (λ taken. (joined : Option (List ℕ))
        × (asked.now.subscribed_only ≡ false) × (asked.now.return_subscribed ≡ false)
        × IsJoined mode asked.now joined
        × LsubOfPattern tag joined taken)) }
{
    if asked.subscribed_only {
        return Ok(None);
    }
    if asked.return_subscribed {
        return Ok(None);
    }
    let pattern = lsub_pattern(alloc, mode, asked)?;
    Ok(Some(lsub_of_pattern(alloc, tag, pattern)?))
}

/// LSUB of the names that a pattern matches; refused if there is none.
fn lsub_of_pattern(alloc: Global, tag: Octets, pattern: Option<Octets>) -> Result<Taken, AllocError>
    ensures { IfOk result (λ taken. LsubOfPattern tag pattern taken) }
{
    match pattern {
        None => Ok(name_refused(tag)),
        Some(pattern) => {
            let command = all_subscribed(alloc)?;
            Ok(Taken::Command {
                tagged: Tagged { tag, command },
                form: Form::Lsub { pattern },
            })
        }
    }
}

/// LIST of all subscribed names.
fn all_subscribed(alloc: Global) -> Result<Command, AllocError>
    ensures { IfOk result (λ command. command ≡ AskedNames all_subscribed) }
{
    Ok(Command::ListNames(ListNames {
        subscribed_only: true,
        reference: Octets::new(Vec::new(alloc)),
        pattern: Octets::from_slice(alloc, b"*")?,
        return_subscribed: false,
    }))
}

/// The reference and the pattern, joined; `None` if one of them is no modified UTF-7.
fn lsub_pattern(alloc: Global, mode: Mode, asked: &ListNames) -> Result<Option<Octets>, AllocError>
    ensures { IfOk result (λ joined. IsJoined mode asked.now joined) }
{
    match client_octets(alloc, mode, asked.reference.as_bytes())? {
        None => Ok(None),
        Some(reference) => with_pattern(alloc, mode, reference, asked.pattern.as_bytes()),
    }
}

/// A reference and what a pattern means after it; `None` if that is no modified UTF-7.
fn with_pattern(
    alloc: Global,
    mode: Mode,
    reference: Vec<u8>,
    pattern: &[u8],
) -> Result<Option<Octets>, AllocError>
    ensures { IfOk result (λ joined. MatchOption joined
        (IsMeant mode pattern.now None)
        (λ whole. (meant : List ℕ) × IsMeant mode pattern.now (Some meant)
        × (whole ≡ reference.items ++ meant))) }
{
    match client_octets(alloc, mode, pattern)? {
        None => Ok(None),
        Some(pattern) => {
            let mut joined = reference;
            joined.extend_from_slice(&pattern)?;
            Ok(Some(Octets::new(joined)))
        }
    }
}

/// The octets that a client in this mode writes so; `None` if they are no modified UTF-7.
fn client_octets(alloc: Global, mode: Mode, octets: &[u8]) -> Result<Option<Vec<u8>>, AllocError>
    ensures { IfOk result (λ meant. IsMeant mode octets.now (option_map (λ v. v.items) meant)) }
{
    match mode {
        Mode::Rev1 => inner_octets(alloc, octets),
        Mode::Rev2 => Ok(Some(octets.to_vec(alloc)?)),
    }
}

/// RENAME: its names are read as those of LOGIN, which has two strings too.
pub fn take_rename(
    alloc: Global,
    mode: Mode,
    tag: &[u8],
    rest: &[u8],
) -> Result<Option<Taken>, AllocError>
    requires { run Tag tag.now tag.now }
    ensures { IfOk result (λ it. MatchOption it
        ((other : Taken) → IsRename mode tag.now rest.now other → ⊥)
        (λ taken. IsRename mode tag.now rest.now taken)) }
{
    match parse_parts(alloc, tag, b"LOGIN", rest)? {
        None => Ok(None),
        Some(tagged) => rename_of(alloc, mode, tagged),
    }
}

/// RENAME of the two strings that this LOGIN has; `None` if it is another command.
fn rename_of(alloc: Global, mode: Mode, tagged: Tagged) -> Result<Option<Taken>, AllocError>
    ensures { IfOk result (λ it. MatchOption it
        ((old new : List ℕ) → tagged.command ≡ Login old new → ⊥)
        (λ taken. (old new : List ℕ) × (from to : Option (List ℕ))
        × (tagged.command ≡ Login old new)
        × IsMeant mode old from × IsMeant mode new to
        × RenameOf tagged.tag from to taken)) }
{
    let Tagged { tag, command } = tagged;
    match &command {
        Command::Login { user, password } => {
            Ok(Some(rename_of_names(alloc, mode, tag, user, password)?))
        }
        _ => Ok(None),
    }
}

/// RENAME of a mailbox to another name, as a client in this mode writes them.
fn rename_of_names(
    alloc: Global,
    mode: Mode,
    tag: Octets,
    old: &Octets,
    new: &Octets,
) -> Result<Taken, AllocError>
    ensures { IfOk result (λ taken. (from to : Option (List ℕ))
        × IsMeant mode old.now from × IsMeant mode new.now to
        × RenameOf tag from to taken) }
{
    let from = client_octets(alloc, mode, old.as_bytes())?;
    let to = client_octets(alloc, mode, new.as_bytes())?;
    Ok(rename_taken(tag, from, to))
}

/// RENAME of a mailbox to another name; refused if one of them is missing.
fn rename_taken(tag: Octets, from: Option<Vec<u8>>, to: Option<Vec<u8>>) -> Taken
    ensures { RenameOf tag (option_map (λ v. v.items) from) (option_map (λ v. v.items) to) result }
{
    match from {
        None => name_refused(tag),
        Some(from) => match to {
            None => name_refused(tag),
            Some(to) => Taken::Rename {
                tag,
                from: Name::new(from).fold_inbox(),
                to: Name::new(to).fold_inbox(),
            },
        },
    }
}

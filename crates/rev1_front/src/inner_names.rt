//! Names that a client writes in modified UTF-7, as the profile has them (RFC 3501, section 5.1.3).

ghost use Rattle.std.specs.Prelude.{◌≡◌, Some, None, IfOk, MatchBool, option_map};
ghost use Rattle.imap_syntax.specs.declared.command.Command.TheVariants.{ListNames as ListCommand};
ghost use Rattle.rev1_front.specs.InnerNames.{HasInnerNames, IsInnerList};
ghost use Rattle.rev1_front.specs.Names.{IsDecoded, IsInner, has_high_octet};

use imap_syntax::{Command, ListNames};
use imap_types::{Name, Octets};
use mailbox_utf7::decode;
use std::alloc::{AllocError, Global};

/// The octets of which these are the modified UTF-7; the same octets if one of them is above 127,
/// since they are UTF-8 then; `None` if they are the modified UTF-7 of nothing. `Err` if memory
/// runs out.
pub fn inner_octets(alloc: Global, octets: &[u8]) -> Result<Option<Vec<u8>>, AllocError>
    ensures { IfOk result (λ inner. IsInner octets.now (option_map (λ v. v.items) inner)) }
{
    if has_high_octet(octets) {
        return Ok(Some(octets.to_vec(alloc)?));
    }
    decoded_octets(alloc, octets)
}

/// The octets of which these are the modified UTF-7; `None` if they are that of nothing. `Err` if
/// memory runs out.
fn decoded_octets(alloc: Global, octets: &[u8]) -> Result<Option<Vec<u8>>, AllocError>
    ensures { IfOk result (λ inner. IsDecoded octets.now (option_map (λ v. v.items) inner)) }
{
    match decode(alloc, octets)? {
        None => Ok(None),
        Some(name) => Ok(Some(name.into_bytes())),
    }
}

/// Whether an octet is above 127.
fn has_high_octet(octets: &[u8]) -> bool
    ensures { result ≡ has_high_octet octets.now }
{
    octets.iter().any(|octet| *octet > 127)
}

/// Decodes a name. `false`, and no change, if it is no modified UTF-7. `Err` if memory runs out.
pub fn decode_name(alloc: Global, name: &mut Name) -> Result<bool, AllocError>
    ensures { IfOk result (λ yes. MatchBool yes
        (IsInner name.old (Some name.new)) (IsInner name.old None)) }
{
    match inner_octets(alloc, name.as_bytes())? {
        None => Ok(false),
        Some(octets) => {
            *name = Name::new(octets);
            Ok(true)
        }
    }
}

/// Decodes a reference or a pattern. `false`, and no change, if it is no modified UTF-7. `Err` if
/// memory runs out.
pub fn decode_octets(alloc: Global, octets: &mut Octets) -> Result<bool, AllocError>
    ensures { IfOk result (λ yes. MatchBool yes
        (IsInner octets.old (Some octets.new)) (IsInner octets.old None)) }
{
    match inner_octets(alloc, octets.as_bytes())? {
        None => Ok(false),
        Some(inner) => {
            *octets = Octets::new(inner);
            Ok(true)
        }
    }
}

/// Decodes the names of a command. `false` if one of them is no modified UTF-7. `Err` if memory
/// runs out.
pub fn decode_names(alloc: Global, command: &mut Command) -> Result<bool, AllocError>
    ensures { IfOk result (λ yes. MatchBool yes
        (HasInnerNames command.old (Some command.new)) (HasInnerNames command.old None)) }
{
    match command {
        Command::Select { name, .. } => decode_name(alloc, name),
        Command::Examine { name, .. } => decode_name(alloc, name),
        Command::Create { name } => decode_name(alloc, name),
        Command::Delete { name } => decode_name(alloc, name),
        Command::Subscribe { name } => decode_name(alloc, name),
        Command::Unsubscribe { name } => decode_name(alloc, name),
        Command::Status { name, .. } => decode_name(alloc, name),
        Command::Append(asked) => decode_name(alloc, &mut asked.name),
        Command::Copy(asked) => decode_name(alloc, &mut asked.name),
        Command::Move(asked) => decode_name(alloc, &mut asked.name),
        Command::ListNames(asked) => decode_list(alloc, asked),
        _ => Ok(true),
    }
}

/// Decodes the reference and the pattern of LIST. `false` if one of them is no modified UTF-7.
/// `Err` if memory runs out.
fn decode_list(alloc: Global, asked: &mut ListNames) -> Result<bool, AllocError>
    ensures { IfOk result (λ yes. MatchBool yes
        (IsInnerList asked.old (Some (ListCommand asked.new))) (IsInnerList asked.old None)) }
{
    if !decode_octets(alloc, &mut asked.reference)? {
        return Ok(false);
    }
    decode_octets(alloc, &mut asked.pattern)
}

//! Names in answers, in modified UTF-7 (RFC 3501, section 5.1.3).

ghost use Rattle.std.specs.Prelude.{IfOk};
ghost use Rattle.rev1_front.specs.Names.{IsOuter};
ghost use Rattle.rev1_front.specs.declared.session.Mode.TheVariants.{Rev1};

use crate::session::Mode;
use imap_types::Name;
use mailbox_utf7::encode;
use std::alloc::{AllocError, Global};
use std::str;

/// A name as a session in this mode is shown it: in modified UTF-7 for IMAP4rev1, except that
/// octets that are no UTF-8 stay. `Err` if memory runs out.
pub fn outer_name(alloc: Global, mode: Mode, name: &Name) -> Result<Name, AllocError>
    ensures { IfOk result (λ outer. IsOuter mode name.now outer) }
{
    match mode {
        Mode::Rev1 => encoded_name(alloc, name),
        Mode::Rev2 => name.copy(alloc),
    }
}

/// A name in modified UTF-7.
fn encoded_name(alloc: Global, name: &Name) -> Result<Name, AllocError>
    ensures { IfOk result (λ outer. IsOuter Rev1 name.now outer) }
{
    match str::from_utf8(name.as_bytes()) {
        Ok(text) => Ok(Name::new(encode(alloc, text)?)),
        Err(_) => name.copy(alloc),
    }
}

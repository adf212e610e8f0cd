//! Classes of octets (RFC 9051, section 9).

ghost use Rattle.std.specs.Prelude.{◌≡◌};
ghost use Rattle.imap_types.specs.DateTimes.{is_digit};
ghost use Rattle.imap_syntax.specs.Strings.{is_in, is_pattern_octet};

use imap_syntax::OctetClass;
use imap_types::{is_astring_octet, is_atom_octet};

/// Whether an octet belongs to a class.
pub fn is_in(class: OctetClass, octet: u8) -> bool
    ensures { result ≡ is_in class octet }
{
    match class {
        OctetClass::Tag => is_astring_octet(octet) && octet != b'+',
        OctetClass::Atom => is_atom_octet(octet),
        OctetClass::Astring => is_astring_octet(octet),
        OctetClass::Pattern => is_astring_octet(octet) || octet == b'%' || octet == b'*',
        OctetClass::Item => is_atom_octet(octet) && octet != b'[',
        OctetClass::Digit => octet >= b'0' && octet <= b'9',
    }
}

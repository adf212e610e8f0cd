//! What a frame is to a session, and what is answered at once.

ghost use Rattle.std.specs.Prelude.{◌≡◌, ◌++◌, OnErr, OnOk};
ghost use Rattle.rev1_front.specs.FrontTexts.{identity_text, text_at_once};
ghost use Rattle.rev1_front.specs.declared.fixed_texts.FrontRefusal.TheVariants.{NameNotAllowed};
ghost use Rattle.rev1_front.specs.declared.taken.Taken.TheVariants.{Refused};

use crate::fixed_texts::{FrontRefusal, print_parts, print_refusal};
use crate::form::Form;
use imap_answers::Answer;
use imap_print::print;
use imap_syntax::{IdleLine, Tagged};
use imap_types::{Name, Octets};
use std::alloc::AllocError;

/// What a frame is to a session.
#[derive(Drop)]
pub enum Taken {
    /// An answer of the profile, given at once.
    Answer(Answer),
    /// A command that the front refuses.
    Refused { tag: Octets, reason: FrontRefusal },
    /// ID (RFC 2971), answered at once.
    Identity { tag: Octets },
    /// AUTHENTICATE PLAIN without a response: an empty challenge is sent, and the next line is the
    /// response (RFC 3501, section 6.2.2).
    Challenge { tag: Octets },
    /// A command of the profile, and the form in which its answers are shown.
    Command { tagged: Tagged, form: Form },
    /// A search by the days on which messages were sent: this FETCH gives the texts that have them,
    /// and then `take_with_days` takes the frame again.
    AsksDays { fetch: Tagged },
    /// A line of the IDLE with this tag.
    Line { tag: Octets, line: IdleLine },
    /// RENAME (RFC 3501, section 6.3.5).
    Rename { tag: Octets, from: Name, to: Name },
}

/// The refusal of a command with a name that is no modified UTF-7.
pub fn name_refused(tag: Octets) -> Taken
    ensures { result ≡ Refused tag NameNotAllowed }
{
    Taken::Refused {
        tag,
        reason: FrontRefusal::NameNotAllowed,
    }
}

/// Appends the lines that answer a frame at once; none if a port has to carry it out. `Err` if
/// memory runs out; the text is then unchanged.
pub fn print_at_once(taken: &Taken, text: &mut Vec<u8>) -> Result<(), AllocError>
    ensures ok { OnOk result (text.new.items ≡ text.old.items ++ text_at_once taken.now) }
    ensures err { OnErr result (text.new.items ≡ text.old.items) }
{
    match taken {
        Taken::Answer(answer) => print(answer, text),
        Taken::Refused { tag, reason } => print_refusal(tag, *reason, text),
        Taken::Identity { tag } => print_identity(tag, text),
        Taken::Challenge { tag: _ } => text.extend_from_slice(b"+ \r\n"),
        _ => Ok(()),
    }
}

/// Appends the answers to ID (RFC 2971, section 3).
fn print_identity(tag: &Octets, text: &mut Vec<u8>) -> Result<(), AllocError>
    ensures ok { OnOk result (text.new.items ≡ text.old.items ++ identity_text tag.now) }
    ensures err { OnErr result (text.new.items ≡ text.old.items) }
{
    print_parts(
        b"* ID (\"name\" \"Burknafel\")\r\n",
        tag.as_bytes(),
        b" OK ID completed\r\n",
        text,
    )
}

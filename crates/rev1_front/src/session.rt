//! What the front remembers of a session.

ghost use Rattle.std.specs.Prelude.{◌≡◌};
ghost use Rattle.rev1_front.specs.Modes.{has_rev2, mode_after, turns_rev2_on};

use imap_answers::{Answer, EnabledExtensions};
use imap_types::Octets;

/// The version of IMAP that a session speaks.
#[derive(Clone, Copy, Debug, PartialEq, Eq)]
pub enum Mode {
    /// RFC 3501.
    Rev1,
    /// RFC 9051, after ENABLE IMAP4rev2 (section 6.3.1).
    Rev2,
}

/// What the next frame of a session is.
#[derive(Drop)]
pub enum Awaited {
    /// A command.
    Command,
    /// A line of the IDLE with this tag.
    Line { tag: Octets },
    /// The response to the AUTHENTICATE PLAIN with this tag.
    Response { tag: Octets },
}

/// The mode after these answers were given: IMAP4rev2 if they say that it is on now.
pub fn mode_after(mode: Mode, answers: &[Answer]) -> Mode
    ensures { result ≡ mode_after mode answers.now }
{
    for answer in answers {
        if turns_rev2_on(answer) {
            return Mode::Rev2;
        }
    }
    mode
}

/// Whether an answer says that IMAP4rev2 is on.
fn turns_rev2_on(answer: &Answer) -> bool
    ensures { result ≡ turns_rev2_on answer.now }
{
    match answer {
        Answer::Enabled { extensions } => has_rev2(*extensions),
        _ => false,
    }
}

/// Whether IMAP4rev2 is among the extensions.
fn has_rev2(extensions: EnabledExtensions) -> bool
    ensures { result ≡ has_rev2 extensions }
{
    match extensions {
        EnabledExtensions::Nothing => false,
        EnabledExtensions::Condstore => false,
        EnabledExtensions::Imap4Rev2 => true,
        EnabledExtensions::CondstoreImap4Rev2 => true,
        EnabledExtensions::Imap4Rev2Condstore => true,
    }
}

//! The forms in which the answers to a command are shown.

ghost use Rattle.std.specs.Prelude.{◌≡◌, ◌↔◌, ◌++◌, IsTrue, List, ℕ};
ghost use Rattle.rev1_front.specs.ClientFrames.{AsksReturn, IsForm, IsSearchForm, search_return};
ghost use Rattle.rev1_front.specs.declared.session.Mode.TheVariants.{Rev1};

use crate::frame_parts::{after_prefix, split_tag};
use crate::session::Mode;
use imap_syntax::Command;
use imap_types::Octets;

/// How the answers to a command are shown, beside the names in them, which are modified UTF-7 while
/// a session speaks IMAP4rev1.
#[derive(Drop)]
pub enum Form {
    /// As they are.
    Plain,
    /// CAPABILITY: with the front's capabilities.
    Capability,
    /// SELECT and EXAMINE: without LIST, and with RECENT after EXISTS (RFC 3501, section 6.3.1).
    Opening,
    /// SEARCH without RETURN: the hits as numbers (RFC 3501, section 7.2.5).
    Search,
    /// STATUS with RECENT.
    Status {
        /// Whether the client asked for nothing else.
        only_recent: bool,
    },
    /// LSUB of the names that this pattern matches (RFC 3501, section 6.3.9).
    Lsub {
        pattern: Octets,
    },
    /// CHECK (RFC 3501, section 6.4.1).
    Check,
    /// AUTHENTICATE (RFC 3501, section 6.2.2).
    Authenticate,
}

/// The form in which the answers to a command of the profile are shown.
pub fn form_of(mode: Mode, command: &Command, frame: &[u8]) -> Form
    ensures { IsForm mode frame.now command.now result }
{
    match mode {
        Mode::Rev1 => rev1_form(command, frame),
        Mode::Rev2 => Form::Plain,
    }
}

/// The form in which the answers to a command are shown to a session that speaks IMAP4rev1.
fn rev1_form(command: &Command, frame: &[u8]) -> Form
    ensures { IsForm Rev1 frame.now command.now result }
{
    match command {
        Command::Capability => Form::Capability,
        Command::Select { .. } => Form::Opening,
        Command::Examine { .. } => Form::Opening,
        Command::Search(_) => search_form(frame),
        _ => Form::Plain,
    }
}

/// The form in which hits are shown.
fn search_form(frame: &[u8]) -> Form
    ensures { IsSearchForm frame.now result }
{
    if asks_return(frame) {
        Form::Plain
    } else {
        Form::Search
    }
}

/// Whether a frame's SEARCH has RETURN.
fn asks_return(frame: &[u8]) -> bool
    ensures { IsTrue result ↔ AsksReturn frame.now }
{
    match split_tag(frame) {
        None => false,
        Some((_tag, rest)) => begins_search_return(rest),
    }
}

/// Whether octets begin with SEARCH or UID SEARCH, and with RETURN.
fn begins_search_return(octets: &[u8]) -> bool
    ensures { IsTrue result
        ↔ ((front back : List ℕ) × (octets.now ≡ front ++ back) × search_return front) }
{
    match after_prefix(octets, b"UID ") {
        None => after_prefix(octets, b"SEARCH RETURN ").is_some(),
        Some(rest) => after_prefix(rest, b"SEARCH RETURN ").is_some(),
    }
}

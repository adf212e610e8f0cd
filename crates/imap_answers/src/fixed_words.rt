//! The parts of answers that are one fixed text each.

use std::alloc::{AllocError, AllocFailed};

/// Whether a connection begins with a login (RFC 9051, sections 7.1.1 and 7.1.4).
#[derive(Clone, Copy, Debug, PartialEq, Eq)]
pub enum Login {
    /// `OK`: the user must log in.
    Required,
    /// `PREAUTH`: the user is logged in already.
    PreAuthenticated,
}

impl Login {
    ghost use Rattle.std.specs.Prelude.{◌≡◌};
    ghost use Rattle.imap_answers.specs.Words.{greeting_text};

    /// The greeting without its line end.
    pub fn text(self) -> &'static [u8]
        ensures { result.now ≡ greeting_text self }
    {
        match self {
            Login::Required => b"* OK [CAPABILITY IMAP4rev2 IDLE CONDSTORE] ready",
            Login::PreAuthenticated => b"* PREAUTH [CAPABILITY IMAP4rev2 IDLE CONDSTORE] ready",
        }
    }
}

/// What the server is waiting for (RFC 9051, section 7.6; RFC 2177).
#[derive(Clone, Copy, Debug, PartialEq, Eq)]
pub enum Continuation {
    /// The octets of a literal.
    Ready,
    /// The line that ends IDLE.
    Idling,
}

impl Continuation {
    ghost use Rattle.std.specs.Prelude.{◌≡◌};
    ghost use Rattle.imap_answers.specs.Words.{continuation_text};

    /// The line without its line end.
    pub fn text(self) -> &'static [u8]
        ensures { result.now ≡ continuation_text self }
    {
        match self {
            Continuation::Ready => b"+ ready",
            Continuation::Idling => b"+ idling",
        }
    }
}

/// The extensions that ENABLE turned on, in the order in which they were first named (RFC 9051,
/// section 7.2.1).
#[derive(Clone, Copy, Debug, PartialEq, Eq)]
pub enum EnabledExtensions {
    Nothing,
    Condstore,
    Imap4Rev2,
    CondstoreImap4Rev2,
    Imap4Rev2Condstore,
}

impl EnabledExtensions {
    ghost use Rattle.std.specs.Prelude.{◌≡◌};
    ghost use Rattle.imap_answers.specs.Words.{enabled_text};

    /// The answer without its line end.
    pub fn text(self) -> &'static [u8]
        ensures { result.now ≡ enabled_text self }
    {
        match self {
            EnabledExtensions::Nothing => b"* ENABLED",
            EnabledExtensions::Condstore => b"* ENABLED CONDSTORE",
            EnabledExtensions::Imap4Rev2 => b"* ENABLED IMAP4rev2",
            EnabledExtensions::CondstoreImap4Rev2 => b"* ENABLED CONDSTORE IMAP4rev2",
            EnabledExtensions::Imap4Rev2Condstore => b"* ENABLED IMAP4rev2 CONDSTORE",
        }
    }
}

/// Why the server closes the connection (RFC 9051, section 7.1.5).
#[derive(Clone, Copy, Debug, PartialEq, Eq)]
pub enum ByeReason {
    LoggingOut,
    LineTooLong,
    LiteralTooLong,
    NulInText,
    NoMemory,
    ReplicaChanged,
    TooManySessions,
}

impl ByeReason {
    ghost use Rattle.std.specs.Prelude.{◌≡◌};
    ghost use Rattle.imap_answers.specs.Words.{bye_text};

    /// The answer without its line end.
    pub fn text(self) -> &'static [u8]
        ensures { result.now ≡ bye_text self }
    {
        match self {
            ByeReason::LoggingOut => b"* BYE logging out",
            ByeReason::LineTooLong => b"* BYE line too long",
            ByeReason::LiteralTooLong => b"* BYE literal too long",
            ByeReason::NulInText => b"* BYE NUL in text",
            ByeReason::NoMemory => b"* BYE no memory",
            ByeReason::ReplicaChanged => b"* BYE replica changed",
            ByeReason::TooManySessions => b"* BYE too many sessions",
        }
    }
}

/// Why a command is refused. Each reason is a tagged NO or BAD with its own text (RFC 9051,
/// sections 7.1.2 and 7.1.3).
#[derive(Clone, Copy, Debug, PartialEq, Eq)]
pub enum Refusal {
    /// `NO [NONEXISTENT]`: the named mailbox doesn't exist.
    NoSuchMailbox,
    /// `NO [TRYCREATE]`: the destination mailbox doesn't exist.
    NoDestination,
    /// `NO [ALREADYEXISTS]`: CREATE of an existing mailbox.
    MailboxExists,
    /// `NO [CANNOT]`: no mailbox may have this name.
    NameNotAllowed,
    /// `NO [CANNOT]`: DELETE of INBOX.
    InboxStays,
    /// `NO [CANNOT]`: a form that this server doesn't support.
    NotInProfile,
    /// `NO [AUTHENTICATIONFAILED]`: wrong user or password.
    LoginFailed,
    /// `NO`: a change to a mailbox opened by EXAMINE.
    ReadOnly,
    /// `NO [LIMIT]`: an operation would give a message more than 32 keywords.
    TooManyKeywords,
    /// `NO [LIMIT]`: an operation would name more than 64 versions of a message.
    TooManyVersions,
    /// `NO [LIMIT]`: a keyword of more than 64 octets.
    KeywordTooLong,
    /// `NO [LIMIT]`: a counter has no numbers left.
    NumberUsedUp,
    /// `NO [LIMIT]`: the command's literals together are too long.
    LiteralTooLong,
    /// `NO [UNAVAILABLE]`: memory ran out.
    NoMemory,
    /// `NO [UNAVAILABLE]`: the replica's store has no room for the command's operations.
    NoStoreRoom,
    /// `BAD`: no such command.
    UnknownCommand,
    /// `BAD`: the command's syntax is wrong.
    BadSyntax,
    /// `BAD`: the session's state doesn't allow the command.
    NotNow,
    /// `BAD`: a message number above that of the last message.
    NoSuchMessage,
    /// `BAD`: a line other than DONE ended IDLE.
    DoneExpected,
}

impl Refusal {
    ghost use Rattle.std.specs.Prelude.{◌≡◌};
    ghost use Rattle.imap_answers.specs.Words.{refusal_text};

    /// The line after its tag and space, without the line end.
    pub fn text(self) -> &'static [u8]
        ensures { result.now ≡ refusal_text self }
    {
        match self {
            Refusal::NoSuchMailbox => b"NO [NONEXISTENT] no such mailbox",
            Refusal::NoDestination => b"NO [TRYCREATE] no such mailbox",
            Refusal::MailboxExists => b"NO [ALREADYEXISTS] mailbox exists",
            Refusal::NameNotAllowed => b"NO [CANNOT] name not allowed",
            Refusal::InboxStays => b"NO [CANNOT] INBOX stays",
            Refusal::NotInProfile => b"NO [CANNOT] not in this profile",
            Refusal::LoginFailed => b"NO [AUTHENTICATIONFAILED] login failed",
            Refusal::ReadOnly => b"NO mailbox is read-only",
            Refusal::TooManyKeywords => b"NO [LIMIT] too many keywords",
            Refusal::TooManyVersions => b"NO [LIMIT] too many versions",
            Refusal::KeywordTooLong => b"NO [LIMIT] keyword too long",
            Refusal::NumberUsedUp => b"NO [LIMIT] number used up",
            Refusal::LiteralTooLong => b"NO [LIMIT] literal too long",
            Refusal::NoMemory => b"NO [UNAVAILABLE] no memory",
            Refusal::NoStoreRoom => b"NO [UNAVAILABLE] no room in the store",
            Refusal::UnknownCommand => b"BAD unknown command",
            Refusal::BadSyntax => b"BAD syntax",
            Refusal::NotNow => b"BAD not now",
            Refusal::NoSuchMessage => b"BAD no such message",
            Refusal::DoneExpected => b"BAD DONE expected",
        }
    }
}

impl From<AllocError> for Refusal {
    ghost use Rattle.std.specs.Prelude.{◌≡◌};
    ghost use Rattle.imap_answers.specs.declared.fixed_words.Refusal.TheVariants.{NoMemory};

    ghost from_gives = { λ _ e. e ≡ NoMemory };

    fn from(_e: AllocError) -> Refusal {
        Refusal::NoMemory
    }
}

impl<T: Drop> From<AllocFailed<T>> for Refusal {
    ghost use Rattle.std.specs.Prelude.{◌≡◌};
    ghost use Rattle.imap_answers.specs.declared.fixed_words.Refusal.TheVariants.{NoMemory};

    ghost from_gives = { λ _ e. e ≡ NoMemory };

    fn from(_e: AllocFailed<T>) -> Refusal {
        Refusal::NoMemory
    }
}

/// The command that a tagged OK names as completed.
#[derive(Clone, Copy, Debug, PartialEq, Eq)]
pub enum CompletedWord {
    Capability,
    Noop,
    Logout,
    Login,
    Enable,
    Select,
    Examine,
    Create,
    Delete,
    Subscribe,
    Unsubscribe,
    List,
    Namespace,
    Status,
    Append,
    Idle,
    Close,
    Unselect,
    Expunge,
    Search,
    Fetch,
    Store,
    Copy,
    Move,
    UidFetch,
    UidStore,
    UidSearch,
    UidCopy,
    UidMove,
    UidExpunge,
}

impl CompletedWord {
    ghost use Rattle.std.specs.Prelude.{◌≡◌};
    ghost use Rattle.imap_answers.specs.Words.{command_text};

    /// The command's name in capitals; the UID forms have two words.
    pub fn text(self) -> &'static [u8]
        ensures { result.now ≡ command_text self }
    {
        match self {
            CompletedWord::Capability => b"CAPABILITY",
            CompletedWord::Noop => b"NOOP",
            CompletedWord::Logout => b"LOGOUT",
            CompletedWord::Login => b"LOGIN",
            CompletedWord::Enable => b"ENABLE",
            CompletedWord::Select => b"SELECT",
            CompletedWord::Examine => b"EXAMINE",
            CompletedWord::Create => b"CREATE",
            CompletedWord::Delete => b"DELETE",
            CompletedWord::Subscribe => b"SUBSCRIBE",
            CompletedWord::Unsubscribe => b"UNSUBSCRIBE",
            CompletedWord::List => b"LIST",
            CompletedWord::Namespace => b"NAMESPACE",
            CompletedWord::Status => b"STATUS",
            CompletedWord::Append => b"APPEND",
            CompletedWord::Idle => b"IDLE",
            CompletedWord::Close => b"CLOSE",
            CompletedWord::Unselect => b"UNSELECT",
            CompletedWord::Expunge => b"EXPUNGE",
            CompletedWord::Search => b"SEARCH",
            CompletedWord::Fetch => b"FETCH",
            CompletedWord::Store => b"STORE",
            CompletedWord::Copy => b"COPY",
            CompletedWord::Move => b"MOVE",
            CompletedWord::UidFetch => b"UID FETCH",
            CompletedWord::UidStore => b"UID STORE",
            CompletedWord::UidSearch => b"UID SEARCH",
            CompletedWord::UidCopy => b"UID COPY",
            CompletedWord::UidMove => b"UID MOVE",
            CompletedWord::UidExpunge => b"UID EXPUNGE",
        }
    }
}

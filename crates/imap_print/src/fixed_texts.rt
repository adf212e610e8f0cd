//! The fixed texts of answers, in the order in which a reader tries them.

ghost use Rattle.std.specs.Prelude.{◌≡◌, ℕ, List, option_map};
ghost use Rattle.imap_print.specs.Reading.{word_at};
ghost use Rattle.imap_print.specs.Tables.{all_attributes, bye_reasons, commands, continuations};
ghost use Rattle.imap_print.specs.Tables.{enabled_words, logins, refusals};
ghost use Rattle.imap_answers.specs.Words.{attributes_text, bye_text, command_text};
ghost use Rattle.imap_answers.specs.Words.{continuation_text, enabled_text, greeting_text};
ghost use Rattle.imap_answers.specs.Words.{refusal_text};

use crate::scanner::skip;
use imap_answers::{
    ByeReason, CompletedWord, Continuation, EnabledExtensions, Login, MailboxState, Refusal,
};

/// A value with one fixed text.
pub trait FixedText: Copy {
    ghost word: { Self → List ℕ };

    /// The text.
    fn word(self) -> &'static [u8]
        ensures { result.now ≡ word self };
}

/// The first candidate whose text the octets begin with, and the rest.
fn first_word<'a, W: FixedText>(candidates: &[W], bytes: &'a [u8]) -> Option<(W, &'a [u8])>
    ensures { option_map (λ x. (x.0, x.1.now)) result ≡ word_at W.word candidates.now bytes.now }
{
    for candidate in candidates {
        if let Some(rest) = skip(bytes, candidate.word()) {
            return Some((*candidate, rest));
        }
    }
    None
}

/// The attributes of a name in LIST, as a pair: the mailbox's state, and whether the name is
/// subscribed.
#[derive(Clone, Copy)]
pub struct Attributes {
    pub state: MailboxState,
    pub subscribed: bool,
}

impl FixedText for Attributes {
    ghost word = { λ a. attributes_text a.state a.subscribed };

    fn word(self) -> &'static [u8] {
        self.state.attributes(self.subscribed)
    }
}

impl FixedText for Login {
    ghost word = { greeting_text };

    fn word(self) -> &'static [u8] {
        self.text()
    }
}

impl FixedText for Continuation {
    ghost word = { continuation_text };

    fn word(self) -> &'static [u8] {
        self.text()
    }
}

impl FixedText for EnabledExtensions {
    ghost word = { enabled_text };

    fn word(self) -> &'static [u8] {
        self.text()
    }
}

impl FixedText for ByeReason {
    ghost word = { bye_text };

    fn word(self) -> &'static [u8] {
        self.text()
    }
}

impl FixedText for Refusal {
    ghost word = { refusal_text };

    fn word(self) -> &'static [u8] {
        self.text()
    }
}

impl FixedText for CompletedWord {
    ghost word = { command_text };

    fn word(self) -> &'static [u8] {
        self.text()
    }
}

/// The greeting that the octets begin with, and the rest.
pub fn login_word(bytes: &[u8]) -> Option<(Login, &[u8])>
    ensures { option_map (λ x. (x.0, x.1.now)) result ≡ word_at greeting_text logins bytes.now }
{
    let candidates = [Login::Required, Login::PreAuthenticated];
    first_word(&candidates, bytes)
}

/// The continuation request that the octets begin with, and the rest.
pub fn continuation_word(bytes: &[u8]) -> Option<(Continuation, &[u8])>
    ensures { option_map (λ x. (x.0, x.1.now)) result
        ≡ word_at continuation_text continuations bytes.now }
{
    let candidates = [Continuation::Ready, Continuation::Idling];
    first_word(&candidates, bytes)
}

/// The answer to ENABLE that the octets begin with, and the rest.
pub fn enabled_word(bytes: &[u8]) -> Option<(EnabledExtensions, &[u8])>
    ensures { option_map (λ x. (x.0, x.1.now)) result
        ≡ word_at enabled_text enabled_words bytes.now }
{
    let candidates = [
        EnabledExtensions::CondstoreImap4Rev2,
        EnabledExtensions::Imap4Rev2Condstore,
        EnabledExtensions::Condstore,
        EnabledExtensions::Imap4Rev2,
        EnabledExtensions::Nothing,
    ];
    first_word(&candidates, bytes)
}

/// The BYE that the octets begin with, and the rest.
pub fn bye_word(bytes: &[u8]) -> Option<(ByeReason, &[u8])>
    ensures { option_map (λ x. (x.0, x.1.now)) result ≡ word_at bye_text bye_reasons bytes.now }
{
    let candidates = [
        ByeReason::LoggingOut,
        ByeReason::LineTooLong,
        ByeReason::LiteralTooLong,
        ByeReason::NulInText,
        ByeReason::NoMemory,
        ByeReason::ReplicaChanged,
        ByeReason::TooManySessions,
    ];
    first_word(&candidates, bytes)
}

/// The refusal that the octets begin with, and the rest.
pub fn refusal_word(bytes: &[u8]) -> Option<(Refusal, &[u8])>
    ensures { option_map (λ x. (x.0, x.1.now)) result ≡ word_at refusal_text refusals bytes.now }
{
    let candidates = [
        Refusal::NoSuchMailbox,
        Refusal::NoDestination,
        Refusal::MailboxExists,
        Refusal::NameNotAllowed,
        Refusal::InboxStays,
        Refusal::NotInProfile,
        Refusal::LoginFailed,
        Refusal::ReadOnly,
        Refusal::TooManyKeywords,
        Refusal::TooManyVersions,
        Refusal::KeywordTooLong,
        Refusal::NumberUsedUp,
        Refusal::LiteralTooLong,
        Refusal::NoMemory,
        Refusal::NoStoreRoom,
        Refusal::UnknownCommand,
        Refusal::BadSyntax,
        Refusal::NotNow,
        Refusal::NoSuchMessage,
        Refusal::DoneExpected,
    ];
    first_word(&candidates, bytes)
}

/// The command's name that the octets begin with, and the rest.
pub fn command_word(bytes: &[u8]) -> Option<(CompletedWord, &[u8])>
    ensures { option_map (λ x. (x.0, x.1.now)) result ≡ word_at command_text commands bytes.now }
{
    let candidates = [
        CompletedWord::Capability,
        CompletedWord::Noop,
        CompletedWord::Logout,
        CompletedWord::Login,
        CompletedWord::Enable,
        CompletedWord::Select,
        CompletedWord::Examine,
        CompletedWord::Create,
        CompletedWord::Delete,
        CompletedWord::Subscribe,
        CompletedWord::Unsubscribe,
        CompletedWord::List,
        CompletedWord::Namespace,
        CompletedWord::Status,
        CompletedWord::Append,
        CompletedWord::Idle,
        CompletedWord::Close,
        CompletedWord::Unselect,
        CompletedWord::Expunge,
        CompletedWord::Search,
        CompletedWord::Fetch,
        CompletedWord::Store,
        CompletedWord::Copy,
        CompletedWord::Move,
        CompletedWord::UidFetch,
        CompletedWord::UidStore,
        CompletedWord::UidSearch,
        CompletedWord::UidCopy,
        CompletedWord::UidMove,
        CompletedWord::UidExpunge,
    ];
    first_word(&candidates, bytes)
}

/// The attributes that the octets begin with, and the rest.
pub fn attributes_word(bytes: &[u8]) -> Option<(Attributes, &[u8])>
    ensures { option_map (λ x. (x.0, x.1.now)) result
        ≡ word_at (λ a. attributes_text a.state a.subscribed) all_attributes bytes.now }
{
    let candidates = [
        Attributes {
            state: MailboxState::Selectable,
            subscribed: false,
        },
        Attributes {
            state: MailboxState::Selectable,
            subscribed: true,
        },
        Attributes {
            state: MailboxState::NoSelect,
            subscribed: false,
        },
        Attributes {
            state: MailboxState::NoSelect,
            subscribed: true,
        },
        Attributes {
            state: MailboxState::NonExistent,
            subscribed: false,
        },
        Attributes {
            state: MailboxState::NonExistent,
            subscribed: true,
        },
    ];
    first_word(&candidates, bytes)
}

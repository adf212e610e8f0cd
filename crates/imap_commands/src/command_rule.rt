//! The rule of a command as far as it is the same in each state of a session.

ghost use Rattle.std.specs.Prelude.{◌≡◌, if◌then◌else◌};
ghost use Rattle.imap_commands.specs.CommandRules.{brief_rule, issuing_rule, plain_rule};
ghost use Rattle.imap_commands.specs.CommandRules.{sync_kind_by};

use imap_answers::CompletedWord;
use session_view::SyncKind;

/// The rule of a command, apart from its intent and its report.
#[derive(Clone, Copy)]
pub struct CommandRule {
    /// The word of its tagged line.
    pub word: CompletedWord,
    /// The kind of sync after it; `None` if there is no sync.
    pub sync: Option<SyncKind>,
    /// Whether it turns mod-sequences on (RFC 7162, section 3.1).
    pub enables_condstore: bool,
    /// Whether it leaves the selected mailbox even if it is refused (RFC 9051, section 6.3.2).
    pub selects: bool,
    /// Whether it begins an IDLE, whose tagged line is sent when it ends (RFC 2177, section 3).
    pub idles: bool,
    /// Whether it may issue operations.
    pub may_issue: bool,
    /// Whether it is brief: it issues nothing, and what it answers depends on no mailbox.
    pub is_brief: bool,
}

impl CommandRule {
    /// The rule of a command that issues nothing and is followed by a full sync.
    pub(crate) fn plain(word: CompletedWord) -> CommandRule
        ensures { result ≡ plain_rule word }
    {
        CommandRule {
            word,
            sync: Some(SyncKind::Full),
            enables_condstore: false,
            selects: false,
            idles: false,
            may_issue: false,
            is_brief: false,
        }
    }

    /// The rule of a brief command.
    pub(crate) fn brief(word: CompletedWord) -> CommandRule
        ensures { result ≡ brief_rule word }
    {
        CommandRule {
            is_brief: true,
            ..CommandRule::plain(word)
        }
    }

    /// The rule of a command that may issue operations and is followed by a full sync.
    pub(crate) fn issuing(word: CompletedWord) -> CommandRule
        ensures { result ≡ issuing_rule word }
    {
        CommandRule {
            may_issue: true,
            ..CommandRule::plain(word)
        }
    }
}

/// The kind of sync: no EXPUNGE if messages are named by their numbers (RFC 9051, section 7.5.1).
pub(crate) fn sync_kind_by(by_uid: bool) -> SyncKind
    ensures { result ≡ sync_kind_by by_uid }
{
    if by_uid {
        SyncKind::Full
    } else {
        SyncKind::Partial
    }
}

/// The word of a command that also has a UID form.
pub(crate) fn word_by(by_uid: bool, uid: CompletedWord, plain: CompletedWord) -> CompletedWord
    ensures { result ≡ (if by_uid then uid else plain) }
{
    if by_uid { uid } else { plain }
}

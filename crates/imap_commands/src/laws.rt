//! Laws of the definitions of commands.

ghost use Rattle.std.specs.Prelude.{◌≡◌, ◌↔◌, ℕ, Bool, true, false, List, [], IsTrue, Ok};
ghost use Rattle.crdt_ops.specs.declared.kind.Kind.{Kind};
ghost use Rattle.imap_commands.specs.Commands.{IsCommandReport, command_intent, is_brief, is_idle};
ghost use Rattle.imap_commands.specs.Commands.{may_issue, state_after_command};
ghost use Rattle.imap_commands.specs.EnableCommand.{search_asks_modseq};
ghost use Rattle.imap_commands.specs.MailStates.{MailState};
ghost use Rattle.imap_commands.specs.Mailboxes.{is_lawful_name};
ghost use Rattle.imap_commands.specs.Report.{CommandReport};
ghost use Rattle.imap_commands.specs.SearchCommand.{search_intent_by_key, search_intent};
ghost use Rattle.imap_commands.specs.SelectCommand.{AreListedKeywords};
ghost use Rattle.imap_commands.specs.declared.session.State.{State};
ghost use Rattle.imap_query.specs.KeyHits.{Key, steps_of};
ghost use Rattle.imap_query.specs.Search.{asks_modseq};
ghost use Rattle.imap_syntax.specs.declared.command.Command.{Command};
ghost use Rattle.imap_types.specs.Names.{IsLawfulName};
ghost use Rattle.mailbox_rows.specs.ListedMessage.{ListedMessage};
ghost use Rattle.session_view.specs.declared.view_entry.ViewEntry.{ViewEntry};

/// The test of a name decides whether a mailbox may bear it (RFC 9051, section 5.1).
pub fn lawful_name_is()
    ensures { (name : List ℕ) → IsTrue (is_lawful_name name) ↔ IsLawfulName name }
{}

/// Each listing has a set of the keywords that its messages bear.
pub fn listed_keywords_are_borne()
    ensures { (rows : List ListedMessage)
        → (keywords : List (List ℕ)) × AreListedKeywords rows keywords }
{}

/// A listing has one such set: two sets of the keywords that its messages bear are equal.
pub fn one_set_of_keywords()
    ensures { (rows : List ListedMessage) (these those : List (List ℕ))
        → AreListedKeywords rows these
        → AreListedKeywords rows those
        → these ≡ those }
{}

/// The steps of a SEARCH and its key agree on whether it has a MODSEQ test (RFC 7162, section
/// 3.1.5) and whether it is refused for a number that no message has (RFC 9051, section 6.4.4).
pub fn searches_are_by_keys()
    ensures modseq { (key : Key) → search_asks_modseq (steps_of key) ≡ asks_modseq key }
    ensures intent { (view : List ViewEntry) (key : Key)
        → search_intent view (steps_of key) ≡ search_intent_by_key view key }
{}

/// A command that may not issue operations issues none, in any state of its session, whatever the
/// replica has.
pub fn commands_issue_only_if_they_may()
    ensures { (mail : MailState) (stamp : List ℕ) (state : State) (command : Command)
        → may_issue command ≡ false
        → (kinds : List Kind) → command_intent mail stamp state command ≡ Ok kinds → kinds ≡ [] }
{}

/// A brief command issues nothing, begins no IDLE and leaves the state of its session as it is; and
/// its intent and its report are the same, whatever the replica has.
pub fn brief_commands_depend_on_no_mailbox()
    ensures issues { (command : Command) → is_brief command ≡ true → may_issue command ≡ false }
    ensures idles { (command : Command) → is_brief command ≡ true → is_idle command ≡ false }
    ensures state { (mail : MailState) (state : State) (command : Command)
        → is_brief command ≡ true
        → state_after_command mail state command ≡ state }
    ensures intent { (mail other : MailState) (stamp : List ℕ) (state : State) (command : Command)
        → is_brief command ≡ true
        → command_intent mail stamp state command ≡ command_intent other stamp state command }
    ensures report { (before after other later : MailState) (state : State) (modseq : Bool)
        (tag : List ℕ) (command : Command) (report : CommandReport)
        → is_brief command ≡ true
        → IsCommandReport before after state modseq tag command report
        → IsCommandReport other later state modseq tag command report }
{}

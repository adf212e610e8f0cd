//! Laws of the operations that commands issue: these change only listed messages, name all versions
//! of each, and have flags that an operation may carry.

ghost use Rattle.std.specs.Prelude.{◌≡◌, ℕ, Bool, List, Ok};
ghost use Rattle.crdt_ops.specs.declared.kind.Kind.{Kind};
ghost use Rattle.imap_types.specs.declared.sequence_set.SequenceRange.{SequenceRange};
ghost use Rattle.imap_commands.specs.Arguments.{OpenMailbox};
ghost use Rattle.imap_commands.specs.CopyCommand.{copy_intent, move_intent};
ghost use Rattle.imap_commands.specs.ExpungeCommand.{close_intent, expunge_intent};
ghost use Rattle.imap_commands.specs.ExpungeCommand.{uid_expunge_intent};
ghost use Rattle.imap_commands.specs.FetchCommand.{fetch_intent};
ghost use Rattle.imap_commands.specs.Issuable.{AreIssuable, HaveLawfulKeywords};
ghost use Rattle.imap_commands.specs.StoreCommand.{store_intent};
ghost use Rattle.imap_syntax.specs.declared.arguments.Fetch.{Fetch};
ghost use Rattle.imap_syntax.specs.declared.arguments.Store.{Store};
ghost use Rattle.imap_syntax.specs.declared.arguments.Transfer.{Transfer};

/// STORE issues Stores of listed messages, with lawful flags.
pub fn stores_are_issuable()
    ensures { (mailbox : OpenMailbox) (destination : List ℕ) (request : Store)
        (kinds : List Kind)
        → HaveLawfulKeywords mailbox.rows
        → store_intent mailbox request ≡ Ok kinds
        → AreIssuable mailbox.name destination mailbox.rows kinds }
{}

/// EXPUNGE and UID EXPUNGE issue Expunges of listed messages; CLOSE issues the same as EXPUNGE, or
/// nothing.
pub fn expunges_are_issuable()
    ensures all { (mailbox : OpenMailbox) (destination : List ℕ) (kinds : List Kind)
        → expunge_intent mailbox ≡ Ok kinds
        → AreIssuable mailbox.name destination mailbox.rows kinds }
    ensures close { (mailbox : OpenMailbox) (destination : List ℕ) (kinds : List Kind)
        → close_intent mailbox ≡ Ok kinds
        → AreIssuable mailbox.name destination mailbox.rows kinds }
    ensures some { (mailbox : OpenMailbox) (destination : List ℕ) (uids : List SequenceRange)
        (kinds : List Kind)
        → uid_expunge_intent mailbox uids ≡ Ok kinds
        → AreIssuable mailbox.name destination mailbox.rows kinds }
{}

/// FETCH issues Stores of listed messages, with lawful flags.
pub fn seen_stores_are_issuable()
    ensures { (mailbox : OpenMailbox) (destination : List ℕ) (request : Fetch)
        (kinds : List Kind)
        → HaveLawfulKeywords mailbox.rows
        → fetch_intent mailbox request ≡ Ok kinds
        → AreIssuable mailbox.name destination mailbox.rows kinds }
{}

/// COPY issues Appends in the destination, with lawful flags.
pub fn copies_are_issuable()
    ensures { (mailbox : OpenMailbox) (request : Transfer) (exists : Bool) (kinds : List Kind)
        → HaveLawfulKeywords mailbox.rows
        → copy_intent mailbox request exists ≡ Ok kinds
        → AreIssuable mailbox.name request.name mailbox.rows kinds }
{}

/// MOVE issues Appends in the destination, with lawful flags, and Expunges of listed messages.
pub fn moves_are_issuable()
    ensures { (mailbox : OpenMailbox) (request : Transfer) (exists : Bool) (kinds : List Kind)
        → HaveLawfulKeywords mailbox.rows
        → move_intent mailbox request exists ≡ Ok kinds
        → AreIssuable mailbox.name request.name mailbox.rows kinds }
{}

//! Laws that reports can be printed (`specs/Printing`), one for each family of commands.

ghost use Rattle.std.specs.Prelude.{ℕ, ◌<◌, Bool, List, length};
ghost use Rattle.imap_answers.specs.Printable.{Each, IsFolded, IsNonzero, IsPrintable, IsTag};
ghost use Rattle.imap_answers.specs.Printable.{IsWide};
ghost use Rattle.imap_commands.specs.Arguments.{CopyTarget, OpenMailbox};
ghost use Rattle.imap_syntax.specs.declared.arguments.Fetch.{Fetch};
ghost use Rattle.imap_syntax.specs.declared.arguments.Search.{Search};
ghost use Rattle.imap_syntax.specs.declared.arguments.Store.{Store};
ghost use Rattle.imap_syntax.specs.declared.arguments.Transfer.{Transfer};
ghost use Rattle.imap_commands.specs.AppendCommand.{append_report};
ghost use Rattle.imap_commands.specs.SimpleCommands.{IsListReport, capability_report, idle_report};
ghost use Rattle.imap_commands.specs.SimpleCommands.{logout_report, namespace_report};
ghost use Rattle.imap_commands.specs.SimpleCommands.{status_report};
ghost use Rattle.imap_commands.specs.CopyCommand.{copy_report, move_report};
ghost use Rattle.imap_commands.specs.EnableCommand.{enable_report};
ghost use Rattle.imap_commands.specs.Report.{CommandReport};
ghost use Rattle.imap_syntax.specs.declared.status.StatusItem.{StatusItem};
ghost use Rattle.imap_query.specs.declared.list_answers.ListMode.{ListMode};
ghost use Rattle.imap_commands.specs.ExpungeCommand.{uid_expunge_report};
ghost use Rattle.imap_commands.specs.FetchCommand.{fetch_report};
ghost use Rattle.imap_commands.specs.SearchCommand.{IsSearchReport};
ghost use Rattle.imap_commands.specs.StoreCommand.{store_report};
ghost use Rattle.imap_syntax.specs.Commands.{IsSpelled};
ghost use Rattle.imap_syntax.specs.declared.command.Tagged.{Tagged};
ghost use Rattle.imap_types.specs.declared.sequence_set.SequenceRange.{SequenceRange};
ghost use Rattle.imap_commands.specs.Printing.{HasAllCopies, AreNonzeroCounters, AreShowable};
ghost use Rattle.imap_commands.specs.Printing.{AreAnswerableItems, IsNumbered, IsAnswerable};
ghost use Rattle.imap_commands.specs.Printing.{IsPrintableReport};
ghost use Rattle.imap_commands.specs.SelectCommand.{IsSelectReport};
ghost use Rattle.imap_query.specs.declared.mailbox_status.MailboxCounters.{MailboxCounters};
ghost use Rattle.mailbox_rows.specs.ListedMessage.{ListedMessage};
ghost use Rattle.session_view.specs.Replay.{view_after_reply};
ghost use Rattle.session_view.specs.Sync.{sync_answers, view_after_sync};
ghost use Rattle.session_view.specs.declared.view_entry.ViewEntry.{ViewEntry};
ghost use Rattle.session_view.specs.declared.reply_replay.SilentFlags.{SilentFlags};
ghost use Rattle.session_view.specs.declared.view_entry.SyncKind.{SyncKind};
ghost use Rattle.imap_answers.specs.declared.answer.Answer.{Answer};

/// The reports of SELECT and EXAMINE can be printed.
pub fn select_is_printable()
    ensures { (was_selected read_only : Bool) (name : List ℕ) (counters : MailboxCounters)
        (rows : List ListedMessage) (report : CommandReport) → IsFolded name
        → AreNonzeroCounters counters
        → AreShowable rows
        → IsSelectReport was_selected read_only name counters rows report
        → IsPrintableReport report }
{}

/// After any replay and any sync a view's UIDs ascend and have 32 bits.
pub fn views_stay_numbered()
    ensures replay { (rows : List ListedMessage) (view : List ViewEntry)
        (silents : List SilentFlags) (answers : List Answer) → AreShowable rows → IsNumbered view
        → IsNumbered (view_after_reply rows view silents answers) }
    ensures sync { (kind : SyncKind) (rows : List ListedMessage) (view : List ViewEntry)
        → AreShowable rows → IsNumbered view
        → IsNumbered (view_after_sync kind rows view) }
{}

/// The report of FETCH can be printed, if the listing after it can be shown.
pub fn fetch_is_printable()
    ensures { (mailbox : OpenMailbox) (after : List ListedMessage) (condstore : Bool)
        (request : Fetch)
        → AreShowable after → IsNumbered mailbox.view → AreAnswerableItems request.items
        → IsPrintableReport (fetch_report mailbox after condstore request) }
{}

/// The report of STORE can be printed, if the listing after it can be shown.
pub fn store_is_printable()
    ensures { (mailbox : OpenMailbox) (after : List ListedMessage) (condstore : Bool)
        (request : Store) → AreShowable after → IsNumbered mailbox.view
        → IsPrintableReport (store_report mailbox after condstore request) }
{}

/// The report of UID EXPUNGE can be printed.
pub fn uid_expunge_is_printable()
    ensures { (mailbox : OpenMailbox) (uids : List SequenceRange)
        → IsPrintableReport (uid_expunge_report mailbox uids) }
{}

/// The answers of a sync can be printed: the expunged messages, the new number of messages, and the
/// flags that changed.
pub fn sync_is_printable()
    ensures { (kind : SyncKind) (modseq : Bool) (rows : List ListedMessage) (view : List ViewEntry)
        → AreShowable rows → IsNumbered view
        → Each IsPrintable (sync_answers kind modseq rows view) }
{}

/// The report of LIST can be printed, if the names of folders and subscriptions have INBOX in
/// capitals.
pub fn list_is_printable()
    ensures { (mode : ListMode) (reference pattern : List ℕ) (folders subscriptions : List (List ℕ))
        (report : CommandReport) → Each IsFolded folders
        → Each IsFolded subscriptions
        → IsListReport mode reference pattern folders subscriptions report
        → IsPrintableReport report }
{}

/// The report of STATUS can be printed, if at least one item is requested.
pub fn status_is_printable()
    ensures { (name : List ℕ) (items : List StatusItem) (counters : MailboxCounters)
        (rows : List ListedMessage) → IsFolded name → 0 < length items → AreNonzeroCounters counters
        → AreShowable rows
        → IsPrintableReport (status_report name items counters rows) }
{}

/// The reports of ENABLE, CAPABILITY, NAMESPACE, LOGOUT and the start of an IDLE can be printed.
pub fn constant_answers_are_printable()
    ensures enable { (names : List (List ℕ)) → IsPrintableReport (enable_report names) }
    ensures capability { IsPrintableReport capability_report }
    ensures namespace { IsPrintableReport namespace_report }
    ensures logout { IsPrintableReport logout_report }
    ensures idle { IsPrintableReport idle_report }
{}

/// The report of SEARCH can be printed.
pub fn search_is_printable()
    ensures { (mailbox : OpenMailbox) (tag : List ℕ) (request : Search) (report : CommandReport)
        → IsTag tag → AreShowable mailbox.rows → IsNumbered mailbox.view
        → IsSearchReport mailbox tag request report → IsPrintableReport report }
{}

/// The reports of COPY and MOVE can be printed, if the destination got as many messages as were
/// copied.
pub fn copies_are_printable()
    ensures copied { (mailbox : OpenMailbox) (request : Transfer) (target : CopyTarget)
        → IsNumbered mailbox.view → IsNonzero target.uidvalidity → AreShowable target.rows
        → HasAllCopies mailbox request target
        → IsPrintableReport (copy_report mailbox request target) }
    ensures moved { (mailbox : OpenMailbox) (request : Transfer) (target : CopyTarget)
        → IsNumbered mailbox.view → IsNonzero target.uidvalidity → AreShowable target.rows
        → HasAllCopies mailbox request target
        → IsPrintableReport (move_report mailbox request target) }
{}

/// The report of APPEND can be printed.
pub fn append_is_printable()
    ensures { (uidvalidity uid : ℕ) → IsNonzero uidvalidity → IsNonzero uid
        → IsPrintableReport (append_report uidvalidity uid) }
{}

/// A frame that spells a command spells a tag and arguments that can be printed in answers.
pub fn spelled_commands_are_answerable()
    ensures { (tagged : Tagged) (octets : List ℕ) → IsSpelled tagged octets → IsWide (length octets)
        → IsTag tagged.tag × IsAnswerable tagged.command }
{}

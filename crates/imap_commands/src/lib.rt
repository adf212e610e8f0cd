//! The commands of RFC 9051, section 6, family by family, apart from any replica.
//!
//! Each command has a rule and two functions, in the file of its family. The rule (`CommandRule`)
//! says what is the same in each state of a session: the word of the tagged line, the sync, whether
//! the command may issue operations, and so on. One function computes its intent: the operations
//! that it issues, or the first reason for refusing it. The other computes its report: the
//! command's own answers, the flags that its session sets silently, and the code of its tagged
//! line. `commands` has the tables of all commands, a line each; `imap_node` does all that commands
//! have in common. The messages that a command names are looked up once: the intent returns them,
//! and the report takes them.
//!
//! Contracts say for each command which operations it issues, in what order reasons for refusing it
//! are tried, and what it reports from the listings before and after it (`specs/`, one file for
//! each family). Laws say that the operations are lawful changes of listed messages (`issuable`),
//! that STORE forms the union or the difference of sets of flags (`flag_sets`), and that all
//! answers can be printed (`printable`). An error always leaves everything as it was; `NoMemory`
//! may replace any result.
//!
//! # Decided
//!
//! - The mailbox that a command works on is one value, `OpenMailbox`, in code and in definitions,
//!   which borrows its parts. The arguments are those that the grammar reads.
//! - A replica is read through a trait, `ReplicaMail`, before the command's operations and after
//!   them. Contracts see it as two records of functions of names (`specs/MailStates`), so that this
//!   crate needs no operations, and says what a command depends on.
//! - The report of SELECT is a relation, so that its keywords are defined by the messages that bear
//!   them. The flags that STORE computes are defined by a function, since operations are functions
//!   of them; laws say that they are the union or the difference, with each keyword once.
//! - STORE refuses a keyword that no message may bear as too long, since a keyword in a command can
//!   have no other fault. Too many keywords, and after them too many versions, are judged by all
//!   the operations that a command would issue, whichever message they change.
#![tactic(auto)]

mod append_command;
mod command_args;
mod command_rule;
mod commands;
mod copy_command;
mod enable_command;
mod expunge_command;
mod fetch_command;
mod flag_change;
mod flag_sets;
mod intent;
mod issuable;
mod laws;
mod limits;
mod login;
mod mailboxes;
mod named_messages;
mod printable;
mod replica_mail;
mod report;
mod report_input;
mod search_command;
mod select_command;
mod session;
mod session_states;
mod simple_commands;
mod store_command;
mod versions;

pub use append_command::{append_intent, append_report};
pub use command_args::{CopyTarget, OpenMailbox};
pub use command_rule::CommandRule;
pub use commands::{
    command_intent, command_report, is_brief, is_enabling, is_idle, is_selecting, may_issue,
    rule_of, stamp_for, state_after_command, sync_of, word_of,
};
pub use copy_command::{copy_intent, copy_report, move_intent, move_report};
pub use enable_command::{
    asks_condstore, enable_report, fetch_asks_modseq, search_asks_modseq, status_asks_modseq,
};
pub use expunge_command::{close_intent, expunge_intent, uid_expunge_intent, uid_expunge_report};
pub use fetch_command::{fetch_intent, fetch_report};
pub use flag_change::changed_flags;
pub use flag_sets::{
    added_flags_are_the_union, changed_flags_are_spelled, removed_flags_are_the_difference,
    replaced_flags_are_those_given,
};
pub use intent::{Intent, NamedMessages};
pub use issuable::{
    copies_are_issuable, expunges_are_issuable, moves_are_issuable, seen_stores_are_issuable,
    stores_are_issuable,
};
pub use laws::{
    brief_commands_depend_on_no_mailbox, commands_issue_only_if_they_may, lawful_name_is,
    listed_keywords_are_borne, one_set_of_keywords, searches_are_by_keys,
};
pub use login::login_intent;
pub use mailboxes::{
    create_intent, created_name, delete_intent, is_lawful_name, subscribe_intent,
    unsubscribe_intent,
};
pub use printable::{
    append_is_printable, constant_answers_are_printable, copies_are_printable, fetch_is_printable,
    list_is_printable, search_is_printable, select_is_printable, spelled_commands_are_answerable,
    status_is_printable, store_is_printable, sync_is_printable, uid_expunge_is_printable,
    views_stay_numbered,
};
pub use replica_mail::ReplicaMail;
pub use report::{CommandReport, entry_at, gone_code, message_at};
pub use report_input::ReportInput;
pub use search_command::{search_intent, search_report};
pub use select_command::{select_intent, select_report};
pub use session::{Credentials, Session, State};
pub use session_states::is_selected;
pub use simple_commands::{
    capability_report, idle_report, list_report, logout_report, namespace_report, status_intent,
    status_report,
};
pub use store_command::{store_intent, store_report};

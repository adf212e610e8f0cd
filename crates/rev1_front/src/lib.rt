//! A front for IMAP4rev1 clients (RFC 3501): which commands of the profile a client's frames are,
//! and how the answers to them are shown.
//!
//! A session has a [`Mode`]: it speaks IMAP4rev1 until ENABLE turns IMAP4rev2 on ([`mode_after`]).
//! [`take`] says what a frame is to it: a command that the port carries out, with a [`Form`] in
//! which its answers are shown; a line of IDLE; RENAME; or something that is answered at once.
//! [`show`] prints the answers, [`plan_rename`] says which mailboxes RENAME renames. Nothing here
//! keeps state or calls a port.
//!
//! In the mode of IMAP4rev2 the frames of the profile and the answers to them are untouched
//! ([`profile_is_untouched`]). In either mode what a frame is has its tag ([`tags_are_kept`]), and
//! tagged lines are shown as lines with the same tag ([`lines_keep_tags`]). Of a search that is
//! shown as numbers all hits are shown ([`all_hits_are_shown`]).
//!
//! `specs/Rev1Keys` has the keys of SEARCH of IMAP4rev1 as RFC 3501 writes them, with the steps
//! that find the same messages in the profile. [`searches_are_read`] says that arguments with such
//! keys are replaced by arguments of the profile with these steps, and that arguments of the
//! profile stay; [`searches_are_taken`] that a frame with them is taken as that search. Both speak
//! of a search whose days are known. [`days_are_asked_for`] says that a frame is taken as a search
//! before that only if the search is the same whatever the days are.
//!
//! # Decided
//!
//! - A frame that spells a command of the profile is this command, in either mode. Only a frame
//!   that spells none is looked at as one of the forms that IMAP4rev1 has beside it. So a text that
//!   a client searches for is never taken for a key, and in the mode of IMAP4rev2 all frames of the
//!   profile and all answers to them are what they are without a front, CAPABILITY too.
//! - LSUB, RENAME and CHECK are read by the grammar of the profile, with LIST, LOGIN and NOOP in
//!   place of their words, since their arguments have the same forms there.
//! - SEARCH with an empty RETURN asks for ESEARCH, and the command's value has no trace of it: the
//!   frame is asked.
//! - A reference and a pattern are decoded each for itself: no shift begins in one and ends in the
//!   other.
//! - ID is answered whatever its argument is, as RFC 2971 lets a server ignore it.
//! - The day on which a message was sent is the one that the first digits of its first Date field
//!   begin, as it is written; a message without such a day matches none of the three keys. A search
//!   by such days asks for all texts first ([`Taken::AsksDays`], [`sent_days`]), and the frame is
//!   taken again with the days ([`take_with_days`]).
//! - SEARCH is read token by token. Each key of IMAP4rev1 is replaced by one of the profile
//!   (`SearchReading` of specs/), and the grammar of the profile reads what comes out. So NEW,
//!   RECENT and keys about days, which may be NOT ALL, can be nested 63 levels deep, one less than
//!   other keys; and MODSEQ takes any two strings for the name and the type of an entry.
//! - The words of STATUS are divided by single spaces; with RECENT as without it, an empty word is
//!   bad syntax.
//! - LSUB shows `\Noselect` for subscribed names that are no mailboxes, whether they are levels
//!   above mailboxes or not.
#![tactic(auto)]

mod authentication;
mod client_frames;
mod fixed_texts;
mod form;
mod frame_parts;
mod inner_names;
mod laws;
mod lsub;
mod name_commands;
mod outer_names;
mod rename_plan;
mod search_commands;
mod search_days;
mod search_frame;
mod search_keys;
mod session;
mod shown;
mod status_frame;
mod taken;
mod tokens;

pub use client_frames::{take, take_with_days};
pub use fixed_texts::{FrontRefusal, greeting, print_refusal};
pub use form::Form;
pub use inner_names::inner_octets;
pub use laws::{
    all_hits_are_shown, days_are_asked_for, lines_keep_tags, profile_is_untouched,
    searches_are_read, searches_are_taken, tags_are_kept,
};
pub use outer_names::outer_name;
pub use rename_plan::{RenamePlan, RenamedMailbox, plan_rename};
pub use search_days::{SentDay, sent_days};
pub use session::{Awaited, Mode, mode_after};
pub use shown::show;
pub use taken::{Taken, print_at_once};

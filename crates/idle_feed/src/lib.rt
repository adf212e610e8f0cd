//! Notes of what is still to be sent to a session about its selected mailbox.
//!
//! A [`Feed`] contains notes of what happened to the mailbox's messages since the session's last
//! sync, so that its whole view needn't be compared with the whole mailbox. It has at most 4,096
//! notes. If it misses some, because there are more or memory ran out, it says so.
//!
//! The contract of a feed says that taking its notes gives all that were added since the last time,
//! or a resync if and only if some were missed. [`plan`] plans a sync of the view by its feed and
//! takes all memory for it; it leaves view and feed unchanged. Its answers are those of a sync by
//! comparison. [`commit`] then carries the sync out in place without allocating, and the notes that
//! it leaves in the feed name all that still differs.
#![tactic(auto)]

mod feed;
mod feed_notes;
mod laws;
mod sync_planning;
mod view_change;

pub use feed::{Feed, MAX_NOTES, TakenNotes};
pub use feed_notes::note_all;
pub use laws::takes_return_all;
pub use sync_planning::{NotedChanges, PlannedSync, plan};
pub use view_change::{ViewChange, commit};

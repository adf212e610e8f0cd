//! `ViewChange`: the change that a planned sync makes to a view, and how it is carried out.

ghost use Rattle.std.specs.Prelude.{◌≡◌, List};
ghost use Rattle.idle_feed.specs.Feeds.{Pending};
ghost use Rattle.mailbox_rows.specs.ListedMessage.{ListedMessage};
ghost use Rattle.session_view.specs.declared.view_entry.ViewEntry.{ViewEntry};
ghost use Rattle.idle_feed.specs.NotedFeeds.{CanCommit, IsChangeTo, IsLeftNoted, IsLeftBy};
ghost use Rattle.idle_feed.specs.NotedFeeds.{NotesAllOf, entries_after_change};

use crate::feed::{Feed, TakenNotes};
use session_view::{Changes, Note, Patch, SilentFlags, View, ViewEntries};

/// The change that a sync makes to a view, with all memory that it takes.
#[derive(Drop)]
pub enum ViewChange {
    /// The view is changed in place: first these flags are set, then the patch is applied. The
    /// notes `left` stay in the feed if `whole` says that they then name all differences.
    InPlace {
        first: Vec<SilentFlags>,
        patch: Patch,
        left: Vec<Note>,
        whole: bool,
    },
    /// The view's messages stay, with these flags set. The notes `left` stay in the feed.
    Kept {
        first: Vec<SilentFlags>,
        left: Vec<Note>,
    },
    /// The view shows these messages. The notes `left` stay in the feed if `whole` says that they
    /// then name all differences.
    Rebuilt {
        entries: ViewEntries,
        left: Vec<Note>,
        whole: bool,
    },
}

/// Carries out a planned sync of a view and its feed. Takes no memory.
pub fn commit(view: &mut View, feed: &mut Feed, change: ViewChange)
    requires { CanCommit view.old.entries change }
    ensures view { view.new
        ≡ record view.old { entries = entries_after_change view.old.entries change } }
    ensures noted { (rows : List ListedMessage)
        → IsChangeTo rows view.old.entries change
        → NotesAllOf feed.new.pending rows view.new.entries }
{
    let left = change_view(view, change);
    feed.clear();
    feed.restore(left);
}

/// Carries out a planned change of the view, and returns the notes of what is still to be sent.
/// Takes no memory.
fn change_view(view: &mut View, change: ViewChange) -> TakenNotes
    requires { CanCommit view.old.entries change }
    ensures view { view.new
        ≡ record view.old { entries = entries_after_change view.old.entries change } }
    ensures left { (rows : List ListedMessage)
        → IsChangeTo rows view.old.entries change
        → IsLeftNoted result rows (entries_after_change view.old.entries change) }
{
    match change {
        ViewChange::InPlace {
            first,
            patch,
            left,
            whole,
        } => {
            let mut first = first;
            view.set_flags(&mut first);
            view.patch(patch);
            notes_if_all(left, whole)
        }
        ViewChange::Kept { first, left } => {
            let mut first = first;
            view.set_flags(&mut first);
            notes_if_all(left, true)
        }
        ViewChange::Rebuilt {
            entries,
            left,
            whole,
        } => {
            view.show(entries);
            notes_if_all(left, whole)
        }
    }
}

/// These notes, if they name all that is still to be sent; else a resync.
fn notes_if_all(left: Vec<Note>, whole: bool) -> TakenNotes
    ensures { (rows : List ListedMessage) (goal : List ViewEntry)
        → IsLeftBy left.items whole rows goal
        → IsLeftNoted result rows goal }
{
    if whole {
        TakenNotes::Changes {
            changes: Changes::new(left),
        }
    } else {
        TakenNotes::Resync
    }
}

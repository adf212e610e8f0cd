//! Adds the notes of operations to a feed.

ghost use Rattle.std.specs.Prelude.{◌≡◌, ◌⊎◌, ◌≤◌, ◌++◌, true, length, List};
ghost use Rattle.mailbox_rows.specs.ListedMessage.{ListedMessage};
ghost use Rattle.session_view.specs.NoteChanges.{NoteAllChanges};
ghost use Rattle.session_view.specs.Views.{entries_of};
ghost use Rattle.session_view.specs.declared.view_entry.ViewEntry.{ViewEntry};
ghost use Rattle.idle_feed.specs.Feeds.{pending_after_notes};
ghost use Rattle.idle_feed.specs.NotedFeeds.{NotesAllOf};

use crate::feed::Feed;
use session_view::Note;

/// Notes what changed in a view's mailbox. Takes no memory. A note for which there is no room is
/// missed, and so is each after the 4,096th; the feed says so.
pub fn note_all(feed: &mut Feed, notes: &[Note])
    ensures noted { (before after : List ListedMessage) (view : List ViewEntry)
        → NotesAllOf feed.old.pending before view
        → NoteAllChanges notes.now after (entries_of before)
        → NotesAllOf feed.new.pending after view }
    ensures kept { length notes.now ≤ feed.old.room
        → feed.new.pending ≡ pending_after_notes feed.old.pending notes.now }
{
    push_all(feed, notes);
}

fn push_all(feed: &mut Feed, notes: &[Note])
    ensures missed { feed.old.pending.missed ≡ true → feed.new.pending.missed ≡ true }
    ensures noted { (feed.new.pending.missed ≡ true)
        ⊎ (feed.new.pending.notes ≡ feed.old.pending.notes ++ notes.now) }
    ensures kept { length notes.now ≤ feed.old.room
        → feed.new.pending ≡ pending_after_notes feed.old.pending notes.now }
{
    for note in notes {
        feed.note(*note);
    }
}

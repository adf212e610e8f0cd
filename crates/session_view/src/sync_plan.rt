//! Plans of syncs that look only at named messages, and how a plan is carried out without memory.

ghost use Rattle.std.specs.Prelude.{◌≡◌, ◌⊎◌, true, ◌≤◌, ◌+◌, ◌-◌, ◌<◌, ◌^◌, ◌++◌, List, [], ℕ};
ghost use Rattle.std.specs.Prelude.{◌∷◌, drop, length, IfOk, OnOk, Some};
ghost use Rattle.std.specs.List.{slice_get};
ghost use Rattle.std.specs.Option.{option_copied};
ghost use Rattle.mailbox_rows.specs.RowViews.{listed_message};
ghost use Rattle.session_view.specs.NoteChanges.{AreAscending, HasRoomForArrivals, NoteAllChanges};
ghost use Rattle.session_view.specs.NoteChanges.{all_fetched_flags, expunges_of_numbers};
ghost use Rattle.session_view.specs.NoteChanges.{notes_left_by_sync, patched_entries, without_from};
ghost use Rattle.session_view.specs.Notes.{NameAllDifferences};
ghost use Rattle.session_view.specs.Sync.{exists_if_more, fetch_if_changed, staying_entries};
ghost use Rattle.session_view.specs.Sync.{sync_answers, view_after_sync};
ghost use Rattle.session_view.specs.Views.{AreRising, last_from, last_uid};
ghost use Rattle.session_view.specs.Walks.{IsWalk, gone_numbers, notes_left};
ghost use Rattle.session_view.specs.declared.view_entry.SyncKind.TheVariants.{Full};

use crate::comparison_sync::{are_same, change_of, push_exists, push_new};
use crate::notes::Note;
use crate::reply_replay::{SilentFlags, set_flags, take_number};
use crate::set_places::count_below;
use crate::view_entry::{SyncForm, SyncKind, ViewEntries, ViewEntry, count_of, last_uid, uid_at};
use chunk_list::ReservedRoom;
use imap_answers::Answer;
use mailbox_rows::{Row, Rows};
use std::alloc::{AllocError, Global};

/// The changes that a sync makes to a view: the numbers of the messages that are gone, ascending;
/// the new messages; and the changed flags, by the numbers that messages have after that.
#[derive(Drop)]
pub struct Patch {
    pub(crate) gone: Vec<u32>,
    pub(crate) arrivals: Vec<ViewEntry>,
    pub(crate) flags: Vec<SilentFlags>,
    /// Room for the new messages, if there are any. It is here because a view itself doesn't say
    /// whether it has room.
    pub(crate) place: ReservedRoom<ViewEntry>,
}

/// The result of a sync that isn't carried out yet, with all memory that it takes.
#[derive(Drop)]
pub struct SyncPlan {
    /// The answers that it sends.
    pub answers: Vec<Answer>,
    /// The changes that it makes to the view.
    pub patch: Patch,
    /// Notes of what it leaves unsent: in a partial sync, the messages that are gone.
    pub left: Vec<Note>,
    /// Whether these notes name all that differs after the sync. They do if the messages that the
    /// view lacked arrived after its own.
    pub whole: bool,
}

/// The plan of a sync that first sets flags.
#[derive(Drop)]
pub struct SyncPlanAfterFlags {
    /// The flags that are set first.
    pub first: Vec<SilentFlags>,
    /// The plan of the sync.
    pub planned: SyncPlan,
}

/// The progress of a sync through a view.
#[derive(Drop)]
pub struct SyncWalk {
    /// The number of messages that are done.
    done: usize,
    /// The numbers of the messages that are gone and are reported as such.
    gone: Vec<u32>,
    /// The flags that changed.
    flags: Vec<SilentFlags>,
    /// The FETCHes that report the changed flags.
    fetches: Vec<Answer>,
    /// Notes of what is left unsent.
    left: Vec<Note>,
}

/// Plans a sync of this view with this listing. The UIDs ascend and include those of all messages
/// of the view that differ. `Err` if memory runs out. Cost: a look-up in the view and one in the
/// listing for each UID, and the listing's messages after the view's last.
pub fn plan_sync(
    alloc: Global,
    form: SyncForm,
    rows: &Rows<'_>,
    view: &ViewEntries,
    uids: &[u32],
) -> Result<SyncPlan, AllocError>
    requires rising { AreRising 1 view.now.items }
    requires ascending { AreAscending 0 uids.now }
    requires covers { NameAllDifferences uids.now rows.now view.now.items }
    ensures answers { IfOk result
        (λ planned. planned.answers.items
        ≡ sync_answers form.kind form.modseq rows.now view.now.items) }
    ensures patch { IfOk result (λ planned. patched_entries view.now.items planned.patch.gone.items
        planned.patch.arrivals.items planned.patch.flags.items
        ≡ view_after_sync form.kind rows.now view.now.items) }
    ensures left { IfOk result
        (λ planned. planned.left.items ≡ notes_left_by_sync form.kind rows.now view.now.items) }
    ensures whole { IfOk result (λ planned. planned.whole ≡ true
        → NoteAllChanges planned.left.items rows.now
        (view_after_sync form.kind rows.now view.now.items)) }
    ensures place { IfOk result (λ planned. HasRoomForArrivals view.now.items planned.patch) }
{
    let count = count_of(view);
    let listed = rows.count();
    let walk = walk_view(alloc, form, rows, view, uids)?;
    let mut arrivals = Vec::new(alloc);
    let last = last_staying_uid(form.kind, rows, view);
    push_new(alloc, last, rows, &mut arrivals)?;
    let _last = last_from(last, &arrivals);
    finish_walk(alloc, count, listed, walk, arrivals)
}

/// The plan of a sync after all messages were looked at: the view has `count` messages, the listing
/// has `listed`, and `arrivals` contains the new ones. `Err` if memory runs out.
fn finish_walk(
    alloc: Global,
    count: u32,
    listed: u32,
    walk: SyncWalk,
    arrivals: Vec<ViewEntry>,
) -> Result<SyncPlan, AllocError>
    requires few { length walk.gone.items ≤ count }
    requires fits { count - length walk.gone.items + length arrivals.items < 2 ^ 32 }
    ensures answers { IfOk result (λ planned. planned.answers.items
        ≡ expunges_of_numbers walk.gone.items
        ++ (exists_if_more (count - length walk.gone.items)
        (count - length walk.gone.items + length arrivals.items) ++ walk.fetches.items)) }
    ensures gone { IfOk result (λ planned. planned.patch.gone.items ≡ walk.gone.items) }
    ensures arrivals { IfOk result (λ planned. planned.patch.arrivals.items ≡ arrivals.items) }
    ensures flags { IfOk result (λ planned. planned.patch.flags.items ≡ walk.flags.items) }
    ensures left { IfOk result (λ planned. planned.left.items ≡ walk.left.items) }
    ensures whole { IfOk result (λ planned. planned.whole ≡ true
        → count - length walk.gone.items + length arrivals.items
        ≡ listed + length walk.left.items) }
    ensures place { IfOk result (λ planned. (arrivals.items ≡ [])
        ⊎ ((count ≤ planned.patch.place.most)
        × (length arrivals.items ≤ planned.patch.place.room))) }
{
    let SyncWalk {
        gone,
        flags,
        fetches,
        left,
        ..
    } = walk;
    let answers = answers_of_walk(alloc, count, &gone, &arrivals, fetches)?;
    let whole = is_whole(
        count as usize - gone.len() + arrivals.len(),
        listed as usize,
        left.len(),
    );
    let place = place_for(alloc, count as usize, &arrivals)?;
    Ok(SyncPlan {
        answers,
        patch: Patch {
            gone,
            arrivals,
            flags,
            place,
        },
        left,
        whole,
    })
}

/// Whether `count` messages are as many as those listed and those left noted as gone.
fn is_whole(count: usize, listed: usize, left: usize) -> bool
    ensures { result ≡ true → count ≡ listed + left }
{
    count >= listed && count - listed == left
}

/// Room for these messages after `count` others, if there are any messages. `Err` if memory runs
/// out.
fn place_for(
    alloc: Global,
    count: usize,
    arrivals: &[ViewEntry],
) -> Result<ReservedRoom<ViewEntry>, AllocError>
    ensures { IfOk result
        (λ place. (arrivals.now ≡ [])
        ⊎ ((count ≤ place.most) × (length arrivals.now ≤ place.room))) }
{
    if arrivals.is_empty() {
        return Ok(ReservedRoom::none(alloc));
    }
    ReservedRoom::new(alloc, count, arrivals.len())
}

/// The last message's UID, or `low` if there is no message.
fn last_from(low: u32, entries: &[ViewEntry]) -> u32
    ensures { result ≡ last_from low entries.now }
{
    match entries.last() {
        Some(entry) => entry.uid,
        None => low,
    }
}

/// The answers of a sync: EXPUNGE of these numbers, the last one first, EXISTS if messages arrived,
/// and these FETCHes. `Err` if memory runs out.
fn answers_of_walk(
    alloc: Global,
    count: u32,
    gone: &[u32],
    arrivals: &[ViewEntry],
    fetches: Vec<Answer>,
) -> Result<Vec<Answer>, AllocError>
    requires few { length gone.now ≤ count }
    requires fits { count - length gone.now + length arrivals.now < 2 ^ 32 }
    ensures { IfOk result (λ answers. answers.items
        ≡ expunges_of_numbers gone.now
        ++ (exists_if_more (count - length gone.now) (count - length gone.now + length arrivals.now)
        ++ fetches.items)) }
{
    let mut answers = Vec::new(alloc);
    push_expunged(gone, &mut answers)?;
    let staying = count as usize - gone.len();
    push_exists(
        staying as u32,
        (staying + arrivals.len()) as u32,
        &mut answers,
    )?;
    let mut fetches = fetches;
    answers.append(&mut fetches)?;
    Ok(answers)
}

/// Appends EXPUNGE of these numbers, the last one first. `Err` if memory runs out.
fn push_expunged(gone: &[u32], answers: &mut Vec<Answer>) -> Result<(), AllocError>
    ensures { OnOk result (answers.new.items ≡ answers.old.items ++ expunges_of_numbers gone.now) }
{
    for i in (0..gone.len()).rev() {
        answers.push(Answer::Expunge { number: gone[i] })?;
    }
    Ok(())
}

/// The UID of the last message that stays, or 0 if none does. In a full sync it looks up the last
/// messages until one is listed.
fn last_staying_uid(kind: SyncKind, rows: &Rows<'_>, view: &ViewEntries) -> u32
    ensures { result ≡ last_uid (staying_entries kind rows.now view.now.items) }
{
    match kind {
        SyncKind::Full => last_listed(rows, view),
        SyncKind::Partial => last_uid(view),
    }
}

fn last_listed(rows: &Rows<'_>, view: &ViewEntries) -> u32
    ensures { result ≡ last_uid (staying_entries Full rows.now view.now.items) }
{
    for i in (0..view.len()).rev() {
        let uid = uid_at(view, i);
        if let Some(_) = rows.row_near(i, uid) {
            return uid;
        }
    }
    0
}

/// Looks at the messages of the view with these UIDs. `Err` if memory runs out.
fn walk_view(
    alloc: Global,
    form: SyncForm,
    rows: &Rows<'_>,
    view: &ViewEntries,
    uids: &[u32],
) -> Result<SyncWalk, AllocError>
    requires rising { AreRising 1 view.now.items }
    requires count { length view.now.items < 2 ^ 32 }
    requires ascending { AreAscending 0 uids.now }
    requires covers { NameAllDifferences uids.now rows.now view.now.items }
    ensures { IfOk result (λ walk. IsWalk form.kind form.modseq rows.now view.now.items [] walk) }
{
    let mut walk = SyncWalk {
        done: 0,
        gone: Vec::new(alloc),
        flags: Vec::new(alloc),
        fetches: Vec::new(alloc),
        left: Vec::new(alloc),
    };
    for uid in uids {
        walk_one(alloc, form, rows, view, *uid, &mut walk)?;
    }
    Ok(walk)
}

/// Looks at the message with this UID, if the view has it among those that aren't done. `Err` if
/// memory runs out.
fn walk_one(
    alloc: Global,
    form: SyncForm,
    rows: &Rows<'_>,
    view: &ViewEntries,
    uid: u32,
    walk: &mut SyncWalk,
) -> Result<(), AllocError>
    requires rising { AreRising 1 view.now.items }
    requires count { length view.now.items < 2 ^ 32 }
    requires few { length walk.now.gone.items ≤ walk.now.done }
    ensures few { OnOk result (length walk.new.gone.items ≤ walk.new.done) }
    ensures is_walk { OnOk result ((rest : List ℕ)
        → IsWalk form.kind form.modseq rows.now view.now.items (uid ∷ rest) walk.old
        → IsWalk form.kind form.modseq rows.now view.now.items rest walk.new) }
{
    let place = count_below(view, u64::from(uid));
    if place < walk.done {
        return Ok(());
    }
    let Some(entry) = entry_at(view, place) else {
        return Ok(());
    };
    if entry.uid != uid {
        return Ok(());
    }
    walk.done = place;
    take_noted(alloc, form, rows, entry, walk)
}

/// The message at this place, from 0 on.
fn entry_at(view: &ViewEntries, place: usize) -> Option<&ViewEntry>
    ensures { option_copied result ≡ slice_get view.now.items place }
{
    view.get(place)
}

/// Looks at the next message. `Err` if memory runs out.
fn take_noted(
    alloc: Global,
    form: SyncForm,
    rows: &Rows<'_>,
    entry: &ViewEntry,
    walk: &mut SyncWalk,
) -> Result<(), AllocError>
    requires few { length walk.now.gone.items ≤ walk.now.done }
    requires fits { walk.now.done + 1 < 2 ^ 32 }
    ensures few { OnOk result (length walk.new.gone.items ≤ walk.new.done) }
    ensures is_walk { OnOk result ((view : List ViewEntry) → (rest : List ℕ)
        → (back : List ViewEntry) → drop walk.old.done view ≡ entry.now ∷ back
        → NameAllDifferences rest rows.now back
        → IsWalk form.kind form.modseq rows.now view (entry.now.uid ∷ rest) walk.old
        → IsWalk form.kind form.modseq rows.now view rest walk.new) }
{
    let number = (walk.done - walk.gone.len()) as u32 + 1;
    walk.done += 1;
    match rows.row_near((number as usize).saturating_sub(1), entry.uid) {
        Some(row) => push_flag_change(alloc, form.modseq, number, entry, &row, walk),
        None => push_gone(
            form.kind,
            walk.done as u32,
            entry.uid,
            &mut walk.gone,
            &mut walk.left,
        ),
    }
}

/// Appends FETCH of the message's flags, and the flags, if they differ from the view's. `Err` if
/// memory runs out.
fn push_flag_change(
    alloc: Global,
    modseq: bool,
    number: u32,
    entry: &ViewEntry,
    row: &Row<'_>,
    walk: &mut SyncWalk,
) -> Result<(), AllocError>
    ensures fetches { OnOk result (walk.new.fetches.items
        ≡ walk.old.fetches.items
        ++ fetch_if_changed modseq number entry.now (Some (listed_message row.now))) }
    ensures flags { OnOk result (walk.new.flags.items
        ≡ walk.old.flags.items
        ++ all_fetched_flags
        (fetch_if_changed modseq number entry.now (Some (listed_message row.now)))) }
    ensures done { walk.new.done ≡ walk.old.done }
    ensures gone { walk.new.gone ≡ walk.old.gone }
    ensures left { walk.new.left ≡ walk.old.left }
{
    if are_same(&entry.flags, row) {
        return Ok(());
    }
    walk.fetches.push(change_of(alloc, modseq, number, row)?)?;
    let flags = row.versions.flags(alloc)?;
    walk.flags.push(SilentFlags { number, flags })?;
    Ok(())
}

/// Notes that a message is gone: its number, or, in a partial sync, a note. `Err` if memory runs
/// out.
fn push_gone(
    kind: SyncKind,
    number: u32,
    uid: u32,
    gone: &mut Vec<u32>,
    left: &mut Vec<Note>,
) -> Result<(), AllocError>
    ensures gone { OnOk result (gone.new.items ≡ gone.old.items ++ gone_numbers kind number) }
    ensures left { OnOk result (left.new.items ≡ left.old.items ++ notes_left kind uid) }
{
    match kind {
        SyncKind::Full => gone.push(number)?,
        SyncKind::Partial => left.push(Note::Gone { uid })?,
    }
    Ok(())
}

/// Carries out a sync in the view's messages. There is room for the new ones. Takes no memory.
pub fn patch_in(entries: &mut ViewEntries, patch: Patch)
    requires { HasRoomForArrivals entries.now.items patch }
    ensures { entries.new.items
        ≡ patched_entries entries.old.items patch.gone.items patch.arrivals.items
        patch.flags.items }
{
    let Patch {
        gone,
        arrivals,
        flags,
        place,
    } = patch;
    take_all_out(&gone, entries);
    append_in_room(arrivals, place, entries);
    for silent in flags {
        let SilentFlags { number, flags } = silent;
        set_flags(number, flags, entries);
    }
}

/// Removes the messages with these numbers, the last one first.
fn take_all_out(gone: &[u32], entries: &mut ViewEntries)
    ensures { entries.new.items ≡ without_from gone.now entries.old.items }
{
    for i in (0..gone.len()).rev() {
        take_number(gone[i], entries);
    }
}

/// Appends messages, for which `place` is room. Takes no memory.
fn append_in_room(
    arrivals: Vec<ViewEntry>,
    place: ReservedRoom<ViewEntry>,
    entries: &mut ViewEntries,
)
    requires { (arrivals.items ≡ [])
        ⊎ ((length entries.now.items ≤ place.most) × (length arrivals.items ≤ place.room)) }
    ensures { entries.new.items ≡ entries.old.items ++ arrivals.items }
{
    if arrivals.is_empty() {
        return;
    }
    entries.adopt_room(place);
    move_to_end(arrivals, entries);
}

/// Appends messages, for which the list has room.
fn move_to_end(arrivals: Vec<ViewEntry>, entries: &mut ViewEntries)
    requires { length arrivals.items ≤ entries.now.room }
    ensures { entries.new.items ≡ entries.old.items ++ arrivals.items }
{
    for entry in arrivals {
        entries.push_reserved(entry);
    }
}

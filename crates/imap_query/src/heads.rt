//! FETCH and SEARCH by the heads of rows only, without dates and texts.

ghost use Rattle.std.specs.Prelude.{◌≡◌, ◌++◌, ◌∷◌, [], map, true, IfOk, IfSome, OnOk, option_map};
ghost use Rattle.imap_types.specs.Numbers.{AreRisingFrom};
ghost use Rattle.imap_types.specs.Unions.{united_flags};
ghost use Rattle.imap_query.specs.FetchCommand.{fetch_answers, parts_of, if_reported};
ghost use Rattle.imap_query.specs.Heads.{are_answerable_by_heads, flag_key, head_answer, head_hit};
ghost use Rattle.imap_query.specs.Heads.{head_items};
ghost use Rattle.imap_query.specs.Heads.{is_head_above_changed_since};
ghost use Rattle.imap_query.specs.Hits.{IsSameOrAppended};
ghost use Rattle.imap_query.specs.Search.{hits_in, number_or_uid};
ghost use Rattle.mailbox_rows.specs.RowViews.{head_of, listed_head, row_of};

use crate::answer_room::make_room;
use crate::fetch_command::{
    FetchParts, FetchSpec, answers_at_once, push_fetch, reports_modseq, reports_uid,
};
use crate::keys::FlagTest;
use crate::messages::{agrees_with, has_flag};
use crate::search_command::{Hit, shown_number};
use crate::viewed_message::ViewedMessage;
use imap_answers::{Answer, FetchItems, Sections};
use imap_types::{Flags, Keywords, Version, Versions};
use mailbox_rows::{RowHead, Rows};
use std::alloc::{AllocError, Global};

/// Whether the heads of rows contain all that these parts ask for.
pub(crate) fn are_answerable_by_heads(parts: FetchParts) -> bool
    ensures { result ≡ are_answerable_by_heads parts }
{
    !parts.date && !parts.size && !parts.sections && !parts.seen
}

/// The answers to FETCH for the named messages, from the heads of one listing's rows. The heads
/// contain all that is asked for.
pub(crate) fn fetch_heads(
    alloc: Global,
    named: &[ViewedMessage],
    rows: &Rows<'_>,
    asked: FetchSpec<'_>,
) -> Result<Vec<Answer>, AllocError>
    requires parts { asked.parts ≡ parts_of asked.items.now }
    requires heads { are_answerable_by_heads asked.parts ≡ true }
    ensures { IfOk result (λ answers. answers.items
        ≡ fetch_answers asked.entry.items.now asked.entry.mode rows.now rows.now named.now) }
{
    let mut answers = Vec::with_capacity(alloc, answers_at_once(named, asked.mode))?;
    for shown in named {
        push_answer(alloc, rows, asked, *shown, &mut answers)?;
    }
    Ok(answers)
}

/// Adds the answer for one message, if the listing has it and it changed since CHANGEDSINCE.
#[inline(always)]
fn push_answer(
    alloc: Global,
    rows: &Rows<'_>,
    asked: FetchSpec<'_>,
    shown: ViewedMessage,
    answers: &mut Vec<Answer>,
) -> Result<(), AllocError>
    requires { asked.parts ≡ parts_of asked.items.now }
    ensures { OnOk result (answers.new.items
        ≡ answers.old.items
        ++ head_answer asked.entry.items.now asked.entry.mode shown
        (option_map head_of (row_of shown.uid rows.now))) }
{
    match rows.head_near(shown.place(), shown.uid) {
        None => Ok(()),
        Some(head) => {
            if !is_head_above_changed_since(asked.mode.changed_since, &head) {
                return Ok(());
            }
            let reported = head_items(alloc, asked, &head)?;
            push_fetch(answers, shown.number, reported)
        }
    }
}

/// Whether a message's mod-sequence is above that of CHANGEDSINCE, if one is given (RFC 7162,
/// section 3.1.4.1).
#[inline(always)]
fn is_head_above_changed_since(changed_since: Option<u64>, head: &RowHead<'_>) -> bool
    ensures { result ≡ is_head_above_changed_since changed_since (listed_head head.now) }
{
    match changed_since {
        None => true,
        Some(modseq) => head.modseq > modseq,
    }
}

/// The items that FETCH asks for, of one message.
#[inline(always)]
fn head_items(
    alloc: Global,
    asked: FetchSpec<'_>,
    head: &RowHead<'_>,
) -> Result<FetchItems, AllocError>
    requires { asked.parts ≡ parts_of asked.items.now }
    ensures { IfOk result
        (λ reported. reported
        ≡ head_items asked.entry.items.now asked.entry.mode (listed_head head.now)) }
{
    let flags = flags_if_reported(alloc, asked.parts.flags, head.versions)?;
    Ok(FetchItems {
        uid: reports_uid(asked).then_some(head.uid),
        flags,
        date: None,
        size: None,
        modseq: reports_modseq(asked, asked.parts.flags).then_some(head.modseq),
        sections: Sections::new(Vec::new(alloc)),
    })
}

/// The union of a message's flags, if they are reported.
#[inline(always)]
fn flags_if_reported(
    alloc: Global,
    reported: bool,
    versions: Versions<'_>,
) -> Result<Option<Flags>, AllocError>
    ensures { IfOk result
        (λ flags. flags ≡ if_reported reported (united_flags versions.entry.list.now)) }
{
    if !reported {
        return Ok(None);
    }
    match plain_flags(alloc, versions.as_slice()) {
        Some(flags) => Ok(Some(flags)),
        None => Ok(Some(versions.flags(alloc)?)),
    }
}

/// The union of the versions' flags, if there is one version and it has no keywords, as with most
/// messages; `None` otherwise.
#[inline(always)]
fn plain_flags(alloc: Global, versions: &[Version]) -> Option<Flags>
    ensures { IfSome result (λ flags. flags ≡ united_flags versions.now) }
{
    match versions {
        [version] => {
            if !version.flags.keywords.is_empty() {
                return None;
            }
            Some(Flags {
                answered: version.flags.answered,
                flagged: version.flags.flagged,
                deleted: version.flags.deleted,
                seen: version.flags.seen,
                draft: version.flags.draft,
                keywords: Keywords::empty(alloc),
            })
        }
        _ => None,
    }
}

/// The messages for which a test of a flag holds, in the view's order.
pub(crate) fn flagged_hits(
    alloc: Global,
    view: &[ViewedMessage],
    rows: &Rows<'_>,
    by_uid: bool,
    test: FlagTest,
) -> Result<Vec<Hit>, AllocError>
    requires { AreRisingFrom 1 (map (number_or_uid by_uid) view.now) }
    ensures hits { IfOk result
        (λ hits. hits.items ≡ hits_in by_uid (flag_key test) rows.now view.now) }
    ensures rising { IfOk result (λ hits. AreRisingFrom 1 (map (λ hit. hit.number) hits.items)) }
{
    let mut hits = Vec::new(alloc);
    for shown in view {
        push_flagged(rows, by_uid, test, *shown, &mut hits)?;
    }
    Ok(hits)
}

/// Adds a message, if the listing has it and the test holds for it.
#[inline(always)]
fn push_flagged(
    rows: &Rows<'_>,
    by_uid: bool,
    test: FlagTest,
    shown: ViewedMessage,
    all_hits: &mut Vec<Hit>,
) -> Result<(), AllocError>
    ensures hits { OnOk result (all_hits.new.items
        ≡ all_hits.old.items
        ++ head_hit by_uid test shown (option_map head_of (row_of shown.uid rows.now))) }
    ensures numbers { OnOk result (IsSameOrAppended (number_or_uid by_uid shown)
        (map (λ hit. hit.number) all_hits.old.items) (map (λ hit. hit.number) all_hits.new.items)) }
{
    match rows.head_near(shown.place(), shown.uid) {
        None => Ok(()),
        Some(head) => {
            if !agrees_with(test.is_set, has_flag(test.flag, head.versions)) {
                return Ok(());
            }
            push_hit(
                all_hits,
                Hit {
                    number: shown_number(by_uid, shown),
                    modseq: head.modseq,
                },
            )
        }
    }
}

/// Adds a hit; `Err` if memory runs out.
#[inline(always)]
pub(crate) fn push_hit(all_hits: &mut Vec<Hit>, hit: Hit) -> Result<(), AllocError>
    ensures { OnOk result (all_hits.new.items ≡ all_hits.old.items ++ hit ∷ []) }
{
    make_room(all_hits)?;
    all_hits.push_reserved(hit);
    Ok(())
}

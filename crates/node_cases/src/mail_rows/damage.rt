//! Scripts and transcripts that are cut, or have one octet replaced.

ghost use Rattle.std.specs.Prelude.{◌<◌, length};

use crate::mail_rows::replays::{Replay, count_line_ends, play_script};
use case_lines::Words;
use mail_audit::{AuditEnd, audit};
use mail_replay::ReplayEnd;
use std::alloc::Global;

/// The octets that replace others.
const STRANGE: [u8; 5] = [0, 10, 32, 126, 255];

/// The most octets of a text that is damaged at each octet in rows that don't ask for it.
const SHORT: usize = 2_000;

/// How many octets at each end of a longer text are damaged in such rows.
const EDGE: usize = 500;

/// The most lines of a text that is damaged in such rows: a script of ten thousand commands takes
/// too long to be replayed for each place.
const MAX_LINES: usize = 5_000;

/// The most octets of a text that is damaged in such rows unless each place counts.
const MAX_SAMPLED: usize = 65_536;

/// Which places of texts are damaged, and how many damaged texts were replayed and audited.
#[derive(Clone, Copy)]
pub struct DamageCount {
    /// Each place whose number this divides is damaged, counted over all texts; no place if it is
    /// 0.
    every: u64,
    /// Whether places far from both ends of a long text are left out.
    near_edges: bool,
    places: u64,
    replayed: u64,
    audited: u64,
}

impl DamageCount {
    /// No text was damaged yet. Each place whose number `every` divides is to be damaged, and none
    /// if it is 0; in a text of more than 2,000 octets, only the first and the last 500 places
    /// count, and in one of more than 5,000 lines none.
    pub fn near_edges(every: u64) -> DamageCount {
        DamageCount {
            every,
            near_edges: true,
            places: 0,
            replayed: 0,
            audited: 0,
        }
    }

    /// No text was damaged yet, and each place is to be damaged.
    fn everywhere() -> DamageCount {
        DamageCount {
            every: 1,
            near_edges: false,
            places: 0,
            replayed: 0,
            audited: 0,
        }
    }

    /// Whether no place of the text is to be damaged, since it has more than 5,000 lines, or more
    /// than 65,536 octets and not each place counts.
    fn leaves_out(&self, text: &[u8]) -> bool {
        if !self.near_edges {
            return false;
        }
        count_line_ends(text) > MAX_LINES || self.every > 1 && text.len() > MAX_SAMPLED
    }

    /// Whether the next place, of a text of this length, is to be damaged.
    fn is_next(&mut self, length: usize, place: usize) -> bool {
        if self.near_edges && !is_near_edge(length, place) {
            return false;
        }
        self.places = self.places.saturating_add(1);
        self.every != 0 && self.places % self.every == 0
    }

    /// Notes that a script was damaged at a place: cut there, and five times with another octet
    /// there.
    fn note_replays(&mut self) {
        self.replayed = self.replayed.saturating_add(6);
    }

    /// Notes that a transcript was damaged at a place, in these six ways.
    fn note_audits(&mut self) {
        self.audited = self.audited.saturating_add(6);
    }

    /// How many damaged scripts were replayed, and how many damaged transcripts audited.
    pub fn counts(&self) -> (u64, u64) {
        (self.replayed, self.audited)
    }
}

/// Whether a place of a text of this length is damaged in rows that don't ask for it.
fn is_near_edge(length: usize, place: usize) -> bool {
    length <= SHORT || place < EDGE || length.saturating_sub(place) <= EDGE
}

/// Puts the first place where a script isn't replayed as it should be if it is cut there or its
/// octet is replaced, and the first place where its transcript, damaged in the same way, gets no
/// answer from the audit; nothing if there is no such place.
pub fn put_first_wrong(alloc: Global, script: &[u8], tried: &mut DamageCount, page: &mut Words) {
    put_first_wrong_in(alloc, script, 0, tried, page);
    let printed = play_script(alloc, script).printed;
    put_first_unaudited_in(alloc, &printed, 0, tried, page);
}

/// Does what `put_first_wrong` does, but only for the places after the first `front` octets of the
/// script, and for those of its transcript after the output of these octets.
pub fn put_first_wrong_after(
    alloc: Global,
    script: &[u8],
    front: usize,
    tried: &mut DamageCount,
    page: &mut Words,
) {
    put_first_wrong_in(alloc, script, front, tried, page);
    let before = play_script(alloc, script.get(..front).unwrap_or(script));
    let printed = play_script(alloc, script).printed;
    put_first_unaudited_in(alloc, &printed, before.printed.len(), tried, page);
}

fn put_first_wrong_in(
    alloc: Global,
    script: &[u8],
    front: usize,
    tried: &mut DamageCount,
    page: &mut Words,
) {
    if let Some(place) = first_wrong(alloc, script, front, tried) {
        put_wrong(place, page);
    }
}

fn put_first_unaudited_in(
    alloc: Global,
    printed: &[u8],
    front: usize,
    tried: &mut DamageCount,
    page: &mut Words,
) {
    if let Some(place) = first_unaudited(alloc, printed, front, tried) {
        page.put_number("-- not audited where damaged after octet ", place as u64);
        page.put("\n");
    }
}

/// Replays a script, and puts what it prints. Then puts whether the script, cut at each place or
/// with its octet replaced by 0, 10, 32, 126 or 255, prints what the lines before that place print,
/// then whole lines of printable ASCII, and ends with Done or BadScript.
pub fn put_damage(alloc: Global, script: &[u8], page: &mut Words) {
    play_script(alloc, script).put_report(page);
    match first_wrong(alloc, script, 0, &mut DamageCount::everywhere()) {
        None => {
            page.put_number("-- damaged at each of ", script.len() as u64);
            page.put(" octets: as it was before them\n");
        }
        Some(place) => put_wrong(place, page),
    }
}

fn put_wrong(place: usize, page: &mut Words) {
    page.put_number("-- damaged after octet ", place as u64);
    page.put(": otherwise before it\n");
}

/// The first place after the first `front` octets at which a damaged script isn't replayed as it
/// should be.
fn first_wrong(
    alloc: Global,
    script: &[u8],
    front: usize,
    tried: &mut DamageCount,
) -> Option<usize> {
    if tried.leaves_out(script) {
        return None;
    }
    let mut line = 0;
    for place in 0..script.len() {
        if place >= front && tried.is_next(script.len(), place) {
            tried.note_replays();
            let lines_before = script.get(..line).unwrap_or(script);
            let before = play_script(alloc, lines_before);
            if !survives_damage(alloc, script, place, &before.printed) {
                return Some(place);
            }
        }
        if script[place] == b'\n' {
            line = place + 1;
        }
    }
    None
}

/// Whether a script that is cut at a place, or changed there, prints what it should.
fn survives_damage(alloc: Global, script: &[u8], place: usize, before: &[u8]) -> bool
    requires { place < length script.now }
{
    let front = &script[..place];
    let back = &script[place + 1..];
    is_lawful(&play_script(alloc, front), before)
        && STRANGE.iter().all(|octet| {
            is_lawful(
                &play_script(alloc, with_octet(alloc, front, *octet, back).so_far()),
                before,
            )
        })
}

fn with_octet(alloc: Global, front: &[u8], octet: u8, back: &[u8]) -> Words {
    let mut text = Words::new(alloc);
    text.put_octets(front);
    text.put_octets(&[octet]);
    text.put_octets(back);
    text
}

/// Whether a replay ended with Done or BadScript, the only ends that a script can cause, and
/// printed the octets `before` and then whole lines of printable ASCII.
fn is_lawful(replay: &Replay, before: &[u8]) -> bool {
    let is_named = matches!(replay.end, ReplayEnd::Done | ReplayEnd::BadScript { .. });
    is_named
        && replay.printed.starts_with(before)
        && (replay.printed.is_empty() || replay.printed.ends_with(b"\n"))
        && replay
            .printed
            .iter()
            .all(|octet| *octet == b'\n' || (*octet >= 32 && *octet <= 126))
}

/// The first place after the first `front` octets at which a transcript can be cut, or have another
/// octet, so that the audit gives none of its answers.
fn first_unaudited(
    alloc: Global,
    printed: &[u8],
    front: usize,
    tried: &mut DamageCount,
) -> Option<usize> {
    if tried.leaves_out(printed) {
        return None;
    }
    for place in 0..printed.len() {
        if place >= front && tried.is_next(printed.len(), place) {
            tried.note_audits();
            if !is_audited_damaged(alloc, printed, place) {
                return Some(place);
            }
        }
    }
    None
}

fn is_audited_damaged(alloc: Global, printed: &[u8], place: usize) -> bool
    requires { place < length printed.now }
{
    let front = &printed[..place];
    let back = &printed[place + 1..];
    is_audited(alloc, front)
        && STRANGE.iter().all(|octet| is_audited(
            alloc,
            with_octet(alloc, front, *octet, back).so_far(),
        ))
}

/// Whether an audit answers yes, or names a line of the input.
fn is_audited(alloc: Global, input: &[u8]) -> bool {
    let mut reader = input;
    let mut written = Vec::new(alloc);
    let end = audit(alloc, &mut reader, &mut written);
    let lines = input.len() as u64;
    match end {
        AuditEnd::Yes => written.as_slice() == b"yes\n".as_slice(),
        AuditEnd::No(line) | AuditEnd::Unreadable(line) => line > 0 && line <= lines,
        _ => false,
    }
}

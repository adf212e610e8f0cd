//! Lines that are tried one by one at the end of a script.

use crate::mail_rows::damage::{DamageCount, put_first_wrong_after};
use crate::mail_rows::replays::{Replay, play_script, put_shortened};
use case_lines::Words;
use mail_replay::ReplayEnd;
use std::alloc::Global;

/// Replays a script with this line at its end, and puts what the line prints and how the replay
/// ends. Without the line's LF the replay must do the same. With a further line after it, it must
/// print at least as much, and exactly as much if the first line is bad.
pub fn try_case(alloc: Global, script: &[u8], line: &[u8], then: &str, page: &mut Words) {
    let before = play_script(alloc, script);
    let open = with_line(alloc, script, line, "", "");
    let ended = with_line(alloc, script, line, "\n", "");
    let more = with_line(alloc, script, line, "\n", then);
    page.put_escaped("> ", line);
    page.put("\n");
    put_case(&before.printed, &ended, page);
    ended.put_last_line(page);
    if !open.is_same(&ended) {
        page.put("-- otherwise without its end\n");
    }
    if !continues(&ended, &more) {
        page.put("-- otherwise with a line after it\n");
    }
}

/// Damages the line at its places that count, as `put_first_wrong_after` says.
pub fn damage_case(
    alloc: Global,
    script: &[u8],
    line: &[u8],
    tried: &mut DamageCount,
    page: &mut Words,
) {
    let whole = script_with(alloc, script, line, "\n", "");
    put_first_wrong_after(alloc, whole.so_far(), script.len(), tried, page);
}

fn with_line(alloc: Global, script: &[u8], line: &[u8], end: &str, then: &str) -> Replay {
    play_script(alloc, script_with(alloc, script, line, end, then).so_far())
}

fn script_with(alloc: Global, script: &[u8], line: &[u8], end: &str, then: &str) -> Words {
    let mut whole = Words::new(alloc);
    whole.put_octets(script);
    whole.put_octets(line);
    whole.put(end);
    whole.put(then);
    whole
}

/// Puts the line's own output: what follows the output of the script without it.
fn put_case(before: &[u8], ended: &Replay, page: &mut Words) {
    match ended.printed.strip_prefix(before) {
        Some(printed) => put_shortened(printed, page),
        None => page.put("-- otherwise before the line\n"),
    }
}

/// Whether a longer replay's output begins with the shorter one's, if the shorter one served all
/// its lines; if not, whether both do the same.
fn continues(ended: &Replay, more: &Replay) -> bool {
    if ended.end == ReplayEnd::Done {
        more.printed.starts_with(&ended.printed)
    } else {
        more.is_same(ended)
    }
}

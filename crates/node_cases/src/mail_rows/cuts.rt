//! Octets that are sent to a session in pieces.

ghost use Rattle.std.specs.Prelude.{◌<◌};

use crate::mail_rows::directives::octets_of;
use crate::mail_rows::replays::{Replay, play_script};
use case_lines::Words;
use std::alloc::Global;

/// Sends octets, given in the escape, to a session after a script. Puts what is printed, and
/// whether it stays the same if they arrive one by one or in two pieces, cut at each place.
pub fn put_pieces(alloc: Global, script: &[u8], session: &str, text: &str, page: &mut Words) {
    let Some(octets) = octets_of(alloc, text) else {
        page.put("-- not in the escape\n");
        return;
    };
    let octets = octets.as_bytes();
    let whole = in_pieces(alloc, script, session, octets, octets.len().max(1));
    whole.put_report(page);
    if !in_pieces(alloc, script, session, octets, 1).is_same(&whole) {
        page.put("-- otherwise octet by octet\n");
    }
    match first_cut(alloc, script, session, octets, &whole) {
        None => {
            page.put_number(
                "-- the same octet by octet and cut at each of ",
                octets.len() as u64,
            );
            page.put(" places\n");
        }
        Some(place) => {
            page.put_number("-- otherwise cut at ", place as u64);
            page.put("\n");
        }
    }
}

/// The script with a line after it that sends these octets, given in the escape, to a session; only
/// the script if they aren't in the escape.
pub fn with_send(alloc: Global, script: &[u8], session: &str, text: &str) -> Words {
    let mut whole = Words::new(alloc);
    whole.put_octets(script);
    if let Some(octets) = octets_of(alloc, text) {
        put_send(session, octets.as_bytes(), &mut whole);
    }
    whole
}

/// The first place at which octets can be cut so that the replay differs, if any.
fn first_cut(
    alloc: Global,
    script: &[u8],
    session: &str,
    octets: &[u8],
    whole: &Replay,
) -> Option<usize> {
    for place in 0..octets.len() {
        let mut cut = Words::new(alloc);
        cut.put_octets(script);
        put_send(session, &octets[..place], &mut cut);
        put_send(session, &octets[place..], &mut cut);
        if !play_script(alloc, cut.so_far()).is_same(whole) {
            return Some(place);
        }
    }
    None
}

/// Replays a script, and after it octets that are sent to a session in pieces of `size` octets.
fn in_pieces(alloc: Global, script: &[u8], session: &str, octets: &[u8], size: usize) -> Replay
    requires { 0 < size }
{
    let mut whole = Words::new(alloc);
    whole.put_octets(script);
    for piece in octets.chunks(size) {
        put_send(session, piece, &mut whole);
    }
    play_script(alloc, whole.so_far())
}

/// Adds a line that sends octets to a session.
fn put_send(session: &str, octets: &[u8], script: &mut Words) {
    script.put("send ");
    script.put(session);
    script.put_escaped(" ", octets);
    script.put("\n");
}

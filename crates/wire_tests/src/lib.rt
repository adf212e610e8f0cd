//! Tests of what two processes exchange over a link: digests under a key, frames, and the lines
//! before them.
//!
//! Digests are those of RFC 4231 and those that Python's `hmac` computes. A recorded stream of ten
//! frames is read in pieces, cut at each place, and with each octet changed; frames are dropped,
//! repeated and exchanged; lines and payloads that spell nothing are refused by name; limits are
//! met and passed by one. Each law is called once.
#![tactic(auto)]

#[cfg(test)]
mod damaged_frames;
#[cfg(test)]
mod digests;
#[cfg(test)]
mod frames;
#[cfg(test)]
mod hello_lines;
#[cfg(test)]
mod laws;
#[cfg(test)]
mod limits;
#[cfg(test)]
mod line_cuts;
#[cfg(test)]
mod payloads;
#[cfg(test)]
mod recorded;

//! Tests of the two halves of a link: what a reader acts on of a stream in pieces, cut, with
//! changed octets and with lines that can't be acted on, and what a writer sends of a replica's
//! operations.
//!
//! The frames were recorded; Python's `hmac` computed their digests. What a reader must act on are
//! the lines of their payloads.
#![tactic(auto)]

#[cfg(test)]
mod damage;
#[cfg(test)]
mod frames;
#[cfg(test)]
mod laws;
#[cfg(test)]
mod pieces;
#[cfg(test)]
mod reading;
#[cfg(test)]
mod refusals;
#[cfg(test)]
mod replica;
#[cfg(test)]
mod sending;

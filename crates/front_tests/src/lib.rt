//! Tests of the front for IMAP4rev1: what its clients send, which command of the profile that is,
//! and what they are shown of the reply. Frames come from the examples of RFC 3501, sections 5.1.3
//! and 6, RFC 2971, RFC 4616, RFC 4959 and RFC 7162.
#![tactic(auto)]

#[cfg(test)]
mod at_once;
#[cfg(test)]
mod descriptions;
#[cfg(test)]
mod exchanges;
#[cfg(test)]
mod fetch;
#[cfg(test)]
mod renames;
#[cfg(test)]
mod sent;

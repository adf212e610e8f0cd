//! Tests of conversations with clients of IMAP4rev1 over the port of a node: what is written, in
//! whatever pieces the client's octets arrive.
#![tactic(auto)]

#[cfg(test)]
mod rename_stub;
#[cfg(test)]
mod talks;

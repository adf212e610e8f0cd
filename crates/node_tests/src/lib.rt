//! Tests of nodes, of conversations with them, and of the programs above them.
//!
//! Sessions whose user must log in, which no script can open, are answered as RFC 9051 (sections 3
//! and 6.2.3) demands. They learn of more changes than their feed can hold, and may need a sync
//! exactly while some weren't sent. Conversations run over devices in memory and over devices of
//! std, whose reads and writes fail in turn or move one octet at a time, with a port that counts
//! its calls or with a node's. A frame yields its octets, a node gives the names of its folders and
//! subscriptions, and each law is called once.
//!
//! Of the programs (`programs`), the command lines of the server and of `mail_tool` are read,
//! replays and audits run over devices that fail, and a long script whose deliveries arrive late,
//! twice and out of order ends with equal dumps.
#![tactic(auto)]

#[cfg(test)]
mod devices;
#[cfg(test)]
mod fake_port;
#[cfg(test)]
mod feeds;
#[cfg(test)]
mod frames;
#[cfg(test)]
mod laws;
#[cfg(test)]
mod login;
#[cfg(test)]
mod names;
#[cfg(test)]
mod node_sessions;
#[cfg(test)]
mod nodes;
#[cfg(test)]
mod programs;
#[cfg(test)]
mod wires;

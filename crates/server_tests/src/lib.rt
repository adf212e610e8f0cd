//! Tests of the server over sockets of the loopback interface.
//!
//! Servers run as their command lines say: a client at one replica learns of what another client
//! does at another replica, a replica joins when the first connection has ended, a run continues if
//! a replica can't join, nobody logs in without both user and password, messages are dated by the
//! clock, and a client that reads late receives everything. Connections are served concurrently:
//! one continues while another waits, while a replica's lock is held, and with clients that send
//! what no client should. Messages reach the replicas that have joined, and the lines printed about
//! joining replicas are compared. Replicas join in their order, even when the last connection ends;
//! the end of each connection is logged; clients that keep a server waiting, guess passwords or come
//! in crowds are ended; and a program that can't run reports it and ends with its status.
//!
//! # Decided
//!
//! - A client gives up when it receives nothing for twenty seconds, so that a server that stays
//!   silent fails a test and doesn't hang it.
#![tactic(auto)]

#[cfg(test)]
mod callers;
#[cfg(test)]
mod clients;
#[cfg(test)]
mod crowd;
#[cfg(test)]
mod gates;
#[cfg(test)]
mod hostile;
#[cfg(test)]
mod joins;
#[cfg(test)]
mod limits;
#[cfg(test)]
mod loopback;
#[cfg(test)]
mod messages;
#[cfg(test)]
mod runs;
#[cfg(test)]
mod scenarios;
#[cfg(test)]
mod scene;
#[cfg(test)]
mod terminal;

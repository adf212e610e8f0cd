//! Tests of checksums and logs, of properties that no clause states.
//!
//! Checksums are those that other programs compute. A log in memory is written, synced, cut short
//! and read again; one over a device that is full, or fails, goes on or does nothing any more. Logs
//! in files are written, read again after a torn end, refused by name if they are damaged, and a
//! folder is locked once. A log that is fed to a reader in pieces says what `recover` finds in the
//! whole. Each law and each call that takes memory is called once. Faster bodies have the results
//! of plain ones.
#![tactic(auto)]

#[cfg(test)]
mod checksums;
#[cfg(test)]
mod faults;
#[cfg(test)]
mod files;
#[cfg(test)]
mod fixtures;
#[cfg(test)]
mod full_device;
#[cfg(test)]
mod full_logs;
#[cfg(test)]
mod laws;
#[cfg(test)]
mod memory_logs;
#[cfg(test)]
mod pieces;
#[cfg(test)]
mod plain_bodies;

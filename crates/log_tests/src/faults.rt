//! The texts of faults, which a start prints.

use crate::fixtures::{Trouble, replica};
use log_files::FolderFault;
use std::alloc::Global;
use std::test::Fail;

/// The text of each fault.
const TEXTS: &[&str] = &[
    "store in use",
    "damaged at octet 81920",
    "log of replica 7",
    "later format",
    "unsound at octet 17",
    "cannot write",
    "no memory",
];

/// All faults, in that order.
fn faults() -> Result<[FolderFault; 7], Trouble> {
    Ok([
        FolderFault::InUse,
        FolderFault::Damaged { octets: 81_920 },
        FolderFault::OtherReplica {
            replica: replica(7)?,
        },
        FolderFault::LaterFormat,
        FolderFault::Unsound { octets: 17 },
        FolderFault::CannotWrite,
        FolderFault::NoMemory,
    ])
}

/// Whether a fault has this text.
fn has_text(alloc: Global, fault: FolderFault, text: &str) -> Result<bool, Trouble> {
    let printed = format!(in alloc; "{fault}")?;
    Ok(printed.as_str() == text)
}

/// Whether each fault has its text.
fn have_texts(alloc: Global) -> Result<bool, Trouble> {
    let faults = faults()?;
    for (fault, text) in faults.iter().zip(TEXTS.iter()) {
        if !has_text(alloc, *fault, text)? {
            return Ok(false);
        }
    }
    Ok(true)
}

#[test]
fn faults_have_texts(rt: HostRuntime) -> Result<(), Fail> {
    assert!(rt; have_texts(rt.alloc())?);
    Ok(())
}

//! Logs on a device in memory: read again whole, cut short at each octet, and damaged.

use crate::fixtures::{LINES, Trouble, operations, replica, text_of, text_of_lines};
use durable_log::{DurableLog, LogDevice, MemoryDevice, RecoveredLog, StoreFault};
use std::alloc::Global;
use std::test::Fail;

/// A new log of replica 1 on a device in memory.
fn new_log(alloc: Global) -> Result<DurableLog<MemoryDevice>, Trouble> {
    let device = MemoryDevice::new(Vec::new(alloc));
    Ok(DurableLog::create(alloc, device, replica(1)?)?)
}

/// What the device of a log contains.
fn octets_of(alloc: Global, log: DurableLog<MemoryDevice>) -> Result<Vec<u8>, Trouble> {
    let mut device = log.into_device();
    device
        .read(alloc, 0, usize::MAX)
        .map_err(|_| Trouble::NoMemory)
}

/// The octets of a log of replica 1 with these operations in one batch, a commit without operations
/// after it, and zeros.
pub fn octets_with(alloc: Global, lines: &[&str], zeros: usize) -> Result<Vec<u8>, Trouble> {
    let ops = operations(alloc, lines)?;
    let mut log = new_log(alloc)?;
    log.append(alloc, &ops)?;
    log.sync()?;
    log.commit_if_behind(alloc)?;
    log.sync()?;
    log.commit_if_behind(alloc)?;
    log.grow(alloc, zeros)?;
    octets_of(alloc, log)
}

/// The text of the operations that are read of a log of these octets, and the room of the log once
/// it is opened.
fn read_again(alloc: Global, octets: Vec<u8>) -> Result<(Vec<u8>, usize), Trouble> {
    let device = MemoryDevice::new(octets);
    let (recovered, ops) = RecoveredLog::read(alloc, device, replica(1)?)?;
    let text = text_of(alloc, &ops)?;
    let log = DurableLog::open(recovered)?;
    Ok((text, log.room()))
}

fn is_read_again(alloc: Global) -> Result<bool, Trouble> {
    let (text, room) = read_again(alloc, octets_with(alloc, LINES, 50)?)?;
    let whole = text_of_lines(alloc, LINES)?;
    Ok(text == whole && room == 50)
}

#[test]
fn logs_are_read_again(rt: HostRuntime) -> Result<(), Fail> {
    assert!(rt; is_read_again(rt.alloc())?);
    Ok(())
}

/// How many commits without operations are due after a batch was synced, and after one of them was.
fn lines_of_commits(alloc: Global) -> Result<(usize, usize), Trouble> {
    let once = octets_with(alloc, LINES, 0)?;
    let none = octets_with(alloc, &[], 0)?;
    Ok((line_count(&once), line_count(&none)))
}

fn line_count(octets: &[u8]) -> usize {
    octets.iter().filter(|octet| **octet == b'\n').count()
}

#[test]
fn one_commit_says_what_was_synced(rt: HostRuntime) -> Result<(), Fail> {
    let (once, none) = lines_of_commits(rt.alloc())?;
    assert_eq!(rt; once, 7);
    assert_eq!(rt; none, 3);
    Ok(())
}

/// The number of operations that are read of the first octets of a log; the fault if it isn't read.
fn count_of_cut(alloc: Global, octets: &[u8]) -> Result<Result<u64, StoreFault>, Trouble> {
    let device = MemoryDevice::new(octets.to_vec(alloc)?);
    match RecoveredLog::read(alloc, device, replica(1)?) {
        Ok((recovered, ops)) => {
            drop(ops);
            let log = DurableLog::open(recovered)?;
            Ok(Ok(log.op_count()))
        }
        Err(fault) => Ok(Err(fault)),
    }
}

/// The first number of octets of which a log that is cut there isn't as it should be: it has no
/// operation or all of them, and is only damaged if it lacks its first batch.
fn wrong_cut(alloc: Global) -> Result<Option<usize>, Trouble> {
    let whole = octets_with(alloc, LINES, 3)?;
    let first = octets_of(alloc, new_log(alloc)?)?.len();
    for end in 0..whole.len() {
        let is_right = match count_of_cut(alloc, &whole[..end])? {
            Ok(count) => first <= end && (count == 0 || count == 3),
            Err(fault) => end < first && fault == StoreFault::Damaged { octets: 0 },
        };
        if !is_right {
            return Ok(Some(end));
        }
    }
    Ok(None)
}

#[test]
fn cut_logs_have_whole_batches(rt: HostRuntime) -> Result<(), Fail> {
    assert_eq!(rt; wrong_cut(rt.alloc())?, None);
    Ok(())
}

/// The faults of a log whose first batch is damaged, of another replica's, and of a later format.
fn faults_of_logs(alloc: Global) -> Result<(Option<StoreFault>, Option<StoreFault>), Trouble> {
    let mut damaged = octets_with(alloc, LINES, 0)?;
    if 40 < damaged.len() {
        damaged[40] ^= 1;
    }
    let first = RecoveredLog::read(alloc, MemoryDevice::new(damaged), replica(1)?).err();
    let other = MemoryDevice::new(octets_with(alloc, LINES, 0)?);
    let second = RecoveredLog::read(alloc, other, replica(2)?).err();
    Ok((first, second))
}

#[test]
fn damaged_logs_are_refused(rt: HostRuntime) -> Result<(), Fail> {
    let (first, second) = faults_of_logs(rt.alloc())?;
    assert_eq!(rt; first, Some(StoreFault::Damaged { octets: 35 }));
    assert_eq!(rt;
        second,
        Some(StoreFault::OtherReplica {
            replica: replica(1)?
        })
    );
    Ok(())
}

//! Logs on devices that are full, or fail.

use crate::fixtures::{LINES, Trouble, operations, replica};
use crate::full_device::FullDevice;
use durable_log::{DurableLog, StoreFault};
use std::alloc::Global;
use std::test::Fail;

/// A new log of replica 1 with zeros ahead, on a device with room for so many octets, some of whose
/// calls succeed after it was made: it takes three to make it, and one for the zeros.
fn log_with_room(
    alloc: Global,
    limit: usize,
    room: usize,
    calls: u32,
) -> Result<DurableLog<FullDevice>, Trouble> {
    let device = FullDevice::new(alloc, limit, calls.saturating_add(4));
    let mut log = DurableLog::create(alloc, device, replica(1)?)?;
    log.grow(alloc, room)?;
    Ok(log)
}

/// What `grow` answers on a full device, and what a batch within the room does after it.
fn answers_of_full(alloc: Global) -> Result<(Result<(), StoreFault>, usize, u64), Trouble> {
    let ops = operations(alloc, LINES)?;
    let mut log = log_with_room(alloc, 500, 400, 9)?;
    let full = log.grow(alloc, 400);
    log.append(alloc, &ops)?;
    log.sync()?;
    Ok((full, log.room(), log.synced_count()))
}

#[test]
fn full_devices_leave_logs_at_work(rt: HostRuntime) -> Result<(), Fail> {
    let (full, room, count) = answers_of_full(rt.alloc())?;
    assert_eq!(rt; full, Err(StoreFault::NoSpace));
    assert!(rt; 0 < room && room < 400);
    assert_eq!(rt; count, 3);
    Ok(())
}

/// The answers of `append` on a device without room for the batch, and of each call after it.
fn answers_without_room(
    alloc: Global,
) -> Result<
    (
        Result<(), StoreFault>,
        Result<(), StoreFault>,
        Result<(), StoreFault>,
    ),
    Trouble,
> {
    let ops = operations(alloc, LINES)?;
    let mut log = log_with_room(alloc, 100, 10, 9)?;
    let first = log.append(alloc, &ops);
    let second = log.sync();
    let third = log.grow(alloc, 1);
    Ok((first, second, third))
}

#[test]
fn batches_beyond_the_device_end_the_log(rt: HostRuntime) -> Result<(), Fail> {
    let (first, second, third) = answers_without_room(rt.alloc())?;
    assert_eq!(rt; first, Err(StoreFault::Failed));
    assert_eq!(rt; second, Err(StoreFault::Failed));
    assert_eq!(rt; third, Err(StoreFault::Failed));
    Ok(())
}

/// The answers of two syncs, of which the device refuses the first.
fn answers_of_syncs(
    alloc: Global,
) -> Result<(Result<(), StoreFault>, Result<(), StoreFault>), Trouble> {
    let ops = operations(alloc, LINES)?;
    let mut log = log_with_room(alloc, 500, 400, 1)?;
    log.append(alloc, &ops)?;
    let first = log.sync();
    let second = log.sync();
    Ok((first, second))
}

#[test]
fn failed_syncs_are_not_tried_again(rt: HostRuntime) -> Result<(), Fail> {
    let (first, second) = answers_of_syncs(rt.alloc())?;
    assert_eq!(rt; first, Err(StoreFault::Failed));
    assert_eq!(rt; second, Err(StoreFault::Failed));
    Ok(())
}

//! Logs in files of a folder.

use crate::fixtures::{LINES, Trouble, operations, replica, text_of, text_of_lines};
use durable_log::DurableLog;
use log_files::{FolderFault, StoreFolder};
use std::alloc::Global;
use std::fs;
use std::fs::{File, OpenOptions};
use std::io::Write;
use std::os::unix::fs::{FileExt, MetadataExt};
use std::rt::Files;
use std::test::Fail;

/// Makes a store's folder, and the log of replica 1 with operations and zeros.
fn write_log<R: Files<File = File>>(rt: &R, alloc: Global, path: &str) -> Result<(), Trouble> {
    let folder = StoreFolder::open(rt, alloc, path)?;
    let mut log = folder.create_log(rt, alloc, replica(1)?)?;
    log.append(alloc, &operations(alloc, LINES)?)?;
    log.sync()?;
    log.commit_if_behind(alloc)?;
    log.grow(alloc, 4096)?;
    log.sync()?;
    Ok(())
}

/// The text of the operations in the log of a replica, if it has one.
fn text_of_log<R: Files<File = File>>(
    rt: &R,
    alloc: Global,
    path: &str,
    number: u32,
) -> Result<Option<Vec<u8>>, Trouble> {
    let folder = StoreFolder::open(rt, alloc, path)?;
    match folder.read_log(rt, alloc, replica(number)?)? {
        None => Ok(None),
        Some((log, ops)) => {
            drop(log);
            Ok(Some(text_of(alloc, &ops)?))
        }
    }
}

/// Whether the log of replica 1 has the operations that lines spell.
fn has_lines<R: Files<File = File>>(
    rt: &R,
    alloc: Global,
    path: &str,
    lines: &[&str],
) -> Result<bool, Trouble> {
    let whole = text_of_lines(alloc, lines)?;
    match text_of_log(rt, alloc, path, 1)? {
        Some(text) => Ok(text == whole),
        None => Ok(false),
    }
}

/// Opens the log of replica 1, and writes operations to it.
fn append_to_log<R: Files<File = File>>(
    rt: &R,
    alloc: Global,
    path: &str,
    lines: &[&str],
) -> Result<u64, Trouble> {
    let folder = StoreFolder::open(rt, alloc, path)?;
    let Some((recovered, ops)) = folder.read_log(rt, alloc, replica(1)?)? else {
        return Err(Trouble::NotInForm);
    };
    drop(ops);
    let mut log = DurableLog::open(recovered)?;
    log.append(alloc, &operations(alloc, lines)?)?;
    log.sync()?;
    Ok(log.synced_count())
}

/// The permissions of a file or a folder.
fn mode_of<R: Files<File = File>>(rt: &R, path: &str) -> Result<u32, Trouble> {
    Ok(fs::metadata(rt, path)?.mode() & 0o777)
}

const WRITTEN: &str = "log_tests_written/user/store";

const WRITTEN_LOG: &str = "log_tests_written/user/store/replica-1.log";

#[test]
fn logs_in_files_are_read_again(rt: HostRuntime) -> Result<(), Fail> {
    let alloc = rt.alloc();
    let _ = fs::remove_dir_all(&rt, "log_tests_written");
    write_log(&rt, alloc, WRITTEN)?;
    assert_eq!(rt; mode_of(&rt, WRITTEN)?, 0o700);
    assert_eq!(rt; mode_of(&rt, WRITTEN_LOG)?, 0o600);
    assert!(rt; has_lines(&rt, alloc, WRITTEN, LINES)?);
    assert!(rt; text_of_log(&rt, alloc, WRITTEN, 2)?.is_none());
    assert_eq!(rt;
        append_to_log(&rt, alloc, WRITTEN, &["1:3 1=2 subscribe work"])?,
        4
    );
    assert_eq!(rt; append_to_log(&rt, alloc, WRITTEN, &[])?, 4);
    fs::remove_dir_all(&rt, "log_tests_written")?;
    Ok(())
}

const TORN: &str = "log_tests_torn";

/// Writes octets after the end of the log of replica 1.
fn write_after<R: Files<File = File>>(rt: &R, path: &str, octets: &[u8]) -> Result<(), Trouble> {
    let mut file = OpenOptions::new().append(true).open(rt, path)?;
    file.write_all(octets)?;
    Ok(())
}

#[test]
fn torn_ends_are_cut_off(rt: HostRuntime) -> Result<(), Fail> {
    let alloc = rt.alloc();
    let _ = fs::remove_dir_all(&rt, TORN);
    write_log(&rt, alloc, TORN)?;
    write_after(
        &rt,
        "log_tests_torn/replica-1.log",
        b"\n00000000 op 1:9 - create torn\nxyz",
    )?;
    assert!(rt; has_lines(&rt, alloc, TORN, LINES)?);
    assert_eq!(rt;
        append_to_log(&rt, alloc, TORN, &["1:3 1=2 subscribe work"])?,
        4
    );
    assert_eq!(rt;
        append_to_log(&rt, alloc, TORN, &["1:4 1=3 subscribe work"])?,
        5
    );
    fs::remove_dir_all(&rt, TORN)?;
    Ok(())
}

const DAMAGED: &str = "log_tests_damaged";

const DAMAGED_LOG: &str = "log_tests_damaged/replica-1.log";

/// Writes another octet at a place of a file.
fn damage<R: Files<File = File>>(rt: &R, path: &str, place: u64) -> Result<(), Trouble> {
    let file = OpenOptions::new().write(true).open(rt, path)?;
    file.write_all_at(b"~", place)?;
    Ok(())
}

/// The fault of reading the log of a replica.
fn fault_of_read<R: Files<File = File>>(
    rt: &R,
    alloc: Global,
    number: u32,
) -> Result<Option<FolderFault>, Trouble> {
    let folder = StoreFolder::open(rt, alloc, DAMAGED)?;
    Ok(folder.read_log(rt, alloc, replica(number)?).err())
}

#[test]
fn damaged_files_are_refused(rt: HostRuntime) -> Result<(), Fail> {
    let alloc = rt.alloc();
    let _ = fs::remove_dir_all(&rt, DAMAGED);
    write_log(&rt, alloc, DAMAGED)?;
    fs::copy(&rt, DAMAGED_LOG, "log_tests_damaged/replica-2.log")?;
    let other = FolderFault::OtherReplica {
        replica: replica(1)?,
    };
    assert_eq!(rt; fault_of_read(&rt, alloc, 2)?, Some(other));
    damage(&rt, DAMAGED_LOG, 40)?;
    assert_eq!(rt;
        fault_of_read(&rt, alloc, 1)?,
        Some(FolderFault::Damaged { octets: 35 })
    );
    fs::remove_dir_all(&rt, DAMAGED)?;
    Ok(())
}

const LOCKED: &str = "log_tests_locked";

/// The fault of opening a folder.
fn fault_of_open<R: Files<File = File>>(rt: &R, alloc: Global, path: &str) -> Option<FolderFault> {
    StoreFolder::open(rt, alloc, path).err()
}

#[test]
fn folders_are_locked_once(rt: HostRuntime) -> Result<(), Fail> {
    let alloc = rt.alloc();
    let _ = fs::remove_dir_all(&rt, LOCKED);
    let folder = StoreFolder::open(&rt, alloc, LOCKED)?;
    assert_eq!(rt; fault_of_open(&rt, alloc, LOCKED), Some(FolderFault::InUse));
    drop(folder);
    assert_eq!(rt; fault_of_open(&rt, alloc, LOCKED), None);
    fs::remove_dir_all(&rt, LOCKED)?;
    Ok(())
}

const MADE: &str = "log_tests_made";

/// The fault of making a log a second time.
fn fault_of_second<R: Files<File = File>>(
    rt: &R,
    alloc: Global,
) -> Result<Option<FolderFault>, Trouble> {
    let folder = StoreFolder::open(rt, alloc, MADE)?;
    let first = folder.create_log(rt, alloc, replica(1)?)?;
    drop(first);
    Ok(folder.create_log(rt, alloc, replica(1)?).err())
}

#[test]
fn logs_are_never_replaced(rt: HostRuntime) -> Result<(), Fail> {
    let alloc = rt.alloc();
    let _ = fs::remove_dir_all(&rt, MADE);
    assert_eq!(rt;
        fault_of_second(&rt, alloc)?,
        Some(FolderFault::CannotWrite)
    );
    fs::remove_dir_all(&rt, MADE)?;
    Ok(())
}

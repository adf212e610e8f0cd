//! Folders, made and synced, and files of theirs, opened: calls of the system.

use std::fs::{DirBuilder, File, OpenOptions};
use std::os::unix::fs::{DirBuilderExt, OpenOptionsExt};
use std::rt::Files;
use std::{fs, io};

/// The mode of a folder that is made: only its owner may use it.
const FOLDER_MODE: u32 = 0o700;

/// The mode of a file that is made: only its owner may use it.
const FILE_MODE: u32 = 0o600;

/// Makes a folder with its parents, those that don't exist, and syncs the parent of each that is
/// made.
pub(crate) fn make_folders<R: Files<File = File>>(rt: &R, path: &str) -> io::Result<()> {
    for end in 1..path.len() {
        make_ancestor(rt, path, end)?;
    }
    make_folder(rt, path)
}

/// Makes the folder that the first `end` octets of the path name, if a slash follows them.
fn make_ancestor<R: Files<File = File>>(rt: &R, path: &str, end: usize) -> io::Result<()> {
    match path.split_at_checked(end) {
        Some((ancestor, rest)) if rest.starts_with('/') => make_folder(rt, ancestor),
        _ => Ok(()),
    }
}

fn make_folder<R: Files<File = File>>(rt: &R, path: &str) -> io::Result<()> {
    if is_folder(rt, path) {
        return Ok(());
    }
    DirBuilder::new().mode(FOLDER_MODE).create(rt, path)?;
    sync_folder(rt, parent_of(path))
}

fn is_folder<R: Files<File = File>>(rt: &R, path: &str) -> bool {
    match fs::metadata(rt, path) {
        Ok(metadata) => metadata.is_dir(),
        Err(_) => false,
    }
}

/// The path of the folder that has this one's name.
fn parent_of(path: &str) -> &str {
    match path.trim_end_matches('/').rsplit_once('/') {
        Some((parent, _)) => { if parent.is_empty() { "/" } else { parent } }
        None => ".",
    }
}

/// Syncs the names in a folder.
pub(crate) fn sync_folder<R: Files<File = File>>(rt: &R, path: &str) -> io::Result<()> {
    File::open(rt, path)?.sync_all()
}

/// Opens a file for reading and writing; it is made if there is none.
pub(crate) fn open_or_make<R: Files<File = File>>(rt: &R, path: &str) -> io::Result<File> {
    OpenOptions::new()
        .read(true)
        .write(true)
        .create(true)
        .mode(FILE_MODE)
        .open(rt, path)
}

/// Opens an existing file for reading and writing.
pub(crate) fn open_file<R: Files<File = File>>(rt: &R, path: &str) -> io::Result<File> {
    OpenOptions::new().read(true).write(true).open(rt, path)
}

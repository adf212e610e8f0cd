//! The files that have cases.

use std::{fs, io};

/// The names in a folder, ascending by their octets.
pub fn names_in(rt: &HostRuntime, folder: &str) -> io::Result<Vec<String>> {
    let mut names = Vec::new(rt.alloc());
    for entry in fs::read_dir(rt, folder)? {
        let entry = entry?;
        let name = String::from_str(rt.alloc(), entry.file_name())?;
        names.push(name)?;
    }
    names.sort()?;
    Ok(names)
}

/// The files of a folder, ascending by their names; or the file that has this path.
pub fn files_of(rt: &HostRuntime, path: &str) -> io::Result<Vec<String>> {
    if is_folder(rt, path) {
        return files_in(rt, path);
    }
    let mut files = Vec::new(rt.alloc());
    let file = String::from_str(rt.alloc(), path)?;
    files.push(file)?;
    Ok(files)
}

fn files_in(rt: &HostRuntime, folder: &str) -> io::Result<Vec<String>> {
    let names = names_in(rt, folder)?;
    let mut files = Vec::new(rt.alloc());
    for name in &names {
        let file = path_in(rt, folder, name)?;
        files.push(file)?;
    }
    Ok(files)
}

/// Whether there is a folder with this path.
pub fn is_folder(rt: &HostRuntime, path: &str) -> bool {
    match fs::metadata(rt, path) {
        Ok(metadata) => metadata.is_dir(),
        Err(_) => false,
    }
}

/// The path of a name in a folder.
pub fn path_in(rt: &HostRuntime, folder: &str, name: &str) -> io::Result<String> {
    let mut path = String::new(rt.alloc());
    if folder != "." {
        path.push_str(folder)?;
        path.push('/')?;
    }
    path.push_str(name)?;
    Ok(path)
}

//! Folders on the way to a file that is made.
use std::fs::Files;
use std::io::{Error, ErrorKind};
use std::{fs, io};

// Why no folder is made where something else stands.
fn no_folder() -> Error {
    Error::new(
        ErrorKind::NotADirectory,
        "a link or a file stands where a folder has to be",
    )
}

// Sees that a folder is there, and makes it where nothing is. A link to a folder is none.
fn make_one<R: Files>(rt: &R, path: &str) -> io::Result<()> {
    match fs::symlink_metadata(rt, path) {
        Ok(told) if told.is_dir() => Ok(()),
        Ok(_) => Err(no_folder()),
        Err(why) if why.kind() == ErrorKind::NotFound => fs::create_dir(rt, path),
        Err(why) => Err(why),
    }
}

// Sees that the top folder is there, and makes it where nothing is. It may be a link to a folder.
fn make_top<R: Files>(rt: &R, top: &str) -> io::Result<()> {
    match fs::metadata(rt, top) {
        Ok(told) if told.is_dir() => Ok(()),
        Ok(_) => Err(no_folder()),
        Err(why) if why.kind() == ErrorKind::NotFound => fs::create_dir(rt, top),
        Err(why) => Err(why),
    }
}

// Sees that the folder is there whose path ends at a byte of a longer one, if a slash stands behind it.
fn make_until<R: Files>(rt: &R, path: &str, end: usize) -> io::Result<()> {
    match path.split_at_checked(end) {
        Some((folder, rest)) if rest.starts_with('/') => make_one(rt, folder),
        _ => Ok(()),
    }
}

/// Sees that each folder is there on the way from the top of a tree to a path that begins with that top, and makes those that aren't. No
/// link among them is followed, but for the top itself.
pub(crate) fn make_folders<R: Files>(rt: &R, top: &str, path: &str) -> io::Result<()> {
    make_top(rt, top)?;
    for end in top.len().saturating_add(1)..path.len() {
        make_until(rt, path, end)?;
    }
    Ok(())
}

// Sees that what stands at a path is a folder, and no link to one.
fn want_one<R: Files>(rt: &R, path: &str) -> io::Result<()> {
    if fs::symlink_metadata(rt, path)?.is_dir() {
        return Ok(());
    }
    Err(no_folder())
}

// Sees that a folder stands at the path that ends at a byte of a longer one, if a slash stands behind it.
fn want_until<R: Files>(rt: &R, path: &str, end: usize) -> io::Result<()> {
    match path.split_at_checked(end) {
        Some((folder, rest)) if rest.starts_with('/') => want_one(rt, folder),
        _ => Ok(()),
    }
}

/// Sees that each part of a path between the top of a tree and the file is a folder, and no link to one.
pub(crate) fn want_folders<R: Files>(rt: &R, top: &str, path: &str) -> io::Result<()> {
    for end in top.len().saturating_add(1)..path.len() {
        want_until(rt, path, end)?;
    }
    Ok(())
}

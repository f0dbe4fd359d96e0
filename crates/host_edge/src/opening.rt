//! Opening files of a host folder: each once, and looked at once it is open, before a byte of it is read or written.
use crate::{FileId, SizeLimit};
use std::alloc::Global;
use std::fs::{Files, Metadata, OpenFile, OpenOptions};
use std::io;
use std::io::{Error, ErrorKind};
use std::os::unix::fs::MetadataExt;

/// What no file of a folder may be, and how large one may become.
#[derive(Drop)]
pub struct Bounds {
    /// The chips: no file of the folder that is one of them is read or written.
    pub chips: Vec<FileId>,
    /// The limit of the process.
    pub limit: SizeLimit,
}

impl Bounds {
    /// None.
    pub fn none(alloc: Global) -> Bounds {
        Bounds {
            chips: Vec::new(alloc),
            limit: SizeLimit::none(),
        }
    }
}

/// A folder of the host, and the bounds of its files.
#[derive(Drop)]
pub(crate) struct Place<'p, R: Files> {
    pub(crate) rt: &'p R,
    pub(crate) alloc: Global,
    pub(crate) path: &'p str,
    pub(crate) bounds: &'p Bounds,
}

/// The file of a folder that is open, by its number among the files.
#[derive(Drop)]
pub(crate) struct Current<F: Drop> {
    pub(crate) i: usize,
    pub(crate) writes: bool,
    pub(crate) file: F,
}

// A refusal with its cause.
fn refusal(why: &'static str) -> Error {
    Error::new(ErrorKind::InvalidInput, why)
}

/// Why what the host tells of stands in the way of a file.
pub fn in_the_way(told: &Metadata) -> Error {
    refusal(if told.is_symlink() {
        "a link stands in its place"
    } else if told.is_dir() {
        "a folder stands in its place"
    } else if told.is_file() {
        "a file stands in its place that wasn't listed"
    } else {
        "a special file stands in its place"
    })
}

/// Why a file can't be made, where the host says so for that cause: if something stands there, then what.
pub fn not_made<R: Files>(rt: &R, path: &str, why: Error) -> Error {
    if why.kind() != ErrorKind::AlreadyExists {
        return why;
    }
    match rt.symlink_metadata(path) {
        Ok(told) => in_the_way(&told),
        Err(_) => why,
    }
}

// Sees that what stands at a path is a plain file. Else it isn't opened: opening a pipe waits.
fn want_plain<R: Files>(rt: &R, path: &str) -> io::Result<()> {
    let told = rt.symlink_metadata(path)?;
    if told.is_file() {
        return Ok(());
    }
    Err(in_the_way(&told))
}

/// Sees that an open file is the plain file that stands at a path, to which no link leads there.
pub fn want_same<R: Files>(rt: &R, path: &str, opened: &Metadata) -> io::Result<()> {
    let there = rt.symlink_metadata(path)?;
    if !there.is_file() {
        return Err(in_the_way(&there));
    }
    if !opened.is_file() || FileId::of(&there) != FileId::of(opened) {
        return Err(refusal("another file was put into its place meanwhile"));
    }
    Ok(())
}

// Sees that a file of a folder that was opened may be read, or written.
fn look<R: Files>(
    place: &Place<'_, R>,
    path: &str,
    writes: bool,
    opened: &Metadata,
) -> io::Result<()> {
    want_same(place.rt, path, opened)?;
    if place.bounds.chips.contains(&FileId::of(opened)) {
        return Err(refusal("it is the chip itself"));
    }
    if writes && opened.nlink() != 1 {
        return Err(refusal(
            "it has other names too (hard links), under which it would be written as well",
        ));
    }
    Ok(())
}

// Opens a file of a folder that is there, for appending or for reading, and looks at it.
fn open_plain<R: Files>(place: &Place<'_, R>, path: &str, writes: bool) -> io::Result<R::File> {
    want_plain(place.rt, path)?;
    let mut options = OpenOptions::new();
    options.read(!writes).append(writes);
    let file = options.open(place.rt, path)?;
    look(place, path, writes, &file.metadata()?)?;
    Ok(file)
}

// Whether file `i` is the one that is open, and so.
fn is_current<F: Drop>(current: &Option<Current<F>>, i: usize, writes: bool) -> bool {
    match current {
        Some(current) => current.i == i && current.writes == writes,
        None => false,
    }
}

/// Sees that file `i`, which has that path, is the one that is open: for appending or for reading. The one before is closed.
pub(crate) fn turn_to<R: Files>(
    place: &Place<'_, R>,
    current: &mut Option<Current<R::File>>,
    i: usize,
    path: &str,
    writes: bool,
) -> io::Result<()> {
    if is_current(current, i, writes) {
        return Ok(());
    }
    *current = None;
    let file = open_plain(place, path, writes)?;
    *current = Some(Current { i, writes, file });
    Ok(())
}

/// Why the file that is open can't be had, which never happens.
pub(crate) fn none_open() -> Error {
    refusal("no file is open")
}

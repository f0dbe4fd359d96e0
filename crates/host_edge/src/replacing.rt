//! Putting a new file in the place of an old one, so that a cut of the host leaves one of both, whole.
use crate::HeldFile;
use crate::limit::SizeLimit;
use crate::shown::Shown;
use crate::trouble::{Step, Trouble};
use std::alloc::{AllocError, Global};
use std::fmt::Write;
use std::fs::{File, Metadata, OpenOptions};
use std::io::ErrorKind;
use std::os::unix::fs::{MetadataExt, OpenOptionsExt, PermissionsExt, fchown};
use std::rt::Files;
use std::{fs, io};

/// The most links that are followed.
const LINKS: u32 = 40;

/// How many names are tried for the file beside.
const NAMES: u32 = 1000;

/// The most characters of the old file's name in the name beside: no name of the host is too long by it.
const NAMED: usize = 40;

/// The mode bits of a new file, through the process's mask.
const NEW_MODE: u32 = 0o666;

/// The mode bits of the file beside, while it isn't whole yet and an old one's mode isn't given to it.
const OWN_MODE: u32 = 0o600;

/// The bits of a mode that are no kind of file.
const MODE_BITS: u32 = 0o7777;

/// Those of them that tell who may do what.
const ACCESS_BITS: u32 = 0o777;

/// Bytes that are written at a time.
const PIECE: usize = 1_048_576;

impl From<AllocError> for Trouble {
    fn from(_: AllocError) -> Trouble {
        Trouble::NoPath
    }
}

// The folder of a path, with a slash at its end, or nothing for the working folder, and the name in it.
fn parts_of(path: &str) -> (&str, &str) {
    match path.rfind('/') {
        Some(slash) => path.split_at(slash + 1),
        None => ("", path),
    }
}

// The path that a link leads to which stands at a path.
fn path_behind(alloc: Global, path: &str, link: &str) -> Result<String, AllocError> {
    let (folder, _) = parts_of(path);
    if link.starts_with('/') {
        String::from_str(alloc, link)
    } else {
        format!(in alloc; "{folder}{link}")
    }
}

// The file that a path leads to, through links, be it there or not.
fn file_behind<R: Files<File = File>>(
    rt: &R,
    alloc: Global,
    path: &str,
) -> Result<String, Trouble> {
    let mut behind = String::from_str(alloc, path)?;
    for _ in 0..LINKS {
        if let Ok(there) = rt.canonicalize(alloc, behind.as_str()) {
            return Ok(String::from_str(alloc, there.as_str())?);
        }
        let Ok(link) = rt.read_link(alloc, behind.as_str()) else {
            return Ok(behind);
        };
        behind = path_behind(alloc, behind.as_str(), link.as_str())?;
    }
    Ok(behind)
}

// What failed at a step.
fn failed(alloc: Global, step: Step, path: &str, why: io::Error) -> Trouble {
    match format!(in alloc; "{}", Shown(path)) {
        Ok(path) => Trouble::Replace { step, path, why },
        Err(_) => Trouble::NoPath,
    }
}

// The path of the file beside, of that number.
fn path_beside(alloc: Global, path: &str, number: u32) -> Result<String, AllocError> {
    let (folder, name) = parts_of(path);
    let mut beside = format!(in alloc; "{folder}.")?;
    for letter in name.chars().take(NAMED) {
        beside.push(letter)?;
    }
    write!(beside, ".spiffs-{number}")?;
    Ok(beside)
}

/// The file beside, its path, and how far it may be written.
#[derive(Drop)]
struct Beside {
    file: File,
    path: String,
    limit: SizeLimit,
}

// Makes the file beside, under a name that nothing has.
fn make_beside<R: Files<File = File>>(
    rt: &R,
    alloc: Global,
    path: &str,
    mode: u32,
) -> Result<Beside, Trouble> {
    let mut options = OpenOptions::new();
    options.write(true).create_new(true);
    options.mode(mode);
    for number in 1..NAMES {
        let beside = path_beside(alloc, path, number)?;
        match options.open(rt, beside.as_str()) {
            Ok(file) => {
                return Ok(Beside {
                    file,
                    path: beside,
                    limit: SizeLimit::of(rt),
                });
            }
            Err(why) if why.kind() == ErrorKind::AlreadyExists => {}
            Err(why) => return Err(failed(alloc, Step::Make, beside.as_str(), why)),
        }
    }
    let why = io::Error::new(
        ErrorKind::AlreadyExists,
        "999 files that were left beside it stand there: delete those that end with .spiffs-N",
    );
    Err(failed(alloc, Step::Make, path, why))
}

// Writes all bytes.
fn write_bytes(file: &File, limit: SizeLimit, bytes: &[u8]) -> io::Result<()> {
    let mut at = 0;
    for piece in bytes.chunks(PIECE) {
        limit.write_at(file, at, piece)?;
        at = at.saturating_add(piece.len() as u64);
    }
    Ok(())
}

// Gives the file the owner and the group of an old one, as far as the process may, and answers whether it has both then.
fn give_owner(file: &File, old: &Metadata) -> io::Result<bool> {
    let own = file.metadata()?;
    if own.uid() == old.uid() && own.gid() == old.gid() {
        return Ok(true);
    }
    if fchown(file, Some(old.uid()), Some(old.gid())).is_err() {
        // (only root can give an owner, and a group only who is in it)
        let _given = fchown(file, None, Some(old.gid()));
    }
    let own = file.metadata()?;
    Ok(own.uid() == old.uid() && own.gid() == old.gid())
}

// Gives the file the owner, the group and the mode of an old one. A file that has another owner or group doesn't run as them.
fn give_mode(file: &File, old: Option<&Metadata>) -> io::Result<()> {
    let Some(old) = old else {
        return Ok(());
    };
    let bits = if give_owner(file, old)? {
        MODE_BITS
    } else {
        ACCESS_BITS
    };
    let mut mode = old.permissions();
    mode.set_mode(old.mode() & bits);
    file.set_permissions(mode)
}

// Fills the file beside, and answers the step that failed and why, if one did.
fn fill(beside: &Beside, bytes: &[u8], old: Option<&Metadata>) -> Result<(), (Step, io::Error)> {
    write_bytes(&beside.file, beside.limit, bytes).map_err(|why| (Step::Write, why))?;
    give_mode(&beside.file, old).map_err(|why| (Step::Mode, why))?;
    beside.file.sync_all().map_err(|why| (Step::Sync, why))
}

// Fills the file beside and gives it the name of the old one. Where that fails it is removed.
fn put_beside<R: Files<File = File>>(
    rt: &R,
    alloc: Global,
    beside: &Beside,
    path: &str,
    old: Option<&Metadata>,
    bytes: &[u8],
) -> Result<(), Trouble> {
    let own = beside.path.as_str();
    let done = match fill(beside, bytes, old) {
        Ok(()) => fs::rename(rt, own, path).map_err(|why| (Step::Rename, why)),
        Err(why) => Err(why),
    };
    let Err((step, why)) = done else {
        return Ok(());
    };
    // (where it can't be removed either there is nothing left to try)
    let _removed = fs::remove_file(rt, own);
    Err(failed(alloc, step, own, why))
}

// Brings the folder of a path onto the host's medium. One that can't be opened for that isn't.
fn sync_folder<R: Files<File = File>>(rt: &R, alloc: Global, path: &str) -> Result<(), Trouble> {
    let (folder, _) = parts_of(path);
    let folder = if folder.is_empty() { "." } else { folder };
    let Ok(file) = fs::open(rt, folder) else {
        return Ok(());
    };
    match file.sync_all() {
        Ok(()) => Ok(()),
        // (a file system that syncs no folders says so)
        Err(why) if matches!(why.kind(), ErrorKind::InvalidInput | ErrorKind::Unsupported) => Ok(
            (),
        ),
        Err(why) => Err(Trouble::Folder {
            path: format!(in alloc; "{}", Shown(folder))?,
            why,
        }),
    }
}

// Refuses to make a file where one stands, which another program has made meanwhile.
fn check_none<R: Files<File = File>>(rt: &R, path: &str) -> Result<(), Trouble> {
    match fs::symlink_metadata(rt, path) {
        Ok(_) => Err(Trouble::Busy),
        Err(why) if why.kind() == ErrorKind::NotFound => Ok(()),
        Err(why) => Err(Trouble::Open(why)),
    }
}

// Refuses to replace what isn't the file that is held, as it was then, or is a device.
fn check_old<R: Files<File = File>>(
    rt: &R,
    path: &str,
    held: &HeldFile,
) -> Result<Metadata, Trouble> {
    let told = fs::symlink_metadata(rt, path).map_err(Trouble::Open)?;
    if told.is_symlink() {
        let why = io::Error::new(ErrorKind::InvalidInput, "its link can't be followed");
        return Err(Trouble::Open(why));
    }
    if !held.is_same(&told) || (told.is_file() && told.len() != held.length()) {
        return Err(Trouble::Busy);
    }
    if held.is_device() {
        return Err(Trouble::Device);
    }
    Ok(told)
}

// Replaces the file at a path that is no link, where what it had is told, if there was one.
fn replace<R: Files<File = File>>(
    rt: &R,
    alloc: Global,
    path: &str,
    old: Option<&Metadata>,
    bytes: &[u8],
) -> Result<(), Trouble> {
    let mode = if old.is_some() { OWN_MODE } else { NEW_MODE };
    let beside = make_beside(rt, alloc, path, mode)?;
    put_beside(rt, alloc, &beside, path, old, bytes)?;
    sync_folder(rt, alloc, path)
}

/// Puts a file of these bytes in the place of the plain file that a path leads to, or makes it: written beside it under a name of its own,
/// with the old file's mode bits, synced, renamed, and its folder synced. Until the renaming the old file stands as it was, and where
/// anything before it fails what was written beside is removed. `held` is the old file, which the caller holds; where there is none, a file
/// that stands there by now was made by another program.
pub fn replace_file<R: Files<File = File>>(
    rt: &R,
    alloc: Global,
    path: &str,
    held: Option<&HeldFile>,
    bytes: &[u8],
) -> Result<(), Trouble> {
    let behind = file_behind(rt, alloc, path)?;
    let path = behind.as_str();
    if let Some(held) = held {
        let old = check_old(rt, path, held)?;
        return replace(rt, alloc, path, Some(&old), bytes);
    }
    check_none(rt, path)?;
    replace(rt, alloc, path, None, bytes)
}

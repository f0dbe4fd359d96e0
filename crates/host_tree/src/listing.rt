//! What stands in a tree of folders of the host.
ghost use Rattle.std.specs.Prelude.{◌≡◌, ◌∷◌, ◌++◌, string_bytes, IfOk};

use crate::known::{Known, KnownFiles};
use host_edge::PassedOver;
use std::alloc::{AllocError, Global};
use std::fs::{Files, Metadata};
use std::io::{Error, ErrorKind};
use std::{fs, io};
use tree_paths::name_of;

/// The most bytes of a path below the top of the tree. Its name on a volume has 31 at most.
const MOST: usize = 1000;

/// What stands in a tree.
#[derive(Drop)]
pub struct Listed {
    /// The plain files, by their names.
    pub files: KnownFiles,
    /// Links and all else that is neither a plain file nor a folder.
    pub passed_over: Vec<PassedOver>,
}

impl Listed {
    /// Nothing.
    pub fn none(alloc: Global) -> Listed {
        Listed {
            files: KnownFiles::none(alloc),
            passed_over: Vec::new(alloc),
        }
    }
}

// The path below the top of what stands in a folder below it.
fn below(alloc: Global, folder: &str, name: &str) -> Result<String, AllocError> {
    if folder.is_empty() {
        String::from_str(alloc, name)
    } else {
        format!(in alloc; "{folder}/{name}")
    }
}

/// The path that the host opens of what has a path below the top.
pub(crate) fn below_top(alloc: Global, top: &str, path: &str) -> Result<String, AllocError>
    ensures { IfOk result (λ full. string_bytes full ≡ top.now ++ 47 ∷ path.now) }
{
    let mut full = String::from_str(alloc, top)?;
    full.push('/')?;
    full.push_str(path)?;
    Ok(full)
}

// The path that the host opens of a folder: that of the top, where it has no path below it.
fn folder_path(alloc: Global, top: &str, folder: &str) -> Result<String, AllocError> {
    if folder.is_empty() {
        String::from_str(alloc, top)
    } else {
        below_top(alloc, top, folder)
    }
}

// Notes what stands at a path below the top. A folder is gone into later.
fn note(
    alloc: Global,
    top: &str,
    path: String,
    told: &Metadata,
    folders: &mut Vec<String>,
    listed: &mut Listed,
) -> io::Result<()> {
    if path.len() > MOST {
        let why = "a path of more than 1000 bytes";
        return Err(Error::new(ErrorKind::InvalidFilename, why));
    }
    if told.is_dir() {
        folders.push(path)?;
        return Ok(());
    }
    let full = below_top(alloc, top, path.as_str())?;
    if told.is_file() {
        let name = name_of(alloc, path.as_str())?;
        listed.files.list(Known { name, path: full })?;
    } else {
        listed.passed_over.push(PassedOver {
            path: full,
            is_folder: false,
        })?;
    }
    Ok(())
}

// Notes what stands in a folder below the top, whose path the host opens.
fn list_one<R: Files>(
    rt: &R,
    alloc: Global,
    top: &str,
    folder: &str,
    full: &str,
    folders: &mut Vec<String>,
    listed: &mut Listed,
) -> io::Result<()> {
    for entry in fs::read_dir(&(rt, alloc), full)? {
        let entry = entry?;
        // (a link is told as one, and never gone into)
        let told = entry.metadata()?;
        let path = below(alloc, folder, entry.file_name())?;
        note(alloc, top, path, &told, folders, listed)?;
    }
    Ok(())
}

/// What stands in the tree below a folder, in the order in which the host tells it. No link is followed, but for the folder itself. `asked`
/// becomes the path of the folder that is read last: where the listing fails, of the one that can't be read.
pub(crate) fn list<R: Files>(
    rt: &R,
    alloc: Global,
    top: &str,
    asked: &mut String,
) -> io::Result<Listed> {
    let mut listed = Listed::none(alloc);
    let mut folders = Vec::new(alloc);
    folders.push(String::new(alloc))?;
    // (a tree has an end, which the host doesn't promise)
    for _ in 0..u64::MAX {
        let Some(folder) = folders.pop() else {
            listed.files.put_in_order()?;
            return Ok(listed);
        };
        *asked = folder_path(alloc, top, folder.as_str())?;
        list_one(
            rt,
            alloc,
            top,
            folder.as_str(),
            asked.as_str(),
            &mut folders,
            &mut listed,
        )?;
    }
    Err(Error::from(ErrorKind::FileTooLarge))
}

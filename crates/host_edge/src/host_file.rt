//! Files of a host folder.
ghost use Rattle.std.specs.Prelude.{◌≡◌, ◌≤◌, ◌<◌, ◌^◌, length, IfOk};
ghost use Rattle.folder_core.specs.Files.{name_at, size_at};
ghost use Rattle.host_edge.specs.Host.{host_entries};

use crate::FileId;
use crate::names::decoded;
use crate::opening::{Current, Place, none_open, turn_to};
use std::fs::Files;
use std::io::{Error, ErrorKind, Read, Seek, SeekFrom};
use std::{fs, io};

/// A plain file of a host folder.
#[derive(Drop)]
pub struct HostFile {
    /// What its name stands for.
    pub name: Vec<u8>,
    /// By which the host opens it.
    pub path: String,
    /// How many bytes it has.
    pub size: u64,
}

/// What stands in a host folder and is no plain file.
#[derive(Drop)]
pub struct PassedOver {
    /// By which the host opens it.
    pub path: String,
    /// Whether it is a folder.
    pub is_folder: bool,
}

/// What stands in a host folder.
#[derive(Drop)]
pub(crate) struct Listed {
    /// The plain files, in the order of their names' bytes.
    pub files: Vec<HostFile>,
    /// All else, in the order of the paths' bytes.
    pub passed_over: Vec<PassedOver>,
    /// The path of a plain file that is one of the chips: the first one in the order of paths.
    pub chip: Option<String>,
}

// What the name of file `i` stands for.
pub(crate) fn name_of(files: &Vec<HostFile>, i: usize) -> &[u8]
    requires { i < length files.now.items }
    ensures { result.now ≡ name_at (host_entries files.now.items) i }
{
    &files[i].name
}

// How many bytes file `i` has.
pub(crate) fn size_of(files: &Vec<HostFile>, i: usize) -> u64
    requires { i < length files.now.items }
    ensures { result ≡ size_at (host_entries files.now.items) i }
{
    files[i].size
}

// Whether a path comes before that one, where there is one.
fn is_earlier(path: &String, other: &Option<String>) -> bool {
    match other {
        Some(other) => path.as_str() < other.as_str(),
        None => true,
    }
}

// What stands in a folder, in order, so that equal folders are told equally.
pub(crate) fn list<R: Files>(place: &Place<'_, R>) -> io::Result<Listed>
    ensures few { IfOk result (λ listed. length listed.files.items < 2 ^ 32) }
{
    let alloc = place.alloc;
    let mut files = Vec::new(alloc);
    let mut passed_over = Vec::new(alloc);
    let mut chip = None;
    for entry in fs::read_dir(&(place.rt, alloc), place.path)? {
        let entry = entry?;
        let metadata = entry.metadata()?;
        let path = String::from_str(alloc, entry.path().as_str())?;
        if metadata.is_file() {
            if place.bounds.chips.contains(&FileId::of(&metadata)) && is_earlier(&path, &chip) {
                chip = Some(String::from_str(alloc, path.as_str())?);
            }
            let name = decoded(alloc, entry.file_name().as_bytes())?;
            let size = metadata.len();
            files.push(HostFile { name, path, size })?;
        } else {
            let is_folder = metadata.is_dir();
            passed_over.push(PassedOver { path, is_folder })?;
        }
    }
    if files.len() > u32::MAX as usize {
        return Err(Error::from(ErrorKind::FileTooLarge));
    }
    files.sort_unstable_by(|a, b| a.name.cmp(&b.name));
    passed_over.sort_unstable_by(|a, b| a.path.cmp(&b.path));
    Ok(Listed {
        files,
        passed_over,
        chip,
    })
}

// Reads bytes of file `i` from a place on. It is opened for its first bytes, and kept open.
pub(crate) fn read_at<R: Files>(
    place: &Place<'_, R>,
    current: &mut Option<Current<R::File>>,
    i: usize,
    path: &str,
    at: u64,
    into: &mut [u8],
) -> io::Result<()> {
    turn_to(place, current, i, path, false)?;
    let Some(open) = current else {
        return Err(none_open());
    };
    open.file.seek(SeekFrom::Start(at))?;
    open.file.read_exact(into)
}

//! Names of host files that no file of a volume can have.
use crate::Shown;
use crate::host_file::HostFile;
use std::fmt;

/// The most bytes of a name on a volume.
const MOST: usize = 31;

/// What is wrong with the name of a host file, in words for the one who started the program.
#[derive(Clone, Copy, Debug, PartialEq, Eq)]
pub enum BadName<'f> {
    /// It is empty.
    Empty { path: &'f str },
    /// It holds a zero byte.
    Zero { path: &'f str },
    /// It has so many bytes, and more than 31.
    Long { path: &'f str, bytes: usize },
    /// An earlier file has it.
    Taken { path: &'f str, by: &'f str },
}

impl fmt::Display for BadName<'_> {
    fn fmt<W: fmt::Write>(&self, f: &mut fmt::Formatter<W>) -> fmt::Result {
        match self {
            BadName::Empty { path } => write!(f, "{}: its name is empty", Shown(path)),
            BadName::Zero { path } => write!(f, "{}: its name holds a zero byte", Shown(path)),
            BadName::Long { path, bytes } => write!(
                f,
                "{}: its name has {bytes} bytes, and 31 at most go",
                Shown(path)
            ),
            BadName::Taken { path, by } => {
                write!(f, "{}: {} has the same name", Shown(path), Shown(by))
            }
        }
    }
}

// The first of these files that has that name.
fn holder<'f>(files: &'f [HostFile], name: &[u8]) -> Option<&'f HostFile> {
    for file in files {
        if file.name.as_slice() == name {
            return Some(file);
        }
    }
    None
}

// What is wrong with a name by itself.
fn wrong_alone(file: &HostFile) -> Option<BadName<'_>> {
    let path = file.path.as_str();
    let bytes = file.name.len();
    if bytes == 0 {
        return Some(BadName::Empty { path });
    }
    if file.name.as_slice().contains(&0) {
        return Some(BadName::Zero { path });
    }
    if bytes > MOST {
        return Some(BadName::Long { path, bytes });
    }
    None
}

// What is wrong with the name of a file that stands behind these. They are in the order of their names, so that those of one name are neighbours.
fn wrong<'f>(earlier: &'f [HostFile], file: &'f HostFile) -> Option<BadName<'f>> {
    let alone = wrong_alone(file);
    if alone.is_some() {
        return alone;
    }
    if earlier.last()?.name != file.name {
        return None;
    }
    let path = file.path.as_str();
    let by = holder(earlier, file.name.as_slice())?.path.as_str();
    Some(BadName::Taken { path, by })
}

/// The first of these files, which are in the order of their names, whose name no file of a volume can have, or an earlier file has.
pub(crate) fn first_bad(files: &[HostFile]) -> Option<BadName<'_>> {
    for (i, file) in files.iter().enumerate() {
        let bad = wrong(&files[..i], file);
        if bad.is_some() {
            return bad;
        }
    }
    None
}

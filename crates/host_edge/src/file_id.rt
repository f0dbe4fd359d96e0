//! Which file of the host something is.
use std::fs::{Files, Metadata};
use std::os::unix::fs::MetadataExt;
use std::{fs, io};

/// A file of the host, by its device and by its inode there: all paths that lead to one file have the same.
#[derive(Clone, Copy, Debug, PartialEq, Eq)]
pub struct FileId {
    device: u64,
    inode: u64,
}

impl FileId {
    /// The file of which the host tells this.
    pub fn of(told: &Metadata) -> FileId {
        FileId {
            device: told.dev(),
            inode: told.ino(),
        }
    }

    /// The file to which a path leads, also through links.
    pub fn at<R: Files>(rt: &R, path: &str) -> io::Result<FileId> {
        Ok(FileId::of(&fs::metadata(rt, path)?))
    }
}

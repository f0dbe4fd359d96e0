//! A chip file of the host that is held: opened once, locked, and of a known length.
use crate::chip::{Access, FileChip};
use crate::file::read_known;
use crate::limit::SizeLimit;
use crate::{NoChip, Trouble};
use std::fs::{File, Metadata, OpenOptions};
use std::io::{Error, ErrorKind, Seek, SeekFrom};
use std::os::unix::fs::{FileTypeExt, MetadataExt};
use std::rt::Files;
use std::{fs, io};

/// How often a file is opened anew whose path leads to another one once the lock is taken.
const TRIES: u32 = 16;

/// A chip file of the host that is open: a plain file or a block device, with its length, and locked. The lock is let go with it and with the
/// chips that were made of it.
#[derive(Drop)]
pub struct HeldFile {
    file: File,
    length: u64,
    is_device: bool,
    writes: bool,
    limit: SizeLimit,
}

// What is told of a file, where it is no chip.
fn other_kind(told: &Metadata) -> Option<NoChip> {
    let kind = told.file_type();
    if told.is_file() || kind.is_block_device() {
        None
    } else if told.is_dir() {
        Some(NoChip::Folder)
    } else if kind.is_fifo() {
        Some(NoChip::Pipe)
    } else if kind.is_char_device() {
        Some(NoChip::CharacterDevice)
    } else if kind.is_socket() {
        Some(NoChip::Socket)
    } else {
        Some(NoChip::Other)
    }
}

// Refuses what is told of a file, unless that may be a chip.
fn check_kind(told: &Metadata) -> Result<(), Trouble> {
    match other_kind(told) {
        Some(kind) => Err(Trouble::Kind(kind)),
        None => Ok(()),
    }
}

// Refuses what a path leads to, unless that may be a chip, or is to be made. It isn't opened: opening a pipe waits.
fn check_path<R: Files<File = File>>(rt: &R, path: &str, access: Access) -> Result<(), Trouble> {
    match fs::metadata(rt, path) {
        Ok(told) => check_kind(&told),
        Err(why) if why.kind() == ErrorKind::NotFound && access == Access::Create => Ok(()),
        Err(why) => Err(Trouble::Open(why)),
    }
}

// Opens what a path leads to.
fn open_path<R: Files<File = File>>(rt: &R, path: &str, access: Access) -> Result<File, Trouble> {
    let mut options = OpenOptions::new();
    options
        .read(true)
        .write(access != Access::Read)
        .create(access == Access::Create);
    options.open(rt, path).map_err(Trouble::Open)
}

// Takes the lock of a file, alone or with others that read. A file system that has no locks gives none.
fn lock(file: &File, access: Access) -> Result<(), Trouble> {
    let answer = if access == Access::Read {
        file.try_lock_shared()
    } else {
        file.try_lock()
    };
    let Err(why) = answer else {
        return Ok(());
    };
    match Error::from(why).kind() {
        ErrorKind::WouldBlock => Err(Trouble::Busy),
        _ => Ok(()),
    }
}

// Whether both are told of one file.
fn is_one(one: &Metadata, other: &Metadata) -> bool {
    one.dev() == other.dev() && one.ino() == other.ino()
}

// Whether a path leads to this file.
fn leads_to<R: Files<File = File>>(rt: &R, path: &str, told: &Metadata) -> bool {
    match fs::metadata(rt, path) {
        Ok(there) => is_one(told, &there),
        Err(_) => false,
    }
}

// How many bytes a file has of which that is told: a device tells its length by its end.
fn length_of(file: &File, told: &Metadata) -> io::Result<u64> {
    if told.is_file() {
        return Ok(told.len());
    }
    let mut file = file;
    file.seek(SeekFrom::End(0))
}

impl HeldFile {
    /// Opens it, and takes its lock without waiting: shared for `Access::Read`, else alone. All but a plain file or a block device is refused
    /// before it is opened. Where the path leads to another file once the lock is taken, another program has replaced it: then that is opened.
    pub fn open<R: Files<File = File>>(
        rt: &R,
        path: &str,
        access: Access,
    ) -> Result<HeldFile, Trouble> {
        for _ in 0..TRIES {
            check_path(rt, path, access)?;
            let file = open_path(rt, path, access)?;
            let told = file.metadata().map_err(Trouble::Open)?;
            check_kind(&told)?;
            lock(&file, access)?;
            if leads_to(rt, path, &told) {
                return HeldFile::locked(file, access, SizeLimit::of(rt));
            }
        }
        Err(Trouble::Busy)
    }

    // The file that is locked, where plain files have that limit.
    fn locked(file: File, access: Access, limit: SizeLimit) -> Result<HeldFile, Trouble> {
        let told = file.metadata().map_err(Trouble::Open)?;
        let length = length_of(&file, &told).map_err(Trouble::Open)?;
        let is_device = !told.is_file();
        let limit = if is_device { SizeLimit::none() } else { limit };
        Ok(HeldFile {
            file,
            length,
            is_device,
            writes: access != Access::Read,
            limit,
        })
    }

    /// How many bytes it had when it was opened.
    pub fn length(&self) -> u64 {
        self.length
    }

    /// Whether it is a block device.
    pub fn is_device(&self) -> bool {
        self.is_device
    }

    /// Whether it was opened for writing.
    pub fn writes(&self) -> bool {
        self.writes
    }

    /// What the host tells of it now.
    pub fn metadata(&self) -> io::Result<Metadata> {
        self.file.metadata()
    }

    /// Reads bytes; fewer than asked for are a fault.
    pub fn read_at(&self, at: u64, into: &mut [u8]) -> Result<(), Trouble> {
        read_known(&self.file, at, into).map_err(Trouble::Read)
    }

    // Another handle of the same open file, with the length that it has now. A plain file that has become shorter is a fault.
    fn again(&self) -> Result<HeldFile, Trouble> {
        let file = self.file.try_clone().map_err(Trouble::Open)?;
        let told = file.metadata().map_err(Trouble::Open)?;
        let length = length_of(&file, &told).map_err(Trouble::Open)?;
        if length < self.length {
            return Err(Trouble::Shorter);
        }
        Ok(HeldFile {
            file,
            length,
            is_device: self.is_device,
            writes: self.writes,
            limit: self.limit,
        })
    }

    /// The chip of `size` bytes and erase units of `unit` bytes that stands in it: another handle of the same open file, under the same lock.
    /// This never refuses: what fails here makes each later call fail.
    pub fn chip(&self, size: u32, unit: u32) -> FileChip {
        match self.again() {
            Ok(held) => FileChip::over(held, size, unit),
            Err(why) => FileChip::failed(why, size, unit),
        }
    }

    /// Sees to it that what was written stands on the host's medium.
    pub fn sync(&self) -> Result<(), Trouble> {
        self.file.sync_all().map_err(Trouble::Sync)
    }

    /// Whether that is told of this file.
    pub fn is_same(&self, told: &Metadata) -> bool {
        match self.file.metadata() {
            Ok(own) => is_one(&own, told),
            Err(_) => false,
        }
    }

    // How far it may be written.
    pub(crate) fn limit(&self) -> SizeLimit {
        self.limit
    }

    // The open file.
    pub(crate) fn file(&self) -> &File {
        &self.file
    }
}

use std::{fmt, io};
use thiserror::Error;

/// The number by which the host says that a descriptor isn't open, or not for writing.
const BAD_DESCRIPTOR: i32 = 9;

/// What a path leads to that is no chip.
#[derive(Clone, Copy, Debug, PartialEq, Eq)]
pub enum NoChip {
    /// A folder.
    Folder,
    /// A pipe with a name.
    Pipe,
    /// A character device.
    CharacterDevice,
    /// A socket.
    Socket,
    /// Nothing that is known.
    Other,
}

impl fmt::Display for NoChip {
    fn fmt<W: fmt::Write>(&self, f: &mut fmt::Formatter<W>) -> fmt::Result {
        f.write_str(match self {
            NoChip::Folder => "a folder",
            NoChip::Pipe => "a pipe",
            NoChip::CharacterDevice => "a character device",
            NoChip::Socket => "a socket",
            NoChip::Other => "a special file",
        })
    }
}

/// A step of putting a new file in the place of an old one.
#[derive(Clone, Copy, Debug, PartialEq, Eq)]
pub enum Step {
    /// The new file is made beside the old one.
    Make,
    /// Its bytes are written.
    Write,
    /// It gets the old file's mode.
    Mode,
    /// It is brought onto the host's medium.
    Sync,
    /// It gets the old file's name.
    Rename,
}

impl fmt::Display for Step {
    fn fmt<W: fmt::Write>(&self, f: &mut fmt::Formatter<W>) -> fmt::Result {
        f.write_str(match self {
            Step::Make => "made",
            Step::Write => "written",
            Step::Mode => "given the mode of the old file",
            Step::Sync => "synced",
            Step::Rename => "renamed",
        })
    }
}

/// What failed at the host, in words for the one who started the program.
#[derive(Debug, Drop, Error)]
pub enum Trouble {
    /// The chip file can't be opened.
    #[error("the chip file can't be opened: {0}")]
    Open(io::Error),
    /// The chip file can't be read.
    #[error("the chip file can't be read: {0}")]
    Read(io::Error),
    /// The chip file can't be written.
    #[error("the chip file can't be written: {0}")]
    Write(io::Error),
    /// The path leads to what is no chip.
    #[error("is {0}, and no chip: give a plain file or a block device")]
    Kind(NoChip),
    /// Another program has the file open.
    #[error("another program has this file open; wait until it has ended, or give another file")]
    Busy,
    /// The file has fewer bytes than it had.
    #[error("the chip file has become shorter: another program has changed it")]
    Shorter,
    /// The block device has fewer bytes than the chip.
    #[error("the device has {length} bytes, and the chip ends at byte {size}")]
    Small {
        length: u64,
        size: u32,
    },
    /// What was written can't be brought onto the host's medium.
    #[error("the chip file can't be synced: {0}")]
    Sync(io::Error),
    /// The file can't be replaced, and stands as it was, or isn't there. The path is that of the step, and may be shown.
    #[error("nothing was changed: {path} can't be {step}: {why}")]
    Replace {
        step: Step,
        path: String,
        why: io::Error,
    },
    /// The file is replaced, but its folder can't be brought onto the host's medium. The path is the folder's, and may be shown.
    #[error("is written, but a cut of the host may bring the old file back: {path} can't be synced: {why}")]
    Folder {
        path: String,
        why: io::Error,
    },
    /// A device is no file that can be replaced.
    #[error("is a block device, and can't be replaced")]
    Device,
    /// There is no memory for the path of a file beside.
    #[error("nothing was changed: there is no memory for a path")]
    NoPath,
    /// Standard output takes nothing more.
    #[error("standard output can't be written: {0}")]
    Say(io::Error),
    /// There is no standard output.
    #[error("standard output is closed")]
    Closed,
    /// The script can't be read.
    #[error("the script can't be read: {0}")]
    Script(io::Error),
    /// The folder can't be listed.
    #[error("the folder can't be listed: {0}")]
    List(io::Error),
    /// A file of the folder can't be read.
    #[error("a file of the folder can't be read: {0}")]
    Get(io::Error),
    /// A file of the folder can't be written.
    #[error("a file of the folder can't be written: {0}")]
    Put(io::Error),
}

impl Trouble {
    /// Whether another program has the file.
    pub fn is_busy(&self) -> bool {
        matches!(self, Trouble::Busy)
    }

    /// Why nothing more can be said.
    pub fn of_output(why: io::Error) -> Trouble {
        if why.raw_os_error() == Some(BAD_DESCRIPTOR) {
            Trouble::Closed
        } else {
            Trouble::Say(why)
        }
    }
}

// Keeps the first trouble that there was.
pub(crate) fn note(first: &mut Option<Trouble>, trouble: Trouble) {
    if first.is_none() {
        *first = Some(trouble);
    }
}

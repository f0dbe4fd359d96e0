ghost use Rattle.std.specs.Prelude.{[], ◌+◌, ◌<◌, ◌^◌};

use crate::file::Window;
use crate::limit::SizeLimit;
use crate::trouble::note;
use crate::{HeldFile, Trouble};
use chip_row::{Chip, ChipState};
use nor_core::{Failed, Mark};
use std::fs::File;
use std::rt::Files;

/// What a chip file is opened for.
#[derive(Clone, Copy, Debug, PartialEq, Eq)]
pub enum Access {
    /// Reading alone: a program or an erase fails.
    Read,
    /// Reading and writing.
    Write,
    /// Reading and writing; the file is made where it isn't there.
    Create,
}

/// A NOR chip that is a file of the host, or a block device. Bytes past the end of a plain file are 0xFF. It tells no bytes. A piece of the file
/// is kept, so nothing else may write to the file while the chip is in use.
#[derive(Drop)]
pub struct FileChip {
    held: Option<HeldFile>,
    window: Window,
    size: u32,
    unit: u32,
    last: u64,
    reads: u64,
    faults: u64,
    trouble: Option<Trouble>,
    ghost fits: { size < 2 ^ 32 },
}

impl FileChip {
    /// The chip of `size` bytes and erase units of `unit` bytes that stands in a file. This never refuses: a
    /// file that can't be opened makes every later call fail.
    pub fn new<R: Files<File = File>>(
        rt: &R,
        path: &str,
        access: Access,
        size: u32,
        unit: u32,
    ) -> FileChip {
        match HeldFile::open(rt, path, access) {
            Ok(held) => FileChip::over(held, size, unit),
            Err(why) => FileChip::failed(why, size, unit),
        }
    }

    /// The chip that stands in a file that is open. A device that is shorter than the chip makes every later call fail.
    pub fn over(held: HeldFile, size: u32, unit: u32) -> FileChip {
        let length = held.length();
        if held.is_device() && length < u64::from(size) {
            return FileChip::failed(Trouble::Small { length, size }, size, unit);
        }
        let window = Window::new(length, held.is_device(), held.limit());
        FileChip {
            held: Some(held),
            window,
            size,
            unit,
            last: 0,
            reads: 0,
            faults: 0,
            trouble: None,
        }
    }

    /// A chip of which every call fails, for that cause.
    pub fn failed(why: Trouble, size: u32, unit: u32) -> FileChip {
        FileChip {
            held: None,
            window: Window::new(0, false, SizeLimit::none()),
            size,
            unit,
            last: 0,
            reads: 0,
            faults: 0,
            trouble: Some(why),
        }
    }

    /// What failed first, if anything did.
    pub fn trouble(&self) -> Option<&Trouble> {
        self.trouble.as_ref()
    }

    /// How many bytes the file has, as far as it was opened.
    pub fn length(&self) -> u64 {
        self.window.end()
    }

    /// Whether the file is a block device.
    pub fn is_device(&self) -> bool {
        match &self.held {
            Some(held) => held.is_device(),
            None => false,
        }
    }

    /// The whole file as a chip of its own, in units of one byte, where it has bytes and no more than a chip may have.
    pub fn whole(&self) -> Option<FileChip> {
        let held = self.held.as_ref()?;
        match u32::try_from(self.window.end()) {
            Ok(0) | Err(_) => None,
            Ok(size) => Some(held.chip(size, 1)),
        }
    }

    /// The same file as a chip of another size, before anything was read or written.
    pub fn resized(self, size: u32, unit: u32) -> FileChip {
        let FileChip {
            held,
            window: _,
            size: _,
            unit: _,
            last: _,
            reads: _,
            faults: _,
            trouble,
        } = self;
        match (held, trouble) {
            (Some(held), _) => FileChip::over(held, size, unit),
            (None, Some(why)) => FileChip::failed(why, size, unit),
            (None, None) => FileChip::failed(Trouble::Shorter, size, unit),
        }
    }

    /// Ends the use of the chip: what was written is brought onto the host's medium, and the file must not have become shorter than it was.
    /// A chip that failed before has said why.
    pub fn finish(&self) -> Result<(), Trouble> {
        let Some(held) = &self.held else {
            return Ok(());
        };
        let told = held.metadata().map_err(Trouble::Read)?;
        if told.is_file() && told.len() < self.window.end() {
            return Err(Trouble::Shorter);
        }
        if self.window.has_written() {
            held.sync()?;
        }
        Ok(())
    }
}

// The open file, if there is one.
fn file_of(held: &Option<HeldFile>) -> Option<&File> {
    match held {
        Some(held) => Some(held.file()),
        None => None,
    }
}

// Reads bytes of the file, and answers whether that could be done.
fn read_file(
    held: &Option<HeldFile>,
    window: &mut Window,
    first: &mut Option<Trouble>,
    at: u32,
    into: &mut [u8],
) -> bool {
    let Some(file) = file_of(held) else {
        return false;
    };
    match window.read_at(file, at, into) {
        Ok(()) => true,
        Err(why) => {
            note(first, Trouble::Read(why));
            false
        }
    }
}

// Programs bytes of the file, and answers whether that could be done.
fn program_file(
    held: &Option<HeldFile>,
    window: &mut Window,
    first: &mut Option<Trouble>,
    at: u32,
    from: &[u8],
) -> bool {
    let Some(file) = file_of(held) else {
        return false;
    };
    match window.program_at(file, at, from) {
        Ok(()) => true,
        Err(why) => {
            note(first, Trouble::Write(why));
            false
        }
    }
}

// Erases bytes of the file, and answers whether that could be done.
fn erase_file(
    held: &Option<HeldFile>,
    window: &mut Window,
    first: &mut Option<Trouble>,
    at: u64,
    count: u32,
) -> bool
    requires { at + count < 2 ^ 64 }
{
    let Some(file) = file_of(held) else {
        return false;
    };
    match window.erase_at(file, at, count) {
        Ok(()) => true,
        Err(why) => {
            note(first, Trouble::Write(why));
            false
        }
    }
}

impl ChipState for FileChip {
    ghost tells = { λ _. ⊥ };

    ghost bytes = { λ _. [] };

    ghost size = { λ c. c.size };

    ghost unit = { λ c. c.unit };

    ghost faults = { λ c. c.faults };

    ghost device_reads = { λ c. c.reads };

    ghost last = { λ c. c.last };

    ghost left_at = { λ _ _ _. ⊥ };
}

impl Chip for FileChip {
    fn size(&self) -> u32 {
        self.size
    }

    fn unit(&self) -> u32 {
        self.unit
    }

    fn last(&self) -> u64 {
        self.last
    }

    fn read(&mut self, at: u32, into: &mut [u8]) -> Result<(), Failed> {
        self.reads = self.reads.saturating_add(1);
        if read_file(&self.held, &mut self.window, &mut self.trouble, at, into) {
            return Ok(());
        }
        self.faults = self.faults.saturating_add(1);
        Err(Failed)
    }

    fn program(&mut self, now: u64, at: u32, from: &[u8]) -> Result<(), Failed> {
        self.last = now;
        if program_file(&self.held, &mut self.window, &mut self.trouble, at, from) {
            return Ok(());
        }
        self.faults = self.faults.saturating_add(1);
        Err(Failed)
    }

    fn erase(&mut self, now: u64, unit_ix: u32, _mark: Option<Mark>) -> Result<(), Failed> {
        self.last = now;
        let at = u64::from(unit_ix) * u64::from(self.unit);
        if erase_file(
            &self.held,
            &mut self.window,
            &mut self.trouble,
            at,
            self.unit,
        ) {
            return Ok(());
        }
        self.faults = self.faults.saturating_add(1);
        Err(Failed)
    }
}

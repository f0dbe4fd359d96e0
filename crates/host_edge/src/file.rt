ghost use Rattle.std.specs.Prelude.{◌≡◌, ◌+◌, ◌<◌, ◌≤◌, ◌^◌, length, IfOk};

use crate::limit::SizeLimit;
use std::fs::File;
use std::io;
use std::io::{Error, ErrorKind};
use std::os::unix::fs::FileExt;

/// How many bytes of a file are kept, and are erased at a time.
const WINDOW: usize = 4096;

// As many erased bytes.
static BLANK: [u8; WINDOW] = [0xFF; WINDOW];

/// A piece of a file as it stands there, and the file's length, so that the host is asked for them once. Nothing but this
/// may write to the file meanwhile.
#[derive(Drop)]
pub(crate) struct Window {
    // Where the piece begins, if there is one: a multiple of its length.
    start: Option<u64>,
    // The length of the file.
    end: u64,
    // Whether the file is a device, which is never lengthened.
    is_device: bool,
    // How far it may be written.
    limit: SizeLimit,
    // Whether anything was written.
    has_written: bool,
    bytes: [u8; WINDOW],
}

// Where the piece begins that has a place, the place in it, and how many of so many bytes from there on lie in it.
fn piece_of(at: u64, count: usize) -> (u64, usize, usize)
    ensures inside { result.1 + result.2 ≤ 4096 }
    ensures most { result.2 ≤ count }
    ensures some { 0 < count → 0 < result.2 }
{
    let first = at % WINDOW as u64;
    (
        at - first,
        first as usize,
        count.min(WINDOW - first as usize),
    )
}

// The error for a file that has fewer bytes than it had.
fn shorter() -> Error {
    Error::new(
        ErrorKind::UnexpectedEof,
        "it has become shorter, since another program has changed it",
    )
}

/// Reads bytes that the file has; where it has fewer it has become shorter, which is a fault.
pub(crate) fn read_known(file: &File, at: u64, into: &mut [u8]) -> io::Result<()> {
    match file.read_exact_at(into, at) {
        Ok(()) => Ok(()),
        Err(why) if why.kind() == ErrorKind::UnexpectedEof => Err(shorter()),
        Err(why) => Err(why),
    }
}

// Reads bytes from a place of a file that ends there. Past its end they are 0xFF.
fn read_whole(file: &File, end: u64, at: u64, into: &mut [u8]) -> io::Result<()> {
    let known = end.saturating_sub(at).min(into.len() as u64) as usize;
    let (inside, behind) = into.split_at_mut(known);
    behind.fill(0xFF);
    if inside.is_empty() {
        return Ok(());
    }
    read_known(file, at, inside)
}

// Appends 0xFF to the file from its end on until it reaches a place. Answers how long the file is then.
fn append_blank(file: &File, limit: SizeLimit, end: u64, at: u64) -> io::Result<u64> {
    let mut end = end;
    while end < at {
        let piece = (at - end).min(WINDOW as u64);
        limit.write_at(file, end, &BLANK[..piece as usize])?;
        end += piece;
    }
    Ok(end)
}

impl Window {
    /// Of a file of that length. Nothing is kept yet.
    pub(crate) fn new(end: u64, is_device: bool, limit: SizeLimit) -> Window {
        Window {
            start: None,
            end,
            is_device,
            limit,
            has_written: false,
            bytes: [0xFF; WINDOW],
        }
    }

    /// The length of the file.
    pub(crate) fn end(&self) -> u64 {
        self.end
    }

    /// Whether anything was written.
    pub(crate) fn has_written(&self) -> bool {
        self.has_written
    }

    // Gets the piece that begins there.
    fn take(&mut self, file: &File, start: u64) -> io::Result<()> {
        if self.start == Some(start) {
            return Ok(());
        }
        self.start = None;
        read_whole(file, self.end, start, &mut self.bytes)?;
        self.start = Some(start);
        Ok(())
    }

    /// Reads bytes from a place of the file. Past its end they are 0xFF.
    pub(crate) fn read_at(&mut self, file: &File, at: u32, into: &mut [u8]) -> io::Result<()> {
        let mut done = 0;
        while done < into.len() {
            let place = u64::from(at).wrapping_add(done as u64);
            let (start, first, count) = piece_of(place, into.len() - done);
            self.take(file, start)?;
            into[done..done + count].copy_from_slice(&self.bytes[first..first + count]);
            done += count;
        }
        Ok(())
    }

    // Sees to it that bytes may be written at a place of a plain file: 0xFF is appended until it reaches there, since bytes past its end
    // count as erased, and those that a write leaves out would otherwise read as zeros. So would those that it has lost.
    fn reach(&mut self, file: &File, at: u64) -> io::Result<()> {
        if file.metadata()?.len() < self.end {
            return Err(shorter());
        }
        self.end = append_blank(file, self.limit, self.end, at)?;
        Ok(())
    }

    // Sees to it that so many bytes may be written at a place.
    fn make_ready(&mut self, file: &File, at: u64, count: u64) -> io::Result<()> {
        self.has_written = true;
        if !self.is_device {
            return self.reach(file, at);
        }
        if at.saturating_add(count) > self.end {
            return Err(Error::new(ErrorKind::StorageFull, "the device ends there"));
        }
        Ok(())
    }

    // Writes bytes at a place of the file.
    fn write_at(&mut self, file: &File, at: u64, from: &[u8]) -> io::Result<()> {
        self.make_ready(file, at, from.len() as u64)?;
        self.limit.write_at(file, at, from)?;
        self.end = self.end.max(at.saturating_add(from.len() as u64));
        Ok(())
    }

    // Clears in the file the bits that are not set in the asked bytes, as far as they lie in one piece. Answers how many
    // bytes these are. Where it fails no piece is kept.
    fn program_piece(&mut self, file: &File, at: u64, from: &[u8]) -> io::Result<usize>
        ensures most { IfOk result (λ n. n ≤ length from.now) }
        ensures some { 0 < length from.now → IfOk result (λ n. 0 < n) }
    {
        let (start, first, count) = piece_of(at, from.len());
        self.take(file, start)?;
        self.start = None;
        self.make_ready(file, at, count as u64)?;
        let piece = &mut self.bytes[first..first + count];
        for (byte, asked) in piece.iter_mut().zip(from) {
            *byte &= *asked;
        }
        self.limit.write_at(file, at, piece)?;
        self.end = self.end.max(at.saturating_add(count as u64));
        self.start = Some(start);
        Ok(count)
    }

    /// Programs bytes at a place of the file: by reading, clearing bits and writing back.
    pub(crate) fn program_at(&mut self, file: &File, at: u32, from: &[u8]) -> io::Result<()> {
        let mut done = 0;
        while done < from.len() {
            let place = u64::from(at).wrapping_add(done as u64);
            done += self.program_piece(file, place, &from[done..])?;
        }
        Ok(())
    }

    /// Erases bytes of the file: they become 0xFF.
    pub(crate) fn erase_at(&mut self, file: &File, at: u64, count: u32) -> io::Result<()>
        requires { at + count < 2 ^ 64 }
    {
        self.start = None;
        let mut done = 0;
        while done < count {
            let piece = (count - done).min(WINDOW as u32);
            self.write_at(file, at + u64::from(done), &BLANK[..piece as usize])?;
            done += piece;
        }
        Ok(())
    }
}

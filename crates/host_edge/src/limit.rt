//! Writing to a file without passing the limit that the process has for a file's size: there the host would end it by a signal.
use std::fs::File;
use std::io::{Error, Read};
use std::os::unix::fs::FileExt;
use std::rt::Files;
use std::{fs, io, str};

/// Where the host tells the limits of the process, one a line.
const LIMITS: &str = "/proc/self/limits";

/// How the line of this limit begins; what holds now stands behind it.
const FILE_SIZE: &str = "Max file size";

/// The most bytes of that text that are read.
const TEXT: usize = 4096;

/// The number by which the host says that a file would be too large.
const TOO_LARGE: i32 = 27;

/// Where a write to a plain file has to end, in bytes from the file's beginning.
#[derive(Clone, Copy, Debug, PartialEq, Eq)]
pub struct SizeLimit {
    most: u64,
}

// The limit that a line tells, if it tells that one, and there is one.
fn limit_in(line: &str) -> Option<u64> {
    let behind = line.strip_prefix(FILE_SIZE)?;
    let word = behind.split_ascii_whitespace().next()?;
    word.parse().ok()
}

// The limit that a text tells.
fn limit_of(text: &str) -> Option<u64> {
    for line in text.lines() {
        let limit = limit_in(line);
        if limit.is_some() {
            return limit;
        }
    }
    None
}

// The limit that the host tells, if there is one.
fn told_limit<R: Files>(rt: &R) -> Option<u64> {
    let mut text = [0u8; TEXT];
    let mut file = fs::open(rt, LIMITS).ok()?;
    let count = file.read(&mut text).ok()?;
    limit_of(str::from_utf8(text.get(..count)?).ok()?)
}

impl SizeLimit {
    /// There is none: a device has another end.
    pub fn none() -> SizeLimit {
        SizeLimit { most: u64::MAX }
    }

    /// The limit that the process has now; none where the host doesn't tell it.
    pub fn of<R: Files>(rt: &R) -> SizeLimit {
        SizeLimit {
            most: told_limit(rt).unwrap_or(u64::MAX),
        }
    }

    /// Whether so many bytes may be written from a place on; if not, the error that the host has for it.
    pub fn check(self, at: u64, count: u64) -> io::Result<()> {
        if at.saturating_add(count) > self.most {
            return Err(Error::from_raw_os_error(TOO_LARGE));
        }
        Ok(())
    }

    /// Writes bytes at a place of a file, if the limit lets it.
    pub fn write_at(self, file: &File, at: u64, from: &[u8]) -> io::Result<()> {
        self.check(at, from.len() as u64)?;
        file.write_all_at(from, at)
    }
}

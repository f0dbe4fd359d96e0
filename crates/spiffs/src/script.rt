//! Scripts of the words that change files, and what their replies may be.
ghost use Rattle.std.specs.Prelude.{◌≤◌, length};

use front_words::{ANEW, ON, PIECE, close_line, open_line, remove_line, rename_line, write_line};
use itoa::Buffer;
use std::alloc::{AllocError, Global};
use table_model::FsErr;

/// The most bytes of a line of a script, with the byte that ends it.
const LINE: usize = 4_200;

/// Bytes of a script behind which another one goes on: a script has at most 16,777,216.
const LONG: usize = 16_000_000;

/// The most bytes of a name on a volume.
const MOST: usize = 31;

/// What the reply to a line may be.
#[derive(Clone, Copy, Debug, PartialEq, Eq)]
pub enum May {
    /// `ok`.
    Done,
    /// `ok`, or that there is no such file.
    Missing,
    /// `ok`, that there is no such file, or that there is one already.
    There,
}

/// Calls on files, as the texts of one or more scripts, each of which is run for itself, and what their replies may be.
#[derive(Drop)]
pub struct Script {
    alloc: Global,
    /// The scripts, in order.
    pub texts: Vec<Vec<u8>>,
    // The last one, which isn't in `texts` yet.
    text: Vec<u8>,
    /// What the reply to each line may be, over all scripts.
    pub mays: Vec<May>,
}

/// A reply that a line may not have.
#[derive(Drop)]
pub struct Refused<'s> {
    /// The first two words of the line.
    pub call: &'s [u8],
    /// The reply.
    pub reply: &'s [u8],
}

/// The reason that a reply tells, if it is a number of one.
pub fn reason_of(reply: &[u8]) -> Option<FsErr> {
    for why in REASONS {
        if Buffer::new().format(why.number()).as_bytes() == reply {
            return Some(why);
        }
    }
    None
}

/// The reasons for which a line of these scripts may be refused.
const REASONS: [FsErr; 10] = [
    FsErr::BadName,
    FsErr::NameTooLong,
    FsErr::BadDescriptor,
    FsErr::OutOfDescriptors,
    FsErr::NotFound,
    FsErr::FileExists,
    FsErr::ConflictingName,
    FsErr::SeekBounds,
    FsErr::Tight,
    FsErr::Full,
];

// Whether a reply is one that a line may have.
fn is_allowed(may: May, reply: &[u8]) -> bool {
    match may {
        May::Done => reply.starts_with(b"ok"),
        May::Missing => reply.starts_with(b"ok") || reason_of(reply) == Some(FsErr::NotFound),
        May::There => {
            reply.starts_with(b"ok")
                || matches!(
                    reason_of(reply),
                    Some(FsErr::NotFound | FsErr::ConflictingName)
                )
        }
    }
}

// The first two words of a line.
fn call_of(line: &[u8]) -> &[u8] {
    let mut has_space = false;
    for (i, byte) in line.iter().enumerate() {
        if *byte == b' ' {
            if has_space {
                return &line[..i];
            }
            has_space = true;
        }
    }
    line
}

/// The first reply to a script that its line may not have, if there is one; `mays` are those of its lines.
pub fn first_refused<'s>(text: &'s [u8], said: &'s [u8], mays: &[May]) -> Option<Refused<'s>> {
    let lines = text.split(|byte| *byte == b'\n');
    let replies = said.split(|byte| *byte == b'\n');
    for ((line, reply), may) in lines.zip(replies).zip(mays) {
        if !is_allowed(*may, reply) {
            let call = call_of(line);
            return Some(Refused { call, reply });
        }
    }
    None
}

/// How many lines a script has.
pub fn count_lines(text: &[u8]) -> usize {
    text.iter().filter(|byte| **byte == b'\n').count()
}

/// A name that a file of a volume can have.
#[derive(Clone, Copy)]
pub struct FileName<'n> {
    bytes: &'n [u8],
    ghost short: { length bytes.now ≤ 31 },
}

impl<'n> FileName<'n> {
    /// These bytes as a name; refused where they are none, hold a zero byte, or are more than 31.
    pub fn new(bytes: &'n [u8]) -> Result<FileName<'n>, FsErr> {
        if bytes.is_empty() || bytes.contains(&0) {
            return Err(FsErr::BadName);
        }
        if bytes.len() > MOST {
            return Err(FsErr::NameTooLong);
        }
        Ok(FileName { bytes })
    }
}

impl Script {
    /// No call.
    pub fn new(alloc: Global) -> Script {
        Script {
            alloc,
            texts: Vec::new(alloc),
            text: Vec::new(alloc),
            mays: Vec::new(alloc),
        }
    }

    // Appends the first bytes of a buffer as a line.
    fn keep(&mut self, line: &[u8; LINE], count: usize, may: May) -> Result<(), AllocError> {
        self.text
            .extend_from_slice(line.get(..count).unwrap_or(&[]))?;
        self.mays.push(may)?;
        Ok(())
    }

    /// Removes a file.
    pub fn remove(&mut self, name: FileName<'_>, may: May) -> Result<(), AllocError> {
        let mut line = [0u8; LINE];
        let count = remove_line(name.bytes, &mut line);
        self.keep(&line, count, may)
    }

    /// Renames a file.
    pub fn rename(
        &mut self,
        old: FileName<'_>,
        new: FileName<'_>,
        may: May,
    ) -> Result<(), AllocError> {
        let mut line = [0u8; LINE];
        let count = rename_line(old.bytes, new.bytes, &mut line);
        self.keep(&line, count, may)
    }

    // Opens a file, as descriptor 1.
    fn open(&mut self, name: FileName<'_>, flags: u32) -> Result<(), AllocError> {
        let mut line = [0u8; LINE];
        let count = open_line(name.bytes, flags, &mut line);
        self.keep(&line, count, May::Done)
    }

    // Closes it.
    fn close(&mut self) -> Result<(), AllocError> {
        let mut line = [0u8; LINE];
        let count = close_line(&mut line);
        self.keep(&line, count, May::Done)
    }

    // Writes a piece of at most `PIECE` bytes to it.
    fn write_piece(&mut self, piece: &[u8]) -> Result<(), AllocError>
        requires { length piece.now ≤ 1362 }
    {
        let mut line = [0u8; LINE];
        let count = write_line(piece, &mut line);
        self.keep(&line, count, May::Done)
    }

    // Ends a script behind which another one goes on writing to the file.
    fn part(&mut self, name: FileName<'_>) -> Result<(), AllocError> {
        self.close()?;
        self.end()?;
        self.open(name, ON)
    }

    // Writes bytes to descriptor 1, which is the file of that name.
    fn write(&mut self, name: FileName<'_>, bytes: &[u8]) -> Result<(), AllocError> {
        for piece in bytes.chunks(PIECE) {
            if self.text.len() > LONG {
                self.part(name)?;
            }
            self.write_piece(piece)?;
        }
        Ok(())
    }

    /// Makes a file of these bytes, or gives them to one that is there.
    pub fn fill(&mut self, name: FileName<'_>, bytes: &[u8]) -> Result<(), AllocError> {
        self.open(name, ANEW)?;
        self.write(name, bytes)?;
        self.close()
    }

    /// Ends the script, if it has a line.
    pub fn end(&mut self) -> Result<(), AllocError> {
        let mut text = Vec::new(self.alloc);
        text.extend_from_slice(self.text.as_slice())?;
        self.text.clear();
        self.texts.push(text)?;
        Ok(())
    }
}

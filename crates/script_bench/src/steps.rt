//! A script whose power is cut, and the tables that may be left of it.
use crate::flat_lines::flat_of;
use crate::{Bench, Trouble, listed};
use call_script::parse_line;
use plain_image::Record;
use plain_table::{Flat, PlainFile, Said};
use std::alloc::Global;
use table_model::Call;

/// How much is surely on the chip once a line was answered.
#[derive(Clone, Copy)]
pub enum Kept {
    /// All.
    All,
    /// What was written before the line; its own bytes wait.
    Before,
    /// No more than before its reply: its bytes wait behind others, or it tells an offset.
    NoMore,
    /// All; it cuts a file and is refused, since no page is had for it.
    NoPage,
}

/// A script on a volume, and the tables that its calls lead to, step by step.
#[derive(Drop)]
pub struct Steps {
    pub(crate) bench: Bench,
    // What stands on the chip before it.
    pub(crate) image: Vec<u8>,
    pub(crate) script: Vec<u8>,
    flat: Flat,
    // The table before the script, and those after each step.
    tables: Vec<Vec<u8>>,
    // By how many lines were answered: the first and the last of the tables up to there that a cut may leave.
    first: Vec<usize>,
    last: Vec<usize>,
}

// Adds what a file is to the text of a table.
fn put_file(
    text: &mut Vec<u8>,
    id: u16,
    name: &[u8],
    meta: &[u8],
    bytes: &[u8],
) -> Result<(), Trouble> {
    text.extend_from_slice(&id.to_le_bytes())?;
    text.extend_from_slice(name)?;
    text.push(0)?;
    text.extend_from_slice(meta)?;
    text.extend_from_slice(&(bytes.len() as u64).to_le_bytes())?;
    text.extend_from_slice(bytes)?;
    Ok(())
}

// A file whose bytes are others for a while.
#[derive(Clone, Copy)]
struct Partly<'b> {
    id: u16,
    bytes: &'b [u8],
}

// Adds a file of a flat table, where one file may have other bytes.
fn put_plain(
    text: &mut Vec<u8>,
    file: &PlainFile,
    partly: Option<Partly<'_>>,
) -> Result<(), Trouble> {
    match partly {
        Some(part) if part.id == file.id => {
            put_file(text, file.id, &file.name, &file.meta, part.bytes)
        }
        _ => put_file(text, file.id, &file.name, &file.meta, &file.bytes),
    }
}

// The text of a flat table, where one file may have other bytes.
fn flat_text(bench: &Bench, flat: &Flat, partly: Option<Partly<'_>>) -> Result<Vec<u8>, Trouble> {
    let mut text = Vec::new(bench.alloc);
    let mut after = 0u16;
    for _ in 0..0x7FFF {
        let Said::File(file) = flat.next(after)? else {
            return Ok(text);
        };
        put_plain(&mut text, &file, partly)?;
        after = file.id;
    }
    Ok(text)
}

// The text of the files of an image.
fn text_of(bench: &Bench, files: &[Record]) -> Result<Vec<u8>, Trouble> {
    let mut text = Vec::new(bench.alloc);
    for file in files {
        put_file(&mut text, file.id, &file.name, &file.meta, &file.bytes)?;
    }
    Ok(text)
}

// The file of a descriptor, if it is open.
fn file_of(flat: &Flat, fd: u16) -> Result<Option<PlainFile>, Trouble> {
    Ok(match flat.fstat(fd)? {
        Said::File(file) => Some(file),
        _ => None,
    })
}

// The offset of a descriptor.
fn offset_of(flat: &Flat, fd: u16) -> usize {
    match flat.tell(fd) {
        Said::Number(number) => number as usize,
        _ => 0,
    }
}

// The first bytes of one list, so many, and those of another behind them.
fn mixed(alloc: Global, front: &[u8], back: &[u8], count: usize) -> Result<Vec<u8>, Trouble> {
    let mut bytes = Vec::new(alloc);
    for byte in front.iter().take(count) {
        bytes.push(*byte)?;
    }
    for byte in back.iter().skip(count) {
        bytes.push(*byte)?;
    }
    Ok(bytes)
}

impl Steps {
    /// No line, on a volume.
    pub fn new(bench: Bench, image: Vec<u8>) -> Result<Steps, Trouble> {
        let flat = flat_of(&bench, &listed(&bench, &image)?)?;
        let text = flat_text(&bench, &flat, None)?;
        let alloc = bench.alloc;
        Ok(Steps {
            bench,
            image,
            script: Vec::new(alloc),
            flat,
            tables: vec![in alloc; text; 1]?,
            first: vec![in alloc; 0; 1]?,
            last: vec![in alloc; 0; 1]?,
        })
    }

    // Adds the table after a step, in which one file may have other bytes.
    fn step(&mut self, partly: Option<Partly<'_>>) -> Result<(), Trouble> {
        let text = flat_text(&self.bench, &self.flat, partly)?;
        self.tables.push(text)?;
        Ok(())
    }

    // Adds the steps of a write that was done: at the end of each data page, at the old end of the file, and at its own end.
    fn parts(
        &mut self,
        old: &PlainFile,
        new: &PlainFile,
        from: usize,
        to: usize,
    ) -> Result<(), Trouble> {
        let page = self.bench.g.body().max(1) as usize;
        let size = old.bytes.len();
        for end in from..to {
            let place = end.saturating_add(1);
            if place % page == 0 || place == size || place == to {
                let bytes = mixed(self.bench.alloc, &new.bytes, &old.bytes, place)?;
                let part = Partly {
                    id: new.id,
                    bytes: &bytes,
                };
                self.step(Some(part))?;
            }
        }
        Ok(())
    }

    // Adds the steps of a write or a fill.
    fn write(&mut self, fd: u16, call: &Call<'_>) -> Result<(), Trouble> {
        let before = file_of(&self.flat, fd)?;
        let said = self.flat.answer(true, call)?;
        let after = file_of(&self.flat, fd)?;
        match (said, before, after) {
            (Said::Number(count), Some(old), Some(new)) => {
                let to = offset_of(&self.flat, fd);
                self.parts(&old, &new, to.saturating_sub(count as usize), to)
            }
            _ => Ok(()),
        }
    }

    // Adds the steps of a call, for which a page is had or not.
    fn answer(&mut self, call: &Call<'_>, is_had: bool) -> Result<(), Trouble> {
        match *call {
            Call::Write { fd, .. } | Call::Fill { fd, .. } => self.write(fd, call),
            _ => {
                self.flat.answer(is_had, call)?;
                self.step(None)
            }
        }
    }

    /// Adds a line of the script, which is a call.
    pub fn add(&mut self, line: &[u8], kept: Kept) -> Result<(), Trouble> {
        let mut scratch = [0; 4096];
        let Ok(Some(call)) = parse_line(line, &mut scratch) else {
            return Err(Trouble::Line);
        };
        self.script.extend_from_slice(line)?;
        self.script.push(b'\n')?;
        let before = self.tables.len().saturating_sub(1);
        self.answer(&call, !matches!(kept, Kept::NoPage))?;
        let after = self.tables.len().saturating_sub(1);
        let first = self.first.last().copied().unwrap_or(0);
        self.last.push(after)?;
        self.first.push(match kept {
            Kept::All | Kept::NoPage => after,
            Kept::Before => before,
            Kept::NoMore => first,
        })?;
        Ok(())
    }

    // Whether a table of these numbers is that text.
    fn is_among(&self, first: usize, last: usize, text: &[u8]) -> bool {
        (first..last.saturating_add(1)).any(|i| {
            self.tables
                .get(i)
                .is_some_and(|table| table.as_slice() == text)
        })
    }

    /// Whether files may be left once so many lines were answered, and where `is_done` the next line was done too but for its reply: those after a
    /// step that may be the last one, of the lines that were answered and the next one.
    pub(crate) fn may_leave(
        &self,
        answered: usize,
        is_done: bool,
        files: &[Record],
    ) -> Result<bool, Trouble> {
        let text = text_of(&self.bench, files)?;
        let next = answered
            .saturating_add(1)
            .min(self.last.len().saturating_sub(1));
        let from = if is_done { next } else { answered };
        let first = self.first.get(from).copied().unwrap_or(0);
        let last = self.last.get(next).copied().unwrap_or(0);
        Ok(self.is_among(first, last, &text))
    }
}

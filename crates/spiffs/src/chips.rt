//! The rows of chip files that a command names, and why a row is refused before anything is read or written.
use crate::usage::wrong_word;
use crate::words::{chip_word, word};
use crate::{BOARD_FAULT, Refusal, explain_chip, tell};
use chip_row::ChipRow;
use host_edge::{Access, FileChip, Shown, StdBoard, Trouble, Unfinished, is_one_file};
use std::alloc::{AllocError, Global};
use std::io::Write;
use tool_core::is_accepted;
use tool_parts::{Buffers, chip_size_of, unit_of};

/// The status where another program has a chip file.
pub const BUSY: u8 = 26;

// What the chip files are opened for: what writes nothing takes files that are for reading alone, and what formats them
// makes them, where the words, the chips and the lent memory are taken.
fn access_of(words: &[String], is_taken: bool) -> Access {
    match word(words, 0) {
        "list" | "extract" | "trace" | "rehearse" => Access::Read,
        "soak" | "make" if is_taken => Access::Create,
        _ => Access::Write,
    }
}

/// The names of chip files, which stand in one word, parted by commas.
pub fn chip_paths(alloc: Global, names: &str) -> Result<Vec<&str>, AllocError> {
    names.split(',').collect(alloc)
}

/// Whether the words are a command of the top call that isn't refused, in that memory.
pub fn is_taken(words: &[String], bufs: &Buffers<'_>) -> bool {
    let number = u32::try_from(chip_word(words).split(',').count()).unwrap_or(u32::MAX);
    let bytes = chip_size_of(words, number).checked_mul(number);
    bytes.is_some_and(|bytes| is_accepted(words, unit_of(words), bytes, bufs))
}

/// The row of the chip files, opened as the command needs it.
pub fn row_of(
    rt: &HostRuntime,
    words: &[String],
    bufs: &Buffers<'_>,
) -> Result<ChipRow<FileChip>, Refusal> {
    let access = access_of(words, is_taken(words, bufs));
    open_row(rt, words, chip_word(words), access)
}

/// The row of the chip files of these names, opened so, for the numbers behind the first word.
pub fn open_row(
    rt: &HostRuntime,
    words: &[String],
    names: &str,
    access: Access,
) -> Result<ChipRow<FileChip>, Refusal> {
    let paths = chip_paths(rt.alloc(), names)?;
    let number = u32::try_from(paths.len()).unwrap_or(u32::MAX).max(1);
    let size = chip_size_of(words, number);
    let unit = unit_of(words);
    let mut chips = Vec::new(rt.alloc());
    for path in paths {
        let chip = FileChip::new(rt, path, access, size, unit);
        chips.push(chip).map_err(AllocError::from)?;
    }
    match ChipRow::new(chips, size, unit) {
        Ok(row) => Ok(row),
        Err(_) => Err(Refusal::Chips),
    }
}

// Whether one of the names leads to the file that a path leads to.
fn is_among(rt: &HostRuntime, paths: &[&str], path: &str) -> bool {
    for other in paths {
        if !path.is_empty() && is_one_file(rt, *other, path) {
            return true;
        }
    }
    false
}

/// Refuses names of chip files of which two lead to one file, where the words are right: one chip would write what the other one keeps.
pub fn check_names(rt: &HostRuntime, words: &[String], names: &str) -> Result<(), Refusal> {
    if wrong_word(words).is_some() {
        return Ok(());
    }
    let paths = chip_paths(rt.alloc(), names)?;
    for (i, path) in paths.iter().enumerate() {
        let path = *path;
        if is_among(rt, paths.get(..i).unwrap_or(&[]), path) {
            let path = Shown(path);
            // (if standard error fails too there is nobody to tell)
            let _said = eprintln!(rt; "spiffs: {path}: is named twice");
            return Err(Refusal::Chips);
        }
    }
    Ok(())
}

/// Refuses a row of which another program has a chip, where the words are right.
pub fn check_free(
    rt: &HostRuntime,
    words: &[String],
    names: &str,
    busy: Option<usize>,
) -> Result<(), Refusal> {
    if busy.is_none() || wrong_word(words).is_some() {
        return Ok(());
    }
    let status = tell(rt, "! busy\n", BUSY);
    explain_chip(rt, names, busy, Some(&Trouble::Busy));
    Err(Refusal::Told(status))
}

/// The status of a command that ended so, once its row is ended: a chip that can't be ended has failed, which is said.
pub fn end_row(rt: &HostRuntime, names: &str, ended: Option<Unfinished>, status: u8) -> u8 {
    let Some(Unfinished { chip, trouble }) = ended else {
        return status;
    };
    // (a chip that failed before has said why)
    if status != BOARD_FAULT {
        explain_chip(rt, names, Some(chip), Some(&trouble));
    }
    BOARD_FAULT
}

/// The board of a command, where nothing is in the way of its chip files.
pub fn begin_board<W: Write + Drop>(
    rt: &HostRuntime,
    words: &[String],
    row: ChipRow<FileChip>,
    out: W,
) -> Result<StdBoard<W, FileChip>, Refusal> {
    let board = StdBoard::new(row, out);
    check_free(rt, words, chip_word(words), board.busy_chip())?;
    Ok(board)
}

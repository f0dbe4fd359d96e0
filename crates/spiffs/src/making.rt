//! The command `make` on a plain file, which is made in memory and put in the place of the old one once it is whole.
use crate::chips::{BUSY, is_taken};
use crate::give::print_bytes;
use crate::words::chip_word;
use crate::{BOARD_FAULT, Refusal, explain_path, tell};
use chip_row::ChipRow;
use front_edge::blank_chip;
use host_edge::{Access, HeldFile, StdBoard, StdFolder, StdSource, Trouble, replace_file};
use nor_core::Nor;
use nor_memory::MemChip;
use std::alloc::AllocError;
use std::io::ErrorKind;
use tool_core::spiffs_tool;
use tool_parts::{Buffers, chip_size_of, unit_of};

/// What a chip that is to be made is.
#[derive(Drop)]
pub enum Target {
    /// A plain file that has no more bytes than the volume, held, or one that is to be made.
    Whole(Option<HeldFile>),
    /// A device, a file with more behind the volume, or a row of files: it is written in place.
    InPlace,
}

/// What the words of `make` are to make, where they are taken.
pub fn target_of(
    rt: &HostRuntime,
    words: &[String],
    bufs: &Buffers<'_>,
) -> Result<Target, Refusal> {
    let path = chip_word(words);
    if path.contains(',') || !is_taken(words, bufs) {
        return Ok(Target::InPlace);
    }
    match HeldFile::open(rt, path, Access::Write) {
        Ok(held) if held.is_device() || held.length() > u64::from(chip_size_of(words, 1)) => {
            Ok(Target::InPlace)
        }
        Ok(held) => Ok(Target::Whole(Some(held))),
        Err(Trouble::Open(why)) if why.kind() == ErrorKind::NotFound => Ok(Target::Whole(None)),
        Err(trouble) if trouble.is_busy() => {
            let status = tell(rt, "! busy\n", BUSY);
            explain_path(rt, path, &trouble);
            Err(Refusal::Told(status))
        }
        // (the chip tells it again)
        Err(_) => Ok(Target::InPlace),
    }
}

// A row of one chip in memory, for the numbers of the words.
fn blank_row(rt: &HostRuntime, words: &[String]) -> Result<ChipRow<MemChip>, Refusal> {
    let size = chip_size_of(words, 1);
    let unit = unit_of(words);
    let Ok(chip) = blank_chip(rt.alloc(), size, unit) else {
        return Err(Refusal::Memory);
    };
    let mut chips = Vec::new(rt.alloc());
    chips.push(chip).map_err(AllocError::from)?;
    match ChipRow::new(chips, size, unit) {
        Ok(row) => Ok(row),
        Err(_) => Err(Refusal::Chips),
    }
}

// Puts what a row of chips in memory holds in the place of the old file, and answers the status.
fn put_row(
    rt: &HostRuntime,
    path: &str,
    held: Option<&HeldFile>,
    row: ChipRow<MemChip>,
) -> Result<u8, Refusal> {
    let mut row = row;
    let mut bytes = vec![in rt.alloc(); 0u8; row.size() as usize]?;
    if bytes.is_empty() || row.read(0, &mut bytes).is_err() {
        return Ok(BOARD_FAULT);
    }
    let Err(trouble) = replace_file(rt, rt.alloc(), path, held, &bytes) else {
        return Ok(0);
    };
    let status = if trouble.is_busy() {
        tell(rt, "! busy\n", BUSY)
    } else {
        BOARD_FAULT
    };
    explain_path(rt, path, &trouble);
    Ok(status)
}

/// Makes the volume in memory, and then its file, where the words are taken. What the command says is held back until the file is there; why the
/// folder failed is left to the caller.
pub fn make_whole<'r>(
    rt: &'r HostRuntime,
    words: &[String],
    held: Option<&HeldFile>,
    folder: &mut StdFolder<&'r HostRuntime>,
    bufs: &mut Buffers<'_>,
) -> Result<u8, Refusal> {
    let mut board = StdBoard::new(blank_row(rt, words)?, Vec::new(rt.alloc()));
    let mut script = StdSource::new(rt.stdin());
    let status = spiffs_tool(words, &mut board, &mut script, folder, bufs);
    let (row, said) = board.give_back();
    let status = match status {
        0 => put_row(rt, chip_word(words), held, row)?,
        _ => status,
    };
    if matches!(status, BOARD_FAULT | BUSY) || print_bytes(rt, &said) {
        Ok(status)
    } else {
        Ok(BOARD_FAULT)
    }
}

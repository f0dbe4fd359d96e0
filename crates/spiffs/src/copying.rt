//! A copy of a volume onto another one: two rows of chip files, and memory for each.
use crate::chips::{check_free, check_names, end_row, open_row};
use crate::guard::is_stopped;
use crate::look::look_on;
use crate::words::{CHIP_WORD, target_words, word};
use crate::{
    BAD_NAME, BOARD_FAULT, Memory, NO_VOLUME, OTHER_META, Refusal, SMALL_CACHE, cache_for,
    explain_chip, explain_removed, explain_status,
};
use copy_tool::{copy_tool, is_accepted};
use host_edge::{Access, StdBoard, Unfinished, busy_chip, finish_row, is_one_file, row_trouble};
use nor_core::Failed;
use std::alloc::AllocError;
use tool_parts::chip_size_of;

/// The status where a chip of the source failed.
const SOURCE_CHIP_FAULT: u8 = 18;

/// How many words a copy has.
const COPY_WORDS: usize = 13;

/// The memory of both volumes.
#[derive(Drop)]
struct Both {
    source: Memory,
    target: Memory,
}

// Whether a chip of the source is one of the target's, be it by another path or through a link: then neither row would know what the
// other one has written.
fn share_chips(rt: &HostRuntime, words: &[String]) -> bool {
    let behind = target_words(words);
    for one in word(words, CHIP_WORD).split(',') {
        for other in word(behind, CHIP_WORD).split(',') {
            if !one.is_empty() && is_one_file(rt, one, other) {
                return true;
            }
        }
    }
    false
}

// Takes the memory for both volumes, with caches of at most so many bytes.
fn memory_of(rt: &HostRuntime, words: &[String], most: usize) -> Result<Both, AllocError> {
    let from = chip_size_of(words, 1);
    let to = chip_size_of(target_words(words), 1);
    let source = Memory::new(rt.alloc(), from, cache_for(from).min(most))?;
    let target = Memory::new(rt.alloc(), to, cache_for(to).min(most))?;
    Ok(Both { source, target })
}

// Takes the memory for both volumes, with small caches where the host has none for frames of all pages.
fn take_both(rt: &HostRuntime, words: &[String]) -> Result<Both, AllocError> {
    match memory_of(rt, words, usize::MAX) {
        Ok(memory) => Ok(memory),
        Err(_) => memory_of(rt, words, SMALL_CACHE),
    }
}

// Says on standard error why no volume was found, of whichever chip.
fn explain_no_volume(rt: &impl Eprint) {
    // (if standard error fails too there is nobody to tell)
    let _said = eprintln!(rt;
        "spiffs: PAGE, BLOCK, BLOCKS or MAGIC of one volume may be wrong, or the second chip isn't formatted: try spiffs detect on each"
    );
}

// Says on standard error which name a source must not have.
fn explain_bad_name(rt: &impl Eprint) {
    let _said = eprintln!(rt;
        "spiffs: a file of the source has the name that copies have, the one byte 1: rename it first"
    );
}

// The status of a copy that ended so, once the row of the source is ended.
fn end_source(rt: &HostRuntime, names: &str, ended: Option<Unfinished>, status: u8) -> u8 {
    let Some(Unfinished { chip, trouble }) = ended else {
        return status;
    };
    // (a chip that failed before has said why)
    if matches!(status, BOARD_FAULT | SOURCE_CHIP_FAULT) {
        return status;
    }
    explain_chip(rt, names, Some(chip), Some(&trouble));
    SOURCE_CHIP_FAULT
}

// Gives the copy that the words spell, over the chip files that they name. The source's are opened for reading alone, and none is made.
// The target is checked, so it is looked at first as before a check.
fn copy(
    rt: &HostRuntime,
    words: &[String],
    is_forced: bool,
    memory: &mut Both,
) -> Result<u8, Refusal> {
    if words.len() == COPY_WORDS && share_chips(rt, words) {
        let _said = eprintln!(rt; "spiffs: both volumes name one chip file");
        return Err(Refusal::Chips);
    }
    let behind = target_words(words);
    let from = word(words, CHIP_WORD);
    let to = word(behind, CHIP_WORD);
    check_names(rt, words, from)?;
    check_names(rt, words, to)?;
    let mut source = open_row(rt, words, from, Access::Read)?;
    check_free(rt, words, from, busy_chip(&source))?;
    let row = open_row(rt, behind, to, Access::Write)?;
    let mut board = StdBoard::new(row, rt.stdout());
    check_free(rt, words, to, board.busy_chip())?;
    let mut source_bufs = memory.source.lend();
    let mut bufs = memory.target.lend();
    let mut seen = None;
    if is_accepted(words, &source, &board, &source_bufs, &bufs) {
        seen = match look_on(behind, is_forced, true, &mut board, &mut bufs) {
            Ok(seen) => seen,
            Err(Failed) => {
                explain_chip(rt, to, board.failed_chip(), board.trouble());
                return Ok(BOARD_FAULT);
            }
        };
    }
    if is_stopped(rt, behind, to, is_forced, seen, &board)? {
        return Ok(OTHER_META);
    }
    let status = copy_tool(words, &mut source, &mut board, &mut source_bufs, &mut bufs);
    match status {
        BOARD_FAULT => explain_chip(rt, to, board.failed_chip(), board.trouble()),
        SOURCE_CHIP_FAULT => explain_chip(rt, from, source.fuse_chip(), row_trouble(&source)),
        NO_VOLUME => explain_no_volume(rt),
        BAD_NAME => explain_bad_name(rt),
        _ => explain_status(rt, words, status),
    }
    explain_removed(rt, seen, status);
    let status = end_row(rt, to, board.finish(), status);
    Ok(end_source(rt, from, finish_row(&source), status))
}

/// Takes the memory, and gives the copy; where it is forced, no other META of the target is tried.
pub fn begin_copy(rt: &HostRuntime, words: &[String], is_forced: bool) -> Result<u8, Refusal> {
    let mut memory = take_both(rt, words)?;
    copy(rt, words, is_forced, &mut memory)
}

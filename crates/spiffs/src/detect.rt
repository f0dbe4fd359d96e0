//! The command `detect`, and what it finds where there is no volume by the numbers that were given.
ghost use Rattle.std.specs.Prelude.{◌≡◌, ◌*◌, ◌/◌, ◌%◌, ◌<◌, ◌≤◌, ◌^◌, length};
ghost use Rattle.volume_detect.specs.Words.{HasWords};

use crate::chips::chip_paths;
use crate::words::chip_word;
use crate::{BOARD_FAULT, Refusal};
use chip_row::ChipRow;
use detect_tool::{Memory as Lent, blank_place, detect_tool, found_need};
use front_edge::blank_chip;
use host_edge::{Access, FileChip, HeldFile, StdBoard};
use nor_core::{Board, Failed, Nor};
use nor_image::Image;
use std::alloc::{AllocError, Global};
use std::io::Write;
use volume_detect::{UNIT, next_candidate, read_words, words_need};
use volume_rank::{Found, collect};

/// Bytes of work and of marks that are lent: enough for every volume.
const WORK: usize = 557_056;

const CHECK: usize = 65_535;

/// The number of places at which a volume may begin in the largest file.
pub const PLACES: u32 = 88_080_384;

/// The memory that is lent to `detect_tool`.
#[derive(Drop)]
struct Memory {
    chip: Vec<u8>,
    words: Vec<u8>,
    work: Vec<u8>,
    check: Vec<u8>,
    found: Vec<Found>,
}

impl Memory {
    // For a chip of so many bytes.
    fn new(alloc: Global, size: u32) -> Result<Memory, Refusal> {
        let Ok(place) = blank_place() else {
            return Err(Refusal::Memory);
        };
        Ok(Memory {
            chip: vec![in alloc; 0u8; size as usize]?,
            words: vec![in alloc; 0u8; words_need(size) as usize]?,
            work: vec![in alloc; 0u8; WORK]?,
            check: vec![in alloc; 0u8; CHECK]?,
            found: vec![in alloc; place; found_need(size) as usize]?,
        })
    }
}

// The chip files of these names for reading alone, each opened as a chip of one byte.
fn open_chips(rt: &HostRuntime, names: &str) -> Result<Vec<FileChip>, AllocError> {
    let mut chips = Vec::new(rt.alloc());
    for path in chip_paths(rt.alloc(), names)? {
        let chip = FileChip::new(rt, path, Access::Read, 1, 1);
        chips.push(chip).map_err(AllocError::from)?;
    }
    Ok(chips)
}

// How many bytes each chip has: as many as the longest of the files, and at least one.
fn chip_size(chips: &[FileChip]) -> Result<u32, Refusal> {
    let mut longest = 1;
    for chip in chips {
        longest = chip.length().max(longest);
    }
    match u32::try_from(longest) {
        Ok(size) => Ok(size),
        Err(_) => Err(Refusal::Chips),
    }
}

// The row of the chip files, for reading alone.
fn row_of(rt: &HostRuntime, words: &[String]) -> Result<ChipRow<FileChip>, Refusal> {
    let opened = open_chips(rt, chip_word(words))?;
    let Ok(size) = chip_size(&opened) else {
        // (if standard error fails too there is nobody to tell)
        let _said = eprintln!(rt;
            "spiffs: a chip of 2^32 bytes or more isn't looked through: give its numbers to list"
        );
        return Err(Refusal::Chips);
    };
    let mut chips = Vec::new(rt.alloc());
    for chip in opened {
        chips.push(chip.resized(size, 1)).map_err(AllocError::from)?;
    }
    match ChipRow::new(chips, size, 1) {
        Ok(row) => Ok(row),
        Err(_) => Err(Refusal::Chips),
    }
}

/// The board of the chip files that the words name, for reading alone: each chip is as long as the longest file. What is said goes to
/// `out`.
pub fn detect_board<W: Write + Drop>(
    rt: &HostRuntime,
    words: &[String],
    out: W,
) -> Result<StdBoard<W, FileChip>, Refusal> {
    Ok(StdBoard::new(row_of(rt, words)?, out))
}

// Does the command over a board, in memory that is taken for all bytes of the chip.
fn detect_whole<N: Board>(
    rt: &HostRuntime,
    words: &[String],
    board: &mut N,
) -> Result<u8, Refusal> {
    let mut memory = Memory::new(rt.alloc(), board.size())?;
    let mut lent = Lent {
        chip: &mut memory.chip,
        words: &mut memory.words,
        work: &mut memory.work,
        check: &mut memory.check,
        found: &mut memory.found,
    };
    Ok(detect_tool(words, board, &mut lent))
}

// What the command says of a chip without a volume, and the status.
fn detect_none(rt: &HostRuntime, words: &[String]) -> Result<(Vec<u8>, u8), Refusal> {
    let Ok(chip) = blank_chip(rt.alloc(), 1, 1) else {
        return Err(Refusal::Memory);
    };
    let mut chips = Vec::new(rt.alloc());
    chips.push(chip).map_err(AllocError::from)?;
    let Ok(row) = ChipRow::new(chips, 1, 1) else {
        return Err(Refusal::Chips);
    };
    let mut board = StdBoard::new(row, Vec::new(rt.alloc()));
    let status = detect_whole(rt, words, &mut board)?;
    let (_, said) = board.give_back();
    Ok((said, status))
}

/// Does the command over a board. Memory for all bytes of the chip is taken only where words of it tell that it may hold a volume.
pub fn detect_on<W: Write + Drop>(
    rt: &HostRuntime,
    words: &[String],
    board: &mut StdBoard<W, FileChip>,
) -> Result<u8, Refusal> {
    if may_hold(rt.alloc(), board)? {
        return detect_whole(rt, words, board);
    }
    let (said, status) = detect_none(rt, words)?;
    match board.say(&said) {
        Ok(()) => Ok(status),
        Err(Failed) => Ok(BOARD_FAULT),
    }
}

// Says on standard error what the command says of the chip files of these names.
fn say_found(rt: &HostRuntime, names: &str) -> Result<u8, Refusal> {
    let mut own = Vec::new(rt.alloc());
    for word in ["detect", names] {
        own.push(String::from_str(rt.alloc(), word)?)
            .map_err(AllocError::from)?;
    }
    let mut board = detect_board(rt, &own, rt.stderr())?;
    detect_on(rt, &own, &mut board)
}

/// Says on standard error what the command says of the chip files of these names; nothing where there is no memory for it.
pub fn tell_found_in(rt: &HostRuntime, names: &str) {
    match say_found(rt, names) {
        Ok(_) | Err(Refusal::Memory | Refusal::Chips | Refusal::Told(_)) => {}
    }
}

/// Says on standard error what the command says of the chip files of another command; nothing where there is no memory for it.
pub fn tell_found(rt: &HostRuntime, words: &[String]) {
    tell_found_in(rt, chip_word(words));
}

// Reads the words of the image's bytes that may be magics.
fn read_all_words(bytes: &[u8], words: &mut [u8])
    requires small { length bytes.now < 2 ^ 32 }
    requires words { length words.old ≡ 12 * (length bytes.now / 4096) }
    ensures { HasWords bytes.now words.new }
{
    let mut image = Image::new(bytes, UNIT);
    // (an image never fails)
    let _read = read_words(&mut image, words);
}

// How many volumes these words tell, and at most so many.
fn count_candidates(words: &[u8], most: u32) -> u32
    requires few { length words.now ≤ 12 * 2 ^ 20 }
    requires whole { length words.now % 12 ≡ 0 }
{
    let mut from = 0;
    for count in 0..most {
        match next_candidate(words, from) {
            Some((place, _)) => from = place.saturating_add(1),
            None => return count,
        }
    }
    most
}

// Whether a chip may hold a volume, by the words of it that may be magics. It is read in small pieces. One that can't be read may, and one that is too
// short for such words, since a fault is told as it is read again.
fn may_hold<N: Nor>(alloc: Global, nor: &mut N) -> Result<bool, AllocError> {
    let mut words = vec![in alloc; 0u8; words_need(nor.size()) as usize]?;
    let read = read_words(nor, &mut words);
    Ok(words.is_empty() || read.is_err() || next_candidate(&words, 0).is_some())
}

/// Whether a file of so many bytes may hold a volume. It is read in small pieces.
pub fn may_hold_one(rt: &HostRuntime, held: &HeldFile, size: u32) -> Result<bool, Refusal> {
    let mut chips = Vec::new(rt.alloc());
    chips.push(held.chip(size, 1)).map_err(AllocError::from)?;
    let Ok(mut row) = ChipRow::new(chips, size, 1) else {
        return Ok(false);
    };
    Ok(may_hold(rt.alloc(), &mut row)?)
}

/// The volumes that the bytes of a file may hold, in the order of their places; none where they are too many bytes for a chip.
pub fn found_in(alloc: Global, bytes: &[u8]) -> Result<Vec<Found>, AllocError> {
    let (Ok(size), Ok(place)) = (u32::try_from(bytes.len()), blank_place()) else {
        return Ok(Vec::new(alloc));
    };
    let mut words = vec![in alloc; 0u8; words_need(size) as usize]?;
    read_all_words(bytes, &mut words);
    let most = count_candidates(&words, found_need(size));
    let mut found = vec![in alloc; place; most as usize]?;
    let mut work = vec![in alloc; 0u8; WORK]?;
    let mut check = vec![in alloc; 0u8; CHECK]?;
    // (there are no more candidates than were counted)
    let count = collect(bytes, &words, &mut work, &mut check, &mut found).unwrap_or(0);
    found.truncate(count);
    Ok(found)
}

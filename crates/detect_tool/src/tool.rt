ghost use Rattle.std.specs.Prelude.{◌≡◌, ◌*◌, ◌/◌, ◌<◌, ◌≤◌, length, map, string_bytes, None};
ghost use Rattle.nor_core.specs.Count.{Rose};
ghost use Rattle.detect_tool.specs.Lent.{lengths_of, HasLengths};
ghost use Rattle.detect_tool.specs.Refusals.{refusal_of, RefusesIf};
ghost use Rattle.detect_tool.specs.Detecting.{Detects};

use crate::finding::{find_all, read_chip};
use crate::memory::Memory;
use crate::refusing::{refuse, why_refused};
use crate::saying::say_list;
use nor_core::{Board, Failed, Nor, NorState};
use volume_detect::words_need;
use volume_rank::Found;

// The status where the board failed.
const BOARD_FAULT: u8 = 7;

// The status where these candidates were said.
fn status_of(found: &[Found]) -> u8
    ensures some { 0 < length found.now → result ≡ 0 }
    ensures none { length found.now ≡ 0 → result ≡ 3 }
{
    if found.is_empty() { 3 } else { 0 }
}

// Reads a chip, and says the lines of its candidates, best first.
fn detect_on<B: Board>(
    board: &mut B,
    chip: &mut [u8],
    words: &mut [u8],
    work: &mut [u8],
    check: &mut [u8],
    found: &mut [Found],
) -> u8
    requires chip { length chip.old ≡ B.size board.old }
    requires words { length words.old ≡ 12 * (B.size board.old / 4096) }
    requires work { 557056 ≤ length work.old }
    requires check { 65535 ≤ length check.old }
    requires room { 84 * (B.size board.old / 4096) ≤ length found.old }
    ensures cause { result ≡ 7 → Rose (B.faults board.old) (B.faults board.new) }
    ensures detects { Detects B.NorState board.old board.new result }
{
    if let Err(Failed) = read_chip(board, chip) {
        return BOARD_FAULT;
    }
    let count = find_all(chip, words, work, check, found);
    let found = &found[..count];
    match say_list(board, found) {
        Ok(()) => status_of(found),
        Err(Failed) => BOARD_FAULT,
    }
}

// The same in the lent memory.
fn detect_in<B: Board>(board: &mut B, memory: &mut Memory<'_>) -> u8
    requires room { HasLengths (B.size board.old) (lengths_of memory.old) }
    ensures cause { result ≡ 7 → Rose (B.faults board.old) (B.faults board.new) }
    ensures detects { Detects B.NorState board.old board.new result }
{
    let size = board.size();
    detect_on(
        board,
        &mut memory.chip[..size as usize],
        &mut memory.words[..words_need(size) as usize],
        memory.work,
        memory.check,
        memory.found,
    )
}

/// Says which volumes a chip may hold, by the magics of their blocks, and answers the status. The words are `detect CHIP`; CHIP is any
/// word that isn't empty, which isn't read here. For each candidate there is a line
/// `at OFFSET page P block B blocks N meta M magic KIND files F damaged D`, the best first: before others come those with more whole
/// files, then those of which fewer blocks lack their magic (one may, as in a volume that mounts), then those with fewer damaged ids,
/// then those that begin earlier. OFFSET is a multiple of 4,096 bytes; M is the number of meta bytes by which most files are whole, or
/// `M1-M2` where as many are by each number from M1 to M2. Behind D stands ` spoiled S` where S blocks, two or more, lack their magic,
/// and ` doubled I` where I ids, two or more, have more than one live header page. The chip has any size and any erase unit; it is read
/// once, whole, and never written. Where there is no candidate a closing line says so, and the status is 3. It takes no memory but what
/// is lent.
pub fn detect_tool<B: Board>(words: &[String], board: &mut B, memory: &mut Memory<'_>) -> u8
    // What is refused before the chip is read: its closing line is said, and nothing else happens.
    ensures refused { RefusesIf B.NorState board.old board.new (refusal_of (map string_bytes words.now) (B.size board.old) (lengths_of memory.old)) result }
    // Else the lines of the candidates are said, best first.
    ensures detects { refusal_of (map string_bytes words.now) (B.size board.old) (lengths_of memory.old) ≡ None →
        Detects B.NorState board.old board.new result }
    // A fault is told only where one was counted.
    ensures board_fault { result ≡ 7 → Rose (B.faults board.old) (B.faults board.new) }
{
    match why_refused(words, board.size(), memory) {
        Some(why) => refuse(board, why),
        None => detect_in(board, memory),
    }
}

//! What is refused before the chip is read.
ghost use Rattle.std.specs.Prelude.{◌≡◌, ◌+◌, ◌≤◌, length, map, string_bytes};
ghost use Rattle.call_script.specs.Pieces.{Puts};
ghost use Rattle.tool_parts.specs.Endings.{ClosesWith};
ghost use Rattle.detect_tool.specs.Lent.{lengths_of};
ghost use Rattle.detect_tool.specs.Refusals.{refusal_of, refusal_status, refusal_line, part_word, short_line};

use crate::lines::LINE;
use crate::memory::{Memory, Part, lent_lengths, short_part};
use crate::words::is_command;
use call_script::{put, put_count};
use nor_core::{Board, NorState};
use tool_parts::close_with;

/// Why the command is refused.
#[derive(Clone, Copy, Debug, PartialEq, Eq)]
pub(crate) enum Refusal {
    /// The words are no command.
    Usage,
    /// A part of the lent memory is shorter than its need.
    Short { part: Part, need: u32, given: u32 },
}

/// Why the command is refused on a chip of so many bytes, if it is: for its words, then for the lent memory.
pub(crate) fn why_refused(words: &[String], size: u32, memory: &Memory<'_>) -> Option<Refusal>
    ensures { result ≡ refusal_of (map string_bytes words.now) size (lengths_of memory.now) }
{
    if !is_command(words) {
        return Some(Refusal::Usage);
    }
    short_part(size, &lent_lengths(memory))
}

// The word for a part of the lent memory.
fn word_of(part: Part) -> &'static [u8]
    ensures word { result.now ≡ part_word part }
    ensures short { length result.now ≤ 5 }
{
    match part {
        Part::Chip => b"chip",
        Part::Words => b"words",
        Part::Work => b"work",
        Part::Check => b"check",
        Part::Found => b"found",
    }
}

// Writes how much of a part of the lent memory is needed and given at the front.
#[tactic(auto, using(call_script::proofs::Putting::puts_more), unfolding(crate::specs::Refusals::short_line))]
fn put_short(into: &mut [u8], part: Part, need: u32, given: u32) -> usize
    requires { 256 ≤ length into.old }
    ensures put { Puts into.old 0 (short_line part need given) into.new result }
    ensures bound { result ≤ 256 }
{
    let at = put(into, 0, b"! short buffer ");
    let at = put(into, at, word_of(part));
    let at = put_count(into, at, b" need ", need);
    let at = put_count(into, at, b" given ", given);
    put(into, at, b"\n")
}

// Writes the closing line of a refusal at the front.
fn put_refusal(into: &mut [u8], refusal: Refusal) -> usize
    requires { 256 ≤ length into.old }
    ensures put { Puts into.old 0 (refusal_line refusal) into.new result }
    ensures bound { result ≤ 256 }
{
    match refusal {
        Refusal::Usage => put(into, 0, b"! usage\n"),
        Refusal::Short { part, need, given } => put_short(into, part, need, given),
    }
}

// The status of a refusal.
fn status_of(refusal: Refusal) -> u8
    ensures { result ≡ refusal_status refusal }
{
    match refusal {
        Refusal::Usage => 1,
        Refusal::Short { .. } => 10,
    }
}

/// Says the closing line of a refusal, and answers its status: 7 where the board failed.
pub(crate) fn refuse<B: Board>(board: &mut B, refusal: Refusal) -> u8
    ensures { ClosesWith B.NorState board.old board.new (refusal_line refusal) (refusal_status refusal) result }
{
    let mut line = [0u8; LINE];
    let end = put_refusal(&mut line, refusal);
    close_with(board, &line[..end], status_of(refusal))
}

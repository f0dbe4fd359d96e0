// Rows of blocks that have the magic, by the words of a file.
ghost use Rattle.std.specs.Prelude.{◌≡◌, ℕ, ◌+◌, ◌-◌, ◌*◌, ◌<◌, ◌≤◌, length, IsTrue, IsFalse, if◌then◌else◌};
ghost use Rattle.volume_detect.specs.Marks.{failing, widest_gap as the_widest_gap, HasNoWideGap, most_failing};
ghost use Rattle.volume_detect.specs.Rows.{is_marked as the_marked, is_equal, LongestRow, LongestOfOne, LongestOfGaps, gap_step, gap_with};
ghost use Rattle.volume_detect.specs.Told.{IsRowOf};

use crate::words::word;
use geometry::{Geometry, MagicKind};

// Whether a block of a volume has its magic.
pub(crate) fn is_marked(words: &[u8], first: usize, step: usize, g: &Geometry, b: u32) -> bool
    requires block { b < g.now.blocks }
    requires inside { 2 * (first + step * b) + 2 ≤ length words.now }
    ensures { result ≡ the_marked words.now first step g.now b }
{
    word(words, first + step * b as usize) == g.magic_of(b)
}

// How many blocks one behind the other may lack their magic.
pub(crate) fn widest_gap(kind: MagicKind) -> u32
    ensures gap { result ≡ the_widest_gap kind }
    ensures few { result ≤ 8 }
{
    match kind {
        MagicKind::Plain => 2,
        MagicKind::Length => 8,
    }
}

// How many blocks up to one lack their magic one behind the other, after one more.
fn gap_after(gap: u32, has: bool) -> u32
    requires { gap ≤ 8 }
    ensures { result ≡ gap_with gap has }
{
    if has { 0 } else { gap + 1 }
}

// Whether more than so many blocks of a volume one behind the other lack their magic.
pub(crate) fn has_wide_gap(
    words: &[u8],
    first: usize,
    step: usize,
    g: &Geometry,
    widest: u32,
) -> bool
    requires inside { 2 * (first + step * (g.now.blocks - 1)) + 2 ≤ length words.now }
    requires few { widest ≤ 8 }
    ensures none { IsFalse result → HasNoWideGap (the_marked words.now first step g.now) widest g.now.blocks }
    ensures wide { IsTrue result → HasNoWideGap (the_marked words.now first step g.now) widest g.now.blocks → ⊥ }
{
    let mut gap = 0;
    for b in 0..g.blocks() {
        gap = gap_after(gap, is_marked(words, first, step, g, b));
        if gap > widest {
            return true;
        }
    }
    false
}

// One more, or not.
fn count_after(count: u32, has: bool) -> u32
    requires { count < 65536 }
    ensures { result ≡ (if has then count else count + 1) }
{
    if has { count } else { count + 1 }
}

// How many blocks of a volume lack their magic.
fn lacking(words: &[u8], first: usize, step: usize, g: &Geometry) -> u32
    requires inside { 2 * (first + step * (g.now.blocks - 1)) + 2 ≤ length words.now }
    ensures { result ≡ failing (the_marked words.now first step g.now) g.now.blocks }
{
    let mut count = 0;
    for b in 0..g.blocks() {
        count = count_after(count, is_marked(words, first, step, g, b));
    }
    count
}

// How many of so many blocks may lack their magic. The first has it, or not.
fn most_lacking(kind: MagicKind, first: bool, blocks: u32) -> u32
    ensures { result ≡ most_failing kind first blocks }
{
    if !first {
        return 1;
    }
    match kind {
        MagicKind::Plain => blocks,
        MagicKind::Length => blocks.saturating_sub(3).max(1),
    }
}

// Whether the blocks of a volume are a row by those that have their magic.
pub(crate) fn is_row(words: &[u8], first: usize, step: usize, g: &Geometry) -> bool
    requires inside { 2 * (first + step * (g.now.blocks - 1)) + 2 ≤ length words.now }
    ensures row { IsTrue result → IsRowOf words.now first step g.now }
    ensures none { IsFalse result → IsRowOf words.now first step g.now → ⊥ }
{
    if has_wide_gap(words, first, step, g, widest_gap(g.magic)) {
        return false;
    }
    let has = is_marked(words, first, step, g, 0);
    lacking(words, first, step, g) <= most_lacking(g.magic, has, g.blocks())
}

// Whether a block is known that lacks its magic, after one more block; none where two lack it.
fn after_block(lacks: bool, has: bool) -> Option<bool>
    ensures { result ≡ gap_step lacks has }
{
    if has {
        Some(lacks)
    } else if lacks {
        None
    } else {
        Some(true)
    }
}

// Of how many blocks a row is that ended, if it ended there.
fn row_end(has: bool, b: u32, longest: u32) -> u32
    requires { b < 65536 }
    ensures { result ≡ (if has then b + 1 else longest) }
{
    if has { b + 1 } else { longest }
}

// Of how many blocks the longest row is that ends with a block that has this magic, and of which at most one lacks it. It has at
// most so many.
fn longest_of_one(words: &[u8], first: usize, step: usize, magic: u16, most: u32) -> u32
    requires few { most ≤ 65535 }
    requires inside { (b : ℕ) → b < most → 2 * (first + step * b) + 2 ≤ length words.now }
    ensures { LongestOfOne (is_equal words.now first step magic) most result }
{
    let mut longest = 0;
    let mut lacks = false;
    for b in 0..most {
        let has = word(words, first + step * b as usize) == magic;
        match after_block(lacks, has) {
            Some(next) => lacks = next,
            None => return longest,
        }
        longest = row_end(has, b, longest);
    }
    longest
}

// The same, where no more than two blocks one behind the other lack it.
fn longest_of_gaps(words: &[u8], first: usize, step: usize, magic: u16, most: u32) -> u32
    requires few { most ≤ 65535 }
    requires inside { (b : ℕ) → b < most → 2 * (first + step * b) + 2 ≤ length words.now }
    ensures { LongestOfGaps (is_equal words.now first step magic) most result }
{
    let mut longest = 0;
    let mut gap = 0;
    for b in 0..most {
        let has = word(words, first + step * b as usize) == magic;
        gap = gap_after(gap, has);
        if gap > 2 {
            return longest;
        }
        longest = row_end(has, b, longest);
    }
    longest
}

// Of how many blocks the longest row is that ends with a block that has this magic, where that doesn't tell the length. It has at most
// so many.
pub(crate) fn longest_row(words: &[u8], first: usize, step: usize, magic: u16, most: u32) -> u32
    requires few { most ≤ 65535 }
    requires inside { (b : ℕ) → b < most → 2 * (first + step * b) + 2 ≤ length words.now }
    ensures { LongestRow (is_equal words.now first step magic) most result }
{
    if most == 0 {
        return 0;
    }
    if word(words, first) == magic {
        longest_of_gaps(words, first, step, magic, most)
    } else {
        longest_of_one(words, first, step, magic, most)
    }
}

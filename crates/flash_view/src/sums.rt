//! What the rows of all blocks add up to, and the first block that takes pages of each kind. They are kept beside the rows: a row has
//! 16 bytes and fills 10, and these stand in what the first three rows leave over (a volume has three blocks at least).
ghost use Rattle.std.specs.Prelude.{◌≡◌, ◌≢◌, ℕ, ◌+◌, ◌*◌, ◌%◌, ◌<◌, ◌≤◌, length, slice_index, if◌then◌else◌};
ghost use Rattle.geometry.specs.Numbers.{rows_need};
ghost use Rattle.nor_core.specs.Flash.{SameOutside, word_at};
ghost use Rattle.flash_view.specs.declared.kinds.Kind.TheVariants.{Index, Data};
ghost use Rattle.flash_view.specs.Counts.{takes as the_takes, part_of as the_part, moved_by, IsFirst};
ghost use Rattle.flash_view.specs.Table.{row_of, sums_in, first_in, row_takes, IsSummed};
ghost use Rattle.flash_view.specs.Firsts.{IsFirstBut, IsFirstFrom};
ghost use Rattle.flash_view.specs.declared.kinds.Kind.{Kind as TheKind};

use crate::counts::BlockCounts;
use crate::kinds::Kind;
use geometry::Geometry;
use page_layout::{put_word, read_word};

/// What the blocks of a volume add up to; or what one block adds to that.
#[derive(Clone, Copy, Debug, PartialEq, Eq)]
pub struct Sums {
    /// Live index pages.
    pub index_live: u16,
    /// Live data pages.
    pub data_live: u16,
    /// Free entries.
    pub free: u16,
    /// Free blocks.
    pub blocks: u16,
    /// Free entries for index pages: those of blocks in use without live data pages.
    pub for_index: u16,
    /// Free entries for data pages: those of blocks that hold live data pages alone.
    pub for_data: u16,
    /// Free entries of blocks that hold live index pages alone.
    pub beside: u16,
}

/// Whether a block in use takes a page of a kind: it has a free entry, and for an index page no live data page, for a data page live
/// data pages alone.
pub fn takes(counts: &BlockCounts, kind: Kind, entries: u32) -> bool
    ensures { result ≡ the_takes counts.now kind entries }
{
    match kind {
        Kind::Index => {
            counts.data_live == 0 && counts.free > 0 && u32::from(counts.free) < entries
        }
        Kind::Data => counts.data_live > 0 && counts.index_live == 0 && counts.free > 0,
    }
}

// The free entries of a block that passes, and 0 of any other.
fn free_if(passes: bool, c: &BlockCounts) -> u16
    ensures { result ≡ (if passes then c.now.free else 0) }
{
    if passes { c.free } else { 0 }
}

// What a block adds to the sums.
fn part_of(c: &BlockCounts, entries: u32) -> Sums
    ensures { result ≡ the_part c.now entries }
{
    let whole = u32::from(c.free) == entries;
    Sums {
        index_live: c.index_live,
        data_live: c.data_live,
        free: c.free,
        blocks: u16::from(whole),
        for_index: free_if(c.data_live == 0 && !whole, c),
        for_data: free_if(c.data_live > 0 && c.index_live == 0, c),
        beside: free_if(c.index_live > 0 && c.data_live == 0, c),
    }
}

// A sum in a word of 16 bits, once a part of it that was `less` is `more`. (The word wraps around, so the order doesn't matter.)
fn moved_sum(sum: u16, less: u16, more: u16) -> u16
    ensures { result ≡ (sum + 65535 * less + more) % 65536 }
{
    sum.wrapping_sub(less).wrapping_add(more)
}

// The sums once a block adds `more` in the place of `less`.
fn moved(sums: &Sums, less: &Sums, more: &Sums) -> Sums
    ensures { result ≡ moved_by sums.now less.now more.now }
{
    Sums {
        index_live: moved_sum(sums.index_live, less.index_live, more.index_live),
        data_live: moved_sum(sums.data_live, less.data_live, more.data_live),
        free: moved_sum(sums.free, less.free, more.free),
        blocks: moved_sum(sums.blocks, less.blocks, more.blocks),
        for_index: moved_sum(sums.for_index, less.for_index, more.for_index),
        for_data: moved_sum(sums.for_data, less.for_data, more.for_data),
        beside: moved_sum(sums.beside, less.beside, more.beside),
    }
}

// The sums, as they are kept beside the rows.
pub(crate) fn kept_sums(rows: &[u8]) -> Sums
    requires { 48 ≤ length rows.now }
    ensures { result ≡ sums_in rows.now }
{
    Sums {
        index_live: read_word(rows, 10),
        data_live: read_word(rows, 12),
        free: read_word(rows, 14),
        blocks: read_word(rows, 26),
        for_index: read_word(rows, 28),
        for_data: read_word(rows, 30),
        beside: read_word(rows, 42),
    }
}

// The first block that takes a page of a kind, as it is kept beside the rows.
pub(crate) fn kept_first(rows: &[u8], kind: Kind) -> u16
    requires { 48 ≤ length rows.now }
    ensures { result ≡ first_in rows.now kind }
{
    match kind {
        Kind::Index => read_word(rows, 44),
        Kind::Data => read_word(rows, 46),
    }
}

// Puts three words one behind the other, as fit behind what a row fills.
#[tactic(auto, using(crate::proofs::Rows::word_stays))]
fn put_three(rows: &mut [u8], at: usize, first: u16, second: u16, third: u16)
    requires { at + 6 ≤ length rows.old }
    ensures first { word_at rows.new at ≡ first }
    ensures second { word_at rows.new (at + 2) ≡ second }
    ensures third { word_at rows.new (at + 4) ≡ third }
    ensures others { SameOutside at 6 rows.old rows.new }
{
    put_word(rows, at, first);
    put_word(rows, at + 2, second);
    put_word(rows, at + 4, third);
}

// Puts the sums beside the rows.
fn put_sums(rows: &mut [u8], sums: &Sums)
    requires { 48 ≤ length rows.old }
    ensures size { length rows.new ≡ length rows.old }
    ensures sums { sums_in rows.new ≡ sums.now }
    ensures firsts { (kind : TheKind) → first_in rows.new kind ≡ first_in rows.old kind }
    ensures rows { (c : ℕ) → row_of rows.new c ≡ row_of rows.old c }
{
    put_three(rows, 10, sums.index_live, sums.data_live, sums.free);
    put_three(rows, 26, sums.blocks, sums.for_index, sums.for_data);
    put_word(rows, 42, sums.beside);
}

// Puts the first block that takes a page of each kind beside the rows.
fn put_firsts(rows: &mut [u8], index: u16, pages: u16)
    requires { 48 ≤ length rows.old }
    ensures size { length rows.new ≡ length rows.old }
    ensures index { first_in rows.new Index ≡ index }
    ensures pages { first_in rows.new Data ≡ pages }
    ensures sums { sums_in rows.new ≡ sums_in rows.old }
    ensures rows { (c : ℕ) → row_of rows.new c ≡ row_of rows.old c }
{
    put_word(rows, 44, index);
    put_word(rows, 46, pages);
}

// The row of a block.
pub(crate) fn row_at(rows: &[u8], block: u16) -> BlockCounts
    requires { 16 * block + 10 ≤ length rows.now }
    ensures { result ≡ row_of rows.now block }
{
    let at = 16 * usize::from(block);
    let row = &rows[at..at + 10];
    BlockCounts {
        index_live: read_word(row, 0),
        data_live: read_word(row, 2),
        deleted: read_word(row, 4),
        free: read_word(row, 6),
        erases: read_word(row, 8),
    }
}

// Whether a block takes a page of a kind by its row. (That of a block without free entries is told by one word.)
fn is_open(rows: &[u8], block: u16, kind: Kind, entries: u32) -> bool
    requires { 16 * block + 10 ≤ length rows.now }
    ensures { result ≡ the_takes (row_of rows.now block) kind entries }
{
    read_word(rows, 16 * usize::from(block) + 6) != 0 && takes(&row_at(rows, block), kind, entries)
}

// The first block from `from` on that takes a page of a kind by its row, or the number of blocks.
fn next_open(rows: &[u8], g: &Geometry, from: u16, kind: Kind) -> u16
    requires room { rows_need g.now ≤ length rows.now }
    requires from { from ≤ g.now.blocks }
    ensures { IsFirstFrom g.now.blocks (row_takes g.now rows.now kind) from result }
{
    let entries = g.entries();
    let blocks = g.blocks() as u16;
    let mut block = from;
    'scan: while block < blocks && !is_open(rows, block, kind, entries) {
        block += 1;
    }
    block
}

// The first block that takes a page of a kind, once the row of `block` was put; `first` was it before.
fn first_now(rows: &[u8], g: &Geometry, first: u16, block: u16, kind: Kind) -> u16
    requires room { rows_need g.now ≤ length rows.now }
    requires block { block < g.now.blocks }
    ensures { IsFirstBut g.now.blocks (row_takes g.now rows.now kind) block first → IsFirst g.now.blocks (row_takes g.now rows.now kind) result }
{
    if is_open(rows, block, kind, g.entries()) {
        return first.min(block);
    }
    if block != first {
        return first;
    }
    next_open(rows, g, block + 1, kind)
}

// Fills the row at a byte.
#[tactic(auto, using(crate::proofs::Rows::word_stays))]
fn fill_row(rows: &mut [u8], at: usize, counts: &BlockCounts)
    requires { at + 10 ≤ length rows.old }
    ensures index { word_at rows.new at ≡ counts.now.index_live }
    ensures pages { word_at rows.new (at + 2) ≡ counts.now.data_live }
    ensures deleted { word_at rows.new (at + 4) ≡ counts.now.deleted }
    ensures free { word_at rows.new (at + 6) ≡ counts.now.free }
    ensures erases { word_at rows.new (at + 8) ≡ counts.now.erases }
    ensures others { SameOutside at 10 rows.old rows.new }
{
    put_word(rows, at, counts.index_live);
    put_word(rows, at + 2, counts.data_live);
    put_word(rows, at + 4, counts.deleted);
    put_word(rows, at + 6, counts.free);
    put_word(rows, at + 8, counts.erases);
}

// Fills the row of a block, and nothing beside the rows.
#[tactic(auto, using(crate::proofs::Rows::row_is, crate::proofs::Rows::rows_beside))]
fn fill_block(rows: &mut [u8], block: u16, counts: &BlockCounts)
    requires { 16 * block + 16 ≤ length rows.old }
    ensures size { length rows.new ≡ length rows.old }
    ensures row { row_of rows.new block ≡ counts.now }
    ensures others { (c : ℕ) → c ≢ block → row_of rows.new c ≡ row_of rows.old c }
    ensures sums { sums_in rows.new ≡ sums_in rows.old }
    ensures firsts { (kind : TheKind) → first_in rows.new kind ≡ first_in rows.old kind }
{
    fill_row(rows, 16 * usize::from(block), counts);
}

// Puts the first block that takes a page of each kind right, once the row of `block` was put.
fn settle_firsts(rows: &mut [u8], g: &Geometry, block: u16)
    requires room { rows_need g.now ≤ length rows.old }
    requires block { block < g.now.blocks }
    ensures size { length rows.new ≡ length rows.old }
    ensures index { IsFirstBut g.now.blocks (row_takes g.now rows.old Index) block (first_in rows.old Index) →
        IsFirst g.now.blocks (row_takes g.now rows.new Index) (first_in rows.new Index) }
    ensures pages { IsFirstBut g.now.blocks (row_takes g.now rows.old Data) block (first_in rows.old Data) →
        IsFirst g.now.blocks (row_takes g.now rows.new Data) (first_in rows.new Data) }
    ensures sums { sums_in rows.new ≡ sums_in rows.old }
    ensures rows { (c : ℕ) → row_of rows.new c ≡ row_of rows.old c }
{
    let index = first_now(rows, g, kept_first(rows, Kind::Index), block, Kind::Index);
    let pages = first_now(rows, g, kept_first(rows, Kind::Data), block, Kind::Data);
    put_firsts(rows, index, pages);
}

// Puts the row of a block, and what is kept beside the rows right. A row that says that already stays, and all beside it.
pub(crate) fn put_in(rows: &mut [u8], g: &Geometry, block: u16, counts: &BlockCounts)
    requires room { rows_need g.now ≤ length rows.old }
    requires block { block < g.now.blocks }
    ensures size { length rows.new ≡ length rows.old }
    ensures row { row_of rows.new block ≡ counts.now }
    ensures others { (c : ℕ) → c ≢ block → row_of rows.new c ≡ row_of rows.old c }
    ensures summed { IsSummed g.now rows.old → IsSummed g.now rows.new }
{
    let before = row_at(rows, block);
    if before == *counts {
        return;
    }
    let entries = g.entries();
    let less = part_of(&before, entries);
    let sums = moved(&kept_sums(rows), &less, &part_of(counts, entries));
    fill_block(rows, block, counts);
    put_sums(rows, &sums);
    settle_firsts(rows, g, block);
}

// Sets the first bytes to 0.
fn clear(bytes: &mut [u8], count: usize)
    requires { count ≤ length bytes.old }
    ensures size { length bytes.new ≡ length bytes.old }
    ensures none { (k : ℕ) → k < count → slice_index bytes.new k ≡ 0 }
{
    bytes[..count].fill(0);
}

// Sets the rows to 0, and no byte behind them: no block has any entry, and what is kept beside the rows is right.
pub(crate) fn clear_in(rows: &mut [u8], g: &Geometry)
    requires { rows_need g.now ≤ length rows.old }
    ensures size { length rows.new ≡ length rows.old }
    ensures summed { IsSummed g.now rows.new }
{
    let end = g.blocks() as u16;
    clear(rows, g.rows_need() as usize);
    put_firsts(rows, end, end);
}

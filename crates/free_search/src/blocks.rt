ghost use Rattle.std.specs.Prelude.{◌≡◌, ◌+◌, ◌*◌, ◌/◌, ◌<◌, ◌≤◌, length, OnErr, IfOk, IfSome, is_some};
ghost use Rattle.geometry.specs.Numbers.{entries, lookups};
ghost use Rattle.nor_core.specs.Count.{Rose};
ghost use Rattle.image_model.specs.Tidy.{is_free_block as the_free_block, free_blocks as the_free_blocks, TellsFree};
ghost use Rattle.image_model.specs.Places.{block_of, entry_of, has_magic as the_magic};
ghost use Rattle.flash_view.specs.Places.{IsEntryPage};
ghost use Rattle.flash_view.specs.Looks.{Looks};
ghost use Rattle.flash_view.specs.Same.{OnlyLooks};
ghost use Rattle.free_search.specs.ByRows.{IsByRows};
ghost use Rattle.free_search.specs.Counted.{sort_by_header, HasSlots, IsCountedTo};
ghost use Rattle.free_search.specs.Summed.{AreSumsOf};
ghost use Rattle.flash_view.specs.Counts.{sort_at, total_of, AreCounts};

use flash_view::{BlockCounts, Sort, Sums, View, entry_page, with_one};
use nor_core::{Failed, Nor, NorState};
use page_layout::{DELETED, FREE, PageHeader, read_word};

// What an entry counts as that is neither free nor deleted, by the header of its page, in a block with its magic.
fn named_sort(entry: u16, head: PageHeader) -> Sort
    ensures { result ≡ sort_by_header entry head }
{
    let named = entry == head.id && head.is_finished();
    if !named {
        return Sort::Deleted;
    }
    if head.is_index() {
        Sort::Index
    } else {
        Sort::Data
    }
}

// What an entry of a page counts as, where it is known whether its block has its magic. The headers of other pages than those with an
// id aren't read.
#[tactic(auto, using(flash_view::proofs::Looking::looks_then, flash_view::proofs::Looking::looks_none, flash_view::proofs::Sorts::free_sort, crate::proofs::Counting::deleted_told, crate::proofs::Counting::lacking_told, crate::proofs::Counting::header_told))]
fn entry_sort<N: Nor>(v: &mut View<'_, N>, has: bool, page: u16, entry: u16) -> Result<Sort, Failed>
    requires { IsEntryPage v.old.geometry page }
    ensures cause { OnErr result (Rose (N.faults v.old.nor.now) (N.faults v.new.nor.now)) }
    ensures looks { OnlyLooks v.old v.new }
    ensures told { N.tells v.old.nor.now → has ≡ the_magic v.old.geometry (N.bytes v.old.nor.now) (block_of v.old.geometry page) →
        entry ≡ entry_of v.old.geometry (N.bytes v.old.nor.now) page → IfOk result (λ sort. sort ≡ sort_at v.old.geometry (N.bytes v.old.nor.now) page) }
{
    if entry == FREE {
        return Ok(Sort::Free);
    }
    if entry == DELETED {
        return Ok(Sort::Deleted);
    }
    if !has {
        return Ok(Sort::Deleted);
    }
    let head = v.header(page)?;
    Ok(named_sort(entry, head))
}

// The counts with those of a block's entries from `start` on, whose slots are these bytes; those before are counted.
#[tactic(auto, using(flash_view::proofs::Looking::looks_then))]
fn count_slots<N: Nor>(
    v: &mut View<'_, N>,
    has: bool,
    block: u16,
    start: u32,
    bytes: &[u8],
    counted: BlockCounts,
) -> Result<BlockCounts, Failed>
    requires block { block < v.old.geometry.blocks }
    requires few { start + length bytes.now / 2 ≤ entries v.old.geometry }
    requires total { total_of counted ≤ start }
    ensures looks { Looks v.old v.new result (λ g image counts. has ≡ the_magic g image block → HasSlots g image bytes.now block start (length bytes.now / 2) →
        IsCountedTo g image block start counted → IsCountedTo g image block (start + length bytes.now / 2) counts) }
    ensures total { IfOk result (λ counts. total_of counts ≤ start + length bytes.now / 2) }
{
    let mut counts = counted;
    for i in 0..bytes.len() / 2 {
        let page = entry_page(&v.geometry, block, start + i as u32);
        let sort = entry_sort(v, has, page, read_word(bytes, 2 * i))?;
        counts = with_one(counts, sort);
    }
    Ok(counts)
}

// The slots that are copied at a time: all of a lookup page of 256 bytes.
const PART: u32 = 128;

// The same of so many entries, whose slots stand in lookup page `k` of the block and are copied once.
#[tactic(auto, using(flash_view::proofs::Looking::looks_then))]
fn count_part<N: Nor>(
    v: &mut View<'_, N>,
    has: bool,
    block: u16,
    k: u32,
    start: u32,
    count: u32,
    counted: BlockCounts,
) -> Result<BlockCounts, Failed>
    requires block { block < v.old.geometry.blocks }
    requires lookup { k < lookups v.old.geometry }
    requires low { k * (v.old.geometry.page / 2) ≤ start }
    requires high { start + count ≤ k * (v.old.geometry.page / 2) + v.old.geometry.page / 2 }
    requires few { start + count ≤ entries v.old.geometry }
    requires some { 0 < count }
    requires part { count ≤ 128 }
    requires total { total_of counted ≤ start }
    ensures looks { Looks v.old v.new result
        (λ g image counts. has ≡ the_magic g image block → IsCountedTo g image block start counted → IsCountedTo g image block (start + count) counts) }
    ensures total { IfOk result (λ counts. total_of counts ≤ start + count) }
{
    let g = v.geometry;
    let page = (u32::from(block) * g.per_block() + k) as u16;
    let mut part = [0u8; 2 * PART as usize];
    let bytes = &mut part[..2 * count as usize];
    v.read_in(page, 2 * (start - k * (g.page() / 2)), bytes)?;
    count_slots(v, has, block, start, bytes, counted)
}

// The counts of a block's entries, and its erase count, by its lookup pages, which are copied part by part, and the pages that they tell.
#[tactic(auto, using(flash_view::proofs::Looking::looks_then))]
fn count_block<N: Nor>(v: &mut View<'_, N>, block: u16) -> Result<BlockCounts, Failed>
    requires { block < v.old.geometry.blocks }
    ensures looks { Looks v.old v.new result (λ g image counts. AreCounts g image block counts) }
{
    let g = v.geometry;
    let slots = g.page() / 2;
    let mut counts = BlockCounts {
        index_live: 0,
        data_live: 0,
        deleted: 0,
        free: 0,
        erases: v.erase_count(block)?,
    };
    let has = v.has_magic(block)?;
    let mut at = 0;
    'parts: while at < g.entries() {
        let k = at / slots;
        let end = g.entries().min(k * slots + slots).min(at + PART);
        counts = count_part(v, has, block, k, at, end - at, counts)?;
        at = end;
    }
    Ok(counts)
}

/// The counts of a block's entries, and its erase count: its row, where the table of counts stands.
#[inline(always)]
#[tactic(auto, using(flash_view::proofs::Looking::looks_none))]
pub fn counts<N: Nor>(v: &mut View<'_, N>, block: u16) -> Result<BlockCounts, Failed>
    requires { block < v.old.geometry.blocks }
    ensures looks { Looks v.old v.new result (λ g image counts. AreCounts g image block counts) }
    ensures quick { IsByRows v.old v.new result }
{
    match v.row(block) {
        Some(counts) => Ok(counts),
        None => count_block(v, block),
    }
}

/// Whether a block is free: it has its magic, and all its entries are free. Its row tells it, where the table of counts stands;
/// else its lookup pages alone are read. The answer is right where these tell which entries are free.
#[tactic(auto, using(flash_view::proofs::Looking::looks_then))]
pub fn is_free_block<N: Nor>(v: &mut View<'_, N>, block: u16) -> Result<bool, Failed>
    requires { block < v.old.geometry.blocks }
    ensures looks { Looks v.old v.new result (λ g image free. TellsFree g image → free ≡ the_free_block g image block) }
    ensures quick { IsByRows v.old v.new result }
{
    if let Some(counts) = v.row(block) {
        return Ok(u32::from(counts.free) == v.geometry.entries());
    }
    if !v.has_magic(block)? {
        return Ok(false);
    }
    Ok(v.find_slot(block, 0, 0, FREE - 1)?.is_none())
}

/// What all blocks add up to, where the table of counts stands.
#[tactic(auto, using(crate::proofs::Summed::sums_are_told))]
pub fn sums<N: Nor>(v: &View<'_, N>) -> Option<Sums>
    ensures when { is_some result ≡ v.now.counted }
    ensures told { N.tells v.now.nor.now → IfSome result (AreSumsOf v.now.geometry (N.bytes v.now.nor.now)) }
{
    v.sums()
}

/// How many blocks are free, by the sums where the table of counts stands, else by the lookup pages, as for one block.
pub fn free_blocks<N: Nor>(v: &mut View<'_, N>) -> Result<u32, Failed>
    ensures looks { Looks v.old v.new result (λ g image n. TellsFree g image → n ≡ the_free_blocks g image) }
    ensures quick { IsByRows v.old v.new result }
    ensures most { IfOk result (λ n. n ≤ v.old.geometry.blocks) }
{
    if let Some(sums) = sums(v) {
        return Ok(u32::from(sums.blocks).min(v.geometry.blocks()));
    }
    let mut free = 0;
    for block in 0..v.geometry.blocks() as u16 {
        if is_free_block(v, block)? {
            free += 1;
        }
    }
    Ok(free)
}

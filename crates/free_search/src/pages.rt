ghost use Rattle.std.specs.Prelude.{◌≡◌, ◌+◌, ◌<◌, ◌≤◌, ◌*◌, ℕ, List, IfOk, IfSome, Some, is_some, length, true, false};
ghost use Rattle.std.specs.Bool.{OnTrue};
ghost use Rattle.std.specs.Option.{option_map};
ghost use Rattle.geometry.specs.Numbers.{lookups, entries as the_entries};
ghost use Rattle.flash_view.specs.Table.{IsTable};
ghost use Rattle.flash_view.specs.Places.{IsEntryPage};
ghost use Rattle.flash_view.specs.Looks.{Looks};
ghost use Rattle.free_search.specs.ByRows.{IsByRows};
ghost use Rattle.image_model.specs.Tidy.{is_free_block as the_free_block, TellsFree};
ghost use Rattle.geometry.specs.declared.geometry.Geometry.{Geometry};
ghost use Rattle.free_search.specs.Had.{TidyButIsClear, LessHad, PutHad, SameHad, InPlaceHad};
ghost use Rattle.image_model.specs.Places.{entry_at};
ghost use Rattle.flash_view.specs.Places.{IsWordAt};
ghost use Rattle.free_search.specs.Free.{FreePage, is_open_for, the_open_block, the_least_worn, the_block, the_first_free, the_free_page, worn_with};
ghost use Rattle.free_search.specs.Free.{worn_by_row, IndexPageHad, DataPageHad};

use crate::erases::erases;
use crate::{counts, free_blocks, is_free_block};
use flash_view::{Kind, View, entry_page, takes};
use nor_core::{Failed, Nor, NorState};
use page_layout::{FREE, read_word};

// The first free entry of a block. (It is read once more, so that it is known to be two bytes.)
#[tactic(auto, using(flash_view::proofs::Looking::looks_then))]
fn first_free<N: Nor>(v: &mut View<'_, N>, block: u16) -> Result<Option<u16>, Failed>
    requires { block < v.old.geometry.blocks }
    ensures looks { Looks v.old v.new result (λ g image found. TellsFree g image → found ≡ the_first_free g image block) }
    ensures few_reads { N.device_reads v.new.nor.now ≤ N.device_reads v.old.nor.now + lookups v.old.geometry + 1 }
    ensures entry { IfOk result (λ page. IfSome page (λ p. IsEntryPage v.old.geometry p)) }
    ensures word { N.tells v.old.nor.now → IfOk result (λ found. IfSome found (λ p. IsWordAt (N.bytes v.old.nor.now) (entry_at v.old.geometry p))) }
{
    let Some((i, _)) = v.find_slot(block, 0, FREE, FREE)? else {
        return Ok(None);
    };
    let page = entry_page(&v.geometry, block, i);
    v.entry(page)?;
    Ok(Some(page))
}

// Whether a block in use takes a page of that kind. (Where no table of counts stands: most have no free entry, and their pages aren't
// looked at.)
#[tactic(auto, using(flash_view::proofs::Looking::looks_then))]
fn is_open<N: Nor>(v: &mut View<'_, N>, block: u16, kind: Kind) -> Result<bool, Failed>
    requires { block < v.old.geometry.blocks }
    ensures looks { Looks v.old v.new result (λ g image takes_one. TellsFree g image → takes_one ≡ is_open_for g image kind block) }
    ensures quick { IsByRows v.old v.new result }
{
    let entries = v.geometry.entries();
    if let Some(counts) = v.row(block) {
        return Ok(takes(&counts, kind, entries));
    }
    if !v.has_magic(block)? {
        return Ok(false);
    }
    if v.find_slot(block, 0, FREE, FREE)?.is_none() {
        return Ok(false);
    }
    Ok(takes(&counts(v, block)?, kind, entries))
}

// No block below this one takes a page of that kind: the first one that does, where the table of counts stands, else 0.
#[tactic(auto, using(crate::proofs::Summed::open_from))]
fn lowest<N: Nor>(v: &View<'_, N>, kind: Kind) -> u16
    ensures most { N.tells v.now.nor.now → result ≤ v.now.geometry.blocks }
    ensures told { N.tells v.now.nor.now → (k : ℕ) → k < result → is_open_for v.now.geometry (N.bytes v.now.nor.now) kind k ≡ false }
{
    match v.first_open(kind) {
        Some(first) => first,
        None => 0,
    }
}

// The lowest-numbered block in use that takes a page of that kind. (Where the table of counts stands it tells the first one.)
#[tactic(auto, using(flash_view::proofs::Looking::looks_then))]
fn open_block<N: Nor>(
    v: &mut View<'_, N>,
    kind: Kind,
    not_in: Option<u16>,
) -> Result<Option<u16>, Failed>
    ensures looks { Looks v.old v.new result (λ g image found. TellsFree g image → found ≡ the_open_block g image kind not_in) }
    ensures quick { IsByRows v.old v.new result }
    ensures below { IfOk result (λ found. IfSome found (λ block. block < v.old.geometry.blocks)) }
{
    let first = lowest(v, kind);
    for block in first..v.geometry.blocks() as u16 {
        if Some(block) != not_in && is_open(v, block, kind)? {
            return Ok(Some(block));
        }
    }
    Ok(None)
}

// A block and its erase count.
#[derive(Clone, Copy)]
pub(crate) struct Worn {
    pub(crate) block: u16,
    pub(crate) erases: u16,
}

// The less worn of the block so far and this one, if that is free; the earlier one among equals.
#[tactic(auto, using(flash_view::proofs::Looking::looks_then))]
fn less_worn<N: Nor>(
    v: &mut View<'_, N>,
    least: Option<Worn>,
    block: u16,
) -> Result<Option<Worn>, Failed>
    requires block { block < v.old.geometry.blocks }
    requires least { IfSome least (λ worn. worn.block < v.old.geometry.blocks) }
    ensures looks { Looks v.old v.new result (λ g image found. TellsFree g image → found ≡ worn_with g image least block) }
    ensures quick { IsByRows v.old v.new result }
    ensures below { IfOk result (λ found. IfSome found (λ worn. worn.block < v.old.geometry.blocks)) }
{
    if !is_free_block(v, block)? {
        return Ok(least);
    }
    let erases = erases(v, block)?;
    match least {
        Some(worn) if worn.erases <= erases => Ok(Some(worn)),
        _ => Ok(Some(Worn { block, erases })),
    }
}

// The less worn of the block so far and this one, if its row tells that it is free; the earlier one among equals. (Of the row no more
// is read than that.)
fn less_worn_row(rows: &[u8], entries: u32, least: Option<Worn>, block: u16) -> Option<Worn>
    requires { 16 * block + 16 ≤ length rows.now }
    ensures { result ≡ worn_by_row rows.now entries least block }
{
    let at = 16 * usize::from(block);
    let row = &rows[at..at + 10];
    if u32::from(read_word(row, 6)) != entries {
        return least;
    }
    let erases = read_word(row, 8);
    match least {
        Some(worn) if worn.erases <= erases => Some(worn),
        _ => Some(Worn { block, erases }),
    }
}

// Whether the block so far was never erased, so that none is less worn.
fn is_unworn(least: Option<Worn>) -> bool
    ensures { OnTrue result (option_map (λ worn. worn.erases) least ≡ Some 0) }
{
    match least {
        Some(worn) => worn.erases == 0,
        None => false,
    }
}

// The free block that was erased least often, by the rows of so many blocks. (Those behind one that was never erased aren't looked at.)
fn least_by_rows(rows: &[u8], entries: u32, blocks: u16, not_in: Option<u16>) -> Option<u16>
    requires { 16 * blocks ≤ length rows.now }
    ensures below { IfSome result (λ block. block < blocks) }
    ensures told { (g : Geometry) (image : List ℕ) → IsTable g image rows.now → entries ≡ the_entries g → blocks ≡ g.blocks →
        result ≡ the_least_worn g image not_in }
{
    let mut least = None;
    for block in 0..blocks {
        if is_unworn(least) {
            return least.map(|worn| worn.block);
        }
        if Some(block) != not_in {
            least = less_worn_row(rows, entries, least, block);
        }
    }
    least.map(|worn| worn.block)
}

// The same of a volume, where the table of counts stands.
fn least_counted<N: Nor>(v: &View<'_, N>, not_in: Option<u16>) -> Option<Option<u16>>
    ensures when { is_some result ≡ v.now.counted }
    ensures below { IfSome result (λ found. IfSome found (λ block. block < v.now.geometry.blocks)) }
    ensures told { N.tells v.now.nor.now → IfSome result (λ found. found ≡ the_least_worn v.now.geometry (N.bytes v.now.nor.now) not_in) }
{
    v.sums()?;
    let blocks = v.geometry.blocks() as u16;
    Some(least_by_rows(v.rows, v.geometry.entries(), blocks, not_in))
}

// The free block that was erased least often, the lowest-numbered among equals.
#[tactic(auto, using(flash_view::proofs::Looking::looks_then, flash_view::proofs::Looking::looks_none))]
fn least_worn<N: Nor>(v: &mut View<'_, N>, not_in: Option<u16>) -> Result<Option<u16>, Failed>
    ensures looks { Looks v.old v.new result (λ g image found. TellsFree g image → found ≡ the_least_worn g image not_in) }
    ensures quick { IsByRows v.old v.new result }
    ensures below { IfOk result (λ found. IfSome found (λ block. block < v.old.geometry.blocks)) }
{
    if let Some(found) = least_counted(v, not_in) {
        return Ok(found);
    }
    let mut least = None;
    for block in 0..v.geometry.blocks() as u16 {
        if Some(block) != not_in {
            least = less_worn(v, least, block)?;
        }
    }
    Ok(least.map(|worn| worn.block))
}

// The block into which the next page of a kind goes.
#[tactic(auto, using(flash_view::proofs::Looking::looks_then))]
fn block_for<N: Nor>(
    v: &mut View<'_, N>,
    kind: Kind,
    keep: u32,
    not_in: Option<u16>,
) -> Result<Option<u16>, Failed>
    ensures looks { Looks v.old v.new result (λ g image found. TellsFree g image → found ≡ the_block g image kind keep not_in) }
    ensures quick { IsByRows v.old v.new result }
    ensures below { IfOk result (λ found. IfSome found (λ block. block < v.old.geometry.blocks)) }
{
    if let Some(block) = open_block(v, kind, not_in)? {
        return Ok(Some(block));
    }
    if free_blocks(v)? <= keep {
        return Ok(None);
    }
    least_worn(v, not_in)
}

/// The page into which the next one of a kind goes: the first free entry of the lowest-numbered block in use
/// that takes the kind, else the first entry of the least worn free block, the lowest-numbered among equals. A free
/// block is taken only where more than `keep` are free; `not_in` is a block that is never chosen. None where there is
/// no such page. Where the table of counts stands it tells the block, and the lookup pages of that block alone are read.
#[tactic(auto, using(flash_view::proofs::Looking::looks_then))]
pub fn free_page<N: Nor>(
    v: &mut View<'_, N>,
    kind: Kind,
    keep: u32,
    not_in: Option<u16>,
) -> Result<Option<u16>, Failed>
    ensures looks { Looks v.old v.new result (λ g image found. TellsFree g image → FreePage g image kind keep not_in found) }
    ensures few_reads { v.old.counted ≡ true → N.device_reads v.new.nor.now ≤ N.device_reads v.old.nor.now + lookups v.old.geometry + 1 }
    ensures entry { IfOk result (λ page. IfSome page (λ p. IsEntryPage v.old.geometry p)) }
    ensures chosen { N.tells v.old.nor.now → TellsFree v.old.geometry (N.bytes v.old.nor.now) →
        IfOk result (λ found. found ≡ the_free_page v.old.geometry (N.bytes v.old.nor.now) kind keep not_in) }
{
    match block_for(v, kind, keep, not_in)? {
        Some(block) => first_free(v, block),
        None => Ok(None),
    }
}

/// A page for an index page of a file call is found exactly where one is had.
#[tactic(auto, using(crate::proofs::Had::page_had))]
pub fn index_pages_had()
    ensures { (g : Geometry) → IndexPageHad g }
{}

/// So is one for a data page.
#[tactic(auto, using(crate::proofs::Had::data_page_had))]
pub fn data_pages_had()
    ensures { (g : Geometry) → DataPageHad g }
{}

/// What is had once a page was put where one was found, and once a page was changed in place.
#[tactic(auto, using(crate::proofs::HadBy::tidy_but_is_clear, crate::proofs::HadBy::less_had, crate::proofs::HadBy::put_had, crate::proofs::HadBy::same_had, crate::proofs::HadBy::in_place_had))]
pub fn pages_stay_had()
    ensures clear { (g : Geometry) → TidyButIsClear g }
    ensures less { (g : Geometry) → LessHad g }
    ensures put { (g : Geometry) → PutHad g }
    ensures same { (g : Geometry) → SameHad g }
    ensures in_place { (g : Geometry) → InPlaceHad g }
{}

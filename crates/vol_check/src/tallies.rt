// What blocks add up to, by right marks: shared blocks, and places for their index pages.
ghost use Rattle.std.specs.Prelude.{◌≡◌, ◌<◌, ◌≤◌, length, OnErr, IfOk, if◌then◌else◌};
ghost use Rattle.geometry.specs.Numbers.{page_count};
ghost use Rattle.nor_core.specs.Count.{Rose};
ghost use Rattle.flash_view.specs.Same.{OnlyLooks};
ghost use Rattle.vol_check.specs.Owned.{OwnIf};
ghost use Rattle.vol_check.specs.Needed.{MarksUses};
ghost use Rattle.vol_check.specs.Used.{tally_by, no_tally as the_none, spoiled_tally as the_spoiled, both_tallies, FewUses, IsFew, IsTally, IsTallied};

use crate::uses::{Uses, block_uses};
use flash_view::View;
use nor_core::{Failed, Nor, NorState};

// What blocks add up to.
#[derive(Clone, Copy)]
pub(crate) struct Tally {
    // Blocks that hold wanted pages of both kinds.
    pub(crate) shared: u32,
    // The wanted index pages in them.
    pub(crate) index_pages: u32,
    // Free entries in blocks in use without a wanted data page.
    pub(crate) index_free: u32,
    // Free blocks.
    pub(crate) free: u32,
    // Blocks without their magic.
    pub(crate) spoiled: u32,
}

// What no block adds up to.
fn no_tally() -> Tally
    ensures { result ≡ the_none }
{
    Tally {
        shared: 0,
        index_pages: 0,
        index_free: 0,
        free: 0,
        spoiled: 0,
    }
}

// A number, where it is counted.
fn counted(counts: bool, number: u32) -> u32
    ensures { result ≡ (if counts then number else 0) }
{
    if counts { number } else { 0 }
}

// What a block with its magic adds, by the uses of its entries.
fn tally_of(uses: &Uses, entries: u32) -> Tally
    requires few { FewUses 65535 uses.now }
    ensures value { result ≡ tally_by uses.now entries }
    ensures few { IsFew 65535 result }
{
    let shared = uses.index != 0 && uses.pages != 0;
    let free = uses.free == entries;
    Tally {
        shared: counted(shared, 1),
        index_pages: counted(shared, uses.index),
        index_free: counted(!free && uses.pages == 0, uses.free),
        free: counted(free, 1),
        spoiled: 0,
    }
}

// What a block without its magic adds.
fn spoiled_tally() -> Tally
    ensures { result ≡ the_spoiled }
{
    Tally {
        spoiled: 1,
        ..no_tally()
    }
}

// What two add together.
fn both(a: &Tally, b: &Tally) -> Tally
    requires first { IsFew 4294836225 a.now }
    requires second { IsFew 65535 b.now }
    ensures { result ≡ both_tallies a.now b.now }
{
    Tally {
        shared: a.shared + b.shared,
        index_pages: a.index_pages + b.index_pages,
        index_free: a.index_free + b.index_free,
        free: a.free + b.free,
        spoiled: a.spoiled + b.spoiled,
    }
}

// What a block adds.
#[tactic(auto, using(flash_view::proofs::Looking::looks_then))]
fn block_tally<N: Nor>(
    v: &mut View<'_, N>,
    marks: &[u8],
    block: u16,
    own: bool,
) -> Result<Tally, Failed>
    requires room { page_count v.old.geometry ≤ length marks.now }
    requires block { block < v.old.geometry.blocks }
    ensures cause { OnErr result (Rose (N.faults v.old.nor.now) (N.faults v.new.nor.now)) }
    ensures looks { OnlyLooks v.old v.new }
    ensures few { IfOk result (IsFew 65535) }
    ensures told { N.tells v.old.nor.now → OwnIf own v.old.geometry (N.bytes v.old.nor.now) → MarksUses v.old.geometry (N.bytes v.old.nor.now) marks.now →
        IfOk result (IsTally v.old.geometry (N.bytes v.old.nor.now) block) }
{
    if !v.has_magic(block)? {
        return Ok(spoiled_tally());
    }
    let uses = block_uses(v, marks, block, own)?;
    Ok(tally_of(&uses, v.geometry.entries()))
}

/// What all blocks add.
#[tactic(auto, using(flash_view::proofs::Looking::looks_then))]
pub(crate) fn tally_all<N: Nor>(
    v: &mut View<'_, N>,
    marks: &[u8],
    own: bool,
) -> Result<Tally, Failed>
    requires room { page_count v.old.geometry ≤ length marks.now }
    ensures cause { OnErr result (Rose (N.faults v.old.nor.now) (N.faults v.new.nor.now)) }
    ensures looks { OnlyLooks v.old v.new }
    ensures few { IfOk result (IsFew 4294836225) }
    ensures told { N.tells v.old.nor.now → OwnIf own v.old.geometry (N.bytes v.old.nor.now) → MarksUses v.old.geometry (N.bytes v.old.nor.now) marks.now →
        IfOk result (IsTallied v.old.geometry (N.bytes v.old.nor.now)) }
{
    let mut all = no_tally();
    for block in 0..v.geometry.blocks() as u16 {
        let one = block_tally(v, marks, block, own)?;
        all = both(&all, &one);
    }
    Ok(all)
}

// Blocks that are worth cleaning and fit, and the best of them.
ghost use Rattle.std.specs.Prelude.{◌≡◌, ◌-◌, ◌<◌, OnErr, IfOk, if◌then◌else◌};
ghost use Rattle.image_model.specs.Tidy.{IsTidy};
ghost use Rattle.image_model.specs.Places.{next_count as the_next_count};
ghost use Rattle.geometry.specs.Numbers.{entries, ceil};
ghost use Rattle.nor_core.specs.Count.{Rose};
ghost use Rattle.flash_view.specs.Same.{OnlyLooks};
ghost use Rattle.free_search.specs.ByRows.{IsByRows};
ghost use Rattle.block_gc.specs.Totals.{worth_by, fits_by, AreTotals};
ghost use Rattle.block_gc.specs.Best.{better_of, bests_by, bests_with, AreBests, AreBelow};

use crate::scores::score;
use crate::totals::{Room, room_of};
use flash_view::{BlockCounts, View};
use free_search::counts;
use geometry::Geometry;
use nor_core::{Failed, Nor, NorState};

// Whether a block is worth cleaning, by its counts, the room of all blocks and its own: it has a deleted entry, or it isn't
// free and its live pages are at most the free entries of other blocks that hold pages of its kind alone.
fn is_worth(c: &BlockCounts, all: &Room, own: &Room) -> bool
    ensures { result ≡ worth_by c.now all.now own.now }
{
    if c.deleted > 0 {
        return true;
    }
    if own.blocks > 0 {
        return false;
    }
    if c.data_live > 0 {
        u32::from(c.data_live) <= all.pages.saturating_sub(own.pages)
    } else {
        u32::from(c.index_live) <= all.beside.saturating_sub(own.beside)
    }
}

// How many free blocks so many pages need beside the free entries of their kind.
#[tactic(auto, using(geometry::proofs::Bounds::entry_left))]
pub(crate) fn blocks_for_kind(g: &Geometry, pages: u32, free: u32) -> u64
    ensures value { result ≡ ceil (pages - free) (entries g.now) }
    ensures below { result < 8589934592 }
{
    let missing = u64::from(pages.saturating_sub(free));
    let entries = u64::from(g.entries());
    (missing + entries - 1) / entries
}

// Whether a block's live pages find places of their kind in other blocks; those of a data block, and as many index pages at
// the same time.
fn is_fitting(g: &Geometry, c: &BlockCounts, all: &Room, own: &Room) -> bool
    ensures { result ≡ fits_by g.now c.now all.now own.now }
{
    let data = u32::from(c.data_live);
    let index = if data > 0 {
        data
    } else {
        u32::from(c.index_live)
    };
    let for_index = blocks_for_kind(g, index, all.index.saturating_sub(own.index));
    let for_data = blocks_for_kind(g, data, all.pages.saturating_sub(own.pages));
    for_index + for_data <= u64::from(all.blocks)
}

// A block and its score.
#[derive(Clone, Copy)]
pub(crate) struct Scored {
    pub(crate) block: u16,
    pub(crate) score: i64,
}

// What was found so far.
#[derive(Clone, Copy)]
pub(crate) struct Bests {
    // Some block is worth cleaning.
    pub(crate) worth: bool,
    // The best of the blocks that are worth cleaning and fit.
    pub(crate) any: Option<Scored>,
    // The best of those without live data pages.
    pub(crate) plain: Option<Scored>,
}

// The one with the greater score, the earlier one among equals.
fn better(best: Option<Scored>, other: Scored) -> Option<Scored>
    ensures { result ≡ better_of best other }
{
    match best {
        Some(first) if other.score <= first.score => Some(first),
        _ => Some(other),
    }
}

// The better one where the other passes.
fn better_if(passes: bool, best: Option<Scored>, other: Scored) -> Option<Scored>
    ensures { result ≡ (if passes then better_of best other else best) }
{
    if passes { better(best, other) } else { best }
}

// The bests so far with a block more, by its counts.
#[tactic(auto, unfolding(geometry::specs::Numbers::entries, geometry::specs::Numbers::per_block, geometry::specs::Numbers::lookups))]
fn rated(g: &Geometry, c: &BlockCounts, all: &Room, next: u16, bests: &Bests, block: u16) -> Bests
    ensures { result ≡ bests_by g.now c.now all.now next bests.now block }
{
    let own = room_of(c, g.entries());
    let worth = is_worth(c, all, &own);
    let candidate = worth && is_fitting(g, c, all, &own);
    let scored = Scored {
        block,
        score: score(c, next),
    };
    Bests {
        worth: bests.worth || worth,
        any: better_if(candidate, bests.any, scored),
        plain: better_if(candidate && c.data_live == 0, bests.plain, scored),
    }
}

// The same for a block of the volume.
#[tactic(auto, using(flash_view::proofs::Looking::looks_then))]
fn with_block<N: Nor>(
    v: &mut View<'_, N>,
    all: &Room,
    next: u16,
    bests: &Bests,
    block: u16,
) -> Result<Bests, Failed>
    requires block { block < v.old.geometry.blocks }
    requires below { AreBelow v.old.geometry.blocks bests.now }
    ensures cause { OnErr result (Rose (N.faults v.old.nor.now) (N.faults v.new.nor.now)) }
    ensures looks { OnlyLooks v.old v.new }
    ensures quick { IsByRows v.old v.new result }
    ensures below { IfOk result (λ found. AreBelow v.old.geometry.blocks found) }
    ensures told { N.tells v.old.nor.now → IsTidy v.old.geometry (N.bytes v.old.nor.now) → AreTotals v.old.geometry (N.bytes v.old.nor.now) all.now →
        next ≡ the_next_count v.old.geometry (N.bytes v.old.nor.now) →
        IfOk result (λ found. found ≡ bests_with v.old.geometry (N.bytes v.old.nor.now) bests.now block) }
{
    let g = v.geometry;
    let c = counts(v, block)?;
    Ok(rated(&g, &c, all, next, bests, block))
}

// The bests of all blocks.
#[tactic(auto, using(flash_view::proofs::Looking::looks_then))]
pub(crate) fn all_bests<N: Nor>(v: &mut View<'_, N>, all: &Room, next: u16) -> Result<Bests, Failed>
    ensures cause { OnErr result (Rose (N.faults v.old.nor.now) (N.faults v.new.nor.now)) }
    ensures looks { OnlyLooks v.old v.new }
    ensures quick { IsByRows v.old v.new result }
    ensures below { IfOk result (λ bests. AreBelow v.old.geometry.blocks bests) }
    ensures told { N.tells v.old.nor.now → IsTidy v.old.geometry (N.bytes v.old.nor.now) → AreTotals v.old.geometry (N.bytes v.old.nor.now) all.now →
        next ≡ the_next_count v.old.geometry (N.bytes v.old.nor.now) → IfOk result (λ bests. AreBests v.old.geometry (N.bytes v.old.nor.now) bests) }
{
    let mut bests = Bests {
        worth: false,
        any: None,
        plain: None,
    };
    for block in 0..v.geometry.blocks() as u16 {
        bests = with_block(v, all, next, &bests, block)?;
    }
    Ok(bests)
}

// The block that is cleaned next, and whether there is need of one.
ghost use Rattle.std.specs.Prelude.{◌≡◌, ◌<◌, OnErr, IfOk, IfSome};
ghost use Rattle.std.specs.Option.{option_map};
ghost use Rattle.image_model.specs.Tidy.{IsTidy};
ghost use Rattle.image_model.specs.Collect.{chosen_block, is_stuck as the_stuck};
ghost use Rattle.nor_core.specs.Count.{Rose};
ghost use Rattle.flash_view.specs.Same.{OnlyLooks};
ghost use Rattle.free_search.specs.ByRows.{IsByRows};
ghost use Rattle.block_gc.specs.Totals.{had_by};
ghost use Rattle.block_gc.specs.Best.{pick_of, stuck_by, AreBelow};
ghost use Rattle.block_gc.specs.RoomMade.{IfReady};
ghost use Rattle.block_gc.specs.Surveys.{IsSurvey};

use crate::choice::{Bests, all_bests, blocks_for_kind};
use crate::totals::{Room, totals};
use flash_view::View;
use free_search::next_count;
use geometry::Geometry;
use nor_core::{Failed, Nor, NorState};

// The number of free blocks, and the bests of all blocks.
#[derive(Clone, Copy)]
struct Survey {
    free: u32,
    bests: Bests,
}

// What the choice and the question whether collection is stuck are told from.
#[tactic(auto, using(flash_view::proofs::Looking::looks_then))]
fn take_survey<N: Nor>(v: &mut View<'_, N>) -> Result<Survey, Failed>
    ensures cause { OnErr result (Rose (N.faults v.old.nor.now) (N.faults v.new.nor.now)) }
    ensures looks { OnlyLooks v.old v.new }
    ensures quick { IsByRows v.old v.new result }
    ensures below { IfOk result (λ found. AreBelow v.old.geometry.blocks found.bests) }
    ensures told { N.tells v.old.nor.now → IsTidy v.old.geometry (N.bytes v.old.nor.now) →
        IfOk result (λ found. IsSurvey v.old.geometry (N.bytes v.old.nor.now) found) }
{
    let all = totals(v)?;
    let next = next_count(v)?;
    let bests = all_bests(v, &all, next)?;
    Ok(Survey {
        free: all.blocks,
        bests,
    })
}

// While fewer than two blocks are free, the best without live data pages, if there is one; else the best of all.
fn pick(found: &Survey) -> Option<u16>
    ensures { result ≡ option_map (λ s. s.block) (pick_of found.now.free found.now.bests) }
{
    let bests = &found.bests;
    let best = if found.free < 2 && bests.plain.is_some() {
        bests.plain
    } else {
        bests.any
    };
    best.map(|s| s.block)
}

/// The block that is cleaned next: of those that are worth cleaning and fit, the first with the greatest score. While fewer
/// than two blocks are free, one with a live data page comes only where there is no other.
#[tactic(auto, using(flash_view::proofs::Looking::looks_then))]
pub fn choose<N: Nor>(v: &mut View<'_, N>) -> Result<Option<u16>, Failed>
    ensures cause { OnErr result (Rose (N.faults v.old.nor.now) (N.faults v.new.nor.now)) }
    ensures looks { OnlyLooks v.old v.new }
    ensures quick { IsByRows v.old v.new result }
    ensures below { IfOk result (λ found. IfSome found (λ block. block < v.old.geometry.blocks)) }
    ensures told { N.tells v.old.nor.now → IsTidy v.old.geometry (N.bytes v.old.nor.now) →
        IfOk result (λ found. found ≡ chosen_block v.old.geometry (N.bytes v.old.nor.now)) }
{
    Ok(pick(&take_survey(v)?))
}

// Whether a block is worth cleaning and none can be, while fewer than two blocks are free.
fn is_stuck_by(found: &Survey) -> bool
    ensures { result ≡ stuck_by found.now.free found.now.bests }
{
    found.free < 2 && found.bests.worth && found.bests.any.is_none()
}

/// Whether collection is stuck: fewer than two blocks are free, a block is worth cleaning, and none of these fits.
#[tactic(auto, using(flash_view::proofs::Looking::looks_then))]
pub fn is_stuck<N: Nor>(v: &mut View<'_, N>) -> Result<bool, Failed>
    ensures cause { OnErr result (Rose (N.faults v.old.nor.now) (N.faults v.new.nor.now)) }
    ensures looks { OnlyLooks v.old v.new }
    ensures quick { IsByRows v.old v.new result }
    ensures told { N.tells v.old.nor.now → IsTidy v.old.geometry (N.bytes v.old.nor.now) →
        IfOk result (λ stuck. stuck ≡ the_stuck v.old.geometry (N.bytes v.old.nor.now)) }
{
    let found = take_survey(v)?;
    Ok(is_stuck_by(&found))
}

// Whether the free blocks above two hold the pages that the free entries of their kinds don't.
fn are_had_by(g: &Geometry, all: &Room, index: u32, data_pages: u32) -> bool
    ensures { result ≡ had_by g.now all.now index data_pages }
{
    let for_index = blocks_for_kind(g, index, all.index);
    let for_data = blocks_for_kind(g, data_pages, all.pages);
    for_index + for_data <= u64::from(all.blocks.saturating_sub(2))
}

/// Whether so many wanted index pages and data pages are had, and two blocks are free: the free blocks above two hold the pages
/// that the free entries of their kinds don't.
#[tactic(auto, using(flash_view::proofs::Looking::looks_then, crate::proofs::Chosen::ready_by, crate::proofs::Chosen::unready))]
pub fn is_ready<N: Nor>(v: &mut View<'_, N>, index: u32, data_pages: u32) -> Result<bool, Failed>
    ensures cause { OnErr result (Rose (N.faults v.old.nor.now) (N.faults v.new.nor.now)) }
    ensures looks { OnlyLooks v.old v.new }
    ensures quick { IsByRows v.old v.new result }
    ensures told { N.tells v.old.nor.now → IsTidy v.old.geometry (N.bytes v.old.nor.now) →
        IfOk result (λ ready. IfReady v.old.geometry (N.bytes v.old.nor.now) index data_pages ready) }
{
    let g = v.geometry;
    let all = totals(v)?;
    if all.blocks < 2 {
        return Ok(false);
    }
    Ok(are_had_by(&g, &all, index, data_pages))
}

// What a check has to part, and how it can go about it.
ghost use Rattle.std.specs.Prelude.{◌≡◌, ℕ, ◌+◌, ◌-◌, ◌*◌, ◌<◌, ◌≤◌, List, length, false, OnErr, IfOk};
ghost use Rattle.geometry.specs.Numbers.{check_need, entries};
ghost use Rattle.nor_core.specs.Count.{Rose};
ghost use Rattle.image_model.specs.Kinds.{is_mixed as the_mixed};
ghost use Rattle.image_model.specs.Shared.{shared_blocks};
ghost use Rattle.flash_view.specs.Same.{OnlyLooks};
ghost use Rattle.vol_check.specs.Owned.{OwnIf};
ghost use Rattle.vol_check.specs.Surveys.{IsSurvey, TellsParting};

use crate::marking::mark_uses;
use crate::parting::{Parting, Survey};
use crate::tallies::tally_all;
use flash_view::View;
use free_search::counts;
use geometry::Geometry;
use nor_core::{Failed, Nor, NorState};

/// Tells what a check has to part, of any image: header pages are judged, the pages of whole files are marked, and one
/// pass over the blocks counts. The marks are bytes for notes, at least `Geometry::check_need`. `own` tells that this engine alone wrote
/// the volume: then pages whose entry is 0xFFFF aren't read.
#[tactic(auto, using(flash_view::proofs::Looking::looks_then))]
pub fn survey<N: Nor>(v: &mut View<'_, N>, marks: &mut [u8], own: bool) -> Result<Survey, Failed>
    requires room { check_need v.old.geometry ≤ length marks.old }
    requires owned { N.tells v.old.nor.now → OwnIf own v.old.geometry (N.bytes v.old.nor.now) }
    ensures cause { OnErr result (Rose (N.faults v.old.nor.now) (N.faults v.new.nor.now)) }
    ensures looks { OnlyLooks v.old v.new }
    ensures told { N.tells v.old.nor.now → IfOk result (IsSurvey v.old.geometry (N.bytes v.old.nor.now)) }
{
    mark_uses(v, marks)?;
    let all = tally_all(v, marks, own)?;
    Ok(Survey {
        shared: all.shared,
        index_pages: all.index_pages,
        index_free: all.index_free,
        free_blocks: all.free + u32::from(all.spoiled == 1),
    })
}

// Whether a block holds live pages of both kinds.
#[tactic(auto, using(flash_view::proofs::Looking::looks_then))]
fn is_mixed<N: Nor>(v: &mut View<'_, N>, block: u16) -> Result<bool, Failed>
    requires { block < v.old.geometry.blocks }
    ensures cause { OnErr result (Rose (N.faults v.old.nor.now) (N.faults v.new.nor.now)) }
    ensures looks { OnlyLooks v.old v.new }
    ensures told { N.tells v.old.nor.now → IfOk result (λ mixed. mixed ≡ the_mixed v.old.geometry (N.bytes v.old.nor.now) block) }
{
    let counts = counts(v, block)?;
    Ok(counts.index_live > 0 && counts.data_live > 0)
}

// Whether some block holds live pages of both kinds. Where none does, no block is shared.
#[tactic(auto, using(flash_view::proofs::Looking::looks_then))]
fn has_mixed<N: Nor>(v: &mut View<'_, N>) -> Result<bool, Failed>
    ensures cause { OnErr result (Rose (N.faults v.old.nor.now) (N.faults v.new.nor.now)) }
    ensures looks { OnlyLooks v.old v.new }
    ensures told { N.tells v.old.nor.now → IfOk result (λ mixed. mixed ≡ false → shared_blocks v.old.geometry (N.bytes v.old.nor.now) ≡ 0) }
{
    for block in 0..v.geometry.blocks() as u16 {
        if is_mixed(v, block)? {
            return Ok(true);
        }
    }
    Ok(false)
}

// The places for index pages of shared blocks, while two blocks stay free.
#[tactic(auto, unfolding(geometry::specs::Numbers::entries, geometry::specs::Numbers::lookups, geometry::specs::Numbers::per_block))]
fn places(g: &Geometry, found: &Survey) -> u64
    ensures { result ≡ found.now.index_free + (found.now.free_blocks - 2) * entries g.now }
{
    let blocks = u64::from(found.free_blocks.saturating_sub(2));
    u64::from(found.index_free) + blocks * u64::from(g.entries())
}

// How a check can go about the blocks that were found.
fn parting_of(g: &Geometry, found: &Survey) -> Parting
    ensures { (image : List ℕ) → IsSurvey g.now image found.now → TellsParting g.now image result }
{
    if found.shared == 0 {
        return Parting::None;
    }
    if u64::from(found.index_pages) <= places(g, found) {
        Parting::Fits
    } else {
        Parting::Over {
            blocks: found.shared,
        }
    }
}

/// Tells how a check can go about blocks with pages of both kinds: whether some hold wanted pages of both, and then
/// whether the index pages of these find places while two blocks stay free. The wanted pages are looked at only where a
/// block holds live pages of both kinds. The marks are bytes for notes, at least `Geometry::check_need`; `own` is as in `survey`.
#[tactic(auto, using(flash_view::proofs::Looking::looks_then))]
pub fn judge_parting<N: Nor>(
    v: &mut View<'_, N>,
    marks: &mut [u8],
    own: bool,
) -> Result<Parting, Failed>
    requires room { check_need v.old.geometry ≤ length marks.old }
    requires owned { N.tells v.old.nor.now → OwnIf own v.old.geometry (N.bytes v.old.nor.now) }
    ensures cause { OnErr result (Rose (N.faults v.old.nor.now) (N.faults v.new.nor.now)) }
    ensures looks { OnlyLooks v.old v.new }
    ensures told { N.tells v.old.nor.now → IfOk result (TellsParting v.old.geometry (N.bytes v.old.nor.now)) }
{
    if !has_mixed(v)? {
        return Ok(Parting::None);
    }
    let found = survey(v, marks, own)?;
    Ok(parting_of(&v.geometry, &found))
}

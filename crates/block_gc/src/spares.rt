// Whether a block may be cleaned that isn't worth it, by what a cut may lose.
ghost use Rattle.std.specs.Prelude.{◌≡◌, ◌<◌, OnErr, IfOk};
ghost use Rattle.image_model.specs.Tidy.{IsTidy};
ghost use Rattle.nor_core.specs.Count.{Rose};
ghost use Rattle.flash_view.specs.Same.{OnlyLooks};
ghost use Rattle.free_search.specs.ByRows.{IsByRows};
ghost use Rattle.block_gc.specs.Spares.{may_by, IfMay};

use crate::totals::{Room, totals};
use flash_view::{BlockCounts, View};
use free_search::counts;
use nor_core::{Failed, Nor, NorState};

// The same by its counts and the room of all blocks.
fn may_move_by(c: &BlockCounts, all: &Room) -> bool
    ensures { result ≡ may_by c.now all.now }
{
    let pages = c.deleted > 0 || all.pages > 0;
    let index = c.deleted > 0 || c.free > 0 || all.index > 0;
    all.blocks >= 3 || (all.blocks >= 2 && (c.data_live == 0 || (pages && index)))
}

/// Whether a block in use may be cleaned, worth it or not: three blocks are free, or two and it holds no live data page, or an entry of each kind
/// is to spare for a copy that a cut loses.
#[tactic(auto, using(flash_view::proofs::Looking::looks_then))]
pub fn may_move<N: Nor>(v: &mut View<'_, N>, block: u16) -> Result<bool, Failed>
    requires { block < v.old.geometry.blocks }
    ensures cause { OnErr result (Rose (N.faults v.old.nor.now) (N.faults v.new.nor.now)) }
    ensures looks { OnlyLooks v.old v.new }
    ensures quick { IsByRows v.old v.new result }
    ensures told { N.tells v.old.nor.now → IsTidy v.old.geometry (N.bytes v.old.nor.now) →
        IfOk result (λ may. IfMay v.old.geometry (N.bytes v.old.nor.now) block may) }
{
    let all = totals(v)?;
    let c = counts(v, block)?;
    Ok(may_move_by(&c, &all))
}

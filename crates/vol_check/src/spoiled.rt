ghost use Rattle.std.specs.Prelude.{◌≡◌, ◌<◌, not, find, OnErr, IfOk, IfSome};
ghost use Rattle.std.specs.List.{range_with_len};
ghost use Rattle.nor_core.specs.Count.{Rose};
ghost use Rattle.image_model.specs.Places.{has_magic};
ghost use Rattle.flash_view.specs.Same.{OnlyLooks};
ghost use Rattle.vol_check.specs.Works.{Worked, making_fresh};

use flash_view::View;
use free_search::next_count;
use nor_core::{Failed, Nor, NorState};
use page_put::fresh_block;

// The first block that lacks its magic.
#[tactic(auto, using(flash_view::proofs::Looking::looks_then))]
fn spoiled_block<N: Nor>(v: &mut View<'_, N>) -> Result<Option<u16>, Failed>
    ensures cause { OnErr result (Rose (N.faults v.old.nor.now) (N.faults v.new.nor.now)) }
    ensures looks { OnlyLooks v.old v.new }
    ensures below { IfOk result (λ found. IfSome found (λ block. block < v.old.geometry.blocks)) }
    ensures told { N.tells v.old.nor.now →
        IfOk result (λ found. found ≡ find (λ block. not (has_magic v.old.geometry (N.bytes v.old.nor.now) block)) (range_with_len 0 v.old.geometry.blocks)) }
{
    for block in 0..v.geometry.blocks() as u16 {
        if !v.has_magic(block)? {
            return Ok(Some(block));
        }
    }
    Ok(None)
}

/// Makes the block fresh that lacks its magic, if there is one: whether there was. Its erase count is the next one.
pub(crate) fn make_fresh<N: Nor>(v: &mut View<'_, N>) -> Result<bool, Failed>
    ensures { Worked v.old v.new result making_fresh }
{
    let Some(block) = spoiled_block(v)? else {
        return Ok(false);
    };
    let count = next_count(v)?;
    fresh_block(v, block, count)?;
    Ok(true)
}

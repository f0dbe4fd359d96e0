ghost use Rattle.std.specs.Prelude.{◌≡◌, ◌+◌, ◌<◌, ◌≤◌, IfOk, if◌then◌else◌};
ghost use Rattle.image_model.specs.Places.{has_magic, erase_count, next_count as the_next_count};
ghost use Rattle.flash_view.specs.Looks.{Looks};
ghost use Rattle.free_search.specs.ByRows.{IsByRows};

use flash_view::View;
use nor_core::{Failed, Nor, NorState};

/// The erase count of a block: that of its row, where the table of counts stands.
#[tactic(auto, using(flash_view::proofs::Looking::looks_none))]
pub(crate) fn erases<N: Nor>(v: &mut View<'_, N>, block: u16) -> Result<u16, Failed>
    requires { block < v.old.geometry.blocks }
    ensures looks { Looks v.old v.new result (λ g image count. count ≡ erase_count g image block) }
    ensures quick { IsByRows v.old v.new result }
{
    match v.row(block) {
        Some(counts) => Ok(counts.erases),
        None => v.erase_count(block),
    }
}

// One more than the erase count of a block with its magic, and 0 for any other.
#[tactic(auto, using(flash_view::proofs::Looking::looks_then))]
fn count_behind<N: Nor>(v: &mut View<'_, N>, block: u16) -> Result<u32, Failed>
    requires { block < v.old.geometry.blocks }
    ensures looks { Looks v.old v.new result (λ g image n. n ≡ (if has_magic g image block then erase_count g image block + 1 else 0)) }
    ensures quick { IsByRows v.old v.new result }
{
    if let Some(counts) = v.row(block) {
        return Ok(u32::from(counts.erases) + 1);
    }
    if !v.has_magic(block)? {
        return Ok(0);
    }
    Ok(u32::from(v.erase_count(block)?) + 1)
}

/// The erase count that the next erased block gets: one more than the greatest of any block with its magic, and 0 where
/// that would be 0x8000.
#[tactic(auto, using(flash_view::proofs::Looking::looks_then))]
pub fn next_count<N: Nor>(v: &mut View<'_, N>) -> Result<u16, Failed>
    ensures looks { Looks v.old v.new result (λ g image n. n ≡ the_next_count g image) }
    ensures quick { IsByRows v.old v.new result }
    ensures most { IfOk result (λ n. n ≤ 0x7FFF) }
{
    let mut next = 0;
    for block in 0..v.geometry.blocks() as u16 {
        let behind = count_behind(v, block)?;
        next = behind.max(next);
    }
    Ok((next % 0x8000) as u16)
}

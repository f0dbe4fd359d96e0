// What is free in a volume.
ghost use Rattle.std.specs.Prelude.{◌≡◌, OnErr, IfOk};
ghost use Rattle.nor_core.specs.Count.{Rose};
ghost use Rattle.image_model.specs.Tidy.{IsTidy};
ghost use Rattle.flash_view.specs.Same.{OnlyLooks};
ghost use Rattle.file_calls.specs.Spaces.{IsSpace, IsWithin, with_block as the_with_block};

use flash_view::{BlockCounts, View};
use free_search::{counts, sums};
use nor_core::{Failed, Nor, NorState};

/// What is free in a volume: blocks, and entry pages of all blocks, which are all but the lookup pages.
#[derive(Clone, Copy, Debug, PartialEq, Eq)]
pub struct Space {
    /// Blocks whose entry pages are all erased.
    pub free_blocks: u32,
    /// Erased entry pages, those of free blocks too.
    pub free_pages: u32,
    /// Entry pages that no file uses and that aren't erased: cleaning their block gives them back.
    pub deleted_pages: u32,
}

// The numbers with those of a block more.
fn with_block(space: Space, c: &BlockCounts, entries: u32) -> Space
    requires { IsWithin 4294836225 space }
    ensures { result ≡ the_with_block space c.now entries }
{
    Space {
        free_blocks: space.free_blocks + u32::from(u32::from(c.free) == entries),
        free_pages: space.free_pages + u32::from(c.free),
        deleted_pages: space.deleted_pages + u32::from(c.deleted),
    }
}

/// What is free: by the sums that are kept, where the table of counts stands, else counted block by block.
#[tactic(auto, using(flash_view::proofs::Looking::looks_then))]
pub fn space_of<N: Nor>(v: &mut View<'_, N>) -> Result<Space, Failed>
    ensures cause { OnErr result (Rose (N.faults v.old.nor.now) (N.faults v.new.nor.now)) }
    ensures looks { OnlyLooks v.old v.new }
    ensures told { N.tells v.old.nor.now → IsTidy v.old.geometry (N.bytes v.old.nor.now) →
        IfOk result (λ space. IsSpace v.old.geometry (N.bytes v.old.nor.now) space) }
{
    if let Some(sums) = sums(v) {
        let live = u32::from(sums.index_live) + u32::from(sums.data_live);
        return Ok(Space {
            free_blocks: u32::from(sums.blocks),
            free_pages: u32::from(sums.free),
            deleted_pages: v
                .geometry
                .usable()
                .saturating_sub(live + u32::from(sums.free)),
        });
    }
    let entries = v.geometry.entries();
    let mut space = Space {
        free_blocks: 0,
        free_pages: 0,
        deleted_pages: 0,
    };
    for block in 0..v.geometry.blocks() as u16 {
        let own = counts(v, block)?;
        space = with_block(space, &own, entries);
    }
    Ok(space)
}

// Places for the live pages of a block in other blocks.
ghost use Rattle.std.specs.Prelude.{◌≡◌, ◌==◌, ◌&&◌, ℕ, ◌<◌, ◌≤◌, ◌*◌, ◌^◌, not, if◌then◌else◌};
ghost use Rattle.image_model.specs.Places.{IsImage};
ghost use Rattle.image_model.specs.Collect.{free_in as the_free_in, free_where, free_outside as the_free_outside};
ghost use Rattle.plain_collect.specs.Sorts.{is_of as the_kind};

use geometry::Geometry;
use plain_image::{
    EntryKind, count_entries, has_magic, is_data_block, is_free_block, is_index_block,
};

/// What the free entries of a block are for, and what it holds.
#[derive(Clone, Copy, Debug, PartialEq, Eq)]
pub enum BlockKind {
    /// Its free entries are for index pages: it has its magic, isn't free, and holds no live data page.
    TakesIndex,
    /// Its free entries are for data pages: it holds a live data page and no live index page.
    TakesData,
    /// It holds a live index page and no live data page.
    HoldsIndex,
}

#[tactic(auto, unfolding(image_model::specs::Collect::takes_index, image_model::specs::Collect::takes_data, image_model::specs::Collect::holds_index))]
fn is_of(g: &Geometry, image: &[u8], kind: BlockKind, block: u32) -> bool
    requires image { IsImage g.now image.now }
    requires block { block < g.now.blocks }
    ensures { result ≡ the_kind g.now image.now kind block }
{
    match kind {
        BlockKind::TakesIndex => {
            has_magic(g, image, block)
                && !is_free_block(g, image, block)
                && !is_data_block(g, image, block)
        }
        BlockKind::TakesData => is_data_block(g, image, block) && !is_index_block(g, image, block),
        BlockKind::HoldsIndex => is_index_block(g, image, block) && !is_data_block(g, image, block),
    }
}

// The free entries of a block, if it is of that kind.
#[tactic(auto, unfolding(image_model::specs::Collect::free_in))]
fn free_part(g: &Geometry, image: &[u8], kind: BlockKind, block: u32) -> u32
    requires image { IsImage g.now image.now }
    requires block { block < g.now.blocks }
    ensures small { result < 2 ^ 32 }
    ensures value { result ≡ (if the_kind g.now image.now kind block then the_free_in g.now image.now block else 0) }
{
    if is_of(g, image, kind, block) {
        count_entries(g, image, block, EntryKind::Free)
    } else {
        0
    }
}

/// The free entries of the blocks of that kind.
#[tactic(auto, unfolding(image_model::specs::Collect::free_where), using(crate::proofs::Sums::sum_none, crate::proofs::Sums::sum_more, crate::proofs::Sums::sum_all))]
pub fn free_of(g: &Geometry, image: &[u8], kind: BlockKind) -> u64
    requires { IsImage g.now image.now }
    ensures { result ≡ free_where g.now image.now (the_kind g.now image.now kind) }
{
    let mut total = 0u64;
    for block in 0..g.blocks {
        total += u64::from(free_part(g, image, kind, block));
    }
    total
}

// The free entries of a block, if it is another one and of that kind.
fn free_other(g: &Geometry, image: &[u8], kind: BlockKind, except: u32, block: u32) -> u32
    requires image { IsImage g.now image.now }
    requires block { block < g.now.blocks }
    ensures small { result < 2 ^ 32 }
    ensures value { result ≡ (if not (block == except) && the_kind g.now image.now kind block then the_free_in g.now image.now block else 0) }
{
    if block != except {
        free_part(g, image, kind, block)
    } else {
        0
    }
}

/// The free entries of the other blocks of that kind.
#[tactic(auto, unfolding(image_model::specs::Collect::free_where), using(crate::proofs::Sums::sum_none, crate::proofs::Sums::sum_more, crate::proofs::Sums::sum_all))]
pub fn free_outside(g: &Geometry, image: &[u8], kind: BlockKind, except: u32) -> u64
    requires { IsImage g.now image.now }
    ensures { result ≡ the_free_outside g.now image.now except (the_kind g.now image.now kind) }
{
    let mut total = 0u64;
    for block in 0..g.blocks {
        total += u64::from(free_other(g, image, kind, except, block));
    }
    total
}

// Which block a scrub step moves.
ghost use Rattle.std.specs.Prelude.{◌≡◌, ◌&&◌, ℕ, ◌<◌, nat_le, not, IfOk, IfSome};
ghost use Rattle.std.specs.List.{All, list_all};
ghost use Rattle.image_model.specs.Places.{IsImage, next_count as the_next_count};
ghost use Rattle.image_model.specs.Tidy.{is_free_block as the_free_block};
ghost use Rattle.image_model.specs.Collect.{is_fitting as the_fitting, age_of as the_age};
ghost use Rattle.image_model.specs.Wear.{young as the_young, movable as the_movable, oldest_of as the_oldest, scrub_victim as the_victim};

use crate::ages::{age_of, next_count};
use crate::choice::is_fitting;
use geometry::Geometry;
use plain_image::is_free_block;
use std::alloc::{AllocError, Global};

// The greatest age of a free block, where the next erase count is known.
#[tactic(auto, unfolding(image_model::specs::Wear::young), using(crate::proofs::Greatest::greatest_none, crate::proofs::Greatest::greatest_all))]
fn young(g: &Geometry, image: &[u8], next: u16) -> u16
    requires image { IsImage g.now image.now }
    requires next { next ≡ the_next_count g.now image.now }
    requires below { next < 0x8000 }
    ensures { result ≡ the_young g.now image.now }
{
    let mut most = 0u16;
    for block in 0..g.blocks {
        if is_free_block(g, image, block) {
            most = age_of(g, image, next, block).max(most);
        }
    }
    most
}

// Whether a block is in use and fits.
fn is_movable(g: &Geometry, image: &[u8], block: u32) -> bool
    requires image { IsImage g.now image.now }
    requires block { block < g.now.blocks }
    ensures { result ≡ (not (the_free_block g.now image.now block) && the_fitting g.now image.now block) }
{
    !is_free_block(g, image, block) && is_fitting(g, image, block)
}

// The blocks in use that fit.
#[tactic(auto, unfolding(image_model::specs::Wear::movable), using(plain_image::proofs::Ranges::range_step, plain_image::proofs::Ranges::range_end, crate::proofs::Filtered::filter_start, crate::proofs::Filtered::filter_end))]
fn movable(alloc: Global, g: &Geometry, image: &[u8]) -> Result<Vec<u32>, AllocError>
    requires { IsImage g.now image.now }
    ensures value { IfOk result (λ blocks. blocks.items ≡ the_movable g.now image.now) }
    ensures below { IfOk result (λ blocks. All (λ block. block < g.now.blocks) blocks.items) }
{
    let mut blocks = Vec::new(alloc);
    for block in 0..g.blocks {
        if is_movable(g, image, block) {
            blocks.push(block)?;
        }
    }
    Ok(blocks)
}

// Whether no block of some is older than this one.
#[tactic(auto, using(crate::proofs::Walks::walk_step, crate::proofs::Walks::walk_end))]
fn is_oldest(g: &Geometry, image: &[u8], next: u16, blocks: &[u32], block: u32) -> bool
    requires image { IsImage g.now image.now }
    requires below { All (λ block. block < g.now.blocks) blocks.now }
    requires block { block < g.now.blocks }
    requires next { next ≡ the_next_count g.now image.now }
    requires small { next < 0x8000 }
    ensures { result ≡ list_all (λ other. nat_le (the_age g.now image.now other) (the_age g.now image.now block)) blocks.now }
{
    let own = age_of(g, image, next, block);
    for i in 0..blocks.len() {
        if age_of(g, image, next, blocks[i]) > own {
            return false;
        }
    }
    true
}

// The first of some blocks that has their greatest age.
#[tactic(auto, using(crate::proofs::Walks::walk_step, crate::proofs::Walks::walk_end))]
fn oldest_of(g: &Geometry, image: &[u8], next: u16, blocks: &[u32]) -> Option<u32>
    requires image { IsImage g.now image.now }
    requires below { All (λ block. block < g.now.blocks) blocks.now }
    requires next { next ≡ the_next_count g.now image.now }
    requires small { next < 0x8000 }
    ensures value { result ≡ the_oldest g.now image.now blocks.now }
    ensures below { IfSome result (λ block. block < g.now.blocks) }
{
    for i in 0..blocks.len() {
        if is_oldest(g, image, next, blocks, blocks[i]) {
            return Some(blocks[i]);
        }
    }
    None
}

/// The block that a scrub step with this limit moves: of the blocks in use that fit, the first with the greatest age, where it is
/// so many counts older than each free block.
#[tactic(auto, unfolding(image_model::specs::Wear::scrub_victim))]
pub fn scrub_victim(
    alloc: Global,
    g: &Geometry,
    image: &[u8],
    limit: u16,
) -> Result<Option<u32>, AllocError>
    requires { IsImage g.now image.now }
    ensures value { IfOk result (λ block. block ≡ the_victim g.now image.now limit) }
    ensures below { IfOk result (λ victim. IfSome victim (λ block. block < g.now.blocks)) }
{
    let next = next_count(g, image);
    let blocks = movable(alloc, g, image)?;
    let Some(block) = oldest_of(g, image, next, blocks.as_slice()) else {
        return Ok(None);
    };
    let least = u32::from(young(g, image, next)) + u32::from(limit);
    if u32::from(age_of(g, image, next, block)) < least {
        return Ok(None);
    }
    Ok(Some(block))
}

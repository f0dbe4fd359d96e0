// Blocks worth cleaning, those that fit, and the one that is chosen.
ghost use Rattle.std.specs.Prelude.{◌≡◌, ◌&&◌, ℕ, ◌<◌, ◌≤◌, ◌+◌, ◌-◌, ◌^◌, length, filter, map, IfOk, IfSome, not, int_le};
ghost use Rattle.std.specs.List.{All, list_all, list_any};
ghost use Rattle.image_model.specs.Kinds.{is_data_block as the_data_block};
ghost use Rattle.geometry.specs.Numbers.{ceil, entries};
ghost use Rattle.image_model.specs.Places.{IsImage};
ghost use Rattle.image_model.specs.Collect.{is_worth as the_worth, is_fitting as the_fitting, candidates as the_candidates};
ghost use Rattle.image_model.specs.Collect.{first_candidates as the_first_candidates, best_of as the_best, chosen_block as the_chosen, score as the_score};

use crate::ages::{next_count, score_with};
use crate::places::{BlockKind, free_outside};
use geometry::Geometry;
use plain_image::{EntryKind, count_entries, free_blocks, is_data_block, is_free_block};
use std::alloc::{AllocError, Global};

/// Whether a block is worth cleaning: it has a deleted entry, or it isn't free and its live pages are at most the free
/// entries of other blocks that hold pages of its kind alone.
#[tactic(auto, unfolding(image_model::specs::Collect::is_worth, image_model::specs::Collect::deleted_in, image_model::specs::Collect::data_in, image_model::specs::Collect::index_in))]
pub fn is_worth(g: &Geometry, image: &[u8], block: u32) -> bool
    requires image { IsImage g.now image.now }
    requires block { block < g.now.blocks }
    ensures { result ≡ the_worth g.now image.now block }
{
    if count_entries(g, image, block, EntryKind::Deleted) > 0 {
        return true;
    }
    if is_free_block(g, image, block) {
        return false;
    }
    if is_data_block(g, image, block) {
        let data = u64::from(count_entries(g, image, block, EntryKind::Data));
        data <= free_outside(g, image, BlockKind::TakesData, block)
    } else {
        let index = u64::from(count_entries(g, image, block, EntryKind::Index));
        index <= free_outside(g, image, BlockKind::HoldsIndex, block)
    }
}

// How many free blocks so many pages need beside the free entries of their kind.
#[tactic(auto, using(geometry::proofs::Bounds::entry_left))]
pub(crate) fn blocks_for_kind(g: &Geometry, pages: u32, free: u64) -> u64
    ensures value { result ≡ ceil (pages - free) (entries g.now) }
    ensures below { result < 2 ^ 33 }
{
    let missing = u64::from(pages).saturating_sub(free);
    let entries = u64::from(g.entries());
    (missing + entries - 1) / entries
}

/// Whether a block fits: its live pages find places of their kind in other blocks; those of a data block, and as many
/// index pages at the same time.
#[tactic(auto, unfolding(image_model::specs::Collect::is_fitting, image_model::specs::Collect::data_in, image_model::specs::Collect::index_in))]
pub fn is_fitting(g: &Geometry, image: &[u8], block: u32) -> bool
    requires image { IsImage g.now image.now }
    requires block { block < g.now.blocks }
    ensures { result ≡ the_fitting g.now image.now block }
{
    let data = count_entries(g, image, block, EntryKind::Data);
    let index = if is_data_block(g, image, block) {
        data
    } else {
        count_entries(g, image, block, EntryKind::Index)
    };
    let for_index = blocks_for_kind(
        g,
        index,
        free_outside(g, image, BlockKind::TakesIndex, block),
    );
    let for_data = blocks_for_kind(g, data, free_outside(g, image, BlockKind::TakesData, block));
    for_index + for_data <= u64::from(free_blocks(g, image))
}

pub(crate) fn is_candidate(g: &Geometry, image: &[u8], block: u32) -> bool
    requires image { IsImage g.now image.now }
    requires block { block < g.now.blocks }
    ensures { result ≡ (the_worth g.now image.now block && the_fitting g.now image.now block) }
{
    is_worth(g, image, block) && is_fitting(g, image, block)
}

// The blocks that are worth cleaning and fit.
#[tactic(auto, unfolding(image_model::specs::Collect::candidates), using(plain_image::proofs::Ranges::range_step, plain_image::proofs::Ranges::range_end, crate::proofs::Filtered::filter_start, crate::proofs::Filtered::filter_end))]
fn candidates(alloc: Global, g: &Geometry, image: &[u8]) -> Result<Vec<u32>, AllocError>
    requires { IsImage g.now image.now }
    ensures value { IfOk result (λ blocks. blocks.items ≡ the_candidates g.now image.now) }
    ensures below { IfOk result (λ blocks. All (λ block. block < g.now.blocks) blocks.items) }
{
    let mut blocks = Vec::new(alloc);
    for block in 0..g.blocks {
        if is_candidate(g, image, block) {
            blocks.push(block)?;
        }
    }
    Ok(blocks)
}

// The blocks of some that hold no live data page.
#[tactic(auto, using(crate::proofs::Walks::walk_step, crate::proofs::Walks::walk_end))]
fn without_data(
    alloc: Global,
    g: &Geometry,
    image: &[u8],
    blocks: &[u32],
) -> Result<Vec<u32>, AllocError>
    requires image { IsImage g.now image.now }
    requires below { All (λ block. block < g.now.blocks) blocks.now }
    ensures value { IfOk result (λ kept. kept.items ≡ filter (λ block. not (the_data_block g.now image.now block)) blocks.now) }
    ensures below { IfOk result (λ kept. All (λ block. block < g.now.blocks) kept.items) }
{
    let mut kept = Vec::new(alloc);
    for i in 0..blocks.len() {
        if !is_data_block(g, image, blocks[i]) {
            kept.push(blocks[i])?;
        }
    }
    Ok(kept)
}

// Whether no block of some has a greater score than this one.
#[tactic(auto, using(crate::proofs::Walks::walk_step, crate::proofs::Walks::walk_end))]
fn is_best(g: &Geometry, image: &[u8], blocks: &[u32], block: u32) -> bool
    requires image { IsImage g.now image.now }
    requires below { All (λ block. block < g.now.blocks) blocks.now }
    requires block { block < g.now.blocks }
    ensures { result ≡ list_all (λ other. int_le (the_score g.now image.now other) (the_score g.now image.now block)) blocks.now }
{
    let next = next_count(g, image);
    let own = score_with(g, image, next, block);
    for i in 0..blocks.len() {
        if score_with(g, image, next, blocks[i]) > own {
            return false;
        }
    }
    true
}

// The first of some blocks that has their greatest score.
#[tactic(auto, using(crate::proofs::Walks::walk_step, crate::proofs::Walks::walk_end))]
fn best_of(g: &Geometry, image: &[u8], blocks: &[u32]) -> Option<u32>
    requires image { IsImage g.now image.now }
    requires below { All (λ block. block < g.now.blocks) blocks.now }
    ensures value { result ≡ the_best g.now image.now blocks.now }
    ensures below { IfSome result (λ block. block < g.now.blocks) }
{
    for i in 0..blocks.len() {
        if is_best(g, image, blocks, blocks[i]) {
            return Some(blocks[i]);
        }
    }
    None
}

// Whether some of the blocks hold no live data page.
#[tactic(auto, using(crate::proofs::Walks::walk_step, crate::proofs::Walks::walk_end))]
fn some_without_data(g: &Geometry, image: &[u8], blocks: &[u32]) -> bool
    requires image { IsImage g.now image.now }
    requires below { All (λ block. block < g.now.blocks) blocks.now }
    ensures { result ≡ list_any (λ block. not (the_data_block g.now image.now block)) blocks.now }
{
    for i in 0..blocks.len() {
        if !is_data_block(g, image, blocks[i]) {
            return true;
        }
    }
    false
}

/// The block that is cleaned next: of those that are worth cleaning and fit, the first with the greatest score. While
/// fewer than two blocks are free, one with a live data page comes only where there is no other.
#[tactic(auto, unfolding(image_model::specs::Collect::chosen_block, image_model::specs::Collect::first_candidates))]
pub fn chosen_block(alloc: Global, g: &Geometry, image: &[u8]) -> Result<Option<u32>, AllocError>
    requires { IsImage g.now image.now }
    ensures value { IfOk result (λ block. block ≡ the_chosen g.now image.now) }
    ensures below { IfOk result (λ chosen. IfSome chosen (λ block. block < g.now.blocks)) }
{
    let blocks = candidates(alloc, g, image)?;
    if free_blocks(g, image) < 2 && some_without_data(g, image, blocks.as_slice()) {
        let kept = without_data(alloc, g, image, blocks.as_slice())?;
        return Ok(best_of(g, image, kept.as_slice()));
    }
    Ok(best_of(g, image, blocks.as_slice()))
}

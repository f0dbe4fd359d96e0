// Blocks by what they hold.
ghost use Rattle.std.specs.Prelude.{◌≡◌, ◌==◌, ℕ, ◌+◌, ◌*◌, ◌/◌, ◌%◌, ◌^◌, ◌<◌, ◌≤◌, length, filter};
ghost use Rattle.geometry.specs.Numbers.{page_count, per_block, lookups, entries};
ghost use Rattle.image_model.specs.Places.{IsImage};
ghost use Rattle.image_model.specs.Live.{live_at as the_live_at};
ghost use Rattle.image_model.specs.Tidy.{is_erased as the_erased, is_free_entry as the_free_entry, is_free_block as the_free_block};
ghost use Rattle.image_model.specs.Tidy.{free_blocks as the_free_blocks};
ghost use Rattle.image_model.specs.Kinds.{is_index_page as the_index_page, is_data_page as the_data_page, is_index_block as the_index_block};
ghost use Rattle.image_model.specs.Kinds.{is_data_block as the_data_block, is_mixed as the_mixed, mixed_blocks as the_mixed_blocks};
ghost use Rattle.image_model.specs.Kinds.{spoiled_blocks as the_spoiled_blocks};

use crate::pages::{entry_of, has_magic, live_at, page_of, word};
use geometry::Geometry;

fn is_erased(page: &[u8]) -> bool
    ensures { result ≡ the_erased page.now }
{
    page.iter().all(|b| *b == 0xFF)
}

// Whether the entry of an entry page is free.
pub(crate) fn is_free_entry(g: &Geometry, image: &[u8], p: u32) -> bool
    requires image { IsImage g.now image.now }
    requires number { p < page_count g.now }
    requires behind { lookups g.now ≤ p % per_block g.now }
    ensures { result ≡ the_free_entry g.now image.now p }
{
    entry_of(g, image, p) == 0xFFFF && is_erased(page_of(g, image, p))
}

/// The first entry page of a block.
#[tactic(auto, unfolding(geometry::specs::Numbers::lookups, geometry::specs::Numbers::per_block, geometry::specs::Numbers::page_count, geometry::specs::Numbers::entries))]
pub fn first_entry(g: &Geometry, block: u32) -> u32
    requires { block < g.now.blocks }
    ensures value { result ≡ block * per_block g.now + lookups g.now }
    ensures below { result + entries g.now ≤ page_count g.now }
    ensures small { result + entries g.now < 2 ^ 32 }
{
    block * g.per_block() + g.lookups()
}

// Entry pages of a block.
#[tactic(auto, unfolding(geometry::specs::Numbers::lookups, geometry::specs::Numbers::per_block, geometry::specs::Numbers::entries))]
pub(crate) fn entry_count(g: &Geometry) -> u32
    ensures { result ≡ entries g.now }
{
    g.entries()
}

/// Whether a block is free: it has its magic, and each of its entries is 0xFFFF over a page of 0xFF.
#[tactic(auto, unfolding(image_model::specs::Tidy::is_free_block), using(crate::proofs::Ranges::range_step, crate::proofs::Ranges::range_end, image_model::specs::Within::entry_number_in))]
pub fn is_free_block(g: &Geometry, image: &[u8], block: u32) -> bool
    requires image { IsImage g.now image.now }
    requires block { block < g.now.blocks }
    ensures { result ≡ the_free_block g.now image.now block }
{
    if !has_magic(g, image, block) {
        return false;
    }
    let first = first_entry(g, block);
    for p in first..first + entry_count(g) {
        if !is_free_entry(g, image, p) {
            return false;
        }
    }
    true
}

/// Whether a page is a live index page, header pages included.
pub fn is_index_page(g: &Geometry, image: &[u8], p: u32) -> bool
    requires image { IsImage g.now image.now }
    ensures { result ≡ the_index_page (the_live_at g.now image.now p) }
{
    match live_at(g, image, p) {
        Some(page) => word(page, 0) >= 0x8000,
        None => false,
    }
}

/// Whether a page is a live data page.
pub fn is_data_page(g: &Geometry, image: &[u8], p: u32) -> bool
    requires image { IsImage g.now image.now }
    ensures { result ≡ the_data_page (the_live_at g.now image.now p) }
{
    match live_at(g, image, p) {
        Some(page) => word(page, 0) < 0x8000,
        None => false,
    }
}

/// Whether a block holds a live index page.
#[tactic(auto, unfolding(image_model::specs::Kinds::is_index_block), using(crate::proofs::Ranges::range_step, crate::proofs::Ranges::range_end))]
pub fn is_index_block(g: &Geometry, image: &[u8], block: u32) -> bool
    requires image { IsImage g.now image.now }
    requires block { block < g.now.blocks }
    ensures { result ≡ the_index_block g.now image.now block }
{
    let first = first_entry(g, block);
    for p in first..first + entry_count(g) {
        if is_index_page(g, image, p) {
            return true;
        }
    }
    false
}

/// Whether a block holds a live data page.
#[tactic(auto, unfolding(image_model::specs::Kinds::is_data_block), using(crate::proofs::Ranges::range_step, crate::proofs::Ranges::range_end))]
pub fn is_data_block(g: &Geometry, image: &[u8], block: u32) -> bool
    requires image { IsImage g.now image.now }
    requires block { block < g.now.blocks }
    ensures { result ≡ the_data_block g.now image.now block }
{
    let first = first_entry(g, block);
    for p in first..first + entry_count(g) {
        if is_data_page(g, image, p) {
            return true;
        }
    }
    false
}

/// Whether a block holds live pages of both kinds.
#[tactic(auto, unfolding(image_model::specs::Kinds::is_mixed))]
pub fn is_mixed(g: &Geometry, image: &[u8], block: u32) -> bool
    requires image { IsImage g.now image.now }
    requires block { block < g.now.blocks }
    ensures { result ≡ the_mixed g.now image.now block }
{
    is_index_block(g, image, block) && is_data_block(g, image, block)
}

/// How many blocks are free. A volume with its reserve has two at least.
#[tactic(auto, unfolding(image_model::specs::Tidy::free_blocks), using(crate::proofs::Ranges::count_none, crate::proofs::Ranges::count_all, crate::proofs::Ranges::count_yes, crate::proofs::Ranges::count_no))]
pub fn free_blocks(g: &Geometry, image: &[u8]) -> u32
    requires { IsImage g.now image.now }
    ensures { result ≡ the_free_blocks g.now image.now }
{
    let mut count = 0;
    for block in 0..g.blocks {
        if is_free_block(g, image, block) {
            count += 1;
        }
    }
    count
}

/// How many blocks hold live pages of both kinds.
#[tactic(auto, unfolding(image_model::specs::Kinds::mixed_blocks), using(crate::proofs::Ranges::count_none, crate::proofs::Ranges::count_all, crate::proofs::Ranges::count_yes, crate::proofs::Ranges::count_no))]
pub fn mixed_blocks(g: &Geometry, image: &[u8]) -> u32
    requires { IsImage g.now image.now }
    ensures { result ≡ the_mixed_blocks g.now image.now }
{
    let mut count = 0;
    for block in 0..g.blocks {
        if is_mixed(g, image, block) {
            count += 1;
        }
    }
    count
}

/// How many blocks lack their magic.
#[tactic(auto, unfolding(image_model::specs::Kinds::spoiled_blocks), using(crate::proofs::Ranges::count_none, crate::proofs::Ranges::count_all, crate::proofs::Ranges::count_yes, crate::proofs::Ranges::count_no))]
pub fn spoiled_blocks(g: &Geometry, image: &[u8]) -> u32
    requires { IsImage g.now image.now }
    ensures { result ≡ the_spoiled_blocks g.now image.now }
{
    let mut count = 0;
    for block in 0..g.blocks {
        if !has_magic(g, image, block) {
            count += 1;
        }
    }
    count
}

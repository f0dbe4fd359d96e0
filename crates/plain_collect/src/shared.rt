// Blocks that hold wanted pages of both kinds, and whether a check can part them.
ghost use Rattle.std.specs.Prelude.{◌≡◌, ◌==◌, ◌&&◌, ℕ, ◌+◌, ◌*◌, ◌^◌, ◌<◌, ◌≤◌, length, get_or, not, false, true, IfOk, if◌then◌else◌};
ghost use Rattle.geometry.specs.Numbers.{page_count};
ghost use Rattle.image_model.specs.Places.{IsImage, has_magic as the_magic};
ghost use Rattle.image_model.specs.Tidy.{is_wanted as the_wanted, is_free_block as the_free_block};
ghost use Rattle.image_model.specs.Collect.{count_in as the_count_in, free_in as the_free_in};
ghost use Rattle.image_model.specs.Shared.{is_shared as the_shared, wanted_index_in, wanted_data_in, shared_blocks as the_shared_blocks};
ghost use Rattle.image_model.specs.Shared.{shared_index as the_shared_index, open_entries as the_open_entries, fits_over as the_fits_over};
ghost use Rattle.plain_image.specs.Wanting.{AreWanted};
ghost use Rattle.plain_collect.specs.Wanted.{is_wanted_of as the_wanted_of};

use geometry::Geometry;
use plain_image::{
    EntryKind, count_entries, first_entry, free_blocks, has_magic, is_data_page, is_free_block,
    is_index_page, spoiled_blocks, wanted_pages,
};
use std::alloc::{AllocError, Global};

// Whether a page is wanted and of that kind.
fn is_wanted_of(g: &Geometry, image: &[u8], wanted: &[bool], index: bool, p: u32) -> bool
    requires image { IsImage g.now image.now }
    requires wanted { AreWanted g.now image.now (page_count g.now) wanted.now }
    requires number { p < page_count g.now }
    ensures { result ≡ the_wanted_of g.now image.now index p }
{
    let kind = if index {
        is_index_page(g, image, p)
    } else {
        is_data_page(g, image, p)
    };
    kind && wanted[p as usize]
}

// How many wanted pages of that kind a block holds.
#[tactic(auto, unfolding(geometry::specs::Numbers::entries, geometry::specs::Numbers::lookups, geometry::specs::Numbers::per_block), using(plain_image::proofs::Ranges::tally_none, plain_image::proofs::Ranges::tally_all, image_model::specs::Within::entry_number_in))]
fn count_wanted(g: &Geometry, image: &[u8], wanted: &[bool], index: bool, block: u32) -> u32
    requires image { IsImage g.now image.now }
    requires wanted { AreWanted g.now image.now (page_count g.now) wanted.now }
    requires block { block < g.now.blocks }
    ensures { result ≡ the_count_in g.now block (λ p. the_wanted_of g.now image.now index p) }
{
    let first = first_entry(g, block);
    let mut count = 0;
    for p in first..first + g.entries() {
        if is_wanted_of(g, image, wanted, index, p) {
            count += 1;
        }
    }
    count
}

#[tactic(auto, unfolding(image_model::specs::Shared::is_shared, image_model::specs::Shared::wanted_index_in, image_model::specs::Shared::wanted_data_in))]
fn is_shared(g: &Geometry, image: &[u8], wanted: &[bool], block: u32) -> bool
    requires image { IsImage g.now image.now }
    requires wanted { AreWanted g.now image.now (page_count g.now) wanted.now }
    requires block { block < g.now.blocks }
    ensures { result ≡ the_shared g.now image.now block }
{
    count_wanted(g, image, wanted, true, block) != 0
        && count_wanted(g, image, wanted, false, block) != 0
}

// How many blocks are shared.
#[tactic(auto, unfolding(image_model::specs::Shared::shared_blocks), using(plain_image::proofs::Ranges::count_none, plain_image::proofs::Ranges::count_all))]
fn shared_blocks(g: &Geometry, image: &[u8], wanted: &[bool]) -> u32
    requires image { IsImage g.now image.now }
    requires wanted { AreWanted g.now image.now (page_count g.now) wanted.now }
    ensures { result ≡ the_shared_blocks g.now image.now }
{
    let mut count = 0;
    for block in 0..g.blocks {
        if is_shared(g, image, wanted, block) {
            count += 1;
        }
    }
    count
}

// The wanted index pages of a block, if it is shared.
#[tactic(auto, unfolding(image_model::specs::Shared::wanted_index_in))]
fn index_part(g: &Geometry, image: &[u8], wanted: &[bool], block: u32) -> u32
    requires image { IsImage g.now image.now }
    requires wanted { AreWanted g.now image.now (page_count g.now) wanted.now }
    requires block { block < g.now.blocks }
    ensures small { result < 2 ^ 32 }
    ensures value { result ≡ (if the_shared g.now image.now block then wanted_index_in g.now image.now block else 0) }
{
    if is_shared(g, image, wanted, block) {
        count_wanted(g, image, wanted, true, block)
    } else {
        0
    }
}

// The wanted index pages in shared blocks.
#[tactic(auto, unfolding(image_model::specs::Shared::shared_index), using(crate::proofs::Sums::sum_none, crate::proofs::Sums::sum_all))]
fn shared_index(g: &Geometry, image: &[u8], wanted: &[bool]) -> u64
    requires image { IsImage g.now image.now }
    requires wanted { AreWanted g.now image.now (page_count g.now) wanted.now }
    ensures { result ≡ the_shared_index g.now image.now }
{
    let mut total = 0u64;
    for block in 0..g.blocks {
        total += u64::from(index_part(g, image, wanted, block));
    }
    total
}

// The free entries of a block, if it is in use and holds no wanted data page.
#[tactic(auto, unfolding(image_model::specs::Shared::wanted_data_in, image_model::specs::Collect::free_in))]
fn open_part(g: &Geometry, image: &[u8], wanted: &[bool], block: u32) -> u32
    requires image { IsImage g.now image.now }
    requires wanted { AreWanted g.now image.now (page_count g.now) wanted.now }
    requires block { block < g.now.blocks }
    ensures small { result < 2 ^ 32 }
    ensures value { result ≡ (if the_magic g.now image.now block && not (the_free_block g.now image.now block) && (wanted_data_in g.now image.now block == 0)
        then the_free_in g.now image.now block else 0) }
{
    if has_magic(g, image, block)
        && !is_free_block(g, image, block)
        && count_wanted(g, image, wanted, false, block) == 0
    {
        count_entries(g, image, block, EntryKind::Free)
    } else {
        0
    }
}

// The free entries of blocks in use that hold no wanted data page.
#[tactic(auto, unfolding(image_model::specs::Shared::open_entries, image_model::specs::Collect::free_where), using(crate::proofs::Sums::sum_none, crate::proofs::Sums::sum_all))]
fn open_entries(g: &Geometry, image: &[u8], wanted: &[bool]) -> u64
    requires image { IsImage g.now image.now }
    requires wanted { AreWanted g.now image.now (page_count g.now) wanted.now }
    ensures value { result ≡ the_open_entries g.now image.now }
    ensures below { result < 2 ^ 48 }
{
    let mut total = 0u64;
    for block in 0..g.blocks {
        total += u64::from(open_part(g, image, wanted, block));
    }
    total
}

/// The numbers by which a check tells whether it can part the two kinds of pages.
#[derive(Clone, Copy, Debug, PartialEq, Eq)]
pub struct SharedBlocks {
    /// Blocks that hold wanted pages of both kinds.
    pub shared: u32,
    /// Wanted index pages in these.
    pub index_pages: u64,
    /// Free entries of blocks in use that hold no wanted data page.
    pub index_free: u64,
    /// Whether the image fits over.
    pub fits: bool,
}

/// Which blocks hold wanted pages of both kinds, and whether their index pages fit elsewhere: into the free entries of
/// blocks in use without wanted data pages, and the free blocks above two.
#[tactic(auto, unfolding(image_model::specs::Shared::fits_over, geometry::specs::Numbers::entries, geometry::specs::Numbers::lookups, geometry::specs::Numbers::per_block))]
pub fn parting(alloc: Global, g: &Geometry, image: &[u8]) -> Result<SharedBlocks, AllocError>
    requires { IsImage g.now image.now }
    ensures shared { IfOk result (λ over. over.shared ≡ the_shared_blocks g.now image.now) }
    ensures index { IfOk result (λ over. over.index_pages ≡ the_shared_index g.now image.now) }
    ensures free { IfOk result (λ over. over.index_free ≡ the_open_entries g.now image.now) }
    ensures fits { IfOk result (λ over. over.fits ≡ the_fits_over g.now image.now) }
{
    let wanted = wanted_pages(alloc, g, image)?;
    let shared = shared_blocks(g, image, wanted.as_slice());
    let index_pages = shared_index(g, image, wanted.as_slice());
    let index_free = open_entries(g, image, wanted.as_slice());
    let spare = if spoiled_blocks(g, image) == 1 {
        1u64
    } else {
        0
    };
    let blocks = (u64::from(free_blocks(g, image)) + spare).saturating_sub(2);
    let room = index_free + blocks * u64::from(g.entries());
    Ok(SharedBlocks {
        shared,
        index_pages,
        index_free,
        fits: shared == 0 || index_pages <= room,
    })
}

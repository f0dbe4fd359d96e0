// Whether wanted pages are had, and whether collection is stuck.
ghost use Rattle.std.specs.Prelude.{◌≡◌, ◌&&◌};
ghost use Rattle.std.specs.List.{range_with_len, list_any};
ghost use Rattle.image_model.specs.Places.{IsImage};
ghost use Rattle.image_model.specs.Collect.{is_worth as the_worth, is_fitting as the_fitting, are_had as the_had, is_stuck as the_stuck};

use crate::choice::{blocks_for_kind, is_candidate, is_worth};
use crate::places::{BlockKind, free_of};
use geometry::Geometry;
use plain_image::free_blocks;

/// Whether so many wanted index pages and data pages are had: the free blocks above two hold those that the free entries
/// of their kinds don't.
#[tactic(auto, unfolding(image_model::specs::Collect::are_had))]
pub fn are_had(g: &Geometry, image: &[u8], index: u32, pages: u32) -> bool
    requires { IsImage g.now image.now }
    ensures { result ≡ the_had g.now image.now index pages }
{
    let for_index = blocks_for_kind(g, index, free_of(g, image, BlockKind::TakesIndex));
    let for_data = blocks_for_kind(g, pages, free_of(g, image, BlockKind::TakesData));
    for_index + for_data <= u64::from(free_blocks(g, image).saturating_sub(2))
}

// Whether some block is worth cleaning.
#[tactic(auto, using(plain_image::proofs::Ranges::range_step, plain_image::proofs::Ranges::range_end))]
fn some_worth(g: &Geometry, image: &[u8]) -> bool
    requires { IsImage g.now image.now }
    ensures { result ≡ list_any (λ block. the_worth g.now image.now block) (range_with_len 0 g.now.blocks) }
{
    for block in 0..g.blocks {
        if is_worth(g, image, block) {
            return true;
        }
    }
    false
}

// Whether some block is worth cleaning and fits.
#[tactic(auto, using(plain_image::proofs::Ranges::range_step, plain_image::proofs::Ranges::range_end))]
fn some_candidate(g: &Geometry, image: &[u8]) -> bool
    requires { IsImage g.now image.now }
    ensures { result ≡ list_any (λ block. the_worth g.now image.now block && the_fitting g.now image.now block) (range_with_len 0 g.now.blocks) }
{
    for block in 0..g.blocks {
        if is_candidate(g, image, block) {
            return true;
        }
    }
    false
}

/// Whether collection is stuck: fewer than two blocks are free, a block is worth cleaning, and none of these fits.
#[tactic(auto, unfolding(image_model::specs::Collect::is_stuck))]
pub fn is_stuck(g: &Geometry, image: &[u8]) -> bool
    requires { IsImage g.now image.now }
    ensures { result ≡ the_stuck g.now image.now }
{
    free_blocks(g, image) < 2 && some_worth(g, image) && !some_candidate(g, image)
}

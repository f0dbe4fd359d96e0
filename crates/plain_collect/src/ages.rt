// Erase counts, and the score of a block.
ghost use Rattle.std.specs.Prelude.{◌≡◌, ℕ, ◌+◌, ◌*◌, ◌%◌, ◌<◌, ◌≤◌, pos};
ghost use Rattle.image_model.specs.Places.{IsImage, next_count as the_next_count};
ghost use Rattle.image_model.specs.Collect.{age_of as the_age, score as the_score};

use geometry::Geometry;
use plain_image::{EntryKind, count_entries, erase_count, has_magic};

/// The erase count that the next erased block gets: one more than the greatest of any block with its magic, and 0 where
/// that would be 0x8000.
#[tactic(auto, unfolding(image_model::specs::Places::next_count), using(crate::proofs::Greatest::greatest_yes, crate::proofs::Greatest::greatest_no, crate::proofs::Greatest::greatest_none, crate::proofs::Greatest::greatest_all))]
pub fn next_count(g: &Geometry, image: &[u8]) -> u16
    requires { IsImage g.now image.now }
    ensures value { result ≡ the_next_count g.now image.now }
    ensures below { result < 0x8000 }
{
    let mut next = 0u16;
    for block in 0..g.blocks {
        if has_magic(g, image, block) {
            next = (erase_count(g, image, block) + 1).max(next);
        }
    }
    next % 0x8000
}

// The age of a block, where the next erase count is known.
pub(crate) fn age_of(g: &Geometry, image: &[u8], next: u16, block: u32) -> u16
    requires image { IsImage g.now image.now }
    requires block { block < g.now.blocks }
    requires next { next ≡ the_next_count g.now image.now }
    requires below { next < 0x8000 }
    ensures { result ≡ the_age g.now image.now block }
{
    (next + 0x8000 - erase_count(g, image, block)) % 0x8000
}

// The score of a block, where the next erase count is known.
#[tactic(auto, unfolding(image_model::specs::Collect::score, image_model::specs::Collect::index_in, image_model::specs::Collect::data_in, image_model::specs::Collect::deleted_in))]
pub(crate) fn score_with(g: &Geometry, image: &[u8], next: u16, block: u32) -> i64
    requires image { IsImage g.now image.now }
    requires block { block < g.now.blocks }
    requires next { next ≡ the_next_count g.now image.now }
    requires below { next < 0x8000 }
    ensures { result ≡ the_score g.now image.now block }
{
    let deleted = u64::from(count_entries(g, image, block, EntryKind::Deleted));
    let index = u64::from(count_entries(g, image, block, EntryKind::Index));
    let data = u64::from(count_entries(g, image, block, EntryKind::Data));
    let gain = 5 * deleted + 50 * u64::from(age_of(g, image, next, block));
    gain as i64 - (index + data) as i64
}

/// The score of a block: five for each deleted entry, 50 for each count of age, less one for each live page.
pub fn score(g: &Geometry, image: &[u8], block: u32) -> i64
    requires image { IsImage g.now image.now }
    requires block { block < g.now.blocks }
    ensures { result ≡ the_score g.now image.now block }
{
    score_with(g, image, next_count(g, image), block)
}

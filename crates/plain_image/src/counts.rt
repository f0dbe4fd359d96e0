// How many entries of each kind blocks have.
ghost use Rattle.std.specs.Prelude.{◌≡◌, ◌==◌, ◌&&◌, ℕ, ◌+◌, ◌*◌, ◌/◌, ◌%◌, ◌^◌, ◌<◌, ◌≤◌, length, not};
ghost use Rattle.geometry.specs.Numbers.{page_count, per_block, lookups, entries};
ghost use Rattle.image_model.specs.Places.{IsImage};
ghost use Rattle.image_model.specs.Collect.{count_in as the_count_in, is_deleted_entry};
ghost use Rattle.plain_image.specs.Sorts.{is_entry as the_entry_kind};

use crate::blocks::{entry_count, first_entry, is_data_page, is_free_entry, is_index_page};
use crate::pages::{entry_of, is_live};
use geometry::Geometry;

/// What an entry of a block may be.
#[derive(Clone, Copy, Debug, PartialEq, Eq)]
pub enum EntryKind {
    /// Its page is a live index page.
    Index,
    /// Its page is a live data page.
    Data,
    /// It isn't 0xFFFF, and its page isn't live.
    Deleted,
    /// It is 0xFFFF over a page of 0xFF.
    Free,
}

#[tactic(auto, unfolding(image_model::specs::Live::live_at))]
fn is_deleted(g: &Geometry, image: &[u8], p: u32) -> bool
    requires image { IsImage g.now image.now }
    requires number { p < page_count g.now }
    requires behind { lookups g.now ≤ p % per_block g.now }
    ensures { result ≡ is_deleted_entry g.now image.now p }
{
    entry_of(g, image, p) != 0xFFFF && !is_live(g, image, p)
}

fn is_entry(g: &Geometry, image: &[u8], kind: EntryKind, p: u32) -> bool
    requires image { IsImage g.now image.now }
    requires number { p < page_count g.now }
    requires behind { lookups g.now ≤ p % per_block g.now }
    ensures { result ≡ the_entry_kind g.now image.now kind p }
{
    match kind {
        EntryKind::Index => is_index_page(g, image, p),
        EntryKind::Data => is_data_page(g, image, p),
        EntryKind::Deleted => is_deleted(g, image, p),
        EntryKind::Free => is_free_entry(g, image, p),
    }
}

/// How many entries of a block are of that kind.
#[tactic(auto, using(crate::proofs::Ranges::tally_none, crate::proofs::Ranges::tally_all, image_model::specs::Within::entry_number_in))]
pub fn count_entries(g: &Geometry, image: &[u8], block: u32, kind: EntryKind) -> u32
    requires image { IsImage g.now image.now }
    requires block { block < g.now.blocks }
    ensures { result ≡ the_count_in g.now block (λ p. the_entry_kind g.now image.now kind p) }
{
    let first = first_entry(g, block);
    let mut count = 0;
    for p in first..first + entry_count(g) {
        if is_entry(g, image, kind, p) {
            count += 1;
        }
    }
    count
}

// What one cleaning leaves.
ghost use Rattle.std.specs.Prelude.{◌≡◌, ◌==◌, ◌↔◌, ◌<◌, ◌^◌, map, IfOk, IsTrue, if◌then◌else◌};
ghost use Rattle.image_model.specs.Places.{IsImage};
ghost use Rattle.image_model.specs.Tables.{table_of as the_table};
ghost use Rattle.image_model.specs.Collect.{deleted_in as the_deleted_in, deleted_outside as the_deleted_outside, Swept};
ghost use Rattle.plain_image.specs.Seen.{file};

use crate::choice::chosen_block;
use geometry::Geometry;
use plain_image::{EntryKind, Record, count_entries, is_free_block, is_tidy, table_of};
use std::alloc::{AllocError, Global};

// The deleted entries of a block, if it is another one.
#[tactic(auto, unfolding(image_model::specs::Collect::deleted_in))]
fn deleted_part(g: &Geometry, image: &[u8], except: u32, block: u32) -> u32
    requires image { IsImage g.now image.now }
    requires block { block < g.now.blocks }
    ensures small { result < 2 ^ 32 }
    ensures value { result ≡ (if block == except then 0 else the_deleted_in g.now image.now block) }
{
    if block == except {
        0
    } else {
        count_entries(g, image, block, EntryKind::Deleted)
    }
}

/// The deleted entries of all blocks but one.
#[tactic(auto, unfolding(image_model::specs::Collect::deleted_outside), using(crate::proofs::Sums::sum_none, crate::proofs::Sums::sum_more, crate::proofs::Sums::sum_all))]
pub fn deleted_outside(g: &Geometry, image: &[u8], except: u32) -> u64
    requires { IsImage g.now image.now }
    ensures value { result ≡ the_deleted_outside g.now image.now except }
    ensures below { result < 2 ^ 63 }
{
    let mut total = 0u64;
    for block in 0..g.blocks {
        total += u64::from(deleted_part(g, image, except, block));
    }
    total
}

// Whether two records are of the same file.
fn is_same(a: &Record, b: &Record) -> bool
    ensures { IsTrue result ↔ file a.now ≡ file b.now }
{
    a.id == b.id
        && a.name.as_slice() == b.name.as_slice()
        && a.kind == b.kind
        && a.meta.as_slice() == b.meta.as_slice()
        && a.bytes.as_slice() == b.bytes.as_slice()
}

// Whether two lists of records are of the same files.
fn are_same(a: &[Record], b: &[Record]) -> bool
    ensures { IsTrue result ↔ map file a.now ≡ map file b.now }
{
    if a.len() != b.len() {
        return false;
    }
    for i in 0..a.len() {
        if !is_same(&a[i], &b[i]) {
            return false;
        }
    }
    true
}

// Whether two images have the same table.
fn have_same_table(alloc: Global, g: &Geometry, a: &[u8], b: &[u8]) -> Result<bool, AllocError>
    requires first { IsImage g.now a.now }
    requires second { IsImage g.now b.now }
    ensures { IfOk result (λ yes. IsTrue yes ↔ the_table g.now b.now ≡ the_table g.now a.now) }
{
    let before = table_of(alloc, g, a)?;
    let after = table_of(alloc, g, b)?;
    Ok(are_same(after.as_slice(), before.as_slice()))
}

/// Whether the second image is what one cleaning of the first leaves: both are tidy with the same table, the chosen block
/// is free, and the other blocks have at most so many more deleted entries as it had live data pages.
pub fn is_swept(alloc: Global, g: &Geometry, a: &[u8], b: &[u8]) -> Result<bool, AllocError>
    requires first { IsImage g.now a.now }
    requires second { IsImage g.now b.now }
    ensures { IfOk result (λ yes. IsTrue yes ↔ Swept g.now a.now b.now) }
{
    let Some(block) = chosen_block(alloc, g, a)? else {
        return Ok(false);
    };
    if !is_tidy(alloc, g, a)? || !is_tidy(alloc, g, b)? || !have_same_table(alloc, g, a, b)? {
        return Ok(false);
    }
    let data = u64::from(count_entries(g, a, block, EntryKind::Data));
    let most = deleted_outside(g, a, block) + data;
    Ok(is_free_block(g, b, block) && deleted_outside(g, b, block) <= most)
}

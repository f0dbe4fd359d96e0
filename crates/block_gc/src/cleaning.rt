// Cleaning a block.
ghost use Rattle.std.specs.Prelude.{◌≡◌, ◌+◌, ◌*◌, ◌/◌, ◌<◌, ◌≤◌, OnOk, max};
ghost use Rattle.flash_view.specs.Steps.{Stepped, stopped};
ghost use Rattle.block_gc.specs.Cleanings.{CanCleanBlock, cleaning_block};
ghost use Rattle.block_gc.specs.Programs.{moved_in};

use crate::emptying::empty_block;
use flash_view::{BlockCounts, StepErr, View};
use free_search::{counts, next_count};
use nor_core::{Nor, NorState};
use page_put::fresh_block;

// The longest batch of data pages that is moved out of a block with these counts: as many as its deleted and free entries, or
// one.
fn longest_batch(c: &BlockCounts) -> u32
    ensures { result ≡ max 1 (c.now.deleted + c.now.free) }
{
    (u32::from(c.deleted) + u32::from(c.free)).max(1)
}

/// Cleans a block in use that fits: moves its live pages to other blocks in page order, data pages in batches with the index page
/// that names them, and makes the block fresh with the next erase count, which is taken first. A cut leaves the table as it
/// is, and where the block may be cleaned an uncut check gives two free blocks back. Where the image is tidy, a fault of the device is
/// the one error. Each page that is moved takes six programs, and the fresh block an erase for each of its units and two programs.
pub fn clean<N: Nor>(v: &mut View<'_, N>, block: u16) -> Result<(), StepErr>
    requires { block < v.old.geometry.blocks }
    ensures step { Stepped stopped v.old v.new result (cleaning_block block) }
    ensures few { N.tells v.old.nor.now → CanCleanBlock v.old.geometry (N.bytes v.old.nor.now) block → OnOk result (N.device_writes v.new.nor.now
        ≤ N.device_writes v.old.nor.now + 6 * moved_in v.old.geometry (N.bytes v.old.nor.now) block + v.old.geometry.block / v.old.geometry.phys + 2) }
{
    let c = counts(v, block)?;
    let count = next_count(v)?;
    empty_block(v, block, longest_batch(&c))?;
    Ok(fresh_block(v, block, count)?)
}

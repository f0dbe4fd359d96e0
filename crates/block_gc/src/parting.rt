// Moving index pages out of blocks that hold live pages of both kinds.
ghost use Rattle.std.specs.Prelude.{◌≡◌, ◌+◌, ◌≤◌, true};
ghost use Rattle.nor_core.specs.Device.{OnlyReads};
ghost use Rattle.image_model.specs.Kinds.{is_index_page};
ghost use Rattle.image_model.specs.Live.{live_at};
ghost use Rattle.image_model.specs.Tidy.{IsTidy};
ghost use Rattle.flash_view.specs.Places.{IsEntryPage};
ghost use Rattle.flash_view.specs.Steps.{Stepped, stopped};
ghost use Rattle.block_gc.specs.Partings.{parting, parting_page};

use crate::emptying::no_place;
use crate::moving::move_index;
use flash_view::{Kind, StepErr, View, block_of};
use free_search::{counts, free_page};
use nor_core::{Nor, NorState};
use page_layout::{FREE, INDEX_BIT};

// The turn of a live index page: where its block holds a live data page it is moved to a block that takes index pages, and two
// free blocks are kept.
fn part_page<N: Nor>(v: &mut View<'_, N>, page: u16) -> Result<(), StepErr>
    requires page { IsEntryPage v.old.geometry page }
    requires index { N.tells v.old.nor.now → is_index_page (live_at v.old.geometry (N.bytes v.old.nor.now) page) ≡ true }
    ensures step { Stepped stopped v.old v.new result (parting_page page) }
    ensures idle { N.tells v.old.nor.now → IsTidy v.old.geometry (N.bytes v.old.nor.now) → OnlyReads N.NorState v.old.nor.now v.new.nor.now }
    ensures few { N.device_writes v.new.nor.now ≤ N.device_writes v.old.nor.now + 6 }
{
    let block = block_of(&v.geometry, page);
    let c = counts(v, block)?;
    if c.data_live == 0 {
        return Ok(());
    }
    let Some(to) = free_page(v, Kind::Index, 2, None)? else {
        return Err(StepErr::Damaged(no_place(page)));
    };
    move_index(v, page, to)?;
    Ok(())
}

/// Moves the index pages out of each block that holds live pages of both kinds, in page order, and keeps two free blocks. A cut
/// leaves the table as it is. Where the image is neat and fits over, a fault of the device is the one error. Each page that is moved
/// takes six programs.
pub fn part_mixed<N: Nor>(v: &mut View<'_, N>) -> Result<(), StepErr>
    ensures step { Stepped stopped v.old v.new result parting }
    ensures idle { N.tells v.old.nor.now → IsTidy v.old.geometry (N.bytes v.old.nor.now) → OnlyReads N.NorState v.old.nor.now v.new.nor.now }
{
    let mut at = 0;
    'pages: while let Some((page, _)) = v.next_live(at, INDEX_BIT, FREE - 1)? {
        part_page(v, page)?;
        at = u32::from(page) + 1;
    }
    Ok(())
}

// Collecting garbage in calls.
ghost use Rattle.std.specs.Prelude.{◌≡◌, ℕ, List, false};
ghost use Rattle.table_model.specs.Ask.{Collects};
ghost use Rattle.flash_view.specs.Same.{IsSameView};
ghost use Rattle.flash_view.specs.Steps.{Stepped, stopped};
ghost use Rattle.fd_table.specs.declared.slot.FdSlot.{FdSlot};
ghost use Rattle.file_calls.specs.Collecting.{refusing, taking_page, taking_pages, seeking_page, packing};
ghost use Rattle.file_calls.specs.Cleans.{Taken};
ghost use Rattle.file_calls.specs.Replies.{reply_of};
ghost use Rattle.file_calls.specs.Goes.{Goes, StandsOn};

use crate::Told;
use block_gc::{RoomErr, compact, make_room};
use flash_view::{StepErr, View};
use nor_core::{Nor, NorState};
use table_model::FsErr;

/// Collects garbage until an index page is had and two blocks are free, and none where that is so already.
pub(crate) fn take_page<N: Nor>(v: &mut View<'_, N>) -> Result<(), FsErr>
    ensures { Taken refusing 1 0 0 v.old v.new result taking_page }
{
    take_pages(v, 1, 0)
}

/// The same for so many index pages and data pages.
pub(crate) fn take_pages<N: Nor>(v: &mut View<'_, N>, index: u32, pages: u32) -> Result<(), FsErr>
    ensures { Taken refusing index pages 0 v.old v.new result (taking_pages index pages) }
{
    match make_room(v, index, pages) {
        Ok(()) => Ok(()),
        Err(RoomErr::Tight) => Err(FsErr::Tight),
        Err(RoomErr::Step(why)) => Err(FsErr::from(why)),
    }
}

/// Collects garbage for an index page where the table may have no room for one, and tells whether it is had.
pub(crate) fn seek_page<N: Nor>(v: &mut View<'_, N>) -> Result<bool, StepErr>
    ensures { Taken stopped 1 0 0 v.old v.new result seeking_page }
{
    match make_room(v, 1, 0) {
        Ok(()) => Ok(true),
        Err(RoomErr::Tight) => Ok(false),
        Err(RoomErr::Step(why)) => Err(why),
    }
}

// Cleans blocks until none is worth cleaning, and tells whether collection is stuck before that.
fn pack<N: Nor>(v: &mut View<'_, N>) -> Result<bool, StepErr>
    ensures { Stepped stopped v.old v.new result (packing (N.device_writes v.old.nor.now) (N.device_writes v.new.nor.now)) }
{
    match compact(v) {
        Ok(()) => Ok(false),
        Err(RoomErr::Tight) => Ok(true),
        Err(RoomErr::Step(why)) => Err(why),
    }
}

/// Collects garbage until no block is worth cleaning.
pub(crate) fn collect_in<N: Nor>(v: &mut View<'_, N>) -> Result<Told, FsErr>
    requires fresh { v.old.wrote ≡ false }
    ensures same { IsSameView v.old v.new }
    ensures goes { (slots : List FdSlot) (into : List ℕ) →
        Goes N.NorState v.old.geometry Collects v.old.nor.now v.new.nor.now slots slots v.new.wrote (reply_of result into) }
    ensures counted { (slots : List FdSlot) (into : List ℕ) →
        StandsOn N.NorState v.old.geometry v.old.nor.now slots (reply_of result into) v.old.counted v.new.counted }
{
    match pack(v) {
        Ok(false) => Ok(Told::Done),
        Ok(true) => Err(FsErr::Tight),
        Err(why) => Err(FsErr::from(why)),
    }
}

ghost use Rattle.std.specs.Prelude.{◌≡◌, ◌+◌, ◌*◌, ◌<◌, ℕ, List, false};
ghost use Rattle.geometry.specs.Numbers.{usable};
ghost use Rattle.table_model.specs.Table.{File};
ghost use Rattle.table_model.specs.Ask.{Truncates};
ghost use Rattle.flash_view.specs.Same.{IsSameView};
ghost use Rattle.flash_view.specs.Steps.{stopped};
ghost use Rattle.file_calls.specs.Cleans.{Taken};
ghost use Rattle.file_calls.specs.Cuts.{cutting};
ghost use Rattle.file_calls.specs.Replies.{reply_of};
ghost use Rattle.file_calls.specs.Goes.{Goes, StandsOn};

use crate::Told;
use crate::collecting::seek_page;
use crate::reading::record_of;
use crate::room::have_room;
use crate::slots::opened;
use fd_table::{FdSlot, pull_file_back};
use file_drop::truncate_step;
use flash_view::{StepErr, View};
use nor_core::{Nor, NorState};
use table_model::FsErr;

/// Cuts a file to its first bytes, once an index page is had, and tells whether one was had: there may be none where the table
/// had no room before.
pub(crate) fn cut_file<N: Nor>(v: &mut View<'_, N>, id: u16, size: u32) -> Result<bool, StepErr>
    requires { size < 0xFFFFFFFF }
    ensures { (f : File) → Taken stopped 1 0 (6 + 2 * usable v.old.geometry) v.old v.new result (cutting id size f) }
{
    if !seek_page(v)? {
        return Ok(false);
    }
    truncate_step(v, id, size)?;
    Ok(true)
}

/// Cuts the file of a descriptor that may write to a size in bytes; descriptors beyond its end stand at it.
#[tactic(auto, using(flash_view::proofs::Looking::same_then, flash_view::proofs::Looking::same_none))]
pub(crate) fn truncate_in<N: Nor>(
    v: &mut View<'_, N>,
    slots: &mut [FdSlot],
    fd: u16,
    size: u32,
) -> Result<Told, FsErr>
    requires fresh { v.old.wrote ≡ false }
    ensures same { IsSameView v.old v.new }
    ensures goes { (into : List ℕ) →
        Goes N.NorState v.old.geometry (Truncates fd size) v.old.nor.now v.new.nor.now slots.old slots.new v.new.wrote (reply_of result into) }
    ensures counted { (into : List ℕ) → StandsOn N.NorState v.old.geometry v.old.nor.now slots.old (reply_of result into) v.old.counted v.new.counted }
{
    let slot = opened(slots, fd)?;
    if !slot.flags.may_write() {
        return Err(FsErr::NotWritable);
    }
    let old = record_of(v, slot.id)?.size;
    if size > old {
        return Err(FsErr::SeekBounds);
    }
    if size == old {
        return Ok(Told::Done);
    }
    have_room(v, old, u64::from(size))?;
    if !cut_file(v, slot.id, size)? {
        return Err(FsErr::Tight);
    }
    pull_file_back(slots, slot.id, size);
    Ok(Told::Done)
}

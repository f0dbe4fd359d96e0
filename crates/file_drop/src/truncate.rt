ghost use Rattle.std.specs.Prelude.{◌+◌, ◌*◌, ◌<◌, ◌≤◌};
ghost use Rattle.geometry.specs.Numbers.{usable};
ghost use Rattle.flash_view.specs.Steps.{Stepped, stopped};
ghost use Rattle.table_model.specs.Table.{File};
ghost use Rattle.file_drop.specs.Programs.{pages_past};
ghost use Rattle.file_drop.specs.Truncates.{CanTruncate, truncating};

use crate::pages::{Kept, drop_pages};
use flash_view::{StepErr, View};
use nor_core::{Failed, Nor, NorState};
use page_layout::{data_pages, index_pages};
use page_renew::{Edit, renew_header};

/// Cuts the file of an id to its first bytes, in one page step: a new header page takes the place of the old one, which is
/// the step, then every page of the id past the new counts is killed, in page order. At a cut the file has its old bytes or
/// the new ones, a reserve that was there is there, no block is made fresh, and a check frees what is left over. The image
/// is to be tidy with an index page to be had, and its table to have a file of that id with so many bytes at least; where
/// that holds, a fault of the device is the one error, and it takes six programs at most for the header page and two for
/// each page past the new counts. On any image it takes six at most, and two for each entry of the volume.
pub fn truncate_step<N: Nor>(v: &mut View<'_, N>, id: u16, size: u32) -> Result<(), StepErr>
    requires { size < 0xFFFFFFFF }
    ensures step { (f : File) → Stepped stopped v.old v.new result (truncating id size f) }
    ensures few { (f : File) → N.tells v.old.nor.now → CanTruncate v.old.geometry (N.bytes v.old.nor.now) id size f →
        N.device_writes v.new.nor.now ≤ N.device_writes v.old.nor.now + 6 + 2 * pages_past v.old.geometry (N.bytes v.old.nor.now) id size }
    ensures most { N.device_writes v.new.nor.now ≤ N.device_writes v.old.nor.now + 6 + 2 * usable v.old.geometry }
{
    renew_header(v, id, Edit::Cut(size))?;
    let kept = Kept {
        index_pages: index_pages(&v.geometry, size),
        data_pages: data_pages(&v.geometry, size),
    };
    match drop_pages(v, id, kept) {
        Err(Failed) => Err(StepErr::DeviceFault),
        Ok(()) => Ok(()),
    }
}

ghost use Rattle.std.specs.Prelude.{◌≡◌, ◌+◌, ◌*◌, ◌<◌, ◌≤◌, OnErr, IfOk, IfSome, slice_index};
ghost use Rattle.geometry.specs.Numbers.{usable};
ghost use Rattle.nor_core.specs.Count.{Rose};
ghost use Rattle.image_model.specs.Live.{live_at, own};
ghost use Rattle.image_model.specs.Files.{index_page};
ghost use Rattle.image_model.specs.Tidy.{IsTidy};
ghost use Rattle.flash_view.specs.Places.{IsEntryPage};
ghost use Rattle.flash_view.specs.Same.{OnlyLooks};
ghost use Rattle.flash_view.specs.Steps.{Stepped, failed, stopped};
ghost use Rattle.file_drop.specs.Programs.{pages_of};
ghost use Rattle.file_drop.specs.Removals.{CanDrop, CanRemove, dropping_header, removing_by, removing};

use crate::pages::{Kept, drop_pages, is_left};
use flash_view::{StepErr, View};
use nor_core::{Failed, Nor, NorState};
use page_put::{kill, mark_removed};
use table_model::{Differ, Tag};

/// No page of a file that is removed is kept.
const NONE: Kept = Kept {
    index_pages: 0,
    data_pages: 0,
};

// The header page of an id, in a tidy image.
#[tactic(auto, using(flash_view::proofs::Looking::looks_then))]
fn find_header<N: Nor>(v: &mut View<'_, N>, id: u16) -> Result<Option<u16>, Failed>
    ensures cause { OnErr result (Rose (N.faults v.old.nor.now) (N.faults v.new.nor.now)) }
    ensures looks { OnlyLooks v.old v.new }
    ensures entry { IfOk result (λ found. IfSome found (λ page. IsEntryPage v.old.geometry page)) }
    ensures byte { N.tells v.old.nor.now →
        IfOk result (λ found. IfSome found (λ page. slice_index (N.bytes v.old.nor.now) (page * v.old.geometry.page + 4) < 256)) }
    ensures told { N.tells v.old.nor.now → IsTidy v.old.geometry (N.bytes v.old.nor.now) →
        IfOk result (λ found. found ≡ index_page v.old.geometry (own (live_at v.old.geometry (N.bytes v.old.nor.now)) id) 0) }
{
    let Some(page) = v.seek_header(id)? else {
        return Ok(None);
    };
    if is_left(v, page, id, NONE)? {
        Ok(Some(page))
    } else {
        Ok(None)
    }
}

// Marks the header page of an id, by which the file is removed, and kills it: three programs at most.
fn drop_header<N: Nor>(v: &mut View<'_, N>, header: u16, id: u16) -> Result<(), Failed>
    requires { IsEntryPage v.old.geometry header }
    ensures step { Stepped failed v.old v.new result (dropping_header id header) }
    ensures few { N.device_writes v.new.nor.now ≤ N.device_writes v.old.nor.now + 3 }
{
    mark_removed(v, header)?;
    kill(v, header)
}

// Removes a file by its header page.
fn drop_by<N: Nor>(v: &mut View<'_, N>, header: u16, id: u16) -> Result<(), Failed>
    requires { IsEntryPage v.old.geometry header }
    ensures step { Stepped failed v.old v.new result (removing_by id header) }
    ensures few { N.tells v.old.nor.now → CanDrop v.old.geometry (N.bytes v.old.nor.now) id header →
        N.device_writes v.new.nor.now ≤ N.device_writes v.old.nor.now + 1 + 2 * pages_of v.old.geometry (N.bytes v.old.nor.now) id }
    ensures most { N.device_writes v.new.nor.now ≤ N.device_writes v.old.nor.now + 3 + 2 * usable v.old.geometry }
{
    drop_header(v, header, id)?;
    drop_pages(v, id, NONE)
}

/// Removes the file of an id: its header page is marked, which is the step, then the header page, then every other page
/// of the id is killed. At a cut the file is there whole or not at all, no block is made fresh, and a check frees what is
/// left of it. The image is to be tidy, and its table to have a file of that id. Where that holds, a fault of the device is
/// the one error, and it takes two programs at most for each live page of the id and one for the mark. On any image it takes
/// two at most for each entry of the volume, and three.
pub fn remove_step<N: Nor>(v: &mut View<'_, N>, id: u16) -> Result<(), StepErr>
    ensures step { Stepped stopped v.old v.new result (removing id) }
    ensures few { N.tells v.old.nor.now → CanRemove v.old.geometry (N.bytes v.old.nor.now) id →
        N.device_writes v.new.nor.now ≤ N.device_writes v.old.nor.now + 1 + 2 * pages_of v.old.geometry (N.bytes v.old.nor.now) id }
    ensures most { N.device_writes v.new.nor.now ≤ N.device_writes v.old.nor.now + 3 + 2 * usable v.old.geometry }
{
    match find_header(v, id) {
        Err(Failed) => Err(StepErr::DeviceFault),
        Ok(None) => Err(StepErr::Damaged(Differ::no_page(Tag { id, span: 0 }))),
        Ok(Some(header)) => match drop_by(v, header, id) {
            Err(Failed) => Err(StepErr::DeviceFault),
            Ok(()) => Ok(()),
        },
    }
}

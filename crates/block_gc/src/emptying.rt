// Moving the live pages of a block out of it, in page order.
ghost use Rattle.std.specs.Prelude.{◌≡◌, ◌≢◌, ◌+◌, ◌<◌, ◌≤◌, OnErr, OnOk, IfOk};
ghost use Rattle.nor_core.specs.Count.{Rose};
ghost use Rattle.geometry.specs.Numbers.{page_count};
ghost use Rattle.image_model.specs.Live.{live_at};
ghost use Rattle.image_model.specs.Places.{block_of as the_block_of};
ghost use Rattle.flash_view.specs.Places.{IsEntryPage};
ghost use Rattle.flash_view.specs.Same.{OnlyLooks};
ghost use Rattle.flash_view.specs.Steps.{Stepped, stopped};
ghost use Rattle.block_gc.specs.Kinds.{IsKindAt};
ghost use Rattle.block_gc.specs.Programs.{SixEach, NoneBefore};
ghost use Rattle.block_gc.specs.Turns.{CanEmpty, moving_index, turning_entry, emptying};

use crate::batch::move_batch;
use crate::moving::move_index;
use flash_view::{Kind, StepErr, View, entry_page};
use free_search::free_page;
use nor_core::{Failed, Nor, NorState};
use table_model::{Differ, Tag};

// That no place was found for a page.
pub(crate) fn no_place(page: u16) -> Differ
    ensures { result.wanted ≢ result.found }
{
    let wanted = Tag {
        id: 0xFFFF,
        span: 0xFFFF,
    };
    let found = Tag { id: 0, span: 0 };
    Differ {
        page,
        wanted,
        found,
    }
}

// The kind of a page, where it is live.
#[tactic(auto, using(flash_view::proofs::Looking::looks_then))]
fn live_kind<N: Nor>(v: &mut View<'_, N>, page: u16) -> Result<Option<Kind>, Failed>
    requires { page < page_count v.old.geometry }
    ensures cause { OnErr result (Rose (N.faults v.old.nor.now) (N.faults v.new.nor.now)) }
    ensures looks { OnlyLooks v.old v.new }
    ensures told { N.tells v.old.nor.now → IfOk result (λ kind. IsKindAt (live_at v.old.geometry (N.bytes v.old.nor.now) page) kind) }
{
    let Some(head) = v.live_header(page)? else {
        return Ok(None);
    };
    let kind = if head.is_index() {
        Kind::Index
    } else {
        Kind::Data
    };
    Ok(Some(kind))
}

// Moves a live index page out of a block.
fn move_index_out<N: Nor>(v: &mut View<'_, N>, page: u16, block: u16) -> Result<(), StepErr>
    requires page { IsEntryPage v.old.geometry page }
    requires at { the_block_of v.old.geometry page ≡ block }
    ensures step { Stepped stopped v.old v.new result (moving_index block page) }
    ensures few { N.device_writes v.new.nor.now ≤ N.device_writes v.old.nor.now + 6 }
{
    let Some(to) = free_page(v, Kind::Index, 0, Some(block))? else {
        return Err(StepErr::Damaged(no_place(page)));
    };
    Ok(move_index(v, page, to)?)
}

// The turn of an entry of a block: where its page is live it is moved out of the block, a data page with its batch.
fn empty_entry<N: Nor>(v: &mut View<'_, N>, page: u16, block: u16, most: u32) -> Result<(), StepErr>
    requires page { IsEntryPage v.old.geometry page }
    requires at { the_block_of v.old.geometry page ≡ block }
    requires most { 1 ≤ most }
    ensures step { Stepped stopped v.old v.new result (turning_entry block most page) }
    ensures few { N.tells v.old.nor.now → CanEmpty v.old.geometry (N.bytes v.old.nor.now) block → NoneBefore v.old.geometry (N.bytes v.old.nor.now) block page →
        OnOk result
        (SixEach v.old.geometry block most (N.bytes v.old.nor.now) (N.bytes v.new.nor.now) (N.device_writes v.old.nor.now) (N.device_writes v.new.nor.now)) }
{
    match live_kind(v, page)? {
        None => Ok(()),
        Some(Kind::Index) => move_index_out(v, page, block),
        Some(Kind::Data) => move_batch(v, page, block, most),
    }
}

// Moves the live pages of a block out of it, in page order, data pages in batches of at most so many.
pub(crate) fn empty_block<N: Nor>(v: &mut View<'_, N>, block: u16, most: u32) -> Result<(), StepErr>
    requires block { block < v.old.geometry.blocks }
    requires most { 1 ≤ most }
    ensures step { Stepped stopped v.old v.new result (emptying block most) }
    ensures few { N.tells v.old.nor.now → CanEmpty v.old.geometry (N.bytes v.old.nor.now) block → OnOk result
        (SixEach v.old.geometry block most (N.bytes v.old.nor.now) (N.bytes v.new.nor.now) (N.device_writes v.old.nor.now) (N.device_writes v.new.nor.now)) }
{
    let g = v.geometry;
    for i in 0..g.entries() {
        empty_entry(v, entry_page(&g, block, i), block, most)?;
    }
    Ok(())
}

// The tail of a file is made ready for an append: its last data page or its last further index page is replaced by a copy.
ghost use Rattle.std.specs.Prelude.{◌≡◌, ◌+◌, ◌%◌, ◌<◌, ◌≤◌, ℕ};
ghost use Rattle.geometry.specs.Numbers.{body};
ghost use Rattle.table_model.specs.Table.{File};
ghost use Rattle.flash_view.specs.Places.{IsEntryPage};
ghost use Rattle.flash_view.specs.Same.{OnlyLooks};
ghost use Rattle.flash_view.specs.Steps.{Stepped, failed, stopped};
ghost use Rattle.file_write.specs.Readyings.{HasReadyTail, HasReadyTailAt, refreshing_to, refreshing, readying_entry, readying_in, readying};

use crate::create::missing;
use crate::relinking::{Patch, replace_page};
use crate::tails::{has_clean_bytes, stale_index};
use flash_view::{Kind, StepErr, View};
use free_search::free_page;
use nor_core::{Failed, Nor, NorState};
use page_renew::{build_copy, find_home, put_over};
use table_model::Tag;

// Puts a plain copy of an index page of a file at `to`, in its place: six programs.
fn refresh_to<N: Nor>(v: &mut View<'_, N>, id: u16, index: u16, to: u16) -> Result<(), Failed>
    requires index { IsEntryPage v.old.geometry index }
    requires to { IsEntryPage v.old.geometry to }
    requires id { (1 ≤ id) × (id ≤ 0x7FFE) }
    ensures step { (size : ℕ) (f : File) → Stepped failed v.old v.new result (refreshing_to id size index to f) }
    ensures few { N.device_writes v.new.nor.now ≤ N.device_writes v.old.nor.now + 6 }
{
    let copied = build_copy(v, index)?;
    let tag = Tag {
        id,
        span: copied.span,
    };
    put_over(v, to, tag, index)
}

// The same where a free page is found for the copy.
fn refresh<N: Nor>(v: &mut View<'_, N>, id: u16, index: u16) -> Result<(), StepErr>
    requires index { IsEntryPage v.old.geometry index }
    requires id { (1 ≤ id) × (id ≤ 0x7FFE) }
    ensures step { (size : ℕ) (f : File) → Stepped stopped v.old v.new result (refreshing id size index f) }
    ensures few { N.device_writes v.new.nor.now ≤ N.device_writes v.old.nor.now + 6 }
{
    let Some(to) = free_page(v, Kind::Index, 2, None)? else {
        return Err(StepErr::Damaged(missing(id)));
    };
    Ok(refresh_to(v, id, index, to)?)
}

// Makes the tail of a file of that size ready where its bytes past the size are 0xFF.
fn ready_entry<N: Nor>(v: &mut View<'_, N>, id: u16, size: u32) -> Result<(), StepErr>
    requires id { (1 ≤ id) × (id ≤ 0x7FFE) }
    ensures steps { (f : File) → Stepped stopped v.old v.new result (readying_entry id size f) }
    ensures still { (f : File) → N.tells v.old.nor.now → HasReadyTailAt v.old.geometry (N.bytes v.old.nor.now) id size f → OnlyLooks v.old v.new }
    ensures few { N.device_writes v.new.nor.now ≤ N.device_writes v.old.nor.now + 6 }
{
    match stale_index(v, id, size)? {
        None => Ok(()),
        Some(index) => refresh(v, id, index),
    }
}

// Makes it ready where the file ends inside its last data page: that page is replaced.
fn ready_bytes<N: Nor>(v: &mut View<'_, N>, id: u16, size: u32) -> Result<(), StepErr>
    requires id { (1 ≤ id) × (id ≤ 0x7FFE) }
    requires part { 0 < size % body v.old.geometry }
    ensures step { (f : File) → Stepped stopped v.old v.new result (readying_in id size f) }
    ensures few { N.device_writes v.new.nor.now ≤ N.device_writes v.old.nor.now + 12 }
{
    let body = v.geometry.body();
    let span = size / body;
    if span > 0xFFFF {
        return Err(StepErr::Damaged(missing(id)));
    }
    let patch = Patch {
        id,
        span: span as u16,
        from: 0,
        used: size % body,
    };
    replace_page(v, patch, &[])
}

// Makes the tail of a file of that size ready.
fn ready_in<N: Nor>(v: &mut View<'_, N>, id: u16, size: u32) -> Result<(), StepErr>
    requires id { (1 ≤ id) × (id ≤ 0x7FFE) }
    ensures steps { (f : File) → Stepped stopped v.old v.new result (readying_in id size f) }
    ensures still { (f : File) → N.tells v.old.nor.now → HasReadyTailAt v.old.geometry (N.bytes v.old.nor.now) id size f → OnlyLooks v.old v.new }
    ensures few { N.device_writes v.new.nor.now ≤ N.device_writes v.old.nor.now + 12 }
{
    if has_clean_bytes(v, id, size)? {
        ready_entry(v, id, size)
    } else {
        ready_bytes(v, id, size)
    }
}

/// Makes the tail of a file ready for an append, in one page step that leaves the table: its last data page is replaced by a copy with 0xFF
/// past the size, or where those bytes are 0xFF already, the further index page by a copy with 0xFFFF behind the last entry. Where the
/// tail is ready nothing is programmed, else it takes twelve programs at most.
pub fn ready_tail<N: Nor>(v: &mut View<'_, N>, id: u16) -> Result<(), StepErr>
    ensures steps { Stepped stopped v.old v.new result (readying id) }
    ensures still { N.tells v.old.nor.now → HasReadyTail v.old.geometry (N.bytes v.old.nor.now) id → OnlyLooks v.old v.new }
    ensures few { N.device_writes v.new.nor.now ≤ N.device_writes v.old.nor.now + 12 }
{
    let Some(found) = find_home(v, id)? else {
        return Err(StepErr::Damaged(missing(id)));
    };
    ready_in(v, id, found.size)
}

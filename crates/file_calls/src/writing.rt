// Bytes written into a file: one page step for each part, and room made before each.
ghost use Rattle.std.specs.Prelude.{◌≡◌, ◌≢◌, ◌+◌, ◌-◌, ◌%◌, ◌<◌, ◌≤◌, ◌^◌, ℕ, Bool, List, length, None, IfSome};
ghost use Rattle.table_model.specs.Table.{File};
ghost use Rattle.table_model.specs.Room.{data_pages as the_data_pages};
ghost use Rattle.geometry.specs.Numbers.{body};
ghost use Rattle.call_model.specs.Parts.{IsPartEnd};
ghost use Rattle.flash_view.specs.Same.{OnlyLooks};
ghost use Rattle.file_calls.specs.Collecting.{refusing};
ghost use Rattle.file_calls.specs.Cleans.{Taken, Turned, NeedsNoTail, part_count};
ghost use Rattle.file_write.specs.Appends.{index_needed as the_index_needed, append_room as the_append_room};
ghost use Rattle.file_write.specs.Readyings.{HasReadyTail};
ghost use Rattle.renew_laws.specs.Tails.{IsTailReady};
ghost use Rattle.file_calls.specs.Writings.{CanWrite, writing_part, writing, having_tail, needing_tail};

use crate::collecting::take_pages;
use crate::reading::record_of;
use file_read::no_header;
use file_write::{append_room, append_step, is_tail_ready, overwrite_step, ready_tail};
use flash_view::View;
use geometry::Geometry;
use nor_core::{Nor, NorState};
use page_layout::data_pages;
use table_model::FsErr;

// Overwrites bytes of a file inside one data page, once pages are had.
fn overwrite_part<N: Nor>(v: &mut View<'_, N>, id: u16, at: u32, bytes: &[u8]) -> Result<(), FsErr>
    ensures { (known : Bool) (f : File) → at + length bytes.now ≤ length f.bytes →
        Taken refusing 1 1 12 v.old v.new result (writing_part id known at bytes.now f) }
{
    take_pages(v, 1, 1)?;
    overwrite_step(v, id, at, bytes)?;
    Ok(())
}

// How many index pages an append to a file of that size in bytes needs: two where it makes the first data page of a further index page.
fn index_needed(g: &Geometry, size: u32) -> u32
    ensures { result ≡ the_index_needed g.now size }
{
    let span = size / g.body();
    if size % g.body() == 0
        && span >= g.head_slots()
        && (span - g.head_slots()) % g.span_slots() == 0
    {
        2
    } else {
        1
    }
}

// Makes the tail of a file ready for an append, where it isn't ready.
fn have_tail<N: Nor>(v: &mut View<'_, N>, id: u16) -> Result<(), FsErr>
    ensures steps { Turned refusing (λ g was. IsTailReady g was id) 0 v.old v.new result (having_tail id) }
    ensures still { N.tells v.old.nor.now → HasReadyTail v.old.geometry (N.bytes v.old.nor.now) id → OnlyLooks v.old v.new }
{
    if is_tail_ready(v, id)? {
        return Ok(());
    }
    take_pages(v, 1, 1)?;
    ready_tail(v, id)?;
    Ok(())
}

// The same, where it isn't known to be ready.
fn need_tail<N: Nor>(v: &mut View<'_, N>, id: u16, known: bool) -> Result<(), FsErr>
    ensures { Turned refusing (λ g was. IsTailReady g was id) 0 v.old v.new result (needing_tail id known) }
{
    if known {
        return Ok(());
    }
    have_tail(v, id)
}

// Adds bytes at the end of a file of that size in bytes, as many as one page step adds, once its tail is ready and pages are had.
// Whether it is ready may be known.
fn append_part<N: Nor>(
    v: &mut View<'_, N>,
    id: u16,
    known: bool,
    size: u32,
    bytes: &[u8],
) -> Result<(), FsErr>
    requires { length bytes.now ≤ the_append_room v.old.geometry size }
    ensures { (f : File) → size ≡ length f.bytes →
        Turned refusing (NeedsNoTail id (length f.bytes) (size + length bytes.now)) (the_data_pages v.old.geometry (length bytes.now)) v.old v.new result (writing_part id known size bytes.now f) }
{
    let g = v.geometry;
    need_tail(v, id, known)?;
    take_pages(
        v,
        index_needed(&g, size),
        data_pages(&g, bytes.len() as u32),
    )?;
    append_step(v, id, bytes)?;
    Ok(())
}

// Writes one part of a write: inside a file of that size in bytes, or at its end, where its tail may be known to be ready.
fn write_part<N: Nor>(
    v: &mut View<'_, N>,
    id: u16,
    known: bool,
    size: u32,
    at: u32,
    bytes: &[u8],
) -> Result<(), FsErr>
    requires { size ≤ at → length bytes.now ≤ the_append_room v.old.geometry size }
    ensures { (f : File) → size ≡ length f.bytes →
        Turned refusing (NeedsNoTail id (length f.bytes) (at + length bytes.now)) (the_data_pages v.old.geometry (length bytes.now)) v.old v.new result (writing_part id known at bytes.now f) }
{
    if at < size {
        overwrite_part(v, id, at, bytes)
    } else {
        append_part(v, id, known, size, bytes)
    }
}

// How many bytes a part of a write has at most that begins at the place `from`: up to the end of the data page, or behind the old end as many
// as one page step adds.
fn part_room(g: &Geometry, size: u32, from: u32) -> u32
    ensures some { 0 < result }
    ensures page { from < size → result ≡ body g.now - from % body g.now }
    ensures room { size ≤ from → result ≡ the_append_room g.now from }
    ensures ends { (from + result) % body g.now ≡ 0 }
{
    if from < size {
        g.body() - from % g.body()
    } else {
        append_room(g, from)
    }
}

// Where a part of a write ends that begins at the place `from`: at the end of a data page, at the file's old end, or at the write's own.
// Behind the old end it has as many data pages as one page step adds.
fn part_end(g: &Geometry, size: u32, from: u32, end: u32) -> u32
    requires from { from < end }
    ensures behind { from < result }
    ensures within { result ≤ end }
    ensures page { from < size → from % body g.now + (result - from) ≤ body g.now }
    ensures room { size ≤ from → result - from ≤ the_append_room g.now from }
    ensures old { from < size → result ≤ size }
    ensures is { (at len : ℕ) → at ≤ from → end ≡ at + len → IsPartEnd (body g.now) size at len result }
{
    let left = part_room(g, size, from);
    let mut to = if end - from > left { from + left } else { end };
    if from < size && size < to {
        to = size;
    }
    to
}

// Where so many bytes end that begin at a place, in bytes of a file, where a size can tell it.
fn end_of(at: u32, len: usize) -> Option<u32>
    ensures some { IfSome result (λ end. end ≡ at + len) }
    ensures all { at + len < 2 ^ 32 → result ≢ None }
{
    at.checked_add(u32::try_from(len).ok()?)
}

/// Writes bytes into a file of that size in bytes, from a place inside it or at its end, in one page step for each part: where the data pages
/// end, at the old end of the file, and at the end of the write. Where they can be written, a fault of the device is the one error. The tail of the file is
/// ready then for more, where the write ends behind the old end.
pub fn write_sized<N: Nor>(
    v: &mut View<'_, N>,
    id: u16,
    size: u32,
    at: u32,
    bytes: &[u8],
) -> Result<(), FsErr>
    ensures { (f : File) → (N.tells v.old.nor.now → CanWrite v.old.geometry (N.bytes v.old.nor.now) id at bytes.now f → size ≡ length f.bytes) →
        Turned refusing (NeedsNoTail id (length f.bytes) (at + length bytes.now)) (part_count v.old.geometry (length f.bytes) at (length bytes.now))
        v.old v.new result (writing id at bytes.now f) }
{
    let Some(end) = end_of(at, bytes.len()) else {
        return Err(FsErr::Damaged(no_header(id)));
    };
    let mut from = at;
    while from < end {
        let to = part_end(&v.geometry, size, from, end);
        let part = &bytes[(from - at) as usize..(to - at) as usize];
        write_part(v, id, from > size, size.max(from), from, part)?;
        from = to;
    }
    Ok(())
}

/// Writes bytes into a file as `write_sized` does, once its size is looked up.
pub fn write_all<N: Nor>(v: &mut View<'_, N>, id: u16, at: u32, bytes: &[u8]) -> Result<(), FsErr>
    ensures { (f : File) →
        Turned refusing (NeedsNoTail id (length f.bytes) (at + length bytes.now)) (part_count v.old.geometry (length f.bytes) at (length bytes.now))
        v.old v.new result (writing id at bytes.now f) }
{
    let size = record_of(v, id)?.size;
    write_sized(v, id, size, at, bytes)
}

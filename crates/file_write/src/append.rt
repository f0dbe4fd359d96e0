// Bytes added at the end of a file.
ghost use Rattle.std.specs.Prelude.{◌≡◌, ◌≢◌, ◌+◌, ◌-◌, ◌*◌, ◌/◌, ◌%◌, ◌<◌, ◌≤◌, IfSome, None, length};
ghost use Rattle.geometry.specs.Numbers.{body, head_slots, span_slots};
ghost use Rattle.flash_view.specs.Places.{IsEntryPage};
ghost use Rattle.flash_view.specs.Steps.{Stepped, stopped};
ghost use Rattle.table_model.specs.Table.{File};
ghost use Rattle.file_write.specs.Appends.{appending_at, appending, append_most, pages_most, append_room as the_append_room};

use crate::batches::{BATCH, add_pages, append_room};
use crate::create::missing;
use crate::filling::append_inside;
use crate::further::{append_first, append_there, find_slot};
use flash_view::{StepErr, View};
use geometry::Geometry;
use nor_core::{Nor, NorState};
use page_layout::data_pages;
use page_renew::{Edit, Found, find_home, renew_from};

// Adds bytes to a file whose header page has the entries of the new data pages.
pub(crate) fn append_near<N: Nor>(
    v: &mut View<'_, N>,
    id: u16,
    found: Found,
    span: u16,
    end: u32,
    from: &[u8],
) -> Result<(), StepErr>
    requires header { IsEntryPage v.old.geometry found.header }
    requires id { (1 ≤ id) × (id ≤ 0x7FFE) }
    requires some { 0 < length from.now }
    requires fits { length from.now ≤ pages_most v.old.geometry span * body v.old.geometry }
    requires end { (end ≡ found.size + length from.now) × (end < 0xFFFFFFFF) }
    requires whole { found.size % body v.old.geometry ≡ 0 }
    requires span { span ≡ found.size / body v.old.geometry }
    requires near { span < head_slots v.old.geometry }
    ensures step { (f : File) → Stepped stopped v.old v.new result (appending_at id found.header found.size from.now f) }
    ensures few { N.device_writes v.new.nor.now ≤ N.device_writes v.old.nor.now + append_most v.old.geometry (length from.now) }
{
    let mut room = [0u16; BATCH];
    let count = data_pages(&v.geometry, from.len() as u32) as usize;
    let pages = &mut room[..count];
    add_pages(v, id, span, from, pages)?;
    renew_from(v, id, found.header, Edit::GrowBy { size: end, pages })
}

// Adds bytes to a file whose new data page is in a further index page, but not the first of one.
fn append_far<N: Nor>(
    v: &mut View<'_, N>,
    id: u16,
    found: Found,
    span: u16,
    end: u32,
    from: &[u8],
) -> Result<(), StepErr>
    requires header { IsEntryPage v.old.geometry found.header }
    requires id { (1 ≤ id) × (id ≤ 0x7FFE) }
    requires fits { length from.now ≤ body v.old.geometry }
    requires end { (end ≡ found.size + length from.now) × (end < 0xFFFFFFFF) }
    requires whole { found.size % body v.old.geometry ≡ 0 }
    requires span { span ≡ found.size / body v.old.geometry }
    requires far { head_slots v.old.geometry ≤ span }
    requires other { (span - head_slots v.old.geometry) % span_slots v.old.geometry ≢ 0 }
    ensures step { (f : File) → Stepped stopped v.old v.new result (appending_at id found.header found.size from.now f) }
    ensures few { N.device_writes v.new.nor.now ≤ N.device_writes v.old.nor.now + 11 }
{
    let Some(index) = find_slot(v, id, span)? else {
        return Err(StepErr::Damaged(missing(id)));
    };
    append_there(v, id, found, index, span, end, from)
}

// Adds bytes to a file that ends with a data page.
fn append_new<N: Nor>(
    v: &mut View<'_, N>,
    id: u16,
    found: Found,
    end: u32,
    from: &[u8],
) -> Result<(), StepErr>
    requires header { IsEntryPage v.old.geometry found.header }
    requires id { (1 ≤ id) × (id ≤ 0x7FFE) }
    requires some { 0 < length from.now }
    requires fits { length from.now ≤ pages_most v.old.geometry (found.size / body v.old.geometry) * body v.old.geometry }
    requires end { (end ≡ found.size + length from.now) × (end < 0xFFFFFFFF) }
    requires whole { found.size % body v.old.geometry ≡ 0 }
    ensures step { (f : File) → Stepped stopped v.old v.new result (appending_at id found.header found.size from.now f) }
    ensures few { N.device_writes v.new.nor.now ≤ N.device_writes v.old.nor.now + append_most v.old.geometry (length from.now) }
{
    let g = v.geometry;
    let span = found.size / g.body();
    if span > 0xFFFF {
        return Err(StepErr::Damaged(missing(id)));
    }
    if span < g.head_slots() {
        return append_near(v, id, found, span as u16, end, from);
    }
    if (span - g.head_slots()) % g.span_slots() == 0 {
        return append_first(v, id, found, span as u16, end, from);
    }
    append_far(v, id, found, span as u16, end, from)
}

// The size of a file with so many bytes more, where these are some, one page step can add them, and they leave a size that a
// header page can tell.
fn end_of(g: &Geometry, size: u32, more: usize) -> Option<u32>
    ensures some { IfSome result (λ end. (end ≡ size + more) × (end < 0xFFFFFFFF) × (0 < more) × (more ≤ the_append_room g.now size)) }
    ensures all { 0 < more → more ≤ the_append_room g.now size → size + more < 0xFFFFFFFF → result ≢ None }
{
    if more == 0 || more > append_room(g, size) as usize {
        return None;
    }
    let end = u64::from(size) + more as u64;
    if end >= 0xFFFF_FFFF {
        return None;
    }
    Some(end as u32)
}

// Adds bytes to the file whose header page was found.
fn append_found<N: Nor>(
    v: &mut View<'_, N>,
    id: u16,
    found: Found,
    from: &[u8],
) -> Result<(), StepErr>
    requires header { IsEntryPage v.old.geometry found.header }
    requires id { (1 ≤ id) × (id ≤ 0x7FFE) }
    ensures step { (f : File) → Stepped stopped v.old v.new result (appending_at id found.header found.size from.now f) }
    ensures few { N.device_writes v.new.nor.now ≤ N.device_writes v.old.nor.now + append_most v.old.geometry (length from.now) }
{
    let Some(end) = end_of(&v.geometry, found.size, from.len()) else {
        return Err(StepErr::Damaged(missing(id)));
    };
    if found.size % v.geometry.body() == 0 {
        append_new(v, id, found, end, from)
    } else {
        append_inside(v, id, found, end, from)
    }
}

/// Adds bytes at the end of a file in one page step: at a cut they are all there or none is, a reserve that was there is there,
/// and no block is made fresh. The image is to be tidy and the file's tail ready, with the data pages of the bytes to be had, and
/// an index page or, where the new data page is the first of a further index page, two; the bytes are to be some, and no more
/// than `append_room` tells. Where that holds, a fault of the device is the one error. It takes fourteen
/// programs at most, and four more for each data page behind the first.
pub fn append_step<N: Nor>(v: &mut View<'_, N>, id: u16, from: &[u8]) -> Result<(), StepErr>
    ensures step { (f : File) → Stepped stopped v.old v.new result (appending id from.now f) }
    ensures few { N.device_writes v.new.nor.now ≤ N.device_writes v.old.nor.now + append_most v.old.geometry (length from.now) }
{
    let Some(found) = find_home(v, id)? else {
        return Err(StepErr::Damaged(missing(id)));
    };
    append_found(v, id, found, from)
}

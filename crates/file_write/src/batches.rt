// Data pages that an append puts together, before its header page is renewed.
ghost use Rattle.std.specs.Prelude.{◌≡◌, ℕ, ◌+◌, ◌*◌, ◌/◌, ◌<◌, ◌≤◌, length};
ghost use Rattle.geometry.specs.Numbers.{body};
ghost use Rattle.table_model.specs.Room.{data_pages};
ghost use Rattle.table_model.specs.Table.{File};
ghost use Rattle.renew_laws.specs.Append.{page_part as the_page_part};
ghost use Rattle.flash_view.specs.Steps.{Stepped, stopped};
ghost use Rattle.file_write.specs.Appends.{pages_most as the_pages_most, append_room as the_append_room};
ghost use Rattle.file_write.specs.Batches.{laying};

use crate::beside::add_data;
use flash_view::{StepErr, View};
use geometry::Geometry;
use nor_core::{Nor, NorState};

// The most data pages that are put together.
pub(crate) const BATCH: usize = 16;

// How many data pages from a span on are put together at most: the header page has their entries, and one that it doesn't name is put
// alone.
pub(crate) fn pages_most(g: &Geometry, span: u32) -> u32
    ensures { result ≡ the_pages_most g.now span }
{
    if span < g.head_slots() {
        (g.head_slots() - span).min(BATCH as u32)
    } else {
        1
    }
}

/// How many bytes an append to a file of that size adds at most in one page step: up to the end of its last data page, or where it
/// ends with one, the bytes of as many as are put together.
pub fn append_room(g: &Geometry, size: u32) -> u32
    ensures { result ≡ the_append_room g.now size }
{
    let used = size % g.body();
    if used != 0 {
        return g.body() - used;
    }
    pages_most(g, size / g.body()) * g.body()
}

// The bytes of data page i of them.
fn page_part<'a>(g: &Geometry, from: &'a [u8], i: usize) -> &'a [u8]
    requires { i * body g.now < length from.now }
    ensures part { result.now ≡ the_page_part g.now from.now i }
    ensures fits { length result.now ≤ body g.now }
{
    let body = g.body() as usize;
    let rest = &from[i * body..];
    if rest.len() > body {
        &rest[..body]
    } else {
        rest
    }
}

// Puts the data pages of these bytes, from a span on, and tells their numbers.
pub(crate) fn add_pages<N: Nor>(
    v: &mut View<'_, N>,
    id: u16,
    span: u16,
    from: &[u8],
    pages: &mut [u16],
) -> Result<(), StepErr>
    requires id { (1 ≤ id) × (id ≤ 0x7FFE) }
    requires count { length pages.old ≡ data_pages v.old.geometry (length from.now) }
    requires spans { span + length pages.old ≤ 0xFFFF }
    ensures same { v.new.geometry ≡ v.old.geometry }
    ensures size { length pages.new ≡ length pages.old }
    ensures step { (h size : ℕ) (f : File) → size / body v.old.geometry ≡ span →
        Stepped stopped v.old v.new result (laying id h size (length pages.old) pages.new from.now f) }
    ensures few { N.device_writes v.new.nor.now ≤ N.device_writes v.old.nor.now + 4 * length pages.old }
{
    let g = v.geometry;
    for i in 0..pages.len() {
        pages[i] = add_data(v, id, span + i as u16, page_part(&g, from, i))?;
    }
    Ok(())
}

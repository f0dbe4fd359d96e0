// How many pages a table takes, and whether it has room.
ghost use Rattle.std.specs.Prelude.{◌≡◌, ◌+◌, ◌≤◌, ◌<◌, ◌^◌, map, nat_le, IfOk};
ghost use Rattle.geometry.specs.Numbers.{ceil, entries as the_entries};
ghost use Rattle.table_model.specs.Room.{data_pages as the_data_pages, index_pages as the_index_pages, index_count as the_index_count};
ghost use Rattle.table_model.specs.Room.{data_count as the_data_count, has_room as the_room};
ghost use Rattle.plain_table.specs.Seen.{file};

use crate::PlainFile;
use geometry::Geometry;
use std::alloc::AllocError;

// The most bytes of a file, and the most pages, that are counted: beyond any volume's.
const MOST: u64 = 0xFFFF_FFFF;

// A count, where it is one of those that are counted.
pub(crate) fn counted(n: u64) -> Result<u64, AllocError>
    ensures { IfOk result (λ m. (m ≡ n) × (m < 2 ^ 32)) }
{
    if n > MOST { Err(AllocError) } else { Ok(n) }
}

// Data pages of a file of that size in bytes.
fn data_pages(g: &Geometry, size: u64) -> u64
    requires { size ≤ 2 ^ 32 }
    ensures pages { result ≡ the_data_pages g.now size }
    ensures few { result ≤ 2 ^ 33 }
{
    let body = u64::from(g.body());
    (size + body - 1) / body
}

// Index pages of a file of that size in bytes.
fn index_pages(g: &Geometry, size: u64) -> u64
    requires { size ≤ 2 ^ 32 }
    ensures pages { result ≡ the_index_pages g.now size }
    ensures few { result ≤ 2 ^ 35 }
{
    let n = data_pages(g, size);
    let head = u64::from(g.head_slots());
    let span = u64::from(g.span_slots());
    if n > head {
        1 + (n - head + span - 1) / span
    } else {
        1
    }
}

// Index pages of all files.
#[tactic(auto, unfolding(table_model::specs::Room::index_count))]
pub(crate) fn index_count(g: &Geometry, files: &[PlainFile]) -> Result<u64, AllocError>
    ensures count { IfOk result (λ n. n ≡ the_index_count g.now (map file files.now)) }
    ensures few { IfOk result (λ n. n < 2 ^ 32) }
{
    let mut total = 0;
    for f in files.iter() {
        let size = counted(f.bytes.len() as u64)?;
        total = counted(total + index_pages(g, size))?;
    }
    Ok(total)
}

// Data pages of all files.
#[tactic(auto, unfolding(table_model::specs::Room::data_count))]
pub(crate) fn data_count(g: &Geometry, files: &[PlainFile]) -> Result<u64, AllocError>
    ensures count { IfOk result (λ n. n ≡ the_data_count g.now (map file files.now)) }
    ensures few { IfOk result (λ n. n < 2 ^ 32) }
{
    let mut total = 0;
    for f in files.iter() {
        let size = counted(f.bytes.len() as u64)?;
        total = counted(total + data_pages(g, size))?;
    }
    Ok(total)
}

// Whether a table has room.
#[tactic(auto, unfolding(table_model::specs::Room::has_room), using(geometry::proofs::Bounds::entry_left))]
pub(crate) fn has_room(g: &Geometry, files: &[PlainFile]) -> Result<bool, AllocError>
    ensures { IfOk result (λ room. room ≡ the_room g.now (map file files.now)) }
{
    let entries = u64::from(g.entries());
    let index = (index_count(g, files)? + 1 + entries - 1) / entries;
    let data = (data_count(g, files)? + 1 + entries - 1) / entries;
    Ok(index + data + 2 <= u64::from(g.blocks()))
}

// Whether a table has room for one index page more.
#[tactic(auto, using(geometry::proofs::Bounds::entry_left))]
pub(crate) fn has_index_room(g: &Geometry, files: &[PlainFile]) -> Result<bool, AllocError>
    ensures { IfOk result (λ room. room ≡ nat_le (ceil (the_index_count g.now (map file files.now) + 1) (the_entries g.now)
        + ceil (the_data_count g.now (map file files.now)) (the_entries g.now) + 2) g.now.blocks) }
{
    let entries = u64::from(g.entries());
    let index = (index_count(g, files)? + 1 + entries - 1) / entries;
    let data = (data_count(g, files)? + entries - 1) / entries;
    Ok(index + data + 2 <= u64::from(g.blocks()))
}

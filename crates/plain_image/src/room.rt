// How many pages a table takes, and whether it has room.
ghost use Rattle.std.specs.Prelude.{◌≡◌, ℕ, ◌+◌, ◌*◌, ◌<◌, ◌≤◌, ◌^◌, length, map};
ghost use Rattle.table_model.specs.Room.{index_count as the_index_count, data_count as the_data_count, has_room as the_has_room};
ghost use Rattle.plain_image.specs.Seen.{file};

use crate::Record;
use crate::files::data_pages;
use crate::tidy::index_pages;
use geometry::Geometry;

/// How many pages a table takes, and whether it has room.
#[derive(Clone, Copy, Debug, PartialEq, Eq)]
pub struct Room {
    /// Index pages, header pages included.
    pub index_pages: u128,
    /// Data pages.
    pub data_pages: u128,
    /// Whether these and one more of each kind, each kind in blocks of its own, leave two blocks free.
    pub fits: bool,
}

// Index pages of all files.
#[tactic(auto, unfolding(table_model::specs::Room::index_count))]
fn index_count(g: &Geometry, records: &[Record]) -> u128
    ensures value { result ≡ the_index_count g.now (map file records.now) }
    ensures below { result < 2 ^ 96 }
{
    let mut total = 0u128;
    for record in records {
        total += u128::from(index_pages(g, record.bytes.len() as u32));
    }
    total
}

// Data pages of all files.
#[tactic(auto, unfolding(table_model::specs::Room::data_count))]
fn data_count(g: &Geometry, records: &[Record]) -> u128
    ensures value { result ≡ the_data_count g.now (map file records.now) }
    ensures below { result < 2 ^ 96 }
{
    let mut total = 0u128;
    for record in records {
        total += u128::from(data_pages(g, record.bytes.len() as u32));
    }
    total
}

/// How many pages of each kind the files of a table take, and whether the table has room.
#[tactic(auto, unfolding(table_model::specs::Room::has_room), using(geometry::proofs::Bounds::entry_left))]
pub fn room_of(g: &Geometry, records: &[Record]) -> Room
    ensures index { result.index_pages ≡ the_index_count g.now (map file records.now) }
    ensures pages { result.data_pages ≡ the_data_count g.now (map file records.now) }
    ensures fits { result.fits ≡ the_has_room g.now (map file records.now) }
{
    let index_pages = index_count(g, records);
    let data_pages = data_count(g, records);
    let entries = u128::from(g.entries());
    let blocks = (index_pages + entries) / entries + (data_pages + entries) / entries + 2;
    Room {
        index_pages,
        data_pages,
        fits: blocks <= u128::from(g.blocks),
    }
}

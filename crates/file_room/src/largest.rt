ghost use Rattle.std.specs.Prelude.{◌≡◌, ◌+◌, ◌^◌, ◌<◌, ◌≤◌};
ghost use Rattle.geometry.specs.Numbers.{ceil, entries};
ghost use Rattle.table_model.specs.Calls.{info_of};
ghost use Rattle.table_model.specs.Table.{State};
ghost use Rattle.file_room.specs.Fitting.{has_room_for, IsLargest};

use geometry::Geometry;
use page_layout::{data_pages, index_pages};
use table_model::Info;

// Blocks that so many pages and one more take, each block for pages of that kind alone.
#[tactic(auto, using(geometry::proofs::Bounds::entry_left))]
fn blocks_for(g: &Geometry, pages: u64) -> u64
    requires { pages < 2 ^ 34 }
    ensures blocks { result ≡ ceil (pages + 1) (entries g.now) }
    ensures few { result ≤ pages + 1 }
{
    let entries = u64::from(g.entries());
    (pages + entries) / entries
}

// Whether there is room for a new file of so many bytes: its pages, those of all files and one more of each kind leave two blocks free.
fn is_room_for(g: &Geometry, info: &Info, size: u32) -> bool
    ensures { result ≡ has_room_for g.now info.now.index_pages info.now.data_pages size }
{
    let index = u64::from(info.index_pages) + u64::from(index_pages(g, size));
    let data = u64::from(info.data_pages) + u64::from(data_pages(g, size));
    blocks_for(g, index) + blocks_for(g, data) + 2 <= u64::from(g.blocks())
}

/// Bytes of the largest new file that a volume has room for, by how full it is; None if there is no room for an empty one. The volume
/// has two free blocks, as a checked one has before each call. Made by an opening and written at once or piece by piece, a file of up
/// to so many bytes isn't refused, and one of more bytes is refused as Full. It needs a name that no file has, and a closed descriptor.
pub fn largest_file(g: &Geometry, info: &Info) -> Option<u32>
    ensures largest { (s : State) → info_of g.now s.table ≡ info.now → IsLargest g.now s result }
{
    if !is_room_for(g, info, 0) {
        return None;
    }
    let mut fits = 0;
    let mut over = g.usable() * g.body();
    while over - fits > 1 {
        let middle = fits + (over - fits) / 2;
        if is_room_for(g, info, middle) {
            fits = middle;
        } else {
            over = middle;
        }
    }
    Some(fits)
}

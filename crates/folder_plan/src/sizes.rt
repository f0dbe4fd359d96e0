ghost use Rattle.std.specs.Prelude.{◌≡◌, ◌+◌, ◌*◌, ◌^◌, ◌<◌, ◌≤◌, length, IfOk, OnErr};
ghost use Rattle.geometry.specs.Numbers.{ceil};
ghost use Rattle.nor_core.specs.Count.{Rose};
ghost use Rattle.table_model.specs.Room.{data_pages as the_data_pages, index_pages as the_index_pages};
ghost use Rattle.folder_core.specs.Files.{size_at};
ghost use Rattle.folder_core.specs.Puts.{Kept};
ghost use Rattle.folder_plan.specs.Refusals.{index_sum, data_sum, leaves_two};

use folder_core::{Folder, FolderState};
use geometry::Geometry;
use nor_core::Failed;

/// Pages of files.
#[derive(Clone, Copy, Debug, PartialEq, Eq)]
pub(crate) struct Pages {
    /// Index pages.
    pub(crate) index_pages: u128,
    /// Data pages.
    pub(crate) data_pages: u128,
}

// a / b, rounded up.
fn div_up(a: u128, b: u128) -> u128
    requires some { 0 < b }
    requires small { a + b < 2 ^ 128 }
    ensures { result ≡ ceil a b }
{
    (a + b - 1) / b
}

// The pages of a file of that size.
fn pages_of(g: &Geometry, size: u64) -> Pages
    ensures data_pages { result.data_pages ≡ the_data_pages g.now size }
    ensures index_pages { result.index_pages ≡ the_index_pages g.now size }
    ensures few_data { result.data_pages ≤ 2 ^ 64 }
    ensures few_index { result.index_pages ≤ 2 ^ 65 }
{
    let data_pages = div_up(u128::from(size), u128::from(g.page) - 5);
    let head = (u128::from(g.page) - 45 - u128::from(g.meta)) / 2;
    let index_pages = if data_pages > head {
        1 + div_up(data_pages - head, (u128::from(g.page) - 8) / 2)
    } else {
        1
    };
    Pages {
        index_pages,
        data_pages,
    }
}

/// The pages of all files of a folder.
pub(crate) fn all_pages<F: Folder>(
    g: &Geometry,
    folder: &mut F,
    count: u32,
) -> Result<Pages, Failed>
    requires count { count ≡ length (F.entries folder.old) }
    ensures index_pages { IfOk result (λ pages. pages.index_pages ≡ index_sum g.now (F.entries folder.old)) }
    ensures data_pages { IfOk result (λ pages. pages.data_pages ≡ data_sum g.now (F.entries folder.old)) }
    ensures few_index { IfOk result (λ pages. pages.index_pages ≤ 2 ^ 97) }
    ensures few_data { IfOk result (λ pages. pages.data_pages ≤ 2 ^ 97) }
    ensures cause { OnErr result (Rose (F.faults folder.old) (F.faults folder.new)) }
    ensures kept { Kept F.FolderState folder.old folder.new }
{
    let mut all = Pages {
        index_pages: 0,
        data_pages: 0,
    };
    for i in 0..count {
        let pages = pages_of(g, folder.size(i)?);
        all.index_pages += pages.index_pages;
        all.data_pages += pages.data_pages;
    }
    Ok(all)
}

/// Whether so many pages and one more of each kind, each kind in blocks of its own, leave two blocks free.
#[tactic(auto, using(geometry::proofs::Bounds::entry_left))]
pub(crate) fn have_room(g: &Geometry, pages: Pages) -> bool
    requires few_index { pages.index_pages ≤ 2 ^ 97 }
    requires few_data { pages.data_pages ≤ 2 ^ 97 }
    ensures { result ≡ leaves_two g.now pages.index_pages pages.data_pages }
{
    let entries = u128::from(g.entries());
    let for_index = div_up(pages.index_pages + 1, entries);
    let for_data = div_up(pages.data_pages + 1, entries);
    for_index + for_data + 2 <= u128::from(g.blocks)
}

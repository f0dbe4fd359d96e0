ghost use Rattle.std.specs.Prelude.{◌≡◌, ◌≢◌, ◌<◌, ◌≤◌, ℕ, length, slice_index, IfOk};
ghost use Rattle.geometry.specs.Numbers.{page_count};
ghost use Rattle.flash_view.specs.Places.{IsEntryPage};
ghost use Rattle.vol_check.specs.Works.{Worked, culling_unmarked, culling_rest};

use crate::culling::cull;
use crate::marking::mark_wanted;
use file_find::next_with;
use flash_view::View;
use geometry::Geometry;
use nor_core::{Failed, Nor, NorState};
use page_layout::FREE;

// Kills a live page with this mark, if it has none: whether it was killed.
fn cull_unmarked<N: Nor>(v: &mut View<'_, N>, mark: u8, page: u16) -> Result<bool, Failed>
    requires { IsEntryPage v.old.geometry page }
    ensures { Worked v.old v.new result (culling_unmarked page mark) }
{
    if mark != 0 {
        return Ok(false);
    }
    cull(v, page)?;
    Ok(true)
}

// The first page behind one that has no mark, or the number of pages.
fn next_unmarked(g: &Geometry, marks: &[u8], page: u16) -> u32
    requires page { page < page_count g.now }
    requires room { page_count g.now ≤ length marks.now }
    ensures low { page < result }
    ensures high { result ≤ page_count g.now }
    ensures passed { (q : ℕ) → page < q → q < result → slice_index marks.now q ≢ 0 }
{
    let pages = g.pages();
    match next_with(marks, 0, page + 1, pages as u16) {
        Some(found) => u32::from(found),
        None => pages,
    }
}

/// Kills each live page that no file of the table needs, in page order: how many were killed. No page may be doubled and
/// nothing damaged. The marks are bytes for notes, one for each page of the volume at least. Of pages in a row
/// that have marks the first alone is looked at.
pub(crate) fn cull_rest<N: Nor>(v: &mut View<'_, N>, marks: &mut [u8]) -> Result<u32, Failed>
    requires room { page_count v.old.geometry ≤ length marks.old }
    ensures most { IfOk result (λ killed. killed ≤ 65535) }
    ensures work { Worked v.old v.new result culling_rest }
{
    mark_wanted(v, marks)?;
    let mut killed = 0;
    let mut at = 0;
    'pages: while let Some((page, _)) = v.next_live(at, 1, FREE - 1)? {
        killed += u32::from(cull_unmarked(v, marks[usize::from(page)], page)?);
        at = next_unmarked(&v.geometry, marks, page);
    }
    Ok(killed)
}

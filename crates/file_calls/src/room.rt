ghost use Rattle.std.specs.Prelude.{◌≡◌, ◌+◌, ◌<◌, ◌≤◌, ◌^◌, List, ℕ, nat_le, OnOk, OnErr, IfOk, IfErr, IfSome, IsErrOf, Ok, None, Some};
ghost use Rattle.std.specs.Option.{option_map};
ghost use Rattle.geometry.specs.Numbers.{ceil, entries, page_count};
ghost use Rattle.nor_core.specs.Count.{Rose};
ghost use Rattle.flash_view.specs.Same.{OnlyLooks};
ghost use Rattle.image_model.specs.Tables.{table_of};
ghost use Rattle.image_model.specs.Tidy.{IsTidy, has_spare};
ghost use Rattle.file_calls.specs.Refusals.{has_room_beside, HasRoomAfter, IsResized};
ghost use Rattle.file_calls.specs.Replies.{MeetsPage};
ghost use Rattle.table_model.specs.Table.{File, put_file};
ghost use Rattle.table_model.specs.Room.{has_room as the_room};
ghost use Rattle.table_model.specs.Outcome.{page_refusal};
ghost use Rattle.file_calls.specs.Pages.{with_page as the_page, AreLive, AreSums};

use crate::live_pages::{LivePages, live_pages};
use flash_view::View;
use geometry::Geometry;
use image_laws::counting::tidy_counts;
use nor_core::{Failed, Nor, NorState};
use page_layout::{PageHeader, data_pages, index_pages};
use table_model::FsErr;

/// How many pages of each sort are live.
#[derive(Clone, Copy, Debug, PartialEq, Eq)]
pub struct PageCounts {
    /// Header pages: index pages of span 0.
    pub heads: u32,
    /// Index pages.
    pub index_pages: u32,
    /// Data pages.
    pub data_pages: u32,
}

// The counts with a page more, where it is live.
fn with_page(counts: PageCounts, head: Option<PageHeader>) -> PageCounts
    requires heads { counts.heads ≤ 65535 }
    requires index { counts.index_pages ≤ 65535 }
    requires pages { counts.data_pages ≤ 65535 }
    ensures { result ≡ the_page counts head }
{
    let PageCounts {
        heads,
        index_pages,
        data_pages,
    } = counts;
    match head {
        None => counts,
        Some(head) if !head.is_index() => PageCounts {
            heads,
            index_pages,
            data_pages: data_pages + 1,
        },
        Some(head) => PageCounts {
            heads: if head.span == 0 { heads + 1 } else { heads },
            index_pages: index_pages + 1,
            data_pages,
        },
    }
}

// The counts of live pages.
pub(crate) fn page_counts<N: Nor>(v: &mut View<'_, N>) -> Result<PageCounts, Failed>
    ensures cause { OnErr result (Rose (N.faults v.old.nor.now) (N.faults v.new.nor.now)) }
    ensures looks { OnlyLooks v.old v.new }
    ensures few { IfOk result (λ c. (c.heads ≤ 65535) × (c.index_pages ≤ 65535) × (c.data_pages ≤ 65535)) }
    ensures told { N.tells v.old.nor.now → IfOk result (λ c. AreLive v.old.geometry (N.bytes v.old.nor.now) c) }
{
    let mut counts = PageCounts {
        heads: 0,
        index_pages: 0,
        data_pages: 0,
    };
    for page in 0..v.geometry.pages() as u16 {
        let head = v.live_header(page)?;
        counts = with_page(counts, head);
    }
    Ok(counts)
}

// Whether that many index pages and data pages, and one more of each, leave two blocks free.
#[tactic(auto, using(geometry::proofs::Bounds::entry_left))]
fn leaves_two(g: &Geometry, index_pages: u32, data_pages: u32) -> bool
    requires index { index_pages < 2 ^ 28 }
    requires data_pages { data_pages < 2 ^ 28 }
    ensures { result ≡ nat_le (ceil (index_pages + 1) (entries g.now) + ceil (data_pages + 1) (entries g.now) + 2) g.now.blocks }
{
    let entries = g.entries();
    (index_pages + entries) / entries + (data_pages + entries) / entries + 2 <= g.blocks()
}

// Whether the table has room once a file of a size in bytes has another one, by the sums of the blocks' counts.
fn has_room_for<N: Nor>(v: &View<'_, N>, live: &LivePages, from: u32, to: u32) -> bool
    requires index { live.now.index_pages ≤ 65535 }
    requires pages { live.now.data_pages ≤ 65535 }
    ensures { N.tells v.now.nor.now → IsTidy v.now.geometry (N.bytes v.now.nor.now) → AreSums v.now.geometry (N.bytes v.now.nor.now) live.now →
        (f new : File) → IsResized (table_of v.now.geometry (N.bytes v.now.nor.now)) from to f new →
        result ≡ the_room v.now.geometry (put_file new (table_of v.now.geometry (N.bytes v.now.nor.now))) }
{
    tidy_counts();
    let g = v.geometry;
    leaves_two(
        &g,
        (live.index_pages + index_pages(&g, to)).saturating_sub(index_pages(&g, from)),
        (live.data_pages + data_pages(&g, to)).saturating_sub(data_pages(&g, from)),
    )
}

// Why the pages are not had for a file of a size in bytes that gets another one, or nothing.
#[tactic(auto, using(flash_view::proofs::Looking::looks_then), unfolding(table_model::specs::Outcome::page_refusal))]
fn obstacle_for<N: Nor>(v: &mut View<'_, N>, from: u32, to: u64) -> Result<Option<FsErr>, Failed>
    ensures cause { OnErr result (Rose (N.faults v.old.nor.now) (N.faults v.new.nor.now)) }
    ensures looks { OnlyLooks v.old v.new }
    ensures no_fault { ¬ (result ≡ Ok (Some FsErr.DeviceFault)) }
    ensures among { IfOk result (λ found. IfSome found MeetsPage) }
    ensures small { result ≡ Ok None → to < 0xFFFFFFFF }
    ensures told { N.tells v.old.nor.now → IsTidy v.old.geometry (N.bytes v.old.nor.now) →
        (f new : File) → IsResized (table_of v.old.geometry (N.bytes v.old.nor.now)) from to f new → IfOk result (λ why. why
        ≡ page_refusal v.old.geometry (has_spare v.old.geometry (N.bytes v.old.nor.now)) (put_file new (table_of v.old.geometry (N.bytes v.old.nor.now)))) }
{
    let live = live_pages(v)?;
    if live.free_blocks < 2 {
        return Ok(Some(FsErr::Tight));
    }
    if to >= 0xFFFF_FFFF || !has_room_for(v, &live, from, to as u32) {
        return Ok(Some(FsErr::Full));
    }
    Ok(None)
}

/// Refuses a call that gives a file of a size in bytes another one, where garbage collection gives no pages for it: `Tight` where
/// fewer than two blocks are free, else `Full` where the table after it has no room.
pub fn have_room<N: Nor>(v: &mut View<'_, N>, from: u32, to: u64) -> Result<(), FsErr>
    ensures cause { IsErrOf result FsErr.DeviceFault → Rose (N.faults v.old.nor.now) (N.faults v.new.nor.now) }
    ensures looks { OnlyLooks v.old v.new }
    ensures among { IfErr result MeetsPage }
    ensures small { OnOk result (to < 0xFFFFFFFF) }
    ensures told { N.tells v.old.nor.now → IsTidy v.old.geometry (N.bytes v.old.nor.now) →
        (f new : File) → IsResized (table_of v.old.geometry (N.bytes v.old.nor.now)) from to f new →
        HasRoomAfter v.old.geometry (N.bytes v.old.nor.now) (put_file new (table_of v.old.geometry (N.bytes v.old.nor.now))) result }
{
    match obstacle_for(v, from, to)? {
        Some(why) => Err(why),
        None => Ok(()),
    }
}

// Whether the table has room with so many index pages more, by the sums of the blocks' counts.
#[tactic(auto, unfolding(crate::specs::Refusals::has_room_beside))]
pub(crate) fn has_room<N: Nor>(v: &View<'_, N>, live: &LivePages, more: u32) -> bool
    requires more { more ≤ 1 }
    requires index { live.now.index_pages ≤ 65535 }
    requires pages { live.now.data_pages ≤ 65535 }
    ensures { N.tells v.now.nor.now → IsTidy v.now.geometry (N.bytes v.now.nor.now) → AreSums v.now.geometry (N.bytes v.now.nor.now) live.now →
        result ≡ has_room_beside v.now.geometry (table_of v.now.geometry (N.bytes v.now.nor.now)) more }
{
    tidy_counts();
    leaves_two(&v.geometry, live.index_pages + more, live.data_pages)
}

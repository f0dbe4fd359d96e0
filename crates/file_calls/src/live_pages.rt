//! How many pages are live and how many blocks are free, by the counts of blocks.
ghost use Rattle.std.specs.Prelude.{◌≡◌, ◌+◌, ◌<◌, ◌≤◌, ◌==◌, OnErr, IfOk, if◌then◌else◌};
ghost use Rattle.nor_core.specs.Count.{Rose};
ghost use Rattle.flash_view.specs.Same.{OnlyLooks};
ghost use Rattle.image_model.specs.Tidy.{IsTidy};
ghost use Rattle.file_calls.specs.Pages.{AreSums};

use flash_view::{BlockCounts, View};
use free_search::{counts, sums};
use nor_core::{Failed, Nor, NorState};

// How many index pages and data pages are live, and how many blocks are free.
#[derive(Clone, Copy)]
pub(crate) struct LivePages {
    pub(crate) index_pages: u32,
    pub(crate) data_pages: u32,
    pub(crate) free_blocks: u32,
}

// The sum, at most 65,535: a volume has no more pages.
fn sum_of(pages: u32, more: u16) -> u32
    requires { pages ≤ 65535 }
    ensures few { result ≤ 65535 }
    ensures sum { pages + more ≤ 65535 → result ≡ pages + more }
{
    (pages + u32::from(more)).min(65535)
}

// The sums with a block of so many entries more.
fn with_block(live: LivePages, counts: &BlockCounts, entries: u32) -> LivePages
    requires index { live.index_pages ≤ 65535 }
    requires pages { live.data_pages ≤ 65535 }
    requires free { live.free_blocks < 65535 }
    ensures few_index { result.index_pages ≤ 65535 }
    ensures few_pages { result.data_pages ≤ 65535 }
    ensures index { live.index_pages + counts.now.index_live ≤ 65535 → result.index_pages ≡ live.index_pages + counts.now.index_live }
    ensures pages { live.data_pages + counts.now.data_live ≤ 65535 → result.data_pages ≡ live.data_pages + counts.now.data_live }
    ensures free { result.free_blocks ≡ live.free_blocks + (if counts.now.free == entries then 1 else 0) }
{
    LivePages {
        index_pages: sum_of(live.index_pages, counts.index_live),
        data_pages: sum_of(live.data_pages, counts.data_live),
        free_blocks: live.free_blocks + u32::from(u32::from(counts.free) == entries),
    }
}

/// How many index pages and data pages are live, and how many blocks are free: by the sums that are kept, where the table of
/// counts stands, else in one pass over the blocks.
pub(crate) fn live_pages<N: Nor>(v: &mut View<'_, N>) -> Result<LivePages, Failed>
    ensures cause { OnErr result (Rose (N.faults v.old.nor.now) (N.faults v.new.nor.now)) }
    ensures looks { OnlyLooks v.old v.new }
    ensures few { IfOk result (λ live. (live.index_pages ≤ 65535) × (live.data_pages ≤ 65535)) }
    ensures told { N.tells v.old.nor.now → IsTidy v.old.geometry (N.bytes v.old.nor.now) → IfOk result (AreSums v.old.geometry (N.bytes v.old.nor.now)) }
{
    if let Some(sums) = sums(v) {
        return Ok(LivePages {
            index_pages: u32::from(sums.index_live),
            data_pages: u32::from(sums.data_live),
            free_blocks: u32::from(sums.blocks),
        });
    }
    let entries = v.geometry.entries();
    let mut live = LivePages {
        index_pages: 0,
        data_pages: 0,
        free_blocks: 0,
    };
    for block in 0..v.geometry.blocks() as u16 {
        let counts = counts(v, block)?;
        live = with_block(live, &counts, entries);
    }
    Ok(live)
}

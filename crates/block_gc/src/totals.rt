// The room of a block, and that of all blocks together.
ghost use Rattle.std.specs.Prelude.{◌≡◌, OnErr, IfOk, if◌then◌else◌};
ghost use Rattle.image_model.specs.Tidy.{IsTidy};
ghost use Rattle.nor_core.specs.Count.{Rose};
ghost use Rattle.flash_view.specs.Same.{OnlyLooks};
ghost use Rattle.free_search.specs.ByRows.{IsByRows};
ghost use Rattle.block_gc.specs.Totals.{room_by, both as the_both, AtMost, AreTotals};

use flash_view::{BlockCounts, View};
use free_search::{counts, sums};
use nor_core::{Failed, Nor, NorState};

// Free entries by what they are for, and free blocks.
#[derive(Clone, Copy)]
pub(crate) struct Room {
    // Those for index pages, in blocks in use without live data pages.
    pub(crate) index: u32,
    // Those for data pages, in blocks that hold live data pages alone.
    pub(crate) pages: u32,
    // Those in blocks that hold live index pages alone.
    pub(crate) beside: u32,
    // The free blocks.
    pub(crate) blocks: u32,
}

// The free entries of a block, where it passes.
fn free_if(passes: bool, c: &BlockCounts) -> u32
    ensures { result ≡ (if passes then c.now.free else 0) }
{
    if passes { u32::from(c.free) } else { 0 }
}

// The room of a block by its counts.
pub(crate) fn room_of(c: &BlockCounts, entries: u32) -> Room
    ensures value { result ≡ room_by c.now entries }
    ensures small { AtMost 65535 result }
{
    let free = u32::from(c.free) == entries;
    Room {
        index: free_if(c.data_live == 0 && !free, c),
        pages: free_if(c.data_live > 0 && c.index_live == 0, c),
        beside: free_if(c.index_live > 0 && c.data_live == 0, c),
        blocks: u32::from(free),
    }
}

// The room of two together.
fn both(a: &Room, b: &Room) -> Room
    requires first { AtMost 4294836225 a.now }
    requires second { AtMost 65535 b.now }
    ensures { result ≡ the_both a.now b.now }
{
    Room {
        index: a.index + b.index,
        pages: a.pages + b.pages,
        beside: a.beside + b.beside,
        blocks: a.blocks + b.blocks,
    }
}

// The room of all blocks together: where the table of counts stands it is kept.
#[tactic(auto, using(flash_view::proofs::Looking::looks_then))]
pub(crate) fn totals<N: Nor>(v: &mut View<'_, N>) -> Result<Room, Failed>
    ensures cause { OnErr result (Rose (N.faults v.old.nor.now) (N.faults v.new.nor.now)) }
    ensures looks { OnlyLooks v.old v.new }
    ensures quick { IsByRows v.old v.new result }
    ensures told { N.tells v.old.nor.now → IsTidy v.old.geometry (N.bytes v.old.nor.now) →
        IfOk result (λ all. AreTotals v.old.geometry (N.bytes v.old.nor.now) all) }
{
    if let Some(sums) = sums(v) {
        return Ok(Room {
            index: u32::from(sums.for_index),
            pages: u32::from(sums.for_data),
            beside: u32::from(sums.beside),
            blocks: u32::from(sums.blocks),
        });
    }
    let entries = v.geometry.entries();
    let mut all = Room {
        index: 0,
        pages: 0,
        beside: 0,
        blocks: 0,
    };
    for block in 0..v.geometry.blocks() as u16 {
        let own = room_of(&counts(v, block)?, entries);
        all = both(&all, &own);
    }
    Ok(all)
}

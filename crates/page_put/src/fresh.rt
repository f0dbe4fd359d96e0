ghost use Rattle.std.specs.Prelude.{◌≡◌, ◌≢◌, ◌+◌, ◌*◌, ◌/◌, ◌<◌, ◌≤◌, ◌⊎◌, length, OnErr, OnOk, Some, None, true};
ghost use Rattle.std.specs.Option.{ForSome};
ghost use Rattle.nor_core.specs.Count.{Rose};
ghost use Rattle.nor_core.specs.Flash.{erased};
ghost use Rattle.nor_core.specs.Device.{Changes};
ghost use Rattle.image_laws.specs.Blocks.{magic_mark};
ghost use Rattle.flash_view.specs.Same.{IsSameView};
ghost use Rattle.page_put.specs.Fresh.{Freshens, IsFresh, UnitCut, InErasing, MarkCut, FreshCut, blank, with_magic};
ghost use Rattle.page_put.specs.Recount.{StandsAgain};

use crate::rows::count_fresh;
use flash_view::View;
use geometry::Geometry;
use nor_core::{Failed, Mark, Nor, NorState};
use page_layout::{count_offset, magic_offset};

// The mark of a unit's erase: the magic of the block in its first unit.
#[tactic(auto, using(geometry::proofs::Bounds::lookups_fit))]
fn unit_mark(g: &Geometry, block: u16, i: u32) -> Option<Mark>
    requires { block < g.now.blocks }
    ensures first { i ≡ 0 → result ≡ Some (magic_mark g.now block) }
    ensures later { i ≢ 0 → result ≡ None }
    ensures inside { ForSome result (λ m. m.at + 2 ≤ g.now.phys) }
{
    if i > 0 {
        return None;
    }
    Some(Mark {
        at: magic_offset(g),
        word: g.magic_of(u32::from(block)),
    })
}

// Erases unit `i` of a block.
fn erase_unit<N: Nor>(v: &mut View<'_, N>, block: u16, i: u32) -> Result<(), Failed>
    requires block { block < v.old.geometry.blocks }
    requires unit { i < v.old.geometry.block / v.old.geometry.phys }
    ensures cause { OnErr result (Rose (N.faults v.old.nor.now) (N.faults v.new.nor.now)) }
    ensures changes { Changes N.NorState v.old.nor.now v.new.nor.now (UnitCut v.old.geometry block i) }
    ensures done { N.tells v.old.nor.now →
        OnOk result (N.bytes v.new.nor.now ≡ erased (N.bytes v.old.nor.now) (block * v.old.geometry.block + i * v.old.geometry.phys) v.old.geometry.phys) }
    ensures same { IsSameView v.old v.new }
    ensures wrote { v.new.wrote ≡ true }
    ensures rows { v.new.rows.now ≡ v.old.rows.now }
    ensures few { N.device_writes v.new.nor.now ≤ N.device_writes v.old.nor.now + 1 }
{
    let g = v.geometry;
    let units = g.block() / g.phys();
    v.erase(u32::from(block) * units + i, unit_mark(&g, block, i))
}

// Erases the units of a block from the first upwards.
#[tactic(auto, using(flash_view::proofs::Looking::same_then, flash_view::proofs::Looking::same_none))]
fn erase_block<N: Nor>(v: &mut View<'_, N>, block: u16) -> Result<(), Failed>
    requires block { block < v.old.geometry.blocks }
    ensures cause { OnErr result (Rose (N.faults v.old.nor.now) (N.faults v.new.nor.now)) }
    ensures changes { Changes N.NorState v.old.nor.now v.new.nor.now (InErasing v.old.geometry block) }
    ensures done { N.tells v.old.nor.now → OnOk result (N.bytes v.new.nor.now ≡ blank v.old.geometry block (N.bytes v.old.nor.now)) }
    ensures same { IsSameView v.old v.new }
    ensures wrote { v.new.wrote ≡ true }
    ensures rows { v.new.rows.now ≡ v.old.rows.now }
    ensures few { N.device_writes v.new.nor.now ≤ N.device_writes v.old.nor.now + v.old.geometry.block / v.old.geometry.phys }
{
    let units = v.geometry.block() / v.geometry.phys();
    for i in 0..units {
        erase_unit(v, block, i)?;
    }
    Ok(())
}

// Programs the erase count of a block, then its magic.
#[tactic(auto, using(flash_view::proofs::Looking::same_then, flash_view::proofs::Inside::lookups_inside, geometry::proofs::Bounds::block_inside, geometry::proofs::Bounds::volume_small))]
fn mark_block<N: Nor>(v: &mut View<'_, N>, block: u16, count: u16) -> Result<(), Failed>
    requires { block < v.old.geometry.blocks }
    ensures cause { OnErr result (Rose (N.faults v.old.nor.now) (N.faults v.new.nor.now)) }
    ensures changes { Changes N.NorState v.old.nor.now v.new.nor.now (MarkCut v.old.geometry block count) }
    ensures done { N.tells v.old.nor.now → OnOk result (N.bytes v.new.nor.now ≡ with_magic v.old.geometry block count (N.bytes v.old.nor.now)) }
    ensures same { IsSameView v.old v.new }
    ensures wrote { v.new.wrote ≡ true }
    ensures rows { v.new.rows.now ≡ v.old.rows.now }
    ensures few { N.device_writes v.new.nor.now ≤ N.device_writes v.old.nor.now + 2 }
{
    let g = v.geometry;
    let start = u32::from(block) * g.block();
    let magic = g.magic_of(u32::from(block));
    v.program(start + count_offset(&g), &count.to_le_bytes())?;
    v.program(start + magic_offset(&g), &magic.to_le_bytes())
}

// The erases and programs of a block that is made fresh.
#[tactic(auto, using(flash_view::proofs::Looking::same_then))]
fn program_fresh<N: Nor>(v: &mut View<'_, N>, block: u16, count: u16) -> Result<(), Failed>
    requires block { block < v.old.geometry.blocks }
    requires count { count ≤ 0x7FFF }
    ensures cause { OnErr result (Rose (N.faults v.old.nor.now) (N.faults v.new.nor.now)) }
    ensures same { IsSameView v.old v.new }
    ensures wrote { v.new.wrote ≡ true }
    ensures rows { v.new.rows.now ≡ v.old.rows.now }
    ensures changes { Changes N.NorState v.old.nor.now v.new.nor.now (Freshens v.old.geometry block count) }
    ensures order { Changes N.NorState v.old.nor.now v.new.nor.now (FreshCut v.old.geometry block count) }
    ensures bytes { N.tells v.old.nor.now →
        OnOk result (N.bytes v.new.nor.now ≡ with_magic v.old.geometry block count (blank v.old.geometry block (N.bytes v.old.nor.now))) }
    ensures done { N.tells v.old.nor.now → OnOk result (IsFresh v.old.geometry block count (N.bytes v.old.nor.now) (N.bytes v.new.nor.now)) }
    ensures few { N.device_writes v.new.nor.now ≤ N.device_writes v.old.nor.now + v.old.geometry.block / v.old.geometry.phys + 2 }
{
    erase_block(v, block)?;
    mark_block(v, block, count)
}

/// Makes a block fresh: erases its units from the first upwards, the first with the block's magic as its mark, then
/// programs the erase count, then the magic: an erase for each unit, and two programs. A cut leaves the block as it was, or
/// without any live page: it lacks its magic or is free, and where a bit of the magic may be cleared the whole erase count
/// stands.
#[tactic(auto, using(flash_view::proofs::Looking::same_then))]
pub fn fresh_block<N: Nor>(v: &mut View<'_, N>, block: u16, count: u16) -> Result<(), Failed>
    requires block { block < v.old.geometry.blocks }
    requires count { count ≤ 0x7FFF }
    ensures cause { OnErr result (Rose (N.faults v.old.nor.now) (N.faults v.new.nor.now)) }
    ensures same { IsSameView v.old v.new }
    ensures wrote { v.new.wrote ≡ true }
    ensures changes { Changes N.NorState v.old.nor.now v.new.nor.now (Freshens v.old.geometry block count) }
    ensures order { Changes N.NorState v.old.nor.now v.new.nor.now (FreshCut v.old.geometry block count) }
    ensures bytes { N.tells v.old.nor.now →
        OnOk result (N.bytes v.new.nor.now ≡ with_magic v.old.geometry block count (blank v.old.geometry block (N.bytes v.old.nor.now))) }
    ensures done { N.tells v.old.nor.now → OnOk result (IsFresh v.old.geometry block count (N.bytes v.old.nor.now) (N.bytes v.new.nor.now)) }
    ensures counted { StandsAgain v.old v.new result }
    ensures few { N.device_writes v.new.nor.now ≤ N.device_writes v.old.nor.now + v.old.geometry.block / v.old.geometry.phys + 2 }
{
    let stood = v.counted;
    program_fresh(v, block, count)?;
    count_fresh(v, block, count, stood);
    Ok(())
}

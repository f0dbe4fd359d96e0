ghost use Rattle.std.specs.Prelude.{◌≡◌, ◌+◌, ◌*◌, ◌/◌, ◌<◌, ◌≤◌, OnOk, OnErr, IfErr, Some, None, Err, true, false};
ghost use Rattle.std.specs.Option.{IfSome};
ghost use Rattle.geometry.specs.Numbers.{write_refusal};
ghost use Rattle.nor_core.specs.Count.{Rose};
ghost use Rattle.nor_core.specs.Flash.{SameOutside};
ghost use Rattle.nor_core.specs.Device.{Changes};
ghost use Rattle.page_put.specs.Fresh.{ErasedTo};
ghost use Rattle.vol_mount.specs.Formatted.{MakesBlank, BlankTo, IsFormatted};
ghost use Rattle.vol_mount.specs.Needs.{is_wrong_chip};

use crate::FormatErr;
use crate::mounting::wrong_chip;
use geometry::{GeoErr, Geometry};
use nor_core::{Failed, Mark, Nor, NorState};
use page_layout::{count_offset, magic_offset};

// Erases the units of a block from the first one up. A cut in the first one never leaves the magic.
#[tactic(auto, using(geometry::proofs::Bounds::lookups_fit))]
fn erase_block<N: Nor>(g: &Geometry, nor: &mut N, block: u32) -> Result<(), Failed>
    requires block { block < g.now.blocks }
    requires unit { N.unit nor.old ≡ g.now.phys }
    requires volume { g.now.blocks * g.now.block ≤ N.size nor.old }
    ensures cause { OnErr result (Rose (N.faults nor.old) (N.faults nor.new)) }
    ensures changes { Changes N.NorState nor.old nor.new (SameOutside 0 (g.now.blocks * g.now.block)) }
    ensures done { N.tells nor.old → OnOk result (ErasedTo g.now block g.now.block (N.bytes nor.old) (N.bytes nor.new)) }
    ensures few { N.device_writes nor.new ≤ N.device_writes nor.old + g.now.block / g.now.phys }
{
    let units = g.block() / g.phys();
    let mark = Mark {
        at: magic_offset(g),
        word: g.magic_of(block),
    };
    for i in 0..units {
        nor.erase(block * units + i, if i == 0 { Some(mark) } else { None })?;
    }
    Ok(())
}

// Makes a block fresh: erased, with an erase count of 0 and its magic.
#[tactic(auto, using(flash_view::proofs::Inside::lookups_inside, geometry::proofs::Bounds::block_inside, geometry::proofs::Bounds::volume_small))]
fn format_block<N: Nor>(g: &Geometry, nor: &mut N, block: u32) -> Result<(), Failed>
    requires block { block < g.now.blocks }
    requires unit { N.unit nor.old ≡ g.now.phys }
    requires volume { g.now.blocks * g.now.block ≤ N.size nor.old }
    ensures cause { OnErr result (Rose (N.faults nor.old) (N.faults nor.new)) }
    ensures changes { Changes N.NorState nor.old nor.new (SameOutside 0 (g.now.blocks * g.now.block)) }
    ensures done { N.tells nor.old → OnOk result (MakesBlank g.now block (N.bytes nor.old) (N.bytes nor.new)) }
    ensures few { N.device_writes nor.new ≤ N.device_writes nor.old + (g.now.block / g.now.phys + 2) }
{
    erase_block(g, nor, block)?;
    let start = block * g.block();
    nor.program(start + count_offset(g), &[0, 0])?;
    nor.program(start + magic_offset(g), &g.magic_of(block).to_le_bytes())
}

// Makes all blocks of the volume fresh.
fn format_blocks<N: Nor>(g: &Geometry, nor: &mut N) -> Result<(), Failed>
    requires unit { N.unit nor.old ≡ g.now.phys }
    requires volume { g.now.blocks * g.now.block ≤ N.size nor.old }
    ensures cause { OnErr result (Rose (N.faults nor.old) (N.faults nor.new)) }
    ensures changes { Changes N.NorState nor.old nor.new (SameOutside 0 (g.now.blocks * g.now.block)) }
    ensures done { N.tells nor.old → OnOk result (BlankTo g.now g.now.blocks (N.bytes nor.old) (N.bytes nor.new)) }
    ensures few { N.device_writes nor.new ≤ N.device_writes nor.old + g.now.blocks * (g.now.block / g.now.phys + 2) }
{
    for block in 0..g.blocks() {
        format_block(g, nor, block)?;
    }
    Ok(())
}

/// Makes an empty volume: every block is erased, its erase count is 0, and its magic is right. A volume
/// that may not be written and a device that doesn't fit are refused first (`Wrong`); where the device
/// fails, it can be called again. A cut inside leaves what the next call makes good. Done, failed or cut off, it changes
/// no byte behind the volume. Of each block it erases each unit once, and makes two programs.
pub fn format<N: Nor>(g: &Geometry, nor: &mut N) -> Result<(), FormatErr>
    ensures writable { IfSome (write_refusal g.now) (λ why. result ≡ Err (FormatErr.Wrong why)) }
    ensures chip { write_refusal g.now ≡ None → is_wrong_chip g.now (N.unit nor.old) (N.size nor.old) ≡ true → result ≡ Err (FormatErr.Wrong GeoErr.WrongChip) }
    ensures refused { (why : GeoErr) → result ≡ Err (FormatErr.Wrong why) → nor.new ≡ nor.old }
    ensures only { write_refusal g.now ≡ None → is_wrong_chip g.now (N.unit nor.old) (N.size nor.old) ≡ false →
        IfErr result (λ why. why ≡ FormatErr.DeviceFault) }
    ensures cause { result ≡ Err FormatErr.DeviceFault → Rose (N.faults nor.old) (N.faults nor.new) }
    ensures changes { Changes N.NorState nor.old nor.new (SameOutside 0 (g.now.blocks * g.now.block)) }
    ensures done { N.tells nor.old → OnOk result (IsFormatted g.now (N.bytes nor.old) (N.bytes nor.new)) }
    ensures few { N.device_writes nor.new ≤ N.device_writes nor.old + g.now.blocks * (g.now.block / g.now.phys + 2) }
{
    if let Err(why) = g.writable() {
        return Err(FormatErr::Wrong(why));
    }
    if wrong_chip(g, nor) {
        return Err(FormatErr::Wrong(GeoErr::WrongChip));
    }
    Ok(format_blocks(g, nor)?)
}

ghost use Rattle.std.specs.Prelude.{◌≡◌, ◌+◌, ◌*◌, ◌<◌, ◌≤◌, length, IfOk, IfErr, IsOk, OnOk, OnErr, Some, None, Err, true, false, nat_lt, if◌then◌else◌};
ghost use Rattle.std.specs.Option.{IfSome};
ghost use Rattle.nor_core.specs.Count.{Rose};
ghost use Rattle.image_model.specs.Kinds.{spoiled_blocks as the_spoiled};
ghost use Rattle.flash_view.specs.Same.{OnlyLooks};
ghost use Rattle.geometry.specs.Numbers.{check_need};
ghost use Rattle.vol_mount.specs.Mounts.{CountsSpoiled, Fits, FitsReader, short_of, reader_short_of};
ghost use Rattle.vol_mount.specs.Needs.{is_wrong_chip, short_check};

use crate::{AcceptErr, Lent, MountErr, Part, ReaderLent};
use flash_view::View;
use geometry::{GeoErr, Geometry};
use nor_core::{Failed, Nor, NorState};

// Why the device doesn't fit the volume.
pub(crate) fn wrong_chip<N: Nor>(g: &Geometry, nor: &N) -> bool
    ensures { result ≡ is_wrong_chip g.now (N.unit nor.now) (N.size nor.now) }
{
    nor.unit() != g.phys() || nor.size() < g.blocks() * g.block()
}

// The refusal of a part of the lent memory, if it is too short.
fn too_short(part: Part, need: u32, given: usize) -> Option<AcceptErr>
    ensures { result ≡ (if nat_lt given need then Some (AcceptErr.ShortBuffer part need given) else None) }
{
    if given < need as usize {
        Some(AcceptErr::ShortBuffer { part, need, given })
    } else {
        None
    }
}

// The first part of the lent memory that is too short.
fn short(g: &Geometry, lent: &Lent<'_>) -> Option<AcceptErr>
    ensures { result ≡ short_of g.now lent.now }
{
    let work = too_short(Part::Work, g.work_need(), lent.work.len());
    if work.is_some() {
        return work;
    }
    let slots = too_short(Part::Slots, 1, lent.slots.len());
    if slots.is_some() {
        return slots;
    }
    let cache = too_short(Part::Cache, g.cache_need(), lent.cache.len());
    if cache.is_some() {
        return cache;
    }
    too_short(Part::Window, g.page(), lent.window.len())
}

// The first part of a reader's memory that is too short.
fn reader_short(g: &Geometry, lent: &ReaderLent<'_>) -> Option<AcceptErr>
    ensures { result ≡ reader_short_of g.now lent.now }
{
    let work = too_short(Part::Work, g.work_need(), lent.work.len());
    if work.is_some() {
        return work;
    }
    let cache = too_short(Part::Cache, g.cache_need(), lent.cache.len());
    if cache.is_some() {
        return cache;
    }
    too_short(Part::Check, g.check_need(), lent.check.len())
}

// How many blocks lack their magic.
fn spoiled_blocks<N: Nor>(v: &mut View<'_, N>) -> Result<u32, Failed>
    ensures cause { OnErr result (Rose (N.faults v.old.nor.now) (N.faults v.new.nor.now)) }
    ensures looks { OnlyLooks v.old v.new }
    ensures told { N.tells v.old.nor.now → IfOk result (λ n. n ≡ the_spoiled v.old.geometry (N.bytes v.old.nor.now)) }
{
    let mut spoiled = 0;
    for block in 0..v.geometry.blocks() as u16 {
        if !v.has_magic(block)? {
            spoiled += 1;
        }
    }
    Ok(spoiled)
}

/// Whether a device and the lent memory fit a volume. Nothing is read. Refused are, in this order, a device
/// that doesn't fit (`Wrong`), and lent memory that is too short (`ShortBuffer`). `Volume::new` then takes them.
pub fn accept<N: Nor>(g: &Geometry, nor: &N, lent: &Lent<'_>) -> Result<(), AcceptErr>
    ensures wrong { is_wrong_chip g.now (N.unit nor.now) (N.size nor.now) ≡ true → result ≡ Err (AcceptErr.Wrong GeoErr.WrongChip) }
    ensures short { is_wrong_chip g.now (N.unit nor.now) (N.size nor.now) ≡ false → IfSome (short_of g.now lent.now) (λ why. result ≡ Err why) }
    ensures accepted { is_wrong_chip g.now (N.unit nor.now) (N.size nor.now) ≡ false → short_of g.now lent.now ≡ None → IsOk result }
    ensures fits { OnOk result (Fits g.now (N.unit nor.now) (N.size nor.now) lent.now) }
{
    if wrong_chip(g, nor) {
        return Err(AcceptErr::Wrong(GeoErr::WrongChip));
    }
    match short(g, lent) {
        Some(why) => Err(why),
        None => Ok(()),
    }
}

/// Whether a device and the lent memory fit a reader. Nothing is read. Refused are, in this order, a device that
/// doesn't fit (`Wrong`), and lent memory that is too short (`ShortBuffer`). `Reader::new` then takes them.
pub fn accept_reader<N: Nor>(g: &Geometry, nor: &N, lent: &ReaderLent<'_>) -> Result<(), AcceptErr>
    ensures wrong { is_wrong_chip g.now (N.unit nor.now) (N.size nor.now) ≡ true → result ≡ Err (AcceptErr.Wrong GeoErr.WrongChip) }
    ensures short { is_wrong_chip g.now (N.unit nor.now) (N.size nor.now) ≡ false → IfSome (reader_short_of g.now lent.now) (λ why. result ≡ Err why) }
    ensures accepted { is_wrong_chip g.now (N.unit nor.now) (N.size nor.now) ≡ false → reader_short_of g.now lent.now ≡ None → IsOk result }
    ensures fits { OnOk result (FitsReader g.now (N.unit nor.now) (N.size nor.now) lent.now) }
{
    if wrong_chip(g, nor) {
        return Err(AcceptErr::Wrong(GeoErr::WrongChip));
    }
    match reader_short(g, lent) {
        Some(why) => Err(why),
        None => Ok(()),
    }
}

/// Whether the memory that is lent to the check of a volume fits it: at least `Geometry::check_need` bytes. Refused is
/// memory that is too short (`ShortBuffer`). `Volume::check` then takes it.
pub fn accept_check(g: &Geometry, lent: &[u8]) -> Result<(), AcceptErr>
    ensures short { IfSome (short_check g.now (length lent.now)) (λ why. result ≡ Err why) }
    ensures accepted { short_check g.now (length lent.now) ≡ None → IsOk result }
    ensures fits { OnOk result (check_need g.now ≤ length lent.now) }
{
    match too_short(Part::Check, g.check_need(), lent.len()) {
        Some(why) => Err(why),
        None => Ok(()),
    }
}

/// Mounts a volume: reads the magic of each block, and writes nothing. Refused are a device that fails, and a
/// volume of which two or more blocks lack their magic (`NotAFs`). One such block is accepted: a cut while it
/// was erased left it.
pub fn mount<N: Nor>(v: &mut View<'_, N>) -> Result<(), MountErr>
    ensures cause { result ≡ Err MountErr.DeviceFault → Rose (N.faults v.old.nor.now) (N.faults v.new.nor.now) }
    ensures looks { OnlyLooks v.old v.new }
    ensures told { N.tells v.old.nor.now → OnOk result (the_spoiled v.old.geometry (N.bytes v.old.nor.now) ≤ 1) }
    ensures spoiled { N.tells v.old.nor.now → IfErr result (CountsSpoiled v.old.geometry (N.bytes v.old.nor.now)) }
{
    let spoiled = spoiled_blocks(v)?;
    if spoiled >= 2 {
        return Err(MountErr::NotAFs { spoiled });
    }
    Ok(())
}

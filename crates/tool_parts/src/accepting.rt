ghost use Rattle.std.specs.Prelude.{◌≡◌, ◌*◌, ◌≤◌, IfOk, IfErr, OnOk, Ok, Err, Some, None};
ghost use Rattle.geometry.specs.Numbers.{IsOf, refusal};
ghost use Rattle.tool_parts.specs.Accepting.{chip_refusal, device_refusal, read_refusal, write_refusal_of, length_refusal, shorter};
ghost use Rattle.tool_parts.specs.Fits.{IsFitting, HoldsVolume, HasLengths};

use crate::buffers::Lengths;
use crate::ending::Ending;
use crate::words::Numbers;
use geometry::{GeoErr, Geometry};
use vol_mount::Part;

/// The least length of the line buffer, in bytes.
pub const LINE_NEED: u32 = 12_288;

// Refuses a device that doesn't fit a volume.
fn accept_chip(g: &Geometry, unit: u32, size: u32) -> Result<(), GeoErr>
    requires { g.now.phys ≡ g.now.block }
    ensures refused { IfErr result (λ why. chip_refusal g.now.block g.now.blocks unit size ≡ Some why) }
    ensures accepted { OnOk result (chip_refusal g.now.block g.now.blocks unit size ≡ None) }
    ensures fits { OnOk result (HoldsVolume g.now unit size) }
{
    if unit != g.phys() || size < g.blocks() * g.block() {
        return Err(GeoErr::WrongChip);
    }
    Ok(())
}

// Refuses a volume that may not be written, and a device that doesn't fit it.
#[tactic(auto, unfolding(geometry::specs::Numbers::page_count, geometry::specs::Numbers::entries, geometry::specs::Numbers::per_block, geometry::specs::Numbers::lookups))]
fn accept_device(g: &Geometry, unit: u32, size: u32) -> Result<(), GeoErr>
    requires { g.now.phys ≡ g.now.block }
    ensures refused { IfErr result (λ why. device_refusal g.now.page g.now.block g.now.blocks unit size ≡ Some why) }
    ensures accepted { OnOk result (device_refusal g.now.page g.now.block g.now.blocks unit size ≡ None) }
    ensures fits { OnOk result (IsFitting g.now unit size) }
{
    g.writable()?;
    accept_chip(g, unit, size)
}

// The geometry of these numbers.
fn geometry_of(numbers: Numbers) -> Result<Geometry, GeoErr>
    ensures made { IfOk result (λ g. IsOf g numbers.page numbers.block numbers.blocks numbers.block numbers.meta numbers.magic) }
    ensures accepted { OnOk result (refusal numbers.page numbers.block numbers.blocks numbers.block numbers.meta ≡ None) }
    ensures refused { IfErr result (λ why. refusal numbers.page numbers.block numbers.blocks numbers.block numbers.meta ≡ Some why) }
{
    Geometry::new(
        numbers.page,
        numbers.block,
        numbers.blocks,
        numbers.block,
        numbers.meta,
        numbers.magic,
    )
}

/// The geometry of these numbers on a device of that erase unit and size in bytes, for a volume that is to be written.
pub fn written_geometry(numbers: Numbers, unit: u32, size: u32) -> Result<Geometry, GeoErr>
    ensures made { IfOk result (λ g. IsOf g numbers.page numbers.block numbers.blocks numbers.block numbers.meta numbers.magic) }
    ensures accepted { OnOk result (write_refusal_of numbers unit size ≡ None) }
    ensures fits { IfOk result (λ g. IsFitting g unit size) }
    ensures refused { IfErr result (λ why. write_refusal_of numbers unit size ≡ Some why) }
{
    let g = geometry_of(numbers)?;
    accept_device(&g, unit, size)?;
    Ok(g)
}

/// The geometry of these numbers on a device of that erase unit and size in bytes, for a volume that is only read.
pub fn read_geometry(numbers: Numbers, unit: u32, size: u32) -> Result<Geometry, GeoErr>
    ensures made { IfOk result (λ g. IsOf g numbers.page numbers.block numbers.blocks numbers.block numbers.meta numbers.magic) }
    ensures accepted { OnOk result (read_refusal numbers unit size ≡ None) }
    ensures fits { IfOk result (λ g. HoldsVolume g unit size) }
    ensures refused { IfErr result (λ why. read_refusal numbers unit size ≡ Some why) }
{
    let g = geometry_of(numbers)?;
    accept_chip(&g, unit, size)?;
    Ok(g)
}

// The first part of the lent memory that is too short.
#[tactic(auto, unfolding(geometry::specs::Numbers::page_count, geometry::specs::Numbers::entries, geometry::specs::Numbers::per_block, geometry::specs::Numbers::lookups))]
fn short_part(g: &Geometry, lent: &Lengths) -> Option<Ending>
    ensures refused { result ≡ length_refusal g.now.page g.now.block g.now.blocks lent.now }
{
    too_short(Part::Work, g.work_need(), lent.work)
        .or(too_short(Part::Slots, 1, lent.slots))
        .or(too_short(Part::Cache, g.cache_need(), lent.cache))
        .or(too_short(Part::Check, g.check_need(), lent.check))
        .or(too_short(Part::Window, g.page(), lent.window))
        .or(too_short(Part::Line, LINE_NEED, lent.line))
}

// The refusal of a part of the lent memory, if it is too short.
fn too_short(part: Part, need: u32, given: usize) -> Option<Ending>
    ensures { result ≡ shorter part need given None }
{
    if given < need as usize {
        Some(Ending::ShortBuffer { part, need, given })
    } else {
        None
    }
}

/// The geometry, where its needs of lent memory are met; else the first part that is too short.
#[tactic(auto, unfolding(geometry::specs::Numbers::page_count, geometry::specs::Numbers::entries, geometry::specs::Numbers::per_block, geometry::specs::Numbers::lookups))]
pub fn with_room(g: Result<Geometry, GeoErr>, lent: &Lengths) -> Result<Geometry, Ending>
    ensures room { IfOk result (λ g. HasLengths g lent.now) }
    ensures wrong { IfErr g (λ why. result ≡ Err (Ending.Geometry why)) }
    ensures made { IfOk result (λ made. g ≡ Ok made) }
    ensures short { IfOk g (λ g. IfErr result (λ ending. length_refusal g.page g.block g.blocks lent.now ≡ Some ending)) }
    ensures enough { IfOk g (λ g. OnOk result (length_refusal g.page g.block g.blocks lent.now ≡ None)) }
{
    let g = match g {
        Ok(g) => g,
        Err(why) => return Err(Ending::Geometry(why)),
    };
    match short_part(&g, lent) {
        Some(ending) => Err(ending),
        None => Ok(g),
    }
}

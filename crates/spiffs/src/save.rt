//! Images that were changed or made in memory, and how they come into their files.
use crate::BOARD_FAULT;
use crate::give::{explain_image, row_of, trouble_of};
use crate::meant::{Meant, refuse_image};
use crate::stop::Stop;
use chip_row::{Chip, ChipRow};
use front_edge::PartChip;
use host_edge::{HeldFile, Trouble, replace_file};
use nor_core::{Failed, Nor};
use nor_memory::MemChip;

/// Bytes of a file that are compared at a time.
const PIECE: usize = 16_384;

/// Whether the volume is all that the image's file holds, and that is a plain file: then it is changed in memory, and its file replaced.
pub fn is_replaced(meant: &Meant<'_>) -> bool {
    match &meant.held {
        Some(held) => {
            !held.is_device() && meant.volume.at == 0 && held.length() <= u64::from(meant.size)
        }
        None => true,
    }
}

// Whether a file holds these bytes from a place on, as many as `piece` has room for.
fn holds_piece(held: &HeldFile, at: u64, bytes: &[u8], piece: &mut [u8]) -> Result<bool, Trouble> {
    let Some(read) = piece.get_mut(..bytes.len()) else {
        return Ok(false);
    };
    held.read_at(at, read)?;
    let there: &[u8] = read;
    Ok(there == bytes)
}

// Whether a file holds these bytes and no more.
fn holds(held: &HeldFile, bytes: &[u8]) -> Result<bool, Trouble> {
    if held.length() != bytes.len() as u64 {
        return Ok(false);
    }
    let mut piece = [0u8; PIECE];
    let mut at = 0u64;
    for part in bytes.chunks(PIECE) {
        if !holds_piece(held, at, part, &mut piece)? {
            return Ok(false);
        }
        at = at.saturating_add(part.len() as u64);
    }
    Ok(true)
}

// Puts bytes in the place of the image's file, where that doesn't hold them already.
fn replace(rt: &HostRuntime, meant: &Meant<'_>, bytes: &[u8]) -> Result<(), Trouble> {
    if let Some(held) = &meant.held {
        if holds(held, bytes)? {
            return Ok(());
        }
    }
    replace_file(rt, rt.alloc(), meant.image, meant.held.as_ref(), bytes)
}

// Erases a unit of a device.
fn erase_unit<N: Nor>(nor: &mut N, unit_ix: u32) -> Result<(), Failed> {
    let unit = nor.unit();
    if unit == 0 || unit_ix >= nor.size() / unit {
        return Err(Failed);
    }
    nor.erase(unit_ix, None)
}

// Programs bytes of a device from a place on.
fn program_unit<N: Nor>(nor: &mut N, at: u32, bytes: &[u8]) -> Result<(), Failed> {
    let left = nor.size().saturating_sub(at);
    if bytes.is_empty() || bytes.len() > left as usize {
        return Err(Failed);
    }
    nor.program(at, bytes)
}

// Writes bytes to a device, unit by unit.
fn write_units<N: Nor>(nor: &mut N, bytes: &[u8]) -> Result<(), Failed> {
    let unit = nor.unit().max(1);
    let mut at = 0u32;
    let mut unit_ix = 0u32;
    for part in bytes.chunks(unit as usize) {
        erase_unit(nor, unit_ix)?;
        program_unit(nor, at, part)?;
        unit_ix = unit_ix.saturating_add(1);
        at = at.saturating_add(unit);
    }
    Ok(())
}

// Writes an image to a device. What that has behind it stays.
fn write_device(
    rt: &HostRuntime,
    meant: &Meant<'_>,
    held: &HeldFile,
    bytes: &[u8],
) -> Result<(), Stop> {
    let chip = PartChip::over(held, 0, meant.size, meant.unit);
    let mut row = row_of(rt, meant, chip)?;
    if let Err(Failed) = write_units(&mut row, bytes) {
        explain_image(rt, meant, trouble_of(&row));
        return Err(Stop::Status(BOARD_FAULT));
    }
    sync_image(rt, meant)
}

/// The status of a line that has ended so: a plain file that has lost bytes meanwhile is a fault.
pub fn end_image(rt: &HostRuntime, meant: &Meant<'_>, status: u8) -> u8 {
    let Some(held) = &meant.held else {
        return status;
    };
    let trouble = match held.metadata() {
        Ok(told) if told.is_file() && told.len() < held.length() => Trouble::Shorter,
        Ok(_) => return status,
        Err(why) => Trouble::Read(why),
    };
    explain_image(rt, meant, Some(&trouble));
    BOARD_FAULT
}

/// Has what was written in place onto its disk.
pub fn sync_image(rt: &HostRuntime, meant: &Meant<'_>) -> Result<(), Stop> {
    let Some(held) = &meant.held else {
        return Ok(());
    };
    match held.sync() {
        Ok(()) => Ok(()),
        Err(why) => Err(refuse_image(rt, meant.image, &why)),
    }
}

/// Puts an image into its file: a plain one is replaced by a new one, which is whole before it has the name, and what it had behind is gone. One
/// that holds the image already stays. A device is written in place.
pub fn save_image(rt: &HostRuntime, meant: &Meant<'_>, bytes: &[u8]) -> Result<(), Stop> {
    match &meant.held {
        Some(held) if held.is_device() => write_device(rt, meant, held, bytes),
        _ => match replace(rt, meant, bytes) {
            Ok(()) => Ok(()),
            Err(why) => Err(refuse_image(rt, meant.image, &why)),
        },
    }
}

/// Puts the image that a chip in memory holds into its file.
pub fn save_copy(rt: &HostRuntime, meant: &Meant<'_>, row: &ChipRow<MemChip>) -> Result<(), Stop> {
    match row.chips().first() {
        Some(chip) => save_image(rt, meant, chip.image()),
        None => Err(Stop::Status(BOARD_FAULT)),
    }
}

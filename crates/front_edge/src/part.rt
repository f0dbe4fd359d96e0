//! A part of a chip file, as a chip of its own.
ghost use Rattle.std.specs.Prelude.{[], ◌+◌, ◌<◌, ◌≤◌, ◌^◌, IfSome};

use chip_row::{Chip, ChipState};
use host_edge::{Access, FileChip, HeldFile, Trouble};
use nor_core::{Failed, Mark};
use nor_memory::MemChip;
use std::fs::File;
use std::rt::Files;

/// So many bytes of a chip file from a place on, as a chip with erase units of its own size. It tells no bytes.
#[derive(Drop)]
pub struct PartChip {
    chip: FileChip,
    first: u32,
    size: u32,
    unit: u32,
    last: u64,
    reads: u64,
    faults: u64,
    ghost fits: { size < 2 ^ 32 },
}

/// A chip that can tell why it failed.
pub trait HostChip: Chip {
    /// What failed first at the host, if anything did.
    fn trouble(&self) -> Option<&Trouble>;

    /// Ends the use of the chip: what was written is brought onto the host's medium, and a file must not have become shorter than it was.
    fn finish(&self) -> Result<(), Trouble>;
}

impl HostChip for PartChip {
    fn trouble(&self) -> Option<&Trouble> {
        self.chip.trouble()
    }

    fn finish(&self) -> Result<(), Trouble> {
        self.chip.finish()
    }
}

impl HostChip for MemChip {
    fn trouble(&self) -> Option<&Trouble> {
        None
    }

    fn finish(&self) -> Result<(), Trouble> {
        Ok(())
    }
}

// The greatest power of two that divides both, of numbers of which one is above 0.
fn common_power(one: u32, other: u32) -> u32 {
    let both = one | other;
    if both == 0 {
        return 1;
    }
    both & both.wrapping_neg()
}

// The erase units of the whole file, where those of a part that begins there have so many bytes.
fn step_of(first: u32, unit: u32) -> u32 {
    if first == 0 {
        unit
    } else {
        common_power(first, unit)
    }
}

impl PartChip {
    /// The part of a file that begins at byte `first`, as a chip of `size` bytes in erase units of `unit` bytes. A file that can't be opened
    /// makes each later call fail, and so does a part that ends past byte 2^32 - 1 where it reaches there.
    pub fn new<R: Files<File = File>>(
        rt: &R,
        path: &str,
        access: Access,
        first: u32,
        size: u32,
        unit: u32,
    ) -> PartChip {
        let end = first.saturating_add(size);
        let chip = FileChip::new(rt, path, access, end, step_of(first, unit));
        PartChip::on(chip, first, size, unit)
    }

    /// The same of a file that is held: another handle of the same open file, under the same lock.
    pub fn over(held: &HeldFile, first: u32, size: u32, unit: u32) -> PartChip {
        let chip = held.chip(first.saturating_add(size), step_of(first, unit));
        PartChip::on(chip, first, size, unit)
    }

    // The part of a chip.
    fn on(chip: FileChip, first: u32, size: u32, unit: u32) -> PartChip {
        PartChip {
            chip,
            first,
            size,
            unit,
            last: 0,
            reads: 0,
            faults: 0,
        }
    }
}

// Where in the chip so many bytes stand that begin at a place of a part of it, if they are all there, and there are some.
fn place_in<C: Chip>(chip: &C, first: u32, at: u32, count: usize) -> Option<u32>
    ensures some { IfSome result (λ place. 0 < count) }
    ensures inside { IfSome result (λ place. place + count ≤ C.size chip.now) }
{
    let place = first.checked_add(at)?;
    let left = chip.size().checked_sub(place)?;
    if count == 0 || count > left as usize {
        return None;
    }
    Some(place)
}

// Reads bytes of a part of a chip, and answers whether that could be done.
fn read_part<C: Chip>(chip: &mut C, first: u32, at: u32, into: &mut [u8]) -> bool {
    match place_in(chip, first, at, into.len()) {
        Some(place) => chip.read(place, into).is_ok(),
        None => false,
    }
}

// Programs bytes of a part of a chip, and answers whether that could be done.
fn program_part<C: Chip>(chip: &mut C, first: u32, at: u32, from: &[u8]) -> bool {
    let Some(place) = place_in(chip, first, at, from.len()) else {
        return false;
    };
    match chip.last().checked_add(1) {
        Some(now) => chip.program(now, place, from).is_ok(),
        None => false,
    }
}

// Erases a unit of a chip, and answers whether that could be done.
fn erase_one<C: Chip>(chip: &mut C, unit_ix: u32) -> bool {
    let unit = chip.unit();
    if unit == 0 || unit_ix >= chip.size() / unit {
        return false;
    }
    match chip.last().checked_add(1) {
        Some(now) => chip.erase(now, unit_ix, None).is_ok(),
        None => false,
    }
}

// Erases so many units of a chip from one on, and answers whether that could be done.
fn erase_units<C: Chip>(chip: &mut C, from: u32, count: u32) -> bool {
    for i in 0..count {
        let is_done = match from.checked_add(i) {
            Some(unit_ix) => erase_one(chip, unit_ix),
            None => false,
        };
        if !is_done {
            return false;
        }
    }
    true
}

// Erases bytes of a chip from a place on, and answers whether that could be done.
fn erase_part<C: Chip>(chip: &mut C, place: u64, count: u32) -> bool {
    let unit = chip.unit();
    let Ok(place) = u32::try_from(place) else {
        return false;
    };
    if unit == 0 || place % unit != 0 || count % unit != 0 {
        return false;
    }
    erase_units(chip, place / unit, count / unit)
}

impl ChipState for PartChip {
    ghost tells = { λ _. ⊥ };

    ghost bytes = { λ _. [] };

    ghost size = { λ c. c.size };

    ghost unit = { λ c. c.unit };

    ghost faults = { λ c. c.faults };

    ghost device_reads = { λ c. c.reads };

    ghost last = { λ c. c.last };

    ghost left_at = { λ _ _ _. ⊥ };
}

impl Chip for PartChip {
    fn size(&self) -> u32 {
        self.size
    }

    fn unit(&self) -> u32 {
        self.unit
    }

    fn last(&self) -> u64 {
        self.last
    }

    fn read(&mut self, at: u32, into: &mut [u8]) -> Result<(), Failed> {
        self.reads = self.reads.saturating_add(1);
        if read_part(&mut self.chip, self.first, at, into) {
            return Ok(());
        }
        self.faults = self.faults.saturating_add(1);
        Err(Failed)
    }

    fn program(&mut self, now: u64, at: u32, from: &[u8]) -> Result<(), Failed> {
        self.last = now;
        if program_part(&mut self.chip, self.first, at, from) {
            return Ok(());
        }
        self.faults = self.faults.saturating_add(1);
        Err(Failed)
    }

    fn erase(&mut self, now: u64, unit_ix: u32, _mark: Option<Mark>) -> Result<(), Failed> {
        self.last = now;
        let at = u64::from(unit_ix) * u64::from(self.unit);
        let place = u64::from(self.first).wrapping_add(at);
        if erase_part(&mut self.chip, place, self.unit) {
            return Ok(());
        }
        self.faults = self.faults.saturating_add(1);
        Err(Failed)
    }
}

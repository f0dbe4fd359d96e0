//! A copy of a chip in memory.
ghost use Rattle.std.specs.Prelude.{◌≡◌, ◌≢◌, ◌<◌, ◌^◌, ◌↔◌, length, true, Err, IfOk, IfErr};
ghost use Rattle.nor_core.specs.Count.{Rose};
ghost use Rattle.front_edge.specs.Units.{uneven};
ghost use Rattle.front_edge.specs.declared.copied.CopyErr.{CopyErr};
ghost use Rattle.nor_memory.specs.contracts.mem_chip.MemChipChipState.TheImpl.{ghosts as mem};

use chip_row::Chip;
use nor_core::{Failed, MemErr};
use nor_memory::MemChip;
use std::alloc::{AllocError, Global};

/// Why no copy was made.
#[derive(Clone, Copy, Debug, PartialEq, Eq)]
pub enum CopyErr {
    /// There is no memory for it.
    Memory,
    /// The chip has no bytes, or no whole number of such units.
    Units,
    /// The chip failed.
    Chip,
}

impl From<AllocError> for CopyErr {
    ghost from_gives = { λ _ e. e ≡ CopyErr.Memory };

    fn from(_: AllocError) -> CopyErr {
        CopyErr::Memory
    }
}

impl From<MemErr> for CopyErr {
    ghost from_gives = { λ _ e. e ≡ CopyErr.Memory };

    fn from(_: MemErr) -> CopyErr {
        CopyErr::Memory
    }
}

impl From<Failed> for CopyErr {
    ghost from_gives = { λ _ e. e ≡ CopyErr.Chip };

    fn from(_: Failed) -> CopyErr {
        CopyErr::Chip
    }
}

// Whether so many bytes are none, or no whole number of such units.
fn is_uneven(size: u32, unit: u32) -> bool
    ensures { result ≡ uneven size unit }
{
    size == 0 || unit == 0 || size % unit != 0
}

// All bytes that a chip holds, which has some.
fn bytes_of<C: Chip>(alloc: Global, chip: &mut C) -> Result<Vec<u8>, CopyErr>
    requires some { 0 < C.size chip.old }
    ensures never_units { IfErr result (λ why. why ≢ CopyErr.Units) }
    ensures cause { IfErr result (λ why. why ≡ CopyErr.Chip → Rose (C.faults chip.old) (C.faults chip.new)) }
    ensures size { IfOk result (λ bytes. length bytes.items ≡ C.size chip.old) }
    ensures few { IfOk result (λ bytes. length bytes.items < 2 ^ 32) }
    ensures told { C.tells chip.old → IfOk result (λ bytes. bytes.items ≡ C.bytes chip.old) }
{
    let size = chip.size();
    let mut bytes = vec![in alloc; 0xFFu8; size as usize]?;
    chip.read(0, &mut bytes)?;
    Ok(bytes)
}

/// A copy of what a chip holds, in erase units of `unit` bytes. The chip is only read, and what is written to the copy stays there. `Units` is
/// answered exactly for numbers that can't be divided, and `Chip` only where a fault of the chip was counted. `Memory`
/// is the allocator's answer, of which contracts say nothing.
pub fn copy_of<C: Chip>(alloc: Global, chip: &mut C, unit: u32) -> Result<MemChip, CopyErr>
    ensures units { (result ≡ Err CopyErr.Units) ↔ (uneven (C.size chip.old) unit ≡ true) }
    ensures cause { IfErr result (λ why. why ≡ CopyErr.Chip → Rose (C.faults chip.old) (C.faults chip.new)) }
    ensures size { IfOk result (λ copy. mem.size copy ≡ C.size chip.old) }
    ensures unit { IfOk result (λ copy. mem.unit copy ≡ unit) }
    ensures told { C.tells chip.old → IfOk result (λ copy. mem.bytes copy ≡ C.bytes chip.old) }
{
    if is_uneven(chip.size(), unit) {
        return Err(CopyErr::Units);
    }
    let bytes = bytes_of(alloc, chip)?;
    Ok(MemChip::new(alloc, bytes, unit)?)
}

/// A chip in memory of `size` bytes of 0xFF, in erase units of `unit` bytes. `Units` is answered exactly for numbers that can't be divided, and
/// `Memory` is the allocator's answer, of which contracts say nothing.
pub fn blank_chip(alloc: Global, size: u32, unit: u32) -> Result<MemChip, CopyErr>
    ensures units { (result ≡ Err CopyErr.Units) ↔ (uneven size unit ≡ true) }
    ensures never_chip { IfErr result (λ why. why ≢ CopyErr.Chip) }
    ensures size { IfOk result (λ chip. mem.size chip ≡ size) }
    ensures unit { IfOk result (λ chip. mem.unit chip ≡ unit) }
{
    if is_uneven(size, unit) {
        return Err(CopyErr::Units);
    }
    let bytes = vec![in alloc; 0xFFu8; size as usize]?;
    Ok(MemChip::new(alloc, bytes, unit)?)
}

//! Calls of one chip of several.
ghost use Rattle.std.specs.Prelude.{◌≡◌, ◌≢◌, ◌+◌, ◌*◌, ◌/◌, ◌<◌, ◌≤◌, ◌⊎◌, length, OnOk, OnErr, IsTrue, IsFalse, All};
ghost use Rattle.std.specs.Option.{ForSome};
ghost use Rattle.nor_core.specs.Flash.{programmed, HalfProgrammed, erased, HalfErased};
ghost use Rattle.chip_row.specs.Chips.{ChipHonest, InChipErase};
ghost use Rattle.chip_row.specs.Rows.{latest, AllSized, AllFit, OneChanged, OneRead};

use crate::numbers::Numbers;
use crate::{Chip, ChipState};
use nor_core::{Failed, Mark};

// The greatest of the moments at which the chips were last called.
pub(crate) fn latest_of<C: Chip>(chips: &Vec<C>) -> u64
    ensures { result ≡ latest C.ChipState chips.now.items }
{
    let mut now = 0;
    for chip in chips {
        now = chip.last().max(now);
    }
    now
}

// Whether a chip has the row's numbers and wasn't called past its moment.
fn is_one_sound<C: Chip>(chip: &C, numbers: Numbers, now: u64) -> bool
    ensures size { IsTrue result → C.size chip.now ≡ numbers.chip_size }
    ensures unit { IsTrue result → C.unit chip.now ≡ numbers.unit }
    ensures last { IsTrue result → C.last chip.now ≤ now }
    ensures honest { ChipHonest C.ChipState chip.now }
    ensures unsound { IsFalse result → (C.size chip.now ≢ numbers.chip_size) ⊎
        (C.unit chip.now ≢ numbers.unit) ⊎ (now < C.last chip.now) }
{
    chip.size() == numbers.chip_size && chip.unit() == numbers.unit && chip.last() <= now
}

// Whether each chip has the row's numbers, and none was called past its moment.
pub(crate) fn is_sound<C: Chip>(chips: &Vec<C>, numbers: Numbers, now: u64) -> bool
    ensures sound { IsTrue result → AllFit C.ChipState numbers now chips.now.items }
    ensures unsound { IsFalse result → length chips.now.items ≡ numbers.count →
        AllSized C.ChipState numbers.chip_size numbers.unit chips.now.items →
        All (λ c. C.last c ≤ now) chips.now.items → ⊥ }
{
    if chips.len() != numbers.count {
        return false;
    }
    for chip in chips {
        if !is_one_sound(chip, numbers, now) {
            return false;
        }
    }
    true
}

// Reads a chip.
pub(crate) fn read_one<C: Chip>(
    chips: &mut Vec<C>,
    i: usize,
    at: u32,
    into: &mut [u8],
) -> Result<(), Failed>
    requires some { 0 < length into.old }
    requires inside { i < length chips.old.items }
    requires fits { All (λ c. at + length into.old ≤ C.size c) chips.old.items }
    requires honest { All (λ c. ChipHonest C.ChipState c) chips.old.items }
    ensures { OneRead C.ChipState i at (length into.old) chips.old.items chips.new.items
        into.new result }
{
    chips[i].read(at, into)
}

// Programs a chip.
pub(crate) fn program_one<C: Chip>(
    chips: &mut Vec<C>,
    i: usize,
    now: u64,
    at: u32,
    from: &[u8],
) -> Result<(), Failed>
    requires some { 0 < length from.now }
    requires inside { i < length chips.old.items }
    requires later { All (λ c. C.last c < now) chips.old.items }
    requires honest { All (λ c. ChipHonest C.ChipState c) chips.old.items }
    requires fits { All (λ c. at + length from.now ≤ C.size c) chips.old.items }
    ensures { OneChanged C.ChipState now i chips.old.items chips.new.items
        (λ was is image. HalfProgrammed at from.now was image)
        (λ was is. OnOk result (is ≡ programmed was at from.now)) result }
{
    chips[i].program(now, at, from)
}

// Erases a unit of a chip. Each chip has units of `unit` bytes.
pub(crate) fn erase_one<C: Chip>(
    chips: &mut Vec<C>,
    i: usize,
    now: u64,
    unit: u32,
    unit_ix: u32,
    mark: Option<Mark>,
) -> Result<(), Failed>
    requires inside { i < length chips.old.items }
    requires later { All (λ c. C.last c < now) chips.old.items }
    requires honest { All (λ c. ChipHonest C.ChipState c) chips.old.items }
    requires units { All (λ c. C.unit c ≡ unit) chips.old.items }
    requires fits { All (λ c. unit_ix < C.size c / unit) chips.old.items }
    requires marked { ForSome mark (λ m. m.at + 2 ≤ unit) }
    ensures { OneChanged C.ChipState now i chips.old.items chips.new.items
        (λ was is image. InChipErase (unit_ix * unit) unit mark was is image)
        (λ was is. OnOk result (is ≡ erased was (unit_ix * unit) unit) ×
        OnErr result (HalfErased (unit_ix * unit) unit mark was is)) result }
{
    chips[i].erase(now, unit_ix, mark)
}

//! A row of chips.
ghost use Rattle.std.specs.Prelude.{◌≡◌, ◌*◌, ◌<◌, ◌≤◌, [], length, Some};
ghost use Rattle.std.specs.List.{flat_map};
ghost use Rattle.chip_row.specs.Rows.{RowTells, RowLeft};

use crate::numbers::Numbers;
use crate::one::{is_sound, latest_of};
use crate::{Chip, ChipState};
use nor_core::NorState;
use thiserror::Error;

/// Why chips make no row, or a chip doesn't go into one.
#[derive(Clone, Copy, Debug, PartialEq, Eq, Drop, Error)]
pub enum RowErr {
    /// There is no chip, or none of that number.
    #[error("no such chip")]
    NoSuchChip,
    /// A chip is of another size or unit than the row, or the row's numbers are refused: the unit is 0, the size of a
    /// chip is 0 or no whole number of units, or all sizes together reach 2^32 bytes.
    #[error("a chip of another size")]
    WrongSize,
}

/// A chip that doesn't go into a row, handed back.
#[derive(Drop)]
pub struct RowRefusal<C: Chip = Box<dyn Chip>> {
    /// Why it is refused.
    pub why: RowErr,
    /// The chip, as it was handed in.
    pub chip: C,
}

/// Chips of one size end to end: the device `Nor` of all their bytes, the first chip's first. A program across a boundary
/// goes to the chips in order, and an erase lies in one chip. A call on some chips leaves all others as they were, also
/// where it fails or is cut.
///
/// The row has a moment, which is a count of the programs and erases that it has asked of its chips, and which begins at
/// the latest of theirs: each is asked at the moment plus 1. Where the moment stands at the last value of a u64 a program
/// or an erase fails, and no chip is asked.
#[derive(Drop)]
pub struct ChipRow<C: Chip = Box<dyn Chip>> {
    pub(crate) chips: Vec<C>,
    pub(crate) numbers: Numbers,
    pub(crate) moment: u64,
    pub(crate) faults: u64,
    pub(crate) reads: u64,
    pub(crate) writes: u64,
    pub(crate) fuse: Option<usize>,
}

impl<C: Chip> NorState for ChipRow<C> {
    ghost tells = { λ r. RowTells C.ChipState r.numbers r.moment r.chips.items };

    ghost bytes = { λ r. flat_map (λ c. C.bytes c) r.chips.items };

    ghost size = { λ r. r.numbers.count * r.numbers.chip_size };

    ghost unit = { λ r. r.numbers.unit };

    ghost said = { λ _. [] };

    ghost faults = { λ r. r.faults };

    ghost moment = { λ r. r.moment };

    ghost device_reads = { λ r. r.reads };

    ghost device_writes = { λ r. r.writes };

    ghost left_since = { λ r t image count. RowLeft C.ChipState r.moment r.chips.items t image count };
}

impl<C: Chip> ChipRow<C> {
    ghost use Rattle.std.specs.Prelude.{◌≡◌, ◌≢◌, ◌<◌, ◌≤◌, ◌⊎◌, ◌↔◌, max, [], length, slice_set, Some, None, Err, OnOk, IsOk, IfOk, IfErr, All};
    ghost use Rattle.chip_row.specs.Rows.{NumbersFit, AllSized, AllFit, latest};

    /// A row of these chips, the first of them first, each of `chip_size` bytes in erase units of `unit` bytes.
    /// `NoSuchChip` comes where there are none; else `WrongSize` where the unit is 0, the size is 0 or no whole number of
    /// units, all sizes together reach 2^32 bytes, or a chip has another size or unit.
    pub fn new(chips: Vec<C>, chip_size: u32, unit: u32) -> Result<ChipRow<C>, RowErr>
        ensures no_chip { (result ≡ Err RowErr.NoSuchChip) ↔ (chips.items ≡ []) }
        ensures fits { IsOk result ↔ (NumbersFit (length chips.items) chip_size unit ×
            AllSized C.ChipState chip_size unit chips.items) }
        ensures chips { IfOk result (λ row. row.chips ≡ chips) }
        ensures size { IfOk result (λ row. row.numbers.chip_size ≡ chip_size) }
        ensures unit { IfOk result (λ row. row.numbers.unit ≡ unit) }
        ensures moment { IfOk result (λ row. row.moment ≡ latest C.ChipState chips.items) }
        ensures faults { IfOk result (λ row. row.faults ≡ 0) }
        ensures reads { IfOk result (λ row. row.reads ≡ 0) }
        ensures writes { IfOk result (λ row. row.writes ≡ 0) }
        ensures fuse { IfOk result (λ row. row.fuse ≡ None) }
        ensures sound { IfOk result (λ row.
            AllFit C.ChipState row.numbers row.moment row.chips.items) }
        ensures tells { All (λ c. C.tells c) chips.items →
            IfOk result (λ row. ⟦<ChipRow<C> as NorState>⟧.tells row) }
    {
        if chips.is_empty() {
            return Err(RowErr::NoSuchChip);
        }
        let Some(numbers) = Numbers::new(chips.len(), chip_size, unit) else {
            return Err(RowErr::WrongSize);
        };
        let moment = latest_of(&chips);
        if !is_sound(&chips, numbers, moment) {
            return Err(RowErr::WrongSize);
        }
        Ok(ChipRow {
            chips,
            numbers,
            moment,
            faults: 0,
            reads: 0,
            writes: 0,
            fuse: None,
        })
    }

    /// Puts this chip into the place of chip `i`, counted from 0, and drops the old one; all other chips stay, and the
    /// row's moment is the later of its own and the chip's. A refused chip is handed back, and nothing changes:
    /// `NoSuchChip` where there is no chip `i`, else `WrongSize` where the chip has another size or unit than the row.
    pub fn replace(&mut self, i: usize, chip: C) -> Result<(), RowRefusal<C>>
        ensures no_chip { IfErr result (λ refusal. refusal.why ≡ RowErr.NoSuchChip →
            length self.old.chips.items ≤ i) }
        ensures wrong { IfErr result (λ refusal. refusal.why ≡ RowErr.WrongSize →
            (i < length self.old.chips.items) × ((C.size chip ≢ self.old.numbers.chip_size) ⊎
            (C.unit chip ≢ self.old.numbers.unit))) }
        ensures fits { IsOk result ↔ ((i < length self.old.chips.items) ×
            (C.size chip ≡ self.old.numbers.chip_size) × (C.unit chip ≡ self.old.numbers.unit)) }
        ensures back { IfErr result (λ refusal. refusal.chip ≡ chip) }
        ensures refused { IfErr result (λ _. self.new ≡ self.old) }
        ensures chips { OnOk result
            (self.new.chips.items ≡ slice_set self.old.chips.items i chip) }
        ensures moment { OnOk result (self.new.moment ≡ max self.old.moment (C.last chip)) }
        ensures numbers { self.new.numbers ≡ self.old.numbers }
        ensures faults { self.new.faults ≡ self.old.faults }
        ensures reads { self.new.reads ≡ self.old.reads }
        ensures writes { self.new.writes ≡ self.old.writes }
        ensures fuse { self.new.fuse ≡ self.old.fuse }
        ensures sound { AllFit C.ChipState self.old.numbers self.old.moment self.old.chips.items →
            AllFit C.ChipState self.new.numbers self.new.moment self.new.chips.items }
        ensures tells { ⟦<ChipRow<C> as NorState>⟧.tells self.old → C.tells chip →
            ⟦<ChipRow<C> as NorState>⟧.tells self.new }
    {
        if i >= self.chips.len() {
            return Err(RowRefusal {
                why: RowErr::NoSuchChip,
                chip,
            });
        }
        if chip.size() != self.numbers.chip_size || chip.unit() != self.numbers.unit {
            return Err(RowRefusal {
                why: RowErr::WrongSize,
                chip,
            });
        }
        self.moment = self.moment.max(chip.last());
        self.chips[i] = chip;
        Ok(())
    }

    /// The chips, the first of them first.
    pub fn chips(&self) -> &[C]
        ensures { result.now ≡ self.now.chips.items }
    {
        &self.chips
    }

    /// The number of the chip whose call last failed, counted from 0; none where no chip's call has failed since the row
    /// was made.
    pub fn fuse_chip(&self) -> Option<usize>
        ensures { result ≡ self.now.fuse }
    {
        self.fuse
    }
}

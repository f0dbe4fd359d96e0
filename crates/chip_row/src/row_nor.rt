//! The calls of a row, piece by piece.
ghost use Rattle.std.specs.Prelude.{◌≡◌, ◌+◌, ◌*◌, ◌/◌, ◌%◌, ◌<◌, ◌≤◌, length, slice_range, OnOk, OnErr};
ghost use Rattle.std.specs.Option.{ForSome};
ghost use Rattle.nor_core.specs.Count.{counted, Rose};
ghost use Rattle.nor_core.specs.Flash.{programmed, HalfProgrammed, erased, HalfErased};
ghost use Rattle.nor_core.specs.Device.{OnlyReads, Changes, InErase, Writes};
ghost use Rattle.chip_row.specs.Chips.{InChipErase};
ghost use Rattle.chip_row.specs.RowLaws.{row_sized, now_stands, now_counts};
ghost use Rattle.chip_row.specs.Asks.{Asks, HoldsSome, Unfit, Stuck, RowRead, RowChanged};

use crate::answer::{faults_after, fuse_after};
use crate::one::{erase_one, is_sound, program_one, read_one};
use crate::{Chip, ChipRow, ChipState};
use nor_core::{Failed, Mark, Nor, NorState};

impl<C: Chip> ChipRow<C> {
    // Reads bytes of chip `i`.
    fn read_in(&mut self, i: usize, at: u32, into: &mut [u8]) -> Result<(), Failed>
        requires some { 0 < length into.old }
        requires inside { i < self.old.numbers.count }
        requires fits { at + length into.old ≤ self.old.numbers.chip_size }
        ensures { RowRead C.ChipState ⟦<ChipRow<C> as NorState>⟧ (λ place. place ≡ i)
            (i * self.old.numbers.chip_size + at) (length into.old) self.old self.new into.new
            result }
    {
        if !is_sound(&self.chips, self.numbers, self.moment) {
            self.faults = self.faults.saturating_add(1);
            return Err(Failed);
        }
        let answer = read_one(&mut self.chips, i, at, into);
        self.faults = faults_after(self.faults, answer);
        self.fuse = fuse_after(self.fuse, i, answer);
        answer
    }

    // Programs bytes of chip `i`.
    fn program_in(&mut self, i: usize, at: u32, from: &[u8]) -> Result<(), Failed>
        requires some { 0 < length from.now }
        requires inside { i < self.old.numbers.count }
        requires fits { at + length from.now ≤ self.old.numbers.chip_size }
        ensures { let start = i * self.old.numbers.chip_size + at in RowChanged C.ChipState
            ⟦<ChipRow<C> as NorState>⟧ (λ place. place ≡ i) self.old self.new
            (HalfProgrammed start from.now)
            (λ was is. OnOk result (is ≡ programmed was start from.now)) result }
    {
        if self.moment == u64::MAX || !is_sound(&self.chips, self.numbers, self.moment) {
            self.faults = self.faults.saturating_add(1);
            return Err(Failed);
        }
        self.moment += 1;
        let answer = program_one(&mut self.chips, i, self.moment, at, from);
        self.faults = faults_after(self.faults, answer);
        self.fuse = fuse_after(self.fuse, i, answer);
        answer
    }

    // Erases a unit of chip `i`.
    fn erase_in(&mut self, i: usize, unit_ix: u32, mark: Option<Mark>) -> Result<(), Failed>
        requires inside { i < self.old.numbers.count }
        requires fits { unit_ix < self.old.numbers.chip_size / self.old.numbers.unit }
        requires marked { ForSome mark (λ m. m.at + 2 ≤ self.old.numbers.unit) }
        ensures { let unit = self.old.numbers.unit in
            let start = i * self.old.numbers.chip_size + unit_ix * unit in
            RowChanged C.ChipState ⟦<ChipRow<C> as NorState>⟧ (λ place. place ≡ i) self.old
            self.new (λ was image. InChipErase start unit mark was
            (⟦<ChipRow<C> as NorState>⟧.bytes self.new) image)
            (λ was is. OnOk result (is ≡ erased was start unit) ×
            OnErr result (HalfErased start unit mark was is)) result }
    {
        if self.moment == u64::MAX || !is_sound(&self.chips, self.numbers, self.moment) {
            self.faults = self.faults.saturating_add(1);
            return Err(Failed);
        }
        self.moment += 1;
        let unit = self.numbers.unit;
        let answer = erase_one(&mut self.chips, i, self.moment, unit, unit_ix, mark);
        self.faults = faults_after(self.faults, answer);
        self.fuse = fuse_after(self.fuse, i, answer);
        answer
    }
}

impl<C: Chip> ChipRow<C> {
    // Reads bytes from chip to chip.
    fn read_all(&mut self, at: u32, into: &mut [u8]) -> Result<(), Failed>
        requires inside { at + length into.old ≤ self.old.numbers.count *
            self.old.numbers.chip_size }
        ensures { RowRead C.ChipState ⟦<ChipRow<C> as NorState>⟧
            (HoldsSome self.old.numbers.chip_size at (length into.old)) at (length into.old)
            self.old self.new into.new result }
    {
        let size = self.numbers.chip_size as usize;
        let mut done = 0;
        while done < into.len() {
            let place = at as usize + done;
            let here = (size - place % size).min(into.len() - done);
            let piece = &mut into[done..done + here];
            self.read_in(place / size, (place % size) as u32, piece)?;
            done += here;
        }
        Ok(())
    }

    // Programs bytes from chip to chip.
    fn program_all(&mut self, at: u32, from: &[u8]) -> Result<(), Failed>
        requires inside { at + length from.now ≤ self.old.numbers.count *
            self.old.numbers.chip_size }
        ensures { RowChanged C.ChipState ⟦<ChipRow<C> as NorState>⟧
            (HoldsSome self.old.numbers.chip_size at (length from.now)) self.old self.new
            (HalfProgrammed at from.now)
            (λ was is. OnOk result (is ≡ programmed was at from.now)) result }
    {
        let size = self.numbers.chip_size as usize;
        let mut done = 0;
        while done < from.len() {
            let place = at as usize + done;
            let here = (size - place % size).min(from.len() - done);
            let piece = &from[done..done + here];
            self.program_in(place / size, (place % size) as u32, piece)?;
            done += here;
        }
        Ok(())
    }
}

impl<C: Chip> Nor for ChipRow<C> {
    fn size(&self) -> u32 {
        self.numbers.size()
    }

    fn unit(&self) -> u32 {
        self.numbers.unit
    }

    fn read(&mut self, at: u32, into: &mut [u8]) -> Result<(), Failed>
        requires some { 0 < length into.old }
        requires inside { at + length into.old ≤ ⟦<ChipRow<C> as NorState>⟧.size self.old }
        ensures read { ⟦<ChipRow<C> as NorState>⟧.tells self.old → OnOk result (into.new ≡
            slice_range (⟦<ChipRow<C> as NorState>⟧.bytes self.old) at
            (at + length into.old)) }
        ensures counted { ⟦<ChipRow<C> as NorState>⟧.device_reads self.new ≡
            counted (⟦<ChipRow<C> as NorState>⟧.device_reads self.old) }
        ensures cause { OnErr result (Rose (⟦<ChipRow<C> as NorState>⟧.faults self.old)
            (⟦<ChipRow<C> as NorState>⟧.faults self.new)) }
        ensures only_reads { OnlyReads ⟦<ChipRow<C> as NorState>⟧ self.old self.new }
        ensures asks { Asks C.ChipState
            (HoldsSome self.old.numbers.chip_size at (length into.old)) self.old self.new result
            (Unfit C.ChipState self.old) }
    {
        self.reads = self.reads.saturating_add(1);
        self.read_all(at, into)
    }

    fn program(&mut self, at: u32, from: &[u8]) -> Result<(), Failed>
        requires some { 0 < length from.now }
        requires inside { at + length from.now ≤ ⟦<ChipRow<C> as NorState>⟧.size self.old }
        ensures done { ⟦<ChipRow<C> as NorState>⟧.tells self.old → OnOk result
            (⟦<ChipRow<C> as NorState>⟧.bytes self.new ≡ programmed
            (⟦<ChipRow<C> as NorState>⟧.bytes self.old) at from.now) }
        ensures changes { Changes ⟦<ChipRow<C> as NorState>⟧ self.old self.new
            (HalfProgrammed at from.now) }
        ensures cause { OnErr result (Rose (⟦<ChipRow<C> as NorState>⟧.faults self.old)
            (⟦<ChipRow<C> as NorState>⟧.faults self.new)) }
        ensures writes { Writes ⟦<ChipRow<C> as NorState>⟧ self.old self.new }
        ensures asks { Asks C.ChipState
            (HoldsSome self.old.numbers.chip_size at (length from.now)) self.old self.new result
            (Stuck C.ChipState self.old self.new) }
    {
        self.writes = self.writes.saturating_add(1);
        self.program_all(at, from)
    }

    fn erase(&mut self, unit_ix: u32, mark: Option<Mark>) -> Result<(), Failed>
        requires inside { unit_ix < ⟦<ChipRow<C> as NorState>⟧.size self.old /
            ⟦<ChipRow<C> as NorState>⟧.unit self.old }
        requires marked { ForSome mark (λ m. m.at + 2 ≤
            ⟦<ChipRow<C> as NorState>⟧.unit self.old) }
        ensures done { ⟦<ChipRow<C> as NorState>⟧.tells self.old → OnOk result
            (⟦<ChipRow<C> as NorState>⟧.bytes self.new ≡ erased
            (⟦<ChipRow<C> as NorState>⟧.bytes self.old)
            (unit_ix * ⟦<ChipRow<C> as NorState>⟧.unit self.old)
            (⟦<ChipRow<C> as NorState>⟧.unit self.old)) }
        ensures half { ⟦<ChipRow<C> as NorState>⟧.tells self.old → OnErr result (HalfErased
            (unit_ix * ⟦<ChipRow<C> as NorState>⟧.unit self.old)
            (⟦<ChipRow<C> as NorState>⟧.unit self.old) mark
            (⟦<ChipRow<C> as NorState>⟧.bytes self.old)
            (⟦<ChipRow<C> as NorState>⟧.bytes self.new)) }
        ensures cause { OnErr result (Rose (⟦<ChipRow<C> as NorState>⟧.faults self.old)
            (⟦<ChipRow<C> as NorState>⟧.faults self.new)) }
        ensures writes { Writes ⟦<ChipRow<C> as NorState>⟧ self.old self.new }
        ensures changes { Changes ⟦<ChipRow<C> as NorState>⟧ self.old self.new
            (InErase ⟦<ChipRow<C> as NorState>⟧ self.old self.new unit_ix mark) }
        ensures asks { Asks C.ChipState (HoldsSome self.old.numbers.chip_size
            (unit_ix * self.old.numbers.unit) self.old.numbers.unit) self.old self.new result
            (Stuck C.ChipState self.old self.new) }
    {
        self.writes = self.writes.saturating_add(1);
        let units = self.numbers.chip_size / self.numbers.unit;
        self.erase_in((unit_ix / units) as usize, unit_ix % units, mark)
    }

    ghost sized = { λ d tells. row_sized C.ChipState d.numbers d.moment d.chips.items tells };

    ghost small = { λ d. d.numbers.fits };

    ghost only_now = { λ d image count left. record {
      all_bytes = λ tells. now_stands C.ChipState d.numbers d.moment d.chips.items image tells left;
      all_said = left.4;
    } };

    ghost counts_now = { λ d t le tells. now_counts C.ChipState d.numbers d.moment d.chips.items t le tells };
}

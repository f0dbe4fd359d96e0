//! A chip in memory.
ghost use Rattle.std.specs.Prelude.{◌≡◌, ℕ, ◌<◌, ◌≤◌, List, reverse, slice_index, All};
ghost use Rattle.nor_memory.specs.Moments.{CutAt};
ghost use Rattle.nor_memory.specs.contracts.memory.MemBoardNorState.TheImpl.{ghosts as mem};

use crate::chip_note::Note;
use crate::memory::faults_after;
use crate::noted::{erase_noted, program_noted};
use crate::{CallKind, MemBoard};
use chip_row::{Chip, ChipState};
use nor_core::{Failed, Mark, MemErr, Nor, NorState};
use std::alloc::Global;

/// A chip in memory, which tells its bytes. It notes each program and erase with its moment and what stood before, so
/// that what a cut at a moment may leave is exactly what the rules of NOR flash allow. A call fails where that was asked
/// for or the power is off, or where there is no memory to note it in; then nothing was done. Reads take no memory.
#[derive(Drop)]
pub struct MemChip {
    alloc: Global,
    board: MemBoard,
    notes: Vec<Note>,
    last: u64,
    faults: u64,
    ghost below: { (k : ℕ) → slice_index (mem.bytes board) k < 256 },
    ghost newest: { All (λ note. note.now ≤ last) (reverse notes.items) },
}

impl MemChip {
    ghost use Rattle.nor_memory.specs.contracts.mem_chip.MemChipChipState.TheImpl.{ghosts as chip};
    ghost use Rattle.std.specs.Prelude.{◌≡◌, ◌<◌, ◌%◌, ◌^◌, length, IfOk};
    ghost use Rattle.nor_memory.specs.Ways.{no_plan, plan_failing, plan_cut};
    ghost use Rattle.chip_row.specs.Chips.{ChipReads};

    /// A chip that holds this image, in erase units of `unit` bytes, at least 1. The image is a whole number of units,
    /// below 2^32 bytes. Nothing is to fail, and nothing was called.
    pub fn new(alloc: Global, image: Vec<u8>, unit: u32) -> Result<MemChip, MemErr>
        requires unit { 0 < unit }
        requires whole { length image.items % unit ≡ 0 }
        requires fits { length image.items < 2 ^ 32 }
        ensures bytes { IfOk result (λ it. chip.bytes it ≡ image.items) }
        ensures size { IfOk result (λ it. chip.size it ≡ length image.items) }
        ensures unit { IfOk result (λ it. chip.unit it ≡ unit) }
        ensures last { IfOk result (λ it. chip.last it ≡ 0) }
        ensures faults { IfOk result (λ it. chip.faults it ≡ 0) }
        ensures reads { IfOk result (λ it. chip.device_reads it ≡ 0) }
        ensures planned { IfOk result (λ it. it.board.plan ≡ no_plan) }
    {
        let board = MemBoard::new(alloc, image, unit)?;
        Ok(MemChip {
            alloc,
            board,
            notes: Vec::new(alloc),
            last: 0,
            faults: 0,
        })
    }

    /// The nth call of that kind from now on, counted from 1, fails and does nothing. At most one call of each kind is to
    /// fail: the last asked counts, and 0 asks for none. A chip says nothing, so a `Say` changes nothing.
    pub fn fail_nth(&mut self, kind: CallKind, nth: u64)
        ensures reads { ChipReads chip self.old self.new }
        ensures planned { self.new.board.plan ≡ plan_failing kind nth self.old.board.plan }
    {
        self.board.fail_nth(kind, nth);
    }

    /// After `passed` more programs and erases of this chip the power goes off inside the next one. That call fails, and
    /// so does each later one, reads too; those do nothing. Once the power is off it stays off. The pick says what the
    /// call had done by then, as with a `MemBoard`.
    pub fn cut_after(&mut self, passed: u64, pick: u64)
        ensures reads { ChipReads chip self.old self.new }
        ensures planned { self.new.board.plan ≡ plan_cut passed pick self.old.board.plan }
    {
        self.board.cut_after(passed, pick);
    }

    /// The bytes that it holds.
    pub fn image(&self) -> &[u8]
        ensures { result.now ≡ chip.bytes self.now }
    {
        self.board.image()
    }
}

impl ChipState for MemChip {
    ghost tells = { λ _. Unit {0} };

    ghost bytes = { λ c. mem.bytes c.board };

    ghost size = { λ c. mem.size c.board };

    ghost unit = { λ c. mem.unit c.board };

    ghost faults = { λ c. c.faults };

    ghost device_reads = { λ c. mem.device_reads c.board };

    ghost last = { λ c. c.last };

    ghost left_at = { λ c t image. CutAt (reverse c.notes.items) (mem.bytes c.board) t image };
}

impl Chip for MemChip {
    ghost use Rattle.nor_memory.specs.contracts.mem_chip.MemChipChipState.TheImpl.{ghosts as chip};
    ghost use Rattle.std.specs.Prelude.{◌≡◌, ◌+◌, ◌*◌, ◌/◌, ◌<◌, ◌≤◌, ◌↔◌, IsOk, OnOk, OnErr, List, length, slice_range};
    ghost use Rattle.std.specs.Option.{ForSome};
    ghost use Rattle.nor_memory.specs.Ways.{way_of, plan_after, Answered};
    ghost use Rattle.nor_memory.specs.declared.plan.Way.TheVariants.{Whole};
    ghost use Rattle.nor_memory.specs.Picks.{ProgramLeaves, EraseLeaves};
    ghost use Rattle.nor_core.specs.Count.{counted, Rose};
    ghost use Rattle.nor_core.specs.Flash.{programmed, HalfProgrammed};
    ghost use Rattle.chip_row.specs.Chips.{ChipReads, ChipChanges, ChipHonest, InChipErase, ErasesUnit, HalfErasesUnit, InUnitErase};

    fn size(&self) -> u32 {
        self.board.size()
    }

    fn unit(&self) -> u32 {
        self.board.unit()
    }

    fn last(&self) -> u64 {
        self.last
    }

    fn read(&mut self, at: u32, into: &mut [u8]) -> Result<(), Failed>
        requires some { 0 < length into.old }
        requires inside { at + length into.old ≤ chip.size self.old }
        ensures read { chip.tells self.old →
            OnOk result (into.new ≡ slice_range (chip.bytes self.old) at (at + length into.old)) }
        ensures counted { chip.device_reads self.new ≡ counted (chip.device_reads self.old) }
        ensures cause { OnErr result (Rose (chip.faults self.old) (chip.faults self.new)) }
        ensures reads { ChipReads chip self.old self.new }
        ensures honest { ChipHonest chip self.new }
        ensures whole { IsOk result ↔ (way_of CallKind.Read self.old.board.plan ≡ Whole) }
        ensures planned { self.new.board.plan ≡ plan_after CallKind.Read self.old.board.plan }
        ensures no_fault { OnOk result (self.new.faults ≡ self.old.faults) }
        ensures one_fault { OnErr result (self.new.faults ≡ counted self.old.faults) }
    {
        let answer = self.board.read(at, into);
        self.faults = faults_after(self.faults, answer);
        answer
    }

    fn program(&mut self, now: u64, at: u32, from: &[u8]) -> Result<(), Failed>
        requires later { chip.last self.old < now }
        requires some { 0 < length from.now }
        requires inside { at + length from.now ≤ chip.size self.old }
        ensures done { chip.tells self.old →
            OnOk result (chip.bytes self.new ≡ programmed (chip.bytes self.old) at from.now) }
        ensures cause { OnErr result (Rose (chip.faults self.old) (chip.faults self.new)) }
        ensures changes { ChipChanges chip now self.old self.new
            (HalfProgrammed at from.now (chip.bytes self.old)) }
        ensures honest { ChipHonest chip self.new }
        ensures possible { length self.old.notes.items < length self.new.notes.items →
            (image : List ℕ) → HalfProgrammed at from.now (chip.bytes self.old) image →
            chip.left_at self.new now image }
        ensures left { mem.moment self.old.board < mem.moment self.new.board →
            ProgramLeaves (way_of CallKind.Program self.old.board.plan) at from.now
            (chip.bytes self.old) (chip.bytes self.new) }
        ensures unnoted { mem.moment self.new.board ≡ mem.moment self.old.board →
            chip.bytes self.new ≡ chip.bytes self.old }
        ensures answered { Answered (way_of CallKind.Program self.old.board.plan)
            (mem.moment self.old.board) (mem.moment self.new.board) result }
        ensures noted { OnOk result (length self.old.notes.items < length self.new.notes.items) }
        ensures planned { length self.old.notes.items < length self.new.notes.items →
            self.new.board.plan ≡ plan_after CallKind.Program self.old.board.plan }
        ensures no_fault { OnOk result (self.new.faults ≡ self.old.faults) }
        ensures one_fault { OnErr result (self.new.faults ≡ counted self.old.faults) }
    {
        self.last = now;
        let answer = program_noted(self.alloc, &mut self.board, &mut self.notes, now, at, from);
        self.faults = faults_after(self.faults, answer);
        answer
    }

    fn erase(&mut self, now: u64, unit_ix: u32, mark: Option<Mark>) -> Result<(), Failed>
        requires later { chip.last self.old < now }
        requires inside { unit_ix < chip.size self.old / chip.unit self.old }
        requires marked { ForSome mark (λ m. m.at + 2 ≤ chip.unit self.old) }
        ensures done { chip.tells self.old → OnOk result (ErasesUnit unit_ix
            (chip.unit self.old) (chip.bytes self.old) (chip.bytes self.new)) }
        ensures half { chip.tells self.old → OnErr result (HalfErasesUnit unit_ix
            (chip.unit self.old) mark (chip.bytes self.old) (chip.bytes self.new)) }
        ensures changes { ChipChanges chip now self.old self.new
            (InUnitErase unit_ix (chip.unit self.old) mark (chip.bytes self.old)
            (chip.bytes self.new)) }
        ensures cause { OnErr result (Rose (chip.faults self.old) (chip.faults self.new)) }
        ensures honest { ChipHonest chip self.new }
        ensures possible { length self.old.notes.items < length self.new.notes.items →
            (image : List ℕ) → InChipErase (unit_ix * chip.unit self.old) (chip.unit self.old)
            mark (chip.bytes self.old) (chip.bytes self.new) image →
            chip.left_at self.new now image }
        ensures left { mem.moment self.old.board < mem.moment self.new.board →
            EraseLeaves (way_of CallKind.Erase self.old.board.plan)
            (unit_ix * chip.unit self.old) (chip.unit self.old) mark (chip.bytes self.old)
            (chip.bytes self.new) }
        ensures unnoted { mem.moment self.new.board ≡ mem.moment self.old.board →
            chip.bytes self.new ≡ chip.bytes self.old }
        ensures answered { Answered (way_of CallKind.Erase self.old.board.plan)
            (mem.moment self.old.board) (mem.moment self.new.board) result }
        ensures noted { OnOk result (length self.old.notes.items < length self.new.notes.items) }
        ensures planned { length self.old.notes.items < length self.new.notes.items →
            self.new.board.plan ≡ plan_after CallKind.Erase self.old.board.plan }
        ensures no_fault { OnOk result (self.new.faults ≡ self.old.faults) }
        ensures one_fault { OnErr result (self.new.faults ≡ counted self.old.faults) }
    {
        self.last = now;
        let answer = erase_noted(
            self.alloc,
            &mut self.board,
            &mut self.notes,
            now,
            unit_ix,
            mark,
        );
        self.faults = faults_after(self.faults, answer);
        answer
    }
}

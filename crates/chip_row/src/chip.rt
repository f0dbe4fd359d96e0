ghost use Rattle.std.specs.Prelude.{◌≡◌, ◌+◌, ◌/◌, ◌<◌, ◌≤◌, length, slice_range, OnOk, OnErr};
ghost use Rattle.std.specs.Option.{ForSome};
ghost use Rattle.nor_core.specs.Count.{Rose};
ghost use Rattle.nor_core.specs.Flash.{programmed, HalfProgrammed};
ghost use Rattle.chip_row.specs.Chips.{ChipReads, ChipChanges, ChipHonest, ErasesUnit, HalfErasesUnit, InUnitErase};

use crate::ChipState;
use nor_core::{Failed, Mark};

/// A chip of NOR flash in a row: bytes in erase units of one size, as `Nor` has them. Each program and erase is handed
/// the row's moment, a clock that all chips of the row share. What a chip keeps at every moment (`ChipHonest`) is told by
/// its calls.
pub trait Chip: ChipState + Drop {
    /// How many bytes it holds. This never changes.
    fn size(&self) -> u32
        ensures size { result ≡ Self.size self.now }
        ensures honest { ChipHonest Self.ChipState self.now };

    /// How many bytes an erase unit has. This never changes.
    fn unit(&self) -> u32
        ensures { result ≡ Self.unit self.now };

    /// The moment of the last program or erase, failed ones too; 0 before the first.
    fn last(&self) -> u64
        ensures { result ≡ Self.last self.now };

    /// Reads the bytes from `at` on into `into`, which is not empty. A failed read leaves anything in `into`; no read
    /// changes the chip.
    fn read(&mut self, at: u32, into: &mut [u8]) -> Result<(), Failed>
        requires some { 0 < length into.old }
        requires inside { at + length into.old ≤ Self.size self.old }
        ensures read { Self.tells self.old → OnOk result (into.new ≡ slice_range (Self.bytes self.old) at (at + length into.old)) }
        ensures counted { Self.device_reads self.new ≤ Self.device_reads self.old + 1 }
        ensures cause { OnErr result (Rose (Self.faults self.old) (Self.faults self.new)) }
        ensures reads { ChipReads Self.ChipState self.old self.new }
        ensures honest { ChipHonest Self.ChipState self.new };

    /// Programs the bytes from `at` on, as many as `from` has, which is not empty, at the moment `now`, which is past the
    /// last one. Each byte becomes the old and the asked byte, bit by bit. A program that failed or was cut has cleared
    /// some of the bits that it was to clear. All other bytes stay.
    fn program(&mut self, now: u64, at: u32, from: &[u8]) -> Result<(), Failed>
        requires later { Self.last self.old < now }
        requires some { 0 < length from.now }
        requires inside { at + length from.now ≤ Self.size self.old }
        ensures done { Self.tells self.old → OnOk result (Self.bytes self.new ≡ programmed (Self.bytes self.old) at from.now) }
        ensures cause { OnErr result (Rose (Self.faults self.old) (Self.faults self.new)) }
        ensures changes { ChipChanges Self.ChipState now self.old self.new (HalfProgrammed at from.now (Self.bytes self.old)) }
        ensures honest { ChipHonest Self.ChipState self.new };

    /// Sets each byte of the erase unit of that number, counted from 0, to 0xFF, at the moment `now`, which is past the
    /// last one. An erase that failed or was cut leaves the unit as it was, or with any bytes at all but for the mark,
    /// which does not read as its word. All other units stay.
    fn erase(&mut self, now: u64, unit_ix: u32, mark: Option<Mark>) -> Result<(), Failed>
        requires later { Self.last self.old < now }
        requires inside { unit_ix < Self.size self.old / Self.unit self.old }
        requires marked { ForSome mark (λ m. m.at + 2 ≤ Self.unit self.old) }
        ensures done { Self.tells self.old → OnOk result (ErasesUnit unit_ix (Self.unit self.old) (Self.bytes self.old) (Self.bytes self.new)) }
        ensures half { Self.tells self.old → OnErr result (HalfErasesUnit unit_ix (Self.unit self.old) mark (Self.bytes self.old) (Self.bytes self.new)) }
        ensures changes { ChipChanges Self.ChipState now self.old self.new
            (InUnitErase unit_ix (Self.unit self.old) mark (Self.bytes self.old) (Self.bytes self.new)) }
        ensures cause { OnErr result (Rose (Self.faults self.old) (Self.faults self.new)) }
        ensures honest { ChipHonest Self.ChipState self.new };
}

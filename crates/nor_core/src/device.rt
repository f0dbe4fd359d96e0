ghost use Rattle.std.specs.Prelude.{◌≡◌, ℕ, ◌+◌, ◌*◌, ◌/◌, ◌^◌, ◌<◌, ◌≤◌, ◌++◌, List, length, slice_range, OnOk, OnErr};
ghost use Rattle.std.specs.Option.{ForSome};
ghost use Rattle.nor_core.specs.Count.{counted, Rose};
ghost use Rattle.nor_core.specs.Flash.{programmed, HalfProgrammed, erased, HalfErased};
ghost use Rattle.nor_core.specs.Device.{OnlyReads, Leaves, Stands, Changes, InErase, InSay, Writes, Says};

use crate::NorState;
use thiserror::Error;

/// The answer of a call that failed, or of which the device doesn't know that it was done.
#[derive(Clone, Copy, Debug, PartialEq, Eq, Error)]
#[error("the device failed")]
pub struct Failed;

/// Why a device in memory could not be made.
#[derive(Debug, Drop, Error)]
pub enum MemErr {
    /// There is no memory for it.
    #[error("out of memory")]
    Memory,
}

/// Two bytes in an erase unit that an interrupted erase never leaves as this word, where it changed the unit at all.
#[derive(Clone, Copy, Debug, PartialEq, Eq)]
pub struct Mark {
    /// The first of the two bytes, counted from the beginning of the unit. Both lie in the unit.
    pub at: u32,
    /// What they are not to be, read little endian.
    pub word: u16,
}

/// A chip of NOR flash: bytes in erase units of one size. A program only clears bits, and an erase sets a whole unit to
/// 0xFF. Between two erases the same byte may be programmed more than once, with more bits cleared each time. The power
/// can go off inside a program or an erase.
///
/// A call answers `Ok` only once the chip has done all of it. `at` counts from the first byte of the chip, and no call
/// reaches past its end.
pub trait Nor: NorState {
    /// How many bytes it holds. This never changes.
    fn size(&self) -> u32
        ensures { result ≡ Self.size self.now };

    /// How many bytes an erase unit has, which one erase sets together. This never changes.
    fn unit(&self) -> u32
        ensures { result ≡ Self.unit self.now };

    /// Reads the bytes from `at` on into `into`, which is not empty. They may begin anywhere, and reach over several
    /// units. A failed read leaves anything in `into`; no read changes the device.
    fn read(&mut self, at: u32, into: &mut [u8]) -> Result<(), Failed>
        requires some { 0 < length into.old }
        requires inside { at + length into.old ≤ Self.size self.old }
        ensures read { Self.tells self.old → OnOk result (into.new ≡ slice_range (Self.bytes self.old) at (at + length into.old)) }
        ensures counted { Self.device_reads self.new ≤ Self.device_reads self.old + 1 }
        ensures cause { OnErr result (Rose (Self.faults self.old) (Self.faults self.new)) }
        ensures only_reads { OnlyReads Self.NorState self.old self.new };

    /// Programs the bytes from `at` on, as many as `from` has, which is not empty. They may begin anywhere, and reach
    /// over several units and over the pages within which a chip programs. Each becomes the old and the asked byte, bit
    /// by bit, so no bit is ever set. A program that failed or was cut has cleared some of the bits that it was to
    /// clear, and any of them may be left. All other bytes stay.
    fn program(&mut self, at: u32, from: &[u8]) -> Result<(), Failed>
        requires some { 0 < length from.now }
        requires inside { at + length from.now ≤ Self.size self.old }
        ensures done { Self.tells self.old → OnOk result (Self.bytes self.new ≡ programmed (Self.bytes self.old) at from.now) }
        ensures changes { Changes Self.NorState self.old self.new (HalfProgrammed at from.now) }
        ensures cause { OnErr result (Rose (Self.faults self.old) (Self.faults self.new)) }
        ensures writes { Writes Self.NorState self.old self.new };

    /// Sets each byte of the erase unit of that number, counted from 0, to 0xFF. An erase that failed or was cut leaves
    /// the unit as it was, or with any bytes at all but for the mark, which does not read as its word. All other units
    /// stay. So a driver reads the two bytes of the mark first, and programs them to 0 if they are the word.
    fn erase(&mut self, unit_ix: u32, mark: Option<Mark>) -> Result<(), Failed>
        requires inside { unit_ix < Self.size self.old / Self.unit self.old }
        requires marked { ForSome mark (λ m. m.at + 2 ≤ Self.unit self.old) }
        ensures done { Self.tells self.old →
            OnOk result (Self.bytes self.new ≡ erased (Self.bytes self.old) (unit_ix * Self.unit self.old) (Self.unit self.old)) }
        ensures half { Self.tells self.old →
            OnErr result (HalfErased (unit_ix * Self.unit self.old) (Self.unit self.old) mark (Self.bytes self.old) (Self.bytes self.new)) }
        ensures cause { OnErr result (Rose (Self.faults self.old) (Self.faults self.new)) }
        ensures writes { Writes Self.NorState self.old self.new }
        ensures changes { Changes Self.NorState self.old self.new (InErase Self.NorState self.old self.new unit_ix mark) };

    // The size is the number of the bytes.
    ghost sized: { (d : Self) → Self.tells d → length (Self.bytes d) ≡ Self.size d };

    // The size is a u32.
    ghost small: { (d : Self) → Self.size d < 2 ^ 32 };

    // A cut now leaves what stands.
    ghost only_now: { (d : Self) (image : List ℕ) (count : ℕ) → Self.left_since d (Self.moment d) image count → Stands Self.NorState d image count };

    // What stands now is one of the things that a cut since an earlier moment may leave.
    ghost counts_now: { (d : Self) (t : ℕ) → t ≤ Self.moment d → Self.tells d → Self.left_since d t (Self.bytes d) (length (Self.said d)) };
}

/// A chip beside a line on which bytes are said, as replies are.
pub trait Board: Nor {
    /// Says a piece, which may be empty, after all that was said before. Where it failed or was cut a front of the piece
    /// was said, which may be none or all of it. It changes no byte of the chip.
    fn say(&mut self, piece: &[u8]) -> Result<(), Failed>
        ensures done { Self.tells self.old → OnOk result (Self.said self.new ≡ Self.said self.old ++ piece.now) }
        ensures says { Says Self.NorState self.old self.new piece.now }
        ensures cause { OnErr result (Rose (Self.faults self.old) (Self.faults self.new)) }
        ensures cuts { Leaves Self.NorState self.old self.new (InSay Self.NorState self.old piece.now) };
}

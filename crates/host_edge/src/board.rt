ghost use Rattle.std.specs.Prelude.{[], ◌+◌};

use crate::trouble::note;
use crate::{FileChip, Trouble};
use chip_row::{Chip, ChipRow};
use nor_core::{Board, Failed, Mark, Nor, NorState};
use std::io::Write;

/// A row of chips, and a writer to which is said what is said. It tells nothing. The program's row is of `FileChip`s and
/// not of boxes, so that the board can still tell why a file failed.
#[derive(Drop)]
pub struct StdBoard<W: Write + Drop, C: Chip = Box<dyn Chip>> {
    row: ChipRow<C>,
    out: W,
    says: u64,
    faults: u64,
    trouble: Option<Trouble>,
}

impl<W: Write + Drop, C: Chip> StdBoard<W, C> {
    /// The board over a row. What is said goes to `out`, which is flushed at each call.
    pub fn new(row: ChipRow<C>, out: W) -> StdBoard<W, C> {
        StdBoard {
            row,
            out,
            says: 0,
            faults: 0,
            trouble: None,
        }
    }

    /// The number of the chip that failed, counted from 0; none where none did, or only after something could not be said.
    pub fn failed_chip(&self) -> Option<usize> {
        match self.trouble {
            Some(_) => None,
            None => self.row.fuse_chip(),
        }
    }

    /// The row.
    pub fn row(&self) -> &ChipRow<C> {
        &self.row
    }

    /// The row and the writer.
    pub fn give_back(self) -> (ChipRow<C>, W) {
        let StdBoard {
            row,
            out,
            says: _,
            faults: _,
            trouble: _,
        } = self;
        (row, out)
    }
}

/// What failed first of the chip of a row that failed, if one did.
pub fn row_trouble(row: &ChipRow<FileChip>) -> Option<&Trouble> {
    row.chips().get(row.fuse_chip()?)?.trouble()
}

/// A chip of a row whose use can't be ended, by its number counted from 0, and why.
#[derive(Drop)]
pub struct Unfinished {
    /// The number of the chip.
    pub chip: usize,
    /// What failed.
    pub trouble: Trouble,
}

/// Ends the use of a row: of each chip what was written is brought onto the host's medium. Answers the first one that can't be ended.
pub fn finish_row(row: &ChipRow<FileChip>) -> Option<Unfinished> {
    let mut first = None;
    for (chip, one) in row.chips().iter().enumerate() {
        if let Err(trouble) = one.finish() {
            if first.is_none() {
                first = Some(Unfinished { chip, trouble });
            }
        }
    }
    first
}

/// The number of the first chip whose file another program has, counted from 0.
pub fn busy_chip(row: &ChipRow<FileChip>) -> Option<usize> {
    for (chip, one) in row.chips().iter().enumerate() {
        if one.trouble().is_some_and(|trouble| trouble.is_busy()) {
            return Some(chip);
        }
    }
    None
}

impl<W: Write + Drop> StdBoard<W, FileChip> {
    /// Ends the use of the row, as `finish_row` does.
    pub fn finish(&self) -> Option<Unfinished> {
        finish_row(&self.row)
    }

    /// The number of the first chip whose file another program has, counted from 0.
    pub fn busy_chip(&self) -> Option<usize> {
        busy_chip(&self.row)
    }

    /// What failed first, of the chip that failed or else of what was said, if anything did.
    pub fn trouble(&self) -> Option<&Trouble> {
        match self.failed_chip() {
            Some(_) => row_trouble(&self.row),
            None => self.trouble.as_ref(),
        }
    }
}

impl<W: Write + Drop, C: Chip> NorState for StdBoard<W, C> {
    ghost use Rattle.std.specs.Prelude.{[], ◌+◌};

    ghost tells = { λ _. ⊥ };

    ghost bytes = { λ _. [] };

    ghost size = { λ d. ⟦<ChipRow<C> as NorState>⟧.size d.row };

    ghost unit = { λ d. ⟦<ChipRow<C> as NorState>⟧.unit d.row };

    ghost said = { λ _. [] };

    ghost faults = { λ d. d.faults };

    ghost moment = { λ d. ⟦<ChipRow<C> as NorState>⟧.moment d.row + d.says };

    ghost device_reads = { λ d. ⟦<ChipRow<C> as NorState>⟧.device_reads d.row };

    ghost device_writes = { λ d. ⟦<ChipRow<C> as NorState>⟧.device_writes d.row };

    ghost left_since = { λ _ _ _ _. ⊥ };
}

impl<W: Write + Drop, C: Chip> Nor for StdBoard<W, C> {
    fn size(&self) -> u32 {
        self.row.size()
    }

    fn unit(&self) -> u32 {
        self.row.unit()
    }

    fn read(&mut self, at: u32, into: &mut [u8]) -> Result<(), Failed> {
        if self.row.read(at, into).is_ok() {
            return Ok(());
        }
        self.faults = self.faults.saturating_add(1);
        Err(Failed)
    }

    fn program(&mut self, at: u32, from: &[u8]) -> Result<(), Failed> {
        if self.row.program(at, from).is_ok() {
            return Ok(());
        }
        self.faults = self.faults.saturating_add(1);
        Err(Failed)
    }

    fn erase(&mut self, unit_ix: u32, mark: Option<Mark>) -> Result<(), Failed> {
        if self.row.erase(unit_ix, mark).is_ok() {
            return Ok(());
        }
        self.faults = self.faults.saturating_add(1);
        Err(Failed)
    }

    ghost sized = { λ d tells. absurd tells };

    ghost small = { λ d. d.row.numbers.fits };

    ghost only_now = { λ d image count left. absurd left };

    ghost counts_now = { λ d t le tells. absurd tells };
}

// Writes a piece whole and flushes it.
fn write_out<W: Write>(out: &mut W, piece: &[u8]) -> Result<(), Trouble> {
    match out.write_all(piece).and_then(|()| out.flush()) {
        Ok(()) => Ok(()),
        Err(why) => Err(Trouble::of_output(why)),
    }
}

impl<W: Write + Drop, C: Chip> Board for StdBoard<W, C> {
    fn say(&mut self, piece: &[u8]) -> Result<(), Failed> {
        if self.says < u64::MAX {
            self.says += 1;
            let Err(trouble) = write_out(&mut self.out, piece) else {
                return Ok(());
            };
            // (where a chip failed before, that is what is told)
            if self.row.fuse_chip().is_none() {
                note(&mut self.trouble, trouble);
            }
        }
        self.faults = self.faults.saturating_add(1);
        Err(Failed)
    }
}

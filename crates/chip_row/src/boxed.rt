//! A boxed chip of any kind is a chip.
use crate::{Chip, ChipState};
use nor_core::{Failed, Mark};

impl ChipState for Box<dyn Chip> {
    ghost tells = { λ b. (Chip-box b).ChipState.tells b.value };

    ghost bytes = { λ b. (Chip-box b).ChipState.bytes b.value };

    ghost size = { λ b. (Chip-box b).ChipState.size b.value };

    ghost unit = { λ b. (Chip-box b).ChipState.unit b.value };

    ghost faults = { λ b. (Chip-box b).ChipState.faults b.value };

    ghost device_reads = { λ b. (Chip-box b).ChipState.device_reads b.value };

    ghost last = { λ b. (Chip-box b).ChipState.last b.value };

    ghost left_at = { λ b t image. (Chip-box b).ChipState.left_at b.value t image };
}

impl Chip for Box<dyn Chip> {
    fn size(&self) -> u32 {
        (**self).size()
    }

    fn unit(&self) -> u32 {
        (**self).unit()
    }

    fn last(&self) -> u64 {
        (**self).last()
    }

    fn read(&mut self, at: u32, into: &mut [u8]) -> Result<(), Failed> {
        (**self).read(at, into)
    }

    fn program(&mut self, now: u64, at: u32, from: &[u8]) -> Result<(), Failed> {
        (**self).program(now, at, from)
    }

    fn erase(&mut self, now: u64, unit_ix: u32, mark: Option<Mark>) -> Result<(), Failed> {
        (**self).erase(now, unit_ix, mark)
    }
}

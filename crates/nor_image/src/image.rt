ghost use Rattle.std.specs.Prelude.{◌≡◌, ℕ, ◌^◌, ◌<◌, [], length};
ghost use Rattle.std.proofs.Common.{refl};

use nor_core::{Failed, Mark, Nor, NorState};

/// Bytes in lent memory, as a device with erase units of any size. It can only be read, and a read never fails; a program or an
/// erase fails, and changes nothing.
#[derive(Drop)]
pub struct Image<'b> {
    /// The bytes.
    pub bytes: &'b [u8],
    /// Bytes of an erase unit, as `unit` tells them.
    pub unit: u32,
    /// How many programs and erases were asked for, and failed. Each is a fault.
    pub refused: u64,
    pub ghost few: { length bytes.now < 2 ^ 32 },
}

impl<'b> Image<'b> {
    ghost use Rattle.std.specs.Prelude.{◌≡◌, ◌^◌, ◌<◌, length};

    /// These bytes, in erase units of so many.
    pub fn new(bytes: &'b [u8], unit: u32) -> Image<'b>
        requires { length bytes.now < 2 ^ 32 }
        ensures bytes { result.bytes.now ≡ bytes.now }
        ensures unit { result.unit ≡ unit }
        ensures refused { result.refused ≡ 0 }
    {
        Image {
            bytes,
            unit,
            refused: 0,
        }
    }
}

impl<'b> NorState for Image<'b> {
    ghost tells = { λ _. Unit {0} };

    ghost bytes = { λ d. d.bytes.now };

    ghost size = { λ d. length d.bytes.now };

    ghost unit = { λ d. d.unit };

    ghost said = { λ _. [] };

    ghost faults = { λ d. d.refused };

    ghost moment = { λ _. 0 };

    ghost device_reads = { λ _. 0 };

    ghost device_writes = { λ d. d.refused };

    ghost left_since = { λ d t image count. (image ≡ d.bytes.now) × (count ≡ 0) };
}

impl<'b> Nor for Image<'b> {
    fn size(&self) -> u32 {
        self.bytes.len() as u32
    }

    fn unit(&self) -> u32 {
        self.unit
    }

    fn read(&mut self, at: u32, into: &mut [u8]) -> Result<(), Failed> {
        let from = at as usize;
        into.copy_from_slice(&self.bytes[from..from + into.len()]);
        Ok(())
    }

    fn program(&mut self, _at: u32, _from: &[u8]) -> Result<(), Failed> {
        self.refused = self.refused.saturating_add(1);
        Err(Failed)
    }

    fn erase(&mut self, _unit_ix: u32, _mark: Option<Mark>) -> Result<(), Failed> {
        self.refused = self.refused.saturating_add(1);
        Err(Failed)
    }

    ghost sized = { λ d tells. refl };

    ghost small = { λ d. d.few };

    ghost only_now = { λ d image count left. record { all_bytes = λ _. left.0; all_said = left.1 } };

    ghost counts_now = { λ d t le tells. (refl, refl) };
}

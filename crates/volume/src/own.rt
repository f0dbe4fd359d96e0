// The check of a volume that this engine alone wrote.
use crate::stage::Stage;
use crate::{CheckErr, Report, Volume};
use nor_core::{Nor, NorState};

impl<'b, N: Nor> Volume<'b, N> {
    ghost use Rattle.std.specs.Prelude.{◌≡◌, ◌≤◌, length, min, replicate, OnOk, OnErr, Err, None, true, false};
    ghost use Rattle.geometry.specs.Numbers.{check_need};
    ghost use Rattle.vol_check.specs.Owned.{IsOwn};
    ghost use Rattle.volume.specs.Checking.{ChecksVolume};
    ghost use Rattle.volume.specs.Opening.{is_mounted};
    ghost use Rattle.volume.specs.Stages.{takes_calls};
    ghost use Rattle.volume.specs.Same.{IsSameVolume};
    ghost use Rattle.volume.specs.Holds.{memory};
    ghost use Rattle.volume.specs.Mapping.{GivesUpMap};

    /// Checks a mounted volume as `check` does, but doesn't read free pages: for a caller who knows that in each block with its magic
    /// every entry of 0xFFFF lies over an erased page. So it is where this engine alone wrote the volume since it was formatted, or since a
    /// `check` that ended well, also after a cut: it programs the entry of a page before the page. (Each tidy volume is so; that no call and
    /// no cut changes it is by that order, and no clause says it.) A page that another program wrote behind an entry of 0xFFFF is taken
    /// for a free one, and what is written to it later is lost: then call `check`.
    pub fn check_own(&mut self, lent: &mut [u8]) -> Result<Report, CheckErr>
        requires room { check_need self.old.geometry ≤ length lent.old }
        requires own { N.tells self.old.nor.now → IsOwn self.old.geometry (N.bytes self.old.nor.now) }
        ensures checks { is_mounted self.old.stage ≡ true → ChecksVolume N.NorState self.old.geometry self.old.nor.now self.new.nor.now result }
        ensures unmounted { is_mounted self.old.stage ≡ false → (result ≡ Err CheckErr.NotMounted) × (self.new ≡ self.old) }
        ensures taken { OnOk result (takes_calls self.new ≡ true) }
        ensures stage { OnErr result (self.new.stage ≡ self.old.stage) }
        ensures counted { OnOk result (self.new.counted ≡ true) }
        ensures closed { OnOk result (memory self.new ≡ record { slots = replicate (min 65535 (length self.old.slots.now)) None; run = None }) }
        ensures slots { OnErr result (self.new.slots.now ≡ self.old.slots.now) }
        ensures same { IsSameVolume self.old self.new }
        ensures map { is_mounted self.old.stage ≡ true → GivesUpMap self.old self.new }
    {
        if self.stage != Stage::Mounted {
            return Err(CheckErr::NotMounted);
        }
        self.check_as(lent, true)
    }
}

ghost use Rattle.std.specs.Prelude.{◌≡◌};
ghost use Rattle.vol_check.specs.declared.report.CheckErr.{CheckErr};
ghost use Rattle.vol_check.specs.Checks.{as_check_err};

use flash_view::StepErr;
use geometry::GeoErr;
use nor_core::Failed;
use table_model::Differ;

/// What a check found and did.
#[derive(Clone, Copy, Debug, PartialEq, Eq)]
pub struct Report {
    /// Whether a block without its magic was erased.
    pub erased: bool,
    /// Entries that were set to zero.
    pub killed: u32,
    /// Ids that were damaged, and are gone.
    pub damaged: u32,
    /// Free blocks in the end.
    pub free_blocks: u32,
}

/// Why a volume isn't checked.
#[derive(Clone, Copy, Debug, PartialEq, Eq)]
pub enum CheckErr {
    /// The volume isn't mounted, or it was checked since.
    NotMounted,
    /// The numbers don't allow writing.
    Wrong(GeoErr),
    /// So many blocks are shared, and they don't fit over: they hold wanted pages of both kinds, and too few places are free for their
    /// index pages.
    Mixed {
        /// How many.
        blocks: u32,
    },
    /// The device failed.
    DeviceFault,
    /// A page that cleaning moves reads otherwise than it was written.
    Damaged(Differ),
}

impl From<Failed> for CheckErr {
    ghost from_gives = { λ _ why. why ≡ CheckErr.DeviceFault };

    fn from(_: Failed) -> CheckErr {
        CheckErr::DeviceFault
    }
}

impl From<StepErr> for CheckErr {
    ghost from_gives = { λ step why. why ≡ as_check_err step };

    fn from(step: StepErr) -> CheckErr {
        match step {
            StepErr::DeviceFault => CheckErr::DeviceFault,
            StepErr::Damaged(differ) => CheckErr::Damaged(differ),
        }
    }
}

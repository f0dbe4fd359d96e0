ghost use Rattle.std.specs.Prelude.{◌≡◌};
ghost use Rattle.flash_view.specs.declared.kinds.StepErr.{StepErr};
ghost use Rattle.flash_view.specs.Steps.{as_fs_err};

use nor_core::Failed;
use table_model::{Differ, FsErr};

/// The two kinds of pages. A block holds live pages of one kind alone.
#[derive(Clone, Copy, Debug, PartialEq, Eq)]
pub enum Kind {
    /// Index pages: header pages, and the further ones that name data pages.
    Index,
    /// Data pages: file bytes.
    Data,
}

/// Why a step on a volume was not done.
#[derive(Clone, Copy, Debug, PartialEq, Eq)]
pub enum StepErr {
    /// The device failed.
    DeviceFault,
    /// A page doesn't read as what was written there.
    Damaged(Differ),
}

impl From<Failed> for StepErr {
    ghost from_gives = { λ _ why. why ≡ StepErr.DeviceFault };

    fn from(_: Failed) -> StepErr {
        StepErr::DeviceFault
    }
}

impl From<StepErr> for FsErr {
    ghost from_gives = { λ why err. err ≡ as_fs_err why };

    fn from(why: StepErr) -> FsErr {
        match why {
            StepErr::DeviceFault => FsErr::DeviceFault,
            StepErr::Damaged(differ) => FsErr::Damaged(differ),
        }
    }
}

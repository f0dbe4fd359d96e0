ghost use Rattle.std.specs.Prelude.{◌≡◌};
ghost use Rattle.vol_mount.specs.declared.lent.AcceptErr.{AcceptErr};
ghost use Rattle.firmware_example.specs.declared.trouble.Trouble.{Trouble};

use geometry::GeoErr;
use table_model::FsErr;
use vol_mount::{AcceptErr, FormatErr, MountErr};
use volume::CheckErr;

/// Why a device can't use its volume.
#[derive(Clone, Copy, Debug, PartialEq, Eq)]
pub enum Trouble {
    /// The numbers, the chip or the lent memory don't fit.
    Accept(AcceptErr),
    /// No volume could be made.
    Format(FormatErr),
    /// The chip holds no volume, or failed while that was looked for.
    Mount(MountErr),
    /// The check refused the volume, or the chip failed in it.
    Check(CheckErr),
    /// A call was refused, or the chip failed in it.
    Call(FsErr),
}

impl From<GeoErr> for Trouble {
    ghost from_gives = { λ why trouble. trouble ≡ Trouble.Accept (AcceptErr.Wrong why) };

    fn from(why: GeoErr) -> Trouble {
        Trouble::Accept(AcceptErr::Wrong(why))
    }
}

impl From<AcceptErr> for Trouble {
    ghost from_gives = { λ why trouble. trouble ≡ Trouble.Accept why };

    fn from(why: AcceptErr) -> Trouble {
        Trouble::Accept(why)
    }
}

impl From<FormatErr> for Trouble {
    ghost from_gives = { λ why trouble. trouble ≡ Trouble.Format why };

    fn from(why: FormatErr) -> Trouble {
        Trouble::Format(why)
    }
}

impl From<MountErr> for Trouble {
    ghost from_gives = { λ why trouble. trouble ≡ Trouble.Mount why };

    fn from(why: MountErr) -> Trouble {
        Trouble::Mount(why)
    }
}

impl From<CheckErr> for Trouble {
    ghost from_gives = { λ why trouble. trouble ≡ Trouble.Check why };

    fn from(why: CheckErr) -> Trouble {
        Trouble::Check(why)
    }
}

impl From<FsErr> for Trouble {
    ghost from_gives = { λ why trouble. trouble ≡ Trouble.Call why };

    fn from(why: FsErr) -> Trouble {
        Trouble::Call(why)
    }
}

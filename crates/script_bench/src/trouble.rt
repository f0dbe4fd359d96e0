use geometry::GeoErr;
use nor_core::{Failed, MemErr};
use std::alloc::AllocError;
use table_model::FsErr;
use thiserror::Error;
use vol_mount::{AcceptErr, FormatErr, MountErr};

/// Why something can't be done on a device in memory.
#[derive(Debug, Drop, Error)]
pub enum Trouble {
    /// There is no memory.
    #[error("no memory")]
    Memory(#[from(alloc)] AllocError),
    /// The numbers are no volume's.
    #[error("the numbers are no volume's: {0}")]
    Numbers(#[from] GeoErr),
    /// The device isn't as large as the volume, or no whole number of its units.
    #[error("the device does not fit")]
    Device,
    /// The device or the memory isn't taken.
    #[error("the device or the memory is not taken: {0}")]
    Accept(AcceptErr),
    /// The volume isn't formatted.
    #[error("the volume is not formatted: {0}")]
    Format(FormatErr),
    /// The volume isn't mounted.
    #[error("the volume is not mounted: {0}")]
    Mount(MountErr),
    /// A call is refused that wasn't to be.
    #[error("a call is refused: {0:?}")]
    Refused(FsErr),
    /// A line is none that there is, or a line of a script is no call.
    #[error("it is not understood")]
    Line,
    /// Bytes are no text, or more than a line may have.
    #[error("bytes that are no text")]
    Text,
}

impl From<Failed> for Trouble {
    fn from(_why: Failed) -> Trouble {
        Trouble::Device
    }
}

impl From<MemErr> for Trouble {
    fn from(_why: MemErr) -> Trouble {
        Trouble::Device
    }
}

impl From<AcceptErr> for Trouble {
    fn from(why: AcceptErr) -> Trouble {
        Trouble::Accept(why)
    }
}

impl From<FormatErr> for Trouble {
    fn from(why: FormatErr) -> Trouble {
        Trouble::Format(why)
    }
}

impl From<MountErr> for Trouble {
    fn from(why: MountErr) -> Trouble {
        Trouble::Mount(why)
    }
}

impl From<FsErr> for Trouble {
    fn from(why: FsErr) -> Trouble {
        Trouble::Refused(why)
    }
}

ghost use Rattle.std.specs.Prelude.{◌≡◌};
ghost use Rattle.vol_mount.specs.declared.lent.MountErr.{MountErr};
ghost use Rattle.vol_mount.specs.declared.lent.FormatErr.{FormatErr};

use fd_table::FdSlot;
use geometry::GeoErr;
use nor_core::{Failed, Nor, NorState};
use thiserror::Error;

/// The memory that a mounted volume works with. What it holds at first doesn't matter.
#[derive(Drop)]
pub struct Lent<'b> {
    /// Bytes for work, at least `Geometry::work_need`.
    pub work: &'b mut [u8],
    /// Descriptors, at least one.
    pub slots: &'b mut [FdSlot],
    /// Bytes for copies of pages, at least `Geometry::cache_need`.
    pub cache: &'b mut [u8],
    /// Bytes for written bytes that wait, at least one page.
    pub window: &'b mut [u8],
}

/// What a volume gives back: the device and the lent memory.
#[derive(Drop)]
pub struct Returned<'b, N: Nor> {
    /// The device.
    pub nor: &'b mut N,
    /// The lent memory.
    pub lent: Lent<'b>,
}

/// The memory that a reader works with. What it holds at first doesn't matter.
#[derive(Drop)]
pub struct ReaderLent<'b> {
    /// Bytes for work, at least `Geometry::work_need`.
    pub work: &'b mut [u8],
    /// Bytes for copies of pages, at least `Geometry::cache_need`.
    pub cache: &'b mut [u8],
    /// Bytes for what a survey finds, at least `Geometry::check_need`.
    pub check: &'b mut [u8],
}

/// What a reader gives back: the device and the lent memory.
#[derive(Drop)]
pub struct ReaderReturned<'b, N: Nor> {
    /// The device.
    pub nor: &'b mut N,
    /// The lent memory.
    pub lent: ReaderLent<'b>,
}

/// A part of the lent memory.
#[derive(Clone, Copy, Debug, PartialEq, Eq, Error)]
pub enum Part {
    /// Bytes for work.
    #[error("work")]
    Work,
    /// Descriptors.
    #[error("descriptors")]
    Slots,
    /// Bytes for copies of pages.
    #[error("cache")]
    Cache,
    /// Bytes for the check, or for a reader's survey.
    #[error("check")]
    Check,
    /// Bytes for written bytes that wait.
    #[error("window")]
    Window,
    /// Bytes for a line of a script and its reply.
    #[error("line")]
    Line,
}

/// Why a device or the lent memory isn't taken for a volume. Nothing was read then.
#[derive(Clone, Copy, Debug, PartialEq, Eq, Error)]
pub enum AcceptErr {
    /// The device doesn't fit the numbers.
    #[error("{0}")]
    Wrong(GeoErr),
    /// A part of the lent memory is shorter than its need: in bytes, or in descriptors.
    #[error("the memory lent for {part} has {given}, and {need} are needed")]
    ShortBuffer { part: Part, need: u32, given: usize },
}

/// Why a volume is not mounted. Nothing was written then.
#[derive(Clone, Copy, Debug, PartialEq, Eq, Error)]
pub enum MountErr {
    /// Two or more blocks lack their magic: this is no volume of these numbers.
    #[error("{spoiled} blocks lack their magic: this is no volume of these numbers")]
    NotAFs { spoiled: u32 },
    /// The device failed.
    #[error("the device failed")]
    DeviceFault,
}

impl From<Failed> for MountErr {
    ghost from_gives = { λ _ why. why ≡ MountErr.DeviceFault };

    fn from(_: Failed) -> MountErr {
        MountErr::DeviceFault
    }
}

/// Why a volume is not formatted.
#[derive(Clone, Copy, Debug, PartialEq, Eq, Error)]
pub enum FormatErr {
    /// The numbers don't allow writing, or the device doesn't fit them. Nothing was written.
    #[error("{0}")]
    Wrong(GeoErr),
    /// The device failed. What was written stays, and the volume can be formatted again.
    #[error("the device failed")]
    DeviceFault,
}

impl From<Failed> for FormatErr {
    ghost from_gives = { λ _ why. why ≡ FormatErr.DeviceFault };

    fn from(_: Failed) -> FormatErr {
        FormatErr::DeviceFault
    }
}

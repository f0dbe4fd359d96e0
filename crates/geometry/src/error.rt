ghost use Rattle.std.specs.Prelude.{◌≡◌};
ghost use Rattle.geometry.specs.Codes.{code_of};

use thiserror::Error;

/// Why a volume of these numbers is refused.
#[derive(Clone, Copy, Debug, PartialEq, Eq, Error)]
pub enum GeoErr {
    /// The page isn't a power of two from 128 to 4096 bytes.
    #[error("the page is no power of two from 128 to 4096")]
    BadPage,
    /// The block isn't a whole number of pages and erase units, has fewer than two pages, or has lookup
    /// pages that don't fit its first erase unit.
    #[error("the block does not fit pages and erase units")]
    BadBlock,
    /// There are fewer than three blocks.
    #[error("fewer than three blocks")]
    TooFewBlocks,
    /// There are more than 65,535 pages.
    #[error("more than 65535 pages")]
    TooManyPages,
    /// The lookup pages have no slots left for the magic and the erase count.
    #[error("no room for the magic")]
    NoRoomForMagic,
    /// There are more than 64 meta bytes.
    #[error("more than 64 meta bytes")]
    BadMeta,
    /// There are more than 32,766 entry pages, so that ids could run out: such a volume is only read.
    #[error("more than 32766 usable pages")]
    TooManyUsable,
    /// There are fewer than four blocks, too few to collect garbage: such a volume is only read.
    #[error("fewer than four blocks")]
    TooFewToWrite,
    /// The device has another erase unit, or is smaller than the volume.
    #[error("the device is of another size or unit")]
    WrongChip,
}

impl GeoErr {
    /// The number by which the tools tell it: 1 to 8, and 10 for a device that doesn't fit.
    pub fn code(self) -> u8
        ensures { result ≡ code_of self }
    {
        match self {
            GeoErr::BadPage => 1,
            GeoErr::BadBlock => 2,
            GeoErr::TooFewBlocks => 3,
            GeoErr::TooManyPages => 4,
            GeoErr::NoRoomForMagic => 5,
            GeoErr::BadMeta => 6,
            GeoErr::TooManyUsable => 7,
            GeoErr::TooFewToWrite => 8,
            GeoErr::WrongChip => 10,
        }
    }
}

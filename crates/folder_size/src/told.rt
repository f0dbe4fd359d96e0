use geometry::GeoErr;

/// The numbers of a volume without those of its blocks and its magic.
#[derive(Clone, Copy, Debug, PartialEq, Eq)]
pub struct Shape {
    /// Bytes of a page.
    pub page: u32,
    /// Bytes of a block.
    pub block: u32,
    /// Bytes of an erase unit of the device; an image that is made as a file has units of a block.
    pub phys: u32,
    /// Meta bytes of each file.
    pub meta: u32,
}

/// How many blocks a volume needs for the files of a folder.
#[derive(Clone, Copy, Debug, PartialEq, Eq)]
pub enum Need {
    /// So many at least, from 4 on.
    Blocks(u32),
    /// No number is enough, since no image is made of a file of that name. The file is counted from 0.
    BadName { at: u32 },
    /// No volume that can be written has so many: the files take so many index pages and data pages.
    TooMany { index: u128, data_pages: u128 },
    /// No number of blocks makes a volume that can be written; why four don't, the fewest of such a volume.
    NoVolume(GeoErr),
}

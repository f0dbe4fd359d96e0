use geometry::Geometry;
use meta_guess::Counts;

/// The numbers of meta bytes that read most of a volume.
#[derive(Clone, Copy, Debug, PartialEq, Eq)]
pub struct MetaRange {
    /// The least of them.
    pub first: u32,
    /// The last of those that follow it without a gap.
    pub last: u32,
    /// What each of these reads.
    pub counts: Counts,
}

/// A volume that a file may hold.
#[derive(Clone, Copy, Debug)]
pub struct Found {
    /// The number of its place in the file: `volume_detect::byte_of` tells the byte.
    pub place: u32,
    /// Its numbers, with the least number of meta bytes by which most files are whole.
    pub volume: Geometry,
    /// The last of the numbers of meta bytes from that one on by which as many are whole.
    pub last_meta: u32,
    /// How many files are whole by these, and how many ids are damaged.
    pub counts: Counts,
    /// How many of its blocks lack their magic. A volume has one of these at most; where there are more some were overwritten.
    pub spoiled: u32,
    /// How many ids are doubled there: two live header pages of each, or more. A volume at rest has none. Two or more tell that these
    /// may be several volumes, read as one.
    pub doubled: u32,
}

/// What a volume holds, read by one number of meta bytes.
#[derive(Clone, Copy, Debug, PartialEq, Eq)]
pub struct Counts {
    /// Whole files.
    pub whole: u32,
    /// Damaged ids: those that have a header page and no whole file, or one whose name another file has.
    pub damaged: u32,
}

/// Which number of meta bytes reads most of a volume.
#[derive(Clone, Copy, Debug, PartialEq, Eq)]
pub struct Guess {
    /// What the given number reads.
    pub given: Counts,
    /// The number that reads most.
    pub meta: u32,
    /// What that one reads.
    pub best: Counts,
}

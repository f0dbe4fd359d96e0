use table_model::Differ;

/// How many files of the source were copied, and how many had their copy on the target already.
#[derive(Clone, Copy, Debug, PartialEq, Eq)]
pub struct Copied {
    /// Files that were copied.
    pub copied: u32,
    /// Files that were kept as they stood.
    pub kept: u32,
}

/// Why the files of a volume are not all copied onto another.
#[derive(Clone, Copy, Debug, PartialEq, Eq)]
pub enum CopyErr {
    /// The source's file at that place, in order of ids from 0, has the name that copies have while they are under way.
    BadName { at: u32 },
    /// The table after the next step would have so many index pages and data pages, for which there is no room.
    Full { index: u128, data_pages: u128 },
    /// The source's device failed.
    FromFault,
    /// The target's device failed.
    ToFault,
    /// A page of the target doesn't read as what was written there.
    Damaged(Differ),
    /// A call was refused, as none is where both devices tell their bytes.
    Refused,
}

/// What a check has to part, by the wanted pages of an image.
#[derive(Clone, Copy, Debug, PartialEq, Eq)]
pub struct Survey {
    /// Blocks that hold wanted pages of both kinds.
    pub shared: u32,
    /// The wanted index pages in them.
    pub index_pages: u32,
    /// Free entries in blocks in use without a wanted data page.
    pub index_free: u32,
    /// Free blocks, and one more where one block lacks its magic.
    pub free_blocks: u32,
}

/// How a check can go about blocks with pages of both kinds.
#[derive(Clone, Copy, Debug, PartialEq, Eq)]
pub enum Parting {
    /// No block is shared.
    None,
    /// The index pages of shared blocks find places.
    Fits,
    /// They don't.
    Over {
        /// How many blocks are shared.
        blocks: u32,
    },
}

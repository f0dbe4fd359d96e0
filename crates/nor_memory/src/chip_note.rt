//! The calls of a chip in memory, as it notes them.
use nor_core::Mark;

/// What a call asked of its bytes.
#[derive(Drop)]
pub enum Asked {
    /// A program of these bytes.
    Program(Vec<u8>),
    /// An erase that spoils the mark, which is counted from the first byte.
    Erase(Option<Mark>),
}

/// A program or an erase of a chip in memory.
#[derive(Drop)]
pub struct Note {
    /// Its moment.
    pub now: u64,
    /// The first byte that it was to change.
    pub at: u32,
    pub asked: Asked,
    /// What stood before in all bytes that it was to change.
    pub before: Vec<u8>,
}

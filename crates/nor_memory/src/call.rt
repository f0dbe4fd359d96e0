use nor_core::Mark;

/// A call that a device in memory was asked, with what it left.
#[derive(Drop)]
pub enum Call {
    /// What was asked from `at` on, and what stood there afterwards.
    Program {
        at: u32,
        asked: Vec<u8>,
        left: Vec<u8>,
    },
    /// The unit, the mark, and what stood in the unit afterwards.
    Erase {
        unit_ix: u32,
        mark: Option<Mark>,
        left: Vec<u8>,
    },
    /// The piece, and how many bytes of it were said.
    Say {
        piece: Vec<u8>,
        passed: usize,
    },
}

/// What the magic of a block tells.
#[derive(Clone, Copy, Debug, PartialEq, Eq)]
pub enum MagicKind {
    /// The page size alone: the same magic in every block.
    Plain,
    /// The page size, and how many blocks there are from this one to the volume's end.
    Length,
}

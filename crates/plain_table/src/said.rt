use crate::PlainFile;
use table_model::{FsErr, Info};

/// What a call answers, with bytes of its own.
#[derive(Debug, Drop)]
pub enum Said {
    /// Done.
    Done,
    /// A number: a descriptor, a count of bytes or an offset.
    Number(u32),
    /// Bytes that were read.
    Bytes(Vec<u8>),
    /// A file, whose record is told.
    File(PlainFile),
    /// There is no further file.
    NoMore,
    /// How full the volume is.
    Room(Info),
    /// Refused.
    Refusal(FsErr),
}

use crate::{FsErr, Meta, Name};

/// A file's record, but for its bytes.
#[derive(Debug, Drop)]
pub struct Stat {
    /// The file's id, from 1 to 0x7FFF.
    pub id: u16,
    /// The type number; 1 is a file.
    pub kind: u8,
    /// Bytes of the file.
    pub size: u32,
    /// The name.
    pub name: Name,
    /// The meta bytes, as many as the geometry has.
    pub meta: Meta,
}

/// How full a volume is.
#[derive(Clone, Copy, Debug, PartialEq, Eq)]
pub struct Info {
    /// Files of the table.
    pub files: u32,
    /// Index pages of all files.
    pub index_pages: u32,
    /// Data pages of all files.
    pub data_pages: u32,
    /// Entry pages of all blocks but two.
    pub usable_pages: u32,
}

/// What a call answers.
#[derive(Debug, Drop)]
pub enum Reply<'a> {
    /// Done.
    Done,
    /// A number: a descriptor, a count of bytes or an offset.
    Number(u32),
    /// Bytes that were read.
    Bytes(&'a [u8]),
    /// A file's record.
    File(Stat),
    /// There is no further file.
    NoMore,
    /// How full the volume is.
    Room(Info),
    /// Refused.
    Refusal(FsErr),
}

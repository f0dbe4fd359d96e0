/// From where a seek counts.
#[derive(Clone, Copy, Debug, PartialEq, Eq)]
pub enum Whence {
    /// From the file's first byte.
    Set,
    /// From the descriptor's offset.
    Cur,
    /// From the file's end.
    End,
}

/// A call of a volume, as a line of a script spells it.
#[derive(Clone, Copy, Debug)]
pub enum Call<'a> {
    /// Makes an empty file.
    Create {
        name: &'a [u8],
    },
    /// Opens a file. The flags are those of `Volume::open_file`.
    OpenFile {
        name: &'a [u8],
        flags: u32,
    },
    /// Reads at most `count` bytes from a descriptor's offset.
    Read {
        fd: u16,
        count: u32,
    },
    /// Writes bytes at a descriptor's offset.
    Write {
        fd: u16,
        bytes: &'a [u8],
    },
    /// Writes `count` bytes of one value.
    Fill {
        fd: u16,
        count: u32,
        byte: u8,
    },
    /// Moves a descriptor's offset.
    Seek {
        fd: u16,
        offset: i64,
        from: Whence,
    },
    /// Tells a descriptor's offset.
    Tell {
        fd: u16,
    },
    /// Cuts a file to a size in bytes.
    Truncate {
        fd: u16,
        size: u32,
    },
    /// Puts what was written onto the chip.
    Flush {
        fd: u16,
    },
    /// Closes a descriptor.
    Close {
        fd: u16,
    },
    /// Removes a file.
    Remove {
        name: &'a [u8],
    },
    /// Removes the file of a descriptor.
    FRemove {
        fd: u16,
    },
    /// Gives a file another name.
    Rename {
        old_name: &'a [u8],
        new_name: &'a [u8],
    },
    /// Tells a file's record.
    StatName {
        name: &'a [u8],
    },
    /// Tells the record of a descriptor's file.
    FStat {
        fd: u16,
    },
    /// Tells the record of the least id above one.
    Next {
        after: u16,
    },
    /// Tells how full the volume is.
    GetInfo,
    /// Collects garbage until no block is worth cleaning.
    Gc,
    /// Sets the meta bytes of a descriptor's file.
    FSetMeta {
        fd: u16,
        meta: &'a [u8],
    },
    /// Sets a file's meta bytes.
    SetMeta {
        name: &'a [u8],
        meta: &'a [u8],
    },
}

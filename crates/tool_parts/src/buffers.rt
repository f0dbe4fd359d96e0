ghost use Rattle.std.specs.Prelude.{◌≡◌};
ghost use Rattle.tool_parts.specs.Lent.{lengths_of};

use fd_table::FdSlot;

/// The memory that is lent to a command. What it holds at first doesn't matter.
#[derive(Drop)]
pub struct Buffers<'b> {
    /// Bytes for work, at least `Geometry::work_need`.
    pub work: &'b mut [u8],
    /// Descriptors, at least one.
    pub slots: &'b mut [FdSlot],
    /// Bytes for copies of pages, at least `Geometry::cache_need`.
    pub cache: &'b mut [u8],
    /// Bytes for the check, at least `Geometry::check_need`.
    pub check: &'b mut [u8],
    /// Bytes for written bytes that wait, at least one page.
    pub window: &'b mut [u8],
    /// Bytes for lines of the script and replies, at least 12,288.
    pub line: &'b mut [u8],
}

/// How much of each part is lent: bytes, and descriptors for `slots`.
#[derive(Clone, Copy, Debug, PartialEq, Eq)]
pub struct Lengths {
    /// Bytes for work.
    pub work: usize,
    /// Descriptors.
    pub slots: usize,
    /// Bytes for copies of pages.
    pub cache: usize,
    /// Bytes for the check.
    pub check: usize,
    /// Bytes for written bytes that wait.
    pub window: usize,
    /// Bytes for lines.
    pub line: usize,
}

/// How much of each part is lent.
pub fn measure(bufs: &Buffers<'_>) -> Lengths
    ensures { result ≡ lengths_of bufs.now }
{
    Lengths {
        work: bufs.work.len(),
        slots: bufs.slots.len(),
        cache: bufs.cache.len(),
        check: bufs.check.len(),
        window: bufs.window.len(),
        line: bufs.line.len(),
    }
}

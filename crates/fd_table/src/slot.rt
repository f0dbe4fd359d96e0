ghost use Rattle.std.specs.Prelude.{◌≡◌, false};

use table_model::OpenFlags;

/// One descriptor. What a slot that isn't used holds besides doesn't matter.
#[derive(Clone, Copy, Debug, PartialEq, Eq)]
pub struct FdSlot {
    /// Whether the descriptor is open.
    pub used: bool,
    /// The id of its file.
    pub id: u16,
    /// The flags of its opening.
    pub flags: OpenFlags,
    /// Its offset in the file, in bytes.
    pub offset: u32,
}

impl FdSlot {
    /// A closed descriptor.
    pub fn empty() -> FdSlot
        ensures closed { result.used ≡ false }
    {
        FdSlot {
            used: false,
            id: 0,
            flags: OpenFlags::NONE,
            offset: 0,
        }
    }
}

//! What a folder is, as contracts see it.
ghost use Rattle.std.specs.Prelude.{ℕ, List};
ghost use Rattle.folder_core.specs.Files.{Entry, FolderFile};

/// The meanings of a folder: contracts speak of it by these alone.
pub trait FolderState {
    /// Whether it tells the bytes of its files.
    ghost tells: { Self → Type 0 };

    /// The names and sizes of its files, which are always told.
    ghost entries: { Self → List Entry };

    /// Its files, where their bytes are told.
    ghost files: { Self → List FolderFile };

    /// A count of failures that never falls. At the last value of a u64 it stands still, and counts as risen.
    ghost faults: { Self → ℕ };
}

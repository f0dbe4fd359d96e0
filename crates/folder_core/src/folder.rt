ghost use Rattle.std.specs.Prelude.{◌≡◌, ◌+◌, ◌^◌, ◌<◌, ◌≤◌, min, length, take, slice_range, IsFalse, OnOk, OnErr, IfOk};
ghost use Rattle.nor_core.specs.Count.{Rose};
ghost use Rattle.folder_core.specs.Files.{entries_of, name_at, size_at, bytes_at, Named};
ghost use Rattle.folder_core.specs.Puts.{Kept, Puts, HalfPuts};

use crate::FolderState;
use nor_core::Failed;

/// A list of files, each a name and its bytes, in an order that stays; fewer than 2^32. Names are any bytes. A name may
/// stand twice: a `put` goes to the first file of its name.
pub trait Folder: FolderState {
    /// How many files there are.
    fn count(&mut self) -> Result<u32, Failed>
        ensures count { IfOk result (λ n. n ≡ length (Self.entries self.old)) }
        ensures cause { OnErr result (Rose (Self.faults self.old) (Self.faults self.new)) }
        ensures kept { Kept Self.FolderState self.old self.new };

    /// The length of the name of file `i`, counted from 0. As much of the front of the name as fits is written to the
    /// front of `into`. A failed call leaves anything in `into`.
    fn name(&mut self, i: u32, into: &mut [u8]) -> Result<usize, Failed>
        requires inside { i < length (Self.entries self.old) }
        ensures length { IfOk result (λ n. n ≡ length (name_at (Self.entries self.old) i)) }
        ensures front { IfOk result (λ n. take (min n (length into.old)) into.new ≡ take (length into.old) (name_at (Self.entries self.old) i)) }
        ensures cause { OnErr result (Rose (Self.faults self.old) (Self.faults self.new)) }
        ensures kept { Kept Self.FolderState self.old self.new };

    /// How many bytes file `i` has, counted from 0.
    fn size(&mut self, i: u32) -> Result<u64, Failed>
        requires inside { i < length (Self.entries self.old) }
        ensures size { IfOk result (λ n. n ≡ size_at (Self.entries self.old) i) }
        ensures cause { OnErr result (Rose (Self.faults self.old) (Self.faults self.new)) }
        ensures kept { Kept Self.FolderState self.old self.new };

    /// Reads the bytes of file `i` from `at` on into `into`, all of which lie in the file. A failed read leaves anything
    /// in `into`.
    fn read(&mut self, i: u32, at: u64, into: &mut [u8]) -> Result<(), Failed>
        requires inside { i < length (Self.entries self.old) }
        requires within { at + length into.old ≤ size_at (Self.entries self.old) i }
        ensures read { Self.tells self.old → OnOk result (into.new ≡ slice_range (bytes_at (Self.files self.old) i) at (at + length into.old)) }
        ensures cause { OnErr result (Rose (Self.faults self.old) (Self.faults self.new)) }
        ensures kept { Kept Self.FolderState self.old self.new };

    /// Puts a piece into the first file of that name. With `first` the file is emptied before that, or made as the last
    /// one where there is none; without it there is one, and the piece is appended. A failed call leaves the folder as it
    /// was, or with that file made or emptied as asked and a front of the piece appended.
    fn put(&mut self, name: &[u8], first: bool, piece: &[u8]) -> Result<(), Failed>
        requires there { IsFalse first → Named name.now (Self.entries self.old) }
        ensures done { OnOk result (Puts Self.FolderState first name.now piece.now self.old self.new) }
        ensures half { OnErr result (HalfPuts Self.FolderState first name.now piece.now self.old self.new) }
        ensures there { OnOk result (Named name.now (Self.entries self.new)) }
        ensures cause { OnErr result (Rose (Self.faults self.old) (Self.faults self.new)) };

    /// Where bytes are told, the names and sizes are those of the files.
    ghost listed: { (d : Self) → Self.tells d → Self.entries d ≡ entries_of (Self.files d) };

    /// There are fewer than 2^32 files.
    ghost few: { (d : Self) → length (Self.entries d) < 2 ^ 32 };
}

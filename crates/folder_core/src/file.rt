//! The files of a folder in memory.
ghost use Rattle.std.specs.Prelude.{◌≡◌, ℕ, ◌+◌, ◌^◌, ◌<◌, [], ◌∷◌, ◌++◌, ◌⊎◌, ◌↔◌, length, take, slice_set, true, IfSome, IfNone, OnOk, OnErr};
ghost use Rattle.folder_core.specs.Files.{entries_of, bytes_at, name_at, size_at, IsFirst, NoneNamed, bytes_before};
ghost use Rattle.folder_core.specs.Mem.{files_of, MemPuts};

use nor_core::Failed;
use std::alloc::{AllocError, Global};

/// A file of a folder in memory.
#[derive(Drop)]
pub struct MemFile {
    pub name: Vec<u8>,
    pub bytes: Vec<u8>,
}

// Whether both hold the same bytes.
fn is_same(a: &[u8], b: &[u8]) -> bool
    ensures { (result ≡ true) ↔ (a.now ≡ b.now) }
{
    a == b
}

// The name of file `i`.
pub(crate) fn name_of(files: &Vec<MemFile>, i: usize) -> &[u8]
    requires { i < length files.now.items }
    ensures { result.now ≡ name_at (entries_of (files_of files.now.items)) i }
{
    &files[i].name
}

// The bytes of file `i`.
pub(crate) fn bytes_of(files: &Vec<MemFile>, i: usize) -> &[u8]
    requires { i < length files.now.items }
    ensures bytes { result.now ≡ bytes_at (files_of files.now.items) i }
    ensures size { length result.now ≡ size_at (entries_of (files_of files.now.items)) i }
{
    &files[i].bytes
}

// The first file of that name.
fn find(files: &Vec<MemFile>, name: &[u8]) -> Option<usize>
    ensures found { IfSome result (λ i. IsFirst name.now i
        (entries_of (files_of files.now.items))) }
    ensures missing { IfNone result (NoneNamed name.now
        (entries_of (files_of files.now.items))) }
{
    for i in 0..files.len() {
        if is_same(name_of(files, i), name) {
            return Some(i);
        }
    }
    None
}

// Makes the last file. Without memory for it all files stay as they were.
pub(crate) fn push_file(
    alloc: Global,
    files: &mut Vec<MemFile>,
    name: &[u8],
    bytes: &[u8],
) -> Result<(), AllocError>
    ensures done { OnOk result (files_of files.new.items ≡ files_of files.old.items ++
        record { name = name.now; bytes = bytes.now } ∷ []) }
    ensures same { OnErr result (files.new.items ≡ files.old.items) }
{
    let name = name.to_vec(alloc)?;
    let bytes = bytes.to_vec(alloc)?;
    files.push(MemFile { name, bytes })?;
    Ok(())
}

// Drops all bytes before the first piece.
fn clear_before(bytes: &mut Vec<u8>, first: bool)
    ensures { bytes.new.items ≡ bytes_before first bytes.old.items }
{
    if first {
        bytes.clear();
    }
}

// Appends a piece, before the first of which all bytes are dropped. Without memory for it nothing is appended.
fn append(bytes: &mut Vec<u8>, first: bool, piece: &[u8]) -> Result<(), Failed>
    ensures done { OnOk result (bytes.new.items ≡ bytes_before first bytes.old.items ++ piece.now) }
    ensures half { OnErr result (bytes.new.items ≡ bytes_before first bytes.old.items) }
{
    clear_before(bytes, first);
    match bytes.extend_from_slice(piece) {
        Ok(()) => Ok(()),
        Err(_) => Err(Failed),
    }
}

// Appends a piece to file `i`, which is emptied before where this is the first piece. Without memory for it nothing of
// the piece is appended.
fn append_to(files: &mut Vec<MemFile>, i: usize, first: bool, piece: &[u8]) -> Result<(), Failed>
    requires { i < length files.old.items }
    ensures done { let was = files_of files.old.items in OnOk result (files_of files.new.items ≡
        slice_set was i (record {
          name = name_at (entries_of was) i;
          bytes = bytes_before first (bytes_at was i) ++ piece.now;
        })) }
    ensures half { let was = files_of files.old.items in OnErr result (files_of files.new.items ≡
        slice_set was i (record {
          name = name_at (entries_of was) i;
          bytes = bytes_before first (bytes_at was i);
        })) }
    ensures length { length files.new.items ≡ length files.old.items }
{
    append(&mut files[i].bytes, first, piece)
}

// Makes the last file, unless it were file number 2^32.
fn make(alloc: Global, files: &mut Vec<MemFile>, name: &[u8], piece: &[u8]) -> Result<(), Failed>
    requires { length files.old.items < 2 ^ 32 }
    ensures done { OnOk result (files_of files.new.items ≡ files_of files.old.items ++
        record { name = name.now; bytes = piece.now } ∷ []) }
    ensures same { OnErr result (files.new.items ≡ files.old.items) }
    ensures few { length files.new.items < 2 ^ 32 }
{
    if files.len() == u32::MAX as usize {
        return Err(Failed);
    }
    match push_file(alloc, files, name, piece) {
        Ok(()) => Ok(()),
        Err(_) => Err(Failed),
    }
}

// Puts a piece into the first file of that name, or into a new one.
pub(crate) fn put_in(
    alloc: Global,
    files: &mut Vec<MemFile>,
    name: &[u8],
    first: bool,
    piece: &[u8],
) -> Result<(), Failed>
    requires few { length files.old.items < 2 ^ 32 }
    ensures done { OnOk result (MemPuts first name.now piece.now files.old.items
        files.new.items) }
    ensures half { OnErr result ((files.new.items ≡ files.old.items) ⊎
        ((n : ℕ) × MemPuts first name.now (take n piece.now) files.old.items files.new.items)) }
    ensures few { length files.new.items < 2 ^ 32 }
{
    match find(files, name) {
        Some(i) => append_to(files, i, first, piece),
        None => make(alloc, files, name, piece),
    }
}

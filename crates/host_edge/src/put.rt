//! Putting pieces into files of a host folder.
ghost use Rattle.std.specs.Prelude.{◌≡◌, ℕ, ◌+◌, ◌^◌, ◌<◌, ◌≤◌, ◌⊎◌, [], ◌∷◌, ◌++◌, length, slice_set, true, IfSome, IfNone, OnOk, OnErr, ◌↔◌};
ghost use Rattle.folder_core.specs.Files.{name_at, size_at, IsFirst, NoneNamed, size_before};
ghost use Rattle.host_edge.specs.Host.{host_entries, HostPuts};

use crate::host_file::{HostFile, name_of};
use crate::names::path_of;
use crate::opening::{Current, Place, none_open, not_made, turn_to};
use std::alloc::AllocError;
use std::fs::{Files, OpenFile, OpenOptions};
use std::io;
use std::io::{Error, ErrorKind, Write};

// How many bytes of a piece were written, and what failed where it wasn't all.
#[derive(Drop)]
struct Written {
    count: usize,
    answer: io::Result<()>,
}

// Writes a piece as far as that can be done. A call of the host that a signal cut off is made again.
fn write_some<W: Write>(out: &mut W, piece: &[u8]) -> Written
    ensures within { result.count ≤ length piece.now }
    ensures whole { OnOk result.answer (result.count ≡ length piece.now) }
{
    let mut count = 0;
    for _ in 0..u64::MAX {
        if count >= piece.len() {
            return Written {
                count,
                answer: Ok(()),
            };
        }
        let answer = match out.write(&piece[count..]) {
            Ok(0) => Err(Error::from(ErrorKind::WriteZero)),
            Ok(more) => {
                count += more;
                Ok(())
            }
            Err(why) if why.kind() == ErrorKind::Interrupted => Ok(()),
            Err(why) => Err(why),
        };
        if answer.is_err() {
            return Written { count, answer };
        }
    }
    Written {
        count,
        answer: Err(Error::from(ErrorKind::Interrupted)),
    }
}

// Writes the first piece of a new file as far as that can be done.
fn write_first<R: Files>(place: &Place<'_, R>, file: &mut R::File, piece: &[u8]) -> Written
    ensures within { result.count ≤ length piece.now }
    ensures whole { OnOk result.answer (result.count ≡ length piece.now) }
{
    match place.bounds.limit.check(0, piece.len() as u64) {
        Ok(()) => write_some(file, piece),
        Err(why) => Written {
            count: 0,
            answer: Err(why),
        },
    }
}

// Puts a piece into file `i`, which is there. Before its first piece the file is opened, looked at and only then emptied.
fn put_one<R: Files>(
    place: &Place<'_, R>,
    current: &mut Option<Current<R::File>>,
    i: usize,
    file: &mut HostFile,
    first: bool,
    piece: &[u8],
) -> io::Result<()>
    ensures name { file.new.name ≡ file.old.name }
    ensures done { OnOk result
        (file.new.size ≡ size_before first file.old.size + length piece.now) }
    ensures half { OnErr result ((file.new ≡ file.old) ⊎ ((n : ℕ) × (n ≤ length piece.now) ×
        (file.new.size ≡ size_before first file.old.size + n))) }
{
    let before = if first { 0 } else { file.size };
    if piece.len() as u64 > u64::MAX - before {
        return Err(Error::from(ErrorKind::FileTooLarge));
    }
    place.bounds.limit.check(before, piece.len() as u64)?;
    turn_to(place, current, i, file.path.as_str(), true)?;
    let Some(open) = current else {
        return Err(none_open());
    };
    if first {
        open.file.set_len(0)?;
    }
    let written = write_some(&mut open.file, piece);
    file.size = before + written.count as u64;
    written.answer
}

// Puts a piece into file `i`.
fn put_at<R: Files>(
    place: &Place<'_, R>,
    current: &mut Option<Current<R::File>>,
    files: &mut Vec<HostFile>,
    i: usize,
    first: bool,
    piece: &[u8],
) -> io::Result<()>
    requires { i < length files.old.items }
    ensures done { let was = host_entries files.old.items in OnOk result
        (host_entries files.new.items ≡ slice_set was i (record {
          name = name_at was i;
          size = size_before first (size_at was i) + length piece.now;
        })) }
    ensures half { let was = host_entries files.old.items in OnErr result
        ((host_entries files.new.items ≡ was) ⊎ ((n : ℕ) × (n ≤ length piece.now) ×
        (host_entries files.new.items ≡ slice_set was i (record {
          name = name_at was i;
          size = size_before first (size_at was i) + n;
        })))) }
    ensures length { length files.new.items ≡ length files.old.items }
{
    put_one(place, current, i, &mut files[i], first, piece)
}

// Makes a file that isn't there, for appending.
fn make_new<R: Files>(place: &Place<'_, R>, path: &str) -> io::Result<R::File> {
    let mut options = OpenOptions::new();
    options.append(true).create_new(true);
    match options.open(place.rt, path) {
        Ok(file) => Ok(file),
        Err(why) => Err(not_made(place.rt, path, why)),
    }
}

// Makes the last file, unless it were file number 2^32. A file that stands there unlisted is left alone.
fn make<R: Files>(
    place: &Place<'_, R>,
    current: &mut Option<Current<R::File>>,
    files: &mut Vec<HostFile>,
    name: &[u8],
    piece: &[u8],
) -> io::Result<()>
    requires few { length files.old.items < 2 ^ 32 }
    ensures done { OnOk result (host_entries files.new.items ≡ host_entries files.old.items ++
        record { name = name.now; size = length piece.now } ∷ []) }
    ensures half { OnErr result ((files.new.items ≡ files.old.items) ⊎
        ((n : ℕ) × (n ≤ length piece.now) × (host_entries files.new.items ≡
        host_entries files.old.items ++ record { name = name.now; size = n } ∷ []))) }
    ensures few { length files.new.items < 2 ^ 32 }
{
    if files.len() == u32::MAX as usize {
        return Err(Error::from(ErrorKind::FileTooLarge));
    }
    let path = path_of(place.alloc, place.path, name)?;
    let name = name.to_vec(place.alloc)?;
    files.reserve(1)?;
    let mut file = make_new(place, path.as_str())?;
    let written = write_first(place, &mut file, piece);
    let size = written.count as u64;
    let i = files.len();
    *current = Some(Current {
        i,
        writes: true,
        file,
    });
    files.push(HostFile { name, path, size })?;
    written.answer
}

// Whether both hold the same bytes.
fn is_same(a: &[u8], b: &[u8]) -> bool
    ensures { (result ≡ true) ↔ (a.now ≡ b.now) }
{
    a == b
}

// The first file of that name.
fn find(files: &Vec<HostFile>, name: &[u8]) -> Option<usize>
    ensures found { IfSome result (λ i. IsFirst name.now i (host_entries files.now.items)) }
    ensures missing { IfNone result (NoneNamed name.now (host_entries files.now.items)) }
{
    for i in 0..files.len() {
        if is_same(name_of(files, i), name) {
            return Some(i);
        }
    }
    None
}

/// The path of the file with that name: the first one that has it, or the one that would be made.
pub(crate) fn path_for<R: Files>(
    place: &Place<'_, R>,
    files: &Vec<HostFile>,
    name: &[u8],
) -> Result<String, AllocError> {
    match find(files, name) {
        Some(i) => String::from_str(place.alloc, files[i].path.as_str()),
        None => path_of(place.alloc, place.path, name),
    }
}

/// Puts a piece into the first file of that name, or into a new one.
pub(crate) fn put_in<R: Files>(
    place: &Place<'_, R>,
    current: &mut Option<Current<R::File>>,
    files: &mut Vec<HostFile>,
    name: &[u8],
    first: bool,
    piece: &[u8],
) -> io::Result<()>
    requires few { length files.old.items < 2 ^ 32 }
    ensures done { OnOk result (HostPuts first name.now (length piece.now)
        (host_entries files.old.items) (host_entries files.new.items)) }
    ensures half { OnErr result ((host_entries files.new.items ≡ host_entries files.old.items) ⊎
        ((n : ℕ) × (n ≤ length piece.now) × HostPuts first name.now n
        (host_entries files.old.items) (host_entries files.new.items))) }
    ensures few { length files.new.items < 2 ^ 32 }
{
    match find(files, name) {
        Some(i) => put_at(place, current, files, i, first, piece),
        None => make(place, current, files, name, piece),
    }
}

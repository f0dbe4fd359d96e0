// Tables made from a table.
ghost use Rattle.std.specs.Prelude.{◌≡◌, ◌<◌, ◌++◌, map, replicate, get_or, length, true, false, IfOk};
ghost use Rattle.table_model.specs.Table.{put_file, drop_file};
ghost use Rattle.table_model.specs.Files.{created};
ghost use Rattle.plain_table.specs.Seen.{file, files_of};
ghost use Rattle.plain_table.specs.declared.file.PlainFile.{PlainFile};

use crate::PlainFile;
use crate::search::{least_id, place_of};
use geometry::Geometry;
use std::alloc::{AllocError, Global};

// The same files with memory of their own.
pub(crate) fn copied(alloc: Global, files: &[PlainFile]) -> Result<Vec<PlainFile>, AllocError>
    ensures { IfOk result (λ copies. map file copies.items ≡ map file files.now) }
{
    let mut copies = Vec::new(alloc);
    for f in files.iter() {
        copies.push(f.copied(alloc)?)?;
    }
    Ok(copies)
}

// The same tables with memory of their own.
pub(crate) fn tables_copied(
    alloc: Global,
    tables: &[Vec<PlainFile>],
) -> Result<Vec<Vec<PlainFile>>, AllocError>
    ensures { IfOk result (λ copies. map files_of copies.items ≡ map files_of tables.now) }
{
    let mut copies = Vec::new(alloc);
    for table in tables.iter() {
        copies.push(copied(alloc, table.as_slice())?)?;
    }
    Ok(copies)
}

// These tables and more behind them, with memory of their own.
pub(crate) fn tables_joined(
    alloc: Global,
    tables: &[Vec<PlainFile>],
    more: &[Vec<PlainFile>],
) -> Result<Vec<Vec<PlainFile>>, AllocError>
    ensures { IfOk result (λ joined. map files_of joined.items ≡ map files_of tables.now ++ map files_of more.now) }
{
    let mut joined = tables_copied(alloc, tables)?;
    for table in more.iter() {
        joined.push(copied(alloc, table.as_slice())?)?;
    }
    Ok(joined)
}

// Whether the file of that id stands at a place.
fn is_at(files: &[PlainFile], at: usize, id: u16) -> bool
    ensures there { result ≡ true → (at < length files.now) × ((d : PlainFile) → (get_or files.now at d).id ≡ id) }
    ensures not_there { result ≡ false → (d : PlainFile) → at < length files.now → (get_or files.now at d).id ≡ id → ⊥ }
{
    at < files.len() && files[at].id == id
}

// Puts a file in its place by its id.
#[tactic(auto, using(crate::proofs::Putting::put_new, crate::proofs::Putting::put_over))]
fn put(files: &mut Vec<PlainFile>, f: PlainFile) -> Result<(), AllocError>
    ensures { IfOk result (λ done. map file files.new.items ≡ put_file (file f) (map file files.old.items)) }
{
    let at = place_of(files.as_slice(), f.id);
    if is_at(files.as_slice(), at, f.id) {
        files[at] = f;
    } else {
        files.insert(at, f)?;
    }
    Ok(())
}

// The table with a file put in its place by its id.
pub(crate) fn with_file(
    alloc: Global,
    files: &[PlainFile],
    f: PlainFile,
) -> Result<Vec<PlainFile>, AllocError>
    ensures { IfOk result (λ next. map file next.items ≡ put_file (file f) (map file files.now)) }
{
    let mut next = copied(alloc, files)?;
    put(&mut next, f)?;
    Ok(next)
}

// The table without the file of an id.
pub(crate) fn without_id(
    alloc: Global,
    files: &[PlainFile],
    id: u16,
) -> Result<Vec<PlainFile>, AllocError>
    ensures { IfOk result (λ next. map file next.items ≡ drop_file id (map file files.now)) }
{
    let mut next = Vec::new(alloc);
    for f in files.iter() {
        if f.id != id {
            next.push(f.copied(alloc)?)?;
        }
    }
    Ok(next)
}

// The table with a new file of that name, under the least unused id. Beyond 65,533 files, more than any volume has,
// there is no memory.
pub(crate) fn with_new(
    alloc: Global,
    g: &Geometry,
    files: &[PlainFile],
    name: &[u8],
) -> Result<Vec<PlainFile>, AllocError>
    ensures { IfOk result (λ next. map file next.items ≡ created g.now name.now (map file files.now)) }
{
    if files.len() >= 65534 {
        return Err(AllocError);
    }
    let f = PlainFile {
        id: least_id(files),
        name: Vec::from_slice(alloc, name)?,
        kind: 1,
        meta: erased(alloc, g.meta())?,
        bytes: Vec::new(alloc),
    };
    with_file(alloc, files, f)
}

// So many bytes of 0xFF.
fn erased(alloc: Global, n: u32) -> Result<Vec<u8>, AllocError>
    ensures { IfOk result (λ v. v.items ≡ replicate n 0xFF) }
{
    Ok(vec![in alloc; 0xFFu8; n as usize]?)
}

// The files of a table that was read.
ghost use Rattle.std.specs.Prelude.{◌≡◌, map, IfOk};
ghost use Rattle.plain_table.specs.Seen.{file};
ghost use Rattle.plain_image.specs.Seen.{file as record_file};

use plain_image::Record;
use plain_table::PlainFile;
use std::alloc::{AllocError, Global};

// A file of the flat table with memory of its own.
fn file_of(alloc: Global, r: &Record) -> Result<PlainFile, AllocError>
    ensures { IfOk result (λ f. file f ≡ record_file r.now) }
{
    Ok(PlainFile {
        id: r.id,
        name: Vec::from_slice(alloc, r.name.as_slice())?,
        kind: r.kind,
        meta: Vec::from_slice(alloc, r.meta.as_slice())?,
        bytes: Vec::from_slice(alloc, r.bytes.as_slice())?,
    })
}

// The files of a table, as the flat table has them.
pub(crate) fn files_of(alloc: Global, records: &[Record]) -> Result<Vec<PlainFile>, AllocError>
    ensures { IfOk result (λ files. map file files.items ≡ map record_file records.now) }
{
    let mut files = Vec::new(alloc);
    for r in records.iter() {
        files.push(file_of(alloc, r)?)?;
    }
    Ok(files)
}

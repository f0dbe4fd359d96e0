// The steps of a write.
ghost use Rattle.std.specs.Prelude.{◌≡◌, ◌==◌, ◌||◌, ◌%◌, ◌<◌, map, IfOk};
ghost use Rattle.geometry.specs.Numbers.{body};
ghost use Rattle.table_model.specs.Table.{put_file};
ghost use Rattle.table_model.specs.Files.{written as the_file_written};
ghost use Rattle.table_model.specs.Steps.{file_steps as the_steps};
ghost use Rattle.plain_table.specs.Seen.{file, files_of};

use crate::PlainFile;
use crate::bytes::written;
use crate::copies::with_file;
use crate::counts::counted;
use geometry::Geometry;
use std::alloc::{AllocError, Global};

// The table once the first bytes of a write are written.
fn written_table(
    alloc: Global,
    files: &[PlainFile],
    f: &PlainFile,
    at: u32,
    bytes: &[u8],
) -> Result<Vec<PlainFile>, AllocError>
    ensures { IfOk result (λ t. files_of t ≡ put_file (the_file_written at bytes.now (file f.now)) (map file files.now)) }
{
    let whole = written(alloc, f.bytes.as_slice(), at, bytes)?;
    with_file(alloc, files, f.with_bytes(alloc, whole.as_slice())?)
}

// Whether a write is cut there: where a data page ends, at the old end of the file, and at its own end.
fn is_part_end(page: u64, size: u64, last: u64, end: u64) -> bool
    requires { 0 < page }
    ensures { result ≡ ((end % page == 0) || (end == size) || (end == last)) }
{
    end % page == 0 || end == size || end == last
}

// The steps of a write at a place of a file: one for each part, with the bytes so far.
#[tactic(auto, unfolding(table_model::specs::Steps::file_steps))]
pub(crate) fn parts(
    alloc: Global,
    g: &Geometry,
    files: &[PlainFile],
    f: &PlainFile,
    at: u32,
    bytes: &[u8],
) -> Result<Vec<Vec<PlainFile>>, AllocError>
    ensures { IfOk result (λ steps. map files_of steps.items ≡ the_steps g.now at bytes.now (file f.now) (map file files.now)) }
{
    let page = u64::from(g.body());
    let size = f.bytes.len() as u64;
    let len = counted(bytes.len() as u64)?;
    let mut steps = Vec::new(alloc);
    for i in 0..bytes.len() {
        let end = u64::from(at) + i as u64 + 1;
        if is_part_end(page, size, u64::from(at) + len, end) {
            steps.push(written_table(alloc, files, f, at, &bytes[..i + 1])?)?;
        }
    }
    Ok(steps)
}

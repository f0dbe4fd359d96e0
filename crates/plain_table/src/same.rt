// Comparing tables.
ghost use Rattle.std.specs.Prelude.{◌≡◌, ◌↔◌, map, IsTrue};
ghost use Rattle.table_model.specs.Window.{IsAmong};
ghost use Rattle.plain_table.specs.Seen.{file, files_of};

use crate::PlainFile;

// Whether two files are the same, but for where their bytes lie.
fn is_same(a: &PlainFile, b: &PlainFile) -> bool
    ensures { IsTrue result ↔ file a.now ≡ file b.now }
{
    a.id == b.id
        && a.name.as_slice() == b.name.as_slice()
        && a.kind == b.kind
        && a.meta.as_slice() == b.meta.as_slice()
        && a.bytes.as_slice() == b.bytes.as_slice()
}

/// Whether two tables hold the same files, in the same order.
pub fn are_same(a: &[PlainFile], b: &[PlainFile]) -> bool
    ensures { IsTrue result ↔ map file a.now ≡ map file b.now }
{
    if a.len() != b.len() {
        return false;
    }
    for i in 0..a.len() {
        if !is_same(&a[i], &b[i]) {
            return false;
        }
    }
    true
}

// Whether a table is one of these.
pub(crate) fn is_among(table: &[PlainFile], tables: &[Vec<PlainFile>]) -> bool
    ensures { IsTrue result ↔ IsAmong (map file table.now) (map files_of tables.now) }
{
    for other in tables.iter() {
        if are_same(table, other.as_slice()) {
            return true;
        }
    }
    false
}

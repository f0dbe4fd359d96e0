// The bytes of the first of some files that is there.
ghost use Rattle.std.specs.Prelude.{◌≡◌, ◌↔◌, map, Some, None, IfOk, IfSome, IfNone, IsTrue};
ghost use Rattle.std.specs.Option.{option_copied};
ghost use Rattle.table_model.specs.Table.{file_named};
ghost use Rattle.plain_table.specs.Seen.{file};
ghost use Rattle.promise_model.specs.Promises.{bytes_of as the_bytes};
ghost use Rattle.plain_promise.specs.Seen.{text_seen, name_seen};

use plain_table::PlainFile;
use std::alloc::{AllocError, Global};

// The file of that name.
#[tactic(auto, unfolding(table_model::specs::Table::file_named), using(plain_table::proofs::Finding::find_here, plain_table::proofs::Finding::find_on, plain_table::proofs::Finding::find_end))]
fn find_name<'a>(files: &'a [PlainFile], name: &[u8]) -> Option<&'a PlainFile>
    ensures found { IfSome result (λ f. file_named name.now (map file files.now) ≡ Some (file f.now)) }
    ensures missing { IfNone result (file_named name.now (map file files.now) ≡ None) }
{
    for f in files.iter() {
        if f.name.as_slice() == name {
            return Some(f);
        }
    }
    None
}

// The bytes of the first of these files that is there.
pub(crate) fn bytes_of<'a>(names: &[Vec<u8>], files: &'a [PlainFile]) -> Option<&'a [u8]>
    ensures { option_copied result ≡ the_bytes (map text_seen names.now) (map file files.now) }
{
    for name in names.iter() {
        match find_name(files, name.as_slice()) {
            Some(f) => return Some(f.bytes.as_slice()),
            None => {}
        }
    }
    None
}

// Whether one of these files is there.
#[tactic(auto, using(crate::proofs::Values::there_some, crate::proofs::Values::there_none))]
pub(crate) fn is_there(names: &[Vec<u8>], files: &[PlainFile]) -> bool
    ensures { IsTrue result ↔ (the_bytes (map text_seen names.now) (map file files.now) ≡ None → ⊥) }
{
    match bytes_of(names, files) {
        Some(_) => true,
        None => false,
    }
}

// The bytes of the first of these files that is there, with memory of their own.
pub(crate) fn bytes_copied(
    alloc: Global,
    names: &[Vec<u8>],
    files: &[PlainFile],
) -> Result<Option<Vec<u8>>, AllocError>
    ensures { IfOk result (λ copy. name_seen copy ≡ the_bytes (map text_seen names.now) (map file files.now)) }
{
    match bytes_of(names, files) {
        Some(bytes) => Ok(Some(Vec::from_slice(alloc, bytes)?)),
        None => Ok(None),
    }
}

// Whether these are the bytes, if there are any.
#[tactic(auto, using(crate::proofs::Values::some_same))]
fn are_bytes(bytes: &[u8], others: &Option<Vec<u8>>) -> bool
    ensures { IsTrue result ↔ Some bytes.now ≡ name_seen others.now }
{
    match others {
        Some(others) => bytes == others.as_slice(),
        None => false,
    }
}

// Whether the first of these files that is there has these bytes, or none is there and there are none.
pub(crate) fn has_bytes(names: &[Vec<u8>], files: &[PlainFile], bytes: &Option<Vec<u8>>) -> bool
    ensures { IsTrue result ↔ the_bytes (map text_seen names.now) (map file files.now) ≡ name_seen bytes.now }
{
    match bytes_of(names, files) {
        Some(found) => are_bytes(found, bytes),
        None => bytes.is_none(),
    }
}

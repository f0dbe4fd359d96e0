// Marks of names: of each mark the id of the one whole file whose name has it. So a file whose name has its mark alone is compared with no other.
ghost use Rattle.std.specs.Prelude.{◌≡◌, ◌+◌, ◌<◌, ◌≤◌, ◌==◌, ℕ, length, true, get_or, option_copied, replicate, Some, None, IfOk, if◌then◌else◌};
ghost use Rattle.image_model.specs.Places.{IsImage};
ghost use Rattle.image_model.specs.Live.{live_at as the_live_at};
ghost use Rattle.image_model.specs.Tables.{has_of as the_has, counts as the_counts};
ghost use Rattle.plain_image.specs.Leading.{AreFiles};
ghost use Rattle.plain_image.specs.Marked.{AreMarked, name_mark as the_mark, whole_name as the_whole_name, mark_after};

use crate::files::name_of;
use crate::headers::header_of;
use crate::pages::own;
use crate::table::counts;
use geometry::Geometry;
use std::alloc::{AllocError, Global};

// What stands at a mark that no name has; ids begin with 1.
const NONE: u16 = 0;

// What stands at a mark that several names have; no id is that great.
const SEVERAL: u16 = 0xFFFF;

// The mark of a name.
fn name_mark(name: &[u8]) -> usize
    ensures value { result ≡ the_mark name.now }
    ensures below { result < 0x4000 }
{
    let mut hash = 0u32;
    for &byte in name {
        hash = (31 * hash + u32::from(byte)) % 0x4000;
    }
    hash as usize
}

// The name of the whole file of an id.
#[tactic(auto, using(crate::proofs::Marked::name_none))]
fn whole_name<'a>(g: &Geometry, image: &'a [u8], files: &[Option<u32>], id: u16) -> Option<&'a [u8]>
    requires image { IsImage g.now image.now }
    requires files { AreFiles g.now (the_live_at g.now image.now) 0x8000 files.now }
    requires id { id < 0x8000 }
    ensures { option_copied result ≡ the_whole_name (the_has g.now (the_live_at g.now image.now) id) }
{
    let Some(q) = header_of(files, id) else {
        return None;
    };
    match own(g, image, id, q) {
        Some(head) => name_of(head),
        None => None,
    }
}

// Notes a name by its id.
fn note_name(marks: &mut Vec<u16>, name: &[u8], id: u16)
    requires { length marks.old.items ≡ 0x4000 }
    ensures len { length marks.new.items ≡ 0x4000 }
    ensures each { (k : ℕ) →
        get_or marks.new.items k 0 ≡ (if the_mark name.now == k then mark_after id (get_or marks.old.items k 0) else get_or marks.old.items k 0) }
{
    let mark = name_mark(name);
    marks[mark] = if marks[mark] == NONE { id } else { SEVERAL };
}

// Notes the name of the whole file of an id, behind those of the smaller ids.
#[tactic(auto, using(crate::proofs::Marked::marked_more, crate::proofs::Marked::marked_same))]
fn note_file(marks: &mut Vec<u16>, g: &Geometry, image: &[u8], files: &[Option<u32>], id: u16)
    requires image { IsImage g.now image.now }
    requires files { AreFiles g.now (the_live_at g.now image.now) 0x8000 files.now }
    requires id { id < 0x8000 }
    requires marks { AreMarked (the_has g.now (the_live_at g.now image.now)) id marks.old.items }
    ensures { AreMarked (the_has g.now (the_live_at g.now image.now)) (id + 1) marks.new.items }
{
    match whole_name(g, image, files, id) {
        Some(name) => note_name(marks, name, id),
        None => {}
    }
}

// So many marks of no name.
fn no_marks(alloc: Global, n: u32) -> Result<Vec<u16>, AllocError>
    ensures { IfOk result (λ marks. marks.items ≡ replicate n 0) }
{
    Ok(vec![in alloc; 0u16; n as usize]?)
}

// The marks of the names of the whole files of the ids from 1 to n.
#[tactic(auto, using(crate::proofs::Marked::marked_none))]
pub(crate) fn name_marks(
    alloc: Global,
    g: &Geometry,
    image: &[u8],
    files: &[Option<u32>],
    n: u16,
) -> Result<Vec<u16>, AllocError>
    requires image { IsImage g.now image.now }
    requires files { AreFiles g.now (the_live_at g.now image.now) 0x8000 files.now }
    requires fits { n ≤ 0x7FFF }
    ensures { IfOk result (λ marks. AreMarked (the_has g.now (the_live_at g.now image.now)) (n + 1) marks.items) }
{
    let mut marks = no_marks(alloc, 0x4000)?;
    for id in 1..n + 1 {
        note_file(&mut marks, g, image, files, id);
    }
    Ok(marks)
}

// Whether the mark of a name is that of one id alone, which has a whole file with that header page.
fn is_alone(files: &[Option<u32>], marks: &[u16], id: u16, p: u32, name: &[u8]) -> bool
    requires files { length files.now ≡ 0x8000 }
    requires marks { length marks.now ≡ 0x4000 }
    requires id { id < 0x8000 }
    ensures mark { result ≡ true → get_or marks.now (the_mark name.now) 0 ≡ id }
    ensures page { result ≡ true → get_or files.now id None ≡ Some p }
{
    match header_of(files, id) {
        Some(q) => q == p && marks[name_mark(name)] == id,
        None => false,
    }
}

// Whether the file of an id, with that header page and name, counts among the ids from 1 to n.
#[tactic(auto, using(crate::proofs::Marked::alone_counts))]
pub(crate) fn leads(
    g: &Geometry,
    image: &[u8],
    files: &[Option<u32>],
    marks: &[u16],
    n: u16,
    id: u16,
    p: u32,
    name: &[u8],
) -> bool
    requires image { IsImage g.now image.now }
    requires files { AreFiles g.now (the_live_at g.now image.now) 0x8000 files.now }
    requires marks { AreMarked (the_has g.now (the_live_at g.now image.now)) (n + 1) marks.now }
    requires fits { n ≤ 0x7FFF }
    requires id { id < 0x8000 }
    ensures { result ≡ the_counts (the_has g.now (the_live_at g.now image.now)) n p name.now }
{
    if is_alone(files, marks, id, p, name) {
        return true;
    }
    counts(g, image, files, n, p, name)
}

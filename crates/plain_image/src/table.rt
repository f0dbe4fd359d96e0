// The table of an image, and its damaged files.
ghost use Rattle.std.specs.Prelude.{◌≡◌, ◌==◌, ℕ, ◌+◌, ◌<◌, ◌≤◌, length, map, IfOk};
ghost use Rattle.std.specs.Option.{option_map};
ghost use Rattle.image_model.specs.Places.{IsImage};
ghost use Rattle.image_model.specs.Live.{live_at as the_live_at};
ghost use Rattle.image_model.specs.Tables.{has_of as the_has, is_before as the_before, counts as the_counts, counted as the_counted, records as the_records};
ghost use Rattle.image_model.specs.Tables.{table_of as the_table};
ghost use Rattle.plain_image.specs.Seen.{seen_at, file};
ghost use Rattle.plain_image.specs.Headed.{IsHeads};
ghost use Rattle.plain_image.specs.Leading.{AreFiles, earlier as the_earlier};
ghost use Rattle.plain_image.specs.Marked.{AreMarked};

use crate::Record;
use crate::files::found;
use crate::headers::{header_of, header_pages};
use crate::marks::{leads, name_marks};
use crate::wholes::{file_pages, has_name};
use geometry::Geometry;
use image_model::Damage;
use std::alloc::{AllocError, Global};

// The header page of an id that has a whole file of that name, where it stands before page p.
pub(crate) fn earlier(
    g: &Geometry,
    image: &[u8],
    files: &[Option<u32>],
    id: u16,
    p: u32,
    name: &[u8],
) -> Option<u32>
    requires image { IsImage g.now image.now }
    requires files { AreFiles g.now (the_live_at g.now image.now) 0x8000 files.now }
    requires id { id < 0x8000 }
    ensures { result ≡ the_earlier (the_has g.now (the_live_at g.now image.now) id) p name.now }
{
    let q = header_of(files, id)?;
    if q < p && has_name(g, image, id, q, name) {
        Some(q)
    } else {
        None
    }
}

// Whether a whole file of that name has its header page before page p.
#[tactic(auto, using(crate::proofs::Leading::earlier_before))]
fn is_before(
    g: &Geometry,
    image: &[u8],
    files: &[Option<u32>],
    id: u16,
    p: u32,
    name: &[u8],
) -> bool
    requires image { IsImage g.now image.now }
    requires files { AreFiles g.now (the_live_at g.now image.now) 0x8000 files.now }
    requires id { id < 0x8000 }
    ensures { result ≡ the_before (the_has g.now (the_live_at g.now image.now) id) p name.now }
{
    earlier(g, image, files, id, p, name).is_some()
}

// Whether a file counts, of those that have its name among the ids from 1 to n.
#[tactic(auto, unfolding(image_model::specs::Tables::counts), using(crate::proofs::Ranges::range_step, crate::proofs::Ranges::range_end))]
pub(crate) fn counts(
    g: &Geometry,
    image: &[u8],
    files: &[Option<u32>],
    n: u16,
    p: u32,
    name: &[u8],
) -> bool
    requires image { IsImage g.now image.now }
    requires files { AreFiles g.now (the_live_at g.now image.now) 0x8000 files.now }
    requires fits { n ≤ 0x7FFF }
    ensures { result ≡ the_counts (the_has g.now (the_live_at g.now image.now)) n p name.now }
{
    for id in 1..n + 1 {
        if is_before(g, image, files, id, p, name) {
            return false;
        }
    }
    true
}

// The file of an id, where it counts.
pub(crate) fn counted(
    alloc: Global,
    g: &Geometry,
    image: &[u8],
    heads: &[Option<u32>],
    files: &[Option<u32>],
    marks: &[u16],
    n: u16,
    id: u16,
) -> Result<Option<Record>, AllocError>
    requires image { IsImage g.now image.now }
    requires heads { IsHeads g.now (the_live_at g.now image.now) heads.now }
    requires files { AreFiles g.now (the_live_at g.now image.now) 0x8000 files.now }
    requires marks { AreMarked (the_has g.now (the_live_at g.now image.now)) (n + 1) marks.now }
    requires fits { n ≤ 0x7FFF }
    requires id { id < 0x8000 }
    ensures { IfOk result
        (λ r. option_map file r ≡ the_counted (the_has g.now (the_live_at g.now image.now)) n (the_has g.now (the_live_at g.now image.now) id)) }
{
    match found(alloc, g, image, heads, id)? {
        Some((p, Ok(r))) => {
            if leads(g, image, files, marks, n, id, p, r.name.as_slice()) {
                Ok(Some(r))
            } else {
                Ok(None)
            }
        }
        _ => Ok(None),
    }
}

// The files of the ids from 1 to n that count.
#[tactic(auto, unfolding(image_model::specs::Tables::records))]
pub(crate) fn records(
    alloc: Global,
    g: &Geometry,
    image: &[u8],
    heads: &[Option<u32>],
    files: &[Option<u32>],
    marks: &[u16],
    n: u16,
) -> Result<Vec<Record>, AllocError>
    requires image { IsImage g.now image.now }
    requires heads { IsHeads g.now (the_live_at g.now image.now) heads.now }
    requires files { AreFiles g.now (the_live_at g.now image.now) 0x8000 files.now }
    requires marks { AreMarked (the_has g.now (the_live_at g.now image.now)) (n + 1) marks.now }
    requires fits { n ≤ 0x7FFF }
    ensures { IfOk result (λ records. map file records.items ≡ the_records (the_has g.now (the_live_at g.now image.now)) n) }
{
    let mut records = Vec::new(alloc);
    for id in 1..n + 1 {
        if let Some(record) = counted(alloc, g, image, heads, files, marks, n, id)? {
            records.push(record)?;
        }
    }
    Ok(records)
}

/// The table of an image: its whole files in order of ids, of several with one name that whose header page is first.
/// Wants memory for their bytes.
#[tactic(auto, unfolding(image_model::specs::Tables::table_of))]
pub fn table_of(alloc: Global, g: &Geometry, image: &[u8]) -> Result<Vec<Record>, AllocError>
    requires { IsImage g.now image.now }
    ensures { IfOk result (λ records. map file records.items ≡ the_table g.now image.now) }
{
    let heads = header_pages(alloc, g, image)?;
    let files = file_pages(alloc, g, image, heads.as_slice())?;
    let marks = name_marks(alloc, g, image, files.as_slice(), 0x7FFF)?;
    records(
        alloc,
        g,
        image,
        heads.as_slice(),
        files.as_slice(),
        marks.as_slice(),
        0x7FFF,
    )
}

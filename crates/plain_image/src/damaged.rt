// The damaged files of an image.
ghost use Rattle.std.specs.Prelude.{◌≡◌, ◌==◌, ℕ, ◌+◌, ◌<◌, ◌≤◌, length, IfOk, Option};
ghost use Rattle.std.specs.Option.{option_map};
ghost use Rattle.image_model.specs.Places.{IsImage};
ghost use Rattle.image_model.specs.Live.{live_at as the_live_at};
ghost use Rattle.image_model.specs.Tables.{has_of as the_has, is_named as the_named, holder as the_holder, damage as the_damage, damages as the_damages};
ghost use Rattle.image_model.specs.Tables.{damaged_of as the_damaged};
ghost use Rattle.plain_image.specs.Seen.{file};
ghost use Rattle.plain_image.specs.Headed.{IsHeads};
ghost use Rattle.plain_image.specs.Leading.{AreFiles};
ghost use Rattle.plain_image.specs.Marked.{AreMarked};

use crate::Record;
use crate::files::found;
use crate::headers::header_pages;
use crate::marks::{leads, name_marks};
use crate::table::earlier;
use crate::wholes::file_pages;
use geometry::Geometry;
use image_model::Damage;
use std::alloc::{AllocError, Global};

// The id that counts of those with that name, among the ids from 1 to n: of their whole files the first with the least
// header page. 0 where there is none.
#[tactic(auto, unfolding(geometry::specs::Numbers::page_count, geometry::specs::Numbers::per_block), using(crate::proofs::Leading::leads_none, crate::proofs::Leading::leads_yes, crate::proofs::Leading::leads_no, crate::proofs::Leading::leads_end, crate::proofs::Leading::has_within))]
fn holder(g: &Geometry, image: &[u8], files: &[Option<u32>], n: u16, name: &[u8]) -> u16
    requires image { IsImage g.now image.now }
    requires files { AreFiles g.now (the_live_at g.now image.now) 0x8000 files.now }
    requires fits { n ≤ 0x7FFF }
    ensures { result ≡ the_holder (the_has g.now (the_live_at g.now image.now)) n name.now }
{
    let mut best = 0;
    let mut least = g.pages();
    for id in 1..n + 1 {
        if let Some(q) = earlier(g, image, files, id, least, name) {
            best = id;
            least = q;
        }
    }
    best
}

// The damage of an id, where it has a header page and no file that counts.
fn damage(
    alloc: Global,
    g: &Geometry,
    image: &[u8],
    heads: &[Option<u32>],
    files: &[Option<u32>],
    marks: &[u16],
    n: u16,
    id: u16,
) -> Result<Option<(u16, Damage)>, AllocError>
    requires image { IsImage g.now image.now }
    requires heads { IsHeads g.now (the_live_at g.now image.now) heads.now }
    requires files { AreFiles g.now (the_live_at g.now image.now) 0x8000 files.now }
    requires marks { AreMarked (the_has g.now (the_live_at g.now image.now)) (n + 1) marks.now }
    requires fits { n ≤ 0x7FFF }
    requires id { id < 0x8000 }
    ensures { IfOk result (λ d. d ≡ the_damage (the_has g.now (the_live_at g.now image.now)) n id (the_has g.now (the_live_at g.now image.now) id)) }
{
    let Some((p, outcome)) = found(alloc, g, image, heads, id)? else {
        return Ok(None);
    };
    let record = match outcome {
        Ok(record) => record,
        Err(cause) => return Ok(Some((id, cause))),
    };
    if leads(g, image, files, marks, n, id, p, record.name.as_slice()) {
        return Ok(None);
    }
    let other = holder(g, image, files, n, record.name.as_slice());
    Ok(Some((id, Damage::SameName(other))))
}

// The damages of the ids from 1 to n.
#[tactic(auto, unfolding(image_model::specs::Tables::damages))]
pub(crate) fn damages(
    alloc: Global,
    g: &Geometry,
    image: &[u8],
    heads: &[Option<u32>],
    files: &[Option<u32>],
    marks: &[u16],
    n: u16,
) -> Result<Vec<(u16, Damage)>, AllocError>
    requires image { IsImage g.now image.now }
    requires heads { IsHeads g.now (the_live_at g.now image.now) heads.now }
    requires files { AreFiles g.now (the_live_at g.now image.now) 0x8000 files.now }
    requires marks { AreMarked (the_has g.now (the_live_at g.now image.now)) (n + 1) marks.now }
    requires fits { n ≤ 0x7FFF }
    ensures { IfOk result (λ damages. damages.items ≡ the_damages (the_has g.now (the_live_at g.now image.now)) n) }
{
    let mut damages = Vec::new(alloc);
    for id in 1..n + 1 {
        if let Some(cause) = damage(alloc, g, image, heads, files, marks, n, id)? {
            damages.push(cause)?;
        }
    }
    Ok(damages)
}

/// The damaged files of an image, in order of ids: each id that has a header page and no file in the table, with its
/// first cause.
#[tactic(auto, unfolding(image_model::specs::Tables::damaged_of))]
pub fn damaged_of(
    alloc: Global,
    g: &Geometry,
    image: &[u8],
) -> Result<Vec<(u16, Damage)>, AllocError>
    requires { IsImage g.now image.now }
    ensures { IfOk result (λ damages. damages.items ≡ the_damaged g.now image.now) }
{
    let heads = header_pages(alloc, g, image)?;
    let files = file_pages(alloc, g, image, heads.as_slice())?;
    let marks = name_marks(alloc, g, image, files.as_slice(), 0x7FFF)?;
    damages(
        alloc,
        g,
        image,
        heads.as_slice(),
        files.as_slice(),
        marks.as_slice(),
        0x7FFF,
    )
}

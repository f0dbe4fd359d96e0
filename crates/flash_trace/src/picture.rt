// An image, and what it means.
ghost use Rattle.std.specs.Prelude.{◌≡◌, ◌↔◌, ◌<◌, ℕ, length, map, IfOk, IsTrue};
ghost use Rattle.image_model.specs.Places.{IsImage, has_magic as the_magic};
ghost use Rattle.plain_image.specs.Seen.{file as the_file};
ghost use Rattle.plain_table.specs.Seen.{file as the_plain};
ghost use Rattle.flash_trace.specs.Events.{IsInside, image_after};
ghost use Rattle.flash_trace.specs.Stands.{IsPicture, MeansSame};

use crate::case::Case;
use crate::changes::change_image;
use crate::event::Event;
use geometry::Geometry;
use plain_image::{Record, has_magic, is_same_live, is_sound, meaning_of};
use plain_table::PlainFile;
use std::alloc::{AllocError, Global};

/// An image with its table, and whether it is sound with respect to the first one.
#[derive(Drop)]
pub(crate) struct Picture {
    pub(crate) image: Vec<u8>,
    // An image with the same live pages and magics, for which the rest was computed.
    seen: Vec<u8>,
    pub(crate) table: Vec<PlainFile>,
    pub(crate) is_sound: bool,
}

// A file as the flat table has it, with memory of its own.
fn plain_file(alloc: Global, file: &Record) -> Result<PlainFile, AllocError>
    ensures { IfOk result (λ f. the_plain f ≡ the_file file.now) }
{
    Ok(PlainFile {
        id: file.id,
        name: file.name.as_slice().to_vec(alloc)?,
        kind: file.kind,
        meta: file.meta.as_slice().to_vec(alloc)?,
        bytes: file.bytes.as_slice().to_vec(alloc)?,
    })
}

// The files of a table as the flat table has them.
fn plain_files(alloc: Global, files: &[Record]) -> Result<Vec<PlainFile>, AllocError>
    ensures { IfOk result (λ plain. map the_plain plain.items ≡ map the_file files.now) }
{
    let mut plain = Vec::new(alloc);
    for f in files.iter() {
        plain.push(plain_file(alloc, f)?)?;
    }
    Ok(plain)
}

// Whether a block has its magic in both images, or in none.
fn is_same_magic(g: &Geometry, a: &[u8], b: &[u8], block: u32) -> bool
    requires a { IsImage g.now a.now }
    requires b { IsImage g.now b.now }
    requires block { block < g.now.blocks }
    ensures { IsTrue result ↔ the_magic g.now b.now block ≡ the_magic g.now a.now block }
{
    if has_magic(g, a, block) {
        return has_magic(g, b, block);
    }
    !has_magic(g, b, block)
}

// Whether each block has its magic in both images, or in none.
fn has_same_magics(g: &Geometry, a: &[u8], b: &[u8]) -> bool
    requires a { IsImage g.now a.now }
    requires b { IsImage g.now b.now }
    ensures { IsTrue result ↔ ((block : ℕ) → block < g.now.blocks → the_magic g.now b.now block ≡ the_magic g.now a.now block) }
{
    for block in 0..g.blocks {
        if !is_same_magic(g, a, b, block) {
            return false;
        }
    }
    true
}

// Whether two images have the same live pages, and magics in the same blocks.
fn means_same(g: &Geometry, a: &[u8], b: &[u8]) -> bool
    requires a { IsImage g.now a.now }
    requires b { IsImage g.now b.now }
    ensures { IsTrue result ↔ MeansSame g.now a.now b.now }
{
    if !has_same_magics(g, a, b) {
        return false;
    }
    is_same_live(g, a, b)
}

// The picture of an image.
pub(crate) fn picture_of(
    alloc: Global,
    case: &Case<'_>,
    image: Vec<u8>,
) -> Result<Picture, AllocError>
    requires { length image.items ≡ length case.now.first.now }
    ensures picture { IfOk result (λ p. IsPicture case.now p) }
    ensures image { IfOk result (λ p. p.image.items ≡ image.items) }
{
    let meaning = meaning_of(alloc, case.g, image.as_slice())?;
    let table = plain_files(alloc, meaning.table.as_slice())?;
    let is_sound = is_sound(
        case.g,
        image.as_slice(),
        meaning.damaged.as_slice(),
        case.first,
        case.damaged,
    );
    let seen = Vec::from_slice(alloc, image.as_slice())?;
    Ok(Picture {
        image,
        seen,
        table,
        is_sound,
    })
}

// The picture after an event. What was computed is kept where the live pages and the magics are.
pub(crate) fn picture_after(
    alloc: Global,
    case: &Case<'_>,
    picture: Picture,
    event: &Event,
) -> Result<Picture, AllocError>
    requires picture { IsPicture case.now picture }
    requires inside { IsInside (length case.now.first.now) case.now.g.now.phys event.now }
    ensures picture { IfOk result (λ p. IsPicture case.now p) }
    ensures image { IfOk result (λ p. p.image.items ≡ image_after case.now.g.now.phys event.now picture.image.items) }
{
    let Picture {
        image,
        seen,
        table,
        is_sound,
    } = picture;
    let mut image = image;
    change_image(alloc, image.as_mut_slice(), event, case.g.phys)?;
    if means_same(case.g, seen.as_slice(), image.as_slice()) {
        return Ok(Picture {
            image,
            seen,
            table,
            is_sound,
        });
    }
    picture_of(alloc, case, image)
}

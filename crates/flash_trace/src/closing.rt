// The closing lines of a run that did not come to the end of its script.
ghost use Rattle.std.specs.Prelude.{◌≡◌, ◌↔◌, ◌≤◌, nat_lt, not, ◌&&◌, is_some, Some, None, IfOk, IsTrue, if◌then◌else◌};
ghost use Rattle.std.specs.Option.{option_map};
ghost use Rattle.image_model.specs.Places.{IsImage};
ghost use Rattle.image_model.specs.Tidy.{free_blocks as the_free_blocks};
ghost use Rattle.image_model.specs.Collect.{chosen_block as the_chosen};
ghost use Rattle.flash_trace.specs.Good.{IsBegun, tight_text, unbegun_text};
ghost use Rattle.flash_trace.specs.Stands.{BeginsNot, EndsAhead, IsPicture, IsTable};

use crate::case::Case;
use crate::picture::Picture;
use crate::spot::Place;
use crate::text::counted_line;
use crate::ways::{Ahead, begins_with};
use geometry::Geometry;
use plain_collect::{chosen_block, parting};
use plain_image::{free_blocks, spoiled_blocks};
use plain_table::are_same;
use std::alloc::{AllocError, Global};

// The line that ends a run for too few free blocks, with no block to clean.
fn tight_line(alloc: Global, g: &Geometry, image: &[u8]) -> Result<Option<Vec<u8>>, AllocError>
    requires { IsImage g.now image.now }
    ensures { IfOk result (λ line. option_map (λ l. l.items) line ≡ (if nat_lt (the_free_blocks g.now image.now) 2 && not (is_some (the_chosen g.now image.now))
        then Some (tight_text (the_free_blocks g.now image.now)) else None)) }
{
    let free = free_blocks(g, image);
    if free >= 2 {
        return Ok(None);
    }
    let chosen = chosen_block(alloc, g, image)?;
    if chosen.is_some() {
        return Ok(None);
    }
    let line = counted_line(alloc, b"! free blocks ", free)?;
    Ok(Some(line))
}

// The line that ends a run before its first call, by its first image and the one now.
fn unbegun_line(
    alloc: Global,
    g: &Geometry,
    first: &[u8],
    image: &[u8],
) -> Result<Option<Vec<u8>>, AllocError>
    requires first { IsImage g.now first.now }
    requires image { IsImage g.now image.now }
    ensures { IfOk result (λ line. option_map (λ l. l.items) line ≡ unbegun_text g.now first.now image.now) }
{
    let spoiled = spoiled_blocks(g, first);
    if spoiled > 1 {
        return Ok(None);
    }
    let over = parting(alloc, g, first)?;
    if !over.fits {
        let line = counted_line(alloc, b"! mixed blocks ", over.shared)?;
        return Ok(Some(line));
    }
    tight_line(alloc, g, image)
}

// Whether these bytes are a front of a line, of at least one byte.
fn is_begun(part: &[u8], line: &[u8]) -> bool
    ensures { IsTrue result ↔ IsBegun part.now line.now }
{
    if part.is_empty() {
        return false;
    }
    begins_with(line, part)
}

// Whether the table is that after the calls that were answered.
fn is_answered(picture: &Picture, place: &Place) -> bool
    ensures { IsTrue result ↔ IsTable picture.now place.now }
{
    are_same(picture.table.as_slice(), place.moment.files())
}

// Whether the line was begun that ends a run before its first call, over the first table.
pub(crate) fn is_unbegun(
    alloc: Global,
    case: &Case<'_>,
    picture: &Picture,
    place: &Place,
) -> Result<bool, AllocError>
    requires { IsPicture case.now picture.now }
    ensures { IfOk result (λ yes. IsTrue yes ↔ BeginsNot case.now picture.now place.now) }
{
    if place.replies > 0 {
        return Ok(false);
    }
    if !is_answered(picture, place) {
        return Ok(false);
    }
    match unbegun_line(alloc, case.g, case.first, picture.image.as_slice())? {
        Some(line) => Ok(is_begun(place.part(), line.as_slice())),
        None => Ok(false),
    }
}

// Whether all calls were answered, and the line was begun that says which line is outside the grammar.
pub(crate) fn ends_badly(
    alloc: Global,
    picture: &Picture,
    place: &Place,
) -> Result<bool, AllocError>
    ensures { IfOk result (λ yes. IsTrue yes ↔ EndsAhead picture.now place.now place.now.ahead) }
{
    let Ahead::Bad(number) = &place.ahead else {
        return Ok(false);
    };
    if !is_answered(picture, place) {
        return Ok(false);
    }
    let line = counted_line(alloc, b"! bad line ", *number)?;
    Ok(is_begun(place.part(), line.as_slice()))
}

// Whether what stands is what a cut in the calls of a script may leave.
ghost use Rattle.std.specs.Prelude.{◌≡◌, ◌↔◌, ◌<◌, [], length, Some, IfOk, IsTrue};
ghost use Rattle.image_model.specs.Places.{IsImage};
ghost use Rattle.run_model.specs.Runs.{IsPart, LacksPage};
ghost use Rattle.flash_trace.specs.declared.ways.Ahead.TheVariants.{Call as ACall};
ghost use Rattle.flash_trace.specs.Places.{part_of};
ghost use Rattle.flash_trace.specs.Stands.{IsPicture, MayLeave, StandsAhead, StandsTight};

use crate::case::Case;
use crate::picture::Picture;
use crate::spot::Place;
use crate::ways::{Ahead, Way, Ways, begins_with};
use geometry::Geometry;
use plain_collect::{are_had, chosen_block};
use plain_table::PlainFile;
use std::alloc::{AllocError, Global};

// Whether these bytes are a front of a line, and not all of it.
fn is_part(said: &[u8], line: &[u8]) -> bool
    ensures { IsTrue result ↔ IsPart said.now line.now }
{
    if said.len() >= line.len() {
        return false;
    }
    begins_with(line, said)
}

// Whether the table is one from the last settled to the last step of a call, answered so.
fn may_leave(picture: &Picture, place: &Place, way: &Way) -> bool
    ensures { IsTrue result ↔ MayLeave place.now picture.now way.now.steps.items }
{
    place
        .moment
        .may_leave(way.steps.as_slice(), picture.table.as_slice())
}

// Whether the table is the last settled one, or a step that waits.
fn may_wait(alloc: Global, picture: &Picture, place: &Place) -> bool
    ensures { IsTrue result ↔ MayLeave place.now picture.now [] }
{
    let none: Vec<Vec<PlainFile>> = Vec::new(alloc);
    place
        .moment
        .may_leave(none.as_slice(), picture.table.as_slice())
}

// Whether no block that is worth cleaning can be cleaned, and no page is had for an index page.
fn lacks_page(alloc: Global, g: &Geometry, image: &[u8]) -> Result<bool, AllocError>
    requires { IsImage g.now image.now }
    ensures { IfOk result (λ yes. IsTrue yes ↔ LacksPage g.now image.now) }
{
    let chosen = chosen_block(alloc, g, image)?;
    if chosen.is_some() {
        return Ok(false);
    }
    Ok(!are_had(g, image, 1, 0))
}

// Whether a part of the reply was said that a call is given with two free blocks.
fn stands_plain(picture: &Picture, place: &Place, plain: &Way) -> bool
    ensures { IsTrue result ↔ (IsPart (part_of place.now) plain.now.line.items × MayLeave place.now picture.now plain.now.steps.items) }
{
    if !is_part(place.part(), plain.line.as_slice()) {
        return false;
    }
    may_leave(picture, place, plain)
}

// Whether a part of the reply was said that a call is given in the corner.
fn stands_tight(
    alloc: Global,
    case: &Case<'_>,
    picture: &Picture,
    place: &Place,
    plain: &Way,
    tight: &Way,
) -> Result<bool, AllocError>
    requires { IsPicture case.now picture.now }
    ensures { IfOk result (λ yes. IsTrue yes ↔ StandsTight case.now picture.now place.now plain.now (Some tight.now)) }
{
    if !stands_plain(picture, place, tight) {
        return Ok(false);
    }
    if !may_leave(picture, place, plain) {
        return Ok(false);
    }
    lacks_page(alloc, case.g, picture.image.as_slice())
}

// Whether at least one byte of such a part was said.
fn stands_in_corner(
    alloc: Global,
    case: &Case<'_>,
    picture: &Picture,
    place: &Place,
    ways: &Ways,
) -> Result<bool, AllocError>
    requires { IsPicture case.now picture.now }
    ensures { IfOk result (λ yes. IsTrue yes ↔ ((0 < length (part_of place.now)) × StandsTight case.now picture.now place.now ways.now.plain ways.now.tight)) }
{
    if place.part().is_empty() {
        return Ok(false);
    }
    match &ways.tight {
        Some(tight) => stands_tight(alloc, case, picture, place, &ways.plain, tight),
        None => Ok(false),
    }
}

// Whether a part of the next reply was said, or nothing of it.
fn stands_in(
    alloc: Global,
    case: &Case<'_>,
    picture: &Picture,
    place: &Place,
    ways: &Ways,
) -> Result<bool, AllocError>
    requires { IsPicture case.now picture.now }
    ensures { IfOk result (λ yes. IsTrue yes ↔ StandsAhead case.now picture.now place.now (ACall ways.now)) }
{
    if stands_plain(picture, place, &ways.plain) {
        return Ok(true);
    }
    stands_in_corner(alloc, case, picture, place, ways)
}

// Whether nothing was said behind the last reply, over a table that is settled or waits.
fn stands_at_end(alloc: Global, picture: &Picture, place: &Place) -> bool
    ensures { IsTrue result ↔ ((part_of place.now ≡ []) × MayLeave place.now picture.now []) }
{
    if !place.part().is_empty() {
        return false;
    }
    may_wait(alloc, picture, place)
}

// Whether a cut in the calls may leave what stands.
pub(crate) fn may_stand(
    alloc: Global,
    case: &Case<'_>,
    picture: &Picture,
    place: &Place,
) -> Result<bool, AllocError>
    requires { IsPicture case.now picture.now }
    ensures { IfOk result (λ yes. IsTrue yes ↔ StandsAhead case.now picture.now place.now place.now.ahead) }
{
    match &place.ahead {
        Ahead::Call(ways) => stands_in(alloc, case, picture, place, ways),
        _ => Ok(stands_at_end(alloc, picture, place)),
    }
}

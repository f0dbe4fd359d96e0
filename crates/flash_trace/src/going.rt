// What a judge has seen of a trace.
ghost use Rattle.std.specs.Prelude.{◌≡◌, ◌↔◌, length, IfOk, IsTrue};
ghost use Rattle.flash_trace.specs.Good.{IsGood};
ghost use Rattle.flash_trace.specs.Events.{IsInside, after_event};
ghost use Rattle.flash_trace.specs.Stands.{IsPicture, SaysHere};
ghost use Rattle.flash_trace.specs.Judging.{IsGoing, standing_of};

use crate::case::Case;
use crate::closing::{ends_badly, is_unbegun};
use crate::event::Event;
use crate::picture::{Picture, picture_after};
use crate::place::hear;
use crate::spot::Place;
use crate::stands::may_stand;
use std::alloc::{AllocError, Global};

/// What stands between two events: the image, and the place in the script.
#[derive(Drop)]
pub(crate) struct Going {
    pub(crate) picture: Picture,
    pub(crate) place: Place,
}

// Whether what was said, and the table, are those of a cut in a run.
fn says(alloc: Global, case: &Case<'_>, going: &Going) -> Result<bool, AllocError>
    requires { IsPicture case.now going.now.picture }
    ensures { IfOk result (λ yes. IsTrue yes ↔ SaysHere case.now going.now.picture going.now.place) }
{
    let stands = may_stand(alloc, case, &going.picture, &going.place)?;
    if stands {
        return Ok(true);
    }
    let ends = ends_badly(alloc, &going.picture, &going.place)?;
    if ends {
        return Ok(true);
    }
    is_unbegun(alloc, case, &going.picture, &going.place)
}

// Whether a cut in a run may leave what stands.
pub(crate) fn is_good(alloc: Global, case: &Case<'_>, going: &Going) -> Result<bool, AllocError>
    requires { IsGoing case.now going.now }
    ensures { IfOk result (λ yes. IsTrue yes ↔ IsGood case.now.g.now case.now.slots case.now.first.now case.now.script.now (standing_of going.now)) }
{
    let sound = going.picture.is_sound;
    if !sound {
        return Ok(false);
    }
    says(alloc, case, going)
}

// After an event.
pub(crate) fn go_on(
    alloc: Global,
    case: &Case<'_>,
    going: Going,
    event: &Event,
) -> Result<Going, AllocError>
    requires going { IsGoing case.now going }
    requires inside { IsInside (length case.now.first.now) case.now.g.now.phys event.now }
    ensures going { IfOk result (λ after. IsGoing case.now after) }
    ensures stands { IfOk result (λ after. standing_of after ≡ after_event case.now.g.now.phys event.now (standing_of going)) }
{
    let Going { picture, place } = going;
    match event {
        Event::Say { piece } => {
            let place = hear(alloc, case, place, piece.as_slice())?;
            Ok(Going { picture, place })
        }
        _ => {
            let picture = picture_after(alloc, case, picture, event)?;
            Ok(Going { picture, place })
        }
    }
}

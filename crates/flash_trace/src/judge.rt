// The judge of traces.
ghost use Rattle.std.specs.Prelude.{◌≡◌, ◌↔◌, ◌*◌, ◌≤◌, ◌<◌, ◌^◌, [], length, IfOk, IsTrue};
ghost use Rattle.std.specs.Option.{IfSome, IfNone};
ghost use Rattle.flash_trace.specs.declared.verdict.Verdict.TheVariants.{TooLarge};
ghost use Rattle.flash_trace.specs.Events.{at_first};
ghost use Rattle.flash_trace.specs.Good.{IsLarge};
ghost use Rattle.flash_trace.specs.Verdicts.{IsTraceVerdict};
ghost use Rattle.flash_trace.specs.Judging.{IsFault, IsGoing, IsRight, IsVerdictFrom, standing_of};

use crate::case::Case;
use crate::changes::{has_right_bits, is_inside};
use crate::event::Event;
use crate::going::{Going, go_on, is_good};
use crate::picture::picture_of;
use crate::place::first_place;
use crate::verdict::Verdict;
use geometry::Geometry;
use nor_core::MemErr;
use plain_image::damaged_of;
use plain_table::PlainMoment;
use std::alloc::{AllocError, Global};

// What stands before the first event.
fn begin(alloc: Global, case: &Case<'_>) -> Result<Going, AllocError>
    ensures going { IfOk result (λ going. IsGoing case.now going) }
    ensures stands { IfOk result (λ going. standing_of going ≡ at_first case.now.first.now) }
{
    let image = case.first.to_vec(alloc)?;
    let picture = picture_of(alloc, case, image)?;
    let moment = PlainMoment::first(alloc, *case.g, picture.table.as_slice(), case.slots)?;
    let place = first_place(alloc, case, moment)?;
    Ok(Going { picture, place })
}

// What is wrong before an event or with it, if anything is.
fn fault_at(
    alloc: Global,
    case: &Case<'_>,
    going: &Going,
    event: &Event,
    at: u64,
) -> Result<Option<Verdict>, AllocError>
    requires { IsGoing case.now going.now }
    ensures some { IfOk result (λ fault. IfSome fault (λ v. IsFault case.now at event.now (standing_of going.now) v)) }
    ensures none { IfOk result (λ fault. IfNone fault (IsRight case.now event.now (standing_of going.now))) }
{
    let good = is_good(alloc, case, going)?;
    if !good {
        return Ok(Some(Verdict::BadCut { at }));
    }
    if !is_inside(event, case.first.len(), case.g.phys) {
        return Ok(Some(Verdict::Outside { at }));
    }
    let right = has_right_bits(alloc, going.picture.image.as_slice(), event, case.g.phys)?;
    if !right {
        return Ok(Some(Verdict::WrongBits { at }));
    }
    Ok(None)
}

// The verdict behind the last event.
fn last_verdict(
    alloc: Global,
    case: &Case<'_>,
    going: &Going,
    at: u64,
) -> Result<Verdict, AllocError>
    requires { IsGoing case.now going.now }
    ensures { IfOk result (λ v. IsVerdictFrom case.now at [] (standing_of going.now) v) }
{
    let good = is_good(alloc, case, going)?;
    if !good {
        return Ok(Verdict::BadCut { at });
    }
    Ok(Verdict::Legal {
        events: at,
        replies: going.place.replies,
    })
}

// The verdict on a trace.
fn judge(alloc: Global, case: &Case<'_>, events: &[Event]) -> Result<Verdict, AllocError>
    ensures { IfOk result (λ v. IsVerdictFrom case.now 0 events.now (at_first case.now.first.now) v) }
{
    let mut going = begin(alloc, case)?;
    for i in 0..events.len() {
        let event = &events[i];
        let fault = fault_at(alloc, case, &going, event, i as u64)?;
        if let Some(verdict) = fault {
            return Ok(verdict);
        }
        going = go_on(alloc, case, going, event)?;
    }
    last_verdict(alloc, case, &going, events.len() as u64)
}

// The same, on a volume whose first image has these damaged files.
fn judge_image(
    alloc: Global,
    g: &Geometry,
    slots: u16,
    first: &[u8],
    script: &[u8],
    events: &[Event],
) -> Result<Verdict, AllocError>
    requires image { length first.now ≡ g.now.blocks * g.now.block }
    requires short { length script.now < 2 ^ 16 }
    ensures { IfOk result (λ v. IsTraceVerdict g.now slots first.now script.now 0 events.now (at_first first.now) v) }
{
    let damaged = damaged_of(alloc, g, first)?;
    let case = Case {
        g,
        slots,
        first,
        damaged: damaged.as_slice(),
        script,
    };
    judge(alloc, &case, events)
}

// Whether an image or a script is too large to be judged.
fn is_large(first: &[u8], script: &[u8]) -> bool
    ensures { IsTrue result ↔ IsLarge first.now script.now }
{
    if first.len() > 131_072 {
        return true;
    }
    script.len() > 16_384
}

/// Judges a trace of a run of a script on a device that held an image at first, with `slots` descriptors, from 1 to 65,535. Wants memory for the
/// image twice, for the tables of a call, for what was said, and for a copy of what a program changes.
pub fn check_trace(
    alloc: Global,
    g: &Geometry,
    slots: u32,
    first: &[u8],
    script: &[u8],
    events: &[Event],
) -> Result<Verdict, MemErr>
    requires image { length first.now ≡ g.now.blocks * g.now.block }
    requires slots { (1 ≤ slots) × (slots ≤ 65535) }
    ensures large { IsLarge first.now script.now → IfOk result (λ v. v ≡ TooLarge) }
    ensures verdict { (IsLarge first.now script.now → ⊥) →
        IfOk result (λ v. IsTraceVerdict g.now slots first.now script.now 0 events.now (at_first first.now) v) }
{
    if is_large(first, script) {
        return Ok(Verdict::TooLarge);
    }
    match judge_image(alloc, g, slots as u16, first, script, events) {
        Ok(verdict) => Ok(verdict),
        Err(AllocError) => Err(MemErr::Memory),
    }
}

// A place in a run of a script: some first calls were answered, and a part of the next reply was said.
ghost use Rattle.std.specs.Prelude.{◌≡◌, ◌+◌, ◌<◌, ◌≤◌, ◌++◌, [], length, drop, true, false, IfOk};
ghost use Rattle.call_script.specs.Lines.{calls_of, lines, of_line};
ghost use Rattle.plain_table.specs.Moments.{moment_of, geometry_of};
ghost use Rattle.flash_trace.specs.Good.{first_bad};
ghost use Rattle.flash_trace.specs.Ways.{IsQuiet};
ghost use Rattle.flash_trace.specs.Kinds.{IsKind};
ghost use Rattle.flash_trace.specs.Places.{IsFound, IsPlace, IsSettled, begins, part_of};

use crate::case::Case;
use crate::lines::next_line;
use crate::spot::{Found, Place};
use crate::ways::{Ahead, Heard, Ways, both_ways, hear_ahead};
use call_script::parse_line;
use plain_table::PlainMoment;
use std::alloc::{AllocError, Global};

// What a line of a script is: no call, outside the grammar, or a call with the ways in which it may be answered.
#[derive(Drop)]
enum Kind {
    Blank,
    Bad,
    Call(Ways),
}

// What a line is at a moment.
fn kind_of(alloc: Global, moment: &PlainMoment, line: &[u8]) -> Result<Kind, AllocError>
    ensures { IfOk result (IsKind (geometry_of moment.now) (moment_of moment.now) (of_line line.now)) }
{
    let mut scratch = [0; 4096];
    match parse_line(line, &mut scratch) {
        Ok(None) => Ok(Kind::Blank),
        Ok(Some(call)) => Ok(Kind::Call(both_ways(alloc, moment, &call)?)),
        Err(_) => Ok(Kind::Bad),
    }
}

// What a script has ahead at a moment from `at` on, where the line there has the number `line`.
#[tactic(auto, using(crate::proofs::Linewise::skips_none, crate::proofs::Linewise::skips_more, crate::proofs::Turning::found_end, crate::proofs::Turning::found_bad, crate::proofs::Turning::found_call))]
fn look_ahead(
    alloc: Global,
    case: &Case<'_>,
    moment: &PlainMoment,
    at: usize,
    line: u32,
) -> Result<Found, AllocError>
    requires at { at ≤ length case.now.script.now }
    requires line { line ≤ at + 1 }
    ensures { IfOk result (λ found. IsFound (geometry_of moment.now) (moment_of moment.now) case.now.script.now (calls_of (lines (drop at case.now.script.now)))
        (first_bad line (lines (drop at case.now.script.now))) found.ahead found.at found.line) }
{
    let mut place = at;
    let mut number = line;
    while let Some((text, behind)) = next_line(case.script, place) {
        match kind_of(alloc, moment, text)? {
            Kind::Blank => {
                place = behind;
                number += 1;
            }
            Kind::Bad => {
                return Ok(Found {
                    ahead: Ahead::Bad(number),
                    at: place,
                    line: number,
                });
            }
            Kind::Call(ways) => {
                return Ok(Found {
                    ahead: Ahead::Call(ways),
                    at: behind,
                    line: number + 1,
                });
            }
        }
    }
    Ok(Found {
        ahead: Ahead::End,
        at: place,
        line: number,
    })
}

// The place before the first call of a script.
pub(crate) fn first_place(
    alloc: Global,
    case: &Case<'_>,
    moment: PlainMoment,
) -> Result<Place, AllocError>
    requires moment { moment_of moment ≡ begins case.now }
    requires geometry { geometry_of moment ≡ case.now.g.now }
    ensures at { IfOk result (λ place. IsSettled case.now place) }
    ensures said { IfOk result (λ place. place.said.items ≡ []) }
{
    let found = look_ahead(alloc, case, &moment, 0, 1)?;
    Ok(Place {
        moment,
        ahead: found.ahead,
        at: found.at,
        line: found.line,
        replies: 0,
        said: Vec::new(alloc),
        heard: 0,
    })
}

// What a turn found: the place, and whether a reply had been said whole.
#[derive(Drop)]
struct Turn {
    place: Place,
    again: bool,
}

// Behind the next reply, where it was said whole.
fn turned(alloc: Global, case: &Case<'_>, place: Place) -> Result<Turn, AllocError>
    requires { IsPlace case.now.g.now (begins case.now) case.now.script.now place }
    ensures at { IfOk result (λ turn. IsPlace case.now.g.now (begins case.now) case.now.script.now turn.place) }
    ensures said { IfOk result (λ turn. turn.place.said.items ≡ place.said.items) }
    ensures forth { IfOk result (λ turn. place.heard ≤ turn.place.heard) }
    ensures on { IfOk result (λ turn. turn.again ≡ true → place.heard < turn.place.heard) }
    ensures quiet { IfOk result (λ turn. turn.again ≡ false → IsQuiet (part_of turn.place) turn.place.ahead) }
{
    let Place {
        moment,
        ahead,
        at,
        line,
        replies,
        said,
        heard,
    } = place;
    match hear_ahead(ahead, &said[heard..]) {
        Heard::Whole(way) => {
            let found = look_ahead(alloc, case, &way.next, at, line)?;
            Ok(Turn {
                place: Place {
                    moment: way.next,
                    ahead: found.ahead,
                    at: found.at,
                    line: found.line,
                    replies: replies + 1,
                    said,
                    heard: heard + way.line.len(),
                },
                again: true,
            })
        }
        Heard::Part(ahead) => Ok(Turn {
            place: Place {
                moment,
                ahead,
                at,
                line,
                replies,
                said,
                heard,
            },
            again: false,
        }),
    }
}

// Behind all replies that were said whole.
fn settled(alloc: Global, case: &Case<'_>, place: Place) -> Result<Place, AllocError>
    requires { IsPlace case.now.g.now (begins case.now) case.now.script.now place }
    ensures at { IfOk result (λ after. IsSettled case.now after) }
    ensures said { IfOk result (λ after. after.said.items ≡ place.said.items) }
{
    let mut turn = turned(alloc, case, place)?;
    while turn.again {
        turn = turned(alloc, case, turn.place)?;
    }
    Ok(turn.place)
}

// A piece was said.
pub(crate) fn hear(
    alloc: Global,
    case: &Case<'_>,
    place: Place,
    piece: &[u8],
) -> Result<Place, AllocError>
    requires { IsSettled case.now place }
    ensures at { IfOk result (λ after. IsSettled case.now after) }
    ensures said { IfOk result (λ after. after.said.items ≡ place.said.items ++ piece.now) }
{
    let mut place = place;
    place.said.extend_from_slice(piece)?;
    settled(alloc, case, place)
}

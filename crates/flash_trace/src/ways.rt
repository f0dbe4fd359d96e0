// How the next call of a script may be answered.
ghost use Rattle.std.specs.Prelude.{◌≡◌, ◌++◌, ℕ, List, length, drop, true, false, IfOk};
ghost use Rattle.table_model.specs.Ask.{asked};
ghost use Rattle.table_model.specs.Flat.{answer};
ghost use Rattle.call_script.specs.Replies.{text};
ghost use Rattle.trace_laws.specs.Counting.{is_corner as the_corner};
ghost use Rattle.plain_table.specs.Seen.{said as the_said};
ghost use Rattle.plain_table.specs.Moments.{moment_of, geometry_of};
ghost use Rattle.flash_trace.specs.declared.ways.Ahead.TheVariants.{Call as ACall};
ghost use Rattle.flash_trace.specs.Ways.{AreWays, IsHeard, IsTightWay, IsWay};

use crate::text::text_of;
use plain_table::{PlainFile, PlainMoment, Said, Went, cuts_file, is_refusal};
use std::alloc::{AllocError, Global};
use table_model::Call;

/// An answer to a call: its line, its published steps, and the moment after it.
#[derive(Drop)]
pub(crate) struct Way {
    pub(crate) line: Vec<u8>,
    pub(crate) steps: Vec<Vec<PlainFile>>,
    pub(crate) next: PlainMoment,
}

/// How a call may be answered: as with two free blocks, or in the corner as with fewer.
#[derive(Drop)]
pub(crate) struct Ways {
    pub(crate) plain: Way,
    pub(crate) tight: Option<Way>,
}

/// What comes next in a script: its end, a line outside the grammar, by its number from 1, or a call.
#[derive(Drop)]
pub(crate) enum Ahead {
    End,
    Bad(u32),
    Call(Ways),
}

/// What was heard of the next reply: a whole line, or not yet.
#[derive(Drop)]
pub(crate) enum Heard {
    Whole(Way),
    Part(Ahead),
}

// The way of what a call did.
fn way_of(alloc: Global, went: Went) -> Result<Way, AllocError>
    ensures line { IfOk result (λ way. way.line.items ≡ text (the_said went.said)) }
    ensures steps { IfOk result (λ way. way.steps ≡ went.steps) }
    ensures next { IfOk result (λ way. way.next ≡ went.next) }
{
    Ok(Way {
        line: text_of(alloc, &went.said)?,
        steps: went.steps,
        next: went.next,
    })
}

// Whether a call is in the corner: it cuts a file, the table has no room for an index page, and with two free blocks it is done.
#[tactic(auto, unfolding(trace_laws::specs::Counting::is_corner, run_model::specs::Runs::has_index_room))]
fn is_corner(moment: &PlainMoment, call: &Call<'_>, said: &Said) -> Result<bool, AllocError>
    requires { the_said said.now ≡ (answer (geometry_of moment.now) true (moment_of moment.now).state (asked call.now)).answer }
    ensures { IfOk result (λ yes. yes ≡ the_corner (geometry_of moment.now) (moment_of moment.now).state (asked call.now)) }
{
    if !cuts_file(call) || is_refusal(said) {
        return Ok(false);
    }
    Ok(!moment.has_index_room()?)
}

// The way of a call with two free blocks, or without them.
#[tactic(auto, unfolding(run_model::specs::Runs::said_of))]
fn one_way(
    alloc: Global,
    moment: &PlainMoment,
    spare: bool,
    call: &Call<'_>,
) -> Result<Way, AllocError>
    ensures { IfOk result (λ way. IsWay (geometry_of moment.now) (moment_of moment.now) (asked call.now) spare way) }
{
    way_of(alloc, moment.after(spare, call)?)
}

// The way of a call without two free blocks, in the corner alone.
#[tactic(auto, using(trace_laws::proofs::Counting::corner_yes, trace_laws::proofs::Counting::corner_is))]
fn tight_way(
    alloc: Global,
    moment: &PlainMoment,
    call: &Call<'_>,
    said: &Said,
) -> Result<Option<Way>, AllocError>
    requires { the_said said.now ≡ (answer (geometry_of moment.now) true (moment_of moment.now).state (asked call.now)).answer }
    ensures { IfOk result (λ way. IsTightWay (geometry_of moment.now) (moment_of moment.now) (asked call.now) way) }
{
    if !is_corner(moment, call, said)? {
        return Ok(None);
    }
    Ok(Some(one_way(alloc, moment, false, call)?))
}

// The ways of a call.
#[tactic(auto, unfolding(run_model::specs::Runs::said_of))]
pub(crate) fn both_ways(
    alloc: Global,
    moment: &PlainMoment,
    call: &Call<'_>,
) -> Result<Ways, AllocError>
    ensures { IfOk result (λ ways. AreWays (geometry_of moment.now) (moment_of moment.now) (asked call.now) ways) }
{
    let went = moment.after(true, call)?;
    let tight = tight_way(alloc, moment, call, &went.said)?;
    Ok(Ways {
        plain: way_of(alloc, went)?,
        tight,
    })
}

// Whether bytes begin with a line.
pub(crate) fn begins_with(said: &[u8], line: &[u8]) -> bool
    ensures yes { result ≡ true → said.now ≡ line.now ++ drop (length line.now) said.now }
    ensures no { result ≡ false → (more : List ℕ) → said.now ≡ line.now ++ more → ⊥ }
{
    said.starts_with(line)
}

// The way whose line is said whole at the front of these bytes.
fn hear_call(ways: Ways, said: &[u8]) -> Heard
    ensures { IsHeard said.now (ACall ways) result }
{
    let Ways { plain, tight } = ways;
    if begins_with(said, plain.line.as_slice()) {
        return Heard::Whole(plain);
    }
    match tight {
        None => Heard::Part(Ahead::Call(Ways { plain, tight: None })),
        Some(way) => {
            if begins_with(said, way.line.as_slice()) {
                Heard::Whole(way)
            } else {
                Heard::Part(Ahead::Call(Ways {
                    plain,
                    tight: Some(way),
                }))
            }
        }
    }
}

// What is heard of what comes next.
pub(crate) fn hear_ahead(ahead: Ahead, said: &[u8]) -> Heard
    ensures { IsHeard said.now ahead result }
{
    match ahead {
        Ahead::Call(ways) => hear_call(ways, said),
        other => Heard::Part(other),
    }
}

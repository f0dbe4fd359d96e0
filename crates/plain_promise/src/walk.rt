// The walk over the places of a script.
ghost use Rattle.std.specs.Prelude.{◌≡◌, ◌<◌, ◌^◌, List, [], length, map, filter, get_or, Vec, IfOk};
ghost use Rattle.std.specs.declared.alloc.Global.{Global};
ghost use Rattle.table_model.specs.Ask.{asked};
ghost use Rattle.table_model.specs.Table.{File};
ghost use Rattle.table_model.specs.Window.{from_settled};
ghost use Rattle.call_script.specs.Lines.{lines};
ghost use Rattle.plain_table.specs.Seen.{file, files_of};
ghost use Rattle.plain_table.specs.Moments.{moment_of, geometry_of};
ghost use Rattle.plain_table.specs.declared.file.PlainFile.{PlainFile};
ghost use Rattle.promise_model.specs.Lines.{Blank as ABlank, Calls, Promises, Ends, BadCall, BadPromise, sort_of};
ghost use Rattle.promise_model.specs.Promises.{bytes_of as the_bytes};
ghost use Rattle.promise_model.specs.Places.{places, outlasts};
ghost use Rattle.plain_promise.specs.Seen.{text_seen, promise};
ghost use Rattle.plain_promise.specs.Walks.{Turns, TurnsLast, GoesOver, IsWalked, end_tables};

use crate::broken::{Broken, added, broken_at};
use crate::lines::next_line;
use crate::promise::PlainPromise;
use crate::sort::{Line, Marked, line_of};
use crate::value::bytes_copied;
use plain_table::{PlainFile, PlainMoment, Went};
use promise_model::Form;
use std::alloc::{AllocError, Global};
use table_model::Call;

// Where a walk is: the volume before the next line, the promises in force there, the line's number, how many lines `#! end` were passed, and
// how many tables were judged.
#[derive(Drop)]
pub(crate) struct Walk {
    pub(crate) moment: PlainMoment,
    pub(crate) given: Vec<PlainPromise>,
    pub(crate) line: u32,
    pub(crate) ended: usize,
    pub(crate) tables: u64,
}

// What a turn of the walk found: a promise that is broken, or none behind that line.
#[derive(Drop)]
pub(crate) enum Turn {
    Broken(Broken),
    On(Walk),
}

// Judges the tables that a cut in a call may leave.
fn pass_call(alloc: Global, walk: Walk, call: &Call<'_>) -> Result<Turn, AllocError>
    requires { walk.line < 2 ^ 31 }
    ensures { (there : List File) → IfOk result (Turns (Calls (asked call.now)) there walk) }
{
    let Walk {
        moment,
        given,
        line,
        ended,
        tables,
    } = walk;
    let Went { steps, next, .. } = moment.after(true, call)?;
    let count = table_count(&moment, steps.as_slice())?;
    match broken_at(alloc, given.as_slice(), line, &moment, steps.as_slice())? {
        Some(broken) => Ok(Turn::Broken(broken)),
        None => Ok(Turn::On(Walk {
            moment: next,
            given,
            line: line + 1,
            ended,
            tables: added(tables, count)?,
        })),
    }
}

// How many tables a cut may leave in a call with these steps.
fn table_count(moment: &PlainMoment, steps: &[Vec<PlainFile>]) -> Result<u64, AllocError>
    ensures { IfOk result (λ n. n ≡ length (from_settled (moment_of moment.now) (map files_of steps.now))) }
{
    added(added(1, moment.waiting().len() as u64)?, steps.len() as u64)
}

// A promise of the line of that number, on a table here and one at its end.
fn promise_at(
    alloc: Global,
    line: u32,
    form: Form,
    names: Vec<Vec<u8>>,
    here: &[PlainFile],
    there: &[PlainFile],
) -> Result<PlainPromise, AllocError>
    ensures { IfOk result (λ p. promise p ≡ record {
      line = line;
      form = form;
      names = map text_seen names.items;
      here = the_bytes (map text_seen names.items) (map file here.now);
      there = the_bytes (map text_seen names.items) (map file there.now);
    }) }
{
    let here = bytes_copied(alloc, names.as_slice(), here)?;
    let there = bytes_copied(alloc, names.as_slice(), there)?;
    Ok(PlainPromise {
        line,
        form,
        names,
        here,
        there,
    })
}

// A promise comes into force, and has the table `there` at its end.
#[tactic(auto, using(crate::proofs::Over::over_promise))]
fn pass_promise(
    alloc: Global,
    walk: Walk,
    form: Form,
    names: Vec<Vec<u8>>,
    there: &[PlainFile],
) -> Result<Walk, AllocError>
    requires { walk.line < 2 ^ 31 }
    ensures { IfOk result (GoesOver (Promises form (map text_seen names.items)) (map file there.now) walk) }
{
    let Walk {
        moment,
        mut given,
        line,
        ended,
        tables,
    } = walk;
    let made = promise_at(alloc, line, form, names, moment.files(), there)?;
    given.push(made)?;
    Ok(Walk {
        moment,
        given,
        line: line + 1,
        ended,
        tables,
    })
}

// Whether a promise stays in force behind a line `#! end`.
fn lasts(p: &PlainPromise) -> bool
    ensures { result ≡ outlasts (promise p.now) }
{
    match p.form {
        Form::First => false,
        Form::Any | Form::Kept => true,
    }
}

// Takes away the promises that don't.
fn keep_lasting(given: &mut Vec<PlainPromise>)
    ensures { given.new.items ≡ filter (λ p. outlasts (promise p)) given.old.items }
{
    given.retain(|p| lasts(p));
}

// The promises `first` are in force no more.
fn pass_end(walk: Walk) -> Walk
    requires line { walk.line < 2 ^ 31 }
    requires ended { walk.ended < 2 ^ 31 }
    ensures { (there : List File) → GoesOver Ends there walk result }
{
    let Walk {
        moment,
        mut given,
        line,
        ended,
        tables,
    } = walk;
    keep_lasting(&mut given);
    Walk {
        moment,
        given,
        line: line + 1,
        ended: ended + 1,
        tables,
    }
}

// A line that changes nothing.
fn pass_blank(walk: Walk) -> Walk
    requires { walk.line < 2 ^ 31 }
    ensures blank { (there : List File) → GoesOver ABlank there walk result }
    ensures bad_call { (there : List File) → GoesOver BadCall there walk result }
    ensures bad_promise { (there : List File) → GoesOver BadPromise there walk result }
{
    Walk {
        line: walk.line + 1,
        ..walk
    }
}

// Goes over a line. `ends` has the tables at the lines `#! end` and at the script's end.
#[tactic(auto, using(crate::proofs::Over::turn_as, crate::proofs::Over::turn_there))]
fn pass_line(
    alloc: Global,
    walk: Walk,
    ends: &[Vec<PlainFile>],
    text: &[u8],
) -> Result<Turn, AllocError>
    requires line { walk.line < 2 ^ 31 }
    requires ended { (walk.ended < length ends.now) × (walk.ended < 2 ^ 31) }
    ensures { (d : Vec PlainFile Global) → IfOk result (Turns (sort_of text.now) (files_of (get_or ends.now walk.ended d)) walk) }
{
    let mut scratch = [0; 4096];
    match line_of(alloc, text, &mut scratch)? {
        Line::Call(call) => pass_call(alloc, walk, &call),
        Line::Marked(Marked::Promise(form, names)) => {
            let there = ends[walk.ended].as_slice();
            Ok(Turn::On(pass_promise(alloc, walk, form, names, there)?))
        }
        Line::Marked(Marked::End) => Ok(Turn::On(pass_end(walk))),
        Line::Marked(Marked::Bad) => Ok(Turn::On(pass_blank(walk))),
        Line::Blank => Ok(Turn::On(pass_blank(walk))),
        Line::Bad => Ok(Turn::On(pass_blank(walk))),
    }
}

// Behind the last line.
fn pass_last(alloc: Global, walk: Walk) -> Result<Turn, AllocError>
    ensures { IfOk result (TurnsLast walk) }
{
    let Walk {
        moment,
        given,
        line,
        ended,
        tables,
    } = walk;
    let count = table_count(&moment, &[])?;
    match broken_at(alloc, given.as_slice(), line, &moment, &[])? {
        Some(broken) => Ok(Turn::Broken(broken)),
        None => Ok(Turn::On(Walk {
            moment,
            given,
            line,
            ended,
            tables: added(tables, count)?,
        })),
    }
}

// Goes over all lines.
#[tactic(auto, using(crate::proofs::Over::walking_first, crate::proofs::Over::ends_left, crate::proofs::Over::walking_on, crate::proofs::Over::walking_broken, crate::proofs::Over::walked_last))]
pub(crate) fn walk_lines(
    alloc: Global,
    first: PlainMoment,
    ends: &[Vec<PlainFile>],
    script: &[u8],
) -> Result<Turn, AllocError>
    requires few { length script.now < 2 ^ 31 }
    requires ends { map files_of ends.now ≡ end_tables (geometry_of first) (moment_of first) (lines script.now) }
    ensures { IfOk result (IsWalked (places (geometry_of first) (moment_of first) [] 1 (lines script.now))) }
{
    let mut walk = Walk {
        moment: first,
        given: Vec::new(alloc),
        line: 1,
        ended: 0,
        tables: 0,
    };
    let mut at = 0;
    while let Some((text, behind)) = next_line(script, at) {
        match pass_line(alloc, walk, ends, text)? {
            Turn::Broken(broken) => return Ok(Turn::Broken(broken)),
            Turn::On(next) => walk = next,
        }
        at = behind;
    }
    pass_last(alloc, walk)
}

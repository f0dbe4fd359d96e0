// The tables at the lines `#! end` of a script and at its end.
ghost use Rattle.std.specs.Prelude.{◌≡◌, ◌<◌, ◌^◌, length, true, IfOk};
ghost use Rattle.table_model.specs.Ask.{asked};
ghost use Rattle.table_model.specs.Flat.{answer};
ghost use Rattle.trace_laws.specs.Counting.{is_corner as the_corner};
ghost use Rattle.plain_table.specs.Seen.{said as the_said};
ghost use Rattle.plain_table.specs.Moments.{moment_of, geometry_of};
ghost use Rattle.call_script.specs.Lines.{lines};
ghost use Rattle.promise_model.specs.Lines.{Calls, Ends as AnEnd, sort_of};
ghost use Rattle.plain_promise.specs.Walks.{AreEnds, Passes, PassesOn};

use crate::broken::files_copied;
use crate::lines::next_line;
use crate::sort::{Line, Marked, line_of};
use plain_table::{PlainFile, PlainMoment, Said, cuts_file, is_refusal};
use std::alloc::{AllocError, Global};
use table_model::Call;

// The tables at the ends, or the number of the line of a call that may be tight.
#[derive(Drop)]
pub(crate) enum Ends {
    Tight(u32),
    Tables(Vec<Vec<PlainFile>>),
}

// The volume behind a line, with the tables at the ends so far; none where its call may be tight.
#[derive(Drop)]
struct Passed {
    moment: PlainMoment,
    tables: Vec<Vec<PlainFile>>,
}

// Whether a call is in the corner: it cuts a file, the table has no room for an index page, and with two free blocks it is done.
#[tactic(auto, unfolding(trace_laws::specs::Counting::is_corner, run_model::specs::Runs::has_index_room))]
fn is_corner(moment: &PlainMoment, call: &Call<'_>, said: &Said) -> Result<bool, AllocError>
    requires { the_said said.now ≡ (answer (geometry_of moment.now) true (moment_of moment.now).state (asked call.now)).answer }
    ensures { IfOk result (λ yes. yes ≡ the_corner (geometry_of moment.now) (moment_of moment.now).state (asked call.now)) }
{
    if !cuts_file(call) || is_refusal(said) {
        return Ok(false);
    }
    Ok(!moment.has_index_room()?)
}

// The volume behind a call, with the tables so far; none where it may be tight.
fn pass_call(passed: Passed, call: &Call<'_>) -> Result<Option<Passed>, AllocError>
    ensures { IfOk result (Passes (Calls (asked call.now)) passed) }
{
    let Passed { moment, tables } = passed;
    let went = moment.after(true, call)?;
    if is_corner(&moment, call, &went.said)? {
        return Ok(None);
    }
    Ok(Some(Passed {
        moment: went.next,
        tables,
    }))
}

// The volume behind a line `#! end`, with its table behind those so far.
fn pass_end(alloc: Global, passed: Passed) -> Result<Passed, AllocError>
    ensures { IfOk result (PassesOn AnEnd passed) }
{
    let Passed { moment, mut tables } = passed;
    tables.push(files_copied(alloc, moment.files())?)?;
    Ok(Passed { moment, tables })
}

// The volume behind a line, with the tables so far.
fn pass_line(alloc: Global, passed: Passed, text: &[u8]) -> Result<Option<Passed>, AllocError>
    ensures { IfOk result (Passes (sort_of text.now) passed) }
{
    let mut scratch = [0; 4096];
    match line_of(alloc, text, &mut scratch)? {
        Line::Call(call) => pass_call(passed, &call),
        Line::Marked(Marked::End) => Ok(Some(pass_end(alloc, passed)?)),
        _ => Ok(Some(passed)),
    }
}

// Goes through the calls of a script.
#[tactic(auto, using(crate::proofs::Passing::passed_first, crate::proofs::Passing::passed_on, crate::proofs::Passing::passed_tight, crate::proofs::Passing::passed_all, crate::proofs::Passing::passed_end))]
pub(crate) fn find_ends(
    alloc: Global,
    first: PlainMoment,
    script: &[u8],
) -> Result<Ends, AllocError>
    requires { length script.now < 2 ^ 31 }
    ensures { IfOk result (AreEnds (geometry_of first) (moment_of first) (lines script.now)) }
{
    let mut passed = Passed {
        moment: first,
        tables: Vec::new(alloc),
    };
    let mut at = 0;
    let mut number = 1;
    while let Some((text, behind)) = next_line(script, at) {
        match pass_line(alloc, passed, text)? {
            None => return Ok(Ends::Tight(number)),
            Some(more) => passed = more,
        }
        number += 1;
        at = behind;
    }
    let last = pass_end(alloc, passed)?;
    Ok(Ends::Tables(last.tables))
}

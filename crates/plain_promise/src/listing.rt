// Every table that a power cut may leave, by line of the script.
ghost use Rattle.std.specs.Prelude.{◌≡◌, ◌++◌, ◌<◌, ◌≤◌, ◌^◌, length, map, replicate, None, IfOk, OnOk};
ghost use Rattle.table_model.specs.Ask.{asked};
ghost use Rattle.table_model.specs.Window.{from_settled};
ghost use Rattle.plain_table.specs.Seen.{file, files_of};
ghost use Rattle.plain_table.specs.Moments.{moment_of};
ghost use Rattle.promise_model.specs.Laws.{places_of};
ghost use Rattle.promise_model.specs.Lines.{Calls, sort_of};
ghost use Rattle.promise_model.specs.Texts.{steps_text, places_text};
ghost use Rattle.plain_promise.specs.Walks.{Lists};

use crate::lines::next_line;
use crate::sort::{Line, line_of};
use crate::text::{put_settled, put_tables};
use geometry::Geometry;
use plain_table::{PlainFile, PlainMoment};
use std::alloc::{AllocError, Global};
use table_model::Call;

// Puts the tables of a call with these steps behind a text.
#[tactic(auto, using(crate::proofs::Printing::place_text))]
fn put_place(
    text: &mut Vec<u8>,
    line: u32,
    moment: &PlainMoment,
    steps: &[Vec<PlainFile>],
) -> Result<(), AllocError>
    ensures { OnOk result (text.new.items ≡ text.old.items ++ steps_text line 0 (from_settled (moment_of moment.now) (map files_of steps.now))) }
{
    put_settled(text, line, moment.settled())?;
    let next = put_tables(text, line, 1, moment.waiting())?;
    put_tables(text, line, next, steps)?;
    Ok(())
}

// Goes over a call, with its tables behind a text.
fn list_call(
    text: &mut Vec<u8>,
    line: u32,
    moment: PlainMoment,
    call: &Call<'_>,
) -> Result<PlainMoment, AllocError>
    ensures { IfOk result (Lists (Calls (asked call.now)) line moment text.old.items text.new.items) }
{
    let went = moment.after(true, call)?;
    put_place(text, line, &moment, went.steps.as_slice())?;
    Ok(went.next)
}

// Goes over a line.
fn list_line(
    alloc: Global,
    text: &mut Vec<u8>,
    line: u32,
    moment: PlainMoment,
    words: &[u8],
) -> Result<PlainMoment, AllocError>
    ensures { IfOk result (Lists (sort_of words.now) line moment text.old.items text.new.items) }
{
    let mut scratch = [0; 4096];
    match line_of(alloc, words, &mut scratch)? {
        Line::Call(call) => list_call(text, line, moment, &call),
        _ => Ok(moment),
    }
}

/// Every table that a power cut may leave, by line of the script: of each call, and behind the last one. Where the script has a fault this
/// tells of the lines before it too, and of the others as if it weren't there.
#[tactic(auto, using(crate::proofs::Printing::listed_first, crate::proofs::Printing::listed_on, crate::proofs::Printing::listed_all))]
pub fn list_tables(
    alloc: Global,
    geometry: Geometry,
    files: &[PlainFile],
    slots: u16,
    script: &[u8],
) -> Result<Vec<u8>, AllocError>
    requires { length script.now < 2 ^ 31 }
    ensures { IfOk result
        (λ text. text.items ≡ places_text (places_of geometry (record { table = map file files.now; slots = replicate slots None }) script.now)) }
{
    let mut text = Vec::new(alloc);
    let mut moment = PlainMoment::first(alloc, geometry, files, slots)?;
    let mut at = 0;
    let mut number = 1;
    while let Some((words, behind)) = next_line(script, at) {
        moment = list_line(alloc, &mut text, number, moment, words)?;
        number += 1;
        at = behind;
    }
    put_place(&mut text, number, &moment, &[])?;
    Ok(text)
}

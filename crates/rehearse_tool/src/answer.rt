// What is said of a verdict, and the status.
ghost use Rattle.std.specs.Prelude.{◌≡◌, ◌∷◌, ◌++◌, ◌<◌, ◌≤◌, ◌^◌, [], length, map, replicate, None, IfOk, OnOk};
ghost use Rattle.arrayvec.specs.ArrayVec.{array_vec_len};
ghost use Rattle.plain_table.specs.Seen.{file};
ghost use Rattle.promise_model.specs.Laws.{places_of};
ghost use Rattle.plain_promise.specs.Seen.{fault as the_fault, broken as the_broken};
ghost use Rattle.plain_promise.specs.Walks.{told};
ghost use Rattle.rehearse_tool.specs.Outcomes.{IsJudged};
ghost use Rattle.rehearse_tool.specs.Texts.{verdict_status, fault_line, verdict_line, shown_files, is_judged as the_judged, tables_text};
ghost use Rattle.promise_model.specs.Verdicts.{AllKept, NotKept};

use geometry::Geometry;
use plain_promise::{Broken, Fault, Verdict, list_tables, put_files, rehearse};
use plain_table::PlainFile;
use std::alloc::{AllocError, Global};
use tool_parts::{Closing, put, put_count};

// What is said of a rehearsal, and the status.
#[derive(Drop)]
pub(crate) struct Answer {
    pub(crate) text: Vec<u8>,
    pub(crate) status: u8,
}

// The status of a verdict.
fn status_of(verdict: &Verdict) -> u8
    ensures { result ≡ verdict_status (told verdict.now) }
{
    match verdict {
        Verdict::Faulty(_) => 5,
        Verdict::Tight(_) => 14,
        Verdict::Kept { .. } => 0,
        Verdict::Broken(_) => 24,
    }
}

// Whether the promises were judged.
fn is_judged(verdict: &Verdict) -> bool
    ensures { result ≡ the_judged (told verdict.now) }
{
    match verdict {
        Verdict::Faulty(_) | Verdict::Tight(_) => false,
        Verdict::Kept { .. } | Verdict::Broken(_) => true,
    }
}

// Puts the number of the line at fault into a line.
fn put_fault(line: &mut Closing, fault: Fault)
    requires { line.old.items ≡ [] }
    ensures text { line.new.items ≡ fault_line (the_fault fault) }
    ensures short { array_vec_len line.new ≤ 127 }
{
    match fault {
        Fault::BadLine(number) => put_count(line, b"! bad line ", u64::from(number)),
        Fault::BadPromise(number) => put_count(line, b"! bad promise ", u64::from(number)),
    }
}

// Puts how many promises and tables there are into a line.
fn put_kept(line: &mut Closing, promises: u32, tables: u64)
    requires { line.old.items ≡ [] }
    ensures text { line.new.items ≡ verdict_line (AllKept promises tables) }
    ensures short { array_vec_len line.new ≤ 127 }
{
    put_count(line, b"promises ", u64::from(promises));
    put_count(line, b" tables ", tables);
}

// Puts into a line which promise is broken, and where.
fn put_broken(line: &mut Closing, broken: &Broken)
    requires { line.old.items ≡ [] }
    ensures text { line.new.items ≡ verdict_line (NotKept (the_broken broken.now)) }
    ensures short { array_vec_len line.new ≤ 127 }
{
    put_count(line, b"! promise line ", u64::from(broken.promise));
    put_count(line, b": line ", u64::from(broken.line));
    put_count(line, b" step ", broken.step);
}

// Puts a verdict into a line.
fn put_verdict(line: &mut Closing, verdict: &Verdict)
    requires { line.old.items ≡ [] }
    ensures text { line.new.items ≡ verdict_line (told verdict.now) }
    ensures short { array_vec_len line.new ≤ 127 }
{
    match verdict {
        Verdict::Faulty(fault) => put_fault(line, *fault),
        Verdict::Tight(number) => put_count(line, b"! tight line ", u64::from(*number)),
        Verdict::Kept { promises, tables } => put_kept(line, *promises, *tables),
        Verdict::Broken(broken) => put_broken(line, broken),
    }
}

// The line of a verdict, with the byte that ends it.
fn line_of(verdict: &Verdict) -> Closing
    ensures { result.items ≡ verdict_line (told verdict.now) ++ 10 ∷ [] }
{
    let mut line = Closing::new();
    put_verdict(&mut line, verdict);
    put(&mut line, b"\n");
    line
}

// Puts the files of the table that breaks a promise behind a text.
fn put_shown(text: &mut Vec<u8>, verdict: &Verdict) -> Result<(), AllocError>
    ensures { OnOk result (text.new.items ≡ text.old.items ++ shown_files (told verdict.now)) }
{
    match verdict {
        Verdict::Broken(broken) => put_files(text, broken.files.as_slice()),
        _ => Ok(()),
    }
}

// Each table of the script's places, where they are wanted and the promises were judged.
fn tables_said(
    alloc: Global,
    geometry: Geometry,
    tables: bool,
    files: &[PlainFile],
    slots: u16,
    script: &[u8],
    verdict: &Verdict,
) -> Result<Vec<u8>, AllocError>
    requires { length script.now < 2 ^ 31 }
    ensures { IfOk result (λ text. text.items
        ≡ tables_text tables (told verdict.now) (places_of geometry (record { table = map file files.now; slots = replicate slots None }) script.now)) }
{
    if tables && is_judged(verdict) {
        list_tables(alloc, geometry, files, slots, script)
    } else {
        Ok(Vec::new(alloc))
    }
}

// The answer to a script on a volume of these files.
#[tactic(auto, unfolding(crate::specs::Texts::rehearsal_text))]
pub(crate) fn answer_to(
    alloc: Global,
    geometry: Geometry,
    tables: bool,
    files: &[PlainFile],
    slots: u16,
    script: &[u8],
) -> Result<Answer, AllocError>
    requires { length script.now < 2 ^ 31 }
    ensures { IfOk result
        (λ answer. IsJudged geometry tables (record { table = map file files.now; slots = replicate slots None }) script.now answer.text.items answer.status) }
{
    let verdict = rehearse(alloc, geometry, files, slots, script)?;
    let mut text = tables_said(alloc, geometry, tables, files, slots, script, &verdict)?;
    put_shown(&mut text, &verdict)?;
    text.extend_from_slice(line_of(&verdict).as_slice())?;
    Ok(Answer {
        text,
        status: status_of(&verdict),
    })
}

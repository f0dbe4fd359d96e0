// What is printed of tables.
ghost use Rattle.std.specs.Prelude.{◌≡◌, ◌+◌, ◌∷◌, ◌++◌, ◌<◌, ◌≤◌, ◌^◌, [], length, map, IfOk, OnOk};
ghost use Rattle.call_script.specs.Pieces.{Puts};
ghost use Rattle.plain_table.specs.Seen.{file, files_of};
ghost use Rattle.promise_model.specs.Texts.{file_line, files_text, step_line, steps_text};

use call_script::{put, put_behind_space, put_count, put_number};
use plain_table::PlainFile;
use std::alloc::AllocError;

// The most bytes of a name that is printed: far more than any volume's.
const LONGEST: usize = 1024;

// Writes the line of a file at the front.
fn put_line(line: &mut [u8], f: &PlainFile) -> usize
    requires name { length f.now.name.items ≤ 1024 }
    requires bytes { length f.now.bytes.items < 2 ^ 32 }
    requires room { 4096 ≤ length line.old }
    ensures put { Puts line.old 0 (file_line (file f.now)) line.new result }
    ensures bound { result ≤ 4096 }
{
    let at = put_number(line, 0, u32::from(f.id));
    let at = put_count(line, at, b" ", u32::from(f.kind));
    let at = put_count(line, at, b" ", f.bytes.len() as u32);
    let at = put_behind_space(line, at, f.name.as_slice());
    put(line, at, b"\n")
}

// Puts the line of a file behind a text. Beyond what a volume may have there is no memory.
fn put_file(text: &mut Vec<u8>, f: &PlainFile) -> Result<(), AllocError>
    ensures { OnOk result (text.new.items ≡ text.old.items ++ file_line (file f.now)) }
{
    if f.name.len() > LONGEST || f.bytes.len() > 4_294_967_295 {
        return Err(AllocError);
    }
    let mut line = [0; 4096];
    let end = put_line(&mut line, f);
    text.extend_from_slice(&line[..end])
}

/// Puts the lines of the files of a table behind a text, each with the file's id, type, size and name.
#[tactic(auto, using(crate::proofs::Printing::files_none, crate::proofs::Printing::files_more))]
pub fn put_files(text: &mut Vec<u8>, files: &[PlainFile]) -> Result<(), AllocError>
    ensures { OnOk result (text.new.items ≡ text.old.items ++ files_text (map file files.now)) }
{
    for f in files.iter() {
        put_file(text, f)?;
    }
    Ok(())
}

// Writes the line of a table at the front: the line of the call, and which of the tables it is.
#[tactic(auto, using(call_script::proofs::Putting::puts_more), unfolding(promise_model::specs::Texts::step_line))]
fn put_head(head: &mut [u8], line: u32, step: u32) -> usize
    requires { 64 ≤ length head.old }
    ensures put { Puts head.old 0 (step_line line step) head.new result }
    ensures bound { result ≤ 64 }
{
    let at = put_count(head, 0, b"line ", line);
    let at = put_count(head, at, b" step ", step);
    put(head, at, b"\n")
}

// Puts a table behind a text: its line, and its files.
fn put_table(
    text: &mut Vec<u8>,
    line: u32,
    step: u32,
    files: &[PlainFile],
) -> Result<(), AllocError>
    ensures { OnOk result (text.new.items ≡ text.old.items ++ (step_line line step ++ files_text (map file files.now))) }
{
    let mut head = [0; 64];
    let end = put_head(&mut head, line, step);
    text.extend_from_slice(&head[..end])?;
    put_files(text, files)
}

// Puts tables behind a text, the first of them with the number `step`, and answers the number behind them.
#[tactic(auto, using(crate::proofs::Printing::steps_none, crate::proofs::Printing::steps_more))]
pub(crate) fn put_tables(
    text: &mut Vec<u8>,
    line: u32,
    step: u32,
    tables: &[Vec<PlainFile>],
) -> Result<u32, AllocError>
    ensures text { OnOk result (text.new.items ≡ text.old.items ++ steps_text line step (map files_of tables.now)) }
    ensures next { IfOk result (λ next. next ≡ step + length tables.now) }
{
    let mut number = step;
    for files in tables.iter() {
        put_table(text, line, number, files.as_slice())?;
        number = match number.checked_add(1) {
            Some(next) => next,
            None => return Err(AllocError),
        };
    }
    Ok(number)
}

// Puts the first of the tables of a place behind a text.
#[tactic(auto, using(crate::proofs::Printing::steps_one))]
pub(crate) fn put_settled(
    text: &mut Vec<u8>,
    line: u32,
    files: &[PlainFile],
) -> Result<(), AllocError>
    ensures { OnOk result (text.new.items ≡ text.old.items ++ steps_text line 0 (map file files.now ∷ [])) }
{
    put_table(text, line, 0, files)
}

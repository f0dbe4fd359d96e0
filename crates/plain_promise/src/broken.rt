// The first table that breaks a promise.
ghost use Rattle.std.specs.Prelude.{◌≡◌, ◌+◌, ◌∷◌, [], map, IfOk};
ghost use Rattle.plain_table.specs.Seen.{file, files_of};
ghost use Rattle.plain_table.specs.Moments.{moment_of};
ghost use Rattle.table_model.specs.Window.{from_settled};
ghost use Rattle.promise_model.specs.Verdicts.{FindsTable};
ghost use Rattle.plain_promise.specs.Seen.{promise, found};

use crate::promise::{PlainPromise, first_broken};
use plain_table::{PlainFile, PlainMoment};
use std::alloc::{AllocError, Global};

/// A promise that is broken, and the table that breaks it.
#[derive(Debug, Drop)]
pub struct Broken {
    /// The number of the promise's line, from 1.
    pub promise: u32,
    /// The number of the line of the call, or one more than there are lines.
    pub line: u32,
    /// Which of the tables that a cut there may leave, from 0: that of the chip, then those that wait, then the steps of the call.
    pub step: u64,
    /// The files of that table.
    pub files: Vec<PlainFile>,
}

// The same files with memory of their own.
pub(crate) fn files_copied(alloc: Global, files: &[PlainFile]) -> Result<Vec<PlainFile>, AllocError>
    ensures { IfOk result (λ copies. map file copies.items ≡ map file files.now) }
{
    let mut copies = Vec::new(alloc);
    for f in files.iter() {
        copies.push(f.copied(alloc)?)?;
    }
    Ok(copies)
}

// A sum, where it is one that is counted.
pub(crate) fn added(a: u64, b: u64) -> Result<u64, AllocError>
    ensures { IfOk result (λ sum. sum ≡ a + b) }
{
    match a.checked_add(b) {
        Some(sum) => Ok(sum),
        None => Err(AllocError),
    }
}

// Whether a table breaks a promise, and which.
#[tactic(auto, using(crate::proofs::Tables::table_broken, crate::proofs::Tables::table_kept))]
fn broken_by(
    alloc: Global,
    promises: &[PlainPromise],
    line: u32,
    step: u64,
    files: &[PlainFile],
) -> Result<Option<Broken>, AllocError>
    ensures { IfOk result (λ b. FindsTable (map promise promises.now) line step (map file files.now ∷ []) (found b)) }
{
    match first_broken(promises, files) {
        Some(promise) => Ok(Some(Broken {
            promise,
            line,
            step,
            files: files_copied(alloc, files)?,
        })),
        None => Ok(None),
    }
}

// The first of some tables that breaks a promise; the first has the number `step`.
#[tactic(auto, using(crate::proofs::Tables::walk_here, crate::proofs::Tables::walk_on, crate::proofs::Tables::walk_end))]
fn broken_among(
    alloc: Global,
    promises: &[PlainPromise],
    line: u32,
    step: u64,
    tables: &[Vec<PlainFile>],
) -> Result<Option<Broken>, AllocError>
    ensures { IfOk result (λ b. FindsTable (map promise promises.now) line step (map files_of tables.now) (found b)) }
{
    let mut number = step;
    for files in tables.iter() {
        let broken = broken_by(alloc, promises, line, number, files.as_slice())?;
        if broken.is_some() {
            return Ok(broken);
        }
        number = added(number, 1)?;
    }
    Ok(None)
}

// The first table that a cut may leave in a call with these steps, or behind the last call without any, and that breaks a promise.
#[tactic(auto, using(crate::proofs::Tables::found_first, crate::proofs::Tables::found_none, crate::proofs::Tables::tables_then))]
pub(crate) fn broken_at(
    alloc: Global,
    promises: &[PlainPromise],
    line: u32,
    moment: &PlainMoment,
    steps: &[Vec<PlainFile>],
) -> Result<Option<Broken>, AllocError>
    ensures { IfOk result (λ b. FindsTable (map promise promises.now) line 0 (from_settled (moment_of moment.now) (map files_of steps.now)) (found b)) }
{
    let settled = broken_by(alloc, promises, line, 0, moment.settled())?;
    if settled.is_some() {
        return Ok(settled);
    }
    let waits = broken_among(alloc, promises, line, 1, moment.waiting())?;
    if waits.is_some() {
        return Ok(waits);
    }
    let from = added(1, moment.waiting().len() as u64)?;
    broken_among(alloc, promises, line, from, steps)
}

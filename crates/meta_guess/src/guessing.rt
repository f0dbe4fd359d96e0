ghost use Rattle.std.specs.Prelude.{◌≡◌, ◌*◌, ◌≤◌, length, nat_lt, OnErr, IfOk, IfSome, None, if◌then◌else◌};
ghost use Rattle.geometry.specs.Numbers.{scratch_need, cache_need, check_need};
ghost use Rattle.nor_core.specs.Count.{Rose};
ghost use Rattle.nor_core.specs.Device.{OnlyReads};
ghost use Rattle.meta_guess.specs.Guesses.{CountsBy, GuessIf, IsBest, IsGuess, IsMeta, ReadsOnce};

use crate::counting::{count_files, count_if_damaged};
use crate::counts::{Counts, Guess};
use geometry::Geometry;
use nor_core::{Failed, Nor, NorState};

// The most meta bytes that a file has.
const MOST_META: u32 = 64;

/// The same volume with another number of meta bytes.
pub fn with_meta(g: &Geometry, meta: u32) -> Geometry
    requires { meta ≤ 64 }
    ensures { IsMeta g.now meta result }
{
    let mut other = *g;
    other.meta = meta;
    other
}

// How many files are whole and how many ids are damaged, by that number of meta bytes.
fn count_by<N: Nor>(
    g: &Geometry,
    meta: u32,
    nor: &mut N,
    work: &mut [u8],
    cache: &mut [u8],
    marks: &mut [u8],
) -> Result<Counts, Failed>
    requires meta { meta ≤ 64 }
    requires unit { N.unit nor.old ≡ g.now.phys }
    requires fits { g.now.blocks * g.now.block ≤ N.size nor.old }
    requires work { scratch_need g.now ≤ length work.old }
    requires cache { cache_need g.now ≤ length cache.old }
    requires check { check_need g.now ≤ length marks.old }
    ensures cause { OnErr result (Rose (N.faults nor.old) (N.faults nor.new)) }
    ensures reads { OnlyReads N.NorState nor.old nor.new }
    ensures told { N.tells nor.old → IfOk result (CountsBy g.now (N.bytes nor.old) meta) }
{
    count_files(&with_meta(g, meta), nor, work, cache, marks)
}

// What reads more whole files: the best number so far with its counts, or a further one with its own.
fn better(best: (u32, Counts), other: (u32, Counts)) -> (u32, Counts)
    ensures { result ≡ (if nat_lt best.1.whole other.1.whole then other else best) }
{
    if best.1.whole < other.1.whole {
        other
    } else {
        best
    }
}

// Of all numbers of meta bytes the least of those that read most whole files, and what it reads.
fn best_meta<N: Nor>(
    g: &Geometry,
    nor: &mut N,
    work: &mut [u8],
    cache: &mut [u8],
    marks: &mut [u8],
) -> Result<(u32, Counts), Failed>
    requires unit { N.unit nor.old ≡ g.now.phys }
    requires fits { g.now.blocks * g.now.block ≤ N.size nor.old }
    requires work { scratch_need g.now ≤ length work.old }
    requires cache { cache_need g.now ≤ length cache.old }
    requires check { check_need g.now ≤ length marks.old }
    ensures cause { OnErr result (Rose (N.faults nor.old) (N.faults nor.new)) }
    ensures reads { OnlyReads N.NorState nor.old nor.new }
    ensures range { IfOk result (λ found. found.0 ≤ 64) }
    ensures told { N.tells nor.old → IfOk result (λ found. IsBest g.now (N.bytes nor.old) 65 found.0 found.1) }
{
    let first = count_by(g, 0, nor, work, cache, marks)?;
    let mut best = (0, first);
    for meta in 1..MOST_META + 1 {
        let counts = count_by(g, meta, nor, work, cache, marks)?;
        best = better(best, (meta, counts));
    }
    Ok(best)
}

/// How many files are whole and how many ids are damaged by the volume's number of meta bytes, and which number from 0 to 64
/// reads the most whole files, and so leaves the fewest damaged ids; among several the least. Where no id is damaged no other
/// number can read more: then the volume is surveyed once, and its own number is the answer. Else it is surveyed once more for
/// each number. Nothing is written. The one error is a fault of the device. The lent bytes are those of `count_files`.
pub fn guess_meta<N: Nor>(
    g: &Geometry,
    nor: &mut N,
    work: &mut [u8],
    cache: &mut [u8],
    marks: &mut [u8],
) -> Result<Guess, Failed>
    requires unit { N.unit nor.old ≡ g.now.phys }
    requires fits { g.now.blocks * g.now.block ≤ N.size nor.old }
    requires work { scratch_need g.now ≤ length work.old }
    requires cache { cache_need g.now ≤ length cache.old }
    requires check { check_need g.now ≤ length marks.old }
    ensures cause { OnErr result (Rose (N.faults nor.old) (N.faults nor.new)) }
    ensures reads { OnlyReads N.NorState nor.old nor.new }
    ensures range { IfOk result (λ guess. guess.meta ≤ 64) }
    ensures told { N.tells nor.old → IfOk result (IsGuess g.now (N.bytes nor.old)) }
    ensures few { IfOk result (λ guess. guess.given.damaged ≡ 0 → ReadsOnce N.NorState g.now (length cache.old) nor.old nor.new) }
{
    let given = count_files(g, nor, work, cache, marks)?;
    if given.damaged == 0 {
        let meta = g.meta();
        return Ok(Guess {
            given,
            meta,
            best: given,
        });
    }
    let (meta, best) = best_meta(g, nor, work, cache, marks)?;
    Ok(Guess { given, meta, best })
}

/// The guess of `guess_meta`, where an id is damaged; or None: then none is, no other number can read more, and the files weren't counted.
pub fn guess_if_damaged<N: Nor>(
    g: &Geometry,
    nor: &mut N,
    work: &mut [u8],
    cache: &mut [u8],
    marks: &mut [u8],
) -> Result<Option<Guess>, Failed>
    requires unit { N.unit nor.old ≡ g.now.phys }
    requires fits { g.now.blocks * g.now.block ≤ N.size nor.old }
    requires work { scratch_need g.now ≤ length work.old }
    requires cache { cache_need g.now ≤ length cache.old }
    requires check { check_need g.now ≤ length marks.old }
    ensures cause { OnErr result (Rose (N.faults nor.old) (N.faults nor.new)) }
    ensures reads { OnlyReads N.NorState nor.old nor.new }
    ensures range { IfOk result (λ found. IfSome found (λ guess. guess.meta ≤ 64)) }
    ensures told { N.tells nor.old → IfOk result (GuessIf g.now (N.bytes nor.old)) }
    ensures few { IfOk result (λ found. found ≡ None → ReadsOnce N.NorState g.now (length cache.old) nor.old nor.new) }
{
    let Some(counts) = count_if_damaged(g, nor, work, cache, marks)? else {
        return Ok(None);
    };
    if counts.damaged == 0 {
        return Ok(None);
    }
    let (meta, best) = best_meta(g, nor, work, cache, marks)?;
    Ok(Some(Guess {
        given: counts,
        meta,
        best,
    }))
}

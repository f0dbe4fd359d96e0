//! What calls leave in their ranges: finished, failed, or cut by a pick and the generator.
ghost use Rattle.std.specs.Prelude.{◌≡◌, ℕ, ◌+◌, ◌*◌, ◌/◌, ◌%◌, ◌^◌, ◌<◌, ◌≤◌, length, replicate, slice_index, IfOk};
ghost use Rattle.std.specs.Option.{ForSome};
ghost use Rattle.nor_core.specs.Flash.{programmed, Unmarked};
ghost use Rattle.nor_memory.specs.Picks.{some_cleared, SomeCleared, RangeProgrammed, mark_turned, EachDrawn, UnitErased, PartSaid};
ghost use Rattle.nor_core.specs.Draws.{next_number, drawn};

use crate::plan::Way;
use nor_core::{Mark, draw};
use std::alloc::{AllocError, Global};

// What stands in a range after a program.
pub fn programmed_bytes(
    alloc: Global,
    bytes: &[u8],
    asked: &[u8],
    way: Way,
) -> Result<Vec<u8>, AllocError>
    requires { length bytes.now ≡ length asked.now }
    ensures size { IfOk result (λ left. length left.items ≡ length asked.now) }
    ensures range { IfOk result (λ left. RangeProgrammed way bytes.now asked.now left.items) }
{
    match way {
        Way::Whole => cleared_bytes(alloc, bytes, asked),
        Way::Fails | Way::Unpowered => bytes.to_vec(alloc),
        Way::Cut(pick) => picked_programmed_bytes(alloc, bytes, asked, pick),
    }
}

// The same after a program that was cut.
fn picked_programmed_bytes(
    alloc: Global,
    bytes: &[u8],
    asked: &[u8],
    pick: u64,
) -> Result<Vec<u8>, AllocError>
    requires { length bytes.now ≡ length asked.now }
    ensures size { IfOk result (λ left. length left.items ≡ length asked.now) }
    ensures range { IfOk result (λ left. RangeProgrammed
        (Way.Cut pick) bytes.now asked.now left.items) }
{
    match pick {
        0 => bytes.to_vec(alloc),
        1 => cleared_bytes(alloc, bytes, asked),
        _ => some_cleared_bytes(alloc, bytes, asked, pick),
    }
}

/// What a finished program leaves of these bytes, where as many are asked for: each is the old and the asked byte, bit by
/// bit.
pub fn cleared_bytes(alloc: Global, bytes: &[u8], asked: &[u8]) -> Result<Vec<u8>, AllocError>
    requires { length bytes.now ≡ length asked.now }
    ensures size { IfOk result (λ left. length left.items ≡ length asked.now) }
    ensures range { IfOk result (λ left. left.items ≡ programmed bytes.now 0 asked.now) }
{
    let mut left = bytes.to_vec(alloc)?;
    for i in 0..asked.len() {
        left[i] &= asked[i];
    }
    Ok(left)
}

// Each byte makes one draw, whose lowest eight bits say which of the bits that are to be cleared are.
fn some_cleared_bytes(
    alloc: Global,
    bytes: &[u8],
    asked: &[u8],
    seed: u64,
) -> Result<Vec<u8>, AllocError>
    requires { length bytes.now ≡ length asked.now }
    ensures { IfOk result (λ left. SomeCleared seed bytes.now asked.now left.items) }
{
    let mut left = Vec::new(alloc);
    let mut x = seed;
    for i in 0..asked.len() {
        let mask = (draw(&mut x) % 256) as u8;
        left.push(bytes[i] & (asked[i] | (0xff - mask)))?;
    }
    Ok(left)
}

// What stands in a unit after an erase.
pub fn erased_bytes(
    alloc: Global,
    bytes: &[u8],
    mark: Option<Mark>,
    way: Way,
) -> Result<Vec<u8>, AllocError>
    requires { ForSome mark (λ m. m.at + 2 ≤ length bytes.now) }
    ensures { IfOk result (λ left. UnitErased way (length bytes.now) mark bytes.now left.items) }
{
    match way {
        Way::Whole => vec![in alloc; 0xff; bytes.len()],
        Way::Fails | Way::Unpowered => bytes.to_vec(alloc),
        Way::Cut(pick) => picked_erased_bytes(alloc, bytes, mark, pick),
    }
}

// The same after an erase that was cut.
fn picked_erased_bytes(
    alloc: Global,
    bytes: &[u8],
    mark: Option<Mark>,
    pick: u64,
) -> Result<Vec<u8>, AllocError>
    requires { ForSome mark (λ m. m.at + 2 ≤ length bytes.now) }
    ensures { IfOk result (λ left. UnitErased (Way.Cut pick)
        (length bytes.now) mark bytes.now left.items) }
{
    match pick {
        0 => bytes.to_vec(alloc),
        1 => Ok(unmarked(vec![in alloc; 0xff; bytes.len()]?, mark)),
        _ => Ok(unmarked(drawn_bytes(alloc, bytes.len(), pick)?, mark)),
    }
}

// Each byte is the lowest eight bits of one draw.
fn drawn_bytes(alloc: Global, count: usize, seed: u64) -> Result<Vec<u8>, AllocError>
    ensures { IfOk result (λ bytes. EachDrawn seed count bytes.items) }
{
    let mut bytes = Vec::new(alloc);
    let mut x = seed;
    for i in 0..count {
        bytes.push((draw(&mut x) % 256) as u8)?;
    }
    Ok(bytes)
}

fn unmarked(mut bytes: Vec<u8>, mark: Option<Mark>) -> Vec<u8>
    requires { ForSome mark (λ m. m.at + 2 ≤ length bytes.items) }
    ensures { result.items ≡ mark_turned mark bytes.items }
{
    turn_mark(&mut bytes, mark);
    bytes
}

// Where the mark reads as its word, the lowest bit of its first byte is turned.
fn turn_mark(bytes: &mut [u8], mark: Option<Mark>)
    requires { ForSome mark (λ m. m.at + 2 ≤ length bytes.old) }
    ensures { bytes.new ≡ mark_turned mark bytes.old }
{
    if let Some(mark) = mark {
        let at = mark.at as usize;
        if u16::from(bytes[at]) + 256 * u16::from(bytes[at + 1]) == mark.word {
            bytes[at] ^= 1;
        }
    }
}

// How many bytes of a piece are said.
pub fn passed_of(piece: &[u8], way: Way) -> usize
    ensures within { result ≤ length piece.now }
    ensures part { PartSaid way (length piece.now) result }
{
    match way {
        Way::Whole => piece.len(),
        Way::Fails | Way::Unpowered => 0,
        Way::Cut(pick) => picked_passed(piece, pick),
    }
}

// The same where saying was cut.
fn picked_passed(piece: &[u8], pick: u64) -> usize
    ensures within { result ≤ length piece.now }
    ensures part { PartSaid (Way.Cut pick) (length piece.now) result }
{
    match pick {
        0 => 0,
        1 => piece.len(),
        _ => {
            let mut x = pick;
            (draw(&mut x) % (piece.len() as u64 + 1)) as usize
        }
    }
}

//! Calls of a device in memory, carried out and noted.
ghost use Rattle.std.specs.Prelude.{◌≡◌, ℕ, ◌+◌, ◌*◌, ◌/◌, ◌^◌, ◌<◌, ◌≤◌, ◌++◌, ◌⊎◌, ◌↔◌, length, OnOk, OnErr, IfOk, IsOk};
ghost use Rattle.std.specs.Option.{ForSome};
ghost use Rattle.nor_core.specs.Flash.{programmed, erased, HalfErased};
ghost use Rattle.nor_memory.specs.Picks.{put};
ghost use Rattle.nor_memory.specs.Ways.{Answered};
ghost use Rattle.nor_memory.specs.Record.{Programs, Erases, SaysCall, Same, IsProgramCall};

use crate::call::Call;
use crate::cut::{erased_bytes, passed_of, programmed_bytes};
use crate::plan::Way;
use nor_core::{Failed, Mark};
use std::alloc::{AllocError, Global};

// Programs a range and notes the call. With the power off, or without memory to note it in, all stays as it was.
pub fn note_program(
    alloc: Global,
    bytes: &mut Vec<u8>,
    calls: &mut Vec<Call>,
    at: u32,
    asked: &[u8],
    way: Way,
) -> Result<(), Failed>
    requires { at + length asked.now ≤ length bytes.old.items }
    ensures answered { Answered way (length calls.old.items) (length calls.new.items) result }
    ensures done { OnOk result (bytes.new.items ≡ programmed bytes.old.items at asked.now) }
    ensures noted { Programs way at asked.now bytes.old.items bytes.new.items calls.old.items calls.new.items
        ⊎ Same bytes.old.items bytes.new.items calls.old.items calls.new.items }
{
    if way == Way::Unpowered {
        return Err(Failed);
    }
    let start = at as usize;
    let Ok(left) = programmed_bytes(alloc, &bytes[start..start + asked.len()], asked, way) else {
        return Err(Failed);
    };
    let Ok(call) = program_call(alloc, at, asked, &left) else {
        return Err(Failed);
    };
    let Ok(()) = calls.push(call) else {
        return Err(Failed);
    };
    write_at(bytes, start, &left);
    answer(way)
}

// The call of a program, to be noted.
fn program_call(alloc: Global, at: u32, asked: &[u8], left: &[u8]) -> Result<Call, AllocError>
    ensures { IfOk result (λ call. IsProgramCall at asked.now left.now call) }
{
    Ok(Call::Program {
        at,
        asked: asked.to_vec(alloc)?,
        left: left.to_vec(alloc)?,
    })
}

// Erases a unit and notes the call. With the power off, or without memory to note it in, all stays as it was.
pub fn note_erase(
    alloc: Global,
    bytes: &mut Vec<u8>,
    calls: &mut Vec<Call>,
    unit: u32,
    unit_ix: u32,
    mark: Option<Mark>,
    way: Way,
) -> Result<(), Failed>
    requires unit { 0 < unit }
    requires inside { unit_ix < length bytes.old.items / unit }
    requires fits { length bytes.old.items < 2 ^ 32 }
    requires marked { ForSome mark (λ m. m.at + 2 ≤ unit) }
    ensures answered { Answered way (length calls.old.items) (length calls.new.items) result }
    ensures done { OnOk result (bytes.new.items ≡ erased bytes.old.items (unit_ix * unit) unit) }
    ensures half { OnErr result (HalfErased
        (unit_ix * unit) unit mark bytes.old.items bytes.new.items) }
    ensures noted { Erases way unit unit_ix mark bytes.old.items bytes.new.items calls.old.items calls.new.items
        ⊎ Same bytes.old.items bytes.new.items calls.old.items calls.new.items }
{
    if way == Way::Unpowered {
        return Err(Failed);
    }
    let start = unit_ix as usize * unit as usize;
    let Ok(left) = erased_bytes(alloc, &bytes[start..start + unit as usize], mark, way) else {
        return Err(Failed);
    };
    let Ok(noted) = left.to_vec(alloc) else {
        return Err(Failed);
    };
    let Ok(()) = calls.push(Call::Erase {
        unit_ix,
        mark,
        left: noted,
    }) else {
        return Err(Failed);
    };
    write_at(bytes, start, &left);
    answer(way)
}

// Says a piece and notes the call. With the power off, or without memory for either, all stays as it was.
pub fn note_say(
    alloc: Global,
    said: &mut Vec<u8>,
    calls: &mut Vec<Call>,
    piece: &[u8],
    way: Way,
) -> Result<(), Failed>
    ensures answered { Answered way (length calls.old.items) (length calls.new.items) result }
    ensures done { OnOk result (said.new.items ≡ said.old.items ++ piece.now) }
    ensures noted { SaysCall way piece.now said.old.items said.new.items calls.old.items calls.new.items
        ⊎ Same said.old.items said.new.items calls.old.items calls.new.items }
{
    if way == Way::Unpowered {
        return Err(Failed);
    }
    let Ok(noted) = piece.to_vec(alloc) else {
        return Err(Failed);
    };
    let passed = passed_of(piece, way);
    let before = said.len();
    let Ok(()) = said.extend_from_slice(&piece[..passed]) else {
        return Err(Failed);
    };
    let Ok(()) = calls.push(Call::Say {
        piece: noted,
        passed,
    }) else {
        said.truncate(before);
        return Err(Failed);
    };
    answer(way)
}

// A noted call is Ok where it was to go whole.
fn answer(way: Way) -> Result<(), Failed>
    ensures { IsOk result ↔ (way ≡ Way.Whole) }
{
    if way == Way::Whole {
        Ok(())
    } else {
        Err(Failed)
    }
}

// Writes over what stands there.
fn write_at(bytes: &mut Vec<u8>, at: usize, from: &[u8])
    requires { at + length from.now ≤ length bytes.old.items }
    ensures { bytes.new.items ≡ put bytes.old.items at from.now }
{
    put_at(bytes, at, from);
}

fn put_at(bytes: &mut [u8], at: usize, from: &[u8])
    requires { at + length from.now ≤ length bytes.old }
    ensures { bytes.new ≡ put bytes.old at from.now }
{
    bytes[at..at + from.len()].copy_from_slice(from);
}

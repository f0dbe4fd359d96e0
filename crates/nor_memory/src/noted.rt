//! Calls of a board in memory, each noted first with what stood before. Without memory for that nothing is done.
ghost use Rattle.std.specs.Prelude.{◌≡◌, ◌+◌, ◌*◌, ◌/◌, ◌<◌, ◌≤◌, ◌⊎◌, [], ◌∷◌, ◌++◌, length, OnOk, OnErr};
ghost use Rattle.nor_memory.specs.declared.chip_note.Note.{Note};
ghost use Rattle.std.specs.Option.{ForSome};
ghost use Rattle.nor_memory.specs.contracts.memory.MemBoardNorState.TheImpl.{ghosts as mem};
ghost use Rattle.nor_memory.specs.Ways.{way_of, plan_after, Answered};
ghost use Rattle.nor_memory.specs.Picks.{ProgramLeaves, EraseLeaves};
ghost use Rattle.nor_core.specs.Flash.{programmed, HalfProgrammed, erased, HalfErased};
ghost use Rattle.nor_memory.specs.Moments.{Notes, NotCalled, IsProgram, IsErase};

use crate::chip_note::{Asked, Note};
use crate::{CallKind, MemBoard};
use nor_core::{Failed, Mark, Nor, NorState};
use std::alloc::{AllocError, Global};

// Notes a call of these bytes.
fn note_call(
    alloc: Global,
    notes: &mut Vec<Note>,
    now: u64,
    at: u32,
    asked: Asked,
    before: &[u8],
) -> Result<(), AllocError>
    ensures noted { OnOk result ((note : Note) × (notes.new.items ≡ notes.old.items ++ note ∷ [])
        × (note.now ≡ now) × (note.at ≡ at) × (note.asked ≡ asked)
        × (note.before.items ≡ before.now)) }
    ensures same { OnErr result (notes.new.items ≡ notes.old.items) }
{
    let before = before.to_vec(alloc)?;
    notes.push(Note {
        now,
        at,
        asked,
        before,
    })?;
    Ok(())
}

// Notes a program, and makes it.
pub(crate) fn program_noted(
    alloc: Global,
    board: &mut MemBoard,
    notes: &mut Vec<Note>,
    now: u64,
    at: u32,
    from: &[u8],
) -> Result<(), Failed>
    requires some { 0 < length from.now }
    requires inside { at + length from.now ≤ mem.size board.old }
    ensures noted { Notes now at (length from.now) (IsProgram from.now) (mem.bytes board.old)
        notes.old.items notes.new.items
        ⊎ NotCalled board.old board.new notes.old.items notes.new.items }
    ensures called { OnOk result (length notes.old.items < length notes.new.items) }
    ensures done { OnOk result (mem.bytes board.new ≡ programmed (mem.bytes board.old) at
        from.now) }
    ensures half { HalfProgrammed at from.now (mem.bytes board.old) (mem.bytes board.new) }
    ensures unit { mem.unit board.new ≡ mem.unit board.old }
    ensures reads { mem.device_reads board.new ≡ mem.device_reads board.old }
    ensures left { mem.moment board.old < mem.moment board.new →
        ProgramLeaves (way_of CallKind.Program board.old.plan) at from.now
        (mem.bytes board.old) (mem.bytes board.new) }
    ensures unnoted { mem.moment board.new ≡ mem.moment board.old →
        mem.bytes board.new ≡ mem.bytes board.old }
    ensures answered { Answered (way_of CallKind.Program board.old.plan)
        (mem.moment board.old) (mem.moment board.new) result }
    ensures planned { length notes.old.items < length notes.new.items →
        board.new.plan ≡ plan_after CallKind.Program board.old.plan }
{
    let Ok(bits) = from.to_vec(alloc) else {
        return Err(Failed);
    };
    let start = at as usize;
    let before = &board.image()[start..start + from.len()];
    let Ok(()) = note_call(alloc, notes, now, at, Asked::Program(bits), before) else {
        return Err(Failed);
    };
    board.program(at, from)
}

// Notes an erase, and makes it.
pub(crate) fn erase_noted(
    alloc: Global,
    board: &mut MemBoard,
    notes: &mut Vec<Note>,
    now: u64,
    unit_ix: u32,
    mark: Option<Mark>,
) -> Result<(), Failed>
    requires inside { unit_ix < mem.size board.old / mem.unit board.old }
    requires marked { ForSome mark (λ m. m.at + 2 ≤ mem.unit board.old) }
    ensures noted { Notes now (unit_ix * mem.unit board.old) (mem.unit board.old) (IsErase mark)
        (mem.bytes board.old) notes.old.items notes.new.items
        ⊎ NotCalled board.old board.new notes.old.items notes.new.items }
    ensures called { OnOk result (length notes.old.items < length notes.new.items) }
    ensures done { OnOk result (mem.bytes board.new ≡ erased (mem.bytes board.old)
        (unit_ix * mem.unit board.old) (mem.unit board.old)) }
    ensures half { OnErr result (HalfErased (unit_ix * mem.unit board.old)
        (mem.unit board.old) mark (mem.bytes board.old) (mem.bytes board.new)) }
    ensures size { mem.size board.new ≡ mem.size board.old }
    ensures unit { mem.unit board.new ≡ mem.unit board.old }
    ensures reads { mem.device_reads board.new ≡ mem.device_reads board.old }
    ensures left { mem.moment board.old < mem.moment board.new →
        EraseLeaves (way_of CallKind.Erase board.old.plan) (unit_ix * mem.unit board.old)
        (mem.unit board.old) mark (mem.bytes board.old) (mem.bytes board.new) }
    ensures unnoted { mem.moment board.new ≡ mem.moment board.old →
        mem.bytes board.new ≡ mem.bytes board.old }
    ensures answered { Answered (way_of CallKind.Erase board.old.plan)
        (mem.moment board.old) (mem.moment board.new) result }
    ensures planned { length notes.old.items < length notes.new.items →
        board.new.plan ≡ plan_after CallKind.Erase board.old.plan }
{
    let unit = board.unit();
    let start = unit_ix as usize * unit as usize;
    let before = &board.image()[start..start + unit as usize];
    let Ok(()) = note_call(alloc, notes, now, start as u32, Asked::Erase(mark), before) else {
        return Err(Failed);
    };
    board.erase(unit_ix, mark)
}

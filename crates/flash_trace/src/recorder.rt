//! A device in memory that records what it is asked.
ghost use Rattle.std.specs.Prelude.{◌≡◌, ◌==◌, not, ◌+◌, ◌*◌, ◌/◌, ◌<◌, ◌≤◌, ◌++◌, ◌∷◌, [], length, OnOk, OnErr, IfOk};
ghost use Rattle.std.specs.Option.{ForSome};
ghost use Rattle.nor_memory.specs.contracts.memory.MemBoardNorState.TheImpl.{ghosts as mem};
ghost use Rattle.nor_core.specs.Count.{counted};
ghost use Rattle.nor_core.specs.Flash.{programmed, HalfProgrammed, erased, HalfErased};
ghost use Rattle.nor_core.specs.Device.{Changes, InErase, InSay, Leaves, Says};
ghost use Rattle.flash_trace.specs.declared.event.Event.TheVariants.{Erase as AnErase};
ghost use Rattle.flash_trace.specs.Recorded.{Recorded, IsFresh, NotesProgram, NotesSay, IsProgramEvent, IsSayEvent};

use crate::event::{Bytes, Event};
use nor_core::{Board, Failed, Mark, Nor, NorState};
use nor_memory::{MemBoard, cleared_bytes};
use std::alloc::{AllocError, Global};

/// A device in memory that records each program, erase and say that is done. A call for whose event there is no memory
/// fails before the device is asked.
#[derive(Drop)]
pub struct Recorder {
    alloc: Global,
    board: MemBoard,
    events: Vec<Event>,
    writes: u64,
    faults: u64,
    ghost recorded: { faults ≡ 0 → ∥ Recorded board events.items ∥₁ },
}

// The event of a program over these bytes.
fn program_event(alloc: Global, was: &[u8], at: u32, asked: &[u8]) -> Result<Event, AllocError>
    requires { length was.now ≡ length asked.now }
    ensures { IfOk result (IsProgramEvent at asked.now was.now) }
{
    let got = cleared_bytes(alloc, was, asked)?;
    Ok(Event::Program {
        at,
        asked: Bytes::new(asked.to_vec(alloc)?),
        got: Bytes::new(got),
    })
}

// The event of saying a piece.
fn say_event(alloc: Global, piece: &[u8]) -> Result<Event, AllocError>
    ensures { IfOk result (IsSayEvent piece.now) }
{
    Ok(Event::Say {
        piece: Bytes::new(piece.to_vec(alloc)?),
    })
}

// Records a program that the device does.
fn record_program(
    alloc: Global,
    board: &mut MemBoard,
    events: &mut Vec<Event>,
    at: u32,
    asked: &[u8],
) -> Result<(), Failed>
    requires some { 0 < length asked.now }
    requires inside { at + length asked.now ≤ mem.size board.old }
    ensures done { OnOk result (mem.bytes board.new ≡ programmed (mem.bytes board.old) at asked.now) }
    ensures changes { Changes mem board.old board.new (HalfProgrammed at asked.now) }
    ensures reads { mem.device_reads board.new ≡ mem.device_reads board.old }
    ensures noted { OnOk result (NotesProgram at asked.now (mem.bytes board.old) events.old.items events.new.items) }
{
    let start = at as usize;
    let was = &board.image()[start..start + asked.len()];
    let Ok(event) = program_event(alloc, was, at, asked) else {
        return Err(Failed);
    };
    let Ok(()) = events.push(event) else {
        return Err(Failed);
    };
    match board.program(at, asked) {
        Ok(()) => Ok(()),
        Err(failed) => {
            let _gone = events.pop();
            Err(failed)
        }
    }
}

// Records an erase that the device does.
fn record_erase(
    board: &mut MemBoard,
    events: &mut Vec<Event>,
    unit_ix: u32,
    mark: Option<Mark>,
) -> Result<(), Failed>
    requires inside { unit_ix < mem.size board.old / mem.unit board.old }
    requires marked { ForSome mark (λ m. m.at + 2 ≤ mem.unit board.old) }
    ensures done { OnOk result (mem.bytes board.new ≡ erased (mem.bytes board.old) (unit_ix * mem.unit board.old) (mem.unit board.old)) }
    ensures half { OnErr result (HalfErased (unit_ix * mem.unit board.old) (mem.unit board.old) mark (mem.bytes board.old) (mem.bytes board.new)) }
    ensures changes { Changes mem board.old board.new (InErase mem board.old board.new unit_ix mark) }
    ensures reads { mem.device_reads board.new ≡ mem.device_reads board.old }
    ensures noted { OnOk result (events.new.items ≡ events.old.items ++ AnErase unit_ix ∷ []) }
{
    let Ok(()) = events.push(Event::Erase { unit_ix }) else {
        return Err(Failed);
    };
    match board.erase(unit_ix, mark) {
        Ok(()) => Ok(()),
        Err(failed) => {
            let _gone = events.pop();
            Err(failed)
        }
    }
}

// Records a piece that the device says.
fn record_say(
    alloc: Global,
    board: &mut MemBoard,
    events: &mut Vec<Event>,
    piece: &[u8],
) -> Result<(), Failed>
    ensures done { OnOk result (mem.said board.new ≡ mem.said board.old ++ piece.now) }
    ensures says { Says mem board.old board.new piece.now }
    ensures cuts { Leaves mem board.old board.new (InSay mem board.old piece.now) }
    ensures noted { OnOk result (NotesSay piece.now events.old.items events.new.items) }
{
    let Ok(event) = say_event(alloc, piece) else {
        return Err(Failed);
    };
    let Ok(()) = events.push(event) else {
        return Err(Failed);
    };
    match board.say(piece) {
        Ok(()) => Ok(()),
        Err(failed) => {
            let _gone = events.pop();
            Err(failed)
        }
    }
}

// The count of faults after a call with this answer.
fn faults_after(faults: u64, answer: Result<(), Failed>) -> u64
    ensures kept { OnOk answer (result ≡ faults) }
    ensures rises { OnErr answer (result ≡ counted faults) }
    ensures never_falls { faults ≤ result }
{
    match answer {
        Ok(()) => faults,
        Err(_) => faults.saturating_add(1),
    }
}

impl Recorder {
    ghost use Rattle.std.specs.Prelude.{◌≡◌, [], length};
    ghost use Rattle.nor_memory.specs.contracts.memory.MemBoardNorState.TheImpl.{ghosts as mem};
    ghost use Rattle.flash_trace.specs.Recorded.{Recorded, IsFresh};

    /// Records what a device is asked from now on; nothing was asked of it that changed it.
    pub fn new(alloc: Global, board: MemBoard) -> Recorder
        requires fresh { IsFresh board }
        ensures board { result.board ≡ board }
        ensures events { result.events.items ≡ [] }
        ensures faults { result.faults ≡ 0 }
    {
        Recorder {
            alloc,
            board,
            events: Vec::new(alloc),
            writes: 0,
            faults: 0,
        }
    }

    /// The events so far, the first of them first.
    pub fn events(&self) -> &[Event]
        ensures { result.now ≡ self.now.events.items }
    {
        &self.events
    }

    /// The bytes that the device holds.
    pub fn image(&self) -> &[u8]
        ensures { result.now ≡ mem.bytes self.now.board }
    {
        self.board.image()
    }

    /// The bytes that the device held at first.
    pub fn first(&self) -> &[u8]
        ensures { result.now ≡ mem.lent self.now.board }
    {
        self.board.first()
    }

    /// The bytes that were said.
    pub fn said(&self) -> &[u8]
        ensures { result.now ≡ mem.said self.now.board }
    {
        self.board.said()
    }

    /// Whether a call failed. Then the events may not be all that was done.
    pub fn has_failed(&self) -> bool
        ensures { result ≡ not (self.now.faults == 0) }
    {
        self.faults != 0
    }
}

impl NorState for Recorder {
    ghost use Rattle.nor_memory.specs.contracts.memory.MemBoardNorState.TheImpl.{ghosts as mem};

    ghost tells = { λ r. mem.tells r.board };

    ghost bytes = { λ r. mem.bytes r.board };

    ghost size = { λ r. mem.size r.board };

    ghost unit = { λ r. mem.unit r.board };

    ghost said = { λ r. mem.said r.board };

    ghost faults = { λ r. r.faults };

    ghost lent = { λ r. mem.lent r.board };

    ghost moment = { λ r. mem.moment r.board };

    ghost device_reads = { λ r. mem.device_reads r.board };

    ghost device_writes = { λ r. r.writes };

    ghost left_since = { λ r. mem.left_since r.board };
}

impl Nor for Recorder {
    ghost use Rattle.std.specs.Prelude.{refl};
    ghost use Rattle.std.proofs.Common.{◌∙◌};
    ghost use Rattle.nor_memory.specs.RecordLaws.{only_last, now_counts};

    fn size(&self) -> u32 {
        self.board.size()
    }

    fn unit(&self) -> u32 {
        self.board.unit()
    }

    fn read(&mut self, at: u32, into: &mut [u8]) -> Result<(), Failed> {
        let answer = self.board.read(at, into);
        self.faults = faults_after(self.faults, answer);
        answer
    }

    fn program(&mut self, at: u32, from: &[u8]) -> Result<(), Failed> {
        self.writes = self.writes.saturating_add(1);
        let answer = record_program(self.alloc, &mut self.board, &mut self.events, at, from);
        self.faults = faults_after(self.faults, answer);
        answer
    }

    fn erase(&mut self, unit_ix: u32, mark: Option<Mark>) -> Result<(), Failed> {
        self.writes = self.writes.saturating_add(1);
        let answer = record_erase(&mut self.board, &mut self.events, unit_ix, mark);
        self.faults = faults_after(self.faults, answer);
        answer
    }

    ghost sized = { λ d tells. refl };

    ghost small = { λ d. d.board.fits };

    ghost only_now = { λ d image count left. record {
      all_bytes = λ _. (only_last d.board.unit d.board.calls.items d.board.first.items 0 image count left).0 ∙ d.board.stands;
      all_said = (only_last d.board.unit d.board.calls.items d.board.first.items 0 image count left).1 ∙ d.board.spoken;
    } };

    ghost counts_now = { λ d t le tells.
        now_counts d.board.unit d.board.calls.items d.board.first.items 0 t d.board.bytes.items (length d.board.said.items) d.board.stands d.board.spoken };
}

impl Board for Recorder {
    fn say(&mut self, piece: &[u8]) -> Result<(), Failed> {
        let answer = record_say(self.alloc, &mut self.board, &mut self.events, piece);
        self.faults = faults_after(self.faults, answer);
        answer
    }
}

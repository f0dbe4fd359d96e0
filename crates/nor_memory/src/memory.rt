//! A device in memory.
ghost use Rattle.std.specs.Prelude.{◌≡◌, ℕ, ◌%◌, ◌^◌, ◌<◌, ◌≤◌, List, length, OnOk, OnErr};
ghost use Rattle.nor_core.specs.Count.{counted};
ghost use Rattle.nor_memory.specs.Record.{image_after, count_after, LeftSince};

use crate::call::Call;
use crate::note::{note_erase, note_program, note_say};
use crate::plan::{CallKind, Plan, Way};
use nor_core::{Board, Failed, Mark, MemErr, Nor, NorState};
use std::alloc::Global;

/// A device in memory, which tells its bytes. It keeps its first image and each program, erase and say since, with what
/// that left, so that what a cut may leave is exactly what the rules of NOR flash allow. A call fails where that was asked
/// for or the power is off, or where there is no memory to note it in; then nothing was done. Reads take no memory.
#[derive(Drop)]
pub struct MemBoard {
    alloc: Global,
    first: Vec<u8>,
    calls: Vec<Call>,
    bytes: Vec<u8>,
    said: Vec<u8>,
    unit: u32,
    reads: u64,
    writes: u64,
    faults: u64,
    plan: Plan,
    ghost fits: { length bytes.items < 2 ^ 32 },
    ghost unit_is: { 0 < unit },
    ghost whole: { length bytes.items % unit ≡ 0 },
    ghost stands: { image_after unit calls.items first.items ≡ bytes.items },
    ghost spoken: { count_after calls.items 0 ≡ length said.items },
}

impl MemBoard {
    ghost use Rattle.nor_memory.specs.contracts.memory.MemBoardNorState.TheImpl.{ghosts as mem};
    ghost use Rattle.std.specs.Prelude.{◌≡◌, ◌<◌, ◌%◌, ◌^◌, [], length, IfOk};
    ghost use Rattle.nor_core.specs.Device.{OnlyReads};
    ghost use Rattle.nor_memory.specs.Ways.{no_plan, plan_failing, plan_cut};

    /// A device that holds this image, in erase units of `unit` bytes, at least 1. The image is a whole number of units,
    /// below 2^32 bytes. Nothing is to fail, and nothing was said.
    #[tactic(auto, unfolding(crate::specs::Record::image_after, crate::specs::Record::count_after))]
    pub fn new(alloc: Global, image: Vec<u8>, unit: u32) -> Result<MemBoard, MemErr>
        requires unit { 0 < unit }
        requires whole { length image.items % unit ≡ 0 }
        requires fits { length image.items < 2 ^ 32 }
        ensures bytes { IfOk result (λ board. mem.bytes board ≡ image.items) }
        ensures unit { IfOk result (λ board. mem.unit board ≡ unit) }
        ensures said { IfOk result (λ board. mem.said board ≡ []) }
        ensures faults { IfOk result (λ board. mem.faults board ≡ 0) }
        ensures reads { IfOk result (λ board. mem.device_reads board ≡ 0) }
        ensures writes { IfOk result (λ board. mem.device_writes board ≡ 0) }
        ensures planned { IfOk result (λ board. board.plan ≡ no_plan) }
        ensures first { IfOk result (λ board. mem.lent board ≡ image.items) }
        ensures moment { IfOk result (λ board. mem.moment board ≡ 0) }
    {
        let Ok(first) = image.to_vec(alloc) else {
            return Err(MemErr::Memory);
        };
        Ok(MemBoard {
            alloc,
            first,
            calls: Vec::new(alloc),
            bytes: image,
            said: Vec::new(alloc),
            unit,
            reads: 0,
            writes: 0,
            faults: 0,
            plan: Plan::none(),
        })
    }

    /// The nth call of that kind from now on, counted from 1, fails and does nothing. At most one call of each kind is to
    /// fail: the last asked counts, and 0 asks for none.
    pub fn fail_nth(&mut self, kind: CallKind, nth: u64)
        ensures only_reads { OnlyReads mem self.old self.new }
        ensures planned { self.new ≡ record self.old { plan = plan_failing kind nth self.old.plan } }
    {
        self.plan = self.plan.failing(kind, nth);
    }

    /// After `passed` more programs, erases and says the power goes off inside the next one. That call fails, and so does
    /// each later one, reads too; those do nothing. Once the power is off it stays off.
    ///
    /// The pick says what the call had done by then: 0 nothing and 1 all; any other number seeds the generator. A program
    /// makes one draw for each byte, and clears those of its bits to clear that are set in the draw's lowest eight bits.
    /// An erase leaves in each byte of its unit the lowest eight bits of one draw. Of a piece as many bytes are said as
    /// the first draw gives modulo one more than its length. Where the mark of an erase would read as its word, the lowest
    /// bit of its first byte is turned, at pick 1 too.
    pub fn cut_after(&mut self, passed: u64, pick: u64)
        ensures only_reads { OnlyReads mem self.old self.new }
        ensures planned { self.new ≡ record self.old { plan = plan_cut passed pick self.old.plan } }
    {
        self.plan = self.plan.cut(passed, pick);
    }

    /// The bytes that it holds.
    pub fn image(&self) -> &[u8]
        ensures { result.now ≡ mem.bytes self.now }
    {
        &self.bytes
    }

    /// The image that it was made of.
    pub fn first(&self) -> &[u8]
        ensures { result.now ≡ mem.lent self.now }
    {
        &self.first
    }

    /// The bytes that were said.
    pub fn said(&self) -> &[u8]
        ensures { result.now ≡ mem.said self.now }
    {
        &self.said
    }
}

impl NorState for MemBoard {
    ghost tells = { λ _. Unit {0} };

    ghost bytes = { λ m. m.bytes.items };

    ghost size = { λ m. length m.bytes.items };

    ghost unit = { λ m. m.unit };

    ghost said = { λ m. m.said.items };

    ghost faults = { λ m. m.faults };

    ghost lent = { λ m. m.first.items };

    ghost moment = { λ m. length m.calls.items };

    ghost device_reads = { λ m. m.reads };

    ghost device_writes = { λ m. m.writes };

    ghost left_since = { λ m t image count. LeftSince m.unit m.calls.items m.first.items 0 t image count };
}

impl Nor for MemBoard {
    ghost use Rattle.nor_memory.specs.contracts.memory.MemBoardNorState.TheImpl.{ghosts as mem};
    ghost use Rattle.std.specs.Prelude.{◌≡◌, ◌+◌, ◌*◌, ◌/◌, ◌<◌, ◌≤◌, ◌↔◌, IsOk, OnOk, OnErr, length, slice_range, refl};
    ghost use Rattle.nor_memory.specs.Ways.{way_of, plan_after, Answered};
    ghost use Rattle.nor_memory.specs.Picks.{ProgramLeaves, EraseLeaves};
    ghost use Rattle.std.specs.Option.{ForSome};
    ghost use Rattle.std.proofs.Common.{◌∙◌};
    ghost use Rattle.nor_core.specs.Count.{counted, Rose};
    ghost use Rattle.nor_core.specs.Device.{OnlyReads, Changes, InErase, Writes, MayBeHalf, MayBeErased};
    ghost use Rattle.nor_core.specs.Flash.{programmed, HalfProgrammed, erased, HalfErased};
    ghost use Rattle.nor_memory.specs.RecordLaws.{only_last, now_counts};

    fn size(&self) -> u32 {
        self.bytes.len() as u32
    }

    fn unit(&self) -> u32 {
        self.unit
    }

    fn read(&mut self, at: u32, into: &mut [u8]) -> Result<(), Failed>
        requires some { 0 < length into.old }
        requires inside { at + length into.old ≤ mem.size self.old }
        ensures read { mem.tells self.old →
            OnOk result (into.new ≡ slice_range (mem.bytes self.old) at (at + length into.old)) }
        ensures counted { mem.device_reads self.new ≡ counted (mem.device_reads self.old) }
        ensures cause { OnErr result (Rose (mem.faults self.old) (mem.faults self.new)) }
        ensures only_reads { OnlyReads mem self.old self.new }
        ensures whole { IsOk result ↔ (way_of CallKind.Read self.old.plan ≡ Way.Whole) }
        ensures planned { self.new.plan ≡ plan_after CallKind.Read self.old.plan }
        ensures no_fault { OnOk result (mem.faults self.new ≡ mem.faults self.old) }
        ensures one_fault { OnErr result (mem.faults self.new ≡ counted (mem.faults self.old)) }
    {
        self.reads = self.reads.saturating_add(1);
        if self.plan.next(CallKind::Read) != Way::Whole {
            self.faults = self.faults.saturating_add(1);
            return Err(Failed);
        }
        let start = at as usize;
        into.copy_from_slice(&self.bytes[start..start + into.len()]);
        Ok(())
    }

    fn program(&mut self, at: u32, from: &[u8]) -> Result<(), Failed>
        requires some { 0 < length from.now }
        requires inside { at + length from.now ≤ mem.size self.old }
        ensures done { mem.tells self.old →
            OnOk result (mem.bytes self.new ≡ programmed (mem.bytes self.old) at from.now) }
        ensures changes { Changes mem self.old self.new (HalfProgrammed at from.now) }
        ensures cause { OnErr result (Rose (mem.faults self.old) (mem.faults self.new)) }
        ensures writes { Writes mem self.old self.new }
        ensures possible { MayBeHalf mem self.old self.new at from.now }
        ensures left { mem.moment self.old < mem.moment self.new →
            ProgramLeaves (way_of CallKind.Program self.old.plan) at from.now (mem.bytes self.old)
            (mem.bytes self.new) }
        ensures unnoted { mem.moment self.new ≡ mem.moment self.old →
            mem.bytes self.new ≡ mem.bytes self.old }
        ensures answered { Answered (way_of CallKind.Program self.old.plan) (mem.moment self.old)
            (mem.moment self.new) result }
        ensures planned { self.new.plan ≡ plan_after CallKind.Program self.old.plan }
        ensures no_fault { OnOk result (mem.faults self.new ≡ mem.faults self.old) }
        ensures one_fault { OnErr result (mem.faults self.new ≡ counted (mem.faults self.old)) }
    {
        self.writes = self.writes.saturating_add(1);
        let way = self.plan.next(CallKind::Program);
        let answer = note_program(self.alloc, &mut self.bytes, &mut self.calls, at, from, way);
        self.faults = faults_after(self.faults, answer);
        answer
    }

    fn erase(&mut self, unit_ix: u32, mark: Option<Mark>) -> Result<(), Failed>
        requires inside { unit_ix < mem.size self.old / mem.unit self.old }
        requires marked { ForSome mark (λ m. m.at + 2 ≤ mem.unit self.old) }
        ensures done { mem.tells self.old →
            OnOk result (mem.bytes self.new ≡ erased (mem.bytes self.old)
            (unit_ix * mem.unit self.old) (mem.unit self.old)) }
        ensures half { mem.tells self.old →
            OnErr result (HalfErased (unit_ix * mem.unit self.old) (mem.unit self.old) mark
            (mem.bytes self.old) (mem.bytes self.new)) }
        ensures cause { OnErr result (Rose (mem.faults self.old) (mem.faults self.new)) }
        ensures writes { Writes mem self.old self.new }
        ensures changes { Changes mem self.old self.new
            (InErase mem self.old self.new unit_ix mark) }
        ensures possible { MayBeErased mem self.old self.new unit_ix mark }
        ensures left { mem.moment self.old < mem.moment self.new →
            EraseLeaves (way_of CallKind.Erase self.old.plan) (unit_ix * mem.unit self.old)
            (mem.unit self.old) mark (mem.bytes self.old) (mem.bytes self.new) }
        ensures unnoted { mem.moment self.new ≡ mem.moment self.old →
            mem.bytes self.new ≡ mem.bytes self.old }
        ensures answered { Answered (way_of CallKind.Erase self.old.plan) (mem.moment self.old)
            (mem.moment self.new) result }
        ensures planned { self.new.plan ≡ plan_after CallKind.Erase self.old.plan }
        ensures no_fault { OnOk result (mem.faults self.new ≡ mem.faults self.old) }
        ensures one_fault { OnErr result (mem.faults self.new ≡ counted (mem.faults self.old)) }
    {
        self.writes = self.writes.saturating_add(1);
        let way = self.plan.next(CallKind::Erase);
        let answer = note_erase(
            self.alloc,
            &mut self.bytes,
            &mut self.calls,
            self.unit,
            unit_ix,
            mark,
            way,
        );
        self.faults = faults_after(self.faults, answer);
        answer
    }

    ghost sized = { λ d tells. refl };

    ghost small = { λ d. d.fits };

    ghost only_now = { λ d image count left. record {
      all_bytes = λ _. (only_last d.unit d.calls.items d.first.items 0 image count left).0 ∙ d.stands;
      all_said = (only_last d.unit d.calls.items d.first.items 0 image count left).1 ∙ d.spoken;
    } };

    ghost counts_now = { λ d t le tells. now_counts d.unit d.calls.items d.first.items 0 t d.bytes.items (length d.said.items) d.stands d.spoken };
}

impl Board for MemBoard {
    ghost use Rattle.nor_memory.specs.contracts.memory.MemBoardNorState.TheImpl.{ghosts as mem};
    ghost use Rattle.std.specs.Prelude.{◌≡◌, ◌<◌, ◌++◌, OnOk, OnErr};
    ghost use Rattle.nor_memory.specs.Ways.{way_of, plan_after, Answered};
    ghost use Rattle.nor_memory.specs.Picks.{SayLeaves};
    ghost use Rattle.nor_core.specs.Count.{counted, Rose};
    ghost use Rattle.nor_core.specs.Device.{Leaves, InSay, Says, MayBeSaid};

    fn say(&mut self, piece: &[u8]) -> Result<(), Failed>
        ensures done { mem.tells self.old →
            OnOk result (mem.said self.new ≡ mem.said self.old ++ piece.now) }
        ensures says { Says mem self.old self.new piece.now }
        ensures cause { OnErr result (Rose (mem.faults self.old) (mem.faults self.new)) }
        ensures cuts { Leaves mem self.old self.new (InSay mem self.old piece.now) }
        ensures possible { MayBeSaid mem self.old self.new piece.now }
        ensures left { mem.moment self.old < mem.moment self.new →
            SayLeaves (way_of CallKind.Say self.old.plan) piece.now (mem.said self.old)
            (mem.said self.new) }
        ensures unnoted { mem.moment self.new ≡ mem.moment self.old →
            mem.said self.new ≡ mem.said self.old }
        ensures answered { Answered (way_of CallKind.Say self.old.plan) (mem.moment self.old)
            (mem.moment self.new) result }
        ensures planned { self.new.plan ≡ plan_after CallKind.Say self.old.plan }
        ensures no_fault { OnOk result (mem.faults self.new ≡ mem.faults self.old) }
        ensures one_fault { OnErr result (mem.faults self.new ≡ counted (mem.faults self.old)) }
    {
        let way = self.plan.next(CallKind::Say);
        let answer = note_say(self.alloc, &mut self.said, &mut self.calls, piece, way);
        self.faults = faults_after(self.faults, answer);
        answer
    }
}

// The count of faults after a call with this answer.
pub(crate) fn faults_after(faults: u64, answer: Result<(), Failed>) -> u64
    ensures kept { OnOk answer (result ≡ faults) }
    ensures rises { OnErr answer (result ≡ counted faults) }
    ensures never_falls { faults ≤ result }
{
    match answer {
        Ok(()) => faults,
        Err(_) => faults.saturating_add(1),
    }
}

ghost use Rattle.std.specs.Prelude.{ℕ, ◌≡◌, ◌≢◌, ◌≤◌, length, IfErr, Err, Some, None};
ghost use Rattle.geometry.specs.Numbers.{write_refusal, work_need, cache_need, check_need};
ghost use Rattle.nor_core.specs.Count.{Rose};
ghost use Rattle.nor_core.specs.Device.{Changes, OnlyReads};
ghost use Rattle.flash_view.specs.Same.{StaysBehind};
ghost use Rattle.vol_mount.specs.Readers.{IsSameReader};
ghost use Rattle.volume.specs.Same.{IsSameVolume};
ghost use Rattle.tool_parts.specs.declared.ending.Ending.{Ending as TheEnding};
ghost use Rattle.tool_parts.specs.Among.{EndsAmong};
ghost use Rattle.tool_parts.specs.Closing.{status_of};
ghost use Rattle.tool_parts.specs.Fits.{IsFitting, HoldsVolume, HasLengths};
ghost use Rattle.tool_parts.specs.Later.{IsLaterStatus};
ghost use Rattle.tool_parts.specs.Lent.{lengths_of};
ghost use Rattle.tool_parts.specs.Reads.{ReadsOnce};
ghost use Rattle.tool_parts.specs.Refusals.{check_refusal};
ghost use Rattle.copy_tool.specs.Among.{MayEndCopy};
ghost use Rattle.copy_tool.specs.Does.{CopyLeaves, HasAll, DoesCopy};
ghost use Rattle.copy_tool.specs.Steps.{CopiesAs, CopiesTo};

use crate::ending::{copied_line, copy_ending, end_of_copy};
use crate::plan::CopyPlan;
use crate::surveying::survey;
use copy_model::Copied;
use geometry::Geometry;
use nor_core::{Board, Failed, Nor, NorState};
use tool_parts::{Buffers, Ending, begin, conclude};
use vol_copy::copy_all;
use vol_mount::{Lent, Reader, ReaderLent};
use volume::Volume;

// Checks the target, and copies the files of the mounted source onto it.
#[tactic(auto, using(volume::proofs::Staying::same_then))]
fn copy_files<N: Nor, B: Board>(
    from: &mut Reader<'_, N>,
    to: &mut Volume<'_, B>,
    piece: &mut [u8],
    marks: &mut [u8],
) -> Result<Copied, Ending>
    requires writable { write_refusal to.old.geometry ≡ None }
    requires slots { 1 ≤ length to.old.slots.now }
    requires piece { 4096 ≤ length piece.old }
    requires marks { check_need to.old.geometry ≤ length marks.old }
    ensures later { IfErr result (λ ending. IsLaterStatus (status_of ending)) }
    ensures among { IfErr result MayEndCopy }
    ensures reads { OnlyReads N.NorState from.old.nor.now from.new.nor.now }
    ensures same_source { IsSameReader from.old from.new }
    ensures same { IsSameVolume to.old to.new }
    ensures cause { result ≡ Err Ending.BoardFault → Rose (B.faults to.old.nor.now) (B.faults to.new.nor.now) }
    ensures source_cause { result ≡ Err Ending.SourceChipFault → Rose (N.faults from.old.nor.now) (N.faults from.new.nor.now) }
    ensures changes { Changes B.NorState to.old.nor.now to.new.nor.now (CopyLeaves N.NorState from.old.geometry to.old.geometry from.old.nor.now) }
    ensures copies { N.tells from.old.nor.now → B.tells to.old.nor.now →
        CopiesAs from.old.geometry to.old.geometry (N.bytes from.old.nor.now) (B.bytes to.old.nor.now) (B.bytes to.new.nor.now) result }
    ensures idle { N.tells from.old.nor.now → B.tells to.old.nor.now →
        HasAll from.old.geometry to.old.geometry (N.bytes from.old.nor.now) (B.bytes to.old.nor.now) → OnlyReads B.NorState to.old.nor.now to.new.nor.now }
    ensures kept { B.tells to.old.nor.now → (ending : TheEnding) → check_refusal to.old.geometry (B.bytes to.old.nor.now) ≡ Some ending →
        OnlyReads B.NorState to.old.nor.now to.new.nor.now }
{
    if let Err(ending) = begin(to, marks) {
        return Err(ending);
    }
    match copy_all(from, to, piece) {
        Ok(copied) => Ok(copied),
        Err(why) => Err(copy_ending(why)),
    }
}

// Surveys the source, copies its files onto the target, and says how many were copied. A source that can't be surveyed leaves the
// target untouched.
#[tactic(auto, using(volume::proofs::Staying::same_then))]
fn copy_volumes<N: Nor, B: Board>(
    from: &mut Reader<'_, N>,
    to: &mut Volume<'_, B>,
    line: &mut [u8],
    marks: &mut [u8],
) -> Ending
    requires writable { write_refusal to.old.geometry ≡ None }
    requires slots { 1 ≤ length to.old.slots.now }
    requires line { 12288 ≤ length line.old }
    requires marks { check_need to.old.geometry ≤ length marks.old }
    ensures later { IsLaterStatus (status_of result) }
    ensures among { MayEndCopy result }
    ensures reads { OnlyReads N.NorState from.old.nor.now from.new.nor.now }
    ensures same_source { IsSameReader from.old from.new }
    ensures same { IsSameVolume to.old to.new }
    ensures cause { result ≡ Ending.BoardFault → Rose (B.faults to.old.nor.now) (B.faults to.new.nor.now) }
    ensures source_cause { result ≡ Ending.SourceChipFault → Rose (N.faults from.old.nor.now) (N.faults from.new.nor.now) }
    ensures copies { CopiesTo N.NorState B.NorState from.old.geometry to.old.geometry from.old.nor.now to.old.nor.now to.new.nor.now result }
{
    let damaged = match survey(from) {
        Ok(damaged) => damaged,
        Err(ending) => return ending,
    };
    let copied = match copy_files(from, to, line, marks) {
        Ok(copied) => copied,
        Err(ending) => return ending,
    };
    match to.say(copied_line(copied).as_slice()) {
        Ok(()) => end_of_copy(damaged),
        Err(Failed) => Ending::BoardFault,
    }
}

// Copies the files of the volume of one device onto that of another, and says how many were copied.
fn copy_boards<'a, 'b, N: Nor, B: Board>(
    plan: CopyPlan,
    source: &'a mut N,
    source_lent: ReaderLent<'a>,
    board: &'b mut B,
    lent: Lent<'b>,
    line: &mut [u8],
    marks: &mut [u8],
) -> Ending
    requires source_fits { HoldsVolume plan.source (N.unit source.old) (N.size source.old) }
    requires source_work { work_need plan.source ≤ length source_lent.work.now }
    requires source_cache { cache_need plan.source ≤ length source_lent.cache.now }
    requires source_check { check_need plan.source ≤ length source_lent.check.now }
    requires fits { IsFitting plan.target (B.unit board.old) (B.size board.old) }
    requires work { work_need plan.target ≤ length lent.work.now }
    requires slots { 1 ≤ length lent.slots.now }
    requires cache { cache_need plan.target ≤ length lent.cache.now }
    requires window { plan.target.page ≤ length lent.window.now }
    requires marks { check_need plan.target ≤ length marks.old }
    requires line { 12288 ≤ length line.old }
    ensures later { IsLaterStatus (status_of result) }
    ensures among { MayEndCopy result }
    ensures reads { OnlyReads N.NorState source.old source.new }
    ensures cause { result ≡ Ending.BoardFault → Rose (B.faults board.old) (B.faults board.new) }
    ensures source_cause { result ≡ Ending.SourceChipFault → Rose (N.faults source.old) (N.faults source.new) }
    ensures copies { CopiesTo N.NorState B.NorState plan.source plan.target source.old board.old board.new result }
    ensures behind { StaysBehind B.NorState plan.target board.old board.new }
    ensures source_few { ReadsOnce N.NorState plan.source (length source_lent.entry.cache.now) source.old source.new }
    ensures few { ReadsOnce B.NorState plan.target (length lent.entry.cache.now) board.old board.new }
{
    let mut from = Reader::new(plan.source, source, source_lent);
    let mut to = Volume::new(plan.target, board, lent);
    copy_volumes(&mut from, &mut to, line, marks)
}

/// Copies the files of the volume of one device onto that of another, each in its lent memory, and says how many were copied.
pub(crate) fn copy_on<N: Nor, B: Board>(
    plan: CopyPlan,
    source: &mut N,
    board: &mut B,
    source_bufs: &mut Buffers<'_>,
    bufs: &mut Buffers<'_>,
) -> u8
    requires source_fits { HoldsVolume plan.source (N.unit source.old) (N.size source.old) }
    requires source_room { HasLengths plan.source (lengths_of source_bufs.old) }
    requires fits { IsFitting plan.target (B.unit board.old) (B.size board.old) }
    requires room { HasLengths plan.target (lengths_of bufs.old) }
    ensures later { IsLaterStatus result }
    ensures ends { EndsAmong B.NorState MayEndCopy board.old board.new result }
    ensures reads { OnlyReads N.NorState source.old source.new }
    ensures board_fault { result ≡ 7 → Rose (B.faults board.old) (B.faults board.new) }
    ensures source_fault { result ≡ 18 → Rose (N.faults source.old) (N.faults source.new) }
    ensures does { DoesCopy N.NorState B.NorState plan.source plan.target (length source_bufs.old.cache.now)
        (length bufs.old.cache.now) source.old source.new board.old board.new result }
{
    let source_lent = ReaderLent {
        work: &mut *source_bufs.work,
        cache: &mut *source_bufs.cache,
        check: &mut *source_bufs.check,
    };
    let lent = Lent {
        work: &mut *bufs.work,
        slots: &mut *bufs.slots,
        cache: &mut *bufs.cache,
        window: &mut *bufs.window,
    };
    let ending = copy_boards(
        plan,
        source,
        source_lent,
        board,
        lent,
        bufs.line,
        bufs.check,
    );
    conclude(board, ending)
}

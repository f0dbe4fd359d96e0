ghost use Rattle.std.specs.Prelude.{ℕ, ◌≡◌, ◌≢◌, ◌*◌, ◌≤◌, ◌⊎◌, length, min, IfErr, OnOk, Err, Some, None, true};
ghost use Rattle.geometry.specs.Numbers.{write_refusal, work_need, cache_need, check_need};
ghost use Rattle.nor_core.specs.Count.{Rose};
ghost use Rattle.nor_core.specs.Device.{Changes};
ghost use Rattle.flash_view.specs.Same.{StaysBehind};
ghost use Rattle.volume.specs.Holds.{memory};
ghost use Rattle.volume.specs.Stages.{takes_calls};
ghost use Rattle.volume.specs.Same.{IsSameVolume};
ghost use Rattle.tool_parts.specs.Among.{EndsAmong};
ghost use Rattle.tool_parts.specs.Begins.{closed_memory, first_moment};
ghost use Rattle.tool_parts.specs.Fits.{IsFitting, HasLengths};
ghost use Rattle.tool_parts.specs.Later.{IsLater, IsLaterStatus};
ghost use Rattle.tool_parts.specs.Lent.{lengths_of};
ghost use Rattle.script_run.specs.Among.{MayEndRun};
ghost use Rattle.script_run.specs.Outcomes.{RunsTo, Refused, EndsByImages};
ghost use Rattle.tool_parts.specs.Reads.{ReadsOnce};
ghost use Rattle.tool_parts.specs.Refusals.{check_refusal};
ghost use Rattle.script_run.specs.Running.{DoesRun};
ghost use Rattle.script_run.specs.Runs.{StandsBy};
ghost use Rattle.script_run.specs.Settling.{Settling, settled_as};

use crate::script::run_script;
use geometry::Geometry;
use nor_core::{Board, Nor, NorState, Source};
use table_model::FsErr;
use tool_parts::{Buffers, Ending, begin, conclude};
use vol_mount::Lent;
use volume::Volume;

// How a run ends whose volume was settled so.
fn settled_ending(ending: Ending, last: Result<(), FsErr>) -> Ending
    ensures ends { result ≡ settled_as ending last }
    ensures later { IsLater ending → IsLater result }
    ensures no_script { result ≡ Ending.SourceFault → ending ≡ Ending.SourceFault }
{
    match last {
        Ok(()) => ending,
        Err(FsErr::Damaged(differ)) => Ending::Differ(differ),
        Err(FsErr::Tight) => Ending::Tight(0),
        Err(_) => Ending::BoardFault,
    }
}

// Puts the written bytes that wait onto the chip at the end of a run, and says how it ends then.
fn settle<B: Board>(volume: &mut Volume<'_, B>, ending: Ending) -> Ending
    requires { StandsBy (Some ending) (takes_calls volume.old) }
    ensures later { IsLater ending → IsLater result }
    ensures among { MayEndRun ending → MayEndRun result }
    ensures no_script { result ≡ Ending.SourceFault → ending ≡ Ending.SourceFault }
    ensures cause { result ≡ Ending.BoardFault → (ending ≡ Ending.BoardFault) ⊎ Rose (B.faults volume.old.nor.now) (B.faults volume.new.nor.now) }
    ensures same { IsSameVolume volume.old volume.new }
    ensures settles { Settling B.NorState volume.old.geometry volume.old.nor.now volume.new.nor.now (memory volume.old) (memory volume.new) ending result }
{
    match ending {
        Ending::BoardFault | Ending::Differ(_) => ending,
        _ => settled_ending(ending, volume.settle()),
    }
}

// Mounts and checks a volume, and runs a script on it.
#[tactic(auto, using(volume::proofs::Staying::same_then))]
fn run_volume<B: Board, S: Source>(
    volume: &mut Volume<'_, B>,
    script: &mut S,
    line: &mut [u8],
    marks: &mut [u8],
) -> Ending
    requires writable { write_refusal volume.old.geometry ≡ None }
    requires marks { check_need volume.old.geometry ≤ length marks.old }
    requires room { 12288 ≤ length line.old }
    ensures later { IsLater result }
    ensures among { MayEndRun result }
    ensures faults { B.faults volume.old.nor.now ≤ B.faults volume.new.nor.now }
    ensures cause { result ≡ Ending.BoardFault → Rose (B.faults volume.old.nor.now) (B.faults volume.new.nor.now) }
    ensures same { IsSameVolume volume.old volume.new }
    ensures script_faults { S.faults script.old ≤ S.faults script.new }
    ensures script_cause { result ≡ Ending.SourceFault → Rose (S.faults script.old) (S.faults script.new) }
    ensures ends { (slots : ℕ) → memory volume.old ≡ closed_memory slots → S.tells script.old → B.tells volume.old.nor.now →
        RunsTo B.NorState volume.old.geometry volume.old.nor.now volume.new.nor.now (first_moment volume.old.geometry slots (B.bytes volume.old.nor.now))
        (S.left script.old) (S.left script.new) result }
    ensures refused { B.tells volume.old.nor.now → (ending : Ending) → check_refusal volume.old.geometry (B.bytes volume.old.nor.now) ≡ Some ending →
        Refused B.NorState volume.old.geometry volume.old.nor.now volume.new.nor.now ending result }
    ensures begins { (slots : ℕ) → memory volume.old ≡ closed_memory slots → B.tells volume.old.nor.now →
        EndsByImages volume.old.geometry (B.bytes volume.old.nor.now) (B.bytes volume.new.nor.now) result }
{
    match begin(volume, marks) {
        Err(ending) => ending,
        Ok(()) => {
            let ending = run_script(volume, script, line);
            settle(volume, ending)
        }
    }
}

// Mounts and checks the volume of a board, and runs a script on it.
fn run<'b, B: Board, S: Source>(
    g: Geometry,
    board: &'b mut B,
    script: &mut S,
    lent: Lent<'b>,
    line: &mut [u8],
    marks: &mut [u8],
) -> Ending
    requires fits { IsFitting g (B.unit board.old) (B.size board.old) }
    requires work { work_need g ≤ length lent.work.now }
    requires slots { 1 ≤ length lent.slots.now }
    requires cache { cache_need g ≤ length lent.cache.now }
    requires window { g.page ≤ length lent.window.now }
    requires marks { check_need g ≤ length marks.old }
    requires line { 12288 ≤ length line.old }
    ensures later { IsLater result }
    ensures among { MayEndRun result }
    ensures script_faults { S.faults script.old ≤ S.faults script.new }
    ensures script_cause { result ≡ Ending.SourceFault → Rose (S.faults script.old) (S.faults script.new) }
    ensures board_faults { B.faults board.old ≤ B.faults board.new }
    ensures board_cause { result ≡ Ending.BoardFault → Rose (B.faults board.old) (B.faults board.new) }
    ensures few { ReadsOnce B.NorState g (length lent.entry.cache.now) board.old board.new }
    ensures ends { S.tells script.old → B.tells board.old → RunsTo B.NorState g board.old board.new
        (first_moment g (min 65535 (length lent.entry.slots.now)) (B.bytes board.old)) (S.left script.old) (S.left script.new) result }
    ensures refused { B.tells board.old → (ending : Ending) → check_refusal g (B.bytes board.old) ≡ Some ending →
        Refused B.NorState g board.old board.new ending result }
    ensures begins { B.tells board.old → EndsByImages g (B.bytes board.old) (B.bytes board.new) result }
    ensures behind { StaysBehind B.NorState g board.old board.new }
{
    let mut volume = Volume::new(g, board, lent);
    run_volume(&mut volume, script, line, marks)
}

/// Mounts and checks the volume of a board in the lent memory, and runs a script on it.
pub fn run_on<B: Board, S: Source>(
    g: Geometry,
    board: &mut B,
    script: &mut S,
    bufs: &mut Buffers<'_>,
) -> u8
    requires fits { IsFitting g (B.unit board.old) (B.size board.old) }
    requires room { HasLengths g (lengths_of bufs.old) }
    ensures later { IsLaterStatus result }
    ensures board_fault { result ≡ 7 → Rose (B.faults board.old) (B.faults board.new) }
    ensures script_fault { result ≡ 8 → Rose (S.faults script.old) (S.faults script.new) }
    ensures no_folder { result ≢ 9 }
    ensures ends { EndsAmong B.NorState MayEndRun board.old board.new result }
    ensures does { DoesRun B.NorState S.Source g (lengths_of bufs.old) board.old board.new script.old script.new result }
{
    let lent = Lent {
        work: &mut *bufs.work,
        slots: &mut *bufs.slots,
        cache: &mut *bufs.cache,
        window: &mut *bufs.window,
    };
    let ending = run(g, board, script, lent, bufs.line, bufs.check);
    conclude(board, ending)
}

ghost use Rattle.std.specs.Prelude.{ℕ, ◌≡◌, ◌≢◌, ◌≤◌, [], length, min, None};
ghost use Rattle.geometry.specs.Numbers.{write_refusal, work_need, cache_need, check_need};
ghost use Rattle.nor_core.specs.Count.{Rose};
ghost use Rattle.flash_view.specs.Same.{StaysBehind};
ghost use Rattle.volume.specs.Holds.{memory};
ghost use Rattle.volume.specs.Same.{IsSameVolume};
ghost use Rattle.volume_soak.specs.Turns.{summary_text};
ghost use Rattle.tool_core.specs.Filling.{HoldsFiles};
ghost use Rattle.tool_parts.specs.Among.{MayEndWork, EndsAmong};
ghost use Rattle.tool_parts.specs.Fits.{IsFitting, HasLengths};
ghost use Rattle.tool_parts.specs.Later.{IsLater, IsLaterStatus};
ghost use Rattle.tool_parts.specs.Lent.{lengths_of};
ghost use Rattle.tool_parts.specs.Begins.{closed_memory};
ghost use Rattle.tool_core.specs.Soaking.{SoaksTo, DoesSoak};

use crate::finishing::{finish, format_board};
use geometry::Geometry;
use nor_core::{Board, Nor, NorState};
use tool_parts::{Buffers, Closing, Ending, conclude, mount_and_check, put, put_count};
use vol_mount::Lent;
use volume::Volume;
use volume_run::Stop;
use volume_soak::{Summary, soak};

// The line of a summary of so many turns.
fn summary_line(turns: u32, summary: Summary) -> Closing
    requires { summary.ok ≤ turns }
    ensures { result.items ≡ summary_text turns summary.ok summary.files summary.bytes }
{
    let mut line = Closing::new();
    put_count(&mut line, b"turns ", u64::from(turns));
    put_count(&mut line, b" ok ", u64::from(summary.ok));
    put_count(&mut line, b" refused ", u64::from(turns - summary.ok));
    put_count(&mut line, b" files ", u64::from(summary.files));
    put_count(&mut line, b" bytes ", summary.bytes);
    put(&mut line, b"\n");
    line
}

// Mounts and checks a formatted volume, makes turns of calls on it, and says their summary.
#[tactic(auto, using(volume::proofs::Staying::same_then))]
fn soak_volume<B: Board>(
    volume: &mut Volume<'_, B>,
    seed: u64,
    turns: u32,
    line: &mut [u8],
    marks: &mut [u8],
) -> Ending
    requires writable { write_refusal volume.old.geometry ≡ None }
    requires marks { check_need volume.old.geometry ≤ length marks.old }
    requires room { 12288 ≤ length line.old }
    ensures later { IsLater result }
    ensures no_script { result ≢ Ending.SourceFault }
    ensures among { MayEndWork result }
    ensures cause { result ≡ Ending.BoardFault → Rose (B.faults volume.old.nor.now) (B.faults volume.new.nor.now) }
    ensures same { IsSameVolume volume.old volume.new }
    ensures soaks { (slots : ℕ) → memory volume.old ≡ closed_memory (min 65535 slots) → B.tells volume.old.nor.now → HoldsFiles volume.old.geometry
        (B.bytes volume.old.nor.now) [] → SoaksTo B.NorState volume.old.geometry slots seed turns volume.old.nor.now volume.new.nor.now result }
{
    if let Err(ending) = mount_and_check(volume, marks) {
        return ending;
    }
    match soak(volume, seed, turns, line) {
        Ok(summary) => finish(volume, summary_line(turns, summary).as_slice()),
        Err(Stop::Fault) => Ending::BoardFault,
        Err(Stop::Differ(differ)) => Ending::Differ(differ),
    }
}

// Mounts and checks the formatted volume of a board, makes turns of calls on it, and says their summary.
fn soak_board<'b, B: Board>(
    g: Geometry,
    seed: u64,
    turns: u32,
    board: &'b mut B,
    lent: Lent<'b>,
    line: &mut [u8],
    marks: &mut [u8],
) -> Ending
    requires fits { IsFitting g (B.unit board.old) (B.size board.old) }
    requires work { work_need g ≤ length lent.work.now }
    requires cache { cache_need g ≤ length lent.cache.now }
    requires window { g.page ≤ length lent.window.now }
    requires marks { check_need g ≤ length marks.old }
    requires line { 12288 ≤ length line.old }
    ensures later { IsLater result }
    ensures no_script { result ≢ Ending.SourceFault }
    ensures among { MayEndWork result }
    ensures cause { result ≡ Ending.BoardFault → Rose (B.faults board.old) (B.faults board.new) }
    ensures behind { StaysBehind B.NorState g board.old board.new }
    ensures soaks { B.tells board.old → HoldsFiles g (B.bytes board.old) [] →
        SoaksTo B.NorState g (length lent.entry.slots.now) seed turns board.old board.new result }
{
    let mut volume = Volume::new(g, board, lent);
    soak_volume(&mut volume, seed, turns, line, marks)
}

/// Formats the volume of a board, mounts and checks it in the lent memory, makes so many turns of calls on it that are drawn from a seed, and
/// says their summary.
pub(crate) fn soak_on<B: Board>(
    g: Geometry,
    seed: u64,
    turns: u32,
    board: &mut B,
    bufs: &mut Buffers<'_>,
) -> u8
    requires fits { IsFitting g (B.unit board.old) (B.size board.old) }
    requires room { HasLengths g (lengths_of bufs.old) }
    ensures later { IsLaterStatus result }
    ensures board_fault { result ≡ 7 → Rose (B.faults board.old) (B.faults board.new) }
    ensures no_script { result ≢ 8 }
    ensures no_folder { result ≢ 9 }
    ensures ends { EndsAmong B.NorState MayEndWork board.old board.new result }
    ensures does { DoesSoak B.NorState g (length bufs.old.slots.now) seed turns board.old board.new result }
{
    if let Err(ending) = format_board(&g, board) {
        return conclude(board, ending);
    }
    let lent = Lent {
        work: &mut *bufs.work,
        slots: &mut *bufs.slots,
        cache: &mut *bufs.cache,
        window: &mut *bufs.window,
    };
    let ending = soak_board(g, seed, turns, board, lent, bufs.line, bufs.check);
    conclude(board, ending)
}

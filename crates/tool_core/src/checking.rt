ghost use Rattle.std.specs.Prelude.{◌≡◌, ◌≢◌, ◌*◌, ◌≤◌, length, None};
ghost use Rattle.geometry.specs.Numbers.{write_refusal, work_need, cache_need, check_need};
ghost use Rattle.nor_core.specs.Count.{Rose};
ghost use Rattle.flash_view.specs.Same.{StaysBehind};
ghost use Rattle.volume.specs.Same.{IsSameVolume};
ghost use Rattle.tool_core.specs.Among.{MayEndReport};
ghost use Rattle.tool_core.specs.Checking.{ChecksTo, DoesCheck, report_text};
ghost use Rattle.tool_parts.specs.Among.{EndsAmong};
ghost use Rattle.tool_parts.specs.Fits.{IsFitting, HasLengths};
ghost use Rattle.tool_parts.specs.Later.{IsLater, IsLaterStatus};
ghost use Rattle.tool_parts.specs.Lent.{lengths_of};
ghost use Rattle.tool_parts.specs.Reads.{ReadsOnce};
ghost use Rattle.tool_parts.specs.Refusals.{report_ending};

use geometry::Geometry;
use nor_core::{Board, Failed, Nor, NorState};
use tool_parts::{Buffers, Closing, Ending, conclude, mount_and_check, put, put_count};
use vol_mount::Lent;
use volume::{Report, Volume};

// The line of a report.
fn report_line(report: Report) -> Closing
    ensures { result.items ≡ report_text report.erased report.killed report.damaged report.free_blocks }
{
    let mut line = Closing::new();
    put_count(&mut line, b"erased ", if report.erased { 1 } else { 0 });
    put_count(&mut line, b" killed ", u64::from(report.killed));
    put_count(&mut line, b" damaged ", u64::from(report.damaged));
    put_count(&mut line, b" free ", u64::from(report.free_blocks));
    put(&mut line, b"\n");
    line
}

// How a check ends that said the line of its report.
fn end_of_check(report: Report) -> Ending
    ensures ending { result ≡ report_ending report.damaged report.free_blocks }
    ensures later { IsLater result }
    ensures no_script { result ≢ Ending.SourceFault }
    ensures no_fault { result ≢ Ending.BoardFault }
{
    if report.damaged > 0 {
        return Ending::Damaged(report.damaged);
    }
    if report.free_blocks < 2 {
        return Ending::Tight(report.free_blocks);
    }
    Ending::Done
}

// Mounts and checks a volume, and says what the check found and did.
#[tactic(auto, using(volume::proofs::Staying::same_then))]
fn check_volume<B: Board>(volume: &mut Volume<'_, B>, marks: &mut [u8]) -> Ending
    requires writable { write_refusal volume.old.geometry ≡ None }
    requires marks { check_need volume.old.geometry ≤ length marks.old }
    ensures later { IsLater result }
    ensures no_script { result ≢ Ending.SourceFault }
    ensures among { MayEndReport result }
    ensures cause { result ≡ Ending.BoardFault → Rose (B.faults volume.old.nor.now) (B.faults volume.new.nor.now) }
    ensures same { IsSameVolume volume.old volume.new }
    ensures checks { ChecksTo B.NorState volume.old.geometry volume.old.nor.now volume.new.nor.now result }
{
    let report = match mount_and_check(volume, marks) {
        Ok(report) => report,
        Err(ending) => return ending,
    };
    match volume.say(report_line(report).as_slice()) {
        Ok(()) => end_of_check(report),
        Err(Failed) => Ending::BoardFault,
    }
}

// Mounts and checks the volume of a board, and says what the check found and did.
fn check_board<'b, B: Board>(
    g: Geometry,
    board: &'b mut B,
    lent: Lent<'b>,
    marks: &mut [u8],
) -> Ending
    requires fits { IsFitting g (B.unit board.old) (B.size board.old) }
    requires work { work_need g ≤ length lent.work.now }
    requires cache { cache_need g ≤ length lent.cache.now }
    requires window { g.page ≤ length lent.window.now }
    requires marks { check_need g ≤ length marks.old }
    ensures later { IsLater result }
    ensures no_script { result ≢ Ending.SourceFault }
    ensures among { MayEndReport result }
    ensures cause { result ≡ Ending.BoardFault → Rose (B.faults board.old) (B.faults board.new) }
    ensures checks { ChecksTo B.NorState g board.old board.new result }
    ensures behind { StaysBehind B.NorState g board.old board.new }
    ensures few { ReadsOnce B.NorState g (length lent.entry.cache.now) board.old board.new }
{
    let mut volume = Volume::new(g, board, lent);
    check_volume(&mut volume, marks)
}

/// Mounts and checks the volume of a board in the lent memory, and says what the check found and did.
pub(crate) fn check_on<B: Board>(g: Geometry, board: &mut B, bufs: &mut Buffers<'_>) -> u8
    requires fits { IsFitting g (B.unit board.old) (B.size board.old) }
    requires room { HasLengths g (lengths_of bufs.old) }
    ensures later { IsLaterStatus result }
    ensures board_fault { result ≡ 7 → Rose (B.faults board.old) (B.faults board.new) }
    ensures no_script { result ≢ 8 }
    ensures no_folder { result ≢ 9 }
    ensures ends { EndsAmong B.NorState MayEndReport board.old board.new result }
    ensures does { DoesCheck B.NorState g (length bufs.old.cache.now) board.old board.new result }
{
    let lent = Lent {
        work: &mut *bufs.work,
        slots: &mut *bufs.slots,
        cache: &mut *bufs.cache,
        window: &mut *bufs.window,
    };
    let ending = check_board(g, board, lent, bufs.check);
    conclude(board, ending)
}

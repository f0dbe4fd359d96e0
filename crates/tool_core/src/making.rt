ghost use Rattle.std.specs.Prelude.{ℕ, ◌≡◌, ◌≢◌, ◌<◌, ◌≤◌, [], length, min, OnOk, IfErr, None};
ghost use Rattle.geometry.specs.Numbers.{write_refusal, work_need, cache_need, check_need};
ghost use Rattle.nor_core.specs.Count.{Rose};
ghost use Rattle.folder_core.specs.Puts.{Kept};
ghost use Rattle.flash_view.specs.Same.{StaysBehind};
ghost use Rattle.folder_plan.specs.Refusals.{make_refusal};
ghost use Rattle.volume.specs.Holds.{memory};
ghost use Rattle.volume.specs.Same.{IsSameVolume};
ghost use Rattle.volume_make.specs.Making.{made_text};
ghost use Rattle.tool_core.specs.Filling.{HoldsFiles};
ghost use Rattle.tool_parts.specs.Among.{EndsAmong};
ghost use Rattle.tool_parts.specs.Fits.{IsFitting, HasLengths};
ghost use Rattle.tool_parts.specs.Later.{IsUnrefused, IsLaterStatus};
ghost use Rattle.tool_parts.specs.Lent.{lengths_of};
ghost use Rattle.tool_core.specs.Among.{MayEndMake};
ghost use Rattle.tool_core.specs.Making.{refused_by, StopsMake, MakesTo, DoesMake};
ghost use Rattle.tool_parts.specs.Begins.{closed_memory};

use crate::finishing::{finish, format_board};
use folder_core::{Folder, FolderState};
use folder_plan::{Refusal, refusal_of};
use geometry::Geometry;
use nor_core::{Board, Failed, Nor, NorState};
use table_model::Info;
use tool_parts::{Buffers, Closing, Ending, conclude, mount_and_check, put, put_count};
use vol_mount::Lent;
use volume::Volume;
use volume_make::{PutErr, put_files};
use volume_run::Stop;

// The line of a volume that was made: its files and pages.
fn made_line(info: Info) -> Closing
    ensures { result.items ≡ made_text info.files info.index_pages info.data_pages }
{
    let mut line = Closing::new();
    put_count(&mut line, b"files ", u64::from(info.files));
    put_count(&mut line, b" index ", u64::from(info.index_pages));
    put_count(&mut line, b" data ", u64::from(info.data_pages));
    put(&mut line, b"\n");
    line
}

// How a make ends whose folder's names and sizes refuse it.
fn refusal_ending(why: Refusal) -> Ending
    ensures { result ≡ refused_by why }
{
    match why {
        Refusal::BadNames { at } => Ending::BadName(at),
        Refusal::Full { index, data_pages } => Ending::Full { index, data_pages },
    }
}

// Refuses a folder of which no image can be made. No byte of a file is read.
fn accept_folder<F: Folder>(g: &Geometry, folder: &mut F) -> Result<(), Ending>
    ensures kept { Kept F.FolderState folder.old folder.new }
    ensures accepted { OnOk result (make_refusal g.now (F.entries folder.old) ≡ None) }
    ensures stops { IfErr result (StopsMake F.FolderState g.now folder.old folder.new) }
{
    match refusal_of(g, folder) {
        Ok(None) => Ok(()),
        Ok(Some(why)) => Err(refusal_ending(why)),
        Err(Failed) => Err(Ending::FolderFault),
    }
}

// Mounts and checks a formatted volume, writes the files of a folder into it, and says their pages.
#[tactic(auto, using(volume::proofs::Staying::same_then))]
fn make_volume<B: Board, F: Folder>(
    volume: &mut Volume<'_, B>,
    folder: &mut F,
    line: &mut [u8],
    marks: &mut [u8],
) -> Ending
    requires writable { write_refusal volume.old.geometry ≡ None }
    requires marks { check_need volume.old.geometry ≤ length marks.old }
    requires room { 12288 ≤ length line.old }
    requires accepted { make_refusal volume.old.geometry (F.entries folder.old) ≡ None }
    ensures later { IsUnrefused result }
    ensures no_script { result ≢ Ending.SourceFault }
    ensures among { MayEndMake result }
    ensures cause { result ≡ Ending.BoardFault → Rose (B.faults volume.old.nor.now) (B.faults volume.new.nor.now) }
    ensures folder_cause { result ≡ Ending.FolderFault → Rose (F.faults folder.old) (F.faults folder.new) }
    ensures same { IsSameVolume volume.old volume.new }
    ensures kept { Kept F.FolderState folder.old folder.new }
    ensures makes { (slots : ℕ) → 0 < slots → memory volume.old ≡ closed_memory (min 65535 slots) → B.tells volume.old.nor.now → HoldsFiles volume.old.geometry
        (B.bytes volume.old.nor.now) [] → MakesTo B.NorState F.FolderState volume.old.geometry volume.old.nor.now volume.new.nor.now folder.old result }
{
    if let Err(ending) = mount_and_check(volume, marks) {
        return ending;
    }
    match put_files(volume, folder, line) {
        Ok(info) => finish(volume, made_line(info).as_slice()),
        Err(PutErr::Folder) => Ending::FolderFault,
        Err(PutErr::Stopped(Stop::Fault)) => Ending::BoardFault,
        Err(PutErr::Stopped(Stop::Differ(differ))) => Ending::Differ(differ),
        Err(PutErr::Refused) => Ending::Tight(0),
    }
}

// Mounts and checks the formatted volume of a board, writes the files of a folder into it, and says their pages.
fn make_board<'b, B: Board, F: Folder>(
    g: Geometry,
    board: &'b mut B,
    folder: &mut F,
    lent: Lent<'b>,
    line: &mut [u8],
    marks: &mut [u8],
) -> Ending
    requires fits { IsFitting g (B.unit board.old) (B.size board.old) }
    requires work { work_need g ≤ length lent.work.now }
    requires slots { 1 ≤ length lent.slots.now }
    requires cache { cache_need g ≤ length lent.cache.now }
    requires window { g.page ≤ length lent.window.now }
    requires marks { check_need g ≤ length marks.old }
    requires line { 12288 ≤ length line.old }
    requires accepted { make_refusal g (F.entries folder.old) ≡ None }
    ensures later { IsUnrefused result }
    ensures no_script { result ≢ Ending.SourceFault }
    ensures among { MayEndMake result }
    ensures cause { result ≡ Ending.BoardFault → Rose (B.faults board.old) (B.faults board.new) }
    ensures folder_cause { result ≡ Ending.FolderFault → Rose (F.faults folder.old) (F.faults folder.new) }
    ensures kept { Kept F.FolderState folder.old folder.new }
    ensures behind { StaysBehind B.NorState g board.old board.new }
    ensures makes { B.tells board.old → HoldsFiles g (B.bytes board.old) [] → MakesTo B.NorState F.FolderState g board.old board.new folder.old result }
{
    let mut volume = Volume::new(g, board, lent);
    make_volume(&mut volume, folder, line, marks)
}

/// Formats the volume of a board, mounts and checks it in the lent memory, writes each file of a folder into it, and says how
/// many pages they take. A folder whose names or sizes can't be had is refused before.
pub(crate) fn make_on<B: Board, F: Folder>(
    g: Geometry,
    board: &mut B,
    folder: &mut F,
    bufs: &mut Buffers<'_>,
) -> u8
    requires fits { IsFitting g (B.unit board.old) (B.size board.old) }
    requires room { HasLengths g (lengths_of bufs.old) }
    ensures later { IsLaterStatus result }
    ensures board_fault { result ≡ 7 → Rose (B.faults board.old) (B.faults board.new) }
    ensures folder_fault { result ≡ 9 → Rose (F.faults folder.old) (F.faults folder.new) }
    ensures no_script { result ≢ 8 }
    ensures ends { EndsAmong B.NorState MayEndMake board.old board.new result }
    ensures does { DoesMake B.NorState F.FolderState g board.old board.new folder.old folder.new result }
{
    if let Err(ending) = accept_folder(&g, folder) {
        return conclude(board, ending);
    }
    if let Err(ending) = format_board(&g, board) {
        return conclude(board, ending);
    }
    let lent = Lent {
        work: &mut *bufs.work,
        slots: &mut *bufs.slots,
        cache: &mut *bufs.cache,
        window: &mut *bufs.window,
    };
    let ending = make_board(g, board, folder, lent, bufs.line, bufs.check);
    conclude(board, ending)
}

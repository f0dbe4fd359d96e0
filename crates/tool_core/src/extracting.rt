ghost use Rattle.std.specs.Prelude.{◌≡◌, ◌≢◌, ◌≤◌, length};
ghost use Rattle.geometry.specs.Numbers.{work_need, cache_need, check_need};
ghost use Rattle.nor_core.specs.Count.{Rose};
ghost use Rattle.flash_view.specs.Same.{IsSameView};
ghost use Rattle.image_tool.specs.Putting.{FolderGoes};
ghost use Rattle.tool_core.specs.Among.{MayEndExtract};
ghost use Rattle.tool_core.specs.Extracting.{Extracts, DoesExtract};
ghost use Rattle.tool_parts.specs.Among.{EndsAmong};
ghost use Rattle.tool_parts.specs.Fits.{HoldsVolume, HasLengths};
ghost use Rattle.tool_parts.specs.Later.{IsUnrefused, IsLaterStatus};
ghost use Rattle.tool_parts.specs.Lent.{lengths_of};
ghost use Rattle.tool_parts.specs.Reads.{ReadsOnce};

use crate::listing::end_of_list;
use flash_view::View;
use folder_core::{Folder, FolderState};
use geometry::Geometry;
use image_tool::{ExtractErr, extract};
use nor_core::{Board, Nor, NorState};
use tool_parts::{Buffers, Ending, conclude, mount_ending};
use vol_mount::mount;

// Mounts a volume, says its list, and puts its files into a folder.
fn extract_view<B: Board, F: Folder>(
    v: &mut View<'_, B>,
    marks: &mut [u8],
    folder: &mut F,
    line: &mut [u8],
) -> Ending
    requires room { check_need v.old.geometry ≤ length marks.old }
    requires line { 12288 ≤ length line.old }
    ensures later { IsUnrefused result }
    ensures no_script { result ≢ Ending.SourceFault }
    ensures among { MayEndExtract result }
    ensures cause { result ≡ Ending.BoardFault → Rose (B.faults v.old.nor.now) (B.faults v.new.nor.now) }
    ensures folder_cause { result ≡ Ending.FolderFault → Rose (F.faults folder.old) (F.faults folder.new) }
    ensures same { IsSameView v.old v.new }
    ensures goes { FolderGoes F.FolderState folder.old folder.new }
    ensures extracts { Extracts B.NorState F.FolderState v.old.geometry v.old.nor.now v.new.nor.now folder.old folder.new result }
{
    if let Err(why) = mount(v) {
        return mount_ending(why);
    }
    match extract(v, marks, folder, line) {
        Ok(damaged) => end_of_list(damaged),
        Err(ExtractErr::BoardFault) => Ending::BoardFault,
        Err(ExtractErr::FolderFault) => Ending::FolderFault,
        Err(ExtractErr::Damaged(differ)) => Ending::Differ(differ),
    }
}

// Mounts the volume of a board, says its list, and puts its files into a folder.
fn extract_board<B: Board, F: Folder>(
    g: Geometry,
    board: &mut B,
    folder: &mut F,
    work: &mut [u8],
    cache: &mut [u8],
    marks: &mut [u8],
    line: &mut [u8],
) -> Ending
    requires fits { HoldsVolume g (B.unit board.old) (B.size board.old) }
    requires work { work_need g ≤ length work.old }
    requires cache { cache_need g ≤ length cache.old }
    requires check { check_need g ≤ length marks.old }
    requires line { 12288 ≤ length line.old }
    ensures later { IsUnrefused result }
    ensures no_script { result ≢ Ending.SourceFault }
    ensures among { MayEndExtract result }
    ensures cause { result ≡ Ending.BoardFault → Rose (B.faults board.old) (B.faults board.new) }
    ensures folder_cause { result ≡ Ending.FolderFault → Rose (F.faults folder.old) (F.faults folder.new) }
    ensures goes { FolderGoes F.FolderState folder.old folder.new }
    ensures extracts { Extracts B.NorState F.FolderState g board.old board.new folder.old folder.new result }
    ensures few { ReadsOnce B.NorState g (length cache.old) board.old board.new }
{
    let mut v = View::new(g, board, work, &mut [], cache);
    extract_view(&mut v, marks, folder, line)
}

/// Mounts the volume of a board in the lent memory, says its list, and puts its files into a folder.
pub(crate) fn extract_on<B: Board, F: Folder>(
    g: Geometry,
    board: &mut B,
    folder: &mut F,
    bufs: &mut Buffers<'_>,
) -> u8
    requires fits { HoldsVolume g (B.unit board.old) (B.size board.old) }
    requires room { HasLengths g (lengths_of bufs.old) }
    ensures later { IsLaterStatus result }
    ensures board_fault { result ≡ 7 → Rose (B.faults board.old) (B.faults board.new) }
    ensures folder_fault { result ≡ 9 → Rose (F.faults folder.old) (F.faults folder.new) }
    ensures no_script { result ≢ 8 }
    ensures ends { EndsAmong B.NorState MayEndExtract board.old board.new result }
    ensures does { DoesExtract B.NorState F.FolderState g (length bufs.old.cache.now) board.old board.new folder.old folder.new result }
{
    let ending = extract_board(
        g, board, folder, bufs.work, bufs.cache, bufs.check, bufs.line,
    );
    conclude(board, ending)
}

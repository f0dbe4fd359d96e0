ghost use Rattle.std.specs.Prelude.{◌≡◌, ◌≢◌, ◌≤◌, length};
ghost use Rattle.geometry.specs.Numbers.{work_need, cache_need, check_need};
ghost use Rattle.nor_core.specs.Count.{Rose};
ghost use Rattle.flash_view.specs.Same.{IsSameView};
ghost use Rattle.tool_parts.specs.Among.{EndsAmong};
ghost use Rattle.tool_parts.specs.Fits.{HoldsVolume, HasLengths};
ghost use Rattle.tool_parts.specs.Later.{IsLater, IsLaterStatus};
ghost use Rattle.tool_parts.specs.Lent.{lengths_of};
ghost use Rattle.tool_core.specs.Among.{MayEndList};
ghost use Rattle.tool_core.specs.Listing.{ListsTo, DoesList};
ghost use Rattle.tool_parts.specs.Reads.{ReadsOnce};
ghost use Rattle.tool_parts.specs.Refusals.{said_ending};

use flash_view::View;
use geometry::Geometry;
use image_tool::{ToolErr, list};
use nor_core::{Board, Nor, NorState};
use tool_parts::{Buffers, Ending, conclude, mount_ending};
use vol_mount::mount;

/// How a command ends that said so many damaged ids.
pub(crate) fn end_of_list(damaged: u32) -> Ending
    ensures ending { result ≡ said_ending damaged }
    ensures later { IsLater result }
    ensures no_script { result ≢ Ending.SourceFault }
    ensures no_fault { result ≢ Ending.BoardFault }
{
    if damaged > 0 {
        Ending::Damaged(damaged)
    } else {
        Ending::Done
    }
}

// Mounts a volume, and says its list.
fn list_view<B: Board>(v: &mut View<'_, B>, marks: &mut [u8], line: &mut [u8]) -> Ending
    requires room { check_need v.old.geometry ≤ length marks.old }
    requires line { 12288 ≤ length line.old }
    ensures later { IsLater result }
    ensures no_script { result ≢ Ending.SourceFault }
    ensures among { MayEndList result }
    ensures cause { result ≡ Ending.BoardFault → Rose (B.faults v.old.nor.now) (B.faults v.new.nor.now) }
    ensures same { IsSameView v.old v.new }
    ensures lists { ListsTo B.NorState v.old.geometry v.old.nor.now v.new.nor.now result }
{
    if let Err(why) = mount(v) {
        return mount_ending(why);
    }
    match list(v, marks, line) {
        Ok(damaged) => end_of_list(damaged),
        Err(ToolErr::BoardFault) => Ending::BoardFault,
    }
}

// Mounts the volume of a board, and says its list.
fn list_board<B: Board>(
    g: Geometry,
    board: &mut B,
    work: &mut [u8],
    cache: &mut [u8],
    marks: &mut [u8],
    line: &mut [u8],
) -> Ending
    requires fits { HoldsVolume g (B.unit board.old) (B.size board.old) }
    requires work { work_need g ≤ length work.old }
    requires cache { cache_need g ≤ length cache.old }
    requires check { check_need g ≤ length marks.old }
    requires line { 12288 ≤ length line.old }
    ensures later { IsLater result }
    ensures no_script { result ≢ Ending.SourceFault }
    ensures among { MayEndList result }
    ensures cause { result ≡ Ending.BoardFault → Rose (B.faults board.old) (B.faults board.new) }
    ensures lists { ListsTo B.NorState g board.old board.new result }
    ensures few { ReadsOnce B.NorState g (length cache.old) board.old board.new }
{
    let mut v = View::new(g, board, work, &mut [], cache);
    list_view(&mut v, marks, line)
}

/// Mounts the volume of a board in the lent memory, and says its list.
pub(crate) fn list_on<B: Board>(g: Geometry, board: &mut B, bufs: &mut Buffers<'_>) -> u8
    requires fits { HoldsVolume g (B.unit board.old) (B.size board.old) }
    requires room { HasLengths g (lengths_of bufs.old) }
    ensures later { IsLaterStatus result }
    ensures board_fault { result ≡ 7 → Rose (B.faults board.old) (B.faults board.new) }
    ensures no_script { result ≢ 8 }
    ensures no_folder { result ≢ 9 }
    ensures ends { EndsAmong B.NorState MayEndList board.old board.new result }
    ensures does { DoesList B.NorState g (length bufs.old.cache.now) board.old board.new result }
{
    let ending = list_board(g, board, bufs.work, bufs.cache, bufs.check, bufs.line);
    conclude(board, ending)
}

ghost use Rattle.std.specs.Prelude.{◌≡◌, ◌*◌, ◌≢◌, OnOk, OnErr, IfErr, Err};
ghost use Rattle.nor_core.specs.Count.{Rose};
ghost use Rattle.nor_core.specs.Flash.{SameOutside};
ghost use Rattle.nor_core.specs.Device.{Changes};
ghost use Rattle.table_model.specs.Table.{State};
ghost use Rattle.vol_mount.specs.Formatted.{IsFormatted};
ghost use Rattle.volume.specs.Same.{IsSameVolume};
ghost use Rattle.volume_run.specs.Ready.{IsReady};
ghost use Rattle.tool_parts.specs.Among.{MayEndWork};
ghost use Rattle.tool_parts.specs.Fits.{IsFitting};
ghost use Rattle.tool_parts.specs.Later.{IsLater};
ghost use Rattle.tool_core.specs.Filling.{HoldsFiles, SpeaksOf, unsettled_as};

use geometry::Geometry;
use nor_core::{Board, Failed, Nor, NorState};
use table_model::FsErr;
use tool_parts::Ending;
use vol_mount::format;
use volume::Volume;

/// Formats the volume of a board, or says how a command ends there.
pub(crate) fn format_board<B: Board>(g: &Geometry, board: &mut B) -> Result<(), Ending>
    requires fits { IsFitting g.now (B.unit board.old) (B.size board.old) }
    ensures cause { OnErr result (Rose (B.faults board.old) (B.faults board.new)) }
    ensures stops { IfErr result (λ ending. ending ≡ Ending.BoardFault) }
    ensures changes { Changes B.NorState board.old board.new (SameOutside 0 (g.now.blocks * g.now.block)) }
    ensures done { B.tells board.old → OnOk result (IsFormatted g.now (B.bytes board.old) (B.bytes board.new)) }
{
    match format(g, board) {
        Ok(()) => Ok(()),
        Err(_) => Err(Ending::BoardFault),
    }
}

/// How a command ends on whose volume a call failed so.
pub(crate) fn unsettled(why: FsErr) -> Ending
    ensures ends { result ≡ unsettled_as why }
    ensures later { IsLater result }
    ensures no_script { result ≢ Ending.SourceFault }
    ensures fault { result ≡ Ending.BoardFault → why ≡ FsErr.DeviceFault }
{
    match why {
        FsErr::DeviceFault => Ending::BoardFault,
        FsErr::Damaged(differ) => Ending::Differ(differ),
        _ => Ending::Tight(0),
    }
}

// Puts the written bytes that wait onto the chip, or says how a command ends there.
fn settle<B: Board>(volume: &mut Volume<'_, B>) -> Result<(), Ending>
    ensures later { IfErr result IsLater }
    ensures no_script { ¬ (result ≡ Err Ending.SourceFault) }
    ensures among { IfErr result MayEndWork }
    ensures cause { result ≡ Err Ending.BoardFault → Rose (B.faults volume.old.nor.now) (B.faults volume.new.nor.now) }
    ensures same { IsSameVolume volume.old volume.new }
    ensures changes { Changes B.NorState volume.old.nor.now volume.new.nor.now (λ was image. Unit {0}) }
    ensures files { OnOk result ((g : Geometry) (s : State) → IsReady g volume.old s → HoldsFiles g (B.bytes volume.new.nor.now) s.table) }
    ensures stops { IfErr result (λ ending. (g : Geometry) (s : State) → IsReady g volume.old s → ending ≡ Ending.BoardFault) }
{
    match volume.settle() {
        Ok(()) => Ok(()),
        Err(why) => Err(unsettled(why)),
    }
}

/// Puts the written bytes that wait onto the chip, and then says a line.
#[tactic(auto, using(volume::proofs::Staying::same_then))]
pub(crate) fn finish<B: Board>(volume: &mut Volume<'_, B>, line: &[u8]) -> Ending
    ensures later { IsLater result }
    ensures no_script { result ≢ Ending.SourceFault }
    ensures among { MayEndWork result }
    ensures cause { result ≡ Ending.BoardFault → Rose (B.faults volume.old.nor.now) (B.faults volume.new.nor.now) }
    ensures same { IsSameVolume volume.old volume.new }
    ensures speaks { (g : Geometry) (s : State) → IsReady g volume.old s → SpeaksOf B.NorState g volume.old.nor.now volume.new.nor.now line.now s.table result }
{
    if let Err(ending) = settle(volume) {
        return ending;
    }
    match volume.say(line) {
        Ok(()) => Ending::Done,
        Err(Failed) => Ending::BoardFault,
    }
}

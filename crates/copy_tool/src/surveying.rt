ghost use Rattle.std.specs.Prelude.{◌≡◌, ◌≢◌, length, IfOk, IfErr, OnErr, Err};
ghost use Rattle.nor_core.specs.Count.{Rose};
ghost use Rattle.nor_core.specs.Device.{OnlyReads};
ghost use Rattle.image_model.specs.Tables.{damaged_of};
ghost use Rattle.vol_mount.specs.Readers.{IsSameReader};
ghost use Rattle.copy_tool.specs.Among.{MayEndCopy};
ghost use Rattle.copy_tool.specs.Steps.{source_ends, IsSurveyed, StopsSurvey};
ghost use Rattle.tool_parts.specs.Closing.{status_of};
ghost use Rattle.tool_parts.specs.Later.{IsLaterStatus};

use nor_core::{Nor, NorState};
use table_model::FsErr;
use tool_parts::Ending;
use vol_mount::{MountErr, Reader};

// How a copy ends that doesn't mount its source.
fn source_ending(why: MountErr) -> Ending
    ensures ends { result ≡ source_ends why }
    ensures later { IsLaterStatus (status_of result) }
    ensures board { result ≢ Ending.BoardFault }
    ensures fault { result ≡ Ending.SourceChipFault → why ≡ MountErr.DeviceFault }
{
    match why {
        MountErr::NotAFs { spoiled } => Ending::NotAFs(spoiled),
        MountErr::DeviceFault => Ending::SourceChipFault,
    }
}

// How many ids of the source are damaged.
fn count_damaged<N: Nor>(from: &mut Reader<'_, N>) -> Result<u32, FsErr>
    ensures cause { OnErr result (Rose (N.faults from.old.nor.now) (N.faults from.new.nor.now)) }
    ensures reads { OnlyReads N.NorState from.old.nor.now from.new.nor.now }
    ensures same { IsSameReader from.old from.new }
    ensures told { N.tells from.old.nor.now → IfOk result (λ count. count ≡ length (damaged_of from.old.geometry (N.bytes from.old.nor.now))) }
{
    let mut after = 0;
    let mut count = 0;
    'ids: while let Some(next) = from.next_damaged(after)? {
        after = next.0;
        count += 1;
    }
    Ok(count)
}

/// Mounts the source, and counts its damaged ids; or says how the copy ends there.
pub(crate) fn survey<N: Nor>(from: &mut Reader<'_, N>) -> Result<u32, Ending>
    ensures later { IfErr result (λ ending. IsLaterStatus (status_of ending)) }
    ensures among { IfErr result MayEndCopy }
    ensures board { ¬ (result ≡ Err Ending.BoardFault) }
    ensures cause { result ≡ Err Ending.SourceChipFault → Rose (N.faults from.old.nor.now) (N.faults from.new.nor.now) }
    ensures reads { OnlyReads N.NorState from.old.nor.now from.new.nor.now }
    ensures same { IsSameReader from.old from.new }
    ensures told { N.tells from.old.nor.now → IfOk result (IsSurveyed from.old.geometry (N.bytes from.old.nor.now)) }
    ensures stops { N.tells from.old.nor.now → IfErr result (StopsSurvey from.old.geometry (N.bytes from.old.nor.now)) }
{
    if let Err(why) = from.mount() {
        return Err(source_ending(why));
    }
    match count_damaged(from) {
        Ok(damaged) => Ok(damaged),
        Err(_) => Err(Ending::SourceChipFault),
    }
}

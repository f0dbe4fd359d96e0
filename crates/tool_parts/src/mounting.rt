ghost use Rattle.std.specs.Prelude.{◌≡◌, ◌≢◌, ◌≤◌, length, min, IfOk, IfErr, OnOk, Err, None, true};
ghost use Rattle.geometry.specs.Numbers.{write_refusal, check_need};
ghost use Rattle.nor_core.specs.Count.{Rose};
ghost use Rattle.nor_core.specs.Device.{Changes, OnlyReads};
ghost use Rattle.image_model.specs.Tidy.{IsTidy, HasReserve};
ghost use Rattle.vol_check.specs.Checks.{IsWritable};
ghost use Rattle.volume.specs.Holds.{memory};
ghost use Rattle.volume.specs.Mapping.{GivesUpMap};
ghost use Rattle.volume.specs.Stages.{takes_calls};
ghost use Rattle.volume.specs.Same.{IsSameVolume};
ghost use Rattle.tool_parts.specs.Among.{MayEndCheck, MayEndBegin};
ghost use Rattle.tool_parts.specs.Begins.{Begun, CheckLeaves, StopsRun, closed_memory};
ghost use Rattle.tool_parts.specs.Later.{IsLater};
ghost use Rattle.tool_parts.specs.Mounting.{Checks, Reported, StopsCheck, mount_ends, check_ends};

use crate::ending::Ending;
use nor_core::{Board, Nor, NorState};
use vol_mount::MountErr;
use volume::{CheckErr, Report, Volume};

/// How a command ends that doesn't mount the volume.
pub fn mount_ending(why: MountErr) -> Ending
    ensures ends { result ≡ mount_ends why }
    ensures later { IsLater result }
    ensures fault { result ≡ Ending.BoardFault → why ≡ MountErr.DeviceFault }
    ensures no_script { result ≢ Ending.SourceFault }
{
    match why {
        MountErr::NotAFs { spoiled } => Ending::NotAFs(spoiled),
        MountErr::DeviceFault => Ending::BoardFault,
    }
}

/// How a command ends that doesn't check the volume.
pub fn check_ending(why: CheckErr) -> Ending
    requires { IsWritable why }
    ensures ends { result ≡ check_ends why }
    ensures later { IsLater result }
    ensures fault { result ≡ Ending.BoardFault → why ≡ CheckErr.DeviceFault }
    ensures no_script { result ≢ Ending.SourceFault }
{
    match why {
        CheckErr::NotMounted => Ending::BoardFault,
        CheckErr::Wrong(why) => Ending::Geometry(why),
        CheckErr::Mixed { blocks } => Ending::Mixed(blocks),
        CheckErr::DeviceFault => Ending::BoardFault,
        CheckErr::Damaged(differ) => Ending::Differ(differ),
    }
}

/// Mounts and checks a volume, or says how a command ends there. The check works in `marks`.
#[tactic(auto, using(volume::proofs::Staying::same_then))]
pub fn mount_and_check<B: Board>(
    volume: &mut Volume<'_, B>,
    marks: &mut [u8],
) -> Result<Report, Ending>
    requires writable { write_refusal volume.old.geometry ≡ None }
    requires marks { check_need volume.old.geometry ≤ length marks.old }
    ensures later { IfErr result IsLater }
    ensures no_script { ¬ (result ≡ Err Ending.SourceFault) }
    ensures among { IfErr result MayEndCheck }
    ensures cause { result ≡ Err Ending.BoardFault → Rose (B.faults volume.old.nor.now) (B.faults volume.new.nor.now) }
    ensures taken { OnOk result (takes_calls volume.new ≡ true) }
    ensures closed { OnOk result (memory volume.new ≡ closed_memory (min 65535 (length volume.old.slots.now))) }
    ensures same { IsSameVolume volume.old volume.new }
    ensures map { GivesUpMap volume.old volume.new }
    ensures changes { Changes B.NorState volume.old.nor.now volume.new.nor.now (Checks volume.old.geometry) }
    ensures reported { B.tells volume.old.nor.now → IfOk result (Reported volume.old.geometry (B.bytes volume.old.nor.now) (B.bytes volume.new.nor.now)) }
    ensures idle { B.tells volume.old.nor.now → IsTidy volume.old.geometry (B.bytes volume.old.nor.now) →
        HasReserve volume.old.geometry (B.bytes volume.old.nor.now) → OnlyReads B.NorState volume.old.nor.now volume.new.nor.now }
    ensures stops { B.tells volume.old.nor.now → IfErr result (StopsCheck B.NorState volume.old.geometry volume.old.nor.now volume.new.nor.now) }
{
    if let Err(why) = volume.mount() {
        return Err(mount_ending(why));
    }
    match volume.check(marks) {
        Ok(report) => Ok(report),
        Err(why) => Err(check_ending(why)),
    }
}

/// Mounts and checks a volume that is to be worked on, or says how the command ends there. The check works in `marks`.
pub fn begin<B: Board>(volume: &mut Volume<'_, B>, marks: &mut [u8]) -> Result<(), Ending>
    requires writable { write_refusal volume.old.geometry ≡ None }
    requires marks { check_need volume.old.geometry ≤ length marks.old }
    ensures later { IfErr result IsLater }
    ensures no_script { ¬ (result ≡ Err Ending.SourceFault) }
    ensures among { IfErr result MayEndBegin }
    ensures cause { result ≡ Err Ending.BoardFault → Rose (B.faults volume.old.nor.now) (B.faults volume.new.nor.now) }
    ensures taken { OnOk result (takes_calls volume.new ≡ true) }
    ensures closed { OnOk result (memory volume.new ≡ closed_memory (min 65535 (length volume.old.slots.now))) }
    ensures same { IsSameVolume volume.old volume.new }
    ensures changes { Changes B.NorState volume.old.nor.now volume.new.nor.now (Checks volume.old.geometry) }
    ensures begun { B.tells volume.old.nor.now → OnOk result (Begun volume.old.geometry (B.bytes volume.old.nor.now) (B.bytes volume.new.nor.now)) }
    ensures leaves { B.tells volume.old.nor.now → OnOk result (CheckLeaves volume.old.geometry (B.bytes volume.old.nor.now) (B.bytes volume.new.nor.now)) }
    ensures idle { B.tells volume.old.nor.now → IsTidy volume.old.geometry (B.bytes volume.old.nor.now) →
        HasReserve volume.old.geometry (B.bytes volume.old.nor.now) → OnlyReads B.NorState volume.old.nor.now volume.new.nor.now }
    ensures stops { B.tells volume.old.nor.now → IfErr result (StopsRun B.NorState volume.old.geometry volume.old.nor.now volume.new.nor.now) }
{
    let report = mount_and_check(volume, marks)?;
    if report.free_blocks < 2 {
        return Err(Ending::Tight(report.free_blocks));
    }
    Ok(())
}

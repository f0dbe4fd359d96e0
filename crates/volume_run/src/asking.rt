ghost use Rattle.std.specs.Prelude.{◌≡◌, ◌≢◌, length, IfOk, IfErr, Err};
ghost use Rattle.nor_core.specs.Count.{Rose};
ghost use Rattle.table_model.specs.Ask.{asked};
ghost use Rattle.file_calls.specs.Replies.{HasRoomFor, shown_by};
ghost use Rattle.volume_run.specs.Ready.{IsAnsweredFrom, IsOpenedFrom, IsMoved};
ghost use Rattle.volume_run.specs.Stops.{stop_by, IsApart, StopsFrom};

use nor_core::{Nor, NorState};
use table_model::{Call, Differ, FsErr};
use volume::{Told, Volume};

/// Why a tool makes no further call.
#[derive(Clone, Copy, Debug, PartialEq, Eq)]
pub enum Stop {
    /// The device failed.
    Fault,
    /// A page doesn't read as what was written there.
    Differ(Differ),
}

/// Does a call, with bytes for what is read or filled in, and answers what it told, a refusal too; or the device failed, or a page
/// reads otherwise than it was written.
pub fn ask<N: Nor>(
    volume: &mut Volume<'_, N>,
    call: &Call<'_>,
    lent: &mut [u8],
) -> Result<Told, Stop>
    requires room { HasRoomFor (asked call.now) (length lent.old) }
    ensures moved { IsMoved volume.old volume.new }
    ensures cause { result ≡ Err Stop.Fault → Rose (N.faults volume.old.nor.now) (N.faults volume.new.nor.now) }
    ensures apart { IfErr result IsApart }
    ensures answered { IfOk result (λ told. IsAnsweredFrom volume.old (asked call.now) volume.new (shown_by told lent.new)) }
    ensures stops { IfErr result (StopsFrom volume.old) }
{
    match volume.answer(call, lent) {
        Told::Refusal(FsErr::DeviceFault) => Err(Stop::Fault),
        Told::Refusal(FsErr::Damaged(differ)) => Err(Stop::Differ(differ)),
        told => Ok(told),
    }
}

/// Why no further call is made after a refusal, if that tells a fault.
pub fn stop_of(why: FsErr) -> Option<Stop>
    ensures { result ≡ stop_by why }
{
    match why {
        FsErr::DeviceFault => Some(Stop::Fault),
        FsErr::Damaged(differ) => Some(Stop::Differ(differ)),
        _ => None,
    }
}

/// Opens a file, and answers its descriptor, or None where the opening is refused.
pub fn open<N: Nor>(
    volume: &mut Volume<'_, N>,
    name: &[u8],
    flags: u32,
) -> Result<Option<u16>, Stop>
    ensures moved { IsMoved volume.old volume.new }
    ensures cause { result ≡ Err Stop.Fault → Rose (N.faults volume.old.nor.now) (N.faults volume.new.nor.now) }
    ensures apart { IfErr result IsApart }
    ensures answered { IfOk result (IsOpenedFrom volume.old name.now flags volume.new) }
    ensures stops { IfErr result (StopsFrom volume.old) }
{
    match volume.open_file(name, flags) {
        Ok(fd) => Ok(Some(fd)),
        Err(why) => match stop_of(why) {
            Some(stop) => Err(stop),
            None => Ok(None),
        },
    }
}

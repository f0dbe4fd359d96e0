ghost use Rattle.std.specs.Prelude.{◌≡◌, ◌*◌, ◌^◌, ◌<◌, ◌≤◌, IfOk, IfErr, Err};
ghost use Rattle.std.specs.Option.{IfSome};
ghost use Rattle.nor_core.specs.Count.{Rose};
ghost use Rattle.volume_run.specs.Ready.{IsMoved};
ghost use Rattle.volume_run.specs.Stops.{IsApart, StopsFrom};
ghost use Rattle.volume_soak.specs.Doing.{FindsFrom, HasCountedFrom};

use nor_core::{Nor, NorState};
use table_model::Stat;
use volume::Volume;
use volume_run::{Stop, stop_of};

/// More files than there are ids.
const MOST_FILES: u32 = 65_536;

// The record of the file of the least id above one, or none; a volume that takes no calls has none.
fn next<N: Nor>(volume: &mut Volume<'_, N>, after: u16) -> Result<Option<Stat>, Stop>
    ensures moved { IsMoved volume.old volume.new }
    ensures cause { result ≡ Err Stop.Fault → Rose (N.faults volume.old.nor.now) (N.faults volume.new.nor.now) }
    ensures apart { IfErr result IsApart }
    ensures found { IfOk result (FindsFrom volume.old after volume.new) }
    ensures bounds { IfOk result (λ found. IfSome found (λ stat. (stat.id < 2 ^ 16) × (stat.size < 2 ^ 32))) }
    ensures stops { IfErr result (StopsFrom volume.old) }
{
    match volume.next(after) {
        Ok(found) => Ok(found),
        Err(why) => match stop_of(why) {
            Some(stop) => Err(stop),
            None => Ok(None),
        },
    }
}

/// How many files there are, and their bytes.
pub(crate) fn count_files<N: Nor>(volume: &mut Volume<'_, N>) -> Result<(u32, u64), Stop>
    ensures moved { IsMoved volume.old volume.new }
    ensures cause { result ≡ Err Stop.Fault → Rose (N.faults volume.old.nor.now) (N.faults volume.new.nor.now) }
    ensures apart { IfErr result IsApart }
    ensures counted { IfOk result (λ count. HasCountedFrom volume.old volume.new count.0 count.1) }
    ensures stops { IfErr result (StopsFrom volume.old) }
{
    let mut found = next(volume, 0)?;
    let mut files = 0;
    let mut bytes = 0;
    while files < MOST_FILES {
        let Some(stat) = found else {
            break;
        };
        files += 1;
        bytes += u64::from(stat.size);
        found = next(volume, stat.id)?;
    }
    Ok((files, bytes))
}

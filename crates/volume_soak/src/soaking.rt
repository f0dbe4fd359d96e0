ghost use Rattle.std.specs.Prelude.{◌≡◌, ◌≤◌, ℕ, length, IfOk, IfErr, Err};
ghost use Rattle.nor_core.specs.Count.{Rose};
ghost use Rattle.volume_run.specs.Ready.{IsMoved};
ghost use Rattle.volume_run.specs.Stops.{IsApart, StopsFrom};
ghost use Rattle.volume_soak.specs.Doing.{HasSoakedFrom, IsSummaryFrom};

use crate::draws::draw_of;
use crate::summary::count_files;
use crate::turns::turn;
use nor_core::{Nor, NorState, draw};
use volume::Volume;
use volume_run::Stop;

/// What a soak did and left.
#[derive(Clone, Copy, Debug, PartialEq, Eq)]
pub struct Summary {
    /// Turns that were done.
    pub ok: u32,
    /// Files in the end.
    pub files: u32,
    /// Their bytes.
    pub bytes: u64,
}

// Makes so many turns, the draws from a seed, and answers how many were done.
fn turns_from<N: Nor>(
    volume: &mut Volume<'_, N>,
    seed: u64,
    turns: u32,
    lent: &mut [u8],
) -> Result<u32, Stop>
    requires room { 600 ≤ length lent.old }
    ensures moved { IsMoved volume.old volume.new }
    ensures cause { result ≡ Err Stop.Fault → Rose (N.faults volume.old.nor.now) (N.faults volume.new.nor.now) }
    ensures apart { IfErr result IsApart }
    ensures soaked { IfOk result (HasSoakedFrom volume.old seed turns volume.new) }
    ensures few { IfOk result (λ ok. ok ≤ turns) }
    ensures stops { IfErr result (StopsFrom volume.old) }
{
    let mut number = seed;
    let mut ok = 0;
    let mut made = 0;
    while made < turns {
        let r = draw(&mut number);
        let is_done = turn(volume, draw_of(r as u32), lent)?;
        ok += u32::from(is_done);
        made += 1;
    }
    Ok(ok)
}

/// Makes so many turns of calls on a checked volume, drawn from a seed, and answers what they did and left. The lent bytes are for what is
/// read and written, at least 600.
pub fn soak<N: Nor>(
    volume: &mut Volume<'_, N>,
    seed: u64,
    turns: u32,
    lent: &mut [u8],
) -> Result<Summary, Stop>
    requires room { 600 ≤ length lent.old }
    ensures moved { IsMoved volume.old volume.new }
    ensures cause { result ≡ Err Stop.Fault → Rose (N.faults volume.old.nor.now) (N.faults volume.new.nor.now) }
    ensures apart { IfErr result IsApart }
    ensures soaked { IfOk result (IsSummaryFrom volume.old seed turns volume.new) }
    ensures few { IfOk result (λ summary. summary.ok ≤ turns) }
    ensures stops { IfErr result (StopsFrom volume.old) }
{
    let ok = turns_from(volume, seed, turns, lent)?;
    let (files, bytes) = count_files(volume)?;
    Ok(Summary { ok, files, bytes })
}

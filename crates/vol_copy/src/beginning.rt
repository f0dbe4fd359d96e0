// What stands before the first record.
ghost use Rattle.std.specs.Prelude.{◌≡◌, ◌≢◌, OnOk, IfErr, Err};
ghost use Rattle.nor_core.specs.Count.{Rose};
ghost use Rattle.table_model.specs.declared.error.Differ.{Differ as Differs};
ghost use Rattle.volume.specs.Same.{IsSameVolume};
ghost use Rattle.copy_model.specs.Parts.{IsUpTo};
ghost use Rattle.vol_copy.specs.Stages.{Rests, CutsUnder, Leads, OnlyFaults};
ghost use Rattle.vol_copy.specs.Seen.{Idles};
ghost use Rattle.vol_copy.specs.Turns.{room_by, IsFirst, HasFirstRoom, IsReady, HasNoWorking, StopsFirst};

use crate::asking::{WORKING, clear, info_on, stat_on};
use copy_model::CopyErr;
use geometry::Geometry;
use nor_core::{Nor, NorState};
use table_model::Info;
use volume::Volume;

// Whether a table of so many pages has room.
#[tactic(auto, using(geometry::proofs::Bounds::entry_left))]
fn has_room(g: &Geometry, info: &Info) -> bool
    ensures { result ≡ room_by g.now info.now }
{
    let entries = u64::from(g.entries());
    let index = (u64::from(info.index_pages) + entries) / entries;
    let data = (u64::from(info.data_pages) + entries) / entries;
    index + data + 2 <= u64::from(g.blocks)
}

/// Refuses a target that has no room as it is.
pub(crate) fn check_room<M: Nor>(to: &mut Volume<'_, M>) -> Result<(), CopyErr>
    ensures same { IsSameVolume to.old to.new }
    ensures cause { result ≡ Err CopyErr.ToFault → Rose (M.faults to.old.nor.now) (M.faults to.new.nor.now) }
    ensures differs { (d : Differs) → result ≡ Err (CopyErr.Damaged d) → d.wanted ≢ d.found }
    ensures source { result ≡ Err CopyErr.FromFault → ⊥ }
    ensures cuts { CutsUnder (Rests IsFirst) to.old to.new }
    ensures idle { Idles (Rests IsFirst) to.old to.new }
    ensures done { OnOk result (Leads (Rests IsFirst) (Rests HasFirstRoom) to.old to.new) }
    ensures stops { IfErr result (StopsFirst (Rests IsFirst) to.old to.new) }
{
    let info = info_on(to)?;
    if has_room(&to.geometry, &info) {
        return Ok(());
    }
    Err(CopyErr::Full {
        index: u128::from(info.index_pages),
        data_pages: u128::from(info.data_pages),
    })
}

/// Removes the file that a copy left under the working name that was cut, if there is one.
#[tactic(auto, using(volume::proofs::Staying::same_then))]
pub(crate) fn remove_working<M: Nor>(to: &mut Volume<'_, M>) -> Result<(), CopyErr>
    ensures same { IsSameVolume to.old to.new }
    ensures cause { result ≡ Err CopyErr.ToFault → Rose (M.faults to.old.nor.now) (M.faults to.new.nor.now) }
    ensures differs { (d : Differs) → result ≡ Err (CopyErr.Damaged d) → d.wanted ≢ d.found }
    ensures source { result ≡ Err CopyErr.FromFault → ⊥ }
    ensures cuts { CutsUnder (Rests IsReady) to.old to.new }
    ensures idle { Idles (Rests HasNoWorking) to.old to.new }
    ensures done { OnOk result (Leads (Rests IsReady) (Rests (IsUpTo 0)) to.old to.new) }
    ensures stops { IfErr result (OnlyFaults (Rests IsReady) to.old) }
{
    match stat_on(to, &WORKING)? {
        Some(_) => clear(to, &WORKING),
        None => Ok(()),
    }
}

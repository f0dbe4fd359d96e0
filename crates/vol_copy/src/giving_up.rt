// A copy stops for want of room.
ghost use Rattle.std.specs.Prelude.{◌≡◌, ◌≢◌};
ghost use Rattle.nor_core.specs.Count.{Rose};
ghost use Rattle.table_model.specs.declared.error.Differ.{Differ as Differs};
ghost use Rattle.volume.specs.Same.{IsSameVolume};
ghost use Rattle.vol_copy.specs.Stages.{LacksRoom, CutsUnder, StopsFrom};

use crate::asking::{WORKING, clear, info_on};
use copy_model::CopyErr;
use nor_core::{Nor, NorState};
use volume::Volume;

/// Takes the working file away, and answers that so many pages more than there are now have no room.
#[tactic(auto, using(volume::proofs::Staying::same_then))]
pub(crate) fn give_up<M: Nor>(to: &mut Volume<'_, M>, index: u32, pages: u32) -> CopyErr
    ensures same { IsSameVolume to.old to.new }
    ensures cause { result ≡ CopyErr.ToFault → Rose (M.faults to.old.nor.now) (M.faults to.new.nor.now) }
    ensures differs { (d : Differs) → result ≡ CopyErr.Damaged d → d.wanted ≢ d.found }
    ensures source { result ≡ CopyErr.FromFault → ⊥ }
    ensures cuts { CutsUnder (LacksRoom index pages) to.old to.new }
    ensures stops { StopsFrom (LacksRoom index pages) to.old to.new result }
{
    match info_on(to) {
        Err(why) => why,
        Ok(info) => match clear(to, &WORKING) {
            Err(why) => why,
            Ok(()) => CopyErr::Full {
                index: u128::from(info.index_pages) + u128::from(index),
                data_pages: u128::from(info.data_pages) + u128::from(pages),
            },
        },
    }
}

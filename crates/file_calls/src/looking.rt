ghost use Rattle.std.specs.Prelude.{◌≡◌, ◌≤◌, ℕ, List, false};
ghost use Rattle.flash_view.specs.Same.{IsSameView};
ghost use Rattle.table_model.specs.Ask.{Stats, NextAbove, Informs};
ghost use Rattle.fd_table.specs.declared.slot.FdSlot.{FdSlot};
ghost use Rattle.file_calls.specs.Replies.{reply_of};
ghost use Rattle.file_calls.specs.Goes.{Goes, StandsOn};

use crate::Told;
use crate::names::accept;
use crate::records::{info_of_all, stat_above, stat_named};
use flash_view::View;
use nor_core::{Nor, NorState};
use table_model::FsErr;

/// Tells the record of the file of a name.
#[tactic(auto, using(flash_view::proofs::Looking::same_none))]
pub(crate) fn tell_stat<N: Nor>(v: &mut View<'_, N>, name: &[u8]) -> Result<Told, FsErr>
    requires fresh { v.old.wrote ≡ false }
    ensures same { IsSameView v.old v.new }
    ensures goes { (slots : List FdSlot) (into : List ℕ) →
        Goes N.NorState v.old.geometry (Stats name.now) v.old.nor.now v.new.nor.now slots slots v.new.wrote (reply_of result into) }
    ensures counted { (slots : List FdSlot) (into : List ℕ) →
        StandsOn N.NorState v.old.geometry v.old.nor.now slots (reply_of result into) v.old.counted v.new.counted }
{
    accept(name)?;
    match stat_named(v, name)? {
        Some(stat) => Ok(Told::File(stat)),
        None => Err(FsErr::NotFound),
    }
}

/// Tells the record of the least id above one, or that there is none.
pub(crate) fn tell_next<N: Nor>(v: &mut View<'_, N>, after: u16) -> Result<Told, FsErr>
    requires fresh { v.old.wrote ≡ false }
    ensures same { IsSameView v.old v.new }
    ensures goes { (slots : List FdSlot) (into : List ℕ) →
        Goes N.NorState v.old.geometry (NextAbove after) v.old.nor.now v.new.nor.now slots slots v.new.wrote (reply_of result into) }
    ensures counted { (slots : List FdSlot) (into : List ℕ) →
        StandsOn N.NorState v.old.geometry v.old.nor.now slots (reply_of result into) v.old.counted v.new.counted }
{
    match stat_above(v, after)? {
        Some(stat) => Ok(Told::File(stat)),
        None => Ok(Told::NoMore),
    }
}

/// Tells how full the volume is.
pub(crate) fn tell_info<N: Nor>(v: &mut View<'_, N>) -> Result<Told, FsErr>
    requires fresh { v.old.wrote ≡ false }
    ensures same { IsSameView v.old v.new }
    ensures goes { (slots : List FdSlot) (into : List ℕ) →
        Goes N.NorState v.old.geometry Informs v.old.nor.now v.new.nor.now slots slots v.new.wrote (reply_of result into) }
    ensures counted { (slots : List FdSlot) (into : List ℕ) →
        StandsOn N.NorState v.old.geometry v.old.nor.now slots (reply_of result into) v.old.counted v.new.counted }
{
    let info = info_of_all(v)?;
    Ok(Told::Room(info))
}

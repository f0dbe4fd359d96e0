ghost use Rattle.std.specs.Prelude.{◌≡◌, ℕ, List, IsErrOf, IfErr, false};
ghost use Rattle.nor_core.specs.Count.{Rose};
ghost use Rattle.flash_view.specs.Same.{IsSameView, OnlyLooks};
ghost use Rattle.table_model.specs.Ask.{Removes, RemovesOpen};
ghost use Rattle.image_model.specs.Tables.{table_of};
ghost use Rattle.image_model.specs.Tidy.{IsTidy};
ghost use Rattle.file_calls.specs.Removes.{FindsNamed};
ghost use Rattle.file_calls.specs.Replies.{reply_of, MeetsNamed};
ghost use Rattle.file_calls.specs.Goes.{Goes, StandsOn};

use crate::Told;
use crate::names::accept;
use crate::slots::opened;
use fd_table::{FdSlot, close_file};
use file_drop::remove_step;
use flash_view::View;
use nor_core::{Nor, NorState};
use table_model::FsErr;

/// The id of the file of a name, by its header page.
pub(crate) fn find_named<N: Nor>(v: &mut View<'_, N>, name: &[u8]) -> Result<u16, FsErr>
    ensures cause { IsErrOf result FsErr.DeviceFault → Rose (N.faults v.old.nor.now) (N.faults v.new.nor.now) }
    ensures looks { OnlyLooks v.old v.new }
    ensures among { IfErr result (MeetsNamed name.now) }
    ensures told { N.tells v.old.nor.now → IsTidy v.old.geometry (N.bytes v.old.nor.now) →
        FindsNamed name.now (table_of v.old.geometry (N.bytes v.old.nor.now)) result }
{
    match v.seek_name(name)? {
        Some(id) => Ok(id),
        None => Err(FsErr::NotFound),
    }
}

/// Removes the file of a name, and closes each descriptor on it.
#[tactic(auto, using(flash_view::proofs::Looking::same_then, flash_view::proofs::Looking::same_none))]
pub(crate) fn remove_in<N: Nor>(
    v: &mut View<'_, N>,
    slots: &mut [FdSlot],
    name: &[u8],
) -> Result<Told, FsErr>
    requires fresh { v.old.wrote ≡ false }
    ensures same { IsSameView v.old v.new }
    ensures goes { (into : List ℕ) →
        Goes N.NorState v.old.geometry (Removes name.now) v.old.nor.now v.new.nor.now slots.old slots.new v.new.wrote (reply_of result into) }
    ensures counted { (into : List ℕ) → StandsOn N.NorState v.old.geometry v.old.nor.now slots.old (reply_of result into) v.old.counted v.new.counted }
{
    accept(name)?;
    let id = find_named(v, name)?;
    remove_step(v, id)?;
    close_file(slots, id);
    Ok(Told::Done)
}

/// Removes the file of a descriptor, and closes each descriptor on it.
#[tactic(auto, using(flash_view::proofs::Looking::same_none))]
pub(crate) fn remove_open<N: Nor>(
    v: &mut View<'_, N>,
    slots: &mut [FdSlot],
    fd: u16,
) -> Result<Told, FsErr>
    requires fresh { v.old.wrote ≡ false }
    ensures same { IsSameView v.old v.new }
    ensures goes { (into : List ℕ) →
        Goes N.NorState v.old.geometry (RemovesOpen fd) v.old.nor.now v.new.nor.now slots.old slots.new v.new.wrote (reply_of result into) }
    ensures counted { (into : List ℕ) → StandsOn N.NorState v.old.geometry v.old.nor.now slots.old (reply_of result into) v.old.counted v.new.counted }
{
    let slot = opened(slots, fd)?;
    remove_step(v, slot.id)?;
    close_file(slots, slot.id);
    Ok(Told::Done)
}

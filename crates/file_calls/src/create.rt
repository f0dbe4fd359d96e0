ghost use Rattle.std.specs.Prelude.{◌≡◌, ◌≤◌, ◌||◌, List, ℕ, IsErrOf, IfOk, IfErr, IfSome, OnErr, Ok, Some, true, false};
ghost use Rattle.geometry.specs.Numbers.{usable};
ghost use Rattle.nor_core.specs.Count.{Rose};
ghost use Rattle.flash_view.specs.Same.{IsSameView, OnlyLooks};
ghost use Rattle.table_model.specs.Table.{has_name as the_name};
ghost use Rattle.table_model.specs.Ask.{Creates};
ghost use Rattle.image_model.specs.Tables.{table_of};
ghost use Rattle.image_model.specs.Tidy.{IsTidy};
ghost use Rattle.fd_table.specs.declared.slot.FdSlot.{FdSlot};
ghost use Rattle.file_calls.specs.Refusals.{page_lack, HasPage, Prepares, PreparesNamed, IsNewName};
ghost use Rattle.file_calls.specs.Replies.{reply_of, may_meet, MeetsPage, MeetsKnown};
ghost use Rattle.file_calls.specs.Goes.{Goes, StandsOn};

use crate::Told;
use crate::collecting::take_page;
use crate::live_pages::live_pages;
use crate::names::accept;
use crate::room::has_room;
use file_write::create_step;
use flash_view::View;
use free_search::{Naming, free_id, name_or_id};
use header_laws::ids::names_are_told;
use header_laws::room::ids_are_least;
use nor_core::{Failed, Nor, NorState};
use table_model::FsErr;

/// Refuses the name of a file that is there.
pub(crate) fn refuse_known<N: Nor>(v: &mut View<'_, N>, name: &[u8]) -> Result<(), FsErr>
    ensures cause { IsErrOf result FsErr.DeviceFault → Rose (N.faults v.old.nor.now) (N.faults v.new.nor.now) }
    ensures looks { OnlyLooks v.old v.new }
    ensures among { IfErr result (MeetsKnown name.now) }
    ensures told { N.tells v.old.nor.now → IsTidy v.old.geometry (N.bytes v.old.nor.now) →
        IsNewName name.now (table_of v.old.geometry (N.bytes v.old.nor.now)) result }
{
    names_are_told();
    match v.seek_name(name)? {
        Some(_) => Err(FsErr::ConflictingName),
        None => Ok(()),
    }
}

// Why no index page is had for a call that leaves so many more of them, or nothing.
#[tactic(auto, using(flash_view::proofs::Looking::looks_then), unfolding(crate::specs::Refusals::page_lack))]
fn obstacle<N: Nor>(v: &mut View<'_, N>, more: u32) -> Result<Option<FsErr>, Failed>
    requires more { more ≤ 1 }
    ensures cause { OnErr result (Rose (N.faults v.old.nor.now) (N.faults v.new.nor.now)) }
    ensures looks { OnlyLooks v.old v.new }
    ensures no_fault { ¬ (result ≡ Ok (Some FsErr.DeviceFault)) }
    ensures among { IfOk result (λ found. IfSome found MeetsPage) }
    ensures told { N.tells v.old.nor.now → IsTidy v.old.geometry (N.bytes v.old.nor.now) →
        IfOk result (λ why. why ≡ page_lack v.old.geometry (N.bytes v.old.nor.now) more) }
{
    let live = live_pages(v)?;
    if live.free_blocks < 2 {
        return Ok(Some(FsErr::Tight));
    }
    if !has_room(v, &live, more) {
        return Ok(Some(FsErr::Full));
    }
    Ok(None)
}

/// Refuses a call that leaves so many more index pages, none or one, where garbage collection gives none for it.
pub(crate) fn have_page<N: Nor>(v: &mut View<'_, N>, more: u32) -> Result<(), FsErr>
    requires more { more ≤ 1 }
    ensures cause { IsErrOf result FsErr.DeviceFault → Rose (N.faults v.old.nor.now) (N.faults v.new.nor.now) }
    ensures looks { OnlyLooks v.old v.new }
    ensures among { IfErr result MeetsPage }
    ensures told { N.tells v.old.nor.now → IsTidy v.old.geometry (N.bytes v.old.nor.now) → HasPage v.old.geometry (N.bytes v.old.nor.now) more result }
{
    match obstacle(v, more)? {
        Some(why) => Err(why),
        None => Ok(()),
    }
}

/// The id of a new file, or why there is no page for it.
#[tactic(auto, using(flash_view::proofs::Looking::looks_then))]
pub(crate) fn prepare<N: Nor>(v: &mut View<'_, N>) -> Result<u16, FsErr>
    ensures cause { IsErrOf result FsErr.DeviceFault → Rose (N.faults v.old.nor.now) (N.faults v.new.nor.now) }
    ensures looks { OnlyLooks v.old v.new }
    ensures id { IfOk result (λ id. (1 ≤ id) × (id ≤ usable v.old.geometry)) }
    ensures among { IfErr result MeetsPage }
    ensures told { N.tells v.old.nor.now → IsTidy v.old.geometry (N.bytes v.old.nor.now) → Prepares v.old.geometry (N.bytes v.old.nor.now) result }
{
    have_page(v, 1)?;
    ids_are_least();
    match free_id(v)? {
        Some(id) => Ok(id),
        None => Err(FsErr::Full),
    }
}

/// The id of a new file of a name that no file has, or why there is none: its name, or that there is no page for it.
#[tactic(auto, using(flash_view::proofs::Looking::looks_then))]
fn new_id<N: Nor>(v: &mut View<'_, N>, name: &[u8]) -> Result<u16, FsErr>
    ensures cause { IsErrOf result FsErr.DeviceFault → Rose (N.faults v.old.nor.now) (N.faults v.new.nor.now) }
    ensures looks { OnlyLooks v.old v.new }
    ensures id { IfOk result (λ id. (1 ≤ id) × (id ≤ usable v.old.geometry)) }
    ensures among { IfErr result (λ why. may_meet (Creates name.now) why ≡ true) }
    ensures told { N.tells v.old.nor.now → IsTidy v.old.geometry (N.bytes v.old.nor.now) →
        PreparesNamed v.old.geometry (N.bytes v.old.nor.now) name.now result }
{
    names_are_told();
    ids_are_least();
    let Naming::Free(found) = name_or_id(v, name)? else {
        return Err(FsErr::ConflictingName);
    };
    have_page(v, 1)?;
    match found {
        Some(id) => Ok(id),
        None => Err(FsErr::Full),
    }
}

/// Makes an empty file of a name.
#[tactic(auto, using(flash_view::proofs::Looking::same_then, flash_view::proofs::Looking::same_none))]
pub(crate) fn create_in<N: Nor>(v: &mut View<'_, N>, name: &[u8]) -> Result<Told, FsErr>
    requires usable { usable v.old.geometry ≤ 32766 }
    requires fresh { v.old.wrote ≡ false }
    ensures same { IsSameView v.old v.new }
    ensures goes { (slots : List FdSlot) (into : List ℕ) →
        Goes N.NorState v.old.geometry (Creates name.now) v.old.nor.now v.new.nor.now slots slots v.new.wrote (reply_of result into) }
    ensures counted { (slots : List FdSlot) (into : List ℕ) →
        StandsOn N.NorState v.old.geometry v.old.nor.now slots (reply_of result into) v.old.counted v.new.counted }
{
    accept(name)?;
    let id = new_id(v, name)?;
    take_page(v)?;
    create_step(v, id, name)?;
    Ok(Told::Done)
}

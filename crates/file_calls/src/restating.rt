ghost use Rattle.std.specs.Prelude.{◌≡◌, ℕ, List, length, IfErr, OnOk, false};
ghost use Rattle.table_model.specs.Ask.{Ask, Renames, SetsMeta, SetsMetaOpen};
ghost use Rattle.flash_view.specs.Same.{IsSameView};
ghost use Rattle.fd_table.specs.declared.slot.FdSlot.{FdSlot};
ghost use Rattle.page_renew.specs.Edits.{IsEditable};
ghost use Rattle.file_calls.specs.Replies.{reply_of};
ghost use Rattle.file_calls.specs.Restatings.{IsRestating};
ghost use Rattle.file_calls.specs.Goes.{Goes, StandsOn};

use crate::Told;
use crate::collecting::take_page;
use crate::create::{have_page, refuse_known};
use crate::names::{accept, accept_both};
use crate::remove::find_named;
use crate::slots::opened;
use fd_table::FdSlot;
use flash_view::View;
use geometry::Geometry;
use nor_core::{Nor, NorState};
use page_renew::{Edit, restate};
use table_model::FsErr;

// Refuses meta bytes that are not as many as each file has.
fn accept_meta(g: &Geometry, meta: &[u8]) -> Result<(), FsErr>
    ensures fine { OnOk result (length meta.now ≡ g.now.meta) }
    ensures refused { IfErr result (λ why. (why ≡ FsErr.BadFlags) × ¬ (length meta.now ≡ g.now.meta)) }
{
    if meta.len() != g.meta() as usize {
        return Err(FsErr::BadFlags);
    }
    Ok(())
}

// Gives the file of an id, which is there, another name or other meta bytes, where a page is had for it.
#[tactic(auto, using(flash_view::proofs::Looking::same_then, flash_view::proofs::Looking::same_none))]
fn restate_file<N: Nor>(v: &mut View<'_, N>, id: u16, edit: Edit<'_>) -> Result<Told, FsErr>
    requires edit { IsEditable v.old.geometry edit }
    requires fresh { v.old.wrote ≡ false }
    ensures same { IsSameView v.old v.new }
    ensures goes { (ask : Ask) (slots : List FdSlot) (into : List ℕ) → IsRestating N.NorState v.old.geometry slots ask edit.entry id v.old.nor.now →
        Goes N.NorState v.old.geometry ask v.old.nor.now v.new.nor.now slots slots v.new.wrote (reply_of result into) }
    ensures counted { (ask : Ask) (slots : List FdSlot) (into : List ℕ) → IsRestating N.NorState v.old.geometry slots ask edit.entry id v.old.nor.now →
        StandsOn N.NorState v.old.geometry v.old.nor.now slots (reply_of result into) v.old.counted v.new.counted }
{
    have_page(v, 0)?;
    take_page(v)?;
    restate(v, id, edit)?;
    Ok(Told::Done)
}

/// Gives the file of a name another one.
#[tactic(auto, using(flash_view::proofs::Looking::same_then, flash_view::proofs::Looking::same_none))]
pub(crate) fn rename_in<N: Nor>(
    v: &mut View<'_, N>,
    old_name: &[u8],
    new_name: &[u8],
) -> Result<Told, FsErr>
    requires fresh { v.old.wrote ≡ false }
    ensures same { IsSameView v.old v.new }
    ensures goes { (slots : List FdSlot) (into : List ℕ) →
        Goes N.NorState v.old.geometry (Renames old_name.now new_name.now) v.old.nor.now v.new.nor.now slots slots v.new.wrote (reply_of result into) }
    ensures counted { (slots : List FdSlot) (into : List ℕ) →
        StandsOn N.NorState v.old.geometry v.old.nor.now slots (reply_of result into) v.old.counted v.new.counted }
{
    accept_both(old_name, new_name)?;
    let id = find_named(v, old_name)?;
    refuse_known(v, new_name)?;
    restate_file(v, id, Edit::Name(new_name))
}

/// Gives the file of a name other meta bytes.
#[tactic(auto, using(flash_view::proofs::Looking::same_then, flash_view::proofs::Looking::same_none))]
pub(crate) fn set_meta<N: Nor>(v: &mut View<'_, N>, name: &[u8], meta: &[u8]) -> Result<Told, FsErr>
    requires fresh { v.old.wrote ≡ false }
    ensures same { IsSameView v.old v.new }
    ensures goes { (slots : List FdSlot) (into : List ℕ) →
        Goes N.NorState v.old.geometry (SetsMeta name.now meta.now) v.old.nor.now v.new.nor.now slots slots v.new.wrote (reply_of result into) }
    ensures counted { (slots : List FdSlot) (into : List ℕ) →
        StandsOn N.NorState v.old.geometry v.old.nor.now slots (reply_of result into) v.old.counted v.new.counted }
{
    accept(name)?;
    accept_meta(&v.geometry, meta)?;
    let id = find_named(v, name)?;
    restate_file(v, id, Edit::Meta(meta))
}

/// Gives the file of a descriptor that may write other meta bytes.
#[tactic(auto, using(flash_view::proofs::Looking::same_then, flash_view::proofs::Looking::same_none))]
pub(crate) fn set_meta_open<N: Nor>(
    v: &mut View<'_, N>,
    slots: &[FdSlot],
    fd: u16,
    meta: &[u8],
) -> Result<Told, FsErr>
    requires fresh { v.old.wrote ≡ false }
    ensures same { IsSameView v.old v.new }
    ensures goes { (into : List ℕ) →
        Goes N.NorState v.old.geometry (SetsMetaOpen fd meta.now) v.old.nor.now v.new.nor.now slots.now slots.now v.new.wrote (reply_of result into) }
    ensures counted { (into : List ℕ) → StandsOn N.NorState v.old.geometry v.old.nor.now slots.now (reply_of result into) v.old.counted v.new.counted }
{
    accept_meta(&v.geometry, meta)?;
    let slot = opened(slots, fd)?;
    if !slot.flags.may_write() {
        return Err(FsErr::NotWritable);
    }
    restate_file(v, slot.id, Edit::Meta(meta))
}

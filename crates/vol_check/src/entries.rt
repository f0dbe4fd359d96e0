ghost use Rattle.std.specs.Prelude.{◌≡◌, ◌+◌, ◌*◌, ◌<◌, ◌≤◌, OnErr, IfOk, true, slice_index};
ghost use Rattle.std.specs.Bool.{OnTrue};
ghost use Rattle.geometry.specs.Numbers.{page_count};
ghost use Rattle.nor_core.specs.Count.{Rose};
ghost use Rattle.image_model.specs.Killed.{is_dead_entry as the_dead_entry};
ghost use Rattle.image_model.specs.Places.{has_magic, block_of, entry_of};
ghost use Rattle.flash_view.specs.Places.{IsEntryPage};
ghost use Rattle.flash_view.specs.Same.{OnlyLooks};
ghost use Rattle.vol_check.specs.Owned.{OwnIf};
ghost use Rattle.vol_check.specs.Stage.{is_taken_entry};
ghost use Rattle.vol_check.specs.Works.{Worked, MayClean, cleaning_entry, cleaning_entries};

use crate::blank::is_blank;
use crate::culling::is_alive_by;
use flash_view::{View, is_entry_page};
use nor_core::{Failed, Nor, NorState};
use page_layout::{DELETED, FREE};
use page_put::kill;

// Whether this entry of a page, in a block with its magic, is neither deleted nor free over a page that holds 0xFF alone.
#[tactic(auto, using(flash_view::proofs::Looking::looks_then, flash_view::proofs::Looking::looks_none))]
fn is_taken<N: Nor>(v: &mut View<'_, N>, page: u16, entry: u16, own: bool) -> Result<bool, Failed>
    requires { IsEntryPage v.old.geometry page }
    ensures cause { OnErr result (Rose (N.faults v.old.nor.now) (N.faults v.new.nor.now)) }
    ensures looks { OnlyLooks v.old v.new }
    ensures told { N.tells v.old.nor.now → OwnIf own v.old.geometry (N.bytes v.old.nor.now) →
        has_magic v.old.geometry (N.bytes v.old.nor.now) (block_of v.old.geometry page) ≡ true → entry ≡ entry_of v.old.geometry (N.bytes v.old.nor.now) page →
        IfOk result (λ taken. taken ≡ is_taken_entry v.old.geometry (N.bytes v.old.nor.now) page) }
{
    match entry {
        DELETED => Ok(false),
        FREE => Ok(!is_blank(v, page, own)?),
        _ => Ok(true),
    }
}

// Whether the entry of a page is in use, and its page isn't live, where every block has its magic.
#[tactic(auto, using(crate::proofs::Dead::lookup_is_not_dead, crate::proofs::Dead::dead_told))]
fn is_dead_entry<N: Nor>(v: &mut View<'_, N>, page: u16, own: bool) -> Result<bool, Failed>
    requires { page < page_count v.old.geometry }
    ensures cause { OnErr result (Rose (N.faults v.old.nor.now) (N.faults v.new.nor.now)) }
    ensures looks { OnlyLooks v.old v.new }
    ensures entry { IfOk result (λ dead. OnTrue dead (IsEntryPage v.old.geometry page)) }
    ensures byte { N.tells v.old.nor.now → IfOk result (λ dead. OnTrue dead (slice_index (N.bytes v.old.nor.now) (page * v.old.geometry.page + 4) < 256)) }
    ensures told { N.tells v.old.nor.now → MayClean own v.old.geometry (N.bytes v.old.nor.now) →
        IfOk result (λ dead. dead ≡ the_dead_entry v.old.geometry (N.bytes v.old.nor.now) page) }
{
    let g = v.geometry;
    if !is_entry_page(&g, page) {
        return Ok(false);
    }
    let entry = v.entry(page)?;
    Ok(is_taken(v, page, entry, own)? && !is_alive_by(v, page, entry)?)
}

// Kills the entry of a page, if it is in use and its page isn't live: whether it was killed.
fn clean_entry<N: Nor>(v: &mut View<'_, N>, page: u16, own: bool) -> Result<bool, Failed>
    requires { page < page_count v.old.geometry }
    ensures { Worked v.old v.new result (cleaning_entry own page) }
{
    if !is_dead_entry(v, page, own)? {
        return Ok(false);
    }
    kill(v, page)?;
    Ok(true)
}

/// Kills each entry that is in use and whose page isn't live, in page order, where every block has its magic: how many were killed. On a volume
/// that this engine alone wrote the pages of free entries aren't read.
pub(crate) fn clean_entries<N: Nor>(v: &mut View<'_, N>, own: bool) -> Result<u32, Failed>
    ensures most { IfOk result (λ killed. killed ≤ 65535) }
    ensures work { Worked v.old v.new result (cleaning_entries own) }
{
    let mut killed = 0;
    for page in 0..v.geometry.pages() as u16 {
        killed += u32::from(clean_entry(v, page, own)?);
    }
    Ok(killed)
}

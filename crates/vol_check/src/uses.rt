// What entries stand for, by right marks: wanted pages of each kind, and free entries.
ghost use Rattle.std.specs.Prelude.{◌≡◌, ◌<◌, ◌≤◌, length, OnErr, IfOk, true};
ghost use Rattle.geometry.specs.Numbers.{page_count};
ghost use Rattle.image_model.specs.Places.{has_magic, block_of};
ghost use Rattle.nor_core.specs.Count.{Rose};
ghost use Rattle.flash_view.specs.Places.{IsEntryPage};
ghost use Rattle.flash_view.specs.Same.{OnlyLooks};
ghost use Rattle.vol_check.specs.Owned.{OwnIf};
ghost use Rattle.vol_check.specs.Needed.{TellsWanted, MarksUses};
ghost use Rattle.vol_check.specs.Used.{no_use as the_none, blank_use as the_blank_use, sort_use as the_sort_use, both_uses, FewUses, IsUse, AreUses};

use crate::blank::is_blank;
use crate::marking::NEEDED;
use flash_view::{Sort, View, entry_page};
use nor_core::{Failed, Nor, NorState};
use page_layout::FREE;

// Wanted index pages, wanted data pages and free entries.
#[derive(Clone, Copy)]
pub(crate) struct Uses {
    pub(crate) index: u32,
    pub(crate) pages: u32,
    pub(crate) free: u32,
}

// None of them.
fn no_use() -> Uses
    ensures { result ≡ the_none }
{
    Uses {
        index: 0,
        pages: 0,
        free: 0,
    }
}

// That of an entry of 0xFFFF, whose page is blank or not.
fn blank_use(blank: bool) -> Uses
    ensures { result ≡ the_blank_use blank }
{
    Uses {
        free: u32::from(blank),
        ..no_use()
    }
}

// That of an entry whose page is wanted if it is live.
fn sort_use(sort: Sort) -> Uses
    ensures { result ≡ the_sort_use sort }
{
    match sort {
        Sort::Index => Uses {
            index: 1,
            ..no_use()
        },
        Sort::Data => Uses {
            pages: 1,
            ..no_use()
        },
        Sort::Deleted | Sort::Free => no_use(),
    }
}

// Those of two together.
fn both(a: &Uses, b: &Uses) -> Uses
    requires first { FewUses 65535 a.now }
    requires second { FewUses 1 b.now }
    ensures { result ≡ both_uses a.now b.now }
{
    Uses {
        index: a.index + b.index,
        pages: a.pages + b.pages,
        free: a.free + b.free,
    }
}

// That of the entry of a page with this mark, in a block with its magic. The header of a page that isn't marked isn't read.
#[tactic(auto, using(flash_view::proofs::Looking::looks_then))]
fn entry_use<N: Nor>(v: &mut View<'_, N>, page: u16, mark: u8, own: bool) -> Result<Uses, Failed>
    requires { IsEntryPage v.old.geometry page }
    ensures cause { OnErr result (Rose (N.faults v.old.nor.now) (N.faults v.new.nor.now)) }
    ensures looks { OnlyLooks v.old v.new }
    ensures few { IfOk result (FewUses 1) }
    ensures told { N.tells v.old.nor.now → OwnIf own v.old.geometry (N.bytes v.old.nor.now) →
        has_magic v.old.geometry (N.bytes v.old.nor.now) (block_of v.old.geometry page) ≡ true → TellsWanted v.old.geometry (N.bytes v.old.nor.now) page mark →
        IfOk result (IsUse v.old.geometry (N.bytes v.old.nor.now) page) }
{
    let entry = v.entry(page)?;
    if entry == FREE {
        return Ok(blank_use(is_blank(v, page, own)?));
    }
    if mark < NEEDED {
        return Ok(no_use());
    }
    Ok(sort_use(v.used_sort(page, entry)?))
}

/// Those of a block with its magic.
#[tactic(auto, using(flash_view::proofs::Looking::looks_then))]
pub(crate) fn block_uses<N: Nor>(
    v: &mut View<'_, N>,
    marks: &[u8],
    block: u16,
    own: bool,
) -> Result<Uses, Failed>
    requires room { page_count v.old.geometry ≤ length marks.now }
    requires block { block < v.old.geometry.blocks }
    ensures cause { OnErr result (Rose (N.faults v.old.nor.now) (N.faults v.new.nor.now)) }
    ensures looks { OnlyLooks v.old v.new }
    ensures few { IfOk result (FewUses 65535) }
    ensures told { N.tells v.old.nor.now → OwnIf own v.old.geometry (N.bytes v.old.nor.now) → has_magic v.old.geometry (N.bytes v.old.nor.now) block ≡ true →
        MarksUses v.old.geometry (N.bytes v.old.nor.now) marks.now → IfOk result (AreUses v.old.geometry (N.bytes v.old.nor.now) block) }
{
    let g = v.geometry;
    let mut all = no_use();
    for i in 0..g.entries() {
        let page = entry_page(&g, block, i);
        let one = entry_use(v, page, marks[usize::from(page)], own)?;
        all = both(&all, &one);
    }
    Ok(all)
}

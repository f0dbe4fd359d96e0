//! The table of counts, kept right over programs and erases.
ghost use Rattle.std.specs.Prelude.{◌≡◌, ◌≢◌, ◌<◌, ◌≤◌, length, OnOk, OnErr, IfOk, IfSome, is_some, true, false};
ghost use Rattle.std.specs.Bool.{OnTrue};
ghost use Rattle.nor_core.specs.Count.{Rose};
ghost use Rattle.geometry.specs.Numbers.{rows_need, page_count};
ghost use Rattle.image_model.specs.Places.{entry_of};
ghost use Rattle.flash_view.specs.Places.{IsEntryPage};
ghost use Rattle.flash_view.specs.Same.{OnlyLooks, OnlyCounts};
ghost use Rattle.flash_view.specs.Counts.{sort_at, total_of};
ghost use Rattle.page_put.specs.Recount.{IsUsedAs, IsUsedPage, WasCounted, WasFreshened};

use flash_view::{BlockCounts, Sort, View, block_of, is_entry_page, with_one, without_one};
use nor_core::{Failed, Nor, NorState};
use page_layout::FREE;

// What the entry of a page counts as, before programs: None where no table stands, or the page has no entry. (A fault is told once
// the programs are done.)
#[tactic(auto, using(flash_view::proofs::Looking::looks_none))]
pub(crate) fn sort_before<N: Nor>(v: &mut View<'_, N>, page: u16) -> Result<Option<Sort>, Failed>
    requires { page < page_count v.old.geometry }
    ensures cause { OnErr result (Rose (N.faults v.old.nor.now) (N.faults v.new.nor.now)) }
    ensures looks { OnlyLooks v.old v.new }
    ensures work { v.new.work.now ≡ v.old.work.now }
    ensures entry { IfOk result (λ before. IfSome before (λ sort. IsEntryPage v.old.geometry page)) }
    ensures stood { IfOk result (λ before. IfSome before (λ sort. v.old.counted ≡ true)) }
    ensures some { v.old.counted ≡ true → IsEntryPage v.old.geometry page → IfOk result (λ before. is_some before ≡ true) }
    ensures told { N.tells v.old.nor.now → IfOk result (λ before. IfSome before (λ sort. sort ≡ sort_at v.old.geometry (N.bytes v.old.nor.now) page)) }
{
    if !v.counted || !is_entry_page(&v.geometry, page) {
        return Ok(None);
    }
    Ok(Some(v.sort(page)?))
}

// Whether the table of counts stands and the entry of a page isn't free, before a program in the page. (A fault is told once that is done.)
#[tactic(auto, using(flash_view::proofs::Looking::looks_none))]
pub(crate) fn is_counted<N: Nor>(v: &mut View<'_, N>, page: u16) -> Result<bool, Failed>
    requires { page < page_count v.old.geometry }
    ensures cause { OnErr result (Rose (N.faults v.old.nor.now) (N.faults v.new.nor.now)) }
    ensures looks { OnlyLooks v.old v.new }
    ensures stood { IfOk result (λ stands. OnTrue stands ((v.old.counted ≡ true) × IsEntryPage v.old.geometry page)) }
    ensures used { N.tells v.old.nor.now → IfOk result (λ stands. OnTrue stands (entry_of v.old.geometry (N.bytes v.old.nor.now) page ≢ 0xFFFF)) }
    ensures all { N.tells v.old.nor.now → v.old.counted ≡ true → IsUsedPage v.old.geometry (N.bytes v.old.nor.now) page →
        IfOk result (λ stands. stands ≡ true) }
{
    if !v.counted || !is_entry_page(&v.geometry, page) {
        return Ok(false);
    }
    Ok(v.entry(page)? != FREE)
}

// What the entry of a page counts as after programs: None where it is free.
#[tactic(auto, using(flash_view::proofs::Looking::looks_then))]
fn sort_after<N: Nor>(v: &mut View<'_, N>, page: u16) -> Result<Option<Sort>, Failed>
    requires { IsEntryPage v.old.geometry page }
    ensures cause { OnErr result (Rose (N.faults v.old.nor.now) (N.faults v.new.nor.now)) }
    ensures looks { OnlyLooks v.old v.new }
    ensures told { N.tells v.old.nor.now → IfOk result (λ after. IfSome after (IsUsedAs v.old.geometry (N.bytes v.old.nor.now) page)) }
    ensures some { N.tells v.old.nor.now → entry_of v.old.geometry (N.bytes v.old.nor.now) page ≢ 0xFFFF → IfOk result (λ after. is_some after ≡ true) }
{
    let entry = v.entry(page)?;
    if entry == FREE {
        return Ok(None);
    }
    let sort = v.used_sort(page, entry)?;
    Ok(Some(sort))
}

// How many entries were counted.
fn total(counts: &BlockCounts) -> u32
    ensures { result ≡ total_of counts.now }
{
    u32::from(counts.index_live)
        + u32::from(counts.data_live)
        + u32::from(counts.deleted)
        + u32::from(counts.free)
}

// Puts the row of a page's block right where programs made its entry count otherwise: the table stands again. (Not where more entries
// were counted than a block may have: that can't be told from the rows of a device that doesn't hold what it was given.)
fn move_count<N: Nor>(v: &mut View<'_, N>, page: u16, before: Sort, after: Sort)
    requires entry { IsEntryPage v.old.geometry page }
    requires room { rows_need v.old.geometry ≤ length v.old.rows.now }
    requires was { N.tells v.old.nor.now → WasCounted v.old.geometry page before v.old.rows.now (N.bytes v.old.nor.now) }
    requires is { N.tells v.old.nor.now → IsUsedAs v.old.geometry (N.bytes v.old.nor.now) page after }
    requires down { v.old.counted ≡ false }
    ensures counts { OnlyCounts v.old v.new }
    ensures stands { N.tells v.old.nor.now → v.new.counted ≡ true }
{
    let block = block_of(&v.geometry, page);
    let rest = without_one(v.kept_row(block), before);
    if total(&rest) >= 65535 {
        return;
    }
    v.put_row(block, with_one(rest, after));
    v.counted = true;
}

// Puts the row of a page's block right after programs in the page and in its entry. Where the entry is free still the table doesn't stand.
#[tactic(auto, using(flash_view::proofs::Looking::looks_counts, flash_view::proofs::Looking::counts_then))]
pub(crate) fn recount<N: Nor>(
    v: &mut View<'_, N>,
    page: u16,
    before: Option<Sort>,
) -> Result<(), Failed>
    requires entry { IfSome before (λ sort. IsEntryPage v.old.geometry page) }
    requires room { IfSome before (λ sort. rows_need v.old.geometry ≤ length v.old.rows.now) }
    requires was { N.tells v.old.nor.now → IfSome before (λ sort. WasCounted v.old.geometry page sort v.old.rows.now (N.bytes v.old.nor.now)) }
    ensures cause { OnErr result (Rose (N.faults v.old.nor.now) (N.faults v.new.nor.now)) }
    ensures counts { OnlyCounts v.old v.new }
    ensures stands { N.tells v.old.nor.now → is_some before ≡ true → entry_of v.old.geometry (N.bytes v.old.nor.now) page ≢ 0xFFFF →
        OnOk result (v.new.counted ≡ true) }
{
    v.counted = false;
    let Some(before) = before else {
        return Ok(());
    };
    let Some(after) = sort_after(v, page)? else {
        return Ok(());
    };
    move_count(v, page, before, after);
    Ok(())
}

// The same after the programs of a kill, which leave the entry deleted.
pub(crate) fn recount_dead<N: Nor>(v: &mut View<'_, N>, page: u16, before: Option<Sort>)
    requires entry { IfSome before (λ sort. IsEntryPage v.old.geometry page) }
    requires room { IfSome before (λ sort. rows_need v.old.geometry ≤ length v.old.rows.now) }
    requires was { N.tells v.old.nor.now → IfSome before (λ sort. WasCounted v.old.geometry page sort v.old.rows.now (N.bytes v.old.nor.now)) }
    requires dead { N.tells v.old.nor.now → entry_of v.old.geometry (N.bytes v.old.nor.now) page ≡ 0 }
    ensures counts { OnlyCounts v.old v.new }
    ensures stands { N.tells v.old.nor.now → is_some before ≡ true → v.new.counted ≡ true }
{
    v.counted = false;
    if let Some(before) = before {
        move_count(v, page, before, Sort::Deleted);
    }
}

// Puts the row of a block that was made fresh: where the table stood it stands again.
pub(crate) fn count_fresh<N: Nor>(v: &mut View<'_, N>, block: u16, erases: u16, stood: bool)
    requires block { block < v.old.geometry.blocks }
    requires room { stood ≡ true → rows_need v.old.geometry ≤ length v.old.rows.now }
    requires was { stood ≡ true → N.tells v.old.nor.now → WasFreshened v.old.geometry block erases v.old.rows.now (N.bytes v.old.nor.now) }
    ensures counts { OnlyCounts v.old v.new }
    ensures stands { stood ≡ true → v.new.counted ≡ true }
{
    v.counted = false;
    if !stood {
        return;
    }
    let fresh = BlockCounts {
        index_live: 0,
        data_live: 0,
        deleted: 0,
        free: v.geometry.entries() as u16,
        erases,
    };
    v.put_row(block, fresh);
    v.counted = true;
}

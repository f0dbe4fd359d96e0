ghost use Rattle.std.specs.Prelude.{◌≡◌, ◌≢◌, ℕ, ◌+◌, ◌*◌, ◌<◌, ◌≤◌, length, OnErr, IfOk, IfSome, is_some, false};
ghost use Rattle.geometry.specs.Numbers.{rows_need};
ghost use Rattle.image_model.specs.Live.{live_at};
ghost use Rattle.image_model.specs.Places.{entry_of};
ghost use Rattle.nor_core.specs.Count.{Rose};
ghost use Rattle.flash_view.specs.Places.{IsEntryPage};
ghost use Rattle.flash_view.specs.Same.{OnlyLooks, OnlyCounts};
ghost use Rattle.flash_view.specs.Counts.{sort_of_page, sort_at as the_sort_at, total_of, one_more, one_less, more_free, IsFirst};
ghost use Rattle.flash_view.specs.Table.{row_of, row_takes, totals_of, HasTable, IsSummed};

use crate::View;
use crate::kinds::Kind;
use crate::places::block_of;
use crate::sums::{Sums, clear_in, kept_first, kept_sums, put_in, row_at};
use nor_core::{Failed, Nor, NorState};
use page_layout::{DELETED, FREE, INDEX_BIT};

/// How many entries of a block are of each sort.
#[derive(Clone, Copy, Debug, PartialEq, Eq)]
pub struct BlockCounts {
    /// Live index pages.
    pub index_live: u16,
    /// Live data pages.
    pub data_live: u16,
    /// Entries that aren't free, of pages that aren't live.
    pub deleted: u16,
    /// Free entries.
    pub free: u16,
    /// The erase count, 0 where the block tells none.
    pub erases: u16,
}

/// What an entry of a block counts as.
#[derive(Clone, Copy, Debug, PartialEq, Eq)]
pub enum Sort {
    /// Its page is a live index page.
    Index,
    /// Its page is a live data page.
    Data,
    /// It isn't free, and its page isn't live.
    Deleted,
    /// It is free.
    Free,
}

/// The counts with one entry more.
pub fn with_one(counts: BlockCounts, sort: Sort) -> BlockCounts
    requires { total_of counts < 65535 }
    ensures { result ≡ one_more counts sort }
{
    match sort {
        Sort::Index => BlockCounts {
            index_live: counts.index_live + 1,
            ..counts
        },
        Sort::Data => BlockCounts {
            data_live: counts.data_live + 1,
            ..counts
        },
        Sort::Deleted => BlockCounts {
            deleted: counts.deleted + 1,
            ..counts
        },
        Sort::Free => BlockCounts {
            free: counts.free + 1,
            ..counts
        },
    }
}

/// The counts with one entry less of a sort that was counted.
pub fn without_one(counts: BlockCounts, sort: Sort) -> BlockCounts
    ensures { result ≡ one_less counts sort }
{
    match sort {
        Sort::Index => BlockCounts {
            index_live: counts.index_live.saturating_sub(1),
            ..counts
        },
        Sort::Data => BlockCounts {
            data_live: counts.data_live.saturating_sub(1),
            ..counts
        },
        Sort::Deleted => BlockCounts {
            deleted: counts.deleted.saturating_sub(1),
            ..counts
        },
        Sort::Free => BlockCounts {
            free: counts.free.saturating_sub(1),
            ..counts
        },
    }
}

/// The counts with so many free entries more.
pub fn with_free(counts: BlockCounts, more: u32) -> BlockCounts
    requires { total_of counts + more ≤ 65535 }
    ensures { result ≡ more_free counts more }
{
    BlockCounts {
        free: counts.free + more as u16,
        ..counts
    }
}

impl<'b, N: Nor> View<'b, N> {
    /// What an entry counts as that isn't free. (A deleted one is that of no live page.)
    #[tactic(auto, using(crate::proofs::Looking::looks_then, crate::proofs::Sorts::deleted_sort))]
    pub fn used_sort(&mut self, page: u16, entry: u16) -> Result<Sort, Failed>
        requires { IsEntryPage self.old.geometry page }
        ensures cause { OnErr result (Rose (N.faults self.old.nor.now) (N.faults self.new.nor.now)) }
        ensures looks { OnlyLooks self.old self.new }
        ensures work { self.new.work.now ≡ self.old.work.now }
        ensures told { N.tells self.old.nor.now → entry ≡ entry_of self.old.geometry (N.bytes self.old.nor.now) page →
            IfOk result (λ sort. sort ≡ sort_of_page (live_at self.old.geometry (N.bytes self.old.nor.now) page)) }
    {
        if entry == DELETED {
            return Ok(Sort::Deleted);
        }
        let block = block_of(&self.geometry, page);
        Ok(match self.live_by(block, page, entry)? {
            Some(head) if head.id >= INDEX_BIT => Sort::Index,
            Some(_) => Sort::Data,
            None => Sort::Deleted,
        })
    }

    /// What the entry of a page counts as.
    #[tactic(auto, using(crate::proofs::Looking::looks_then, crate::proofs::Sorts::free_sort, crate::proofs::Sorts::used_sort))]
    pub fn sort(&mut self, page: u16) -> Result<Sort, Failed>
        requires { IsEntryPage self.old.geometry page }
        ensures cause { OnErr result (Rose (N.faults self.old.nor.now) (N.faults self.new.nor.now)) }
        ensures looks { OnlyLooks self.old self.new }
        ensures work { self.new.work.now ≡ self.old.work.now }
        ensures told { N.tells self.old.nor.now → IfOk result (λ sort. sort ≡ the_sort_at self.old.geometry (N.bytes self.old.nor.now) page) }
    {
        let entry = self.entry(page)?;
        if entry == FREE {
            return Ok(Sort::Free);
        }
        let sort = self.used_sort(page, entry)?;
        Ok(sort)
    }

    /// The counts of a block by its row, where the table of counts stands.
    pub fn row(&self, block: u16) -> Option<BlockCounts>
        requires { block < self.now.geometry.blocks }
        ensures row { IfSome result (λ counts. counts ≡ row_of self.now.rows.now block) }
        ensures when { is_some result ≡ self.now.counted }
        ensures stands { IfSome result (λ counts. HasTable N.NorState self.now.geometry self.now.nor.now self.now.rows.now) }
    {
        if !self.counted {
            return None;
        }
        Some(self.kept_row(block))
    }

    /// The row of a block, whether or not the table stands.
    pub fn kept_row(&self, block: u16) -> BlockCounts
        requires block { block < self.now.geometry.blocks }
        requires room { rows_need self.now.geometry ≤ length self.now.rows.now }
        ensures { result ≡ row_of self.now.rows.now block }
    {
        row_at(self.rows, block)
    }

    /// The sums of the rows of all blocks, where the table of counts stands.
    #[tactic(auto, using(crate::proofs::RowSums::table_sums))]
    pub fn sums(&self) -> Option<Sums>
        ensures when { is_some result ≡ self.now.counted }
        ensures stands { IfSome result (λ sums. HasTable N.NorState self.now.geometry self.now.nor.now self.now.rows.now) }
        ensures told { N.tells self.now.nor.now → IfSome result (λ sums. sums ≡ totals_of self.now.geometry self.now.rows.now) }
    {
        if !self.counted {
            return None;
        }
        Some(kept_sums(self.rows))
    }

    /// The first block that takes a page of a kind, by the rows, or the number of blocks; where the table of counts stands.
    #[tactic(auto, using(crate::proofs::RowSums::table_first))]
    pub fn first_open(&self, kind: Kind) -> Option<u16>
        ensures when { is_some result ≡ self.now.counted }
        ensures stands { IfSome result (λ first. HasTable N.NorState self.now.geometry self.now.nor.now self.now.rows.now) }
        ensures told { N.tells self.now.nor.now →
            IfSome result (λ first. IsFirst self.now.geometry.blocks (row_takes self.now.geometry self.now.rows.now kind) first) }
    {
        if !self.counted {
            return None;
        }
        Some(kept_first(self.rows, kind))
    }

    /// Sets all rows to 0, while the table doesn't stand: then what is kept beside the rows is right.
    pub fn clear_rows(&mut self)
        requires room { rows_need self.old.geometry ≤ length self.old.rows.now }
        requires down { self.old.counted ≡ false }
        ensures counts { OnlyCounts self.old self.new }
        ensures device { self.new.nor.now ≡ self.old.nor.now }
        ensures size { length self.new.rows.now ≡ length self.old.rows.now }
        ensures down { self.new.counted ≡ false }
        ensures summed { IsSummed self.new.geometry self.new.rows.now }
    {
        let g = self.geometry;
        clear_in(self.rows, &g);
    }

    /// Puts the row of a block, while the table doesn't stand. What is kept beside the rows stays right.
    pub fn put_row(&mut self, block: u16, counts: BlockCounts)
        requires block { block < self.old.geometry.blocks }
        requires room { rows_need self.old.geometry ≤ length self.old.rows.now }
        requires down { self.old.counted ≡ false }
        ensures counts { OnlyCounts self.old self.new }
        ensures device { self.new.nor.now ≡ self.old.nor.now }
        ensures work { self.new.work.now ≡ self.old.work.now }
        ensures size { length self.new.rows.now ≡ length self.old.rows.now }
        ensures down { self.new.counted ≡ false }
        ensures row { row_of self.new.rows.now block ≡ counts }
        ensures others { (c : ℕ) → c ≢ block → row_of self.new.rows.now c ≡ row_of self.old.rows.now c }
        ensures summed { IsSummed self.old.geometry self.old.rows.now → IsSummed self.old.geometry self.new.rows.now }
    {
        let g = self.geometry;
        put_in(self.rows, &g, block, &counts);
    }
}

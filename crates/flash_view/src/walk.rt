ghost use Rattle.std.specs.Prelude.{◌≡◌, ◌+◌, ◌*◌, ◌/◌, ◌<◌, ◌≤◌, ◌&&◌, min, true, OnErr, IfOk, IfSome};
ghost use Rattle.std.specs.Option.{option_map};
ghost use Rattle.nor_core.specs.Count.{Rose};
ghost use Rattle.page_layout.specs.Layout.{header_at};
ghost use Rattle.geometry.specs.Numbers.{lookups, entries};
ghost use Rattle.image_model.specs.Places.{block_of as the_block_of, entry_of, has_magic};
ghost use Rattle.image_model.specs.Live.{live_at};
ghost use Rattle.flash_view.specs.Places.{IsEntryPage};
ghost use Rattle.flash_view.specs.Same.{OnlyLooks};
ghost use Rattle.flash_view.specs.Table.{has_none as the_has_none, row_of};
ghost use Rattle.flash_view.specs.Walk.{FirstSlot, NextSlot, NextPlace, NextLive, ArePassed};

use crate::View;
use crate::counts::BlockCounts;
use crate::places::{entry_page, lookup_of, lookup_page};
use nor_core::{Failed, Nor, NorState};
use page_layout::{INDEX_BIT, PageHeader, slot_between};

// So many entries of a block are few.
const FEW: u32 = 32;

// Whether a row tells that its block has no live page with an entry between two numbers: none of the kinds that have such entries.
fn has_none(row: BlockCounts, low: u16, high: u16) -> bool
    ensures { result ≡ the_has_none row low high }
{
    (row.index_live == 0 || high < INDEX_BIT) && (row.data_live == 0 || low >= INDEX_BIT)
}

impl<'b, N: Nor> View<'b, N> {
    // The first entry from place `at` on in lookup page `k` of a block alone, which has that place, whose number lies
    // between two, and the number. (Where frames and entries are few, the entries from there on alone are read.)
    fn slot_in(
        &mut self,
        block: u16,
        k: u32,
        at: u32,
        low: u16,
        high: u16,
    ) -> Result<Option<(u32, u16)>, Failed>
        requires block { block < self.old.geometry.blocks }
        requires place { at < entries self.old.geometry }
        requires lookup { k ≡ 2 * at / self.old.geometry.page }
        requires few { k < lookups self.old.geometry }
        ensures cause { OnErr result (Rose (N.faults self.old.nor.now) (N.faults self.new.nor.now)) }
        ensures looks { OnlyLooks self.old self.new }
        ensures once { N.device_reads self.new.nor.now ≤ N.device_reads self.old.nor.now + 1 }
        ensures inside { IfOk result (λ found. IfSome found (λ f. (at ≤ f.0) × (f.0 < entries self.old.geometry))) }
        ensures told { N.tells self.old.nor.now → IfOk result (λ found. FirstSlot self.old.geometry (N.bytes self.old.nor.now) block at
            (min (entries self.old.geometry) ((k + 1) * (self.old.geometry.page / 2))) low high found) }
        ensures work { self.new.work.now ≡ self.old.work.now }
    {
        if self.has_few() && self.geometry.entries() <= FEW {
            self.slot_peeked(block, k, at, low, high)
        } else {
            self.slot_brought(block, k, at, low, high)
        }
    }

    // The same, of the page in a frame.
    fn slot_brought(
        &mut self,
        block: u16,
        k: u32,
        at: u32,
        low: u16,
        high: u16,
    ) -> Result<Option<(u32, u16)>, Failed>
        requires block { block < self.old.geometry.blocks }
        requires place { at < entries self.old.geometry }
        requires lookup { k ≡ 2 * at / self.old.geometry.page }
        requires few { k < lookups self.old.geometry }
        ensures cause { OnErr result (Rose (N.faults self.old.nor.now) (N.faults self.new.nor.now)) }
        ensures looks { OnlyLooks self.old self.new }
        ensures once { N.device_reads self.new.nor.now ≤ N.device_reads self.old.nor.now + 1 }
        ensures inside { IfOk result (λ found. IfSome found (λ f. (at ≤ f.0) × (f.0 < entries self.old.geometry))) }
        ensures told { N.tells self.old.nor.now → IfOk result (λ found. FirstSlot self.old.geometry (N.bytes self.old.nor.now) block at
            (min (entries self.old.geometry) ((k + 1) * (self.old.geometry.page / 2))) low high found) }
        ensures work { self.new.work.now ≡ self.old.work.now }
    {
        let g = self.geometry;
        let slots = g.page() / 2;
        let start = k * slots;
        let end = g.entries().min(start + slots);
        let page = lookup_page(&g, block, k);
        let f = self.bring(page)?;
        let from = (at - start) as usize;
        let to = (end - start) as usize;
        match slot_between(self.brought(f, page), from, to, low, high) {
            Some((i, entry)) => Ok(Some((start + i as u32, entry))),
            None => Ok(None),
        }
    }

    // The same, of the entries alone. They are to be few.
    #[inline(never)]
    fn slot_peeked(
        &mut self,
        block: u16,
        k: u32,
        at: u32,
        low: u16,
        high: u16,
    ) -> Result<Option<(u32, u16)>, Failed>
        requires block { block < self.old.geometry.blocks }
        requires place { at < entries self.old.geometry }
        requires lookup { k ≡ 2 * at / self.old.geometry.page }
        requires few { k < lookups self.old.geometry }
        requires few_entries { entries self.old.geometry ≤ 32 }
        ensures cause { OnErr result (Rose (N.faults self.old.nor.now) (N.faults self.new.nor.now)) }
        ensures looks { OnlyLooks self.old self.new }
        ensures once { N.device_reads self.new.nor.now ≤ N.device_reads self.old.nor.now + 1 }
        ensures inside { IfOk result (λ found. IfSome found (λ f. (at ≤ f.0) × (f.0 < entries self.old.geometry))) }
        ensures told { N.tells self.old.nor.now → IfOk result (λ found. FirstSlot self.old.geometry (N.bytes self.old.nor.now) block at
            (min (entries self.old.geometry) ((k + 1) * (self.old.geometry.page / 2))) low high found) }
        ensures work { self.new.work.now ≡ self.old.work.now }
    {
        let g = self.geometry;
        let slots = g.page() / 2;
        let start = k * slots;
        let end = g.entries().min(start + slots);
        let page = lookup_page(&g, block, k);
        let count = (end - at) as usize;
        let mut part = [0u8; 2 * FEW as usize];
        let bytes = &mut part[..2 * count];
        self.read_in(page, 2 * (at - start), bytes)?;
        match slot_between(bytes, 0, count, low, high) {
            Some((i, entry)) => Ok(Some((at + i as u32, entry))),
            None => Ok(None),
        }
    }

    /// The first entry of a block, from its entry `from` on, whose number lies between `low` and `high`, which count too,
    /// and that number. Entries are counted from 0. Each lookup page of the block is read once at most.
    #[tactic(auto, using(geometry::proofs::Bounds::magic_fits, crate::proofs::Looking::looks_then))]
    pub fn find_slot(
        &mut self,
        block: u16,
        from: u32,
        low: u16,
        high: u16,
    ) -> Result<Option<(u32, u16)>, Failed>
        requires { block < self.old.geometry.blocks }
        ensures cause { OnErr result (Rose (N.faults self.old.nor.now) (N.faults self.new.nor.now)) }
        ensures looks { OnlyLooks self.old self.new }
        ensures few { N.device_reads self.new.nor.now ≤ N.device_reads self.old.nor.now + lookups self.old.geometry }
        ensures inside { IfOk result (λ found. IfSome found (λ f. (from ≤ f.0) × (f.0 < entries self.old.geometry))) }
        ensures told { N.tells self.old.nor.now → IfOk result (λ found. NextSlot self.old.geometry (N.bytes self.old.nor.now) block from low high found) }
        ensures work { self.new.work.now ≡ self.old.work.now }
    {
        let g = self.geometry;
        let mut at = from;
        'pages: while at < g.entries() {
            let k = lookup_of(&g, at);
            if let Some(found) = self.slot_in(block, k, at, low, high)? {
                return Ok(Some(found));
            }
            at = (k + 1) * (g.page() / 2);
        }
        Ok(None)
    }

    // Whether the table of counts tells that no page of a block is live with an entry between two numbers.
    #[tactic(auto, using(crate::proofs::RowPassed::table_passed))]
    fn is_passed(&self, block: u16, low: u16, high: u16) -> bool
        requires { block < self.now.geometry.blocks }
        ensures row { result ≡ (self.now.counted && the_has_none (row_of self.now.rows.now block) low high) }
        ensures told { N.tells self.now.nor.now → result ≡ true → ArePassed self.now.geometry (N.bytes self.now.nor.now) block 0 low high }
    {
        match self.row(block) {
            Some(row) => has_none(row, low, high),
            None => false,
        }
    }

    // The next entry of a block that may be that of a live page: as `find_slot` finds it, but none in a block where the table
    // of counts tells that there is no such page.
    #[tactic(auto, using(crate::proofs::Looking::looks_none, crate::proofs::Walking::slot_place))]
    fn next_place(
        &mut self,
        block: u16,
        from: u32,
        low: u16,
        high: u16,
    ) -> Result<Option<(u32, u16)>, Failed>
        requires { block < self.old.geometry.blocks }
        ensures cause { OnErr result (Rose (N.faults self.old.nor.now) (N.faults self.new.nor.now)) }
        ensures looks { OnlyLooks self.old self.new }
        ensures inside { IfOk result (λ found. IfSome found (λ f. (from ≤ f.0) × (f.0 < entries self.old.geometry))) }
        ensures told { N.tells self.old.nor.now → IfOk result (λ found. NextPlace self.old.geometry (N.bytes self.old.nor.now) block from low high found) }
        ensures work { self.new.work.now ≡ self.old.work.now }
    {
        if self.is_passed(block, low, high) {
            return Ok(None);
        }
        let found = self.find_slot(block, from, low, high)?;
        Ok(found)
    }

    // The header of a page, if the page is live, by its block and its entry.
    #[tactic(auto, unfolding(image_model::specs::Live::live_at, image_model::specs::Live::is_live, image_model::specs::Places::is_entry_page), using(crate::proofs::Looking::looks_then, crate::proofs::Parts::finished_is))]
    pub(crate) fn live_by(
        &mut self,
        block: u16,
        page: u16,
        entry: u16,
    ) -> Result<Option<PageHeader>, Failed>
        requires page { IsEntryPage self.old.geometry page }
        requires block { block ≡ the_block_of self.old.geometry page }
        ensures cause { OnErr result (Rose (N.faults self.old.nor.now) (N.faults self.new.nor.now)) }
        ensures looks { OnlyLooks self.old self.new }
        ensures told { N.tells self.old.nor.now → entry ≡ entry_of self.old.geometry (N.bytes self.old.nor.now) page →
            IfOk result (λ head. head ≡ option_map header_at (live_at self.old.geometry (N.bytes self.old.nor.now) page)) }
        ensures work { self.new.work.now ≡ self.old.work.now }
    {
        let has = self.has_magic(block)?;
        self.named_header(has, page, entry)
    }

    // The same where it is known whether the block has its magic.
    #[tactic(auto, unfolding(image_model::specs::Live::live_at, image_model::specs::Live::is_live, image_model::specs::Places::is_entry_page), using(crate::proofs::Looking::looks_then, crate::proofs::Looking::looks_none, crate::proofs::Parts::finished_is))]
    pub(crate) fn named_header(
        &mut self,
        has: bool,
        page: u16,
        entry: u16,
    ) -> Result<Option<PageHeader>, Failed>
        requires page { IsEntryPage self.old.geometry page }
        ensures cause { OnErr result (Rose (N.faults self.old.nor.now) (N.faults self.new.nor.now)) }
        ensures looks { OnlyLooks self.old self.new }
        ensures told { N.tells self.old.nor.now → has ≡ has_magic self.old.geometry (N.bytes self.old.nor.now) (the_block_of self.old.geometry page) →
            entry ≡ entry_of self.old.geometry (N.bytes self.old.nor.now) page →
            IfOk result (λ head. head ≡ option_map header_at (live_at self.old.geometry (N.bytes self.old.nor.now) page)) }
        ensures work { self.new.work.now ≡ self.old.work.now }
    {
        if !has {
            return Ok(None);
        }
        let head = self.header(page)?;
        if entry != head.id {
            return Ok(None);
        }
        Ok(if head.is_finished() { Some(head) } else { None })
    }

    /// The first live page from page `from` on whose entry lies between `low` and `high`, which count too, with its header.
    pub fn next_live(
        &mut self,
        from: u32,
        low: u16,
        high: u16,
    ) -> Result<Option<(u16, PageHeader)>, Failed>
        ensures cause { OnErr result (Rose (N.faults self.old.nor.now) (N.faults self.new.nor.now)) }
        ensures looks { OnlyLooks self.old self.new }
        ensures inside { IfOk result (λ found. IfSome found (λ f. (from ≤ f.0) × IsEntryPage self.old.geometry f.0)) }
        ensures told { N.tells self.old.nor.now → IfOk result (λ found. NextLive self.old.geometry (N.bytes self.old.nor.now) from low high found) }
        ensures work { self.new.work.now ≡ self.old.work.now }
    {
        let g = self.geometry;
        let mut block = from / g.per_block();
        let mut slot = (from % g.per_block()).saturating_sub(g.lookups());
        'walk: while block < g.blocks() {
            match self.next_place(block as u16, slot, low, high)? {
                Some((i, entry)) => {
                    let page = entry_page(&g, block as u16, i);
                    if let Some(head) = self.live_by(block as u16, page, entry)? {
                        return Ok(Some((page, head)));
                    }
                    slot = i + 1;
                }
                None => {
                    block += 1;
                    slot = 0;
                }
            }
        }
        Ok(None)
    }
}

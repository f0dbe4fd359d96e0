ghost use Rattle.std.specs.Prelude.{◌≡◌, ◌+◌, ◌-◌, ◌*◌, ◌<◌, ◌≤◌, length, slice_range, OnOk, OnErr, true};
ghost use Rattle.geometry.specs.Numbers.{scratch_need, cache_need};
ghost use Rattle.nor_core.specs.Count.{Rose};
ghost use Rattle.nor_core.specs.Flash.{HalfProgrammed, programmed};
ghost use Rattle.nor_core.specs.Device.{Changes, Writes};
ghost use Rattle.image_model.specs.Tidy.{is_erased as the_erased};
ghost use Rattle.page_cache.specs.Kept.{IsKept, FewReads};
ghost use Rattle.flash_view.specs.Table.{HasTable};

use crate::places::{block_of, entry_start, lookup_of, lookup_page, page_start};
use geometry::Geometry;
use nor_core::{Board, Failed, Mark, Nor, NorState};
use page_cache::{
    Cached, bring, brought, erase_through, held_page, hold_page, peek_page, program_through,
    read_page,
};
use page_layout::{PageHeader, count_offset, header_of, magic_offset, read_count, read_word};

// So many frames are many.
const MANY: usize = 64;

/// A volume's device, with its geometry and the bytes that were lent for its work.
#[derive(Drop)]
pub struct View<'b, N: Nor> {
    /// The numbers of the volume.
    pub geometry: Geometry,
    /// The device. The volume is its first bytes.
    pub nor: &'b mut N,
    /// Bytes for work: a page to build, a page that was read, and behind them hints and other notes.
    pub work: &'b mut [u8],
    /// Bytes for the counts of blocks, 16 bytes a block; fewer where no table is kept.
    pub rows: &'b mut [u8],
    /// Bytes for copies of pages.
    pub cache: &'b mut [u8],
    /// Whether the device was asked for a program or an erase since this was last set to false.
    pub wrote: bool,
    /// Whether the table of counts stands: each row has the counts of its block, and entries alone tell what is free.
    pub counted: bool,
    pub ghost unit: { N.unit nor.now ≡ geometry.phys },
    pub ghost volume: { geometry.blocks * geometry.block ≤ N.size nor.now },
    pub ghost work_fits: { scratch_need geometry ≤ length work.now },
    pub ghost cache_fits: { cache_need geometry ≤ length cache.now },
    pub ghost kept: { IsKept N.NorState geometry nor.now cache.now },
    pub ghost table: { counted ≡ true → HasTable N.NorState geometry nor.now rows.now },
}

// Programs a part of the bytes for work, which stay.
fn program_part<N: Nor>(
    g: &Geometry,
    nor: &mut N,
    cache: &mut [u8],
    at: u32,
    work: &mut [u8],
    start: usize,
    end: usize,
) -> Result<(), Failed>
    requires volume { g.now.blocks * g.now.block ≤ N.size nor.old }
    requires need { cache_need g.now ≤ length cache.old }
    requires kept { IsKept N.NorState g.now nor.old cache.old }
    requires some { start < end }
    requires inside { end ≤ length work.old }
    requires fits { at + (end - start) ≤ g.now.blocks * g.now.block }
    ensures cause { OnErr result (Rose (N.faults nor.old) (N.faults nor.new)) }
    ensures writes { Writes N.NorState nor.old nor.new }
    ensures changes { Changes N.NorState nor.old nor.new (HalfProgrammed at (slice_range work.old start end)) }
    ensures done { N.tells nor.old → OnOk result (N.bytes nor.new ≡ programmed (N.bytes nor.old) at (slice_range work.old start end)) }
    ensures few { FewReads N.NorState g.now nor.old cache.old nor.new cache.new }
    ensures kept { IsKept N.NorState g.now nor.new cache.new }
    ensures stays { work.new ≡ work.old }
{
    program_through(g, nor, cache, at, &work[start..end])
}

impl<'b, N: Nor> View<'b, N> {
    ghost use Rattle.std.specs.Prelude.{◌≡◌, ℕ, ◌+◌, ◌*◌, ◌/◌, ◌<◌, ◌≤◌, length, take, slice_index, slice_range, OnOk, OnErr, IfOk, true, false};
    ghost use Rattle.std.specs.Option.{ForSome};
    ghost use Rattle.std.specs.Int.{to_le_bytes, w16};
    ghost use Rattle.geometry.specs.Numbers.{scratch_need, cache_need, page_count};
    ghost use Rattle.nor_core.specs.Count.{Rose};
    ghost use Rattle.nor_core.specs.Flash.{HalfProgrammed, programmed, HalfErased, erased, word_at};
    ghost use Rattle.nor_core.specs.Device.{Changes, InErase, Writes};
    ghost use Rattle.geometry.specs.Numbers.{slots};
    ghost use Rattle.flash_view.specs.Places.{IsEntryPage, IsWordAt, page_start as the_page_start};
    ghost use Rattle.image_model.specs.Places.{block_of as the_block_of, page_of, slot_of, entry_at, entry_of as the_entry_of, has_magic as the_magic};
    ghost use Rattle.image_model.specs.Places.{erase_count as the_erase_count};
    ghost use Rattle.image_model.specs.Tidy.{is_erased as the_erased};
    ghost use Rattle.page_layout.specs.Layout.{header_at};
    ghost use Rattle.page_cache.specs.Frames.{holds, held, frame_count, page_in};
    ghost use Rattle.page_cache.specs.Kept.{IsKept};
    ghost use Rattle.flash_view.specs.Same.{IsSameView, OnlyLooks};

    /// A view of the volume on a device, with no page in the cache bytes, and without a table of counts; what is lent for its rows
    /// may be shorter than they are, then it never gets one. The device may be larger than the volume.
    pub fn new(
        geometry: Geometry,
        nor: &'b mut N,
        work: &'b mut [u8],
        rows: &'b mut [u8],
        cache: &'b mut [u8],
    ) -> View<'b, N>
        requires unit { N.unit nor.old ≡ geometry.phys }
        requires volume { geometry.blocks * geometry.block ≤ N.size nor.old }
        requires work { scratch_need geometry ≤ length work.old }
        requires cache { cache_need geometry ≤ length cache.old }
        ensures geometry { result.geometry ≡ geometry }
        ensures wrote { result.wrote ≡ false }
        ensures nor { result.nor.now ≡ nor.old }
        ensures nor_name { result.nor.ghost_name ≡ nor.entry.ghost_name }
        ensures work_name { result.work.ghost_name ≡ work.entry.ghost_name }
        ensures rows_name { result.rows.ghost_name ≡ rows.entry.ghost_name }
        ensures cache_name { result.cache.ghost_name ≡ cache.entry.ghost_name }
        ensures cache_size { length result.cache.now ≡ length cache.old }
        ensures empty { held geometry result.cache.now ≡ 0 }
    {
        let (nor, cache) = Cached::new(geometry, nor, cache).give_back();
        View {
            geometry,
            nor,
            work,
            rows,
            cache,
            wrote: false,
            counted: false,
        }
    }

    /// The numbers of the volume.
    pub fn geometry(&self) -> &Geometry
        ensures { result.now ≡ self.now.geometry }
    {
        &self.geometry
    }

    // Whether frames are few: then of a page that isn't held those bytes alone are read that are looked at, and no other page loses
    // its frame. (Where they are many a page that is looked at gets into one.)
    #[inline(always)]
    pub(crate) fn has_few(&self) -> bool {
        self.cache.len() < MANY * self.geometry.page() as usize
    }

    // The two bytes of a page at its byte `start`, as a number with the lower byte first. They alone are read.
    #[inline(never)]
    fn peek_word(&mut self, page: u16, start: u32) -> Result<u16, Failed>
        requires page { page < page_count self.old.geometry }
        requires inside { start + 2 ≤ self.old.geometry.page }
        ensures cause { OnErr result (Rose (N.faults self.old.nor.now) (N.faults self.new.nor.now)) }
        ensures looks { OnlyLooks self.old self.new }
        ensures once { N.device_reads self.new.nor.now ≤ N.device_reads self.old.nor.now + 1 }
        ensures told { N.tells self.old.nor.now → IfOk result (λ word. word ≡ word_at (page_of self.old.geometry (N.bytes self.old.nor.now) page) start) }
        ensures work { self.new.work.now ≡ self.old.work.now }
        ensures bytes { N.tells self.old.nor.now → OnOk result (IsWordAt (N.bytes self.old.nor.now) (page * self.old.geometry.page + start)) }
    {
        let mut word = [0u8; 2];
        self.read_in(page, start, &mut word)?;
        Ok(read_word(&word, 0))
    }

    // Slot `i` of the lookup pages of a block, counted from 0.
    fn slot(&mut self, block: u16, i: u32) -> Result<u16, Failed>
        requires block { block < self.old.geometry.blocks }
        requires slot { i < slots self.old.geometry }
        ensures cause { OnErr result (Rose (N.faults self.old.nor.now) (N.faults self.new.nor.now)) }
        ensures looks { OnlyLooks self.old self.new }
        ensures once { N.device_reads self.new.nor.now ≤ N.device_reads self.old.nor.now + 1 }
        ensures told { N.tells self.old.nor.now → IfOk result (λ word. word ≡ slot_of self.old.geometry (N.bytes self.old.nor.now) block i) }
        ensures work { self.new.work.now ≡ self.old.work.now }
        ensures bytes { N.tells self.old.nor.now → OnOk result (IsWordAt (N.bytes self.old.nor.now) (block * self.old.geometry.block + 2 * i)) }
    {
        let g = self.geometry;
        let k = lookup_of(&g, i);
        let page = lookup_page(&g, block, k);
        let at = (2 * i - k * g.page()) as usize;
        if self.has_few() {
            return self.peek_word(page, at as u32);
        }
        let f = self.bring(page)?;
        Ok(read_word(self.brought(f, page), at))
    }

    // Two slots of a block. (Where it has one lookup page alone, that is looked at once.)
    #[tactic(auto, using(crate::proofs::Looking::looks_then))]
    pub(crate) fn two_slots(&mut self, block: u16, i: u32, j: u32) -> Result<(u16, u16), Failed>
        requires block { block < self.old.geometry.blocks }
        requires first { i < slots self.old.geometry }
        requires second { j < slots self.old.geometry }
        ensures cause { OnErr result (Rose (N.faults self.old.nor.now) (N.faults self.new.nor.now)) }
        ensures looks { OnlyLooks self.old self.new }
        ensures first { N.tells self.old.nor.now → IfOk result (λ words. words.0 ≡ slot_of self.old.geometry (N.bytes self.old.nor.now) block i) }
        ensures second { N.tells self.old.nor.now → IfOk result (λ words. words.1 ≡ slot_of self.old.geometry (N.bytes self.old.nor.now) block j) }
        ensures work { self.new.work.now ≡ self.old.work.now }
    {
        let g = self.geometry;
        if g.lookups() != 1 || self.has_few() {
            let first = self.slot(block, i)?;
            let second = self.slot(block, j)?;
            return Ok((first, second));
        }
        let page = lookup_page(&g, block, 0);
        let f = self.bring(page)?;
        let bytes = self.brought(f, page);
        let first = read_word(bytes, 2 * i as usize);
        let second = read_word(bytes, 2 * j as usize);
        Ok((first, second))
    }

    /// The entry of a page: free, deleted, or the id of its object with bit 15 set in index pages.
    #[tactic(auto, unfolding(image_model::specs::Places::entry_of), using(crate::proofs::Inside::entry_slot))]
    pub fn entry(&mut self, page: u16) -> Result<u16, Failed>
        requires { IsEntryPage self.old.geometry page }
        ensures cause { OnErr result (Rose (N.faults self.old.nor.now) (N.faults self.new.nor.now)) }
        ensures looks { OnlyLooks self.old self.new }
        ensures once { N.device_reads self.new.nor.now ≤ N.device_reads self.old.nor.now + 1 }
        ensures told { N.tells self.old.nor.now → IfOk result (λ entry. entry ≡ the_entry_of self.old.geometry (N.bytes self.old.nor.now) page) }
        ensures work { self.new.work.now ≡ self.old.work.now }
        ensures bytes { N.tells self.old.nor.now → OnOk result (IsWordAt (N.bytes self.old.nor.now) (entry_at self.old.geometry page)) }
    {
        let g = self.geometry;
        let place = u32::from(page) % g.per_block() - g.lookups();
        self.slot(block_of(&g, page), place)
    }

    /// Whether a block has the magic of this volume. (Where the table of counts stands each block has it.)
    #[tactic(auto, unfolding(image_model::specs::Places::has_magic), using(geometry::proofs::Bounds::magic_fits, crate::proofs::Looking::looks_none, crate::proofs::Rows::table_magic))]
    pub fn has_magic(&mut self, block: u16) -> Result<bool, Failed>
        requires { block < self.old.geometry.blocks }
        ensures cause { OnErr result (Rose (N.faults self.old.nor.now) (N.faults self.new.nor.now)) }
        ensures looks { OnlyLooks self.old self.new }
        ensures told { N.tells self.old.nor.now → IfOk result (λ has. has ≡ the_magic self.old.geometry (N.bytes self.old.nor.now) block) }
        ensures work { self.new.work.now ≡ self.old.work.now }
    {
        if self.counted {
            return Ok(true);
        }
        let place = magic_offset(&self.geometry) / 2;
        let magic = self.geometry.magic_of(u32::from(block));
        Ok(self.slot(block, place)? == magic)
    }

    /// The entry of a page, and whether its block has its magic.
    #[tactic(auto, unfolding(image_model::specs::Places::entry_of, image_model::specs::Places::has_magic), using(geometry::proofs::Bounds::magic_fits, crate::proofs::Inside::entry_slot, crate::proofs::Looking::looks_none, crate::proofs::Rows::table_magic))]
    pub(crate) fn entry_and_magic(&mut self, page: u16) -> Result<(u16, bool), Failed>
        requires { IsEntryPage self.old.geometry page }
        ensures cause { OnErr result (Rose (N.faults self.old.nor.now) (N.faults self.new.nor.now)) }
        ensures looks { OnlyLooks self.old self.new }
        ensures entry { N.tells self.old.nor.now → IfOk result (λ seen. seen.0 ≡ the_entry_of self.old.geometry (N.bytes self.old.nor.now) page) }
        ensures magic { N.tells self.old.nor.now →
            IfOk result (λ seen. seen.1 ≡ the_magic self.old.geometry (N.bytes self.old.nor.now) (the_block_of self.old.geometry page)) }
        ensures work { self.new.work.now ≡ self.old.work.now }
    {
        if self.counted {
            let entry = self.entry(page)?;
            return Ok((entry, true));
        }
        let g = self.geometry;
        let block = block_of(&g, page);
        let place = u32::from(page) % g.per_block() - g.lookups();
        let (entry, word) = self.two_slots(block, place, magic_offset(&g) / 2)?;
        Ok((entry, word == g.magic_of(u32::from(block))))
    }

    /// How often a block was erased, as its slot tells it: 0 where the slot holds no count.
    #[tactic(auto, unfolding(image_model::specs::Places::erase_count), using(geometry::proofs::Bounds::magic_fits))]
    pub fn erase_count(&mut self, block: u16) -> Result<u16, Failed>
        requires { block < self.old.geometry.blocks }
        ensures cause { OnErr result (Rose (N.faults self.old.nor.now) (N.faults self.new.nor.now)) }
        ensures looks { OnlyLooks self.old self.new }
        ensures told { N.tells self.old.nor.now → IfOk result (λ count. count ≡ the_erase_count self.old.geometry (N.bytes self.old.nor.now) block) }
        ensures work { self.new.work.now ≡ self.old.work.now }
    {
        let place = count_offset(&self.geometry) / 2;
        Ok(read_count(self.slot(block, place)?))
    }

    // The header of a page, which alone is read.
    #[inline(never)]
    fn peek_header(&mut self, page: u16) -> Result<PageHeader, Failed>
        requires { page < page_count self.old.geometry }
        ensures cause { OnErr result (Rose (N.faults self.old.nor.now) (N.faults self.new.nor.now)) }
        ensures looks { OnlyLooks self.old self.new }
        ensures told { N.tells self.old.nor.now → IfOk result (λ head. head ≡ header_at (page_of self.old.geometry (N.bytes self.old.nor.now) page)) }
        ensures work { self.new.work.now ≡ self.old.work.now }
    {
        let mut head = [0u8; 5];
        self.read_in(page, 0, &mut head)?;
        Ok(header_of(&head))
    }

    /// The header of a page.
    #[inline(always)]
    pub fn header(&mut self, page: u16) -> Result<PageHeader, Failed>
        requires { page < page_count self.old.geometry }
        ensures cause { OnErr result (Rose (N.faults self.old.nor.now) (N.faults self.new.nor.now)) }
        ensures looks { OnlyLooks self.old self.new }
        ensures told { N.tells self.old.nor.now → IfOk result (λ head. head ≡ header_at (page_of self.old.geometry (N.bytes self.old.nor.now) page)) }
        ensures work { self.new.work.now ≡ self.old.work.now }
    {
        if self.has_few() {
            return self.peek_header(page);
        }
        let f = self.bring(page)?;
        Ok(header_of(self.brought(f, page)))
    }

    /// Reads bytes of a page, from its byte `start` on, and no others, unless there is a frame for each page.
    #[tactic(auto, using(crate::proofs::Rows::table_stays, crate::proofs::Behind::behind_reads))]
    pub fn read_in(&mut self, page: u16, start: u32, into: &mut [u8]) -> Result<(), Failed>
        requires page { page < page_count self.old.geometry }
        requires some { 0 < length into.old }
        requires inside { start + length into.old ≤ self.old.geometry.page }
        ensures cause { OnErr result (Rose (N.faults self.old.nor.now) (N.faults self.new.nor.now)) }
        ensures looks { OnlyLooks self.old self.new }
        ensures once { N.device_reads self.new.nor.now ≤ N.device_reads self.old.nor.now + 1 }
        ensures told { N.tells self.old.nor.now →
            OnOk result (into.new ≡ slice_range (page_of self.old.geometry (N.bytes self.old.nor.now) page) start (start + length into.old)) }
        ensures work { self.new.work.now ≡ self.old.work.now }
        ensures small { (k : ℕ) → slice_index into.new k < 256 }
    {
        let g = self.geometry;
        peek_page(&g, self.nor, self.cache, page, start as usize, into)
    }

    /// Reads the two bytes of a page at its byte `start`, as a number with the lower byte first.
    pub fn word_in(&mut self, page: u16, start: u32) -> Result<u16, Failed>
        requires page { page < page_count self.old.geometry }
        requires inside { start + 2 ≤ self.old.geometry.page }
        ensures cause { OnErr result (Rose (N.faults self.old.nor.now) (N.faults self.new.nor.now)) }
        ensures looks { OnlyLooks self.old self.new }
        ensures told { N.tells self.old.nor.now → IfOk result (λ word. word ≡ word_at (page_of self.old.geometry (N.bytes self.old.nor.now) page) start) }
        ensures work { self.new.work.now ≡ self.old.work.now }
    {
        if self.has_few() {
            return self.peek_word(page, start);
        }
        let f = self.bring(page)?;
        Ok(read_word(self.brought(f, page), start as usize))
    }

    /// Gets a page held, and tells its frame, for `brought`.
    #[tactic(auto, using(crate::proofs::Rows::table_stays, crate::proofs::Behind::behind_reads))]
    pub(crate) fn bring(&mut self, page: u16) -> Result<usize, Failed>
        requires { page < page_count self.old.geometry }
        ensures cause { OnErr result (Rose (N.faults self.old.nor.now) (N.faults self.new.nor.now)) }
        ensures looks { OnlyLooks self.old self.new }
        ensures once { N.device_reads self.new.nor.now ≤ N.device_reads self.old.nor.now + 1 }
        ensures below { IfOk result (λ f. f < frame_count self.new.geometry self.new.cache.now) }
        ensures number { IfOk result (λ f. page_in self.new.geometry self.new.cache.now f ≡ page) }
        ensures work { self.new.work.now ≡ self.old.work.now }
    {
        let g = self.geometry;
        bring(&g, self.nor, self.cache, page)
    }

    /// The bytes of a page that is held in the frame `f`.
    #[tactic(auto, unfolding(image_model::specs::Places::page_of))]
    pub(crate) fn brought(&self, f: usize, page: u16) -> &[u8]
        requires page { page < page_count self.now.geometry }
        requires below { f < frame_count self.now.geometry self.now.cache.now }
        requires number { page_in self.now.geometry self.now.cache.now f ≡ page }
        ensures len { length result.now ≡ self.now.geometry.page }
        ensures bytes { N.tells self.now.nor.now → result.now ≡ page_of self.now.geometry (N.bytes self.now.nor.now) page }
        ensures small { (k : ℕ) → slice_index result.now k < 256 }
    {
        let bytes = brought(&self.geometry, self.nor, self.cache, f, page);
        bytes
    }

    /// Gets a page held, for `held`.
    #[tactic(auto, using(crate::proofs::Rows::table_stays, crate::proofs::Behind::behind_reads))]
    pub fn hold(&mut self, page: u16) -> Result<(), Failed>
        requires { page < page_count self.old.geometry }
        ensures cause { OnErr result (Rose (N.faults self.old.nor.now) (N.faults self.new.nor.now)) }
        ensures looks { OnlyLooks self.old self.new }
        ensures once { N.device_reads self.new.nor.now ≤ N.device_reads self.old.nor.now + 1 }
        ensures held { OnOk result (holds self.new.geometry self.new.cache.now page ≡ true) }
        ensures work { self.new.work.now ≡ self.old.work.now }
    {
        let g = self.geometry;
        hold_page(&g, self.nor, self.cache, page)
    }

    /// The bytes of a page that is held.
    #[tactic(auto, unfolding(image_model::specs::Places::page_of))]
    pub fn held(&self, page: u16) -> &[u8]
        requires page { page < page_count self.now.geometry }
        requires holds { holds self.now.geometry self.now.cache.now page ≡ true }
        ensures len { length result.now ≡ self.now.geometry.page }
        ensures bytes { N.tells self.now.nor.now → result.now ≡ page_of self.now.geometry (N.bytes self.now.nor.now) page }
        ensures small { (k : ℕ) → slice_index result.now k < 256 }
    {
        let bytes = held_page(&self.geometry, self.nor, self.cache, page);
        bytes
    }

    /// The page that is being built becomes a copy of a page.
    #[tactic(auto, unfolding(image_model::specs::Places::page_of), using(crate::proofs::Rows::table_stays, crate::proofs::Behind::behind_reads))]
    pub fn load(&mut self, page: u16) -> Result<(), Failed>
        requires { page < page_count self.old.geometry }
        ensures cause { OnErr result (Rose (N.faults self.old.nor.now) (N.faults self.new.nor.now)) }
        ensures looks { OnlyLooks self.old self.new }
        ensures told { N.tells self.old.nor.now →
            OnOk result (take self.old.geometry.page self.new.work.now ≡ page_of self.old.geometry (N.bytes self.old.nor.now) page) }
    {
        let g = self.geometry;
        let len = g.page() as usize;
        read_page(&g, self.nor, self.cache, page, &mut self.work[..len])
    }

    /// Reads a page, for `fetched`. The page that is being built stays.
    #[tactic(auto, unfolding(image_model::specs::Places::page_of), using(crate::proofs::Rows::table_stays, crate::proofs::Behind::behind_reads))]
    pub fn fetch(&mut self, page: u16) -> Result<(), Failed>
        requires { page < page_count self.old.geometry }
        ensures cause { OnErr result (Rose (N.faults self.old.nor.now) (N.faults self.new.nor.now)) }
        ensures looks { OnlyLooks self.old self.new }
        ensures told { N.tells self.old.nor.now → OnOk result
            (slice_range self.new.work.now self.old.geometry.page (2 * self.old.geometry.page) ≡ page_of self.old.geometry (N.bytes self.old.nor.now) page) }
        ensures built { take self.old.geometry.page self.new.work.now ≡ take self.old.geometry.page self.old.work.now }
    {
        let g = self.geometry;
        let len = g.page() as usize;
        read_page(&g, self.nor, self.cache, page, &mut self.work[len..2 * len])
    }

    /// The bytes of the page that was fetched last.
    pub fn fetched(&self) -> &[u8]
        ensures len { length result.now ≡ self.now.geometry.page }
        ensures bytes { result.now ≡ slice_range self.now.work.now self.now.geometry.page (2 * self.now.geometry.page) }
    {
        let len = self.geometry.page() as usize;
        &self.work[len..2 * len]
    }

    /// The bytes of the page that is being built.
    pub fn built(&self) -> &[u8]
        ensures len { length result.now ≡ self.now.geometry.page }
        ensures bytes { result.now ≡ take self.now.geometry.page self.now.work.now }
    {
        let len = self.geometry.page() as usize;
        &self.work[..len]
    }

    /// Whether a page holds 0xFF alone, as after an erase.
    pub fn is_blank(&mut self, page: u16) -> Result<bool, Failed>
        requires { page < page_count self.old.geometry }
        ensures cause { OnErr result (Rose (N.faults self.old.nor.now) (N.faults self.new.nor.now)) }
        ensures looks { OnlyLooks self.old self.new }
        ensures told { N.tells self.old.nor.now → IfOk result (λ blank. blank ≡ the_erased (page_of self.old.geometry (N.bytes self.old.nor.now) page)) }
        ensures built { take self.old.geometry.page self.new.work.now ≡ take self.old.geometry.page self.old.work.now }
    {
        if self.has_few() {
            self.fetch(page)?;
            return Ok(is_erased(self.fetched()));
        }
        let f = self.bring(page)?;
        Ok(is_erased(self.brought(f, page)))
    }

    /// Programs bytes of the volume: bits are cleared, and none is set.
    #[tactic(auto, using(crate::proofs::Behind::behind_program))]
    pub fn program(&mut self, at: u32, from: &[u8]) -> Result<(), Failed>
        requires some { 0 < length from.now }
        requires inside { at + length from.now ≤ self.old.geometry.blocks * self.old.geometry.block }
        ensures cause { OnErr result (Rose (N.faults self.old.nor.now) (N.faults self.new.nor.now)) }
        ensures writes { Writes N.NorState self.old.nor.now self.new.nor.now }
        ensures changes { Changes N.NorState self.old.nor.now self.new.nor.now (HalfProgrammed at from.now) }
        ensures done { N.tells self.old.nor.now → OnOk result (N.bytes self.new.nor.now ≡ programmed (N.bytes self.old.nor.now) at from.now) }
        ensures work { self.new.work.now ≡ self.old.work.now }
        ensures same { IsSameView self.old self.new }
        ensures wrote { self.new.wrote ≡ true }
        ensures rows { self.new.rows.now ≡ self.old.rows.now }
        ensures down { self.new.counted ≡ false }
    {
        let g = self.geometry;
        self.wrote = true;
        self.counted = false;
        program_through(&g, self.nor, self.cache, at, from)
    }

    /// Erases a unit of the volume: its bytes become 0xFF. An erase that was cut, and has changed anything in the unit, doesn't leave
    /// the mark's word in its place.
    pub fn erase(&mut self, unit_ix: u32, mark: Option<Mark>) -> Result<(), Failed>
        requires inside { (unit_ix + 1) * self.old.geometry.phys ≤ self.old.geometry.blocks * self.old.geometry.block }
        requires marked { ForSome mark (λ m. m.at + 2 ≤ self.old.geometry.phys) }
        ensures cause { OnErr result (Rose (N.faults self.old.nor.now) (N.faults self.new.nor.now)) }
        ensures writes { Writes N.NorState self.old.nor.now self.new.nor.now }
        ensures done { N.tells self.old.nor.now →
            OnOk result (N.bytes self.new.nor.now ≡ erased (N.bytes self.old.nor.now) (unit_ix * self.old.geometry.phys) self.old.geometry.phys) }
        ensures half { N.tells self.old.nor.now →
            OnErr result (HalfErased (unit_ix * self.old.geometry.phys) self.old.geometry.phys mark (N.bytes self.old.nor.now) (N.bytes self.new.nor.now)) }
        ensures changes { Changes N.NorState self.old.nor.now self.new.nor.now (InErase N.NorState self.old.nor.now self.new.nor.now unit_ix mark) }
        ensures same { IsSameView self.old self.new }
        ensures wrote { self.new.wrote ≡ true }
        ensures rows { self.new.rows.now ≡ self.old.rows.now }
        ensures down { self.new.counted ≡ false }
    {
        let g = self.geometry;
        self.wrote = true;
        self.counted = false;
        erase_through(&g, self.nor, self.cache, unit_ix, mark)
    }

    /// Programs the page that is being built, from byte `start` to its end, into a page of the volume.
    #[tactic(auto, using(crate::proofs::Behind::behind_program))]
    pub fn program_build(&mut self, page: u16, start: u32) -> Result<(), Failed>
        requires page { page < page_count self.old.geometry }
        requires start { start < self.old.geometry.page }
        ensures cause { OnErr result (Rose (N.faults self.old.nor.now) (N.faults self.new.nor.now)) }
        ensures writes { Writes N.NorState self.old.nor.now self.new.nor.now }
        ensures changes { Changes N.NorState self.old.nor.now self.new.nor.now
            (HalfProgrammed (the_page_start self.old.geometry page + start) (slice_range self.old.work.now start self.old.geometry.page)) }
        ensures done { N.tells self.old.nor.now → OnOk result (N.bytes self.new.nor.now ≡ programmed (N.bytes self.old.nor.now)
            (the_page_start self.old.geometry page + start) (slice_range self.old.work.now start self.old.geometry.page)) }
        ensures work { self.new.work.now ≡ self.old.work.now }
        ensures same { IsSameView self.old self.new }
        ensures wrote { self.new.wrote ≡ true }
        ensures rows { self.new.rows.now ≡ self.old.rows.now }
        ensures down { self.new.counted ≡ false }
    {
        let g = self.geometry;
        let at = page_start(&g, page) + start;
        let end = g.page() as usize;
        self.wrote = true;
        self.counted = false;
        program_part(&g, self.nor, self.cache, at, self.work, start as usize, end)
    }

    /// Programs bytes of a page, from its byte `start` on.
    pub fn program_in(&mut self, page: u16, start: u32, from: &[u8]) -> Result<(), Failed>
        requires page { page < page_count self.old.geometry }
        requires some { 0 < length from.now }
        requires inside { start + length from.now ≤ self.old.geometry.page }
        ensures cause { OnErr result (Rose (N.faults self.old.nor.now) (N.faults self.new.nor.now)) }
        ensures writes { Writes N.NorState self.old.nor.now self.new.nor.now }
        ensures changes { Changes N.NorState self.old.nor.now self.new.nor.now (HalfProgrammed (the_page_start self.old.geometry page + start) from.now) }
        ensures done { N.tells self.old.nor.now →
            OnOk result (N.bytes self.new.nor.now ≡ programmed (N.bytes self.old.nor.now) (the_page_start self.old.geometry page + start) from.now) }
        ensures work { self.new.work.now ≡ self.old.work.now }
        ensures same { IsSameView self.old self.new }
        ensures wrote { self.new.wrote ≡ true }
        ensures rows { self.new.rows.now ≡ self.old.rows.now }
        ensures down { self.new.counted ≡ false }
    {
        let at = page_start(&self.geometry, page) + start;
        self.program(at, from)
    }

    /// Programs the entry of a page.
    pub fn program_entry(&mut self, page: u16, entry: u16) -> Result<(), Failed>
        requires { IsEntryPage self.old.geometry page }
        ensures cause { OnErr result (Rose (N.faults self.old.nor.now) (N.faults self.new.nor.now)) }
        ensures writes { Writes N.NorState self.old.nor.now self.new.nor.now }
        ensures changes { Changes N.NorState self.old.nor.now self.new.nor.now (HalfProgrammed (entry_at self.old.geometry page) (to_le_bytes w16 entry)) }
        ensures done { N.tells self.old.nor.now →
            OnOk result (N.bytes self.new.nor.now ≡ programmed (N.bytes self.old.nor.now) (entry_at self.old.geometry page) (to_le_bytes w16 entry)) }
        ensures work { self.new.work.now ≡ self.old.work.now }
        ensures same { IsSameView self.old self.new }
        ensures wrote { self.new.wrote ≡ true }
        ensures rows { self.new.rows.now ≡ self.old.rows.now }
        ensures down { self.new.counted ≡ false }
    {
        let at = entry_start(&self.geometry, page);
        self.program(at, &entry.to_le_bytes())
    }

    /// The device, the work bytes and the cache bytes.
    pub fn give_back(self) -> (&'b mut N, &'b mut [u8], &'b mut [u8])
        ensures nor { result.0.now ≡ self.entry.nor.now }
        ensures nor_name { result.0.ghost_name ≡ self.entry.nor.ghost_name }
        ensures work_name { result.1.ghost_name ≡ self.entry.work.ghost_name }
        ensures cache { result.2.now ≡ self.entry.cache.now }
        ensures cache_name { result.2.ghost_name ≡ self.entry.cache.ghost_name }
        ensures kept { IsKept N.NorState self.entry.geometry result.0.now result.2.now }
    {
        let View {
            geometry: _,
            nor,
            work,
            rows: _,
            cache,
            wrote: _,
            counted: _,
        } = self;
        (nor, work, cache)
    }
}

impl<'b, B: Board> View<'b, B> {
    ghost use Rattle.std.specs.Prelude.{◌≡◌, ◌++◌, OnOk, OnErr};
    ghost use Rattle.nor_core.specs.Count.{Rose};
    ghost use Rattle.nor_core.specs.Device.{Leaves, Says, InSay};
    ghost use Rattle.flash_view.specs.Same.{IsSameView};

    /// The device says a piece.
    #[tactic(auto, using(crate::proofs::Rows::table_said, crate::proofs::Behind::behind_said))]
    pub fn say(&mut self, piece: &[u8]) -> Result<(), Failed>
        ensures cause { OnErr result (Rose (B.faults self.old.nor.now) (B.faults self.new.nor.now)) }
        ensures says { Says B.NorState self.old.nor.now self.new.nor.now piece.now }
        ensures done { B.tells self.old.nor.now → OnOk result (B.said self.new.nor.now ≡ B.said self.old.nor.now ++ piece.now) }
        ensures cuts { Leaves B.NorState self.old.nor.now self.new.nor.now (InSay B.NorState self.old.nor.now piece.now) }
        ensures same { IsSameView self.old self.new }
        ensures wrote { self.new.wrote ≡ self.old.wrote }
        ensures counted { self.new.counted ≡ self.old.counted }
        ensures rows { self.new.rows.now ≡ self.old.rows.now }
    {
        self.nor.say(piece)
    }
}

// Whether these bytes are 0xFF alone. (Without an early end many bytes are compared at once.)
fn is_erased(bytes: &[u8]) -> bool
    ensures { result ≡ the_erased bytes.now }
{
    let mut least = 0xFF;
    for byte in bytes {
        least = (*byte).min(least);
    }
    least == 0xFF
}

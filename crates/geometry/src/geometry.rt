ghost use Rattle.std.specs.Prelude.{◌≡◌};
ghost use Rattle.geometry.specs.Rules.{IsVolume, pages_in, lookups_in};

use crate::rules::{has_magic_room, is_block, is_page, lookup_pages};
use crate::{GeoErr, MagicKind};

/// The numbers of a volume. Every value of this type meets the rules of `Geometry::new`.
///
/// A volume is `blocks` logical blocks of `block` bytes. A block is a whole number of pages of `page` bytes
/// and of erase units of `phys` bytes. Its first pages are lookup pages, one array of 16-bit slots; the
/// others are its entry pages, one slot each. Pages are numbered through the whole volume from 0.
#[derive(Clone, Copy, Debug)]
pub struct Geometry {
    /// Bytes of a page.
    pub page: u32,
    /// Bytes of a logical block.
    pub block: u32,
    /// Logical blocks of the volume.
    pub blocks: u32,
    /// Bytes of an erase unit of the device.
    pub phys: u32,
    /// Meta bytes of each file.
    pub meta: u32,
    /// What the magic tells.
    pub magic: MagicKind,
    // Pages of a block, and lookup pages of a block: kept, since each place on the device asks for them.
    pages_each: u32,
    lookups_each: u32,
    pub ghost valid: { IsVolume page block blocks phys meta },
    pub ghost kept: { (pages_each ≡ pages_in page block) × (lookups_each ≡ lookups_in page block) },
}

impl Geometry {
    ghost use Rattle.std.specs.Prelude.{◌≡◌, ◌<◌, ◌≤◌, ◌*◌, ◌^◌, IfOk, IfErr, OnOk, Some, None};
    ghost use Rattle.geometry.specs.Numbers.{refusal, write_refusal, IsOf, per_block as per_block_of, lookups as lookups_of, entries as entries_of};
    ghost use Rattle.geometry.specs.Numbers.{body as body_of, head_slots as head_slots_of, span_slots as span_slots_of, page_count, usable as usable_of};
    ghost use Rattle.geometry.specs.Numbers.{scratch_need as scratch_need_of, rows_need as rows_need_of, work_need as work_need_of};
    ghost use Rattle.geometry.specs.Numbers.{cache_need as cache_need_of, check_need as check_need_of, length_mark as length_mark_of, right_magic};

    /// A volume of these numbers: `page`, `block` and `phys` in bytes, `meta` in bytes for each file. Of
    /// several rules that are broken, the first in the order of `GeoErr` is answered.
    pub fn new(
        page: u32,
        block: u32,
        blocks: u32,
        phys: u32,
        meta: u32,
        magic: MagicKind,
    ) -> Result<Geometry, GeoErr>
        ensures refused { IfErr result (λ e. refusal page block blocks phys meta ≡ Some e) }
        ensures accepted { OnOk result (refusal page block blocks phys meta ≡ None) }
        ensures numbers { IfOk result (λ g. IsOf g page block blocks phys meta magic) }
    {
        if !is_page(page) {
            return Err(GeoErr::BadPage);
        }
        if !is_block(page, block, phys) {
            return Err(GeoErr::BadBlock);
        }
        if blocks < 3 {
            return Err(GeoErr::TooFewBlocks);
        }
        if u64::from(blocks) * u64::from(block / page) > 65535 {
            return Err(GeoErr::TooManyPages);
        }
        if !has_magic_room(page, block) {
            return Err(GeoErr::NoRoomForMagic);
        }
        if meta > 64 {
            return Err(GeoErr::BadMeta);
        }
        Ok(Geometry {
            page,
            block,
            blocks,
            phys,
            meta,
            magic,
            pages_each: block / page,
            lookups_each: lookup_pages(page, block),
        })
    }

    /// Whether the volume may be written, and not only read.
    pub fn writable(&self) -> Result<(), GeoErr>
        ensures refused { IfErr result (λ e. write_refusal self.now ≡ Some e) }
        ensures accepted { OnOk result (write_refusal self.now ≡ None) }
    {
        if self.usable() > 32766 {
            return Err(GeoErr::TooManyUsable);
        }
        if self.blocks < 4 {
            return Err(GeoErr::TooFewToWrite);
        }
        Ok(())
    }

    /// Bytes of a page.
    pub fn page(&self) -> u32
        ensures { result ≡ self.now.page }
    {
        self.page
    }

    /// Bytes of a logical block.
    pub fn block(&self) -> u32
        ensures { result ≡ self.now.block }
    {
        self.block
    }

    /// Logical blocks of the volume.
    pub fn blocks(&self) -> u32
        ensures { result ≡ self.now.blocks }
    {
        self.blocks
    }

    /// Bytes of an erase unit.
    pub fn phys(&self) -> u32
        ensures { result ≡ self.now.phys }
    {
        self.phys
    }

    /// Meta bytes of each file, at most 64.
    pub fn meta(&self) -> u32
        ensures { result ≡ self.now.meta }
    {
        self.meta
    }

    /// Pages of a block, lookup pages included; at least 2.
    #[tactic(auto, unfolding(crate::specs::Numbers::per_block))]
    pub fn per_block(&self) -> u32
        ensures count { result ≡ per_block_of self.now }
        ensures few { result ≤ 65535 }
        ensures some { 2 ≤ result }
    {
        self.pages_each
    }

    /// Lookup pages of a block; at least 1.
    #[tactic(auto, unfolding(crate::specs::Numbers::lookups))]
    pub fn lookups(&self) -> u32
        ensures count { result ≡ lookups_of self.now }
        ensures some { 1 ≤ result }
        ensures fits { result * self.now.page < 2 ^ 32 }
    {
        self.lookups_each
    }

    /// Entry pages of a block; at least 1.
    #[tactic(auto, using(crate::proofs::Bounds::some_entries))]
    pub fn entries(&self) -> u32
        ensures count { result ≡ entries_of self.now }
        ensures some { 1 ≤ result }
        ensures few { result ≤ 65535 }
    {
        self.per_block() - self.lookups()
    }

    /// File bytes that a data page holds.
    pub fn body(&self) -> u32
        ensures { result ≡ body_of self.now }
    {
        self.page - 5
    }

    /// Data pages that a header page names.
    pub fn head_slots(&self) -> u32
        ensures { result ≡ head_slots_of self.now }
    {
        (self.page - 45 - self.meta) / 2
    }

    /// Data pages that a further index page names.
    pub fn span_slots(&self) -> u32
        ensures { result ≡ span_slots_of self.now }
    {
        (self.page - 8) / 2
    }

    /// Pages of the volume, lookup pages included; at most 65,535.
    pub fn pages(&self) -> u32
        ensures count { result ≡ page_count self.now }
        ensures few { result ≤ 65535 }
    {
        self.blocks * self.per_block()
    }

    /// Entry pages of the volume.
    pub fn usable(&self) -> u32
        ensures count { result ≡ usable_of self.now }
        ensures few { result ≤ 65535 }
    {
        self.blocks * self.entries()
    }

    /// Bytes of work for pages, notes on pages and the bits of ids: the first ones of what is lent for work.
    pub fn scratch_need(&self) -> u32
        ensures need { result ≡ scratch_need_of self.now }
        ensures few { result < 2 ^ 20 }
    {
        4 * self.page + 4 * self.per_block() + self.usable() / 8 + 1
    }

    /// Bytes of work for the counts of all blocks, behind those of `scratch_need`: 16 a block.
    pub fn rows_need(&self) -> u32
        ensures need { result ≡ rows_need_of self.now }
        ensures few { result < 2 ^ 20 }
    {
        16 * self.blocks
    }

    /// Bytes of work that a mounted volume needs.
    pub fn work_need(&self) -> u32
        ensures { result ≡ work_need_of self.now }
    {
        self.scratch_need() + self.rows_need()
    }

    /// Bytes of cache that a mounted volume needs: a frame of one page.
    pub fn cache_need(&self) -> u32
        ensures { result ≡ cache_need_of self.now }
    {
        self.page + 8
    }

    /// Bytes of check that a mounted volume needs.
    pub fn check_need(&self) -> u32
        ensures { result ≡ check_need_of self.now }
    {
        self.pages() + 8192
    }

    /// The magic of a block that belongs to this volume. Its top bit is never set, so that an erased slot
    /// is no magic.
    pub fn magic_of(&self, block_ix: u32) -> u16
        requires { block_ix < self.now.blocks }
        ensures magic { result ≡ right_magic self.now block_ix }
        ensures below { result < 0x8000 }
    {
        (0x0529 ^ self.page ^ self.length_mark(block_ix)) as u16
    }

    // How far a block is from the volume's end, where the magic tells it.
    fn length_mark(&self, block_ix: u32) -> u32
        requires { block_ix < self.now.blocks }
        ensures mark { result ≡ length_mark_of self.now.magic self.now.blocks block_ix }
        ensures below { result < 2 ^ 15 }
    {
        match self.magic {
            MagicKind::Plain => 0,
            MagicKind::Length => self.blocks - block_ix,
        }
    }
}

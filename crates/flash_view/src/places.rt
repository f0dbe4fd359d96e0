ghost use Rattle.std.specs.Prelude.{◌≡◌, ◌+◌, ◌*◌, ◌/◌, ◌%◌, ◌<◌, ◌≤◌};
ghost use Rattle.std.specs.Bool.{OnTrue, OnFalse};
ghost use Rattle.geometry.specs.Numbers.{page_count, per_block, lookups, entries, slots};
ghost use Rattle.flash_view.specs.Places.{IsEntryPage, page_start as the_page_start};
ghost use Rattle.image_model.specs.Places.{block_of as the_block_of, entry_at, is_entry_page as the_entry_page};

use geometry::Geometry;
use page_layout::entry_offset;

// The first byte of a page.
#[tactic(auto, using(geometry::proofs::Bounds::page_inside))]
pub(crate) fn page_start(g: &Geometry, page: u16) -> u32
    requires { page < page_count g.now }
    ensures start { result ≡ the_page_start g.now page }
    ensures inside { result + g.now.page ≤ g.now.blocks * g.now.block }
{
    u32::from(page) * g.page()
}

// The first byte of a page's entry.
#[tactic(auto, using(crate::proofs::Inside::entry_inside))]
pub(crate) fn entry_start(g: &Geometry, page: u16) -> u32
    requires { IsEntryPage g.now page }
    ensures start { result ≡ entry_at g.now page }
    ensures inside { result + 2 ≤ g.now.blocks * g.now.block }
{
    let page = u32::from(page);
    let slot = page % g.per_block() - g.lookups();
    page / g.per_block() * g.block() + entry_offset(slot)
}

// Which of the lookup pages of a block has slot `i`. (Where there is one alone, no division is needed.)
#[tactic(auto, using(crate::proofs::SlotHeld::lookup_below))]
pub(crate) fn lookup_of(g: &Geometry, i: u32) -> u32
    requires { i < slots g.now }
    ensures lookup { result ≡ 2 * i / g.now.page }
    ensures below { result < lookups g.now }
{
    if g.lookups() == 1 {
        0
    } else {
        2 * i / g.page()
    }
}

// Lookup page `k` of a block.
pub(crate) fn lookup_page(g: &Geometry, block: u16, k: u32) -> u16
    requires block { block < g.now.blocks }
    requires lookup { k < lookups g.now }
    ensures page { result ≡ block * per_block g.now + k }
    ensures below { result < page_count g.now }
{
    (u32::from(block) * g.per_block() + k) as u16
}

/// Whether a page of the volume is one of its entry pages, and no lookup page.
#[tactic(auto, unfolding(image_model::specs::Places::is_entry_page, geometry::specs::Numbers::page_count, geometry::specs::Numbers::per_block, geometry::specs::Numbers::lookups))]
pub fn is_entry_page(g: &Geometry, page: u16) -> bool
    requires { page < page_count g.now }
    ensures entry { OnTrue result (IsEntryPage g.now page) }
    ensures lookup { OnFalse result (page % per_block g.now < lookups g.now) }
    ensures is { result ≡ the_entry_page g.now page }
{
    u32::from(page) % g.per_block() >= g.lookups()
}

/// The block of a page.
#[tactic(auto, using(geometry::proofs::Bounds::block_below))]
pub fn block_of(g: &Geometry, page: u16) -> u16
    requires { page < page_count g.now }
    ensures block { result ≡ the_block_of g.now page }
    ensures below { result < g.now.blocks }
{
    (u32::from(page) / g.per_block()) as u16
}

/// The page of a block's entry `i`, counted from 0.
#[tactic(auto, using(crate::proofs::Inside::entry_page_is))]
pub fn entry_page(g: &Geometry, block: u16, i: u32) -> u16
    requires block { block < g.now.blocks }
    requires entry { i < entries g.now }
    ensures entry { IsEntryPage g.now result }
    ensures place { result ≡ block * per_block g.now + lookups g.now + i }
{
    (u32::from(block) * g.per_block() + g.lookups() + i) as u16
}

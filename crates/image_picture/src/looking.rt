// What a device holds at a place.
ghost use Rattle.std.specs.Prelude.{◌≡◌, ◌+◌, ◌-◌, ◌*◌, ◌/◌, ◌%◌, ◌<◌, ◌≤◌, length, IfOk, OnErr, IsTrue, true, ◌==◌, ◌&&◌, if◌then◌else◌};
ghost use Rattle.geometry.specs.Numbers.{slots, page_count, per_block, lookups};
ghost use Rattle.nor_core.specs.Count.{Rose};
ghost use Rattle.nor_core.specs.Flash.{word_at};
ghost use Rattle.nor_core.specs.Device.{OnlyReads};
ghost use Rattle.image_model.specs.Places.{slot_of, page_of, entry_of, has_magic as the_magic, block_of as the_block_of, is_entry_page as the_entry_page};
ghost use Rattle.image_model.specs.Live.{live_at};
ghost use Rattle.image_model.specs.Tidy.{is_erased as the_erased};
ghost use Rattle.page_layout.specs.Layout.{header_at, is_finished};
ghost use Rattle.image_picture.specs.Signs.{sign_at, sign_of_live};

use crate::signs::Sign;
use geometry::Geometry;
use nor_core::{Failed, Nor, NorState};
use page_layout::{DELETED, FREE, PageHeader, count_offset, header_of, magic_offset, read_word};

// The number in the two bytes at a byte.
#[tactic(auto, using(crate::proofs::Inside::word_read))]
fn word_on<N: Nor>(nor: &mut N, at: u32) -> Result<u16, Failed>
    requires { at + 2 ≤ N.size nor.old }
    ensures cause { OnErr result (Rose (N.faults nor.old) (N.faults nor.new)) }
    ensures reads { OnlyReads N.NorState nor.old nor.new }
    ensures told { N.tells nor.old → IfOk result (λ word. word ≡ word_at (N.bytes nor.old) at) }
{
    let mut bytes = [0; 2];
    nor.read(at, &mut bytes)?;
    Ok(read_word(&bytes, 0))
}

// The first byte of slot `i` of the lookup pages of a block, counted from 0.
#[tactic(auto, using(crate::proofs::Inside::slot_inside))]
fn slot_start(g: &Geometry, block: u32, i: u32) -> u32
    requires block { block < g.now.blocks }
    requires slot { i < slots g.now }
    ensures start { result ≡ block * g.now.block + 2 * i }
    ensures inside { result + 2 ≤ g.now.blocks * g.now.block }
{
    block * g.block() + 2 * i
}

// What that slot holds.
#[tactic(auto, unfolding(image_model::specs::Places::slot_of))]
fn slot_on<N: Nor>(nor: &mut N, g: &Geometry, block: u32, i: u32) -> Result<u16, Failed>
    requires volume { g.now.blocks * g.now.block ≤ N.size nor.old }
    requires block { block < g.now.blocks }
    requires slot { i < slots g.now }
    ensures cause { OnErr result (Rose (N.faults nor.old) (N.faults nor.new)) }
    ensures reads { OnlyReads N.NorState nor.old nor.new }
    ensures told { N.tells nor.old → IfOk result (λ word. word ≡ slot_of g.now (N.bytes nor.old) block i) }
{
    word_on(nor, slot_start(g, block, i))
}

/// The slot of a block's erase count, as it stands.
#[tactic(auto, using(geometry::proofs::Bounds::magic_fits))]
pub(crate) fn count_on<N: Nor>(nor: &mut N, g: &Geometry, block: u32) -> Result<u16, Failed>
    requires volume { g.now.blocks * g.now.block ≤ N.size nor.old }
    requires block { block < g.now.blocks }
    ensures cause { OnErr result (Rose (N.faults nor.old) (N.faults nor.new)) }
    ensures reads { OnlyReads N.NorState nor.old nor.new }
    ensures told { N.tells nor.old → IfOk result (λ raw. raw ≡ slot_of g.now (N.bytes nor.old) block (slots g.now - 1)) }
{
    slot_on(nor, g, block, count_offset(g) / 2)
}

/// Whether a block has its magic.
#[tactic(auto, unfolding(image_model::specs::Places::has_magic), using(geometry::proofs::Bounds::magic_fits))]
pub(crate) fn magic_on<N: Nor>(nor: &mut N, g: &Geometry, block: u32) -> Result<bool, Failed>
    requires volume { g.now.blocks * g.now.block ≤ N.size nor.old }
    requires block { block < g.now.blocks }
    ensures cause { OnErr result (Rose (N.faults nor.old) (N.faults nor.new)) }
    ensures reads { OnlyReads N.NorState nor.old nor.new }
    ensures told { N.tells nor.old → IfOk result (λ has. has ≡ the_magic g.now (N.bytes nor.old) block) }
{
    let word = slot_on(nor, g, block, magic_offset(g) / 2)?;
    Ok(word == g.magic_of(block))
}

// The lookup entry of a page.
#[tactic(auto, unfolding(image_model::specs::Places::entry_of), using(image_model::specs::Within::entry_slot, image_model::specs::Within::block_number))]
fn entry_on<N: Nor>(nor: &mut N, g: &Geometry, p: u32) -> Result<u16, Failed>
    requires volume { g.now.blocks * g.now.block ≤ N.size nor.old }
    requires page { p < page_count g.now }
    requires behind { lookups g.now ≤ p % per_block g.now }
    ensures cause { OnErr result (Rose (N.faults nor.old) (N.faults nor.new)) }
    ensures reads { OnlyReads N.NorState nor.old nor.new }
    ensures told { N.tells nor.old → IfOk result (λ entry. entry ≡ entry_of g.now (N.bytes nor.old) p) }
{
    slot_on(nor, g, block_of(g, p), p % g.per_block() - g.lookups())
}

/// The block of a page.
#[tactic(auto, using(geometry::proofs::Bounds::block_below))]
pub(crate) fn block_of(g: &Geometry, p: u32) -> u32
    requires { p < page_count g.now }
    ensures block { result ≡ the_block_of g.now p }
    ensures below { result < g.now.blocks }
{
    p / g.per_block()
}

// The first byte of a page.
#[tactic(auto, using(geometry::proofs::Bounds::page_inside))]
fn page_start(g: &Geometry, p: u32) -> u32
    requires { p < page_count g.now }
    ensures start { result ≡ p * g.now.page }
    ensures inside { result + g.now.page ≤ g.now.blocks * g.now.block }
{
    p * g.page()
}

// The header of a page.
#[tactic(auto, using(crate::proofs::Inside::page_header))]
fn header_on<N: Nor>(nor: &mut N, g: &Geometry, p: u32) -> Result<PageHeader, Failed>
    requires volume { g.now.blocks * g.now.block ≤ N.size nor.old }
    requires page { p < page_count g.now }
    ensures cause { OnErr result (Rose (N.faults nor.old) (N.faults nor.new)) }
    ensures reads { OnlyReads N.NorState nor.old nor.new }
    ensures told { N.tells nor.old → IfOk result (λ head. head ≡ header_at (page_of g.now (N.bytes nor.old) p)) }
{
    let mut bytes = [0; 5];
    nor.read(page_start(g, p), &mut bytes)?;
    Ok(header_of(&bytes))
}

// Whether these bytes are 0xFF alone.
fn is_erased(bytes: &[u8]) -> bool
    ensures { result ≡ the_erased bytes.now }
{
    bytes.iter().all(|b| *b == 0xFF)
}

// Whether a page is erased.
#[tactic(auto, unfolding(image_model::specs::Places::page_of))]
fn blank_on<N: Nor>(nor: &mut N, g: &Geometry, p: u32, work: &mut [u8]) -> Result<bool, Failed>
    requires volume { g.now.blocks * g.now.block ≤ N.size nor.old }
    requires page { p < page_count g.now }
    requires work { 4096 ≤ length work.old }
    ensures cause { OnErr result (Rose (N.faults nor.old) (N.faults nor.new)) }
    ensures reads { OnlyReads N.NorState nor.old nor.new }
    ensures told { N.tells nor.old → IfOk result (λ blank. blank ≡ the_erased (page_of g.now (N.bytes nor.old) p)) }
{
    let page = &mut work[..g.page() as usize];
    nor.read(page_start(g, p), page)?;
    Ok(is_erased(page))
}

// Whether a page lies behind the lookup pages of its block.
#[tactic(auto, unfolding(image_model::specs::Places::is_entry_page, geometry::specs::Numbers::page_count, geometry::specs::Numbers::per_block, geometry::specs::Numbers::lookups))]
fn is_entry_page(g: &Geometry, p: u32) -> bool
    requires { p < page_count g.now }
    ensures is { result ≡ the_entry_page g.now p }
    ensures behind { IsTrue result → lookups g.now ≤ p % per_block g.now }
{
    p % g.per_block() >= g.lookups()
}

// Whether a page is live that has this header, where it is known whether its block has its magic.
fn is_live(has: bool, entry: u16, head: &PageHeader) -> bool
    ensures { result ≡ (has && (entry == head.now.id) && is_finished head.now) }
{
    has && entry == head.id && head.is_finished()
}

// What a page is whose entry is neither free nor deleted: live, or none of the kinds.
#[tactic(auto, using(crate::proofs::Told::sign_live, crate::proofs::Told::sign_dead))]
fn live_on<N: Nor>(nor: &mut N, g: &Geometry, p: u32, entry: u16, has: bool) -> Result<Sign, Failed>
    requires volume { g.now.blocks * g.now.block ≤ N.size nor.old }
    requires page { p < page_count g.now }
    requires behind { the_entry_page g.now p ≡ true }
    ensures cause { OnErr result (Rose (N.faults nor.old) (N.faults nor.new)) }
    ensures reads { OnlyReads N.NorState nor.old nor.new }
    ensures told { N.tells nor.old → entry ≡ entry_of g.now (N.bytes nor.old) p → has ≡ the_magic g.now (N.bytes nor.old) (the_block_of g.now p)
        → IfOk result (λ sign. sign ≡ sign_of_live (live_at g.now (N.bytes nor.old) p)) }
{
    let head = header_on(nor, g, p)?;
    if is_live(has, entry, &head) {
        Ok(Sign::Live(head))
    } else {
        Ok(Sign::Neither)
    }
}

// What a page with a free entry is.
fn blank_sign(blank: bool) -> Sign
    ensures { result ≡ (if blank then Sign.Free else Sign.Neither) }
{
    if blank { Sign::Free } else { Sign::Neither }
}

/// What a page is, where it is known whether its block has its magic.
#[tactic(auto, using(nor_core::proofs::Cuts::reads_none, nor_core::proofs::Cuts::reads_then, crate::proofs::Told::sign_lookup, crate::proofs::Told::sign_deleted, crate::proofs::Told::sign_blank, crate::proofs::Told::sign_used))]
pub(crate) fn sign_on<N: Nor>(
    nor: &mut N,
    g: &Geometry,
    p: u32,
    has: bool,
    work: &mut [u8],
) -> Result<Sign, Failed>
    requires volume { g.now.blocks * g.now.block ≤ N.size nor.old }
    requires page { p < page_count g.now }
    requires work { 4096 ≤ length work.old }
    ensures cause { OnErr result (Rose (N.faults nor.old) (N.faults nor.new)) }
    ensures reads { OnlyReads N.NorState nor.old nor.new }
    ensures told { N.tells nor.old → has ≡ the_magic g.now (N.bytes nor.old) (the_block_of g.now p) →
        IfOk result (λ sign. sign ≡ sign_at g.now (N.bytes nor.old) p) }
{
    if !is_entry_page(g, p) {
        return Ok(Sign::Lookup);
    }
    let entry = entry_on(nor, g, p)?;
    if entry == DELETED {
        return Ok(Sign::Deleted);
    }
    if entry == FREE {
        let blank = blank_on(nor, g, p, work)?;
        return Ok(blank_sign(blank));
    }
    live_on(nor, g, p, entry, has)
}

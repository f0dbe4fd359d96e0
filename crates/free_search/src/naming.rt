ghost use Rattle.std.specs.Prelude.{◌≡◌, ◌+◌, ◌-◌, ◌*◌, ◌/◌, ◌<◌, ◌≤◌, length, true, IfOk};
ghost use Rattle.geometry.specs.Numbers.{usable, per_block, lookups, entries};
ghost use Rattle.image_model.specs.Places.{has_magic as the_magic};
ghost use Rattle.flash_view.specs.Places.{IsEntryPage};
ghost use Rattle.flash_view.specs.Looks.{Looks};
ghost use Rattle.free_search.specs.Ids.{bits_at};
ghost use Rattle.free_search.specs.Naming.{IsNamingWithin, NamingOf, Scanned, ScannedTo, IsIndexEntry, AreSlots, LacksIndex, first_entry};

use crate::ids::{clear_bits, least_unnoted, note_head};
use flash_view::{View, entry_page, is_named};
use nor_core::{Failed, Nor, NorState};
use page_layout::{FREE, INDEX_BIT, header_of, slot_between};

/// What the header pages tell of a name that is to be given.
#[derive(Clone, Copy, Debug, PartialEq, Eq)]
pub enum Naming {
    /// A header page has it.
    Taken,
    /// None has it; the least id from 1 on without a header page, if there is one.
    Free(Option<u16>),
}

// Whether a page is a live header page with the name, by its entry, which is one of index pages; the id of another live header
// page is noted.
#[tactic(auto, using(flash_view::proofs::Looking::looks_then))]
fn note_page<N: Nor>(
    v: &mut View<'_, N>,
    page: u16,
    entry: u16,
    name: &[u8],
) -> Result<bool, Failed>
    requires { IsEntryPage v.old.geometry page }
    ensures looks { Looks v.old v.new result (λ g image x. IsIndexEntry g image page entry → Scanned g image (bits_at g v.old.work.now) name.now page →
        ScannedTo g image (bits_at g v.new.work.now) name.now (page + 1) x) }
{
    v.hold(page)?;
    let head = header_of(v.held(page));
    if entry != head.id {
        return Ok(false);
    }
    if !head.is_finished() {
        return Ok(false);
    }
    if head.span == 0 && is_named(v.held(page), name) {
        return Ok(true);
    }
    note_head(v, &head);
    Ok(false)
}

// The same of a block's entries from `start` on, whose slots are these bytes.
#[tactic(auto, using(flash_view::proofs::Looking::looks_then))]
fn scan_slots<N: Nor>(
    v: &mut View<'_, N>,
    block: u16,
    start: u32,
    bytes: &[u8],
    name: &[u8],
) -> Result<bool, Failed>
    requires block { block < v.old.geometry.blocks }
    requires few { start + length bytes.now / 2 ≤ entries v.old.geometry }
    ensures looks { Looks v.old v.new result (λ g image x. AreSlots g image bytes.now block start (length bytes.now / 2) →
        Scanned g image (bits_at g v.old.work.now) name.now (first_entry g block + start) →
        ScannedTo g image (bits_at g v.new.work.now) name.now (first_entry g block + start + length bytes.now / 2) x) }
{
    let to = bytes.len() / 2;
    let mut from = 0;
    'slots: while let Some((i, entry)) = slot_between(bytes, from, to, INDEX_BIT, FREE - 1) {
        let page = entry_page(&v.geometry, block, start + i as u32);
        if note_page(v, page, entry, name)? {
            return Ok(true);
        }
        from = i + 1;
    }
    Ok(false)
}

// The slots that are copied at a time: all of a lookup page of 256 bytes.
const PART: u32 = 128;

// The same of so many entries of a block from `start` on, whose slots stand in its lookup page `k` and are copied once.
#[tactic(auto, using(flash_view::proofs::Looking::looks_then))]
fn scan_part<N: Nor>(
    v: &mut View<'_, N>,
    block: u16,
    k: u32,
    start: u32,
    count: u32,
    name: &[u8],
) -> Result<bool, Failed>
    requires block { block < v.old.geometry.blocks }
    requires lookup { k < lookups v.old.geometry }
    requires low { k * (v.old.geometry.page / 2) ≤ start }
    requires high { start + count ≤ k * (v.old.geometry.page / 2) + v.old.geometry.page / 2 }
    requires few { start + count ≤ entries v.old.geometry }
    requires some { 0 < count }
    requires part { count ≤ 128 }
    ensures looks { Looks v.old v.new result (λ g image x. the_magic g image block ≡ true → Scanned g image (bits_at g v.old.work.now) name.now
        (first_entry g block + start) → ScannedTo g image (bits_at g v.new.work.now) name.now (first_entry g block + start + count) x) }
{
    let g = v.geometry;
    let page = (u32::from(block) * g.per_block() + k) as u16;
    let mut part = [0u8; 2 * PART as usize];
    let bytes = &mut part[..2 * count as usize];
    v.read_in(page, 2 * (start - k * (g.page() / 2)), bytes)?;
    scan_slots(v, block, start, bytes, name)
}

// Whether a block is known to have no live index page: by its row, where the table of counts stands, or since it lacks its magic.
#[tactic(auto, using(flash_view::proofs::Looking::looks_none))]
fn lacks_index<N: Nor>(v: &mut View<'_, N>, block: u16) -> Result<bool, Failed>
    requires { block < v.old.geometry.blocks }
    ensures looks { Looks v.old v.new result (λ g image. LacksIndex g image block) }
    ensures work { v.new.work.now ≡ v.old.work.now }
{
    if let Some(row) = v.row(block) {
        return Ok(row.index_live == 0);
    }
    Ok(!v.has_magic(block)?)
}

// Whether a header page of a block has the name; the ids of those before it are noted.
#[tactic(auto, using(flash_view::proofs::Looking::looks_then))]
fn scan_block<N: Nor>(v: &mut View<'_, N>, block: u16, name: &[u8]) -> Result<bool, Failed>
    requires { block < v.old.geometry.blocks }
    ensures looks { Looks v.old v.new result (λ g image x. Scanned g image (bits_at g v.old.work.now) name.now (block * per_block g) →
        ScannedTo g image (bits_at g v.new.work.now) name.now ((block + 1) * per_block g) x) }
{
    let g = v.geometry;
    let slots = g.page() / 2;
    if lacks_index(v, block)? {
        return Ok(false);
    }
    let mut at = 0;
    'parts: while at < g.entries() {
        let k = at / slots;
        let end = g.entries().min(k * slots + slots).min(at + PART);
        if scan_part(v, block, k, at, end - at, name)? {
            return Ok(true);
        }
        at = end;
    }
    Ok(false)
}

/// Whether a header page has that name, and if none has, the least id that is free, in one walk over the header pages: lookup
/// pages are copied part by part, and each index page is looked at once.
#[tactic(auto, using(flash_view::proofs::Looking::looks_then))]
pub fn name_or_id<N: Nor>(v: &mut View<'_, N>, name: &[u8]) -> Result<Naming, Failed>
    ensures looks { Looks v.old v.new result (λ g image. NamingOf g image name.now) }
    ensures inside { IfOk result (IsNamingWithin (usable v.old.geometry)) }
{
    clear_bits(v);
    for block in 0..v.geometry.blocks() as u16 {
        if scan_block(v, block, name)? {
            return Ok(Naming::Taken);
        }
    }
    Ok(Naming::Free(least_unnoted(v)))
}

ghost use Rattle.std.specs.Prelude.{◌≡◌, ◌==◌, ℕ, ◌+◌, ◌*◌, ◌/◌, ◌<◌, ◌≤◌, IfOk, IfSome, find, length, not, drop, Some};
ghost use Rattle.std.specs.List.{range_with_len};
ghost use Rattle.page_layout.specs.Ids.{bit_of};
ghost use Rattle.free_search.specs.Ids.{bits_at, head_id, unused_id, Notes};
ghost use Rattle.geometry.specs.Numbers.{usable, per_block};
ghost use Rattle.flash_view.specs.Looks.{Looks};
ghost use Rattle.flash_view.specs.Same.{OnlyLooks};

use flash_view::View;
use geometry::Geometry;
use nor_core::{Failed, Nor, NorState};
use page_layout::{FREE, INDEX_BIT, PageHeader, is_noted, note_id};

// Clears every bit.
fn clear(bits: &mut [u8])
    ensures len { length bits.new ≡ length bits.old }
    ensures none { (k : ℕ) → bit_of bits.new k ≡ 0 }
{
    for byte in bits.iter_mut() {
        *byte = 0;
    }
}

// The least id from 1 to the most whose bit is clear.
fn first_unnoted(bits: &[u8], most: u32) -> Option<u16>
    requires bits { most / 8 < length bits.now }
    requires few { most ≤ 65535 }
    ensures inside { IfSome result (λ id. (1 ≤ id) × (id ≤ most)) }
    ensures first { result ≡ find (λ id. not (bit_of bits.now id == 1)) (range_with_len 1 most) }
{
    for id in 1..most + 1 {
        if !is_noted(bits, id as u16) {
            return Some(id as u16);
        }
    }
    None
}

// Where the bits of ids stand among the work bytes: behind the pages and the notes on pages.
fn bits_start(g: &Geometry) -> usize
    ensures { result ≡ 4 * g.now.page + 4 * per_block g.now }
{
    (4 * g.page() + 4 * g.per_block()) as usize
}

/// Notes the id of a header page, if it is one of those that are looked for.
pub(crate) fn note_head<N: Nor>(v: &mut View<'_, N>, head: &PageHeader)
    ensures looks { OnlyLooks v.old v.new }
    ensures noted { Notes (usable v.old.geometry) (head_id head.now) (bits_at v.old.geometry v.old.work.now) (bits_at v.old.geometry v.new.work.now) }
{
    let id = head.object();
    if head.span == 0 && u32::from(id) <= v.geometry.usable() {
        let start = bits_start(&v.geometry);
        let work = &mut *v.work;
        note_id(&mut work[start..], id);
    }
}

/// Clears the bits of the ids that are looked for.
pub(crate) fn clear_bits<N: Nor>(v: &mut View<'_, N>)
    ensures looks { OnlyLooks v.old v.new }
    ensures none { (id : ℕ) → id ≤ usable v.old.geometry → bit_of (bits_at v.old.geometry v.new.work.now) id ≡ 0 }
{
    let start = bits_start(&v.geometry);
    let end = start + v.geometry.usable() as usize / 8 + 1;
    let work = &mut *v.work;
    clear(&mut work[start..end]);
}

/// The least id from 1 to the number of entry pages whose bit is clear.
pub(crate) fn least_unnoted<N: Nor>(v: &View<'_, N>) -> Option<u16>
    ensures inside { IfSome result (λ id. (1 ≤ id) × (id ≤ usable v.now.geometry)) }
    ensures first { result ≡ find (λ id. not (bit_of (bits_at v.now.geometry v.now.work.now) id == 1)) (range_with_len 1 (usable v.now.geometry)) }
{
    let start = bits_start(&v.geometry);
    first_unnoted(&v.work[start..], v.geometry.usable())
}

/// The least id from 1 to the number of entry pages that has no header page, or None where there is none.
#[tactic(auto, using(flash_view::proofs::Looking::looks_then))]
pub fn free_id<N: Nor>(v: &mut View<'_, N>) -> Result<Option<u16>, Failed>
    ensures looks { Looks v.old v.new result (λ g image found. found ≡ unused_id g image) }
    ensures inside { IfOk result (λ found. IfSome found (λ id. (1 ≤ id) × (id ≤ usable v.old.geometry))) }
{
    clear_bits(v);
    let mut at = 0;
    'heads: while let Some((page, head)) = v.next_live(at, INDEX_BIT, FREE - 1)? {
        note_head(v, &head);
        at = u32::from(page) + 1;
    }
    Ok(least_unnoted(v))
}

ghost use Rattle.std.specs.Prelude.{◌≡◌, ℕ, List, ◌+◌, ◌*◌, ◌/◌, ◌%◌, ◌<◌, ◌≤◌, ◌^◌, length, true, take, Some, OnOk, IfOk, IfSome, OnErr};
ghost use Rattle.geometry.specs.Numbers.{page_count};
ghost use Rattle.nor_core.specs.Count.{Rose};
ghost use Rattle.image_model.specs.Live.{live_at, own};
ghost use Rattle.image_model.specs.Files.{index_page, index_span, slot_at};
ghost use Rattle.flash_view.specs.Same.{OnlyLooks};
ghost use Rattle.ix_map.specs.Rows.{AreRow};
ghost use Rattle.ix_map.specs.Maps.{IsHeadAt, AreTold, Fills};

use crate::map::IxMap;
use crate::rows::row_from;
use file_read::size_in;
use flash_view::View;
use nor_core::{Failed, Nor, NorState};
use page_layout::{data_pages, entry_place, wide_index_span};

// The index page that has the entry of a span, where there is one; that of the first spans is the header page.
fn index_for<N: Nor>(
    v: &mut View<'_, N>,
    id: u16,
    header: u16,
    span: u32,
) -> Result<Option<u16>, Failed>
    requires { header < page_count v.old.geometry }
    ensures cause { OnErr result (Rose (N.faults v.old.nor.now) (N.faults v.new.nor.now)) }
    ensures looks { OnlyLooks v.old v.new }
    ensures inside { IfOk result (λ page. IfSome page (λ p. p < page_count v.old.geometry)) }
    ensures told { N.tells v.old.nor.now → index_page v.old.geometry (own (live_at v.old.geometry (N.bytes v.old.nor.now)) id) 0 ≡ Some header →
        IfOk result (λ page. page ≡ index_page v.old.geometry (own (live_at v.old.geometry (N.bytes v.old.nor.now)) id) (index_span v.old.geometry span)) }
{
    let which = wide_index_span(&v.geometry, span);
    if which == 0 {
        return Ok(Some(header));
    }
    v.find_span(id, which)
}

// The numbers of spans that stand in one row, from a span on, by the index page that has their entries.
fn read_row<N: Nor>(
    v: &mut View<'_, N>,
    index: Option<u16>,
    span: u32,
    numbers: &mut [u8],
) -> Result<(), Failed>
    requires index { IfSome index (λ p. p < page_count v.old.geometry) }
    requires some { 0 < length numbers.old }
    requires within { slot_at v.old.geometry span + length numbers.old ≤ v.old.geometry.page }
    ensures cause { OnErr result (Rose (N.faults v.old.nor.now) (N.faults v.new.nor.now)) }
    ensures looks { OnlyLooks v.old v.new }
    ensures told { N.tells v.old.nor.now → OnOk result (AreRow v.old.geometry (N.bytes v.old.nor.now) index span numbers.new) }
{
    match index {
        Some(page) => {
            let place = entry_place(&v.geometry, span);
            v.read_in(page, place, numbers)
        }
        None => {
            numbers.fill(0xFF);
            Ok(())
        }
    }
}

// Fills in the numbers of some spans that stand in one row, as many as there is room for, and answers how many.
#[tactic(auto, using(flash_view::proofs::Looking::looks_then))]
fn fill_row<N: Nor>(
    v: &mut View<'_, N>,
    id: u16,
    header: u16,
    span: u32,
    numbers: &mut [u8],
) -> Result<usize, Failed>
    requires header { header < page_count v.old.geometry }
    requires some { 2 ≤ length numbers.old }
    ensures cause { OnErr result (Rose (N.faults v.old.nor.now) (N.faults v.new.nor.now)) }
    ensures looks { OnlyLooks v.old v.new }
    ensures more { IfOk result (λ n. (0 < n) × (2 * n ≤ length numbers.old)) }
    ensures told { N.tells v.old.nor.now → (head : List ℕ) → IsHeadAt v.old.geometry (N.bytes v.old.nor.now) id header head →
        IfOk result (λ n. AreTold v.old.geometry (own (live_at v.old.geometry (N.bytes v.old.nor.now)) id) head span (take (2 * n) numbers.new)) }
{
    let g = v.geometry;
    let count = (row_from(&g, span) as usize).min(numbers.len() / 2);
    let index = index_for(v, id, header, span)?;
    read_row(v, index, span, &mut numbers[..2 * count])?;
    Ok(count)
}

// Fills in the numbers of all spans from one on for which there is room.
#[tactic(auto, using(flash_view::proofs::Looking::looks_then))]
fn fill_spans<N: Nor>(
    v: &mut View<'_, N>,
    id: u16,
    header: u16,
    span: u32,
    numbers: &mut [u8],
) -> Result<(), Failed>
    requires header { header < page_count v.old.geometry }
    requires few { span + length numbers.old < 2 ^ 31 }
    requires even { length numbers.old % 2 ≡ 0 }
    ensures cause { OnErr result (Rose (N.faults v.old.nor.now) (N.faults v.new.nor.now)) }
    ensures looks { OnlyLooks v.old v.new }
    ensures told { N.tells v.old.nor.now → (head : List ℕ) → IsHeadAt v.old.geometry (N.bytes v.old.nor.now) id header head →
        OnOk result (AreTold v.old.geometry (own (live_at v.old.geometry (N.bytes v.old.nor.now)) id) head span numbers.new) }
{
    let mut done = 0;
    while 2 * done < numbers.len() {
        done += fill_row(v, id, header, span + done as u32, &mut numbers[2 * done..])?;
    }
    Ok(())
}

/// The map of the file of an id, from a span on, in lent bytes: its index pages are read, and no data page. None where the id has no header
/// page. What it tells is right where the id has a whole file, as each id with a header page has in a tidy image.
#[tactic(auto, using(flash_view::proofs::Looking::looks_then))]
pub fn fill<N: Nor>(
    v: &mut View<'_, N>,
    id: u16,
    first: u16,
    numbers: &mut [u8],
) -> Result<Option<IxMap>, Failed>
    ensures cause { OnErr result (Rose (N.faults v.old.nor.now) (N.faults v.new.nor.now)) }
    ensures looks { OnlyLooks v.old v.new }
    ensures numbers { IfOk result (λ found. IfSome found (λ map. (map.used ≡ true) × (map.id ≡ id) × (map.first ≡ first))) }
    ensures told { N.tells v.old.nor.now → IfOk result (Fills v.old.geometry (N.bytes v.old.nor.now) id numbers.new) }
{
    let Some(header) = v.find_index(id, 0)? else {
        return Ok(None);
    };
    let map = IxMap {
        used: true,
        id,
        first,
        size: size_in(v, header)?,
    };
    let there = data_pages(&v.geometry, map.size).saturating_sub(u32::from(first));
    let count = 2 * there.min(map.spans(numbers)) as usize;
    fill_spans(v, id, header, u32::from(first), &mut numbers[..count])?;
    numbers[count..].fill(0xFF);
    Ok(Some(map))
}

// Bytes that begin a data page whose entry a further index page has.
ghost use Rattle.std.specs.Prelude.{◌≡◌, ◌+◌, ◌-◌, ◌/◌, ◌%◌, ◌<◌, ◌≤◌, OnErr, IfOk, IfSome, length};
ghost use Rattle.geometry.specs.Numbers.{body, head_slots, span_slots, page_count};
ghost use Rattle.image_model.specs.Tidy.{IsTidy};
ghost use Rattle.nor_core.specs.Count.{Rose};
ghost use Rattle.flash_view.specs.Places.{IsEntryPage};
ghost use Rattle.flash_view.specs.Same.{OnlyLooks};
ghost use Rattle.flash_view.specs.Steps.{Stepped, stopped};
ghost use Rattle.table_model.specs.Table.{File};
ghost use Rattle.file_write.specs.Appends.{IsSlot, naming_at, appending_at};

use crate::beside::{add_data, add_index};
use flash_view::{StepErr, View};
use nor_core::{Failed, Nor, NorState};
use page_layout::{entry_place, index_span};
use page_put::name_slot;
use page_renew::{Edit, Found, renew_from, seek_index};

// The further index page with the entry of a data span in a tidy image, whose two bytes it reads.
#[tactic(auto, using(flash_view::proofs::Looking::looks_then))]
pub(crate) fn find_slot<N: Nor>(
    v: &mut View<'_, N>,
    id: u16,
    span: u16,
) -> Result<Option<u16>, Failed>
    requires { head_slots v.old.geometry ≤ span }
    ensures cause { OnErr result (Rose (N.faults v.old.nor.now) (N.faults v.new.nor.now)) }
    ensures looks { OnlyLooks v.old v.new }
    ensures inside { IfOk result (λ found. IfSome found (λ page. page < page_count v.old.geometry)) }
    ensures told { N.tells v.old.nor.now → IsTidy v.old.geometry (N.bytes v.old.nor.now) →
        IfOk result (λ found. IsSlot v.old.geometry (N.bytes v.old.nor.now) id span found) }
{
    let g = v.geometry;
    let Some(page) = seek_index(v, id, u32::from(index_span(&g, span)))? else {
        return Ok(None);
    };
    let mut bytes = [0u8; 2];
    v.read_in(page, entry_place(&g, u32::from(span)), &mut bytes)?;
    Ok(Some(page))
}

// Adds bytes to a file whose further index page `index` has the entry of the new data page.
pub(crate) fn append_there<N: Nor>(
    v: &mut View<'_, N>,
    id: u16,
    found: Found,
    index: u16,
    span: u16,
    end: u32,
    from: &[u8],
) -> Result<(), StepErr>
    requires header { IsEntryPage v.old.geometry found.header }
    requires id { (1 ≤ id) × (id ≤ 0x7FFE) }
    requires index { index < page_count v.old.geometry }
    requires fits { length from.now ≤ body v.old.geometry }
    requires end { (end ≡ found.size + length from.now) × (end < 0xFFFFFFFF) }
    requires whole { found.size % body v.old.geometry ≡ 0 }
    requires span { span ≡ found.size / body v.old.geometry }
    requires far { head_slots v.old.geometry ≤ span }
    ensures step { (f : File) → Stepped stopped v.old v.new result (naming_at id found.header found.size index from.now f) }
    ensures few { N.device_writes v.new.nor.now ≤ N.device_writes v.old.nor.now + 11 }
{
    let page = add_data(v, id, span, from)?;
    name_slot(v, index, span, page)?;
    renew_from(v, id, found.header, Edit::Grow(end))
}

// Adds bytes to a file whose new data page is the first of a further index page.
pub(crate) fn append_first<N: Nor>(
    v: &mut View<'_, N>,
    id: u16,
    found: Found,
    span: u16,
    end: u32,
    from: &[u8],
) -> Result<(), StepErr>
    requires header { IsEntryPage v.old.geometry found.header }
    requires id { (1 ≤ id) × (id ≤ 0x7FFE) }
    requires fits { length from.now ≤ body v.old.geometry }
    requires end { (end ≡ found.size + length from.now) × (end < 0xFFFFFFFF) }
    requires whole { found.size % body v.old.geometry ≡ 0 }
    requires span { span ≡ found.size / body v.old.geometry }
    requires far { head_slots v.old.geometry ≤ span }
    requires first { (span - head_slots v.old.geometry) % span_slots v.old.geometry ≡ 0 }
    ensures step { (f : File) → Stepped stopped v.old v.new result (appending_at id found.header found.size from.now f) }
    ensures few { N.device_writes v.new.nor.now ≤ N.device_writes v.old.nor.now + 14 }
{
    let further = index_span(&v.geometry, span);
    let page = add_data(v, id, span, from)?;
    add_index(v, id, further, span, page)?;
    renew_from(v, id, found.header, Edit::Grow(end))
}

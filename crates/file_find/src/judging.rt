ghost use Rattle.std.specs.Prelude.{◌≡◌, ◌+◌, ◌-◌, ◌*◌, ◌/◌, ◌<◌, ◌≤◌, ◌^◌, min, List, ℕ, OnErr, IfOk, take};
ghost use Rattle.geometry.specs.Numbers.{page_count, head_slots, span_slots};
ghost use Rattle.nor_core.specs.Count.{Rose};
ghost use Rattle.image_model.specs.Places.{page_of};
ghost use Rattle.image_model.specs.Headers.{name_of as the_name_of, size_of};
ghost use Rattle.image_model.specs.Live.{live_at, own};
ghost use Rattle.image_model.specs.Files.{judged};
ghost use Rattle.flash_view.specs.Same.{OnlyLooks};
ghost use Rattle.file_find.specs.Judging.{missing_entry, missing_between, cause_of};

use flash_view::View;
use geometry::Geometry;
use image_model::Damage;
use nor_core::{Failed, Nor, NorState};
use page_layout::{
    FURTHER_SLOTS_AT, data_pages, file_size, further_pages, head_slots_at, name_of, read_word,
};
use table_model::Name;

// The first of the spans from `first` on and below `end` that has no data page, where their page numbers stand in
// an index page from byte `at` on. (The index page is copied once.)
#[tactic(auto, using(flash_view::proofs::Looking::looks_then, flash_view::proofs::Looking::built_then))]
fn missing_in<N: Nor>(
    v: &mut View<'_, N>,
    id: u16,
    index: u16,
    at: u32,
    first: u32,
    end: u32,
) -> Result<Option<u32>, Failed>
    requires index { index < page_count v.old.geometry }
    requires inside { at + 2 * (end - first) ≤ v.old.geometry.page }
    ensures cause { OnErr result (Rose (N.faults v.old.nor.now) (N.faults v.new.nor.now)) }
    ensures looks { OnlyLooks v.old v.new }
    ensures told { N.tells v.old.nor.now → IfOk result (λ span.
        span ≡ missing_entry (own (live_at v.old.geometry (N.bytes v.old.nor.now)) id) (page_of v.old.geometry (N.bytes v.old.nor.now) index) at first end) }
    ensures built { take v.old.geometry.page v.new.work.now ≡ take v.old.geometry.page v.old.work.now }
{
    v.fetch(index)?;
    for span in first..end {
        let page = read_word(v.fetched(), (at + 2 * (span - first)) as usize);
        if !v.is_data_of(page, id, span)? {
            return Ok(Some(span));
        }
    }
    Ok(None)
}

// The same for the spans that further index page `k` names, counted from 0, and that are below `spans`.
#[tactic(auto, using(flash_view::proofs::Looking::looks_then, flash_view::proofs::Looking::built_then))]
fn missing_of<N: Nor>(
    v: &mut View<'_, N>,
    id: u16,
    k: u32,
    spans: u32,
) -> Result<Option<u32>, Failed>
    requires some { head_slots v.old.geometry + k * span_slots v.old.geometry < spans }
    requires few { spans < 2 ^ 26 }
    ensures cause { OnErr result (Rose (N.faults v.old.nor.now) (N.faults v.new.nor.now)) }
    ensures looks { OnlyLooks v.old v.new }
    ensures told { N.tells v.old.nor.now →
        IfOk result (λ span. (head : List ℕ) → span ≡ missing_between v.old.geometry (own (live_at v.old.geometry (N.bytes v.old.nor.now)) id) head (head_slots
        v.old.geometry + k * span_slots v.old.geometry) (min (head_slots v.old.geometry + k * span_slots v.old.geometry + span_slots v.old.geometry) spans)) }
    ensures built { take v.old.geometry.page v.new.work.now ≡ take v.old.geometry.page v.old.work.now }
{
    let g = v.geometry;
    let first = g.head_slots() + k * g.span_slots();
    let end = (first + g.span_slots()).min(spans);
    match v.find_span(id, k + 1)? {
        Some(index) => missing_in(v, id, index, FURTHER_SLOTS_AT, first, end),
        None => Ok(Some(first)),
    }
}

// The same for all spans that further index pages name, and that are below `spans`.
#[tactic(auto, using(flash_view::proofs::Looking::looks_then, flash_view::proofs::Looking::built_then))]
fn missing_behind<N: Nor>(v: &mut View<'_, N>, id: u16, spans: u32) -> Result<Option<u32>, Failed>
    requires { spans < 2 ^ 26 }
    ensures cause { OnErr result (Rose (N.faults v.old.nor.now) (N.faults v.new.nor.now)) }
    ensures looks { OnlyLooks v.old v.new }
    ensures told { N.tells v.old.nor.now → IfOk result (λ span. (head : List ℕ) →
        span ≡ missing_between v.old.geometry (own (live_at v.old.geometry (N.bytes v.old.nor.now)) id) head (head_slots v.old.geometry) spans) }
    ensures built { take v.old.geometry.page v.new.work.now ≡ take v.old.geometry.page v.old.work.now }
{
    for k in 0..further_pages(&v.geometry, spans) {
        let missing = missing_of(v, id, k, spans)?;
        if missing.is_some() {
            return Ok(missing);
        }
    }
    Ok(None)
}

// The first of the spans below `spans` that has no data page, by this header page.
#[tactic(auto, using(flash_view::proofs::Looking::looks_then, flash_view::proofs::Looking::built_then))]
fn first_missing<N: Nor>(
    v: &mut View<'_, N>,
    id: u16,
    header: u16,
    spans: u32,
) -> Result<Option<u32>, Failed>
    requires header { header < page_count v.old.geometry }
    requires few { spans < 2 ^ 26 }
    ensures cause { OnErr result (Rose (N.faults v.old.nor.now) (N.faults v.new.nor.now)) }
    ensures looks { OnlyLooks v.old v.new }
    ensures told { N.tells v.old.nor.now → IfOk result (λ span. span ≡ missing_between v.old.geometry (own (live_at v.old.geometry (N.bytes v.old.nor.now)) id)
        (page_of v.old.geometry (N.bytes v.old.nor.now) header) 0 spans) }
    ensures built { take v.old.geometry.page v.new.work.now ≡ take v.old.geometry.page v.old.work.now }
{
    let g = v.geometry;
    let near = g.head_slots().min(spans);
    match missing_in(v, id, header, head_slots_at(&g), 0, near)? {
        Some(span) => Ok(Some(span)),
        None => missing_behind(v, id, spans),
    }
}

/// Why the file of an id with this header page isn't whole, where it isn't: its name is none, or the first data
/// span below its size has no data page. The size may be any; each further index page is looked for once.
#[tactic(auto, using(flash_view::proofs::Looking::looks_then, flash_view::proofs::Looking::built_then))]
pub fn judge<N: Nor>(v: &mut View<'_, N>, id: u16, header: u16) -> Result<Option<Damage>, Failed>
    requires { header < page_count v.old.geometry }
    ensures cause { OnErr result (Rose (N.faults v.old.nor.now) (N.faults v.new.nor.now)) }
    ensures looks { OnlyLooks v.old v.new }
    ensures told { N.tells v.old.nor.now → IfOk result (λ cause. cause ≡ cause_of
        (judged v.old.geometry (own (live_at v.old.geometry (N.bytes v.old.nor.now)) id) id (page_of v.old.geometry (N.bytes v.old.nor.now) header))) }
    ensures built { take v.old.geometry.page v.new.work.now ≡ take v.old.geometry.page v.old.work.now }
{
    let (name, size) = head_of(v, header)?;
    if name.is_none() {
        return Ok(Some(Damage::BadName));
    }
    let spans = data_pages(&v.geometry, size);
    Ok(match first_missing(v, id, header, spans)? {
        Some(span) => Some(Damage::Missing(span)),
        None => None,
    })
}

// The name and the size in bytes that a header page tells.
fn head_of<N: Nor>(v: &mut View<'_, N>, header: u16) -> Result<(Option<Name>, u32), Failed>
    requires { header < page_count v.old.geometry }
    ensures cause { OnErr result (Rose (N.faults v.old.nor.now) (N.faults v.new.nor.now)) }
    ensures looks { OnlyLooks v.old v.new }
    ensures named { N.tells v.old.nor.now → IfOk result (λ head. head.0 ≡ the_name_of (page_of v.old.geometry (N.bytes v.old.nor.now) header)) }
    ensures sized { N.tells v.old.nor.now → IfOk result (λ head. head.1 ≡ size_of (page_of v.old.geometry (N.bytes v.old.nor.now) header)) }
    ensures built { take v.old.geometry.page v.new.work.now ≡ take v.old.geometry.page v.old.work.now }
{
    v.fetch(header)?;
    let head = v.fetched();
    Ok((name_of(head), file_size(head)))
}

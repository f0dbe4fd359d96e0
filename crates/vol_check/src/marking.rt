ghost use Rattle.std.specs.Prelude.{◌≡◌, ℕ, ◌+◌, ◌-◌, ◌*◌, ◌<◌, ◌≤◌, ◌^◌, ◌⊎◌, length, slice_index, is_some, None, OnErr, OnOk, IfOk};
ghost use Rattle.geometry.specs.Numbers.{page_count, check_need, head_slots, span_slots, ceil};
ghost use Rattle.nor_core.specs.Count.{Rose};
ghost use Rattle.table_model.specs.Room.{data_pages as the_data_pages};
ghost use Rattle.image_model.specs.Places.{page_of};
ghost use Rattle.image_model.specs.Headers.{size_of};
ghost use Rattle.image_model.specs.Live.{live_at, own};
ghost use Rattle.image_model.specs.Files.{index_page, first_missing};
ghost use Rattle.flash_view.specs.Same.{OnlyLooks};
ghost use Rattle.vol_check.specs.Culls.{IsSettled};
ghost use Rattle.vol_check.specs.Needed.{AddsMarks, IsNamed, OfHead, OfFurther, OfFirst, OfFile, OfHeaded, TellsListed, MarksListed, HasFurthers, MarksWanted};
ghost use Rattle.vol_check.specs.Needed.{MarksUses};
ghost use Rattle.vol_check.specs.Noted.{IsIndexPage};

use file_find::survey as mark_heads;
use flash_view::View;
use nor_core::{Failed, Nor, NorState};
use page_layout::{
    FREE, FURTHER_SLOTS_AT, INDEX_BIT, PageHeader, data_pages, file_size, further_pages,
    head_slots_at, read_word,
};

/// The least mark of a page that a file of the table needs, as header pages have it.
pub(crate) const NEEDED: u8 = 3;

/// Sets so many bytes to 0.
pub(crate) fn clear(bytes: &mut [u8], count: usize)
    requires { count ≤ length bytes.old }
    ensures { (k : ℕ) → k < count → slice_index bytes.new k ≡ 0 }
{
    bytes[..count].fill(0);
}

// Marks a page, where it is one of so many pages.
fn mark(marks: &mut [u8], pages: u32, page: u16)
    requires { pages ≤ length marks.old }
    ensures { AddsMarks pages (λ p. p ≡ page) marks.old marks.new }
{
    if u32::from(page) < pages {
        marks[usize::from(page)] = NEEDED;
    }
}

// Marks the pages whose numbers stand in an index page, so many of them from byte `at` on.
fn mark_named(marks: &mut [u8], pages: u32, index: &[u8], at: usize, count: usize)
    requires room { pages ≤ length marks.old }
    requires inside { at + 2 * count ≤ length index.now }
    ensures { AddsMarks pages (IsNamed index.now at count) marks.old marks.new }
{
    for slot in 0..count {
        mark(marks, pages, read_word(index, at + 2 * slot));
    }
}

// Marks a header page and the pages that it names: how many data pages its file has.
#[tactic(auto, using(flash_view::proofs::Looking::looks_then))]
fn mark_head<N: Nor>(v: &mut View<'_, N>, marks: &mut [u8], header: u16) -> Result<u32, Failed>
    requires room { page_count v.old.geometry ≤ length marks.old }
    requires header { header < page_count v.old.geometry }
    ensures cause { OnErr result (Rose (N.faults v.old.nor.now) (N.faults v.new.nor.now)) }
    ensures looks { OnlyLooks v.old v.new }
    ensures few { IfOk result (λ spans. spans < 2 ^ 26) }
    ensures spans { N.tells v.old.nor.now →
        IfOk result (λ spans. spans ≡ the_data_pages v.old.geometry (size_of (page_of v.old.geometry (N.bytes v.old.nor.now) header))) }
    ensures told { N.tells v.old.nor.now → OnOk result
        (AddsMarks (page_count v.old.geometry) (OfHead v.old.geometry (page_of v.old.geometry (N.bytes v.old.nor.now) header) header) marks.old marks.new) }
{
    let g = v.geometry;
    let pages = g.pages();
    v.fetch(header)?;
    let head = v.fetched();
    let spans = data_pages(&g, file_size(head));
    let near = g.head_slots().min(spans);
    mark(marks, pages, header);
    mark_named(
        marks,
        pages,
        head,
        head_slots_at(&g) as usize,
        near as usize,
    );
    Ok(spans)
}

// Marks a further index page and the pages that it names, so many of them.
#[tactic(auto, using(flash_view::proofs::Looking::looks_then))]
fn mark_index<N: Nor>(
    v: &mut View<'_, N>,
    marks: &mut [u8],
    index: u16,
    count: u32,
) -> Result<(), Failed>
    requires room { page_count v.old.geometry ≤ length marks.old }
    requires index { index < page_count v.old.geometry }
    requires few { count ≤ span_slots v.old.geometry }
    ensures cause { OnErr result (Rose (N.faults v.old.nor.now) (N.faults v.new.nor.now)) }
    ensures looks { OnlyLooks v.old v.new }
    ensures told { N.tells v.old.nor.now → OnOk result (AddsMarks (page_count v.old.geometry)
        (λ p. p ≡ index ⊎ IsNamed (page_of v.old.geometry (N.bytes v.old.nor.now) index) 8 count p) marks.old marks.new) }
{
    let pages = v.geometry.pages();
    v.fetch(index)?;
    mark(marks, pages, index);
    mark_named(
        marks,
        pages,
        v.fetched(),
        FURTHER_SLOTS_AT as usize,
        count as usize,
    );
    Ok(())
}

// Marks further index page `k` of an id, counted from 0, and the pages that it names for spans below `spans`: whether
// there is that index page.
#[tactic(auto, using(flash_view::proofs::Looking::looks_then))]
fn mark_further<N: Nor>(
    v: &mut View<'_, N>,
    marks: &mut [u8],
    id: u16,
    k: u32,
    spans: u32,
) -> Result<bool, Failed>
    requires room { page_count v.old.geometry ≤ length marks.old }
    requires some { head_slots v.old.geometry + k * span_slots v.old.geometry < spans }
    requires few { spans < 2 ^ 26 }
    ensures cause { OnErr result (Rose (N.faults v.old.nor.now) (N.faults v.new.nor.now)) }
    ensures looks { OnlyLooks v.old v.new }
    ensures there { N.tells v.old.nor.now →
        IfOk result (λ there. there ≡ is_some (index_page v.old.geometry (own (live_at v.old.geometry (N.bytes v.old.nor.now)) id) (k + 1))) }
    ensures told { N.tells v.old.nor.now →
        OnOk result (AddsMarks (page_count v.old.geometry) (OfFurther v.old.geometry (N.bytes v.old.nor.now) id k spans) marks.old marks.new) }
{
    let g = v.geometry;
    let Some(index) = v.find_span(id, k + 1)? else {
        return Ok(false);
    };
    let behind = spans - g.head_slots() - k * g.span_slots();
    mark_index(v, marks, index, g.span_slots().min(behind))?;
    Ok(true)
}

// Marks the further index pages of an id and the pages that they name for spans below `spans`. It ends where there is
// none, so the number of spans may be any.
#[tactic(auto, using(flash_view::proofs::Looking::looks_then))]
fn mark_furthers<N: Nor>(
    v: &mut View<'_, N>,
    marks: &mut [u8],
    id: u16,
    spans: u32,
) -> Result<(), Failed>
    requires room { page_count v.old.geometry ≤ length marks.old }
    requires few { spans < 2 ^ 26 }
    ensures cause { OnErr result (Rose (N.faults v.old.nor.now) (N.faults v.new.nor.now)) }
    ensures looks { OnlyLooks v.old v.new }
    ensures told { N.tells v.old.nor.now → HasFurthers v.old.geometry (N.bytes v.old.nor.now) id spans →
        OnOk result (AddsMarks (page_count v.old.geometry) (OfFirst (λ k p. OfFurther v.old.geometry (N.bytes v.old.nor.now) id k spans p)
        (ceil (spans - head_slots v.old.geometry) (span_slots v.old.geometry))) marks.old marks.new) }
{
    for k in 0..further_pages(&v.geometry, spans) {
        if !mark_further(v, marks, id, k, spans)? {
            return Ok(());
        }
    }
    Ok(())
}

// Marks the pages that the file of an id with this header page needs, where it is whole.
#[tactic(auto, using(flash_view::proofs::Looking::looks_then))]
fn mark_file<N: Nor>(
    v: &mut View<'_, N>,
    marks: &mut [u8],
    id: u16,
    header: u16,
) -> Result<(), Failed>
    requires room { page_count v.old.geometry ≤ length marks.old }
    requires header { header < page_count v.old.geometry }
    ensures cause { OnErr result (Rose (N.faults v.old.nor.now) (N.faults v.new.nor.now)) }
    ensures looks { OnlyLooks v.old v.new }
    ensures told { N.tells v.old.nor.now →
        first_missing v.old.geometry (own (live_at v.old.geometry (N.bytes v.old.nor.now)) id) (page_of v.old.geometry (N.bytes v.old.nor.now) header) ≡ None →
        OnOk result (AddsMarks (page_count v.old.geometry) (OfFile v.old.geometry (N.bytes v.old.nor.now) id header) marks.old marks.new) }
{
    let spans = mark_head(v, marks, header)?;
    mark_furthers(v, marks, id, spans)
}

// Marks the pages that the file of a live index page with this header needs, if it is a header page with a mark so great.
#[tactic(auto, using(flash_view::proofs::Looking::looks_then))]
fn mark_headed<N: Nor>(
    v: &mut View<'_, N>,
    marks: &mut [u8],
    least: u8,
    page: u16,
    head: PageHeader,
) -> Result<(), Failed>
    requires room { page_count v.old.geometry ≤ length marks.old }
    requires page { page < page_count v.old.geometry }
    ensures cause { OnErr result (Rose (N.faults v.old.nor.now) (N.faults v.new.nor.now)) }
    ensures looks { OnlyLooks v.old v.new }
    ensures told { N.tells v.old.nor.now → TellsListed v.old.geometry (N.bytes v.old.nor.now) least page (slice_index marks.old page) →
        IsIndexPage v.old.geometry (N.bytes v.old.nor.now) page head →
        OnOk result (AddsMarks (page_count v.old.geometry) (OfHeaded v.old.geometry (N.bytes v.old.nor.now) page) marks.old marks.new) }
{
    if head.span != 0 {
        return Ok(());
    }
    if marks[usize::from(page)] < least {
        return Ok(());
    }
    mark_file(v, marks, head.object(), page)
}

// Marks the pages that files need: those of header pages with a mark so great. Marks that are made don't count as such, since a
// file needs no header page but its own.
#[tactic(auto, using(flash_view::proofs::Looking::looks_then))]
fn mark_files<N: Nor>(v: &mut View<'_, N>, marks: &mut [u8], least: u8) -> Result<(), Failed>
    requires room { page_count v.old.geometry ≤ length marks.old }
    requires least { least ≤ 3 }
    ensures cause { OnErr result (Rose (N.faults v.old.nor.now) (N.faults v.new.nor.now)) }
    ensures looks { OnlyLooks v.old v.new }
    ensures told { N.tells v.old.nor.now → MarksListed v.old.geometry (N.bytes v.old.nor.now) least marks.old → OnOk result
        (AddsMarks (page_count v.old.geometry) (OfFirst (OfHeaded v.old.geometry (N.bytes v.old.nor.now)) (page_count v.old.geometry)) marks.old marks.new) }
{
    let mut at = 0;
    'pages: while let Some((page, head)) = v.next_live(at, INDEX_BIT, FREE - 1)? {
        mark_headed(v, marks, least, page, head)?;
        at = u32::from(page) + 1;
    }
    Ok(())
}

/// Marks the pages that a file of the table needs, a byte for each page of the volume, in one pass over the header pages. No
/// page may be doubled and nothing damaged. Of pages that aren't live the marks tell nothing.
pub(crate) fn mark_wanted<N: Nor>(v: &mut View<'_, N>, marks: &mut [u8]) -> Result<(), Failed>
    requires room { page_count v.old.geometry ≤ length marks.old }
    ensures cause { OnErr result (Rose (N.faults v.old.nor.now) (N.faults v.new.nor.now)) }
    ensures looks { OnlyLooks v.old v.new }
    ensures told { N.tells v.old.nor.now → IsSettled v.old.geometry (N.bytes v.old.nor.now) →
        OnOk result (MarksWanted v.old.geometry (N.bytes v.old.nor.now) marks.new) }
{
    clear(marks, v.geometry.pages() as usize);
    mark_files(v, marks, 0)
}

/// Marks the pages that a file of the table needs in any image, with 3 or more: the header pages are judged first, and then
/// those of files of the table tell the others. Of pages that aren't live the marks tell nothing.
#[tactic(auto, using(flash_view::proofs::Looking::looks_then))]
pub(crate) fn mark_uses<N: Nor>(v: &mut View<'_, N>, marks: &mut [u8]) -> Result<(), Failed>
    requires room { check_need v.old.geometry ≤ length marks.old }
    ensures cause { OnErr result (Rose (N.faults v.old.nor.now) (N.faults v.new.nor.now)) }
    ensures looks { OnlyLooks v.old v.new }
    ensures told { N.tells v.old.nor.now → OnOk result (MarksUses v.old.geometry (N.bytes v.old.nor.now) marks.new) }
{
    mark_heads(v, marks)?;
    mark_files(v, marks, NEEDED)
}

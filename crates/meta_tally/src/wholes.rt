// Whether a file has all its data pages.
ghost use Rattle.std.specs.Prelude.{◌≡◌, ℕ, ◌+◌, ◌-◌, ◌*◌, ◌/◌, ◌<◌, ◌≤◌, length, find, is_none, not, true};
ghost use Rattle.std.specs.List.{range_with_len};
ghost use Rattle.geometry.specs.Numbers.{per_block, head_slots, span_slots};
ghost use Rattle.image_model.specs.Places.{IsImage};
ghost use Rattle.image_model.specs.Live.{live_at as the_live_at, own as the_own};
ghost use Rattle.image_model.specs.Files.{is_index, index_page as the_index_page, entry_number as the_entry_number, data_page as the_data_page};
ghost use Rattle.image_model.specs.Files.{first_missing as the_first_missing};
ghost use Rattle.meta_tally.specs.Wholes.{IsKnown};

use geometry::Geometry;
use page_layout::{INDEX_BIT, data_pages, read_word};
use plain_image::{own, size_of};

// The index page of a span, once it was looked for.
#[derive(Clone, Copy)]
pub(crate) struct Known {
    pub span: u32,
    pub page: Option<u32>,
}

// Whether a page is an index page of that id and span.
fn is_index_page(g: &Geometry, image: &[u8], id: u16, span: u32, p: u32) -> bool
    requires { IsImage g.now image.now }
    ensures { result ≡ is_index (the_own (the_live_at g.now image.now) id p) span }
{
    match own(g, image, id, p) {
        Some(page) => read_word(page, 0) >= INDEX_BIT && u32::from(read_word(page, 2)) == span,
        None => false,
    }
}

// Whether the lookup entry of page `i` of a block is that of index pages of an id.
fn is_entry(g: &Geometry, image: &[u8], id: u16, block: u32, i: u32) -> bool
    requires image { IsImage g.now image.now }
    requires block { block < g.now.blocks }
    requires page { i < per_block g.now }
    requires id { id < 0x8000 }
    ensures { (span : ℕ) → is_index (the_own (the_live_at g.now image.now) id (block * per_block g.now + i)) span ≡ true → result ≡ true }
{
    if i < g.lookups() {
        return false;
    }
    let at = block as usize * g.block as usize + 2 * (i - g.lookups()) as usize;
    read_word(image, at) == INDEX_BIT + id
}

// Whether page `i` of a block is an index page of that id and span. Most pages aren't read: their lookup entries are others.
fn is_sought(g: &Geometry, image: &[u8], id: u16, span: u32, block: u32, i: u32) -> bool
    requires image { IsImage g.now image.now }
    requires block { block < g.now.blocks }
    requires page { i < per_block g.now }
    requires id { id < 0x8000 }
    ensures { result ≡ is_index (the_own (the_live_at g.now image.now) id (block * per_block g.now + i)) span }
{
    if !is_entry(g, image, id, block, i) {
        return false;
    }
    is_index_page(g, image, id, span, block * g.per_block() + i)
}

// The first index page of that id and span in a block.
fn index_in(g: &Geometry, image: &[u8], id: u16, span: u32, block: u32) -> Option<u32>
    requires image { IsImage g.now image.now }
    requires block { block < g.now.blocks }
    requires id { id < 0x8000 }
    ensures { result ≡ find (λ p. is_index (the_own (the_live_at g.now image.now) id p) span) (range_with_len (block * per_block g.now) (per_block g.now)) }
{
    for i in 0..g.per_block() {
        if is_sought(g, image, id, span, block, i) {
            return Some(block * g.per_block() + i);
        }
    }
    None
}

// The index page of a span.
fn find_index(g: &Geometry, image: &[u8], id: u16, span: u32) -> Option<u32>
    requires image { IsImage g.now image.now }
    requires id { id < 0x8000 }
    ensures { result ≡ the_index_page g.now (the_own (the_live_at g.now image.now) id) span }
{
    for block in 0..g.blocks {
        if let Some(p) = index_in(g, image, id, span, block) {
            return Some(p);
        }
    }
    None
}

// The same, where it isn't known yet.
fn index_of(g: &Geometry, image: &[u8], id: u16, span: u32, known: Known) -> Known
    requires image { IsImage g.now image.now }
    requires id { id < 0x8000 }
    requires some { 0 < span }
    requires known { IsKnown g.now (the_own (the_live_at g.now image.now) id) known }
    ensures page { result.page ≡ the_index_page g.now (the_own (the_live_at g.now image.now) id) span }
    ensures span { result.span ≡ span }
{
    if known.span == span {
        return known;
    }
    Known {
        span,
        page: find_index(g, image, id, span),
    }
}

// The index entry of a data span: a page number. (The index page is that of the span, where it stands in one behind the header page.)
#[tactic(auto, unfolding(image_model::specs::Files::entry_number))]
fn entry_number(
    g: &Geometry,
    image: &[u8],
    id: u16,
    head: &[u8],
    span: u32,
    known: &Known,
) -> Option<u32>
    requires image { IsImage g.now image.now }
    requires head { length head.now ≡ g.now.page }
    requires known { head_slots g.now ≤ span →
        known.now.page ≡ the_index_page g.now (the_own (the_live_at g.now image.now) id) ((span - head_slots g.now) / span_slots g.now + 1) }
    ensures { result ≡ the_entry_number g.now (the_own (the_live_at g.now image.now) id) head.now span }
{
    let head_slots = g.head_slots();
    if span < head_slots {
        return Some(u32::from(read_word(head, (45 + g.meta + 2 * span) as usize)));
    }
    let behind = span - head_slots;
    let index = known.page?;
    let page = own(g, image, id, index)?;
    Some(u32::from(read_word(page, (8 + 2 * (behind % g.span_slots())) as usize)))
}

// Whether a span has its data page.
#[tactic(auto, unfolding(image_model::specs::Files::data_page))]
fn has_data(g: &Geometry, image: &[u8], id: u16, head: &[u8], span: u32, known: &Known) -> bool
    requires image { IsImage g.now image.now }
    requires head { length head.now ≡ g.now.page }
    requires known { head_slots g.now ≤ span →
        known.now.page ≡ the_index_page g.now (the_own (the_live_at g.now image.now) id) ((span - head_slots g.now) / span_slots g.now + 1) }
    ensures { is_none (the_data_page g.now (the_own (the_live_at g.now image.now) id) head.now span) ≡ not result }
{
    let Some(p) = entry_number(g, image, id, head, span, known) else {
        return false;
    };
    match own(g, image, id, p) {
        Some(page) => read_word(page, 0) < INDEX_BIT && u32::from(read_word(page, 2)) == span,
        None => false,
    }
}

// What is known for a span: the index page that has its entry, where that stands behind the header page.
fn known_for(g: &Geometry, image: &[u8], id: u16, span: u32, known: Known) -> Known
    requires image { IsImage g.now image.now }
    requires id { id < 0x8000 }
    requires known { IsKnown g.now (the_own (the_live_at g.now image.now) id) known }
    ensures known { IsKnown g.now (the_own (the_live_at g.now image.now) id) result }
    ensures page { head_slots g.now ≤ span →
        result.page ≡ the_index_page g.now (the_own (the_live_at g.now image.now) id) ((span - head_slots g.now) / span_slots g.now + 1) }
{
    let head_slots = g.head_slots();
    if span < head_slots {
        return known;
    }
    index_of(
        g,
        image,
        id,
        (span - head_slots) / g.span_slots() + 1,
        known,
    )
}

/// Whether each span of a file below its size has its data page.
pub(crate) fn is_complete(g: &Geometry, image: &[u8], id: u16, head: &[u8]) -> bool
    requires image { IsImage g.now image.now }
    requires id { id < 0x8000 }
    requires head { length head.now ≡ g.now.page }
    ensures { result ≡ is_none (the_first_missing g.now (the_own (the_live_at g.now image.now) id) head.now) }
{
    let mut known = Known {
        span: 0,
        page: None,
    };
    for span in 0..data_pages(g, size_of(head)) {
        known = known_for(g, image, id, span, known);
        if !has_data(g, image, id, head, span, &known) {
            return false;
        }
    }
    true
}

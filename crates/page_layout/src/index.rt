//! Where the page numbers of index pages stand, and the numbers themselves.
ghost use Rattle.std.specs.Prelude.{◌≡◌, ◌+◌, ◌<◌, ◌≤◌, length};
ghost use Rattle.image_model.specs.Files.{index_span as the_index_span, slot_at};
ghost use Rattle.page_layout.specs.Layout.{slot_place, slots_of, page_number};
ghost use Rattle.nor_core.specs.Flash.{word_at, SameOutside};

use crate::words::{put_word, read_word};
use geometry::Geometry;

/// Where the page numbers of a further index page begin, in bytes.
pub const FURTHER_SLOTS_AT: u32 = 8;

/// Where the page numbers of a header page begin, in bytes: behind the name and the meta bytes.
pub fn head_slots_at(g: &Geometry) -> u32
    ensures { result ≡ 45 + g.now.meta }
{
    45 + g.meta()
}

/// The byte of an index page at which page number `slot` stands. The header page, of span 0, has its page
/// numbers behind the meta bytes; a further index page has them from byte 8 on.
pub fn slot_offset(g: &Geometry, span: u16, slot: u32) -> u32
    requires { slot < slots_of g.now span }
    ensures place { result ≡ slot_place g.now span slot }
    ensures within { result + 2 ≤ g.now.page }
{
    slots_end(g, span, slot)
}

/// The byte of an index page of that span behind its first `count` page numbers.
pub fn slots_end(g: &Geometry, span: u16, count: u32) -> u32
    requires { count ≤ slots_of g.now span }
    ensures place { result ≡ slot_place g.now span count }
    ensures from { 8 ≤ result }
    ensures within { result ≤ g.now.page }
{
    if span == 0 {
        head_slots_at(g) + 2 * count
    } else {
        FURTHER_SLOTS_AT + 2 * count
    }
}

/// Page number `slot` of an index page of that span; 0xFFFF names no page.
pub fn slot_of(g: &Geometry, page: &[u8], span: u16, slot: u32) -> u16
    requires page { length page.now ≡ g.now.page }
    requires slot { slot < slots_of g.now span }
    ensures { result ≡ page_number g.now page.now span slot }
{
    read_word(page, slot_offset(g, span, slot) as usize)
}

/// Writes page number `slot` of an index page of that span.
pub fn put_slot(g: &Geometry, page: &mut [u8], span: u16, slot: u32, target: u16)
    requires page { length page.old ≡ g.now.page }
    requires slot { slot < slots_of g.now span }
    ensures field { page_number g.now page.new span slot ≡ target }
    ensures others { SameOutside (slot_place g.now span slot) 2 page.old page.new }
{
    put_word(page, slot_offset(g, span, slot) as usize, target);
}

/// The span of the index page that has the entry of a data span: 0 is the header page.
pub fn index_span(g: &Geometry, span: u16) -> u16
    ensures { result ≡ the_index_span g.now span }
{
    wide_index_span(g, u32::from(span)) as u16
}

/// The same of a span that may be past 0xFFFF, as a place in a file or a size may tell it.
pub fn wide_index_span(g: &Geometry, span: u32) -> u32
    ensures { result ≡ the_index_span g.now span }
{
    let named = g.head_slots();
    if span < named {
        0
    } else {
        (span - named) / g.span_slots() + 1
    }
}

/// The byte of that index page at which the entry of the data span begins.
pub fn entry_place(g: &Geometry, span: u32) -> u32
    ensures place { result ≡ slot_at g.now span }
    ensures within { result + 2 ≤ g.now.page }
{
    let named = g.head_slots();
    if span < named {
        head_slots_at(g) + 2 * span
    } else {
        FURTHER_SLOTS_AT + 2 * ((span - named) % g.span_slots())
    }
}

/// Names the data page of a span in the index page that has its entry.
pub fn put_entry(g: &Geometry, page: &mut [u8], span: u16, target: u16)
    requires { length page.old ≡ g.now.page }
    ensures entry { word_at page.new (slot_at g.now span) ≡ target }
    ensures others { SameOutside (slot_at g.now span) 2 page.old page.new }
{
    put_word(page, entry_place(g, u32::from(span)) as usize, target);
}

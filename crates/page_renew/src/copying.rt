// The copy of an index page.
ghost use Rattle.std.specs.Prelude.{◌≡◌, ℕ, ◌+◌, ◌-◌, ◌<◌, ◌≤◌, List, length, slice_index, Some};
ghost use Rattle.page_layout.specs.Layout.{name_field, padded, slots_of};
ghost use Rattle.nor_core.specs.Flash.{SameOutside};
ghost use Rattle.image_model.specs.Headers.{name_of as name_in};
ghost use Rattle.page_renew.specs.Copies.{kept_of, IsCopy};

use geometry::Geometry;
use page_layout::{BODY_AT, FURTHER_SLOTS_AT, name_of, put_name, slots_end};

/// Makes the bytes of a part 0xFF.
pub fn erase_part(bytes: &mut [u8], from: usize, to: usize)
    requires order { from ≤ to }
    requires inside { to ≤ length bytes.old }
    ensures others { SameOutside from (to - from) bytes.old bytes.new }
    ensures ones { (k : ℕ) → from ≤ k → k < to → slice_index bytes.new k ≡ 0xFF }
{
    bytes[from..to].fill(0xFF);
}

// Puts zeros behind the name of a header page, where it has a name.
fn pad_name(page: &mut [u8])
    requires { 45 ≤ length page.old }
    ensures name { name_in page.new ≡ name_in page.old }
    ensures padding { (name : List ℕ) → name_in page.old ≡ Some name → name_field page.new ≡ padded name }
    ensures others { SameOutside 13 32 page.old page.new }
{
    if let Some(name) = name_of(page) {
        put_name(page, name.as_slice());
    }
}

// How many page numbers of an index page of that span are below the number of data pages.
pub(crate) fn kept_slots(g: &Geometry, span: u16, count: u32) -> u32
    ensures kept { result ≡ kept_of g.now span count }
    ensures few { result ≤ slots_of g.now span }
{
    if span == 0 {
        return count.min(g.head_slots());
    }
    let slots = g.span_slots();
    let before = g.head_slots() + (u32::from(span) - 1) * slots;
    count.saturating_sub(before).min(slots)
}

/// Tells that a slice holds bytes.
pub fn see_bytes(bytes: &[u8])
    ensures { (k : ℕ) → slice_index bytes.now k < 256 }
{}

// Makes an index page of that span its copy, of whose page numbers so many are kept.
pub(crate) fn copy_index(g: &Geometry, page: &mut [u8], span: u16, kept: u32)
    requires page { length page.old ≡ g.now.page }
    requires kept { kept ≤ slots_of g.now span }
    ensures copy { IsCopy g.now span kept page.old page.new }
    ensures old_bytes { (k : ℕ) → slice_index page.old k < 256 }
    ensures new_bytes { (k : ℕ) → slice_index page.new k < 256 }
{
    see_bytes(page);
    erase_part(page, BODY_AT as usize, FURTHER_SLOTS_AT as usize);
    if span == 0 {
        pad_name(page);
    }
    let end = slots_end(g, span, kept) as usize;
    let len = g.page() as usize;
    erase_part(page, end, len);
}

// Where the header page of a file is, and where its other index pages are.
ghost use Rattle.std.specs.Prelude.{◌≡◌, ◌≢◌, ◌%◌, ◌<◌, ◌≤◌, length, OnErr, IfOk, IfSome, true};
ghost use Rattle.std.specs.Bool.{OnTrue};
ghost use Rattle.geometry.specs.Numbers.{page_count};
ghost use Rattle.nor_core.specs.Count.{Rose};
ghost use Rattle.page_layout.specs.Layout.{header_at};
ghost use Rattle.image_model.specs.Files.{index_page};
ghost use Rattle.image_model.specs.Headers.{size_of};
ghost use Rattle.image_model.specs.Live.{live_at, own};
ghost use Rattle.image_model.specs.Places.{is_entry_page as the_entry_page};
ghost use Rattle.image_model.specs.Tidy.{IsTidy};
ghost use Rattle.flash_view.specs.Places.{IsEntryPage};
ghost use Rattle.flash_view.specs.Same.{OnlyLooks};
ghost use Rattle.page_renew.specs.Renewals.{IsHome};

use flash_view::{View, is_entry_page};
use geometry::Geometry;
use nor_core::{Failed, Nor, NorState};
use page_layout::{PageHeader, file_size, header_of};

/// The header page of a file.
#[derive(Clone, Copy, Debug, PartialEq, Eq)]
pub struct Found {
    /// The page.
    pub header: u16,
    /// The size in bytes that it tells.
    pub size: u32,
}

// Whether the header of a page is that of a page of an id. The id in a header is a word.
fn is_header_of(g: &Geometry, page: u16, head: PageHeader, id: u16) -> bool
    requires { page < page_count g.now }
    ensures word { head.id < 65536 }
    ensures entry { OnTrue result (IsEntryPage g.now page) }
    ensures id { OnTrue result ((1 ≤ id) × (id ≤ 0x7FFE)) }
    ensures all { id ≢ 0 → id ≤ 0x7FFE → head.id % 0x8000 ≡ id → the_entry_page g.now page ≡ true → result ≡ true }
{
    id != 0 && id <= 0x7FFE && head.object() == id && is_entry_page(g, page)
}

// What a header page tells: its header, and the file's size.
fn head_and_size(page: &[u8]) -> (PageHeader, u32)
    requires { 12 ≤ length page.now }
    ensures head { result.0 ≡ header_at page.now }
    ensures size { result.1 ≡ size_of page.now }
{
    (header_of(page), file_size(page))
}

/// The header page of the file of an id from 1 to 0x7FFE, and its size, in a tidy image; none where there is none. It is looked
/// for first where the id's hint says.
#[tactic(auto, using(flash_view::proofs::Looking::looks_then))]
pub fn find_home<N: Nor>(v: &mut View<'_, N>, id: u16) -> Result<Option<Found>, Failed>
    ensures cause { OnErr result (Rose (N.faults v.old.nor.now) (N.faults v.new.nor.now)) }
    ensures looks { OnlyLooks v.old v.new }
    ensures entry { IfOk result (λ found. IfSome found (λ f. IsEntryPage v.old.geometry f.header)) }
    ensures id { IfOk result (λ found. IfSome found (λ f. (1 ≤ id) × (id ≤ 0x7FFE))) }
    ensures told { N.tells v.old.nor.now → IsTidy v.old.geometry (N.bytes v.old.nor.now) →
        IfOk result (λ found. IsHome v.old.geometry (N.bytes v.old.nor.now) id found) }
{
    let Some(header) = v.seek_header(id)? else {
        return Ok(None);
    };
    v.hold(header)?;
    let (head, size) = head_and_size(v.held(header));
    if !is_header_of(&v.geometry, header, head, id) {
        return Ok(None);
    }
    Ok(Some(Found { header, size }))
}

// The number under which the page of an index page behind the header page is noted, as that of a header page is under its id.
// (Others may share it.)
fn noted_as(id: u16, span: u32) -> u16 {
    id.wrapping_add((span % 0x1_0000) as u16).wrapping_mul(31)
}

/// The index page of an id and a span, in a tidy image as `find_span` gives it; span 0 is the header page. It is looked for
/// from the page on that was noted for it, then below that page, and it is noted.
#[tactic(auto, using(flash_view::proofs::Looking::looks_then))]
pub fn seek_index<N: Nor>(v: &mut View<'_, N>, id: u16, span: u32) -> Result<Option<u16>, Failed>
    ensures cause { OnErr result (Rose (N.faults v.old.nor.now) (N.faults v.new.nor.now)) }
    ensures looks { OnlyLooks v.old v.new }
    ensures inside { IfOk result (λ page. IfSome page (λ p. p < page_count v.old.geometry)) }
    ensures told { N.tells v.old.nor.now → IsTidy v.old.geometry (N.bytes v.old.nor.now) →
        IfOk result (λ page. page ≡ index_page v.old.geometry (own (live_at v.old.geometry (N.bytes v.old.nor.now)) id) span) }
{
    if span == 0 {
        return v.seek_header(id);
    }
    let place = noted_as(id, span);
    let near = v.hint(place);
    let Some(page) = v.find_near(id, span, near)? else {
        return Ok(None);
    };
    v.note_hint(place, page);
    Ok(Some(page))
}

// Header pages in page order: the first of each id.
ghost use Rattle.std.specs.Prelude.{◌≡◌, ℕ, ◌<◌, ◌≤◌, ◌+◌, length, IfSome, Some, is_some, true, false};
ghost use Rattle.geometry.specs.Numbers.{page_count};
ghost use Rattle.image_model.specs.Places.{IsImage, page_of as the_page};
ghost use Rattle.image_model.specs.Headers.{name_of as the_name};
ghost use Rattle.image_model.specs.Live.{live_at as the_live_at};
ghost use Rattle.image_model.specs.Files.{is_index};
ghost use Rattle.meta_tally.specs.Heads.{says, unseen, with_seen, head_count};
ghost use Rattle.meta_tally.specs.Names.{mark_by, IsMarked};

use crate::clearing::clear_bytes;
use crate::names::name_mark;
use geometry::Geometry;
use page_layout::{INDEX_BIT, read_word};
use plain_image::{live_at, name_of, page_of};

// Whether a page is a header page, by its own bytes.
fn is_header(page: &[u8]) -> bool
    requires { 5 ≤ length page.now }
    ensures { result ≡ is_index (Some page.now) 0 }
{
    read_word(page, 0) >= INDEX_BIT && read_word(page, 2) == 0
}

// The id whose header page a live page says it is.
fn said_id(g: &Geometry, image: &[u8], p: u32) -> Option<u16>
    requires { IsImage g.now image.now }
    ensures id { result ≡ says (the_live_at g.now image.now p) }
    ensures below { IfSome result (λ id. id < 0x8000) }
{
    let page = live_at(g, image, p)?;
    if is_header(page) {
        Some(read_word(page, 0) % INDEX_BIT)
    } else {
        None
    }
}

// Notes an id that a page says, and tells it where it wasn't noted before.
fn see(ids: &mut [u8], found: Option<u16>) -> Option<u16>
    requires len { length ids.old ≡ 0x8000 }
    requires below { IfSome found (λ id. id < 0x8000) }
    ensures first { result ≡ unseen ids.old found }
    ensures seen { ids.new ≡ with_seen ids.old found }
{
    let id = found?;
    let first = ids[id as usize] == 0;
    ids[id as usize] = 1;
    if first { Some(id) } else { None }
}

// The mark of a page.
fn mark_of(g: &Geometry, image: &[u8], p: u32, first: Option<u16>) -> u8
    requires image { IsImage g.now image.now }
    requires page { p < page_count g.now }
    ensures { result ≡ mark_by first (the_name (the_page g.now image.now p)) }
{
    if first.is_none() {
        return 0;
    }
    match name_of(page_of(g, image, p)) {
        Some(name) => name_mark(name),
        None => 0,
    }
}

// One more, where there is an id.
fn count_more(count: u32, first: Option<u16>) -> u32
    requires { count < 65536 }
    ensures some { is_some first ≡ true → result ≡ count + 1 }
    ensures none { is_some first ≡ false → result ≡ count }
{
    if first.is_some() { count + 1 } else { count }
}

/// Marks all pages, and answers how many ids have a header page. The bytes that are lent for ids hold anything.
pub(crate) fn mark_heads(g: &Geometry, image: &[u8], ids: &mut [u8], marks: &mut [u8]) -> u32
    requires image { IsImage g.now image.now }
    requires ids { length ids.old ≡ 0x8000 }
    requires marks { page_count g.now ≤ length marks.old }
    ensures count { result ≡ head_count g.now image.now }
    ensures marked { IsMarked g.now image.now marks.new }
{
    clear_bytes(ids);
    let mut count = 0;
    for p in 0..g.pages() {
        let first = see(ids, said_id(g, image, p));
        marks[p as usize] = mark_of(g, image, p, first);
        count = count_more(count, first);
    }
    count
}

// Wanted pages, killed entries, free blocks and mixed blocks.
ghost use Rattle.std.specs.Prelude.{◌≡◌, ◌==◌, ◌&&◌, ℕ, ◌+◌, ◌*◌, ◌/◌, ◌%◌, ◌<◌, ◌≤◌, length, filter, is_some, IfOk, true};
ghost use Rattle.std.specs.List.{range_with_len, list_any, list_all};
ghost use Rattle.geometry.specs.Numbers.{head_slots, page_count, per_block, lookups, entries};
ghost use Rattle.image_model.specs.Places.{IsImage, is_entry_page as the_entry_page};
ghost use Rattle.image_model.specs.Headers.{size_of as the_size};
ghost use Rattle.image_model.specs.Live.{live_at as the_live_at, own as the_own};
ghost use Rattle.image_model.specs.Files.{is_index, index_page as the_index_page, entry_number as the_entry_number, data_of};
ghost use Rattle.image_model.specs.Tables.{has_of as the_has, counted as the_counted};
ghost use Rattle.image_model.specs.Tidy.{is_number, serves as the_serves, is_wanted as the_wanted};
ghost use Rattle.image_model.specs.Killed.{is_used as the_used, is_killable as the_killable, killed_of as the_killed};
ghost use Rattle.table_model.specs.Room.{data_pages as the_data_pages, index_pages as the_index_pages};
ghost use Rattle.plain_image.specs.Headed.{IsHeads};
ghost use Rattle.plain_image.specs.Leading.{AreFiles};
ghost use Rattle.plain_image.specs.Marked.{AreMarked};
ghost use Rattle.plain_image.specs.Wanting.{AreWanted, is_whole as the_whole, AreWhole};

use crate::blocks::is_free_entry;
use crate::files::{data_pages, entry_number, index_page, size_of};
use crate::headers::{header_of, header_pages};
use crate::marks::name_marks;
use crate::pages::{entry_of, has_magic, live_at, own, page_of, word};
use crate::table::counted;
use crate::wholes::file_pages;
use geometry::Geometry;
use std::alloc::{AllocError, Global};

// Index pages of a file of that size.
pub(crate) fn index_pages(g: &Geometry, size: u32) -> u32
    ensures { result ≡ the_index_pages g.now size }
{
    let spans = data_pages(g, size);
    let slots = g.span_slots();
    if spans > g.head_slots() {
        1 + (spans - g.head_slots() + slots - 1) / slots
    } else {
        1
    }
}

// Whether a page is a live index page of that span.
fn is_index_of(g: &Geometry, image: &[u8], id: u16, span: u32, p: u32) -> bool
    requires { IsImage g.now image.now }
    ensures { result ≡ is_index (the_own (the_live_at g.now image.now) id p) span }
{
    match own(g, image, id, p) {
        Some(page) => word(page, 0) >= 0x8000 && word(page, 2) as u32 == span,
        None => false,
    }
}

// Whether that page is the index page of a span.
fn is_index_number(g: &Geometry, image: &[u8], id: u16, span: u32, p: u32) -> bool
    requires { IsImage g.now image.now }
    ensures { result ≡ is_number (the_index_page g.now (the_own (the_live_at g.now image.now) id) span) p }
{
    is_index_of(g, image, id, span, p) && index_page(g, image, id, span) == Some(p)
}

// Whether a page is an index page, of a span below n.
#[tactic(auto, using(crate::proofs::Ranges::range_step, crate::proofs::Ranges::range_end))]
fn serves_index(g: &Geometry, image: &[u8], id: u16, n: u32, p: u32) -> bool
    requires image { IsImage g.now image.now }
    ensures { result ≡ list_any (λ j. is_number (the_index_page g.now (the_own (the_live_at g.now image.now) id) j) p) (range_with_len 0 n) }
{
    for span in 0..n {
        if is_index_number(g, image, id, span, p) {
            return true;
        }
    }
    false
}

// Whether a page is a live data page of that span.
fn is_data(g: &Geometry, image: &[u8], id: u16, span: u32, p: u32) -> bool
    requires image { IsImage g.now image.now }
    ensures { result ≡ is_some (data_of (the_own (the_live_at g.now image.now) id p) span) }
{
    match own(g, image, id, p) {
        Some(page) => word(page, 0) < 0x8000 && word(page, 2) as u32 == span,
        None => false,
    }
}

// Whether a page is a data page, of a span below n.
#[tactic(auto, using(crate::proofs::Ranges::range_step, crate::proofs::Ranges::range_end))]
fn serves_data(g: &Geometry, image: &[u8], id: u16, head: &[u8], n: u32, p: u32) -> bool
    requires image { IsImage g.now image.now }
    requires head { length head.now ≡ g.now.page }
    ensures { result ≡ list_any (λ span. is_number (the_entry_number g.now (the_own (the_live_at g.now image.now) id) head.now span) p
        && is_some (data_of (the_own (the_live_at g.now image.now) id p) span)) (range_with_len 0 n) }
{
    for span in 0..n {
        if is_data(g, image, id, span, p) && entry_number(g, image, id, head, span) == Some(p) {
            return true;
        }
    }
    false
}

// Whether a page serves the file with this header page.
#[tactic(auto, unfolding(image_model::specs::Tidy::serves))]
fn serves(g: &Geometry, image: &[u8], id: u16, head: &[u8], p: u32) -> bool
    requires image { IsImage g.now image.now }
    requires head { length head.now ≡ g.now.page }
    ensures { result ≡ the_serves g.now (the_own (the_live_at g.now image.now) id) head.now p }
{
    let size = size_of(head);
    serves_index(g, image, id, index_pages(g, size), p)
        || serves_data(g, image, id, head, data_pages(g, size), p)
}

// Whether an id has a file in the table.
fn is_whole(
    alloc: Global,
    g: &Geometry,
    image: &[u8],
    heads: &[Option<u32>],
    files: &[Option<u32>],
    marks: &[u16],
    id: u16,
) -> Result<bool, AllocError>
    requires image { IsImage g.now image.now }
    requires heads { IsHeads g.now (the_live_at g.now image.now) heads.now }
    requires files { AreFiles g.now (the_live_at g.now image.now) 0x8000 files.now }
    requires marks { AreMarked (the_has g.now (the_live_at g.now image.now)) 0x8000 marks.now }
    requires id { id < 0x8000 }
    ensures { IfOk result (λ yes. yes ≡ the_whole g.now image.now id) }
{
    match counted(alloc, g, image, heads, files, marks, 0x7FFF, id)? {
        Some(_record) => Ok(true),
        None => Ok(false),
    }
}

// Which ids have a file in the table.
#[tactic(auto, using(crate::proofs::Wanting::whole_none, crate::proofs::Wanting::whole_more))]
fn whole_ids(
    alloc: Global,
    g: &Geometry,
    image: &[u8],
    heads: &[Option<u32>],
) -> Result<Vec<bool>, AllocError>
    requires image { IsImage g.now image.now }
    requires heads { IsHeads g.now (the_live_at g.now image.now) heads.now }
    ensures { IfOk result (λ whole. AreWhole g.now image.now 0x8000 whole.items) }
{
    let files = file_pages(alloc, g, image, heads)?;
    let marks = name_marks(alloc, g, image, files.as_slice(), 0x7FFF)?;
    let mut whole = Vec::new(alloc);
    for id in 0..0x8000u16 {
        whole.push(is_whole(
            alloc,
            g,
            image,
            heads,
            files.as_slice(),
            marks.as_slice(),
            id,
        )?)?;
    }
    Ok(whole)
}

// Whether a live page serves a file of the table.
#[tactic(auto, unfolding(image_model::specs::Tidy::is_wanted), using(crate::proofs::Headed::head_known))]
fn is_wanted_page(g: &Geometry, image: &[u8], heads: &[Option<u32>], whole: &[bool], p: u32) -> bool
    requires image { IsImage g.now image.now }
    requires heads { IsHeads g.now (the_live_at g.now image.now) heads.now }
    requires whole { AreWhole g.now image.now 0x8000 whole.now }
    ensures { result ≡ the_wanted g.now image.now p }
{
    let Some(page) = live_at(g, image, p) else {
        return false;
    };
    let id = word(page, 0) % 0x8000;
    if !whole[id as usize] {
        return false;
    }
    let Some(h) = header_of(heads, id) else {
        return false;
    };
    let Some(head) = own(g, image, id, h) else {
        return false;
    };
    serves(g, image, id, head, p)
}

/// Whether a page is wanted: live, and an index page or a data page of a file of the table, of a span below the file's
/// page counts.
pub fn is_wanted(alloc: Global, g: &Geometry, image: &[u8], p: u32) -> Result<bool, AllocError>
    requires { IsImage g.now image.now }
    ensures { IfOk result (λ yes. yes ≡ the_wanted g.now image.now p) }
{
    let heads = header_pages(alloc, g, image)?;
    let whole = whole_ids(alloc, g, image, heads.as_slice())?;
    Ok(is_wanted_page(g, image, heads.as_slice(), whole.as_slice(), p))
}

// Whether an entry is in use: in a block with its magic, and neither deleted nor free.
#[tactic(auto, unfolding(image_model::specs::Killed::is_used, image_model::specs::Places::is_entry_page, geometry::specs::Numbers::per_block, geometry::specs::Numbers::lookups), using(image_model::specs::Within::block_number))]
fn is_used(g: &Geometry, image: &[u8], p: u32) -> bool
    requires image { IsImage g.now image.now }
    requires number { p < page_count g.now }
    ensures { result ≡ the_used g.now image.now p }
{
    if p % g.per_block() < g.lookups() || !has_magic(g, image, p / g.per_block()) {
        return false;
    }
    entry_of(g, image, p) != 0 && !is_free_entry(g, image, p)
}

// Whether a check kills an entry: it is in use, and its page isn't wanted.
fn is_killable(g: &Geometry, image: &[u8], heads: &[Option<u32>], whole: &[bool], p: u32) -> bool
    requires image { IsImage g.now image.now }
    requires heads { IsHeads g.now (the_live_at g.now image.now) heads.now }
    requires whole { AreWhole g.now image.now 0x8000 whole.now }
    requires number { p < page_count g.now }
    ensures { result ≡ the_killable g.now image.now p }
{
    is_used(g, image, p) && !is_wanted_page(g, image, heads, whole, p)
}

/// How many entries a check kills: those in use whose pages aren't wanted.
#[tactic(auto, unfolding(image_model::specs::Killed::killed_of, geometry::specs::Numbers::page_count, geometry::specs::Numbers::per_block), using(crate::proofs::Ranges::count_none, crate::proofs::Ranges::count_all))]
pub fn killed_of(alloc: Global, g: &Geometry, image: &[u8]) -> Result<u32, AllocError>
    requires { IsImage g.now image.now }
    ensures { IfOk result (λ count. count ≡ the_killed g.now image.now) }
{
    let heads = header_pages(alloc, g, image)?;
    let whole = whole_ids(alloc, g, image, heads.as_slice())?;
    let mut count = 0;
    for p in 0..g.pages() {
        let killed = is_killable(g, image, heads.as_slice(), whole.as_slice(), p);
        if killed {
            count += 1;
        }
    }
    Ok(count)
}

/// Which pages are wanted, by their numbers.
#[tactic(auto, unfolding(geometry::specs::Numbers::page_count, geometry::specs::Numbers::per_block), using(crate::proofs::Wanting::wanted_none, crate::proofs::Wanting::wanted_more))]
pub fn wanted_pages(alloc: Global, g: &Geometry, image: &[u8]) -> Result<Vec<bool>, AllocError>
    requires { IsImage g.now image.now }
    ensures { IfOk result (λ wanted. AreWanted g.now image.now (page_count g.now) wanted.items) }
{
    let heads = header_pages(alloc, g, image)?;
    let whole = whole_ids(alloc, g, image, heads.as_slice())?;
    let mut wanted = Vec::new(alloc);
    for p in 0..g.pages() {
        wanted.push(is_wanted_page(g, image, heads.as_slice(), whole.as_slice(), p))?;
    }
    Ok(wanted)
}

// The pages of a file, and its bytes. Here `head` is the bytes of the file's header page.
ghost use Rattle.std.specs.Prelude.{◌≡◌, ◌==◌, ◌&&◌, ℕ, ◌+◌, ◌*◌, ◌%◌, ◌<◌, ◌≤◌, ◌^◌, Some, length, option_copied, position, IfSome, IfOk};
ghost use Rattle.geometry.specs.Numbers.{page_count};
ghost use Rattle.nor_core.specs.Flash.{word_at};
ghost use Rattle.image_model.specs.Places.{IsImage};
ghost use Rattle.image_model.specs.Headers.{size_of as the_size, name_of as the_name};
ghost use Rattle.image_model.specs.Live.{live_at as the_live_at, own as the_own};
ghost use Rattle.image_model.specs.Files.{is_index, index_page as the_index_page, entry_number as the_entry_number, data_page as the_data_page};
ghost use Rattle.image_model.specs.Files.{first_missing as the_first_missing, bytes_of as the_bytes, span_bytes as the_span_bytes, judged as the_judged};
ghost use Rattle.image_model.specs.Tables.{has_of as the_has};
ghost use Rattle.table_model.specs.Room.{data_pages as the_data_pages};
ghost use Rattle.plain_image.specs.Seen.{seen, seen_at};
ghost use Rattle.plain_image.specs.Headed.{IsHeads};

use crate::Record;
use crate::headers::header_of;
use crate::pages::{is_live, own, page_of, word};
use geometry::Geometry;
use image_model::Damage;
use std::alloc::{AllocError, Global};

// Whether a page is an index page of that span of an id by its own bytes.
fn is_index_of(page: &[u8], id: u16, span: u32) -> bool
    requires { 5 ≤ length page.now }
    ensures { result ≡ (is_index (Some page.now) span && (word_at page.now 0 % 0x8000 == id)) }
{
    let head = word(page, 0);
    head >= 0x8000 && head % 0x8000 == id && word(page, 2) as u32 == span
}

// Whether a page is a live index page of that span of an id. Its own bytes are looked at first, since few pages pass that.
#[tactic(auto, using(crate::proofs::Headed::index_told))]
fn is_live_index(g: &Geometry, image: &[u8], id: u16, span: u32, p: u32) -> bool
    requires image { IsImage g.now image.now }
    requires number { p < page_count g.now }
    ensures { result ≡ is_index (the_own (the_live_at g.now image.now) id p) span }
{
    if !is_index_of(page_of(g, image, p), id, span) {
        return false;
    }
    is_live(g, image, p)
}

/// The number of the index page of that span: the first such live page of the id in page order. That of span 0 is
/// the header page.
#[tactic(auto, unfolding(image_model::specs::Files::index_page, geometry::specs::Numbers::page_count, geometry::specs::Numbers::per_block), using(crate::proofs::Ranges::range_step, crate::proofs::Ranges::range_end))]
pub fn index_page(g: &Geometry, image: &[u8], id: u16, span: u32) -> Option<u32>
    requires { IsImage g.now image.now }
    ensures { result ≡ the_index_page g.now (the_own (the_live_at g.now image.now) id) span }
{
    for p in 0..g.pages() {
        if is_live_index(g, image, id, span, p) {
            return Some(p);
        }
    }
    None
}

// The index entry of a data span: a page number.
#[tactic(auto, unfolding(image_model::specs::Files::entry_number))]
pub(crate) fn entry_number(
    g: &Geometry,
    image: &[u8],
    id: u16,
    head: &[u8],
    span: u32,
) -> Option<u32>
    requires image { IsImage g.now image.now }
    requires head { length head.now ≡ g.now.page }
    ensures { result ≡ the_entry_number g.now (the_own (the_live_at g.now image.now) id) head.now span }
{
    let head_slots = g.head_slots();
    if span < head_slots {
        return Some(word(head, 45 + g.meta as usize + 2 * span as usize) as u32);
    }
    let behind = span - head_slots;
    let index = index_page(g, image, id, behind / g.span_slots() + 1)?;
    let page = own(g, image, id, index)?;
    Some(word(page, 8 + 2 * (behind % g.span_slots()) as usize) as u32)
}

/// The data page of a span, counted from 0: the page that its index entry names, where that is live and of that id
/// and span.
#[tactic(auto, unfolding(image_model::specs::Files::data_page))]
pub fn data_page<'a>(
    g: &Geometry,
    image: &'a [u8],
    id: u16,
    head: &[u8],
    span: u32,
) -> Option<&'a [u8]>
    requires image { IsImage g.now image.now }
    requires head { length head.now ≡ g.now.page }
    ensures value { option_copied result ≡ the_data_page g.now (the_own (the_live_at g.now image.now) id) head.now span }
    ensures len { IfSome result (λ page. length page.now ≡ g.now.page) }
{
    let p = entry_number(g, image, id, head, span)?;
    let page = own(g, image, id, p)?;
    if word(page, 0) < 0x8000 && word(page, 2) as u32 == span {
        Some(page)
    } else {
        None
    }
}

/// The size in bytes of the file with this header page; 0 where it is undefined.
pub fn size_of(head: &[u8]) -> u32
    requires { 45 ≤ length head.now }
    ensures { result ≡ the_size head.now }
{
    let size = word(head, 8) as u32 + 65536 * word(head, 10) as u32;
    if size == 0xFFFF_FFFF { 0 } else { size }
}

/// The name in a header page, where it has one: the bytes up to the first zero, which isn't the first byte.
pub fn name_of(head: &[u8]) -> Option<&[u8]>
    requires { 45 ≤ length head.now }
    ensures { option_copied result ≡ the_name head.now }
{
    let field = &head[13..45];
    match zero_at(field) {
        Some(n) if n > 0 => Some(&field[..n]),
        _ => None,
    }
}

// The place of the first zero byte.
fn zero_at(field: &[u8]) -> Option<usize>
    ensures value { result ≡ position (λ b. b == 0) field.now }
    ensures below { IfSome result (λ n. n < length field.now) }
{
    field.iter().position(|b| *b == 0)
}

// Data pages of a file of that size.
pub(crate) fn data_pages(g: &Geometry, size: u32) -> u32
    ensures { result ≡ the_data_pages g.now size }
{
    let body = g.page as u64 - 5;
    ((size as u64 + body - 1) / body) as u32
}

// The first data span below the size that has no page.
#[tactic(auto, using(crate::proofs::Ranges::range_step, crate::proofs::Ranges::range_end))]
pub(crate) fn first_missing(g: &Geometry, image: &[u8], id: u16, head: &[u8]) -> Option<u32>
    requires image { IsImage g.now image.now }
    requires head { length head.now ≡ g.now.page }
    ensures { result ≡ the_first_missing g.now (the_own (the_live_at g.now image.now) id) head.now }
{
    for span in 0..data_pages(g, size_of(head)) {
        if data_page(g, image, id, head, span).is_none() {
            return Some(span);
        }
    }
    None
}

// The file bytes of a data page; none where there is no page.
fn span_bytes<'a>(g: &Geometry, image: &'a [u8], id: u16, head: &[u8], span: u32) -> &'a [u8]
    requires image { IsImage g.now image.now }
    requires head { length head.now ≡ g.now.page }
    ensures { result.now ≡ the_span_bytes g.now (the_own (the_live_at g.now image.now) id) head.now span }
{
    match data_page(g, image, id, head, span) {
        Some(page) => &page[5..g.page as usize],
        None => &[],
    }
}

// The bytes of a file: those of its data pages in order, cut at the size.
#[tactic(auto, using(crate::proofs::Ranges::range_step, crate::proofs::Ranges::range_end))]
fn bytes_of(
    alloc: Global,
    g: &Geometry,
    image: &[u8],
    id: u16,
    head: &[u8],
) -> Result<Vec<u8>, AllocError>
    requires image { IsImage g.now image.now }
    requires head { length head.now ≡ g.now.page }
    ensures value { IfOk result (λ bytes. bytes.items ≡ the_bytes g.now (the_own (the_live_at g.now image.now) id) head.now) }
    ensures small { IfOk result (λ bytes. length bytes.items < 2 ^ 32) }
{
    let mut bytes = Vec::new(alloc);
    for span in 0..data_pages(g, size_of(head)) {
        bytes.extend_from_slice(span_bytes(g, image, id, head, span))?;
    }
    bytes.truncate(size_of(head) as usize);
    Ok(bytes)
}

// An id with this header page: its file, or why it has none.
#[tactic(auto, unfolding(image_model::specs::Files::judged))]
fn judged(
    alloc: Global,
    g: &Geometry,
    image: &[u8],
    id: u16,
    head: &[u8],
) -> Result<Result<Record, Damage>, AllocError>
    requires image { IsImage g.now image.now }
    requires head { length head.now ≡ g.now.page }
    ensures { IfOk result (λ r. seen r ≡ the_judged g.now (the_own (the_live_at g.now image.now) id) id head.now) }
{
    let Some(name) = name_of(head) else {
        return Ok(Err(Damage::BadName));
    };
    if let Some(span) = first_missing(g, image, id, head) {
        return Ok(Err(Damage::Missing(span)));
    }
    let name = Vec::from_slice(alloc, name)?;
    let meta = Vec::from_slice(alloc, &head[45..45 + g.meta as usize])?;
    let bytes = bytes_of(alloc, g, image, id, head)?;
    Ok(Ok(Record {
        id,
        name,
        kind: head[12],
        meta,
        bytes,
    }))
}

// What an id has, where it has a header page: that page's number, and the file or its damage.
#[tactic(auto, unfolding(image_model::specs::Files::found, image_model::specs::Tables::has_of), using(crate::proofs::Headed::head_known))]
pub(crate) fn found(
    alloc: Global,
    g: &Geometry,
    image: &[u8],
    heads: &[Option<u32>],
    id: u16,
) -> Result<Option<(u32, Result<Record, Damage>)>, AllocError>
    requires image { IsImage g.now image.now }
    requires heads { IsHeads g.now (the_live_at g.now image.now) heads.now }
    requires id { id < 0x8000 }
    ensures { IfOk result (λ r. seen_at r ≡ the_has g.now (the_live_at g.now image.now) id) }
{
    let Some(p) = header_of(heads, id) else {
        return Ok(None);
    };
    let Some(head) = own(g, image, id, p) else {
        return Ok(None);
    };
    let outcome = judged(alloc, g, image, id, head)?;
    Ok(Some((p, outcome)))
}

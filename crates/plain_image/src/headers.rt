// The header pages of an image, by id.
ghost use Rattle.std.specs.Prelude.{◌≡◌, ◌==◌, ◌&&◌, ℕ, ◌+◌, ◌*◌, ◌%◌, ◌<◌, ◌≤◌, length, get_or, replicate, List, Option, Some, None, IfOk, IfSome};
ghost use Rattle.std.specs.Prelude.{if◌then◌else◌};
ghost use Rattle.image_model.specs.Places.{IsImage};
ghost use Rattle.image_model.specs.Live.{live_at as the_live_at, own as the_own};
ghost use Rattle.image_model.specs.Files.{is_index};
ghost use Rattle.image_model.specs.Tidy.{is_number};
ghost use Rattle.plain_image.specs.Headed.{HeadsFrom, IsHeads};

use crate::pages::{live_at, word};
use geometry::Geometry;
use std::alloc::{AllocError, Global};

// Whether a page is a header page by its own bytes.
fn is_header(page: &[u8]) -> bool
    requires { 5 ≤ length page.now }
    ensures { result ≡ is_index (Some page.now) 0 }
{
    word(page, 0) >= 0x8000 && word(page, 2) == 0
}

// The id whose header page a page is by its own bytes, where it is live.
#[tactic(auto, using(crate::proofs::Headed::index_is, crate::proofs::Headed::index_not, crate::proofs::Headed::index_none))]
fn header_id(g: &Geometry, image: &[u8], p: u32) -> Option<u16>
    requires { IsImage g.now image.now }
    ensures id { (id : ℕ) → is_index (the_own (the_live_at g.now image.now) id p) 0 ≡ is_number result id }
    ensures below { IfSome result (λ id. id < 0x8000) }
{
    let page = live_at(g, image, p)?;
    if is_header(page) {
        Some(word(page, 0) % 0x8000)
    } else {
        None
    }
}

// Notes a page by its id, where it is a live header page.
fn note_header(heads: &mut Vec<Option<u32>>, g: &Geometry, image: &[u8], p: u32)
    requires image { IsImage g.now image.now }
    requires len { length heads.old.items ≡ 0x8000 }
    ensures len { length heads.new.items ≡ 0x8000 }
    ensures each { (id : ℕ) → id < 0x8000 →
        get_or heads.new.items id None ≡ (if is_index (the_own (the_live_at g.now image.now) id p) 0 then Some p else get_or heads.old.items id None) }
{
    match header_id(g, image, p) {
        Some(id) => heads[id as usize] = Some(p),
        None => {}
    }
}

// No header page for each id below n.
fn no_headers(alloc: Global, n: usize) -> Result<Vec<Option<u32>>, AllocError>
    ensures { IfOk result (λ heads. heads.items ≡ replicate n None) }
{
    let mut heads = Vec::new(alloc);
    for _i in 0..n {
        heads.push(None)?;
    }
    Ok(heads)
}

// The header page of each id below 0x8000: the first in page order. The pages are walked from the last one down.
#[tactic(auto, unfolding(geometry::specs::Numbers::page_count, geometry::specs::Numbers::per_block))]
pub(crate) fn header_pages(
    alloc: Global,
    g: &Geometry,
    image: &[u8],
) -> Result<Vec<Option<u32>>, AllocError>
    requires { IsImage g.now image.now }
    ensures { IfOk result (λ heads. IsHeads g.now (the_live_at g.now image.now) heads.items) }
{
    let mut heads = no_headers(alloc, 0x8000)?;
    let mut p = g.pages();
    while p > 0 {
        p -= 1;
        note_header(&mut heads, g, image, p);
    }
    Ok(heads)
}

// The header page of an id.
pub(crate) fn header_of(heads: &[Option<u32>], id: u16) -> Option<u32>
    requires { id < length heads.now }
    ensures { result ≡ get_or heads.now id None }
{
    heads[id as usize]
}

//! Doubled ids, counted in one walk over the pages.
ghost use Rattle.std.specs.Prelude.{◌≡◌, ◌==◌, ◌+◌, ◌<◌, ◌≤◌, ℕ, length, slice_index, slice_set, IfSome, Some, if◌then◌else◌};
ghost use Rattle.image_model.specs.Places.{IsImage};
ghost use Rattle.image_model.specs.Files.{is_index};
ghost use Rattle.image_model.specs.Live.{live_at as the_live_at, own as the_own};
ghost use Rattle.image_model.specs.Tidy.{is_number};
ghost use Rattle.doubled_ids.specs.Doubled.{doubled_of};
ghost use Rattle.doubled_ids.specs.Notes.{IsId, is_second, with_one};

use geometry::Geometry;
use page_layout::{INDEX_BIT, read_word};
use plain_image::live_at;

/// Bytes that are lent for work: one for each id.
pub const WORK: usize = 0x8000;

// Makes all bytes zero.
fn clear_bytes(bytes: &mut [u8])
    ensures len { length bytes.new ≡ length bytes.old }
    ensures zero { (k : ℕ) → slice_index bytes.new k ≡ 0 }
{
    bytes.fill(0);
}

// Whether a page is a header page, by its own bytes.
fn is_header(page: &[u8]) -> bool
    requires { 5 ≤ length page.now }
    ensures { result ≡ is_index (Some page.now) 0 }
{
    read_word(page, 0) >= INDEX_BIT && read_word(page, 2) == 0
}

// The id of which a page is a live header page, from 1 to 0x7FFF.
#[tactic(auto, using(crate::proofs::Heads::some_id, plain_image::proofs::Headed::index_is, plain_image::proofs::Headed::index_not, plain_image::proofs::Headed::index_none))]
fn header_id(g: &Geometry, image: &[u8], p: u32) -> Option<u16>
    requires { IsImage g.now image.now }
    ensures id { (id : ℕ) → is_index (the_own (the_live_at g.now image.now) id p) 0 ≡ is_number result id }
    ensures within { IfSome result IsId }
{
    let page = live_at(g, image, p)?;
    if is_header(page) {
        Some(read_word(page, 0) % INDEX_BIT)
    } else {
        None
    }
}

// Notes a header page of an id: none, one, or more. Tells whether it is the second one.
fn note_head(notes: &mut [u8], found: Option<u16>) -> bool
    requires len { length notes.old ≡ 0x8000 }
    requires within { IfSome found IsId }
    ensures second { result ≡ is_second notes.old found }
    ensures noted { notes.new ≡ with_one notes.old found }
{
    let Some(id) = found else {
        return false;
    };
    let met = notes[id as usize];
    notes[id as usize] = if met == 0 { 1 } else { 2 };
    met == 1
}

// One more, where one was found.
fn count_more(count: u32, more: bool) -> u32
    requires { count < 65536 }
    ensures { result ≡ (if more then count + 1 else count) }
{
    if more { count + 1 } else { count }
}

// The same with a byte for each id.
fn count_in(g: &Geometry, image: &[u8], notes: &mut [u8]) -> u32
    requires image { IsImage g.now image.now }
    requires notes { length notes.old ≡ 0x8000 }
    ensures { result ≡ length (doubled_of g.now image.now) }
{
    clear_bytes(notes);
    let mut count = 0;
    for p in 0..g.pages() {
        let second = note_head(notes, header_id(g, image, p));
        count = count_more(count, second);
    }
    count
}

/// Counts the ids from 1 to 0x7FFF of which two or more live header pages stand in the volume, each once. The lent bytes hold anything.
pub fn count_doubled(g: &Geometry, image: &[u8], work: &mut [u8]) -> u32
    requires image { IsImage g.now image.now }
    requires work { 0x8000 ≤ length work.old }
    ensures { result ≡ length (doubled_of g.now image.now) }
{
    count_in(g, image, &mut work[..WORK])
}

// Pages, lookup entries, magics and erase counts of an image, and its live pages.
ghost use Rattle.std.specs.Prelude.{◌≡◌, ◌==◌, ℕ, ◌+◌, ◌*◌, ◌/◌, ◌%◌, ◌^◌, ◌<◌, ◌≤◌, length, option_copied, IfSome, IsTrue, ◌↔◌};
ghost use Rattle.geometry.specs.Numbers.{page_count, per_block, lookups, slots};
ghost use Rattle.image_model.specs.Places.{IsImage, page_of as the_page, slot_of as the_slot, has_magic as the_magic, erase_count as the_count};
ghost use Rattle.image_model.specs.Places.{entry_of as the_entry};
ghost use Rattle.image_model.specs.Headers.{is_finished as the_finished};
ghost use Rattle.nor_core.specs.Flash.{word_at};
ghost use Rattle.image_model.specs.Live.{is_live as the_live, live_at as the_live_at, own as the_own};

use geometry::Geometry;

// A number of two bytes at byte i, the lower one first.
pub(crate) fn word(bytes: &[u8], i: usize) -> u16
    requires { i + 1 < length bytes.now }
    ensures { result ≡ word_at bytes.now i }
{
    bytes[i] as u16 + 256 * (bytes[i + 1] as u16)
}

fn is_set(flags: u8, k: u32) -> bool
    requires { k < 8 }
    ensures { result ≡ (flags / 2 ^ k % 2 == 1) }
{
    (flags >> k) % 2 == 1
}

// Whether a page says itself that it is live.
#[tactic(auto, unfolding(image_model::specs::Headers::is_finished))]
fn is_finished(page: &[u8]) -> bool
    requires { 5 ≤ length page.now }
    ensures { result ≡ the_finished page.now }
{
    let id = word(page, 0);
    let flags = page[4usize];
    if id % 0x8000 == 0
        || id == 0xFFFF
        || is_set(flags, 0)
        || is_set(flags, 1)
        || !is_set(flags, 7)
    {
        return false;
    }
    if id < 0x8000 {
        is_set(flags, 2)
    } else {
        !is_set(flags, 2) && (is_set(flags, 6) || word(page, 2) != 0)
    }
}

/// Whether these bytes hold the whole volume, at their start.
pub fn holds_volume(g: &Geometry, image: &[u8]) -> bool
    ensures { IsTrue result ↔ IsImage g.now image.now }
{
    image.len() >= g.blocks as usize * g.block as usize
}

/// The bytes of a page of the volume.
#[tactic(auto, unfolding(image_model::specs::Places::page_of), using(image_model::specs::Within::page_fits))]
pub fn page_of<'a>(g: &Geometry, image: &'a [u8], p: u32) -> &'a [u8]
    requires image { IsImage g.now image.now }
    requires number { p < page_count g.now }
    ensures bytes { result.now ≡ the_page g.now image.now p }
    ensures len { length result.now ≡ g.now.page }
{
    let at = p as usize * g.page as usize;
    &image[at..at + g.page as usize]
}

#[tactic(auto, unfolding(image_model::specs::Places::slot_of), using(image_model::specs::Within::slot_fits))]
fn slot_of(g: &Geometry, image: &[u8], block: u32, slot: u32) -> u16
    requires image { IsImage g.now image.now }
    requires block { block < g.now.blocks }
    requires slot { slot < slots g.now }
    ensures { result ≡ the_slot g.now image.now block slot }
{
    word(image, block as usize * g.block as usize + 2 * slot as usize)
}

/// Whether a block has its magic.
#[tactic(auto, unfolding(image_model::specs::Places::has_magic, geometry::specs::Numbers::lookups, geometry::specs::Numbers::entries))]
pub fn has_magic(g: &Geometry, image: &[u8], block: u32) -> bool
    requires image { IsImage g.now image.now }
    requires block { block < g.now.blocks }
    ensures { result ≡ the_magic g.now image.now block }
{
    slot_of(g, image, block, g.lookups() * g.page / 2 - 2) == g.magic_of(block)
}

/// The erase count of a block, from 0 to 0x7FFF; 0 where none was written.
#[tactic(auto, unfolding(image_model::specs::Places::erase_count, geometry::specs::Numbers::lookups))]
pub fn erase_count(g: &Geometry, image: &[u8], block: u32) -> u16
    requires image { IsImage g.now image.now }
    requires block { block < g.now.blocks }
    ensures value { result ≡ the_count g.now image.now block }
    ensures below { result < 0x8000 }
{
    let count = slot_of(g, image, block, g.lookups() * g.page / 2 - 1);
    if count < 0x8000 { count } else { 0 }
}

/// The lookup entry of an entry page.
#[tactic(auto, unfolding(image_model::specs::Places::entry_of, geometry::specs::Numbers::lookups, geometry::specs::Numbers::per_block), using(image_model::specs::Within::block_number, image_model::specs::Within::entry_slot))]
pub fn entry_of(g: &Geometry, image: &[u8], p: u32) -> u16
    requires image { IsImage g.now image.now }
    requires number { p < page_count g.now }
    requires behind { lookups g.now ≤ p % per_block g.now }
    ensures { result ≡ the_entry g.now image.now p }
{
    slot_of(g, image, p / g.per_block(), p % g.per_block() - g.lookups())
}

/// Whether a page is live.
#[tactic(auto, unfolding(image_model::specs::Live::is_live, image_model::specs::Places::is_entry_page, geometry::specs::Numbers::page_count, geometry::specs::Numbers::lookups, geometry::specs::Numbers::per_block), using(image_model::specs::Within::block_number))]
pub fn is_live(g: &Geometry, image: &[u8], p: u32) -> bool
    requires { IsImage g.now image.now }
    ensures { result ≡ the_live g.now image.now p }
{
    if p >= g.pages()
        || p % g.per_block() < g.lookups()
        || !has_magic(g, image, p / g.per_block())
    {
        return false;
    }
    let page = page_of(g, image, p);
    entry_of(g, image, p) == word(page, 0) && is_finished(page)
}

/// The bytes of a page, where it is live.
#[tactic(auto, unfolding(image_model::specs::Live::live_at, image_model::specs::Live::is_live, image_model::specs::Places::is_entry_page))]
pub fn live_at<'a>(g: &Geometry, image: &'a [u8], p: u32) -> Option<&'a [u8]>
    requires { IsImage g.now image.now }
    ensures value { option_copied result ≡ the_live_at g.now image.now p }
    ensures len { IfSome result (λ page. length page.now ≡ g.now.page) }
{
    if is_live(g, image, p) {
        Some(page_of(g, image, p))
    } else {
        None
    }
}

/// The bytes of a page, where it is a live page of that id.
#[tactic(auto, unfolding(image_model::specs::Live::own))]
pub fn own<'a>(g: &Geometry, image: &'a [u8], id: u16, p: u32) -> Option<&'a [u8]>
    requires { IsImage g.now image.now }
    ensures value { option_copied result ≡ the_own (the_live_at g.now image.now) id p }
    ensures len { IfSome result (λ page. length page.now ≡ g.now.page) }
{
    let page = live_at(g, image, p)?;
    if word(page, 0) % 0x8000 == id {
        Some(page)
    } else {
        None
    }
}

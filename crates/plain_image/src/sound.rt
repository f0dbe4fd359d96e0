// Whether an image is sound with respect to a first one, and whether two images have the same live pages.
ghost use Rattle.std.specs.Prelude.{◌≡◌, ◌↔◌, ◌<◌, ◌&&◌, ℕ, map, not, IsTrue};
ghost use Rattle.std.specs.List.{Contains};
ghost use Rattle.image_model.specs.Places.{IsImage};
ghost use Rattle.image_model.specs.Live.{live_at as the_live_at};
ghost use Rattle.image_model.specs.Tables.{damaged_of as the_damaged};
ghost use Rattle.image_model.specs.Kinds.{is_mixed as the_mixed};
ghost use Rattle.image_model.specs.Sound.{IsMixed, HasMagics, IsSound};

use crate::blocks::is_mixed;
use crate::pages::{has_magic, live_at};
use geometry::Geometry;
use image_model::Damage;

// Whether at most one block lacks its magic.
fn has_magics(g: &Geometry, image: &[u8]) -> bool
    requires { IsImage g.now image.now }
    ensures { IsTrue result ↔ HasMagics g.now image.now }
{
    let mut spoiled = None;
    for block in 0..g.blocks {
        if !has_magic(g, image, block) {
            match spoiled {
                Some(_) => return false,
                None => spoiled = Some(block),
            }
        }
    }
    true
}

// Whether a block is mixed that wasn't so at first.
fn is_mixed_anew(g: &Geometry, image: &[u8], first: &[u8], block: u32) -> bool
    requires image { IsImage g.now image.now }
    requires first { IsImage g.now first.now }
    requires block { block < g.now.blocks }
    ensures { result ≡ (the_mixed g.now image.now block && not (the_mixed g.now first.now block)) }
{
    is_mixed(g, image, block) && !is_mixed(g, first, block)
}

// Whether each block that is mixed was so at first.
fn keeps_mixed(g: &Geometry, image: &[u8], first: &[u8]) -> bool
    requires image { IsImage g.now image.now }
    requires first { IsImage g.now first.now }
    ensures { IsTrue result ↔ ((block : ℕ) → IsMixed g.now (the_live_at g.now image.now) block → IsMixed g.now (the_live_at g.now first.now) block) }
{
    for block in 0..g.blocks {
        if is_mixed_anew(g, image, first, block) {
            return false;
        }
    }
    true
}

// Whether a file of that id is one of these.
fn has_id(damaged: &[(u16, Damage)], id: u16) -> bool
    ensures { IsTrue result ↔ Contains (map (λ d. d.0) damaged.now) id }
{
    for d in damaged.iter() {
        if d.0 == id {
            return true;
        }
    }
    false
}

// Whether each of these files is one of the first ones, by its id.
fn keeps_damaged(damaged: &[(u16, Damage)], first: &[(u16, Damage)]) -> bool
    ensures { IsTrue result ↔ ((id : ℕ) → Contains (map (λ d. d.0) damaged.now) id → Contains (map (λ d. d.0) first.now) id) }
{
    for d in damaged.iter() {
        if !has_id(first, d.0) {
            return false;
        }
    }
    true
}

/// Whether an image is sound with respect to a first one: at most one block lacks its magic, and what is mixed or damaged was so at first. The
/// damaged files of both are given, as `damaged_of` tells them.
pub fn is_sound(
    g: &Geometry,
    image: &[u8],
    damaged: &[(u16, Damage)],
    first: &[u8],
    first_damaged: &[(u16, Damage)],
) -> bool
    requires image { IsImage g.now image.now }
    requires first { IsImage g.now first.now }
    requires damaged { damaged.now ≡ the_damaged g.now image.now }
    requires first_damaged { first_damaged.now ≡ the_damaged g.now first.now }
    ensures { IsTrue result ↔ IsSound g.now image.now first.now }
{
    if !has_magics(g, image) {
        return false;
    }
    if !keeps_mixed(g, image, first) {
        return false;
    }
    keeps_damaged(damaged, first_damaged)
}

// Whether a page is live in both images with the same bytes, or in none of them.
fn is_same_page(g: &Geometry, a: &[u8], b: &[u8], p: u32) -> bool
    requires a { IsImage g.now a.now }
    requires b { IsImage g.now b.now }
    ensures { IsTrue result ↔ the_live_at g.now b.now p ≡ the_live_at g.now a.now p }
{
    match (live_at(g, a, p), live_at(g, b, p)) {
        (Some(x), Some(y)) => x == y,
        (None, None) => true,
        _ => false,
    }
}

/// Whether two images have the same live pages, with the same bytes. Then all that is computed from live pages is the same.
#[tactic(auto, unfolding(geometry::specs::Numbers::page_count, geometry::specs::Numbers::per_block))]
pub fn is_same_live(g: &Geometry, a: &[u8], b: &[u8]) -> bool
    requires a { IsImage g.now a.now }
    requires b { IsImage g.now b.now }
    ensures { IsTrue result ↔ ((p : ℕ) → the_live_at g.now b.now p ≡ the_live_at g.now a.now p) }
{
    for p in 0..g.pages() {
        if !is_same_page(g, a, b, p) {
            return false;
        }
    }
    true
}

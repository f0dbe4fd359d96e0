//! Candidates one after the other.
ghost use Rattle.std.specs.Prelude.{◌≡◌, ℕ, ◌+◌, ◌*◌, ◌/◌, ◌%◌, ◌<◌, ◌≤◌, ◌^◌, List, length};
ghost use Rattle.geometry.specs.declared.geometry.Geometry.{Geometry as AnyGeometry};
ghost use Rattle.volume_detect.specs.Candidates.{IsCandidate, IsFront};
ghost use Rattle.volume_detect.specs.Places.{FoundAt, NextFound, HasPlace, IsFoundFirst};
ghost use Rattle.volume_detect.specs.Told.{Tells};
ghost use Rattle.volume_detect.specs.Words.{HasWords};

use crate::rests::is_rest;
use crate::spot::{Spot, spot_of};
use crate::told::{length_volume, plain_volume};
use geometry::{Geometry, MagicKind};

/// How many places a file has of which these are the words: 84 for each unit, one for each size of block and page and each kind of
/// magic.
pub fn place_count(words: &[u8]) -> u32
    requires { length words.now ≤ 12 * 2 ^ 20 }
    ensures { result ≡ 7 * length words.now }
{
    7 * words.len() as u32
}

// The volume that the words of a row tell.
fn told_at(words: &[u8], s: Spot) -> Option<Geometry>
    requires page { (i : ℕ) × (i < 6) × (s.page ≡ 128 * 2 ^ i) }
    requires block { 4096 ≤ s.block }
    requires inside { (b : ℕ) → b < s.room → 2 * (s.first + s.step * b) + 2 ≤ length words.now }
    ensures { Tells words.now s.first s.step s.page s.block s.room s.magic result }
{
    match s.magic {
        MagicKind::Plain => plain_volume(words, s.first, s.step, s.page, s.block, s.room),
        MagicKind::Length => length_volume(words, s.first, s.step, s.page, s.block, s.room),
    }
}

// What stands at a place.
fn volume_at(words: &[u8], place: u32) -> Option<Geometry>
    requires few { length words.now ≤ 12 * 2 ^ 20 }
    requires whole { length words.now % 12 ≡ 0 }
    requires place { place < 7 * length words.now }
    ensures { (file : List ℕ) → HasWords file words.now → FoundAt file place result }
{
    let s = spot_of(place, words.len() as u32 / 12);
    match told_at(words, s) {
        None => None,
        Some(g) => {
            if is_rest(words, s.first, s.step, &g) {
                None
            } else {
                Some(g)
            }
        }
    }
}

/// The next candidate: its place, which is number `from` or a later one, and its geometry, with no meta bytes. The words are those
/// of the file (`read_words`).
pub fn next_candidate(words: &[u8], from: u32) -> Option<(u32, Geometry)>
    requires few { length words.now ≤ 12 * 2 ^ 20 }
    requires whole { length words.now % 12 ≡ 0 }
    ensures { (file : List ℕ) → HasWords file words.now → NextFound file from result }
{
    for place in from..place_count(words) {
        match volume_at(words, place) {
            Some(g) => return Some((place, g)),
            None => {}
        }
    }
    None
}

/// A law: each candidate of a file, with no meta bytes, stands at a place of it.
pub fn candidates_have_places()
    ensures { (file : List ℕ) (at : ℕ) (g : AnyGeometry) → IsCandidate file at g → g.meta ≡ 0 → HasPlace file at g }
{}

/// A law: a volume at the front of a file, of which each block has its magic, is among the candidates there. So is one that was
/// formatted or checked, and what is made of it later, if the file is the volume alone or the magic tells the length.
pub fn front_volumes_are_found()
    ensures { (file : List ℕ) (g : AnyGeometry) → IsFront file g → IsFoundFirst file g }
{}

//! All candidates of a file.
ghost use Rattle.std.specs.Prelude.{◌≡◌, ℕ, ◌+◌, ◌*◌, ◌<◌, ◌≤◌, ◌^◌, length, drop, OnErr, IfOk};
ghost use Rattle.geometry.specs.declared.geometry.Geometry.{Geometry as AnyGeometry};
ghost use Rattle.doubled_ids.specs.Doubled.{doubled_of};
ghost use Rattle.image_model.specs.Kinds.{spoiled_blocks as spoiled_of};
ghost use Rattle.meta_guess.specs.Guesses.{IsMeta};
ghost use Rattle.volume_detect.specs.Places.{IsFoundAt};
ghost use Rattle.volume_detect.specs.Words.{HasWords};
ghost use Rattle.volume_rank.specs.Finds.{IsFound, AreAll, AreMore};
ghost use Rattle.volume_rank.specs.Ranges.{IsRange};

use crate::found::{Found, MetaRange};
use crate::ranges::{METAS, top_range};
use doubled_ids::count_doubled;
use geometry::Geometry;
use meta_guess::with_meta;
use meta_tally::tally_files;
use plain_image::spoiled_blocks;
use thiserror::Error;
use volume_detect::{byte_of, next_candidate};

/// The lent list is too short for all candidates.
#[derive(Clone, Copy, Debug, PartialEq, Eq, Error)]
#[error("more candidates than places in the list")]
pub struct TooFew;

// What the volume at a byte of the file reads.
fn range_at(file: &[u8], at: u32, g: &Geometry, work: &mut [u8], marks: &mut [u8]) -> MetaRange
    requires small { length file.now < 2 ^ 32 }
    requires inside { at + g.now.blocks * g.now.block ≤ length file.now }
    requires work { 557056 ≤ length work.old }
    requires check { 65535 ≤ length marks.old }
    ensures few { result.first ≤ 64 }
    ensures range { (h : AnyGeometry) → IsMeta g.now result.first h → IsRange g.now (drop at file.now) result }
{
    let mut whole = [0u32; METAS];
    let heads = tally_files(g, &file[at as usize..], work, marks, &mut whole);
    top_range(&whole, heads)
}

// How many ids of the volume at a byte of the file are doubled.
fn doubled_at(file: &[u8], at: u32, g: &Geometry, work: &mut [u8]) -> u32
    requires small { length file.now < 2 ^ 32 }
    requires inside { at + g.now.blocks * g.now.block ≤ length file.now }
    requires work { 557056 ≤ length work.old }
    ensures { result ≡ length (doubled_of g.now (drop at file.now)) }
{
    count_doubled(g, &file[at as usize..], work)
}

// How many blocks of the volume at a byte of the file lack their magic.
fn spoiled_at(file: &[u8], at: u32, g: &Geometry) -> u32
    requires inside { at + g.now.blocks * g.now.block ≤ length file.now }
    ensures { result ≡ spoiled_of g.now (drop at file.now) }
{
    spoiled_blocks(g, &file[at as usize..])
}

// A candidate, with what it reads.
fn found_at(file: &[u8], place: u32, g: &Geometry, work: &mut [u8], marks: &mut [u8]) -> Found
    requires small { length file.now < 2 ^ 32 }
    requires place { place < 84 * 2 ^ 20 }
    requires found { IsFoundAt file.now place g.now }
    requires work { 557056 ≤ length work.old }
    requires check { 65535 ≤ length marks.old }
    ensures found { IsFound file.now result }
    ensures place { result.place ≡ place }
{
    let at = byte_of(place);
    let range = range_at(file, at, g, work, marks);
    let volume = with_meta(g, range.first);
    Found {
        place,
        volume,
        last_meta: range.last,
        counts: range.counts,
        spoiled: spoiled_at(file, at, &volume),
        doubled: doubled_at(file, at, &volume, work),
    }
}

/// Gets all candidates of a file into a lent list, in order of their places, each with what it reads. Answers how many they are,
/// or that the list is too short for them. The file's words are those that `volume_detect::read_words` reads. Of lent bytes it takes
/// 557,056 for work and 65,535 for marks, which is enough for every volume.
pub fn collect(
    file: &[u8],
    words: &[u8],
    work: &mut [u8],
    marks: &mut [u8],
    found: &mut [Found],
) -> Result<usize, TooFew>
    requires small { length file.now < 2 ^ 32 }
    requires words { HasWords file.now words.now }
    requires work { 557056 ≤ length work.old }
    requires check { 65535 ≤ length marks.old }
    ensures all { IfOk result (λ count. (count ≤ length found.new) × AreAll file.now found.new count) }
    ensures more { OnErr result (AreMore file.now found.new) }
{
    let mut from = 0;
    let mut count = 0;
    'places: while let Some((place, g)) = next_candidate(words, from) {
        if count == found.len() {
            return Err(TooFew);
        }
        found[count] = found_at(file, place, &g, work, marks);
        count += 1;
        from = place + 1;
    }
    Ok(count)
}

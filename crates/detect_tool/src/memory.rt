//! What is lent to the command.
ghost use Rattle.std.specs.Prelude.{◌≡◌, ◌+◌, ◌*◌, ◌/◌, ◌≤◌, ◌^◌};
ghost use Rattle.detect_tool.specs.Lent.{lengths_of, length_refusal, shorter};

use crate::refusing::Refusal;
use geometry::{GeoErr, Geometry, MagicKind};
use meta_guess::Counts;
use volume_detect::words_need;
use volume_rank::Found;

/// The memory that is lent to `detect_tool`. What it holds at first doesn't matter.
#[derive(Drop)]
pub struct Memory<'b> {
    /// Bytes for all that the chip holds: as many as it has.
    pub chip: &'b mut [u8],
    /// Bytes for those words of it that may be magics: `volume_detect::words_need` of the chip's size.
    pub words: &'b mut [u8],
    /// Bytes for work, 557,056.
    pub work: &'b mut [u8],
    /// Bytes for marks, 65,535: one for each page of the largest volume.
    pub check: &'b mut [u8],
    /// Places for what is found: `found_need` of the chip's size.
    pub found: &'b mut [Found],
}

/// How much of each part is lent: bytes, and places for what is found.
#[derive(Clone, Copy, Debug, PartialEq, Eq)]
pub(crate) struct Lengths {
    pub chip: usize,
    pub words: usize,
    pub work: usize,
    pub check: usize,
    pub found: usize,
}

/// A part of the lent memory.
#[derive(Clone, Copy, Debug, PartialEq, Eq)]
pub(crate) enum Part {
    Chip,
    Words,
    Work,
    Check,
    Found,
}

/// How many places are lent for what is found on a chip of so many bytes: as many as there are at which a volume may begin, 84 for each
/// 4,096 bytes.
pub fn found_need(size: u32) -> u32
    ensures need { result ≡ 84 * (size / 4096) }
    ensures few { result ≤ 84 * 2 ^ 20 }
{
    84 * (size / 4096)
}

/// A place in which nothing was found yet, of which a list is made that is lent.
pub fn blank_place() -> Result<Found, GeoErr> {
    let volume = Geometry::new(128, 4096, 3, 4096, 0, MagicKind::Plain)?;
    let counts = Counts {
        whole: 0,
        damaged: 0,
    };
    Ok(Found {
        place: 0,
        volume,
        last_meta: 0,
        counts,
        spoiled: 0,
        doubled: 0,
    })
}

/// How much of each part is lent.
pub(crate) fn lent_lengths(memory: &Memory<'_>) -> Lengths
    ensures { result ≡ lengths_of memory.now }
{
    Lengths {
        chip: memory.chip.len(),
        words: memory.words.len(),
        work: memory.work.len(),
        check: memory.check.len(),
        found: memory.found.len(),
    }
}

// The refusal of a part of the lent memory, if it is too short.
fn too_short(part: Part, need: u32, given: usize) -> Option<Refusal>
    ensures { result ≡ shorter part need given }
{
    if given < need as usize {
        let given = given as u32;
        Some(Refusal::Short { part, need, given })
    } else {
        None
    }
}

/// The refusal of the first part of the lent memory that is too short for a chip of so many bytes.
#[tactic(auto, unfolding(crate::specs::Lent::length_refusal))]
pub(crate) fn short_part(size: u32, lent: &Lengths) -> Option<Refusal>
    ensures { result ≡ length_refusal size lent.now }
{
    too_short(Part::Chip, size, lent.chip)
        .or(too_short(Part::Words, words_need(size), lent.words))
        .or(too_short(Part::Work, 557_056, lent.work))
        .or(too_short(Part::Check, 65_535, lent.check))
        .or(too_short(Part::Found, found_need(size), lent.found))
}

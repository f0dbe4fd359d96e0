// What a number of a place says.
ghost use Rattle.std.specs.Prelude.{◌≡◌, ℕ, ◌+◌, ◌-◌, ◌*◌, ◌/◌, ◌%◌, ◌<◌, ◌≤◌, ◌^◌, max};
ghost use Rattle.volume_detect.specs.Places.{unit_of, block_power, page_power, kind_of, byte_of as the_byte_of};
ghost use Rattle.volume_detect.specs.Spots.{IsSpot, word_class};

use crate::powers::power;
use crate::words::UNIT;
use geometry::MagicKind;

// Where a row of blocks may begin: the number of the first block's word, how many words there are from a block to the next, how many
// blocks there are room for, the bytes of page and block, and what the magic tells.
#[derive(Clone, Copy)]
pub(crate) struct Spot {
    pub first: usize,
    pub step: usize,
    pub room: u32,
    pub page: u32,
    pub block: u32,
    pub magic: MagicKind,
}

/// The byte of the file at which a volume at the place of that number begins.
pub fn byte_of(place: u32) -> u32
    requires { place < 84 * 2 ^ 20 }
    ensures { result ≡ the_byte_of place }
{
    UNIT * (place / 84)
}

// Which of the six words of a unit the magic is, by the powers of block and page: that of the bytes of the lookup pages.
fn class(block: u32, page: u32) -> u32
    requires block { block < 7 }
    requires page { page < 6 }
    ensures class { result ≡ word_class block page }
    ensures few { result < 6 }
{
    page.max(block.saturating_sub(1 + page))
}

// What the magic tells at the place of that number.
fn kind(place: u32) -> MagicKind
    ensures { result ≡ kind_of place }
{
    if place % 2 == 0 {
        MagicKind::Plain
    } else {
        MagicKind::Length
    }
}

// What the number of a place says, in a file of so many units.
pub(crate) fn spot_of(place: u32, units: u32) -> Spot
    requires units { units ≤ 2 ^ 20 }
    requires place { place < 84 * units }
    ensures { IsSpot place units result }
{
    let unit = place / 84;
    let block = place / 12 % 7;
    let page = place / 2 % 6;
    Spot {
        first: (6 * unit + class(block, page)) as usize,
        step: (6 * power(block)) as usize,
        room: (units - unit) / power(block),
        page: 128 * power(page),
        block: UNIT * power(block),
        magic: kind(place),
    }
}

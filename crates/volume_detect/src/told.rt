// The volume that a row of words tells.
ghost use Rattle.std.specs.Prelude.{◌≡◌, ℕ, ◌+◌, ◌-◌, ◌*◌, ◌/◌, ◌<◌, ◌≤◌, ◌^◌, length, bit_xor};
ghost use Rattle.volume_detect.specs.Told.{TellsLength, TellsPlain, TellsBy};

use crate::rows::{is_row, longest_row};
use crate::volumes::volume_of;
use crate::words::word;
use geometry::{Geometry, MagicKind};

// The magic of a page, if it tells nothing else: the lower half of 0x20140529 with the page's bits turned (SPIFFS magic).
fn plain_magic(page: u32) -> u16
    requires { page < 2 ^ 15 }
    ensures { result ≡ bit_xor 0x0529 page }
{
    (0x0529 ^ page) as u16
}

// The longest volume with the plain magic. There is room for so many blocks.
pub(crate) fn plain_volume(
    words: &[u8],
    first: usize,
    step: usize,
    page: u32,
    block: u32,
    room: u32,
) -> Option<Geometry>
    requires page { (i : ℕ) × (i < 6) × (page ≡ 128 * 2 ^ i) }
    requires block { page ≤ block }
    requires inside { (b : ℕ) → b < room → 2 * (first + step * b) + 2 ≤ length words.now }
    ensures { TellsPlain words.now first step page block room result }
{
    let most = room.min(65535 / (block / page));
    let blocks = longest_row(words, first, step, plain_magic(page), most);
    volume_of(page, block, blocks, MagicKind::Plain)
}

// The volume of so many blocks with the magic of their number.
fn volume_by(
    words: &[u8],
    first: usize,
    step: usize,
    page: u32,
    block: u32,
    room: u32,
    blocks: u32,
) -> Option<Geometry>
    requires page { (i : ℕ) × (i < 6) × (page ≡ 128 * 2 ^ i) }
    requires inside { (b : ℕ) → b < room → 2 * (first + step * b) + 2 ≤ length words.now }
    ensures { TellsBy words.now first step page block room blocks result }
{
    if blocks > room {
        return None;
    }
    match volume_of(page, block, blocks, MagicKind::Length) {
        None => None,
        Some(g) => {
            if is_row(words, first, step, &g) {
                Some(g)
            } else {
                None
            }
        }
    }
}

// How many blocks there are from a block on, as its magic tells.
fn told_blocks(magic: u16, page: u32) -> u32
    requires { page < 2 ^ 15 }
    ensures value { result ≡ bit_xor magic (bit_xor 0x0529 page) }
    ensures few { result < 2 ^ 16 }
{
    u32::from(magic ^ plain_magic(page))
}

// The volume with the magic of its length: the first block tells how many blocks there are, or, if that is the only one that lacks
// its magic, the second. There is room for so many blocks.
pub(crate) fn length_volume(
    words: &[u8],
    first: usize,
    step: usize,
    page: u32,
    block: u32,
    room: u32,
) -> Option<Geometry>
    requires page { (i : ℕ) × (i < 6) × (page ≡ 128 * 2 ^ i) }
    requires inside { (b : ℕ) → b < room → 2 * (first + step * b) + 2 ≤ length words.now }
    ensures { TellsLength words.now first step page block room result }
{
    if room < 3 {
        return None;
    }
    let by_first = told_blocks(word(words, first), page);
    let by_second = told_blocks(word(words, first + step), page) + 1;
    match volume_by(words, first, step, page, block, room, by_first) {
        Some(g) => Some(g),
        None => volume_by(words, first, step, page, block, room, by_second),
    }
}

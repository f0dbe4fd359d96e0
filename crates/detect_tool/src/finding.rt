//! The candidates of a chip.
ghost use Rattle.std.specs.Prelude.{◌≡◌, ◌*◌, ◌/◌, ◌<◌, ◌≤◌, ◌^◌, length, OnOk, OnErr};
ghost use Rattle.nor_core.specs.Count.{Rose};
ghost use Rattle.nor_core.specs.Device.{OnlyReads};
ghost use Rattle.volume_detect.specs.Words.{HasWords};
ghost use Rattle.volume_rank.specs.Finds.{AreAll};

use nor_core::{Failed, Nor, NorState};
use nor_image::Image;
use volume_detect::{UNIT, read_words};
use volume_rank::{Found, TooFew, collect};

/// Reads all that a chip holds.
pub(crate) fn read_chip<N: Nor>(nor: &mut N, into: &mut [u8]) -> Result<(), Failed>
    requires { length into.old ≡ N.size nor.old }
    ensures cause { OnErr result (Rose (N.faults nor.old) (N.faults nor.new)) }
    ensures reads { OnlyReads N.NorState nor.old nor.new }
    ensures told { N.tells nor.old → OnOk result (into.new ≡ N.bytes nor.old) }
{
    if into.is_empty() {
        return Ok(());
    }
    nor.read(0, into)
}

// Reads the words of a chip's bytes that may be magics.
fn read_all_words(chip: &[u8], words: &mut [u8])
    requires small { length chip.now < 2 ^ 32 }
    requires words { length words.old ≡ 12 * (length chip.now / 4096) }
    ensures { HasWords chip.now words.new }
{
    let mut image = Image::new(chip, UNIT);
    // (an image never fails)
    let _read = read_words(&mut image, words);
}

/// Gets all candidates of a chip into the front of a list, in order of their places, and answers how many they are.
pub(crate) fn find_all(
    chip: &[u8],
    words: &mut [u8],
    work: &mut [u8],
    check: &mut [u8],
    found: &mut [Found],
) -> usize
    requires small { length chip.now < 2 ^ 32 }
    requires words { length words.old ≡ 12 * (length chip.now / 4096) }
    requires work { 557056 ≤ length work.old }
    requires check { 65535 ≤ length check.old }
    requires room { 84 * (length chip.now / 4096) ≤ length found.old }
    ensures few { result ≤ length found.new }
    ensures all { AreAll chip.now found.new result }
{
    read_all_words(chip, words);
    match collect(chip, words, work, check, found) {
        Ok(count) => count,
        // (there are no more candidates than places)
        Err(TooFew) => 0,
    }
}

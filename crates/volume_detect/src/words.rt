//! The words of a file that may be magics.
ghost use Rattle.std.specs.Prelude.{◌≡◌, ℕ, ◌+◌, ◌*◌, ◌/◌, ◌<◌, ◌≤◌, ◌^◌, List, length, OnOk, OnErr};
ghost use Rattle.nor_core.specs.Count.{Rose};
ghost use Rattle.nor_core.specs.Device.{OnlyReads};
ghost use Rattle.nor_core.specs.Flash.{word_at};
ghost use Rattle.volume_detect.specs.Rows.{word_of};
ghost use Rattle.volume_detect.specs.Words.{word_place as the_word_place, HasWords, ReadTo};

use crate::powers::power;
use nor_core::{Failed, Nor, NorState};
use page_layout::{put_word, read_word};

/// Bytes of a unit: a volume may begin at each multiple of them.
pub const UNIT: u32 = 4096;

/// How many bytes are lent for the words of a file of so many bytes: 12 for each whole unit.
pub fn words_need(size: u32) -> u32
    ensures need { result ≡ 12 * (size / 4096) }
    ensures few { result ≤ 12 * 2 ^ 20 }
{
    12 * (size / UNIT)
}

// Where word `i` of them all stands in the file.
fn word_place(i: u32) -> u32
    requires { i < 6 * 2 ^ 20 }
    ensures place { result ≡ the_word_place i }
    ensures inside { result + 2 ≤ 4096 * (i / 6) + 4096 }
{
    UNIT * (i / 6) + (128 * power(i % 6) - 4)
}

// Word `i` of them all.
pub(crate) fn word(words: &[u8], i: usize) -> u16
    requires { 2 * i + 2 ≤ length words.now }
    ensures { result ≡ word_of words.now i }
{
    read_word(words, 2 * i)
}

// Reads word `i` of them all.
fn read_one<N: Nor>(nor: &mut N, words: &mut [u8], i: u32) -> Result<(), Failed>
    requires size { length words.old ≡ 12 * (N.size nor.old / 4096) }
    requires inside { i < 6 * (N.size nor.old / 4096) }
    ensures cause { OnErr result (Rose (N.faults nor.old) (N.faults nor.new)) }
    ensures reads { OnlyReads N.NorState nor.old nor.new }
    ensures told { N.tells nor.old → ReadTo (N.bytes nor.old) i words.old → OnOk result (ReadTo (N.bytes nor.old) (i + 1) words.new) }
{
    let mut pair = [0u8; 2];
    nor.read(word_place(i), &mut pair)?;
    put_word(words, 2 * i as usize, read_word(&pair, 0));
    Ok(())
}

/// Reads the words of a device that may be magics, six of each unit, into lent bytes: exactly `words_need` of the device's size.
/// Nothing is written. It fails only if the device fails.
pub fn read_words<N: Nor>(nor: &mut N, words: &mut [u8]) -> Result<(), Failed>
    requires { length words.old ≡ 12 * (N.size nor.old / 4096) }
    ensures cause { OnErr result (Rose (N.faults nor.old) (N.faults nor.new)) }
    ensures reads { OnlyReads N.NorState nor.old nor.new }
    ensures told { N.tells nor.old → OnOk result (HasWords (N.bytes nor.old) words.new) }
{
    for i in 0..6 * (nor.size() / UNIT) {
        read_one(nor, words, i)?;
    }
    Ok(())
}

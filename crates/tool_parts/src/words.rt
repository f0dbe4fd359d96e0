ghost use Rattle.std.specs.Prelude.{◌≡◌, ◌+◌, ◌*◌, ◌<◌, ◌≤◌, ◌^◌, length, map, string_bytes, IfSome, Some, None};
ghost use Rattle.tool_parts.specs.Words.{number_word, magic_word, word_at, numbers_in, blocks_in, unit_for, chip_size_for};

use call_script::parse_number;
use geometry::MagicKind;

/// The numbers of a command's volumes, as its words give them.
#[derive(Clone, Copy, Debug, PartialEq, Eq)]
pub struct Numbers {
    /// Bytes of a page.
    pub page: u32,
    /// Bytes of a block.
    pub block: u32,
    /// Blocks.
    pub blocks: u32,
    /// Meta bytes of each file.
    pub meta: u32,
    /// What the magic tells.
    pub magic: MagicKind,
}

fn read_magic(word: &[u8]) -> Option<MagicKind>
    ensures { result ≡ magic_word word.now }
{
    match word {
        b"plain" => Some(MagicKind::Plain),
        b"len" => Some(MagicKind::Length),
        _ => None,
    }
}

/// The word at a place, from 0; empty where there is none.
pub fn word(words: &[String], i: usize) -> &[u8]
    ensures { result.now ≡ word_at (map string_bytes words.now) i }
{
    match words.get(i) {
        Some(word) => word.as_bytes(),
        None => b"",
    }
}

/// The numbers that the words `_ PAGE BLOCK BLOCKS META MAGIC` give, or None for other words. Behind them any may stand.
pub fn read_numbers(words: &[String]) -> Option<Numbers>
    ensures { result ≡ numbers_in (map string_bytes words.now) }
{
    let page = number_at(words, 1)?;
    let block = number_at(words, 2)?;
    let blocks = number_at(words, 3)?;
    let meta = number_at(words, 4)?;
    let magic = read_magic(word(words, 5))?;
    Some(Numbers {
        page,
        block,
        blocks,
        meta,
        magic,
    })
}

/// The word at a place as a number below 2 ^ 32 of decimal digits, without a leading zero save `0` itself.
pub fn number_at(words: &[String], i: usize) -> Option<u32>
    ensures { result ≡ number_word (word_at (map string_bytes words.now) i) }
{
    match parse_number(word(words, i), 4_294_967_295) {
        Some(number) => Some(number as u32),
        None => None,
    }
}

// The block size and the number of blocks, where the words give a volume of some bytes, below 2 ^ 32.
fn blocks_of(words: &[String]) -> Option<(u32, u32)>
    ensures blocks { result ≡ blocks_in (map string_bytes words.now) }
    ensures some { IfSome result (λ b. (0 < b.0) × (0 < b.1) × (b.0 * b.1 < 2 ^ 32)) }
{
    let block = number_at(words, 2)?;
    let blocks = number_at(words, 3)?;
    let bytes = u64::from(block) * u64::from(blocks);
    if bytes == 0 || bytes >= 4_294_967_296 {
        return None;
    }
    Some((block, blocks))
}

/// The erase unit of the chips that the words ask for, in bytes: BLOCK, read by its place. It is 4096 where
/// the words can't be read, or give no volume of 1 to 2 ^ 32 - 1 bytes.
pub fn unit_of(words: &[String]) -> u32
    ensures unit { result ≡ unit_for (blocks_in (map string_bytes words.now)) }
    ensures some { 0 < result }
{
    match blocks_of(words) {
        Some((block, _)) => block,
        None => 4096,
    }
}

/// The size in bytes of each of `number` chips that hold the volume: BLOCK times BLOCKS divided by the
/// number, rounded up. It is 4096 where `unit_of` is that for want of numbers.
pub fn chip_size_of(words: &[String], number: u32) -> u32
    requires { 1 ≤ number }
    ensures size { result ≡ chip_size_for (blocks_in (map string_bytes words.now)) number }
    ensures some { 0 < result }
{
    match blocks_of(words) {
        Some((block, blocks)) => block * blocks.div_ceil(number),
        None => 4096,
    }
}

// The numbers of a volume, as words give them.
ghost use Rattle.std.specs.Prelude.{◌≡◌, OnSome, length, map, string_bytes};
ghost use Rattle.plain_explain.specs.Words.{shape_form, number_word, magic_word};

use call_script::parse_number;
use geometry::MagicKind;

/// The numbers of a volume, and what its magic tells.
#[derive(Clone, Copy, Debug, PartialEq, Eq)]
pub(crate) struct Shape {
    /// Bytes of a page.
    pub page: u32,
    /// Bytes of a block.
    pub block: u32,
    /// Blocks.
    pub blocks: u32,
    /// Meta bytes of each file.
    pub meta: u32,
    /// What the magic tells.
    pub magic: MagicKind,
}

// A number below 2 ^ 32 of decimal digits, without a leading zero save `0` itself.
fn number(word: &String) -> Option<u32>
    ensures { result ≡ number_word (string_bytes word.now) }
{
    match parse_number(word.as_bytes(), 4_294_967_295) {
        Some(number) => Some(number as u32),
        None => None,
    }
}

fn magic(word: &String) -> Option<MagicKind>
    ensures { result ≡ magic_word (string_bytes word.now) }
{
    match word.as_bytes() {
        b"plain" => Some(MagicKind::Plain),
        b"len" => Some(MagicKind::Length),
        _ => None,
    }
}

#[tactic(auto, unfolding(crate::specs::Words::shape_form))]
/// The numbers that the words `PAGE BLOCK BLOCKS META MAGIC CHIP` give, or None for other words.
pub(crate) fn shape_of(words: &[String]) -> Option<Shape>
    ensures exact { result ≡ shape_form (map string_bytes words.now) }
    ensures six { OnSome result (length words.now ≡ 6) }
{
    if words.len() != 6 || words[5].is_empty() {
        return None;
    }
    let page = number(&words[0])?;
    let block = number(&words[1])?;
    let blocks = number(&words[2])?;
    let meta = number(&words[3])?;
    let magic = magic(&words[4])?;
    Some(Shape {
        page,
        block,
        blocks,
        meta,
        magic,
    })
}

ghost use Rattle.std.specs.Prelude.{◌≡◌, ◌∷◌, ◌++◌, [], map, string_bytes, decimal, OnOk, IfOk};
ghost use Rattle.front_words.specs.Scripts.{command_of, magic_text, top_line};

use crate::settling::Volume;
use crate::word::Word;
use geometry::MagicKind;
use itoa::Buffer;
use std::alloc::{AllocError, Global};

// The command of the top call that does what a word asks.
fn command(word: Word) -> &'static str
    ensures { result.now ≡ command_of word }
{
    match word {
        Word::Ls | Word::Cat => "list",
        Word::Pack | Word::Gen => "make",
        Word::Unpack => "extract",
        Word::Fsck => "check",
        Word::Put | Word::Rm | Word::Mv | Word::Df => "run",
        Word::Size => "size",
        Word::Picture => "picture",
    }
}

// What the magic tells, as a word of the top call.
fn magic_word(magic: MagicKind) -> &'static str
    ensures { result.now ≡ magic_text magic }
{
    match magic {
        MagicKind::Plain => "plain",
        MagicKind::Length => "len",
    }
}

/// Appends a word to a line.
pub fn push_word(alloc: Global, line: &mut Vec<String>, word: &str) -> Result<(), AllocError>
    ensures { OnOk result (map string_bytes line.new.items ≡ map string_bytes line.old.items ++ word.now ∷ []) }
{
    let word = String::from_str(alloc, word)?;
    line.push(word)?;
    Ok(())
}

// Appends a number to a line.
fn push_number(alloc: Global, line: &mut Vec<String>, number: u32) -> Result<(), AllocError>
    ensures { OnOk result (map string_bytes line.new.items ≡ map string_bytes line.old.items ++ decimal number ∷ []) }
{
    push_word(alloc, line, Buffer::new().format(number))
}

// Appends the numbers of a volume to a line.
fn push_numbers(alloc: Global, line: &mut Vec<String>, volume: &Volume) -> Result<(), AllocError>
    ensures { OnOk result (map string_bytes line.new.items
        ≡ map string_bytes line.old.items ++ decimal volume.now.page ∷ decimal volume.now.block ∷ decimal volume.now.blocks ∷ decimal volume.now.meta ∷ []) }
{
    push_number(alloc, line, volume.page)?;
    push_number(alloc, line, volume.block)?;
    push_number(alloc, line, volume.blocks)?;
    push_number(alloc, line, volume.meta)
}

/// The line of the top call that a word means for a volume and a chip, but for the folder of `make` and `extract`.
pub fn top_words(
    alloc: Global,
    word: Word,
    volume: &Volume,
    chip: &str,
) -> Result<Vec<String>, AllocError>
    ensures { IfOk result (λ line. map string_bytes line.items ≡ top_line word volume.now chip.now) }
{
    let mut line = Vec::new(alloc);
    push_word(alloc, &mut line, command(word))?;
    push_numbers(alloc, &mut line, volume)?;
    push_word(alloc, &mut line, magic_word(volume.magic))?;
    push_word(alloc, &mut line, chip)?;
    Ok(line)
}

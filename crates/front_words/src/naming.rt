ghost use Rattle.std.specs.Prelude.{◌≡◌, map, string_bytes};
ghost use Rattle.std.specs.Option.{option_copied};
ghost use Rattle.front_words.specs.Tokens.{parts};
ghost use Rattle.front_words.specs.Names.{image_at, folder_at, image_in, folder_in, once_in};

use crate::asked::Asked;
use crate::giving::{Given, given_for, place};
use crate::option::Slot;
use crate::word::Word;

// In which place the image stands, where a word says what is done.
fn image_place(word: Word) -> Option<usize>
    ensures { result ≡ image_at word }
{
    match word {
        Word::Size => None,
        Word::Pack => Some(2),
        Word::Gen => Some(3),
        _ => Some(1),
    }
}

// In which place the folder stands.
fn folder_place(word: Word) -> Option<usize>
    ensures { result ≡ folder_at word }
{
    match word {
        Word::Pack | Word::Size => Some(1),
        Word::Unpack | Word::Gen => Some(2),
        _ => None,
    }
}

// The value that a line gives once for a slot.
fn only(words: &[String], slot: Slot) -> Option<&[u8]>
    ensures { option_copied result ≡ once_in slot (parts (map string_bytes words.now)) }
{
    match given_for(words, slot) {
        Given::Once(text) => Some(text),
        _ => None,
    }
}

/// The name of the image in a line; None of `size`, which has none.
pub fn image_word<'w>(words: &'w [String], asked: &Asked) -> Option<&'w [u8]>
    ensures { option_copied result ≡ image_in asked.now (parts (map string_bytes words.now)) }
{
    if asked.by_option {
        return place(words, 0);
    }
    match image_place(asked.word) {
        Some(i) => place(words, i),
        None => None,
    }
}

/// The name of the folder in a line; None of a word that has none.
pub fn folder_word<'w>(words: &'w [String], asked: &Asked) -> Option<&'w [u8]>
    ensures { option_copied result ≡ folder_in asked.now (parts (map string_bytes words.now)) }
{
    if asked.by_option {
        return match asked.word {
            Word::Pack => only(words, Slot::Create),
            Word::Unpack => only(words, Slot::Unpack),
            _ => None,
        };
    }
    match folder_place(asked.word) {
        Some(i) => place(words, i),
        None => None,
    }
}

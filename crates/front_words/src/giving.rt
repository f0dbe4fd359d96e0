ghost use Rattle.std.specs.Prelude.{◌≡◌, List, ℕ, ◌++◌, map, string_bytes, slice_get};
ghost use Rattle.std.specs.Option.{option_copied};
ghost use Rattle.front_words.specs.Options.{rank};
ghost use Rattle.front_words.specs.Tokens.{part_of, parts, places, texts, text_in, held, held_by, held_after};

use crate::option::Slot;
use crate::token::{Token, next_token};

/// What a line gives for a slot.
#[derive(Clone, Copy, Debug)]
pub enum Given<'w> {
    /// Nothing.
    Nothing,
    /// This text, once.
    Once(&'w [u8]),
    /// More than one.
    Twice,
}

/// The word of a line that stands in that place, from 0, options not counted.
pub fn place(words: &[String], i: usize) -> Option<&[u8]>
    ensures { option_copied result ≡ slice_get (places (parts (map string_bytes words.now))) i }
{
    let mut rest = words;
    let mut is_ended = false;
    let mut left = i;
    while let Some((token, behind, ends)) = next_token(rest, is_ended) {
        if let Token::Place(word) = token {
            if left == 0 {
                return Some(word);
            }
            left -= 1;
        }
        rest = behind;
        is_ended = ends;
    }
    None
}

// What is given once a further part came.
fn more<'w>(found: Given<'w>, token: Token<'w>, slot: Slot) -> Given<'w>
    ensures { (vs : List (List ℕ)) → held_after (held_by result) vs ≡ held_after (held_by found.entry) (text_in (rank slot) (part_of token.entry) ++ vs) }
{
    match token {
        Token::Chosen(other, text) if other.rank() == slot.rank() => match found {
            Given::Nothing => Given::Once(text),
            _ => Given::Twice,
        },
        _ => found,
    }
}

/// What a line gives for a slot.
pub fn given_for(words: &[String], slot: Slot) -> Given<'_>
    ensures { held_by result ≡ held (texts (rank slot) (parts (map string_bytes words.now))) }
{
    let mut found = Given::Nothing;
    let mut rest = words;
    let mut is_ended = false;
    while let Some((token, behind, ends)) = next_token(rest, is_ended) {
        found = more(found, token, slot);
        rest = behind;
        is_ended = ends;
    }
    found
}

// The value that a part gives for a slot.
fn value_in<'w>(token: Token<'w>, slot: Slot) -> Option<&'w [u8]>
    ensures { option_copied result ≡ slice_get (text_in (rank slot) (part_of token.entry)) 0 }
{
    match token {
        Token::Chosen(other, text) if other.rank() == slot.rank() => Some(text),
        _ => None,
    }
}

/// The first value that a line gives for a slot.
pub fn first_given(words: &[String], slot: Slot) -> Option<&[u8]>
    ensures { option_copied result ≡ slice_get (texts (rank slot) (parts (map string_bytes words.now))) 0 }
{
    let mut rest = words;
    let mut is_ended = false;
    while let Some((token, behind, ends)) = next_token(rest, is_ended) {
        let value = value_in(token, slot);
        if value.is_some() {
            return value;
        }
        rest = behind;
        is_ended = ends;
    }
    None
}

ghost use Rattle.std.specs.Prelude.{◌≡◌, ◌∷◌, ◌<◌, ◌≤◌, ⊤, [], length, map, string_bytes, MatchOption, IfSome};
ghost use Rattle.std.specs.Option.{option_copied};
ghost use Rattle.front_words.specs.Options.{switched};
ghost use Rattle.front_words.specs.Tokens.{sort, sort_of, option_sort, switch_sort, part_of, rest_parts, ended_parts, valued_parts, sorted_parts, name_at};
ghost use Rattle.front_words.specs.Tokens.{value_at, equals_at};

use crate::option::{Slot, switch_text, switched_slot, valued_slot};

/// What a word is, by itself.
#[derive(Clone, Copy, Debug)]
pub(crate) enum Kind<'w> {
    /// A word in its place.
    Plain,
    /// `--`: all words behind it stand in their places.
    Ends,
    /// An option with its value.
    Holds(Slot, &'w [u8]),
    /// An option whose value is the next word.
    Takes(Slot),
}

/// A word in its place, or an option with its value.
#[derive(Clone, Copy, Debug)]
pub(crate) enum Token<'w> {
    Place(&'w [u8]),
    Chosen(Slot, &'w [u8]),
}

// Where the first `=` of a word stands.
fn find_equals(word: &[u8]) -> Option<usize>
    ensures at { result ≡ equals_at word.now }
    ensures inside { IfSome result (λ i. i < length word.now) }
{
    word.iter().position(|byte| *byte == b'=')
}

// What stands before and behind the first `=` of a word.
fn cut(word: &[u8]) -> (&[u8], Option<&[u8]>)
    ensures name { result.0.now ≡ name_at word.now (equals_at word.now) }
    ensures value { option_copied result.1 ≡ value_at word.now (equals_at word.now) }
{
    match find_equals(word) {
        Some(i) => (&word[..i], Some(&word[i + 1..])),
        None => (word, None),
    }
}

// What an option without a value is.
fn switch_kind(word: &[u8]) -> Kind<'_>
    ensures { sort_of result ≡ switch_sort word.now (switched word.now) }
{
    match switched_slot(word) {
        Some(slot) => Kind::Holds(slot, switch_text(word)),
        None => Kind::Holds(Slot::Unknown, word),
    }
}

// What an option is.
#[tactic(auto, unfolding(crate::specs::Tokens::option_sort))]
fn option_kind(word: &[u8]) -> Kind<'_>
    ensures { sort_of result ≡ option_sort word.now }
{
    let (name, value) = cut(word);
    match valued_slot(name) {
        Some(slot) => match value {
            Some(text) => Kind::Holds(slot, text),
            None => Kind::Takes(slot),
        },
        None => switch_kind(word),
    }
}

// What a word is.
fn kind_of(word: &[u8]) -> Kind<'_>
    ensures { sort_of result ≡ sort word.now }
{
    match word {
        [b'-', b'-'] => Kind::Ends,
        [b'-', _, ..] => option_kind(word),
        _ => Kind::Plain,
    }
}

// The first of words that all stand in their places, and those behind it.
fn ended_token<'w>(words: &'w [String]) -> Option<(Token<'w>, &'w [String], bool)>
    ensures token { MatchOption result (ended_parts (map string_bytes words.now) ≡ [])
        (λ r. ended_parts (map string_bytes words.now) ≡ part_of r.0 ∷ rest_parts r.2 (map string_bytes r.1.now)) }
    ensures less { MatchOption result ⊤ (λ r. length r.1.now < length words.now) }
{
    match words {
        [word, behind @ ..] => Some((Token::Place(word.as_bytes()), behind, true)),
        [] => None,
    }
}

// The option of a slot whose value is the next word.
fn valued_token<'w>(
    slot: Slot,
    word: &'w [u8],
    behind: &'w [String],
) -> (Token<'w>, &'w [String], bool)
    ensures token { valued_parts slot word.now (map string_bytes behind.now) ≡ part_of result.0 ∷ rest_parts result.2 (map string_bytes result.1.now) }
    ensures less { length result.1.now ≤ length behind.now }
{
    match behind {
        [value, rest @ ..] => (Token::Chosen(slot, value.as_bytes()), rest, false),
        [] => (Token::Chosen(Slot::NoValue, word), behind, false),
    }
}

// The part that begins with a word before others, and the words behind it.
fn open_token<'w>(word: &'w [u8], behind: &'w [String]) -> Option<(Token<'w>, &'w [String], bool)>
    ensures token { MatchOption result (sorted_parts (sort word.now) word.now (map string_bytes behind.now) ≡ [])
        (λ r. sorted_parts (sort word.now) word.now (map string_bytes behind.now) ≡ part_of r.0 ∷ rest_parts r.2 (map string_bytes r.1.now)) }
    ensures less { MatchOption result ⊤ (λ r. length r.1.now ≤ length behind.now) }
{
    match kind_of(word) {
        Kind::Plain => Some((Token::Place(word), behind, false)),
        Kind::Ends => ended_token(behind),
        Kind::Holds(slot, text) => Some((Token::Chosen(slot, text), behind, false)),
        Kind::Takes(slot) => Some(valued_token(slot, word, behind)),
    }
}

/// The first part of words, where a `--` stood before them or not, the words behind it, and whether a `--` stood before these.
pub(crate) fn next_token<'w>(
    words: &'w [String],
    is_ended: bool,
) -> Option<(Token<'w>, &'w [String], bool)>
    ensures token { MatchOption result (rest_parts is_ended (map string_bytes words.now) ≡ [])
        (λ r. rest_parts is_ended (map string_bytes words.now) ≡ part_of r.0 ∷ rest_parts r.2 (map string_bytes r.1.now)) }
    ensures less { MatchOption result ⊤ (λ r. length r.1.now < length words.now) }
{
    if is_ended {
        return ended_token(words);
    }
    match words {
        [word, behind @ ..] => open_token(word.as_bytes(), behind),
        [] => None,
    }
}

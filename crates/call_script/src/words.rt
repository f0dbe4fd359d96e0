ghost use Rattle.std.specs.Prelude.{◌≡◌, ◌≢◌, ℕ, ◌<◌, ◌≤◌, length, slice_index};
ghost use Rattle.call_script.specs.Lines.{words, is_text};
ghost use Rattle.call_script.specs.Split.{IsFirst, IsSplit};

/// The words of a line, as many as a call may have.
pub(crate) enum Words<'a> {
    One(&'a [u8]),
    Two(&'a [u8], &'a [u8]),
    Three(&'a [u8], &'a [u8], &'a [u8]),
    Four(&'a [u8], &'a [u8], &'a [u8], &'a [u8]),
    More,
}

// The index of the first space, or the length where there is none.
fn first_space(line: &[u8]) -> usize
    ensures within { result ≤ length line.now }
    ensures before { (k : ℕ) → k < result → slice_index line.now k ≢ 32 }
    ensures found { result < length line.now → slice_index line.now result ≡ 32 }
{
    for (i, byte) in line.iter().enumerate() {
        if *byte == b' ' {
            return i;
        }
    }
    line.len()
}

// The first word, and what follows the space behind it.
fn first_word(line: &[u8]) -> (&[u8], Option<&[u8]>)
    ensures { IsFirst result.0.now result.1 (words line.now) }
{
    let end = first_space(line);
    if end < line.len() {
        (&line[..end], Some(&line[end + 1..]))
    } else {
        (line, None)
    }
}

/// The words of a line.
pub(crate) fn words_of(line: &[u8]) -> Words<'_>
    ensures { IsSplit result (words line.now) }
{
    let (verb, rest) = first_word(line);
    let Some(rest) = rest else {
        return Words::One(verb);
    };
    let (first, rest) = first_word(rest);
    let Some(rest) = rest else {
        return Words::Two(verb, first);
    };
    let (second, rest) = first_word(rest);
    let Some(rest) = rest else {
        return Words::Three(verb, first, second);
    };
    let (third, rest) = first_word(rest);
    match rest {
        None => Words::Four(verb, first, second, third),
        Some(_) => Words::More,
    }
}

/// Whether a word is this one.
#[tactic(auto, unfolding(crate::specs::Lines::is_text))]
pub(crate) fn is_word(word: &[u8], text: &[u8]) -> bool
    ensures { result ≡ is_text word.now text.now }
{
    word == text
}

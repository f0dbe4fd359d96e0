// The words of a line, one after the other.
ghost use Rattle.std.specs.Prelude.{◌≡◌, ℕ, ◌<◌, ◌≤◌, length, slice_index};
ghost use Rattle.std.specs.Option.{IfSome};
ghost use Rattle.call_script.specs.Lines.{words, is_text};
ghost use Rattle.call_script.specs.Split.{IsFirst};

// The index of the first space, or the length where there is none.
fn first_space(line: &[u8]) -> usize
    ensures within { result ≤ length line.now }
    ensures before { (k : ℕ) → k < result → slice_index line.now k ≡ 32 → ⊥ }
    ensures found { result < length line.now → slice_index line.now result ≡ 32 }
{
    for (i, byte) in line.iter().enumerate() {
        if *byte == b' ' {
            return i;
        }
    }
    line.len()
}

// The first word, and what follows the space behind it.
pub(crate) fn first_word(line: &[u8]) -> (&[u8], Option<&[u8]>)
    ensures word { IsFirst result.0.now result.1 (words line.now) }
    ensures less { IfSome result.1 (λ rest. length rest.now < length line.now) }
{
    let end = first_space(line);
    if end < line.len() {
        (&line[..end], Some(&line[end + 1..]))
    } else {
        (line, None)
    }
}

// Whether a word is this one.
#[tactic(auto, unfolding(call_script::specs::Lines::is_text))]
pub(crate) fn is_word(word: &[u8], text: &[u8]) -> bool
    ensures { result ≡ is_text word.now text.now }
{
    word == text
}

ghost use Rattle.std.specs.Prelude.{◌≡◌, ◌+◌, ◌≤◌, ◌<◌, List, [], ◌∷◌, length, take, MatchOption, Some, None};
ghost use Rattle.std.specs.List.{list_all};
ghost use Rattle.std.specs.Char.{is_ascii_graphic};
ghost use Rattle.std.specs.Option.{option_copied};
ghost use Rattle.call_script.specs.Texts.{text_of, hex_byte_of, unescaped, is_plain as the_plain};

/// The bytes that a word stands for as a name or a text.
#[tactic(auto, unfolding(crate::specs::Texts::text_of), using(crate::proofs::Plain::plain_text))]
pub(crate) fn parse_text<'a>(word: &[u8], scratch: &'a mut [u8]) -> Option<&'a [u8]>
    requires { length word.now ≤ length scratch.old }
    ensures { option_copied result ≡ text_of word.now }
{
    if word.is_empty() {
        return None;
    }
    if is_plain(word) {
        let length = copy(word, scratch);
        return Some(&scratch[..length]);
    }
    if !is_graphic(word) {
        return None;
    }
    let length = unescape(word, scratch);
    Some(&scratch[..length])
}

// Whether all bytes are from 0x21 to 0x7E.
fn is_graphic(word: &[u8]) -> bool
    ensures { result ≡ list_all is_ascii_graphic word.now }
{
    word.iter().all(|b| b.is_ascii_graphic())
}

// Whether each byte is one of these, and none is an escape's first: most texts are so, and are looked at once.
fn is_plain(word: &[u8]) -> bool
    ensures { result ≡ the_plain word.now }
{
    word.iter().all(|b| b.is_ascii_graphic() && *b != b'%')
}

// Puts the bytes of a text at the front of `into`.
fn copy(word: &[u8], into: &mut [u8]) -> usize
    requires { length word.now ≤ length into.old }
    ensures fits { result ≤ length into.new }
    ensures same { take result into.new ≡ word.now }
{
    into[..word.len()].copy_from_slice(word);
    word.len()
}

// Puts the bytes that a text stands for at the front of `into`.
fn unescape(word: &[u8], into: &mut [u8]) -> usize
    requires { length word.now ≤ length into.old }
    ensures fits { result ≤ length into.new }
    ensures plain { take result into.new ≡ unescaped word.now }
{
    let mut length = 0;
    let mut rest = word;
    while let Some((byte, behind)) = next_byte(rest) {
        into[length] = byte;
        length += 1;
        rest = behind;
    }
    length
}

// The first byte that a text stands for, and the text behind it.
#[tactic(auto, unfolding(crate::specs::Texts::hex_byte_of))]
fn next_byte(text: &[u8]) -> Option<(u8, &[u8])>
    ensures byte { MatchOption result (text.now ≡ []) (λ r. unescaped text.now ≡ r.0 ∷ unescaped r.1.now) }
    ensures less { MatchOption result (text.now ≡ []) (λ r. length r.1.now < length text.now) }
{
    match text {
        [b'%', high, low, rest @ ..] => match hex_byte(*high, *low) {
            Some(byte) => Some((byte, rest)),
            None => Some((b'%', &text[1..])),
        },
        [byte, rest @ ..] => Some((*byte, rest)),
        [] => None,
    }
}

// The byte of two hexadecimal digits of either case.
#[tactic(auto, unfolding(crate::specs::Texts::hex_byte_of))]
fn hex_byte(high: u8, low: u8) -> Option<u8>
    ensures { result ≡ hex_byte_of (high ∷ low ∷ []) }
{
    let high = char::from(high).to_digit(16)?;
    let low = char::from(low).to_digit(16)?;
    Some((high * 16 + low) as u8)
}

/// The byte that a word of two hexadecimal digits stands for.
#[tactic(auto, unfolding(crate::specs::Texts::hex_byte_of))]
pub(crate) fn parse_hex_byte(word: &[u8]) -> Option<u8>
    ensures { result ≡ hex_byte_of word.now }
{
    match word {
        [high, low] => hex_byte(*high, *low),
        _ => None,
    }
}

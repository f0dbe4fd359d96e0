ghost use Rattle.std.specs.Prelude.{◌≡◌, ◌*◌, ◌≤◌, length, IfSome};
ghost use Rattle.front_words.specs.Amounts.{amount, hex_amount, hex_after, up_to, decimal_amount, digits_in, scale_in};

use call_script::parse_number;

/// The greatest number that a word spells.
const MOST: u64 = 4_294_967_295;

// The number that hexadecimal digits of either case spell, where there are any.
#[tactic(auto, unfolding(crate::specs::Amounts::hex_amount))]
fn read_hex(digits: &[u8]) -> Option<u32>
    ensures { result ≡ hex_amount digits.now }
{
    if digits.is_empty() {
        return None;
    }
    hex_up_to(digits)
}

// The number that hexadecimal digits spell.
fn hex_up_to(digits: &[u8]) -> Option<u32>
    ensures { result ≡ up_to (hex_after 0 digits.now) }
{
    let mut number: u64 = 0;
    for digit in digits {
        let value = char::from(*digit).to_digit(16)?;
        number = number * 16 + u64::from(value);
        if number > MOST {
            return None;
        }
    }
    Some(number as u32)
}

// By how much the last byte of a word multiplies: K by 1,024, M by 1,048,576.
#[tactic(auto, unfolding(crate::specs::Amounts::scale_in))]
fn scale_of(word: &[u8]) -> u64
    ensures scale { result ≡ scale_in word.now }
    ensures some { 1 ≤ result }
{
    if word.is_empty() {
        return 1;
    }
    match word[word.len() - 1] {
        b'K' => 1024,
        b'M' => 1_048_576,
        _ => 1,
    }
}

// A word without what multiplies.
fn digits_of(word: &[u8], scale: u64) -> &[u8]
    ensures { result.now ≡ digits_in word.now scale }
{
    if scale == 1 || word.is_empty() {
        word
    } else {
        &word[..word.len() - 1]
    }
}

// The number that decimal digits spell, or digits with K or M behind.
#[tactic(auto, unfolding(crate::specs::Amounts::decimal_amount))]
fn read_decimal(word: &[u8]) -> Option<u32>
    ensures { result ≡ decimal_amount word.now }
{
    let scale = scale_of(word);
    let number = parse_number(digits_of(word, scale), MOST / scale)?;
    Some((number * scale) as u32)
}

/// The number below 2^32 that a word spells: decimal digits without a leading zero, the same with `K` behind for 1,024 or `M` for 1,048,576
/// times as many, or `0x` and hexadecimal digits of either case.
pub fn read_amount(word: &[u8]) -> Option<u32>
    ensures { result ≡ amount word.now }
{
    match word {
        [b'0', b'x', digits @ ..] => read_hex(digits),
        other => read_decimal(other),
    }
}

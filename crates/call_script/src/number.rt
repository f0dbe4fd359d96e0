ghost use Rattle.std.specs.Prelude.{◌≡◌, Option, Some, ◌≤◌, IfSome, option_map};
ghost use Rattle.call_script.specs.Numerals.{number_of, number_up_to, digits_after, at_most, signed_up_to};

/// The number that a word of decimal digits spells, where it is at most `most`. It has no sign and no
/// leading zero, save `0` itself.
#[tactic(auto, unfolding(crate::specs::Numerals::number_of, crate::specs::Numerals::number_up_to))]
pub fn parse_number(word: &[u8], most: u64) -> Option<u64>
    ensures number { result ≡ number_up_to most word.now }
    ensures bound { IfSome result (λ n. n ≤ most) }
{
    match word {
        [] | [b'0', _, ..] => None,
        digits => digits_up_to(digits, most),
    }
}

// The number of digits, where they are digits and it is at most `most`.
fn digits_up_to(digits: &[u8], most: u64) -> Option<u64>
    ensures number { result ≡ at_most most (digits_after 0 digits.now) }
    ensures bound { IfSome result (λ n. n ≤ most) }
{
    let mut number: u64 = 0;
    for digit in digits {
        if !digit.is_ascii_digit() {
            return None;
        }
        number = number
            .checked_mul(10)?
            .checked_add(u64::from(*digit - b'0'))?;
    }
    (number <= most).then_some(number)
}

/// A number up to 65,535.
pub(crate) fn parse_short(word: &[u8]) -> Option<u16>
    ensures { result ≡ number_up_to 65535 word.now }
{
    let number = parse_number(word, 65535)?;
    Some(number as u16)
}

/// A number up to `most`.
pub(crate) fn parse_long(word: &[u8], most: u32) -> Option<u32>
    ensures number { result ≡ number_up_to most word.now }
    ensures bound { IfSome result (λ n. n ≤ most) }
{
    let number = parse_number(word, u64::from(most))?;
    Some(number as u32)
}

/// A number from -4,294,967,295 to 4,294,967,295.
#[tactic(auto, unfolding(crate::specs::Numerals::signed_up_to))]
pub(crate) fn parse_signed(word: &[u8]) -> Option<i64>
    ensures { result ≡ signed_up_to 4294967295 word.now }
{
    match word {
        [b'-', digits @ ..] => match parse_number(digits, 4_294_967_295)? {
            0 => None,
            number => Some(-(number as i64)),
        },
        digits => {
            let number = parse_number(digits, 4_294_967_295)?;
            Some(number as i64)
        }
    }
}

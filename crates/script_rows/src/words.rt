//! The words of a line.
use call_script::parse_number;
use script_bench::Trouble;
use std::alloc::{AllocError, Global};

/// The words of a line, which single spaces part.
pub fn words_of(alloc: Global, text: &str) -> Result<Vec<&str>, AllocError> {
    text.split(' ').collect(alloc)
}

/// The word of that number, from 0.
pub fn word<'t>(words: &[&'t str], at: usize) -> Result<&'t str, Trouble> {
    words.get(at).copied().ok_or(Trouble::Line)
}

/// The decimal number that a text is, up to the greatest.
pub fn number_of(text: &str, most: u64) -> Result<u64, Trouble> {
    parse_number(text.as_bytes(), most).ok_or(Trouble::Line)
}

/// The number that the word of that number is, up to the greatest.
pub fn number(words: &[&str], at: usize, most: u64) -> Result<u64, Trouble> {
    number_of(word(words, at)?, most)
}

// The value of a hexadecimal digit.
fn digit(byte: u8) -> Option<u8> {
    match byte {
        b'0'..=b'9' => Some(byte - b'0'),
        b'A'..=b'F' => Some(byte - b'A' + 10),
        _ => None,
    }
}

/// The byte that two hexadecimal digits spell.
pub fn byte_of(text: &str) -> Result<u8, Trouble> {
    let [high, low] = text.as_bytes() else {
        return Err(Trouble::Line);
    };
    match (digit(*high), digit(*low)) {
        (Some(high), Some(low)) => Ok((high & 15) * 16 + (low & 15)),
        _ => Err(Trouble::Line),
    }
}

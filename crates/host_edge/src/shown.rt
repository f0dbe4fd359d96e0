//! Texts of others as they may be shown.
use std::fmt;
use std::fmt::Write;

/// A text as it may be written to a terminal: for each byte of a control character `%` and two upper-case hexadecimal digits stand, and all
/// else stands for itself.
#[derive(Clone, Copy, Debug, PartialEq, Eq)]
pub struct Shown<'t>(pub &'t str);

// A character, as `%` and two digits for each of its bytes.
#[derive(Clone, Copy, Debug, PartialEq, Eq)]
struct Escaped(char);

impl fmt::Display for Escaped {
    fn fmt<W: fmt::Write>(&self, f: &mut fmt::Formatter<W>) -> fmt::Result {
        let mut bytes = [0u8; 4];
        for byte in self.0.encode_utf8(&mut bytes).as_bytes() {
            let byte = *byte;
            write!(f, "%{byte:02X}")?;
        }
        Ok(())
    }
}

impl fmt::Display for Shown<'_> {
    fn fmt<W: fmt::Write>(&self, f: &mut fmt::Formatter<W>) -> fmt::Result {
        for letter in self.0.chars() {
            if letter.is_control() {
                write!(f, "{}", Escaped(letter))?;
            } else {
                f.write_char(letter)?;
            }
        }
        Ok(())
    }
}

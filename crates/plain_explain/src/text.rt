// Pieces of the printed text.
ghost use Rattle.std.specs.Prelude.{◌≡◌, ◌∷◌, ◌++◌, ◌<◌, ◌/◌, ◌%◌, [], true, OnOk, IfOk, string_bytes};
ghost use Rattle.std.specs.Fmt.{digit_glyph};
ghost use Rattle.call_script.specs.Texts.{printed, printed_byte, hex_pair, hex_text};
ghost use Rattle.plain_explain.specs.Report.{yes_no as the_yes_no, meta_text, refused_line};

use std::alloc::{AllocError, Global};
use std::fmt::Write;

/// The line that tells why a volume of these numbers is refused.
pub(crate) fn geometry_text(alloc: Global, code: u8) -> Result<String, AllocError>
    ensures { IfOk result (λ text. string_bytes text ≡ refused_line code) }
{
    format!(in alloc; "! geometry {code}\n")
}

/// A yes or no, written out.
pub(crate) fn yes_no(yes: bool) -> &'static str
    ensures { result.now ≡ the_yes_no yes }
{
    if yes { "yes" } else { "no" }
}

// The digit of a number below 16.
fn hex_digit(number: u8) -> u8
    requires { number < 16 }
    ensures value { result ≡ digit_glyph true number }
    ensures below { result < 128 }
{
    if number < 10 {
        b'0' + number
    } else {
        b'A' + (number - 10)
    }
}

// Adds a byte as two upper-case hexadecimal digits.
fn push_hex(text: &mut String, byte: u8) -> Result<(), AllocError>
    ensures { OnOk result (string_bytes text.new ≡ string_bytes text.old ++ hex_pair byte) }
{
    text.push(hex_digit(byte / 16) as char)?;
    text.push(hex_digit(byte % 16) as char)
}

// Adds a byte of a name.
fn push_printed_byte(text: &mut String, byte: u8) -> Result<(), AllocError>
    ensures { OnOk result (string_bytes text.new ≡ string_bytes text.old ++ printed_byte byte) }
{
    if byte.is_ascii_graphic() && byte != b'%' {
        return text.push(byte as char);
    }
    text.push('%')?;
    push_hex(text, byte)
}

/// Adds a name: each byte from 0x21 to 0x7E other than `%` as itself, and each other byte as `%` and two upper-case
/// hexadecimal digits.
#[tactic(auto, unfolding(call_script::specs::Texts::printed))]
pub(crate) fn push_name(text: &mut String, name: &[u8]) -> Result<(), AllocError>
    ensures { OnOk result (string_bytes text.new ≡ string_bytes text.old ++ printed name.now) }
{
    for byte in name {
        push_printed_byte(text, *byte)?;
    }
    Ok(())
}

// Adds bytes as pairs of hexadecimal digits.
#[tactic(auto, unfolding(call_script::specs::Texts::hex_text))]
fn push_hex_text(text: &mut String, bytes: &[u8]) -> Result<(), AllocError>
    ensures { OnOk result (string_bytes text.new ≡ string_bytes text.old ++ hex_text bytes.now) }
{
    for byte in bytes {
        push_hex(text, *byte)?;
    }
    Ok(())
}

/// Adds bytes as pairs of hexadecimal digits, after a space, where there are any.
pub(crate) fn push_meta(text: &mut String, meta: &[u8]) -> Result<(), AllocError>
    ensures { OnOk result (string_bytes text.new ≡ string_bytes text.old ++ meta_text meta.now) }
{
    if meta.is_empty() {
        return Ok(());
    }
    text.push(' ')?;
    push_hex_text(text, meta)
}

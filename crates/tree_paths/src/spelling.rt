ghost use Rattle.std.specs.Prelude.{◌≡◌, ◌<◌, ◌∷◌, ◌++◌, true, string_bytes, OnOk};
ghost use Rattle.std.specs.Fmt.{digit_glyph};
ghost use Rattle.call_script.specs.Texts.{hex_pair};
ghost use Rattle.tree_paths.specs.Naming.{stands, spelled_byte, spelled, spelled_bytes};

use std::alloc::AllocError;

// Whether a byte stands for itself in a part of a path.
fn is_plain(byte: u8) -> bool
    ensures { result ≡ stands byte }
{
    byte.is_ascii_graphic() && byte != b'%' && byte != b'/'
}

// An upper-case hexadecimal digit.
fn digit(value: u8) -> char
    requires { value < 16 }
    ensures { result ≡ digit_glyph true value }
{
    char::from(if value < 10 {
        b'0' + value
    } else {
        b'A' + (value - 10)
    })
}

// Appends `%` and the two upper-case hexadecimal digits of a byte.
fn push_escape(path: &mut String, byte: u8) -> Result<(), AllocError>
    ensures { OnOk result (string_bytes path.new ≡ string_bytes path.old ++ 37 ∷ hex_pair byte) }
{
    path.push('%')?;
    path.push(digit(byte / 16))?;
    path.push(digit(byte % 16))
}

// Appends a byte, as itself or by its digits.
fn push_byte(path: &mut String, byte: u8) -> Result<(), AllocError>
    ensures { OnOk result (string_bytes path.new ≡ string_bytes path.old ++ spelled_byte byte) }
{
    if is_plain(byte) {
        path.push(char::from(byte))
    } else {
        push_escape(path, byte)
    }
}

// Appends bytes.
fn push_bytes(path: &mut String, bytes: &[u8]) -> Result<(), AllocError>
    ensures { OnOk result (string_bytes path.new ≡ string_bytes path.old ++ spelled_bytes bytes.now) }
{
    for byte in bytes {
        push_byte(path, *byte)?;
    }
    Ok(())
}

/// Appends a name as one part of a path: bytes from 0x21 to 0x7E as themselves, but for `%`, `/` and a first `.`; all others as `%` and two
/// upper-case hexadecimal digits; an empty name as a `%` alone.
pub fn push_spelled(path: &mut String, name: &[u8]) -> Result<(), AllocError>
    ensures { OnOk result (string_bytes path.new ≡ string_bytes path.old ++ spelled name.now) }
{
    match name {
        [] => path.push('%'),
        [b'.', rest @ ..] => {
            push_escape(path, b'.')?;
            push_bytes(path, rest)
        }
        bytes => push_bytes(path, bytes),
    }
}

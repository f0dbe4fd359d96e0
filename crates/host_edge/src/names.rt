//! Names of files of a volume as names of files of the host.
ghost use Rattle.std.specs.Prelude.{◌≡◌, ◌<◌, [], ◌∷◌, length, MatchOption, IfOk};
ghost use Rattle.call_script.specs.Texts.{unescaped, hex_byte_of};

use std::alloc::{AllocError, Global};
use std::fmt::Write;

// The bytes that a host's name stands for: `%` and two hexadecimal digits of either case for that byte, everything else
// for itself.
pub(crate) fn decoded(alloc: Global, name: &[u8]) -> Result<Vec<u8>, AllocError>
    ensures { IfOk result (λ bytes. bytes.items ≡ unescaped name.now) }
{
    let mut bytes = Vec::new(alloc);
    let mut rest = name;
    while let Some((byte, behind)) = next_byte(rest) {
        bytes.push(byte)?;
        rest = behind;
    }
    Ok(bytes)
}

// The first byte that a host's name stands for, and the name behind it.
#[tactic(auto, unfolding(call_script::specs::Texts::hex_byte_of))]
fn next_byte(name: &[u8]) -> Option<(u8, &[u8])>
    ensures byte { MatchOption result (name.now ≡ [])
        (λ r. unescaped name.now ≡ r.0 ∷ unescaped r.1.now) }
    ensures less { MatchOption result (name.now ≡ []) (λ r. length r.1.now < length name.now) }
{
    match name {
        [b'%', high, low, rest @ ..] => match hex_byte(*high, *low) {
            Some(byte) => Some((byte, rest)),
            None => Some((b'%', &name[1..])),
        },
        [byte, rest @ ..] => Some((*byte, rest)),
        [] => None,
    }
}

// The byte of two hexadecimal digits of either case.
#[tactic(auto, unfolding(call_script::specs::Texts::hex_byte_of))]
fn hex_byte(high: u8, low: u8) -> Option<u8>
    ensures { result ≡ hex_byte_of (high ∷ low ∷ []) }
{
    let high = char::from(high).to_digit(16)?;
    let low = char::from(low).to_digit(16)?;
    Some((high * 16 + low) as u8)
}

// Whether a byte stands for itself in a name that is put: a host knows no slash in a name, and hides one with a first dot.
fn is_plain(byte: u8, is_first: bool) -> bool {
    byte.is_ascii_graphic() && byte != b'%' && byte != b'/' && !(is_first && byte == b'.')
}

// Appends the host's name of a file: bytes from 0x21 to 0x7E as themselves, but for `%`, `/` and a first `.`; all others
// as `%` and two upper-case hexadecimal digits.
fn push_name(path: &mut String, name: &[u8]) -> Result<(), AllocError> {
    for (i, byte) in name.iter().enumerate() {
        let byte = *byte;
        if is_plain(byte, i == 0) {
            path.push(char::from(byte))?;
        } else {
            write!(path, "%{byte:02X}")?;
        }
    }
    Ok(())
}

// The path of a file that is put into a folder.
pub(crate) fn path_of(alloc: Global, folder: &str, name: &[u8]) -> Result<String, AllocError> {
    let mut path = format!(in alloc; "{folder}/")?;
    push_name(&mut path, name)?;
    Ok(path)
}

ghost use Rattle.std.specs.Prelude.{◌≡◌, ◌<◌, [], ◌∷◌, length, MatchOption, IfOk};
ghost use Rattle.call_script.specs.Texts.{unescaped, hex_byte_of};

use std::alloc::{AllocError, Global};

/// The bytes that a host's name stands for: `%` and two hexadecimal digits of either case for that byte, everything else for itself.
pub fn decoded(alloc: Global, name: &[u8]) -> Result<Vec<u8>, AllocError>
    ensures { IfOk result (λ bytes. bytes.items ≡ unescaped name.now) }
{
    let mut bytes = Vec::new(alloc);
    let mut rest = name;
    while let Some((byte, behind)) = next_byte(rest) {
        bytes.push(byte)?;
        rest = behind;
    }
    Ok(bytes)
}

// The first byte that a host's name stands for, and the name behind it.
#[tactic(auto, unfolding(call_script::specs::Texts::hex_byte_of))]
fn next_byte(name: &[u8]) -> Option<(u8, &[u8])>
    ensures byte { MatchOption result (name.now ≡ [])
        (λ r. unescaped name.now ≡ r.0 ∷ unescaped r.1.now) }
    ensures less { MatchOption result (name.now ≡ []) (λ r. length r.1.now < length name.now) }
{
    match name {
        [b'%', high, low, rest @ ..] => match hex_byte(*high, *low) {
            Some(byte) => Some((byte, rest)),
            None => Some((b'%', &name[1..])),
        },
        [byte, rest @ ..] => Some((*byte, rest)),
        [] => None,
    }
}

// The byte of two hexadecimal digits of either case.
#[tactic(auto, unfolding(call_script::specs::Texts::hex_byte_of))]
fn hex_byte(high: u8, low: u8) -> Option<u8>
    ensures { result ≡ hex_byte_of (high ∷ low ∷ []) }
{
    let high = char::from(high).to_digit(16)?;
    let low = char::from(low).to_digit(16)?;
    Some((high * 16 + low) as u8)
}

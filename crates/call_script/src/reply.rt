ghost use Rattle.std.specs.Prelude.{◌≡◌, ◌+◌, ◌*◌, ◌<◌, ◌^◌, ◌≤◌, ◌++◌, ◌∷◌, [], length, take, decimal, true};
ghost use Rattle.std.specs.Fmt.{signed_decimal, digit_glyph};
ghost use Rattle.call_script.specs.Texts.{printed, printed_byte, hex_pair, hex_text};
ghost use Rattle.call_script.specs.Replies.{text, told, bytes_text, meta_text, stat_text, info_text};
ghost use Rattle.call_script.specs.Pieces.{Puts, IsShort};
ghost use Rattle.table_model.specs.Reply.{answered};

use itoa::Buffer;
use table_model::{Info, Reply, Stat};

/// Writes the line that tells a reply at the front of `into`, with the byte that ends it, and answers its
/// length. A name or a text is printed with each byte from 0x21 to 0x7E other than `%` as itself, and each
/// other byte as `%` and two upper-case hexadecimal digits.
pub fn reply_text(reply: &Reply<'_>, into: &mut [u8]) -> usize
    requires room { 4096 ≤ length into.old }
    requires short { IsShort reply.now }
    ensures length { result ≤ 4096 }
    ensures text { take result into.new ≡ text (answered reply.now) }
{
    let end = put_told(into, reply);
    put(into, end, b"\n")
}

// Writes a reply but for the byte that ends it.
#[tactic(auto, using(crate::proofs::Putting::puts_more), unfolding(crate::specs::Replies::told))]
fn put_told(into: &mut [u8], reply: &Reply<'_>) -> usize
    requires room { 4096 ≤ length into.old }
    requires short { IsShort reply.now }
    ensures put { Puts into.old 0 (told (answered reply.now)) into.new result }
    ensures bound { result < 4096 }
{
    match reply {
        Reply::Done => put(into, 0, b"ok"),
        Reply::NoMore => put(into, 0, b"ok none"),
        Reply::Refusal(why) => put_signed(into, 0, why.number()),
        Reply::Number(number) => {
            let at = put(into, 0, b"ok ");
            put_number(into, at, *number)
        }
        Reply::Bytes(bytes) => {
            let at = put(into, 0, b"ok ");
            put_bytes(into, at, bytes)
        }
        Reply::File(stat) => {
            let at = put(into, 0, b"ok ");
            put_stat(into, at, stat)
        }
        Reply::Room(info) => {
            let at = put(into, 0, b"ok ");
            put_info(into, at, info)
        }
    }
}

// Writes how many bytes were read, and the bytes where there are any.
fn put_bytes(into: &mut [u8], at: usize, bytes: &[u8]) -> usize
    requires few { length bytes.now ≤ 1024 }
    requires room { at + 3083 ≤ length into.old }
    ensures put { Puts into.old at (bytes_text bytes.now) into.new result }
    ensures bound { result ≤ at + 3083 }
{
    if bytes.is_empty() {
        return put(into, at, b"0");
    }
    let at = put_number(into, at, bytes.len() as u32);
    put_behind_space(into, at, bytes)
}

/// Writes a space, and a name or a text as replies print it, behind the first `at` bytes. Answers where it ends.
pub fn put_behind_space(into: &mut [u8], at: usize, bytes: &[u8]) -> usize
    requires { at + 1 + 3 * length bytes.now ≤ length into.old }
    ensures put { Puts into.old at (32 ∷ printed bytes.now) into.new result }
    ensures bound { result ≤ at + 1 + 3 * length bytes.now }
{
    let at = put(into, at, b" ");
    put_printed(into, at, bytes)
}

// Writes a file's record.
fn put_stat(into: &mut [u8], at: usize, stat: &Stat) -> usize
    requires { at + 255 ≤ length into.old }
    ensures put { Puts into.old at (stat_text stat.now) into.new result }
    ensures bound { result ≤ at + 255 }
{
    let at = put_number(into, at, u32::from(stat.id));
    let at = put_count(into, at, b" ", u32::from(stat.kind));
    let at = put_count(into, at, b" ", stat.size);
    let at = put_behind_space(into, at, stat.name.as_slice());
    put_meta(into, at, stat.meta.as_slice())
}

// Writes a space and the meta bytes, where there are any.
fn put_meta(into: &mut [u8], at: usize, meta: &[u8]) -> usize
    requires { at + 1 + 2 * length meta.now ≤ length into.old }
    ensures put { Puts into.old at (meta_text meta.now) into.new result }
    ensures bound { result ≤ at + 1 + 2 * length meta.now }
{
    if meta.is_empty() {
        return put(into, at, b"");
    }
    let at = put(into, at, b" ");
    put_hex_text(into, at, meta)
}

// Writes how full a volume is.
fn put_info(into: &mut [u8], at: usize, info: &Info) -> usize
    requires { at + 67 ≤ length into.old }
    ensures put { Puts into.old at (info_text info.now) into.new result }
    ensures bound { result ≤ at + 67 }
{
    let at = put_count(into, at, b"files ", info.files);
    let at = put_count(into, at, b" index ", info.index_pages);
    let at = put_count(into, at, b" data ", info.data_pages);
    put_count(into, at, b" usable ", info.usable_pages)
}

/// Writes a label and a number in decimal digits behind the first `at` bytes. Answers where it ends.
pub fn put_count(into: &mut [u8], at: usize, label: &[u8], number: u32) -> usize
    requires { at + length label.now + 10 ≤ length into.old }
    ensures put { Puts into.old at (label.now ++ decimal number) into.new result }
    ensures bound { result ≤ at + length label.now + 10 }
{
    let at = put(into, at, label);
    put_number(into, at, number)
}

/// Writes a piece behind the first `at` bytes, and answers where it ends.
pub fn put(into: &mut [u8], at: usize, piece: &[u8]) -> usize
    requires { at + length piece.now ≤ length into.old }
    ensures { Puts into.old at piece.now into.new result }
{
    let end = at + piece.len();
    into[at..end].copy_from_slice(piece);
    end
}

/// Writes a number in decimal digits behind the first `at` bytes. Answers where it ends.
pub fn put_number(into: &mut [u8], at: usize, number: u32) -> usize
    requires { at + 10 ≤ length into.old }
    ensures put { Puts into.old at (decimal number) into.new result }
    ensures bound { result ≤ at + 10 }
{
    put(into, at, Buffer::new().format(number).as_bytes())
}

// Writes a number that may be below zero in decimal digits.
fn put_signed(into: &mut [u8], at: usize, number: i32) -> usize
    requires { at + 40 ≤ length into.old }
    ensures put { Puts into.old at (signed_decimal number) into.new result }
    ensures bound { result ≤ at + 40 }
{
    put(into, at, Buffer::new().format(number).as_bytes())
}

// The digit of a number below 16.
fn hex_digit(number: u8) -> u8
    requires { number < 16 }
    ensures { result ≡ digit_glyph true number }
{
    if number < 10 {
        b'0' + number
    } else {
        b'A' + (number - 10)
    }
}

// Writes a byte as two hexadecimal digits.
fn put_hex(into: &mut [u8], at: usize, byte: u8) -> usize
    requires { at + 2 ≤ length into.old }
    ensures { Puts into.old at (hex_pair byte) into.new result }
{
    put(into, at, &[hex_digit(byte / 16), hex_digit(byte % 16)])
}

// Writes a byte of a name or a text.
fn put_printed_byte(into: &mut [u8], at: usize, byte: u8) -> usize
    requires { at + 3 ≤ length into.old }
    ensures put { Puts into.old at (printed_byte byte) into.new result }
    ensures bound { result ≤ at + 3 }
{
    if byte.is_ascii_graphic() && byte != b'%' {
        put(into, at, &[byte])
    } else {
        let at = put(into, at, b"%");
        put_hex(into, at, byte)
    }
}

// Writes a name or a text.
fn put_printed(into: &mut [u8], at: usize, bytes: &[u8]) -> usize
    requires { at + 3 * length bytes.now ≤ length into.old }
    ensures put { Puts into.old at (printed bytes.now) into.new result }
    ensures bound { result ≤ at + 3 * length bytes.now }
{
    let mut end = at;
    for byte in bytes {
        end = put_printed_byte(into, end, *byte);
    }
    end
}

// Writes bytes as pairs of hexadecimal digits.
fn put_hex_text(into: &mut [u8], at: usize, bytes: &[u8]) -> usize
    requires { at + 2 * length bytes.now ≤ length into.old }
    ensures put { Puts into.old at (hex_text bytes.now) into.new result }
    ensures bound { result ≤ at + 2 * length bytes.now }
{
    let mut end = at;
    for byte in bytes {
        end = put_hex(into, end, *byte);
    }
    end
}

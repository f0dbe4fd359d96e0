ghost use Rattle.std.specs.Prelude.{◌≡◌, ◌+◌, ◌*◌, ◌≤◌, ◌<◌, length};
ghost use Rattle.table_model.specs.Ask.{Removes, Renames, Opens, Writes, Closes, Informs};
ghost use Rattle.call_script.specs.Pieces.{Puts};
ghost use Rattle.front_words.specs.Scripts.{line_of, turned as the_turned, working, is_free as the_free, can_put};

use crate::word::is;
use call_script::{put, put_behind_space, put_count};

/// The most bytes of a file that one line of a script writes.
pub const PIECE: usize = 1362;

/// The name of a file that is being written, the one byte 1. Copies have it too.
pub const SCRATCH: &[u8] = b"\x01";

/// The flags of an opening that empties a file, or makes it: TRUNC, CREAT and WRONLY.
pub const ANEW: u32 = 22;

/// The flags of an opening that goes on at a file's end: APPEND and WRONLY.
pub const ON: u32 = 17;

/// Writes the line that removes a file at the front of `into`, and answers its length.
#[tactic(auto, using(call_script::proofs::Putting::puts_more), unfolding(call_script::specs::Printing::spelling))]
pub fn remove_line(name: &[u8], into: &mut [u8]) -> usize
    requires { 8 + 3 * length name.now ≤ length into.old }
    ensures { Puts into.old 0 (line_of (Removes name.now)) into.new result }
{
    let at = put(into, 0, b"remove");
    let at = put_behind_space(into, at, name);
    put(into, at, b"\n")
}

/// Writes the line that renames a file at the front of `into`, and answers its length.
#[tactic(auto, using(call_script::proofs::Putting::puts_more), unfolding(call_script::specs::Printing::spelling))]
pub fn rename_line(old_name: &[u8], new_name: &[u8], into: &mut [u8]) -> usize
    requires { 9 + 3 * length old_name.now + 3 * length new_name.now ≤ length into.old }
    ensures { Puts into.old 0 (line_of (Renames old_name.now new_name.now)) into.new result }
{
    let at = put(into, 0, b"rename");
    let at = put_behind_space(into, at, old_name);
    let at = put_behind_space(into, at, new_name);
    put(into, at, b"\n")
}

/// Writes the line that opens a file at the front of `into`, and answers its length.
#[tactic(auto, using(call_script::proofs::Putting::puts_more), unfolding(call_script::specs::Printing::spelling))]
pub fn open_line(name: &[u8], flags: u32, into: &mut [u8]) -> usize
    requires { 17 + 3 * length name.now ≤ length into.old }
    ensures { Puts into.old 0 (line_of (Opens name.now flags)) into.new result }
{
    let at = put(into, 0, b"open");
    let at = put_behind_space(into, at, name);
    let at = put_count(into, at, b" ", flags);
    put(into, at, b"\n")
}

/// Writes the line that writes bytes through descriptor 1 at the front of `into`, and answers its length. A line of a script has at most 4,096
/// bytes before the one that ends it, which is room for `PIECE` bytes.
#[tactic(auto, using(call_script::proofs::Putting::puts_more), unfolding(call_script::specs::Printing::spelling))]
pub fn write_line(bytes: &[u8], into: &mut [u8]) -> usize
    requires { 18 + 3 * length bytes.now ≤ length into.old }
    ensures { Puts into.old 0 (line_of (Writes 1 bytes.now)) into.new result }
{
    let at = put_count(into, 0, b"write ", 1);
    let at = put_behind_space(into, at, bytes);
    put(into, at, b"\n")
}

/// Writes the line that closes descriptor 1 at the front of `into`, and answers its length.
#[tactic(auto, using(call_script::proofs::Putting::puts_more), unfolding(call_script::specs::Printing::spelling))]
pub fn close_line(into: &mut [u8]) -> usize
    requires { 17 ≤ length into.old }
    ensures { Puts into.old 0 (line_of (Closes 1)) into.new result }
{
    let at = put_count(into, 0, b"close ", 1);
    put(into, at, b"\n")
}

/// Writes the line that asks how full the volume is at the front of `into`, and answers its length.
#[tactic(auto, unfolding(call_script::specs::Printing::spelling))]
pub fn info_line(into: &mut [u8]) -> usize
    requires { 5 ≤ length into.old }
    ensures { Puts into.old 0 (line_of Informs) into.new result }
{
    put(into, 0, b"info\n")
}

// A byte with its top bit turned.
fn turn(byte: u8) -> u8
    ensures { result ≡ the_turned byte }
{
    if byte < 128 { byte + 128 } else { byte - 128 }
}

/// Turns a name into its working name: the first byte with its top bit turned, and the rest. Turned again it is the name.
pub fn make_working(name: &mut [u8])
    ensures { name.new ≡ working name.old }
{
    if !name.is_empty() {
        name[0] = turn(name[0]);
    }
}

// Whether a file can have a name beside one that is being written: it isn't empty, holds no zero byte and isn't `SCRATCH`.
#[tactic(auto, unfolding(crate::specs::Scripts::is_free))]
fn is_free(name: &[u8]) -> bool
    ensures { result ≡ the_free name.now }
{
    !name.is_empty() && !name.contains(&0) && !is(name, SCRATCH)
}

/// Whether a file can be put under a name: it and its working name aren't empty, hold no zero byte and aren't `SCRATCH`.
#[tactic(auto, using(crate::proofs::Working::put_by, crate::proofs::Working::put_not, crate::proofs::Working::free_some))]
pub fn can_be_put(name: &[u8]) -> bool
    ensures { result ≡ can_put name.now }
{
    if !is_free(name) {
        return false;
    }
    name[0] != 128 && !is(name, b"\x81")
}

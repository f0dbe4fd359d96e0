//! The line of a candidate.
ghost use Rattle.std.specs.Prelude.{◌≡◌, ◌+◌, ◌*◌, ◌<◌, ◌≤◌, ◌^◌, length};
ghost use Rattle.call_script.specs.Pieces.{Puts};
ghost use Rattle.detect_tool.specs.Lines.{kind_word, last_text, place_text, counts_text, several_text, found_line};

use call_script::{put, put_count};
use geometry::MagicKind;
use volume_detect::byte_of;
use volume_rank::Found;

/// Bytes for a line.
pub(crate) const LINE: usize = 256;

// The word for what a magic tells.
fn word_of(magic: MagicKind) -> &'static [u8]
    ensures word { result.now ≡ kind_word magic }
    ensures short { length result.now ≤ 5 }
{
    match magic {
        MagicKind::Plain => b"plain",
        MagicKind::Length => b"len",
    }
}

// Writes the last of several numbers of meta bytes.
fn put_last(into: &mut [u8], at: usize, first: u32, last: u32) -> usize
    requires { at + 11 ≤ length into.old }
    ensures put { Puts into.old at (last_text first last) into.new result }
    ensures bound { result ≤ at + 11 }
{
    if first == last {
        put(into, at, b"")
    } else {
        put_count(into, at, b"-", last)
    }
}

// Writes where a candidate begins, and its numbers but for the meta bytes, at the front.
#[tactic(auto, using(call_script::proofs::Putting::puts_more), unfolding(crate::specs::Lines::place_text))]
fn put_place(into: &mut [u8], f: &Found) -> usize
    requires place { f.now.place < 84 * 2 ^ 20 }
    requires room { 256 ≤ length into.old }
    ensures put { Puts into.old 0 (place_text f.now) into.new result }
    ensures bound { result ≤ 64 }
{
    let at = put_count(into, 0, b"at ", byte_of(f.place));
    let at = put_count(into, at, b" page ", f.volume.page());
    let at = put_count(into, at, b" block ", f.volume.block());
    put_count(into, at, b" blocks ", f.volume.blocks())
}

// Writes the numbers of meta bytes, what the magic tells, and the counts.
#[tactic(auto, using(call_script::proofs::Putting::puts_more), unfolding(crate::specs::Lines::counts_text))]
fn put_counts(into: &mut [u8], at: usize, f: &Found) -> usize
    requires { at + 100 ≤ length into.old }
    ensures put { Puts into.old at (counts_text f.now) into.new result }
    ensures bound { result ≤ at + 100 }
{
    let first = f.volume.meta();
    let at = put_count(into, at, b" meta ", first);
    let at = put_last(into, at, first, f.last_meta);
    let at = put(into, at, b" magic ");
    let at = put(into, at, word_of(f.volume.magic));
    let at = put_count(into, at, b" files ", f.counts.whole);
    put_count(into, at, b" damaged ", f.counts.damaged)
}

// Writes how many there are of what a volume has none of, or one: nothing then.
fn put_several(into: &mut [u8], at: usize, word: &[u8], count: u32) -> usize
    requires word { length word.now ≤ 9 }
    requires room { at + 19 ≤ length into.old }
    ensures put { Puts into.old at (several_text word.now count) into.new result }
    ensures bound { result ≤ at + 19 }
{
    if count < 2 {
        put(into, at, b"")
    } else {
        put_count(into, at, word, count)
    }
}

/// Writes the line of a candidate at the front.
#[tactic(auto, using(call_script::proofs::Putting::puts_more), unfolding(crate::specs::Lines::found_line))]
pub(crate) fn put_found(into: &mut [u8], f: &Found) -> usize
    requires place { f.now.place < 84 * 2 ^ 20 }
    requires room { 256 ≤ length into.old }
    ensures put { Puts into.old 0 (found_line f.now) into.new result }
    ensures bound { result ≤ 256 }
{
    let at = put_place(into, f);
    let at = put_counts(into, at, f);
    let at = put_several(into, at, b" spoiled ", f.spoiled);
    let at = put_several(into, at, b" doubled ", f.doubled);
    put(into, at, b"\n")
}

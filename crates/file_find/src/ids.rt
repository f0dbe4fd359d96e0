//! Ids of header pages, noted behind the marks of pages: a bit for each id, eight to a byte. Names are noted behind them, by a
//! number from 0x8000 on that names may have in common.
ghost use Rattle.std.specs.Prelude.{◌≡◌, ◌+◌, ◌/◌, ◌<◌, ◌≤◌, ℕ, length, slice_index, Some, not, true};
ghost use Rattle.file_find.specs.Ids.{is_noted as the_is_noted, unnoted, name_number as the_name_number, Notes, NotesNames};

use page_layout::note_id;

// Bytes of the bits of all ids and names.
const BITS: usize = 8192;

/// Clears the first `start` bytes, and the bits behind them.
#[tactic(auto)]
pub(crate) fn clear(marks: &mut [u8], start: usize)
    requires { start + 8192 ≤ length marks.old }
    ensures { (k : ℕ) → k < start + 8192 → slice_index marks.new k ≡ 0 }
{
    marks[..start + BITS].fill(0);
}

/// Whether an id is noted.
#[tactic(auto)]
pub(crate) fn is_noted(marks: &[u8], start: usize, id: u16) -> bool
    requires { start + id / 8 < length marks.now }
    ensures { result ≡ the_is_noted marks.now start id }
{
    page_layout::is_noted(&marks[start..], id)
}

// Notes an id.
#[tactic(auto)]
fn note_one(marks: &mut [u8], start: usize, id: u16)
    requires { start + 8192 ≤ length marks.old }
    ensures { Notes start (Some id) marks.old marks.new }
{
    note_id(&mut marks[start..], id);
}

/// Notes the id that a page tells: that id, where it wasn't noted before.
#[tactic(auto)]
pub(crate) fn note_first(marks: &mut [u8], start: usize, found: Option<u16>) -> Option<u16>
    requires { start + 8192 ≤ length marks.old }
    ensures first { result ≡ unnoted marks.old start found }
    ensures notes { Notes start found marks.old marks.new }
{
    let id = found?;
    if is_noted(marks, start, id) {
        return None;
    }
    note_one(marks, start, id);
    Some(id)
}

// The number that a name is noted with.
fn name_number(name: &[u8]) -> u16
    ensures { result ≡ the_name_number name.now }
{
    let mut hash = 0u32;
    for &byte in name {
        hash = (101 * hash + u32::from(byte)) % 0x8000;
    }
    0x8000 + hash as u16
}

/// Notes a name: whether none of its number was noted before.
#[tactic(auto)]
pub(crate) fn note_name(marks: &mut [u8], start: usize, name: &[u8]) -> bool
    requires { start + 8192 ≤ length marks.old }
    ensures first { result ≡ not (the_is_noted marks.old start (the_name_number name.now)) }
    ensures noted { the_is_noted marks.new start (the_name_number name.now) ≡ true }
    ensures names { NotesNames start marks.old marks.new }
{
    let number = name_number(name);
    if is_noted(marks, start, number) {
        return false;
    }
    note_one(marks, start, number);
    true
}

ghost use Rattle.std.specs.Prelude.{◌≡◌, ◌+◌, ◌≤◌, ℕ, List, length, slice_range};
ghost use Rattle.page_layout.specs.Layout.{IsApart, header_at, size_field, type_of};
ghost use Rattle.nor_core.specs.Flash.{word_at, SameOutside};
ghost use Rattle.image_model.specs.Headers.{name_of};

use byteorder::{ByteOrder, LittleEndian};

/// The number in the two bytes at byte `at`, the lower first.
pub fn read_word(bytes: &[u8], at: usize) -> u16
    requires { at + 2 ≤ length bytes.now }
    ensures { result ≡ word_at bytes.now at }
{
    LittleEndian::read_u16(&bytes[at..at + 2])
}

/// Writes a number into the two bytes at byte `at`, the lower first.
pub fn put_word(bytes: &mut [u8], at: usize, word: u16)
    requires { at + 2 ≤ length bytes.old }
    ensures word { word_at bytes.new at ≡ word }
    ensures others { SameOutside at 2 bytes.old bytes.new }
{
    LittleEndian::write_u16(&mut bytes[at..at + 2], word);
}

/// Laws: a write to some bytes keeps each field that has none of them. A word is one of an index or lookup
/// page, and a range one of meta bytes or file bytes.
pub fn fields_stay()
    ensures word { (at count i : ℕ) (old new : List ℕ) → SameOutside at count old new → IsApart at count i 2 → word_at new i ≡ word_at old i }
    ensures range { (at count i n : ℕ) (old new : List ℕ) → SameOutside at count old new → IsApart at count i n →
        slice_range new i (i + n) ≡ slice_range old i (i + n) }
    ensures header { (at count : ℕ) (old new : List ℕ) → SameOutside at count old new → 5 ≤ at → header_at new ≡ header_at old }
    ensures size { (at count : ℕ) (old new : List ℕ) → SameOutside at count old new → IsApart at count 8 4 → size_field new ≡ size_field old }
    ensures kind { (at count : ℕ) (old new : List ℕ) → SameOutside at count old new → IsApart at count 12 1 → type_of new ≡ type_of old }
    ensures name { (at count : ℕ) (old new : List ℕ) → SameOutside at count old new → IsApart at count 13 32 → name_of new ≡ name_of old }
{}

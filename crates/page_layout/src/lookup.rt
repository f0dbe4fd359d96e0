ghost use Rattle.std.specs.Prelude.{◌≡◌, ℕ, ◌+◌, ◌-◌, ◌*◌, ◌<◌, ◌≤◌, ◌^◌, length, IfSome, true, false};
ghost use Rattle.geometry.specs.Numbers.{slots, lookups};
ghost use Rattle.nor_core.specs.Flash.{word_at};
ghost use Rattle.page_layout.specs.Layout.{count_in, is_between, end_of};

use crate::words::read_word;
use geometry::Geometry;

/// The entry of a page that is free, and a page number that names no page.
pub const FREE: u16 = 0xFFFF;

/// The entry of a page that is deleted.
pub const DELETED: u16 = 0;

/// The bit of an id that tells an index page from a data page.
pub const INDEX_BIT: u16 = 0x8000;

/// The byte of a block at which the entry of its entry page `i` stands, counted from 0.
pub fn entry_offset(i: u32) -> u32
    requires { i < 2 ^ 31 }
    ensures { result ≡ 2 * i }
{
    2 * i
}

/// The byte of a block at which its magic stands: in the last slot of the lookup pages but one.
pub fn magic_offset(g: &Geometry) -> u32
    ensures place { result ≡ 2 * (slots g.now - 2) }
    ensures within { result + 4 ≤ lookups g.now * g.now.page }
{
    2 * (g.lookups() * g.page() / 2 - 2)
}

/// The byte of a block at which its erase count stands: in the last slot of the lookup pages.
pub fn count_offset(g: &Geometry) -> u32
    ensures place { result ≡ 2 * (slots g.now - 1) }
    ensures within { result + 2 ≤ lookups g.now * g.now.page }
{
    2 * (g.lookups() * g.page() / 2 - 1)
}

/// The erase count that the slot of a block tells. Values from 0x8000 on, as an erased slot has, count as 0.
pub fn read_count(raw: u16) -> u16
    ensures { result ≡ count_in raw }
{
    if raw < 0x8000 { raw } else { 0 }
}

/// The first slot from `from` on, and below `to`, of a lookup page whose number lies between `low` and `high`, which count
/// too, and that number.
pub fn slot_between(
    bytes: &[u8],
    from: usize,
    to: usize,
    low: u16,
    high: u16,
) -> Option<(usize, u16)>
    requires { 2 * to ≤ length bytes.now }
    ensures found { IfSome result (λ f. (from ≤ f.0) × (f.0 < to) × (f.1 ≡ word_at bytes.now (2 * f.0)) × (is_between low high f.1 ≡ true)) }
    ensures passed { (i : ℕ) → from ≤ i → i < end_of to result → is_between low high (word_at bytes.now (2 * i)) ≡ false }
{
    for i in from..to {
        let word = read_word(bytes, 2 * i);
        if low <= word && word <= high {
            return Some((i, word));
        }
    }
    None
}

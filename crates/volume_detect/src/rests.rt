// Rests of longer volumes.
ghost use Rattle.std.specs.Prelude.{◌≡◌, ℕ, ◌+◌, ◌-◌, ◌*◌, ◌<◌, ◌≤◌, ◌^◌, length, IsTrue, IsFalse};
ghost use Rattle.volume_detect.specs.Rests.{IsRestBy, IsNearRest};

use crate::rows::{has_wide_gap, is_marked, widest_gap};
use crate::volumes::volume_of;
use geometry::Geometry;

// Whether a volume is the rest of one with so many blocks more.
fn is_rest_by(words: &[u8], first: usize, step: usize, g: &Geometry, more: u32) -> bool
    requires page { (i : ℕ) × (i < 6) × (g.now.page ≡ 128 * 2 ^ i) }
    requires phys { g.now.phys ≡ g.now.block }
    requires meta { g.now.meta ≡ 0 }
    requires more { more ≤ 9 }
    requires step { step < 2 ^ 16 }
    requires inside { 2 * (first + step * (g.now.blocks - 1)) + 2 ≤ length words.now }
    ensures rest { IsTrue result → IsRestBy words.now first step g.now more }
    ensures none { IsFalse result → IsRestBy words.now first step g.now more → ⊥ }
{
    let before = step * more as usize;
    if first < before {
        return false;
    }
    let from = first - before;
    match volume_of(g.page(), g.block(), g.blocks() + more, g.magic) {
        Some(longer) => {
            is_marked(words, from, step, &longer, 0)
                && !has_wide_gap(words, from, step, &longer, widest_gap(g.magic))
        }
        None => false,
    }
}

// Whether a volume is the rest of a longer one, of which the first block is no farther before it than a gap is wide.
pub(crate) fn is_rest(words: &[u8], first: usize, step: usize, g: &Geometry) -> bool
    requires page { (i : ℕ) × (i < 6) × (g.now.page ≡ 128 * 2 ^ i) }
    requires phys { g.now.phys ≡ g.now.block }
    requires meta { g.now.meta ≡ 0 }
    requires step { step < 2 ^ 16 }
    requires inside { 2 * (first + step * (g.now.blocks - 1)) + 2 ≤ length words.now }
    ensures rest { IsTrue result → IsNearRest words.now first step g.now }
    ensures none { IsFalse result → IsNearRest words.now first step g.now → ⊥ }
{
    for more in 1..widest_gap(g.magic) + 2 {
        if is_rest_by(words, first, step, g, more) {
            return true;
        }
    }
    false
}

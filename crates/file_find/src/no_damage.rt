//! Whether no id is damaged, by marks alone.
ghost use Rattle.std.specs.Prelude.{◌≡◌, ◌≢◌, ◌↔◌, ◌<◌, ◌≤◌, ℕ, [], IsTrue, length, slice_index};
ghost use Rattle.geometry.specs.Numbers.{check_need};
ghost use Rattle.image_model.specs.Tables.{damaged_of};
ghost use Rattle.file_find.specs.Marks.{IsMarked};

use crate::marks::{BROKEN, DOUBLED, next_with};
use flash_view::View;
use nor_core::{Nor, NorState};

// Whether none of the first pages has this mark.
fn lacks(marks: &[u8], mark: u8, pages: u16) -> bool
    requires { pages ≤ length marks.now }
    ensures { IsTrue result ↔ ((p : ℕ) → p < pages → slice_index marks.now p ≢ mark) }
{
    match next_with(marks, mark, 0, pages) {
        Some(_) => false,
        None => true,
    }
}

/// Whether no id is damaged, by right marks. Marks alone are looked at, and no id.
pub fn none_damaged<N: Nor>(v: &View<'_, N>, marks: &[u8]) -> bool
    requires room { check_need v.now.geometry ≤ length marks.now }
    requires marked { N.tells v.now.nor.now → IsMarked v.now.geometry (N.bytes v.now.nor.now) marks.now }
    ensures { N.tells v.now.nor.now → (IsTrue result ↔ damaged_of v.now.geometry (N.bytes v.now.nor.now) ≡ []) }
{
    let pages = v.geometry.pages() as u16;
    lacks(marks, BROKEN, pages) && lacks(marks, DOUBLED, pages)
}

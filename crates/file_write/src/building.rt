// The pages of an append, built in the bytes for work.
ghost use Rattle.std.specs.Prelude.{◌≡◌, ℕ, ◌+◌, ◌<◌, ◌≤◌, length, slice_index, slice_range};
ghost use Rattle.geometry.specs.Numbers.{head_slots};
ghost use Rattle.image_model.specs.Files.{slot_at};
ghost use Rattle.image_laws.specs.Reindex.{slot_word};
ghost use Rattle.nor_core.specs.Flash.{SameOutside};

use geometry::Geometry;
use page_layout::BODY_AT;
use page_renew::{erase_part, name_data, see_bytes};

// Copies bytes to a place.
fn copy_part(bytes: &mut [u8], at: usize, from: &[u8])
    requires { at + length from.now ≤ length bytes.old }
    ensures part { slice_range bytes.new at (at + length from.now) ≡ from.now }
    ensures others { SameOutside at (length from.now) bytes.old bytes.new }
{
    bytes[at..at + from.len()].copy_from_slice(from);
}

// Makes a page the data page of these bytes but for its header: they stand behind that, and 0xFF behind them.
pub(crate) fn build_bytes(page: &mut [u8], from: &[u8])
    requires { 5 + length from.now ≤ length page.old }
    ensures size { length page.new ≡ length page.old }
    ensures holds { slice_range page.new 5 (5 + length from.now) ≡ from.now }
    ensures erased { (k : ℕ) → 5 + length from.now ≤ k → k < length page.new → slice_index page.new k ≡ 0xFF }
    ensures bytes { (k : ℕ) → slice_index page.new k < 256 }
{
    let len = page.len();
    erase_part(page, BODY_AT as usize, len);
    copy_part(page, BODY_AT as usize, from);
    see_bytes(page);
}

// Makes a page the further index page that names page `target` as that of a data span, and no other page, but for its header.
pub(crate) fn build_index(g: &Geometry, page: &mut [u8], span: u16, target: u16)
    requires page { length page.old ≡ g.now.page }
    requires far { head_slots g.now ≤ span }
    ensures size { length page.new ≡ g.now.page }
    ensures slot { slot_word g.now page.new span ≡ target }
    ensures erased { (k : ℕ) → slot_at g.now span + 2 ≤ k → k < g.now.page → slice_index page.new k ≡ 0xFF }
    ensures bytes { (k : ℕ) → slice_index page.new k < 256 }
{
    let len = page.len();
    erase_part(page, BODY_AT as usize, len);
    name_data(g, page, span, target);
}

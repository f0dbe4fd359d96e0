// Where an index page names a data page.
ghost use Rattle.std.specs.Prelude.{◌≡◌, ℕ, ◌<◌, length, slice_index};
ghost use Rattle.nor_core.specs.Flash.{SameOutside};
ghost use Rattle.image_model.specs.Files.{slot_at};
ghost use Rattle.image_laws.specs.Reindex.{slot_word};

use crate::copying::see_bytes;
use geometry::Geometry;
use page_layout::put_entry;

/// Names the data page of a span in the index page that has its entry.
pub fn name_data(g: &Geometry, page: &mut [u8], span: u16, target: u16)
    requires { length page.old ≡ g.now.page }
    ensures entry { slot_word g.now page.new span ≡ target }
    ensures others { SameOutside (slot_at g.now span) 2 page.old page.new }
    ensures bytes { (k : ℕ) → slice_index page.new k < 256 }
{
    put_entry(g, page, span, target);
    see_bytes(page);
}

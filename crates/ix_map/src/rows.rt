// Where the numbers of data pages stand in the index pages of a file.
ghost use Rattle.std.specs.Prelude.{ℕ, ◌+◌, ◌*◌, ◌<◌, ◌≤◌};
ghost use Rattle.image_model.specs.Files.{slot_at};
ghost use Rattle.ix_map.specs.Rows.{InRow};

use geometry::Geometry;

/// How many spans stand in one row, from a span on: their entries stand one behind the other in one index page.
pub(crate) fn row_from(g: &Geometry, span: u32) -> u32
    ensures some { 0 < result }
    ensures row { (k : ℕ) → k < result → InRow g.now span k }
    ensures within { slot_at g.now span + 2 * result ≤ g.now.page }
{
    let named = g.head_slots();
    if span < named {
        named - span
    } else {
        g.span_slots() - (span - named) % g.span_slots()
    }
}

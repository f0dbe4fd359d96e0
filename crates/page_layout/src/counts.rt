// How many pages a file takes.
ghost use Rattle.std.specs.Prelude.{◌≡◌, ◌+◌, ◌-◌, ◌/◌, ◌<◌, ◌^◌};
ghost use Rattle.geometry.specs.Numbers.{head_slots, span_slots};
ghost use Rattle.table_model.specs.Room.{data_pages as the_data_pages, index_pages as the_index_pages};

use geometry::Geometry;

/// Data pages of a file of that size in bytes.
pub fn data_pages(g: &Geometry, size: u32) -> u32
    ensures pages { result ≡ the_data_pages g.now size }
    ensures few { result < 2 ^ 26 }
{
    let body = u64::from(g.body());
    ((u64::from(size) + body - 1) / body) as u32
}

/// Index pages behind the header page of a file of so many data pages: those that name the spans below `spans` which the header
/// page doesn't.
pub fn further_pages(g: &Geometry, spans: u32) -> u32
    requires { spans < 2 ^ 26 }
    ensures { result ≡ (spans - head_slots g.now + span_slots g.now - 1) / span_slots g.now }
{
    let slots = g.span_slots();
    (spans.saturating_sub(g.head_slots()) + slots - 1) / slots
}

/// Index pages of a file of that size in bytes: its header page, and further ones where that names too few data pages.
pub fn index_pages(g: &Geometry, size: u32) -> u32
    ensures { result ≡ the_index_pages g.now size }
{
    1 + further_pages(g, data_pages(g, size))
}

ghost use Rattle.std.specs.Prelude.{◌≡◌, ◌≢◌, ◌<◌, ◌≤◌, length, All};
ghost use Rattle.page_layout.specs.Layout.{new_header_page, IsNewHeader};

use crate::{FILE_TYPE, Flags, INDEX_BIT, PageHeader, put_header, put_name, put_type};
use geometry::Geometry;

/// Makes the header page of a new empty file: used and not finished, of undefined size, with all meta bytes
/// and page numbers erased. The name has 1 to 31 bytes and none of them is zero.
pub fn build_header_page(g: &Geometry, page: &mut [u8], id: u16, name: &[u8])
    requires page { length page.old ≡ g.now.page }
    requires id { id < 0x8000 }
    requires some { 0 < length name.now }
    requires few { length name.now ≤ 31 }
    requires no_zero { All (λ b. b ≢ 0) name.now }
    ensures bytes { page.new ≡ new_header_page g.now.page id name.now }
    ensures fields { IsNewHeader g.now id name.now page.new }
{
    page.fill(0xFF);
    let flags = Flags::placed_index();
    put_header(
        page,
        PageHeader {
            id: id | INDEX_BIT,
            span: 0,
            flags,
        },
    );
    put_type(page, FILE_TYPE);
    put_name(page, name);
}

ghost use Rattle.std.specs.Prelude.{◌≡◌, ◌≢◌, ◌+◌, ◌<◌, ◌≤◌, ◌==◌, length, position, All, Some};
ghost use Rattle.page_layout.specs.Layout.{size_field, type_of as type_in, name_field, padded, meta_of as meta_in};
ghost use Rattle.image_model.specs.Headers.{size_of as size_in, name_of as name_in};
ghost use Rattle.nor_core.specs.Flash.{SameOutside};

use byteorder::{ByteOrder, LittleEndian};
use geometry::Geometry;
use table_model::{Meta, Name};

/// The size field of a file whose size is undefined, which is 0 bytes.
pub const UNDEFINED_SIZE: u32 = 0xFFFF_FFFF;

/// The type of a file.
pub const FILE_TYPE: u8 = 1;

// Where the fields of a header page begin, in bytes.
const SIZE_AT: usize = 8;

const TYPE_AT: usize = 12;

const NAME_AT: usize = 13;

const META_AT: usize = 45;

/// The size field of a header page as it stands (bytes 8 to 11).
pub fn size_of(page: &[u8]) -> u32
    requires { 12 ≤ length page.now }
    ensures { result ≡ size_field page.now }
{
    LittleEndian::read_u32(&page[SIZE_AT..TYPE_AT])
}

/// The size of the file in bytes, by its header page. An undefined size is 0.
pub fn file_size(page: &[u8]) -> u32
    requires { 12 ≤ length page.now }
    ensures { result ≡ size_in page.now }
{
    let size = size_of(page);
    if size == UNDEFINED_SIZE { 0 } else { size }
}

/// Writes the size field of a header page.
pub fn put_size(page: &mut [u8], size: u32)
    requires { 12 ≤ length page.old }
    ensures field { size_field page.new ≡ size }
    ensures others { SameOutside 8 4 page.old page.new }
{
    LittleEndian::write_u32(&mut page[SIZE_AT..TYPE_AT], size);
}

/// The type of the object, by its header page (byte 12): 1 is a file.
pub fn type_of(page: &[u8]) -> u8
    requires { 13 ≤ length page.now }
    ensures { result ≡ type_in page.now }
{
    page[TYPE_AT]
}

/// Writes the type of the object into its header page.
pub fn put_type(page: &mut [u8], kind: u8)
    requires { 13 ≤ length page.old }
    ensures field { type_in page.new ≡ kind }
    ensures others { SameOutside 12 1 page.old page.new }
{
    page[TYPE_AT] = kind;
}

/// The name of the file, by its header page (bytes 13 to 44): what stands before the first zero. There is
/// no name where the field has no zero or begins with one.
pub fn name_of(page: &[u8]) -> Option<Name>
    requires { 45 ≤ length page.now }
    ensures { result ≡ name_in page.now }
{
    let field = &page[NAME_AT..META_AT];
    match first_zero(field) {
        None | Some(0) => None,
        Some(len) => Some(Name::from_slice(&field[..len])),
    }
}

// The place of the first zero byte.
fn first_zero(field: &[u8]) -> Option<usize>
    ensures { result ≡ position (λ b. b == 0) field.now }
{
    field.iter().position(|b| *b == 0)
}

/// Writes the name of the file, of 1 to 31 bytes and none of them zero, into its header page, and zeros to
/// the end of the field.
pub fn put_name(page: &mut [u8], name: &[u8])
    requires page { 45 ≤ length page.old }
    requires some { 0 < length name.now }
    requires few { length name.now ≤ 31 }
    requires no_zero { All (λ b. b ≢ 0) name.now }
    ensures name { name_in page.new ≡ Some name.now }
    ensures field { name_field page.new ≡ padded name.now }
    ensures others { SameOutside 13 32 page.old page.new }
{
    fill_name(&mut page[NAME_AT..META_AT], name);
}

// Fills the field of a name.
fn fill_name(field: &mut [u8], name: &[u8])
    requires field { length field.old ≡ 32 }
    requires few { length name.now ≤ 31 }
    ensures padded { field.new ≡ padded name.now }
    ensures len { length field.new ≡ 32 }
{
    field.fill(0);
    field[..name.len()].copy_from_slice(name);
}

/// The meta bytes of the file, by its header page (from byte 45 on).
pub fn meta_of(g: &Geometry, page: &[u8]) -> Meta
    requires { length page.now ≡ g.now.page }
    ensures { result ≡ meta_in g.now page.now }
{
    Meta::from_slice(&page[META_AT..META_AT + g.meta() as usize])
}

/// Writes the meta bytes of the file into its header page.
pub fn put_meta(g: &Geometry, page: &mut [u8], meta: &[u8])
    requires page { length page.old ≡ g.now.page }
    requires meta { length meta.now ≡ g.now.meta }
    ensures field { meta_in g.now page.new ≡ meta.now }
    ensures others { SameOutside 45 g.now.meta page.old page.new }
{
    page[META_AT..META_AT + meta.len()].copy_from_slice(meta);
}

ghost use Rattle.std.specs.Prelude.{◌≡◌, ◌≤◌, length};
ghost use Rattle.page_layout.specs.Layout.{header_at};
ghost use Rattle.nor_core.specs.Flash.{SameOutside};

use crate::words::{put_word, read_word};
use crate::{FREE, Flags, INDEX_BIT};

/// Where the bytes behind the header of a page begin, which are file bytes in a data page.
pub const BODY_AT: u32 = 5;

/// The header of a page: its first five bytes.
#[derive(Clone, Copy, Debug, PartialEq, Eq)]
pub struct PageHeader {
    /// The object's id, with bit 15 set in index pages (bytes 0 and 1).
    pub id: u16,
    /// The place of the page among the object's index pages or among its data pages, from 0 (bytes 2 and 3).
    pub span: u16,
    /// The flags (byte 4).
    pub flags: Flags,
}

impl PageHeader {
    ghost use Rattle.std.specs.Prelude.{◌%◌};
    ghost use Rattle.page_layout.specs.Layout.{names_index, is_finished as is_finished_head};

    /// Whether the id is that of an index page, and not of a data page.
    pub fn is_index(&self) -> bool
        ensures { result ≡ names_index self.now }
    {
        self.id >= INDEX_BIT
    }

    /// The object's id without the bit that tells index pages.
    pub fn object(&self) -> u16
        ensures { result ≡ self.now.id % 0x8000 }
    {
        self.id & !INDEX_BIT
    }

    /// Whether the page is live where its entry in the lookup pages is this id: it is written, finished and
    /// not deleted, its flags and its id both tell the same kind of page, and no object that is being removed
    /// has it as its header page.
    pub fn is_finished(&self) -> bool
        ensures { result ≡ is_finished_head self.now }
    {
        self.object() != 0
            && self.id != FREE
            && self.flags.is_used()
            && self.flags.is_final()
            && !self.flags.is_deleted()
            && self.flags.is_index() == self.is_index()
            && !(self.is_index() && self.span == 0 && self.flags.is_removing())
    }
}

/// The header of a page. A slice of its first five bytes is enough.
pub fn header_of(page: &[u8]) -> PageHeader
    requires { 5 ≤ length page.now }
    ensures { result ≡ header_at page.now }
{
    PageHeader {
        id: read_word(page, 0),
        span: read_word(page, 2),
        flags: Flags::from_bits(page[4]),
    }
}

/// Writes a page's header.
pub fn put_header(page: &mut [u8], head: PageHeader)
    requires { 5 ≤ length page.old }
    ensures field { header_at page.new ≡ head }
    ensures others { SameOutside 0 5 page.old page.new }
{
    put_word(page, 0, head.id);
    put_word(page, 2, head.span);
    page[4] = head.flags.bits();
}

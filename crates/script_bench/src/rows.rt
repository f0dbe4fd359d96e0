//! Files as programs of other makers write them: all pages in a row.
use crate::images::{begun_index, name_page, size_of};
use crate::{Place, put, put_header, put_page};
use geometry::Geometry;
use std::alloc::{AllocError, Global};

/// The program that writes a file.
#[derive(Clone, Copy, PartialEq, Eq)]
pub enum Maker {
    /// An image tool: it knows the file whole, and writes each page once.
    Tool,
    /// SPIFFS in C, that is given a data page at a time: it writes the header page anew behind each but the first, and deletes the old one.
    Driver,
}

/// A file that such a program writes.
#[derive(Clone, Copy)]
pub struct RowFile<'f> {
    pub id: u16,
    pub name: &'f [u8],
    pub bytes: &'f [u8],
}

// Where the pages of a file go, and those that stand.
#[derive(Drop)]
struct Row {
    // The header page, and the index page with the entry of the last data page.
    header: Place,
    index: Place,
    // The last data page, and the place behind the last page.
    data: Place,
    next: Place,
}

impl Row {
    // The next place.
    fn take(&mut self, g: &Geometry) -> Place {
        let place = self.next;
        self.next = place.next(g);
        place
    }

    // Puts the data page of a span, and before it the index page that begins with its entry.
    fn put_span(&mut self, image: &mut Vec<u8>, g: &Geometry, id: u16, span: usize) {
        if let Some(number) = begun_index(g, span) {
            self.index = self.take(g);
            put_page(image, g, self.index, id | 0x8000, number, 0xF8);
        }
        self.data = self.take(g);
        put_page(image, g, self.data, id, (span % 65536) as u16, 0xFC);
        name_page(image, g, self.index, span, self.data.page(g));
    }

    // Writes the header page anew, and deletes the old one.
    fn renew(
        &mut self,
        alloc: Global,
        image: &mut Vec<u8>,
        g: &Geometry,
    ) -> Result<(), AllocError> {
        let old = self.header;
        let new = self.take(g);
        copy(alloc, image, old.at(g), new.at(g), g.page as usize)?;
        copy(alloc, image, old.entry_at(g), new.entry_at(g), 2)?;
        put(image, old.entry_at(g), &[0, 0]);
        put(image, old.at(g).saturating_add(4), &[0x78]);
        if self.index.page(g) == old.page(g) {
            self.index = new;
        }
        self.header = new;
        Ok(())
    }
}

/// Copies bytes to another place.
pub(crate) fn copy(
    alloc: Global,
    image: &mut Vec<u8>,
    from: usize,
    to: usize,
    count: usize,
) -> Result<(), AllocError> {
    let end = from.saturating_add(count);
    if let Some(bytes) = image.get(from..end) {
        let bytes = bytes.to_vec(alloc)?;
        put(image, to, &bytes);
    }
    Ok(())
}

/// Puts a file from a place on, as that program writes it, and answers the place behind it.
pub fn put_row(
    alloc: Global,
    image: &mut Vec<u8>,
    g: &Geometry,
    maker: Maker,
    first: Place,
    file: RowFile<'_>,
) -> Result<Place, AllocError> {
    put_header(image, g, first, file.id, size_of(file.bytes), file.name);
    let mut row = Row {
        header: first,
        index: first,
        data: first,
        next: first.next(g),
    };
    let body = g.body().max(1) as usize;
    for (i, byte) in file.bytes.iter().enumerate() {
        if i % body == 0 {
            row.put_span(image, g, file.id, i / body);
            if i > 0 && maker == Maker::Driver {
                row.renew(alloc, image, g)?;
            }
        }
        put(image, row.data.at(g).saturating_add(5 + i % body), &[*byte]);
    }
    Ok(row.next)
}

/// Sets the erase count of each block to that of an erased one, as image tools leave them.
pub fn clear_counts(image: &mut Vec<u8>, g: &Geometry) {
    for block in 0..g.blocks {
        let end = block as usize * g.block as usize + g.lookups() as usize * g.page as usize;
        put(image, end.saturating_sub(2), &[0xFF, 0xFF]);
    }
}

//! Images made by hand.
ghost use Rattle.std.specs.Prelude.{◌≤◌};

use geometry::Geometry;
use std::alloc::{AllocError, Global};

/// Puts bytes at a place of an image, as far as it has them.
pub fn put(image: &mut Vec<u8>, at: usize, bytes: &[u8]) {
    for (i, byte) in bytes.iter().enumerate() {
        if let Some(place) = image.get_mut(at.saturating_add(i)) {
            *place = *byte;
        }
    }
}

/// Bytes of 0xFF, and in each block its magic and an erase count of 0.
pub fn empty(alloc: Global, g: &Geometry) -> Result<Vec<u8>, AllocError> {
    let mut image = vec![in alloc; 0xFFu8; g.blocks as usize * g.block as usize]?;
    for block in 0..g.blocks {
        let end = block as usize * g.block as usize + g.lookups() as usize * g.page as usize;
        put(
            &mut image,
            end.saturating_sub(4),
            &g.magic_of(block).to_le_bytes(),
        );
        put(&mut image, end.saturating_sub(2), &[0, 0]);
    }
    Ok(image)
}

/// The place of a page: its block, and which of the block's entry pages it is, from 0.
#[derive(Clone, Copy)]
pub struct Place {
    pub block: usize,
    pub entry: usize,
}

impl Place {
    /// The number of the page in the volume.
    pub fn page(self, g: &Geometry) -> usize {
        let first = self.block.saturating_mul(g.per_block() as usize);
        first
            .saturating_add(g.lookups() as usize)
            .saturating_add(self.entry)
    }

    /// The place of the entry page behind this one.
    pub fn next(self, g: &Geometry) -> Place {
        let entry = self.entry.saturating_add(1);
        if entry < g.entries() as usize {
            return Place { entry, ..self };
        }
        Place {
            block: self.block.saturating_add(1),
            entry: 0,
        }
    }

    // Where the page's bytes begin.
    pub(crate) fn at(self, g: &Geometry) -> usize {
        self.page(g).saturating_mul(g.page as usize)
    }

    // Where the page's entry begins.
    pub(crate) fn entry_at(self, g: &Geometry) -> usize {
        let block = self.block.saturating_mul(g.block as usize);
        block.saturating_add(self.entry.saturating_mul(2))
    }
}

/// Puts the entry and the first five bytes of a page: its id, its span and its flags.
pub fn put_page(image: &mut Vec<u8>, g: &Geometry, place: Place, id: u16, span: u16, flags: u8) {
    let at = place.at(g);
    put(image, place.entry_at(g), &id.to_le_bytes());
    put(image, at, &id.to_le_bytes());
    put(image, at.saturating_add(2), &span.to_le_bytes());
    put(image, at.saturating_add(4), &[flags]);
}

/// Puts the header page of a file.
pub fn put_header(
    image: &mut Vec<u8>,
    g: &Geometry,
    place: Place,
    id: u16,
    size: u32,
    name: &[u8],
) {
    put_page(image, g, place, id | 0x8000, 0, 0xF8);
    let at = place.at(g);
    put(image, at.saturating_add(8), &size.to_le_bytes());
    put(image, at.saturating_add(12), &[1]);
    put(image, at.saturating_add(13), &[0; 32]);
    put(image, at.saturating_add(13), name);
}

/// Bytes by which a file is told from others: small letters that run on otherwise in each page.
pub fn letters(alloc: Global, seed: usize, size: usize) -> Result<Vec<u8>, AllocError> {
    let mut bytes = Vec::new(alloc);
    for i in 0..size {
        let letter = (i % 26 + i / 26 % 26 * 5 + seed % 26) % 26;
        bytes.push(b'a' + letter as u8)?;
    }
    Ok(bytes)
}

/// Where the next index page and the next data page go.
#[derive(Clone, Copy)]
pub struct Ends {
    pub index: Place,
    pub data: Place,
    /// The data page that was put last.
    pub last: Place,
}

impl Ends {
    /// The first index page in the first block, and the first data page in that block.
    pub fn new(block: usize) -> Ends {
        let data = Place { block, entry: 0 };
        Ends {
            index: Place { block: 0, entry: 0 },
            data,
            last: data,
        }
    }
}

// How far a span lies behind those that have their entries in the header page, if it does.
fn past_heads(g: &Geometry, span: usize) -> Option<usize> {
    span.checked_sub(g.head_slots() as usize)
}

// How many entries an index page has that isn't a header page.
fn slots_of(g: &Geometry) -> usize
    ensures { 1 ≤ result }
{
    g.span_slots().max(1) as usize
}

// Names the data page of a span in the index page that has its entry.
pub(crate) fn name_page(image: &mut Vec<u8>, g: &Geometry, index: Place, span: usize, page: usize) {
    let (first, slot) = match past_heads(g, span) {
        None => (45 + g.meta as usize, span),
        Some(rest) => (8, rest % slots_of(g)),
    };
    let at = index.at(g).saturating_add(first);
    let bytes = ((page % 65536) as u16).to_le_bytes();
    put(image, at.saturating_add(slot.saturating_mul(2)), &bytes);
}

// The number of the index page that begins with the entry of a span, if one does that isn't a header page.
pub(crate) fn begun_index(g: &Geometry, span: usize) -> Option<u16> {
    let rest = past_heads(g, span)?;
    let slots = slots_of(g);
    if rest % slots != 0 {
        return None;
    }
    Some((rest / slots % 65535) as u16 + 1)
}

// The index page that has the entry of a span, of those that follow a header page.
fn index_of(g: &Geometry, header: Place, span: usize) -> Place {
    let Some(rest) = past_heads(g, span) else {
        return header;
    };
    let mut index = header.next(g);
    for _ in 0..rest / slots_of(g) {
        index = index.next(g);
    }
    index
}

// Puts a data page, and the index page that is the first to need it.
fn put_span(
    image: &mut Vec<u8>,
    g: &Geometry,
    ends: &mut Ends,
    id: u16,
    header: Place,
    span: usize,
) {
    if let Some(number) = begun_index(g, span) {
        put_page(image, g, ends.index, id | 0x8000, number, 0xF8);
        ends.index = ends.index.next(g);
    }
    put_page(image, g, ends.data, id, (span % 65536) as u16, 0xFC);
    let index = index_of(g, header, span);
    name_page(image, g, index, span, ends.data.page(g));
    ends.last = ends.data;
    ends.data = ends.data.next(g);
}

// The size in the header page of a file of these bytes.
pub(crate) fn size_of(bytes: &[u8]) -> u32 {
    match bytes.len() {
        0 => 0xFFFF_FFFF,
        size => (size % 65536) as u32,
    }
}

/// Puts a file of these bytes behind the pages that are there. Its index pages follow each other.
pub fn put_whole(
    image: &mut Vec<u8>,
    g: &Geometry,
    ends: &mut Ends,
    id: u16,
    name: &[u8],
    bytes: &[u8],
) {
    let header = ends.index;
    put_header(image, g, header, id, size_of(bytes), name);
    ends.index = header.next(g);
    let body = g.body().max(1) as usize;
    for (i, byte) in bytes.iter().enumerate() {
        if i % body == 0 {
            put_span(image, g, ends, id, header, i / body);
        }
        put(
            image,
            ends.last.at(g).saturating_add(5 + i % body),
            &[*byte],
        );
    }
}

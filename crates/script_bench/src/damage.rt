//! Damage to images, drawn from a seed: what a broken chip, another maker or a hostile hand may leave.
use crate::images::put_page;
use crate::rows::copy;
use crate::{Place, put};
use geometry::Geometry;
use nor_core::draw;
use std::alloc::{AllocError, Global};

/// The most changes of one image.
const MOST_CHANGES: u64 = 6;

// Flags that pages may have.
const FLAGS: [u8; 10] = [0xF8, 0xFC, 0xB8, 0x78, 0x7C, 0xFA, 0xFE, 0xFF, 0x00, 0xFD];

// A number below a count.
fn below(x: &mut u64, count: usize) -> usize {
    (draw(x) % (count as u64).max(1)) as usize
}

// An entry page: of four, three are among the first of their block.
fn drawn_place(x: &mut u64, g: &Geometry) -> Place {
    let entries = g.entries() as usize;
    let count = if draw(x) % 4 == 0 {
        entries
    } else {
        entries.min(6)
    };
    Place {
        block: below(x, g.blocks as usize),
        entry: below(x, count),
    }
}

// An id as an entry or a page header tells it: of a file, of none, and the greatest.
fn drawn_id(x: &mut u64) -> u16 {
    let id = match draw(x) % 16 {
        0 => 0,
        1 => 0x7FFF,
        2 => 0x7FFE,
        _ => 1 + (draw(x) % 6) as u16,
    };
    if draw(x) % 2 == 0 { id | 0x8000 } else { id }
}

// A number of a page in an index page: of a page of the volume, or any.
fn drawn_number(x: &mut u64, g: &Geometry) -> u16 {
    match draw(x) % 8 {
        0 => 0xFFFF,
        1 => (draw(x) % 65536) as u16,
        _ => (drawn_place(x, g).page(g) % 65536) as u16,
    }
}

// Flags of a page: live ones, half written ones, deleted ones.
fn drawn_flags(x: &mut u64) -> u8 {
    FLAGS[draw(x) as usize % FLAGS.len()]
}

// Turns a bit, of a page or of the lookup pages of its block.
fn turn_bit(image: &mut Vec<u8>, g: &Geometry, x: &mut u64) {
    let place = drawn_place(x, g);
    let at = match draw(x) % 4 {
        0 => place.block.saturating_mul(g.block as usize),
        _ => place.at(g),
    };
    let at = at.saturating_add(below(x, 64));
    if let Some(byte) = image.get_mut(at) {
        *byte ^= 1u8 << (draw(x) % 8);
    }
}

// Clears bits of some bytes, as a program does whose power is cut.
fn clear_bits(image: &mut Vec<u8>, g: &Geometry, x: &mut u64) {
    let start = drawn_place(x, g).at(g).saturating_add(below(x, 64));
    for i in 0..8 {
        if let Some(byte) = image.get_mut(start.saturating_add(i)) {
            *byte &= (draw(x) % 256) as u8;
        }
    }
}

// Copies a page with its entry to another place.
fn copy_page(
    alloc: Global,
    image: &mut Vec<u8>,
    g: &Geometry,
    x: &mut u64,
) -> Result<(), AllocError> {
    let (from, to) = (drawn_place(x, g), drawn_place(x, g));
    copy(alloc, image, from.at(g), to.at(g), g.page as usize)?;
    copy(alloc, image, from.entry_at(g), to.entry_at(g), 2)
}

// Gives the header page at one place the name of another.
fn copy_name(
    alloc: Global,
    image: &mut Vec<u8>,
    g: &Geometry,
    x: &mut u64,
) -> Result<(), AllocError> {
    let from = drawn_place(x, g).at(g).saturating_add(13);
    let to = drawn_place(x, g).at(g).saturating_add(13);
    copy(alloc, image, from, to, 32)
}

// Names a page in an index page, of the first or of a later span.
fn name_page(image: &mut Vec<u8>, g: &Geometry, x: &mut u64) {
    let head = if draw(x) % 2 == 0 {
        45 + g.meta as usize
    } else {
        8
    };
    let at = drawn_place(x, g).at(g).saturating_add(head);
    let number = drawn_number(x, g);
    let slot = below(x, 4).saturating_mul(2);
    put(image, at.saturating_add(slot), &number.to_le_bytes());
}

// Sets the size in a header page: by a few bytes, or to any.
fn set_size(image: &mut Vec<u8>, g: &Geometry, x: &mut u64) {
    let at = drawn_place(x, g).at(g).saturating_add(8);
    let size = match draw(x) % 4 {
        0 => 0xFFFF_FFFE,
        1 => 0xFFFF_FFFF,
        _ => (draw(x) % 2000) as u32,
    };
    put(image, at, &size.to_le_bytes());
}

// Writes an entry, and of two times one the page's header with it.
fn set_entry(image: &mut Vec<u8>, g: &Geometry, x: &mut u64) {
    let place = drawn_place(x, g);
    let id = drawn_id(x);
    if draw(x) % 2 == 0 {
        put(image, place.entry_at(g), &id.to_le_bytes());
    } else {
        let span = (draw(x) % 3) as u16;
        put_page(image, g, place, id, span, drawn_flags(x));
    }
}

// Changes a block's magic or erase count, or all its bytes.
fn spoil(alloc: Global, image: &mut Vec<u8>, g: &Geometry, x: &mut u64) -> Result<(), AllocError> {
    let at = below(x, g.blocks as usize).saturating_mul(g.block as usize);
    let byte = (draw(x) % 256) as u8;
    match draw(x) % 4 {
        0 => put(image, at, &vec![in alloc; 0xFFu8; g.block as usize]?),
        1 => put(image, at, &vec![in alloc; 0u8; g.page as usize]?),
        _ => {
            let end = at.saturating_add(g.lookups() as usize * g.page as usize);
            let last = end.saturating_sub(1);
            put(image, last.saturating_sub(below(x, 4)), &[byte]);
        }
    }
    Ok(())
}

// Makes one change.
fn change(alloc: Global, image: &mut Vec<u8>, g: &Geometry, x: &mut u64) -> Result<(), AllocError> {
    match draw(x) % 16 {
        0 | 1 => turn_bit(image, g, x),
        2 | 3 => clear_bits(image, g, x),
        4 | 5 => copy_page(alloc, image, g, x)?,
        6 => copy_name(alloc, image, g, x)?,
        7..=9 => name_page(image, g, x),
        10 | 11 => set_size(image, g, x),
        12 | 13 => set_entry(image, g, x),
        _ => spoil(alloc, image, g, x)?,
    }
    Ok(())
}

/// Damages an image by one to six changes that a seed draws: turned and cleared bits, copied pages and names, numbers of pages that are
/// out of range or lead in a ring, other sizes, entries, ids and flags, and lost magics.
pub(crate) fn damage(
    alloc: Global,
    image: &mut Vec<u8>,
    g: &Geometry,
    seed: u64,
) -> Result<(), AllocError> {
    let mut x = seed;
    for _ in 0..1 + draw(&mut x) % MOST_CHANGES {
        change(alloc, image, g, &mut x)?;
    }
    Ok(())
}

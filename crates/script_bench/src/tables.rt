//! What the plain programs and a reader tell of an image.
use crate::{Bench, Trouble};
use geometry::Geometry;
use nor_memory::MemBoard;
use plain_image::{Record, free_blocks, holds_volume, is_tidy, table_of};
use plain_table::{Flat, PlainFile, Said};
use std::alloc::Global;
use table_model::Stat;
use vol_mount::{Reader, ReaderLent, accept_reader};

/// The files of an image, by the plain program.
pub fn table(alloc: Global, g: &Geometry, image: &[u8]) -> Result<Vec<Record>, Trouble> {
    if !holds_volume(g, image) {
        return Err(Trouble::Device);
    }
    Ok(table_of(alloc, g, image)?)
}

// The file of a record, with its bytes.
fn file_of(
    alloc: Global,
    reader: &mut Reader<'_, MemBoard>,
    stat: &Stat,
) -> Result<Record, Trouble> {
    let mut bytes = vec![in alloc; 0u8; stat.size as usize]?;
    let count = reader.read_at(stat.id, 0, &mut bytes)?;
    if count != stat.size || bytes.len() > 0x10_0000 {
        return Err(Trouble::Device);
    }
    Ok(Record {
        id: stat.id,
        name: Vec::from_slice(alloc, stat.name.as_slice())?,
        kind: stat.kind,
        meta: Vec::from_slice(alloc, stat.meta.as_slice())?,
        bytes,
    })
}

// The files that a reader tells.
fn told(alloc: Global, reader: &mut Reader<'_, MemBoard>) -> Result<Vec<Record>, Trouble> {
    let mut files = Vec::new(alloc);
    let mut after = 0;
    for _ in 0..0x7FFF {
        let Some(stat) = reader.next(after)? else {
            break;
        };
        after = stat.id;
        files.push(file_of(alloc, reader, &stat)?)?;
    }
    Ok(files)
}

/// The files of an image, by a reader: sooner than by the plain program.
pub fn listed(bench: &Bench, image: &[u8]) -> Result<Vec<Record>, Trouble> {
    let Bench { alloc, g, .. } = *bench;
    let mut board = bench.board(image)?;
    let mut work = vec![in alloc; 0u8; g.work_need() as usize]?;
    let mut cache = vec![in alloc; 0u8; g.cache_need() as usize]?;
    let mut check = vec![in alloc; 0u8; g.check_need() as usize]?;
    let lent = ReaderLent {
        work: &mut work,
        cache: &mut cache,
        check: &mut check,
    };
    accept_reader(&g, &board, &lent)?;
    let mut reader = Reader::new(g, &mut board, lent);
    reader.mount()?;
    told(alloc, &mut reader)
}

/// Whether two files are the same.
pub(crate) fn is_same(a: &Record, b: &Record) -> bool {
    a.id == b.id
        && a.kind == b.kind
        && a.name.as_slice() == b.name.as_slice()
        && a.meta.as_slice() == b.meta.as_slice()
        && a.bytes.as_slice() == b.bytes.as_slice()
}

/// Whether two lists of files are the same.
pub fn are_same(a: &[Record], b: &[Record]) -> bool {
    a.len() == b.len() && a.iter().zip(b.iter()).all(|(a, b)| is_same(a, b))
}

fn is_file(record: &Record, file: &PlainFile) -> bool {
    record.id == file.id
        && record.kind == file.kind
        && record.name.as_slice() == file.name.as_slice()
        && record.meta.as_slice() == file.meta.as_slice()
        && record.bytes.as_slice() == file.bytes.as_slice()
}

// Whether what a flat table said is the file of a record.
fn tells(said: &Said, record: &Record) -> bool {
    match said {
        Said::File(file) => is_file(record, file),
        _ => false,
    }
}

// Whether a flat table said that there is no further file.
fn is_end(said: &Said) -> bool {
    matches!(said, Said::NoMore)
}

/// Whether files are those of a flat table.
pub(crate) fn are_of(files: &[Record], flat: &Flat) -> Result<bool, Trouble> {
    let mut after = 0u16;
    for record in files {
        let said = flat.next(after)?;
        if !tells(&said, record) {
            return Ok(false);
        }
        after = record.id;
    }
    let said = flat.next(after)?;
    Ok(is_end(&said))
}

/// Whether an image is tidy, by the plain program.
pub(crate) fn is_orderly(alloc: Global, g: &Geometry, image: &[u8]) -> Result<bool, Trouble> {
    Ok(holds_volume(g, image) && is_tidy(alloc, g, image)?)
}

/// How many blocks are free.
pub fn spare_blocks(g: &Geometry, image: &[u8]) -> Option<u32> {
    if holds_volume(g, image) {
        Some(free_blocks(g, image))
    } else {
        None
    }
}

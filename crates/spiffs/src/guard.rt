//! What stops a command that removes damaged files for good, or tells what `run` would do: where other numbers read more whole files, two
//! volumes may stand end to end, or the file is shorter than the volume and a part of what stood there is missing.
use crate::detect::{PLACES, found_in};
use crate::look::{Better, Seen, geometry_of};
use crate::words::foretells;
use crate::{Refusal, is_refused};
use chip_row::{Chip, ChipRow};
use geometry::{Geometry, MagicKind};
use host_edge::{FileChip, Shown, StdBoard};
use std::alloc::{AllocError, Global};
use std::fmt;
use std::io::Write;
use volume_detect::byte_of;
use volume_rank::Found;

/// What a command does behind `--force`.
#[derive(Clone, Copy, Debug, PartialEq, Eq)]
pub struct Force {
    /// How many ids are damaged.
    pub lost: u32,
    /// Whether it removes them for good.
    pub removes: bool,
}

impl fmt::Display for Force {
    fn fmt<W: fmt::Write>(&self, f: &mut fmt::Formatter<W>) -> fmt::Result {
        let lost = self.lost;
        if lost == 0 {
            write!(f, "with --force give up what these numbers don't read")
        } else if self.removes {
            write!(
                f,
                "with --force remove {lost} damaged files, and what isn't there, for good"
            )
        } else {
            write!(f, "with --force go on without {lost} damaged files")
        }
    }
}

/// Another number of blocks, by which more files are whole.
#[derive(Clone, Copy, Debug, PartialEq, Eq)]
struct Longer {
    /// The whole files and the BLOCKS that were given.
    whole: u32,
    given: u32,
    /// Those that are better, and the META where that has to be another one.
    more: u32,
    blocks: u32,
    meta: Option<u32>,
}

impl fmt::Display for Longer {
    fn fmt<W: fmt::Write>(&self, f: &mut fmt::Formatter<W>) -> fmt::Result {
        let Longer {
            whole,
            given,
            more,
            blocks,
            meta,
        } = *self;
        write!(
            f,
            "whole files: {whole} with BLOCKS {given}, {more} with BLOCKS {blocks}; nothing was written; try BLOCKS {blocks}"
        )?;
        match meta {
            Some(meta) => write!(f, " and META {meta}"),
            None => Ok(()),
        }
    }
}

/// Ids of the very volume that was given which have two header pages or more.
#[derive(Clone, Copy, Debug, PartialEq, Eq)]
struct Doubled {
    ids: u32,
}

impl fmt::Display for Doubled {
    fn fmt<W: fmt::Write>(&self, f: &mut fmt::Formatter<W>) -> fmt::Result {
        let ids = self.ids;
        write!(
            f,
            "header pages twice: {ids}; two volumes may stand end to end, or a power cut was never checked; nothing was written; try the BLOCKS of the first one"
        )
    }
}

/// A chip's file that is shorter than the chip.
#[derive(Clone, Copy, Debug, PartialEq, Eq)]
struct Short {
    length: u64,
    size: u32,
}

impl fmt::Display for Short {
    fn fmt<W: fmt::Write>(&self, f: &mut fmt::Formatter<W>) -> fmt::Result {
        let length = self.length;
        let missing = u64::from(self.size).saturating_sub(length);
        write!(
            f,
            "has {length} bytes, {missing} fewer than these numbers tell; nothing was written; give the whole file"
        )
    }
}

/// A file in which a volume stands: its bytes, and where the volume begins.
#[derive(Clone, Copy)]
pub struct Holding<'b> {
    /// All bytes of the file.
    pub bytes: &'b [u8],
    /// The byte at which the volume begins.
    pub at: u32,
}

// Whether a volume begins where that one does, with as long pages and blocks, and the same kind of magic.
fn is_alike(found: &Found, g: &Geometry, at: u32) -> bool {
    let volume = found.volume;
    found.place < PLACES
        && byte_of(found.place) == at
        && volume.page() == g.page()
        && volume.block() == g.block()
        && volume.magic == g.magic
}

// The one of these that is alike and reads the most whole files.
fn best_of(found: &[Found], g: &Geometry, at: u32) -> Option<Found> {
    let mut best: Option<Found> = None;
    for one in found {
        let is_more = match best {
            Some(best) => one.counts.whole > best.counts.whole,
            None => true,
        };
        if is_alike(one, g, at) && is_more {
            best = Some(*one);
        }
    }
    best
}

// How many whole files are read at best with the number of blocks that was given.
fn most_given(seen: &Seen) -> u32 {
    match seen.better {
        Some(Better { guess, .. }) => guess.best.whole,
        None => seen.whole,
    }
}

// Another number of blocks that reads more whole files.
fn longer_of(given: &Geometry, seen: &Seen, found: &Found) -> Option<Longer> {
    if found.volume.blocks() == given.blocks() || found.counts.whole <= most_given(seen) {
        return None;
    }
    let first = found.volume.meta();
    let is_read = first <= given.meta() && given.meta() <= found.last_meta;
    Some(Longer {
        whole: seen.whole,
        given: given.blocks(),
        more: found.counts.whole,
        blocks: found.volume.blocks(),
        meta: if is_read { None } else { Some(first) },
    })
}

// Ids that have two header pages or more, where more have than a power cut leaves.
fn doubled_of(given: &Geometry, found: &Found) -> Option<Doubled> {
    let most = match given.magic {
        MagicKind::Plain => 0,
        MagicKind::Length => 1,
    };
    if found.volume.blocks() > given.blocks() || found.doubled <= most {
        return None;
    }
    Some(Doubled { ids: found.doubled })
}

// A word of a file's bytes; past their end it is erased.
fn entry_at(bytes: &[u8], at: u64) -> u16 {
    let Ok(at) = usize::try_from(at) else {
        return 0xFFFF;
    };
    match (bytes.get(at), bytes.get(at.saturating_add(1))) {
        (Some(low), Some(high)) => u16::from_le_bytes([*low, *high]),
        _ => 0xFFFF,
    }
}

// Where a block of the volume begins.
fn start_of(holding: &Holding<'_>, g: &Geometry, block_ix: u32) -> u64 {
    u64::from(holding.at).saturating_add(u64::from(block_ix) * u64::from(g.block()))
}

// Whether an entry of a block is in use whose page begins past the end of the file.
fn misses_page(holding: &Holding<'_>, g: &Geometry, block_ix: u32) -> bool {
    let start = start_of(holding, g, block_ix);
    let end = holding.bytes.len() as u64;
    for i in 0..g.entries() {
        let slot = u64::from(i);
        let ahead = slot.saturating_add(u64::from(g.lookups()));
        let page = start.saturating_add(ahead.saturating_mul(u64::from(g.page())));
        let entry = entry_at(holding.bytes, start.saturating_add(slot.saturating_mul(2)));
        if page >= end && entry != 0xFFFF && entry != 0 {
            return true;
        }
    }
    false
}

// Whether the file ends before the lookup pages of a block do.
fn misses_block(holding: &Holding<'_>, g: &Geometry, block_ix: u32) -> bool {
    let lookups = u64::from(g.lookups()) * u64::from(g.page());
    let end = start_of(holding, g, block_ix).saturating_add(lookups);
    (holding.bytes.len() as u64) < end
}

// Whether blocks or pages in use are missing in the file. (One that ends before the volume begins has none.)
fn is_cut(holding: &Holding<'_>, g: &Geometry) -> bool {
    let length = holding.bytes.len() as u64;
    if length <= u64::from(holding.at) || length >= start_of(holding, g, g.blocks()) {
        return false;
    }
    for block_ix in 0..g.blocks() {
        if misses_block(holding, g, block_ix) || misses_page(holding, g, block_ix) {
            return true;
        }
    }
    false
}

/// Whether the whole file is looked at before a command: where ids are damaged, where nothing but the given number of blocks tells where the
/// volume ends, and where the file, which has so many bytes, is shorter than the volume.
pub fn wants_whole(g: &Geometry, at: u32, seen: &Seen, length: u64) -> bool {
    let size = u64::from(g.blocks()) * u64::from(g.block());
    seen.damaged > 0 || g.magic == MagicKind::Plain || length < u64::from(at).saturating_add(size)
}

/// Says why other numbers of blocks may be meant, or that the file is cut, and answers whether that was said.
pub fn tell_others(
    rt: &HostRuntime,
    path: &str,
    given: &Geometry,
    seen: &Seen,
    holding: &Holding<'_>,
    force: Force,
) -> Result<bool, Refusal> {
    let path = Shown(path);
    let found = found_in(rt.alloc(), holding.bytes)?;
    if let Some(found) = best_of(&found, given, holding.at) {
        if let Some(longer) = longer_of(given, seen, &found) {
            // (if standard error fails too there is nobody to tell)
            let _said = eprintln!(rt; "spiffs: {path}: {longer}, or {force}");
            return Ok(true);
        }
        if let Some(doubled) = doubled_of(given, &found) {
            let _said = eprintln!(rt; "spiffs: {path}: {doubled}, or {force}");
            return Ok(true);
        }
    }
    if seen.better.is_none() && is_cut(holding, given) {
        let length = holding.bytes.len() as u64;
        let size = given.blocks().saturating_mul(given.block());
        let short = Short { length, size };
        let _said = eprintln!(rt; "spiffs: {path}: {short}, or {force}");
        return Ok(true);
    }
    Ok(false)
}

// All bytes of a file that is a chip, where they may be a volume's.
fn bytes_of(alloc: Global, chip: &FileChip) -> Result<Option<Vec<u8>>, AllocError> {
    let Some(mut whole) = chip.whole() else {
        return Ok(None);
    };
    let mut bytes = vec![in alloc; 0u8; whole.size() as usize]?;
    if bytes.is_empty() || whole.read(0, &mut bytes).is_err() {
        return Ok(None);
    }
    Ok(Some(bytes))
}

// Says why other numbers may be meant of a volume that is one chip, or that the chip is cut, and answers whether that was said.
fn tell_others_of(
    rt: &HostRuntime,
    words: &[String],
    path: &str,
    seen: &Seen,
    row: &ChipRow<FileChip>,
    force: Force,
) -> Result<bool, Refusal> {
    let (Some(given), [chip]) = (geometry_of(words), row.chips()) else {
        return Ok(false);
    };
    if !wants_whole(&given, 0, seen, chip.length()) {
        return Ok(false);
    }
    let Some(bytes) = bytes_of(rt.alloc(), chip)? else {
        return Ok(false);
    };
    let holding = Holding {
        bytes: &bytes,
        at: 0,
    };
    tell_others(rt, path, &given, seen, &holding, force)
}

// Says which chip of a row is shorter than its part of the volume, where ids are damaged.
fn tell_short(rt: &HostRuntime, names: &str, row: &ChipRow<FileChip>, force: Force) -> bool {
    for (chip, one) in row.chips().iter().enumerate() {
        let length = one.length();
        let size = one.size();
        if length < u64::from(size) {
            let path = Shown(names.split(',').nth(chip).unwrap_or(names));
            let short = Short { length, size };
            // (if standard error fails too there is nobody to tell)
            let _said = eprintln!(rt; "spiffs: {path}: {short}, or {force}");
            return true;
        }
    }
    false
}

/// Whether a command is stopped on that row, by what was seen of its volume; then it is said why. Nothing is looked for where it is forced.
pub fn is_stopped<W: Write + Drop>(
    rt: &HostRuntime,
    words: &[String],
    names: &str,
    is_forced: bool,
    seen: Option<Seen>,
    board: &StdBoard<W, FileChip>,
) -> Result<bool, Refusal> {
    let Some(seen) = seen else {
        return Ok(false);
    };
    if is_forced {
        return Ok(false);
    }
    let row = board.row();
    let force = Force {
        lost: seen.damaged,
        removes: !foretells(words),
    };
    if tell_others_of(rt, words, names, &seen, row, force)? || is_refused(rt, Some(seen)) {
        return Ok(true);
    }
    Ok(seen.damaged > 0 && tell_short(rt, names, row, force))
}

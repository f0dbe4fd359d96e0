//! The word `cat`: the bytes of a file on standard output.
use crate::give::{
    Guard, chip_file, end_told, explain_image, give_on, print_bytes, row_of, trouble_of,
};
use crate::look::geometry_of;
use crate::meant::{Meant, text_of};
use crate::stop::Stop;
use crate::{BOARD_FAULT, DAMAGED, Memory, REFUSED, take_memory};
use chip_row::ChipRow;
use front_edge::HostChip;
use front_words::place;
use geometry::Geometry;
use host_edge::{Shown, StdFolder, Trouble};
use nor_core::Nor;
use table_model::{FsErr, Stat};
use tool_parts::Buffers;
use tree_paths::decoded;
use vol_mount::{Reader, ReaderLent, accept_reader};

/// Bytes that are read at a time.
const PIECE: usize = 4096;

/// The number of ids that a file may have.
const IDS: u32 = 32_767;

/// What became of a file that was to be printed.
#[derive(Clone, Copy, Debug, PartialEq, Eq)]
enum Printed {
    /// It was printed.
    Whole,
    /// There is no file of that name.
    Missing,
    /// The chip failed, or the file can't be read for this reason.
    Fault(FsErr),
    /// Standard output failed, which was said.
    Closed,
}

// The record of the file with that name.
fn find<N: Nor>(reader: &mut Reader<'_, N>, name: &[u8]) -> Result<Option<Stat>, FsErr> {
    let mut after = 0;
    for _ in 0..IDS {
        let Some(stat) = reader.next(after)? else {
            return Ok(None);
        };
        if stat.name.as_slice() == name {
            return Ok(Some(stat));
        }
        after = stat.id;
    }
    Ok(None)
}

// Prints the bytes of the file with that id, a piece at a time.
fn print_file<N: Nor>(rt: &HostRuntime, reader: &mut Reader<'_, N>, id: u16) -> Printed {
    let mut piece = [0u8; PIECE];
    let mut at = 0;
    for _ in 0..u32::MAX {
        let count = match reader.read_at(id, at, &mut piece) {
            Ok(count) => count,
            Err(why) => return Printed::Fault(why),
        };
        if count == 0 {
            return Printed::Whole;
        }
        if !print_bytes(rt, &piece[..count as usize]) {
            return Printed::Closed;
        }
        at += count;
    }
    Printed::Fault(FsErr::SeekBounds)
}

// Prints the file with that name of a volume in lent memory; None where the volume isn't mounted.
fn print_on<N: Nor>(
    rt: &HostRuntime,
    g: &Geometry,
    name: &[u8],
    nor: &mut N,
    lent: ReaderLent<'_>,
) -> Option<Printed> {
    let Ok(()) = accept_reader(g, nor, &lent) else {
        return None;
    };
    let mut reader = Reader::new(*g, nor, lent);
    if reader.mount().is_err() {
        return None;
    }
    match find(&mut reader, name) {
        Ok(Some(stat)) => Some(print_file(rt, &mut reader, stat.id)),
        Ok(None) => Some(Printed::Missing),
        Err(why) => Some(Printed::Fault(why)),
    }
}

// Prints the file with that name of a row of chips; None where there is no such volume.
fn print_in<C: HostChip>(
    rt: &HostRuntime,
    meant: &Meant<'_>,
    name: &[u8],
    row: &mut ChipRow<C>,
    bufs: &mut Buffers<'_>,
) -> Option<Printed> {
    let g = geometry_of(&meant.top)?;
    let lent = ReaderLent {
        work: &mut *bufs.work,
        cache: &mut *bufs.cache,
        check: &mut *bufs.check,
    };
    print_on(rt, &g, name, row, lent)
}

// Ends where the volume isn't mounted, as a list of it does.
fn end_unmounted(rt: &HostRuntime, meant: &Meant<'_>, memory: &mut Memory) -> Result<u8, Stop> {
    let mut folder = StdFolder::unlisted(rt, rt.alloc());
    let row = row_of(rt, meant, chip_file(meant)?)?;
    let told = give_on(rt, meant, row, b"", &mut folder, memory, Guard::Open)?;
    if matches!(told.status, 0 | DAMAGED) {
        let image = Shown(meant.image);
        // (if standard error fails too there is nobody to tell)
        let _said = eprintln!(rt; "spiffs: {image}: the volume was mounted, and then it wasn't");
        return Ok(BOARD_FAULT);
    }
    Ok(end_told(rt, meant, &told))
}

// Says why a file can't be read: what failed of the image, or else what the volume answered.
fn explain_fault(
    rt: &HostRuntime,
    meant: &Meant<'_>,
    given: &str,
    why: FsErr,
    trouble: Option<&Trouble>,
) {
    if trouble.is_some() {
        explain_image(rt, meant, trouble);
    } else {
        let image = Shown(meant.image);
        let given = Shown(given);
        // (if standard error fails too there is nobody to tell)
        let _said = eprintln!(rt; "spiffs: {image}: {given}: {why}");
    }
}

/// Prints the bytes of a file. In its name `%` and two hexadecimal digits stand for a byte.
pub fn cat(rt: &HostRuntime, meant: &Meant<'_>) -> Result<u8, Stop> {
    let given = text_of(place(meant.words, 2));
    let name = decoded(rt.alloc(), given.as_bytes())?;
    let mut memory = take_memory(rt, &meant.top)?;
    let mut row = row_of(rt, meant, chip_file(meant)?)?;
    let printed = print_in(rt, meant, name.as_slice(), &mut row, &mut memory.lend());
    match printed {
        Some(Printed::Whole) => Ok(0),
        Some(Printed::Missing) => {
            let why = FsErr::NotFound;
            let given = Shown(given);
            let _said = eprintln!(rt; "spiffs: {given}: {why}");
            Ok(REFUSED)
        }
        Some(Printed::Fault(why)) => {
            explain_fault(rt, meant, given, why, trouble_of(&row));
            Ok(BOARD_FAULT)
        }
        Some(Printed::Closed) => Ok(BOARD_FAULT),
        None => end_unmounted(rt, meant, &mut memory),
    }
}

//! A command of the top call on one chip: the image's file, a part of it, or a copy in memory. What it says is held back until it has ended.
use crate::guard::{Force, Holding, tell_others, wants_whole};
use crate::look::{Seen, geometry_of, look_on};
use crate::meant::{Meant, tell_found_in};
use crate::stop::Stop;
use crate::{
    BOARD_FAULT, Memory, NO_VOLUME, OTHER_META, Refusal, explain, explain_damaged, explain_removed,
    explain_status, is_refused,
};
use chip_row::ChipRow;
use folder_core::Folder;
use front_edge::{CopyErr, HostChip, PartChip, copy_of};
use front_words::{Word, top_words};
use host_edge::{Shown, StdBoard, StdFolder, StdSource, Trouble};
use nor_core::{Failed, Nor};
use nor_memory::MemChip;
use std::alloc::AllocError;
use std::io::Write;
use std::{io, str};
use tool_core::{is_accepted, spiffs_tool};
use tool_parts::{Ending, closing_line};

/// The most damaged ids that are told.
const TOLD: usize = 10;

/// Whether another META is tried before a command.
#[derive(Clone, Copy, Debug, PartialEq, Eq)]
pub enum Guard {
    /// It isn't.
    Open,
    /// It is, since the command removes damaged files for good.
    Removes,
    /// It is, since the command tells what would be removed.
    Foretells,
    /// It is, since the command tries on a copy what removes damaged files for good.
    Rehearses,
}

/// What became of a command.
#[derive(Drop)]
pub struct Told<C: HostChip> {
    /// The status.
    pub status: u8,
    /// What it said.
    pub said: Vec<u8>,
    /// The chip.
    pub row: ChipRow<C>,
    /// What the volume held before it, where that was looked at.
    pub seen: Option<Seen>,
    /// How it was guarded.
    pub guard: Guard,
}

/// The part of the image's file that the volume is. An image that is to be made has no file.
pub fn chip_file(meant: &Meant<'_>) -> Result<PartChip, Stop> {
    match &meant.held {
        Some(held) => Ok(PartChip::over(held, meant.volume.at, meant.size, meant.unit)),
        None => Err(Stop::Status(BOARD_FAULT)),
    }
}

/// A copy of that part in memory.
pub fn chip_copy(rt: &HostRuntime, meant: &Meant<'_>) -> Result<MemChip, Stop> {
    let mut part = chip_file(meant)?;
    match copy_of(rt.alloc(), &mut part, meant.unit) {
        Ok(copy) => Ok(copy),
        Err(CopyErr::Chip) => {
            explain_image(rt, meant, part.trouble());
            Err(Stop::Status(BOARD_FAULT))
        }
        Err(why) => Err(Stop::from(why)),
    }
}

/// Says on standard error what failed of the image.
pub fn explain_image(rt: &HostRuntime, meant: &Meant<'_>, trouble: Option<&Trouble>) {
    if let Some(trouble) = trouble {
        let image = Shown(meant.image);
        // (if standard error fails too there is nobody to tell)
        let _said = eprintln!(rt; "spiffs: {image}: {trouble}");
    }
}

/// A row of one chip.
pub fn row_of<C: HostChip>(
    rt: &HostRuntime,
    meant: &Meant<'_>,
    chip: C,
) -> Result<ChipRow<C>, Refusal> {
    let mut chips = Vec::new(rt.alloc());
    chips.push(chip).map_err(AllocError::from)?;
    match ChipRow::new(chips, meant.size, meant.unit) {
        Ok(row) => Ok(row),
        Err(_) => Err(Refusal::Chips),
    }
}

// What the volume holds, where the command isn't refused and is guarded.
fn look<C: HostChip>(
    meant: &Meant<'_>,
    guard: Guard,
    board: &mut StdBoard<Vec<u8>, C>,
    memory: &mut Memory,
) -> Result<Option<Seen>, Failed> {
    let mut bufs = memory.lend();
    if guard == Guard::Open || !is_accepted(&meant.top, board.unit(), board.size(), &bufs) {
        return Ok(None);
    }
    let removes = guard != Guard::Foretells;
    look_on(&meant.top, meant.asked.is_forced, removes, board, &mut bufs)
}

// Whether damaged files would be removed for good, and nothing says that they may be.
fn is_harmed(meant: &Meant<'_>, guard: Guard, seen: Option<Seen>) -> bool {
    if meant.asked.is_forced || !matches!(guard, Guard::Removes | Guard::Rehearses) {
        return false;
    }
    meant.is_harmed || seen.is_some_and(|seen| seen.damaged > 0)
}

// Says on standard error which ids are damaged, by the lines of a list.
fn tell_damaged(rt: &HostRuntime, meant: &Meant<'_>, listed: &[u8]) {
    let image = Shown(meant.image);
    // (if standard error fails too there is nobody to tell)
    let _said = eprintln!(rt;
        "spiffs: {image}: ids are damaged, and what is left of their files would be removed for good; nothing was written; with --force it is:"
    );
    let mut count = 0usize;
    for line in listed.split(|byte| *byte == b'\n') {
        if !line.starts_with(b"damaged ") {
            continue;
        }
        if count < TOLD {
            let text = str::from_utf8(line).unwrap_or("");
            let _said = eprintln!(rt; "spiffs: {text}");
        }
        count = count.saturating_add(1);
    }
    let others = count.saturating_sub(TOLD);
    if others > 0 {
        let _said = eprintln!(rt; "spiffs: and {others} others: spiffs ls {image}");
    }
}

// Ends a command that would remove damaged files: they are told, and nothing is written.
fn refuse_harmed<C: HostChip>(
    rt: &HostRuntime,
    meant: &Meant<'_>,
    board: StdBoard<Vec<u8>, C>,
    memory: &mut Memory,
    seen: Option<Seen>,
    guard: Guard,
) -> Result<Told<C>, Refusal> {
    let words = top_words(rt.alloc(), Word::Ls, &meant.volume, meant.image)?;
    let mut board = board;
    let nothing: &[u8] = b"";
    let mut script = StdSource::new(nothing);
    let mut folder = StdFolder::unlisted(rt, rt.alloc());
    let mut bufs = memory.lend();
    let listed = spiffs_tool(&words, &mut board, &mut script, &mut folder, &mut bufs);
    let (row, said) = board.give_back();
    let status = if listed == BOARD_FAULT {
        listed
    } else {
        tell_damaged(rt, meant, said.as_slice());
        OTHER_META
    };
    Ok(Told {
        status,
        said: Vec::new(rt.alloc()),
        row,
        seen,
        guard,
    })
}

// Whether other numbers may be meant by a line that writes or tells what would be removed, which is said; it goes on behind `--force`.
fn is_other(
    rt: &HostRuntime,
    meant: &Meant<'_>,
    guard: Guard,
    seen: Option<Seen>,
) -> Result<bool, Refusal> {
    let (Some(seen), Some(held), Some(given)) = (seen, &meant.held, geometry_of(&meant.top)) else {
        return Ok(false);
    };
    let at = meant.volume.at;
    if guard == Guard::Open
        || meant.asked.is_forced
        || !wants_whole(&given, at, &seen, held.length())
    {
        return Ok(false);
    }
    let Ok(size) = u32::try_from(held.length()) else {
        return Ok(false);
    };
    let mut bytes = vec![in rt.alloc(); 0u8; size as usize]?;
    if held.read_at(0, &mut bytes).is_err() {
        return Ok(false);
    }
    let holding = Holding { bytes: &bytes, at };
    let force = Force {
        lost: seen.damaged,
        removes: guard != Guard::Foretells,
    };
    tell_others(rt, meant.image, &given, &seen, &holding, force)
}

/// Gives the command of the top call that a line means, on a row of one chip, with a script and a folder.
pub fn give_on<C: HostChip, F: Folder>(
    rt: &HostRuntime,
    meant: &Meant<'_>,
    row: ChipRow<C>,
    script: &[u8],
    folder: &mut F,
    memory: &mut Memory,
    guard: Guard,
) -> Result<Told<C>, Refusal> {
    let mut board = StdBoard::new(row, Vec::new(rt.alloc()));
    let looked = look(meant, guard, &mut board, memory);
    let seen = looked.unwrap_or(None);
    let is_better = is_other(rt, meant, guard, seen)? || is_refused(rt, seen);
    if looked.is_ok() && !is_better && is_harmed(meant, guard, seen) {
        return refuse_harmed(rt, meant, board, memory, seen, guard);
    }
    let status = if looked.is_err() {
        BOARD_FAULT
    } else if is_better {
        OTHER_META
    } else {
        let mut script = StdSource::new(script);
        let mut bufs = memory.lend();
        spiffs_tool(&meant.top, &mut board, &mut script, folder, &mut bufs)
    };
    let (row, said) = board.give_back();
    Ok(Told {
        status,
        said,
        row,
        seen,
        guard,
    })
}

/// What failed of the chip of a row, if it did.
pub fn trouble_of<C: HostChip>(row: &ChipRow<C>) -> Option<&Trouble> {
    row.chips().get(row.fuse_chip()?)?.trouble()
}

/// Says on standard error what the one who gave the line has to know of how a command ended.
pub fn explain_told<C: HostChip>(rt: &HostRuntime, meant: &Meant<'_>, told: &Told<C>) {
    match told.status {
        BOARD_FAULT => explain_image(rt, meant, trouble_of(&told.row)),
        OTHER_META => return,
        status => explain_status(rt, &meant.top, status),
    }
    match told.guard {
        Guard::Open | Guard::Rehearses => {}
        Guard::Removes => explain_removed(rt, told.seen, told.status),
        Guard::Foretells => explain_damaged(rt, told.seen),
    }
    if told.status == NO_VOLUME {
        tell_found_in(rt, meant);
    }
}

// Writes bytes to standard output.
fn write_out(rt: &HostRuntime, bytes: &[u8]) -> io::Result<()> {
    let mut out = rt.stdout();
    out.write_all(bytes)?;
    out.flush()
}

/// Prints bytes, and answers whether that could be done; if not it says why.
pub fn print_bytes(rt: &HostRuntime, bytes: &[u8]) -> bool {
    match write_out(rt, bytes) {
        Ok(()) => true,
        Err(why) => {
            explain(rt, Some(&Trouble::of_output(why)));
            false
        }
    }
}

/// Prints what a command said and what has to be known of it, and answers the status.
pub fn end_told<C: HostChip>(rt: &HostRuntime, meant: &Meant<'_>, told: &Told<C>) -> u8 {
    if !print_bytes(rt, told.said.as_slice()) {
        return BOARD_FAULT;
    }
    explain_told(rt, meant, told);
    told.status
}

/// Prints the closing line of an ending, and answers its status.
pub fn end_by(rt: &HostRuntime, ending: Ending) -> u8 {
    if print_bytes(rt, closing_line(ending).as_slice()) {
        ending.status()
    } else {
        BOARD_FAULT
    }
}

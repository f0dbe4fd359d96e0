//! The program `spiffs`: makes a board of chip files and the standard streams, lists the folder, lends the memory, and
//! ends with the status of the top call. What the one who gave the command has to know beside that, it says on standard error:
//! what failed, which word or name is wrong, what was passed over or removed. Before a command that removes damaged files it
//! looks whether another META reads more whole files, and then it writes nothing.
#![tactic(auto)]

mod cat;
mod chips;
mod copying;
mod detect;
mod front;
mod give;
mod guard;
mod help;
mod look;
mod making;
mod meant;
mod picture;
mod room;
mod save;
mod script;
mod stop;
mod store;
mod trace;
mod trees;
mod usage;
mod words;

use chips::{BUSY, begin_board, check_free, check_names, end_row, row_of};
use copying::begin_copy;
use detect::{detect_board, detect_on, tell_found};
use fd_table::FdSlot;
use front::begin_front;
use front_words::is_own;
use guard::is_stopped;
use help::{HELP, VERSION};
use host_edge::{
    Bounds, FileChip, FileId, HeldFile, Shown, SizeLimit, StdBoard, StdFolder, StdSource, Trouble,
};
use look::{Seen, look_before};
use making::{Target, make_whole, target_of};
use nor_core::MemErr;
use rehearse_tool::rehearse_tool;
use std::alloc::{AllocError, Global};
use std::fs::File;
use std::io::{Read, Write};
use std::process::ExitCode;
use std::rt::Env;
use std::{env, fs, io};
use tool_core::spiffs_tool;
use tool_parts::{Buffers, chip_size_of};
use trace::trace_on;
use usage::wrong_word;
use words::{FOLDER_WORD, chip_word, detects, foretells, is_guarded, word};

/// The status where the words are no command.
const USAGE: u8 = 1;

/// The status where two or more blocks lack their magic.
const NO_VOLUME: u8 = 3;

/// The status where blocks with pages of both kinds can't be parted.
const OVER: u8 = 4;

/// The status where the volume has no room for a folder.
const FULL: u8 = 6;

/// The status where a chip or standard output failed.
const BOARD_FAULT: u8 = 7;

/// The status where the script could not be read.
const SCRIPT_FAULT: u8 = 8;

/// The status where the folder failed.
const FOLDER_FAULT: u8 = 9;

/// The status where damaged ids were found.
const DAMAGED: u8 = 12;

/// The status where a name of the folder is no file's.
const BAD_NAME: u8 = 13;

/// The status where another META reads more whole files.
const OTHER_META: u8 = 23;

/// The status where a word of the front asks for a call that is refused.
const REFUSED: u8 = 25;

/// The most bytes of work that are lent: enough for every volume.
const MOST_WORK: usize = 1_048_576;

/// Descriptors that are lent.
const SLOTS: usize = 16;

/// The most bytes of cache that are lent where there is no memory for a frame of each page.
const SMALL_CACHE: usize = 262_144;

/// The most bytes of cache that are lent: enough for 65,535 pages of 4,096 bytes.
const MOST_CACHE: usize = 301_989_888;

/// The most bytes of check that are lent: enough for 65,535 pages.
const MOST_CHECK: usize = 131_072;

/// Bytes of the write window that are lent: the longest page.
const WINDOW: usize = 4096;

/// Bytes of line that are lent.
const LINE: usize = 12_288;

/// The memory that is lent to the top call.
#[derive(Drop)]
struct Memory {
    work: Vec<u8>,
    slots: Vec<FdSlot>,
    cache: Vec<u8>,
    check: Vec<u8>,
    window: Vec<u8>,
    line: Vec<u8>,
}

// Bytes of work for a volume of that many bytes, within the limit: four for each byte of a page, which has at most 4,096 and at least
// 128, four for each page of a block, sixteen for each block, which has at least two pages, and a bit for each usable page.
fn work_for(volume: u32) -> usize {
    (16_385 + volume as usize / 8).min(MOST_WORK)
}

// Bytes of cache for a volume of that many bytes: a frame for each page, within the limit. A frame has eight bytes more than a page, which
// has at least 128.
fn cache_for(volume: u32) -> usize {
    (volume.saturating_add(volume / 16) as usize).min(MOST_CACHE)
}

// Bytes of check for a volume of that many bytes, within the limit: one for each page, which has at least 128, and 8,192.
fn check_for(volume: u32) -> usize {
    (8192 + volume as usize / 128).min(MOST_CHECK)
}

impl Memory {
    fn new(alloc: Global, volume: u32, cache: usize) -> Result<Memory, AllocError> {
        Ok(Memory {
            work: vec![in alloc; 0u8; work_for(volume)]?,
            slots: vec![in alloc; FdSlot::empty(); SLOTS]?,
            cache: vec![in alloc; 0u8; cache]?,
            check: vec![in alloc; 0u8; check_for(volume)]?,
            window: vec![in alloc; 0u8; WINDOW]?,
            line: vec![in alloc; 0u8; LINE]?,
        })
    }

    // Lends it.
    fn lend(&mut self) -> Buffers<'_> {
        Buffers {
            work: &mut self.work,
            slots: &mut self.slots,
            cache: &mut self.cache,
            check: &mut self.check,
            window: &mut self.window,
            line: &mut self.line,
        }
    }
}

// The words of the command line, without the program's own name. Else the cause is want of memory, or a word that isn't text.
fn words_of<R: Env + Alloc<A = Global>>(rt: &R) -> io::Result<Vec<String>> {
    let args = env::args(rt)?;
    Ok(args.skip(1).collect(rt.alloc())?)
}

/// Why no command was begun.
#[derive(Drop)]
enum Refusal {
    /// There is no memory.
    Memory,
    /// The chips make no row.
    Chips,
    /// All is said, and this is the status.
    Told(u8),
}

impl From<AllocError> for Refusal {
    fn from(_: AllocError) -> Refusal {
        Refusal::Memory
    }
}

impl From<MemErr> for Refusal {
    fn from(_: MemErr) -> Refusal {
        Refusal::Memory
    }
}

// What no file of the folder may be: the chip files, as far as they are there; and how large it may become.
fn bounds_of(rt: &HostRuntime, words: &[String]) -> Result<Bounds, AllocError> {
    let mut chips = Vec::new(rt.alloc());
    for path in chip_word(words).split(',') {
        if let Ok(id) = FileId::at(rt, path) {
            chips.push(id)?;
        }
    }
    let limit = SizeLimit::of(rt);
    Ok(Bounds { chips, limit })
}

// The folder that is written or read; another command asks for none, and none is listed then.
fn folder_of<'r>(
    rt: &'r HostRuntime,
    words: &[String],
) -> Result<StdFolder<&'r HostRuntime>, Refusal> {
    let verb = word(words, 0);
    if !matches!(verb, "extract" | "make") {
        return Ok(StdFolder::unlisted(rt, rt.alloc()));
    }
    let path = word(words, FOLDER_WORD);
    let mut folder = StdFolder::within(rt, rt.alloc(), path, bounds_of(rt, words)?)?;
    if verb == "make" {
        folder.refuse_chips();
    }
    Ok(folder)
}

// Says on standard error what failed, if anything did.
fn explain(rt: &impl Eprint, trouble: Option<&Trouble>) {
    if let Some(trouble) = trouble {
        // (if standard error fails too there is nobody to tell)
        let _said = eprintln!(rt; "spiffs: {trouble}");
    }
}

// Says on standard error what failed of a file of the host.
fn explain_path(rt: &impl Eprint, path: &str, trouble: &Trouble) {
    let path = Shown(path);
    // (if standard error fails too there is nobody to tell)
    let _said = eprintln!(rt; "spiffs: {path}: {trouble}");
}

// Says on standard error which chip file failed and why, by its number among the names, or why nothing more could be said.
fn explain_chip(rt: &HostRuntime, names: &str, chip: Option<usize>, trouble: Option<&Trouble>) {
    let mut paths = names.split(',');
    let path = chip.and_then(|i| paths.nth(i));
    match (path, trouble) {
        (Some(path), Some(trouble)) => explain_path(rt, path, trouble),
        (_, trouble) => explain(rt, trouble),
    }
}

// Says on standard error which chip file of a board failed and why, or why nothing more could be said.
fn explain_board<W: Write + Drop>(
    rt: &HostRuntime,
    words: &[String],
    board: &StdBoard<W, FileChip>,
) {
    explain_chip(rt, chip_word(words), board.failed_chip(), board.trouble());
}

// Whether a command that ended so has brought the volume that it writes into order: then its damaged files are gone.
fn has_repaired(status: u8) -> bool {
    matches!(status, 0 | 5 | 6 | 8 | 11 | 12 | 13 | 14 | 17)
}

// Says on standard error how many damaged files a check removed.
fn explain_removed(rt: &impl Eprint, seen: Option<Seen>, status: u8) {
    let Some(seen) = seen else {
        return;
    };
    let damaged = seen.damaged;
    if damaged > 0 && has_repaired(status) {
        // (if standard error fails too there is nobody to tell)
        let _said = eprintln!(rt; "spiffs: damaged files that the check removed: {damaged}");
    }
}

// Says on standard error how many damaged files there are, where a command tells what `run` would do.
fn explain_damaged(rt: &impl Eprint, seen: Option<Seen>) {
    let Some(seen) = seen else {
        return;
    };
    let damaged = seen.damaged;
    if damaged > 0 {
        // (if standard error fails too there is nobody to tell)
        let _said = eprintln!(rt; "spiffs: damaged files that run would remove: {damaged}");
    }
}

// Says on standard error what of the folder was passed over, and what is wrong with a name.
fn explain_folder<'r>(rt: &impl Eprint, folder: &StdFolder<&'r HostRuntime>, status: u8) {
    for passed in folder.passed_over() {
        let path = Shown(passed.path.as_str());
        let kind = if passed.is_folder {
            "folder"
        } else {
            "special file"
        };
        let _said = eprintln!(rt; "spiffs: {path}: a {kind}, passed over");
    }
    if status == BAD_NAME {
        if let Some(bad) = folder.bad_name() {
            let _said = eprintln!(rt; "spiffs: {bad}");
        }
    }
}

// Says on standard error what failed of the folder, and on which path.
fn explain_folder_fault<'r>(rt: &impl Eprint, folder: &StdFolder<&'r HostRuntime>) {
    if let Some(trouble) = folder.trouble() {
        explain_path(rt, folder.failed_path(), trouble);
    }
}

// Says on standard error what the one who gave the words has to know of a status.
fn explain_status(rt: &impl Eprint, words: &[String], status: u8) {
    match status {
        USAGE => {
            if let Some(wrong) = wrong_word(words) {
                let _said = eprintln!(rt; "spiffs: {wrong}; try spiffs --help");
            }
        }
        NO_VOLUME => {
            let _said = eprintln!(rt;
                "spiffs: PAGE, BLOCK, BLOCKS or MAGIC may be wrong; detect finds:"
            );
        }
        OVER => {
            let _said = eprintln!(rt;
                "spiffs: too few blocks are free to part those with pages of both kinds: extract the files and make a new chip"
            );
        }
        _ => {}
    }
}

// Says on standard error that another META reads more whole files, if one does.
fn is_refused(rt: &impl Eprint, seen: Option<Seen>) -> bool {
    let Some(seen) = seen else {
        return false;
    };
    let Some(better) = seen.better else {
        return false;
    };
    let _said = eprintln!(rt; "spiffs: {better}");
    true
}

// Says on standard error what the one who gave the words has to know of how a command ended.
fn explain_end<'r, W: Write + Drop, R: Read + Drop>(
    rt: &HostRuntime,
    words: &[String],
    status: u8,
    board: &StdBoard<W, FileChip>,
    script: &StdSource<R>,
    folder: &StdFolder<&'r HostRuntime>,
) {
    match status {
        BOARD_FAULT => explain_board(rt, words, board),
        SCRIPT_FAULT => explain(rt, script.trouble()),
        FOLDER_FAULT => explain_folder_fault(rt, folder),
        0 | FULL | BAD_NAME if word(words, 0) == "make" => explain_folder(rt, folder, status),
        _ => explain_status(rt, words, status),
    }
}

// Looks at the volume before a command, and answers what it held, unless the command is stopped.
fn look_first<W: Write + Drop>(
    rt: &HostRuntime,
    words: &[String],
    is_forced: bool,
    board: &mut StdBoard<W, FileChip>,
    bufs: &mut Buffers<'_>,
) -> Result<Option<Seen>, Refusal> {
    let Ok(seen) = look_before(words, is_forced, board, bufs) else {
        explain_board(rt, words, board);
        return Err(Refusal::Told(BOARD_FAULT));
    };
    if is_stopped(rt, words, chip_word(words), is_forced, seen, board)? {
        return Err(Refusal::Told(OTHER_META));
    }
    Ok(seen)
}

// Runs the command that the words spell, over the chip files and the folder that they name.
fn run(
    rt: &HostRuntime,
    words: &[String],
    is_forced: bool,
    memory: &mut Memory,
) -> Result<u8, Refusal> {
    let mut bufs = memory.lend();
    check_names(rt, words, chip_word(words))?;
    let mut board = begin_board(rt, words, row_of(rt, words, &bufs)?, rt.stdout())?;
    let seen = look_first(rt, words, is_forced, &mut board, &mut bufs)?;
    let mut script = StdSource::new(rt.stdin());
    let mut folder = folder_of(rt, words)?;
    let status = match word(words, 0) {
        "trace" => trace_on(rt, words, &mut board, &mut script, &mut bufs),
        "rehearse" => rehearse_tool(rt.alloc(), words, &mut board, &mut script, &mut bufs),
        _ => spiffs_tool(words, &mut board, &mut script, &mut folder, &mut bufs),
    };
    explain_end(rt, words, status, &board, &script, &folder);
    if foretells(words) {
        explain_damaged(rt, seen);
    } else {
        explain_removed(rt, seen, status);
    }
    let status = end_row(rt, chip_word(words), board.finish(), status);
    // (its lock is let go, since the file is opened again)
    drop(board);
    if status == NO_VOLUME {
        tell_found(rt, words);
    }
    Ok(status)
}

// Makes a volume in memory and then its file, which is held if it is there, and answers the status.
fn make(
    rt: &HostRuntime,
    words: &[String],
    held: Option<&HeldFile>,
    memory: &mut Memory,
) -> Result<u8, Refusal> {
    let mut folder = folder_of(rt, words)?;
    let mut bufs = memory.lend();
    let status = make_whole(rt, words, held, &mut folder, &mut bufs)?;
    match status {
        FOLDER_FAULT => explain_folder_fault(rt, &folder),
        0 | FULL | BAD_NAME => explain_folder(rt, &folder, status),
        BOARD_FAULT | BUSY => {}
        _ => explain_status(rt, words, status),
    }
    Ok(status)
}

// Makes a volume: in memory where its file is a plain one, else in place.
fn begin_make(rt: &HostRuntime, words: &[String], memory: &mut Memory) -> Result<u8, Refusal> {
    match target_of(rt, words, &memory.lend())? {
        Target::Whole(held) => make(rt, words, held.as_ref(), memory),
        Target::InPlace => run(rt, words, false, memory),
    }
}

// Says which volumes the chip files may hold.
fn find_volumes(rt: &HostRuntime, words: &[String]) -> Result<u8, Refusal> {
    check_names(rt, words, chip_word(words))?;
    let mut board = detect_board(rt, words, rt.stdout())?;
    check_free(rt, words, chip_word(words), board.busy_chip())?;
    let status = detect_on(rt, words, &mut board)?;
    match status {
        BOARD_FAULT => explain_board(rt, words, &board),
        NO_VOLUME => {}
        _ => explain_status(rt, words, status),
    }
    Ok(end_row(rt, chip_word(words), board.finish(), status))
}

// Three descriptors that read nothing. Held from the start on, they stand in the place of standard streams
// that are closed, so that no chip file is opened there and written by what is said.
#[derive(Drop)]
struct Held {
    streams: [Option<File>; 3],
}

impl Held {
    fn new(rt: &HostRuntime) -> Held {
        let first = fs::open(rt, "/dev/null").ok();
        let second = fs::open(rt, "/dev/null").ok();
        let third = fs::open(rt, "/dev/null").ok();
        Held {
            streams: [first, second, third],
        }
    }
}

// Prints a text, and answers the status.
fn tell(rt: &(impl Print + Eprint), text: &str, status: u8) -> u8 {
    match rt.print(text) {
        Ok(()) => status,
        Err(why) => {
            explain(rt, Some(&Trouble::of_output(why)));
            BOARD_FAULT
        }
    }
}

// Takes the memory, with a small cache where the host has none for a frame of each page.
fn take_memory(rt: &HostRuntime, words: &[String]) -> Result<Memory, AllocError> {
    let volume = chip_size_of(words, 1);
    let cache = cache_for(volume);
    match Memory::new(rt.alloc(), volume, cache) {
        Ok(memory) => Ok(memory),
        Err(_) => Memory::new(rt.alloc(), volume, cache.min(SMALL_CACHE)),
    }
}

// Takes the memory, and runs the command.
fn begin(rt: &HostRuntime, words: &[String], is_forced: bool) -> Result<u8, Refusal> {
    if word(words, 0) == "copy" {
        return begin_copy(rt, words, is_forced);
    }
    if detects(words) {
        return find_volumes(rt, words);
    }
    let mut memory = take_memory(rt, words)?;
    if word(words, 0) == "make" {
        return begin_make(rt, words, &mut memory);
    }
    run(rt, words, is_forced, &mut memory)
}

// The words without a first `--force`, and whether it stands there before a command that is guarded.
fn without_force(words: &[String]) -> (&[String], bool) {
    match words {
        [first, rest @ ..] if first.as_str() == "--force" && is_guarded(rest) => (rest, true),
        _ => (words, false),
    }
}

// Begins a command of the top call, or a line of the front.
fn begin_either(rt: &HostRuntime, words: &[String]) -> Result<u8, Refusal> {
    if is_own(words) {
        let (words, is_forced) = without_force(words);
        begin(rt, words, is_forced)
    } else {
        begin_front(rt, words)
    }
}

fn start(rt: &HostRuntime) -> u8 {
    let words = match words_of(rt) {
        Ok(words) => words,
        Err(why) if why.kind() == io::ErrorKind::OutOfMemory => return tell(rt, "! memory\n", 15),
        Err(_) => {
            let _said = eprintln!(rt; "spiffs: a word is no UTF-8; try spiffs --help");
            return tell(rt, "! usage\n", USAGE);
        }
    };
    if words.len() == 1 && words[0].as_str() == "--help" {
        return tell(rt, HELP, 0);
    }
    if words.len() == 1 && words[0].as_str() == "--version" {
        return tell(rt, VERSION, 0);
    }
    match begin_either(rt, &words) {
        Ok(status) => status,
        Err(Refusal::Memory) => tell(rt, "! memory\n", 15),
        Err(Refusal::Chips) => tell(rt, "! chips\n", 22),
        Err(Refusal::Told(status)) => status,
    }
}

fn main(rt: HostRuntime) -> ExitCode {
    let held = Held::new(&rt);
    let status = start(&rt);
    drop(held);
    ExitCode::from(status)
}

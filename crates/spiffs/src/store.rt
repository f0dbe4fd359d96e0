//! The words `put`, `rm` and `mv`, which change files of an image. Their whole script runs on a copy in memory first, and only if no line of it
//! is refused there the image is changed.
use crate::give::{Guard, Told, chip_copy, chip_file, explain_told, give_on, print_bytes, row_of};
use crate::look::Seen;
use crate::meant::{Meant, fail, text_of};
use crate::save::{is_replaced, save_copy, sync_image};
use crate::script::{FileName, May, Script, count_lines, first_refused, reason_of};
use crate::stop::Stop;
use crate::{
    BOARD_FAULT, FOLDER_FAULT, Memory, REFUSED, explain_damaged, explain_removed, take_memory, tell,
};
use chip_row::ChipRow;
use front_edge::HostChip;
use front_words::{Asked, SCRATCH, Word, can_be_put, image_word, make_working, place};
use host_edge::{Shown, StdFolder, Trouble};
use std::alloc::{AllocError, Global};
use std::io::Read;
use std::{fs, io, str};
use table_model::FsErr;
use tree_paths::decoded;

/// Bytes of a host file that are read at a time.
const READ: usize = 4096;

// Says why a name or a call is refused, and answers the status.
fn refuse(rt: &HostRuntime, what: &str, why: FsErr) -> Stop {
    let number = why.number();
    let status = match format!(in rt.alloc(); "! refused {number}\n") {
        Ok(line) => tell(rt, line.as_str(), REFUSED),
        Err(_) => REFUSED,
    };
    let what = Shown(what);
    // (if standard error fails too there is nobody to tell)
    let _said = eprintln!(rt; "spiffs: {what}: {why}");
    Stop::Status(status)
}

// These bytes as a file's name, which was given so.
fn checked<'n>(rt: &HostRuntime, given: &str, bytes: &'n [u8]) -> Result<FileName<'n>, Stop> {
    match FileName::new(bytes) {
        Ok(name) => Ok(name),
        Err(why) => Err(refuse(rt, given, why)),
    }
}

// Says why a script is refused that ended with another status than 0.
fn refuse_told<C: HostChip>(rt: &HostRuntime, meant: &Meant<'_>, told: &Told<C>) -> Stop {
    // (the closing line is the last one; replies stand before it)
    let mut last: &[u8] = b"";
    for line in told.said.as_slice().split(|byte| *byte == b'\n') {
        if line.starts_with(b"!") {
            last = line;
        }
    }
    if !last.is_empty() && !(print_bytes(rt, last) && print_bytes(rt, b"\n")) {
        return Stop::Status(BOARD_FAULT);
    }
    explain_told(rt, meant, told);
    Stop::Status(told.status)
}

// Refuses a script of which a reply isn't one that its line may have.
fn judge<C: HostChip>(
    rt: &HostRuntime,
    meant: &Meant<'_>,
    text: &[u8],
    told: &Told<C>,
    mays: &[May],
) -> Result<(), Stop> {
    if let Some(refused) = first_refused(text, told.said.as_slice(), mays) {
        if let Some(why) = reason_of(refused.reply) {
            let call = str::from_utf8(refused.call).unwrap_or("");
            return Err(refuse(rt, call, why));
        }
        if told.status == 0 {
            let reply = Shown(str::from_utf8(refused.reply).unwrap_or(""));
            let call = Shown(str::from_utf8(refused.call).unwrap_or(""));
            let _said = eprintln!(rt; "spiffs: {call}: {reply}");
            return Err(Stop::Status(BOARD_FAULT));
        }
    }
    if told.status == 0 {
        return Ok(());
    }
    Err(refuse_told(rt, meant, told))
}

// Runs all scripts on a chip, and answers what the volume held before, and the chip. Each reply has to be one that its line may have.
fn run_all<C: HostChip>(
    rt: &HostRuntime,
    meant: &Meant<'_>,
    row: ChipRow<C>,
    script: &Script,
    memory: &mut Memory,
    guard: Guard,
) -> Result<(Option<Seen>, ChipRow<C>), Stop> {
    let mut folder = StdFolder::unlisted(rt, rt.alloc());
    let mut row = row;
    let mut first = None;
    let mut mays = script.mays.as_slice();
    for (i, text) in script.texts.as_slice().iter().enumerate() {
        let guard = if i == 0 { guard } else { Guard::Open };
        let told = give_on(rt, meant, row, text.as_slice(), &mut folder, memory, guard)?;
        let (own, behind) = mays.split_at(count_lines(text.as_slice()).min(mays.len()));
        judge(rt, meant, text.as_slice(), &told, own)?;
        mays = behind;
        let Told {
            row: after,
            seen,
            status: _,
            said: _,
            guard: _,
        } = told;
        first = first.or(seen);
        row = after;
    }
    Ok((first, row))
}

// Runs the scripts on the image's file itself.
fn change_file(
    rt: &HostRuntime,
    meant: &Meant<'_>,
    script: &Script,
    memory: &mut Memory,
) -> Result<(), Stop> {
    let file = row_of(rt, meant, chip_file(meant)?)?;
    let (_, file) = run_all(rt, meant, file, script, memory, Guard::Open)?;
    drop(file);
    sync_image(rt, meant)
}

// Runs the scripts on a copy in memory, and answers what the volume held before. Unless the file is only to be read the copy then comes into
// its place, where the volume is all that it holds.
fn change_copy(
    rt: &HostRuntime,
    meant: &Meant<'_>,
    script: &Script,
    memory: &mut Memory,
) -> Result<Option<Seen>, Stop> {
    let copy = row_of(rt, meant, chip_copy(rt, meant)?)?;
    let (seen, copy) = run_all(rt, meant, copy, script, memory, Guard::Rehearses)?;
    if !meant.asked.is_dry && is_replaced(meant) {
        save_copy(rt, meant, &copy)?;
    }
    Ok(seen)
}

// Runs the scripts on a copy in memory, and changes the image.
fn change(rt: &HostRuntime, meant: &Meant<'_>, script: &Script) -> Result<u8, Stop> {
    let mut memory = take_memory(rt, &meant.top)?;
    let seen = change_copy(rt, meant, script, &mut memory)?;
    if meant.asked.is_dry {
        explain_damaged(rt, seen);
        return Ok(0);
    }
    if !is_replaced(meant) {
        change_file(rt, meant, script, &mut memory)?;
    }
    explain_removed(rt, seen, 0);
    Ok(0)
}

/// Removes the files that are named behind the image.
pub fn remove(rt: &HostRuntime, meant: &Meant<'_>) -> Result<u8, Stop> {
    let mut script = Script::new(rt.alloc());
    for number in 2..usize::MAX {
        let Some(given) = place(meant.words, number) else {
            break;
        };
        let name = decoded(rt.alloc(), given)?;
        script.remove(checked(rt, text_of(Some(given)), &name)?, May::Done)?;
    }
    script.end()?;
    change(rt, meant, &script)
}

/// Gives a file another name.
pub fn rename(rt: &HostRuntime, meant: &Meant<'_>) -> Result<u8, Stop> {
    let given = text_of(place(meant.words, 2));
    let wanted = text_of(place(meant.words, 3));
    let old = decoded(rt.alloc(), given.as_bytes())?;
    let new = decoded(rt.alloc(), wanted.as_bytes())?;
    let mut script = Script::new(rt.alloc());
    let old = checked(rt, given, &old)?;
    let new = checked(rt, wanted, &new)?;
    script.rename(old, new, May::Done)?;
    script.end()?;
    change(rt, meant, &script)
}

// The name under which a file is put: as it was given, else a slash and the last part of its path.
fn target_of(alloc: Global, meant: &Meant<'_>, path: &str) -> Result<Vec<u8>, AllocError> {
    if let Some(given) = place(meant.words, 3) {
        return decoded(alloc, given);
    }
    let last = match path.rsplit_once('/') {
        Some((_, last)) => last,
        None => path,
    };
    let mut name = Vec::new(alloc);
    name.push(b'/')?;
    name.extend_from_slice(last.as_bytes())?;
    Ok(name)
}

// Says why a host file can't be read, and answers the status.
fn no_file(rt: &HostRuntime, path: &str, why: io::Error) -> Stop {
    let status = tell(rt, "! folder fault\n", FOLDER_FAULT);
    fail(rt, path, &Trouble::Get(why), status)
}

// The bytes of a host file, at most `most` and those of one piece more: a device may have no end.
fn read_some(rt: &HostRuntime, path: &str, most: usize) -> io::Result<Vec<u8>> {
    let mut file = fs::open(rt, path)?;
    let mut bytes = Vec::new(rt.alloc());
    let mut piece = [0u8; READ];
    // (each turn but the last one reads a byte or more)
    for _ in 0..most.saturating_add(1) {
        let count = file.read(&mut piece)?;
        bytes.extend_from_slice(piece.get(..count).unwrap_or(&[]))?;
        if count == 0 || bytes.len() > most {
            break;
        }
    }
    Ok(bytes)
}

/// The bytes that a line puts, where they come through a pipe or from a device: read before the image is held, since the program that gives them may
/// read that image. Of more than the image has no more are read. None where there is another reason to read them later.
pub fn read_early(rt: &HostRuntime, words: &[String], asked: &Asked) -> Option<Vec<u8>> {
    if asked.word != Word::Put {
        return None;
    }
    let path = text_of(place(words, 2));
    let told = fs::metadata(rt, path).ok()?;
    let image = fs::metadata(rt, text_of(image_word(words, asked))).ok()?;
    if told.is_file() || told.is_dir() || !image.is_file() {
        return None;
    }
    read_some(rt, path, usize::try_from(image.len()).ok()?).ok()
}

// The bytes of a host file that is to be put, unless they were read before. One that is longer than the volume is refused: a plain file before it
// is read, and any other once more than the volume has was read.
fn read_file(
    rt: &HostRuntime,
    meant: &Meant<'_>,
    path: &str,
    early: Option<Vec<u8>>,
) -> Result<Vec<u8>, Stop> {
    if let Some(bytes) = early {
        return if bytes.len() > meant.size as usize {
            Err(refuse(rt, path, FsErr::Full))
        } else {
            Ok(bytes)
        };
    }
    let told = match fs::metadata(rt, path) {
        Ok(told) => told,
        Err(why) => return Err(no_file(rt, path, why)),
    };
    if told.is_file() && told.len() > u64::from(meant.size) {
        return Err(refuse(rt, path, FsErr::Full));
    }
    match read_some(rt, path, meant.size as usize) {
        Ok(bytes) if bytes.len() > meant.size as usize => Err(refuse(rt, path, FsErr::Full)),
        Ok(bytes) => Ok(bytes),
        Err(why) => Err(no_file(rt, path, why)),
    }
}

// The scripts that put a file. They bring back the old one where an earlier line of this kind was cut, write the new one beside it under
// `SCRATCH`, and exchange them: until the new one has the name, the old one has it or its working name.
fn put_script(
    alloc: Global,
    name: FileName<'_>,
    working: FileName<'_>,
    scratch: FileName<'_>,
    bytes: &[u8],
) -> Result<Script, AllocError> {
    let mut script = Script::new(alloc);
    script.rename(working, name, May::There)?;
    script.remove(working, May::Missing)?;
    script.remove(scratch, May::Missing)?;
    script.fill(scratch, bytes)?;
    script.rename(name, working, May::Missing)?;
    script.rename(scratch, name, May::Done)?;
    script.remove(working, May::Missing)?;
    script.end()?;
    Ok(script)
}

/// Puts a host file onto the volume, in the place of one with that name.
pub fn put(rt: &HostRuntime, meant: &Meant<'_>, early: Option<Vec<u8>>) -> Result<u8, Stop> {
    let path = text_of(place(meant.words, 2));
    let target = target_of(rt.alloc(), meant, path)?;
    let given = match place(meant.words, 3) {
        Some(given) => text_of(Some(given)),
        None => path,
    };
    let name = checked(rt, given, &target)?;
    if !can_be_put(&target) {
        return Err(refuse(rt, given, FsErr::BadName));
    }
    let mut turned = Vec::from_slice(rt.alloc(), &target)?;
    make_working(&mut turned);
    let working = checked(rt, given, &turned)?;
    let scratch = checked(rt, given, SCRATCH)?;
    let bytes = read_file(rt, meant, path, early)?;
    let script = put_script(rt.alloc(), name, working, scratch, &bytes)?;
    change(rt, meant, &script)
}

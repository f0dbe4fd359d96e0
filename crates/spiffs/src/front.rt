//! Words of other tools: what a line means that begins with no command of the top call, and which part does it.
use crate::cat::cat;
use crate::give::{Guard, Told, chip_copy, chip_file, end_told, give_on, row_of};
use crate::meant::{Meant, find_meant, text_of};
use crate::picture::picture;
use crate::room::{df, size};
use crate::save::{end_image, is_replaced, save_copy, sync_image};
use crate::stop::Stop;
use crate::store::{put, read_early, remove, rename};
use crate::trees::{pack, unpack};
use crate::usage::wrong_word;
use crate::{Refusal, USAGE, has_repaired, take_memory, tell};
use chip_row::ChipRow;
use front_edge::HostChip;
use front_words::{Asked, Refusal as LineRefusal, Slot, Word, first_given, read_line};
use host_edge::{Shown, StdFolder};

// The option that a refusal speaks of without naming it: one that isn't known, or whose value is missing.
fn unnamed(why: LineRefusal) -> Option<Slot> {
    match why {
        LineRefusal::NotTaken(Slot::Unknown) => Some(Slot::Unknown),
        LineRefusal::NotTaken(Slot::NoValue) => Some(Slot::NoValue),
        _ => None,
    }
}

// Says why a line is refused, behind the closing line of a faulty command line.
fn refuse_line(rt: &HostRuntime, words: &[String], why: LineRefusal) -> u8 {
    let status = tell(rt, "! usage\n", USAGE);
    if let Some(slot) = unnamed(why) {
        let given = Shown(text_of(first_given(words, slot)));
        // (if standard error fails too there is nobody to tell)
        let _said = eprintln!(rt; "spiffs: {given}: {why}; try spiffs --help");
        return status;
    }
    match (why, wrong_word(words)) {
        (LineRefusal::UnknownWord, Some(wrong)) => {
            // (if standard error fails too there is nobody to tell)
            let _said = eprintln!(rt; "spiffs: {wrong}; try spiffs --help");
        }
        _ => {
            let _said = eprintln!(rt; "spiffs: {why}; try spiffs --help");
        }
    }
    status
}

// Gives the command that a line means, without a script or a folder.
fn give_alone<C: HostChip>(
    rt: &HostRuntime,
    meant: &Meant<'_>,
    row: ChipRow<C>,
    guard: Guard,
) -> Result<Told<C>, Stop> {
    let mut memory = take_memory(rt, &meant.top)?;
    let mut folder = StdFolder::unlisted(rt, rt.alloc());
    Ok(give_on(rt, meant, row, b"", &mut folder, &mut memory, guard)?)
}

// Lists the files of the volume. Nothing is written.
fn list(rt: &HostRuntime, meant: &Meant<'_>) -> Result<u8, Stop> {
    let row = row_of(rt, meant, chip_file(meant)?)?;
    let told = give_alone(rt, meant, row, Guard::Open)?;
    Ok(end_told(rt, meant, &told))
}

// Checks a copy of the volume in memory, which then comes into the place of the file.
fn repair_copy(rt: &HostRuntime, meant: &Meant<'_>) -> Result<u8, Stop> {
    let row = row_of(rt, meant, chip_copy(rt, meant)?)?;
    let told = give_alone(rt, meant, row, Guard::Removes)?;
    if has_repaired(told.status) {
        save_copy(rt, meant, &told.row)?;
    }
    Ok(end_told(rt, meant, &told))
}

// Checks the volume where it stands.
fn repair_file(rt: &HostRuntime, meant: &Meant<'_>) -> Result<u8, Stop> {
    let row = row_of(rt, meant, chip_file(meant)?)?;
    let told = give_alone(rt, meant, row, Guard::Removes)?;
    sync_image(rt, meant)?;
    Ok(end_told(rt, meant, &told))
}

// Checks the volume: the image itself if it is to be mended, else a copy in memory.
fn check(rt: &HostRuntime, meant: &Meant<'_>) -> Result<u8, Stop> {
    if meant.asked.repairs && !meant.asked.is_dry {
        return if is_replaced(meant) {
            repair_copy(rt, meant)
        } else {
            repair_file(rt, meant)
        };
    }
    let row = row_of(rt, meant, chip_copy(rt, meant)?)?;
    let told = give_alone(rt, meant, row, Guard::Foretells)?;
    Ok(end_told(rt, meant, &told))
}

// Does what a word asks of an image; the bytes that it puts may have been read.
fn do_word(
    rt: &HostRuntime,
    meant: &mut Meant<'_>,
    word: Word,
    early: Option<Vec<u8>>,
) -> Result<u8, Stop> {
    match word {
        Word::Pack | Word::Gen => pack(rt, meant),
        Word::Unpack => unpack(rt, meant),
        Word::Fsck => check(rt, meant),
        Word::Cat => cat(rt, meant),
        Word::Put => put(rt, meant, early),
        Word::Rm => remove(rt, meant),
        Word::Mv => rename(rt, meant),
        Word::Df => df(rt, meant),
        Word::Picture => picture(rt, meant),
        _ => list(rt, meant),
    }
}

// Does what a line asks.
fn perform(rt: &HostRuntime, words: &[String], asked: Asked) -> Result<u8, Stop> {
    if asked.word == Word::Size {
        return size(rt, words, &asked);
    }
    let early = read_early(rt, words, &asked);
    let mut meant = find_meant(rt, words, asked)?;
    let status = do_word(rt, &mut meant, asked.word, early)?;
    Ok(end_image(rt, &meant, status))
}

/// Does what a line asks that begins with no command of the top call, and answers the status.
pub fn begin_front(rt: &HostRuntime, words: &[String]) -> Result<u8, Refusal> {
    let asked = match read_line(words) {
        Ok(asked) => asked,
        Err(why) => return Ok(refuse_line(rt, words, why)),
    };
    match perform(rt, words, asked) {
        Ok(status) => Ok(status),
        Err(Stop::Status(status)) => Ok(status),
        Err(Stop::Refusal(why)) => Err(why),
    }
}

//! Which volume a line of the front means.
use crate::chips::BUSY;
use crate::detect::{PLACES, found_in, may_hold_one};
use crate::stop::Stop;
use crate::{BOARD_FAULT, NO_VOLUME, OTHER_META, USAGE, tell};
use front_words::{
    Asked, Candidate, Unsettled, Volume, Word, choose_sure, image_word, is_doubled, settle,
    top_words, wants_detect,
};
use host_edge::{Access, HeldFile, Shown, Trouble};
use std::alloc::{AllocError, Global};
use std::{fs, str};
use tool_parts::{chip_size_of, unit_of};
use volume_detect::byte_of;
use volume_rank::{Found, next_best};

/// The most volumes that are told where it isn't known which is meant.
const TOLD: usize = 10;

/// A line of the front, the volume that it means, and the line of the top call for it.
#[derive(Drop)]
pub struct Meant<'w> {
    /// The words as they were given.
    pub words: &'w [String],
    /// What they ask for.
    pub asked: Asked,
    /// The path of the image.
    pub image: &'w str,
    /// Its file, which is open until the line has ended; none where it is to be made.
    pub held: Option<HeldFile>,
    /// The volume.
    pub volume: Volume,
    /// The words of the top call, but for the folder.
    pub top: Vec<String>,
    /// Bytes of the volume.
    pub size: u32,
    /// Bytes of an erase unit.
    pub unit: u32,
    /// Whether the line would remove damaged files for good that were found, and doesn't say that it may.
    pub is_harmed: bool,
}

/// A word as text; empty where there is none.
pub fn text_of(word: Option<&[u8]>) -> &str {
    match word {
        Some(bytes) => str::from_utf8(bytes).unwrap_or(""),
        None => "",
    }
}

/// Says what failed of a file of the host, and answers that status.
pub fn fail(rt: &HostRuntime, path: &str, trouble: &Trouble, status: u8) -> Stop {
    let path = Shown(path);
    // (if standard error fails too there is nobody to tell)
    let _said = eprintln!(rt; "spiffs: {path}: {trouble}");
    Stop::Status(status)
}

// Says that what stands in the place of the image is a folder, and answers the status.
fn refuse_folder(rt: &HostRuntime, image: &str) -> Stop {
    let status = tell(rt, "! usage\n", USAGE);
    let image = Shown(image);
    // (if standard error fails too there is nobody to tell)
    let _said = eprintln!(rt;
        "spiffs: {image}: is a folder, and no image; the forms are pack FOLDER IMAGE and unpack IMAGE FOLDER"
    );
    Stop::Status(status)
}

// Whether a word makes an image.
fn makes(word: Word) -> bool {
    matches!(word, Word::Pack | Word::Gen)
}

// Whether a line writes to the volume of an image.
fn writes(asked: &Asked) -> bool {
    match asked.word {
        Word::Put | Word::Rm | Word::Mv => true,
        Word::Fsck => asked.repairs,
        _ => false,
    }
}

// What the image's file is opened for.
fn access_of(asked: &Asked) -> Access {
    if !asked.is_dry && (writes(asked) || makes(asked.word)) {
        Access::Write
    } else {
        Access::Read
    }
}

/// Says why the image's file can't be had or replaced, and answers the status.
pub fn refuse_image(rt: &HostRuntime, image: &str, why: &Trouble) -> Stop {
    if why.is_busy() {
        let status = tell(rt, "! busy\n", BUSY);
        return fail(rt, image, why, status);
    }
    fail(rt, image, why, BOARD_FAULT)
}

// Opens the image's file. One that is to be made may be missing.
fn hold_image(rt: &HostRuntime, image: &str, asked: &Asked) -> Result<Option<HeldFile>, Stop> {
    match fs::metadata(rt, image) {
        Ok(told) if told.is_dir() => return Err(refuse_folder(rt, image)),
        Err(_) if makes(asked.word) => return Ok(None),
        _ => {}
    }
    match HeldFile::open(rt, image, access_of(asked)) {
        Ok(held) => Ok(Some(held)),
        // (what `cat` prints may be taken for the file)
        Err(why) if why.is_busy() && asked.word == Word::Cat => Err(fail(rt, image, &why, BUSY)),
        Err(why) => Err(refuse_image(rt, image, &why)),
    }
}

// All bytes of the image.
fn bytes_of(rt: &HostRuntime, image: &str, held: &HeldFile, length: u32) -> Result<Vec<u8>, Stop> {
    let mut bytes = vec![in rt.alloc(); 0u8; length as usize]?;
    if bytes.is_empty() {
        return Ok(bytes);
    }
    match held.read_at(0, &mut bytes) {
        Ok(()) => Ok(bytes),
        Err(why) => Err(fail(rt, image, &why, BOARD_FAULT)),
    }
}

// A volume that was found, as `settle` is told it.
fn candidate_of(found: &Found) -> Option<Candidate> {
    if found.place >= PLACES {
        return None;
    }
    Some(Candidate {
        at: byte_of(found.place),
        page: found.volume.page(),
        block: found.volume.block(),
        blocks: found.volume.blocks(),
        first_meta: found.volume.meta(),
        last_meta: found.last_meta,
        magic: found.volume.magic,
        whole: found.counts.whole,
        damaged: found.counts.damaged,
        spoiled: found.spoiled,
        doubled: found.doubled,
    })
}

// These, the best first.
fn ranked(alloc: Global, found: &[Found]) -> Result<Vec<Candidate>, AllocError> {
    let mut candidates = Vec::new(alloc);
    let mut last = None;
    for _ in 0..found.len() {
        let Some(next) = next_best(found, last) else {
            return Ok(candidates);
        };
        if let Some(candidate) = candidate_of(&next) {
            candidates.push(candidate)?;
        }
        last = Some(next);
    }
    Ok(candidates)
}

// The volumes that the image may hold, the best first; none of one that has 2^32 bytes or more.
fn look_for(rt: &HostRuntime, image: &str, held: &HeldFile) -> Result<Vec<Candidate>, Stop> {
    let Ok(size) = u32::try_from(held.length()) else {
        let image = Shown(image);
        // (if standard error fails too there is nobody to tell)
        let _said = eprintln!(rt;
            "spiffs: {image}: has 2^32 bytes or more, and isn't looked through: give all numbers"
        );
        return Ok(Vec::new(rt.alloc()));
    };
    if !may_hold_one(rt, held, size)? {
        return Ok(Vec::new(rt.alloc()));
    }
    let bytes = bytes_of(rt, image, held, size)?;
    let found = found_in(rt.alloc(), &bytes)?;
    Ok(ranked(rt.alloc(), &found)?)
}

// The volumes that the image may hold, the best first; none is looked for where all numbers are known.
fn find_candidates(
    rt: &HostRuntime,
    image: &str,
    asked: &Asked,
    held: Option<&HeldFile>,
) -> Result<Vec<Candidate>, Stop> {
    match held {
        Some(held) if wants_detect(asked) => look_for(rt, image, held),
        _ => Ok(Vec::new(rt.alloc())),
    }
}

// Says on standard error which volumes the image may hold, each by the words that choose it.
fn tell_candidates(rt: &HostRuntime, image: &str, found: &[Candidate]) {
    if found.is_empty() {
        // (if standard error fails too there is nobody to tell)
        let _said = eprintln!(rt; "spiffs: no volume");
    }
    for candidate in found.iter().take(TOLD) {
        let _said = eprintln!(rt; "spiffs: {candidate}");
    }
    let others = found.len().saturating_sub(TOLD);
    if others > 0 {
        let image = Shown(image);
        let _said = eprintln!(rt; "spiffs: and {others} others: spiffs detect {image}");
    }
}

/// Says on standard error which volumes the image may hold, each by the words that choose it; nothing where there is no memory for it.
pub fn tell_found_in(rt: &HostRuntime, meant: &Meant<'_>) {
    let Some(held) = &meant.held else {
        return;
    };
    if let Ok(found) = look_for(rt, meant.image, held) {
        tell_candidates(rt, meant.image, &found);
    }
}

// The closing line and the status where it isn't known which volume is meant. Where a line that writes is in doubt there is no such line.
fn end_of(asked: &Asked, why: Unsettled) -> (&'static str, u8) {
    match why {
        Unsettled::NoneFound => ("! no volume found\n", NO_VOLUME),
        Unsettled::Spoiled(_) => ("! no volume\n", NO_VOLUME),
        Unsettled::Doubled(_) | Unsettled::Harmed(_) => ("", OTHER_META),
        Unsettled::Several if writes(asked) => ("", OTHER_META),
        _ => ("! usage\n", USAGE),
    }
}

// Whether it is told which volumes were found.
fn tells_found(why: Unsettled) -> bool {
    !matches!(
        why,
        Unsettled::NoSize | Unsettled::Uneven { .. } | Unsettled::TooFar { .. }
    )
}

// Says why it isn't known which volume is meant, and answers the status.
fn refuse_volume(
    rt: &HostRuntime,
    image: &str,
    asked: &Asked,
    found: &[Candidate],
    why: Unsettled,
) -> Stop {
    let (line, status) = end_of(asked, why);
    let status = tell(rt, line, status);
    let end = if writes(asked) {
        "; nothing was written"
    } else {
        ""
    };
    let shown = Shown(image);
    let _said = eprintln!(rt; "spiffs: {shown}: {why}{end}");
    if tells_found(why) {
        let _said = eprintln!(rt; "spiffs: detect finds:");
        tell_candidates(rt, image, found);
    }
    Stop::Status(status)
}

// Why a line that writes would take another volume than one that reads, or none.
fn doubt_of(asked: &Asked, found: &[Candidate], volume: &Volume) -> Option<Unsettled> {
    match choose_sure(asked, found) {
        Ok(sure) if sure == *volume => None,
        Ok(_) => Some(Unsettled::Several),
        Err(why) => Some(why),
    }
}

// Says, where a line only reads, why one that writes would go no further.
fn tell_doubt(rt: &HostRuntime, image: &str, asked: &Asked, found: &[Candidate], volume: &Volume) {
    if writes(asked) || !wants_detect(asked) {
        return;
    }
    if let Some(why) = doubt_of(asked, found, volume) {
        let count = found.len();
        let image = Shown(image);
        // (if standard error fails too there is nobody to tell)
        let _said = eprintln!(rt;
            "spiffs: {image}: {volume} is meant, one of {count} that were found; a word that writes is refused: {why}; see spiffs detect {image}"
        );
    }
}

// The volume that a line means, and whether damaged files of it would be removed without leave.
fn choose_volume(
    rt: &HostRuntime,
    image: &str,
    asked: &Asked,
    length: u64,
    found: &[Candidate],
) -> Result<(Volume, bool), Stop> {
    let forced = Asked {
        is_forced: true,
        ..*asked
    };
    let settled = settle(asked, length, found);
    let is_harmed = matches!(settled, Err(Unsettled::Harmed(_)));
    let meant = if is_harmed {
        settle(&forced, length, found)
    } else {
        settled
    };
    match meant {
        Ok(volume) => {
            tell_doubt(rt, image, asked, found, &volume);
            Ok((volume, is_harmed))
        }
        Err(why) => Err(refuse_volume(rt, image, asked, found, why)),
    }
}

// Whether a volume that was found begins as that one and ends within it.
fn begins_as(found: &Candidate, volume: &Volume) -> bool {
    found.at == volume.at
        && found.page == volume.page
        && found.block == volume.block
        && found.blocks <= volume.blocks
        && found.magic == volume.magic
}

// Whether a line writes to a volume of which it gives all numbers, and doesn't say by `--force` that it is one.
fn may_mean_two(asked: &Asked) -> bool {
    writes(asked) && !wants_detect(asked) && !asked.is_forced
}

// Refuses a volume in which two may stand end to end.
fn check_one(
    rt: &HostRuntime,
    image: &str,
    asked: &Asked,
    held: Option<&HeldFile>,
    volume: &Volume,
) -> Result<(), Stop> {
    let Some(held) = held else {
        return Ok(());
    };
    if !may_mean_two(asked) {
        return Ok(());
    }
    let found = look_for(rt, image, held)?;
    for one in found.iter() {
        if is_doubled(one) && begins_as(one, volume) {
            let why = Unsettled::Doubled(one.doubled);
            return Err(refuse_volume(rt, image, asked, &found, why));
        }
    }
    Ok(())
}

/// The volume that a line means, by its numbers, a preset, or what is found in its image.
pub fn find_meant<'w>(
    rt: &HostRuntime,
    words: &'w [String],
    asked: Asked,
) -> Result<Meant<'w>, Stop> {
    let image = text_of(image_word(words, &asked));
    let held = hold_image(rt, image, &asked)?;
    let length = match &held {
        Some(held) => held.length(),
        None => 0,
    };
    let found = find_candidates(rt, image, &asked, held.as_ref())?;
    let (volume, is_harmed) = choose_volume(rt, image, &asked, length, &found)?;
    check_one(rt, image, &asked, held.as_ref(), &volume)?;
    let top = top_words(rt.alloc(), asked.word, &volume, image)?;
    let size = chip_size_of(&top, 1);
    let unit = unit_of(&top);
    Ok(Meant {
        words,
        asked,
        image,
        held,
        volume,
        top,
        size,
        unit,
        is_harmed,
    })
}

ghost use Rattle.std.specs.Prelude.{◌≡◌, ◌+◌, ◌*◌, ◌∷◌, [], Ok, MatchOption, option_map};
ghost use Rattle.std.specs.List.{list_all};
ghost use Rattle.front_words.specs.Settling.{first_of as the_first, preset_of as whose, meta_by, known_page as the_page, known_block as the_block};
ghost use Rattle.front_words.specs.Settling.{known_meta as the_meta, known_magic as the_magic, start_of, bytes_of, sized as the_sized, fits as the_fit};
ghost use Rattle.front_words.specs.Settling.{fits_magic, same_magic, agrees as the_agreement, found_volume as the_volume, with_meta as the_meta_of, as_good};
ghost use Rattle.front_words.specs.Settling.{chosen, agreeing, end_of, reached, settled, needs_found};
ghost use Rattle.front_words.specs.Settling.{same_numbers, lies_in as the_lying, lies_apart as the_apart, reads_none as the_none_read, reads_worse as the_worse_read};
ghost use Rattle.front_words.specs.Settling.{is_coarser as the_coarser, no_rival, writes as the_writing, edits as the_edit, is_harmed as the_harmed, most_doubled as the_most_doubled, is_doubled as the_doubled, may_be_two as the_two, unless_harmed as the_unharmed, none_sure as the_none, alone_in, chosen_by as the_choice, sure, told_volume};

use crate::asked::{Asked, changes, makes};
use crate::word::{Preset, Word};
use geometry::MagicKind;

/// A volume that a file may hold, as `detect` finds it.
#[derive(Clone, Copy, Debug, PartialEq, Eq)]
pub struct Candidate {
    /// The byte of the file at which it begins.
    pub at: u32,
    /// Bytes of a page.
    pub page: u32,
    /// Bytes of a block.
    pub block: u32,
    /// Blocks.
    pub blocks: u32,
    /// The least number of meta bytes by which most files are whole.
    pub first_meta: u32,
    /// The last of those that follow it without a gap and read as many.
    pub last_meta: u32,
    /// What the magic tells.
    pub magic: MagicKind,
    /// How many files are whole by these.
    pub whole: u32,
    /// How many ids are damaged by these.
    pub damaged: u32,
    /// How many of its blocks lack their magic.
    pub spoiled: u32,
    /// How many ids have two live header pages or more.
    pub doubled: u32,
}

/// The volume that a line means.
#[derive(Clone, Copy, Debug, PartialEq, Eq)]
pub struct Volume {
    /// The byte of the file at which it begins.
    pub at: u32,
    /// Bytes of a page.
    pub page: u32,
    /// Bytes of a block.
    pub block: u32,
    /// Blocks.
    pub blocks: u32,
    /// Meta bytes of a file.
    pub meta: u32,
    /// What the magic tells.
    pub magic: MagicKind,
}

/// Why it isn't known which volume a line means.
#[derive(Clone, Copy, Debug, PartialEq, Eq)]
pub enum Unsettled {
    /// The size is neither given nor that of the file, which is empty or has 2^32 bytes or more.
    NoSize,
    /// The size is no whole number of blocks.
    Uneven { size: u32, block: u32 },
    /// No volume that was found has the numbers that are given.
    NoneFound,
    /// The best two that were found read as much.
    Several,
    /// The one that was found reads as much by several numbers of meta bytes, and the line would change it.
    AnyMeta,
    /// So many blocks of the one that was found lack their magic, and the line would change it.
    Spoiled(u32),
    /// So many ids of the one that was found have two header pages or more, as where two volumes stand end to end, and the line would change it.
    Doubled(u32),
    /// So many ids of the one that was found are damaged, and the line would change it.
    Harmed(u32),
    /// The volume that begins at byte `at` ends before byte `end` of the file, of which the first 2^32 - 1 are reached.
    TooFar { at: u32, end: u64 },
}

/// How many bytes of a file are reached.
const REACH: u64 = 4_294_967_295;

// A number that is given, else another.
fn first_of(given: Option<u32>, other: Option<u32>) -> Option<u32>
    ensures { result ≡ the_first given other }
{
    match given {
        Some(number) => Some(number),
        None => other,
    }
}

// Whose numbers are meant.
fn preset_of(asked: &Asked) -> Option<Preset>
    ensures { result ≡ whose asked.now }
{
    match asked.preset {
        Some(preset) => Some(preset),
        None if makes(asked.word) => Some(Preset::EspIdf),
        None => None,
    }
}

// Meta bytes of a preset.
fn preset_meta(preset: Preset) -> u32
    ensures { result ≡ meta_by preset }
{
    match preset {
        Preset::EspIdf | Preset::ArduinoEsp32 => 4,
        Preset::Mkspiffs => 0,
    }
}

// The page of a preset.
fn preset_page(preset: Option<Preset>) -> Option<u32>
    ensures { result ≡ option_map (λ _. 256) preset }
{
    match preset {
        Some(_) => Some(256),
        None => None,
    }
}

// Its block.
fn preset_block(preset: Option<Preset>) -> Option<u32>
    ensures { result ≡ option_map (λ _. 4096) preset }
{
    match preset {
        Some(_) => Some(4096),
        None => None,
    }
}

// Its meta bytes.
fn meta_of(preset: Option<Preset>) -> Option<u32>
    ensures { result ≡ option_map meta_by preset }
{
    match preset {
        Some(preset) => Some(preset_meta(preset)),
        None => None,
    }
}

/// Bytes of a page, where it is known without a look at the file: given, or those of a preset.
pub fn known_page(asked: &Asked) -> Option<u32>
    ensures { result ≡ the_page asked.now }
{
    first_of(asked.page, preset_page(preset_of(asked)))
}

/// Bytes of a block, in the same way.
pub fn known_block(asked: &Asked) -> Option<u32>
    ensures { result ≡ the_block asked.now }
{
    first_of(asked.block, preset_block(preset_of(asked)))
}

/// Meta bytes of a file, in the same way.
pub fn known_meta(asked: &Asked) -> Option<u32>
    ensures { result ≡ the_meta asked.now }
{
    first_of(asked.meta, meta_of(preset_of(asked)))
}

// The kind of magic.
fn known_magic(asked: &Asked) -> Option<MagicKind>
    ensures { result ≡ the_magic asked.now }
{
    match asked.magic {
        Some(magic) => Some(magic),
        None => match preset_of(asked) {
            Some(_) => Some(MagicKind::Length),
            None => None,
        },
    }
}

// The byte at which the volume begins.
fn start(asked: &Asked) -> u32
    ensures { result ≡ start_of asked.now }
{
    match asked.at {
        Some(at) => at,
        None => 0,
    }
}

// The bytes of the volume.
fn byte_count(asked: &Asked, length: u64) -> u64
    ensures { result ≡ bytes_of asked.now length }
{
    match asked.size {
        Some(size) => u64::from(size),
        None => length.saturating_sub(u64::from(start(asked))),
    }
}

// The four numbers of a volume that are known without its size.
#[derive(Clone, Copy, Debug, PartialEq, Eq)]
struct Kept {
    page: u32,
    block: u32,
    meta: u32,
    magic: MagicKind,
}

// The volume of so many bytes.
fn sized(asked: &Asked, bytes: u64, kept: Kept) -> Result<Volume, Unsettled>
    ensures { result ≡ the_sized asked.now bytes kept.page kept.block kept.meta kept.magic }
{
    if bytes == 0 || bytes > REACH {
        return Err(Unsettled::NoSize);
    }
    let size = bytes as u32;
    let block = kept.block;
    if block == 0 || size % block != 0 {
        return Err(Unsettled::Uneven { size, block });
    }
    Ok(Volume {
        at: start(asked),
        page: kept.page,
        block,
        blocks: size / block,
        meta: kept.meta,
        magic: kept.magic,
    })
}

// Whether a number is as it is given, if it is.
fn fits(given: Option<u32>, number: u64) -> bool
    ensures { result ≡ the_fit given number }
{
    match given {
        Some(given) => u64::from(given) == number,
        None => true,
    }
}

// Whether a magic is as it is given, if it is.
fn has_magic(given: Option<MagicKind>, kind: MagicKind) -> bool
    ensures { result ≡ fits_magic given kind }
{
    match (given, kind) {
        (None, _) => true,
        (Some(MagicKind::Plain), MagicKind::Plain) => true,
        (Some(MagicKind::Length), MagicKind::Length) => true,
        _ => false,
    }
}

// Whether a volume that was found is the one that is meant, as far as numbers are known.
fn agrees(asked: &Asked, found: &Candidate) -> bool
    ensures { result ≡ the_agreement asked.now found.now }
{
    let bytes = u64::from(found.block) * u64::from(found.blocks);
    fits(asked.at, u64::from(found.at))
        && fits(known_page(asked), u64::from(found.page))
        && fits(known_block(asked), u64::from(found.block))
        && fits(asked.size, bytes)
        && has_magic(known_magic(asked), found.magic)
}

// The first that agrees, and those behind it.
fn next_agreeing<'c>(asked: &Asked, found: &'c [Candidate]) -> Option<(Candidate, &'c [Candidate])>
    ensures { MatchOption result (agreeing asked.now found.now ≡ [])
        (λ r. agreeing asked.now found.now ≡ r.0 ∷ agreeing asked.now r.1.now) }
{
    let mut left = found;
    while let [first, rest @ ..] = left {
        if agrees(asked, first) {
            return Some((*first, rest));
        }
        left = rest;
    }
    None
}

// A volume that was found, with these meta bytes.
pub(crate) fn found_volume(found: &Candidate, meta: u32) -> Volume
    ensures { result ≡ the_volume found.now meta }
{
    Volume {
        at: found.at,
        page: found.page,
        block: found.block,
        blocks: found.blocks,
        meta,
        magic: found.magic,
    }
}

// A volume that was found, with the meta bytes that are known.
fn with_meta(asked: &Asked, found: &Candidate) -> Result<Volume, Unsettled>
    ensures { result ≡ the_meta_of asked.now found.now (the_meta asked.now) }
{
    match known_meta(asked) {
        Some(meta) => Ok(found_volume(found, meta)),
        None if changes(asked.word) && found.first_meta != found.last_meta => {
            Err(Unsettled::AnyMeta)
        }
        None => Ok(found_volume(found, found.first_meta)),
    }
}

// Whether two read as much.
fn is_as_good(one: &Candidate, other: &Candidate) -> bool
    ensures { result ≡ as_good one.now other.now }
{
    one.whole == other.whole && one.damaged == other.damaged
}

// Whether two that were found are the same.
fn is_same(one: &Candidate, other: &Candidate) -> bool
    ensures { result ≡ same_numbers one.now other.now }
{
    one.at == other.at
        && one.page == other.page
        && one.block == other.block
        && one.blocks == other.blocks
        && has_magic(Some(one.magic), other.magic)
}

// The byte behind the last one of a volume that was found.
fn behind(found: &Candidate) -> u64
    ensures { result ≡ found.now.at + found.now.block * found.now.blocks }
{
    u64::from(found.at) + u64::from(found.block) * u64::from(found.blocks)
}

// Whether one that was found lies within another, lacks as many magics or more, and reads no more.
fn lies_in(one: &Candidate, other: &Candidate) -> bool
    ensures { result ≡ the_lying one.now other.now }
{
    other.at <= one.at
        && behind(one) <= behind(other)
        && other.spoiled <= one.spoiled
        && one.whole <= other.whole
}

// Whether two have no byte in common.
fn lies_apart(one: &Candidate, other: &Candidate) -> bool
    ensures { result ≡ the_apart one.now other.now }
{
    behind(other) <= u64::from(one.at) || behind(one) <= u64::from(other.at)
}

// Whether the first of two reads no whole file, and the second does.
fn reads_none(one: &Candidate, best: &Candidate) -> bool
    ensures { result ≡ the_none_read one.now best.now }
{
    best.whole > 0 && one.whole == 0 && !(lies_apart(one, best) && one.spoiled == 0)
}

// Whether the first of two that share bytes reads damaged files and fewer whole ones, and the second no damaged ones.
fn reads_worse(one: &Candidate, best: &Candidate) -> bool
    ensures { result ≡ the_worse_read one.now best.now }
{
    best.damaged == 0 && one.damaged > 0 && one.whole < best.whole && !lies_apart(one, best)
}

// Whether the first of two that have the same bytes has longer blocks.
fn is_coarser(one: &Candidate, best: &Candidate) -> bool
    ensures { result ≡ the_coarser one.now best.now }
{
    best.block < one.block
        && best.page == one.page
        && has_magic(Some(best.magic), one.magic)
        && lies_in(best, one)
        && lies_in(one, best)
}

// Whether another one leaves no doubt of one that was found.
fn is_no_rival(best: &Candidate, other: &Candidate) -> bool
    ensures { result ≡ no_rival best.now other.now }
{
    is_same(best, other)
        || reads_none(other, best)
        || reads_worse(other, best)
        || (lies_in(other, best) && !lies_in(best, other))
        || is_coarser(other, best)
}

// Whether none that agrees leaves doubt of one.
fn is_sure(asked: &Asked, found: &[Candidate], best: &Candidate) -> bool
    ensures { result ≡ list_all (no_rival best.now) (agreeing asked.now found.now) }
{
    let mut left = found;
    while let Some((next, rest)) = next_agreeing(asked, left) {
        if !is_no_rival(best, &next) {
            return false;
        }
        left = rest;
    }
    true
}

// Whether a line writes to the image.
fn writes(asked: &Asked) -> bool
    ensures { result ≡ the_writing asked.now.word asked.now.repairs }
{
    match asked.word {
        Word::Put | Word::Rm | Word::Mv => true,
        Word::Fsck => asked.repairs,
        _ => false,
    }
}

// Whether a word changes files, and removes the damaged ones before.
fn edits(word: Word) -> bool
    ensures { result ≡ the_edit word }
{
    matches!(word, Word::Put | Word::Rm | Word::Mv)
}

// How many ids of a volume may have two header pages.
fn most_doubled(magic: MagicKind) -> u32
    ensures { result ≡ the_most_doubled magic }
{
    match magic {
        MagicKind::Plain => 0,
        MagicKind::Length => 1,
    }
}

/// Whether more ids of one that was found have two header pages than a power cut leaves, so that two volumes may stand end to end: of a `plain`
/// row, which doesn't tell its own end, one such id is more.
pub fn is_doubled(found: &Candidate) -> bool
    ensures { result ≡ the_doubled found.now }
{
    found.doubled > most_doubled(found.magic)
}

// Whether one that was found may be two, and nothing says that it may be written all the same.
fn may_be_two(asked: &Asked, found: &Candidate) -> bool
    ensures { result ≡ the_two asked.now found.now }
{
    !asked.is_forced && is_doubled(found)
}

// Whether ids of one that was found are damaged, and nothing says that they may be removed.
fn is_harmed(asked: &Asked, found: &Candidate) -> bool
    ensures { result ≡ the_harmed asked.now found.now }
{
    edits(asked.word) && !asked.is_forced && found.damaged > 0
}

// One that was found and that the line would change, where nothing speaks against that.
fn unless_harmed(asked: &Asked, found: &Candidate) -> Result<Volume, Unsettled>
    ensures { result ≡ the_unharmed asked.now found.now }
{
    if may_be_two(asked, found) {
        return Err(Unsettled::Doubled(found.doubled));
    }
    if found.spoiled >= 2 {
        return Err(Unsettled::Spoiled(found.spoiled));
    }
    if is_harmed(asked, found) {
        return Err(Unsettled::Harmed(found.damaged));
    }
    with_meta(asked, found)
}

// Why none is taken.
fn none_sure(asked: &Asked, found: &[Candidate]) -> Result<Volume, Unsettled>
    ensures { result ≡ the_none (agreeing asked.now found.now) }
{
    match next_agreeing(asked, found) {
        Some(_) => Err(Unsettled::Several),
        None => Err(Unsettled::NoneFound),
    }
}

// The first of those that agree of which no other leaves doubt.
fn find_alone(asked: &Asked, found: &[Candidate]) -> Option<Candidate>
    ensures { result ≡ alone_in (agreeing asked.now found.now) (agreeing asked.now found.now) }
{
    let mut left = found;
    while let Some((next, rest)) = next_agreeing(asked, left) {
        if is_sure(asked, found, &next) {
            return Some(next);
        }
        left = rest;
    }
    None
}

/// Of the volumes that were found the one of which no other leaves doubt, or why a line that writes takes none. A line that only reads asks it
/// too, to tell whether one that writes would go on; damaged files and METAs that read as much stop only the latter.
pub fn choose_sure(asked: &Asked, found: &[Candidate]) -> Result<Volume, Unsettled>
    ensures { result ≡ sure asked.now (agreeing asked.now found.now) }
{
    match find_alone(asked, found) {
        Some(alone) => unless_harmed(asked, &alone),
        None => none_sure(asked, found),
    }
}

// The one that was found and that is read where the best two read as much.
fn choose_alone(asked: &Asked, found: &[Candidate]) -> Result<Volume, Unsettled>
    ensures { result ≡ the_choice asked.now (alone_in (agreeing asked.now found.now) (agreeing asked.now found.now)) }
{
    match find_alone(asked, found) {
        Some(alone) => with_meta(asked, &alone),
        None => Err(Unsettled::Several),
    }
}

// The best that was found.
fn choose(asked: &Asked, found: &[Candidate]) -> Result<Volume, Unsettled>
    ensures { result ≡ chosen asked.now (agreeing asked.now found.now) }
{
    let Some((best, rest)) = next_agreeing(asked, found) else {
        return Err(Unsettled::NoneFound);
    };
    match next_agreeing(asked, rest) {
        Some((second, _)) if is_as_good(&best, &second) => choose_alone(asked, found),
        _ => with_meta(asked, &best),
    }
}

// The one that was found and that is meant.
fn choose_any(asked: &Asked, found: &[Candidate]) -> Result<Volume, Unsettled>
    ensures { result ≡ told_volume asked.now (agreeing asked.now found.now) }
{
    if writes(asked) {
        choose_sure(asked, found)
    } else {
        choose(asked, found)
    }
}

// The byte of the file behind the last one of a volume.
fn end(volume: Volume) -> u64
    ensures { result ≡ end_of volume }
{
    u64::from(volume.at) + u64::from(volume.block) * u64::from(volume.blocks)
}

// A volume, where it ends in reach.
fn within_reach(volume: Volume) -> Result<Volume, Unsettled>
    ensures { result ≡ reached (Ok volume) }
{
    let end = end(volume);
    if end > REACH {
        return Err(Unsettled::TooFar { at: volume.at, end });
    }
    Ok(volume)
}

/// The volume that a line means in a file of so many bytes. What `found` holds are the volumes that `detect` finds in it, the best first. It
/// is asked only where a number is neither given nor that of a preset; of an image that is made none ever is. A volume of which a byte isn't
/// reached is refused.
#[tactic(auto, unfolding(crate::specs::Settling::settled))]
pub fn settle(asked: &Asked, length: u64, found: &[Candidate]) -> Result<Volume, Unsettled>
    ensures { result ≡ settled asked.now length found.now }
{
    let meant = match (
        known_page(asked),
        known_block(asked),
        known_meta(asked),
        known_magic(asked),
    ) {
        (Some(page), Some(block), Some(meta), Some(magic)) => {
            let kept = Kept {
                page,
                block,
                meta,
                magic,
            };
            sized(asked, byte_count(asked, length), kept)
        }
        _ => choose_any(asked, found),
    };
    within_reach(meant?)
}

/// Whether `settle` looks at what `detect` finds.
pub fn wants_detect(asked: &Asked) -> bool
    ensures { result ≡ needs_found asked.now }
{
    known_page(asked).is_none()
        || known_block(asked).is_none()
        || known_meta(asked).is_none()
        || known_magic(asked).is_none()
}

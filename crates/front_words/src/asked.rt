ghost use Rattle.std.specs.Prelude.{◌≡◌, ◌≤◌, map, string_bytes, slice_get};
ghost use Rattle.front_words.specs.Amounts.{amount};
ghost use Rattle.front_words.specs.Tokens.{parts, places, held_by};
ghost use Rattle.front_words.specs.Asking.{asked_by, act_of, placed_word, word_found, number_held, second_number as the_second, magic_held, preset_held};
ghost use Rattle.front_words.specs.Asking.{in_slot, is_something, gifts, is_good, is_number, fault_of, first_fault, all_slots, place_limit, limit_of};
ghost use Rattle.front_words.specs.Asking.{has_places, size_in, has_size, filled, means, is_refused, makes as the_makes, changes as the_changes};

use crate::amount::read_amount;
use crate::giving::{Given, given_for, place};
use crate::option::Slot;
use crate::word::{Preset, Word, magic_named, preset_named, word_named};
use geometry::MagicKind;

/// All slots, in order.
const SLOTS: [Slot; 26] = [
    Slot::Page,
    Slot::Block,
    Slot::Size,
    Slot::Meta,
    Slot::Magic,
    Slot::At,
    Slot::Preset,
    Slot::DryRun,
    Slot::Repair,
    Slot::Svg,
    Slot::Force,
    Slot::RawNames,
    Slot::Create,
    Slot::Unpack,
    Slot::List,
    Slot::Visualize,
    Slot::AllFiles,
    Slot::Debug,
    Slot::UseMagic,
    Slot::NameLength,
    Slot::NoMagic,
    Slot::BigEndian,
    Slot::Aligned,
    Slot::Links,
    Slot::NoValue,
    Slot::Unknown,
];

/// What a line of the front asks for, but for the names in it.
#[derive(Clone, Copy, Debug, PartialEq, Eq)]
pub struct Asked {
    /// What is done.
    pub word: Word,
    /// Whether an option of mkspiffs says so, and no word in the first place.
    pub by_option: bool,
    /// Bytes of a page, where they are given.
    pub page: Option<u32>,
    /// Bytes of a block.
    pub block: Option<u32>,
    /// Bytes of the volume.
    pub size: Option<u32>,
    /// Meta bytes of a file.
    pub meta: Option<u32>,
    /// What the magic tells.
    pub magic: Option<MagicKind>,
    /// The byte of the file at which the volume begins.
    pub at: Option<u32>,
    /// Whose numbers are meant.
    pub preset: Option<Preset>,
    /// Whether the file is only read.
    pub is_dry: bool,
    /// Whether a check mends the file.
    pub repairs: bool,
    /// Whether a picture is one for a browser.
    pub is_svg: bool,
    /// Whether damaged files may be removed, whatever another META reads.
    pub is_forced: bool,
    /// Whether names with control characters are taken as they are.
    pub raw_names: bool,
}

/// Why a line of the front is refused.
#[derive(Clone, Copy, Debug, PartialEq, Eq)]
pub enum Refusal {
    /// Nothing says what is to be done.
    NoWord,
    /// The word in the first place is none.
    UnknownWord,
    /// Several options of mkspiffs say what is to be done.
    TwoWords,
    /// An option is given twice.
    Twice(Slot),
    /// An option is never taken.
    NotTaken(Slot),
    /// An option means nothing for this word.
    NotFor(Slot),
    /// The value of an option isn't one that it can have.
    BadValue(Slot),
    /// There are too few or too many names for the word.
    Places(Word),
}

// What says what is to be done.
#[derive(Clone, Copy, Debug, PartialEq, Eq)]
enum Act {
    /// An option of mkspiffs.
    ByOption(Word),
    /// The word in the first place.
    ByPlace,
    /// More than one option.
    Several,
}

// What is to be done, and whether an option says so.
#[derive(Clone, Copy, Debug, PartialEq, Eq)]
struct Found {
    word: Word,
    by_option: bool,
}

// Whether anything is given for a slot.
fn is_given(words: &[String], slot: Slot) -> bool
    ensures { result ≡ is_something (in_slot slot (parts (map string_bytes words.now))) }
{
    !matches!(given_for(words, slot), Given::Nothing)
}

// What these options of mkspiffs say.
fn chosen_act(creates: bool, unpacks: bool, lists: bool, draws: bool) -> Act
    ensures { result ≡ act_of creates unpacks lists draws }
{
    match (creates, unpacks, lists, draws) {
        (true, false, false, false) => Act::ByOption(Word::Pack),
        (false, true, false, false) => Act::ByOption(Word::Unpack),
        (false, false, true, false) => Act::ByOption(Word::Ls),
        (false, false, false, true) => Act::ByOption(Word::Picture),
        (false, false, false, false) => Act::ByPlace,
        _ => Act::Several,
    }
}

// The word in the first place.
fn first_word(words: &[String]) -> Result<Found, Refusal>
    ensures { result ≡ placed_word (slice_get (places (parts (map string_bytes words.now))) 0) }
{
    match place(words, 0) {
        None => Err(Refusal::NoWord),
        Some(text) => match word_named(text) {
            Some(word) => Ok(Found {
                word,
                by_option: false,
            }),
            None => Err(Refusal::UnknownWord),
        },
    }
}

// What a line does.
#[tactic(auto, unfolding(crate::specs::Asking::word_found))]
fn find_word(words: &[String]) -> Result<Found, Refusal>
    ensures { result ≡ word_found (gifts (parts (map string_bytes words.now))) (places (parts (map string_bytes words.now))) }
{
    let creates = is_given(words, Slot::Create);
    let unpacks = is_given(words, Slot::Unpack);
    let lists = is_given(words, Slot::List);
    let draws = is_given(words, Slot::Visualize);
    match chosen_act(creates, unpacks, lists, draws) {
        Act::ByOption(word) => Ok(Found {
            word,
            by_option: true,
        }),
        Act::ByPlace => first_word(words),
        Act::Several => Err(Refusal::TwoWords),
    }
}

/// Whether a word makes an image, or tells how large one would be.
pub(crate) fn makes(word: Word) -> bool
    ensures { result ≡ the_makes word }
{
    matches!(word, Word::Pack | Word::Gen | Word::Size)
}

/// Whether a word changes the files of an image.
pub(crate) fn changes(word: Word) -> bool
    ensures { result ≡ the_changes word }
{
    matches!(word, Word::Fsck | Word::Put | Word::Rm | Word::Mv)
}

// Whether an option means something for a word.
fn has_meaning(word: Word, slot: Slot) -> bool
    ensures { result ≡ means word slot }
{
    match slot {
        Slot::Size => !matches!(word, Word::Gen | Word::Size),
        Slot::At => !makes(word),
        Slot::Repair => matches!(word, Word::Fsck),
        Slot::Svg => matches!(word, Word::Picture),
        Slot::RawNames => matches!(word, Word::Unpack),
        Slot::Force => matches!(
            word,
            Word::Fsck | Word::Put | Word::Rm | Word::Mv | Word::Df
        ),
        _ => true,
    }
}

// Whether an option is never taken.
fn is_barred(slot: Slot) -> bool
    ensures { result ≡ is_refused slot }
{
    matches!(
        slot,
        Slot::NoMagic
            | Slot::BigEndian
            | Slot::Aligned
            | Slot::Links
            | Slot::NoValue
            | Slot::Unknown
    )
}

// Whether a text is a number from one to another.
fn is_between(text: &[u8], least: u32, most: u32) -> bool
    ensures { result ≡ is_number least most (amount text.now) }
{
    match read_amount(text) {
        Some(number) => least <= number && number <= most,
        None => false,
    }
}

// Whether an option can have a value.
fn is_value(slot: Slot, text: &[u8]) -> bool
    ensures { result ≡ is_good slot text.now }
{
    match slot {
        Slot::Page | Slot::Block | Slot::Size | Slot::Meta | Slot::At => {
            read_amount(text).is_some()
        }
        Slot::Magic => magic_named(text).is_some(),
        Slot::Preset => preset_named(text).is_some(),
        Slot::NameLength => is_between(text, 32, 32),
        Slot::Debug => is_between(text, 0, 5),
        _ => true,
    }
}

// What is wrong with what is given for a slot.
fn fault(word: Word, slot: Slot, given: Given<'_>) -> Option<Refusal>
    ensures { result ≡ fault_of word slot (held_by given.entry) }
{
    match given {
        Given::Nothing => None,
        _ if is_barred(slot) => Some(Refusal::NotTaken(slot)),
        Given::Twice => Some(Refusal::Twice(slot)),
        Given::Once(_) if !has_meaning(word, slot) => Some(Refusal::NotFor(slot)),
        Given::Once(text) if is_value(slot, text) => None,
        Given::Once(_) => Some(Refusal::BadValue(slot)),
    }
}

// The first of all faults of the options of a line.
fn find_fault(words: &[String], word: Word) -> Option<Refusal>
    ensures { result ≡ first_fault word (gifts (parts (map string_bytes words.now))) all_slots }
{
    for slot in SLOTS {
        let found = fault(word, slot, given_for(words, slot));
        if found.is_some() {
            return found;
        }
    }
    None
}

// How many words at least and at most stand in their places for a word, which counts too.
fn places_of(word: Word) -> (usize, Option<usize>)
    ensures limit { result ≡ place_limit word }
    ensures some { 1 ≤ result.0 }
{
    match word {
        Word::Ls | Word::Fsck | Word::Df | Word::Size | Word::Picture => (2, Some(2)),
        Word::Pack | Word::Unpack | Word::Cat => (3, Some(3)),
        Word::Put => (3, Some(4)),
        Word::Rm => (3, None),
        Word::Gen | Word::Mv => (4, Some(4)),
    }
}

// How many words stand in their places: beside an option of mkspiffs the image alone.
fn limit(found: Found) -> (usize, Option<usize>)
    ensures limit { result ≡ limit_of found }
    ensures some { 1 ≤ result.0 }
{
    if found.by_option {
        (1, Some(1))
    } else {
        places_of(found.word)
    }
}

// Whether as many words stand in their places as what is done wants.
fn has_names(words: &[String], found: Found) -> bool
    ensures { result ≡ has_places found (places (parts (map string_bytes words.now))) }
{
    let (least, most) = limit(found);
    let has_least = place(words, least - 1).is_some();
    match most {
        Some(most) => has_least && place(words, most).is_none(),
        None => has_least,
    }
}

// The number that is given for a slot.
fn number(words: &[String], slot: Slot) -> Option<u32>
    ensures { result ≡ number_held (in_slot slot (parts (map string_bytes words.now))) }
{
    match given_for(words, slot) {
        Given::Once(text) => read_amount(text),
        _ => None,
    }
}

// The kind of magic that is given.
fn named_magic(words: &[String]) -> Option<MagicKind>
    ensures { result ≡ magic_held (in_slot Slot.Magic (parts (map string_bytes words.now))) }
{
    match given_for(words, Slot::Magic) {
        Given::Once(text) => magic_named(text),
        _ => None,
    }
}

// The preset that is given.
fn named_preset(words: &[String]) -> Option<Preset>
    ensures { result ≡ preset_held (in_slot Slot.Preset (parts (map string_bytes words.now))) }
{
    match given_for(words, Slot::Preset) {
        Given::Once(text) => preset_named(text),
        _ => None,
    }
}

// The number in the second place.
fn second_number(words: &[String]) -> Option<u32>
    ensures { result ≡ the_second (places (parts (map string_bytes words.now))) }
{
    read_amount(place(words, 1)?)
}

// The size of the volume, where it is given.
fn size(words: &[String], word: Word) -> Option<u32>
    ensures { result ≡ size_in word (in_slot Slot.Size (parts (map string_bytes words.now))) (places (parts (map string_bytes words.now))) }
{
    match word {
        Word::Gen => second_number(words),
        _ => number(words, Slot::Size),
    }
}

// Whether the size that stands in the second place is a number, where one stands there.
fn has_good_size(words: &[String], word: Word) -> bool
    ensures { result ≡ has_size word (places (parts (map string_bytes words.now))) }
{
    match word {
        Word::Gen => second_number(words).is_some(),
        _ => true,
    }
}

// What a line without faults asks for.
fn fill(words: &[String], found: Found) -> Asked
    ensures { result ≡ filled found (gifts (parts (map string_bytes words.now))) (places (parts (map string_bytes words.now))) }
{
    Asked {
        word: found.word,
        by_option: found.by_option,
        page: number(words, Slot::Page),
        block: number(words, Slot::Block),
        size: size(words, found.word),
        meta: number(words, Slot::Meta),
        magic: named_magic(words),
        at: number(words, Slot::At),
        preset: named_preset(words),
        is_dry: is_given(words, Slot::DryRun),
        repairs: is_given(words, Slot::Repair),
        is_svg: is_given(words, Slot::Svg),
        is_forced: is_given(words, Slot::Force),
        raw_names: is_given(words, Slot::RawNames),
    }
}

/// What a line of the front asks for, or why it is refused. Where there are several reasons it is the first of these: what it does, its
/// options in the order of `Slot`, how many names there are, the size behind `gen`.
#[tactic(auto, unfolding(crate::specs::Asking::asked_by, crate::specs::Asking::asked_from))]
pub fn read_line(words: &[String]) -> Result<Asked, Refusal>
    ensures { result ≡ asked_by (parts (map string_bytes words.now)) }
{
    let found = find_word(words)?;
    if let Some(why) = find_fault(words, found.word) {
        return Err(why);
    }
    if !has_names(words, found) {
        return Err(Refusal::Places(found.word));
    }
    if !has_good_size(words, found.word) {
        return Err(Refusal::BadValue(Slot::Size));
    }
    Ok(fill(words, found))
}

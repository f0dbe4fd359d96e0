//! Why a line is refused, in words for the one who gave it.
use crate::asked::Refusal;
use crate::option::Slot;
use crate::settling::{Candidate, Unsettled, Volume, found_volume, is_doubled};
use crate::word::Word;
use geometry::MagicKind;
use std::fmt;

// How an option is written.
fn option_name(slot: Slot) -> &'static str {
    match slot {
        Slot::Page => "--page",
        Slot::Block => "--block",
        Slot::Size => "--size",
        Slot::Meta => "--meta",
        Slot::Magic => "--magic",
        Slot::At => "--at",
        Slot::Preset => "--for",
        Slot::DryRun => "--dry-run",
        Slot::Repair => "--repair",
        Slot::Svg => "--svg",
        Slot::Force => "--force",
        Slot::RawNames => "--raw-names",
        Slot::Create => "-c",
        Slot::Unpack => "-u",
        Slot::List => "-l",
        Slot::Visualize => "-i",
        Slot::AllFiles => "-a",
        Slot::Debug => "-d",
        Slot::UseMagic => "--use-magic",
        Slot::NameLength => "--obj-name-len",
        Slot::NoMagic => "--no-magic",
        Slot::BigEndian => "--big-endian",
        Slot::Aligned => "--aligned-obj-ix-tables",
        Slot::Links => "--follow-symlinks",
        Slot::NoValue => "an option at the end",
        Slot::Unknown => "an unknown option",
    }
}

// Why an option is never taken.
fn why_not(slot: Slot) -> &'static str {
    match slot {
        Slot::NoMagic => "every volume has a magic here",
        Slot::BigEndian => "numbers on a volume are little-endian",
        Slot::Aligned => "index tables aren't aligned here",
        Slot::Links => "links are passed over: pack a copy of the folder, made by cp -RL",
        Slot::NoValue => "its value is missing",
        _ => "there is no such option",
    }
}

// Which values an option can have.
fn value_form(slot: Slot) -> &'static str {
    match slot {
        Slot::Magic => "len or plain",
        Slot::Preset => "esp-idf, arduino-esp32 or mkspiffs",
        Slot::NameLength => "32, the length of every name field here",
        Slot::Debug => "a number from 0 to 5",
        _ => "a number below 2^32: digits, digits with K or M behind, or 0x and hexadecimal digits",
    }
}

// The names that a word takes.
fn word_form(word: Word) -> &'static str {
    match word {
        Word::Ls => "ls IMAGE",
        Word::Pack => "pack FOLDER IMAGE",
        Word::Gen => "gen SIZE FOLDER IMAGE",
        Word::Unpack => "unpack IMAGE FOLDER",
        Word::Fsck => "fsck IMAGE",
        Word::Cat => "cat IMAGE NAME",
        Word::Put => "put IMAGE FILE [NAME]",
        Word::Rm => "rm IMAGE NAME ..",
        Word::Mv => "mv IMAGE OLD NEW",
        Word::Df => "df IMAGE",
        Word::Size => "size FOLDER",
        Word::Picture => "picture IMAGE",
    }
}

impl fmt::Display for Refusal {
    fn fmt<W: fmt::Write>(&self, f: &mut fmt::Formatter<W>) -> fmt::Result {
        match *self {
            Refusal::NoWord => write!(f, "no word says what is to be done"),
            Refusal::UnknownWord => write!(f, "there is no such command"),
            Refusal::TwoWords => write!(f, "only one of -c, -u, -l and -i can be given"),
            Refusal::Twice(slot) => {
                let name = option_name(slot);
                write!(f, "{name} is given twice")
            }
            Refusal::NotTaken(slot) => {
                let name = option_name(slot);
                let reason = why_not(slot);
                write!(f, "{name} isn't taken: {reason}")
            }
            Refusal::NotFor(slot) => {
                let name = option_name(slot);
                write!(f, "{name} means nothing for this word")
            }
            Refusal::BadValue(slot) => {
                let name = option_name(slot);
                let values = value_form(slot);
                write!(f, "{name} is {values}")
            }
            Refusal::Places(word) => {
                let form = word_form(word);
                write!(f, "the form is {form}")
            }
        }
    }
}

// What the magic tells, as the value of its option.
fn magic_name(magic: MagicKind) -> &'static str {
    match magic {
        MagicKind::Plain => "plain",
        MagicKind::Length => "len",
    }
}

/// The options that choose it.
impl fmt::Display for Volume {
    fn fmt<W: fmt::Write>(&self, f: &mut fmt::Formatter<W>) -> fmt::Result {
        let Volume {
            at,
            page,
            block,
            blocks,
            meta,
            magic,
        } = *self;
        let size = u64::from(block) * u64::from(blocks);
        let magic = magic_name(magic);
        write!(
            f,
            "--at {at} --page {page} --block {block} --size {size} --meta {meta} --magic {magic}"
        )
    }
}

// The options that choose a volume that was found, but for its size where two may stand in it: whoever means both has to give that.
#[derive(Clone, Copy)]
struct Choice {
    volume: Volume,
    is_doubled: bool,
}

impl fmt::Display for Choice {
    fn fmt<W: fmt::Write>(&self, f: &mut fmt::Formatter<W>) -> fmt::Result {
        let volume = self.volume;
        if !self.is_doubled {
            return write!(f, "{volume}");
        }
        let Volume {
            at,
            page,
            block,
            meta,
            magic,
            ..
        } = volume;
        let magic = magic_name(magic);
        write!(
            f,
            "--at {at} --page {page} --block {block} --meta {meta} --magic {magic}"
        )
    }
}

/// The options that choose it, and what it reads.
impl fmt::Display for Candidate {
    fn fmt<W: fmt::Write>(&self, f: &mut fmt::Formatter<W>) -> fmt::Result {
        let volume = found_volume(self, self.first_meta);
        let Candidate {
            first_meta,
            last_meta,
            whole,
            damaged,
            spoiled,
            doubled,
            ..
        } = *self;
        let is_doubled = is_doubled(self);
        let choice = Choice { volume, is_doubled };
        write!(f, "{choice}: {whole} files, {damaged} damaged")?;
        if first_meta != last_meta {
            write!(f, ", by --meta up to {last_meta} too")?;
        }
        if spoiled >= 2 {
            write!(f, ", {spoiled} blocks without magic")?;
        }
        if doubled > 0 {
            write!(f, ", header pages twice: {doubled}")?;
        }
        Ok(())
    }
}

impl fmt::Display for Unsettled {
    fn fmt<W: fmt::Write>(&self, f: &mut fmt::Formatter<W>) -> fmt::Result {
        match *self {
            Unsettled::NoSize => {
                write!(
                    f,
                    "the size isn't known: give it by --size, 1 to 4294967295 bytes"
                )
            }
            Unsettled::Uneven { size, block } => {
                write!(f, "{size} bytes are no whole number of blocks of {block}")
            }
            Unsettled::NoneFound => write!(f, "no volume with these numbers was found"),
            Unsettled::Several => {
                write!(f, "several volumes may be meant: give the numbers of one")
            }
            Unsettled::AnyMeta => {
                write!(
                    f,
                    "files read as well by several METAs: give the one of the firmware by --meta"
                )
            }
            Unsettled::Spoiled(blocks) => {
                write!(
                    f,
                    "{blocks} blocks of the volume lack their magic, and at most one may"
                )
            }
            Unsettled::Doubled(ids) => {
                write!(
                    f,
                    "header pages twice: {ids}; two volumes may stand end to end, or a power cut was never checked: give all numbers of one, --size too, or --force"
                )
            }
            Unsettled::Harmed(damaged) => {
                write!(
                    f,
                    "{damaged} damaged files of the volume would be removed for good: give --force, or the numbers of another volume"
                )
            }
            Unsettled::TooFar { at, end } => {
                write!(
                    f,
                    "the volume from byte {at} on ends at byte {end}, and the most is 4294967295: give a lower --at or --size"
                )
            }
        }
    }
}

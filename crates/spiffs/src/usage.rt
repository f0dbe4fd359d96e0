//! Which word of a faulty command line is wrong.
use crate::words::{CHIP_WORD, FOLDER_WORD, TABLES_WORD, chip_word, detects, target_words, word};
use call_script::parse_number;
use host_edge::Shown;
use std::fmt;

/// What is wrong with the words of a command.
#[derive(Clone, Copy, Debug, PartialEq, Eq)]
pub enum Wrong<'w> {
    /// There is no word.
    Nothing,
    /// `--force` stands before another command than `run`, `check`, `scrub`, `map`, `copy`, `trace` and `rehearse`.
    Force,
    /// The first word is no command.
    Verb(&'w str),
    /// There are too few or too many words behind the command's name.
    Count {
        verb: &'w str,
        form: &'static str,
        given: usize,
    },
    /// A word that has to be a number from `least` to `most` is none.
    Number {
        name: &'static str,
        given: &'w str,
        least: u64,
        most: u64,
    },
    /// MAGIC is neither `len` nor `plain`.
    Magic(&'w str),
    /// A name is empty.
    Empty(&'static str),
    /// What stands behind CHIP is not `tables`.
    Last(&'w str),
}

impl fmt::Display for Wrong<'_> {
    fn fmt<W: fmt::Write>(&self, f: &mut fmt::Formatter<W>) -> fmt::Result {
        match self {
            Wrong::Nothing => write!(f, "no command is given"),
            Wrong::Force => write!(
                f,
                "--force is for run, check, scrub, map, copy, trace and rehearse alone"
            ),
            Wrong::Verb(verb) => write!(f, "there is no command {}", Shown(verb)),
            Wrong::Count { verb, form, given } => {
                write!(f, "{verb} takes {form}, and {given} words are given")
            }
            Wrong::Number {
                name,
                given,
                least,
                most,
            } => {
                let given = Shown(given);
                write!(
                    f,
                    "{name} is a number from {least} to {most} in decimal digits, and not {given}"
                )
            }
            Wrong::Magic(given) => { write!(f, "MAGIC is len or plain, and not {}", Shown(given)) }
            Wrong::Empty(name) => write!(f, "{name} is empty"),
            Wrong::Last(given) => write!(
                f,
                "behind CHIP stands tables or nothing, and not {}",
                Shown(given)
            ),
        }
    }
}

// The words that a command takes behind its name, and how many they are.
fn form_of(verb: &str) -> Option<(&'static str, usize)> {
    match verb {
        "run" | "list" | "check" | "trace" => Some(("PAGE BLOCK BLOCKS META MAGIC CHIP", 6)),
        "rehearse" => Some(("PAGE BLOCK BLOCKS META MAGIC CHIP [tables]", 6)),
        "extract" | "make" => Some(("PAGE BLOCK BLOCKS META MAGIC CHIP FOLDER", 7)),
        "soak" => Some(("PAGE BLOCK BLOCKS META MAGIC CHIP SEED COUNT", 8)),
        "scrub" => Some(("PAGE BLOCK BLOCKS META MAGIC CHIP LIMIT", 7)),
        "map" => Some(("PAGE BLOCK BLOCKS META MAGIC CHIP ID", 7)),
        "copy" => Some((
            "PAGE BLOCK BLOCKS META MAGIC CHIP PAGE BLOCK BLOCKS META MAGIC CHIP",
            12,
        )),
        "detect" => Some(("CHIP", 1)),
        _ => None,
    }
}

// What is wrong with a word that has to be a number from one to another.
fn wrong_between<'w>(
    words: &'w [String],
    at: usize,
    name: &'static str,
    least: u64,
    most: u64,
) -> Option<Wrong<'w>> {
    let given = word(words, at);
    match parse_number(given.as_bytes(), most) {
        Some(number) if number >= least => None,
        _ => Some(Wrong::Number {
            name,
            given,
            least,
            most,
        }),
    }
}

// What is wrong with a word that has to be a number.
fn wrong_number<'w>(
    words: &'w [String],
    at: usize,
    name: &'static str,
    most: u64,
) -> Option<Wrong<'w>> {
    wrong_between(words, at, name, 0, most)
}

// What is wrong with the word that tells the magic.
fn wrong_magic(words: &[String]) -> Option<Wrong<'_>> {
    match word(words, 5) {
        "len" | "plain" => None,
        given => Some(Wrong::Magic(given)),
    }
}

// What is wrong with the word that names the chips of a volume.
fn wrong_chip(words: &[String]) -> Option<Wrong<'_>> {
    if word(words, CHIP_WORD).is_empty() {
        return Some(Wrong::Empty("CHIP"));
    }
    None
}

// What is wrong with the numbers of the volume.
fn wrong_volume(words: &[String]) -> Option<Wrong<'_>> {
    let most = u64::from(u32::MAX);
    wrong_number(words, 1, "PAGE", most)
        .or(wrong_number(words, 2, "BLOCK", most))
        .or(wrong_number(words, 3, "BLOCKS", most))
        .or(wrong_number(words, 4, "META", most))
        .or(wrong_magic(words))
}

// What is wrong with the words behind the chip's name.
fn wrong_end(words: &[String]) -> Option<Wrong<'_>> {
    match word(words, 0) {
        "extract" | "make" if word(words, FOLDER_WORD).is_empty() => Some(Wrong::Empty("FOLDER")),
        "soak" => {
            wrong_number(words, 7, "SEED", u64::MAX).or(wrong_number(words, 8, "COUNT", 1_000_000))
        }
        "scrub" => wrong_between(words, 7, "LIMIT", 1, 32_767),
        "map" => wrong_number(words, 7, "ID", 65_535),
        "copy" => wrong_volume(target_words(words)).or(wrong_chip(target_words(words))),
        "rehearse" if words.len() > TABLES_WORD && word(words, TABLES_WORD) != "tables" => {
            Some(Wrong::Last(word(words, TABLES_WORD)))
        }
        _ => None,
    }
}

/// The first word that is wrong, if one is.
pub fn wrong_word(words: &[String]) -> Option<Wrong<'_>> {
    let verb = word(words, 0);
    if words.is_empty() {
        return Some(Wrong::Nothing);
    }
    if verb == "--force" {
        return Some(Wrong::Force);
    }
    let Some((form, count)) = form_of(verb) else {
        return Some(Wrong::Verb(verb));
    };
    let given = words.len() - 1;
    // (a rehearsal may have one word more)
    let is_longer = verb == "rehearse" && given == TABLES_WORD;
    if given != count && !is_longer {
        return Some(Wrong::Count { verb, form, given });
    }
    if !detects(words) {
        let wrong = wrong_volume(words);
        if wrong.is_some() {
            return wrong;
        }
    }
    if chip_word(words).is_empty() {
        return Some(Wrong::Empty("CHIP"));
    }
    wrong_end(words)
}

ghost use Rattle.std.specs.Prelude.{◌≡◌, ◌+◌, ◌*◌, ◌<◌, ◌≤◌, length, map, string_bytes, option_copied, IfSome, Some, None, true};
ghost use Rattle.tool_parts.specs.Words.{number_word, word_at};
ghost use Rattle.tool_core.specs.Words.{form_of, verb_in, soak_in, limit_in, map_in, seed_word, turns_word, limit_word, id_word, word_count, has_folder};
ghost use Rattle.tool_core.specs.Words.{has_form, writes, HasLimit};

use call_script::parse_number;
use tool_parts::{Numbers, read_numbers, word};

/// What a command does.
#[derive(Clone, Copy, Debug, PartialEq, Eq)]
pub(crate) enum Verb {
    /// Mounts and checks a volume, and runs a script on it.
    Run,
    /// Mounts a volume, and says its list.
    List,
    /// Mounts and checks a volume, and says what the check found and did.
    Check,
    /// Mounts a volume, says its list, and puts its files into a folder.
    Extract,
    /// Formats a volume, and writes the files of a folder into it.
    Make,
    /// Formats a volume, and does so many turns of calls on it that are drawn from the seed.
    Soak { seed: u64, turns: u32 },
    /// Mounts and checks a volume, and moves the least worn blocks that hold files, while they are so many erase counts behind the free ones.
    Scrub { limit: u16 },
    /// Mounts and checks a volume, collects garbage, and says the data pages of the file of an id.
    Map { id: u16 },
}

impl Verb {
    /// Whether it writes the volume.
    pub(crate) fn writes(self) -> bool
        ensures { result ≡ writes self }
    {
        match self {
            Verb::Run
            | Verb::Check
            | Verb::Make
            | Verb::Soak { .. }
            | Verb::Scrub { .. }
            | Verb::Map { .. } => true,
            Verb::List | Verb::Extract => false,
        }
    }

    // How many words it is spelled with.
    fn word_count(self) -> usize
        ensures { result ≡ word_count self }
    {
        match self {
            Verb::Run | Verb::List | Verb::Check => 7,
            Verb::Extract | Verb::Make | Verb::Scrub { .. } | Verb::Map { .. } => 8,
            Verb::Soak { .. } => 9,
        }
    }

    // Whether one of them names a folder.
    fn has_folder(self) -> bool
        ensures { result ≡ has_folder self }
    {
        match self {
            Verb::Extract | Verb::Make => true,
            Verb::Run
            | Verb::List
            | Verb::Check
            | Verb::Soak { .. }
            | Verb::Scrub { .. }
            | Verb::Map { .. } => false,
        }
    }
}

/// A command as its words give it: what it does, and the numbers of its volumes.
#[derive(Clone, Copy, Debug, PartialEq, Eq)]
pub(crate) struct Form {
    /// What it does.
    pub verb: Verb,
    /// The numbers of its volumes.
    pub numbers: Numbers,
}

// The soak that the seed and the number of turns behind the chip's name spell.
fn read_soak(words: &[String]) -> Option<Verb>
    ensures soak { result ≡ soak_in (map string_bytes words.now) }
    ensures limit { IfSome result HasLimit }
{
    let seed = parse_number(word(words, 7), u64::MAX)?;
    let turns = parse_number(word(words, 8), 1_000_000)?;
    Some(Verb::Soak {
        seed,
        turns: turns as u32,
    })
}

// The scrub with the limit behind the chip's name.
fn read_scrub(words: &[String]) -> Option<Verb>
    ensures scrub { result ≡ limit_in (map string_bytes words.now) }
    ensures limit { IfSome result HasLimit }
{
    let limit = parse_number(word(words, 7), 32_767)?;
    if limit == 0 {
        return None;
    }
    Some(Verb::Scrub {
        limit: limit as u16,
    })
}

// The map of the file with the id behind the chip's name.
fn read_map(words: &[String]) -> Option<Verb>
    ensures map { result ≡ map_in (map string_bytes words.now) }
    ensures limit { IfSome result HasLimit }
{
    let id = parse_number(word(words, 7), 65_535)?;
    Some(Verb::Map { id: id as u16 })
}

fn read_verb(words: &[String]) -> Option<Verb>
    ensures verb { result ≡ verb_in (map string_bytes words.now) }
    ensures limit { IfSome result HasLimit }
{
    let verb = word(words, 0);
    if verb == b"extract".as_slice() {
        return Some(Verb::Extract);
    }
    if verb == b"make".as_slice() {
        return Some(Verb::Make);
    }
    match verb {
        b"run" => Some(Verb::Run),
        b"list" => Some(Verb::List),
        b"check" => Some(Verb::Check),
        b"soak" => read_soak(words),
        b"scrub" => read_scrub(words),
        b"map" => read_map(words),
        _ => None,
    }
}

// Whether there are as many words as the command has, and those that name a chip and a folder aren't empty.
fn has_form(verb: Verb, words: &[String]) -> bool
    ensures { result ≡ has_form verb (map string_bytes words.now) }
{
    words.len() == verb.word_count()
        && !word(words, 6).is_empty()
        && !(verb.has_folder() && word(words, 7).is_empty())
}

/// What the words `VERB PAGE BLOCK BLOCKS META MAGIC CHIP` and those behind give, or None for other words.
#[tactic(auto, unfolding(crate::specs::Words::form_of))]
pub(crate) fn read_form(words: &[String]) -> Option<Form>
    ensures form { result ≡ form_of (map string_bytes words.now) }
    ensures limit { IfSome result (λ form. HasLimit form.verb) }
{
    let verb = read_verb(words)?;
    if !has_form(verb, words) {
        return None;
    }
    let numbers = read_numbers(words)?;
    Some(Form { verb, numbers })
}

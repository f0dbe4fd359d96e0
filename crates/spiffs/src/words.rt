//! The words of the command line.

/// The place among the words of the chip files' names.
pub const CHIP_WORD: usize = 6;

/// The place among the words of the folder's name.
pub const FOLDER_WORD: usize = 7;

/// The place among the words of `tables`, in a rehearsal.
pub const TABLES_WORD: usize = 7;

/// The place among the words of the chip files' names in `detect CHIP`.
const DETECT_CHIP_WORD: usize = 1;

/// The word of that number, or an empty one.
pub fn word(words: &[String], number: usize) -> &str {
    match words.get(number) {
        Some(word) => word.as_str(),
        None => "",
    }
}

/// Whether the words are a command that removes damaged files for good.
pub fn repairs(words: &[String]) -> bool {
    matches!(word(words, 0), "run" | "check" | "scrub" | "map" | "copy")
}

/// Whether the words are a command that tells what `run` would do, and writes nothing.
pub fn foretells(words: &[String]) -> bool {
    matches!(word(words, 0), "trace" | "rehearse")
}

/// Whether the words are a command that goes on, where another META reads more whole files, only behind `--force`.
pub fn is_guarded(words: &[String]) -> bool {
    repairs(words) || foretells(words)
}

/// The words from the source's chips on, in a copy: the target's stand behind these as those of any other volume.
pub fn target_words(words: &[String]) -> &[String] {
    words.get(CHIP_WORD..).unwrap_or(&[])
}

/// Whether the words are to say which volumes a chip may hold.
pub fn detects(words: &[String]) -> bool {
    word(words, 0) == "detect"
}

/// The word with the chip files' names.
pub fn chip_word(words: &[String]) -> &str {
    if detects(words) {
        word(words, DETECT_CHIP_WORD)
    } else {
        word(words, CHIP_WORD)
    }
}

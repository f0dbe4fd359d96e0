ghost use Rattle.std.specs.Prelude.{◌≡◌, map, string_bytes};
ghost use Rattle.call_script.specs.Lines.{is_text};
ghost use Rattle.front_words.specs.Words.{is_own_word, is_own as are_own, word_named as named, preset_named as preset, magic_named as magic};

use geometry::MagicKind;

/// A word by which a line of the front does something.
#[derive(Clone, Copy, Debug, PartialEq, Eq)]
pub enum Word {
    /// `ls IMAGE`: lists the files.
    Ls,
    /// `pack FOLDER IMAGE`: makes an image of a tree.
    Pack,
    /// `gen SIZE FOLDER IMAGE`: the same, as spiffsgen.py takes it.
    Gen,
    /// `unpack IMAGE FOLDER`: puts the files into a tree.
    Unpack,
    /// `fsck IMAGE`: checks the volume.
    Fsck,
    /// `cat IMAGE NAME`: prints the bytes of a file.
    Cat,
    /// `put IMAGE FILE [NAME]`: puts a file of the host onto the volume.
    Put,
    /// `rm IMAGE NAME ..`: removes files.
    Rm,
    /// `mv IMAGE OLD NEW`: renames a file.
    Mv,
    /// `df IMAGE`: tells how full the volume is.
    Df,
    /// `size FOLDER`: tells how many blocks an image of a tree wants.
    Size,
    /// `picture IMAGE`: draws the pages.
    Picture,
}

/// A maker of images whose numbers are known.
#[derive(Clone, Copy, Debug, PartialEq, Eq)]
pub enum Preset {
    /// The defaults of ESP-IDF's `spiffsgen.py`.
    EspIdf,
    /// Arduino on an ESP32.
    ArduinoEsp32,
    /// mkspiffs as it builds without settings.
    Mkspiffs,
}

/// Whether a word is this text.
#[tactic(auto, unfolding(call_script::specs::Lines::is_text))]
pub(crate) fn is(word: &[u8], text: &[u8]) -> bool
    ensures { result ≡ is_text word.now text.now }
{
    word == text
}

// Whether a word begins a line that is meant as itself: a command of the top call, or one of its options.
fn is_own_verb(word: &[u8]) -> bool
    ensures { result ≡ is_own_word word.now }
{
    is(word, b"run")
        || is(word, b"list")
        || is(word, b"check")
        || is(word, b"extract")
        || is(word, b"make")
        || is(word, b"soak")
        || is(word, b"scrub")
        || is(word, b"map")
        || is(word, b"copy")
        || is(word, b"detect")
        || is(word, b"trace")
        || is(word, b"rehearse")
        || is(word, b"--force")
        || is(word, b"--help")
        || is(word, b"--version")
}

/// Whether words are meant as themselves: there are none, or the first is a command of the top call, `--force`, `--help` or `--version`.
pub fn is_own(words: &[String]) -> bool
    ensures { result ≡ are_own (map string_bytes words.now) }
{
    match words {
        [] => true,
        [first, ..] => is_own_verb(first.as_bytes()),
    }
}

/// The word of that text.
pub(crate) fn word_named(text: &[u8]) -> Option<Word>
    ensures { result ≡ named text.now }
{
    if is(text, b"ls") {
        Some(Word::Ls)
    } else if is(text, b"pack") {
        Some(Word::Pack)
    } else if is(text, b"gen") {
        Some(Word::Gen)
    } else if is(text, b"unpack") {
        Some(Word::Unpack)
    } else if is(text, b"fsck") {
        Some(Word::Fsck)
    } else if is(text, b"cat") {
        Some(Word::Cat)
    } else if is(text, b"put") {
        Some(Word::Put)
    } else if is(text, b"rm") {
        Some(Word::Rm)
    } else if is(text, b"mv") {
        Some(Word::Mv)
    } else if is(text, b"df") {
        Some(Word::Df)
    } else if is(text, b"size") {
        Some(Word::Size)
    } else if is(text, b"picture") {
        Some(Word::Picture)
    } else {
        None
    }
}

/// The preset of that text.
pub(crate) fn preset_named(text: &[u8]) -> Option<Preset>
    ensures { result ≡ preset text.now }
{
    if is(text, b"esp-idf") {
        Some(Preset::EspIdf)
    } else if is(text, b"arduino-esp32") {
        Some(Preset::ArduinoEsp32)
    } else if is(text, b"mkspiffs") {
        Some(Preset::Mkspiffs)
    } else {
        None
    }
}

/// The kind of magic of that text.
pub(crate) fn magic_named(text: &[u8]) -> Option<MagicKind>
    ensures { result ≡ magic text.now }
{
    if is(text, b"len") {
        Some(MagicKind::Length)
    } else if is(text, b"plain") {
        Some(MagicKind::Plain)
    } else {
        None
    }
}

ghost use Rattle.std.specs.Prelude.{◌≡◌, Option};
ghost use Rattle.front_words.specs.Options.{is_either as either, plain_valued, gen_valued, valued, plain_switched, gen_switched, further_switched, switched, rank};
ghost use Rattle.front_words.specs.Options.{text_of as text_for};

use crate::word::is;

/// What an option gives. Of each a line may give one.
#[derive(Clone, Copy, Debug, PartialEq, Eq)]
pub enum Slot {
    /// `-p`, `--page`, `--page-size`: bytes of a page.
    Page,
    /// `-b`, `--block`, `--block-size`: bytes of a block.
    Block,
    /// `-s`, `--size`: bytes of the volume.
    Size,
    /// `--meta`, `--meta-len`: meta bytes of a file.
    Meta,
    /// `--magic`, `--use-magic-len`, `--no-magic-len`: what the magic tells.
    Magic,
    /// `--at`: the byte of the file at which the volume begins.
    At,
    /// `--for`: whose numbers are meant.
    Preset,
    /// `--dry-run`: the file is only read.
    DryRun,
    /// `--repair`: a check mends the file.
    Repair,
    /// `--svg`: a picture is one for a browser.
    Svg,
    /// `--force`: damaged files may be removed, whatever another META reads.
    Force,
    /// `--raw-names`: names with control characters are taken as they are.
    RawNames,
    /// `-c`, `--create`, of mkspiffs: the folder that is packed.
    Create,
    /// `-u`, `--unpack`, of mkspiffs: the folder that is filled.
    Unpack,
    /// `-l`, `--list`, of mkspiffs.
    List,
    /// `-i`, `--visualize`, of mkspiffs.
    Visualize,
    /// `-a`, `--all-files`, of mkspiffs: what is always done.
    AllFiles,
    /// `-d`, `--debug`, of mkspiffs: a number from 0 to 5, which asks for nothing here.
    Debug,
    /// `--use-magic`, of spiffsgen.py: what is always done.
    UseMagic,
    /// `--obj-name-len`, of spiffsgen.py: 32, which it always is.
    NameLength,
    /// `--no-magic`, of spiffsgen.py: refused, since there are no volumes without magic here.
    NoMagic,
    /// `--big-endian`, of spiffsgen.py: refused, since numbers are little-endian.
    BigEndian,
    /// `--aligned-obj-ix-tables`, of spiffsgen.py: refused, since index tables aren't aligned.
    Aligned,
    /// `--follow-symlinks`, of spiffsgen.py: refused, since links are passed over.
    Links,
    /// An option that takes a value is the last word: refused.
    NoValue,
    /// A word that begins like an option and is none: refused.
    Unknown,
}

impl Slot {
    /// Its place in the list of what options give.
    pub(crate) fn rank(self) -> u8
        ensures { result ≡ rank self }
    {
        match self {
            Slot::Page => 0,
            Slot::Block => 1,
            Slot::Size => 2,
            Slot::Meta => 3,
            Slot::Magic => 4,
            Slot::At => 5,
            Slot::Preset => 6,
            Slot::DryRun => 7,
            Slot::Repair => 8,
            Slot::Svg => 9,
            Slot::Force => 10,
            Slot::Create => 11,
            Slot::Unpack => 12,
            Slot::List => 13,
            Slot::Visualize => 14,
            Slot::AllFiles => 15,
            Slot::Debug => 16,
            Slot::UseMagic => 17,
            Slot::NameLength => 18,
            Slot::NoMagic => 19,
            Slot::BigEndian => 20,
            Slot::Aligned => 21,
            Slot::Links => 22,
            Slot::NoValue => 23,
            Slot::Unknown => 24,
            Slot::RawNames => 25,
        }
    }
}

// Whether a word is one of two texts.
fn is_either(word: &[u8], one: &[u8], other: &[u8]) -> bool
    ensures { result ≡ either word.now one.now other.now }
{
    is(word, one) || is(word, other)
}

// What an option with a value gives, but for those of spiffsgen.py alone.
#[tactic(auto, unfolding(crate::specs::Options::plain_valued))]
fn plain_valued_slot(name: &[u8]) -> Option<Slot>
    ensures { result ≡ plain_valued name.now }
{
    if is_either(name, b"-p", b"--page") {
        Some(Slot::Page)
    } else if is_either(name, b"-b", b"--block") {
        Some(Slot::Block)
    } else if is_either(name, b"-s", b"--size") {
        Some(Slot::Size)
    } else if is(name, b"--meta") {
        Some(Slot::Meta)
    } else if is(name, b"--magic") {
        Some(Slot::Magic)
    } else if is(name, b"--at") {
        Some(Slot::At)
    } else if is(name, b"--for") {
        Some(Slot::Preset)
    } else if is_either(name, b"-c", b"--create") {
        Some(Slot::Create)
    } else if is_either(name, b"-u", b"--unpack") {
        Some(Slot::Unpack)
    } else if is_either(name, b"-d", b"--debug") {
        Some(Slot::Debug)
    } else {
        None
    }
}

// What an option of spiffsgen.py with a value gives.
#[tactic(auto, unfolding(crate::specs::Options::gen_valued))]
fn gen_valued_slot(name: &[u8]) -> Option<Slot>
    ensures { result ≡ gen_valued name.now }
{
    if is(name, b"--page-size") {
        Some(Slot::Page)
    } else if is(name, b"--block-size") {
        Some(Slot::Block)
    } else if is(name, b"--meta-len") {
        Some(Slot::Meta)
    } else if is(name, b"--obj-name-len") {
        Some(Slot::NameLength)
    } else {
        None
    }
}

/// What an option with a value gives.
pub(crate) fn valued_slot(name: &[u8]) -> Option<Slot>
    ensures { result ≡ valued name.now }
{
    match plain_valued_slot(name) {
        Some(slot) => Some(slot),
        None => gen_valued_slot(name),
    }
}

// What an option without a value gives, but for those of spiffsgen.py.
#[tactic(auto, unfolding(crate::specs::Options::plain_switched))]
fn plain_switched_slot(name: &[u8]) -> Option<Slot>
    ensures { result ≡ plain_switched name.now }
{
    if is(name, b"--dry-run") {
        Some(Slot::DryRun)
    } else if is(name, b"--repair") {
        Some(Slot::Repair)
    } else if is(name, b"--svg") {
        Some(Slot::Svg)
    } else if is(name, b"--force") {
        Some(Slot::Force)
    } else if is_either(name, b"-l", b"--list") {
        Some(Slot::List)
    } else if is_either(name, b"-i", b"--visualize") {
        Some(Slot::Visualize)
    } else if is_either(name, b"-a", b"--all-files") {
        Some(Slot::AllFiles)
    } else {
        None
    }
}

// What an option of spiffsgen.py without a value gives.
#[tactic(auto, unfolding(crate::specs::Options::gen_switched))]
fn gen_switched_slot(name: &[u8]) -> Option<Slot>
    ensures { result ≡ gen_switched name.now }
{
    if is_either(name, b"--use-magic-len", b"--no-magic-len") {
        Some(Slot::Magic)
    } else if is(name, b"--use-magic") {
        Some(Slot::UseMagic)
    } else if is(name, b"--no-magic") {
        Some(Slot::NoMagic)
    } else if is(name, b"--big-endian") {
        Some(Slot::BigEndian)
    } else if is(name, b"--aligned-obj-ix-tables") {
        Some(Slot::Aligned)
    } else if is(name, b"--follow-symlinks") {
        Some(Slot::Links)
    } else {
        None
    }
}

// What an option without a value gives that isn't among the first ones.
fn further_switched_slot(name: &[u8]) -> Option<Slot>
    ensures { result ≡ further_switched name.now }
{
    if is(name, b"--raw-names") {
        Some(Slot::RawNames)
    } else {
        gen_switched_slot(name)
    }
}

/// What an option without a value gives.
pub(crate) fn switched_slot(name: &[u8]) -> Option<Slot>
    ensures { result ≡ switched name.now }
{
    match plain_switched_slot(name) {
        Some(slot) => Some(slot),
        None => further_switched_slot(name),
    }
}

/// The value that an option without one stands for: itself, but for those of spiffsgen.py that tell what the magic tells.
#[tactic(auto, unfolding(crate::specs::Options::text_of))]
pub(crate) fn switch_text(name: &[u8]) -> &[u8]
    ensures { result.now ≡ text_for name.now }
{
    if is(name, b"--use-magic-len") {
        b"len"
    } else if is(name, b"--no-magic-len") {
        b"plain"
    } else {
        name
    }
}

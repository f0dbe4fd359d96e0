ghost use Rattle.std.specs.Prelude.{◌≡◌, map, string_bytes};
ghost use Rattle.copy_tool.specs.Words.{is_copy, copy_form_of};

use tool_parts::{Numbers, read_numbers, word};

/// The numbers of the two volumes of a copy, as its words give them.
#[derive(Clone, Copy, Debug, PartialEq, Eq)]
pub(crate) struct CopyForm {
    /// Those of the volume that is read.
    pub source: Numbers,
    /// Those of the volume that is written.
    pub target: Numbers,
}

// Whether there are thirteen words, the first is the command's name, and those that name chips aren't empty.
fn is_copy(words: &[String]) -> bool
    ensures { result ≡ is_copy (map string_bytes words.now) }
{
    words.len() == 13
        && word(words, 0) == b"copy".as_slice()
        && !word(words, 6).is_empty()
        && !word(words, 12).is_empty()
}

/// What the words `copy PAGE BLOCK BLOCKS META MAGIC CHIP PAGE BLOCK BLOCKS META MAGIC CHIP` give, or None for other words. The
/// target's numbers stand behind the source's chip as the source's behind the command's name.
#[tactic(auto, unfolding(crate::specs::Words::copy_form_of))]
pub(crate) fn read_copy(words: &[String]) -> Option<CopyForm>
    ensures { result ≡ copy_form_of (map string_bytes words.now) }
{
    if !is_copy(words) {
        return None;
    }
    let source = read_numbers(words)?;
    let target = read_numbers(&words[6..])?;
    Some(CopyForm { source, target })
}

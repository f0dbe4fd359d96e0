//! The words of the command.
ghost use Rattle.std.specs.Prelude.{◌≡◌, map, string_bytes};
ghost use Rattle.detect_tool.specs.Words.{is_command as the_is_command};

/// Whether the words are `detect CHIP`, in which CHIP is any word that isn't empty.
pub(crate) fn is_command(words: &[String]) -> bool
    ensures { result ≡ the_is_command (map string_bytes words.now) }
{
    match words {
        [verb, chip] => verb.as_bytes() == b"detect".as_slice() && !chip.is_empty(),
        _ => false,
    }
}

// The words of the command.
ghost use Rattle.std.specs.Prelude.{◌≡◌, map, string_bytes, is_none, IfOk, IfErr, OnOk, Some, None};
ghost use Rattle.tool_parts.specs.Asked.{asked_by};
ghost use Rattle.tool_parts.specs.Fits.{IsFitting, HasLengths};
ghost use Rattle.tool_parts.specs.Lent.{lengths_of};
ghost use Rattle.rehearse_tool.specs.Words.{has_form as the_form, numbers_of as the_numbers, wants_tables as the_wants, refusal_of, IsPlanned};

use geometry::Geometry;
use tool_parts::{
    Buffers, Ending, Lengths, Numbers, measure, read_numbers, with_room, word, written_geometry,
};

// Whether the words are `rehearse PAGE BLOCK BLOCKS META MAGIC CHIP`, with `tables` behind them or not.
#[tactic(auto, unfolding(tool_parts::specs::Words::is_text))]
fn has_form(words: &[String]) -> bool
    ensures { result ≡ the_form (map string_bytes words.now) }
{
    let count = words.len();
    word(words, 0) == b"rehearse".as_slice()
        && !word(words, 6).is_empty()
        && (count == 7 || count == 8 && word(words, 7) == b"tables".as_slice())
}

// The numbers of the volume, where the words are the command.
#[tactic(auto, unfolding(crate::specs::Words::numbers_of))]
fn numbers_of(words: &[String]) -> Option<Numbers>
    ensures { result ≡ the_numbers (map string_bytes words.now) }
{
    if !has_form(words) {
        return None;
    }
    read_numbers(words)
}

// Whether all tables are to be said.
pub(crate) fn wants_tables(words: &[String]) -> bool
    ensures { result ≡ the_wants (map string_bytes words.now) }
{
    words.len() == 8
}

// The geometry of the volume on a device of that erase unit and size in bytes, or how the command ends. What is refused is what `run` refuses.
#[tactic(auto, unfolding(crate::specs::Words::refusal_of))]
pub(crate) fn plan(
    words: &[String],
    unit: u32,
    size: u32,
    lent: &Lengths,
) -> Result<Geometry, Ending>
    ensures refused { IfErr result (λ ending. refusal_of (asked_by (map string_bytes words.now) unit size lent.now) ≡ Some ending) }
    ensures accepted { OnOk result (refusal_of (asked_by (map string_bytes words.now) unit size lent.now) ≡ None) }
    ensures fits { IfOk result (λ g. IsFitting g unit size) }
    ensures room { IfOk result (λ g. HasLengths g lent.now) }
    ensures planned { IfOk result (IsPlanned (asked_by (map string_bytes words.now) unit size lent.now)) }
{
    let Some(numbers) = numbers_of(words) else {
        return Err(Ending::Usage);
    };
    with_room(written_geometry(numbers, unit, size), lent)
}

/// Whether the words spell a rehearsal that isn't refused on a device of that erase unit and size in bytes, with what is lent. A program asks this
/// before it looks at the volume.
pub fn is_accepted(words: &[String], unit: u32, size: u32, bufs: &Buffers<'_>) -> bool
    ensures { result ≡ is_none (refusal_of (asked_by (map string_bytes words.now) unit size (lengths_of bufs.now))) }
{
    plan(words, unit, size, &measure(bufs)).is_ok()
}

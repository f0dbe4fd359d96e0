ghost use Rattle.std.specs.Prelude.{◌≡◌, map, string_bytes, is_none, IfOk, IfErr, OnOk, Ok, Err, Some, None};
ghost use Rattle.geometry.specs.Numbers.{IsOf};
ghost use Rattle.tool_parts.specs.Asked.{asked_by};
ghost use Rattle.tool_parts.specs.Accepting.{read_refusal, write_refusal_of, length_refusal};
ghost use Rattle.tool_parts.specs.Fits.{FitsFor, HasLengths};
ghost use Rattle.tool_parts.specs.Lent.{lengths_of};
ghost use Rattle.tool_core.specs.Plan.{volume_refusal, refusal_of};
ghost use Rattle.tool_core.specs.Planned.{IsPlanned};
ghost use Rattle.tool_core.specs.Words.{writes, HasLimit};

use crate::words::{Form, Verb, read_form};
use geometry::{GeoErr, Geometry};
use tool_parts::{Buffers, Ending, Lengths, measure, read_geometry, with_room, written_geometry};

/// A command that isn't refused: what it does, and the geometry of its volumes.
#[derive(Clone, Copy)]
pub(crate) struct Command {
    pub verb: Verb,
    pub geometry: Geometry,
}

// The geometry of a command's numbers on a device of that unit and size.
fn volume_geometry(form: Form, unit: u32, size: u32) -> Result<Geometry, GeoErr>
    ensures made { IfOk result (λ g. IsOf g form.numbers.page form.numbers.block form.numbers.blocks form.numbers.block form.numbers.meta form.numbers.magic) }
    ensures accepted { OnOk result (volume_refusal form unit size ≡ None) }
    ensures fits { IfOk result (λ g. FitsFor (writes form.verb) g unit size) }
    ensures refused { IfErr result (λ why. volume_refusal form unit size ≡ Some why) }
{
    if form.verb.writes() {
        written_geometry(form.numbers, unit, size)
    } else {
        read_geometry(form.numbers, unit, size)
    }
}

/// The command that the words spell, where it is not refused, by the device's erase unit and size in bytes, and
/// what is lent.
#[tactic(auto, unfolding(crate::specs::Plan::refusal_of))]
pub(crate) fn plan(
    words: &[String],
    unit: u32,
    size: u32,
    lent: &Lengths,
) -> Result<Command, Ending>
    ensures refused { IfErr result (λ ending. refusal_of (asked_by (map string_bytes words.now) unit size lent.now) ≡ Some ending) }
    ensures accepted { OnOk result (refusal_of (asked_by (map string_bytes words.now) unit size lent.now) ≡ None) }
    ensures fits { IfOk result (λ command. FitsFor (writes command.verb) command.geometry unit size) }
    ensures room { IfOk result (λ command. HasLengths command.geometry lent.now) }
    ensures limit { IfOk result (λ command. HasLimit command.verb) }
    ensures planned { IfOk result (IsPlanned (asked_by (map string_bytes words.now) unit size lent.now)) }
{
    let Some(form) = read_form(words) else {
        return Err(Ending::Usage);
    };
    let geometry = with_room(volume_geometry(form, unit, size), lent)?;
    Ok(Command {
        verb: form.verb,
        geometry,
    })
}

/// Whether the words spell a command that isn't refused on a device of that erase unit and size in bytes, with what is
/// lent. A program asks this before it makes the files that stand for the device.
pub fn is_accepted(words: &[String], unit: u32, size: u32, bufs: &Buffers<'_>) -> bool
    ensures { result ≡ is_none (refusal_of (asked_by (map string_bytes words.now) unit size (lengths_of bufs.now))) }
{
    plan(words, unit, size, &measure(bufs)).is_ok()
}

ghost use Rattle.std.specs.Prelude.{◌≡◌, map, string_bytes, IfOk, IfErr, OnOk, Some, None};
ghost use Rattle.tool_parts.specs.Fits.{IsFitting, HoldsVolume, HasLengths};
ghost use Rattle.copy_tool.specs.Plan.{IsPlanned, copy_refusal_of};

use crate::words::read_copy;
use geometry::Geometry;
use tool_parts::{Ending, Lengths, read_geometry, with_room, written_geometry};

/// A copy that isn't refused: the geometries of the volume that is read and of the one that is written.
#[derive(Clone, Copy)]
pub(crate) struct CopyPlan {
    pub source: Geometry,
    pub target: Geometry,
}

/// What there is for a volume.
#[derive(Clone, Copy, Debug, PartialEq, Eq)]
pub(crate) struct Side {
    /// Bytes of an erase unit of its device.
    pub unit: u32,
    /// Bytes of its device.
    pub size: u32,
    /// How much memory is lent for it.
    pub lent: Lengths,
}

/// The copy that the words spell, where it is not refused.
#[tactic(auto, unfolding(crate::specs::Plan::copy_refusal_of))]
pub(crate) fn plan(words: &[String], source: &Side, target: &Side) -> Result<CopyPlan, Ending>
    ensures refused { IfErr result
        (λ ending. copy_refusal_of (record { words = map string_bytes words.now; source = source.now; target = target.now }) ≡ Some ending) }
    ensures accepted { OnOk result (copy_refusal_of (record { words = map string_bytes words.now; source = source.now; target = target.now }) ≡ None) }
    ensures source_fits { IfOk result (λ plan. HoldsVolume plan.source source.now.unit source.now.size) }
    ensures fits { IfOk result (λ plan. IsFitting plan.target target.now.unit target.now.size) }
    ensures source_room { IfOk result (λ plan. HasLengths plan.source source.now.lent) }
    ensures room { IfOk result (λ plan. HasLengths plan.target target.now.lent) }
    ensures planned { IfOk result (IsPlanned (record { words = map string_bytes words.now; source = source.now; target = target.now })) }
{
    let Some(form) = read_copy(words) else {
        return Err(Ending::Usage);
    };
    let from = match read_geometry(form.source, source.unit, source.size) {
        Ok(g) => g,
        Err(why) => return Err(Ending::Geometry(why)),
    };
    let to = match written_geometry(form.target, target.unit, target.size) {
        Ok(g) => g,
        Err(why) => return Err(Ending::Geometry(why)),
    };
    Ok(CopyPlan {
        source: with_room(Ok(from), &source.lent)?,
        target: with_room(Ok(to), &target.lent)?,
    })
}

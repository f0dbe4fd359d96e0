ghost use Rattle.std.specs.Prelude.{◌≡◌, length, map, string_bytes, is_none, None};
ghost use Rattle.nor_core.specs.Count.{Rose};
ghost use Rattle.nor_core.specs.Device.{OnlyReads};
ghost use Rattle.tool_parts.specs.Among.{EndsAmong};
ghost use Rattle.tool_parts.specs.Endings.{RefusesIf};
ghost use Rattle.copy_tool.specs.declared.plan.CopyPlan.{CopyPlan};
ghost use Rattle.copy_tool.specs.Plan.{side_of, asked_of, copy_refusal_of, IsPlanned};
ghost use Rattle.copy_tool.specs.Among.{MayEndCopy};
ghost use Rattle.copy_tool.specs.Does.{DoesCopy};

use crate::copying::copy_on;
use crate::plan::{CopyPlan, Side, plan};
use nor_core::{Board, Nor, NorState};
use tool_parts::{Buffers, conclude, measure};

// What there is for the volume of a device.
fn side_of<N: Nor>(nor: &N, bufs: &Buffers<'_>) -> Side
    ensures { result ≡ side_of N.NorState nor.now bufs.now }
{
    Side {
        unit: nor.unit(),
        size: nor.size(),
        lent: measure(bufs),
    }
}

/// Whether the words spell a copy that isn't refused between these devices, with what is lent for each. A program asks this before it looks
/// at the target.
pub fn is_accepted<N: Nor, M: Nor>(
    words: &[String],
    source: &N,
    target: &M,
    source_bufs: &Buffers<'_>,
    bufs: &Buffers<'_>,
) -> bool
    ensures { result ≡ is_none (copy_refusal_of (asked_of N.NorState M.NorState (map string_bytes words.now) source.now target.now source_bufs.now bufs.now)) }
{
    plan(words, &side_of(source, source_bufs), &side_of(target, bufs)).is_ok()
}

/// Copies the files of a volume onto another one, which has a device, a geometry and lent memory of its own, as the words say, and
/// answers its status. The form is `copy PAGE BLOCK BLOCKS META MAGIC CHIP PAGE BLOCK BLOCKS META MAGIC CHIP`: first the numbers of the
/// volume that is read, then those of the volume that is written, each in decimal digits without a leading zero and below 2 ^ 32, MAGIC
/// `plain` or `len`, CHIP any word that isn't empty, which isn't read here. The source is mounted and its damaged ids are counted; it is
/// never written. The target is mounted and checked. Then each file of the source gets a copy of its name there, unless that is there
/// already: it is written under a working name, the one byte 1, and takes the place of the target's file of its name once it is whole.
/// The target's other files stay. At the end it says how many files were copied and how many were there. What was cut is copied by
/// giving the command again. It takes no memory but what is lent.
pub fn copy_tool<N: Nor, B: Board>(
    words: &[String],
    source: &mut N,
    board: &mut B,
    source_bufs: &mut Buffers<'_>,
    bufs: &mut Buffers<'_>,
) -> u8
    // What is refused before a device is read: its closing line is said, and nothing else happens.
    ensures refused { RefusesIf B.NorState board.old board.new
        (copy_refusal_of (asked_of N.NorState B.NorState (map string_bytes words.now) source.old board.old source_bufs.old bufs.old)) result }
    // All else is a copy between volumes of two geometries ..
    ensures planned { copy_refusal_of (asked_of N.NorState B.NorState (map string_bytes words.now) source.old board.old source_bufs.old bufs.old) ≡ None →
        (plan : CopyPlan) × IsPlanned (asked_of N.NorState B.NorState (map string_bytes words.now) source.old board.old source_bufs.old bufs.old) plan }
    // .. and it is done.
    ensures does { (plan : CopyPlan) →
        IsPlanned (asked_of N.NorState B.NorState (map string_bytes words.now) source.old board.old source_bufs.old bufs.old) plan →
        DoesCopy N.NorState B.NorState plan.source plan.target (length source_bufs.old.cache.now)
        (length bufs.old.cache.now) source.old source.new board.old board.new result }
    // Whatever the devices tell, it comes to one of the endings of a copy, and says the closing line of that last.
    ensures ends { (plan : CopyPlan) →
        IsPlanned (asked_of N.NorState B.NorState (map string_bytes words.now) source.old board.old source_bufs.old bufs.old) plan →
        EndsAmong B.NorState MayEndCopy board.old board.new result }
    // The source is only read, refused or not.
    ensures reads { OnlyReads N.NorState source.old source.new }
    // A fault is told only where one was counted.
    ensures board_fault { result ≡ 7 → Rose (B.faults board.old) (B.faults board.new) }
    ensures source_fault { result ≡ 18 → Rose (N.faults source.old) (N.faults source.new) }
{
    match plan(words, &side_of(source, source_bufs), &side_of(board, bufs)) {
        Err(ending) => conclude(board, ending),
        Ok(plan) => copy_on(plan, source, board, source_bufs, bufs),
    }
}

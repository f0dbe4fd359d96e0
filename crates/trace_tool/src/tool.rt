//! The top call of the command.
ghost use Rattle.std.specs.Prelude.{◌≡◌, ◌≤◌, map, string_bytes, Some, None};
ghost use Rattle.nor_core.specs.Count.{Rose};
ghost use Rattle.nor_core.specs.Device.{OnlyReads};
ghost use Rattle.tool_parts.specs.declared.ending.Ending.{Ending as AnEnding};
ghost use Rattle.tool_parts.specs.Endings.{RefusesIf};
ghost use Rattle.tool_parts.specs.Fits.{IsFitting, HasLengths};
ghost use Rattle.tool_parts.specs.Lent.{lengths_of, asked_of};
ghost use Rattle.trace_tool.specs.Planned.{refusal_of};
ghost use Rattle.trace_tool.specs.Traces.{WhyTraced, Traces, TracesAsked};

use crate::copying::copy_both;
use crate::ending::say_ending;
use crate::plan::plan;
use crate::rehearsing::{Judged, judge};
use geometry::Geometry;
use nor_core::{Board, Nor, NorState, Source};
use std::alloc::Global;
use tool_parts::{Buffers, conclude, measure};

/// How a trace ended.
#[derive(Clone, Copy, Debug, PartialEq, Eq)]
pub struct Traced {
    /// The status of the command.
    pub status: u8,
    /// The status of the run in memory, where its trace was judged.
    pub run: Option<u8>,
}

// Copies a volume and a script, runs the one on the other, and judges that.
fn trace<B: Board, S: Source>(
    alloc: Global,
    g: &Geometry,
    board: &mut B,
    script: &mut S,
    bufs: &mut Buffers<'_>,
) -> Judged
    requires fits { IsFitting g.now (B.unit board.old) (B.size board.old) }
    requires room { HasLengths g.now (lengths_of bufs.old) }
    ensures reads { OnlyReads B.NorState board.old board.new }
    ensures faults { S.faults script.old ≤ S.faults script.new }
    ensures why { WhyTraced B.NorState S.Source g.now (lengths_of bufs.old) board.old board.new script.old script.new result.ending result.run }
{
    match copy_both(alloc, g, board, script) {
        Ok(copies) => judge(alloc, g, copies, bufs),
        Err(ending) => Judged { ending, run: None },
    }
}

// The same, with the closing line.
fn trace_on<B: Board, S: Source>(
    alloc: Global,
    g: &Geometry,
    board: &mut B,
    script: &mut S,
    bufs: &mut Buffers<'_>,
) -> Traced
    requires fits { IsFitting g.now (B.unit board.old) (B.size board.old) }
    requires room { HasLengths g.now (lengths_of bufs.old) }
    ensures traces { Traces B.NorState S.Source g.now (lengths_of bufs.old) board.old board.new script.old script.new result }
    ensures board_fault { result.status ≡ 7 → Rose (B.faults board.old) (B.faults board.new) }
    ensures script_fault { result.status ≡ 8 → Rose (S.faults script.old) (S.faults script.new) }
    ensures faults { S.faults script.old ≤ S.faults script.new }
{
    let Judged { ending, run } = trace(alloc, g, board, script, bufs);
    Traced {
        status: say_ending(board, ending),
        run,
    }
}

/// Runs a script on a copy of a volume in memory, judges each program, erase and reply of that run by a plain second way, and says the verdict.
/// The words are `trace PAGE BLOCK BLOCKS META MAGIC CHIP`; CHIP is any word that isn't empty, which isn't read here. Where all is as it has
/// to be the line is `legal E events R replies` and the status 0; where it isn't, `! event I` with the number of the first event that is wrong or
/// before which something stands that no power cut may leave, and 19. The board is only read. A volume of more than 131,072 bytes or a script
/// of more than 16,384 isn't traced (20). Wants memory for the volume a few times over, the script, and what the run does; where there is
/// none the status is 15.
pub fn trace_tool<B: Board, S: Source>(
    alloc: Global,
    words: &[String],
    board: &mut B,
    script: &mut S,
    bufs: &mut Buffers<'_>,
) -> Traced
    // What is refused before the chip is read: its closing line is said, and nothing else happens.
    ensures refused { RefusesIf B.NorState board.old board.new
        (refusal_of (asked_of B.NorState (map string_bytes words.now) board.old bufs.old)) result.status }
    ensures untaken { (ending : AnEnding) → refusal_of (asked_of B.NorState (map string_bytes words.now) board.old bufs.old) ≡ Some ending →
        script.new ≡ script.old }
    ensures unrun { (ending : AnEnding) → refusal_of (asked_of B.NorState (map string_bytes words.now) board.old bufs.old) ≡ Some ending → result.run ≡ None }
    // Else the run is traced.
    ensures traces { refusal_of (asked_of B.NorState (map string_bytes words.now) board.old bufs.old) ≡ None →
        TracesAsked B.NorState S.Source (asked_of B.NorState (map string_bytes words.now) board.old bufs.old)
        (lengths_of bufs.old) board.old board.new script.old script.new result }
    // A fault is told only where one was counted.
    ensures board_fault { result.status ≡ 7 → Rose (B.faults board.old) (B.faults board.new) }
    ensures script_fault { result.status ≡ 8 → Rose (S.faults script.old) (S.faults script.new) }
{
    match plan(words, board.unit(), board.size(), &measure(bufs)) {
        Err(ending) => Traced {
            status: conclude(board, ending),
            run: None,
        },
        Ok(g) => trace_on(alloc, &g, board, script, bufs),
    }
}

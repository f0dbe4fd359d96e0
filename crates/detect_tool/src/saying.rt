//! Saying what was found.
ghost use Rattle.std.specs.Prelude.{◌≡◌, ℕ, ◌*◌, ◌<◌, ◌≤◌, ◌^◌, ◌++◌, List, length, slice_index_or, OnOk, OnErr};
ghost use Rattle.nor_core.specs.Count.{Rose};
ghost use Rattle.image_tool.specs.Saying.{OnlySays, SaysFront};
ghost use Rattle.volume_rank.specs.declared.found.Found.{Found as AnyFound};
ghost use Rattle.detect_tool.specs.Lines.{found_line, found_lines, detect_text};
ghost use Rattle.detect_tool.specs.Ranked.{IsRanking};
ghost use Rattle.detect_tool.specs.Detecting.{SaysAll};

use crate::lines::{LINE, put_found};
use nor_core::{Board, Failed, NorState};
use volume_rank::{Found, next_best};

// Says the line of a candidate.
fn say_found<B: Board>(board: &mut B, f: &Found) -> Result<(), Failed>
    requires place { f.now.place < 84 * 2 ^ 20 }
    ensures cause { OnErr result (Rose (B.faults board.old) (B.faults board.new)) }
    ensures says { OnlySays B.NorState board.old board.new (found_line f.now) }
    ensures whole { B.tells board.old → OnOk result (B.said board.new ≡ B.said board.old ++ found_line f.now) }
    ensures front { OnErr result (SaysFront B.NorState board.old board.new (found_line f.now)) }
{
    let mut line = [0u8; LINE];
    let end = put_found(&mut line, f);
    board.say(&line[..end])
}

// Says the lines of the candidates of a list, best first.
fn say_all<B: Board>(board: &mut B, found: &[Found]) -> Result<(), Failed>
    requires places { (d : AnyFound) (k : ℕ) → k < length found.now → (slice_index_or found.now k d).place < 84 * 2 ^ 20 }
    ensures cause { OnErr result (Rose (B.faults board.old) (B.faults board.new)) }
    ensures says { (list : List AnyFound) → IsRanking found.now list → SaysAll B.NorState board.old board.new (found_lines list) result }
{
    let mut last = None;
    for i in 0..found.len() {
        let Some(next) = next_best(found, last) else {
            return Ok(());
        };
        say_found(board, &next)?;
        last = Some(next);
    }
    Ok(())
}

/// Says the lines of the candidates of a list, best first; where it is empty, a closing line that says so.
pub(crate) fn say_list<B: Board>(board: &mut B, found: &[Found]) -> Result<(), Failed>
    requires places { (d : AnyFound) (k : ℕ) → k < length found.now → (slice_index_or found.now k d).place < 84 * 2 ^ 20 }
    ensures cause { OnErr result (Rose (B.faults board.old) (B.faults board.new)) }
    ensures says { (list : List AnyFound) → IsRanking found.now list → SaysAll B.NorState board.old board.new (detect_text list) result }
{
    if found.is_empty() {
        return board.say(b"! no volume found, try list with the numbers of the firmware\n");
    }
    say_all(board, found)
}

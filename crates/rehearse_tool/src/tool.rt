// The command.
ghost use Rattle.std.specs.Prelude.{◌≡◌, ◌<◌, ◌≤◌, ◌^◌, length, map, min, replicate, string_bytes, None, Some, IfOk, IfErr, OnOk};
ghost use Rattle.nor_core.specs.Count.{Rose};
ghost use Rattle.nor_core.specs.Device.{OnlyReads};
ghost use Rattle.image_model.specs.Places.{IsImage};
ghost use Rattle.image_model.specs.Tables.{table_of as the_table};
ghost use Rattle.tool_parts.specs.declared.ending.Ending.{Ending as AnEnding};
ghost use Rattle.tool_parts.specs.Endings.{ClosesWith, RefusesIf};
ghost use Rattle.tool_parts.specs.Fits.{IsFitting};
ghost use Rattle.tool_parts.specs.Later.{IsLaterStatus};
ghost use Rattle.tool_parts.specs.Lent.{lengths_of, asked_of};
ghost use Rattle.tool_parts.specs.Refusals.{check_refusal};
ghost use Rattle.rehearse_tool.specs.Outcomes.{IsJudged, IsRefusedBy, IsOutcomeStatus, ComesTo, outcome_text, outcome_status};
ghost use Rattle.rehearse_tool.specs.Rehearsing.{DoesRehearse, Rehearses};
ghost use Rattle.rehearse_tool.specs.Words.{refusal_of};

use crate::answer::{Answer, answer_to};
use crate::files::files_of;
use crate::input::{Stop, read_image, read_script};
use crate::plan::{plan, wants_tables};
use geometry::Geometry;
use nor_core::{Board, Nor, NorState, Source};
use plain_collect::parting;
use plain_image::{spoiled_blocks, table_of};
use std::alloc::{AllocError, Global};
use tool_parts::{Buffers, Ending, close_with, conclude, measure};

// Refuses an image that `run` doesn't take.
#[tactic(auto, unfolding(tool_parts::specs::Refusals::check_refusal))]
fn accept(alloc: Global, g: &Geometry, image: &[u8]) -> Result<(), Stop>
    requires { IsImage g.now image.now }
    ensures taken { OnOk result (check_refusal g.now image.now ≡ None) }
    ensures refused { IfErr result (IsRefusedBy (check_refusal g.now image.now)) }
{
    let spoiled = spoiled_blocks(g, image);
    if spoiled > 1 {
        return Err(Stop::Ends(Ending::NotAFs(spoiled)));
    }
    let over = parting(alloc, g, image)?;
    if !over.fits {
        return Err(Stop::Ends(Ending::Mixed(over.shared)));
    }
    Ok(())
}

// The answer to a script on an image.
fn answer_on(
    alloc: Global,
    g: Geometry,
    tables: bool,
    image: &[u8],
    slots: u16,
    script: &[u8],
) -> Result<Answer, AllocError>
    requires image { IsImage g image.now }
    requires few { length script.now < 2 ^ 31 }
    ensures { IfOk result
        (λ answer. IsJudged g tables (record { table = the_table g image.now; slots = replicate slots None }) script.now answer.text.items answer.status) }
{
    let records = table_of(alloc, &g, image)?;
    let files = files_of(alloc, records.as_slice())?;
    answer_to(alloc, g, tables, files.as_slice(), slots, script)
}

// Reads the chip and the script, and rehearses it.
#[tactic(auto, using(crate::proofs::Coming::comes_ok, crate::proofs::Coming::comes_refused, crate::proofs::Coming::comes_unread, crate::proofs::Coming::comes_unscripted, crate::proofs::Coming::among_none, crate::proofs::Coming::among_unread, crate::proofs::Coming::among_unscripted, crate::proofs::Coming::among_refused, crate::proofs::Coming::among_judged, crate::proofs::Coming::fault_unread, crate::proofs::Coming::fault_unscripted))]
fn perform<B: Board, S: Source>(
    alloc: Global,
    g: Geometry,
    tables: bool,
    board: &mut B,
    script: &mut S,
    slots: u16,
) -> Result<Answer, Stop>
    requires { IsFitting g (B.unit board.old) (B.size board.old) }
    ensures only { OnlyReads B.NorState board.old board.new }
    ensures comes { S.tells script.old → B.tells board.old →
        ComesTo g tables (record { table = the_table g (B.bytes board.old); slots = replicate slots None }) (B.bytes board.old) (S.left script.old) result }
    ensures among { IsOutcomeStatus (outcome_status result) }
    ensures board_fault { outcome_status result ≡ 7 → Rose (B.faults board.old) (B.faults board.new) }
    ensures script_fault { outcome_status result ≡ 8 → Rose (S.faults script.old) (S.faults script.new) }
    ensures script_faults { S.faults script.old ≤ S.faults script.new }
{
    let image = read_image(alloc, board)?;
    accept(alloc, &g, image.as_slice())?;
    let text = read_script(alloc, script)?;
    Ok(answer_on(alloc, g, tables, image.as_slice(), slots, text.as_slice())?)
}

// Says what a rehearsal came to, and answers the status.
fn say_outcome<B: Board>(board: &mut B, outcome: Result<Answer, Stop>) -> u8
    ensures { ClosesWith B.NorState board.old board.new (outcome_text outcome) (outcome_status outcome) result }
{
    match outcome {
        Ok(answer) => close_with(board, answer.text.as_slice(), answer.status),
        Err(Stop::Ends(ending)) => conclude(board, ending),
        Err(Stop::NoMemory) => close_with(board, b"! memory\n", 15),
    }
}

// How many descriptors the volume has.
fn slots_of(bufs: &Buffers<'_>) -> u16
    ensures { result ≡ min 65535 (lengths_of bufs.now).slots }
{
    bufs.slots.len().min(65535) as u16
}

// A rehearsal that isn't refused.
#[tactic(auto, using(crate::proofs::Rehearsed::does_rehearse, crate::proofs::Rehearsed::later_closed, crate::proofs::Rehearsed::rose_closed, crate::proofs::Rehearsed::script_closed))]
fn rehearse_on<B: Board, S: Source>(
    alloc: Global,
    g: Geometry,
    tables: bool,
    board: &mut B,
    script: &mut S,
    bufs: &Buffers<'_>,
) -> u8
    requires { IsFitting g (B.unit board.old) (B.size board.old) }
    ensures later { IsLaterStatus result }
    ensures board_fault { result ≡ 7 → Rose (B.faults board.old) (B.faults board.new) }
    ensures script_fault { result ≡ 8 → Rose (S.faults script.old) (S.faults script.new) }
    ensures does { DoesRehearse B.NorState S.Source g (lengths_of bufs.now) tables board.old board.new script.old script.new result }
{
    let slots = slots_of(bufs);
    let outcome = perform(alloc, g, tables, board, script, slots);
    say_outcome(board, outcome)
}

/// Rehearses a script on the volume of a board, which is only read, and answers the status. The words are
/// `rehearse PAGE BLOCK BLOCKS META MAGIC CHIP`, with `tables` behind them or not. It says whether each table that a power cut in a run of the
/// script may leave keeps the promises of its comments, and with `tables` each of these tables by line of the script. It refuses what `run`
/// refuses before it writes. A script has at most 16,777,216 bytes. Wants memory for the chip, the script and the tables.
pub fn rehearse_tool<B: Board, S: Source>(
    alloc: Global,
    words: &[String],
    board: &mut B,
    script: &mut S,
    bufs: &mut Buffers<'_>,
) -> u8
    // What is refused before the chip is read: its closing line is said, and nothing else happens; nothing is taken of the script.
    ensures refused { RefusesIf B.NorState board.old board.new (refusal_of (asked_of B.NorState (map string_bytes words.now) board.old bufs.old)) result }
    ensures untaken { (ending : AnEnding) → refusal_of (asked_of B.NorState (map string_bytes words.now) board.old bufs.old) ≡ Some ending →
        script.new ≡ script.old }
    // All else is a rehearsal on the volume of the words' numbers.
    ensures rehearses { refusal_of (asked_of B.NorState (map string_bytes words.now) board.old bufs.old) ≡ None →
        Rehearses B.NorState S.Source (asked_of B.NorState (map string_bytes words.now) board.old bufs.old) board.old board.new script.old script.new result }
    // A fault is told only where one was counted.
    ensures board_fault { result ≡ 7 → Rose (B.faults board.old) (B.faults board.new) }
    ensures script_fault { result ≡ 8 → Rose (S.faults script.old) (S.faults script.new) }
{
    match plan(words, board.unit(), board.size(), &measure(bufs)) {
        Err(ending) => conclude(board, ending),
        Ok(g) => rehearse_on(alloc, g, wants_tables(words), board, script, bufs),
    }
}

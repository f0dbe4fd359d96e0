ghost use Rattle.std.specs.Prelude.{ℕ, ◌≡◌, ◌+◌, ◌-◌, ◌*◌, ◌<◌, ◌≤◌, ◌++◌, ◌∷◌, [], length, slice_range, IfOk, OnErr, Some, None, true, false};
ghost use Rattle.std.specs.Option.{IfSome, IfNone};
ghost use Rattle.nor_core.specs.Count.{Rose};
ghost use Rattle.nor_core.specs.Device.{Leaves, Says, InSay};
ghost use Rattle.table_model.specs.Reply.{answered};
ghost use Rattle.table_model.specs.Window.{Moment};
ghost use Rattle.call_script.specs.Lines.{NoBreak};
ghost use Rattle.call_script.specs.Pieces.{IsShort};
ghost use Rattle.call_script.specs.Replies.{text};
ghost use Rattle.run_model.specs.Ran.{RunStands};
ghost use Rattle.volume.specs.Holds.{memory};
ghost use Rattle.volume.specs.Stages.{takes_calls};
ghost use Rattle.volume.specs.Same.{IsSameVolume};
ghost use Rattle.tool_parts.specs.Later.{IsLater, IsLaterIf};
ghost use Rattle.script_run.specs.Among.{MayEndRun};
ghost use Rattle.script_run.specs.Runs.{Ran, Works};
ghost use Rattle.script_run.specs.Turns.{DidLine, OneMore, Turns, at_run};
ghost use Rattle.script_run.specs.Outcomes.{RunEnds};

use crate::call::{BYTES, apply};
use crate::lines::{LIMIT, LINE, Lines};
use call_script::{parse_line, reply_text};
use nor_core::{Board, Failed, Nor, NorState, Source};
use table_model::Reply;
use tool_parts::Ending;
use volume::Volume;

/// The number of bytes of the line buffer that hold lines; the others hold names, texts and replies.
const LINES: usize = 8192;

// Does a call and says its reply, or says how the run ends there.
#[tactic(auto, using(volume::proofs::Staying::same_then))]
fn answer<B: Board>(
    volume: &mut Volume<'_, B>,
    line: &[u8],
    number: u32,
    scratch: &mut [u8],
    lent: &mut [u8],
) -> Option<Ending>
    requires room { 4096 ≤ length scratch.old }
    requires lent { 4096 ≤ length lent.old }
    requires stands { takes_calls volume.old ≡ true }
    ensures later { IsLaterIf result }
    ensures among { IfSome result MayEndRun }
    ensures ran { Ran B.NorState volume.old.nor.now volume.new.nor.now result (takes_calls volume.new) }
    ensures same { IsSameVolume volume.old volume.new }
    ensures no_script { ¬ (result ≡ Some Ending.SourceFault) }
    ensures did { (m : Moment) → RunStands B.NorState volume.old.geometry volume.old.nor.now (memory volume.old) m →
        DidLine B.NorState volume.old.geometry volume.old.nor.now volume.new.nor.now (memory volume.old) (memory volume.new) m line.now number result }
    ensures works { Works B.NorState volume.old.geometry volume.old.nor.now volume.new.nor.now (memory volume.old) (memory volume.new) result }
{
    let Ok(parsed) = parse_line(line, scratch) else {
        return Some(Ending::BadLine(number));
    };
    let Some(call) = parsed else {
        return None;
    };
    match apply(volume, &call, lent) {
        Ok(told) => say_reply(volume, &told.reply(lent), scratch),
        Err(ending) => Some(ending),
    }
}

// Says the line of a reply.
fn say_reply<B: Board>(
    volume: &mut Volume<'_, B>,
    reply: &Reply<'_>,
    into: &mut [u8],
) -> Option<Ending>
    requires room { 4096 ≤ length into.old }
    requires stands { takes_calls volume.old ≡ true }
    requires short { IsShort reply.now }
    ensures later { IsLaterIf result }
    ensures among { IfSome result MayEndRun }
    ensures ran { Ran B.NorState volume.old.nor.now volume.new.nor.now result (takes_calls volume.new) }
    ensures same { IsSameVolume volume.old volume.new }
    ensures no_script { ¬ (result ≡ Some Ending.SourceFault) }
    ensures fault { IfSome result (λ ending. ending ≡ Ending.BoardFault) }
    ensures says { Says B.NorState volume.old.nor.now volume.new.nor.now (text (answered reply.now)) }
    ensures cuts { Leaves B.NorState volume.old.nor.now volume.new.nor.now (InSay B.NorState volume.old.nor.now (text (answered reply.now))) }
    ensures memory { memory volume.new ≡ memory volume.old }
    ensures done { B.tells volume.old.nor.now → IfNone result (B.said volume.new.nor.now ≡ B.said volume.old.nor.now ++ text (answered reply.now)) }
{
    let length = reply_text(reply, into);
    match volume.say(&into[..length]) {
        Ok(()) => None,
        Err(Failed) => Some(Ending::BoardFault),
    }
}

// Whether a script gives a byte more.
fn gives_more<S: Source>(script: &mut S) -> Result<bool, Failed>
    ensures more { S.tells script.old → IfOk result (λ more. more ≡ true → OneMore (S.left script.old) (S.left script.new)) }
    ensures end { S.tells script.old → IfOk result (λ more. more ≡ false → S.left script.old ≡ []) }
    ensures end_new { S.tells script.old → IfOk result (λ more. more ≡ false → S.left script.new ≡ []) }
    ensures err { OnErr result (S.left script.new ≡ S.left script.old) }
    ensures told { S.tells script.old → S.tells script.new }
    ensures faults { S.faults script.old ≤ S.faults script.new }
    ensures cause { OnErr result (Rose (S.faults script.old) (S.faults script.new)) }
{
    let mut one = [0u8; 1];
    let n = script.read(&mut one)?;
    Ok(n != 0)
}

// Does the bytes that were taken as the last line, and ends the run.
#[tactic(auto, using(volume::proofs::Staying::same_then))]
fn last_line<B: Board>(
    volume: &mut Volume<'_, B>,
    lines: &Lines<'_>,
    scratch: &mut [u8],
    lent: &mut [u8],
) -> Ending
    requires room { 4096 ≤ length scratch.old }
    requires lent { 4096 ≤ length lent.old }
    requires stands { takes_calls volume.old ≡ true }
    requires no_break { NoBreak (slice_range lines.now.buf.now lines.now.start lines.now.end) }
    ensures later { IsLater result }
    ensures among { MayEndRun result }
    ensures ran { Ran B.NorState volume.old.nor.now volume.new.nor.now (Some result) (takes_calls volume.new) }
    ensures same { IsSameVolume volume.old volume.new }
    ensures no_script { ¬ (result ≡ Ending.SourceFault) }
    ensures turned { Turns B.NorState volume.old.geometry (Some result)
        (at_run volume.old.nor.now (memory volume.old) lines.now.buf.now lines.now.start lines.now.end lines.now.taken lines.now.handed [])
        (at_run volume.new.nor.now (memory volume.new) lines.now.buf.now lines.now.start lines.now.end lines.now.taken lines.now.handed []) }
    ensures works { Works B.NorState volume.old.geometry volume.old.nor.now volume.new.nor.now (memory volume.old) (memory volume.new) (Some result) }
{
    let line = lines.piece(lines.start, lines.end);
    if line.is_empty() {
        return Ending::Done;
    }
    let number = lines.handed.saturating_add(1);
    match answer(volume, line, number, scratch, lent) {
        None => Ending::Done,
        Some(ending) => ending,
    }
}

// One turn where no line is ended in the bytes that were taken.
#[tactic(auto, using(volume::proofs::Staying::same_then))]
fn take_more<B: Board, S: Source>(
    volume: &mut Volume<'_, B>,
    lines: &mut Lines<'_>,
    script: &mut S,
    scratch: &mut [u8],
    lent: &mut [u8],
) -> Option<Ending>
    requires room { 4096 ≤ length scratch.old }
    requires lent { 4096 ≤ length lent.old }
    requires stands { takes_calls volume.old ≡ true }
    requires no_break { NoBreak (slice_range lines.old.buf.now lines.old.start lines.old.end) }
    ensures later { IsLaterIf result }
    ensures among { IfSome result MayEndRun }
    ensures ran { Ran B.NorState volume.old.nor.now volume.new.nor.now result (takes_calls volume.new) }
    ensures same { IsSameVolume volume.old volume.new }
    ensures script_faults { S.faults script.old ≤ S.faults script.new }
    ensures script_cause { result ≡ Some Ending.SourceFault → Rose (S.faults script.old) (S.faults script.new) }
    ensures told { S.tells script.old → S.tells script.new }
    ensures same_buf { lines.new.buf.ghost_name ≡ lines.old.buf.ghost_name }
    ensures smaller { IfNone result
        (2 * (16777216 - lines.new.taken) + (lines.new.end - lines.new.start) < 2 * (16777216 - lines.old.taken) + (lines.old.end - lines.old.start)) }
    ensures turned { S.tells script.old → Turns B.NorState volume.old.geometry result
        (at_run volume.old.nor.now (memory volume.old) lines.old.buf.now lines.old.start lines.old.end lines.old.taken lines.old.handed (S.left script.old))
        (at_run volume.new.nor.now (memory volume.new) lines.new.buf.now lines.new.start lines.new.end lines.new.taken lines.new.handed (S.left script.new)) }
    ensures works { Works B.NorState volume.old.geometry volume.old.nor.now volume.new.nor.now (memory volume.old) (memory volume.new) result }
{
    if lines.end - lines.start > LINE {
        return Some(Ending::BadLine(lines.handed.saturating_add(1)));
    }
    if lines.taken == LIMIT {
        return Some(match gives_more(script) {
            Err(Failed) => Ending::SourceFault,
            Ok(true) => Ending::TooLong,
            Ok(false) => last_line(volume, lines, scratch, lent),
        });
    }
    match lines.fill(script) {
        Err(Failed) => Some(Ending::SourceFault),
        Ok(0) => Some(last_line(volume, lines, scratch, lent)),
        Ok(_) => None,
    }
}

// One turn of a run: a line, or more bytes.
#[tactic(auto, using(volume::proofs::Staying::same_then))]
fn turn<B: Board, S: Source>(
    volume: &mut Volume<'_, B>,
    lines: &mut Lines<'_>,
    script: &mut S,
    scratch: &mut [u8],
    lent: &mut [u8],
) -> Option<Ending>
    requires room { 4096 ≤ length scratch.old }
    requires lent { 4096 ≤ length lent.old }
    requires stands { takes_calls volume.old ≡ true }
    ensures later { IsLaterIf result }
    ensures among { IfSome result MayEndRun }
    ensures ran { Ran B.NorState volume.old.nor.now volume.new.nor.now result (takes_calls volume.new) }
    ensures same { IsSameVolume volume.old volume.new }
    ensures script_faults { S.faults script.old ≤ S.faults script.new }
    ensures script_cause { result ≡ Some Ending.SourceFault → Rose (S.faults script.old) (S.faults script.new) }
    ensures told { S.tells script.old → S.tells script.new }
    ensures same_buf { lines.new.buf.ghost_name ≡ lines.old.buf.ghost_name }
    ensures smaller { IfNone result
        (2 * (16777216 - lines.new.taken) + (lines.new.end - lines.new.start) < 2 * (16777216 - lines.old.taken) + (lines.old.end - lines.old.start)) }
    ensures turned { S.tells script.old → Turns B.NorState volume.old.geometry result
        (at_run volume.old.nor.now (memory volume.old) lines.old.buf.now lines.old.start lines.old.end lines.old.taken lines.old.handed (S.left script.old))
        (at_run volume.new.nor.now (memory volume.new) lines.new.buf.now lines.new.start lines.new.end lines.new.taken lines.new.handed (S.left script.new)) }
    ensures works { Works B.NorState volume.old.geometry volume.old.nor.now volume.new.nor.now (memory volume.old) (memory volume.new) result }
{
    let from = lines.start;
    match lines.take_line() {
        Some(to) => {
            let number = lines.handed;
            answer(volume, lines.piece(from, to), number, scratch, lent)
        }
        None => take_more(volume, lines, script, scratch, lent),
    }
}

// Runs the lines of a script up to its end, or to what stops it.
#[tactic(auto, using(volume::proofs::Staying::same_then))]
fn run_lines<B: Board, S: Source>(
    volume: &mut Volume<'_, B>,
    lines: &mut Lines<'_>,
    script: &mut S,
    scratch: &mut [u8],
    lent: &mut [u8],
) -> Ending
    requires room { 4096 ≤ length scratch.old }
    requires lent { 4096 ≤ length lent.old }
    requires stands { takes_calls volume.old ≡ true }
    ensures later { IsLater result }
    ensures among { MayEndRun result }
    ensures ran { Ran B.NorState volume.old.nor.now volume.new.nor.now (Some result) (takes_calls volume.new) }
    ensures same { IsSameVolume volume.old volume.new }
    ensures script_faults { S.faults script.old ≤ S.faults script.new }
    ensures script_cause { result ≡ Ending.SourceFault → Rose (S.faults script.old) (S.faults script.new) }
    ensures turned { S.tells script.old → Turns B.NorState volume.old.geometry (Some result)
        (at_run volume.old.nor.now (memory volume.old) lines.old.buf.now lines.old.start lines.old.end lines.old.taken lines.old.handed (S.left script.old))
        (at_run volume.new.nor.now (memory volume.new) lines.new.buf.now lines.new.start lines.new.end lines.new.taken lines.new.handed (S.left script.new)) }
    ensures works { Works B.NorState volume.old.geometry volume.old.nor.now volume.new.nor.now (memory volume.old) (memory volume.new) (Some result) }
{
    'turns: loop {
        if let Some(ending) = turn(volume, lines, script, scratch, lent) {
            return ending;
        }
    }
}

/// Runs a script on a checked volume.
#[tactic(auto, using(volume::proofs::Staying::same_then))]
pub(crate) fn run_script<B: Board, S: Source>(
    volume: &mut Volume<'_, B>,
    script: &mut S,
    line: &mut [u8],
) -> Ending
    requires room { 12288 ≤ length line.old }
    requires stands { takes_calls volume.old ≡ true }
    ensures later { IsLater result }
    ensures among { MayEndRun result }
    ensures ran { Ran B.NorState volume.old.nor.now volume.new.nor.now (Some result) (takes_calls volume.new) }
    ensures same { IsSameVolume volume.old volume.new }
    ensures script_faults { S.faults script.old ≤ S.faults script.new }
    ensures script_cause { result ≡ Ending.SourceFault → Rose (S.faults script.old) (S.faults script.new) }
    ensures ends { (m : Moment) → S.tells script.old → RunStands B.NorState volume.old.geometry volume.old.nor.now (memory volume.old) m → RunEnds B.NorState
        volume.old.geometry volume.old.nor.now volume.new.nor.now (memory volume.old) (memory volume.new) m (S.left script.old) (S.left script.new) result }
    ensures works { Works B.NorState volume.old.geometry volume.old.nor.now volume.new.nor.now (memory volume.old) (memory volume.new) (Some result) }
{
    let (taken, scratch) = line.split_at_mut(LINES);
    let mut lines = Lines::new(taken);
    let mut lent = [0u8; BYTES];
    run_lines(volume, &mut lines, script, scratch, &mut lent)
}

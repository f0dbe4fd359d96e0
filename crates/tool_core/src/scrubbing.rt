ghost use Rattle.std.specs.Prelude.{ℕ, ◌≡◌, ◌≢◌, ◌≤◌, length, OnOk, IfErr, Err, None, true};
ghost use Rattle.geometry.specs.Numbers.{write_refusal, work_need, cache_need, check_need};
ghost use Rattle.nor_core.specs.Count.{Rose};
ghost use Rattle.flash_view.specs.Same.{StaysBehind};
ghost use Rattle.volume.specs.Holds.{memory};
ghost use Rattle.volume.specs.Stages.{takes_calls};
ghost use Rattle.volume.specs.Same.{IsSameVolume};
ghost use Rattle.tool_parts.specs.Among.{MayEndWork, EndsAmong};
ghost use Rattle.tool_parts.specs.Fits.{IsFitting, HasLengths};
ghost use Rattle.tool_parts.specs.Later.{IsLater, IsLaterStatus};
ghost use Rattle.tool_parts.specs.Lent.{lengths_of};
ghost use Rattle.tool_parts.specs.Begins.{closed_memory};
ghost use Rattle.tool_parts.specs.Reads.{ReadsOnce};
ghost use Rattle.tool_core.specs.Scrubbing.{Makes, IsStepDone, AreSteps, IsTally, ScrubEnds, ScrubsTo, DoesScrub, scrub_text, why_text, has_moved};

use crate::finishing::unsettled;
use geometry::Geometry;
use nor_core::{Board, Failed, Nor, NorState};
use tool_parts::{Buffers, Closing, Ending, begin, conclude, put, put_count};
use vol_mount::Lent;
use volume::{Scrub, Volume};

// The steps of a scrub: how many moved a block, and the one after them that moved none, if there was one.
#[derive(Clone, Copy)]
struct Steps {
    moved: u32,
    last: Option<Scrub>,
}

// The same, and how many blocks are free then.
#[derive(Clone, Copy)]
struct Tally {
    moved: u32,
    last: Option<Scrub>,
    free: u32,
}

// Why the last step moved no block.
fn why_text(last: Option<Scrub>) -> &'static [u8]
    ensures { result.now ≡ why_text last }
{
    match last {
        Some(Scrub::Rested) => b"level\n",
        Some(Scrub::NoRoom { .. }) => b"no room\n",
        _ => b"",
    }
}

// The line of what was done, and where no block was moved why not.
fn tally_line(tally: Tally) -> Closing
    ensures { result.items ≡ scrub_text tally.moved tally.free tally.last }
{
    let mut line = Closing::new();
    put_count(&mut line, b"moved ", u64::from(tally.moved));
    put_count(&mut line, b" free ", u64::from(tally.free));
    put(&mut line, b"\n");
    if tally.moved == 0 {
        put(&mut line, why_text(tally.last));
    }
    line
}

// Whether a step moved a block.
fn has_moved(scrub: Scrub) -> bool
    ensures { result ≡ has_moved scrub }
{
    matches!(scrub, Scrub::Moved { .. })
}

// A step of a scrub.
fn scrub_turn<B: Board>(volume: &mut Volume<'_, B>, limit: u16) -> Result<Scrub, Ending>
    requires limit { (1 ≤ limit) × (limit ≤ 32767) }
    requires takes { takes_calls volume.old ≡ true }
    ensures later { IfErr result IsLater }
    ensures no_script { ¬ (result ≡ Err Ending.SourceFault) }
    ensures among { IfErr result MayEndWork }
    ensures cause { result ≡ Err Ending.BoardFault → Rose (B.faults volume.old.nor.now) (B.faults volume.new.nor.now) }
    ensures taken { OnOk result (takes_calls volume.new ≡ true) }
    ensures same { IsSameVolume volume.old volume.new }
    ensures makes { (slots : ℕ) → memory volume.old ≡ closed_memory slots →
        Makes B.NorState volume.old.geometry slots volume.old.nor.now volume.new.nor.now (memory volume.new) result (IsStepDone volume.old.geometry limit) }
{
    match volume.scrub(limit) {
        Ok(scrub) => Ok(scrub),
        Err(why) => Err(unsettled(why)),
    }
}

// Makes steps until one moves no block, or as many as there are blocks.
#[tactic(auto, using(volume::proofs::Staying::same_then))]
fn scrub_all<B: Board>(volume: &mut Volume<'_, B>, limit: u16) -> Result<Steps, Ending>
    requires limit { (1 ≤ limit) × (limit ≤ 32767) }
    requires takes { takes_calls volume.old ≡ true }
    ensures later { IfErr result IsLater }
    ensures no_script { ¬ (result ≡ Err Ending.SourceFault) }
    ensures among { IfErr result MayEndWork }
    ensures cause { result ≡ Err Ending.BoardFault → Rose (B.faults volume.old.nor.now) (B.faults volume.new.nor.now) }
    ensures taken { OnOk result (takes_calls volume.new ≡ true) }
    ensures same { IsSameVolume volume.old volume.new }
    ensures makes { (slots : ℕ) → memory volume.old ≡ closed_memory slots →
        Makes B.NorState volume.old.geometry slots volume.old.nor.now volume.new.nor.now (memory volume.new) result (AreSteps volume.old.geometry limit) }
{
    let blocks = volume.geometry.blocks();
    let mut moved = 0;
    'steps: while moved < blocks {
        let scrub = scrub_turn(volume, limit)?;
        if has_moved(scrub) {
            moved += 1;
        } else {
            return Ok(Steps {
                moved,
                last: Some(scrub),
            });
        }
    }
    Ok(Steps { moved, last: None })
}

// Makes the steps, and counts the free blocks then.
#[tactic(auto, using(volume::proofs::Staying::same_then))]
fn scrub_and_count<B: Board>(volume: &mut Volume<'_, B>, limit: u16) -> Result<Tally, Ending>
    requires limit { (1 ≤ limit) × (limit ≤ 32767) }
    requires takes { takes_calls volume.old ≡ true }
    ensures later { IfErr result IsLater }
    ensures no_script { ¬ (result ≡ Err Ending.SourceFault) }
    ensures among { IfErr result MayEndWork }
    ensures cause { result ≡ Err Ending.BoardFault → Rose (B.faults volume.old.nor.now) (B.faults volume.new.nor.now) }
    ensures same { IsSameVolume volume.old volume.new }
    ensures makes { (slots : ℕ) → memory volume.old ≡ closed_memory slots →
        Makes B.NorState volume.old.geometry slots volume.old.nor.now volume.new.nor.now (memory volume.new) result (IsTally volume.old.geometry limit) }
{
    let steps = scrub_all(volume, limit)?;
    match volume.space() {
        Ok(space) => Ok(Tally {
            moved: steps.moved,
            last: steps.last,
            free: space.free_blocks,
        }),
        Err(why) => Err(unsettled(why)),
    }
}

// Makes the steps on a checked volume, and says their line.
#[tactic(auto, using(volume::proofs::Staying::same_then))]
fn scrub_checked<B: Board>(volume: &mut Volume<'_, B>, limit: u16) -> Ending
    requires limit { (1 ≤ limit) × (limit ≤ 32767) }
    requires takes { takes_calls volume.old ≡ true }
    ensures later { IsLater result }
    ensures no_script { result ≢ Ending.SourceFault }
    ensures among { MayEndWork result }
    ensures cause { result ≡ Ending.BoardFault → Rose (B.faults volume.old.nor.now) (B.faults volume.new.nor.now) }
    ensures same { IsSameVolume volume.old volume.new }
    ensures scrubs { (slots : ℕ) → memory volume.old ≡ closed_memory slots →
        ScrubEnds B.NorState volume.old.geometry limit volume.old.nor.now volume.new.nor.now result }
{
    let tally = match scrub_and_count(volume, limit) {
        Ok(tally) => tally,
        Err(ending) => return ending,
    };
    match volume.say(tally_line(tally).as_slice()) {
        Ok(()) => Ending::Done,
        Err(Failed) => Ending::BoardFault,
    }
}

// Mounts and checks a volume, makes the steps, and says their line.
#[tactic(auto, using(volume::proofs::Staying::same_then))]
fn scrub_volume<B: Board>(volume: &mut Volume<'_, B>, limit: u16, marks: &mut [u8]) -> Ending
    requires writable { write_refusal volume.old.geometry ≡ None }
    requires marks { check_need volume.old.geometry ≤ length marks.old }
    requires limit { (1 ≤ limit) × (limit ≤ 32767) }
    ensures later { IsLater result }
    ensures no_script { result ≢ Ending.SourceFault }
    ensures among { MayEndWork result }
    ensures cause { result ≡ Ending.BoardFault → Rose (B.faults volume.old.nor.now) (B.faults volume.new.nor.now) }
    ensures same { IsSameVolume volume.old volume.new }
    ensures scrubs { (slots : ℕ) → memory volume.old ≡ closed_memory slots →
        ScrubsTo B.NorState volume.old.geometry limit volume.old.nor.now volume.new.nor.now result }
{
    match begin(volume, marks) {
        Ok(()) => scrub_checked(volume, limit),
        Err(ending) => ending,
    }
}

// Mounts and checks the volume of a board, makes the steps, and says their line.
fn scrub_board<'b, B: Board>(
    g: Geometry,
    limit: u16,
    board: &'b mut B,
    lent: Lent<'b>,
    marks: &mut [u8],
) -> Ending
    requires fits { IsFitting g (B.unit board.old) (B.size board.old) }
    requires limit { (1 ≤ limit) × (limit ≤ 32767) }
    requires work { work_need g ≤ length lent.work.now }
    requires cache { cache_need g ≤ length lent.cache.now }
    requires window { g.page ≤ length lent.window.now }
    requires marks { check_need g ≤ length marks.old }
    ensures later { IsLater result }
    ensures no_script { result ≢ Ending.SourceFault }
    ensures among { MayEndWork result }
    ensures cause { result ≡ Ending.BoardFault → Rose (B.faults board.old) (B.faults board.new) }
    ensures scrubs { ScrubsTo B.NorState g limit board.old board.new result }
    ensures behind { StaysBehind B.NorState g board.old board.new }
    ensures few { ReadsOnce B.NorState g (length lent.entry.cache.now) board.old board.new }
{
    let mut volume = Volume::new(g, board, lent);
    scrub_volume(&mut volume, limit, marks)
}

/// Mounts and checks the volume of a board in the lent memory, makes scrub steps until one moves no block or as many as there are
/// blocks were made, and says how many moved one and how many blocks are free, and if none was moved why not.
pub(crate) fn scrub_on<B: Board>(
    g: Geometry,
    limit: u16,
    board: &mut B,
    bufs: &mut Buffers<'_>,
) -> u8
    requires fits { IsFitting g (B.unit board.old) (B.size board.old) }
    requires room { HasLengths g (lengths_of bufs.old) }
    requires limit { (1 ≤ limit) × (limit ≤ 32767) }
    ensures later { IsLaterStatus result }
    ensures board_fault { result ≡ 7 → Rose (B.faults board.old) (B.faults board.new) }
    ensures no_script { result ≢ 8 }
    ensures no_folder { result ≢ 9 }
    ensures ends { EndsAmong B.NorState MayEndWork board.old board.new result }
    ensures does { DoesScrub B.NorState g (length bufs.old.cache.now) limit board.old board.new result }
{
    let lent = Lent {
        work: &mut *bufs.work,
        slots: &mut *bufs.slots,
        cache: &mut *bufs.cache,
        window: &mut *bufs.window,
    };
    let ending = scrub_board(g, limit, board, lent, bufs.check);
    conclude(board, ending)
}

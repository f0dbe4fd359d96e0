ghost use Rattle.std.specs.Prelude.{◌≡◌, ◌≤◌, ℕ, List, length, IfOk, IfErr, Err, true};
ghost use Rattle.table_model.specs.Ask.{asked};
ghost use Rattle.table_model.specs.Reply.{Gives};
ghost use Rattle.call_script.specs.Lines.{IsCounted, Asks};
ghost use Rattle.volume.specs.Holds.{memory};
ghost use Rattle.file_calls.specs.Replies.{shown_by};
ghost use Rattle.volume.specs.Stages.{takes_calls};
ghost use Rattle.volume.specs.Same.{IsSameVolume};
ghost use Rattle.tool_parts.specs.Later.{IsLater};
ghost use Rattle.script_run.specs.Among.{MayEndRun};
ghost use Rattle.script_run.specs.Runs.{Ran, result_err};
ghost use Rattle.script_run.specs.Turns.{DoesCall};

use nor_core::{Board, NorState};
use table_model::{Call, FsErr};
use tool_parts::Ending;
use volume::{Told, Volume};

/// The most bytes that a line of a script may fill; it reads at most 1,024.
pub(crate) const BYTES: usize = 4096;

/// Does a call, with bytes for what is read or filled in, or says how the run ends there: the device failed, or a page reads otherwise
/// than it was written.
pub(crate) fn apply<B: Board>(
    volume: &mut Volume<'_, B>,
    call: &Call<'_>,
    lent: &mut [u8],
) -> Result<Told, Ending>
    requires takes { takes_calls volume.old ≡ true }
    requires counted { IsCounted (Asks (asked call.now)) }
    requires room { 4096 ≤ length lent.old }
    ensures later { IfErr result IsLater }
    ensures among { IfErr result MayEndRun }
    ensures ran { Ran B.NorState volume.old.nor.now volume.new.nor.now (result_err result) (takes_calls volume.new) }
    ensures no_script { ¬ (result ≡ Err Ending.SourceFault) }
    ensures same { IsSameVolume volume.old volume.new }
    ensures brief { IfOk result (λ told. (bytes : List ℕ) → shown_by told lent.new ≡ Gives bytes → length bytes ≤ 1024) }
    ensures does { DoesCall B.NorState volume.old.geometry volume.old.nor.now volume.new.nor.now (memory volume.old) (memory volume.new)
        (asked call.now) result lent.new }
{
    match volume.answer(call, lent) {
        Told::Refusal(FsErr::DeviceFault) => Err(Ending::BoardFault),
        Told::Refusal(FsErr::Damaged(differ)) => Err(Ending::Differ(differ)),
        told => Ok(told),
    }
}

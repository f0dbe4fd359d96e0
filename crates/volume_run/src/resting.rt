ghost use Rattle.std.specs.Prelude.{length};
ghost use Rattle.geometry.specs.declared.geometry.Geometry.{Geometry};
ghost use Rattle.table_model.specs.Ask.{asked};
ghost use Rattle.file_calls.specs.Replies.{HasRoomFor, shown_by};
ghost use Rattle.volume_run.specs.Resting.{Rested, QuietCalls, QuietWrites};

use nor_core::{Nor, NorState};
use table_model::Call;
use volume::{Told, Volume};

/// Does a call of a volume on which nothing waits, with bytes for what is read or filled in. Unlike `ask` it asks for no room, and
/// answers faults too.
pub fn call_at_rest<N: Nor>(volume: &mut Volume<'_, N>, call: &Call<'_>, lent: &mut [u8]) -> Told
    requires room { HasRoomFor (asked call.now) (length lent.old) }
    ensures { Rested (asked call.now) volume.old volume.new (shown_by result lent.new) }
{
    volume.answer(call, lent)
}

/// Which calls leave nothing waiting, and are answered by the flat table alone.
pub fn calls_are_quiet()
    ensures calls { (g : Geometry) → QuietCalls g }
    ensures writes { (g : Geometry) → QuietWrites g }
{}

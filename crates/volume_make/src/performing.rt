ghost use Rattle.std.specs.Prelude.{◌≡◌, ℕ, List, OnOk, IfErr, Err};
ghost use Rattle.nor_core.specs.Count.{Rose};
ghost use Rattle.table_model.specs.Ask.{asked};
ghost use Rattle.table_model.specs.Steps.{is_refusal};
ghost use Rattle.file_calls.specs.Replies.{HasRoomFor, shown_by};
ghost use Rattle.volume_run.specs.Ready.{IsMoved};
ghost use Rattle.volume_make.specs.Making.{IsApart, DoneFrom, UndoneFrom};

use crate::PutErr;
use nor_core::{Nor, NorState};
use table_model::Call;
use volume::{Told, Volume};
use volume_run::{Stop, ask};

// Whether a call that told this was refused.
fn is_refused(told: &Told) -> bool
    ensures { (lent : List ℕ) → result ≡ is_refusal (shown_by told.now lent) }
{
    matches!(told, Told::Refusal(_))
}

/// Does a call that reads nothing, or answers why it wasn't done.
pub(crate) fn perform<N: Nor>(volume: &mut Volume<'_, N>, call: &Call<'_>) -> Result<(), PutErr>
    requires room { HasRoomFor (asked call.now) 0 }
    ensures moved { IsMoved volume.old volume.new }
    ensures cause { result ≡ Err (PutErr.Stopped Stop.Fault) → Rose (N.faults volume.old.nor.now) (N.faults volume.new.nor.now) }
    ensures apart { IfErr result IsApart }
    ensures folder { result ≡ Err PutErr.Folder → ⊥ }
    ensures done { OnOk result (DoneFrom volume.old (asked call.now) volume.new) }
    ensures undone { IfErr result (UndoneFrom volume.old (asked call.now)) }
{
    let told = ask(volume, call, &mut [])?;
    if is_refused(&told) {
        Err(PutErr::Refused)
    } else {
        Ok(())
    }
}

// A record that is whole under the working name gets its place.
ghost use Rattle.std.specs.Prelude.{◌≡◌, ◌≢◌, ◌≤◌, ◌==◌, ◌||◌, length, not, OnOk, IfErr, Err, true};
ghost use Rattle.nor_core.specs.Count.{Rose};
ghost use Rattle.nor_core.specs.Device.{OnlyReads};
ghost use Rattle.vol_mount.specs.Readers.{IsSameReader};
ghost use Rattle.table_model.specs.declared.error.Differ.{Differ as Differs};
ghost use Rattle.image_model.specs.Tidy.{is_erased};
ghost use Rattle.volume.specs.Same.{IsSameVolume};
ghost use Rattle.copy_model.specs.Parts.{IsMissing, IsWhole, IsMarked, IsPassed};
ghost use Rattle.vol_copy.specs.Stages.{Rests, With, CutsUnder, Leads, StopsFrom, OnlyFaults};

use crate::asking::{WORKING, clear, perform};
use crate::filling::fill;
use copy_model::CopyErr;
use nor_core::{Nor, NorState};
use table_model::{Call, Stat};
use vol_mount::Reader;
use volume::Volume;

// Gives the working file its name, in the place of the file that had it.
#[tactic(auto, using(volume::proofs::Staying::same_then))]
fn place<M: Nor>(to: &mut Volume<'_, M>, stat: &Stat) -> Result<(), CopyErr>
    ensures same { IsSameVolume to.old to.new }
    ensures cause { result ≡ Err CopyErr.ToFault → Rose (M.faults to.old.nor.now) (M.faults to.new.nor.now) }
    ensures differs { (d : Differs) → result ≡ Err (CopyErr.Damaged d) → d.wanted ≢ d.found }
    ensures source { result ≡ Err CopyErr.FromFault → ⊥ }
    ensures cuts { CutsUnder (Rests (IsMarked stat.now)) to.old to.new }
    ensures done { OnOk result (Leads (Rests (IsMarked stat.now)) (Rests (IsPassed stat.now true)) to.old to.new) }
    ensures stops { IfErr result (OnlyFaults (Rests (IsMarked stat.now)) to.old) }
{
    let name = stat.name.as_slice();
    clear(to, name)?;
    perform(
        to,
        &Call::Rename {
            old_name: &WORKING,
            new_name: name,
        },
    )
}

// Whether all bytes are 0xFF, as a new file's meta bytes are.
fn is_blank(bytes: &[u8]) -> bool
    ensures { result ≡ is_erased bytes.now }
{
    bytes.iter().all(|b| *b == 0xFF)
}

// Whether a new file has these meta bytes already, or has another number of them.
fn needs_no_meta(meta: &[u8], many: u32) -> bool
    ensures { result ≡ (not (length meta.now == many) || is_erased meta.now) }
{
    meta.len() != many as usize || is_blank(meta)
}

// Gives the working file the record's meta bytes, where both volumes have as many.
#[tactic(auto, using(volume::proofs::Staying::same_then))]
fn mark<M: Nor>(to: &mut Volume<'_, M>, stat: &Stat) -> Result<(), CopyErr>
    ensures same { IsSameVolume to.old to.new }
    ensures cause { result ≡ Err CopyErr.ToFault → Rose (M.faults to.old.nor.now) (M.faults to.new.nor.now) }
    ensures differs { (d : Differs) → result ≡ Err (CopyErr.Damaged d) → d.wanted ≢ d.found }
    ensures source { result ≡ Err CopyErr.FromFault → ⊥ }
    ensures cuts { CutsUnder (Rests (IsWhole stat.now)) to.old to.new }
    ensures done { OnOk result (Leads (Rests (IsWhole stat.now)) (Rests (IsMarked stat.now)) to.old to.new) }
    ensures stops { IfErr result (OnlyFaults (Rests (IsWhole stat.now)) to.old) }
{
    let meta = stat.meta.as_slice();
    if needs_no_meta(meta, to.geometry.meta) {
        return Ok(());
    }
    perform(
        to,
        &Call::SetMeta {
            name: &WORKING,
            meta,
        },
    )
}

/// Copies a record onto the target.
#[tactic(auto, using(volume::proofs::Staying::same_then))]
pub(crate) fn copy_file<N: Nor, M: Nor>(
    from: &mut Reader<'_, N>,
    to: &mut Volume<'_, M>,
    stat: &Stat,
    piece: &mut [u8],
) -> Result<(), CopyErr>
    requires piece { 4096 ≤ length piece.old }
    ensures reads { OnlyReads N.NorState from.old.nor.now from.new.nor.now }
    ensures same_from { IsSameReader from.old from.new }
    ensures same_to { IsSameVolume to.old to.new }
    ensures from_cause { result ≡ Err CopyErr.FromFault → Rose (N.faults from.old.nor.now) (N.faults from.new.nor.now) }
    ensures to_cause { result ≡ Err CopyErr.ToFault → Rose (M.faults to.old.nor.now) (M.faults to.new.nor.now) }
    ensures differs { (d : Differs) → result ≡ Err (CopyErr.Damaged d) → d.wanted ≢ d.found }
    ensures cuts { CutsUnder (With N.NorState from.old (Rests (IsMissing stat.now))) to.old to.new }
    ensures done { OnOk result (Leads (With N.NorState from.old (Rests (IsMissing stat.now))) (Rests (IsPassed stat.now true)) to.old to.new) }
    ensures stops { IfErr result (StopsFrom (With N.NorState from.old (Rests (IsMissing stat.now))) to.old to.new) }
{
    fill(from, to, stat, piece)?;
    mark(to, stat)?;
    place(to, stat)
}

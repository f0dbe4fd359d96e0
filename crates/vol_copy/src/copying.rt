// The files of a volume, one after the other.
ghost use Rattle.std.specs.Prelude.{◌≡◌, ◌≢◌, ◌+◌, ◌<◌, ◌≤◌, List, length, IfOk, IfErr, Err, if◌then◌else◌};
ghost use Rattle.std.specs.Option.{IfSome};
ghost use Rattle.nor_core.specs.Count.{Rose};
ghost use Rattle.nor_core.specs.Device.{OnlyReads};
ghost use Rattle.table_model.specs.Table.{File};
ghost use Rattle.table_model.specs.declared.error.Differ.{Differ as Differs};
ghost use Rattle.vol_mount.specs.Readers.{IsSameReader};
ghost use Rattle.volume.specs.Same.{IsSameVolume};
ghost use Rattle.copy_model.specs.Parts.{IsUpTo};
ghost use Rattle.vol_copy.specs.Ends.{TellsFiles, alike_of, CutsCopy, EndsFrom};
ghost use Rattle.vol_copy.specs.Stages.{Rests, With, CutsUnder, Leads, StopsFrom};
ghost use Rattle.vol_copy.specs.Seen.{Idles};
ghost use Rattle.vol_copy.specs.Turns.{HasTurned, IsAllUpTo, IsThrough};

use crate::beginning::{check_room, remove_working};
use crate::comparing::is_there;
use crate::placing::copy_file;
use crate::reading::{first_working, next_of};
use copy_model::{Copied, CopyErr};
use nor_core::{Nor, NorState};
use vol_mount::Reader;
use volume::Volume;

/// A record that has its copy now.
#[derive(Clone, Copy)]
struct Turn {
    /// The record's id.
    id: u16,
    /// Whether the copy was made anew.
    is_new: bool,
}

// Copies the source's record of the least id above one, where the target has no copy of it; None where there is no such record.
#[tactic(auto, using(nor_core::proofs::Cuts::reads_then, volume::proofs::Staying::same_then, crate::proofs::Readers::reader_then))]
fn copy_next<N: Nor, M: Nor>(
    from: &mut Reader<'_, N>,
    to: &mut Volume<'_, M>,
    after: u16,
    piece: &mut [u8],
) -> Result<Option<Turn>, CopyErr>
    requires piece { 4096 ≤ length piece.old }
    ensures reads { OnlyReads N.NorState from.old.nor.now from.new.nor.now }
    ensures same_from { IsSameReader from.old from.new }
    ensures same_to { IsSameVolume to.old to.new }
    ensures from_cause { result ≡ Err CopyErr.FromFault → Rose (N.faults from.old.nor.now) (N.faults from.new.nor.now) }
    ensures to_cause { result ≡ Err CopyErr.ToFault → Rose (M.faults to.old.nor.now) (M.faults to.new.nor.now) }
    ensures differs { (d : Differs) → result ≡ Err (CopyErr.Damaged d) → d.wanted ≢ d.found }
    ensures above { IfOk result (λ found. IfSome found (λ turn. after < turn.id)) }
    ensures cuts { CutsUnder (With N.NorState from.old (Rests (IsUpTo after))) to.old to.new }
    ensures done { IfOk result (λ found. Leads (With N.NorState from.old (Rests (IsUpTo after))) (Rests (HasTurned after found)) to.old to.new) }
    ensures stops { IfErr result (StopsFrom (With N.NorState from.old (Rests (IsUpTo after))) to.old to.new) }
    ensures idle { Idles (With N.NorState from.old (Rests (IsAllUpTo after))) to.old to.new }
{
    let found = next_of(from, after)?;
    match found {
        None => Ok(None),
        Some(stat) => {
            let id = stat.id;
            let there = is_there(from, to, &stat, piece)?;
            if there {
                return Ok(Some(Turn { id, is_new: false }));
            }
            copy_file(from, to, &stat, piece)?;
            Ok(Some(Turn { id, is_new: true }))
        }
    }
}

// Counts a turn.
fn count_turn(done: Copied, turn: Turn) -> Copied
    requires few { done.copied + done.kept < 65536 }
    ensures copied { result.copied ≡ done.copied + (if turn.is_new then 1 else 0) }
    ensures kept { result.kept ≡ done.kept + (if turn.is_new then 0 else 1) }
{
    if turn.is_new {
        Copied {
            copied: done.copied + 1,
            kept: done.kept,
        }
    } else {
        Copied {
            copied: done.copied,
            kept: done.kept + 1,
        }
    }
}

// Copies the source's records one after the other, in order of ids.
#[tactic(auto, using(nor_core::proofs::Cuts::reads_then, volume::proofs::Staying::same_then, crate::proofs::Readers::reader_then))]
fn copy_each<N: Nor, M: Nor>(
    from: &mut Reader<'_, N>,
    to: &mut Volume<'_, M>,
    piece: &mut [u8],
) -> Result<Copied, CopyErr>
    requires piece { 4096 ≤ length piece.old }
    ensures reads { OnlyReads N.NorState from.old.nor.now from.new.nor.now }
    ensures same_from { IsSameReader from.old from.new }
    ensures same_to { IsSameVolume to.old to.new }
    ensures from_cause { result ≡ Err CopyErr.FromFault → Rose (N.faults from.old.nor.now) (N.faults from.new.nor.now) }
    ensures to_cause { result ≡ Err CopyErr.ToFault → Rose (M.faults to.old.nor.now) (M.faults to.new.nor.now) }
    ensures differs { (d : Differs) → result ≡ Err (CopyErr.Damaged d) → d.wanted ≢ d.found }
    ensures cuts { CutsUnder (With N.NorState from.old (Rests (IsUpTo 0))) to.old to.new }
    ensures done { IfOk result (λ copied. Leads (With N.NorState from.old (Rests (IsUpTo 0))) (Rests (IsThrough copied)) to.old to.new) }
    ensures stops { IfErr result (StopsFrom (With N.NorState from.old (Rests (IsUpTo 0))) to.old to.new) }
    ensures idle { Idles (With N.NorState from.old (Rests (IsAllUpTo 0))) to.old to.new }
{
    let mut done = Copied { copied: 0, kept: 0 };
    let mut after = 0;
    'records: while let Some(turn) = copy_next(from, to, after, piece)? {
        after = turn.id;
        done = count_turn(done, turn);
    }
    Ok(done)
}

/// Copies the files of a volume onto another that stands beside it, in order of ids, and answers how many were copied, and how many were there
/// already. Each is written under a working name, the one byte 1, and gets its own once it is whole, in the place of the target's file of that
/// name. The target's other files stay. Refused, in this order: a target that has no room as it is (`Full`), a source's file
/// of the working name (`BadName`); and `Full` where there is no room for the next step: the files before it are copied then, and the working
/// file is gone. `piece` are at least 4,096 bytes for work.
#[tactic(auto, using(nor_core::proofs::Cuts::reads_then, volume::proofs::Staying::same_then, crate::proofs::Readers::reader_then))]
pub fn copy_all<N: Nor, M: Nor>(
    from: &mut Reader<'_, N>,
    to: &mut Volume<'_, M>,
    piece: &mut [u8],
) -> Result<Copied, CopyErr>
    requires piece { 4096 ≤ length piece.old }
    ensures reads { OnlyReads N.NorState from.old.nor.now from.new.nor.now }
    ensures same_from { IsSameReader from.old from.new }
    ensures same_to { IsSameVolume to.old to.new }
    ensures from_cause { result ≡ Err CopyErr.FromFault → Rose (N.faults from.old.nor.now) (N.faults from.new.nor.now) }
    ensures to_cause { result ≡ Err CopyErr.ToFault → Rose (M.faults to.old.nor.now) (M.faults to.new.nor.now) }
    ensures differs { (d : Differs) → result ≡ Err (CopyErr.Damaged d) → d.wanted ≢ d.found }
    ensures cuts { CutsCopy (TellsFiles N.NorState from.old) (alike_of from.old.geometry to.old.geometry) to.old to.new }
    ensures ends { (source : List File) → TellsFiles N.NorState from.old source →
        EndsFrom (alike_of from.old.geometry to.old.geometry) source to.old to.new result }
{
    check_room(to)?;
    match first_working(from)? {
        Some(at) => Err(CopyErr::BadName { at }),
        None => {
            remove_working(to)?;
            copy_each(from, to, piece)
        }
    }
}

// Records and bytes of the source.
ghost use Rattle.std.specs.Prelude.{◌≡◌, ◌+◌, ◌<◌, ◌≤◌, ◌⊎◌, List, length, Some, None, Ok, Err, OnOk, IfOk, IfErr, position, min};
ghost use Rattle.std.specs.Option.{option_map, IfSome};
ghost use Rattle.nor_core.specs.Count.{Rose};
ghost use Rattle.nor_core.specs.Device.{OnlyReads};
ghost use Rattle.table_model.specs.Table.{File, same_text, file_of, file_above};
ghost use Rattle.table_model.specs.Files.{stat_of, bytes_at};
ghost use Rattle.vol_mount.specs.Readers.{IsSameReader};
ghost use Rattle.copy_model.specs.Copying.{working};
ghost use Rattle.vol_copy.specs.Ends.{TellsFiles};

use crate::asking::WORKING;
use copy_model::CopyErr;
use nor_core::{Nor, NorState};
use table_model::{FsErr, Stat};
use vol_mount::Reader;

/// The record of the source's file of the least id above one, if there is one.
pub(crate) fn next_of<N: Nor>(from: &mut Reader<'_, N>, after: u16) -> Result<Option<Stat>, CopyErr>
    ensures reads { OnlyReads N.NorState from.old.nor.now from.new.nor.now }
    ensures same { IsSameReader from.old from.new }
    ensures cause { IfErr result (λ why. Rose (N.faults from.old.nor.now) (N.faults from.new.nor.now)) }
    ensures only { IfErr result (λ why. why ≡ CopyErr.FromFault) }
    ensures above { IfOk result (λ found. IfSome found (λ stat. after < stat.id)) }
    ensures told { (source : List File) → TellsFiles N.NorState from.old source → IfOk result (λ found. found ≡ option_map stat_of (file_above after source)) }
{
    match from.next(after) {
        Ok(found) => Ok(found),
        Err(_) => Err(CopyErr::FromFault),
    }
}

/// Fills these bytes with those of the source's file of an id from a place on.
pub(crate) fn read_of<N: Nor>(
    from: &mut Reader<'_, N>,
    id: u16,
    at: u32,
    into: &mut [u8],
) -> Result<(), CopyErr>
    ensures size { length into.new ≡ length into.old }
    ensures reads { OnlyReads N.NorState from.old.nor.now from.new.nor.now }
    ensures same { IsSameReader from.old from.new }
    ensures cause { result ≡ Err CopyErr.FromFault → Rose (N.faults from.old.nor.now) (N.faults from.new.nor.now) }
    ensures only { IfErr result (λ why. (why ≡ CopyErr.FromFault) ⊎ (why ≡ CopyErr.Refused)) }
    ensures told { (source : List File) (f : File) → TellsFiles N.NorState from.old source → file_of id source ≡ Some f →
        OnOk result (into.new ≡ bytes_at (length into.old) at f) }
    ensures fails { (source : List File) (f : File) → TellsFiles N.NorState from.old source → file_of id source ≡ Some f →
        at + length into.old ≤ length f.bytes → IfErr result (λ why. why ≡ CopyErr.FromFault) }
{
    match from.read_at(id, at, into) {
        Ok(count) => {
            if count as usize == into.len() {
                Ok(())
            } else {
                Err(CopyErr::Refused)
            }
        }
        Err(FsErr::DeviceFault) => Err(CopyErr::FromFault),
        Err(_) => Err(CopyErr::Refused),
    }
}

// Whether a record has the working name.
fn is_working(stat: &Stat) -> bool
    ensures { result ≡ same_text stat.now.name working }
{
    stat.name.as_slice() == WORKING.as_slice()
}

/// The place of the source's file that has the working name, if one has it, in order of ids from 0.
#[tactic(auto, using(nor_core::proofs::Cuts::reads_then, crate::proofs::Readers::reader_then))]
pub(crate) fn first_working<N: Nor>(from: &mut Reader<'_, N>) -> Result<Option<u32>, CopyErr>
    ensures reads { OnlyReads N.NorState from.old.nor.now from.new.nor.now }
    ensures same { IsSameReader from.old from.new }
    ensures cause { IfErr result (λ why. Rose (N.faults from.old.nor.now) (N.faults from.new.nor.now)) }
    ensures only { IfErr result (λ why. why ≡ CopyErr.FromFault) }
    ensures told { (source : List File) → TellsFiles N.NorState from.old source →
        IfOk result (λ found. found ≡ position (λ f. same_text f.name working) source) }
{
    let mut at = 0;
    let mut after = 0;
    'records: while let Some(stat) = next_of(from, after)? {
        if is_working(&stat) {
            return Ok(Some(at));
        }
        after = stat.id;
        at += 1;
    }
    Ok(None)
}

/// The length of the next piece: so much as is left, and at most `most`.
pub(crate) fn piece_length(left: u32, most: u32) -> u32
    requires left { 0 < left }
    requires most { 0 < most }
    ensures some { 0 < result }
    ensures left { result ≤ left }
    ensures most { result ≤ most }
    ensures whole { (result ≡ most) ⊎ (result ≡ left) }
    ensures least { result ≡ min left most }
{
    if left < most { left } else { most }
}

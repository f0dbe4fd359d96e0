// Whether a name of the target has a copy of a record already.
ghost use Rattle.std.specs.Prelude.{◌≡◌, ◌≢◌, ◌+◌, ◌≤◌, ◌<◌, ◌^◌, length, IfOk, IfErr, Err};
ghost use Rattle.nor_core.specs.Count.{Rose};
ghost use Rattle.nor_core.specs.Device.{OnlyReads};
ghost use Rattle.table_model.specs.declared.error.Differ.{Differ as Differs};
ghost use Rattle.vol_mount.specs.Readers.{IsSameReader};
ghost use Rattle.volume.specs.Same.{IsSameVolume};
ghost use Rattle.copy_model.specs.Parts.{IsNext};
ghost use Rattle.vol_copy.specs.Stages.{Rests, Works, With};
ghost use Rattle.vol_copy.specs.Seen.{may_be, IsSeen, IsLike, IsLooking, IsLooked, IsRead, Looked, LooksUntil};

use crate::asking::{open_on, perform, read_on, stat_on};
use crate::reading::{piece_length, read_of};
use copy_model::CopyErr;
use nor_core::{Nor, NorState};
use table_model::{Call, Stat};
use vol_mount::Reader;
use volume::Volume;

/// Flags of an opening to read.
const READ: u32 = 8;

/// Bytes of each of two files that are compared at a time.
const HALF: u32 = 2048;

// Whether so many bytes of a record and of the file under the descriptor are the same, from a place on.
#[tactic(auto, using(nor_core::proofs::Cuts::reads_then, volume::proofs::Staying::same_then, crate::proofs::Readers::reader_then))]
fn same_part<N: Nor, M: Nor>(
    from: &mut Reader<'_, N>,
    to: &mut Volume<'_, M>,
    fd: u16,
    stat: &Stat,
    at: u32,
    ours: &mut [u8],
    theirs: &mut [u8],
) -> Result<bool, CopyErr>
    requires few { length ours.old < 2 ^ 32 }
    requires as_many { length theirs.old ≡ length ours.old }
    requires within { at + length ours.old ≤ stat.now.size }
    ensures reads { OnlyReads N.NorState from.old.nor.now from.new.nor.now }
    ensures same_from { IsSameReader from.old from.new }
    ensures same_to { IsSameVolume to.old to.new }
    ensures from_cause { result ≡ Err CopyErr.FromFault → Rose (N.faults from.old.nor.now) (N.faults from.new.nor.now) }
    ensures to_cause { result ≡ Err CopyErr.ToFault → Rose (M.faults to.old.nor.now) (M.faults to.new.nor.now) }
    ensures differs { (d : Differs) → result ≡ Err (CopyErr.Damaged d) → d.wanted ≢ d.found }
    ensures done { IfOk result (λ same. Looked (With N.NorState from.old (Works fd 8 (IsLooking stat.now at)))
        (Works fd 8 (IsRead stat.now (at + length ours.old) same)) to.old to.new) }
    ensures stops { IfErr result (LooksUntil (With N.NorState from.old (Works fd 8 (IsLooking stat.now at))) to.old to.new) }
{
    read_of(from, stat.id, at, ours)?;
    read_on(to, fd, theirs)?;
    Ok(*ours == *theirs)
}

// Whether a record and the file under the descriptor, which has as many bytes, have the same.
#[tactic(auto, using(nor_core::proofs::Cuts::reads_then, volume::proofs::Staying::same_then, crate::proofs::Readers::reader_then))]
fn same_bytes<N: Nor, M: Nor>(
    from: &mut Reader<'_, N>,
    to: &mut Volume<'_, M>,
    fd: u16,
    stat: &Stat,
    piece: &mut [u8],
) -> Result<bool, CopyErr>
    requires piece { 4096 ≤ length piece.old }
    ensures reads { OnlyReads N.NorState from.old.nor.now from.new.nor.now }
    ensures same_from { IsSameReader from.old from.new }
    ensures same_to { IsSameVolume to.old to.new }
    ensures from_cause { result ≡ Err CopyErr.FromFault → Rose (N.faults from.old.nor.now) (N.faults from.new.nor.now) }
    ensures to_cause { result ≡ Err CopyErr.ToFault → Rose (M.faults to.old.nor.now) (M.faults to.new.nor.now) }
    ensures differs { (d : Differs) → result ≡ Err (CopyErr.Damaged d) → d.wanted ≢ d.found }
    ensures done { IfOk result
        (λ same. Looked (With N.NorState from.old (Works fd 8 (IsLooking stat.now 0))) (Works fd 8 (IsLooked stat.now same)) to.old to.new) }
    ensures stops { IfErr result (LooksUntil (With N.NorState from.old (Works fd 8 (IsLooking stat.now 0))) to.old to.new) }
{
    let (ours, theirs) = piece.split_at_mut(HALF as usize);
    let mut at = 0;
    while at < stat.size {
        let count = piece_length(stat.size - at, HALF);
        let same = same_part(
            from,
            to,
            fd,
            stat,
            at,
            &mut ours[..count as usize],
            &mut theirs[..count as usize],
        )?;
        if same {
            at += count;
        } else {
            return Ok(false);
        }
    }
    Ok(true)
}

// Whether the file of a record's name has its bytes, where it has as many.
#[tactic(auto, using(nor_core::proofs::Cuts::reads_then, volume::proofs::Staying::same_then, crate::proofs::Readers::reader_then))]
fn has_bytes<N: Nor, M: Nor>(
    from: &mut Reader<'_, N>,
    to: &mut Volume<'_, M>,
    stat: &Stat,
    piece: &mut [u8],
) -> Result<bool, CopyErr>
    requires piece { 4096 ≤ length piece.old }
    ensures reads { OnlyReads N.NorState from.old.nor.now from.new.nor.now }
    ensures same_from { IsSameReader from.old from.new }
    ensures same_to { IsSameVolume to.old to.new }
    ensures from_cause { result ≡ Err CopyErr.FromFault → Rose (N.faults from.old.nor.now) (N.faults from.new.nor.now) }
    ensures to_cause { result ≡ Err CopyErr.ToFault → Rose (M.faults to.old.nor.now) (M.faults to.new.nor.now) }
    ensures differs { (d : Differs) → result ≡ Err (CopyErr.Damaged d) → d.wanted ≢ d.found }
    ensures done { IfOk result (λ same. Looked (With N.NorState from.old (Rests (IsLike stat.now))) (Rests (IsSeen stat.now same)) to.old to.new) }
    ensures stops { IfErr result (LooksUntil (With N.NorState from.old (Rests (IsLike stat.now))) to.old to.new) }
{
    match open_on(to, stat.name.as_slice(), READ)? {
        Some(fd) => {
            let same = same_bytes(from, to, fd, stat, piece)?;
            perform(to, &Call::Close { fd })?;
            Ok(same)
        }
        None => Err(CopyErr::Refused),
    }
}

// Whether a file may be a copy of a record, by what is told of both.
fn may_be_copy(stat: &Stat, there: &Stat) -> bool
    ensures { result ≡ may_be stat.now there.now }
{
    there.kind == 1
        && there.size == stat.size
        && (there.meta.as_slice().len() != stat.meta.as_slice().len()
            || there.meta.as_slice() == stat.meta.as_slice())
}

/// Whether the target has a copy of a record under its name: a file of type 1 with the record's bytes and, where both volumes have as many,
/// its meta bytes.
#[tactic(auto, using(nor_core::proofs::Cuts::reads_then, volume::proofs::Staying::same_then, crate::proofs::Readers::reader_then))]
pub(crate) fn is_there<N: Nor, M: Nor>(
    from: &mut Reader<'_, N>,
    to: &mut Volume<'_, M>,
    stat: &Stat,
    piece: &mut [u8],
) -> Result<bool, CopyErr>
    requires piece { 4096 ≤ length piece.old }
    ensures reads { OnlyReads N.NorState from.old.nor.now from.new.nor.now }
    ensures same_from { IsSameReader from.old from.new }
    ensures same_to { IsSameVolume to.old to.new }
    ensures from_cause { result ≡ Err CopyErr.FromFault → Rose (N.faults from.old.nor.now) (N.faults from.new.nor.now) }
    ensures to_cause { result ≡ Err CopyErr.ToFault → Rose (M.faults to.old.nor.now) (M.faults to.new.nor.now) }
    ensures differs { (d : Differs) → result ≡ Err (CopyErr.Damaged d) → d.wanted ≢ d.found }
    ensures done { IfOk result (λ copy. Looked (With N.NorState from.old (Rests (IsNext stat.now))) (Rests (IsSeen stat.now copy)) to.old to.new) }
    ensures stops { IfErr result (LooksUntil (With N.NorState from.old (Rests (IsNext stat.now))) to.old to.new) }
{
    match stat_on(to, stat.name.as_slice())? {
        Some(there) => {
            if may_be_copy(stat, &there) {
                has_bytes(from, to, stat, piece)
            } else {
                Ok(false)
            }
        }
        None => Ok(false),
    }
}

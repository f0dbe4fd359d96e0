// The bytes of a record, under the working name.
ghost use Rattle.std.specs.Prelude.{◌≡◌, ◌≢◌, ◌+◌, ◌-◌, ◌<◌, ◌≤◌, length, true, false, OnOk, IfOk, IfErr, Ok, Err};
ghost use Rattle.nor_core.specs.Count.{Rose};
ghost use Rattle.nor_core.specs.Device.{OnlyReads};
ghost use Rattle.table_model.specs.declared.error.Differ.{Differ as Differs};
ghost use Rattle.vol_mount.specs.Readers.{IsSameReader};
ghost use Rattle.volume.specs.Same.{IsSameVolume};
ghost use Rattle.copy_model.specs.Parts.{IsMissing, IsFilling, IsWhole};
ghost use Rattle.vol_copy.specs.Stages.{Rests, Works, LacksRoom, LacksPage, PageWent, With, CutsUnder, Leads, StopsFrom, IsPage};

use crate::asking::{WORKING, open_on, perform, write_on};
use crate::giving_up::give_up;
use crate::reading::{piece_length, read_of};
use copy_model::CopyErr;
use nor_core::{Nor, NorState};
use page_layout::index_pages;
use table_model::{Call, Stat};
use vol_mount::Reader;
use volume::Volume;

/// Flags of an opening: the file is made where it is missing (4), and may be written (16), and no byte waits (32).
const NEW: u32 = 52;

// Reads a page of the record's bytes, and writes it through the descriptor of the working file; whether there was room.
#[tactic(auto, using(volume::proofs::Staying::same_then))]
fn put_page<N: Nor, M: Nor>(
    from: &mut Reader<'_, N>,
    to: &mut Volume<'_, M>,
    fd: u16,
    stat: &Stat,
    at: u32,
    piece: &mut [u8],
) -> Result<bool, CopyErr>
    requires page { IsPage to.old.geometry stat.now at (length piece.old) }
    ensures reads { OnlyReads N.NorState from.old.nor.now from.new.nor.now }
    ensures same_from { IsSameReader from.old from.new }
    ensures same_to { IsSameVolume to.old to.new }
    ensures from_cause { result ≡ Err CopyErr.FromFault → Rose (N.faults from.old.nor.now) (N.faults from.new.nor.now) }
    ensures to_cause { result ≡ Err CopyErr.ToFault → Rose (M.faults to.old.nor.now) (M.faults to.new.nor.now) }
    ensures differs { (d : Differs) → result ≡ Err (CopyErr.Damaged d) → d.wanted ≢ d.found }
    ensures cuts { CutsUnder (With N.NorState from.old (Works fd 52 (IsFilling stat.now at))) to.old to.new }
    ensures wrote { IfOk result
        (λ fits. Leads (With N.NorState from.old (Works fd 52 (IsFilling stat.now at))) (PageWent fd stat.now at (length piece.old) fits) to.old to.new) }
    ensures stops { IfErr result (StopsFrom (With N.NorState from.old (Works fd 52 (IsFilling stat.now at))) to.old to.new) }
{
    read_of(from, stat.id, at, piece)?;
    write_on(to, fd, piece)
}

// Writes the record's bytes page by page through the descriptor of the working file, as long as there is room, and answers how many are
// written.
#[tactic(auto, using(volume::proofs::Staying::same_then))]
fn put_bytes<N: Nor, M: Nor>(
    from: &mut Reader<'_, N>,
    to: &mut Volume<'_, M>,
    fd: u16,
    stat: &Stat,
    piece: &mut [u8],
) -> Result<u32, CopyErr>
    requires piece { 4096 ≤ length piece.old }
    ensures reads { OnlyReads N.NorState from.old.nor.now from.new.nor.now }
    ensures same_from { IsSameReader from.old from.new }
    ensures same_to { IsSameVolume to.old to.new }
    ensures from_cause { result ≡ Err CopyErr.FromFault → Rose (N.faults from.old.nor.now) (N.faults from.new.nor.now) }
    ensures to_cause { result ≡ Err CopyErr.ToFault → Rose (M.faults to.old.nor.now) (M.faults to.new.nor.now) }
    ensures differs { (d : Differs) → result ≡ Err (CopyErr.Damaged d) → d.wanted ≢ d.found }
    ensures within { IfOk result (λ at. at ≤ stat.now.size) }
    ensures cuts { CutsUnder (With N.NorState from.old (Works fd 52 (IsFilling stat.now 0))) to.old to.new }
    ensures all { result ≡ Ok stat.now.size →
        Leads (With N.NorState from.old (Works fd 52 (IsFilling stat.now 0))) (Works fd 52 (IsFilling stat.now stat.now.size)) to.old to.new }
    ensures short { IfOk result
        (λ at. at < stat.now.size → Leads (With N.NorState from.old (Works fd 52 (IsFilling stat.now 0))) (LacksPage stat.now.size at) to.old to.new) }
    ensures stops { IfErr result (StopsFrom (With N.NorState from.old (Works fd 52 (IsFilling stat.now 0))) to.old to.new) }
{
    let page = to.geometry.page - 5;
    let mut at = 0;
    while at < stat.size {
        let count = piece_length(stat.size - at, page);
        if !put_page(from, to, fd, stat, at, &mut piece[..count as usize])? {
            return Ok(at);
        }
        at += count;
    }
    Ok(at)
}

// Why a copy stops that has no room for the data page behind so many bytes of a record.
fn stop_at<M: Nor>(to: &mut Volume<'_, M>, at: u32, size: u32) -> CopyErr
    requires within { at < size }
    ensures same { IsSameVolume to.old to.new }
    ensures cause { result ≡ CopyErr.ToFault → Rose (M.faults to.old.nor.now) (M.faults to.new.nor.now) }
    ensures differs { (d : Differs) → result ≡ CopyErr.Damaged d → d.wanted ≢ d.found }
    ensures source { result ≡ CopyErr.FromFault → ⊥ }
    ensures cuts { CutsUnder (LacksPage size at) to.old to.new }
    ensures stops { StopsFrom (LacksPage size at) to.old to.new result }
{
    let g = to.geometry;
    let end = at + piece_length(size - at, g.page - 5);
    let more = index_pages(&g, end).saturating_sub(index_pages(&g, at));
    give_up(to, more, 1)
}

// Writes all bytes of a record through the descriptor of the working file, and closes it.
#[tactic(auto, using(volume::proofs::Staying::same_then))]
fn fill_open<N: Nor, M: Nor>(
    from: &mut Reader<'_, N>,
    to: &mut Volume<'_, M>,
    fd: u16,
    stat: &Stat,
    piece: &mut [u8],
) -> Result<(), CopyErr>
    requires piece { 4096 ≤ length piece.old }
    ensures reads { OnlyReads N.NorState from.old.nor.now from.new.nor.now }
    ensures same_from { IsSameReader from.old from.new }
    ensures same_to { IsSameVolume to.old to.new }
    ensures from_cause { result ≡ Err CopyErr.FromFault → Rose (N.faults from.old.nor.now) (N.faults from.new.nor.now) }
    ensures to_cause { result ≡ Err CopyErr.ToFault → Rose (M.faults to.old.nor.now) (M.faults to.new.nor.now) }
    ensures differs { (d : Differs) → result ≡ Err (CopyErr.Damaged d) → d.wanted ≢ d.found }
    ensures cuts { CutsUnder (With N.NorState from.old (Works fd 52 (IsFilling stat.now 0))) to.old to.new }
    ensures done { OnOk result (Leads (With N.NorState from.old (Works fd 52 (IsFilling stat.now 0))) (Rests (IsWhole stat.now)) to.old to.new) }
    ensures stops { IfErr result (StopsFrom (With N.NorState from.old (Works fd 52 (IsFilling stat.now 0))) to.old to.new) }
{
    let at = put_bytes(from, to, fd, stat, piece)?;
    if at < stat.size {
        return Err(stop_at(to, at, stat.size));
    }
    perform(to, &Call::Close { fd })
}

/// Makes the working file with all bytes of a record.
#[tactic(auto, using(volume::proofs::Staying::same_then))]
pub(crate) fn fill<N: Nor, M: Nor>(
    from: &mut Reader<'_, N>,
    to: &mut Volume<'_, M>,
    stat: &Stat,
    piece: &mut [u8],
) -> Result<(), CopyErr>
    requires piece { 4096 ≤ length piece.old }
    ensures reads { OnlyReads N.NorState from.old.nor.now from.new.nor.now }
    ensures same_from { IsSameReader from.old from.new }
    ensures same_to { IsSameVolume to.old to.new }
    ensures from_cause { result ≡ Err CopyErr.FromFault → Rose (N.faults from.old.nor.now) (N.faults from.new.nor.now) }
    ensures to_cause { result ≡ Err CopyErr.ToFault → Rose (M.faults to.old.nor.now) (M.faults to.new.nor.now) }
    ensures differs { (d : Differs) → result ≡ Err (CopyErr.Damaged d) → d.wanted ≢ d.found }
    ensures cuts { CutsUnder (With N.NorState from.old (Rests (IsMissing stat.now))) to.old to.new }
    ensures done { OnOk result (Leads (With N.NorState from.old (Rests (IsMissing stat.now))) (Rests (IsWhole stat.now)) to.old to.new) }
    ensures stops { IfErr result (StopsFrom (With N.NorState from.old (Rests (IsMissing stat.now))) to.old to.new) }
{
    match open_on(to, &WORKING, NEW)? {
        Some(fd) => fill_open(from, to, fd, stat, piece),
        None => Err(give_up(to, 1, 0)),
    }
}

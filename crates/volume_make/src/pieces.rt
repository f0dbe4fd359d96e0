// The bytes of one file, a piece at a time.
ghost use Rattle.std.specs.Prelude.{◌≡◌, ◌+◌, ◌<◌, ◌≤◌, length, OnOk, IfErr, Err};
ghost use Rattle.nor_core.specs.Count.{Rose};
ghost use Rattle.folder_core.specs.Files.{size_at};
ghost use Rattle.folder_core.specs.Puts.{Kept};
ghost use Rattle.volume_run.specs.Ready.{IsMoved};
ghost use Rattle.volume_make.specs.Making.{IsApart, WritesFrom, StopsWriting};

use crate::PutErr;
use crate::performing::perform;
use folder_core::{Folder, FolderState};
use nor_core::{Failed, Nor, NorState};
use table_model::Call;
use volume::Volume;
use volume_run::Stop;

// Reads a piece of file `i` of a folder from a place on, and writes it through the descriptor of the new file.
fn put_piece<N: Nor, F: Folder>(
    volume: &mut Volume<'_, N>,
    fd: u16,
    folder: &mut F,
    i: u32,
    at: u64,
    piece: &mut [u8],
) -> Result<(), PutErr>
    requires inside { i < length (F.entries folder.old) }
    requires within { at + length piece.old ≤ size_at (F.entries folder.old) i }
    requires some { 0 < length piece.old }
    ensures moved { IsMoved volume.old volume.new }
    ensures kept { Kept F.FolderState folder.old folder.new }
    ensures cause { result ≡ Err (PutErr.Stopped Stop.Fault) → Rose (N.faults volume.old.nor.now) (N.faults volume.new.nor.now) }
    ensures apart { IfErr result IsApart }
    ensures folder_cause { result ≡ Err PutErr.Folder → Rose (F.faults folder.old) (F.faults folder.new) }
    ensures puts { fd ≡ 1 → OnOk result (WritesFrom F.FolderState i at (at + length piece.old) volume.old volume.new folder.old folder.new) }
    ensures stops { fd ≡ 1 → IfErr result (StopsWriting F.FolderState i at volume.old folder.old) }
{
    if let Err(Failed) = folder.read(i, at, piece) {
        return Err(PutErr::Folder);
    }
    perform(volume, &Call::Write { fd, bytes: piece })
}

// How many bytes of so many fit into a piece of that length.
fn piece_length(left: u64, most: usize) -> usize
    requires left { 0 < left }
    requires most { 0 < most }
    ensures some { 0 < result }
    ensures left { result ≤ left }
    ensures most { result ≤ most }
{
    if left < most as u64 {
        left as usize
    } else {
        most
    }
}

/// Writes all bytes of file `i` of a folder through the descriptor of the new file, in pieces as long as the lent bytes.
#[tactic(auto, using(volume_run::proofs::Moving::moved_then, folder_plan::proofs::Keeping::kept_then))]
pub(crate) fn put_pieces<N: Nor, F: Folder>(
    volume: &mut Volume<'_, N>,
    fd: u16,
    folder: &mut F,
    i: u32,
    size: u64,
    lent: &mut [u8],
) -> Result<(), PutErr>
    requires inside { i < length (F.entries folder.old) }
    requires size { size ≡ size_at (F.entries folder.old) i }
    requires room { 0 < length lent.old }
    ensures moved { IsMoved volume.old volume.new }
    ensures kept { Kept F.FolderState folder.old folder.new }
    ensures cause { result ≡ Err (PutErr.Stopped Stop.Fault) → Rose (N.faults volume.old.nor.now) (N.faults volume.new.nor.now) }
    ensures apart { IfErr result IsApart }
    ensures folder_cause { result ≡ Err PutErr.Folder → Rose (F.faults folder.old) (F.faults folder.new) }
    ensures puts { fd ≡ 1 → OnOk result (WritesFrom F.FolderState i 0 size volume.old volume.new folder.old folder.new) }
    ensures stops { fd ≡ 1 → IfErr result (StopsWriting F.FolderState i 0 volume.old folder.old) }
{
    let mut at = 0;
    while at < size {
        let count = piece_length(size - at, lent.len());
        put_piece(volume, fd, folder, i, at, &mut lent[..count])?;
        at += count as u64;
    }
    Ok(())
}

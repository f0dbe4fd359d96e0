// Putting the bytes of a file into a folder.
ghost use Rattle.std.specs.Prelude.{◌≡◌, ◌≢◌, ◌+◌, ◌<◌, ◌≤◌, length, IfOk, IfErr, IsErrOf, OnOk};
ghost use Rattle.geometry.specs.Numbers.{page_count};
ghost use Rattle.nor_core.specs.Count.{Rose};
ghost use Rattle.table_model.specs.Table.{File};
ghost use Rattle.table_model.specs.Files.{bytes_at};
ghost use Rattle.folder_core.specs.Files.{Named};
ghost use Rattle.flash_view.specs.Same.{OnlyLooks};
ghost use Rattle.file_read.specs.Whole.{IsFileAt};
ghost use Rattle.image_tool.specs.Extracting.{IsApart};
ghost use Rattle.image_tool.specs.Pieces.{PutsPiece, PutsBytes};
ghost use Rattle.image_tool.specs.Putting.{FolderGoes};

use crate::error::ExtractErr;
use file_read::read_from;
use flash_view::{StepErr, View};
use folder_core::{Folder, FolderState};
use nor_core::{Failed, Nor, NorState};
use table_model::Stat;

// Puts bytes of a file into a folder, from a place on as many as there are and fit into the lent piece, and answers the
// place behind them.
fn put_piece<N: Nor, F: Folder>(
    v: &mut View<'_, N>,
    header: u16,
    stat: &Stat,
    at: u32,
    folder: &mut F,
    piece: &mut [u8],
) -> Result<u32, ExtractErr>
    requires header { header < page_count v.old.geometry }
    requires there { at ≢ 0 → Named stat.now.name (F.entries folder.old) }
    ensures cause { IsErrOf result ExtractErr.BoardFault → Rose (N.faults v.old.nor.now) (N.faults v.new.nor.now) }
    ensures apart { IfErr result IsApart }
    ensures folder_cause { IsErrOf result ExtractErr.FolderFault → Rose (F.faults folder.old) (F.faults folder.new) }
    ensures looks { OnlyLooks v.old v.new }
    ensures goes { FolderGoes F.FolderState folder.old folder.new }
    ensures within { IfOk result (λ end. (at ≤ end) × (end ≤ at + length piece.old)) }
    ensures there { OnOk result (Named stat.now.name (F.entries folder.new)) }
    ensures told { N.tells v.old.nor.now → (f : File) → IsFileAt v.old.geometry (N.bytes v.old.nor.now) stat.now.id header f →
        PutsPiece F.FolderState stat.now.name at (bytes_at (length piece.old) at f) folder.old folder.new result }
{
    let count = match read_from(v, stat.id, header, at, piece) {
        Ok(count) => count,
        Err(StepErr::DeviceFault) => return Err(ExtractErr::BoardFault),
        Err(StepErr::Damaged(differ)) => return Err(ExtractErr::Damaged(differ)),
    };
    match folder.put(stat.name.as_slice(), at == 0, &piece[..count as usize]) {
        Ok(()) => Ok(at + count),
        Err(Failed) => Err(ExtractErr::FolderFault),
    }
}

/// Puts a file into a folder, of which the header page and the record are given: its bytes go there in pieces as long as
/// the lent one, the first of which is put of an empty file too.
pub(crate) fn put_bytes<N: Nor, F: Folder>(
    v: &mut View<'_, N>,
    header: u16,
    stat: &Stat,
    folder: &mut F,
    piece: &mut [u8],
) -> Result<(), ExtractErr>
    requires header { header < page_count v.old.geometry }
    requires room { 0 < length piece.old }
    ensures cause { IsErrOf result ExtractErr.BoardFault → Rose (N.faults v.old.nor.now) (N.faults v.new.nor.now) }
    ensures apart { IfErr result IsApart }
    ensures folder_cause { IsErrOf result ExtractErr.FolderFault → Rose (F.faults folder.old) (F.faults folder.new) }
    ensures looks { OnlyLooks v.old v.new }
    ensures goes { FolderGoes F.FolderState folder.old folder.new }
    ensures told { N.tells v.old.nor.now → (f : File) → IsFileAt v.old.geometry (N.bytes v.old.nor.now) stat.now.id header f →
        PutsBytes F.FolderState stat.now.name f.bytes folder.old folder.new result }
{
    let mut at = 0;
    'pieces: loop {
        let end = put_piece(v, header, stat, at, folder, piece)?;
        if ((end - at) as usize) < piece.len() {
            return Ok(());
        }
        at = end;
    }
}

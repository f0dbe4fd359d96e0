ghost use Rattle.std.specs.Prelude.{◌≡◌, ◌+◌, ◌<◌, ◌≤◌, length, IfOk, OnOk, IfErr, Err};
ghost use Rattle.nor_core.specs.Count.{Rose};
ghost use Rattle.folder_core.specs.Files.{name_at, size_at};
ghost use Rattle.folder_core.specs.Puts.{Kept};
ghost use Rattle.volume_run.specs.Ready.{IsMoved};
ghost use Rattle.volume_make.specs.Making.{IsApart, IsMadeFrom, OnlyFailsFrom, PutsFrom, FailsFrom, BeginsFrom, StopsBeginning, TellsFrom, StopsTelling};

use crate::PutErr;
use crate::performing::perform;
use crate::pieces::put_pieces;
use folder_core::{Folder, FolderState};
use folder_plan::name_of;
use nor_core::{Nor, NorState};
use table_model::{Call, Info};
use volume::Volume;
use volume_run::{Stop, open, stop_of};

/// Flags of an opening: the file is made where it is missing (4), and may be written (16).
const NEW: u32 = 20;

// Opens a new file.
fn open_new<N: Nor>(volume: &mut Volume<'_, N>, name: &[u8]) -> Result<u16, PutErr>
    ensures moved { IsMoved volume.old volume.new }
    ensures cause { result ≡ Err (PutErr.Stopped Stop.Fault) → Rose (N.faults volume.old.nor.now) (N.faults volume.new.nor.now) }
    ensures apart { IfErr result IsApart }
    ensures folder { result ≡ Err PutErr.Folder → ⊥ }
    ensures begins { IfOk result (BeginsFrom name.now volume.old volume.new) }
    ensures stops { IfErr result (StopsBeginning name.now volume.old) }
{
    match open(volume, name, NEW)? {
        Some(fd) => Ok(fd),
        None => Err(PutErr::Refused),
    }
}

// Makes a file of file `i` of a folder, of that name and size.
#[tactic(auto, using(volume_run::proofs::Moving::moved_then, folder_plan::proofs::Keeping::kept_then))]
fn write_file<N: Nor, F: Folder>(
    volume: &mut Volume<'_, N>,
    folder: &mut F,
    i: u32,
    name: &[u8],
    size: u64,
    lent: &mut [u8],
) -> Result<(), PutErr>
    requires inside { i < length (F.entries folder.old) }
    requires size { size ≡ size_at (F.entries folder.old) i }
    requires room { 0 < length lent.old }
    ensures moved { IsMoved volume.old volume.new }
    ensures kept { Kept F.FolderState folder.old folder.new }
    ensures cause { result ≡ Err (PutErr.Stopped Stop.Fault) → Rose (N.faults volume.old.nor.now) (N.faults volume.new.nor.now) }
    ensures apart { IfErr result IsApart }
    ensures folder_cause { result ≡ Err PutErr.Folder → Rose (F.faults folder.old) (F.faults folder.new) }
    ensures puts { name.now ≡ name_at (F.entries folder.old) i → OnOk result (PutsFrom F.FolderState i (i + 1) volume.old volume.new folder.old folder.new) }
    ensures stops { name.now ≡ name_at (F.entries folder.old) i → IfErr result (FailsFrom F.FolderState i volume.old folder.old) }
{
    let fd = open_new(volume, name)?;
    put_pieces(volume, fd, folder, i, size, lent)?;
    perform(volume, &Call::Close { fd })
}

// Makes a file of file `i` of a folder.
#[tactic(auto, using(volume_run::proofs::Moving::moved_then, folder_plan::proofs::Keeping::kept_then))]
fn put_file<N: Nor, F: Folder>(
    volume: &mut Volume<'_, N>,
    folder: &mut F,
    i: u32,
    lent: &mut [u8],
) -> Result<(), PutErr>
    requires inside { i < length (F.entries folder.old) }
    requires room { 0 < length lent.old }
    ensures moved { IsMoved volume.old volume.new }
    ensures kept { Kept F.FolderState folder.old folder.new }
    ensures cause { result ≡ Err (PutErr.Stopped Stop.Fault) → Rose (N.faults volume.old.nor.now) (N.faults volume.new.nor.now) }
    ensures apart { IfErr result IsApart }
    ensures folder_cause { result ≡ Err PutErr.Folder → Rose (F.faults folder.old) (F.faults folder.new) }
    ensures puts { OnOk result (PutsFrom F.FolderState i (i + 1) volume.old volume.new folder.old folder.new) }
    ensures stops { IfErr result (FailsFrom F.FolderState i volume.old folder.old) }
{
    let Ok(found) = name_of(folder, i) else {
        return Err(PutErr::Folder);
    };
    let Ok(size) = folder.size(i) else {
        return Err(PutErr::Folder);
    };
    match found {
        Some(name) => write_file(volume, folder, i, name.as_slice(), size, lent),
        None => Err(PutErr::Refused),
    }
}

// Makes files of so many files of a folder, in its order.
#[tactic(auto, using(volume_run::proofs::Moving::moved_then, folder_plan::proofs::Keeping::kept_then))]
fn put_each<N: Nor, F: Folder>(
    volume: &mut Volume<'_, N>,
    folder: &mut F,
    count: u32,
    lent: &mut [u8],
) -> Result<(), PutErr>
    requires count { count ≤ length (F.entries folder.old) }
    requires room { 0 < length lent.old }
    ensures moved { IsMoved volume.old volume.new }
    ensures kept { Kept F.FolderState folder.old folder.new }
    ensures cause { result ≡ Err (PutErr.Stopped Stop.Fault) → Rose (N.faults volume.old.nor.now) (N.faults volume.new.nor.now) }
    ensures apart { IfErr result IsApart }
    ensures folder_cause { result ≡ Err PutErr.Folder → Rose (F.faults folder.old) (F.faults folder.new) }
    ensures puts { OnOk result (PutsFrom F.FolderState 0 count volume.old volume.new folder.old folder.new) }
    ensures stops { IfErr result (FailsFrom F.FolderState 0 volume.old folder.old) }
{
    for i in 0..count {
        put_file(volume, folder, i, lent)?;
    }
    Ok(())
}

// How full the volume is.
fn tell_info<N: Nor>(volume: &mut Volume<'_, N>) -> Result<Info, PutErr>
    ensures moved { IsMoved volume.old volume.new }
    ensures cause { result ≡ Err (PutErr.Stopped Stop.Fault) → Rose (N.faults volume.old.nor.now) (N.faults volume.new.nor.now) }
    ensures apart { IfErr result IsApart }
    ensures folder { result ≡ Err PutErr.Folder → ⊥ }
    ensures told { IfOk result (TellsFrom volume.old volume.new) }
    ensures stops { IfErr result (StopsTelling volume.old) }
{
    match volume.info() {
        Ok(info) => Ok(info),
        Err(why) => match stop_of(why) {
            Some(stop) => Err(PutErr::Stopped(stop)),
            None => Err(PutErr::Refused),
        },
    }
}

/// Puts the files of a folder onto a checked volume that has none, numbered from 1 in the folder's order, through the volume's own calls, and
/// answers how full it is then. The bytes go through the lent ones, a piece as long as these at a time. Where a fault ends it, the first files
/// are there, and the next one may be there with a front of its bytes.
#[tactic(auto, using(volume_run::proofs::Moving::moved_then, folder_plan::proofs::Keeping::kept_then))]
pub fn put_files<N: Nor, F: Folder>(
    volume: &mut Volume<'_, N>,
    folder: &mut F,
    lent: &mut [u8],
) -> Result<Info, PutErr>
    requires room { 0 < length lent.old }
    ensures moved { IsMoved volume.old volume.new }
    ensures kept { Kept F.FolderState folder.old folder.new }
    ensures cause { result ≡ Err (PutErr.Stopped Stop.Fault) → Rose (N.faults volume.old.nor.now) (N.faults volume.new.nor.now) }
    ensures apart { IfErr result IsApart }
    ensures folder_cause { result ≡ Err PutErr.Folder → Rose (F.faults folder.old) (F.faults folder.new) }
    ensures made { IfOk result (IsMadeFrom F.FolderState volume.old folder.old volume.new) }
    ensures stops { IfErr result (OnlyFailsFrom F.FolderState volume.old folder.old) }
{
    let Ok(count) = folder.count() else {
        return Err(PutErr::Folder);
    };
    put_each(volume, folder, count, lent)?;
    tell_info(volume)
}

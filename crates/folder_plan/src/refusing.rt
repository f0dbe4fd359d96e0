ghost use Rattle.std.specs.Prelude.{◌≡◌, length, None, IfOk, OnErr};
ghost use Rattle.nor_core.specs.Count.{Rose};
ghost use Rattle.folder_core.specs.Puts.{Kept};
ghost use Rattle.folder_plan.specs.Refusals.{make_refusal, refusal_by};

use crate::names::first_bad_name;
use crate::sizes::{all_pages, have_room};
use folder_core::{Folder, FolderState};
use geometry::Geometry;
use nor_core::Failed;

/// Why no image is made of a folder's files.
#[derive(Clone, Copy, Debug, PartialEq, Eq)]
pub enum Refusal {
    /// The name of a file, counted from 0, is empty, holds a zero byte, has more than 31 bytes, or is that of an earlier file.
    BadNames { at: u32 },
    /// The files take so many index pages and data pages, for which the volume has no room.
    Full { index: u128, data_pages: u128 },
}

// The refusal for want of room, if there is too little.
fn room_refusal<F: Folder>(
    g: &Geometry,
    folder: &mut F,
    count: u32,
) -> Result<Option<Refusal>, Failed>
    requires count { count ≡ length (F.entries folder.old) }
    ensures refusal { IfOk result (λ why. why ≡ refusal_by g.now (F.entries folder.old) None) }
    ensures cause { OnErr result (Rose (F.faults folder.old) (F.faults folder.new)) }
    ensures kept { Kept F.FolderState folder.old folder.new }
{
    let pages = all_pages(g, folder, count)?;
    if have_room(g, pages) {
        return Ok(None);
    }
    Ok(Some(Refusal::Full {
        index: pages.index_pages,
        data_pages: pages.data_pages,
    }))
}

/// Why no image is made of a folder's files, if none is: the first bad name, then want of room. No byte of a file is read.
pub fn refusal_of<F: Folder>(g: &Geometry, folder: &mut F) -> Result<Option<Refusal>, Failed>
    ensures refusal { IfOk result (λ why. why ≡ make_refusal g.now (F.entries folder.old)) }
    ensures cause { OnErr result (Rose (F.faults folder.old) (F.faults folder.new)) }
    ensures kept { Kept F.FolderState folder.old folder.new }
{
    let count = folder.count()?;
    match first_bad_name(folder, count)? {
        Some(at) => Ok(Some(Refusal::BadNames { at })),
        None => room_refusal(g, folder, count),
    }
}

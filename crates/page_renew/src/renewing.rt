// Renewing a header page: the edited one is put, and the old one is killed.
ghost use Rattle.std.specs.Prelude.{◌+◌, ◌≤◌};
ghost use Rattle.flash_view.specs.Places.{IsEntryPage};
ghost use Rattle.flash_view.specs.Steps.{Stepped, failed, stopped};
ghost use Rattle.table_model.specs.Table.{File};
ghost use Rattle.page_renew.specs.Edits.{IsEditable};
ghost use Rattle.page_renew.specs.Renewals.{replacing, renewing_at, renewing_from, renewing};

use crate::edits::{Edit, build_edited};
use crate::finding::{Found, find_home};
use flash_view::{Kind, StepErr, View};
use free_search::free_page;
use nor_core::{Failed, Nor, NorState};
use page_put::{kill, put_page};
use table_model::{Differ, Tag};

/// Puts the index page that was built at `to`, and kills the one that it takes the place of: six programs at most.
pub fn put_over<N: Nor>(v: &mut View<'_, N>, to: u16, tag: Tag, old: u16) -> Result<(), Failed>
    requires to { IsEntryPage v.old.geometry to }
    requires old { IsEntryPage v.old.geometry old }
    requires id { (1 ≤ tag.id) × (tag.id ≤ 0x7FFE) }
    ensures step { Stepped failed v.old v.new result (replacing to old tag v.old.work.now) }
    ensures few { N.device_writes v.new.nor.now ≤ N.device_writes v.old.nor.now + 6 }
{
    put_page(v, to, Kind::Index, tag)?;
    kill(v, old)
}

/// Renews the header page of an id at a free page: at a cut the file is the one before or the one after. Pages of the
/// id may stand beside, as data pages that the edit names or that a further index page names. It takes six programs at most.
pub fn renew_at<N: Nor>(
    v: &mut View<'_, N>,
    id: u16,
    header: u16,
    to: u16,
    edit: Edit<'_>,
) -> Result<(), Failed>
    requires header { IsEntryPage v.old.geometry header }
    requires to { IsEntryPage v.old.geometry to }
    requires id { (1 ≤ id) × (id ≤ 0x7FFE) }
    requires edit { IsEditable v.old.geometry edit }
    ensures step { (f : File) → Stepped failed v.old v.new result (renewing_at id header to edit.entry f) }
    ensures few { N.device_writes v.new.nor.now ≤ N.device_writes v.old.nor.now + 6 }
{
    build_edited(v, header, edit)?;
    put_over(v, to, Tag { id, span: 0 }, header)
}

/// Renews a header page where pages of its id may stand beside, in one page step: as `renew_header`, for the page that
/// was found. The image is to be tidy but for those pages, with an index page to be had. It takes six programs at most.
pub fn renew_from<N: Nor>(
    v: &mut View<'_, N>,
    id: u16,
    header: u16,
    edit: Edit<'_>,
) -> Result<(), StepErr>
    requires header { IsEntryPage v.old.geometry header }
    requires id { (1 ≤ id) × (id ≤ 0x7FFE) }
    requires edit { IsEditable v.old.geometry edit }
    ensures step { (f : File) → Stepped stopped v.old v.new result (renewing_from id header edit.entry f) }
    ensures few { N.device_writes v.new.nor.now ≤ N.device_writes v.old.nor.now + 6 }
{
    let Some(to) = free_page(v, Kind::Index, 2, None)? else {
        return Err(StepErr::Damaged(Differ::no_page(Tag { id, span: 0 })));
    };
    Ok(renew_at(v, id, header, to, edit)?)
}

/// Renews the header page of an id in a tidy image, in one page step: at a cut the file is the one before or the one
/// after, and a reserve that was there is there. Done, the image is tidy but for the pages that the new header page
/// doesn't need. The image is to have an index page to be had and a file of that id; where that holds, a fault of the
/// device is the one error. It takes six programs at most.
pub fn renew_header<N: Nor>(v: &mut View<'_, N>, id: u16, edit: Edit<'_>) -> Result<(), StepErr>
    requires edit { IsEditable v.old.geometry edit }
    ensures step { (f : File) → Stepped stopped v.old v.new result (renewing id edit.entry f) }
    ensures few { N.device_writes v.new.nor.now ≤ N.device_writes v.old.nor.now + 6 }
{
    match find_home(v, id)? {
        Some(Found { header, .. }) => renew_from(v, id, header, edit),
        None => Err(StepErr::Damaged(Differ::no_page(Tag { id, span: 0 }))),
    }
}

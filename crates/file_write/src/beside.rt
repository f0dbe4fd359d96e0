// Pages put beside those of a file, before its header page is renewed.
ghost use Rattle.std.specs.Prelude.{◌≡◌, ◌+◌, ◌<◌, ◌≤◌, length};
ghost use Rattle.geometry.specs.Numbers.{body, head_slots};
ghost use Rattle.flash_view.specs.declared.kinds.Kind.TheVariants.{Data, Index};
ghost use Rattle.flash_view.specs.Places.{IsEntryPage};
ghost use Rattle.flash_view.specs.Steps.{Stepped, failed, stopped};
ghost use Rattle.file_write.specs.Beside.{putting_one, adding, is_data, is_further};

use crate::building::{build_bytes, build_index};
use crate::create::missing;
use flash_view::{Kind, StepErr, View};
use free_search::free_page;
use nor_core::{Failed, Nor, NorState};
use page_put::put_page;
use table_model::Tag;

// Puts the data page of these bytes at a free page.
fn put_data<N: Nor>(
    v: &mut View<'_, N>,
    to: u16,
    id: u16,
    span: u16,
    from: &[u8],
) -> Result<(), Failed>
    requires to { IsEntryPage v.old.geometry to }
    requires id { (1 ≤ id) × (id ≤ 0x7FFE) }
    requires fits { length from.now ≤ body v.old.geometry }
    ensures step { Stepped failed v.old v.new result (putting_one to (is_data id span from.now)) }
    ensures few { N.device_writes v.new.nor.now ≤ N.device_writes v.old.nor.now + 4 }
{
    let g = v.geometry;
    let len = g.page() as usize;
    let work = &mut *v.work;
    build_bytes(&mut work[..len], from);
    put_page(v, to, Kind::Data, Tag { id, span })
}

// Puts the data page of these bytes where one is found, and tells its number.
pub(crate) fn add_data<N: Nor>(
    v: &mut View<'_, N>,
    id: u16,
    span: u16,
    from: &[u8],
) -> Result<u16, StepErr>
    requires id { (1 ≤ id) × (id ≤ 0x7FFE) }
    requires fits { length from.now ≤ body v.old.geometry }
    ensures step { Stepped stopped v.old v.new result (adding Data (is_data id span from.now)) }
    ensures few { N.device_writes v.new.nor.now ≤ N.device_writes v.old.nor.now + 4 }
{
    let Some(to) = free_page(v, Kind::Data, 2, None)? else {
        return Err(StepErr::Damaged(missing(id)));
    };
    put_data(v, to, id, span, from)?;
    Ok(to)
}

// Puts the further index page that names page `target` as that of a data span at a free page.
fn put_index<N: Nor>(
    v: &mut View<'_, N>,
    to: u16,
    id: u16,
    span: u16,
    data_span: u16,
    target: u16,
) -> Result<(), Failed>
    requires to { IsEntryPage v.old.geometry to }
    requires id { (1 ≤ id) × (id ≤ 0x7FFE) }
    requires far { head_slots v.old.geometry ≤ data_span }
    requires some { 0 < span }
    ensures step { Stepped failed v.old v.new result (putting_one to (is_further id span data_span target)) }
    ensures few { N.device_writes v.new.nor.now ≤ N.device_writes v.old.nor.now + 4 }
{
    let g = v.geometry;
    let len = g.page() as usize;
    let work = &mut *v.work;
    build_index(&g, &mut work[..len], data_span, target);
    put_page(v, to, Kind::Index, Tag { id, span })
}

// Puts that page where one is found, and tells its number.
pub(crate) fn add_index<N: Nor>(
    v: &mut View<'_, N>,
    id: u16,
    span: u16,
    data_span: u16,
    target: u16,
) -> Result<u16, StepErr>
    requires id { (1 ≤ id) × (id ≤ 0x7FFE) }
    requires far { head_slots v.old.geometry ≤ data_span }
    requires some { 0 < span }
    ensures step { Stepped stopped v.old v.new result (adding Index (is_further id span data_span target)) }
    ensures few { N.device_writes v.new.nor.now ≤ N.device_writes v.old.nor.now + 4 }
{
    let Some(to) = free_page(v, Kind::Index, 2, None)? else {
        return Err(StepErr::Damaged(missing(id)));
    };
    put_index(v, to, id, span, data_span, target)?;
    Ok(to)
}

// Bytes that end in the last data page of a file.
ghost use Rattle.std.specs.Prelude.{◌≡◌, ◌+◌, ◌%◌, ◌<◌, ◌≤◌, OnErr, IfOk, IfSome, Some, length};
ghost use Rattle.geometry.specs.Numbers.{body, page_count};
ghost use Rattle.nor_core.specs.Count.{Rose};
ghost use Rattle.image_model.specs.Files.{index_page};
ghost use Rattle.image_model.specs.Live.{live_at, own};
ghost use Rattle.image_model.specs.Tidy.{IsTidy};
ghost use Rattle.flash_view.specs.Places.{IsEntryPage};
ghost use Rattle.flash_view.specs.Same.{OnlyLooks};
ghost use Rattle.flash_view.specs.Steps.{Stepped, stopped};
ghost use Rattle.table_model.specs.Table.{File};
ghost use Rattle.file_write.specs.Appends.{IsLast, filling_at, appending_at};

use crate::create::missing;
use crate::seeking::data_by;
use flash_view::{StepErr, View};
use nor_core::{Failed, Nor, NorState};
use page_layout::BODY_AT;
use page_put::fill_tail;
use page_renew::{Edit, Found, renew_from};

// The last data page of a file of that size of a tidy image, which ends inside it, by the file's header page.
#[tactic(auto, using(flash_view::proofs::Looking::looks_then))]
fn last_page<N: Nor>(
    v: &mut View<'_, N>,
    id: u16,
    header: u16,
    size: u32,
) -> Result<Option<u16>, Failed>
    requires { header < page_count v.old.geometry }
    ensures cause { OnErr result (Rose (N.faults v.old.nor.now) (N.faults v.new.nor.now)) }
    ensures looks { OnlyLooks v.old v.new }
    ensures inside { IfOk result (λ found. IfSome found (λ page. page < page_count v.old.geometry)) }
    ensures told { N.tells v.old.nor.now → IsTidy v.old.geometry (N.bytes v.old.nor.now) →
        index_page v.old.geometry (own (live_at v.old.geometry (N.bytes v.old.nor.now)) id) 0 ≡ Some header →
        IfOk result (λ found. IsLast v.old.geometry (N.bytes v.old.nor.now) id size found) }
{
    let g = v.geometry;
    let span = size / g.body();
    if span > 0xFFFF {
        return Ok(None);
    }
    match data_by(v, id, header, span as u16)? {
        Some(page) if u32::from(page) < g.pages() => Ok(Some(page)),
        _ => Ok(None),
    }
}

// Programs the bytes there, then renews the header page.
fn fill_last<N: Nor>(
    v: &mut View<'_, N>,
    id: u16,
    found: Found,
    page: u16,
    end: u32,
    from: &[u8],
) -> Result<(), StepErr>
    requires page { page < page_count v.old.geometry }
    requires header { IsEntryPage v.old.geometry found.header }
    requires id { (1 ≤ id) × (id ≤ 0x7FFE) }
    requires some { 0 < length from.now }
    requires fits { found.size % body v.old.geometry + length from.now ≤ body v.old.geometry }
    requires end { (end ≡ found.size + length from.now) × (end < 0xFFFFFFFF) }
    ensures step { (f : File) → Stepped stopped v.old v.new result (filling_at id found.header found.size page from.now f) }
    ensures few { N.device_writes v.new.nor.now ≤ N.device_writes v.old.nor.now + 7 }
{
    let at = BODY_AT + found.size % v.geometry.body();
    fill_tail(v, page, at, from)?;
    renew_from(v, id, found.header, Edit::Grow(end))
}

// Adds bytes to a file that ends inside its last data page.
pub(crate) fn append_inside<N: Nor>(
    v: &mut View<'_, N>,
    id: u16,
    found: Found,
    end: u32,
    from: &[u8],
) -> Result<(), StepErr>
    requires header { IsEntryPage v.old.geometry found.header }
    requires id { (1 ≤ id) × (id ≤ 0x7FFE) }
    requires some { 0 < length from.now }
    requires fits { found.size % body v.old.geometry + length from.now ≤ body v.old.geometry }
    requires end { (end ≡ found.size + length from.now) × (end < 0xFFFFFFFF) }
    requires used { 0 < found.size % body v.old.geometry }
    ensures step { (f : File) → Stepped stopped v.old v.new result (appending_at id found.header found.size from.now f) }
    ensures few { N.device_writes v.new.nor.now ≤ N.device_writes v.old.nor.now + 7 }
{
    let Some(page) = last_page(v, id, found.header, found.size)? else {
        return Err(StepErr::Damaged(missing(id)));
    };
    fill_last(v, id, found, page, end, from)
}

// Building the copies of pages in the bytes for work.
ghost use Rattle.std.specs.Prelude.{◌≡◌, ◌+◌, ◌-◌, ◌<◌, OnErr, OnOk, IfOk, true, ◌*◌, take};
ghost use Rattle.geometry.specs.Numbers.{page_count};
ghost use Rattle.nor_core.specs.Count.{Rose};
ghost use Rattle.image_model.specs.Kinds.{is_index_page};
ghost use Rattle.image_model.specs.Live.{live_at};
ghost use Rattle.image_model.specs.Headers.{size_of};
ghost use Rattle.image_model.specs.Places.{page_of};
ghost use Rattle.flash_view.specs.Same.{OnlyLooks};
ghost use Rattle.flash_view.specs.Steps.{IsRebuilt};
ghost use Rattle.page_renew.specs.Copies.{count_of};
ghost use Rattle.page_renew.specs.Built.{IsBuilt, IsLoaded, IsNamed, IsRenamed};

use crate::copying::{copy_index, kept_slots, see_bytes};
use crate::naming::name_data;
use flash_view::View;
use geometry::Geometry;
use nor_core::{Failed, Nor, NorState};
use page_layout::{data_pages, file_size};
use table_model::Tag;

// The size in bytes that a header page tells.
fn size_at<N: Nor>(v: &mut View<'_, N>, header: u16) -> Result<u32, Failed>
    requires { header < page_count v.old.geometry }
    ensures cause { OnErr result (Rose (N.faults v.old.nor.now) (N.faults v.new.nor.now)) }
    ensures looks { OnlyLooks v.old v.new }
    ensures told { N.tells v.old.nor.now → IfOk result (λ size. size ≡ size_of (page_of v.old.geometry (N.bytes v.old.nor.now) header)) }
{
    v.hold(header)?;
    Ok(file_size(v.held(header)))
}

// How many data pages the file of an id has by its header page.
#[tactic(auto, using(flash_view::proofs::Looking::looks_then))]
fn count_at<N: Nor>(v: &mut View<'_, N>, id: u16) -> Result<u32, Failed>
    ensures cause { OnErr result (Rose (N.faults v.old.nor.now) (N.faults v.new.nor.now)) }
    ensures looks { OnlyLooks v.old v.new }
    ensures told { N.tells v.old.nor.now → IfOk result (λ count. count ≡ count_of v.old.geometry (N.bytes v.old.nor.now) id) }
{
    let Some(header) = v.find_index(id, 0)? else {
        return Ok(0);
    };
    let size = size_at(v, header)?;
    Ok(data_pages(&v.geometry, size))
}

/// Builds the copy of an index page: its id without bit 15, and its span.
#[tactic(auto, using(flash_view::proofs::Looking::looks_then))]
pub fn build_copy<N: Nor>(v: &mut View<'_, N>, page: u16) -> Result<Tag, Failed>
    requires page { page < page_count v.old.geometry }
    ensures cause { OnErr result (Rose (N.faults v.old.nor.now) (N.faults v.new.nor.now)) }
    ensures looks { OnlyLooks v.old v.new }
    ensures told { N.tells v.old.nor.now → is_index_page (live_at v.old.geometry (N.bytes v.old.nor.now) page) ≡ true →
        IfOk result (λ tag. IsBuilt v.old.geometry (N.bytes v.old.nor.now) page tag v.new.work.now) }
{
    let head = v.header(page)?;
    let id = head.object();
    let span = head.span;
    let count = count_at(v, id)?;
    v.load(page)?;
    let g = v.geometry;
    let kept = kept_slots(&g, span, count);
    let len = g.page() as usize;
    let work = &mut *v.work;
    copy_index(&g, &mut work[..len], span, kept);
    Ok(Tag { id, span })
}

/// Builds the copy of a data page.
#[tactic(auto, using(flash_view::proofs::Looking::looks_then))]
pub fn build_data<N: Nor>(v: &mut View<'_, N>, page: u16) -> Result<(), Failed>
    requires page { page < page_count v.old.geometry }
    ensures cause { OnErr result (Rose (N.faults v.old.nor.now) (N.faults v.new.nor.now)) }
    ensures looks { OnlyLooks v.old v.new }
    ensures told { N.tells v.old.nor.now → OnOk result (IsLoaded v.old.geometry (N.bytes v.old.nor.now) page v.new.work.now) }
{
    v.load(page)?;
    see_bytes(v.built());
    Ok(())
}

/// Builds the copy of an index page, in which the entry of a data span names `to`.
#[tactic(auto, using(flash_view::proofs::Looking::looks_then))]
pub fn build_renamed<N: Nor>(
    v: &mut View<'_, N>,
    index: u16,
    span: u16,
    to: u16,
) -> Result<(), Failed>
    requires index { index < page_count v.old.geometry }
    ensures cause { OnErr result (Rose (N.faults v.old.nor.now) (N.faults v.new.nor.now)) }
    ensures looks { OnlyLooks v.old v.new }
    ensures told { N.tells v.old.nor.now → is_index_page (live_at v.old.geometry (N.bytes v.old.nor.now) index) ≡ true →
        OnOk result (IsRenamed v.old.geometry (N.bytes v.old.nor.now) index span to v.new.work.now) }
{
    build_copy(v, index)?;
    let g = v.geometry;
    let len = g.page() as usize;
    let work = &mut *v.work;
    name_data(&g, &mut work[..len], span, to);
    Ok(())
}

/// Names the data page of a span in the index page that is built: its entry names `to`.
pub fn name_page<N: Nor>(v: &mut View<'_, N>, span: u16, to: u16)
    ensures rebuilt { IsRebuilt v.old v.new }
    ensures named { IsNamed v.old.geometry span to (take v.old.geometry.page v.old.work.now) (take v.old.geometry.page v.new.work.now) }
{
    let g = v.geometry;
    let len = g.page() as usize;
    let work = &mut *v.work;
    name_data(&g, &mut work[..len], span, to);
}

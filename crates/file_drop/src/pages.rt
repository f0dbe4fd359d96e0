ghost use Rattle.std.specs.Prelude.{◌≡◌, ◌+◌, ◌*◌, ◌%◌, ◌==◌, ◌&&◌, ◌<◌, ◌≤◌, OnErr, IfOk, slice_index, false};
ghost use Rattle.std.specs.Bool.{OnTrue};
ghost use Rattle.geometry.specs.Numbers.{page_count, usable};
ghost use Rattle.nor_core.specs.Count.{Rose};
ghost use Rattle.page_layout.specs.Layout.{bits_of};
ghost use Rattle.flash_view.specs.Places.{IsEntryPage};
ghost use Rattle.flash_view.specs.Same.{OnlyLooks};
ghost use Rattle.flash_view.specs.Steps.{Stepped, failed};
ghost use Rattle.file_drop.specs.Drops.{is_left as the_left, is_past_header, HasLeft, dropping, dropping_all};
ghost use Rattle.file_drop.specs.Programs.{past_in};

use flash_view::{View, is_entry_page};
use nor_core::{Failed, Nor, NorState};
use page_layout::{INDEX_BIT, PageHeader};
use page_put::kill;

/// How many index pages and data pages of a file are kept.
#[derive(Clone, Copy)]
pub(crate) struct Kept {
    /// Index pages: those of the spans below.
    pub(crate) index_pages: u32,
    /// Data pages: those of the spans below.
    pub(crate) data_pages: u32,
}

// Whether a header is that of a page of an id that isn't kept. Its flags are one byte.
fn is_past(head: PageHeader, id: u16, kept: Kept) -> bool
    ensures byte { bits_of head.flags < 256 }
    ensures is { result ≡ ((head.id % 0x8000 == id) && is_past_header kept head) }
{
    let count = if head.is_index() {
        kept.index_pages
    } else {
        kept.data_pages
    };
    head.object() == id && count <= u32::from(head.span)
}

/// Whether a page is a live page of an id that isn't kept.
#[tactic(auto, using(flash_view::proofs::Looking::looks_then))]
pub(crate) fn is_left<N: Nor>(
    v: &mut View<'_, N>,
    page: u16,
    id: u16,
    kept: Kept,
) -> Result<bool, Failed>
    requires { page < page_count v.old.geometry }
    ensures cause { OnErr result (Rose (N.faults v.old.nor.now) (N.faults v.new.nor.now)) }
    ensures looks { OnlyLooks v.old v.new }
    ensures entry { IfOk result (λ left. OnTrue left (IsEntryPage v.old.geometry page)) }
    ensures byte { N.tells v.old.nor.now → IfOk result (λ left. OnTrue left (slice_index (N.bytes v.old.nor.now) (page * v.old.geometry.page + 4) < 256)) }
    ensures told { N.tells v.old.nor.now → IfOk result (λ left. left ≡ the_left v.old.geometry (N.bytes v.old.nor.now) id kept page) }
{
    let g = v.geometry;
    if !is_entry_page(&g, page) {
        return Ok(false);
    }
    let Some(head) = v.live_header(page)? else {
        return Ok(false);
    };
    Ok(is_past(head, id, kept))
}

// Kills a live page with this header, if it is a page of an id that isn't kept: two programs at most.
fn drop_page<N: Nor>(
    v: &mut View<'_, N>,
    page: u16,
    head: PageHeader,
    id: u16,
    kept: Kept,
) -> Result<(), Failed>
    requires { IsEntryPage v.old.geometry page }
    ensures step { Stepped failed v.old v.new result (dropping id kept page head) }
    ensures few { N.device_writes v.new.nor.now ≤ N.device_writes v.old.nor.now + 2 }
    ensures spares { ((head.id % 0x8000 == id) && is_past_header kept head) ≡ false → N.device_writes v.new.nor.now ≤ N.device_writes v.old.nor.now }
{
    if !is_past(head, id, kept) {
        return Ok(());
    }
    kill(v, page)
}

/// Kills each live page of an id that isn't kept, in page order, each by two programs. None of them is to be needed. (Looked at are the
/// pages whose entry lies between that of the id's data pages and that of its index pages.)
pub(crate) fn drop_pages<N: Nor>(v: &mut View<'_, N>, id: u16, kept: Kept) -> Result<(), Failed>
    ensures step { Stepped failed v.old v.new result (dropping_all id kept) }
    ensures few { N.tells v.old.nor.now → HasLeft v.old.geometry id kept (N.bytes v.old.nor.now) →
        N.device_writes v.new.nor.now ≤ N.device_writes v.old.nor.now + 2 * past_in v.old.geometry (N.bytes v.old.nor.now) id kept.index_pages kept.data_pages }
    ensures most { N.device_writes v.new.nor.now ≤ N.device_writes v.old.nor.now + 2 * usable v.old.geometry }
{
    let high = id.saturating_add(INDEX_BIT);
    let mut at = 0;
    'pages: while let Some((page, head)) = v.next_live(at, id, high)? {
        drop_page(v, page, head, id, kept)?;
        at = u32::from(page) + 1;
    }
    Ok(())
}

// Where the data pages of a file of a tidy image are.
ghost use Rattle.std.specs.Prelude.{◌≡◌, ◌<◌, ◌^◌, OnErr, IfOk, Some};
ghost use Rattle.geometry.specs.Numbers.{page_count};
ghost use Rattle.nor_core.specs.Count.{Rose};
ghost use Rattle.image_model.specs.Files.{index_page};
ghost use Rattle.image_model.specs.Live.{live_at, own};
ghost use Rattle.image_model.specs.Places.{page_of};
ghost use Rattle.image_model.specs.Tidy.{IsTidy};
ghost use Rattle.flash_view.specs.DataPages.{data_number, data_number_of};
ghost use Rattle.flash_view.specs.Same.{OnlyLooks};

use flash_view::View;
use nor_core::{Failed, Nor, NorState};
use page_layout::{entry_place, wide_index_span};
use page_renew::seek_index;

// The data page of a span, by a header page.
#[tactic(auto, using(flash_view::proofs::Looking::looks_then))]
fn named_data<N: Nor>(
    v: &mut View<'_, N>,
    id: u16,
    header: u16,
    span: u32,
) -> Result<Option<u16>, Failed>
    requires header { header < page_count v.old.geometry }
    requires span { span < 2 ^ 16 }
    ensures cause { OnErr result (Rose (N.faults v.old.nor.now) (N.faults v.new.nor.now)) }
    ensures looks { OnlyLooks v.old v.new }
    ensures told { N.tells v.old.nor.now → IsTidy v.old.geometry (N.bytes v.old.nor.now) → IfOk result (λ page. page
        ≡ data_number v.old.geometry (own (live_at v.old.geometry (N.bytes v.old.nor.now)) id) (page_of v.old.geometry (N.bytes v.old.nor.now) header) span) }
{
    let g = v.geometry;
    let at = entry_place(&g, span);
    if span < g.head_slots() {
        return v.data_in(header, at, id, span);
    }
    match seek_index(v, id, wide_index_span(&g, span))? {
        Some(index) => v.data_in(index, at, id, span),
        None => Ok(None),
    }
}

/// The data page of a span of an id by its header page, in a tidy image as `find_data` gives it.
pub(crate) fn data_by<N: Nor>(
    v: &mut View<'_, N>,
    id: u16,
    header: u16,
    span: u16,
) -> Result<Option<u16>, Failed>
    requires { header < page_count v.old.geometry }
    ensures cause { OnErr result (Rose (N.faults v.old.nor.now) (N.faults v.new.nor.now)) }
    ensures looks { OnlyLooks v.old v.new }
    ensures told { N.tells v.old.nor.now → IsTidy v.old.geometry (N.bytes v.old.nor.now) →
        index_page v.old.geometry (own (live_at v.old.geometry (N.bytes v.old.nor.now)) id) 0 ≡ Some header →
        IfOk result (λ page. page ≡ data_number_of v.old.geometry (N.bytes v.old.nor.now) id span) }
{
    named_data(v, id, header, u32::from(span))
}

/// The data page of a span of an id, in a tidy image as `find_data` gives it: the index pages that lead there are looked for
/// where they were noted.
#[tactic(auto, using(flash_view::proofs::Looking::looks_then))]
pub(crate) fn seek_data<N: Nor>(
    v: &mut View<'_, N>,
    id: u16,
    span: u16,
) -> Result<Option<u16>, Failed>
    ensures cause { OnErr result (Rose (N.faults v.old.nor.now) (N.faults v.new.nor.now)) }
    ensures looks { OnlyLooks v.old v.new }
    ensures told { N.tells v.old.nor.now → IsTidy v.old.geometry (N.bytes v.old.nor.now) →
        IfOk result (λ page. page ≡ data_number_of v.old.geometry (N.bytes v.old.nor.now) id span) }
{
    match v.seek_header(id)? {
        Some(header) => data_by(v, id, header, span),
        None => Ok(None),
    }
}

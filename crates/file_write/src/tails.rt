// The tail of a file: bytes of its last data page past the size, and the rest of a further index page behind its last entry.
ghost use Rattle.std.specs.Prelude.{◌≡◌, ◌%◌, ◌<◌, ◌≤◌, ◌↔◌, ℕ, OnErr, IfOk, IfSome, Some, drop, true};
ghost use Rattle.std.specs.Bool.{OnTrue, OnFalse};
ghost use Rattle.geometry.specs.Numbers.{body, page_count};
ghost use Rattle.nor_core.specs.Count.{Rose};
ghost use Rattle.table_model.specs.Table.{has_id};
ghost use Rattle.image_model.specs.Files.{index_page};
ghost use Rattle.image_model.specs.Live.{live_at, own};
ghost use Rattle.image_model.specs.Places.{page_of};
ghost use Rattle.image_model.specs.Tables.{table_of};
ghost use Rattle.image_model.specs.Tidy.{IsTidy, is_erased as the_erased};
ghost use Rattle.renew_laws.specs.Tails.{IsTailReady};
ghost use Rattle.flash_view.specs.Places.{IsEntryPage};
ghost use Rattle.flash_view.specs.Same.{OnlyLooks};
ghost use Rattle.file_write.specs.Readyings.{HasOnes, HasOther, IsStale, IsTaken};

use crate::seeking::data_by;
use flash_view::{View, is_entry_page};
use nor_core::{Failed, Nor, NorState};
use page_layout::{BODY_AT, data_pages, entry_place, wide_index_span};
use page_renew::{Found, find_home, seek_index};

// Whether all these bytes are 0xFF. (Without an early end many bytes are compared at once.)
fn are_ones(bytes: &[u8]) -> bool
    ensures { result ≡ the_erased bytes.now }
{
    let mut least = 0xFF;
    for byte in bytes {
        least = (*byte).min(least);
    }
    least == 0xFF
}

// Whether the bytes of a page from a place on are 0xFF.
#[tactic(auto, using(flash_view::proofs::Looking::looks_then))]
fn ends_in_ones<N: Nor>(v: &mut View<'_, N>, page: u16, from: u32) -> Result<bool, Failed>
    requires page { page < page_count v.old.geometry }
    requires from { from ≤ v.old.geometry.page }
    ensures cause { OnErr result (Rose (N.faults v.old.nor.now) (N.faults v.new.nor.now)) }
    ensures looks { OnlyLooks v.old v.new }
    ensures told { N.tells v.old.nor.now → IfOk result (λ ones. ones ≡ the_erased (drop from (page_of v.old.geometry (N.bytes v.old.nor.now) page))) }
{
    v.hold(page)?;
    Ok(are_ones(&v.held(page)[from as usize..]))
}

// Whether the bytes of the last data page of a file of that size past the size are 0xFF, in a tidy image, by the file's header page.
#[tactic(auto, using(flash_view::proofs::Looking::looks_then))]
fn is_clean_by<N: Nor>(v: &mut View<'_, N>, id: u16, header: u16, size: u32) -> Result<bool, Failed>
    requires { header < page_count v.old.geometry }
    ensures cause { OnErr result (Rose (N.faults v.old.nor.now) (N.faults v.new.nor.now)) }
    ensures looks { OnlyLooks v.old v.new }
    ensures part { IfOk result (λ clean. OnFalse clean (0 < size % body v.old.geometry)) }
    ensures told { N.tells v.old.nor.now → IsTidy v.old.geometry (N.bytes v.old.nor.now) →
        index_page v.old.geometry (own (live_at v.old.geometry (N.bytes v.old.nor.now)) id) 0 ≡ Some header →
        IfOk result (λ clean. OnTrue clean (HasOnes v.old.geometry (N.bytes v.old.nor.now) id size)) }
    ensures other { N.tells v.old.nor.now → IsTidy v.old.geometry (N.bytes v.old.nor.now) →
        index_page v.old.geometry (own (live_at v.old.geometry (N.bytes v.old.nor.now)) id) 0 ≡ Some header →
        IfOk result (λ clean. OnFalse clean (HasOther v.old.geometry (N.bytes v.old.nor.now) id size)) }
{
    let g = v.geometry;
    let used = size % g.body();
    if used == 0 {
        return Ok(true);
    }
    let span = size / g.body();
    if span > 0xFFFF {
        return Ok(false);
    }
    let Some(page) = data_by(v, id, header, span as u16)? else {
        return Ok(false);
    };
    if u32::from(page) >= g.pages() {
        return Ok(false);
    }
    ends_in_ones(v, page, BODY_AT + used)
}

// The same where the header page is looked for.
#[tactic(auto, using(flash_view::proofs::Looking::looks_then))]
pub(crate) fn has_clean_bytes<N: Nor>(
    v: &mut View<'_, N>,
    id: u16,
    size: u32,
) -> Result<bool, Failed>
    ensures cause { OnErr result (Rose (N.faults v.old.nor.now) (N.faults v.new.nor.now)) }
    ensures looks { OnlyLooks v.old v.new }
    ensures part { IfOk result (λ clean. OnFalse clean (0 < size % body v.old.geometry)) }
    ensures told { N.tells v.old.nor.now → IsTidy v.old.geometry (N.bytes v.old.nor.now) →
        IfOk result (λ clean. OnTrue clean (HasOnes v.old.geometry (N.bytes v.old.nor.now) id size)) }
    ensures other { N.tells v.old.nor.now → IsTidy v.old.geometry (N.bytes v.old.nor.now) →
        IfOk result (λ clean. OnFalse clean (HasOther v.old.geometry (N.bytes v.old.nor.now) id size)) }
{
    match v.seek_header(id)? {
        Some(header) => is_clean_by(v, id, header, size),
        None => Ok(size % v.geometry.body() == 0),
    }
}

// The further index page with the entry of the span behind the last of a file of that size, where its bytes from there on aren't
// all 0xFF, in a tidy image.
#[tactic(auto, using(flash_view::proofs::Looking::looks_then))]
pub(crate) fn stale_index<N: Nor>(
    v: &mut View<'_, N>,
    id: u16,
    size: u32,
) -> Result<Option<u16>, Failed>
    ensures cause { OnErr result (Rose (N.faults v.old.nor.now) (N.faults v.new.nor.now)) }
    ensures looks { OnlyLooks v.old v.new }
    ensures entry { IfOk result (λ found. IfSome found (λ p. IsEntryPage v.old.geometry p)) }
    ensures told { N.tells v.old.nor.now → IsTidy v.old.geometry (N.bytes v.old.nor.now) →
        IfOk result (λ found. IsStale v.old.geometry (N.bytes v.old.nor.now) id size found) }
    ensures taken { N.tells v.old.nor.now → IfOk result (λ found. IfSome found (IsTaken v.old.geometry (N.bytes v.old.nor.now) size)) }
{
    let g = v.geometry;
    let count = data_pages(&g, size);
    if count < g.head_slots() {
        return Ok(None);
    }
    let Some(index) = seek_index(v, id, wide_index_span(&g, count))? else {
        return Ok(None);
    };
    let free = ends_in_ones(v, index, entry_place(&g, count))?;
    if free || !is_entry_page(&g, index) {
        return Ok(None);
    }
    Ok(Some(index))
}

/// Whether the tail of a file is ready for an append: the bytes of its last data page past its size are 0xFF, and so are those of a
/// further index page from the entry of the span behind its last one on.
#[tactic(auto, using(flash_view::proofs::Looking::looks_then))]
pub fn is_tail_ready<N: Nor>(v: &mut View<'_, N>, id: u16) -> Result<bool, Failed>
    ensures cause { OnErr result (Rose (N.faults v.old.nor.now) (N.faults v.new.nor.now)) }
    ensures looks { OnlyLooks v.old v.new }
    ensures told { N.tells v.old.nor.now → IsTidy v.old.geometry (N.bytes v.old.nor.now) → has_id id (table_of v.old.geometry (N.bytes v.old.nor.now)) ≡ true →
        IfOk result (λ ready. (ready ≡ true) ↔ IsTailReady v.old.geometry (N.bytes v.old.nor.now) id) }
{
    let Some(Found { header, size }) = find_home(v, id)? else {
        return Ok(false);
    };
    if !is_clean_by(v, id, header, size)? {
        return Ok(false);
    }
    let stale = stale_index(v, id, size)?;
    Ok(stale.is_none())
}

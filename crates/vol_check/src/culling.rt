ghost use Rattle.std.specs.Prelude.{◌≡◌, ◌+◌, ◌*◌, ◌<◌, ◌==◌, ◌&&◌, OnErr, IfOk, true, slice_index};
ghost use Rattle.nor_core.specs.Count.{Rose};
ghost use Rattle.page_layout.specs.Layout.{bits_of, is_finished};
ghost use Rattle.image_model.specs.Live.{is_live};
ghost use Rattle.image_model.specs.Places.{has_magic, block_of, entry_of};
ghost use Rattle.flash_view.specs.Places.{IsEntryPage};
ghost use Rattle.flash_view.specs.Same.{OnlyLooks};
ghost use Rattle.vol_check.specs.Works.{Worked, culling};

use flash_view::View;
use nor_core::{Failed, Nor, NorState};
use page_layout::PageHeader;
use page_put::kill;

// Whether a page is live by its entry and its header, where its block has its magic. Its flags are one byte.
fn is_named(entry: u16, head: PageHeader) -> bool
    ensures byte { bits_of head.flags < 256 }
    ensures is { result ≡ ((entry == head.id) && is_finished head) }
{
    entry == head.id && head.is_finished()
}

/// Whether a page with this entry is live, where its block has its magic: its header alone is read.
#[tactic(auto, using(flash_view::proofs::Looking::looks_then))]
pub(crate) fn is_alive_by<N: Nor>(
    v: &mut View<'_, N>,
    page: u16,
    entry: u16,
) -> Result<bool, Failed>
    requires { IsEntryPage v.old.geometry page }
    ensures cause { OnErr result (Rose (N.faults v.old.nor.now) (N.faults v.new.nor.now)) }
    ensures looks { OnlyLooks v.old v.new }
    ensures byte { N.tells v.old.nor.now → IfOk result (λ alive. slice_index (N.bytes v.old.nor.now) (page * v.old.geometry.page + 4) < 256) }
    ensures told { N.tells v.old.nor.now → has_magic v.old.geometry (N.bytes v.old.nor.now) (block_of v.old.geometry page) ≡ true →
        entry ≡ entry_of v.old.geometry (N.bytes v.old.nor.now) page → IfOk result (λ alive. alive ≡ is_live v.old.geometry (N.bytes v.old.nor.now) page) }
{
    let head = v.header(page)?;
    Ok(is_named(entry, head))
}

/// Whether a page is live, where its block has its magic: its entry and its header alone are read.
#[tactic(auto, using(flash_view::proofs::Looking::looks_then))]
pub(crate) fn is_alive<N: Nor>(v: &mut View<'_, N>, page: u16) -> Result<bool, Failed>
    requires { IsEntryPage v.old.geometry page }
    ensures cause { OnErr result (Rose (N.faults v.old.nor.now) (N.faults v.new.nor.now)) }
    ensures looks { OnlyLooks v.old v.new }
    ensures byte { N.tells v.old.nor.now → IfOk result (λ alive. slice_index (N.bytes v.old.nor.now) (page * v.old.geometry.page + 4) < 256) }
    ensures told { N.tells v.old.nor.now → has_magic v.old.geometry (N.bytes v.old.nor.now) (block_of v.old.geometry page) ≡ true →
        IfOk result (λ alive. alive ≡ is_live v.old.geometry (N.bytes v.old.nor.now) page) }
{
    let entry = v.entry(page)?;
    is_alive_by(v, page, entry)
}

/// Kills a live page that isn't wanted, where nothing is lost without it. It is read once more, which tells that its
/// flags are one byte.
pub(crate) fn cull<N: Nor>(v: &mut View<'_, N>, page: u16) -> Result<(), Failed>
    requires { IsEntryPage v.old.geometry page }
    ensures { Worked v.old v.new result (culling page) }
{
    if !is_alive(v, page)? {
        return Ok(());
    }
    kill(v, page)
}

//! Where the header page of an id is likely to be, in a walk over all ids: those of a window, ids that follow one another, are
//! noted together as hints.
ghost use Rattle.std.specs.Prelude.{◌≡◌, ◌<◌, ◌≤◌, length, take, OnErr};
ghost use Rattle.geometry.specs.Numbers.{page_count, check_need};
ghost use Rattle.nor_core.specs.Count.{Rose};
ghost use Rattle.flash_view.specs.Same.{OnlyLooks};

use flash_view::View;
use nor_core::{Failed, Nor, NorState};
use page_layout::INDEX_BIT;

/// A page that is likely to be the header page of an id, by the marks: where the hint for it fails, those of its window are
/// noted anew. So in a walk over all ids each window is noted once.
#[tactic(auto, using(flash_view::proofs::Looking::looks_then))]
pub(crate) fn likely_page<N: Nor>(v: &mut View<'_, N>, marks: &[u8], id: u16) -> Result<u16, Failed>
    requires room { check_need v.old.geometry ≤ length marks.now }
    ensures cause { OnErr result (Rose (N.faults v.old.nor.now) (N.faults v.new.nor.now)) }
    ensures looks { OnlyLooks v.old v.new }
    ensures built { take v.old.geometry.page v.new.work.now ≡ take v.old.geometry.page v.old.work.now }
{
    let page = v.walk_hint(id);
    if is_marked_as(v, marks, page, id)? {
        return Ok(page);
    }
    note_window(v, marks, id)?;
    Ok(v.walk_hint(id))
}

// Whether a page has a mark, and the entry of index pages of an id.
#[tactic(auto, using(flash_view::proofs::Looking::looks_then))]
fn is_marked_as<N: Nor>(
    v: &mut View<'_, N>,
    marks: &[u8],
    page: u16,
    id: u16,
) -> Result<bool, Failed>
    requires room { check_need v.old.geometry ≤ length marks.now }
    ensures cause { OnErr result (Rose (N.faults v.old.nor.now) (N.faults v.new.nor.now)) }
    ensures looks { OnlyLooks v.old v.new }
    ensures work { v.new.work.now ≡ v.old.work.now }
{
    if u32::from(page) >= v.geometry.pages() || marks[page as usize] == 0 {
        return Ok(false);
    }
    Ok(v.lookup_entry(page)? == INDEX_BIT + id % INDEX_BIT)
}

// Notes the marked pages of the ids of the window that an id lies in.
#[tactic(auto, using(flash_view::proofs::Looking::looks_then))]
fn note_window<N: Nor>(v: &mut View<'_, N>, marks: &[u8], id: u16) -> Result<(), Failed>
    requires room { check_need v.old.geometry ≤ length marks.now }
    ensures cause { OnErr result (Rose (N.faults v.old.nor.now) (N.faults v.new.nor.now)) }
    ensures looks { OnlyLooks v.old v.new }
    ensures built { take v.old.geometry.page v.new.work.now ≡ take v.old.geometry.page v.old.work.now }
{
    let window = u32::from(id) / v.walk_hints();
    let pages = v.geometry.pages() as u16;
    for page in 0..pages {
        if marks[page as usize] != 0 {
            note_in(v, page, window)?;
        }
    }
    Ok(())
}

// Notes a header page, if its id is one of a window.
#[tactic(auto, using(flash_view::proofs::Looking::looks_then))]
fn note_in<N: Nor>(v: &mut View<'_, N>, page: u16, window: u32) -> Result<(), Failed>
    requires page { page < page_count v.old.geometry }
    ensures cause { OnErr result (Rose (N.faults v.old.nor.now) (N.faults v.new.nor.now)) }
    ensures looks { OnlyLooks v.old v.new }
    ensures built { take v.old.geometry.page v.new.work.now ≡ take v.old.geometry.page v.old.work.now }
{
    let id = v.lookup_entry(page)? % INDEX_BIT;
    if u32::from(id) / v.walk_hints() == window {
        v.note_walk_hint(id, page);
    }
    Ok(())
}

ghost use Rattle.std.specs.Prelude.{◌≡◌, ◌<◌, ◌≤◌, length, OnErr, IfOk, IfSome, take};
ghost use Rattle.geometry.specs.Numbers.{page_count, check_need};
ghost use Rattle.nor_core.specs.Count.{Rose};
ghost use Rattle.flash_view.specs.Same.{OnlyLooks};
ghost use Rattle.file_find.specs.Marks.{IsMarked};
ghost use Rattle.file_find.specs.Listing.{NextFile, TheFile, damaged_above};

use crate::marks::{damage, is_listed, marked_page, next_marked};
use flash_view::View;
use image_model::Damage;
use nor_core::{Failed, Nor, NorState};

/// The table's file of the least id above `after`, by right marks: its id and its header page.
#[tactic(auto, using(flash_view::proofs::Looking::looks_then))]
pub fn next_file<N: Nor>(
    v: &mut View<'_, N>,
    marks: &[u8],
    after: u16,
) -> Result<Option<(u16, u16)>, Failed>
    requires room { check_need v.old.geometry ≤ length marks.now }
    requires marked { N.tells v.old.nor.now → IsMarked v.old.geometry (N.bytes v.old.nor.now) marks.now }
    ensures cause { OnErr result (Rose (N.faults v.old.nor.now) (N.faults v.new.nor.now)) }
    ensures looks { OnlyLooks v.old v.new }
    ensures inside { IfOk result (λ next. IfSome next (λ n. n.1 < page_count v.old.geometry)) }
    ensures above { IfOk result (λ next. IfSome next (λ n. after < n.0)) }
    ensures told { N.tells v.old.nor.now → IfOk result (λ next. NextFile v.old.geometry (N.bytes v.old.nor.now) after next) }
    ensures built { take v.old.geometry.page v.new.work.now ≡ take v.old.geometry.page v.old.work.now }
{
    let mut at = after;
    'ids: while let Some((id, header)) = next_marked(v, marks, at)? {
        if is_listed(marks[header as usize]) {
            return Ok(Some((id, header)));
        }
        at = id;
    }
    Ok(None)
}

/// The header page of the table's file of an id, by right marks.
#[tactic(auto, using(flash_view::proofs::Looking::looks_then))]
pub fn find_file<N: Nor>(v: &mut View<'_, N>, marks: &[u8], id: u16) -> Result<Option<u16>, Failed>
    requires room { check_need v.old.geometry ≤ length marks.now }
    requires marked { N.tells v.old.nor.now → IsMarked v.old.geometry (N.bytes v.old.nor.now) marks.now }
    ensures cause { OnErr result (Rose (N.faults v.old.nor.now) (N.faults v.new.nor.now)) }
    ensures looks { OnlyLooks v.old v.new }
    ensures inside { IfOk result (λ page. IfSome page (λ p. p < page_count v.old.geometry)) }
    ensures told { N.tells v.old.nor.now → IfOk result (λ page. TheFile v.old.geometry (N.bytes v.old.nor.now) id page) }
    ensures built { take v.old.geometry.page v.new.work.now ≡ take v.old.geometry.page v.old.work.now }
{
    let Some(header) = marked_page(v, marks, id)? else {
        return Ok(None);
    };
    Ok(if is_listed(marks[header as usize]) {
        Some(header)
    } else {
        None
    })
}

/// The damaged file of the least id above `after`, by right marks, with the first cause of its damage.
#[tactic(auto, using(flash_view::proofs::Looking::looks_then))]
pub fn next_damaged<N: Nor>(
    v: &mut View<'_, N>,
    marks: &[u8],
    after: u16,
) -> Result<Option<(u16, Damage)>, Failed>
    requires room { check_need v.old.geometry ≤ length marks.now }
    requires marked { N.tells v.old.nor.now → IsMarked v.old.geometry (N.bytes v.old.nor.now) marks.now }
    ensures cause { OnErr result (Rose (N.faults v.old.nor.now) (N.faults v.new.nor.now)) }
    ensures looks { OnlyLooks v.old v.new }
    ensures above { IfOk result (λ next. IfSome next (λ n. after < n.0)) }
    ensures told { N.tells v.old.nor.now → IfOk result (λ next. next ≡ damaged_above v.old.geometry (N.bytes v.old.nor.now) after) }
    ensures built { take v.old.geometry.page v.new.work.now ≡ take v.old.geometry.page v.old.work.now }
{
    let mut at = after;
    'ids: while let Some((id, header)) = next_marked(v, marks, at)? {
        if let Some(cause) = damage(v, marks, id, header)? {
            return Ok(Some((id, cause)));
        }
        at = id;
    }
    Ok(None)
}

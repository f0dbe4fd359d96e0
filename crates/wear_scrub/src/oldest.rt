// The first of the oldest blocks that may be moved.
ghost use Rattle.std.specs.Prelude.{◌≡◌, ◌<◌, OnErr, IfOk};
ghost use Rattle.nor_core.specs.Count.{Rose};
ghost use Rattle.image_model.specs.Places.{next_count as the_next_count};
ghost use Rattle.image_model.specs.Tidy.{IsTidy};
ghost use Rattle.flash_view.specs.Same.{OnlyLooks};
ghost use Rattle.free_search.specs.ByRows.{IsByRows};
ghost use Rattle.wear_scrub.specs.Ages.{IsBelow};
ghost use Rattle.wear_scrub.specs.Victims.{rival_by, TurnsTo, IsOldestOf};

use crate::ages::{Aged, age_of};
use block_gc::may_move;
use flash_view::{BlockCounts, View};
use free_search::{counts, next_count};
use nor_core::{Failed, Nor, NorState};

// Whether a block with these counts is in use, at least so old, and older than the oldest so far.
fn is_rival(c: &BlockCounts, entries: u32, oldest: Option<Aged>, age: u16, least: u32) -> bool
    ensures { result ≡ rival_by c.now entries oldest age least }
{
    let older = match oldest {
        Some(first) => age > first.age,
        None => true,
    };
    u32::from(c.free) != entries && u32::from(age) >= least && older
}

// The oldest so far with a block more, which takes its place where it is such a rival and may be moved.
#[tactic(auto, using(flash_view::proofs::Looking::looks_then))]
fn with_rival<N: Nor>(
    v: &mut View<'_, N>,
    oldest: Option<Aged>,
    next: u16,
    least: u32,
    block: u16,
) -> Result<Option<Aged>, Failed>
    requires block { block < v.old.geometry.blocks }
    requires below { IsBelow v.old.geometry.blocks oldest }
    ensures cause { OnErr result (Rose (N.faults v.old.nor.now) (N.faults v.new.nor.now)) }
    ensures looks { OnlyLooks v.old v.new }
    ensures quick { IsByRows v.old v.new result }
    ensures below { IfOk result (λ found. IsBelow v.old.geometry.blocks found) }
    ensures told { N.tells v.old.nor.now → IsTidy v.old.geometry (N.bytes v.old.nor.now) →
        next ≡ the_next_count v.old.geometry (N.bytes v.old.nor.now) →
        IfOk result (λ found. TurnsTo v.old.geometry (N.bytes v.old.nor.now) least block oldest found) }
{
    let entries = v.geometry.entries();
    let c = counts(v, block)?;
    let age = age_of(c.erases, next);
    if !is_rival(&c, entries, oldest, age, least) {
        return Ok(oldest);
    }
    if may_move(v, block)? {
        Ok(Some(Aged { block, age }))
    } else {
        Ok(oldest)
    }
}

// The first of the oldest blocks in use that may be moved, if it is at least so old.
#[tactic(auto, using(flash_view::proofs::Looking::looks_then))]
pub(crate) fn oldest_of<N: Nor>(v: &mut View<'_, N>, least: u32) -> Result<Option<Aged>, Failed>
    ensures cause { OnErr result (Rose (N.faults v.old.nor.now) (N.faults v.new.nor.now)) }
    ensures looks { OnlyLooks v.old v.new }
    ensures quick { IsByRows v.old v.new result }
    ensures below { IfOk result (λ found. IsBelow v.old.geometry.blocks found) }
    ensures told { N.tells v.old.nor.now → IsTidy v.old.geometry (N.bytes v.old.nor.now) →
        IfOk result (λ found. IsOldestOf v.old.geometry (N.bytes v.old.nor.now) least v.old.geometry.blocks found) }
{
    let next = next_count(v)?;
    let mut oldest = None;
    for block in 0..v.geometry.blocks() as u16 {
        oldest = with_rival(v, oldest, next, least, block)?;
    }
    Ok(oldest)
}

ghost use Rattle.std.specs.Prelude.{◌≡◌, ◌*◌, ◌≤◌, length, OnErr, IfOk};
ghost use Rattle.geometry.specs.Numbers.{scratch_need, cache_need, check_need};
ghost use Rattle.nor_core.specs.Count.{Rose};
ghost use Rattle.nor_core.specs.Device.{OnlyReads};
ghost use Rattle.image_model.specs.Tables.{table_of, damaged_of};
ghost use Rattle.flash_view.specs.Same.{OnlyLooks};
ghost use Rattle.file_find.specs.Marks.{IsMarked};
ghost use Rattle.meta_guess.specs.Guesses.{CountsOf, CountsIf, ReadsOnce};

use crate::counts::Counts;
use file_find::{next_damaged, next_file, none_damaged, survey};
use flash_view::View;
use geometry::Geometry;
use nor_core::{Failed, Nor, NorState};

// How many files the table has, by right marks.
#[tactic(auto, using(flash_view::proofs::Looking::looks_then))]
fn count_whole<N: Nor>(v: &mut View<'_, N>, marks: &[u8]) -> Result<u32, Failed>
    requires room { check_need v.old.geometry ≤ length marks.now }
    requires marked { N.tells v.old.nor.now → IsMarked v.old.geometry (N.bytes v.old.nor.now) marks.now }
    ensures cause { OnErr result (Rose (N.faults v.old.nor.now) (N.faults v.new.nor.now)) }
    ensures looks { OnlyLooks v.old v.new }
    ensures told { N.tells v.old.nor.now → IfOk result (λ count. count ≡ length (table_of v.old.geometry (N.bytes v.old.nor.now))) }
{
    let mut after = 0;
    let mut count = 0;
    'ids: while let Some(next) = next_file(v, marks, after)? {
        after = next.0;
        count += 1;
    }
    Ok(count)
}

// How many ids are damaged, by right marks. Where none is, no id is looked at.
#[tactic(auto, using(flash_view::proofs::Looking::looks_then))]
fn count_damaged<N: Nor>(v: &mut View<'_, N>, marks: &[u8]) -> Result<u32, Failed>
    requires room { check_need v.old.geometry ≤ length marks.now }
    requires marked { N.tells v.old.nor.now → IsMarked v.old.geometry (N.bytes v.old.nor.now) marks.now }
    ensures cause { OnErr result (Rose (N.faults v.old.nor.now) (N.faults v.new.nor.now)) }
    ensures looks { OnlyLooks v.old v.new }
    ensures told { N.tells v.old.nor.now → IfOk result (λ count. count ≡ length (damaged_of v.old.geometry (N.bytes v.old.nor.now))) }
{
    if none_damaged(v, marks) {
        return Ok(0);
    }
    let mut after = 0;
    let mut count = 0;
    'ids: while let Some(next) = next_damaged(v, marks, after)? {
        after = next.0;
        count += 1;
    }
    Ok(count)
}

// Both, by right marks.
#[tactic(auto, using(flash_view::proofs::Looking::looks_then))]
fn count_marked<N: Nor>(v: &mut View<'_, N>, marks: &[u8]) -> Result<Counts, Failed>
    requires room { check_need v.old.geometry ≤ length marks.now }
    requires marked { N.tells v.old.nor.now → IsMarked v.old.geometry (N.bytes v.old.nor.now) marks.now }
    ensures cause { OnErr result (Rose (N.faults v.old.nor.now) (N.faults v.new.nor.now)) }
    ensures looks { OnlyLooks v.old v.new }
    ensures told { N.tells v.old.nor.now → IfOk result (CountsOf v.old.geometry (N.bytes v.old.nor.now)) }
{
    let whole = count_whole(v, marks)?;
    let damaged = count_damaged(v, marks)?;
    Ok(Counts { whole, damaged })
}

// Both, by right marks, where an id is damaged.
#[tactic(auto, using(flash_view::proofs::Looking::looks_then, flash_view::proofs::Looking::looks_none))]
fn count_marked_if<N: Nor>(v: &mut View<'_, N>, marks: &[u8]) -> Result<Option<Counts>, Failed>
    requires room { check_need v.old.geometry ≤ length marks.now }
    requires marked { N.tells v.old.nor.now → IsMarked v.old.geometry (N.bytes v.old.nor.now) marks.now }
    ensures cause { OnErr result (Rose (N.faults v.old.nor.now) (N.faults v.new.nor.now)) }
    ensures looks { OnlyLooks v.old v.new }
    ensures told { N.tells v.old.nor.now → IfOk result (CountsIf v.old.geometry (N.bytes v.old.nor.now)) }
{
    if none_damaged(v, marks) {
        return Ok(None);
    }
    Ok(Some(count_marked(v, marks)?))
}

// Both, of a view, where an id is damaged.
#[tactic(auto, using(flash_view::proofs::Looking::looks_then))]
fn count_view_if<N: Nor>(v: &mut View<'_, N>, marks: &mut [u8]) -> Result<Option<Counts>, Failed>
    requires room { check_need v.old.geometry ≤ length marks.old }
    ensures cause { OnErr result (Rose (N.faults v.old.nor.now) (N.faults v.new.nor.now)) }
    ensures looks { OnlyLooks v.old v.new }
    ensures told { N.tells v.old.nor.now → IfOk result (CountsIf v.old.geometry (N.bytes v.old.nor.now)) }
{
    survey(v, marks)?;
    count_marked_if(v, marks)
}

// Both, of a view.
#[tactic(auto, using(flash_view::proofs::Looking::looks_then))]
fn count_view<N: Nor>(v: &mut View<'_, N>, marks: &mut [u8]) -> Result<Counts, Failed>
    requires room { check_need v.old.geometry ≤ length marks.old }
    ensures cause { OnErr result (Rose (N.faults v.old.nor.now) (N.faults v.new.nor.now)) }
    ensures looks { OnlyLooks v.old v.new }
    ensures told { N.tells v.old.nor.now → IfOk result (CountsOf v.old.geometry (N.bytes v.old.nor.now)) }
{
    survey(v, marks)?;
    count_marked(v, marks)
}

/// How many files of a volume are whole, and how many ids are damaged. The volume is surveyed once, and nothing is written.
/// The one error is a fault of the device. What the lent bytes hold at first doesn't matter: `work` has those for work,
/// `cache` those for copies of pages, and `marks` those for the check.
pub fn count_files<N: Nor>(
    g: &Geometry,
    nor: &mut N,
    work: &mut [u8],
    cache: &mut [u8],
    marks: &mut [u8],
) -> Result<Counts, Failed>
    requires unit { N.unit nor.old ≡ g.now.phys }
    requires fits { g.now.blocks * g.now.block ≤ N.size nor.old }
    requires work { scratch_need g.now ≤ length work.old }
    requires cache { cache_need g.now ≤ length cache.old }
    requires check { check_need g.now ≤ length marks.old }
    ensures cause { OnErr result (Rose (N.faults nor.old) (N.faults nor.new)) }
    ensures reads { OnlyReads N.NorState nor.old nor.new }
    ensures told { N.tells nor.old → IfOk result (CountsOf g.now (N.bytes nor.old)) }
    ensures few { ReadsOnce N.NorState g.now (length cache.old) nor.old nor.new }
{
    let mut v = View::new(*g, nor, work, &mut [], cache);
    count_view(&mut v, marks)
}

/// The counts of `count_files`; or None: then no id is damaged, and the files weren't counted.
pub(crate) fn count_if_damaged<N: Nor>(
    g: &Geometry,
    nor: &mut N,
    work: &mut [u8],
    cache: &mut [u8],
    marks: &mut [u8],
) -> Result<Option<Counts>, Failed>
    requires unit { N.unit nor.old ≡ g.now.phys }
    requires fits { g.now.blocks * g.now.block ≤ N.size nor.old }
    requires work { scratch_need g.now ≤ length work.old }
    requires cache { cache_need g.now ≤ length cache.old }
    requires check { check_need g.now ≤ length marks.old }
    ensures cause { OnErr result (Rose (N.faults nor.old) (N.faults nor.new)) }
    ensures reads { OnlyReads N.NorState nor.old nor.new }
    ensures told { N.tells nor.old → IfOk result (CountsIf g.now (N.bytes nor.old)) }
    ensures few { ReadsOnce N.NorState g.now (length cache.old) nor.old nor.new }
{
    let mut v = View::new(*g, nor, work, &mut [], cache);
    count_view_if(&mut v, marks)
}

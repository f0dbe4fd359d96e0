// The whole check of a mounted volume.
ghost use Rattle.std.specs.Prelude.{◌≡◌, ◌≤◌, length, Ok, OnOk, IfErr, true, false};
ghost use Rattle.geometry.specs.Numbers.{check_need, rows_need};
ghost use Rattle.nor_core.specs.Count.{Rose};
ghost use Rattle.nor_core.specs.Device.{OnlyReads};
ghost use Rattle.image_model.specs.Sound.{HasMagics};
ghost use Rattle.image_model.specs.Tidy.{IsTidy};
ghost use Rattle.flash_view.specs.Same.{IsSameView, OnlyCounts};
ghost use Rattle.flash_view.specs.Steps.{Stepped};
ghost use Rattle.vol_check.specs.Owned.{OwnIf};
ghost use Rattle.block_gc.specs.Partings.{parting};
ghost use Rattle.volume.specs.Checking.{ChecksVolume, Judges, check_stopped, sweeping, clearing, dividing, finishing};

use block_gc::{RoomErr, make_room, part_mixed};
use flash_view::View;
use free_search::{count_all, free_blocks};
use nor_core::{Nor, NorState};
use vol_check::{CheckErr, Parting, Report, check_stages, judge_parting};

// Cleans blocks until two are free or none that is worth cleaning can be cleaned any more.
fn sweep<N: Nor>(v: &mut View<'_, N>) -> Result<(), CheckErr>
    ensures { Stepped check_stopped v.old v.new result sweeping }
{
    match make_room(v, 0, 0) {
        Ok(()) => Ok(()),
        Err(RoomErr::Tight) => Ok(()),
        Err(RoomErr::Step(why)) => Err(CheckErr::from(why)),
    }
}

// Cleans blocks so, and counts the free ones.
fn clear<N: Nor>(v: &mut View<'_, N>) -> Result<u32, CheckErr>
    ensures { Stepped check_stopped v.old v.new result clearing }
{
    sweep(v)?;
    Ok(free_blocks(v)?)
}

// Whether blocks are shared. A volume that may not be written is refused, and one whose shared blocks don't fit over.
fn judge<N: Nor>(v: &mut View<'_, N>, marks: &mut [u8], own: bool) -> Result<bool, CheckErr>
    requires room { check_need v.old.geometry ≤ length marks.old }
    requires owned { N.tells v.old.nor.now → OwnIf own v.old.geometry (N.bytes v.old.nor.now) }
    ensures { Judges v.old v.new result }
{
    if let Err(why) = v.geometry.writable() {
        return Err(CheckErr::Wrong(why));
    }
    match judge_parting(v, marks, own)? {
        Parting::None => Ok(false),
        Parting::Fits => Ok(true),
        Parting::Over { blocks } => Err(CheckErr::Mixed { blocks }),
    }
}

// Moves the index pages out of shared blocks.
fn part<N: Nor>(v: &mut View<'_, N>) -> Result<(), CheckErr>
    ensures { Stepped check_stopped v.old v.new result parting }
{
    Ok(part_mixed(v)?)
}

// Parts the shared blocks, where there are some, and tells how many blocks are free then: so many are before.
fn divide<N: Nor>(v: &mut View<'_, N>, shares: bool, free: u32) -> Result<u32, CheckErr>
    ensures step { Stepped check_stopped v.old v.new result (dividing shares free) }
    ensures idle { shares ≡ false → (result ≡ Ok free) × OnlyReads N.NorState v.old.nor.now v.new.nor.now }
{
    if !shares {
        return Ok(free);
    }
    part(v)?;
    Ok(free_blocks(v)?)
}

// Parts them so, and then cleans blocks where fewer than two are free, and tells how many are.
fn part_and_clear<N: Nor>(v: &mut View<'_, N>, shares: bool, free: u32) -> Result<u32, CheckErr>
    ensures step { Stepped check_stopped v.old v.new result (finishing shares free) }
    ensures idle { shares ≡ false → 2 ≤ free → OnlyReads N.NorState v.old.nor.now v.new.nor.now }
{
    let left = divide(v, shares, free)?;
    if left >= 2 {
        return Ok(left);
    }
    clear(v)
}

// Checks a mounted volume: the stages first; then the shared blocks are parted, where there are some; and then, where fewer than two blocks
// are free, blocks are cleaned until two are free or none that is worth cleaning can be cleaned any more.
#[tactic(auto, using(flash_view::proofs::Looking::same_then))]
fn check_pages<N: Nor>(v: &mut View<'_, N>, marks: &mut [u8], own: bool) -> Result<Report, CheckErr>
    requires room { check_need v.old.geometry ≤ length marks.old }
    requires magics { N.tells v.old.nor.now → HasMagics v.old.geometry (N.bytes v.old.nor.now) }
    requires owned { N.tells v.old.nor.now → OwnIf own v.old.geometry (N.bytes v.old.nor.now) }
    ensures same { IsSameView v.old v.new }
    ensures checks { ChecksVolume N.NorState v.old.geometry v.old.nor.now v.new.nor.now result }
{
    let shares = judge(v, marks, own)?;
    let report = check_stages(v, marks, own)?;
    let free_blocks = part_and_clear(v, shares, report.free_blocks)?;
    Ok(Report {
        free_blocks,
        ..report
    })
}

// Has the table of block counts stand, where there is room for its rows. (Of a device that doesn't hold what it was given no contract of
// the cleaning says whether it stands after that, so it is asked.)
#[tactic(auto, using(flash_view::proofs::Looking::looks_none, flash_view::proofs::Looking::looks_counts, room_laws::proofs::Sorted::tidy_tells_free))]
fn count_again<N: Nor>(v: &mut View<'_, N>) -> Result<(), CheckErr>
    requires tidy { N.tells v.old.nor.now → IsTidy v.old.geometry (N.bytes v.old.nor.now) }
    ensures cause { IfErr result (λ why. (why ≡ CheckErr.DeviceFault) × Rose (N.faults v.old.nor.now) (N.faults v.new.nor.now)) }
    ensures counts { OnlyCounts v.old v.new }
    ensures stands { rows_need v.old.geometry ≤ length v.new.rows.now → OnOk result (v.new.counted ≡ true) }
{
    if v.counted || v.rows.len() < v.geometry.rows_need() as usize {
        return Ok(());
    }
    Ok(count_all(v)?)
}

/// Checks a mounted volume so, and has the table of block counts stand then, where there is room for its rows. `own` tells that this
/// engine alone wrote the volume: then pages whose entry is 0xFFFF aren't read.
#[tactic(auto, using(flash_view::proofs::Looking::same_then, nor_core::proofs::Cuts::read_after, nor_core::proofs::Cuts::reads_then))]
pub(crate) fn check_view<N: Nor>(
    v: &mut View<'_, N>,
    marks: &mut [u8],
    own: bool,
) -> Result<Report, CheckErr>
    requires room { check_need v.old.geometry ≤ length marks.old }
    requires magics { N.tells v.old.nor.now → HasMagics v.old.geometry (N.bytes v.old.nor.now) }
    requires owned { N.tells v.old.nor.now → OwnIf own v.old.geometry (N.bytes v.old.nor.now) }
    ensures same { IsSameView v.old v.new }
    ensures checks { ChecksVolume N.NorState v.old.geometry v.old.nor.now v.new.nor.now result }
    ensures stands { rows_need v.old.geometry ≤ length v.new.rows.now → OnOk result (v.new.counted ≡ true) }
{
    let report = check_pages(v, marks, own)?;
    count_again(v)?;
    Ok(report)
}

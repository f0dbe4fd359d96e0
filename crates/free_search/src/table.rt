ghost use Rattle.std.specs.Prelude.{◌≡◌, ◌≤◌, length, OnErr, OnOk, true};
ghost use Rattle.nor_core.specs.Count.{Rose};
ghost use Rattle.geometry.specs.Numbers.{rows_need};
ghost use Rattle.image_model.specs.Tidy.{TellsFree};
ghost use Rattle.flash_view.specs.Same.{OnlyCounts};

use crate::counts;
use flash_view::View;
use nor_core::{Failed, Nor, NorState};

/// Counts the entries of every block, so that the table of counts stands; where there is no room for its rows nothing happens. The
/// lookup pages are to tell which entries are free, as they do once the check has cleaned the entries.
#[tactic(auto, using(flash_view::proofs::Looking::counts_then, flash_view::proofs::Looking::looks_counts))]
pub fn count_all<N: Nor>(v: &mut View<'_, N>) -> Result<(), Failed>
    requires clear { N.tells v.old.nor.now → TellsFree v.old.geometry (N.bytes v.old.nor.now) }
    ensures cause { OnErr result (Rose (N.faults v.old.nor.now) (N.faults v.new.nor.now)) }
    ensures counts { OnlyCounts v.old v.new }
    ensures stands { rows_need v.old.geometry ≤ length v.old.rows.now → OnOk result (v.new.counted ≡ true) }
{
    if v.rows.len() < v.geometry.rows_need() as usize {
        return Ok(());
    }
    v.counted = false;
    v.clear_rows();
    for block in 0..v.geometry.blocks() as u16 {
        let counts = counts(v, block)?;
        v.put_row(block, counts);
    }
    v.counted = true;
    Ok(())
}

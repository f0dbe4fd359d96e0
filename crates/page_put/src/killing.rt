ghost use Rattle.std.specs.Prelude.{◌≡◌, ◌+◌, ◌≤◌, OnErr, OnOk, true};
ghost use Rattle.nor_core.specs.Count.{Rose};
ghost use Rattle.nor_core.specs.Device.{Changes};
ghost use Rattle.flash_view.specs.Places.{IsEntryPage};
ghost use Rattle.flash_view.specs.Same.{IsSameView};
ghost use Rattle.flash_view.specs.Steps.{Stepped, failed};
ghost use Rattle.page_put.specs.Kills.{HalfKilled, killed};
ghost use Rattle.page_put.specs.LivePages.{killing, clearing};
ghost use Rattle.page_put.specs.Recount.{OneChanges, StandsAgain};

use crate::rows::{recount_dead, sort_before};
use flash_view::View;
use nor_core::{Failed, Nor, NorState};
use page_layout::{DELETED, Flags};

// The two programs of a kill: one that clears DELET in the flags of a page, and one that sets its entry to zero.
#[tactic(auto, using(flash_view::proofs::Looking::same_then))]
fn program_dead<N: Nor>(v: &mut View<'_, N>, page: u16) -> Result<(), Failed>
    requires page { IsEntryPage v.old.geometry page }
    ensures cause { OnErr result (Rose (N.faults v.old.nor.now) (N.faults v.new.nor.now)) }
    ensures changes { Changes N.NorState v.old.nor.now v.new.nor.now (HalfKilled v.old.geometry page) }
    ensures done { N.tells v.old.nor.now → OnOk result (N.bytes v.new.nor.now ≡ killed v.old.geometry page (N.bytes v.old.nor.now)) }
    ensures same { IsSameView v.old v.new }
    ensures wrote { v.new.wrote ≡ true }
    ensures only { N.tells v.old.nor.now → OneChanges v.old.geometry page (N.bytes v.old.nor.now) (N.bytes v.new.nor.now) }
    ensures rows { v.new.rows.now ≡ v.old.rows.now }
    ensures few { N.device_writes v.new.nor.now ≤ N.device_writes v.old.nor.now + 2 }
{
    let erased = Flags::from_bits(0xFF);
    v.program_in(page, 4, &[erased.deleted().bits()])?;
    v.program_entry(page, DELETED)
}

// These programs, over which the table of counts stays.
#[tactic(auto, using(flash_view::proofs::Looking::same_then))]
fn program_kill<N: Nor>(v: &mut View<'_, N>, page: u16) -> Result<(), Failed>
    requires page { IsEntryPage v.old.geometry page }
    ensures cause { OnErr result (Rose (N.faults v.old.nor.now) (N.faults v.new.nor.now)) }
    ensures changes { Changes N.NorState v.old.nor.now v.new.nor.now (HalfKilled v.old.geometry page) }
    ensures done { N.tells v.old.nor.now → OnOk result (N.bytes v.new.nor.now ≡ killed v.old.geometry page (N.bytes v.old.nor.now)) }
    ensures same { IsSameView v.old v.new }
    ensures wrote { v.new.wrote ≡ true }
    ensures counted { StandsAgain v.old v.new result }
    ensures few { N.device_writes v.new.nor.now ≤ N.device_writes v.old.nor.now + 2 }
{
    let before = sort_before(v, page);
    program_dead(v, page)?;
    recount_dead(v, page, before?);
    Ok(())
}

/// Kills a page: a program that clears DELET in its flags, and one that sets its entry to zero. Whatever the
/// page and the entry hold, no page is finished by it, also where it is cut off. A live page is live no more at some
/// moment of it; where the page isn't live, all live pages stay.
pub fn kill<N: Nor>(v: &mut View<'_, N>, page: u16) -> Result<(), Failed>
    requires page { IsEntryPage v.old.geometry page }
    ensures cause { OnErr result (Rose (N.faults v.old.nor.now) (N.faults v.new.nor.now)) }
    ensures changes { Changes N.NorState v.old.nor.now v.new.nor.now (HalfKilled v.old.geometry page) }
    ensures done { N.tells v.old.nor.now → OnOk result (N.bytes v.new.nor.now ≡ killed v.old.geometry page (N.bytes v.old.nor.now)) }
    ensures same { IsSameView v.old v.new }
    ensures wrote { v.new.wrote ≡ true }
    ensures live { Stepped failed v.old v.new result (killing page) }
    ensures dead { Stepped failed v.old v.new result (clearing page) }
    ensures counted { StandsAgain v.old v.new result }
    ensures few { N.device_writes v.new.nor.now ≤ N.device_writes v.old.nor.now + 2 }
{
    program_kill(v, page)
}

// Cleaning block after block: until wanted pages are had, or until none is worth cleaning.
ghost use Rattle.std.specs.Prelude.{◌≡◌, ◌≢◌, ◌<◌, ◌≤◌, OnErr, OnOk, IfOk, IfErr, IsErrOf, true, false};
ghost use Rattle.nor_core.specs.Count.{Rose};
ghost use Rattle.nor_core.specs.Device.{Changes, OnlyReads};
ghost use Rattle.image_model.specs.Tidy.{IsTidy, free_blocks};
ghost use Rattle.trim_laws.specs.Upkeep.{Upkeep};
ghost use Rattle.flash_view.specs.Same.{IsSameView, OnlyLooks};
ghost use Rattle.room_laws.specs.Stopping.{CanClean, HasRoomFor};
ghost use Rattle.room_laws.specs.Mends.{CanMend};
ghost use Rattle.flash_view.specs.Steps.{Stepped, stopped};
ghost use Rattle.block_gc.specs.RoomMade.{IsFaultOrTight, UnlessFailed, is_apart_in, IsReady, IsMet, IfMet, CollectCut, SweptWhile, Never, MadeRoom, IsTight, IsCompact, IsStuck};
ghost use Rattle.block_gc.specs.declared.room.RoomErr.{RoomErr};
ghost use Rattle.block_gc.specs.declared.room.Goal.{Goal};
ghost use Rattle.block_gc.specs.RoomMade.{cleaning_chosen, stepping, turning_to, collecting, packing, freeing};

use crate::cleaning::clean;
use crate::next::{choose, is_ready, is_stuck};
use flash_view::{StepErr, View};
use free_search::free_blocks;
use nor_core::{Failed, Nor, NorState};

/// Why room was not made.
#[derive(Clone, Copy, Debug, PartialEq, Eq)]
pub enum RoomErr {
    /// A step was not done.
    Step(StepErr),
    /// No block that is worth cleaning can be cleaned, and there is too little room.
    Tight,
}

impl From<StepErr> for RoomErr {
    ghost from_gives = { λ step why. why ≡ RoomErr.Step step };

    fn from(step: StepErr) -> RoomErr {
        RoomErr::Step(step)
    }
}

// What blocks are cleaned for: so many index pages and data pages, that no block is worth cleaning, or so many free blocks.
#[derive(Clone, Copy)]
enum Goal {
    // So many of each are had, and two blocks are free.
    Pages(u32, u32),
    Packed,
    // So many blocks are free.
    Free(u32),
}

// Whether so many blocks are free.
#[tactic(auto, using(flash_view::proofs::Looking::looks_then))]
fn has_free<N: Nor>(v: &mut View<'_, N>, blocks: u32) -> Result<bool, Failed>
    ensures cause { OnErr result (Rose (N.faults v.old.nor.now) (N.faults v.new.nor.now)) }
    ensures looks { OnlyLooks v.old v.new }
    ensures told { N.tells v.old.nor.now → IsTidy v.old.geometry (N.bytes v.old.nor.now) →
        IfOk result (λ met. IfMet v.old.geometry (N.bytes v.old.nor.now) (Goal.Free blocks) met) }
{
    Ok(free_blocks(v)? >= blocks)
}

// Whether the goal is met.
#[tactic(auto, using(flash_view::proofs::Looking::looks_then))]
fn is_met<N: Nor>(v: &mut View<'_, N>, goal: Goal) -> Result<bool, Failed>
    ensures cause { OnErr result (Rose (N.faults v.old.nor.now) (N.faults v.new.nor.now)) }
    ensures looks { OnlyLooks v.old v.new }
    ensures told { N.tells v.old.nor.now → IsTidy v.old.geometry (N.bytes v.old.nor.now) →
        IfOk result (λ met. IfMet v.old.geometry (N.bytes v.old.nor.now) goal met) }
{
    match goal {
        Goal::Pages(index, data_pages) => is_ready(v, index, data_pages),
        Goal::Packed => Ok(false),
        Goal::Free(blocks) => has_free(v, blocks),
    }
}

// Cleans the chosen block, and tells whether there was one.
fn clean_chosen<N: Nor>(v: &mut View<'_, N>) -> Result<bool, StepErr>
    ensures { Stepped stopped v.old v.new result (cleaning_chosen (N.device_writes v.old.nor.now) (N.device_writes v.new.nor.now)) }
{
    let Some(block) = choose(v)? else {
        return Ok(false);
    };
    clean(v, block)?;
    Ok(true)
}

// A turn of collection: a block more was cleaned, or whether the goal is met where collection stops.
fn collect_turn<N: Nor>(v: &mut View<'_, N>, goal: Goal) -> Result<Option<bool>, StepErr>
    ensures step { Stepped stopped v.old v.new result (turning_to goal (N.device_writes v.old.nor.now) (N.device_writes v.new.nor.now)) }
    ensures idle { N.tells v.old.nor.now → IsTidy v.old.geometry (N.bytes v.old.nor.now) → IsMet v.old.geometry (N.bytes v.old.nor.now) goal →
        OnlyReads N.NorState v.old.nor.now v.new.nor.now }
{
    if is_met(v, goal)? {
        return Ok(Some(true));
    }
    if clean_chosen(v)? {
        Ok(None)
    } else {
        Ok(Some(false))
    }
}

// Cleans the chosen block, one after the other, until the goal is met or no block is chosen: whether it is met.
fn collect<N: Nor>(v: &mut View<'_, N>, goal: Goal) -> Result<bool, StepErr>
    ensures step { Stepped stopped v.old v.new result (collecting goal (N.device_writes v.old.nor.now) (N.device_writes v.new.nor.now)) }
    ensures idle { N.tells v.old.nor.now → IsTidy v.old.geometry (N.bytes v.old.nor.now) → IsMet v.old.geometry (N.bytes v.old.nor.now) goal →
        OnlyReads N.NorState v.old.nor.now v.new.nor.now }
{
    for _turn in 0..u64::MAX {
        if let Some(met) = collect_turn(v, goal)? {
            return Ok(met);
        }
    }
    Ok(false)
}

/// A step of a collection, for idle time: cleans the block that is chosen next, if there is one, and after it others until two blocks are
/// free again; and tells whether there was one. A cut leaves the table as it is, and where the image could be cleaned an uncut check gives two
/// free blocks back.
pub fn gc_step<N: Nor>(v: &mut View<'_, N>) -> Result<bool, StepErr>
    ensures { Stepped stopped v.old v.new result (stepping (N.device_writes v.old.nor.now) (N.device_writes v.new.nor.now)) }
{
    if !clean_chosen(v)? {
        return Ok(false);
    }
    collect(v, Goal::Pages(0, 0))?;
    Ok(true)
}

/// Cleans blocks until so many index pages and data pages are had and two blocks are free, and cleans none where that is so
/// already. Tight where no block can be cleaned any more before that. A cut leaves the table as it is, and where the image
/// could be cleaned an uncut check gives two free blocks back.
#[tactic(auto, using(flash_view::proofs::Looking::same_then))]
pub fn make_room<N: Nor>(v: &mut View<'_, N>, index: u32, data_pages: u32) -> Result<(), RoomErr>
    ensures cause { IsErrOf result (RoomErr.Step StepErr.DeviceFault) → Rose (N.faults v.old.nor.now) (N.faults v.new.nor.now) }
    ensures faults { N.faults v.old.nor.now ≤ N.faults v.new.nor.now }
    ensures same { IsSameView v.old v.new }
    ensures wrote { v.old.wrote ≡ true → v.new.wrote ≡ true }
    ensures untouched { v.old.wrote ≡ false → v.new.wrote ≡ false → OnlyReads N.NorState v.old.nor.now v.new.nor.now }
    ensures changes { Changes N.NorState v.old.nor.now v.new.nor.now (λ was image. IsTidy v.old.geometry was → CollectCut v.old.geometry was image) }
    ensures upkeep { Changes N.NorState v.old.nor.now v.new.nor.now (λ was image. IsTidy v.old.geometry was → Upkeep v.old.geometry was image) }
    ensures stands { N.tells v.old.nor.now → IsTidy v.old.geometry (N.bytes v.old.nor.now) → v.old.counted ≡ true → UnlessFailed result (v.new.counted ≡ true) }
    ensures idle { N.tells v.old.nor.now → IsTidy v.old.geometry (N.bytes v.old.nor.now) → IsReady v.old.geometry (N.bytes v.old.nor.now) index data_pages →
        OnlyReads N.NorState v.old.nor.now v.new.nor.now }
    ensures done { N.tells v.old.nor.now → IsTidy v.old.geometry (N.bytes v.old.nor.now) →
        OnOk result (MadeRoom v.old.geometry index data_pages (N.bytes v.old.nor.now) (N.bytes v.new.nor.now)) }
    ensures swept { N.tells v.old.nor.now → IsTidy v.old.geometry (N.bytes v.old.nor.now) → UnlessFailed result
        (SweptWhile v.old.geometry (λ image. IsReady v.old.geometry image index data_pages) (N.bytes v.old.nor.now) (N.bytes v.new.nor.now)
        (N.device_writes v.old.nor.now) (N.device_writes v.new.nor.now)) }
    ensures tight { N.tells v.old.nor.now → IsTidy v.old.geometry (N.bytes v.old.nor.now) → IsErrOf result RoomErr.Tight →
        IsTight v.old.geometry index data_pages (N.bytes v.old.nor.now) (N.bytes v.new.nor.now) }
    ensures never_tight { N.tells v.old.nor.now → CanClean v.old.geometry (N.bytes v.old.nor.now) →
        HasRoomFor v.old.geometry (N.bytes v.old.nor.now) index data_pages → IfErr result (λ why. why ≢ RoomErr.Tight) }
    ensures mended { N.tells v.old.nor.now → CanMend v.old.geometry (N.bytes v.old.nor.now) → index ≡ 0 → data_pages ≡ 0 →
        IfErr result (λ why. why ≢ RoomErr.Tight) }
    ensures undamaged { N.tells v.old.nor.now → IsTidy v.old.geometry (N.bytes v.old.nor.now) → IfErr result (λ why. IsFaultOrTight why) }
    ensures differs { IfErr result is_apart_in }
{
    if collect(v, Goal::Pages(index, data_pages))? {
        Ok(())
    } else {
        Err(RoomErr::Tight)
    }
}

// Cleans the chosen block, one after the other, until none is chosen: whether collection is stuck then.
fn pack<N: Nor>(v: &mut View<'_, N>) -> Result<bool, StepErr>
    ensures { Stepped stopped v.old v.new result (packing (N.device_writes v.old.nor.now) (N.device_writes v.new.nor.now)) }
{
    collect(v, Goal::Packed)?;
    Ok(is_stuck(v)?)
}

/// Cleans blocks until none is worth cleaning. Tight exactly where collection is stuck before that. A cut leaves the table
/// as it is, and where the image could be cleaned an uncut check gives two free blocks back.
#[tactic(auto, using(flash_view::proofs::Looking::same_then))]
pub fn compact<N: Nor>(v: &mut View<'_, N>) -> Result<(), RoomErr>
    ensures cause { IsErrOf result (RoomErr.Step StepErr.DeviceFault) → Rose (N.faults v.old.nor.now) (N.faults v.new.nor.now) }
    ensures faults { N.faults v.old.nor.now ≤ N.faults v.new.nor.now }
    ensures same { IsSameView v.old v.new }
    ensures wrote { v.old.wrote ≡ true → v.new.wrote ≡ true }
    ensures untouched { v.old.wrote ≡ false → v.new.wrote ≡ false → OnlyReads N.NorState v.old.nor.now v.new.nor.now }
    ensures changes { Changes N.NorState v.old.nor.now v.new.nor.now (λ was image. IsTidy v.old.geometry was → CollectCut v.old.geometry was image) }
    ensures upkeep { Changes N.NorState v.old.nor.now v.new.nor.now (λ was image. IsTidy v.old.geometry was → Upkeep v.old.geometry was image) }
    ensures stands { N.tells v.old.nor.now → IsTidy v.old.geometry (N.bytes v.old.nor.now) → v.old.counted ≡ true → UnlessFailed result (v.new.counted ≡ true) }
    ensures done { N.tells v.old.nor.now → IsTidy v.old.geometry (N.bytes v.old.nor.now) →
        OnOk result (IsCompact v.old.geometry (N.bytes v.old.nor.now) (N.bytes v.new.nor.now)) }
    ensures swept { N.tells v.old.nor.now → IsTidy v.old.geometry (N.bytes v.old.nor.now) → UnlessFailed result
        (SweptWhile v.old.geometry Never (N.bytes v.old.nor.now) (N.bytes v.new.nor.now) (N.device_writes v.old.nor.now) (N.device_writes v.new.nor.now)) }
    ensures tight { N.tells v.old.nor.now → IsTidy v.old.geometry (N.bytes v.old.nor.now) → IsErrOf result RoomErr.Tight →
        IsStuck v.old.geometry (N.bytes v.old.nor.now) (N.bytes v.new.nor.now) }
    ensures never_tight { N.tells v.old.nor.now → CanClean v.old.geometry (N.bytes v.old.nor.now) → IfErr result (λ why. why ≢ RoomErr.Tight) }
    ensures undamaged { N.tells v.old.nor.now → IsTidy v.old.geometry (N.bytes v.old.nor.now) → IfErr result (λ why. IsFaultOrTight why) }
    ensures differs { IfErr result is_apart_in }
{
    if pack(v)? {
        Err(RoomErr::Tight)
    } else {
        Ok(())
    }
}

/// Cleans blocks until so many are free, or none is chosen: whether so many are free. Where they are already none is cleaned. A cut leaves the
/// table as it is, and where the image could be cleaned an uncut check gives two free blocks back. Two are always freed of an image that mends.
pub fn free_up<N: Nor>(v: &mut View<'_, N>, blocks: u32) -> Result<bool, StepErr>
    ensures step { Stepped stopped v.old v.new result (freeing blocks (N.device_writes v.old.nor.now) (N.device_writes v.new.nor.now)) }
    ensures mended { N.tells v.old.nor.now → CanMend v.old.geometry (N.bytes v.old.nor.now) → blocks ≤ 2 → IfOk result (λ met. met ≡ true) }
    ensures idle { N.tells v.old.nor.now → IsTidy v.old.geometry (N.bytes v.old.nor.now) → blocks ≤ free_blocks v.old.geometry (N.bytes v.old.nor.now) →
        OnlyReads N.NorState v.old.nor.now v.new.nor.now }
{
    collect(v, Goal::Free(blocks))
}

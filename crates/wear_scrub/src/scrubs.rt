// A step of scrubbing.
ghost use Rattle.std.specs.Prelude.{◌≡◌, ◌+◌, OnErr, IfOk};
ghost use Rattle.nor_core.specs.Count.{Rose};
ghost use Rattle.nor_core.specs.Device.{OnlyReads};
ghost use Rattle.image_model.specs.Tidy.{IsTidy};
ghost use Rattle.flash_view.specs.Same.{OnlyLooks};
ghost use Rattle.flash_view.specs.Steps.{Stepped, stopped};
ghost use Rattle.free_search.specs.ByRows.{IsByRows};
ghost use Rattle.wear_scrub.specs.Ages.{level_by, pick_of, IsBelow, AreAges};
ghost use Rattle.wear_scrub.specs.Victims.{IsOldestOf};
ghost use Rattle.wear_scrub.specs.Scrubs.{IsInside, IsLevel, IfLevel, IsPick, moving_picked, scrubbing};

use crate::ages::{Aged, Ages, all_ages};
use crate::oldest::oldest_of;
use block_gc::{free_up, move_block};
use flash_view::{StepErr, View};
use nor_core::{Failed, Nor, NorState};

/// What a scrub step did. The age of a block is how many erase counts it is behind the next one.
#[derive(Clone, Copy, Debug, PartialEq, Eq)]
pub enum Scrub {
    /// No block that is old enough may be moved, and so many blocks are free: two, and each of those blocks is full of live data pages while no
    /// entry is to spare for the copy that a cut may lose; or fewer than two.
    NoRoom { free: u32 },
    /// No block in use is so much less worn than every free one.
    Rested,
    /// This block, of that age before it was moved, was the least worn of those in use that may be moved.
    Moved { block: u16, age: u16 },
}

// The age from which on a block is moved.
fn least_age(found: &Ages, limit: u16) -> u32
    ensures { result ≡ found.now.young + limit }
{
    u32::from(found.young) + u32::from(limit)
}

// Whether no block in use is so old.
fn none_is_old(found: &Ages, limit: u16) -> bool
    ensures { result ≡ level_by found.now limit }
{
    match found.oldest {
        Some(first) => u32::from(first.age) < least_age(found, limit),
        None => true,
    }
}

// What a scrub step does by the ages of all blocks and the oldest one that may be moved.
fn pick(found: &Ages, limit: u16, oldest: Option<Aged>) -> Scrub
    ensures { result ≡ pick_of found.now limit oldest }
{
    if none_is_old(found, limit) {
        return Scrub::Rested;
    }
    match oldest {
        Some(first) => Scrub::Moved {
            block: first.block,
            age: first.age,
        },
        None => Scrub::NoRoom { free: found.free },
    }
}

// Whether no block in use is so much older than each free one.
#[tactic(auto, using(flash_view::proofs::Looking::looks_then))]
fn is_level<N: Nor>(v: &mut View<'_, N>, limit: u16) -> Result<bool, Failed>
    ensures cause { OnErr result (Rose (N.faults v.old.nor.now) (N.faults v.new.nor.now)) }
    ensures looks { OnlyLooks v.old v.new }
    ensures told { N.tells v.old.nor.now → IsTidy v.old.geometry (N.bytes v.old.nor.now) →
        IfOk result (λ level. IfLevel v.old.geometry (N.bytes v.old.nor.now) limit level) }
{
    Ok(none_is_old(&all_ages(v)?, limit))
}

/// What a scrub step moves on a tidy volume where no block is worth cleaning, or three are free: the first of the oldest blocks in use that may
/// be moved, if it is at least `limit` erase counts older than each free block.
#[tactic(auto, using(flash_view::proofs::Looking::looks_then))]
pub fn scrub_pick<N: Nor>(v: &mut View<'_, N>, limit: u16) -> Result<Scrub, Failed>
    ensures cause { OnErr result (Rose (N.faults v.old.nor.now) (N.faults v.new.nor.now)) }
    ensures looks { OnlyLooks v.old v.new }
    ensures quick { IsByRows v.old v.new result }
    ensures below { IfOk result (λ picked. IsInside v.old.geometry.blocks picked) }
    ensures told { N.tells v.old.nor.now → IsTidy v.old.geometry (N.bytes v.old.nor.now) →
        IfOk result (λ picked. IsPick v.old.geometry (N.bytes v.old.nor.now) limit picked) }
{
    let found = all_ages(v)?;
    let oldest = oldest_of(v, least_age(&found, limit))?;
    Ok(pick(&found, limit, oldest))
}

// The block that is picked is moved, and then others are cleaned until two are free again.
fn move_picked<N: Nor>(v: &mut View<'_, N>, limit: u16) -> Result<Scrub, StepErr>
    ensures { Stepped stopped v.old v.new result (moving_picked limit (N.device_writes v.old.nor.now) (N.device_writes v.new.nor.now)) }
{
    match scrub_pick(v, limit) {
        Err(Failed) => Err(StepErr::DeviceFault),
        Ok(Scrub::Moved { block, age }) => {
            move_block(v, block)?;
            Ok(Scrub::Moved { block, age })
        }
        Ok(Scrub::NoRoom { free }) => Ok(Scrub::NoRoom { free }),
        Ok(Scrub::Rested) => Ok(Scrub::Rested),
    }
}

/// A scrub step. Where no block in use is at least `limit` erase counts older than each free one nothing is written. Else blocks that are worth it
/// are cleaned until three are free, the block that `scrub_pick` names then is cleaned, and after it others until two are free again. A cut leaves
/// the table as it is, and where two blocks were free an uncut check gives two free blocks back.
pub fn scrub_step<N: Nor>(v: &mut View<'_, N>, limit: u16) -> Result<Scrub, StepErr>
    ensures step { Stepped stopped v.old v.new result (scrubbing limit (N.device_writes v.old.nor.now) (N.device_writes v.new.nor.now)) }
    ensures idle { N.tells v.old.nor.now → IsTidy v.old.geometry (N.bytes v.old.nor.now) → IsLevel v.old.geometry (N.bytes v.old.nor.now) limit →
        OnlyReads N.NorState v.old.nor.now v.new.nor.now }
{
    if is_level(v, limit)? {
        return Ok(Scrub::Rested);
    }
    free_up(v, 3)?;
    move_picked(v, limit)
}

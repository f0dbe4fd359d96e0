ghost use Rattle.std.specs.Prelude.{ℤ, pos, ◌+ℤ◌, ◌≡◌, ◌≢◌, ◌+◌, ◌^◌, ◌<◌, ◌≤◌, ℕ, List, length, OnOk, IsErrOf, IfOk, IfErr, true, false};
ghost use Rattle.nor_core.specs.Count.{Rose};
ghost use Rattle.flash_view.specs.Same.{IsSameView, OnlyLooks};
ghost use Rattle.table_model.specs.Ask.{Reads, Seeks, StatsOpen};
ghost use Rattle.table_model.specs.Files.{place_within};
ghost use Rattle.table_model.specs.Table.{File};
ghost use Rattle.image_model.specs.Tables.{table_of};
ghost use Rattle.image_model.specs.Tidy.{IsTidy};
ghost use Rattle.file_read.specs.Whole.{IsFileOf, IsRead};
ghost use Rattle.file_read.specs.Missing.{IsMissing, HoldsOrFault};
ghost use Rattle.file_calls.specs.Replies.{reply_of, base_at};
ghost use Rattle.file_calls.specs.Recorded.{TellsRecord, MayMiss};
ghost use Rattle.file_calls.specs.Goes.{Goes, StandsOn};

use crate::Told;
use crate::records::stat_of_id;
use crate::slots::opened;
use fd_table::{FdSlot, put};
use file_read::{no_header, read_from};
use flash_view::{StepErr, View};
use nor_core::{Nor, NorState};
use table_model::{FsErr, Stat, Whence};

/// The record of the file of an open descriptor, which is there.
pub fn record_of<N: Nor>(v: &mut View<'_, N>, id: u16) -> Result<Stat, FsErr>
    ensures cause { IsErrOf result FsErr.DeviceFault → Rose (N.faults v.old.nor.now) (N.faults v.new.nor.now) }
    ensures looks { OnlyLooks v.old v.new }
    ensures missed { IfErr result MayMiss }
    ensures told { N.tells v.old.nor.now → IsTidy v.old.geometry (N.bytes v.old.nor.now) →
        TellsRecord id (table_of v.old.geometry (N.bytes v.old.nor.now)) result }
{
    match stat_of_id(v, id)? {
        Some(stat) => Ok(stat),
        None => Err(FsErr::Damaged(no_header(id))),
    }
}

/// Tells the record of the file of a descriptor.
#[tactic(auto, using(flash_view::proofs::Looking::same_none))]
pub(crate) fn tell_open<N: Nor>(
    v: &mut View<'_, N>,
    slots: &[FdSlot],
    fd: u16,
) -> Result<Told, FsErr>
    requires fresh { v.old.wrote ≡ false }
    ensures same { IsSameView v.old v.new }
    ensures goes { (into : List ℕ) →
        Goes N.NorState v.old.geometry (StatsOpen fd) v.old.nor.now v.new.nor.now slots.now slots.now v.new.wrote (reply_of result into) }
    ensures counted { (into : List ℕ) → StandsOn N.NorState v.old.geometry v.old.nor.now slots.now (reply_of result into) v.old.counted v.new.counted }
{
    let slot = opened(slots, fd)?;
    let stat = record_of(v, slot.id)?;
    Ok(Told::File(stat))
}

// The place so far from another, where it is from 0 to a size.
fn within(size: u32, base: u32, offset: i64) -> Option<u32>
    ensures { result ≡ place_within size (pos base +ℤ offset) }
{
    let to = i128::from(base) + i128::from(offset);
    if to < 0 || to > i128::from(size) {
        None
    } else {
        Some(to as u32)
    }
}

// From where a seek counts.
fn base_of(from: Whence, offset: u32, size: u32) -> u32
    ensures { result ≡ base_at from offset size }
{
    match from {
        Whence::Set => 0,
        Whence::Cur => offset,
        Whence::End => size,
    }
}

/// Moves the offset of a descriptor.
#[tactic(auto, using(flash_view::proofs::Looking::same_none))]
pub(crate) fn seek_in<N: Nor>(
    v: &mut View<'_, N>,
    slots: &mut [FdSlot],
    fd: u16,
    offset: i64,
    from: Whence,
) -> Result<Told, FsErr>
    requires fresh { v.old.wrote ≡ false }
    ensures same { IsSameView v.old v.new }
    ensures goes { (into : List ℕ) →
        Goes N.NorState v.old.geometry (Seeks fd offset from) v.old.nor.now v.new.nor.now slots.old slots.new v.new.wrote (reply_of result into) }
    ensures counted { (into : List ℕ) → StandsOn N.NorState v.old.geometry v.old.nor.now slots.old (reply_of result into) v.old.counted v.new.counted }
{
    let slot = opened(slots, fd)?;
    let size = record_of(v, slot.id)?.size;
    let Some(at) = within(size, base_of(from, slot.offset, size), offset) else {
        return Err(FsErr::SeekBounds);
    };
    put(slots, fd, FdSlot { offset: at, ..slot });
    Ok(Told::Number(at))
}

// The bytes of a file from byte `at` on, as many as there are and fit. The answer is how many bytes were read.
#[tactic(auto, using(flash_view::proofs::Looking::looks_then))]
fn read_file<N: Nor>(v: &mut View<'_, N>, id: u16, at: u32, into: &mut [u8]) -> Result<u32, StepErr>
    ensures cause { IsErrOf result StepErr.DeviceFault → Rose (N.faults v.old.nor.now) (N.faults v.new.nor.now) }
    ensures looks { OnlyLooks v.old v.new }
    ensures missing { IfErr result (IsMissing id) }
    ensures within { IfOk result (λ n. (n ≤ length into.old) × (at + n < 2 ^ 32)) }
    ensures told { N.tells v.old.nor.now → IsTidy v.old.geometry (N.bytes v.old.nor.now) → (f : File) → IsFileOf v.old.geometry (N.bytes v.old.nor.now) id f →
        HoldsOrFault result (λ n. IsRead f at into.old into.new n) }
{
    match v.seek_header(id)? {
        Some(header) => read_from(v, id, header, at, into),
        None => Err(StepErr::Damaged(no_header(id))),
    }
}

/// Reads from the offset of a descriptor, as many bytes as there are and as are asked for.
#[tactic(auto, using(flash_view::proofs::Looking::same_none))]
pub(crate) fn read_in<N: Nor>(
    v: &mut View<'_, N>,
    slots: &mut [FdSlot],
    fd: u16,
    count: u32,
    into: &mut [u8],
) -> Result<Told, FsErr>
    requires fresh { v.old.wrote ≡ false }
    requires room { count ≤ length into.old }
    ensures same { IsSameView v.old v.new }
    ensures goes { Goes N.NorState v.old.geometry (Reads fd count) v.old.nor.now v.new.nor.now slots.old slots.new v.new.wrote (reply_of result into.new) }
    ensures counted { StandsOn N.NorState v.old.geometry v.old.nor.now slots.old (reply_of result into.new) v.old.counted v.new.counted }
{
    let slot = opened(slots, fd)?;
    if !slot.flags.may_read() {
        return Err(FsErr::NotReadable);
    }
    let read = read_file(v, slot.id, slot.offset, &mut into[..count as usize])?;
    put(
        slots,
        fd,
        FdSlot {
            offset: slot.offset + read,
            ..slot
        },
    );
    Ok(Told::Bytes(read))
}

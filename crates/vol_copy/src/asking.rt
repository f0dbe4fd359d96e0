// Calls of the target one by one.
ghost use Rattle.std.specs.Prelude.{◌≡◌, ◌≢◌, ◌<◌, ◌^◌, ℕ, List, length, Err};
ghost use Rattle.nor_core.specs.Count.{Rose};
ghost use Rattle.table_model.specs.declared.error.Differ.{Differ as Differs};
ghost use Rattle.table_model.specs.Reply.{Answer};
ghost use Rattle.table_model.specs.Ask.{asked, Opens, Reads, Writes, Removes, Stats, Informs};
ghost use Rattle.file_calls.specs.Replies.{HasRoomFor, shown_by};
ghost use Rattle.volume.specs.Same.{IsSameVolume};
ghost use Rattle.volume_run.specs.Resting.{Rested};
ghost use Rattle.vol_copy.specs.Went.{Went, stop_as, done_as, removed_as, stat_as, info_as, opened_as, wrote_as, ReadsAs};

use copy_model::CopyErr;
use nor_core::{Nor, NorState};
use table_model::{Call, FsErr, Info, Stat};
use volume::{Told, Volume};
use volume_run::call_at_rest;

/// The name that a file has while it is copied: the one byte 1.
pub(crate) const WORKING: [u8; 1] = [1];

// Why a copy stops at a call that was refused.
fn stop_of(why: FsErr) -> CopyErr
    ensures { result ≡ stop_as why }
{
    match why {
        FsErr::DeviceFault => CopyErr::ToFault,
        FsErr::Damaged(differ) => CopyErr::Damaged(differ),
        _ => CopyErr::Refused,
    }
}

// How a call went that told this, and that tells nothing.
fn done_by(told: &Told) -> Result<(), CopyErr>
    ensures { (lent : List ℕ) → result ≡ done_as (shown_by told.now lent) }
{
    match *told {
        Told::Done => Ok(()),
        Told::Refusal(why) => Err(stop_of(why)),
        _ => Err(CopyErr::Refused),
    }
}

/// Does a call that tells nothing.
pub(crate) fn perform<M: Nor>(to: &mut Volume<'_, M>, call: &Call<'_>) -> Result<(), CopyErr>
    requires room { HasRoomFor (asked call.now) 0 }
    ensures same { IsSameVolume to.old to.new }
    ensures cause { result ≡ Err CopyErr.ToFault → Rose (M.faults to.old.nor.now) (M.faults to.new.nor.now) }
    ensures differs { (d : Differs) → result ≡ Err (CopyErr.Damaged d) → d.wanted ≢ d.found }
    ensures went { Went done_as (asked call.now) to.old to.new result }
{
    done_by(&call_at_rest(to, call, &mut []))
}

// How a removal went that told this: a missing file is removed.
fn removed_by(told: &Told) -> Result<(), CopyErr>
    ensures { (lent : List ℕ) → result ≡ removed_as (shown_by told.now lent) }
{
    match *told {
        Told::Done => Ok(()),
        Told::Refusal(FsErr::NotFound) => Ok(()),
        Told::Refusal(why) => Err(stop_of(why)),
        _ => Err(CopyErr::Refused),
    }
}

/// Removes the file of a name, if there is one.
pub(crate) fn clear<M: Nor>(to: &mut Volume<'_, M>, name: &[u8]) -> Result<(), CopyErr>
    ensures same { IsSameVolume to.old to.new }
    ensures cause { result ≡ Err CopyErr.ToFault → Rose (M.faults to.old.nor.now) (M.faults to.new.nor.now) }
    ensures differs { (d : Differs) → result ≡ Err (CopyErr.Damaged d) → d.wanted ≢ d.found }
    ensures went { Went removed_as (Removes name.now) to.old to.new result }
{
    removed_by(&call_at_rest(to, &Call::Remove { name }, &mut []))
}

// How a look for a file's record went that told this.
fn stat_by(told: Told) -> Result<Option<Stat>, CopyErr>
    ensures { (lent : List ℕ) → result ≡ stat_as (shown_by told lent) }
{
    match told {
        Told::File(stat) => Ok(Some(stat)),
        Told::Refusal(FsErr::NotFound) => Ok(None),
        Told::Refusal(why) => Err(stop_of(why)),
        _ => Err(CopyErr::Refused),
    }
}

/// The record of the file of a name, if there is one.
pub(crate) fn stat_on<M: Nor>(to: &mut Volume<'_, M>, name: &[u8]) -> Result<Option<Stat>, CopyErr>
    ensures same { IsSameVolume to.old to.new }
    ensures cause { result ≡ Err CopyErr.ToFault → Rose (M.faults to.old.nor.now) (M.faults to.new.nor.now) }
    ensures differs { (d : Differs) → result ≡ Err (CopyErr.Damaged d) → d.wanted ≢ d.found }
    ensures went { Went stat_as (Stats name.now) to.old to.new result }
{
    stat_by(call_at_rest(to, &Call::StatName { name }, &mut []))
}

// How a look went that told this, how full the volume is.
fn info_by(told: &Told) -> Result<Info, CopyErr>
    ensures { (lent : List ℕ) → result ≡ info_as (shown_by told.now lent) }
{
    match *told {
        Told::Room(info) => Ok(info),
        Told::Refusal(why) => Err(stop_of(why)),
        _ => Err(CopyErr::Refused),
    }
}

/// How full the target is.
pub(crate) fn info_on<M: Nor>(to: &mut Volume<'_, M>) -> Result<Info, CopyErr>
    ensures same { IsSameVolume to.old to.new }
    ensures cause { result ≡ Err CopyErr.ToFault → Rose (M.faults to.old.nor.now) (M.faults to.new.nor.now) }
    ensures differs { (d : Differs) → result ≡ Err (CopyErr.Damaged d) → d.wanted ≢ d.found }
    ensures went { Went info_as Informs to.old to.new result }
{
    info_by(&call_at_rest(to, &Call::GetInfo, &mut []))
}

// How an opening went that told this: the descriptor, or None for want of room.
fn opened_by(told: &Told) -> Result<Option<u16>, CopyErr>
    ensures { (lent : List ℕ) → result ≡ opened_as (shown_by told.now lent) }
{
    match *told {
        Told::Number(fd) => {
            if fd < 0x1_0000 {
                Ok(Some(fd as u16))
            } else {
                Err(CopyErr::Refused)
            }
        }
        Told::Refusal(FsErr::Full) => Ok(None),
        Told::Refusal(why) => Err(stop_of(why)),
        _ => Err(CopyErr::Refused),
    }
}

/// Opens a file, and answers its descriptor, or None where there is no room to make it.
pub(crate) fn open_on<M: Nor>(
    to: &mut Volume<'_, M>,
    name: &[u8],
    flags: u32,
) -> Result<Option<u16>, CopyErr>
    ensures same { IsSameVolume to.old to.new }
    ensures cause { result ≡ Err CopyErr.ToFault → Rose (M.faults to.old.nor.now) (M.faults to.new.nor.now) }
    ensures differs { (d : Differs) → result ≡ Err (CopyErr.Damaged d) → d.wanted ≢ d.found }
    ensures went { Went opened_as (Opens name.now flags) to.old to.new result }
{
    opened_by(&call_at_rest(to, &Call::OpenFile { name, flags }, &mut []))
}

// How a read of so many bytes went that told this.
fn read_by(told: &Told, count: u32) -> Result<(), CopyErr>
    ensures { (lent : List ℕ) → length lent ≡ count → ReadsAs lent (shown_by told.now lent) result }
{
    match *told {
        Told::Bytes(read) => {
            if read < count {
                Err(CopyErr::Refused)
            } else {
                Ok(())
            }
        }
        Told::Refusal(why) => Err(stop_of(why)),
        _ => Err(CopyErr::Refused),
    }
}

/// Fills these bytes from the offset of a descriptor on.
pub(crate) fn read_on<M: Nor>(
    to: &mut Volume<'_, M>,
    fd: u16,
    into: &mut [u8],
) -> Result<(), CopyErr>
    requires few { length into.old < 2 ^ 32 }
    ensures size { length into.new ≡ length into.old }
    ensures same { IsSameVolume to.old to.new }
    ensures cause { result ≡ Err CopyErr.ToFault → Rose (M.faults to.old.nor.now) (M.faults to.new.nor.now) }
    ensures differs { (d : Differs) → result ≡ Err (CopyErr.Damaged d) → d.wanted ≢ d.found }
    ensures went { (reply : Answer) × Rested (Reads fd (length into.old)) to.old to.new reply × ReadsAs into.new reply result }
{
    let count = into.len() as u32;
    read_by(&call_at_rest(to, &Call::Read { fd, count }, into), count)
}

// How a write went that told this: whether there was room.
fn wrote_by(told: &Told) -> Result<bool, CopyErr>
    ensures { (lent : List ℕ) → result ≡ wrote_as (shown_by told.now lent) }
{
    match *told {
        Told::Number(_) => Ok(true),
        Told::Refusal(FsErr::Full) => Ok(false),
        Told::Refusal(why) => Err(stop_of(why)),
        _ => Err(CopyErr::Refused),
    }
}

/// Writes bytes through a descriptor, and answers whether there was room.
pub(crate) fn write_on<M: Nor>(
    to: &mut Volume<'_, M>,
    fd: u16,
    bytes: &[u8],
) -> Result<bool, CopyErr>
    ensures same { IsSameVolume to.old to.new }
    ensures cause { result ≡ Err CopyErr.ToFault → Rose (M.faults to.old.nor.now) (M.faults to.new.nor.now) }
    ensures differs { (d : Differs) → result ≡ Err (CopyErr.Damaged d) → d.wanted ≢ d.found }
    ensures went { Went wrote_as (Writes fd bytes.now) to.old to.new result }
{
    wrote_by(&call_at_rest(to, &Call::Write { fd, bytes }, &mut []))
}

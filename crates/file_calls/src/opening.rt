ghost use Rattle.std.specs.Prelude.{◌≡◌, ◌<◌, ◌≤◌, ℕ, List, length, Some, None, Ok, IsErrOf, IfOk, IfErr, true, false};
ghost use Rattle.geometry.specs.Numbers.{usable};
ghost use Rattle.nor_core.specs.Count.{Rose};
ghost use Rattle.flash_view.specs.Same.{IsSameView, OnlyLooks};
ghost use Rattle.table_model.specs.Ask.{Opens};
ghost use Rattle.table_model.specs.Names.{name_refusal};
ghost use Rattle.table_model.specs.Descriptors.{is_bad_flags as the_bad_flags, makes, new_open};
ghost use Rattle.image_model.specs.Tables.{table_of};
ghost use Rattle.image_model.specs.Tidy.{IsTidy};
ghost use Rattle.fd_table.specs.Slots.{descriptors, put_at};
ghost use Rattle.file_calls.specs.Opens.{TakesSlot, FindsOpened};
ghost use Rattle.file_calls.specs.Replies.{reply_of, may_meet, may_refuse};
ghost use Rattle.file_calls.specs.Goes.{Goes, StandsOn};

use crate::Told;
use crate::collecting::take_page;
use crate::create::prepare;
use crate::names::accept;
use crate::reading::record_of;
use crate::room::have_room;
use crate::truncating::cut_file;
use fd_table::{FdErr, FdSlot, first_closed, pull_file_back, put};
use file_write::create_step;
use flash_view::View;
use nor_core::{Nor, NorState};
use table_model::{FsErr, OpenFlags};

/// The file becomes empty as it is opened.
const TRUNC: u32 = 2;
/// The file is made where it is missing.
const CREAT: u32 = 4;
/// The descriptor may write.
const WRONLY: u32 = 16;
/// A file that is there is refused, where it is to be made too.
const EXCL: u32 = 64;

// Flags with a bit above the seven, or to empty a file that may not be written.
fn is_bad_flags(flags: u32) -> bool
    ensures { result ≡ the_bad_flags flags }
{
    flags > 127 || (flags & TRUNC != 0 && flags & WRONLY == 0)
}

// The descriptor of an opening, where the flags are fine.
fn take_slot(slots: &[FdSlot], flags: u32) -> Result<u16, FsErr>
    ensures within { IfOk result (λ fd. (0 < fd) × (fd ≤ length slots.now)) }
    ensures small { IfOk result (λ fd. fd < 65536) }
    ensures among { IfErr result (λ why. (name : List ℕ) → may_refuse (Opens name flags) why ≡ true) }
    ensures told { TakesSlot flags (descriptors slots.now) result }
{
    if is_bad_flags(flags) {
        return Err(FsErr::BadFlags);
    }
    match first_closed(slots) {
        Ok(fd) => Ok(fd),
        Err(FdErr::OutOfDescriptors | FdErr::BadDescriptor) => Err(FsErr::OutOfDescriptors),
    }
}

// The id of the file of an opening, or none where it is to be made.
fn find_opened<N: Nor>(v: &mut View<'_, N>, name: &[u8], flags: u32) -> Result<Option<u16>, FsErr>
    ensures cause { IsErrOf result FsErr.DeviceFault → Rose (N.faults v.old.nor.now) (N.faults v.new.nor.now) }
    ensures looks { OnlyLooks v.old v.new }
    ensures among { IfErr result (λ why. may_meet (Opens name.now flags) why ≡ true) }
    ensures making { IfOk result (λ found. found ≡ None → makes flags ≡ true) }
    ensures told { N.tells v.old.nor.now → IsTidy v.old.geometry (N.bytes v.old.nor.now) →
        FindsOpened name.now flags (table_of v.old.geometry (N.bytes v.old.nor.now)) result }
{
    match v.seek_name(name)? {
        Some(id) => {
            if flags & CREAT != 0 && flags & EXCL != 0 {
                Err(FsErr::FileExists)
            } else {
                Ok(Some(id))
            }
        }
        None => {
            if flags & CREAT != 0 {
                Ok(None)
            } else {
                Err(FsErr::NotFound)
            }
        }
    }
}

// The flags of a number up to 127.
fn flags_of(flags: u32) -> OpenFlags
    requires { flags ≤ 127 }
    ensures { result ≡ flags }
{
    match OpenFlags::of_number(flags) {
        Some(flags) => flags,
        None => OpenFlags::NONE,
    }
}

// Opens a descriptor on a file, at its first byte.
fn open_at(slots: &mut [FdSlot], fd: u16, id: u16, flags: u32)
    requires some { 0 < fd }
    requires within { fd ≤ length slots.old }
    requires flags { flags ≤ 127 }
    ensures { descriptors slots.new ≡ put_at (descriptors slots.old) fd (Some (new_open id flags)) }
{
    put(
        slots,
        fd,
        FdSlot {
            used: true,
            id,
            flags: flags_of(flags),
            offset: 0,
        },
    );
}

// Opens a descriptor on a file that was found, which becomes empty where the flags say so.
#[tactic(auto, using(flash_view::proofs::Looking::same_then, flash_view::proofs::Looking::same_none))]
fn open_found<N: Nor>(
    v: &mut View<'_, N>,
    slots: &mut [FdSlot],
    name: &[u8],
    fd: u16,
    id: u16,
    flags: u32,
) -> Result<Told, FsErr>
    requires fresh { v.old.wrote ≡ false }
    requires within { (0 < fd) × (fd ≤ length slots.old) }
    requires named { name_refusal name.now ≡ None }
    requires slot { TakesSlot flags (descriptors slots.old) (Ok fd) }
    requires found { N.tells v.old.nor.now → IsTidy v.old.geometry (N.bytes v.old.nor.now) →
        FindsOpened name.now flags (table_of v.old.geometry (N.bytes v.old.nor.now)) (Ok (Some id)) }
    ensures same { IsSameView v.old v.new }
    ensures goes { (into : List ℕ) →
        Goes N.NorState v.old.geometry (Opens name.now flags) v.old.nor.now v.new.nor.now slots.old slots.new v.new.wrote (reply_of result into) }
    ensures counted { (into : List ℕ) → StandsOn N.NorState v.old.geometry v.old.nor.now slots.old (reply_of result into) v.old.counted v.new.counted }
{
    if flags & TRUNC == 0 {
        open_at(slots, fd, id, flags);
        return Ok(Told::Number(u32::from(fd)));
    }
    let size = record_of(v, id)?.size;
    if size == 0 {
        open_at(slots, fd, id, flags);
        return Ok(Told::Number(u32::from(fd)));
    }
    have_room(v, size, 0)?;
    if !cut_file(v, id, 0)? {
        return Err(FsErr::Tight);
    }
    pull_file_back(slots, id, 0);
    open_at(slots, fd, id, flags);
    Ok(Told::Number(u32::from(fd)))
}

/// Opens the file of a name, or makes it where the flags say so; where they say so it becomes empty.
#[tactic(auto, using(flash_view::proofs::Looking::same_then, flash_view::proofs::Looking::same_none))]
pub(crate) fn open_in<N: Nor>(
    v: &mut View<'_, N>,
    slots: &mut [FdSlot],
    name: &[u8],
    flags: u32,
) -> Result<Told, FsErr>
    requires usable { usable v.old.geometry ≤ 32766 }
    requires fresh { v.old.wrote ≡ false }
    ensures same { IsSameView v.old v.new }
    ensures goes { (into : List ℕ) →
        Goes N.NorState v.old.geometry (Opens name.now flags) v.old.nor.now v.new.nor.now slots.old slots.new v.new.wrote (reply_of result into) }
    ensures counted { (into : List ℕ) → StandsOn N.NorState v.old.geometry v.old.nor.now slots.old (reply_of result into) v.old.counted v.new.counted }
{
    accept(name)?;
    let fd = take_slot(slots, flags)?;
    if let Some(id) = find_opened(v, name, flags)? {
        return open_found(v, slots, name, fd, id, flags);
    }
    let id = prepare(v)?;
    take_page(v)?;
    create_step(v, id, name)?;
    open_at(slots, fd, id, flags);
    Ok(Told::Number(u32::from(fd)))
}

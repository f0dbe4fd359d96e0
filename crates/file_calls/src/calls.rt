ghost use Rattle.std.specs.Prelude.{◌≡◌, ◌≤◌, length, false};
ghost use Rattle.geometry.specs.Numbers.{usable};
ghost use Rattle.flash_view.specs.Same.{IsSameView};
ghost use Rattle.table_model.specs.Ask.{asked};
ghost use Rattle.file_calls.specs.Replies.{reply_of, is_write, HasRoomFor};
ghost use Rattle.file_calls.specs.Goes.{Goes, StandsOn};

use crate::Told;
use crate::collecting::collect_in;
use crate::create::create_in;
use crate::looking::{tell_info, tell_next, tell_stat};
use crate::opening::open_in;
use crate::reading::{read_in, seek_in, tell_open};
use crate::remove::{remove_in, remove_open};
use crate::restating::{rename_in, set_meta, set_meta_open};
use crate::slots::{close_in, flush_in, tell_in};
use crate::truncating::truncate_in;
use fd_table::FdSlot;
use flash_view::View;
use nor_core::{Nor, NorState};
use table_model::{Call, FsErr};

/// Does a call that writes no bytes, on a checked volume where none wait. The bytes that a read gets stand at the front of `into`.
/// The errors are the call's own refusals, in the order of the flat table, `DeviceFault` where the device fails, and `Damaged` where a
/// page reads otherwise than it was written.
pub fn call_in<N: Nor>(
    v: &mut View<'_, N>,
    slots: &mut [FdSlot],
    call: &Call<'_>,
    into: &mut [u8],
) -> Result<Told, FsErr>
    requires usable { usable v.old.geometry ≤ 32766 }
    requires fresh { v.old.wrote ≡ false }
    requires room { HasRoomFor (asked call.now) (length into.old) }
    requires no_write { is_write (asked call.now) ≡ false }
    ensures same { IsSameView v.old v.new }
    ensures goes { Goes N.NorState v.old.geometry (asked call.now) v.old.nor.now v.new.nor.now slots.old slots.new v.new.wrote (reply_of result into.new) }
    ensures counted { StandsOn N.NorState v.old.geometry v.old.nor.now slots.old (reply_of result into.new) v.old.counted v.new.counted }
{
    match *call {
        Call::Create { name } => create_in(v, name),
        Call::OpenFile { name, flags } => open_in(v, slots, name, flags),
        Call::Read { fd, count } => read_in(v, slots, fd, count, into),
        Call::Write { .. } | Call::Fill { .. } => unreachable!(),
        Call::Seek { fd, offset, from } => seek_in(v, slots, fd, offset, from),
        Call::Tell { fd } => tell_in(slots, fd),
        Call::Truncate { fd, size } => truncate_in(v, slots, fd, size),
        Call::Flush { fd } => flush_in(slots, fd),
        Call::Close { fd } => close_in(slots, fd),
        Call::Remove { name } => remove_in(v, slots, name),
        Call::FRemove { fd } => remove_open(v, slots, fd),
        Call::Rename { old_name, new_name } => rename_in(v, old_name, new_name),
        Call::StatName { name } => tell_stat(v, name),
        Call::FStat { fd } => tell_open(v, slots, fd),
        Call::Next { after } => tell_next(v, after),
        Call::GetInfo => tell_info(v),
        Call::Gc => collect_in(v),
        Call::SetMeta { name, meta } => set_meta(v, name, meta),
        Call::FSetMeta { fd, meta } => set_meta_open(v, slots, fd, meta),
    }
}

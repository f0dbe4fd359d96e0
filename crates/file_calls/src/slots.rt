ghost use Rattle.std.specs.Prelude.{◌≡◌, ℕ, ◌<◌, ◌≤◌, length, Some, None, true, IfOk, IfErr, OnOk, OnErr};
ghost use Rattle.table_model.specs.Ask.{Tells, Flushes, Closes};
ghost use Rattle.fd_table.specs.Slots.{descriptors, open_at, opened as the_open};
ghost use Rattle.file_calls.specs.Moves.{Moves};

use crate::Told;
use fd_table::{FdErr, FdSlot, open_slot, put};
use table_model::FsErr;

/// The slot of an open descriptor.
pub fn opened(slots: &[FdSlot], fd: u16) -> Result<FdSlot, FsErr>
    ensures within { OnOk result ((0 < fd) × (fd ≤ length slots.now)) }
    ensures used { IfOk result (λ s. s.used ≡ true) }
    ensures found { IfOk result (λ s. open_at (descriptors slots.now) fd ≡ Some (the_open s)) }
    ensures closed { OnErr result (open_at (descriptors slots.now) fd ≡ None) }
    ensures error { IfErr result (λ why. why ≡ FsErr.BadDescriptor) }
{
    match open_slot(slots, fd) {
        Ok(slot) => Ok(slot),
        Err(FdErr::BadDescriptor | FdErr::OutOfDescriptors) => Err(FsErr::BadDescriptor),
    }
}

/// Tells the offset of a descriptor.
pub fn tell_in(slots: &[FdSlot], fd: u16) -> Result<Told, FsErr>
    ensures { Moves (Tells fd) slots.now slots.now result }
{
    let slot = opened(slots, fd)?;
    Ok(Told::Number(slot.offset))
}

/// Flushes a descriptor: nothing waits.
pub(crate) fn flush_in(slots: &[FdSlot], fd: u16) -> Result<Told, FsErr>
    ensures { Moves (Flushes fd) slots.now slots.now result }
{
    opened(slots, fd)?;
    Ok(Told::Done)
}

/// Closes a descriptor.
pub(crate) fn close_in(slots: &mut [FdSlot], fd: u16) -> Result<Told, FsErr>
    ensures { Moves (Closes fd) slots.old slots.new result }
{
    let slot = opened(slots, fd)?;
    put(
        slots,
        fd,
        FdSlot {
            used: false,
            ..slot
        },
    );
    Ok(Told::Done)
}

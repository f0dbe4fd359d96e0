ghost use Rattle.std.specs.Prelude.{◌≡◌, ℕ, ◌+◌, ◌-◌, ◌<◌, ◌≤◌, length, map, replicate, min, true, Some, None, IfOk, IfErr, OnOk, OnErr};
ghost use Rattle.fd_table.specs.Slots.{descriptors, held, opened, open_at, put_at, lowest_closed, without_file, pulled_back};

use crate::{FdErr, FdSlot};

/// How many of the slots are used at most.
const MOST: usize = 65535;

/// Closes every slot.
pub(crate) fn close(slots: &mut [FdSlot])
    ensures { descriptors slots.new ≡ replicate (min 65535 (length slots.old)) None }
{
    for slot in slots.iter_mut() {
        slot.used = false;
    }
}

/// The lowest closed descriptor.
pub fn first_closed(slots: &[FdSlot]) -> Result<u16, FdErr>
    ensures within { IfOk result (λ fd. (0 < fd) × (fd ≤ length slots.now)) }
    ensures lowest { IfOk result (λ fd. lowest_closed (descriptors slots.now) ≡ Some fd) }
    ensures full { OnErr result (lowest_closed (descriptors slots.now) ≡ None) }
    ensures error { IfErr result (λ e. e ≡ FdErr.OutOfDescriptors) }
{
    for (at, slot) in slots.iter().enumerate() {
        if at == MOST {
            return Err(FdErr::OutOfDescriptors);
        }
        if !slot.used {
            return Ok(at as u16 + 1);
        }
    }
    Err(FdErr::OutOfDescriptors)
}

/// The slot of an open descriptor.
pub fn open_slot(slots: &[FdSlot], fd: u16) -> Result<FdSlot, FdErr>
    ensures within { OnOk result ((0 < fd) × (fd ≤ length slots.now)) }
    ensures used { IfOk result (λ s. s.used ≡ true) }
    ensures found { IfOk result (λ s. open_at (descriptors slots.now) fd ≡ Some (opened s)) }
    ensures closed { OnErr result (open_at (descriptors slots.now) fd ≡ None) }
    ensures error { IfErr result (λ e. e ≡ FdErr.BadDescriptor) }
{
    if fd == 0 || slots.len() < usize::from(fd) {
        return Err(FdErr::BadDescriptor);
    }
    let slot = slots[usize::from(fd) - 1];
    if slot.used {
        Ok(slot)
    } else {
        Err(FdErr::BadDescriptor)
    }
}

/// Puts a slot in the place of a descriptor.
pub fn put(slots: &mut [FdSlot], fd: u16, slot: FdSlot)
    requires some { 0 < fd }
    requires within { fd ≤ length slots.old }
    ensures { descriptors slots.new ≡ put_at (descriptors slots.old) fd (held slot) }
{
    slots[usize::from(fd) - 1] = slot;
}

// A slot, closed where it is on that file.
fn without(slot: FdSlot, id: u16) -> FdSlot
    ensures { held result ≡ without_file id (held slot) }
{
    FdSlot {
        used: slot.used && slot.id != id,
        ..slot
    }
}

/// Closes each slot on a file.
pub fn close_file(slots: &mut [FdSlot], id: u16)
    ensures { descriptors slots.new ≡ map (without_file id) (descriptors slots.old) }
{
    for slot in slots.iter_mut() {
        *slot = without(*slot, id);
    }
}

// A slot, pulled back to that offset at most where it is on that file.
fn pulled(slot: FdSlot, id: u16, size: u32) -> FdSlot
    ensures { held result ≡ pulled_back id size (held slot) }
{
    if slot.id == id {
        FdSlot {
            offset: slot.offset.min(size),
            ..slot
        }
    } else {
        slot
    }
}

/// Pulls each slot on a file back.
pub fn pull_file_back(slots: &mut [FdSlot], id: u16, size: u32)
    ensures { descriptors slots.new ≡ map (pulled_back id size) (descriptors slots.old) }
{
    for slot in slots.iter_mut() {
        *slot = pulled(*slot, id, size);
    }
}

ghost use Rattle.std.specs.Prelude.{◌≡◌, ℕ, ◌+◌, ◌-◌, ◌<◌, ◌≤◌, length, map, replicate, min, true, Some, None, IsSome, IfOk, IfErr, OnOk, OnErr, option_map};
ghost use Rattle.fd_table.specs.Slots.{descriptors, opened, open_at, put_at, lowest_closed, new_open, at_offset, without_file, pulled_back};
ghost use Rattle.fd_table.specs.Seen.{seen};

use crate::slots::{close, close_file, first_closed, open_slot, pull_file_back, put};
use crate::{FdErr, FdSlot};
use table_model::OpenFlags;

/// The descriptors of a volume, in lent slots. They are numbered from 1, and at most the first 65,535 slots
/// are used.
#[derive(Drop)]
pub struct FdTable<'b> {
    slots: &'b mut [FdSlot],
}

impl<'b> FdTable<'b> {
    /// A table of these slots, in which every descriptor is closed.
    pub fn new(slots: &'b mut [FdSlot]) -> FdTable<'b>
        ensures closed { seen result ≡ replicate (min 65535 (length slots.old)) None }
        ensures same_slots { result.slots.ghost_name ≡ slots.entry.ghost_name }
    {
        close(slots);
        FdTable { slots }
    }

    /// Opens the lowest closed descriptor on a file, at offset 0, and answers its number.
    pub fn take(&mut self, id: u16, flags: OpenFlags) -> Result<u16, FdErr>
        ensures lowest { IfOk result (λ fd. lowest_closed (seen self.old) ≡ Some fd) }
        ensures opened { IfOk result (λ fd. seen self.new ≡ put_at (seen self.old) fd (Some (new_open id flags))) }
        ensures full { OnErr result (lowest_closed (seen self.old) ≡ None) }
        ensures error { IfErr result (λ e. e ≡ FdErr.OutOfDescriptors) }
        ensures unchanged { OnErr result (seen self.new ≡ seen self.old) }
        ensures same_slots { self.new.slots.ghost_name ≡ self.old.slots.ghost_name }
    {
        let fd = self.lowest_closed()?;
        let slot = FdSlot {
            used: true,
            id,
            flags,
            offset: 0,
        };
        put(self.slots, fd, slot);
        Ok(fd)
    }

    // The lowest closed descriptor.
    fn lowest_closed(&self) -> Result<u16, FdErr>
        ensures within { IfOk result (λ fd. (0 < fd) × (fd ≤ length self.now.slots.now)) }
        ensures lowest { IfOk result (λ fd. lowest_closed (seen self.now) ≡ Some fd) }
        ensures full { OnErr result (lowest_closed (seen self.now) ≡ None) }
        ensures error { IfErr result (λ e. e ≡ FdErr.OutOfDescriptors) }
    {
        first_closed(self.slots)
    }

    /// What an open descriptor holds.
    pub fn get(&self, fd: u16) -> Result<FdSlot, FdErr>
        ensures found { IfOk result (λ s. (s.used ≡ true) × (open_at (seen self.now) fd ≡ Some (opened s))) }
        ensures within { OnOk result ((0 < fd) × (fd ≤ length self.now.slots.now)) }
        ensures closed { OnErr result (open_at (seen self.now) fd ≡ None) }
        ensures error { IfErr result (λ e. e ≡ FdErr.BadDescriptor) }
    {
        open_slot(self.slots, fd)
    }

    /// Moves an open descriptor to an offset in bytes.
    pub fn move_to(&mut self, fd: u16, offset: u32) -> Result<(), FdErr>
        ensures found { OnOk result (IsSome (open_at (seen self.old) fd)) }
        ensures moved { OnOk result (seen self.new ≡ put_at (seen self.old) fd (option_map (at_offset offset) (open_at (seen self.old) fd))) }
        ensures closed { OnErr result (open_at (seen self.old) fd ≡ None) }
        ensures error { IfErr result (λ e. e ≡ FdErr.BadDescriptor) }
        ensures unchanged { OnErr result (seen self.new ≡ seen self.old) }
        ensures same_slots { self.new.slots.ghost_name ≡ self.old.slots.ghost_name }
    {
        let slot = self.get(fd)?;
        put(self.slots, fd, FdSlot { offset, ..slot });
        Ok(())
    }

    /// Closes a descriptor.
    pub fn give(&mut self, fd: u16) -> Result<(), FdErr>
        ensures found { OnOk result (IsSome (open_at (seen self.old) fd)) }
        ensures given { OnOk result (seen self.new ≡ put_at (seen self.old) fd None) }
        ensures closed { OnErr result (open_at (seen self.old) fd ≡ None) }
        ensures error { IfErr result (λ e. e ≡ FdErr.BadDescriptor) }
        ensures unchanged { OnErr result (seen self.new ≡ seen self.old) }
        ensures same_slots { self.new.slots.ghost_name ≡ self.old.slots.ghost_name }
    {
        let slot = self.get(fd)?;
        let closed = FdSlot {
            used: false,
            ..slot
        };
        put(self.slots, fd, closed);
        Ok(())
    }

    /// Closes every descriptor on a file.
    pub fn close_all(&mut self, id: u16)
        ensures closed { seen self.new ≡ map (without_file id) (seen self.old) }
        ensures same_slots { self.new.slots.ghost_name ≡ self.old.slots.ghost_name }
    {
        close_file(self.slots, id);
    }

    /// Moves every descriptor on a file that stands beyond `size` bytes back to there.
    pub fn pull_back(&mut self, id: u16, size: u32)
        ensures pulled { seen self.new ≡ map (pulled_back id size) (seen self.old) }
        ensures same_slots { self.new.slots.ghost_name ≡ self.old.slots.ghost_name }
    {
        pull_file_back(self.slots, id, size);
    }

    /// The lent slots.
    pub fn give_back(self) -> &'b mut [FdSlot]
        ensures slots { result.now ≡ self.entry.slots.now }
        ensures same_slots { result.ghost_name ≡ self.entry.slots.ghost_name }
    {
        let FdTable { slots } = self;
        slots
    }
}

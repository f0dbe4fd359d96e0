ghost use Rattle.std.specs.Prelude.{◌≡◌, IfOk};
ghost use Rattle.table_model.specs.Calls.{answer_read, answer_tell, answer_close, answer_fremove, answer_fstat};
ghost use Rattle.plain_table.specs.Seen.{said, state_of};

use crate::bytes::{behind, front};
use crate::copies::without_id;
use crate::counts::counted;
use crate::search::find_id;
use crate::slots::{open_at, put_at, without_all};
use crate::{Flat, PlainOpen, Said};
use std::alloc::AllocError;
use table_model::FsErr;

impl Flat {
    /// Tells a descriptor's offset.
    #[tactic(auto, unfolding(table_model::specs::Calls::answer_tell))]
    pub fn tell(&self, fd: u16) -> Said
        ensures answer { said result ≡ (answer_tell (state_of self.now) fd).answer }
        ensures next { state_of self.now ≡ (answer_tell (state_of self.now) fd).next }
    {
        match open_at(self.slots.as_slice(), fd) {
            Some(d) => Said::Number(d.offset),
            None => Said::Refusal(FsErr::BadDescriptor),
        }
    }

    /// Closes a descriptor.
    #[tactic(auto, unfolding(table_model::specs::Calls::answer_close))]
    pub fn close(&mut self, fd: u16) -> Said
        ensures answer { said result ≡ (answer_close (state_of self.old) fd).answer }
        ensures next { state_of self.new ≡ (answer_close (state_of self.old) fd).next }
        ensures geometry { self.new.geometry ≡ self.old.geometry }
    {
        match open_at(self.slots.as_slice(), fd) {
            Some(_) => {
                put_at(self.slots.as_mut_slice(), usize::from(fd), None);
                Said::Done
            }
            None => Said::Refusal(FsErr::BadDescriptor),
        }
    }

    /// Tells the record of a descriptor's file. Wants memory for it.
    #[tactic(auto, unfolding(table_model::specs::Calls::answer_fstat))]
    pub fn fstat(&self, fd: u16) -> Result<Said, AllocError>
        ensures answer { IfOk result (λ r. said r ≡ (answer_fstat (state_of self.now) fd).answer) }
        ensures next { state_of self.now ≡ (answer_fstat (state_of self.now) fd).next }
    {
        let Some(d) = open_at(self.slots.as_slice(), fd) else {
            return Ok(Said::Refusal(FsErr::BadDescriptor));
        };
        match find_id(self.files.as_slice(), d.id) {
            Some(f) => Ok(Said::File(f.copied(self.alloc)?)),
            None => Ok(Said::Refusal(FsErr::BadDescriptor)),
        }
    }

    /// Reads at most `count` bytes from a descriptor's offset. Wants memory for them.
    #[tactic(auto, unfolding(table_model::specs::Calls::answer_read))]
    pub fn read(&mut self, fd: u16, count: u32) -> Result<Said, AllocError>
        ensures answer { IfOk result (λ r. said r ≡ (answer_read (state_of self.old) fd count).answer) }
        ensures next { IfOk result (λ r. state_of self.new ≡ (answer_read (state_of self.old) fd count).next) }
        ensures geometry { self.new.geometry ≡ self.old.geometry }
    {
        let Some(d) = open_at(self.slots.as_slice(), fd) else {
            return Ok(Said::Refusal(FsErr::BadDescriptor));
        };
        let Some(f) = find_id(self.files.as_slice(), d.id) else {
            return Ok(Said::Refusal(FsErr::BadDescriptor));
        };
        if d.flags & 8 == 0 {
            return Ok(Said::Refusal(FsErr::NotReadable));
        }
        let rest = behind(self.alloc, f.bytes.as_slice(), d.offset as usize)?;
        let bytes = front(self.alloc, rest.as_slice(), count as usize)?;
        let len = counted(bytes.len() as u64)?;
        let offset = counted(u64::from(d.offset) + len)? as u32;
        put_at(
            self.slots.as_mut_slice(),
            usize::from(fd),
            Some(PlainOpen { offset, ..d }),
        );
        Ok(Said::Bytes(bytes))
    }

    /// Removes the file of a descriptor, and closes each descriptor on it. Wants memory for the table after it.
    #[tactic(auto, unfolding(table_model::specs::Calls::answer_fremove, table_model::specs::Files::without))]
    pub fn fremove(&mut self, fd: u16) -> Result<Said, AllocError>
        ensures answer { IfOk result (λ r. said r ≡ (answer_fremove (state_of self.old) fd).answer) }
        ensures next { IfOk result (λ r. state_of self.new ≡ (answer_fremove (state_of self.old) fd).next) }
        ensures geometry { self.new.geometry ≡ self.old.geometry }
    {
        let Some(d) = open_at(self.slots.as_slice(), fd) else {
            return Ok(Said::Refusal(FsErr::BadDescriptor));
        };
        let Some(f) = find_id(self.files.as_slice(), d.id) else {
            return Ok(Said::Refusal(FsErr::BadDescriptor));
        };
        let slots = without_all(self.alloc, self.slots.as_slice(), f.id)?;
        let files = without_id(self.alloc, self.files.as_slice(), f.id)?;
        self.files = files;
        self.slots = slots;
        Ok(Said::Done)
    }
}

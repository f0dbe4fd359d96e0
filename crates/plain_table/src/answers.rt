ghost use Rattle.std.specs.Prelude.{◌≡◌, pos, ◌+ℤ◌, replicate, IfOk};
ghost use Rattle.table_model.specs.Ask.{asked};
ghost use Rattle.table_model.specs.Calls.{answer_flush, answer_seek, answer_write, info_of};
ghost use Rattle.table_model.specs.Files.{place_within};
ghost use Rattle.table_model.specs.Flat.{answer};
ghost use Rattle.plain_table.specs.Seen.{said, state_of};

use crate::counts::{counted, data_count, index_count};
use crate::search::find_id;
use crate::slots::{open_at, put_at};
use crate::{Flat, PlainOpen, Said};
use std::alloc::AllocError;
use table_model::{Call, FsErr, Info, Whence};

impl Flat {
    /// Flushes a descriptor: that changes no state.
    #[tactic(auto, unfolding(table_model::specs::Calls::answer_flush))]
    pub fn flush(&self, fd: u16) -> Said
        ensures answer { said result ≡ (answer_flush (state_of self.now) fd).answer }
        ensures next { state_of self.now ≡ (answer_flush (state_of self.now) fd).next }
    {
        match open_at(self.slots.as_slice(), fd) {
            Some(_) => Said::Done,
            None => Said::Refusal(FsErr::BadDescriptor),
        }
    }

    /// Tells how full the volume is.
    pub fn info(&self) -> Result<Info, AllocError>
        ensures { IfOk result (λ info. info ≡ info_of self.now.geometry (state_of self.now).table) }
    {
        let g = &self.geometry;
        let usable = u64::from(g.blocks() - 2) * u64::from(g.entries());
        Ok(Info {
            files: counted(self.files.len() as u64)? as u32,
            index_pages: index_count(g, self.files.as_slice())? as u32,
            data_pages: data_count(g, self.files.as_slice())? as u32,
            usable_pages: counted(usable)? as u32,
        })
    }

    /// Answers a call as the flat model does, and moves to the state after it. `spare` says whether at least two blocks
    /// are free. Wants memory for the table after the call.
    #[tactic(auto, unfolding(table_model::specs::Flat::answer))]
    pub fn answer(&mut self, spare: bool, call: &Call<'_>) -> Result<Said, AllocError>
        ensures answer { IfOk result (λ r. said r ≡ (answer self.old.geometry spare (state_of self.old) (asked call.now)).answer) }
        ensures next { IfOk result (λ r. state_of self.new ≡ (answer self.old.geometry spare (state_of self.old) (asked call.now)).next) }
        ensures geometry { self.new.geometry ≡ self.old.geometry }
    {
        match *call {
            Call::Create { name } => self.create(spare, name),
            Call::OpenFile { name, flags } => self.open_file(spare, name, flags),
            Call::Read { fd, count } => self.read(fd, count),
            Call::Write { fd, bytes } => self.write(spare, fd, bytes),
            Call::Fill { fd, count, byte } => self.fill(spare, fd, count, byte),
            Call::Seek { fd, offset, from } => self.seek(fd, offset, from),
            Call::Tell { fd } => Ok(self.tell(fd)),
            Call::Truncate { fd, size } => self.truncate(spare, fd, size),
            Call::Flush { fd } => Ok(self.flush(fd)),
            Call::Close { fd } => Ok(self.close(fd)),
            Call::Remove { name } => self.remove(name),
            Call::FRemove { fd } => self.fremove(fd),
            Call::Rename { old_name, new_name } => self.rename(spare, old_name, new_name),
            Call::StatName { name } => self.stat(name),
            Call::FStat { fd } => self.fstat(fd),
            Call::Next { after } => self.next(after),
            Call::GetInfo => Ok(Said::Room(self.info()?)),
            Call::Gc => Ok(Said::Done),
            Call::SetMeta { name, meta } => self.set_meta(spare, name, meta),
            Call::FSetMeta { fd, meta } => self.set_open_meta(spare, fd, meta),
        }
    }

    // Writes so many bytes of one value.
    fn fill(&mut self, spare: bool, fd: u16, count: u32, byte: u8) -> Result<Said, AllocError>
        ensures answer { IfOk result (λ r. said r ≡ (answer_write self.old.geometry spare (state_of self.old) fd (replicate count byte)).answer) }
        ensures next { IfOk result (λ r. state_of self.new ≡ (answer_write self.old.geometry spare (state_of self.old) fd (replicate count byte)).next) }
        ensures geometry { self.new.geometry ≡ self.old.geometry }
    {
        let bytes = vec![in self.alloc; byte; count as usize]?;
        self.write(spare, fd, bytes.as_slice())
    }

    // Moves a descriptor's offset.
    #[tactic(auto, unfolding(table_model::specs::Calls::answer_seek))]
    fn seek(&mut self, fd: u16, offset: i64, from: Whence) -> Result<Said, AllocError>
        ensures answer { IfOk result (λ r. said r ≡ (answer_seek (state_of self.old) fd offset from).answer) }
        ensures next { IfOk result (λ r. state_of self.new ≡ (answer_seek (state_of self.old) fd offset from).next) }
        ensures geometry { self.new.geometry ≡ self.old.geometry }
    {
        let Some(d) = open_at(self.slots.as_slice(), fd) else {
            return Ok(Said::Refusal(FsErr::BadDescriptor));
        };
        let Some(f) = find_id(self.files.as_slice(), d.id) else {
            return Ok(Said::Refusal(FsErr::BadDescriptor));
        };
        let size = counted(f.bytes.len() as u64)? as u32;
        let base = match from {
            Whence::Set => 0,
            Whence::Cur => d.offset,
            Whence::End => size,
        };
        match within(size, base, offset) {
            Some(offset) => {
                let moved = PlainOpen { offset, ..d };
                put_at(self.slots.as_mut_slice(), usize::from(fd), Some(moved));
                Ok(Said::Number(offset))
            }
            None => Ok(Said::Refusal(FsErr::SeekBounds)),
        }
    }
}

// The place so far from another, where it is from 0 to a size.
fn within(size: u32, base: u32, offset: i64) -> Option<u32>
    ensures { result ≡ place_within size (pos base +ℤ offset) }
{
    let to = i128::from(base) + i128::from(offset);
    if to < 0 || to > i128::from(size) {
        None
    } else {
        Some(to as u32)
    }
}

ghost use Rattle.std.specs.Prelude.{◌≡◌, length, is_none, IfOk, if◌then◌else◌};
ghost use Rattle.table_model.specs.Outcome.{page_refusal};
ghost use Rattle.table_model.specs.Files.{cut_to, write_place};
ghost use Rattle.table_model.specs.Calls.{answer_write, answer_truncate, answer_fmeta};
ghost use Rattle.plain_table.specs.Seen.{file, opened, said, state_of};

use crate::bytes::{front, written};
use crate::copies::with_file;
use crate::counts::counted;
use crate::search::find_id;
use crate::slots::{open_at, pulled_all, put_at};
use crate::{Flat, PlainFile, PlainOpen, Said};
use std::alloc::AllocError;
use table_model::FsErr;

impl Flat {
    // Cuts a file to a size, where the call may have a page for it; else tells why not, and leaves the state.
    #[tactic(auto, unfolding(table_model::specs::Files::cut_to))]
    pub(crate) fn cut(
        &mut self,
        spare: bool,
        f: &PlainFile,
        size: u32,
    ) -> Result<Option<FsErr>, AllocError>
        ensures why { IfOk result (λ why. why ≡ page_refusal self.old.geometry spare (cut_to size (file f.now) (state_of self.old)).table) }
        ensures next { IfOk result (λ why. state_of self.new ≡ (if is_none why then cut_to size (file f.now) (state_of self.old) else state_of self.old)) }
        ensures slots { IfOk result (λ why. length self.new.slots.items ≡ length self.old.slots.items) }
        ensures geometry { self.new.geometry ≡ self.old.geometry }
    {
        let bytes = front(self.alloc, f.bytes.as_slice(), size as usize)?;
        let files = with_file(
            self.alloc,
            self.files.as_slice(),
            f.with_bytes(self.alloc, bytes.as_slice())?,
        )?;
        if let Some(why) = self.page_fault(spare, files.as_slice())? {
            return Ok(Some(why));
        }
        self.slots = pulled_all(self.alloc, self.slots.as_slice(), f.id, size)?;
        self.files = files;
        Ok(None)
    }

    /// Writes bytes at a descriptor's offset, or at its file's end where it appends. Wants memory for the table after it.
    #[tactic(auto, unfolding(table_model::specs::Calls::answer_write))]
    pub fn write(&mut self, spare: bool, fd: u16, bytes: &[u8]) -> Result<Said, AllocError>
        ensures answer { IfOk result (λ r. said r ≡ (answer_write self.old.geometry spare (state_of self.old) fd bytes.now).answer) }
        ensures next { IfOk result (λ r. state_of self.new ≡ (answer_write self.old.geometry spare (state_of self.old) fd bytes.now).next) }
        ensures geometry { self.new.geometry ≡ self.old.geometry }
    {
        let Some(d) = open_at(self.slots.as_slice(), fd) else {
            return Ok(Said::Refusal(FsErr::BadDescriptor));
        };
        let Some(f) = find_id(self.files.as_slice(), d.id) else {
            return Ok(Said::Refusal(FsErr::BadDescriptor));
        };
        if d.flags & 16 == 0 {
            return Ok(Said::Refusal(FsErr::NotWritable));
        }
        if bytes.is_empty() {
            return Ok(Said::Number(0));
        }
        let at = place(d, f)?;
        let whole = written(self.alloc, f.bytes.as_slice(), at, bytes)?;
        let next = with_file(
            self.alloc,
            self.files.as_slice(),
            f.with_bytes(self.alloc, whole.as_slice())?,
        )?;
        if let Some(why) = self.page_fault(spare, next.as_slice())? {
            return Ok(Said::Refusal(why));
        }
        let len = counted(bytes.len() as u64)?;
        let offset = counted(u64::from(at) + len)? as u32;
        self.files = next;
        put_at(
            self.slots.as_mut_slice(),
            usize::from(fd),
            Some(PlainOpen { offset, ..d }),
        );
        Ok(Said::Number(len as u32))
    }

    /// Cuts a descriptor's file to a size in bytes. Wants memory for the table after it.
    #[tactic(auto, unfolding(table_model::specs::Calls::answer_truncate))]
    pub fn truncate(&mut self, spare: bool, fd: u16, size: u32) -> Result<Said, AllocError>
        ensures answer { IfOk result (λ r. said r ≡ (answer_truncate self.old.geometry spare (state_of self.old) fd size).answer) }
        ensures next { IfOk result (λ r. state_of self.new ≡ (answer_truncate self.old.geometry spare (state_of self.old) fd size).next) }
        ensures geometry { self.new.geometry ≡ self.old.geometry }
    {
        let Some(d) = open_at(self.slots.as_slice(), fd) else {
            return Ok(Said::Refusal(FsErr::BadDescriptor));
        };
        let Some(f) = find_id(self.files.as_slice(), d.id) else {
            return Ok(Said::Refusal(FsErr::BadDescriptor));
        };
        if d.flags & 16 == 0 {
            return Ok(Said::Refusal(FsErr::NotWritable));
        }
        if f.bytes.len() < size as usize {
            return Ok(Said::Refusal(FsErr::SeekBounds));
        }
        if size as usize == f.bytes.len() {
            return Ok(Said::Done);
        }
        let f = f.copied(self.alloc)?;
        match self.cut(spare, &f, size)? {
            Some(why) => Ok(Said::Refusal(why)),
            None => Ok(Said::Done),
        }
    }

    /// Sets the meta bytes of a descriptor's file. Wants memory for the table after it.
    #[tactic(auto, unfolding(table_model::specs::Calls::answer_fmeta))]
    pub fn set_open_meta(&mut self, spare: bool, fd: u16, meta: &[u8]) -> Result<Said, AllocError>
        ensures answer { IfOk result (λ r. said r ≡ (answer_fmeta self.old.geometry spare (state_of self.old) fd meta.now).answer) }
        ensures next { IfOk result (λ r. state_of self.new ≡ (answer_fmeta self.old.geometry spare (state_of self.old) fd meta.now).next) }
        ensures geometry { self.new.geometry ≡ self.old.geometry }
    {
        if meta.len() != self.geometry.meta() as usize {
            return Ok(Said::Refusal(FsErr::BadFlags));
        }
        let Some(d) = open_at(self.slots.as_slice(), fd) else {
            return Ok(Said::Refusal(FsErr::BadDescriptor));
        };
        let Some(f) = find_id(self.files.as_slice(), d.id) else {
            return Ok(Said::Refusal(FsErr::BadDescriptor));
        };
        if d.flags & 16 == 0 {
            return Ok(Said::Refusal(FsErr::NotWritable));
        }
        let next = with_file(
            self.alloc,
            self.files.as_slice(),
            f.with_meta(self.alloc, meta)?,
        )?;
        if let Some(why) = self.page_fault(spare, next.as_slice())? {
            return Ok(Said::Refusal(why));
        }
        self.files = next;
        Ok(Said::Done)
    }
}

// Where a write begins.
pub(crate) fn place(d: PlainOpen, f: &PlainFile) -> Result<u32, AllocError>
    ensures { IfOk result (λ at. at ≡ write_place (opened d) (file f.now)) }
{
    if d.flags & 1 == 0 {
        Ok(d.offset)
    } else {
        Ok(counted(f.bytes.len() as u64)? as u32)
    }
}

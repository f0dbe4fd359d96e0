ghost use Rattle.std.specs.Prelude.{◌≡◌, ◌<◌, ◌≤◌, length, IfOk};
ghost use Rattle.table_model.specs.Descriptors.{is_bad_flags as the_bad_flags};
ghost use Rattle.table_model.specs.Opening.{answer_open, open_missing as the_missing, open_there as the_there};
ghost use Rattle.plain_table.specs.Seen.{file, said, state_of};

use crate::copies::with_new;
use crate::counts::counted;
use crate::names::name_fault;
use crate::search::{find_name, least_id};
use crate::slots::{lowest_closed, put_at};
use crate::{Flat, PlainFile, PlainOpen, Said};
use std::alloc::AllocError;
use table_model::FsErr;

// Flags with a bit above the seven, or to empty a file that may not be written.
fn is_bad_flags(flags: u32) -> bool
    ensures { result ≡ the_bad_flags flags }
{
    flags > 127 || (flags & 2 != 0 && flags & 16 == 0)
}

impl Flat {
    // Opens a file under a closed descriptor, and makes the file.
    fn open_missing(
        &mut self,
        spare: bool,
        name: &[u8],
        flags: u32,
        fd: u32,
    ) -> Result<Said, AllocError>
        requires some { 0 < fd }
        requires within { fd ≤ length self.old.slots.items }
        ensures answer { IfOk result (λ r. said r ≡ (the_missing self.old.geometry spare (state_of self.old) name.now flags fd).answer) }
        ensures next { IfOk result (λ r. state_of self.new ≡ (the_missing self.old.geometry spare (state_of self.old) name.now flags fd).next) }
        ensures geometry { self.new.geometry ≡ self.old.geometry }
    {
        if flags & 4 == 0 {
            return Ok(Said::Refusal(FsErr::NotFound));
        }
        if self.files.len() >= 65534 {
            return Err(AllocError);
        }
        let id = least_id(self.files.as_slice());
        let next = with_new(self.alloc, &self.geometry, self.files.as_slice(), name)?;
        if let Some(why) = self.page_fault(spare, next.as_slice())? {
            return Ok(Said::Refusal(why));
        }
        self.files = next;
        let d = PlainOpen {
            id,
            flags,
            offset: 0,
        };
        put_at(self.slots.as_mut_slice(), fd as usize, Some(d));
        Ok(Said::Number(fd))
    }

    // Opens a file that is there under a closed descriptor.
    fn open_there(
        &mut self,
        spare: bool,
        f: &PlainFile,
        flags: u32,
        fd: u32,
    ) -> Result<Said, AllocError>
        requires some { 0 < fd }
        requires within { fd ≤ length self.old.slots.items }
        ensures answer { IfOk result (λ r. said r ≡ (the_there self.old.geometry spare (state_of self.old) (file f.now) flags fd).answer) }
        ensures next { IfOk result (λ r. state_of self.new ≡ (the_there self.old.geometry spare (state_of self.old) (file f.now) flags fd).next) }
        ensures geometry { self.new.geometry ≡ self.old.geometry }
    {
        if flags & 4 != 0 && flags & 64 != 0 {
            return Ok(Said::Refusal(FsErr::FileExists));
        }
        if flags & 2 != 0 && !f.bytes.is_empty() {
            if let Some(why) = self.cut(spare, f, 0)? {
                return Ok(Said::Refusal(why));
            }
        }
        let d = PlainOpen {
            id: f.id,
            flags,
            offset: 0,
        };
        put_at(self.slots.as_mut_slice(), fd as usize, Some(d));
        Ok(Said::Number(fd))
    }

    /// Opens a file under the lowest closed descriptor. Wants memory for the table after it.
    #[tactic(auto, unfolding(table_model::specs::Opening::answer_open))]
    pub fn open_file(&mut self, spare: bool, name: &[u8], flags: u32) -> Result<Said, AllocError>
        ensures answer { IfOk result (λ r. said r ≡ (answer_open self.old.geometry spare (state_of self.old) name.now flags).answer) }
        ensures next { IfOk result (λ r. state_of self.new ≡ (answer_open self.old.geometry spare (state_of self.old) name.now flags).next) }
        ensures geometry { self.new.geometry ≡ self.old.geometry }
    {
        if let Some(why) = name_fault(name) {
            return Ok(Said::Refusal(why));
        }
        if is_bad_flags(flags) {
            return Ok(Said::Refusal(FsErr::BadFlags));
        }
        let Some(fd) = lowest_closed(self.slots.as_slice()) else {
            return Ok(Said::Refusal(FsErr::OutOfDescriptors));
        };
        let fd = counted(fd as u64)? as u32;
        match find_name(self.files.as_slice(), name) {
            Some(f) => {
                let f = f.copied(self.alloc)?;
                self.open_there(spare, &f, flags, fd)
            }
            None => self.open_missing(spare, name, flags, fd),
        }
    }
}

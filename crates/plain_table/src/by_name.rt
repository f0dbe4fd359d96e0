ghost use Rattle.std.specs.Prelude.{◌≡◌, IfOk};
ghost use Rattle.table_model.specs.Calls.{answer_remove, answer_rename, answer_meta};
ghost use Rattle.plain_table.specs.Seen.{said, state_of};

use crate::copies::{with_file, without_id};
use crate::names::{name_fault, names_fault};
use crate::search::find_name;
use crate::slots::without_all;
use crate::{Flat, Said};
use std::alloc::AllocError;
use table_model::FsErr;

impl Flat {
    /// Removes a file, and closes each descriptor on it. Wants memory for the table after it.
    #[tactic(auto, unfolding(table_model::specs::Calls::answer_remove, table_model::specs::Files::without))]
    pub fn remove(&mut self, name: &[u8]) -> Result<Said, AllocError>
        ensures answer { IfOk result (λ r. said r ≡ (answer_remove (state_of self.old) name.now).answer) }
        ensures next { IfOk result (λ r. state_of self.new ≡ (answer_remove (state_of self.old) name.now).next) }
        ensures geometry { self.new.geometry ≡ self.old.geometry }
    {
        if let Some(why) = name_fault(name) {
            return Ok(Said::Refusal(why));
        }
        let Some(f) = find_name(self.files.as_slice(), name) else {
            return Ok(Said::Refusal(FsErr::NotFound));
        };
        let slots = without_all(self.alloc, self.slots.as_slice(), f.id)?;
        let files = without_id(self.alloc, self.files.as_slice(), f.id)?;
        self.files = files;
        self.slots = slots;
        Ok(Said::Done)
    }

    /// Gives a file another name. Wants memory for the table after it.
    #[tactic(auto, unfolding(table_model::specs::Calls::answer_rename), using(crate::proofs::Ids::name_there, crate::proofs::Ids::name_missing))]
    pub fn rename(
        &mut self,
        spare: bool,
        old_name: &[u8],
        new_name: &[u8],
    ) -> Result<Said, AllocError>
        ensures answer { IfOk result (λ r. said r ≡ (answer_rename self.old.geometry spare (state_of self.old) old_name.now new_name.now).answer) }
        ensures next { IfOk result (λ r. state_of self.new ≡ (answer_rename self.old.geometry spare (state_of self.old) old_name.now new_name.now).next) }
        ensures geometry { self.new.geometry ≡ self.old.geometry }
    {
        if let Some(why) = names_fault(old_name, new_name) {
            return Ok(Said::Refusal(why));
        }
        let Some(f) = find_name(self.files.as_slice(), old_name) else {
            return Ok(Said::Refusal(FsErr::NotFound));
        };
        if find_name(self.files.as_slice(), new_name).is_some() {
            return Ok(Said::Refusal(FsErr::ConflictingName));
        }
        let next = with_file(
            self.alloc,
            self.files.as_slice(),
            f.named(self.alloc, new_name)?,
        )?;
        if let Some(why) = self.page_fault(spare, next.as_slice())? {
            return Ok(Said::Refusal(why));
        }
        self.files = next;
        Ok(Said::Done)
    }

    /// Sets a file's meta bytes. Wants memory for the table after it.
    #[tactic(auto, unfolding(table_model::specs::Calls::answer_meta))]
    pub fn set_meta(&mut self, spare: bool, name: &[u8], meta: &[u8]) -> Result<Said, AllocError>
        ensures answer { IfOk result (λ r. said r ≡ (answer_meta self.old.geometry spare (state_of self.old) name.now meta.now).answer) }
        ensures next { IfOk result (λ r. state_of self.new ≡ (answer_meta self.old.geometry spare (state_of self.old) name.now meta.now).next) }
        ensures geometry { self.new.geometry ≡ self.old.geometry }
    {
        if let Some(why) = name_fault(name) {
            return Ok(Said::Refusal(why));
        }
        if meta.len() != self.geometry.meta() as usize {
            return Ok(Said::Refusal(FsErr::BadFlags));
        }
        let Some(f) = find_name(self.files.as_slice(), name) else {
            return Ok(Said::Refusal(FsErr::NotFound));
        };
        let next = with_file(
            self.alloc,
            self.files.as_slice(),
            f.with_meta(self.alloc, meta)?,
        )?;
        if let Some(why) = self.page_fault(spare, next.as_slice())? {
            return Ok(Said::Refusal(why));
        }
        self.files = next;
        Ok(Said::Done)
    }
}

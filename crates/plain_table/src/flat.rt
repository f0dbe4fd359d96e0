ghost use Rattle.std.specs.Prelude.{◌≡◌, [], map, replicate, None, Some, IfOk};
ghost use Rattle.table_model.specs.Outcome.{page_refusal};
ghost use Rattle.table_model.specs.Calls.{answer_create, answer_stat, answer_next};
ghost use Rattle.plain_table.specs.Seen.{file, said, state_of};

use crate::copies::{copied, with_new};
use crate::counts::has_room;
use crate::names::name_fault;
use crate::search::{find_above, find_name};
use crate::slots::{all_closed, slots_copied};
use crate::{PlainFile, PlainOpen, Said};
use geometry::Geometry;
use std::alloc::{AllocError, Global};
use table_model::FsErr;

/// The flat table of a volume: its files in order of ids, and its descriptors, numbered from 1.
#[derive(Drop)]
pub struct Flat {
    pub(crate) alloc: Global,
    pub(crate) geometry: Geometry,
    pub(crate) files: Vec<PlainFile>,
    pub(crate) slots: Vec<Option<PlainOpen>>,
}

impl Flat {
    /// The table of a new volume, without a file, and with so many descriptors, all of them closed. Wants memory
    /// for these.
    pub fn new(alloc: Global, geometry: Geometry, slots: u16) -> Result<Flat, AllocError>
        ensures state { IfOk result (λ f. state_of f ≡ record { table = []; slots = replicate slots None }) }
        ensures geometry { IfOk result (λ f. f.geometry ≡ geometry) }
    {
        Ok(Flat {
            alloc,
            geometry,
            files: Vec::new(alloc),
            slots: all_closed(alloc, slots)?,
        })
    }

    /// A volume with these files, and with so many descriptors, all of them closed. Wants memory for these.
    pub fn of(
        alloc: Global,
        geometry: Geometry,
        files: Vec<PlainFile>,
        slots: u16,
    ) -> Result<Flat, AllocError>
        ensures state { IfOk result (λ f. state_of f ≡ record { table = map file files.items; slots = replicate slots None }) }
        ensures geometry { IfOk result (λ f. f.geometry ≡ geometry) }
    {
        Ok(Flat {
            alloc,
            geometry,
            files,
            slots: all_closed(alloc, slots)?,
        })
    }

    /// The files, in order of ids.
    pub fn files(&self) -> &[PlainFile]
        ensures { map file result.now ≡ (state_of self.now).table }
    {
        self.files.as_slice()
    }

    /// The same files and descriptors with memory of their own. Wants memory for them.
    pub fn copied(&self) -> Result<Flat, AllocError>
        ensures state { IfOk result (λ f. state_of f ≡ state_of self.now) }
        ensures geometry { IfOk result (λ f. f.geometry ≡ self.now.geometry) }
    {
        Ok(Flat {
            alloc: self.alloc,
            geometry: self.geometry,
            files: copied(self.alloc, self.files.as_slice())?,
            slots: slots_copied(self.alloc, self.slots.as_slice())?,
        })
    }

    /// Takes another volume's numbers; files and descriptors stay, whether or not they leave room there.
    pub fn set_geometry(&mut self, geometry: Geometry)
        ensures state { state_of self.new ≡ state_of self.old }
        ensures geometry { self.new.geometry ≡ geometry }
    {
        self.geometry = geometry;
    }

    // Why a call that needs a page and leaves this table is refused, if it is.
    #[tactic(auto, unfolding(table_model::specs::Outcome::page_refusal))]
    pub(crate) fn page_fault(
        &self,
        spare: bool,
        next: &[PlainFile],
    ) -> Result<Option<FsErr>, AllocError>
        ensures { IfOk result (λ why. why ≡ page_refusal self.now.geometry spare (map file next.now)) }
    {
        if !spare {
            return Ok(Some(FsErr::Tight));
        }
        if has_room(&self.geometry, next)? {
            Ok(None)
        } else {
            Ok(Some(FsErr::Full))
        }
    }

    /// Makes an empty file. `spare` says whether at least two blocks are free. Wants memory for the table after it.
    #[tactic(auto, unfolding(table_model::specs::Calls::answer_create), using(crate::proofs::Ids::name_there, crate::proofs::Ids::name_missing))]
    pub fn create(&mut self, spare: bool, name: &[u8]) -> Result<Said, AllocError>
        ensures answer { IfOk result (λ r. said r ≡ (answer_create self.old.geometry spare (state_of self.old) name.now).answer) }
        ensures next { IfOk result (λ r. state_of self.new ≡ (answer_create self.old.geometry spare (state_of self.old) name.now).next) }
        ensures geometry { self.new.geometry ≡ self.old.geometry }
    {
        if let Some(why) = name_fault(name) {
            return Ok(Said::Refusal(why));
        }
        if find_name(self.files.as_slice(), name).is_some() {
            return Ok(Said::Refusal(FsErr::ConflictingName));
        }
        let next = with_new(self.alloc, &self.geometry, self.files.as_slice(), name)?;
        if let Some(why) = self.page_fault(spare, next.as_slice())? {
            return Ok(Said::Refusal(why));
        }
        self.files = next;
        Ok(Said::Done)
    }

    /// Tells a file's record. Wants memory for it.
    #[tactic(auto, unfolding(table_model::specs::Calls::answer_stat))]
    pub fn stat(&self, name: &[u8]) -> Result<Said, AllocError>
        ensures answer { IfOk result (λ r. said r ≡ (answer_stat (state_of self.now) name.now).answer) }
        ensures next { state_of self.now ≡ (answer_stat (state_of self.now) name.now).next }
    {
        if let Some(why) = name_fault(name) {
            return Ok(Said::Refusal(why));
        }
        match find_name(self.files.as_slice(), name) {
            Some(f) => Ok(Said::File(f.copied(self.alloc)?)),
            None => Ok(Said::Refusal(FsErr::NotFound)),
        }
    }

    /// Tells the record of the least id above one, if there is one. Wants memory for it.
    #[tactic(auto, unfolding(table_model::specs::Calls::answer_next))]
    pub fn next(&self, after: u16) -> Result<Said, AllocError>
        ensures answer { IfOk result (λ r. said r ≡ (answer_next (state_of self.now) after).answer) }
        ensures next { state_of self.now ≡ (answer_next (state_of self.now) after).next }
    {
        match find_above(self.files.as_slice(), after) {
            Some(f) => Ok(Said::File(f.copied(self.alloc)?)),
            None => Ok(Said::NoMore),
        }
    }
}

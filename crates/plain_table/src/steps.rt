// The published steps of a call.
ghost use Rattle.std.specs.Prelude.{◌≡◌, [], map, nat_lt, IfOk, if◌then◌else◌};
ghost use Rattle.table_model.specs.Ask.{asked};
ghost use Rattle.table_model.specs.Table.{file_named};
ghost use Rattle.table_model.specs.Descriptors.{open_at as the_open_at};
ghost use Rattle.table_model.specs.Opening.{open_changes as the_open_changes};
ghost use Rattle.table_model.specs.Steps.{is_refusal as the_refusal, cuts_file as the_cuts, one_if as the_one_if, open_file as the_open_file, size_or_zero};
ghost use Rattle.table_model.specs.Steps.{write_steps as the_write_steps, done_steps as the_done_steps};
ghost use Rattle.plain_table.specs.Seen.{file, files_of, said, state_of};

use crate::changes::place;
use crate::copies::copied;
use crate::parts::parts;
use crate::search::{find_id, find_name};
use crate::slots::open_at;
use crate::{Flat, PlainFile, Said};
use std::alloc::{AllocError, Global};
use table_model::Call;

/// Whether an answer is a refusal.
pub fn is_refusal(answer: &Said) -> bool
    ensures { result ≡ the_refusal (said answer.now) }
{
    matches!(answer, Said::Refusal(_))
}

/// Whether a call may take bytes of a file away: an opening that empties it, or a truncate.
pub fn cuts_file(call: &Call<'_>) -> bool
    ensures { result ≡ the_cuts (asked call.now) }
{
    match *call {
        Call::OpenFile { name: _, flags } => flags & 2 != 0,
        Call::Truncate { fd: _, size: _ } => true,
        _ => false,
    }
}

// One step, where something changes.
fn one_if(
    alloc: Global,
    changes: bool,
    files: &[PlainFile],
) -> Result<Vec<Vec<PlainFile>>, AllocError>
    ensures { IfOk result (λ steps. map files_of steps.items ≡ the_one_if changes (map file files.now)) }
{
    let mut steps = Vec::new(alloc);
    if changes {
        steps.push(copied(alloc, files)?)?;
    }
    Ok(steps)
}

impl Flat {
    // The steps of a write through a descriptor.
    #[tactic(auto, unfolding(table_model::specs::Steps::write_steps, table_model::specs::Steps::open_file))]
    fn write_steps(&self, fd: u16, bytes: &[u8]) -> Result<Vec<Vec<PlainFile>>, AllocError>
        ensures { IfOk result (λ steps. map files_of steps.items ≡ the_write_steps self.now.geometry (state_of self.now) fd bytes.now) }
    {
        let Some(d) = open_at(self.slots.as_slice(), fd) else {
            return Ok(Vec::new(self.alloc));
        };
        let Some(f) = find_id(self.files.as_slice(), d.id) else {
            return Ok(Vec::new(self.alloc));
        };
        let at = place(d, f)?;
        parts(
            self.alloc,
            &self.geometry,
            self.files.as_slice(),
            f,
            at,
            bytes,
        )
    }

    // Whether an opening that isn't refused makes the file or takes its bytes.
    fn open_changes(&self, name: &[u8], flags: u32) -> bool
        ensures { result ≡ the_open_changes flags (file_named name.now (state_of self.now).table) }
    {
        match find_name(self.files.as_slice(), name) {
            Some(f) => flags & 2 != 0 && !f.bytes.is_empty(),
            None => true,
        }
    }

    // Whether a descriptor's file has more bytes than that.
    #[tactic(auto, unfolding(table_model::specs::Steps::open_file))]
    fn is_longer(&self, fd: u16, size: u32) -> bool
        ensures { result ≡ nat_lt size (size_or_zero (the_open_file (state_of self.now) (the_open_at (state_of self.now).slots fd))) }
    {
        let Some(d) = open_at(self.slots.as_slice(), fd) else {
            return false;
        };
        match find_id(self.files.as_slice(), d.id) {
            Some(f) => (size as usize) < f.bytes.len(),
            None => false,
        }
    }

    // The steps of a call that isn't refused, with the table after it.
    #[tactic(auto, unfolding(table_model::specs::Steps::done_steps))]
    fn done_steps(
        &self,
        call: &Call<'_>,
        next: &[PlainFile],
    ) -> Result<Vec<Vec<PlainFile>>, AllocError>
        ensures { IfOk result (λ steps. map files_of steps.items ≡ the_done_steps self.now.geometry (state_of self.now) (asked call.now) (map file next.now)) }
    {
        match *call {
            Call::Write { fd, bytes } => self.write_steps(fd, bytes),
            Call::Fill { fd, count, byte } => {
                let bytes = vec![in self.alloc; byte; count as usize]?;
                self.write_steps(fd, bytes.as_slice())
            }
            Call::OpenFile { name, flags } => {
                one_if(self.alloc, self.open_changes(name, flags), next)
            }
            Call::Truncate { fd, size } => one_if(self.alloc, self.is_longer(fd, size), next),
            Call::Create { name: _ }
            | Call::Remove { name: _ }
            | Call::FRemove { fd: _ }
            | Call::Rename {
                old_name: _,
                new_name: _,
            }
            | Call::SetMeta { name: _, meta: _ }
            | Call::FSetMeta { fd: _, meta: _ } => one_if(self.alloc, true, next),
            _ => Ok(Vec::new(self.alloc)),
        }
    }

    // The steps of a call by its answer and the table after it: none where it is refused.
    pub(crate) fn steps_to(
        &self,
        call: &Call<'_>,
        answer: &Said,
        next: &[PlainFile],
    ) -> Result<Vec<Vec<PlainFile>>, AllocError>
        ensures { IfOk result (λ steps. map files_of steps.items
            ≡ (if the_refusal (said answer.now) then [] else the_done_steps self.now.geometry (state_of self.now) (asked call.now) (map file next.now))) }
    {
        if is_refusal(answer) {
            Ok(Vec::new(self.alloc))
        } else {
            self.done_steps(call, next)
        }
    }
}

ghost use Rattle.std.specs.Prelude.{◌≡◌, ◌↔◌, ◌+◌, map, nat_le, replicate, None, IfOk, IsTrue};
ghost use Rattle.geometry.specs.Numbers.{ceil, entries};
ghost use Rattle.table_model.specs.Room.{index_count, data_count};
ghost use Rattle.table_model.specs.Ask.{asked};
ghost use Rattle.table_model.specs.Flat.{answer as the_answer};
ghost use Rattle.table_model.specs.Steps.{steps as the_steps};
ghost use Rattle.table_model.specs.Window.{settled_at, leaves_window as the_leaves, goes_on as the_goes_on, begins as the_begins, moved as the_moved};
ghost use Rattle.table_model.specs.Window.{after as the_moment_after, from_settled, IsAmong};
ghost use Rattle.plain_table.specs.Seen.{file, files_of, said, state_of};
ghost use Rattle.plain_table.specs.Moments.{coming, geometry_of, moment_of, window_of};

use crate::copies::{copied, tables_copied, tables_joined};
use crate::counts::has_index_room;
use crate::same::{are_same, is_among};
use crate::steps::is_refusal;
use crate::window::{Coming, PlainWaiting, begun, continues, extended, may_wait};
use crate::{Flat, PlainFile, Said};
use geometry::Geometry;
use std::alloc::{AllocError, Global};
use table_model::Call;

/// A volume between two calls: its flat table, the table of its chip, and the steps behind that one which are not on the chip yet, with the
/// write window that they belong to.
#[derive(Drop)]
pub struct PlainMoment {
    pub(crate) flat: Flat,
    pub(crate) settled: Vec<PlainFile>,
    pub(crate) waiting: Vec<Vec<PlainFile>>,
    pub(crate) window: Option<PlainWaiting>,
}

/// What a call did: its answer, its published steps, and the moment after it.
#[derive(Drop)]
pub struct Went {
    /// What it answered.
    pub said: Said,
    /// The tables that a power cut in it may leave behind those before it, in order.
    pub steps: Vec<Vec<PlainFile>>,
    /// The volume after it.
    pub next: PlainMoment,
}

// Telling an offset leaves the window as it is.
fn leaves_window(call: &Call<'_>) -> bool
    ensures { result ≡ the_leaves (asked call.now) }
{
    match *call {
        Call::Tell { fd: _ } => true,
        _ => false,
    }
}

// A volume whose steps are all on the chip.
#[tactic(auto, unfolding(table_model::specs::Window::settled_at))]
fn all_settled(flat: Flat) -> Result<PlainMoment, AllocError>
    ensures moment { IfOk result (λ m. moment_of m ≡ settled_at (state_of flat)) }
    ensures geometry { IfOk result (λ m. geometry_of m ≡ flat.geometry) }
{
    let alloc = flat.alloc;
    let settled = copied(alloc, flat.files())?;
    Ok(PlainMoment {
        flat,
        settled,
        waiting: Vec::new(alloc),
        window: None,
    })
}

impl PlainMoment {
    /// A volume with these files and so many descriptors, all of them closed: all of it is on the chip. Wants memory for it.
    pub fn first(
        alloc: Global,
        geometry: Geometry,
        files: &[PlainFile],
        slots: u16,
    ) -> Result<PlainMoment, AllocError>
        ensures moment { IfOk result (λ m. moment_of m ≡ settled_at (record { table = map file files.now; slots = replicate slots None })) }
        ensures geometry { IfOk result (λ m. geometry_of m ≡ geometry) }
    {
        let files = copied(alloc, files)?;
        all_settled(Flat::of(alloc, geometry, files, slots)?)
    }

    /// The files of the table after the calls so far, in order of ids.
    pub fn files(&self) -> &[PlainFile]
        ensures { map file result.now ≡ (moment_of self.now).state.table }
    {
        self.flat.files()
    }

    /// The files of the chip's table, in order of ids: all that was written but what waits.
    pub fn settled(&self) -> &[PlainFile]
        ensures { map file result.now ≡ (moment_of self.now).settled }
    {
        self.settled.as_slice()
    }

    /// The tables behind that one which are not on the chip yet, in order: a power cut may leave each of them.
    pub fn waiting(&self) -> &[Vec<PlainFile>]
        ensures { map files_of result.now ≡ (moment_of self.now).waiting }
    {
        self.waiting.as_slice()
    }

    /// Whether the table has room for an index page: its pages and one index page more, each kind in blocks of its own, leave two blocks free. A
    /// call that cuts a file needs one. Wants memory never; more pages than are counted are told so.
    pub fn has_index_room(&self) -> Result<bool, AllocError>
        ensures { IfOk result
            (λ room. room ≡ nat_le (ceil (index_count (geometry_of self.now) (moment_of self.now).state.table + 1) (entries (geometry_of self.now))
            + ceil (data_count (geometry_of self.now) (moment_of self.now).state.table) (entries (geometry_of self.now)) + 2) (geometry_of self.now).blocks) }
    {
        has_index_room(&self.flat.geometry, self.flat.files())
    }

    // After a call that leaves the window as it is.
    fn stays(&self, flat: Flat) -> Result<PlainMoment, AllocError>
        ensures moment { IfOk result (λ m. moment_of m ≡ record (moment_of self.now) { state = state_of flat }) }
        ensures geometry { IfOk result (λ m. geometry_of m ≡ flat.geometry) }
    {
        let alloc = flat.alloc;
        Ok(PlainMoment {
            flat,
            settled: copied(alloc, self.settled.as_slice())?,
            waiting: tables_copied(alloc, self.waiting.as_slice())?,
            window: self.window,
        })
    }

    // After a write that continues what waits: its steps wait behind the others.
    fn goes_on(
        &self,
        flat: Flat,
        steps: &[Vec<PlainFile>],
        incoming: Option<Coming>,
    ) -> Result<PlainMoment, AllocError>
        ensures moment { IfOk result (λ m. moment_of m ≡ the_goes_on (moment_of self.now) (state_of flat) (map files_of steps.now) (coming incoming)) }
        ensures geometry { IfOk result (λ m. geometry_of m ≡ flat.geometry) }
    {
        let alloc = flat.alloc;
        Ok(PlainMoment {
            flat,
            settled: copied(alloc, self.settled.as_slice())?,
            waiting: tables_joined(alloc, self.waiting.as_slice(), steps)?,
            window: extended(self.window, incoming)?,
        })
    }

    // After a write that begins a window: what waited is on the chip, and its steps wait.
    fn begins(
        &self,
        flat: Flat,
        steps: &[Vec<PlainFile>],
        incoming: Option<Coming>,
    ) -> Result<PlainMoment, AllocError>
        ensures moment { IfOk result (λ m. moment_of m ≡ the_begins (moment_of self.now) (state_of flat) (map files_of steps.now) (coming incoming)) }
        ensures geometry { IfOk result (λ m. geometry_of m ≡ flat.geometry) }
    {
        let alloc = flat.alloc;
        Ok(PlainMoment {
            flat,
            settled: copied(alloc, self.files())?,
            waiting: tables_copied(alloc, steps)?,
            window: begun(incoming),
        })
    }

    // After a call of that answer and these steps, which leads to that flat table.
    fn moved(
        &self,
        call: &Call<'_>,
        answer: &Said,
        flat: Flat,
        steps: &[Vec<PlainFile>],
    ) -> Result<PlainMoment, AllocError>
        ensures moment { IfOk result (λ m. moment_of m ≡ the_moved (geometry_of self.now) (moment_of self.now) (asked call.now)
            (record { answer = said answer.now; next = state_of flat }) (map files_of steps.now)) }
        ensures geometry { IfOk result (λ m. geometry_of m ≡ flat.geometry) }
    {
        if leaves_window(call) {
            return self.stays(flat);
        }
        if is_refusal(answer) {
            return all_settled(flat);
        }
        let incoming = self.flat.incoming_of(call)?;
        if continues(&self.flat.geometry, self.window, incoming) {
            return self.goes_on(flat, steps, incoming);
        }
        if may_wait(&self.flat.geometry, incoming) {
            return self.begins(flat, steps, incoming);
        }
        all_settled(flat)
    }

    /// What a call does. `spare` says whether at least two blocks are free. Wants memory for the tables.
    #[tactic(auto, unfolding(table_model::specs::Steps::steps, table_model::specs::Window::after))]
    pub fn after(&self, spare: bool, call: &Call<'_>) -> Result<Went, AllocError>
        ensures answer { IfOk result (λ w. said w.said ≡ (the_answer (geometry_of self.now) spare (moment_of self.now).state (asked call.now)).answer) }
        ensures steps { IfOk result (λ w. map files_of w.steps.items ≡ the_steps (geometry_of self.now) spare (moment_of self.now).state (asked call.now)) }
        ensures next { IfOk result (λ w. moment_of w.next ≡ the_moment_after (geometry_of self.now) spare (moment_of self.now) (asked call.now)) }
        ensures geometry { IfOk result (λ w. geometry_of w.next ≡ geometry_of self.now) }
    {
        let mut flat = self.flat.copied()?;
        let said = flat.answer(spare, call)?;
        let steps = self.flat.steps_to(call, &said, flat.files())?;
        let next = self.moved(call, &said, flat, steps.as_slice())?;
        Ok(Went { said, steps, next })
    }

    /// Whether a power cut may leave that table, once so far no byte of the next reply was said or only a part of it: the table of the chip, one
    /// of the steps that wait, or one of these steps of the next call.
    pub fn may_leave(&self, steps: &[Vec<PlainFile>], table: &[PlainFile]) -> bool
        ensures { IsTrue result ↔ IsAmong (map file table.now) (from_settled (moment_of self.now) (map files_of steps.now)) }
    {
        if are_same(table, self.settled.as_slice()) {
            return true;
        }
        if is_among(table, self.waiting.as_slice()) {
            return true;
        }
        is_among(table, steps)
    }
}

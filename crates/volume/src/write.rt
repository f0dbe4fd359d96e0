// Writes through descriptors: bytes are kept in the write window, or put onto the chip.
ghost use Rattle.std.specs.Prelude.{◌≡◌, ◌+◌, ◌≤◌, ◌&&◌, ℕ, List, length, nat_le, not, None, true, false, if◌then◌else◌};
ghost use Rattle.geometry.specs.Numbers.{body};
ghost use Rattle.flash_view.specs.Same.{IsSameView};
ghost use Rattle.table_model.specs.Ask.{Writes};
ghost use Rattle.table_model.specs.Descriptors.{appends as the_appends, is_direct as the_direct};
ghost use Rattle.table_model.specs.Window.{page_end};
ghost use Rattle.write_window.specs.Runs.{start_of, bytes_of};
ghost use Rattle.write_window.specs.Shown.{run_in};
ghost use Rattle.volume.specs.Acts.{ActsQuietly};
ghost use Rattle.file_calls.specs.Replies.{reply_of};
ghost use Rattle.file_calls.specs.Goes.{StandsOn};

use crate::{Told, Volume};
use fd_table::{FdSlot, open_slot, put};
use file_calls::{have_room, opened, record_of, write_sized};
use flash_view::View;
use geometry::Geometry;
use nor_core::{Nor, NorState};
use table_model::{FsErr, OpenFlags};
use write_window::{Held, begin, push};

// Whether bytes up to an end lie in the data page of the place where they begin.
fn is_in_page(g: &Geometry, at: u32, end: u64) -> bool
    ensures { result ≡ nat_le end (page_end g.now at) }
{
    end <= (u64::from(at / g.body()) + 1) * u64::from(g.body())
}

// Whether bytes that a descriptor with these flags writes from a place up to an end may wait.
fn may_wait(g: &Geometry, flags: OpenFlags, at: u32, end: u64) -> bool
    ensures { result ≡ (not (the_direct flags) && nat_le end (page_end g.now at)) }
{
    !flags.is_direct() && is_in_page(g, at, end)
}

// Where a write through a descriptor begins, in a file of that size in bytes.
fn place_of(slot: &FdSlot, size: u32) -> u32
    ensures { result ≡ (if the_appends slot.now.flags then size else slot.now.offset) }
{
    if slot.flags.appends() {
        size
    } else {
        slot.offset
    }
}

/// Writes bytes through a descriptor where nothing waits: they are kept where they may wait, and else put onto the chip.
#[tactic(auto, using(flash_view::proofs::Looking::same_then, flash_view::proofs::Looking::same_none))]
pub(crate) fn write_in<N: Nor>(
    v: &mut View<'_, N>,
    slots: &mut [FdSlot],
    held: &mut Held,
    kept: &mut [u8],
    fd: u16,
    bytes: &[u8],
) -> Result<Told, FsErr>
    requires fresh { v.old.wrote ≡ false }
    requires none { run_in held.old kept.old ≡ None }
    requires held { held.old.taken ≤ length kept.old }
    requires page { body v.old.geometry ≤ length kept.old }
    ensures same { IsSameView v.old v.new }
    ensures size { length kept.new ≡ length kept.old }
    ensures held { held.new.taken ≤ length kept.new }
    ensures acts { (into : List ℕ) → ActsQuietly N.NorState v.old.geometry (Writes fd bytes.now) v.old.nor.now v.new.nor.now slots.old slots.new
        (run_in held.new kept.new) v.new.wrote (reply_of result into) }
    ensures counted { (into : List ℕ) → StandsOn N.NorState v.old.geometry v.old.nor.now slots.old (reply_of result into) v.old.counted v.new.counted }
{
    let slot = opened(slots, fd)?;
    if !slot.flags.may_write() {
        return Err(FsErr::NotWritable);
    }
    if bytes.is_empty() {
        return Ok(Told::Number(0));
    }
    let size = record_of(v, slot.id)?.size;
    let at = place_of(&slot, size);
    let end = u64::from(at) + bytes.len() as u64;
    have_room(v, size, end.max(u64::from(size)))?;
    let moved = FdSlot {
        offset: end as u32,
        ..slot
    };
    if may_wait(&v.geometry, slot.flags, at, end) {
        *held = begin(kept, fd, slot.id, at, bytes);
        put(slots, fd, moved);
        return Ok(Told::Number(bytes.len() as u32));
    }
    write_sized(v, slot.id, size, at, bytes)?;
    put(slots, fd, moved);
    Ok(Told::Number(bytes.len() as u32))
}

// Where a write through a descriptor begins, in bytes of its file, that goes on with what waits.
fn next_place(held: &Held, slot: &FdSlot) -> u64
    ensures { (bytes : List ℕ) → held.now.taken ≤ length bytes →
        result ≡ (if the_appends slot.now.flags then start_of (run_in held.now bytes) + length (bytes_of (run_in held.now bytes)) else slot.now.offset) }
{
    if slot.flags.appends() {
        held.end()
    } else {
        u64::from(slot.offset)
    }
}

impl<'b, N: Nor> Volume<'b, N> {
    ghost use Rattle.std.specs.Prelude.{◌≡◌, ◌+◌, ◌≤◌, ℕ, List, [], length, true, None, IfSome};
    ghost use Rattle.table_model.specs.Ask.{Writes};
    ghost use Rattle.file_calls.specs.Replies.{shown_by};
    ghost use Rattle.volume.specs.Stages.{takes_calls};
    ghost use Rattle.volume.specs.Settled.{GoesOnNot};
    ghost use Rattle.volume.specs.Extends.{GoesOnAt};
    ghost use Rattle.volume.specs.Calls.{Calls};

    /// The slot of a descriptor through which a write of `len` bytes goes on with what waits: it may write, begins where that ends, and
    /// lies in its data page.
    pub(crate) fn open_run(&self, fd: u16, len: usize) -> Option<FdSlot>
        ensures on { IfSome result (GoesOnAt self.now fd len) }
        ensures apart { result ≡ None → (bytes : List ℕ) → length bytes ≡ len → GoesOnNot self.now (Writes fd bytes) }
    {
        let Ok(slot) = open_slot(self.slots, fd) else {
            return None;
        };
        if !slot.flags.may_write() {
            return None;
        }
        let at = next_place(&self.held, &slot);
        if !self.held.accepts(self.geometry.body(), fd, at, len) {
            return None;
        }
        Some(slot)
    }

    /// Keeps the bytes of a write behind what waits.
    pub(crate) fn extend(&mut self, fd: u16, slot: FdSlot, bytes: &[u8]) -> Told
        requires takes { takes_calls self.old ≡ true }
        requires on { GoesOnAt self.old fd (length bytes.now) slot }
        ensures { Calls (Writes fd bytes.now) self.old self.new (shown_by result []) }
    {
        if bytes.is_empty() {
            return Told::Number(0);
        }
        let start = self.held.start;
        self.held = push(&self.held, self.window, bytes);
        let moved = FdSlot {
            offset: start.saturating_add(self.held.taken),
            ..slot
        };
        put(self.slots, fd, moved);
        Told::Number(bytes.len() as u32)
    }
}

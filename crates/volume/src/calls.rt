ghost use Rattle.std.specs.Prelude.{◌≡◌, ◌*◌, ◌≤◌, ℕ, List, length, None, true, false};
ghost use Rattle.geometry.specs.Numbers.{usable, body, scratch_need, cache_need};
ghost use Rattle.nor_core.specs.Count.{Rose};
ghost use Rattle.flash_view.specs.Same.{IsSameView};
ghost use Rattle.page_cache.specs.Kept.{IsKept, FewReads};
ghost use Rattle.flash_view.specs.Same.{StaysBehind};
ghost use Rattle.flash_view.specs.Table.{HasTable};
ghost use Rattle.table_model.specs.Ask.{asked};
ghost use Rattle.file_calls.specs.Replies.{reply_of, shown_by, HasRoomFor};
ghost use Rattle.file_calls.specs.Goes.{StandsOn};
ghost use Rattle.volume.specs.Opening.{stage_after as the_stage_after};
ghost use Rattle.volume.specs.Acts.{ActsQuietly};
ghost use Rattle.volume.specs.Settled.{is_fill};
ghost use Rattle.write_window.specs.Shown.{run_in};

use crate::mapping::known;
use crate::stage::{Stage, stage_at};
use crate::write::write_in;
use crate::{Told, Volume};
use fd_table::FdSlot;
use file_calls::{call_in, tell_in};
use flash_view::View;
use geometry::Geometry;
use ix_map::IxMap;
use nor_core::{Nor, NorState};
use table_model::{Call, FsErr};
use write_window::Held;

/// How a call went, and whether the device was asked for a program or an erase.
#[derive(Drop)]
struct Attempt {
    told: Told,
    wrote: bool,
}

// Does a call over a view, where nothing waits.
fn answer_in<N: Nor>(
    v: &mut View<'_, N>,
    slots: &mut [FdSlot],
    held: &mut Held,
    kept: &mut [u8],
    call: &Call<'_>,
    into: &mut [u8],
) -> Result<Told, FsErr>
    requires usable { usable v.old.geometry ≤ 32766 }
    requires fresh { v.old.wrote ≡ false }
    requires room { HasRoomFor (asked call.now) (length into.old) }
    requires no_fill { is_fill (asked call.now) ≡ false }
    requires none { run_in held.old kept.old ≡ None }
    requires held { held.old.taken ≤ length kept.old }
    requires page { body v.old.geometry ≤ length kept.old }
    ensures same { IsSameView v.old v.new }
    ensures size { length kept.new ≡ length kept.old }
    ensures held { held.new.taken ≤ length kept.new }
    ensures acts { ActsQuietly N.NorState v.old.geometry (asked call.now) v.old.nor.now v.new.nor.now slots.old slots.new (run_in held.new kept.new) v.new.wrote
        (reply_of result into.new) }
    ensures counted { StandsOn N.NorState v.old.geometry v.old.nor.now slots.old (reply_of result into.new) v.old.counted v.new.counted }
{
    match *call {
        Call::Write { fd, bytes } => write_in(v, slots, held, kept, fd, bytes),
        Call::Fill { .. } => unreachable!(),
        _ => call_in(v, slots, call, into),
    }
}

// Does a call on a device, where nothing waits.
fn call_on<N: Nor>(
    g: Geometry,
    nor: &mut N,
    work: &mut [u8],
    rows: &mut [u8],
    cache: &mut [u8],
    counted: &mut bool,
    slots: &mut [FdSlot],
    held: &mut Held,
    keep: &mut [u8],
    call: &Call<'_>,
    into: &mut [u8],
) -> Attempt
    requires unit { N.unit nor.old ≡ g.phys }
    requires fits { g.blocks * g.block ≤ N.size nor.old }
    requires work { scratch_need g ≤ length work.old }
    requires cache { cache_need g ≤ length cache.old }
    requires kept { IsKept N.NorState g nor.old cache.old }
    requires table { counted.old ≡ true → HasTable N.NorState g nor.old rows.old }
    requires usable { usable g ≤ 32766 }
    requires room { HasRoomFor (asked call.now) (length into.old) }
    requires no_fill { is_fill (asked call.now) ≡ false }
    requires none { run_in held.old keep.old ≡ None }
    requires held { held.old.taken ≤ length keep.old }
    requires page { body g ≤ length keep.old }
    ensures kept { IsKept N.NorState g nor.new cache.new }
    ensures cache_size { length cache.new ≡ length cache.old }
    ensures behind { StaysBehind N.NorState g nor.old nor.new }
    ensures few { FewReads N.NorState g nor.old cache.old nor.new cache.new }
    ensures faults { N.faults nor.old ≤ N.faults nor.new }
    ensures asked { result.wrote ≡ true → Rose (N.device_writes nor.old) (N.device_writes nor.new) }
    ensures size { length keep.new ≡ length keep.old }
    ensures held { held.new.taken ≤ length keep.new }
    ensures acts { ActsQuietly N.NorState g (asked call.now) nor.old nor.new slots.old slots.new (run_in held.new keep.new) result.wrote
        (shown_by result.told into.new) }
    ensures counted { StandsOn N.NorState g nor.old slots.old (shown_by result.told into.new) counted.old counted.new }
    ensures table { counted.new ≡ true → HasTable N.NorState g nor.new rows.new }
{
    let mut v = View {
        geometry: g,
        nor,
        work,
        rows,
        cache,
        wrote: false,
        counted: *counted,
    };
    let told = match answer_in(&mut v, slots, held, keep, call, into) {
        Ok(told) => told,
        Err(why) => Told::Refusal(why),
    };
    *counted = v.counted;
    Attempt {
        told,
        wrote: v.wrote,
    }
}

// Where a call leads that a checked volume took.
fn stage_after(told: &Told, wrote: bool) -> Stage
    ensures { (into : List ℕ) → result ≡ the_stage_after wrote (shown_by told.now into) }
{
    match told {
        Told::Refusal(why) => stage_at(why, wrote),
        _ => Stage::Checked,
    }
}

impl<'b, N: Nor> Volume<'b, N> {
    ghost use Rattle.std.specs.Prelude.{◌≡◌, true, false, [], None, length};
    ghost use Rattle.table_model.specs.Ask.{Tells, Writes, asked};
    ghost use Rattle.table_model.specs.Window.{leaves_window};
    ghost use Rattle.file_calls.specs.Replies.{shown_by, HasRoomFor};
    ghost use Rattle.volume.specs.Holds.{memory};
    ghost use Rattle.volume.specs.Stages.{takes_calls};
    ghost use Rattle.volume.specs.Same.{IsSameVolume};
    ghost use Rattle.volume.specs.Settled.{is_fill, GoesOnNot, ActsOn};
    ghost use Rattle.volume.specs.Replies.{breaks as the_breaks};
    ghost use Rattle.volume.specs.Mapping.{RefillsTo};
    ghost use Rattle.volume.specs.Calls.{Calls};

    // Does a call where nothing waits. `had` says whether anything waited when it began, and `was` is the map that there was then.
    fn do_settled(&mut self, had: bool, was: IxMap, call: &Call<'_>, into: &mut [u8]) -> Told
        requires takes { takes_calls self.old ≡ true }
        requires none { (memory self.old).run ≡ None }
        requires room { HasRoomFor (asked call.now) (length into.old) }
        requires no_fill { is_fill (asked call.now) ≡ false }
        requires was { had ≡ false → was ≡ self.old.map }
        ensures same { IsSameVolume self.old self.new }
        ensures acts { ActsOn had (asked call.now) self.old self.new (shown_by result into.new) }
        ensures map { RefillsTo was self.old self.new (the_breaks (shown_by result into.new)) }
    {
        let g = self.geometry;
        let work = &mut *self.work;
        let (work, rows) = work.split_at_mut(g.scratch_need() as usize);
        let Attempt { told, wrote } = call_on(
            g,
            self.nor,
            work,
            rows,
            self.cache,
            &mut self.counted,
            self.slots,
            &mut self.held,
            self.window,
            call,
            into,
        );
        self.stage = stage_after(&told, had || wrote);
        self.map = known(self.map, wrote);
        self.refill(was);
        told
    }

    // Does a call that doesn't go on with what waits: that is put onto the chip first.
    fn do_call(&mut self, call: &Call<'_>, into: &mut [u8]) -> Told
        requires takes { takes_calls self.old ≡ true }
        requires leaves { leaves_window (asked call.now) ≡ false }
        requires apart { GoesOnNot self.old (asked call.now) }
        requires room { HasRoomFor (asked call.now) (length into.old) }
        requires no_fill { is_fill (asked call.now) ≡ false }
        ensures { Calls (asked call.now) self.old self.new (shown_by result into.new) }
    {
        let was = self.map;
        match self.begin() {
            Err(why) => Told::Refusal(why),
            Ok(had) => self.do_settled(had, was, call, into),
        }
    }

    // Writes bytes through a descriptor.
    fn do_write(&mut self, fd: u16, bytes: &[u8]) -> Told
        requires takes { takes_calls self.old ≡ true }
        ensures { Calls (Writes fd bytes.now) self.old self.new (shown_by result []) }
    {
        match self.open_run(fd, bytes.len()) {
            Some(slot) => self.extend(fd, slot, bytes),
            None => self.do_call(&Call::Write { fd, bytes }, &mut []),
        }
    }

    // Tells a descriptor's offset: what waits goes on waiting.
    fn do_tell(&self, fd: u16) -> Told
        requires takes { takes_calls self.now ≡ true }
        ensures { Calls (Tells fd) self.now self.now (shown_by result []) }
    {
        match tell_in(self.slots, fd) {
            Ok(told) => told,
            Err(why) => Told::Refusal(why),
        }
    }

    /// Does a call. What it tells is what the flat table answers; or the device failed, or a page reads otherwise than it was
    /// written, or the volume takes no calls. Bytes that are read stand at the front of those that are lent for them, which are at
    /// least as many as a read or a fill asks for. Small writes wait in the write window: each further write through the same descriptor that
    /// ends in the same data page goes on with what waits, and every other call but telling an offset puts that onto the chip first. After a
    /// fault the volume has failed if a program or an erase was asked for; mounting and checking again gives a table that the call may leave
    /// at a cut.
    pub fn answer(&mut self, call: &Call<'_>, into: &mut [u8]) -> Told
        requires room { HasRoomFor (asked call.now) (length into.old) }
        ensures { Calls (asked call.now) self.old self.new (shown_by result into.new) }
    {
        if self.stage != Stage::Checked {
            return Told::Refusal(FsErr::Failed);
        }
        match *call {
            Call::Tell { fd } => self.do_tell(fd),
            Call::Write { fd, bytes } => self.do_write(fd, bytes),
            Call::Fill { fd, count, byte } => {
                let bytes = &mut into[..count as usize];
                bytes.fill(byte);
                self.do_write(fd, bytes)
            }
            _ => self.do_call(call, into),
        }
    }
}

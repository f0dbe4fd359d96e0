// Collection with an aim: a step for idle time, or room for a file.
ghost use Rattle.std.specs.Prelude.{◌≡◌, ◌*◌, ◌≤◌, length, true};
ghost use Rattle.geometry.specs.Numbers.{scratch_need, cache_need};
ghost use Rattle.nor_core.specs.Count.{Rose};
ghost use Rattle.page_cache.specs.Kept.{IsKept, FewReads};
ghost use Rattle.flash_view.specs.Same.{StaysBehind};
ghost use Rattle.flash_view.specs.Steps.{Stepped, stopped};
ghost use Rattle.flash_view.specs.Table.{HasTable};
ghost use Rattle.table_model.specs.Reply.{Fine};
ghost use Rattle.table_model.specs.Room.{index_pages as the_index_pages, data_pages as the_data_pages};
ghost use Rattle.volume.specs.Opening.{stage_after};
ghost use Rattle.volume.specs.Replies.{told};
ghost use Rattle.volume.specs.Cleaning.{aiming, CleansOn, StaysCounted, told_as, or_full};

use crate::Volume;
use crate::mapping::known;
use crate::stage::{Stage, stage_at};
use block_gc::{RoomErr, gc_step, make_room};
use flash_view::{StepErr, View};
use geometry::Geometry;
use nor_core::{Nor, NorState};
use page_layout::{data_pages, index_pages};
use table_model::FsErr;

// What blocks are cleaned for.
#[derive(Clone, Copy)]
enum Aim {
    // A step of a collection: one cleaning, and others until two blocks are free again.
    Step,
    // So many index pages and data pages are had, and two blocks are free.
    Room(u32, u32),
}

// How a collection went, and whether the device was asked for a program or an erase.
#[derive(Drop)]
struct Cleaned {
    result: Result<bool, StepErr>,
    wrote: bool,
}

// Makes room for so many pages, and tells whether they are had.
fn make_or_not<N: Nor>(v: &mut View<'_, N>, index: u32, data_pages: u32) -> Result<bool, StepErr>
    ensures { Stepped stopped v.old v.new result (aiming (Aim.Room index data_pages) (N.device_writes v.old.nor.now) (N.device_writes v.new.nor.now)) }
{
    match make_room(v, index, data_pages) {
        Ok(()) => Ok(true),
        Err(RoomErr::Tight) => Ok(false),
        Err(RoomErr::Step(why)) => Err(why),
    }
}

// Cleans for an aim: whether there was a block to be cleaned, or whether the pages are had.
fn clean_for<N: Nor>(v: &mut View<'_, N>, aim: Aim) -> Result<bool, StepErr>
    ensures { Stepped stopped v.old v.new result (aiming aim (N.device_writes v.old.nor.now) (N.device_writes v.new.nor.now)) }
{
    match aim {
        Aim::Step => gc_step(v),
        Aim::Room(index, data_pages) => make_or_not(v, index, data_pages),
    }
}

// Cleans on a device.
fn clean_on<N: Nor>(
    g: Geometry,
    nor: &mut N,
    work: &mut [u8],
    rows: &mut [u8],
    cache: &mut [u8],
    counted: &mut bool,
    aim: Aim,
) -> Cleaned
    requires unit { N.unit nor.old ≡ g.phys }
    requires fits { g.blocks * g.block ≤ N.size nor.old }
    requires work { scratch_need g ≤ length work.old }
    requires cache { cache_need g ≤ length cache.old }
    requires kept { IsKept N.NorState g nor.old cache.old }
    requires table { counted.old ≡ true → HasTable N.NorState g nor.old rows.old }
    ensures kept { IsKept N.NorState g nor.new cache.new }
    ensures cache_size { length cache.new ≡ length cache.old }
    ensures behind { StaysBehind N.NorState g nor.old nor.new }
    ensures few { FewReads N.NorState g nor.old cache.old nor.new cache.new }
    ensures faults { N.faults nor.old ≤ N.faults nor.new }
    ensures asked { result.wrote ≡ true → Rose (N.device_writes nor.old) (N.device_writes nor.new) }
    ensures cleans { CleansOn N.NorState g aim nor.old nor.new result.wrote result.result }
    ensures stands { StaysCounted N.NorState g nor.old counted.old counted.new result.result }
    ensures table { counted.new ≡ true → HasTable N.NorState g nor.new rows.new }
{
    let mut v = View {
        geometry: g,
        nor,
        work,
        rows,
        cache,
        wrote: false,
        counted: *counted,
    };
    let result = clean_for(&mut v, aim);
    *counted = v.counted;
    Cleaned {
        result,
        wrote: v.wrote,
    }
}

// How a collection is answered that went so.
fn answer_of(cleaned: Result<bool, StepErr>) -> Result<bool, FsErr>
    ensures { result ≡ told_as cleaned }
{
    Ok(cleaned?)
}

// Where a collection leads that a checked volume did. `wrote` says whether a program or an erase was asked for.
fn stage_of(answer: &Result<bool, FsErr>, wrote: bool) -> Stage
    ensures { result ≡ stage_after wrote (told (λ did. Fine) answer.now) }
{
    match answer {
        Ok(_) => Stage::Checked,
        Err(why) => stage_at(why, wrote),
    }
}

// How room for a file is told.
fn full_or(had: Result<bool, FsErr>) -> Result<(), FsErr>
    ensures { result ≡ or_full had }
{
    if had? { Ok(()) } else { Err(FsErr::Full) }
}

// The index pages and data pages of a file of so many bytes.
fn pages_of(g: &Geometry, bytes: u32) -> Aim
    ensures { result ≡ Aim.Room (the_index_pages g.now bytes) (the_data_pages g.now bytes) }
{
    Aim::Room(index_pages(g, bytes), data_pages(g, bytes))
}

impl<'b, N: Nor> Volume<'b, N> {
    ghost use Rattle.std.specs.Prelude.{◌≡◌, ◌⊎◌, ◌≤◌, length, true, None};
    ghost use Rattle.ix_map.specs.Maps.{no_map};
    ghost use Rattle.volume.specs.Holds.{memory};
    ghost use Rattle.volume.specs.Stages.{takes_calls};
    ghost use Rattle.volume.specs.Same.{IsSameVolume};
    ghost use Rattle.volume.specs.Cleaning.{CleansSettled, CleansTo, MakesRoom};

    // Cleans where nothing waits; a map is given up where that writes. `had` says whether anything waited when it began.
    fn clean_settled(&mut self, had: bool, aim: Aim) -> Result<bool, FsErr>
        requires takes { takes_calls self.old ≡ true }
        requires none { (memory self.old).run ≡ None }
        ensures same { IsSameVolume self.old self.new }
        ensures cleans { CleansSettled had aim self.old self.new result }
        ensures map { (self.new.map ≡ self.old.map) ⊎ (self.new.map ≡ no_map) }
        ensures room { length self.new.numbers.now ≡ length self.old.numbers.now }
    {
        let g = self.geometry;
        let work = &mut *self.work;
        let (work, rows) = work.split_at_mut(g.scratch_need() as usize);
        let Cleaned { result, wrote } = clean_on(
            g,
            self.nor,
            work,
            rows,
            self.cache,
            &mut self.counted,
            aim,
        );
        let result = answer_of(result);
        self.stage = stage_of(&result, had || wrote);
        self.map = known(self.map, wrote);
        result
    }

    // Cleans on a volume that takes calls, and reads the map again that was given up.
    fn clean_open(&mut self, aim: Aim) -> Result<bool, FsErr>
        requires takes { takes_calls self.old ≡ true }
        ensures { CleansTo aim self.old self.new result }
    {
        let was = self.map;
        let had = self.begin()?;
        let result = self.clean_settled(had, aim);
        self.refill(was);
        result
    }

    // The same on a volume that may take no calls.
    fn clean_to(&mut self, aim: Aim) -> Result<bool, FsErr>
        ensures { CleansTo aim self.old self.new result }
    {
        if self.stage != Stage::Checked {
            return Err(FsErr::Failed);
        }
        self.clean_open(aim)
    }

    /// A step of a collection, for idle time: written bytes that wait are put onto the chip, then the block that is worth most is cleaned, and
    /// others after it until two blocks are free again. It tells whether there was a block to be cleaned; where there was none, nothing
    /// else is written. Refused are a volume that takes no calls (`Failed`), and a device that fails: `DeviceFault`, or `Damaged` where a
    /// page reads otherwise than it was written; then the volume takes no calls any more, if a program or an erase was asked for. `Tight`
    /// comes only where bytes waited that find no room.
    pub fn gc_step(&mut self) -> Result<bool, FsErr>
        ensures { CleansTo Aim.Step self.old self.new result }
    {
        self.clean_to(Aim::Step)
    }

    /// Cleans blocks until a file of so many bytes finds room beside what is there and two blocks are free, and none where that is so
    /// already; written bytes that wait are put onto the chip first. `Full` where no block can be cleaned any more before that: with two
    /// free blocks that is so only where the blocks don't hold so many pages more. Otherwise refused as `gc_step`.
    pub fn gc_for(&mut self, bytes: u32) -> Result<(), FsErr>
        ensures { MakesRoom bytes self.old self.new result }
    {
        let aim = pages_of(&self.geometry, bytes);
        full_or(self.clean_to(aim))
    }
}

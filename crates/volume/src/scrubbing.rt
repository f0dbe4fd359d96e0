// A block in use that is less worn than the free ones is moved.
ghost use Rattle.std.specs.Prelude.{◌≡◌, ◌*◌, ◌≤◌, length, true};
ghost use Rattle.geometry.specs.Numbers.{scratch_need, cache_need};
ghost use Rattle.nor_core.specs.Count.{Rose};
ghost use Rattle.page_cache.specs.Kept.{IsKept, FewReads};
ghost use Rattle.flash_view.specs.Same.{StaysBehind};
ghost use Rattle.flash_view.specs.Table.{HasTable};
ghost use Rattle.table_model.specs.Reply.{Fine};
ghost use Rattle.volume.specs.Opening.{stage_after};
ghost use Rattle.volume.specs.Replies.{told};
ghost use Rattle.volume.specs.Scrubs.{ScrubsOn, told_as};

use crate::Volume;
use crate::mapping::known;
use crate::stage::{Stage, stage_at};
use flash_view::{StepErr, View};
use geometry::Geometry;
use nor_core::{Nor, NorState};
use table_model::FsErr;
use wear_scrub::{Scrub, scrub_step};

// How a scrub step went, and whether the device was asked for a program or an erase.
#[derive(Drop)]
struct Scrubbed {
    result: Result<Scrub, StepErr>,
    wrote: bool,
}

// Does a scrub step on a device.
fn scrub_on<N: Nor>(
    g: Geometry,
    nor: &mut N,
    work: &mut [u8],
    rows: &mut [u8],
    cache: &mut [u8],
    counted: &mut bool,
    limit: u16,
) -> Scrubbed
    requires unit { N.unit nor.old ≡ g.phys }
    requires fits { g.blocks * g.block ≤ N.size nor.old }
    requires work { scratch_need g ≤ length work.old }
    requires cache { cache_need g ≤ length cache.old }
    requires kept { IsKept N.NorState g nor.old cache.old }
    requires table { counted.old ≡ true → HasTable N.NorState g nor.old rows.old }
    requires limit { (1 ≤ limit) × (limit ≤ 32767) }
    ensures kept { IsKept N.NorState g nor.new cache.new }
    ensures cache_size { length cache.new ≡ length cache.old }
    ensures behind { StaysBehind N.NorState g nor.old nor.new }
    ensures few { FewReads N.NorState g nor.old cache.old nor.new cache.new }
    ensures faults { N.faults nor.old ≤ N.faults nor.new }
    ensures asked { result.wrote ≡ true → Rose (N.device_writes nor.old) (N.device_writes nor.new) }
    ensures scrubs { ScrubsOn N.NorState g limit nor.old nor.new result.wrote result.result }
    ensures table { counted.new ≡ true → HasTable N.NorState g nor.new rows.new }
{
    let mut v = View {
        geometry: g,
        nor,
        work,
        rows,
        cache,
        wrote: false,
        counted: *counted,
    };
    let result = scrub_step(&mut v, limit);
    *counted = v.counted;
    Scrubbed {
        result,
        wrote: v.wrote,
    }
}

// How a scrub is answered whose step went so.
fn answer_of(step: Result<Scrub, StepErr>) -> Result<Scrub, FsErr>
    ensures { result ≡ told_as step }
{
    Ok(step?)
}

// Where a scrub leads that a checked volume did. `wrote` says whether a program or an erase was asked for.
fn stage_of(answer: &Result<Scrub, FsErr>, wrote: bool) -> Stage
    ensures { result ≡ stage_after wrote (told (λ scrub. Fine) answer.now) }
{
    match answer {
        Ok(_) => Stage::Checked,
        Err(why) => stage_at(why, wrote),
    }
}

impl<'b, N: Nor> Volume<'b, N> {
    ghost use Rattle.std.specs.Prelude.{◌≡◌, ◌⊎◌, ◌≤◌, length, true, None};
    ghost use Rattle.ix_map.specs.Maps.{no_map};
    ghost use Rattle.volume.specs.Holds.{memory};
    ghost use Rattle.volume.specs.Stages.{takes_calls};
    ghost use Rattle.volume.specs.Same.{IsSameVolume};
    ghost use Rattle.volume.specs.Scrubs.{ScrubsSettled, Scrubs};

    // Does a scrub step where nothing waits; a map is given up where that writes. `had` says whether anything waited when it began.
    fn scrub_settled(&mut self, had: bool, limit: u16) -> Result<Scrub, FsErr>
        requires takes { takes_calls self.old ≡ true }
        requires none { (memory self.old).run ≡ None }
        requires limit { (1 ≤ limit) × (limit ≤ 32767) }
        ensures same { IsSameVolume self.old self.new }
        ensures scrubs { ScrubsSettled had limit self.old self.new result }
        ensures map { (self.new.map ≡ self.old.map) ⊎ (self.new.map ≡ no_map) }
        ensures room { length self.new.numbers.now ≡ length self.old.numbers.now }
    {
        let g = self.geometry;
        let work = &mut *self.work;
        let (work, rows) = work.split_at_mut(g.scratch_need() as usize);
        let Scrubbed { result, wrote } = scrub_on(
            g,
            self.nor,
            work,
            rows,
            self.cache,
            &mut self.counted,
            limit,
        );
        let result = answer_of(result);
        self.stage = stage_of(&result, had || wrote);
        self.map = known(self.map, wrote);
        result
    }

    // Does a scrub on a volume that takes calls, and reads the map again that was given up.
    fn scrub_open(&mut self, limit: u16) -> Result<Scrub, FsErr>
        requires takes { takes_calls self.old ≡ true }
        requires limit { (1 ≤ limit) × (limit ≤ 32767) }
        ensures { Scrubs limit self.old self.new result }
    {
        let was = self.map;
        let had = self.begin()?;
        let result = self.scrub_settled(had, limit);
        self.refill(was);
        result
    }

    /// A scrub step, by a limit of 1 to 32767 erase counts: written bytes that wait are put onto the chip first. Where no block in use is at least
    /// by the limit less worn than each free one it is `Rested`, and no more is written. Else blocks that are worth it are cleaned until three
    /// are free, and the least worn block in use that may be moved is cleaned, and others until two are free again; or none may, and it is `NoRoom`.
    /// Refused are a volume that takes no calls (`Failed`), and a device that fails: `DeviceFault`, or `Damaged` where a page reads otherwise than
    /// it was written; then the volume takes no calls any more, if a program or an erase was asked for.
    pub fn scrub(&mut self, limit: u16) -> Result<Scrub, FsErr>
        requires limit { (1 ≤ limit) × (limit ≤ 32767) }
        ensures { Scrubs limit self.old self.new result }
    {
        if self.stage != Stage::Checked {
            return Err(FsErr::Failed);
        }
        self.scrub_open(limit)
    }
}

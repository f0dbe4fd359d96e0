// Written bytes that wait are put onto the chip.
ghost use Rattle.std.specs.Prelude.{◌≡◌, ◌*◌, ◌≤◌, length, take, true};
ghost use Rattle.geometry.specs.Numbers.{scratch_need, cache_need};
ghost use Rattle.nor_core.specs.Count.{Rose};
ghost use Rattle.table_model.specs.Table.{File};
ghost use Rattle.page_cache.specs.Kept.{IsKept, FewReads};
ghost use Rattle.flash_view.specs.Same.{StaysBehind};
ghost use Rattle.flash_view.specs.Table.{HasTable};
ghost use Rattle.file_calls.specs.Writings.{WritesOn};

use crate::Volume;
use crate::mapping::known;
use crate::stage::{Stage, stage_at};
use file_calls::write_all;
use flash_view::View;
use geometry::Geometry;
use nor_core::{Nor, NorState};
use table_model::FsErr;
use write_window::Held;

/// How settling went, and whether the device was asked for a program or an erase.
#[derive(Drop)]
struct Settling {
    result: Result<(), FsErr>,
    wrote: bool,
}

// Writes the bytes that wait into their file.
fn settle_on<N: Nor>(
    g: Geometry,
    nor: &mut N,
    work: &mut [u8],
    rows: &mut [u8],
    cache: &mut [u8],
    counted: &mut bool,
    held: &Held,
    bytes: &[u8],
) -> Settling
    requires unit { N.unit nor.old ≡ g.phys }
    requires fits { g.blocks * g.block ≤ N.size nor.old }
    requires work { scratch_need g ≤ length work.old }
    requires cache { cache_need g ≤ length cache.old }
    requires used { held.now.used ≡ true }
    requires held { held.now.taken ≤ length bytes.now }
    requires kept { IsKept N.NorState g nor.old cache.old }
    requires table { counted.old ≡ true → HasTable N.NorState g nor.old rows.old }
    ensures kept { IsKept N.NorState g nor.new cache.new }
    ensures cache_size { length cache.new ≡ length cache.old }
    ensures behind { StaysBehind N.NorState g nor.old nor.new }
    ensures few { FewReads N.NorState g nor.old cache.old nor.new cache.new }
    ensures faults { N.faults nor.old ≤ N.faults nor.new }
    ensures asked { result.wrote ≡ true → Rose (N.device_writes nor.old) (N.device_writes nor.new) }
    ensures writes { (f : File) →
        WritesOn N.NorState g held.now.id held.now.start (take held.now.taken bytes.now) f nor.old nor.new result.wrote counted.old counted.new result.result }
    ensures table { counted.new ≡ true → HasTable N.NorState g nor.new rows.new }
{
    let mut v = View {
        geometry: g,
        nor,
        work,
        rows,
        cache,
        wrote: false,
        counted: *counted,
    };
    let result = write_all(&mut v, held.id, held.start, held.kept(bytes));
    *counted = v.counted;
    Settling {
        result,
        wrote: v.wrote,
    }
}

impl<'b, N: Nor> Volume<'b, N> {
    ghost use Rattle.std.specs.Prelude.{◌≡◌, ◌⊎◌, length, true, false, Err, None};
    ghost use Rattle.nor_core.specs.Count.{Rose};
    ghost use Rattle.table_model.specs.Reply.{Refuses, Fine};
    ghost use Rattle.ix_map.specs.Maps.{no_map};
    ghost use Rattle.volume.specs.Replies.{told, breaks};
    ghost use Rattle.volume.specs.Mapping.{KeepsMap};
    ghost use Rattle.table_model.specs.Window.{Moment, settled_at};
    ghost use Rattle.volume.specs.Holds.{memory, Holds};
    ghost use Rattle.volume.specs.Stages.{takes_calls};
    ghost use Rattle.volume.specs.Settles.{Settles, SettledOr};

    /// Begins a call: what waits is put onto the chip. It tells whether anything waited.
    pub(crate) fn begin(&mut self) -> Result<bool, FsErr>
        requires { takes_calls self.old ≡ true }
        ensures settles { Settles self.old self.new result }
        ensures map { (self.new.map ≡ self.old.map) ⊎ (self.new.map ≡ no_map) }
        ensures room { length self.new.numbers.now ≡ length self.old.numbers.now }
    {
        let held = self.held;
        if !held.is_used() {
            return Ok(false);
        }
        let bytes = &mut *self.window;
        let g = self.geometry;
        let work = &mut *self.work;
        let (work, rows) = work.split_at_mut(g.scratch_need() as usize);
        let Settling { result, wrote } = settle_on(
            g,
            self.nor,
            work,
            rows,
            self.cache,
            &mut self.counted,
            &held,
            bytes,
        );
        self.map = known(self.map, wrote);
        match result {
            Ok(()) => {
                self.held = Held::none();
                Ok(true)
            }
            Err(why) => {
                self.stage = stage_at(&why, wrote);
                Err(why)
            }
        }
    }

    // The same on a volume that may take no calls, and the map is read again where it was given up.
    pub(crate) fn settled(&mut self) -> Result<bool, FsErr>
        ensures settles { takes_calls self.old ≡ true → Settles self.old self.new result }
        ensures closed { takes_calls self.old ≡ false → (result ≡ Err FsErr.Failed) × (self.new ≡ self.old) }
        ensures map { (m : Moment) → takes_calls self.old ≡ true → Holds self.old m → KeepsMap self.old self.new (breaks (told (λ had. Fine) result)) }
        ensures still { takes_calls self.old ≡ true → (memory self.old).run ≡ None → self.new ≡ self.old }
    {
        if self.stage != Stage::Checked {
            return Err(FsErr::Failed);
        }
        let was = self.map;
        let had = self.begin()?;
        self.refill(was);
        Ok(had)
    }

    /// Puts the written bytes that wait onto the chip. Refused are a volume that takes no calls (`Failed`), and a device that fails:
    /// `DeviceFault`, or `Damaged` where a page reads otherwise than it was written; then the volume takes no calls any more, if a
    /// program or an erase was asked for.
    pub fn settle(&mut self) -> Result<(), FsErr>
        ensures settled { takes_calls self.old ≡ true → SettledOr self.old self.new result }
        ensures closed { takes_calls self.old ≡ false → (result ≡ Err FsErr.Failed) × (self.new ≡ self.old) }
        ensures map { (m : Moment) → takes_calls self.old ≡ true → Holds self.old m → KeepsMap self.old self.new (breaks (told (λ done. Fine) result)) }
    {
        self.settled()?;
        Ok(())
    }
}

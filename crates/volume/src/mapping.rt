// What a volume knows of the map of a file, and how it reads it again.
ghost use Rattle.std.specs.Prelude.{◌≡◌, ◌*◌, ◌≤◌, length, OnErr, IfOk, IfSome, true};
ghost use Rattle.geometry.specs.Numbers.{scratch_need, cache_need};
ghost use Rattle.nor_core.specs.Count.{Rose};
ghost use Rattle.nor_core.specs.Device.{OnlyReads};
ghost use Rattle.page_cache.specs.Kept.{IsKept, FewReads};
ghost use Rattle.flash_view.specs.Same.{StaysBehind};
ghost use Rattle.flash_view.specs.Table.{HasTable};
ghost use Rattle.ix_map.specs.Maps.{Fills};
ghost use Rattle.volume.specs.Mapping.{known_map};

use crate::Volume;
use crate::stage::Stage;
use flash_view::View;
use geometry::Geometry;
use ix_map::{IxMap, fill};
use nor_core::{Failed, Nor, NorState};
use table_model::FsErr;

/// What is known of a map after a call: nothing, where that asked for a program or an erase.
pub(crate) fn known(map: IxMap, wrote: bool) -> IxMap
    ensures { result ≡ known_map map wrote }
{
    if wrote { IxMap::none() } else { map }
}

// Reads the map of a file.
fn fill_on<N: Nor>(
    g: Geometry,
    nor: &mut N,
    work: &mut [u8],
    rows: &mut [u8],
    cache: &mut [u8],
    counted: &mut bool,
    id: u16,
    first: u16,
    numbers: &mut [u8],
) -> Result<Option<IxMap>, Failed>
    requires unit { N.unit nor.old ≡ g.phys }
    requires fits { g.blocks * g.block ≤ N.size nor.old }
    requires work { scratch_need g ≤ length work.old }
    requires cache { cache_need g ≤ length cache.old }
    requires kept { IsKept N.NorState g nor.old cache.old }
    requires table { counted.old ≡ true → HasTable N.NorState g nor.old rows.old }
    ensures kept { IsKept N.NorState g nor.new cache.new }
    ensures cache_size { length cache.new ≡ length cache.old }
    ensures behind { StaysBehind N.NorState g nor.old nor.new }
    ensures few { FewReads N.NorState g nor.old cache.old nor.new cache.new }
    ensures cause { OnErr result (Rose (N.faults nor.old) (N.faults nor.new)) }
    ensures looks { OnlyReads N.NorState nor.old nor.new }
    ensures numbers { IfOk result (λ found. IfSome found (λ map. (map.used ≡ true) × (map.id ≡ id) × (map.first ≡ first))) }
    ensures told { N.tells nor.old → IfOk result (Fills g (N.bytes nor.old) id numbers.new) }
    ensures counted { counted.new ≡ counted.old }
    ensures table { counted.new ≡ true → HasTable N.NorState g nor.new rows.new }
{
    let mut v = View {
        geometry: g,
        nor,
        work,
        rows,
        cache,
        wrote: false,
        counted: *counted,
    };
    let result = fill(&mut v, id, first, numbers);
    *counted = v.counted;
    result
}

impl<'b, N: Nor> Volume<'b, N> {
    ghost use Rattle.std.specs.Prelude.{◌≡◌, ◌⊎◌, ◌≤◌, length, false, true, IfErr, OnOk};
    ghost use Rattle.nor_core.specs.Count.{Rose};
    ghost use Rattle.nor_core.specs.Device.{OnlyReads};
    ghost use Rattle.volume.specs.Same.{IsSameVolume};
    ghost use Rattle.volume.specs.Stages.{takes_calls};
    ghost use Rattle.volume.specs.Mapping.{HasNoHeader};

    /// Reads the map of a file, from a span on. There is none where the device failed, or the file isn't there.
    pub(crate) fn fill(&mut self, id: u16, first: u16) -> Result<(), FsErr>
        ensures looks { OnlyReads N.NorState self.old.nor.now self.new.nor.now }
        ensures same { IsSameVolume self.old self.new }
        ensures slots { self.new.slots.now ≡ self.old.slots.now }
        ensures held { self.new.held ≡ self.old.held }
        ensures window { self.new.window.now ≡ self.old.window.now }
        ensures stage { self.new.stage ≡ self.old.stage }
        ensures counted { self.new.counted ≡ self.old.counted }
        ensures room { length self.new.numbers.now ≡ length self.old.numbers.now }
        ensures lost { self.new.map.used ≡ false → Rose (N.faults self.old.nor.now) (N.faults self.new.nor.now) ⊎ HasNoHeader self.new id }
        ensures is { self.new.map.used ≡ true → (self.new.map.id ≡ id) × (self.new.map.first ≡ first) }
        ensures done { OnOk result (self.new.map.used ≡ true) }
        ensures why { IfErr result (λ why. (self.new.map.used ≡ false) × (((why ≡ FsErr.DeviceFault)
            × Rose (N.faults self.old.nor.now) (N.faults self.new.nor.now)) ⊎ ((why ≡ FsErr.NotFound) × HasNoHeader self.new id))) }
    {
        let g = self.geometry;
        let work = &mut *self.work;
        let (work, rows) = work.split_at_mut(g.scratch_need() as usize);
        match fill_on(
            g,
            self.nor,
            work,
            rows,
            self.cache,
            &mut self.counted,
            id,
            first,
            self.numbers,
        ) {
            Ok(Some(map)) => {
                self.map = map;
                Ok(())
            }
            Ok(None) => {
                self.map = IxMap::none();
                Err(FsErr::NotFound)
            }
            Err(Failed) => {
                self.map = IxMap::none();
                Err(FsErr::DeviceFault)
            }
        }
    }

    /// Reads a map again that was given up, on a volume that takes calls.
    pub(crate) fn refill(&mut self, was: IxMap)
        ensures looks { OnlyReads N.NorState self.old.nor.now self.new.nor.now }
        ensures same { IsSameVolume self.old self.new }
        ensures slots { self.new.slots.now ≡ self.old.slots.now }
        ensures held { self.new.held ≡ self.old.held }
        ensures window { self.new.window.now ≡ self.old.window.now }
        ensures stage { self.new.stage ≡ self.old.stage }
        ensures counted { self.new.counted ≡ self.old.counted }
        ensures room { length self.new.numbers.now ≡ length self.old.numbers.now }
        ensures still { self.old.map.used ≡ true → self.new ≡ self.old }
        ensures none { was.used ≡ false → self.new ≡ self.old }
        ensures lost { was.used ≡ true → self.new.map.used ≡ false →
            (takes_calls self.old ≡ false) ⊎ (Rose (N.faults self.old.nor.now) (N.faults self.new.nor.now) ⊎ HasNoHeader self.new was.id) }
        ensures is { self.old.map.used ≡ false → self.new.map.used ≡ true → (self.new.map.id ≡ was.id) × (self.new.map.first ≡ was.first) }
    {
        if self.map.used || !was.used || self.stage != Stage::Checked {
            return;
        }
        let _ = self.fill(was.id, was.first);
    }
}

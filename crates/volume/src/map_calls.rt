// The calls of maps: a file's data pages are known by their numbers in lent bytes.
ghost use Rattle.std.specs.Prelude.{◌≡◌, ◌+◌, ◌*◌, ◌≤◌, length, IfErr, IsErrOf, true};
ghost use Rattle.geometry.specs.Numbers.{scratch_need, cache_need, body};
ghost use Rattle.nor_core.specs.Count.{Rose};
ghost use Rattle.nor_core.specs.Device.{OnlyReads};
ghost use Rattle.page_cache.specs.Kept.{IsKept, FewReads};
ghost use Rattle.flash_view.specs.Same.{StaysBehind};
ghost use Rattle.flash_view.specs.Table.{HasTable};
ghost use Rattle.table_model.specs.Table.{File};
ghost use Rattle.file_read.specs.Whole.{IsFileOf, IsRead};
ghost use Rattle.file_read.specs.Missing.{IsMissing, HoldsOrFault};
ghost use Rattle.ix_map.specs.Maps.{IsMapOf};
ghost use Rattle.ix_map.specs.Covers.{given, covers, pages_met};
ghost use Rattle.volume.specs.Opening.{stage_after};
ghost use Rattle.volume.specs.MapReads.{map_reply, why_not};

use crate::Volume;
use crate::stage::{Stage, stage_at};
use file_calls::opened;
use flash_view::{StepErr, View};
use geometry::Geometry;
use ix_map::{IxMap, read_mapped};
use nor_core::{Nor, NorState};
use std::mem;
use table_model::FsErr;
use thiserror::Error;

/// Why a map is not attached or not read.
#[derive(Clone, Copy, Debug, PartialEq, Eq, Error)]
pub enum MapErr {
    /// A refusal that other calls have too.
    #[error("{0}")]
    Call(FsErr),
    /// No file is mapped.
    #[error("no file is mapped")]
    NoMap,
    /// A byte that would be given lies in a span for whose number the lent bytes have no room.
    #[error("a byte that would be given lies outside the map")]
    NotMapped,
    /// Bytes are lent for a map already.
    #[error("bytes are lent for a map already")]
    MapBusy,
}

impl From<FsErr> for MapErr {
    ghost use Rattle.volume.specs.declared.map_calls.MapErr.{MapErr};

    ghost from_gives = { λ call why. why ≡ MapErr.Call call };

    fn from(call: FsErr) -> MapErr {
        MapErr::Call(call)
    }
}

impl From<StepErr> for MapErr {
    ghost use Rattle.flash_view.specs.Steps.{as_fs_err};
    ghost use Rattle.volume.specs.declared.map_calls.MapErr.{MapErr};

    ghost from_gives = { λ step why. why ≡ MapErr.Call (as_fs_err step) };

    fn from(step: StepErr) -> MapErr {
        MapErr::Call(FsErr::from(step))
    }
}

impl MapErr {
    ghost use Rattle.std.specs.Prelude.{◌≡◌};
    ghost use Rattle.volume.specs.MapReads.{map_number};

    /// The number of a refusal, as of `FsErr`: those of maps are -11009 to -11011.
    pub fn number(self) -> i32
        ensures { result ≡ map_number self }
    {
        match self {
            MapErr::Call(why) => why.number(),
            MapErr::NoMap => -11009,
            MapErr::NotMapped => -11010,
            MapErr::MapBusy => -11011,
        }
    }
}

/// A map that was not attached: why, and the bytes that were lent for it.
#[derive(Drop)]
pub struct MapRefusal<'m> {
    /// Why.
    pub why: MapErr,
    /// The bytes.
    pub numbers: &'m mut [u8],
}

// Where a read through a map leads. `had` says whether anything waited when it began.
fn stage_of(told: &Result<u32, MapErr>, had: bool) -> Stage
    ensures { result ≡ stage_after had (map_reply (why_not told.now)) }
{
    match told {
        Err(MapErr::Call(why)) => stage_at(why, had),
        Err(MapErr::NoMap | MapErr::NotMapped | MapErr::MapBusy) | Ok(_) => Stage::Checked,
    }
}

// Reads bytes of a map's file.
fn read_on<N: Nor>(
    g: Geometry,
    nor: &mut N,
    work: &mut [u8],
    rows: &mut [u8],
    cache: &mut [u8],
    counted: &mut bool,
    map: IxMap,
    numbers: &[u8],
    at: u32,
    into: &mut [u8],
) -> Result<u32, StepErr>
    requires unit { N.unit nor.old ≡ g.phys }
    requires fits { g.blocks * g.block ≤ N.size nor.old }
    requires work { scratch_need g ≤ length work.old }
    requires cache { cache_need g ≤ length cache.old }
    requires kept { IsKept N.NorState g nor.old cache.old }
    requires table { counted.old ≡ true → HasTable N.NorState g nor.old rows.old }
    requires covered { covers g map numbers.now at (length into.old) ≡ true }
    ensures kept { IsKept N.NorState g nor.new cache.new }
    ensures cache_size { length cache.new ≡ length cache.old }
    ensures behind { StaysBehind N.NorState g nor.old nor.new }
    ensures few { FewReads N.NorState g nor.old cache.old nor.new cache.new }
    ensures cause { IsErrOf result StepErr.DeviceFault → Rose (N.faults nor.old) (N.faults nor.new) }
    ensures looks { OnlyReads N.NorState nor.old nor.new }
    ensures once { N.device_reads nor.new ≤ N.device_reads nor.old + pages_met (body g) at (given map.size at (length into.old)) }
    ensures missing { IfErr result (IsMissing map.id) }
    ensures told { N.tells nor.old → (f : File) → IsMapOf g (N.bytes nor.old) map numbers.now → IsFileOf g (N.bytes nor.old) map.id f →
        HoldsOrFault result (λ n. IsRead f at into.old into.new n) }
    ensures table { counted.new ≡ true → HasTable N.NorState g nor.new rows.new }
{
    let mut v = View {
        geometry: g,
        nor,
        work,
        rows,
        cache,
        wrote: false,
        counted: *counted,
    };
    let result = read_mapped(&mut v, map, numbers, at, into);
    *counted = v.counted;
    result
}

impl<'b, N: Nor> Volume<'b, N> {
    ghost use Rattle.std.specs.Prelude.{◌≡◌, ◌≢◌, ◌⊎◌, ◌+◌, ◌≤◌, length, false, true, Some, Err, IfErr, OnOk, IfSome};
    ghost use Rattle.std.specs.Option.{is_some};
    ghost use Rattle.geometry.specs.Numbers.{body};
    ghost use Rattle.nor_core.specs.Count.{Rose};
    ghost use Rattle.nor_core.specs.Device.{OnlyReads};
    ghost use Rattle.table_model.specs.declared.error.Differ.{Differ};
    ghost use Rattle.table_model.specs.Table.{File, State, file_of};
    ghost use Rattle.table_model.specs.Window.{Moment};
    ghost use Rattle.fd_table.specs.Slots.{descriptors};
    ghost use Rattle.file_read.specs.Whole.{IsFileOf, IsRead};
    ghost use Rattle.ix_map.specs.Covers.{given, covers, pages_met};
    ghost use Rattle.ix_map.specs.Rights.{IsRight};
    ghost use Rattle.volume.specs.Opening.{stage_after};
    ghost use Rattle.volume.specs.Same.{IsSameVolume};
    ghost use Rattle.volume.specs.Stages.{takes_calls};
    ghost use Rattle.volume.specs.Holds.{memory, Holds};
    ghost use Rattle.volume.specs.Mapping.{HasNoHeader, is_attached};
    ghost use Rattle.volume.specs.MapReads.{GivesOrFault, ReadsMap, Attaches, id_at, id_in, page_told, why_back, why_not, map_reply};

    /// Whether bytes are lent for a map.
    pub fn is_attached(&self) -> bool
        ensures { result ≡ is_attached self.now }
    {
        !self.numbers.is_empty()
    }

    // The id of an open descriptor.
    fn id_of(&self, fd: u16) -> Result<u16, FsErr>
        ensures told { (s : State) → s.slots ≡ descriptors self.now.slots.now → id_at fd s ≡ result }
        ensures error { IfErr result (λ why. why ≡ FsErr.BadDescriptor) }
    {
        Ok(opened(self.slots, fd)?.id)
    }

    // Maps the file of an id, where nothing waits and no bytes are lent. `had` says whether anything waited when the call began.
    fn attach_settled(
        &mut self,
        had: bool,
        id: u16,
        first: u16,
        numbers: &'b mut [u8],
    ) -> Result<(), MapRefusal<'b>>
        requires takes { takes_calls self.old ≡ true }
        ensures looks { OnlyReads N.NorState self.old.nor.now self.new.nor.now }
        ensures same { IsSameVolume self.old self.new }
        ensures slots { self.new.slots.now ≡ self.old.slots.now }
        ensures held { self.new.held ≡ self.old.held }
        ensures window { self.new.window.now ≡ self.old.window.now }
        ensures stage { self.new.stage ≡ stage_after had (map_reply (why_back result)) }
        ensures done { OnOk result
            ((self.new.map.used ≡ true) × (self.new.map.id ≡ id) × (self.new.map.first ≡ first) × (length self.new.numbers.now ≡ length numbers.old)) }
        ensures back { IfErr result (λ refusal. length refusal.numbers.now ≡ length numbers.old) }
        ensures none { IfErr result (λ refusal. (self.new.map.used ≡ false) × (length self.new.numbers.now ≡ 0)) }
        ensures why { IfErr result (λ refusal. ((refusal.why ≡ MapErr.Call FsErr.DeviceFault) × Rose (N.faults self.old.nor.now) (N.faults self.new.nor.now))
            ⊎ ((refusal.why ≡ MapErr.Call FsErr.NotFound) × HasNoHeader self.new id)) }
    {
        self.map = IxMap::none();
        self.numbers = numbers;
        match self.fill(id, first) {
            Ok(()) => Ok(()),
            Err(why) => {
                let numbers = mem::replace(&mut self.numbers, &mut []);
                self.stage = stage_at(&why, had);
                Err(MapRefusal {
                    why: MapErr::Call(why),
                    numbers,
                })
            }
        }
    }

    /// Attaches a map of the file of an id, from a span on, in lent bytes: two for each span that it may tell (`map_need` gives the
    /// number of bytes for a whole file). What waits is put onto the chip first, then the file's index pages are read. Each later call
    /// that programs or erases reads them again at its end; where a fault comes then, or the file is removed, there is no map any more,
    /// and the bytes stay lent. Lent bytes of length 0 hold no map. A refusal gives the bytes back, in this order: `Failed` (also where the
    /// volume wasn't checked), a fault or `Tight` while what waits is put onto the chip, `MapBusy`, `NotFound`, a fault of a read.
    pub fn attach_map_of(
        &mut self,
        id: u16,
        first: u16,
        numbers: &'b mut [u8],
    ) -> Result<(), MapRefusal<'b>>
        ensures { Attaches (id_in id) first (length numbers.old) self.old self.new result }
    {
        match self.settled() {
            Err(why) => Err(MapRefusal {
                why: MapErr::Call(why),
                numbers,
            }),
            Ok(had) => {
                if self.is_attached() {
                    return Err(MapRefusal {
                        why: MapErr::MapBusy,
                        numbers,
                    });
                }
                self.attach_settled(had, id, first, numbers)
            }
        }
    }

    /// The same of the file of an open descriptor; the map stays when the descriptor is closed. Refused as that, with `BadDescriptor` in
    /// the place of `NotFound`.
    pub fn attach_map(
        &mut self,
        fd: u16,
        first: u16,
        numbers: &'b mut [u8],
    ) -> Result<(), MapRefusal<'b>>
        ensures { Attaches (id_at fd) first (length numbers.old) self.old self.new result }
    {
        match self.settled() {
            Err(why) => Err(MapRefusal {
                why: MapErr::Call(why),
                numbers,
            }),
            Ok(had) => {
                if self.is_attached() {
                    return Err(MapRefusal {
                        why: MapErr::MapBusy,
                        numbers,
                    });
                }
                match self.id_of(fd) {
                    Err(why) => Err(MapRefusal {
                        why: MapErr::Call(why),
                        numbers,
                    }),
                    Ok(id) => self.attach_settled(had, id, first, numbers),
                }
            }
        }
    }

    /// The number that the map tells for its i-th span: 0xFFFF where the file has no such span. None where there is no map, or no room
    /// for the span.
    pub fn map_page(&self, i: u32) -> Option<u16>
        ensures number { result ≡ page_told self.now i }
        ensures right { (m : Moment) (f : File) → Holds self.now m → self.now.map.used ≡ true → file_of self.now.map.id m.settled ≡ Some f →
            IsRight self.now.geometry (N.bytes self.now.nor.now) self.now.map self.now.numbers.now f }
    {
        let map = self.map;
        if map.used && i < map.spans(self.numbers) {
            return Some(map.page(self.numbers, i));
        }
        None
    }

    // Reads bytes of the mapped file, where nothing waits.
    fn read_settled(&mut self, at: u32, into: &mut [u8]) -> Result<u32, MapErr>
        ensures looks { OnlyReads N.NorState self.old.nor.now self.new.nor.now }
        ensures same { IsSameVolume self.old self.new }
        ensures slots { self.new.slots.now ≡ self.old.slots.now }
        ensures held { self.new.held ≡ self.old.held }
        ensures window { self.new.window.now ≡ self.old.window.now }
        ensures stage { self.new.stage ≡ self.old.stage }
        ensures map { self.new.map ≡ self.old.map }
        ensures numbers { self.new.numbers.now ≡ self.old.numbers.now }
        ensures once { N.device_reads self.new.nor.now
            ≤ N.device_reads self.old.nor.now + pages_met (body self.old.geometry) at (given self.old.map.size at (length into.old)) }
        ensures none { self.old.map.used ≡ false → result ≡ Err MapErr.NoMap }
        ensures apart { self.old.map.used ≡ true → covers self.old.geometry self.old.map self.old.numbers.now at (length into.old) ≡ false →
            result ≡ Err MapErr.NotMapped }
        ensures cause { why_not result ≡ Some (MapErr.Call FsErr.DeviceFault) → Rose (N.faults self.old.nor.now) (N.faults self.new.nor.now) }
        ensures differs { (d : Differ) → why_not result ≡ Some (MapErr.Call (FsErr.Damaged d)) → d.wanted ≢ d.found }
        ensures told { N.tells self.old.nor.now → (f : File) → IsFileOf self.old.geometry (N.bytes self.old.nor.now) self.old.map.id f →
            self.old.map.used ≡ true → covers self.old.geometry self.old.map self.old.numbers.now at (length into.old) ≡ true →
            GivesOrFault result (λ n. IsRead f at into.old into.new n) }
    {
        let map = self.map;
        if !map.used {
            return Err(MapErr::NoMap);
        }
        let g = self.geometry;
        let numbers = &mut *self.numbers;
        if !map.covers(&g, numbers, at, into.len()) {
            return Err(MapErr::NotMapped);
        }
        let work = &mut *self.work;
        let (work, rows) = work.split_at_mut(g.scratch_need() as usize);
        let count = read_on(
            g,
            self.nor,
            work,
            rows,
            self.cache,
            &mut self.counted,
            map,
            numbers,
            at,
            into,
        )?;
        Ok(count)
    }

    /// Reads bytes of the mapped file from byte `at` on, as many as there are and fit, and answers their number; none at the file's end
    /// and past it. What waits is put onto the chip first. Then each data page in which they lie is read once at most, and no other page.
    /// Refused, in this order: `Failed` (also where the volume wasn't checked), a fault or `Tight` while what waits is put onto the chip,
    /// `NoMap`, `NotMapped`, a fault of a read.
    pub fn read_map(&mut self, at: u32, into: &mut [u8]) -> Result<u32, MapErr>
        ensures { ReadsMap self.old self.new at into.old into.new result }
    {
        let had = self.settled()?;
        let result = self.read_settled(at, into);
        self.stage = stage_of(&result, had);
        result
    }

    /// Gives back the bytes of a map, if they are lent; then there is no map. Written bytes go on waiting.
    pub fn detach_map(&mut self) -> Option<&'b mut [u8]>
        ensures device { self.new.nor.now ≡ self.old.nor.now }
        ensures same { IsSameVolume self.old self.new }
        ensures memory { memory self.new ≡ memory self.old }
        ensures stage { self.new.stage ≡ self.old.stage }
        ensures none { (self.new.map.used ≡ false) × (is_attached self.new ≡ false) }
        ensures given { is_some result ≡ is_attached self.old }
        ensures size { IfSome result (λ numbers. length numbers.now ≡ length self.old.numbers.now) }
    {
        self.map = IxMap::none();
        if self.numbers.is_empty() {
            return None;
        }
        Some(mem::replace(&mut self.numbers, &mut []))
    }
}

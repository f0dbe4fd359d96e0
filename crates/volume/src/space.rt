// What is free in a volume.
ghost use Rattle.std.specs.Prelude.{◌≡◌, ◌*◌, ◌≤◌, length, OnErr, IfOk, IfErr, Err, true, false};
ghost use Rattle.geometry.specs.Numbers.{scratch_need, cache_need};
ghost use Rattle.nor_core.specs.Count.{Rose};
ghost use Rattle.nor_core.specs.Device.{OnlyReads};
ghost use Rattle.image_model.specs.Tidy.{IsTidy};
ghost use Rattle.page_cache.specs.Kept.{IsKept, FewReads};
ghost use Rattle.flash_view.specs.Same.{StaysBehind};
ghost use Rattle.flash_view.specs.Table.{HasTable};
ghost use Rattle.table_model.specs.Window.{Moment};
ghost use Rattle.file_calls.specs.Spaces.{IsSpace};
ghost use Rattle.volume.specs.Stages.{takes_calls};
ghost use Rattle.volume.specs.Holds.{Holds};
ghost use Rattle.volume.specs.Unchanged.{Unchanged};
ghost use Rattle.volume.specs.Same.{IsSameVolume};

use crate::Volume;
use crate::stage::Stage;
use file_calls::{Space, space_of};
use flash_view::View;
use geometry::Geometry;
use nor_core::{Failed, Nor, NorState};
use table_model::FsErr;

// Counts what is free on a device.
fn space_on<N: Nor>(
    g: Geometry,
    nor: &mut N,
    work: &mut [u8],
    rows: &mut [u8],
    cache: &mut [u8],
    counted: &mut bool,
) -> Result<Space, Failed>
    requires unit { N.unit nor.old ≡ g.phys }
    requires fits { g.blocks * g.block ≤ N.size nor.old }
    requires work { scratch_need g ≤ length work.old }
    requires cache { cache_need g ≤ length cache.old }
    requires kept { IsKept N.NorState g nor.old cache.old }
    requires table { counted.old ≡ true → HasTable N.NorState g nor.old rows.old }
    ensures kept { IsKept N.NorState g nor.new cache.new }
    ensures cache_size { length cache.new ≡ length cache.old }
    ensures behind { StaysBehind N.NorState g nor.old nor.new }
    ensures few { FewReads N.NorState g nor.old cache.old nor.new cache.new }
    ensures cause { OnErr result (Rose (N.faults nor.old) (N.faults nor.new)) }
    ensures looks { OnlyReads N.NorState nor.old nor.new }
    ensures told { N.tells nor.old → IsTidy g (N.bytes nor.old) → IfOk result (λ space. IsSpace g (N.bytes nor.old) space) }
    ensures table { counted.new ≡ true → HasTable N.NorState g nor.new rows.new }
{
    let mut v = View {
        geometry: g,
        nor,
        work,
        rows,
        cache,
        wrote: false,
        counted: *counted,
    };
    let result = space_of(&mut v);
    *counted = v.counted;
    result
}

impl<'b, N: Nor> Volume<'b, N> {
    // What is free on the chip of a volume that takes calls.
    fn space_of_blocks(&mut self) -> Result<Space, FsErr>
        ensures told { (m : Moment) → takes_calls self.old ≡ true → Holds self.old m →
            IfOk result (λ space. IsSpace self.old.geometry (N.bytes self.old.nor.now) space) }
        ensures refused { IfErr result (λ why. why ≡ FsErr.DeviceFault) }
        ensures cause { result ≡ Err FsErr.DeviceFault → Rose (N.faults self.old.nor.now) (N.faults self.new.nor.now) }
        ensures unchanged { Unchanged self.old self.new }
        ensures same { IsSameVolume self.old self.new }
    {
        let g = self.geometry;
        let work = &mut *self.work;
        let (work, rows) = work.split_at_mut(g.scratch_need() as usize);
        let space = space_on(g, self.nor, work, rows, self.cache, &mut self.counted)?;
        Ok(space)
    }

    /// What is free on the chip, counted block by block: written bytes that wait are not on it, and go on waiting. Refused is `Failed`,
    /// also where the volume wasn't checked. `DeviceFault` changes nothing.
    pub fn space(&mut self) -> Result<Space, FsErr>
        ensures told { (m : Moment) → takes_calls self.old ≡ true → Holds self.old m →
            IfOk result (λ space. IsSpace self.old.geometry (N.bytes self.old.nor.now) space) }
        ensures refused { takes_calls self.old ≡ true → IfErr result (λ why. why ≡ FsErr.DeviceFault) }
        ensures cause { result ≡ Err FsErr.DeviceFault → Rose (N.faults self.old.nor.now) (N.faults self.new.nor.now) }
        ensures closed { takes_calls self.old ≡ false → (result ≡ Err FsErr.Failed) × (self.new ≡ self.old) }
        ensures unchanged { Unchanged self.old self.new }
        ensures same { IsSameVolume self.old self.new }
    {
        if self.stage != Stage::Checked {
            return Err(FsErr::Failed);
        }
        self.space_of_blocks()
    }
}

ghost use Rattle.std.specs.Prelude.{◌≡◌, ◌*◌, ◌≤◌, length, min, replicate, OnOk, OnErr, IfErr, Err, None, true};
ghost use Rattle.geometry.specs.Numbers.{usable, scratch_need, rows_need, work_need, cache_need, check_need};
ghost use Rattle.nor_core.specs.Count.{Rose};
ghost use Rattle.nor_core.specs.Device.{OnlyReads};
ghost use Rattle.image_model.specs.Kinds.{spoiled_blocks};
ghost use Rattle.image_model.specs.Sound.{HasMagics};
ghost use Rattle.image_model.specs.Tidy.{TellsFree};
ghost use Rattle.page_cache.specs.Kept.{IsKept, FewReads};
ghost use Rattle.flash_view.specs.Same.{StaysBehind};
ghost use Rattle.flash_view.specs.Table.{HasTable, rows_in};
ghost use Rattle.fd_table.specs.Slots.{descriptors};
ghost use Rattle.ix_map.specs.Maps.{IsMapOf};
ghost use Rattle.vol_mount.specs.Mounts.{CountsSpoiled};
ghost use Rattle.vol_check.specs.Owned.{OwnIf};
ghost use Rattle.volume.specs.Checking.{ChecksVolume};
ghost use Rattle.volume.specs.Opening.{is_open, is_mounted};

use crate::checking::check_view;
use crate::stage::Stage;
use crate::{CheckErr, Report};
use fd_table::{FdSlot, FdTable};
use flash_view::View;
use free_search::count_all;
use geometry::Geometry;
use ix_map::IxMap;
use nor_core::{Failed, Nor, NorState};
use page_cache::Cached;
use table_model::FsErr;
use vol_mount::{Lent, MountErr, Returned};
use write_window::Held;

/// A volume on a device, in lent memory. Mount it, then check it: then it takes file calls. One caller at a time
/// uses it; no call takes memory.
#[derive(Drop)]
pub struct Volume<'b, N: Nor> {
    /// The numbers of the volume.
    pub geometry: Geometry,
    /// The device. The volume is its first bytes.
    pub nor: &'b mut N,
    /// Bytes for work: a page to build, a page that was read, and notes; behind them the counts of blocks.
    pub work: &'b mut [u8],
    /// Bytes for copies of pages.
    pub cache: &'b mut [u8],
    /// The descriptors.
    pub slots: &'b mut [FdSlot],
    /// Bytes for the write window: written bytes that wait stand at their front.
    pub window: &'b mut [u8],
    /// The numbers of the written bytes that wait.
    pub held: Held,
    /// The map of a file, if there is one.
    pub map: IxMap,
    /// Bytes that are lent for the page numbers of a map, two for each span; none where no map is attached.
    pub numbers: &'b mut [u8],
    /// How far the volume has come.
    pub stage: Stage,
    /// Whether the table of counts stands behind the other bytes for work.
    pub counted: bool,
    pub ghost unit: { N.unit nor.now ≡ geometry.phys },
    pub ghost fits: { geometry.blocks * geometry.block ≤ N.size nor.now },
    pub ghost work_fits: { work_need geometry ≤ length work.now },
    pub ghost cache_fits: { cache_need geometry ≤ length cache.now },
    pub ghost window_fits: { geometry.page ≤ length window.now },
    pub ghost held_fits: { held.taken ≤ length window.now },
    pub ghost kept: { IsKept N.NorState geometry nor.now cache.now },
    pub ghost magics: { is_mounted stage ≡ true → N.tells nor.now → HasMagics geometry (N.bytes nor.now) },
    pub ghost writable: { is_open stage ≡ true → usable geometry ≤ 32766 },
    pub ghost table: { counted ≡ true → HasTable N.NorState geometry nor.now (rows_in geometry work.now) },
    pub ghost mapped: { map.used ≡ true → N.tells nor.now → IsMapOf geometry (N.bytes nor.now) map numbers.now },
}

/// A volume that was unmounted: what was lent for it, and how its last work went.
#[derive(Drop)]
pub struct Unmounted<'b, N: Nor> {
    /// The device and the lent memory.
    pub back: Returned<'b, N>,
    /// Whether everything that was written is on the chip.
    pub last: Result<(), FsErr>,
}

// Reads the magic of every block. No table of counts is kept meanwhile.
fn mount_on<N: Nor>(
    g: Geometry,
    nor: &mut N,
    work: &mut [u8],
    rows: &mut [u8],
    cache: &mut [u8],
) -> Result<(), MountErr>
    requires unit { N.unit nor.old ≡ g.phys }
    requires fits { g.blocks * g.block ≤ N.size nor.old }
    requires work { scratch_need g ≤ length work.old }
    requires cache { cache_need g ≤ length cache.old }
    requires kept { IsKept N.NorState g nor.old cache.old }
    ensures kept { IsKept N.NorState g nor.new cache.new }
    ensures cache_size { length cache.new ≡ length cache.old }
    ensures behind { StaysBehind N.NorState g nor.old nor.new }
    ensures few { FewReads N.NorState g nor.old cache.old nor.new cache.new }
    ensures cause { result ≡ Err MountErr.DeviceFault → Rose (N.faults nor.old) (N.faults nor.new) }
    ensures looks { OnlyReads N.NorState nor.old nor.new }
    ensures told { N.tells nor.old → OnOk result (spoiled_blocks g (N.bytes nor.old) ≤ 1) }
    ensures spoiled { N.tells nor.old → IfErr result (CountsSpoiled g (N.bytes nor.old)) }
{
    let mut v = View {
        geometry: g,
        nor,
        work,
        rows,
        cache,
        wrote: false,
        counted: false,
    };
    vol_mount::mount(&mut v)
}

// Closes every descriptor.
fn close_all(slots: &mut [FdSlot])
    ensures { descriptors slots.new ≡ replicate (min 65535 (length slots.old)) None }
{
    FdTable::new(slots);
}

// Checks the volume, and tells whether the table of counts stands then.
fn check_on<N: Nor>(
    g: Geometry,
    nor: &mut N,
    work: &mut [u8],
    rows: &mut [u8],
    cache: &mut [u8],
    counted: &mut bool,
    marks: &mut [u8],
    own: bool,
) -> Result<Report, CheckErr>
    requires unit { N.unit nor.old ≡ g.phys }
    requires fits { g.blocks * g.block ≤ N.size nor.old }
    requires work { scratch_need g ≤ length work.old }
    requires cache { cache_need g ≤ length cache.old }
    requires room { check_need g ≤ length marks.old }
    requires magics { N.tells nor.old → HasMagics g (N.bytes nor.old) }
    requires owned { N.tells nor.old → OwnIf own g (N.bytes nor.old) }
    requires kept { IsKept N.NorState g nor.old cache.old }
    ensures kept { IsKept N.NorState g nor.new cache.new }
    ensures cache_size { length cache.new ≡ length cache.old }
    ensures behind { StaysBehind N.NorState g nor.old nor.new }
    ensures few { FewReads N.NorState g nor.old cache.old nor.new cache.new }
    ensures checks { ChecksVolume N.NorState g nor.old nor.new result }
    ensures table { counted.new ≡ true → HasTable N.NorState g nor.new rows.new }
    ensures stands { rows_need g ≤ length rows.new → OnOk result (counted.new ≡ true) }
{
    let mut v = View {
        geometry: g,
        nor,
        work,
        rows,
        cache,
        wrote: false,
        counted: false,
    };
    let result = check_view(&mut v, marks, own);
    *counted = v.counted;
    result
}

// Counts the blocks of a volume that needs no check, and tells whether the table of counts stands then.
fn count_on<N: Nor>(
    g: Geometry,
    nor: &mut N,
    work: &mut [u8],
    rows: &mut [u8],
    cache: &mut [u8],
    counted: &mut bool,
) -> Result<(), Failed>
    requires unit { N.unit nor.old ≡ g.phys }
    requires fits { g.blocks * g.block ≤ N.size nor.old }
    requires work { scratch_need g ≤ length work.old }
    requires cache { cache_need g ≤ length cache.old }
    requires clear { N.tells nor.old → TellsFree g (N.bytes nor.old) }
    requires kept { IsKept N.NorState g nor.old cache.old }
    ensures kept { IsKept N.NorState g nor.new cache.new }
    ensures cache_size { length cache.new ≡ length cache.old }
    ensures behind { StaysBehind N.NorState g nor.old nor.new }
    ensures few { FewReads N.NorState g nor.old cache.old nor.new cache.new }
    ensures cause { OnErr result (Rose (N.faults nor.old) (N.faults nor.new)) }
    ensures looks { OnlyReads N.NorState nor.old nor.new }
    ensures table { counted.new ≡ true → HasTable N.NorState g nor.new rows.new }
    ensures stands { rows_need g ≤ length rows.old → OnOk result (counted.new ≡ true) }
{
    let mut v = View {
        geometry: g,
        nor,
        work,
        rows,
        cache,
        wrote: false,
        counted: false,
    };
    let result = count_all(&mut v);
    *counted = v.counted;
    result
}

impl<'b, N: Nor> Volume<'b, N> {
    ghost use Rattle.std.specs.Prelude.{◌≡◌, ◌*◌, ◌≤◌, length, min, replicate, OnOk, OnErr, IfOk, IfErr, IfSome, IsErrOf, IsOk, Ok, Err, None, true, false};
    ghost use Rattle.image_model.specs.Tidy.{IsTidy};
    ghost use Rattle.volume.specs.Resuming.{Resumes};
    ghost use Rattle.geometry.specs.Numbers.{work_need, cache_need, check_need};
    ghost use Rattle.nor_core.specs.Count.{Rose};
    ghost use Rattle.nor_core.specs.Device.{OnlyReads};
    ghost use Rattle.image_model.specs.Kinds.{spoiled_blocks};
    ghost use Rattle.page_cache.specs.Frames.{held};
    ghost use Rattle.page_cache.specs.Kept.{FewReads};
    ghost use Rattle.flash_view.specs.Same.{StaysBehind};
    ghost use Rattle.volume.specs.Holds.{memory};
    ghost use Rattle.volume.specs.Unmounts.{UnmountsTo};
    ghost use Rattle.vol_mount.specs.Mounts.{CountsSpoiled};
    ghost use Rattle.vol_check.specs.Owned.{OwnIf};
    ghost use Rattle.volume.specs.Checking.{ChecksVolume};
    ghost use Rattle.volume.specs.Opening.{is_mounted};
    ghost use Rattle.volume.specs.Stages.{takes_calls, has_failed};
    ghost use Rattle.volume.specs.Same.{IsSameVolume};
    ghost use Rattle.volume.specs.Mapping.{is_attached, GivesUpMap};

    /// The volume of a device that `vol_mount::accept` takes with this lent memory, with every descriptor closed, and no bytes for a map.
    pub fn new(g: Geometry, nor: &'b mut N, lent: Lent<'b>) -> Volume<'b, N>
        requires unit { N.unit nor.old ≡ g.phys }
        requires fits { g.blocks * g.block ≤ N.size nor.old }
        requires work { work_need g ≤ length lent.work.now }
        requires cache { cache_need g ≤ length lent.cache.now }
        requires window { g.page ≤ length lent.window.now }
        ensures geometry { result.geometry ≡ g }
        ensures nor { result.nor.now ≡ nor.old }
        ensures nor_name { result.nor.ghost_name ≡ nor.entry.ghost_name }
        ensures work_name { result.work.ghost_name ≡ lent.entry.work.ghost_name }
        ensures cache_name { result.cache.ghost_name ≡ lent.entry.cache.ghost_name }
        ensures slots_name { result.slots.ghost_name ≡ lent.entry.slots.ghost_name }
        ensures window_name { result.window.ghost_name ≡ lent.entry.window.ghost_name }
        ensures cache_size { length result.cache.now ≡ length lent.entry.cache.now }
        ensures empty { held g result.cache.now ≡ 0 }
        ensures stage { result.stage ≡ Stage.Unmounted }
        ensures closed { memory result ≡ record { slots = replicate (min 65535 (length lent.entry.slots.now)) None; run = None } }
        ensures map { (result.map.used ≡ false) × (is_attached result ≡ false) }
    {
        let Lent {
            work,
            slots,
            cache,
            window,
        } = lent;
        let slots = FdTable::new(slots).give_back();
        let (nor, cache) = Cached::new(g, nor, cache).give_back();
        Volume {
            geometry: g,
            nor,
            work,
            cache,
            slots,
            window,
            held: Held::none(),
            map: IxMap::none(),
            numbers: &mut [],
            stage: Stage::Unmounted,
            counted: false,
        }
    }

    /// Mounts the volume: reads the magic of each block, and writes nothing. Refused are a device that fails, and a
    /// volume of which two or more blocks lack their magic (`NotAFs`). One such block is accepted: a cut while it
    /// was erased left it. There is no map then; the bytes that are lent for one stay lent.
    pub fn mount(&mut self) -> Result<(), MountErr>
        ensures cause { result ≡ Err MountErr.DeviceFault → Rose (N.faults self.old.nor.now) (N.faults self.new.nor.now) }
        ensures looks { OnlyReads N.NorState self.old.nor.now self.new.nor.now }
        ensures told { N.tells self.old.nor.now → OnOk result (spoiled_blocks self.old.geometry (N.bytes self.old.nor.now) ≤ 1) }
        ensures spoiled { N.tells self.old.nor.now → IfErr result (CountsSpoiled self.old.geometry (N.bytes self.old.nor.now)) }
        ensures mounted { OnOk result (is_mounted self.new.stage ≡ true) }
        ensures stage { OnErr result (self.new.stage ≡ self.old.stage) }
        ensures slots { self.new.slots.now ≡ self.old.slots.now }
        ensures empty { OnOk result ((memory self.new).run ≡ None) }
        ensures memory { OnErr result (memory self.new ≡ memory self.old) }
        ensures same { IsSameVolume self.old self.new }
        ensures map { GivesUpMap self.old self.new }
    {
        self.counted = false;
        self.map = IxMap::none();
        mount_on(self.geometry, self.nor, self.work, &mut [], self.cache)?;
        self.held = Held::none();
        self.stage = Stage::Mounted;
        Ok(())
    }

    /// Checks a mounted volume, so that it takes calls, in whatever state a cut or another program left it: a block
    /// without its magic is made fresh, and every entry is killed that no file needs, those of damaged files too. Out of blocks that
    /// hold pages of both kinds, as other programs make them, the index pages are moved. Where fewer than two blocks are free then, blocks
    /// are cleaned until two are, or none that is worth cleaning can be cleaned: after a cut on a volume with two free blocks there are
    /// two. Then every descriptor is closed, and the counts of blocks are kept. Refused is a volume that isn't mounted, or was checked since
    /// (`NotMounted`): it stays as it is. Refused, with nothing written, are a volume that may not be written (`Wrong`) and one with too few
    /// free pages for the index pages of such blocks (`Mixed`). Where the device fails, or a page that is moved reads otherwise than it was
    /// written (`Damaged`), what was done stays, and the check can be called again. There is no map then; the bytes that are lent for one stay
    /// lent. The check works in the bytes that are lent to it, which `vol_mount::accept_check` takes; what they hold at first doesn't matter,
    /// and when it ends they are free.
    pub fn check(&mut self, lent: &mut [u8]) -> Result<Report, CheckErr>
        requires room { check_need self.old.geometry ≤ length lent.old }
        ensures checks { is_mounted self.old.stage ≡ true → ChecksVolume N.NorState self.old.geometry self.old.nor.now self.new.nor.now result }
        ensures unmounted { is_mounted self.old.stage ≡ false → (result ≡ Err CheckErr.NotMounted) × (self.new ≡ self.old) }
        ensures taken { OnOk result (takes_calls self.new ≡ true) }
        ensures stage { OnErr result (self.new.stage ≡ self.old.stage) }
        ensures counted { OnOk result (self.new.counted ≡ true) }
        ensures closed { OnOk result (memory self.new ≡ record { slots = replicate (min 65535 (length self.old.slots.now)) None; run = None }) }
        ensures slots { OnErr result (self.new.slots.now ≡ self.old.slots.now) }
        ensures same { IsSameVolume self.old self.new }
        ensures map { is_mounted self.old.stage ≡ true → GivesUpMap self.old self.new }
    {
        if self.stage != Stage::Mounted {
            return Err(CheckErr::NotMounted);
        }
        self.check_as(lent, false)
    }

    // The check, told whether this engine alone wrote the volume.
    pub(crate) fn check_as(&mut self, lent: &mut [u8], own: bool) -> Result<Report, CheckErr>
        requires mounted { is_mounted self.old.stage ≡ true }
        requires room { check_need self.old.geometry ≤ length lent.old }
        requires owned { N.tells self.old.nor.now → OwnIf own self.old.geometry (N.bytes self.old.nor.now) }
        ensures checks { ChecksVolume N.NorState self.old.geometry self.old.nor.now self.new.nor.now result }
        ensures taken { OnOk result (takes_calls self.new ≡ true) }
        ensures stage { OnErr result (self.new.stage ≡ self.old.stage) }
        ensures counted { OnOk result (self.new.counted ≡ true) }
        ensures closed { OnOk result (memory self.new ≡ record { slots = replicate (min 65535 (length self.old.slots.now)) None; run = None }) }
        ensures slots { OnErr result (self.new.slots.now ≡ self.old.slots.now) }
        ensures same { IsSameVolume self.old self.new }
        ensures map { GivesUpMap self.old self.new }
    {
        self.map = IxMap::none();
        let g = self.geometry;
        let work = &mut *self.work;
        let (work, rows) = work.split_at_mut(g.scratch_need() as usize);
        let report = check_on(
            g,
            self.nor,
            work,
            rows,
            self.cache,
            &mut self.counted,
            lent,
            own,
        )?;
        close_all(self.slots);
        self.held = Held::none();
        self.stage = Stage::Checked;
        Ok(report)
    }

    /// Takes a mounted volume as checked, without a check: for a caller who knows that the image is tidy, as it is after an unmount whose
    /// `last` was Ok, if nothing else has written since. It reads the lookup pages and the headers of pages in use, and writes nothing.
    /// Then the volume stands as after a check: it takes calls, every descriptor is closed, and the counts of blocks are kept. Refused
    /// are a volume that isn't mounted, or was checked since (`NotMounted`), which stays as it is, and one that may not be written
    /// (`Wrong`). Whoever isn't sure checks.
    pub fn resume(&mut self) -> Result<(), CheckErr>
        requires tidy { is_mounted self.old.stage ≡ true → N.tells self.old.nor.now → IsTidy self.old.geometry (N.bytes self.old.nor.now) }
        ensures resumes { is_mounted self.old.stage ≡ true → Resumes N.NorState self.old.geometry self.old.nor.now self.new.nor.now result }
        ensures unmounted { is_mounted self.old.stage ≡ false → (result ≡ Err CheckErr.NotMounted) × (self.new ≡ self.old) }
        ensures taken { OnOk result (takes_calls self.new ≡ true) }
        ensures stage { OnErr result (self.new.stage ≡ self.old.stage) }
        ensures counted { OnOk result (self.new.counted ≡ true) }
        ensures closed { OnOk result (memory self.new ≡ record { slots = replicate (min 65535 (length self.old.slots.now)) None; run = None }) }
        ensures slots { OnErr result (self.new.slots.now ≡ self.old.slots.now) }
        ensures same { IsSameVolume self.old self.new }
        ensures map { is_mounted self.old.stage ≡ true → GivesUpMap self.old self.new }
    {
        if self.stage != Stage::Mounted {
            return Err(CheckErr::NotMounted);
        }
        self.take_up()
    }

    // The same of a mounted volume.
    #[tactic(auto, using(room_laws::proofs::Sorted::tidy_tells_free))]
    fn take_up(&mut self) -> Result<(), CheckErr>
        requires mounted { is_mounted self.old.stage ≡ true }
        requires tidy { N.tells self.old.nor.now → IsTidy self.old.geometry (N.bytes self.old.nor.now) }
        ensures resumes { Resumes N.NorState self.old.geometry self.old.nor.now self.new.nor.now result }
        ensures taken { OnOk result (takes_calls self.new ≡ true) }
        ensures stage { OnErr result (self.new.stage ≡ self.old.stage) }
        ensures counted { OnOk result (self.new.counted ≡ true) }
        ensures closed { OnOk result (memory self.new ≡ record { slots = replicate (min 65535 (length self.old.slots.now)) None; run = None }) }
        ensures slots { OnErr result (self.new.slots.now ≡ self.old.slots.now) }
        ensures same { IsSameVolume self.old self.new }
        ensures map { GivesUpMap self.old self.new }
    {
        self.map = IxMap::none();
        if let Err(why) = self.geometry.writable() {
            return Err(CheckErr::Wrong(why));
        }
        let g = self.geometry;
        let work = &mut *self.work;
        let (work, rows) = work.split_at_mut(g.scratch_need() as usize);
        count_on(g, self.nor, work, rows, self.cache, &mut self.counted)?;
        close_all(self.slots);
        self.held = Held::none();
        self.stage = Stage::Checked;
        Ok(())
    }

    /// Whether a call failed after it had asked the device for a program or an erase. Then mount and check
    /// again.
    pub fn has_failed(&self) -> bool
        ensures { result ≡ has_failed self.now }
    {
        self.stage == Stage::Failed
    }

    /// Puts the written bytes that wait onto the chip, and gives back what was lent. `last` tells whether all is on the chip: where a call
    /// has failed before it is `Failed`, and where this fails why.
    pub fn unmount(mut self) -> Unmounted<'b, N>
        ensures unmounts { UnmountsTo self.entry result.back.nor.now result.last }
        ensures behind { StaysBehind N.NorState self.entry.geometry self.entry.nor.now result.back.nor.now }
        ensures few { FewReads N.NorState self.entry.geometry self.entry.nor.now self.entry.cache.now result.back.nor.now result.back.lent.cache.now }
        ensures nor_name { result.back.nor.ghost_name ≡ self.entry.nor.ghost_name }
        ensures work_name { result.back.lent.work.ghost_name ≡ self.entry.work.ghost_name }
        ensures cache_name { result.back.lent.cache.ghost_name ≡ self.entry.cache.ghost_name }
        ensures slots_name { result.back.lent.slots.ghost_name ≡ self.entry.slots.ghost_name }
        ensures window_name { result.back.lent.window.ghost_name ≡ self.entry.window.ghost_name }
    {
        let last = match self.stage {
            Stage::Failed => Err(FsErr::Failed),
            Stage::Checked => self.settle(),
            Stage::Unmounted | Stage::Mounted => Ok(()),
        };
        let Volume {
            geometry: _,
            nor,
            work,
            cache,
            slots,
            window,
            held: _,
            map: _,
            numbers: _,
            stage: _,
            counted: _,
        } = self;
        let lent = Lent {
            work,
            slots,
            cache,
            window,
        };
        Unmounted {
            back: Returned { nor, lent },
            last,
        }
    }
}

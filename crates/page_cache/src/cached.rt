ghost use Rattle.std.specs.Prelude.{◌≡◌, ℕ, ◌+◌, ◌*◌, ◌/◌, ◌<◌, ◌≤◌, ◌∷◌, length, OnOk, OnErr};
ghost use Rattle.geometry.specs.Numbers.{page_count, cache_need};
ghost use Rattle.nor_core.specs.Count.{Rose};
ghost use Rattle.page_cache.specs.Kept.{IsKept};

use crate::frames::{clear, find};
use crate::through::{erase_through, held_page, hold_page, program_through, read_through};
use geometry::Geometry;
use nor_core::{Board, Failed, Mark, Nor, NorState};

/// A device that keeps copies of pages of a volume in lent bytes: a page that is held is read without a read of the
/// device. A frame of `page + 8` bytes holds one page. Programs and erases go to the device, and keep the copies right.
///
/// A page goes into the frame of its own number, modulo the number of frames, if that is free, else into any free frame,
/// else into that of its own number. So a page that is held goes only where another is loaded while no frame is free, or
/// where a program or an erase over it failed.
#[derive(Drop)]
pub struct Cached<'b, N: Nor> {
    /// The numbers of the volume, which is the first bytes of the device.
    pub geometry: Geometry,
    /// The device.
    pub nor: &'b mut N,
    /// The bytes of the frames. Those behind the last whole frame are not used.
    pub frames: &'b mut [u8],
    pub ghost volume: { geometry.blocks * geometry.block ≤ N.size nor.now },
    pub ghost need: { cache_need geometry ≤ length frames.now },
    pub ghost kept: { IsKept N.NorState geometry nor.now frames.now },
}

impl<'b, N: Nor> Cached<'b, N> {
    ghost use Rattle.std.specs.Prelude.{◌≡◌, ℕ, ◌+◌, ◌*◌, ◌/◌, ◌<◌, ◌≤◌, length, slice_range, OnOk, OnErr, IsOk, true};
    ghost use Rattle.std.specs.Option.{ForSome};
    ghost use Rattle.geometry.specs.Numbers.{page_count, cache_need};
    ghost use Rattle.nor_core.specs.Count.{Rose};
    ghost use Rattle.nor_core.specs.Flash.{programmed, HalfProgrammed, erased, HalfErased};
    ghost use Rattle.nor_core.specs.Device.{OnlyReads, Changes, InErase, Writes};
    ghost use Rattle.page_cache.specs.Frames.{holds as the_holds, held, KeepsHeld, KeepsOutside, InOnePage};
    ghost use Rattle.page_cache.specs.Kept.{IsKept, FewReads, Stays};
    ghost use Rattle.page_cache.specs.Same.{IsSameCached};

    /// A cached device that holds no page. `frames` is at least one frame.
    pub fn new(geometry: Geometry, nor: &'b mut N, frames: &'b mut [u8]) -> Cached<'b, N>
        requires volume { geometry.blocks * geometry.block ≤ N.size nor.old }
        requires need { cache_need geometry ≤ length frames.old }
        ensures geometry { result.geometry ≡ geometry }
        ensures nor { result.nor.now ≡ nor.old }
        ensures nor_name { result.nor.ghost_name ≡ nor.entry.ghost_name }
        ensures frames_name { result.frames.ghost_name ≡ frames.entry.ghost_name }
        ensures frames_size { length result.frames.now ≡ length frames.old }
        ensures empty { held geometry result.frames.now ≡ 0 }
    {
        clear(&geometry, frames);
        Cached {
            geometry,
            nor,
            frames,
        }
    }

    /// A cached device over frames whose copies are right, such as those that another one gave back over the same
    /// device: what they hold is held.
    pub fn resume(geometry: Geometry, nor: &'b mut N, frames: &'b mut [u8]) -> Cached<'b, N>
        requires volume { geometry.blocks * geometry.block ≤ N.size nor.old }
        requires need { cache_need geometry ≤ length frames.old }
        requires kept { IsKept N.NorState geometry nor.old frames.old }
        ensures geometry { result.geometry ≡ geometry }
        ensures nor { result.nor.now ≡ nor.old }
        ensures nor_name { result.nor.ghost_name ≡ nor.entry.ghost_name }
        ensures frames { result.frames.now ≡ frames.old }
        ensures frames_name { result.frames.ghost_name ≡ frames.entry.ghost_name }
    {
        Cached {
            geometry,
            nor,
            frames,
        }
    }

    /// Whether a page of the volume is held.
    pub fn holds(&self, page: u16) -> bool
        requires { page < page_count self.now.geometry }
        ensures { result ≡ the_holds self.now.geometry self.now.frames.now page }
    {
        find(&self.geometry, self.frames, page).is_some()
    }

    /// Gets a page of the volume held, for `loaded`.
    pub fn load(&mut self, page: u16) -> Result<(), Failed>
        requires { page < page_count self.old.geometry }
        ensures holds { OnOk result (the_holds self.new.geometry self.new.frames.now page ≡ true) }
        ensures hit { the_holds self.old.geometry self.old.frames.now page ≡ true →
            IsOk result × (self.new.nor.now ≡ self.old.nor.now) × (self.new.frames.now ≡ self.old.frames.now) }
        ensures once { N.device_reads self.new.nor.now ≤ N.device_reads self.old.nor.now + 1 }
        ensures cause { OnErr result (Rose (N.faults self.old.nor.now) (N.faults self.new.nor.now)) }
        ensures only_reads { OnlyReads N.NorState self.old.nor.now self.new.nor.now }
        ensures stays { Stays self.old.geometry self.old.frames.now self.new.frames.now }
        ensures few { FewReads N.NorState self.old.geometry self.old.nor.now self.old.frames.now self.new.nor.now self.new.frames.now }
        ensures kept { IsKept N.NorState self.new.geometry self.new.nor.now self.new.frames.now }
        ensures same { IsSameCached self.old self.new }
    {
        let g = self.geometry;
        hold_page(&g, self.nor, self.frames, page)
    }

    /// The bytes of a page that is held.
    pub fn loaded(&self, page: u16) -> &[u8]
        requires page { page < page_count self.now.geometry }
        requires holds { the_holds self.now.geometry self.now.frames.now page ≡ true }
        ensures size { length result.now ≡ self.now.geometry.page }
        ensures bytes { N.tells self.now.nor.now →
            result.now ≡ slice_range (N.bytes self.now.nor.now) (page * self.now.geometry.page) (page * self.now.geometry.page + self.now.geometry.page) }
    {
        held_page(&self.geometry, self.nor, self.frames, page)
    }

    /// The device and the bytes of the frames.
    pub fn give_back(self) -> (&'b mut N, &'b mut [u8])
        ensures nor { result.0.now ≡ self.entry.nor.now }
        ensures nor_name { result.0.ghost_name ≡ self.entry.nor.ghost_name }
        ensures frames { result.1.now ≡ self.entry.frames.now }
        ensures frames_name { result.1.ghost_name ≡ self.entry.frames.ghost_name }
        ensures kept { IsKept N.NorState self.entry.geometry result.0.now result.1.now }
    {
        let Cached {
            geometry: _,
            nor,
            frames,
        } = self;
        (nor, frames)
    }

    /// Reads as `Nor::read` does, with what that leaves of device and copies. Bytes that lie in one page of the volume
    /// come from its copy, and the page is held afterwards.
    pub fn read_through(&mut self, at: u32, into: &mut [u8]) -> Result<(), Failed>
        requires some { 0 < length into.old }
        requires inside { at + length into.old ≤ N.size self.old.nor.now }
        ensures read { N.tells self.old.nor.now → OnOk result (into.new ≡ slice_range (N.bytes self.old.nor.now) at (at + length into.old)) }
        ensures counted { N.device_reads self.new.nor.now ≤ N.device_reads self.old.nor.now + 1 }
        ensures cause { OnErr result (Rose (N.faults self.old.nor.now) (N.faults self.new.nor.now)) }
        ensures only_reads { OnlyReads N.NorState self.old.nor.now self.new.nor.now }
        ensures hit { InOnePage self.old.geometry at (length into.old) → the_holds self.old.geometry self.old.frames.now (at / self.old.geometry.page) ≡ true →
            IsOk result × (self.new.nor.now ≡ self.old.nor.now) × (self.new.frames.now ≡ self.old.frames.now) }
        ensures held { InOnePage self.old.geometry at (length into.old) →
            OnOk result (the_holds self.new.geometry self.new.frames.now (at / self.old.geometry.page) ≡ true) }
        ensures stays { Stays self.old.geometry self.old.frames.now self.new.frames.now }
        ensures few { InOnePage self.old.geometry at (length into.old) →
            FewReads N.NorState self.old.geometry self.old.nor.now self.old.frames.now self.new.nor.now self.new.frames.now }
        ensures kept { IsKept N.NorState self.new.geometry self.new.nor.now self.new.frames.now }
        ensures same { IsSameCached self.old self.new }
    {
        let g = self.geometry;
        read_through(&g, self.nor, self.frames, at, into)
    }

    /// Programs as `Nor::program` does, with what that leaves of device and copies. No page is read. Where it failed, the
    /// pages that hold bytes of its range are given up, and no others.
    pub fn program_through(&mut self, at: u32, from: &[u8]) -> Result<(), Failed>
        requires some { 0 < length from.now }
        requires inside { at + length from.now ≤ N.size self.old.nor.now }
        ensures done { N.tells self.old.nor.now → OnOk result (N.bytes self.new.nor.now ≡ programmed (N.bytes self.old.nor.now) at from.now) }
        ensures changes { Changes N.NorState self.old.nor.now self.new.nor.now (HalfProgrammed at from.now) }
        ensures cause { OnErr result (Rose (N.faults self.old.nor.now) (N.faults self.new.nor.now)) }
        ensures writes { Writes N.NorState self.old.nor.now self.new.nor.now }
        ensures stays { OnOk result (KeepsHeld self.old.geometry self.old.frames.now self.new.frames.now) }
        ensures outside { OnErr result (KeepsOutside self.old.geometry at (length from.now) self.old.frames.now self.new.frames.now) }
        ensures few { FewReads N.NorState self.old.geometry self.old.nor.now self.old.frames.now self.new.nor.now self.new.frames.now }
        ensures kept { IsKept N.NorState self.new.geometry self.new.nor.now self.new.frames.now }
        ensures same { IsSameCached self.old self.new }
    {
        let g = self.geometry;
        program_through(&g, self.nor, self.frames, at, from)
    }

    /// Erases as `Nor::erase` does, with what that leaves of device and copies. No page is read. Where it failed, the
    /// pages that hold bytes of its unit are given up, and no others.
    pub fn erase_through(&mut self, unit_ix: u32, mark: Option<Mark>) -> Result<(), Failed>
        requires inside { unit_ix < N.size self.old.nor.now / N.unit self.old.nor.now }
        requires marked { ForSome mark (λ m. m.at + 2 ≤ N.unit self.old.nor.now) }
        ensures done { N.tells self.old.nor.now →
            OnOk result (N.bytes self.new.nor.now ≡ erased (N.bytes self.old.nor.now) (unit_ix * N.unit self.old.nor.now) (N.unit self.old.nor.now)) }
        ensures half { N.tells self.old.nor.now →
            OnErr result (HalfErased (unit_ix * N.unit self.old.nor.now) (N.unit self.old.nor.now) mark (N.bytes self.old.nor.now) (N.bytes self.new.nor.now)) }
        ensures cause { OnErr result (Rose (N.faults self.old.nor.now) (N.faults self.new.nor.now)) }
        ensures writes { Writes N.NorState self.old.nor.now self.new.nor.now }
        ensures changes { Changes N.NorState self.old.nor.now self.new.nor.now (InErase N.NorState self.old.nor.now self.new.nor.now unit_ix mark) }
        ensures stays { OnOk result (KeepsHeld self.old.geometry self.old.frames.now self.new.frames.now) }
        ensures outside { OnErr result
            (KeepsOutside self.old.geometry (unit_ix * N.unit self.old.nor.now) (N.unit self.old.nor.now) self.old.frames.now self.new.frames.now) }
        ensures few { FewReads N.NorState self.old.geometry self.old.nor.now self.old.frames.now self.new.nor.now self.new.frames.now }
        ensures kept { IsKept N.NorState self.new.geometry self.new.nor.now self.new.frames.now }
        ensures same { IsSameCached self.old self.new }
    {
        let g = self.geometry;
        erase_through(&g, self.nor, self.frames, unit_ix, mark)
    }
}

impl<'b, B: Board> Cached<'b, B> {
    ghost use Rattle.std.specs.Prelude.{◌≡◌, ◌++◌, OnOk, OnErr};
    ghost use Rattle.nor_core.specs.Count.{Rose};
    ghost use Rattle.nor_core.specs.Device.{Leaves, Says, InSay};
    ghost use Rattle.page_cache.specs.Kept.{IsKept, FewReads};
    ghost use Rattle.page_cache.specs.Same.{IsSameCached};

    /// The device says a piece. The copies stay.
    pub fn say(&mut self, piece: &[u8]) -> Result<(), Failed>
        ensures done { B.tells self.old.nor.now → OnOk result (B.said self.new.nor.now ≡ B.said self.old.nor.now ++ piece.now) }
        ensures says { Says B.NorState self.old.nor.now self.new.nor.now piece.now }
        ensures cause { OnErr result (Rose (B.faults self.old.nor.now) (B.faults self.new.nor.now)) }
        ensures cuts { Leaves B.NorState self.old.nor.now self.new.nor.now (InSay B.NorState self.old.nor.now piece.now) }
        ensures frames { self.new.frames.now ≡ self.old.frames.now }
        ensures few { FewReads B.NorState self.old.geometry self.old.nor.now self.old.frames.now self.new.nor.now self.new.frames.now }
        ensures kept { IsKept B.NorState self.new.geometry self.new.nor.now self.new.frames.now }
        ensures same { IsSameCached self.old self.new }
    {
        self.nor.say(piece)
    }
}

impl<'b, N: Nor> NorState for Cached<'b, N> {
    ghost tells = { λ c. N.tells c.nor.now };

    ghost bytes = { λ c. N.bytes c.nor.now };

    ghost size = { λ c. N.size c.nor.now };

    ghost unit = { λ c. N.unit c.nor.now };

    ghost said = { λ c. N.said c.nor.now };

    ghost faults = { λ c. N.faults c.nor.now };

    ghost lent = { λ c. c.nor.ghost_name ∷ c.frames.ghost_name ∷ N.lent c.nor.now };

    ghost moment = { λ c. N.moment c.nor.now };

    ghost device_reads = { λ c. N.device_reads c.nor.now };

    ghost device_writes = { λ c. N.device_writes c.nor.now };

    ghost left_since = { λ c. N.left_since c.nor.now };
}

impl<'b, N: Nor> Nor for Cached<'b, N> {
    fn size(&self) -> u32 {
        self.nor.size()
    }

    fn unit(&self) -> u32 {
        self.nor.unit()
    }

    fn read(&mut self, at: u32, into: &mut [u8]) -> Result<(), Failed> {
        self.read_through(at, into)
    }

    fn program(&mut self, at: u32, from: &[u8]) -> Result<(), Failed> {
        self.program_through(at, from)
    }

    fn erase(&mut self, unit_ix: u32, mark: Option<Mark>) -> Result<(), Failed> {
        self.erase_through(unit_ix, mark)
    }

    ghost sized = { λ d tells. N.sized d.nor.now tells };

    ghost small = { λ d. N.small d.nor.now };

    ghost only_now = { λ d image count left. record {
      all_bytes = (N.only_now d.nor.now image count left).all_bytes;
      all_said = (N.only_now d.nor.now image count left).all_said;
    } };

    ghost counts_now = { λ d t le tells. N.counts_now d.nor.now t le tells };
}

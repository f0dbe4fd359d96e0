ghost use Rattle.std.specs.Prelude.{◌≡◌, ◌*◌, ◌≤◌, ◌++◌, length, OnOk, OnErr, true};
ghost use Rattle.geometry.specs.Numbers.{scratch_need, cache_need};
ghost use Rattle.nor_core.specs.Count.{Rose};
ghost use Rattle.nor_core.specs.Device.{Leaves, Says, InSay};
ghost use Rattle.page_cache.specs.Kept.{IsKept, FewReads};
ghost use Rattle.flash_view.specs.Same.{StaysBehind};
ghost use Rattle.flash_view.specs.Table.{HasTable};
ghost use Rattle.volume.specs.Stages.{takes_calls};
ghost use Rattle.volume.specs.Holds.{memory};
ghost use Rattle.volume.specs.Same.{IsSameVolume};

use crate::Volume;
use flash_view::View;
use geometry::Geometry;
use nor_core::{Board, Failed, NorState};

// The device says a piece.
fn say_on<B: Board>(
    g: Geometry,
    nor: &mut B,
    work: &mut [u8],
    rows: &mut [u8],
    cache: &mut [u8],
    counted: &mut bool,
    piece: &[u8],
) -> Result<(), Failed>
    requires unit { B.unit nor.old ≡ g.phys }
    requires fits { g.blocks * g.block ≤ B.size nor.old }
    requires work { scratch_need g ≤ length work.old }
    requires cache { cache_need g ≤ length cache.old }
    requires kept { IsKept B.NorState g nor.old cache.old }
    requires table { counted.old ≡ true → HasTable B.NorState g nor.old rows.old }
    ensures kept { IsKept B.NorState g nor.new cache.new }
    ensures cache_size { length cache.new ≡ length cache.old }
    ensures behind { StaysBehind B.NorState g nor.old nor.new }
    ensures few { FewReads B.NorState g nor.old cache.old nor.new cache.new }
    ensures cause { OnErr result (Rose (B.faults nor.old) (B.faults nor.new)) }
    ensures faults { B.faults nor.old ≤ B.faults nor.new }
    ensures says { Says B.NorState nor.old nor.new piece.now }
    ensures done { B.tells nor.old → OnOk result (B.said nor.new ≡ B.said nor.old ++ piece.now) }
    ensures cuts { Leaves B.NorState nor.old nor.new (InSay B.NorState nor.old piece.now) }
    ensures table { counted.new ≡ true → HasTable B.NorState g nor.new rows.new }
{
    let mut v = View {
        geometry: g,
        nor,
        work,
        rows,
        cache,
        wrote: false,
        counted: *counted,
    };
    let result = v.say(piece);
    *counted = v.counted;
    result
}

impl<'b, B: Board> Volume<'b, B> {
    /// The device says a piece; nothing else changes.
    pub fn say(&mut self, piece: &[u8]) -> Result<(), Failed>
        ensures cause { OnErr result (Rose (B.faults self.old.nor.now) (B.faults self.new.nor.now)) }
        ensures says { Says B.NorState self.old.nor.now self.new.nor.now piece.now }
        ensures done { B.tells self.old.nor.now → OnOk result (B.said self.new.nor.now ≡ B.said self.old.nor.now ++ piece.now) }
        ensures cuts { Leaves B.NorState self.old.nor.now self.new.nor.now (InSay B.NorState self.old.nor.now piece.now) }
        ensures stays { takes_calls self.new ≡ takes_calls self.old }
        ensures stage { self.new.stage ≡ self.old.stage }
        ensures slots { self.new.slots.now ≡ self.old.slots.now }
        ensures memory { memory self.new ≡ memory self.old }
        ensures same { IsSameVolume self.old self.new }
        ensures map { (self.new.map ≡ self.old.map) × (self.new.numbers.now ≡ self.old.numbers.now) }
    {
        let g = self.geometry;
        let work = &mut *self.work;
        let (work, rows) = work.split_at_mut(g.scratch_need() as usize);
        say_on(
            g,
            self.nor,
            work,
            rows,
            self.cache,
            &mut self.counted,
            piece,
        )
    }
}

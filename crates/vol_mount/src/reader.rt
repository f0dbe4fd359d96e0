ghost use Rattle.std.specs.Prelude.{◌≡◌, ◌*◌, ◌≤◌, length, true};
ghost use Rattle.geometry.specs.Numbers.{work_need, cache_need, check_need};
ghost use Rattle.page_cache.specs.Kept.{IsKept};
ghost use Rattle.file_find.specs.Marks.{IsMarked};

use crate::calls::{damaged_on, mount_on, next_on, read_on, survey_on};
use crate::{MountErr, ReaderLent, ReaderReturned};
use geometry::Geometry;
use image_model::Damage;
use nor_core::{Board, Failed, Nor, NorState};
use page_cache::Cached;
use table_model::{FsErr, Stat};

/// A volume that is read and never written, in lent memory: its image may be any that mounts, damaged ones too. The
/// first call that asks for files surveys the volume, and later ones go by what it found. No call takes memory.
#[derive(Drop)]
pub struct Reader<'b, N: Nor> {
    /// The numbers of the volume.
    pub geometry: Geometry,
    /// The device. The volume is its first bytes.
    pub nor: &'b mut N,
    /// Bytes for work: a page that was read.
    pub work: &'b mut [u8],
    /// Bytes for copies of pages.
    pub cache: &'b mut [u8],
    /// What the survey found.
    pub check: &'b mut [u8],
    /// Whether the volume was surveyed.
    pub known: bool,
    pub ghost unit: { N.unit nor.now ≡ geometry.phys },
    pub ghost fits: { geometry.blocks * geometry.block ≤ N.size nor.now },
    pub ghost work_fits: { work_need geometry ≤ length work.now },
    pub ghost cache_fits: { cache_need geometry ≤ length cache.now },
    pub ghost check_fits: { check_need geometry ≤ length check.now },
    pub ghost kept: { IsKept N.NorState geometry nor.now cache.now },
    pub ghost marked: { known ≡ true → N.tells nor.now → IsMarked geometry (N.bytes nor.now) check.now },
}

impl<'b, N: Nor> Reader<'b, N> {
    ghost use Rattle.std.specs.Prelude.{◌≡◌, ◌+◌, ◌*◌, ◌^◌, ◌<◌, ◌≤◌, length, OnOk, OnErr, IsErrOf, IfOk, IfErr, IfSome, Err, true, false};
    ghost use Rattle.std.specs.Option.{option_map};
    ghost use Rattle.geometry.specs.Numbers.{work_need, cache_need, check_need};
    ghost use Rattle.nor_core.specs.Count.{Rose};
    ghost use Rattle.nor_core.specs.Device.{OnlyReads};
    ghost use Rattle.table_model.specs.Table.{file_above};
    ghost use Rattle.table_model.specs.Files.{stat_of};
    ghost use Rattle.image_model.specs.Kinds.{spoiled_blocks};
    ghost use Rattle.image_model.specs.Tables.{table_of};
    ghost use Rattle.page_cache.specs.Frames.{held};
    ghost use Rattle.file_find.specs.Listing.{damaged_above};
    ghost use Rattle.vol_mount.specs.Mounts.{CountsSpoiled};
    ghost use Rattle.vol_mount.specs.Reads.{ReadAnswers, IsReadErr};
    ghost use Rattle.vol_mount.specs.Readers.{IsSameReader};

    /// A reader of a device that `accept_reader` takes with this lent memory.
    pub fn new(g: Geometry, nor: &'b mut N, lent: ReaderLent<'b>) -> Reader<'b, N>
        requires unit { N.unit nor.old ≡ g.phys }
        requires fits { g.blocks * g.block ≤ N.size nor.old }
        requires work { work_need g ≤ length lent.work.now }
        requires cache { cache_need g ≤ length lent.cache.now }
        requires check { check_need g ≤ length lent.check.now }
        ensures geometry { result.geometry ≡ g }
        ensures nor { result.nor.now ≡ nor.old }
        ensures nor_name { result.nor.ghost_name ≡ nor.entry.ghost_name }
        ensures work_name { result.work.ghost_name ≡ lent.entry.work.ghost_name }
        ensures cache_name { result.cache.ghost_name ≡ lent.entry.cache.ghost_name }
        ensures check_name { result.check.ghost_name ≡ lent.entry.check.ghost_name }
        ensures cache_size { length result.cache.now ≡ length lent.entry.cache.now }
        ensures empty { held g result.cache.now ≡ 0 }
    {
        let ReaderLent { work, cache, check } = lent;
        let (nor, cache) = Cached::new(g, nor, cache).give_back();
        Reader {
            geometry: g,
            nor,
            work,
            cache,
            check,
            known: false,
        }
    }

    /// Mounts the volume: reads the magic of each block. Refused are a device that fails, and a volume of which two or
    /// more blocks lack their magic (`NotAFs`).
    pub fn mount(&mut self) -> Result<(), MountErr>
        ensures cause { result ≡ Err MountErr.DeviceFault → Rose (N.faults self.old.nor.now) (N.faults self.new.nor.now) }
        ensures looks { OnlyReads N.NorState self.old.nor.now self.new.nor.now }
        ensures told { N.tells self.old.nor.now → OnOk result (spoiled_blocks self.old.geometry (N.bytes self.old.nor.now) ≤ 1) }
        ensures spoiled { N.tells self.old.nor.now → IfErr result (CountsSpoiled self.old.geometry (N.bytes self.old.nor.now)) }
        ensures same { IsSameReader self.old self.new }
    {
        mount_on(self.geometry, self.nor, self.work, &mut [], self.cache)
    }

    // Surveys the volume, where that isn't done.
    fn survey(&mut self) -> Result<(), Failed>
        ensures cause { OnErr result (Rose (N.faults self.old.nor.now) (N.faults self.new.nor.now)) }
        ensures looks { OnlyReads N.NorState self.old.nor.now self.new.nor.now }
        ensures known { OnOk result (self.new.known ≡ true) }
        ensures same { IsSameReader self.old self.new }
    {
        if self.known {
            return Ok(());
        }
        survey_on(
            self.geometry,
            self.nor,
            self.work,
            &mut [],
            self.cache,
            self.check,
        )?;
        self.known = true;
        Ok(())
    }

    /// The record of the table's file of the least id above `after`, or none. The one error is a fault.
    pub fn next(&mut self, after: u16) -> Result<Option<Stat>, FsErr>
        ensures cause { OnErr result (Rose (N.faults self.old.nor.now) (N.faults self.new.nor.now)) }
        ensures only { IfErr result (λ why. why ≡ FsErr.DeviceFault) }
        ensures above { IfOk result (λ found. IfSome found (λ stat. after < stat.id)) }
        ensures looks { OnlyReads N.NorState self.old.nor.now self.new.nor.now }
        ensures told { N.tells self.old.nor.now →
            IfOk result (λ found. found ≡ option_map stat_of (file_above after (table_of self.old.geometry (N.bytes self.old.nor.now)))) }
        ensures known { OnOk result (self.new.known ≡ true) }
        ensures same { IsSameReader self.old self.new }
    {
        self.survey()?;
        let marks = &mut *self.check;
        Ok(next_on(
            self.geometry,
            self.nor,
            self.work,
            &mut [],
            self.cache,
            marks,
            after,
        )?)
    }

    /// The damaged file of the least id above `after`, with the first cause of its damage, or none: each id that has a
    /// header page and no file in the table is one. The one error is a fault.
    pub fn next_damaged(&mut self, after: u16) -> Result<Option<(u16, Damage)>, FsErr>
        ensures cause { OnErr result (Rose (N.faults self.old.nor.now) (N.faults self.new.nor.now)) }
        ensures only { IfErr result (λ why. why ≡ FsErr.DeviceFault) }
        ensures above { IfOk result (λ found. IfSome found (λ damaged. after < damaged.0)) }
        ensures looks { OnlyReads N.NorState self.old.nor.now self.new.nor.now }
        ensures told { N.tells self.old.nor.now → IfOk result (λ found. found ≡ damaged_above self.old.geometry (N.bytes self.old.nor.now) after) }
        ensures known { OnOk result (self.new.known ≡ true) }
        ensures same { IsSameReader self.old self.new }
    {
        self.survey()?;
        let marks = &mut *self.check;
        Ok(damaged_on(
            self.geometry,
            self.nor,
            self.work,
            &mut [],
            self.cache,
            marks,
            after,
        )?)
    }

    /// The bytes of the table's file of an id, from byte `at` on, as many as there are and fit; the answer is how many,
    /// never more than fit. Refused is `NotFound`. A page that was there in the survey and isn't any more (`Damaged`) is told only by a device
    /// whose bytes change by themselves.
    pub fn read_at(&mut self, id: u16, at: u32, into: &mut [u8]) -> Result<u32, FsErr>
        ensures cause { IsErrOf result FsErr.DeviceFault → Rose (N.faults self.old.nor.now) (N.faults self.new.nor.now) }
        ensures only { IfErr result (IsReadErr id) }
        ensures within { IfOk result (λ n. (n ≤ length into.old) × (at + n < 2 ^ 32)) }
        ensures looks { OnlyReads N.NorState self.old.nor.now self.new.nor.now }
        ensures told { N.tells self.old.nor.now → ReadAnswers self.old.geometry (N.bytes self.old.nor.now) id at into.old into.new result }
        ensures known { OnOk result (self.new.known ≡ true) }
        ensures same { IsSameReader self.old self.new }
    {
        self.survey()?;
        let marks = &mut *self.check;
        read_on(
            self.geometry,
            self.nor,
            self.work,
            &mut [],
            self.cache,
            marks,
            id,
            at,
            into,
        )
    }

    /// Gives back what was lent.
    pub fn give_back(self) -> ReaderReturned<'b, N>
        ensures nor { result.nor.now ≡ self.entry.nor.now }
        ensures nor_name { result.nor.ghost_name ≡ self.entry.nor.ghost_name }
        ensures work_name { result.lent.work.ghost_name ≡ self.entry.work.ghost_name }
        ensures cache_name { result.lent.cache.ghost_name ≡ self.entry.cache.ghost_name }
        ensures check_name { result.lent.check.ghost_name ≡ self.entry.check.ghost_name }
    {
        let Reader {
            geometry: _,
            nor,
            work,
            cache,
            check,
            known: _,
        } = self;
        ReaderReturned {
            nor,
            lent: ReaderLent { work, cache, check },
        }
    }
}

impl<'b, B: Board> Reader<'b, B> {
    ghost use Rattle.std.specs.Prelude.{◌≡◌, ◌++◌, OnOk, OnErr};
    ghost use Rattle.nor_core.specs.Count.{Rose};
    ghost use Rattle.nor_core.specs.Device.{Leaves, Says, InSay};
    ghost use Rattle.vol_mount.specs.Readers.{IsSameReader};

    /// The device says a piece; nothing else changes.
    pub fn say(&mut self, piece: &[u8]) -> Result<(), Failed>
        ensures cause { OnErr result (Rose (B.faults self.old.nor.now) (B.faults self.new.nor.now)) }
        ensures says { Says B.NorState self.old.nor.now self.new.nor.now piece.now }
        ensures done { B.tells self.old.nor.now → OnOk result (B.said self.new.nor.now ≡ B.said self.old.nor.now ++ piece.now) }
        ensures cuts { Leaves B.NorState self.old.nor.now self.new.nor.now (InSay B.NorState self.old.nor.now piece.now) }
        ensures same { IsSameReader self.old self.new }
    {
        self.nor.say(piece)
    }
}

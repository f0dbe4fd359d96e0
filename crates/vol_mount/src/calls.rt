//! Calls over a view of a reader's device, with the copies of its pages that are there.
ghost use Rattle.std.specs.Prelude.{◌≡◌, ◌^◌, ◌+◌, ◌*◌, ◌<◌, ◌≤◌, length, OnOk, OnErr, IfOk, IfErr, IfSome, IsErrOf, Err};
ghost use Rattle.std.specs.Option.{option_map};
ghost use Rattle.geometry.specs.Numbers.{scratch_need, cache_need, check_need};
ghost use Rattle.nor_core.specs.Count.{Rose};
ghost use Rattle.nor_core.specs.Device.{OnlyReads};
ghost use Rattle.table_model.specs.Table.{file_above};
ghost use Rattle.table_model.specs.Files.{stat_of};
ghost use Rattle.image_model.specs.Kinds.{spoiled_blocks};
ghost use Rattle.image_model.specs.Tables.{table_of};
ghost use Rattle.page_cache.specs.Kept.{IsKept, FewReads};
ghost use Rattle.file_find.specs.Marks.{IsMarked};
ghost use Rattle.file_find.specs.Listing.{damaged_above};
ghost use Rattle.vol_mount.specs.Mounts.{CountsSpoiled};
ghost use Rattle.vol_mount.specs.Reads.{ReadAnswers, IsReadErr};

use crate::reading::{next_record, read_file};
use crate::{MountErr, mount};
use file_find::{next_damaged, survey};
use flash_view::View;
use geometry::Geometry;
use image_model::Damage;
use nor_core::{Failed, Nor, NorState};
use table_model::{FsErr, Stat};

/// Reads the magic of every block.
pub(crate) fn mount_on<N: Nor>(
    g: Geometry,
    nor: &mut N,
    work: &mut [u8],
    rows: &mut [u8],
    cache: &mut [u8],
) -> Result<(), MountErr>
    requires unit { N.unit nor.old ≡ g.phys }
    requires fits { g.blocks * g.block ≤ N.size nor.old }
    requires work { scratch_need g ≤ length work.old }
    requires cache { cache_need g ≤ length cache.old }
    requires kept { IsKept N.NorState g nor.old cache.old }
    ensures cause { result ≡ Err MountErr.DeviceFault → Rose (N.faults nor.old) (N.faults nor.new) }
    ensures looks { OnlyReads N.NorState nor.old nor.new }
    ensures kept { IsKept N.NorState g nor.new cache.new }
    ensures few { FewReads N.NorState g nor.old cache.old nor.new cache.new }
    ensures told { N.tells nor.old → OnOk result (spoiled_blocks g (N.bytes nor.old) ≤ 1) }
    ensures spoiled { N.tells nor.old → IfErr result (CountsSpoiled g (N.bytes nor.old)) }
{
    let mut v = View {
        geometry: g,
        nor,
        work,
        rows,
        cache,
        wrote: false,
        counted: false,
    };
    mount(&mut v)
}

/// Marks the header pages of whole and of damaged files.
pub(crate) fn survey_on<N: Nor>(
    g: Geometry,
    nor: &mut N,
    work: &mut [u8],
    rows: &mut [u8],
    cache: &mut [u8],
    marks: &mut [u8],
) -> Result<(), Failed>
    requires unit { N.unit nor.old ≡ g.phys }
    requires fits { g.blocks * g.block ≤ N.size nor.old }
    requires work { scratch_need g ≤ length work.old }
    requires cache { cache_need g ≤ length cache.old }
    requires kept { IsKept N.NorState g nor.old cache.old }
    requires room { check_need g ≤ length marks.old }
    ensures cause { OnErr result (Rose (N.faults nor.old) (N.faults nor.new)) }
    ensures looks { OnlyReads N.NorState nor.old nor.new }
    ensures kept { IsKept N.NorState g nor.new cache.new }
    ensures few { FewReads N.NorState g nor.old cache.old nor.new cache.new }
    ensures told { N.tells nor.old → OnOk result (IsMarked g (N.bytes nor.old) marks.new) }
{
    let mut v = View {
        geometry: g,
        nor,
        work,
        rows,
        cache,
        wrote: false,
        counted: false,
    };
    survey(&mut v, marks)
}

/// The record of the table's file of the least id above `after`, by right marks.
pub(crate) fn next_on<N: Nor>(
    g: Geometry,
    nor: &mut N,
    work: &mut [u8],
    rows: &mut [u8],
    cache: &mut [u8],
    marks: &[u8],
    after: u16,
) -> Result<Option<Stat>, Failed>
    requires unit { N.unit nor.old ≡ g.phys }
    requires fits { g.blocks * g.block ≤ N.size nor.old }
    requires work { scratch_need g ≤ length work.old }
    requires cache { cache_need g ≤ length cache.old }
    requires kept { IsKept N.NorState g nor.old cache.old }
    requires room { check_need g ≤ length marks.now }
    requires marked { N.tells nor.old → IsMarked g (N.bytes nor.old) marks.now }
    ensures cause { OnErr result (Rose (N.faults nor.old) (N.faults nor.new)) }
    ensures looks { OnlyReads N.NorState nor.old nor.new }
    ensures kept { IsKept N.NorState g nor.new cache.new }
    ensures few { FewReads N.NorState g nor.old cache.old nor.new cache.new }
    ensures above { IfOk result (λ found. IfSome found (λ stat. after < stat.id)) }
    ensures told { N.tells nor.old → IfOk result (λ found. found ≡ option_map stat_of (file_above after (table_of g (N.bytes nor.old)))) }
{
    let mut v = View {
        geometry: g,
        nor,
        work,
        rows,
        cache,
        wrote: false,
        counted: false,
    };
    next_record(&mut v, marks, after)
}

/// The damaged file of the least id above `after`, with its cause, by right marks.
pub(crate) fn damaged_on<N: Nor>(
    g: Geometry,
    nor: &mut N,
    work: &mut [u8],
    rows: &mut [u8],
    cache: &mut [u8],
    marks: &[u8],
    after: u16,
) -> Result<Option<(u16, Damage)>, Failed>
    requires unit { N.unit nor.old ≡ g.phys }
    requires fits { g.blocks * g.block ≤ N.size nor.old }
    requires work { scratch_need g ≤ length work.old }
    requires cache { cache_need g ≤ length cache.old }
    requires kept { IsKept N.NorState g nor.old cache.old }
    requires room { check_need g ≤ length marks.now }
    requires marked { N.tells nor.old → IsMarked g (N.bytes nor.old) marks.now }
    ensures cause { OnErr result (Rose (N.faults nor.old) (N.faults nor.new)) }
    ensures looks { OnlyReads N.NorState nor.old nor.new }
    ensures kept { IsKept N.NorState g nor.new cache.new }
    ensures few { FewReads N.NorState g nor.old cache.old nor.new cache.new }
    ensures above { IfOk result (λ found. IfSome found (λ damaged. after < damaged.0)) }
    ensures told { N.tells nor.old → IfOk result (λ found. found ≡ damaged_above g (N.bytes nor.old) after) }
{
    let mut v = View {
        geometry: g,
        nor,
        work,
        rows,
        cache,
        wrote: false,
        counted: false,
    };
    next_damaged(&mut v, marks, after)
}

/// The bytes of the table's file of an id, by right marks.
pub(crate) fn read_on<N: Nor>(
    g: Geometry,
    nor: &mut N,
    work: &mut [u8],
    rows: &mut [u8],
    cache: &mut [u8],
    marks: &[u8],
    id: u16,
    at: u32,
    into: &mut [u8],
) -> Result<u32, FsErr>
    requires unit { N.unit nor.old ≡ g.phys }
    requires fits { g.blocks * g.block ≤ N.size nor.old }
    requires work { scratch_need g ≤ length work.old }
    requires cache { cache_need g ≤ length cache.old }
    requires kept { IsKept N.NorState g nor.old cache.old }
    requires room { check_need g ≤ length marks.now }
    requires marked { N.tells nor.old → IsMarked g (N.bytes nor.old) marks.now }
    ensures cause { IsErrOf result FsErr.DeviceFault → Rose (N.faults nor.old) (N.faults nor.new) }
    ensures only { IfErr result (IsReadErr id) }
    ensures within { IfOk result (λ n. (n ≤ length into.old) × (at + n < 2 ^ 32)) }
    ensures looks { OnlyReads N.NorState nor.old nor.new }
    ensures kept { IsKept N.NorState g nor.new cache.new }
    ensures few { FewReads N.NorState g nor.old cache.old nor.new cache.new }
    ensures told { N.tells nor.old → ReadAnswers g (N.bytes nor.old) id at into.old into.new result }
{
    let mut v = View {
        geometry: g,
        nor,
        work,
        rows,
        cache,
        wrote: false,
        counted: false,
    };
    read_file(&mut v, marks, id, at, into)
}

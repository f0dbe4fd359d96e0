ghost use Rattle.std.specs.Prelude.{◌≡◌, ◌+◌, ◌^◌, ◌<◌, ◌≤◌, length, OnErr, IfOk, IfErr, IfSome, IsErrOf};
ghost use Rattle.std.specs.Option.{option_map};
ghost use Rattle.geometry.specs.Numbers.{check_need};
ghost use Rattle.nor_core.specs.Count.{Rose};
ghost use Rattle.table_model.specs.Table.{file_above};
ghost use Rattle.table_model.specs.Files.{stat_of};
ghost use Rattle.image_model.specs.Tables.{table_of};
ghost use Rattle.flash_view.specs.Same.{OnlyLooks};
ghost use Rattle.file_find.specs.Marks.{IsMarked};
ghost use Rattle.vol_mount.specs.Reads.{ReadAnswers, IsReadErr};

use file_find::{find_file, next_file};
use file_read::{read_from, stat_at};
use flash_view::View;
use nor_core::{Failed, Nor, NorState};
use table_model::{FsErr, Stat};

/// The record of the table's file of the least id above `after`, by right marks.
#[tactic(auto, using(flash_view::proofs::Looking::looks_then))]
pub fn next_record<N: Nor>(
    v: &mut View<'_, N>,
    marks: &[u8],
    after: u16,
) -> Result<Option<Stat>, Failed>
    requires room { check_need v.old.geometry ≤ length marks.now }
    requires marked { N.tells v.old.nor.now → IsMarked v.old.geometry (N.bytes v.old.nor.now) marks.now }
    ensures cause { OnErr result (Rose (N.faults v.old.nor.now) (N.faults v.new.nor.now)) }
    ensures looks { OnlyLooks v.old v.new }
    ensures above { IfOk result (λ found. IfSome found (λ stat. after < stat.id)) }
    ensures told { N.tells v.old.nor.now →
        IfOk result (λ found. found ≡ option_map stat_of (file_above after (table_of v.old.geometry (N.bytes v.old.nor.now)))) }
{
    match next_file(v, marks, after)? {
        Some((id, header)) => stat_at(v, id, header),
        None => Ok(None),
    }
}

/// The bytes of the table's file of an id, by right marks.
#[tactic(auto, using(flash_view::proofs::Looking::looks_then))]
pub(crate) fn read_file<N: Nor>(
    v: &mut View<'_, N>,
    marks: &[u8],
    id: u16,
    at: u32,
    into: &mut [u8],
) -> Result<u32, FsErr>
    requires room { check_need v.old.geometry ≤ length marks.now }
    requires marked { N.tells v.old.nor.now → IsMarked v.old.geometry (N.bytes v.old.nor.now) marks.now }
    ensures cause { IsErrOf result FsErr.DeviceFault → Rose (N.faults v.old.nor.now) (N.faults v.new.nor.now) }
    ensures only { IfErr result (IsReadErr id) }
    ensures within { IfOk result (λ n. (n ≤ length into.old) × (at + n < 2 ^ 32)) }
    ensures looks { OnlyLooks v.old v.new }
    ensures told { N.tells v.old.nor.now → ReadAnswers v.old.geometry (N.bytes v.old.nor.now) id at into.old into.new result }
{
    match find_file(v, marks, id)? {
        Some(header) => Ok(read_from(v, id, header, at, into)?),
        None => Err(FsErr::NotFound),
    }
}

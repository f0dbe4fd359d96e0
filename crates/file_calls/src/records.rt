ghost use Rattle.std.specs.Prelude.{◌≡◌, ◌≢◌, ◌<◌, ◌≤◌, ◌⊎◌, ℕ, length, IsErrOf, IfOk, OnErr, Some, None};
ghost use Rattle.std.specs.Option.{option_map};
ghost use Rattle.nor_core.specs.Count.{Rose};
ghost use Rattle.flash_view.specs.Same.{OnlyLooks};
ghost use Rattle.table_model.specs.Table.{file_of, file_named, file_above};
ghost use Rattle.table_model.specs.Files.{stat_of as the_stat};
ghost use Rattle.table_model.specs.Calls.{info_of};
ghost use Rattle.image_model.specs.Tables.{table_of};
ghost use Rattle.image_model.specs.Tidy.{IsTidy};
ghost use Rattle.file_calls.specs.Records.{stat_in as the_stat_in};

use crate::room::page_counts;
use flash_view::View;
use geometry::Geometry;
use header_laws::heads::{files_are_told, files_go_by_id};
use header_laws::ids::{ids_are_told, names_are_told};
use header_laws::room::files_are_counted;
use image_laws::counting::tidy_counts;
use nor_core::{Failed, Nor, NorState};
use page_layout::{file_size, meta_of, name_of, type_of};
use table_model::{Info, Stat};

// The record that a header page tells of the file of an id.
fn stat_in(g: &Geometry, page: &[u8], id: u16) -> Option<Stat>
    requires { length page.now ≡ g.now.page }
    ensures { result ≡ the_stat_in g.now page.now id }
{
    let name = name_of(page)?;
    Some(Stat {
        id,
        kind: type_of(page),
        size: file_size(page),
        name,
        meta: meta_of(g, page),
    })
}

/// The record of the file of an id.
#[tactic(auto, using(flash_view::proofs::Looking::looks_then))]
pub(crate) fn stat_of_id<N: Nor>(v: &mut View<'_, N>, id: u16) -> Result<Option<Stat>, Failed>
    ensures cause { OnErr result (Rose (N.faults v.old.nor.now) (N.faults v.new.nor.now)) }
    ensures looks { OnlyLooks v.old v.new }
    ensures told { N.tells v.old.nor.now → IsTidy v.old.geometry (N.bytes v.old.nor.now) →
        IfOk result (λ found. found ≡ option_map the_stat (file_of id (table_of v.old.geometry (N.bytes v.old.nor.now)))) }
{
    let Some(page) = v.seek_header(id)? else {
        return Ok(None);
    };
    v.fetch(page)?;
    Ok(stat_in(&v.geometry, v.fetched(), id))
}

/// The record of the file of a name.
#[tactic(auto, using(flash_view::proofs::Looking::looks_then))]
pub(crate) fn stat_named<N: Nor>(v: &mut View<'_, N>, name: &[u8]) -> Result<Option<Stat>, Failed>
    ensures cause { OnErr result (Rose (N.faults v.old.nor.now) (N.faults v.new.nor.now)) }
    ensures looks { OnlyLooks v.old v.new }
    ensures told { N.tells v.old.nor.now → IsTidy v.old.geometry (N.bytes v.old.nor.now) →
        IfOk result (λ found. found ≡ option_map the_stat (file_named name.now (table_of v.old.geometry (N.bytes v.old.nor.now)))) }
{
    match v.seek_name(name)? {
        Some(id) => stat_of_id(v, id),
        None => Ok(None),
    }
}

// The record of the number behind an id, if the page of its hint is its header page.
#[tactic(auto, using(flash_view::proofs::Looking::looks_then))]
fn stat_behind<N: Nor>(v: &mut View<'_, N>, after: u16) -> Result<Option<Stat>, Failed>
    ensures cause { OnErr result (Rose (N.faults v.old.nor.now) (N.faults v.new.nor.now)) }
    ensures looks { OnlyLooks v.old v.new }
    ensures told { N.tells v.old.nor.now → IsTidy v.old.geometry (N.bytes v.old.nor.now) →
        IfOk result (λ found. (found ≡ None) ⊎ (found ≡ option_map the_stat (file_above after (table_of v.old.geometry (N.bytes v.old.nor.now))))) }
{
    if after == u16::MAX {
        return Ok(None);
    }
    let id = after + 1;
    let Some(page) = v.hinted_header(id)? else {
        return Ok(None);
    };
    v.fetch(page)?;
    Ok(stat_in(&v.geometry, v.fetched(), id))
}

// The record of the least id above one, of all pages.
#[tactic(auto, using(flash_view::proofs::Looking::looks_then))]
fn search_above<N: Nor>(v: &mut View<'_, N>, after: u16) -> Result<Option<Stat>, Failed>
    ensures cause { OnErr result (Rose (N.faults v.old.nor.now) (N.faults v.new.nor.now)) }
    ensures looks { OnlyLooks v.old v.new }
    ensures told { N.tells v.old.nor.now → IsTidy v.old.geometry (N.bytes v.old.nor.now) →
        IfOk result (λ found. found ≡ option_map the_stat (file_above after (table_of v.old.geometry (N.bytes v.old.nor.now)))) }
{
    match v.next_id(after)? {
        Some(id) => stat_of_id(v, id),
        None => Ok(None),
    }
}

/// The record of the least id above one. That of the next number comes first, by its hint: in a walk over all files it mostly is the one.
#[tactic(auto, using(flash_view::proofs::Looking::looks_then))]
pub(crate) fn stat_above<N: Nor>(v: &mut View<'_, N>, after: u16) -> Result<Option<Stat>, Failed>
    ensures cause { OnErr result (Rose (N.faults v.old.nor.now) (N.faults v.new.nor.now)) }
    ensures looks { OnlyLooks v.old v.new }
    ensures told { N.tells v.old.nor.now → IsTidy v.old.geometry (N.bytes v.old.nor.now) →
        IfOk result (λ found. found ≡ option_map the_stat (file_above after (table_of v.old.geometry (N.bytes v.old.nor.now)))) }
{
    if let Some(stat) = stat_behind(v, after)? {
        return Ok(Some(stat));
    }
    search_above(v, after)
}

/// How full the volume is.
pub(crate) fn info_of_all<N: Nor>(v: &mut View<'_, N>) -> Result<Info, Failed>
    requires { 2 ≤ v.old.geometry.blocks }
    ensures cause { OnErr result (Rose (N.faults v.old.nor.now) (N.faults v.new.nor.now)) }
    ensures looks { OnlyLooks v.old v.new }
    ensures told { N.tells v.old.nor.now → IsTidy v.old.geometry (N.bytes v.old.nor.now) →
        IfOk result (λ info. info ≡ info_of v.old.geometry (table_of v.old.geometry (N.bytes v.old.nor.now))) }
{
    let counts = page_counts(v)?;
    let g = v.geometry;
    Ok(Info {
        files: counts.heads,
        index_pages: counts.index_pages,
        data_pages: counts.data_pages,
        usable_pages: (g.blocks() - 2) * g.entries(),
    })
}

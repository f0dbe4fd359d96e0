ghost use Rattle.std.specs.Prelude.{◌≡◌, ◌<◌, length, IfOk, IfSome, OnErr, Some};
ghost use Rattle.geometry.specs.Numbers.{page_count};
ghost use Rattle.nor_core.specs.Count.{Rose};
ghost use Rattle.table_model.specs.Table.{File};
ghost use Rattle.table_model.specs.Files.{stat_of};
ghost use Rattle.image_model.specs.Places.{page_of};
ghost use Rattle.flash_view.specs.Same.{OnlyLooks};
ghost use Rattle.file_read.specs.Whole.{IsFileAt};
ghost use Rattle.file_read.specs.Stats.{stat_in as the_stat_in};

use flash_view::View;
use geometry::Geometry;
use nor_core::{Failed, Nor, NorState};
use page_layout::{file_size, meta_of, name_of, type_of};
use table_model::Stat;

/// The record that a header page tells of the file of an id; none where the page has no name.
pub fn stat_in(g: &Geometry, page: &[u8], id: u16) -> Option<Stat>
    requires { length page.now ≡ g.now.page }
    ensures record_of { result ≡ the_stat_in g.now page.now id }
    ensures id { IfSome result (λ stat. stat.id ≡ id) }
{
    let name = name_of(page)?;
    Some(Stat {
        id,
        kind: type_of(page),
        size: file_size(page),
        name,
        meta: meta_of(g, page),
    })
}

/// The record of the file of an id, by its header page.
pub fn stat_at<N: Nor>(v: &mut View<'_, N>, id: u16, header: u16) -> Result<Option<Stat>, Failed>
    requires { header < page_count v.old.geometry }
    ensures cause { OnErr result (Rose (N.faults v.old.nor.now) (N.faults v.new.nor.now)) }
    ensures looks { OnlyLooks v.old v.new }
    ensures id { IfOk result (λ found. IfSome found (λ stat. stat.id ≡ id)) }
    ensures page { N.tells v.old.nor.now → IfOk result (λ stat. stat ≡ the_stat_in v.old.geometry (page_of v.old.geometry (N.bytes v.old.nor.now) header) id) }
    ensures told { N.tells v.old.nor.now → (f : File) → IsFileAt v.old.geometry (N.bytes v.old.nor.now) id header f →
        IfOk result (λ stat. stat ≡ Some (stat_of f)) }
{
    v.fetch(header)?;
    Ok(stat_in(&v.geometry, v.fetched(), id))
}

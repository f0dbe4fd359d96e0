ghost use Rattle.std.specs.Prelude.{◌≡◌, ◌+◌, ◌≤◌, IfOk, IfErr, OnOk, OnErr, None, Some};
ghost use Rattle.geometry.specs.Numbers.{ceil, entries, IsOf};
ghost use Rattle.nor_core.specs.Count.{Rose};
ghost use Rattle.folder_core.specs.Puts.{Kept};
ghost use Rattle.folder_size.specs.Needs.{written_refusal, need_by, need_for, IsNeed, most_blocks as the_most};

use crate::told::{Need, Shape};
use folder_core::{Folder, FolderState};
use folder_plan::{Refusal, refusal_of};
use geometry::{GeoErr, Geometry, MagicKind};
use nor_core::Failed;

/// The fewest blocks of a volume that can be written.
const FEWEST: u32 = 4;

/// The most entry pages of a volume that can be written.
const MOST_USABLE: u32 = 32_766;

// The smallest volume of a shape that can be written. Its magic is any: nothing here depends on it.
fn smallest(shape: Shape) -> Result<Geometry, GeoErr>
    ensures made { IfOk result (λ g. IsOf g shape.page shape.block 4 shape.phys shape.meta MagicKind.Plain) }
    ensures accepted { OnOk result (written_refusal shape 4 ≡ None) }
    ensures refused { IfErr result (λ why. written_refusal shape 4 ≡ Some why) }
{
    let g = Geometry::new(
        shape.page,
        shape.block,
        FEWEST,
        shape.phys,
        shape.meta,
        MagicKind::Plain,
    )?;
    g.writable()?;
    Ok(g)
}

// The most blocks that a volume of these pages and blocks has which can be written.
#[tactic(auto, using(geometry::proofs::Bounds::entry_left, geometry::proofs::Bounds::some_pages))]
fn most_blocks(g: &Geometry) -> u32
    ensures { result ≡ the_most g.now }
{
    (65_535 / g.per_block()).min(MOST_USABLE / g.entries())
}

// Blocks that so many pages and one more take, each block for pages of that kind alone.
#[tactic(auto, using(geometry::proofs::Bounds::entry_left))]
fn blocks_for(g: &Geometry, pages: u32) -> u32
    requires { pages ≤ 32766 }
    ensures blocks { result ≡ ceil (pages + 1) (entries g.now) }
    ensures few { result ≤ pages + 1 }
{
    (pages + g.entries()) / g.entries()
}

// How many blocks so many pages need, if a volume that can be written has so many.
fn need_of(g: &Geometry, index: u128, data_pages: u128) -> Need
    ensures { result ≡ need_by g.now index data_pages }
{
    let most = u128::from(MOST_USABLE);
    if index > most || data_pages > most {
        return Need::TooMany { index, data_pages };
    }
    let blocks = blocks_for(g, index as u32) + blocks_for(g, data_pages as u32) + 2;
    if blocks > most_blocks(g) {
        return Need::TooMany { index, data_pages };
    }
    Need::Blocks(blocks)
}

// How many blocks are needed where the smallest volume is refused so.
fn need_by_refusal(g: &Geometry, why: Option<Refusal>) -> Need
    ensures { result ≡ need_for g.now why }
{
    match why {
        None => Need::Blocks(FEWEST),
        Some(Refusal::BadNames { at }) => Need::BadName { at },
        Some(Refusal::Full { index, data_pages }) => need_of(g, index, data_pages),
    }
}

/// How many blocks a volume of a shape needs at least, so that an image of the folder's files can be made on it. What is wrong with the
/// numbers comes first, then with a name, then room. No byte of a file is read, and it fails only where the folder failed.
pub fn least_blocks<F: Folder>(shape: Shape, folder: &mut F) -> Result<Need, Failed>
    ensures need { IfOk result (IsNeed shape (F.entries folder.old)) }
    ensures cause { OnErr result (Rose (F.faults folder.old) (F.faults folder.new)) }
    ensures kept { Kept F.FolderState folder.old folder.new }
{
    let g = match smallest(shape) {
        Ok(g) => g,
        Err(why) => return Ok(Need::NoVolume(why)),
    };
    let why = refusal_of(&g, folder)?;
    Ok(need_by_refusal(&g, why))
}

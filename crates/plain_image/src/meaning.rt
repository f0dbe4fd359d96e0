// The table of an image and its damaged files, in one walk over the ids up to the greatest that has a header page.
ghost use Rattle.std.specs.Prelude.{◌≡◌, ◌<◌, ◌≤◌, ℕ, length, map, IfOk, get_or, None};
ghost use Rattle.image_model.specs.Places.{IsImage};
ghost use Rattle.image_model.specs.Live.{live_at as the_live_at};
ghost use Rattle.image_model.specs.Tables.{table_of as the_table, damaged_of as the_damaged};
ghost use Rattle.plain_image.specs.Seen.{file};
ghost use Rattle.plain_image.specs.Headed.{IsHeads};

use crate::Record;
use crate::damaged::damages;
use crate::headers::{header_of, header_pages};
use crate::marks::name_marks;
use crate::table::records;
use crate::wholes::file_pages;
use geometry::Geometry;
use image_model::Damage;
use std::alloc::{AllocError, Global};

/// What an image means.
#[derive(Drop)]
pub struct Meaning {
    /// Its table: the whole files in order of ids, of several with one name that whose header page is first.
    pub table: Vec<Record>,
    /// Its damaged files, in order of ids, each with its first cause.
    pub damaged: Vec<(u16, Damage)>,
}

// The greatest id that has a header page; 0 where there is none.
fn greatest(heads: &[Option<u32>]) -> u16
    requires { length heads.now ≡ 0x8000 }
    ensures low { result ≤ 0x7FFF }
    ensures above { (id : ℕ) → result < id → id < 0x8000 → get_or heads.now id None ≡ None }
{
    let mut id = 0x7FFF;
    while id > 0 {
        if header_of(heads, id).is_some() {
            return id;
        }
        id -= 1;
    }
    0
}

/// The table of an image and its damaged files. Wants memory for the files' bytes.
#[tactic(auto, unfolding(image_model::specs::Tables::table_of, image_model::specs::Tables::damaged_of))]
pub fn meaning_of(alloc: Global, g: &Geometry, image: &[u8]) -> Result<Meaning, AllocError>
    requires { IsImage g.now image.now }
    ensures table { IfOk result (λ m. map file m.table.items ≡ the_table g.now image.now) }
    ensures damaged { IfOk result (λ m. m.damaged.items ≡ the_damaged g.now image.now) }
{
    let heads = header_pages(alloc, g, image)?;
    let files = file_pages(alloc, g, image, heads.as_slice())?;
    let top = greatest(heads.as_slice());
    let marks = name_marks(alloc, g, image, files.as_slice(), top)?;
    Ok(Meaning {
        table: records(
            alloc,
            g,
            image,
            heads.as_slice(),
            files.as_slice(),
            marks.as_slice(),
            top,
        )?,
        damaged: damages(
            alloc,
            g,
            image,
            heads.as_slice(),
            files.as_slice(),
            marks.as_slice(),
            top,
        )?,
    })
}

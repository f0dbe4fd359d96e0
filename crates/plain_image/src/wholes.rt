// The header pages of whole files, by id.
ghost use Rattle.std.specs.Prelude.{◌≡◌, ℕ, ◌+◌, ◌*◌, ◌<◌, ◌≤◌, length, IfOk};
ghost use Rattle.image_model.specs.Places.{IsImage};
ghost use Rattle.image_model.specs.Live.{live_at as the_live_at, own as the_own};
ghost use Rattle.image_model.specs.Tables.{has_of as the_has};
ghost use Rattle.plain_image.specs.Headed.{IsHeads};
ghost use Rattle.plain_image.specs.Leading.{AreFiles, file_page as the_file_page, has_name as the_has_name};

use crate::files::{first_missing, name_of};
use crate::headers::header_of;
use crate::pages::own;
use geometry::Geometry;
use std::alloc::{AllocError, Global};

// The header page of an id, where it has a whole file.
#[tactic(auto, unfolding(image_model::specs::Files::found, image_model::specs::Tables::has_of, image_model::specs::Files::judged), using(crate::proofs::Headed::head_known))]
fn file_page(g: &Geometry, image: &[u8], heads: &[Option<u32>], id: u16) -> Option<u32>
    requires image { IsImage g.now image.now }
    requires heads { IsHeads g.now (the_live_at g.now image.now) heads.now }
    requires id { id < 0x8000 }
    ensures { result ≡ the_file_page (the_has g.now (the_live_at g.now image.now) id) }
{
    let q = header_of(heads, id)?;
    let head = own(g, image, id, q)?;
    let _name = name_of(head)?;
    if first_missing(g, image, id, head).is_none() {
        Some(q)
    } else {
        None
    }
}

// The header page of each id below 0x8000 that has a whole file.
#[tactic(auto, using(crate::proofs::Leading::files_none, crate::proofs::Leading::files_more))]
pub(crate) fn file_pages(
    alloc: Global,
    g: &Geometry,
    image: &[u8],
    heads: &[Option<u32>],
) -> Result<Vec<Option<u32>>, AllocError>
    requires image { IsImage g.now image.now }
    requires heads { IsHeads g.now (the_live_at g.now image.now) heads.now }
    ensures { IfOk result (λ files. AreFiles g.now (the_live_at g.now image.now) 0x8000 files.items) }
{
    let mut files = Vec::new(alloc);
    for id in 0..0x8000u16 {
        files.push(file_page(g, image, heads, id))?;
    }
    Ok(files)
}

// Whether the header page of an id has that name.
pub(crate) fn has_name(g: &Geometry, image: &[u8], id: u16, q: u32, name: &[u8]) -> bool
    requires image { IsImage g.now image.now }
    ensures { result ≡ the_has_name (the_own (the_live_at g.now image.now) id q) name.now }
{
    let Some(head) = own(g, image, id, q) else {
        return false;
    };
    match name_of(head) {
        Some(other) => other == name,
        None => false,
    }
}

// Whether an image is tidy.
ghost use Rattle.std.specs.Prelude.{◌≡◌, ◌↔◌, IfOk, IsTrue};
ghost use Rattle.image_model.specs.Places.{IsImage};
ghost use Rattle.image_model.specs.Tidy.{IsTidy};

use crate::blocks::{mixed_blocks, spoiled_blocks};
use crate::damaged::damaged_of;
use crate::tidy::killed_of;
use geometry::Geometry;
use std::alloc::{AllocError, Global};

/// Whether an image is tidy: every block has its magic, every entry is deleted, free or that of a wanted page, nothing is
/// damaged, and no block holds live pages of both kinds.
pub fn is_tidy(alloc: Global, g: &Geometry, image: &[u8]) -> Result<bool, AllocError>
    requires { IsImage g.now image.now }
    ensures { IfOk result (λ yes. IsTrue yes ↔ IsTidy g.now image.now) }
{
    if spoiled_blocks(g, image) > 0 {
        return Ok(false);
    }
    if mixed_blocks(g, image) > 0 {
        return Ok(false);
    }
    if killed_of(alloc, g, image)? > 0 {
        return Ok(false);
    }
    Ok(damaged_of(alloc, g, image)?.is_empty())
}

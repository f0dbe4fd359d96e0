// Volumes without meta bytes, of which an erase unit is a block.
ghost use Rattle.std.specs.Prelude.{◌≡◌, ℕ, ◌*◌, ◌^◌, ◌<◌, IfSome, None};
ghost use Rattle.geometry.specs.Numbers.{IsOf, refusal};
ghost use Rattle.volume_detect.specs.Volumes.{NoVolume};

use geometry::{Geometry, MagicKind};

// The volume of these numbers, if no rule is broken.
pub(crate) fn volume_of(page: u32, block: u32, blocks: u32, magic: MagicKind) -> Option<Geometry>
    requires page { (i : ℕ) × (i < 6) × (page ≡ 128 * 2 ^ i) }
    ensures made { IfSome result (λ g. IsOf g page block blocks block 0 magic) }
    ensures refused { result ≡ None → NoVolume page block blocks }
{
    match Geometry::new(page, block, blocks, block, 0, magic) {
        Ok(g) => Some(g),
        Err(_) => None,
    }
}

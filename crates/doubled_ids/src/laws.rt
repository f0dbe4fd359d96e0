//! Laws of doubled ids.
ghost use Rattle.std.specs.Prelude.{◌≡◌, ◌≢◌, ◌≤◌, ℕ, List, [], length};
ghost use Rattle.geometry.specs.declared.geometry.Geometry.{Geometry as AnyGeometry};
ghost use Rattle.image_model.specs.Live.{live_at};
ghost use Rattle.image_model.specs.Tidy.{IsNeat};
ghost use Rattle.doubled_ids.specs.Doubled.{doubled_of};

/// A law: in a volume that is tidy, but for blocks that hold pages of both kinds, no id is doubled. Where one page at most is live or
/// not otherwise than there, as when the power fails before the old header page of a file is killed, one id at most is doubled.
pub fn neat_volumes_double_none()
    ensures none { (g : AnyGeometry) (image : List ℕ) → IsNeat g image → doubled_of g image ≡ [] }
    ensures one { (g : AnyGeometry) (was now : List ℕ) (p : ℕ) → IsNeat g was → ((q : ℕ) → q ≢ p → live_at g now q ≡ live_at g was q) →
        length (doubled_of g now) ≤ 1 }
{}

//! A volume between two calls: what its device and its memory are, what a cut in a call may leave, and how a call is answered.
#![tactic(auto)]

pub mod capacity;
pub mod cuts;
pub mod descriptors;
pub mod runs;
pub mod windows;
pub mod writes;

ghost use Rattle.std.specs.Prelude.{◌≡◌, ℕ, List};
ghost use Rattle.geometry.specs.declared.geometry.Geometry.{Geometry};
ghost use Rattle.image_model.specs.Tidy.{IsTidy};
ghost use Rattle.call_model.specs.Safe.{IsSafe, HoldsImage};

/// What may follow a tidy image that stands after another may follow that, and what stands after one that stands after another stands.
#[tactic(auto, using(crate::proofs::Safety::holds_safe, crate::proofs::Safety::holds_then))]
pub fn safety_passes_on()
    ensures cut { (g : Geometry) (a b c : List ℕ) → HoldsImage g a b → IsTidy g b → IsSafe g b c → IsSafe g a c }
    ensures stands { (g : Geometry) (a b c : List ℕ) → HoldsImage g a b → HoldsImage g b c → HoldsImage g a c }
{}

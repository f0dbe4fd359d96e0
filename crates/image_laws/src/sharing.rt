ghost use Rattle.geometry.specs.declared.geometry.Geometry.{Geometry};
ghost use Rattle.image_laws.specs.Sharing.{
  NeatCounts,
  UnmixedIsUnshared,
  SoundIsUnshared,
  NeatIsTidy,
  FitsIsTested,
  SameUsesFit,
  PutIsCopying,
  KillIsCopying,
  CopyingFits,
};

/// Images without shared blocks, and neat ones.
pub fn unshared_is_tidy()
    ensures counts { (g : Geometry) → NeatCounts g }
    ensures unmixed { (g : Geometry) → UnmixedIsUnshared g }
    ensures sound { (g : Geometry) → SoundIsUnshared g }
    ensures tidy { (g : Geometry) → NeatIsTidy g }
{}

/// What fits over in an image fits over in each one with the same uses.
pub fn uses_fit()
    ensures tested { (g : Geometry) → FitsIsTested g }
    ensures same { (g : Geometry) → SameUsesFit g }
{}

/// What each cut in the move of an index page takes of the places for index pages.
pub fn copying_fits()
    ensures put { (g : Geometry) → PutIsCopying g }
    ensures kill { (g : Geometry) → KillIsCopying g }
    ensures fits { (g : Geometry) → CopyingFits g }
{}

ghost use Rattle.geometry.specs.declared.geometry.Geometry.{Geometry};
ghost use Rattle.image_laws.specs.Blocks.{ScrambledLacksMagic, MixedIsTested};

/// An interrupted erase whose mark is the block's magic leaves the block without it, where it changed the unit at all.
pub fn erasing_spoils()
    ensures { (g : Geometry) → ScrambledLacksMagic g }
{}

/// The test of a mixed block finds its two pages, and misses none.
pub fn mixed_is_tested()
    ensures { (g : Geometry) → MixedIsTested g }
{}

ghost use Rattle.geometry.specs.declared.geometry.Geometry.{Geometry};
ghost use Rattle.room_laws.specs.Sorts.{TidyTellsFree, NeatTellsFree, CountsBySorts, AllBySorts, SameSorts, SortsAreWhole, SortsChange, SortsAreCounted};
ghost use Rattle.room_laws.specs.Sorts.{OtherSortsStay, SortsAtBlock, SortsBeside, BlocksBeside, PlaceCanPut};

/// The counts of an image are those by what its entries count as.
pub fn sorts_are_counts()
    ensures tidy { (g : Geometry) → TidyTellsFree g }
    ensures neat { (g : Geometry) → NeatTellsFree g }
    ensures block { (g : Geometry) → CountsBySorts g }
    ensures all { (g : Geometry) → AllBySorts g }
    ensures same { (g : Geometry) → SameSorts g }
    ensures whole { (g : Geometry) → SortsAreWhole g }
{}

/// What the change of one sort does to the counts of its block, and of the others.
pub fn sorts_are_changed()
    ensures own { (g : Geometry) → SortsChange g }
    ensures counted { (g : Geometry) → SortsAreCounted g }
    ensures others { (g : Geometry) → OtherSortsStay g }
    ensures at { (g : Geometry) → SortsAtBlock g }
    ensures beside { (g : Geometry) → SortsBeside g }
{}

/// What stands beside a block, and where a page may be put there.
pub fn places_stand_beside()
    ensures stands { (g : Geometry) → BlocksBeside g }
    ensures put { (g : Geometry) → PlaceCanPut g }
{}

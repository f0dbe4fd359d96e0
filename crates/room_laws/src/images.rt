ghost use Rattle.geometry.specs.declared.geometry.Geometry.{Geometry};
ghost use Rattle.room_laws.specs.Counting.{TidyIsVolume, TidyCountsTell, WorthIsTested, FitsIsTested, HadIsTested};

/// The counts of a tidy image are those of a volume, and add up to what the image holds.
pub fn images_are_counted()
    ensures volume { (g : Geometry) → TidyIsVolume g }
    ensures tell { (g : Geometry) → TidyCountsTell g }
{}

/// What is worth cleaning, fits and is had by the counts is what the tests of the image find.
pub fn counts_judge()
    ensures worth { (g : Geometry) → WorthIsTested g }
    ensures fits { (g : Geometry) → FitsIsTested g }
    ensures had { (g : Geometry) → HadIsTested g }
{}

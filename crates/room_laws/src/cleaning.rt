ghost use Rattle.geometry.specs.declared.geometry.Geometry.{Geometry};
ghost use Rattle.room_laws.specs.CleanedImages.{EmptiedHasCleaned, HasCleanedCanClean, HasCleanedIsLower, HasCleanedMends, HasCleanedIsSwept};
ghost use Rattle.room_laws.specs.Stopping.{MeasureIsSmall};

/// Of a tidy image the number that cleanings lower is below the greatest of 64 bits, so that they come to an end.
pub fn measures_are_small()
    ensures { (g : Geometry) → MeasureIsSmall g }
{}

/// A block that was emptied and made fresh was cleaned: the image can be cleaned again, is lower, mends as before, and was swept
/// if the block was the chosen one.
pub fn emptied_blocks_are_cleaned()
    ensures emptied { (g : Geometry) → EmptiedHasCleaned g }
    ensures again { (g : Geometry) → HasCleanedCanClean g }
    ensures lower { (g : Geometry) → HasCleanedIsLower g }
    ensures mends { (g : Geometry) → HasCleanedMends g }
    ensures swept { (g : Geometry) → HasCleanedIsSwept g }
{}

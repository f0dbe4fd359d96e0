ghost use Rattle.geometry.specs.declared.geometry.Geometry.{Geometry};
ghost use Rattle.image_laws.specs.Put.{PlacingIsSound};
ghost use Rattle.image_laws.specs.LiveSteps.{PutChanges, KillChanges};
ghost use Rattle.image_laws.specs.Flash.{FinishedIsProgrammed};
ghost use Rattle.image_laws.specs.Spares.{SpareKills, SparesEnd, TidyHasMagics};

/// Placing any page keeps the image, also where it is cut off.
pub fn placing_is_sound()
    ensures { (g : Geometry) → PlacingIsSound g }
{}

/// A put and a kill, at each cut and done, as changes of the live pages.
pub fn steps_change()
    ensures put { (g : Geometry) → PutChanges g }
    ensures kill { (g : Geometry) → KillChanges g }
{}

/// The pages that a step leaves over may be killed one after the other.
pub fn spares_go()
    ensures kill { (g : Geometry) → SpareKills g }
    ensures end { (g : Geometry) → SparesEnd g }
    ensures magics { (g : Geometry) → TidyHasMagics g }
{}

/// What a finished program leaves, byte by byte.
pub fn finished_is_programmed()
    ensures { FinishedIsProgrammed }
{}

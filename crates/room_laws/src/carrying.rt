ghost use Rattle.geometry.specs.declared.geometry.Geometry.{Geometry};
ghost use Rattle.room_laws.specs.Carrying.{PutSorts, KillSorts, BeginsBetween, FitsHasPlaces, BatchHasPlaces, IndexGoesOn, BatchGoesOn};

/// A put and a kill change what one entry counts as.
pub fn programs_change_sorts()
    ensures put { (g : Geometry) → PutSorts g }
    ensures kill { (g : Geometry) → KillSorts g }
{}

/// A cleaning begins with places for all live pages of a block that fits, and each turn leaves places for those that remain.
pub fn turns_go_on()
    ensures begins { (g : Geometry) → BeginsBetween g }
    ensures fits { (g : Geometry) → FitsHasPlaces g }
    ensures within { (g : Geometry) → BatchHasPlaces g }
    ensures index { (g : Geometry) → IndexGoesOn g }
    ensures batch { (g : Geometry) → BatchGoesOn g }
{}

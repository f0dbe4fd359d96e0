ghost use Rattle.geometry.specs.declared.geometry.Geometry.{Geometry};
ghost use Rattle.renew_laws.specs.Reserve.{PutReserve, KillReserve, ReplaceReserve};

/// A put, a kill, and both, one in the place of the other, leave a volume its reserve.
pub fn reserve_stays()
    ensures put { (g : Geometry) → PutReserve g }
    ensures kill { (g : Geometry) → KillReserve g }
    ensures replace { (g : Geometry) → ReplaceReserve g }
{}

ghost use Rattle.geometry.specs.declared.geometry.Geometry.{Geometry};
ghost use Rattle.renew_laws.specs.Idles.{IdleKills, IdlesEnd};

/// Pages that are not needed are killed one by one, and with none left the image is tidy.
pub fn idles_go()
    ensures kill { (g : Geometry) → IdleKills g }
    ensures end { (g : Geometry) → IdlesEnd g }
{}

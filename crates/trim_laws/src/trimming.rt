ghost use Rattle.geometry.specs.declared.geometry.Geometry.{Geometry};
ghost use Rattle.trim_laws.specs.Steps.{PutTrims, KillTrims, InPlaceTrims, FlagsTrim};

/// What a put, a kill and programs in place do to the page numbers of header pages.
pub fn trims_are_kept()
    ensures put { (g : Geometry) → PutTrims g }
    ensures kill { (g : Geometry) → KillTrims g }
    ensures inside { (g : Geometry) → InPlaceTrims g }
    ensures flags { (g : Geometry) → FlagsTrim g }
{}

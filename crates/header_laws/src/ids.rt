ghost use Rattle.geometry.specs.declared.geometry.Geometry.{Geometry};
ghost use Rattle.header_laws.specs.Ids.{HasIds, HeadersWithin, Named, HasNames, NextIs};

/// Header pages tell the ids of the table.
pub fn ids_are_told()
    ensures has { (g : Geometry) → HasIds g }
    ensures within { (g : Geometry) → HeadersWithin g }
    ensures next { (g : Geometry) → NextIs g }
{}

/// They tell its names.
pub fn names_are_told()
    ensures named { (g : Geometry) → Named g }
    ensures has { (g : Geometry) → HasNames g }
{}

ghost use Rattle.geometry.specs.declared.geometry.Geometry.{Geometry};
ghost use Rattle.renew_laws.specs.Leads.{CopiesSame};
ghost use Rattle.image_laws.specs.InPlace.{EntryInPlaceKeeps, EntryInPlaceTidies};
ghost use Rattle.renew_laws.specs.Recopy.{RecopyCuts, RecopySpares, PutDataCuts, PutDataDone, PutSame, RecopyIsSound, PutDataKeeps, PutDataSpares};
ghost use Rattle.renew_laws.specs.Recopy.{RecopyTidies};

/// A renewed index page: each cut is before or after, and sound; done it is tidy but for the data pages that it names no longer.
pub fn recopying_puts()
    ensures cuts { (g : Geometry) → RecopyCuts g }
    ensures spares { (g : Geometry) → RecopySpares g }
    ensures copies { (g : Geometry) → CopiesSame g }
    ensures same { (g : Geometry) → PutSame g }
{}

/// A data page put beside: each cut keeps the image, and done it is one more spare page.
pub fn data_puts()
    ensures cuts { (g : Geometry) → PutDataCuts g }
    ensures done { (g : Geometry) → PutDataDone g }
{}

/// The same of each of the programs.
pub fn recopying_programs()
    ensures cuts { (g : Geometry) → RecopyIsSound g }
    ensures data_page { (g : Geometry) → PutDataKeeps g }
    ensures spares { (g : Geometry) → PutDataSpares g }
    ensures tidy { (g : Geometry) → RecopyTidies g }
{}

/// An entry at or past the page count may be programmed in place.
pub fn entries_in_place()
    ensures keeps { (g : Geometry) → EntryInPlaceKeeps g }
    ensures tidy { (g : Geometry) → EntryInPlaceTidies g }
{}

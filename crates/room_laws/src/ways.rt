ghost use Rattle.geometry.specs.declared.geometry.Geometry.{Geometry};
ghost use Rattle.room_laws.specs.Staged.{StrippedIsStaged, TidyIsStaged, NeatIsStripped, KillsAreStaged, KillsAreStripped};
ghost use Rattle.room_laws.specs.Ways.{WayNone, WayPut, WayKill, DoneLeaves, WayResolves, BatchResolves, BatchStays};

/// What the stages of a check leave of a tidy image, and of one in which pages were killed.
pub fn stages_leave()
    ensures tidy { (g : Geometry) → TidyIsStaged g }
    ensures kills { (g : Geometry) → KillsAreStaged g }
{}

/// The same where blocks may hold both kinds of pages.
pub fn stages_strip()
    ensures neat { (g : Geometry) → NeatIsStripped g }
    ensures kills { (g : Geometry) → KillsAreStripped g }
    ensures staged { (g : Geometry) → StrippedIsStaged g }
{}

/// Pages are on their way while copies are put and old pages are killed, each done or cut off.
pub fn pages_go()
    ensures none { (g : Geometry) → WayNone g }
    ensures put { (g : Geometry) → WayPut g }
    ensures kill { (g : Geometry) → WayKill g }
    ensures done { (g : Geometry) → DoneLeaves g }
{}

/// The stages of a check leave each page on its way at one of its two places, and the pages of a batch alike.
pub fn ways_end()
    ensures each { (g : Geometry) → WayResolves g }
    ensures batch { (g : Geometry) → BatchResolves g }
    ensures stays { (g : Geometry) → BatchStays g }
{}

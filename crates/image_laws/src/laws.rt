ghost use Rattle.geometry.specs.declared.geometry.Geometry.{Geometry};
ghost use Rattle.image_laws.specs.Programs.{PlacingEntryKeeps, PlacingPageKeeps, FinishingPublishes, KillingKeeps, EntryKeeps, KillingRetires, AppendingKeeps};
ghost use Rattle.image_laws.specs.Programs.{BlockKeeps, SpoiledIsDead, RemovingDrops, UnwantedIsIdle};

/// Placing a page keeps the table, also where it is cut off.
pub fn placing_keeps()
    ensures entry { (g : Geometry) → PlacingEntryKeeps g }
    ensures page { (g : Geometry) → PlacingPageKeeps g }
{}

/// Finishing a header page puts its file into the table, or leaves it.
pub fn finishing_publishes()
    ensures { (g : Geometry) → FinishingPublishes g }
{}

/// Killing a page that its id does not need keeps the table, also where it is cut off. Killing the old one of
/// two header pages leaves the table, or puts the file of the new one into it.
pub fn killing_keeps()
    ensures deleting { (g : Geometry) → KillingKeeps g }
    ensures entry { (g : Geometry) → EntryKeeps g }
    ensures retires { (g : Geometry) → KillingRetires g }
{}

/// Programming bytes past the end of a file keeps the table, also where it is cut off.
pub fn appending_keeps()
    ensures { (g : Geometry) → AppendingKeeps g }
{}

/// A change of a block that has no live page, as an erase, keeps the table.
pub fn erasing_keeps()
    ensures block { (g : Geometry) → BlockKeeps g }
    ensures spoiled { (g : Geometry) → SpoiledIsDead g }
{}

/// Removing takes a file out of the table, or leaves it. A page that is not wanted is idle.
pub fn removing_drops()
    ensures removing { (g : Geometry) → RemovingDrops g }
    ensures unwanted { (g : Geometry) → UnwantedIsIdle g }
{}

ghost use Rattle.geometry.specs.declared.geometry.Geometry.{Geometry};
ghost use Rattle.image_laws.specs.Kills.{DeadFlagsKeep, DeadEntryKeeps, KillCounts, UnwantedLeaves};

/// Killing an entry of no live page keeps the image, also where it is cut off.
pub fn dead_keeps()
    ensures flags { (g : Geometry) → DeadFlagsKeep g }
    ensures entry { (g : Geometry) → DeadEntryKeeps g }
{}

/// A kill takes one from the count of entries that are to be killed.
pub fn kills_count()
    ensures counts { (g : Geometry) → KillCounts g }
    ensures unwanted { (g : Geometry) → UnwantedLeaves g }
{}

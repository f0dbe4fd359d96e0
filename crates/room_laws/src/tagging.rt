ghost use Rattle.geometry.specs.declared.geometry.Geometry.{Geometry};
ghost use Rattle.room_laws.specs.Tags.{TagsAreOnce, TagsAreKept, TagsAreNamed};

/// In a tidy image each tag is that of one live page at most, its table tells which tags there are, and index pages name data pages.
pub fn tags_tell()
    ensures once { (g : Geometry) → TagsAreOnce g }
    ensures kept { (g : Geometry) → TagsAreKept g }
    ensures named { (g : Geometry) → TagsAreNamed g }
{}

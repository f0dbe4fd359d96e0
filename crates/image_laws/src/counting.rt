ghost use Rattle.geometry.specs.declared.geometry.Geometry.{Geometry};
ghost use Rattle.image_laws.specs.PageCounts.{TidyCounts};
ghost use Rattle.image_laws.specs.BlockCounts.{BlocksSplit, IndexInOthers, ReserveRoom};

/// A tidy image has just the pages that its table needs.
pub fn tidy_counts()
    ensures { (g : Geometry) → TidyCounts g }
{}

/// What the blocks of an image hold.
pub fn blocks_hold()
    ensures split { (g : Geometry) → BlocksSplit g }
    ensures index { (g : Geometry) → IndexInOthers g }
    ensures room { (g : Geometry) → ReserveRoom g }
{}

ghost use Rattle.geometry.specs.declared.geometry.Geometry.{Geometry};
ghost use Rattle.image_laws.specs.IndexStage.{DoubledKeeps, DamagedHeadKeeps, HeadlessIsIdle, UncountedLeaves};

/// The kills of the index stage keep the image, also where they are cut off.
pub fn index_stage_keeps()
    ensures doubled { (g : Geometry) → DoubledKeeps g }
    ensures damaged { (g : Geometry) → DamagedHeadKeeps g }
    ensures headless { (g : Geometry) → HeadlessIsIdle g }
    ensures uncounted { (g : Geometry) → UncountedLeaves g }
{}

ghost use Rattle.geometry.specs.declared.geometry.Geometry.{Geometry};
ghost use Rattle.image_laws.specs.TidySteps.{TidyIsTidy, PlacingEntryTidy, PlacingPageTidy, FinishingTidies, KillingTidy, KilledTidies, FreeBlocksFall};
ghost use Rattle.image_laws.specs.TidySteps.{UsedIsNotFree, LiveIsUsed, ProgramsAgree};

/// Each program of a step leaves tidy what it does not touch; finished and killed pages are tidy.
pub fn steps_tidy()
    ensures whole { (g : Geometry) → TidyIsTidy g }
    ensures entry { (g : Geometry) → PlacingEntryTidy g }
    ensures page { (g : Geometry) → PlacingPageTidy g }
    ensures finishing { (g : Geometry) → FinishingTidies g }
    ensures killing { (g : Geometry) → KillingTidy g }
    ensures killed { (g : Geometry) → KilledTidies g }
{}

/// A step takes at most one free block.
pub fn blocks_stay()
    ensures agree { (g : Geometry) → ProgramsAgree g }
    ensures fall { (g : Geometry) → FreeBlocksFall g }
    ensures used { (g : Geometry) → UsedIsNotFree g }
    ensures live { (g : Geometry) → LiveIsUsed g }
{}

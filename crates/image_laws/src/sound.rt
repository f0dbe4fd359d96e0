ghost use Rattle.geometry.specs.declared.geometry.Geometry.{Geometry};
ghost use Rattle.image_laws.specs.SoundSteps.{KeepsItself, KeepsOn, PlacingEntryIsSound, PlacingPageIsSound, FinishingIsSound, RetiringIsSound, KillingIsSound};
ghost use Rattle.image_laws.specs.SoundSteps.{ErasingIsSound};

/// What keeps an image may be done again and again.
pub fn keeping_composes()
    ensures itself { (g : Geometry) → KeepsItself g }
    ensures on { (g : Geometry) → KeepsOn g }
{}

/// Each program of a step leaves the image sound, also where it is cut off.
pub fn steps_are_sound()
    ensures entry { (g : Geometry) → PlacingEntryIsSound g }
    ensures page { (g : Geometry) → PlacingPageIsSound g }
    ensures finishing { (g : Geometry) → FinishingIsSound g }
    ensures retiring { (g : Geometry) → RetiringIsSound g }
    ensures killing { (g : Geometry) → KillingIsSound g }
    ensures erasing { (g : Geometry) → ErasingIsSound g }
{}

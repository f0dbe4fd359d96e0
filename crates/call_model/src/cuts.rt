ghost use Rattle.geometry.specs.declared.geometry.Geometry.{Geometry};
ghost use Rattle.call_model.specs.Taken.{CutsKeepMagics, CutsMixNone, CutsFit};

/// What a power cut leaves of a chip that mounting takes, mounting takes. Of one that the check takes too, the check takes it, where no
/// block is mixed, or the index pages of shared blocks had an entry to spare.
pub fn cuts_are_taken()
    ensures mounts { (g : Geometry) → CutsKeepMagics g }
    ensures unmixed { (g : Geometry) → CutsMixNone g }
    ensures fits { (g : Geometry) → CutsFit g }
{}

ghost use Rattle.geometry.specs.declared.geometry.Geometry.{Geometry};
ghost use Rattle.renew_laws.specs.Tails.{TailStays, TailBeside, TailDropped, TailCopied, TailReadied, TailGrown, TailTogether};

/// What leaves a clean tail clean, and what makes it clean.
pub fn tails_stay()
    ensures stays { (g : Geometry) → TailStays g }
    ensures beside { (g : Geometry) → TailBeside g }
    ensures dropped { (g : Geometry) → TailDropped g }
    ensures copied { (g : Geometry) → TailCopied g }
    ensures readied { (g : Geometry) → TailReadied g }
    ensures grown { (g : Geometry) → TailGrown g }
    ensures together { (g : Geometry) → TailTogether g }
{}

ghost use Rattle.geometry.specs.declared.geometry.Geometry.{Geometry};
ghost use Rattle.trim_laws.specs.Wear.{CutsWhole, FreshAbove, FreshWears, NextRises, OthersKeep, ProgramsKeep};

/// What programs and a block that is made fresh do to erase counts, and what follows for those of all blocks.
pub fn counts_are_kept()
    ensures programs { (g : Geometry) → ProgramsKeep g }
    ensures fresh { (g : Geometry) → FreshWears g }
    ensures whole { (g : Geometry) → CutsWhole g }
    ensures others { (g : Geometry) → OthersKeep g }
    ensures next { (g : Geometry) → NextRises g }
    ensures above { (g : Geometry) → FreshAbove g }
{}

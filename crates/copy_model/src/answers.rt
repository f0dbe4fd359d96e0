ghost use Rattle.geometry.specs.declared.geometry.Geometry.{Geometry};
ghost use Rattle.copy_model.specs.Answers.{OpensWorking, PutsPiece, ClosesFirst, GivesUp, Marks, Places, Clears, RemovesFile, RemovesNone, StatsFile};
ghost use Rattle.copy_model.specs.Answers.{StatsNone, Informed, OpensFile, OpensNone, ReadsOn};
ghost use Rattle.copy_model.specs.Steps.{OneStep, OnePage};

/// What the calls are answered that fill the working file and put it in its place.
pub fn filling_is_answered()
    ensures opens { (g : Geometry) → OpensWorking g }
    ensures puts { (g : Geometry) → PutsPiece g }
    ensures closes { (g : Geometry) → ClosesFirst g }
    ensures gives_up { (g : Geometry) → GivesUp g }
    ensures marks { (g : Geometry) → Marks g }
    ensures clears { (g : Geometry) → Clears g }
    ensures places { (g : Geometry) → Places g }
{}

/// What the calls are answered that look at a file, or remove one.
pub fn looking_is_answered()
    ensures removes { (g : Geometry) → RemovesFile g }
    ensures removes_none { (g : Geometry) → RemovesNone g }
    ensures stats { (g : Geometry) → StatsFile g }
    ensures stats_none { (g : Geometry) → StatsNone g }
    ensures informs { (g : Geometry) → Informed g }
    ensures opens { (g : Geometry) → OpensFile g }
    ensures opens_none { (g : Geometry) → OpensNone g }
    ensures reads { (g : Geometry) → ReadsOn g }
{}

/// A cut in such a call leaves the table before it, or the one after it.
pub fn cuts_are_whole()
    ensures one { (g : Geometry) → OneStep g }
    ensures page { (g : Geometry) → OnePage g }
{}

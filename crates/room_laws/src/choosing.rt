ghost use Rattle.geometry.specs.declared.geometry.Geometry.{Geometry};
ghost use Rattle.room_laws.specs.Choosing.{NoneIsCandidate, ChosenIsCandidate, ChosenIsPlain};

/// The chosen block is one that is worth cleaning and fits, and none is chosen only where there is none such.
pub fn chosen_is_candidate()
    ensures none { (g : Geometry) → NoneIsCandidate g }
    ensures some { (g : Geometry) → ChosenIsCandidate g }
    ensures plain { (g : Geometry) → ChosenIsPlain g }
{}
